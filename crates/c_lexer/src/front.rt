//! What a text begins with.

ghost use Rattle.std.specs.Prelude.{◌≡◌, ◌≤◌, ◌∷◌, [], get_or, map, nat_eq};
ghost use Rattle.std.specs.List.{starts_with};
ghost use Rattle.c_chars.specs.Characters.{bytes_of};
ghost use Rattle.c_grammar.specs.Bytes.{IsFirst};
ghost use Rattle.c_lexer.specs.Run.{begins_number, first_front};

use c_chars::Chars;
pub(crate) use c_chars::{begins_with, behind};
use c_grammar::bytes;

/// The length of the first entry that begins the text, otherwise 1.
pub(crate) fn first_front(table: &[&[u8]], text: &Chars) -> usize
    ensures { result ≡ first_front (map (λ p. p.now) table.now) (bytes_of text.now.chars) }
{
    for entry in table {
        if begins_with(text, entry) {
            return entry.len();
        }
    }
    1
}

/// The byte of the character that so many others stand before; 0, which begins nothing, where there is none.
#[inline(always)]
pub(crate) fn byte_at(text: &Chars, index: usize) -> u8
    requires { index ≤ 8 }
    ensures { result ≡ get_or (bytes_of text.now.chars) index 0 }
{
    match text.peek(index) {
        Some(character) => character.byte,
        None => 0,
    }
}

/// Whether the text, which begins with this byte, begins with a digit, or with a point and a digit.
#[inline(always)]
pub(crate) fn begins_number(text: &Chars, first: u8) -> bool
    requires { IsFirst first (bytes_of text.now.chars) }
    ensures { result ≡ begins_number (bytes_of text.now.chars) }
{
    bytes::is_digit(first) || (first == b'.' && bytes::is_digit(byte_at(text, 1)))
}

/// Whether the text, which begins with this byte, begins with these two.
#[inline(always)]
pub(crate) fn begins_two(text: &Chars, first: u8, one: u8, two: u8) -> bool
    requires { IsFirst first (bytes_of text.now.chars) }
    ensures { result ≡ starts_with nat_eq (bytes_of text.now.chars) (one ∷ two ∷ []) }
{
    if first != one {
        return false;
    }
    match text.peek(1) {
        Some(character) => two == character.byte,
        None => false,
    }
}
