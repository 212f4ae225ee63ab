//! What an item's characters are, without keeping them.

ghost use Rattle.std.specs.Prelude.{◌≡◌, ◌≤◌, ◌++◌, ◌∷◌, [], length, slice_get};
ghost use Rattle.c_chars.specs.Characters.{bytes_of};
ghost use Rattle.c_chars.specs.declared.TheConstants.{LIMIT};
ghost use Rattle.c_grammar.specs.Grammar.{is_same, is_exponent};
ghost use Rattle.c_grammar.specs.Touch.{is_front, ends};
ghost use Rattle.std.specs.Option.{option_to_list};
ghost use Rattle.touching.specs.Spelling.{spelling};

use c_chars::{Chars, Dialect, LIMIT};
use c_grammar::bytes;

/// The first character; none where there is none.
pub(crate) fn first_char(dialect: Dialect, raw: &[u8]) -> Option<u8>
    requires { length raw.now ≤ LIMIT }
    ensures { result ≡ slice_get (spelling dialect raw.now) 0 }
{
    match Chars::new(raw, dialect).peek(0) {
        Some(character) => Some(character.byte),
        None => None,
    }
}

/// Whether no character is left.
fn is_ended(chars: &Chars<'_>) -> bool
    ensures { result ≡ is_same (bytes_of chars.now.chars) [] }
{
    match chars.peek(0) {
        Some(_) => false,
        None => true,
    }
}

/// Whether these are all characters.
pub(crate) fn is_spelled(dialect: Dialect, raw: &[u8], word: &[u8]) -> bool
    requires { length raw.now ≤ LIMIT }
    ensures { result ≡ is_same (spelling dialect raw.now) word.now }
{
    let mut chars = Chars::new(raw, dialect);
    for byte in word {
        match chars.next() {
            Some(character) => {
                if character.byte != *byte {
                    return false;
                }
            }
            None => return false,
        }
    }
    is_ended(&chars)
}

/// Whether no character is left, and this one isn't there.
fn is_done(chars: &Chars<'_>, right: Option<u8>) -> bool
    ensures { result ≡ is_front (bytes_of chars.now.chars ++ option_to_list right) [] }
{
    match chars.peek(0) {
        Some(_) => false,
        None => match right {
            Some(_) => false,
            None => true,
        },
    }
}

/// Whether this character, where there is one, is that byte.
fn follows(right: Option<u8>, byte: u8) -> bool
    ensures { result ≡ is_front (option_to_list right) (byte ∷ []) }
{
    match right {
        Some(character) => character == byte,
        None => true,
    }
}

/// Whether a word begins with these characters and then this one.
pub(crate) fn begins(dialect: Dialect, raw: &[u8], right: Option<u8>, word: &[u8]) -> bool
    requires { length raw.now ≤ LIMIT }
    ensures { result ≡ is_front (spelling dialect raw.now ++ option_to_list right) word.now }
{
    let mut chars = Chars::new(raw, dialect);
    for byte in word {
        match chars.next() {
            Some(character) => {
                if character.byte != *byte {
                    return false;
                }
            }
            None => return follows(right, *byte),
        }
    }
    is_done(&chars, right)
}

/// Whether the last character is one that a sign may follow in a number.
pub(crate) fn ends_in_exponent(dialect: Dialect, raw: &[u8]) -> bool
    requires { length raw.now ≤ LIMIT }
    ensures { result ≡ ends is_exponent (spelling dialect raw.now) }
{
    let mut chars = Chars::new(raw, dialect);
    let mut last = false;
    while let Some(character) = chars.next() {
        last = bytes::is_exponent(character.byte);
    }
    last
}
