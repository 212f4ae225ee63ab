//! Characters past ASCII that a text begins with.

ghost use Rattle.std.specs.Prelude.{◌≡◌, ◌≤◌, ◌++◌, ℕ, List, length, take, IsTrue, IsFalse, MatchOption};
ghost use Rattle.c_chars.specs.Characters.{bytes_of};
ghost use Rattle.c_grammar.specs.Grammar.{is_wide};
ghost use Rattle.c_grammar.specs.Utf8.{any_char, only};
ghost use Rattle.c_lexer.specs.Unit.{BeginsUnit, IsUnitOff};

use crate::front;
use c_chars::Chars;
use c_grammar::{char_len, only_char};

/// The one character past ASCII that the next `len` bytes are; none where they are none.
fn char_of(text: &Chars, len: usize) -> Option<char>
    requires { len ≤ 4 }
    ensures { MatchOption result
        ((u rest : List ℕ) → bytes_of text.now.chars ≡ u ++ rest → length u ≡ len → IsFalse (is_wide any_char u))
        (λ c. (len ≤ length text.now.chars) × IsTrue (is_wide (only c) (take len (bytes_of text.now.chars)))) }
{
    let mut bytes: [u8; 4] = [0; 4];
    for index in 0..len {
        match text.peek(index) {
            Some(character) => bytes[index] = character.byte,
            None => return None,
        }
    }
    only_char(&bytes[..len])
}

/// The character past ASCII that the text begins with, and what stands behind it; none where it
/// begins with none.
#[inline(never)]
pub(crate) fn next_char<'s>(text: &Chars<'s>) -> Option<(char, Chars<'s>)>
    ensures { MatchOption result
        (BeginsUnit (is_wide any_char) (bytes_of text.now.chars) → ⊥)
        (λ r. IsUnitOff (is_wide (only r.0)) text.now r.1) }
{
    let Some(first) = text.peek(0) else {
        return None;
    };
    let len = char_len(first.byte);
    match char_of(text, len) {
        Some(character) => Some((character, front::behind(text, len))),
        None => None,
    }
}
