//! What ends the item before it, and what a number goes on with.

ghost use Rattle.std.specs.Prelude.{◌≡◌};
ghost use Rattle.c_lexer.specs.Class.{ends_word, ends_number, is_lone_mark, ends_mark};
ghost use Rattle.c_lexer.specs.Unit.{is_pair, is_single};

use c_chars::Dialect;
use c_grammar::bytes;

/// Of each byte, whether it ends a word.
const ENDS_WORD: [bool; 256] = [
    true, true, true, true, true, true, true, true, true, true, true, true, true, true, true, true,
    true, true, true, true, true, true, true, true, true, true, true, true, true, true, true, true,
    true, true, false, true, false, true, true, false, true, true, true, true, true, true, true,
    true, false, false, false, false, false, false, false, false, false, false, true, true, true,
    true, true, true, true, false, false, false, false, false, false, false, false, false, false,
    false, false, false, false, false, false, false, false, false, false, false, false, false,
    false, false, false, true, false, true, true, false, true, false, false, false, false, false,
    false, false, false, false, false, false, false, false, false, false, false, false, false,
    false, false, false, false, false, false, false, false, true, true, true, true, true, false,
    false, false, false, false, false, false, false, false, false, false, false, false, false,
    false, false, false, false, false, false, false, false, false, false, false, false, false,
    false, false, false, false, false, false, false, false, false, false, false, false, false,
    false, false, false, false, false, false, false, false, false, false, false, false, false,
    false, false, false, false, false, false, false, false, false, false, false, false, false,
    false, false, false, false, false, false, false, false, false, false, false, false, false,
    false, false, false, false, false, false, false, false, false, false, false, false, false,
    false, false, false, false, false, false, false, false, false, false, false, false, false,
    false, false, false, false, false, false, false, false, false, false, false, false, false,
    false, false, false, false, false, false, false, false, false, false,
];

/// What ends a word that stands before it, which begins no literal: no letter, no digit, no quote, no
/// backslash and no byte past ASCII.
#[inline(always)]
pub(crate) fn ends_word(byte: u8) -> bool
    ensures { result ≡ ends_word byte }
{
    c_chars::told(&ENDS_WORD, byte)
}

/// Of each byte, whether it ends a number.
const ENDS_NUMBER: [bool; 256] = [
    true, true, true, true, true, true, true, true, true, true, true, true, true, true, true, true,
    true, true, true, true, true, true, true, true, true, true, true, true, true, true, true, true,
    true, true, true, true, false, true, true, false, true, true, true, false, true, false, false,
    true, false, false, false, false, false, false, false, false, false, false, true, true, true,
    true, true, true, true, false, false, false, false, false, false, false, false, false, false,
    false, false, false, false, false, false, false, false, false, false, false, false, false,
    false, false, false, true, false, true, true, false, true, false, false, false, false, false,
    false, false, false, false, false, false, false, false, false, false, false, false, false,
    false, false, false, false, false, false, false, false, true, true, true, true, true, false,
    false, false, false, false, false, false, false, false, false, false, false, false, false,
    false, false, false, false, false, false, false, false, false, false, false, false, false,
    false, false, false, false, false, false, false, false, false, false, false, false, false,
    false, false, false, false, false, false, false, false, false, false, false, false, false,
    false, false, false, false, false, false, false, false, false, false, false, false, false,
    false, false, false, false, false, false, false, false, false, false, false, false, false,
    false, false, false, false, false, false, false, false, false, false, false, false, false,
    false, false, false, false, false, false, false, false, false, false, false, false, false,
    false, false, false, false, false, false, false, false, false, false, false, false, false,
    false, false, false, false, false, false, false, false, false, false,
];

/// What ends a number that stands before it: no part of one, no sign, no quote, no backslash and no byte
/// past ASCII.
#[inline(always)]
pub(crate) fn ends_number(byte: u8) -> bool
    ensures { result ≡ ends_number byte }
{
    c_chars::told(&ENDS_NUMBER, byte)
}

/// Of each byte, whether it is a punctuator by itself.
const LONE_MARKS: [bool; 256] = [
    false, false, false, false, false, false, false, false, false, false, false, false, false,
    false, false, false, false, false, false, false, false, false, false, false, false, false,
    false, false, false, false, false, false, false, false, false, false, false, false, false,
    false, true, true, false, false, true, false, false, false, false, false, false, false, false,
    false, false, false, false, false, false, true, false, false, false, false, false, false,
    false, false, false, false, false, false, false, false, false, false, false, false, false,
    false, false, false, false, false, false, false, false, false, false, false, false, true,
    false, true, false, false, false, false, false, false, false, false, false, false, false,
    false, false, false, false, false, false, false, false, false, false, false, false, false,
    false, false, false, false, false, true, false, true, true, false, false, false, false, false,
    false, false, false, false, false, false, false, false, false, false, false, false, false,
    false, false, false, false, false, false, false, false, false, false, false, false, false,
    false, false, false, false, false, false, false, false, false, false, false, false, false,
    false, false, false, false, false, false, false, false, false, false, false, false, false,
    false, false, false, false, false, false, false, false, false, false, false, false, false,
    false, false, false, false, false, false, false, false, false, false, false, false, false,
    false, false, false, false, false, false, false, false, false, false, false, false, false,
    false, false, false, false, false, false, false, false, false, false, false, false, false,
    false, false, false, false, false, false, false, false, false, false, false, false, false,
    false, false, false, false, false, false, false,
];

/// A punctuator by itself, that none begins with that is longer.
#[inline(always)]
pub(crate) fn is_lone_mark(byte: u8) -> bool
    ensures { result ≡ is_lone_mark byte }
{
    c_chars::told(&LONE_MARKS, byte)
}

/// Of each byte, whether it ends a punctuator of one byte.
const ENDS_MARK: [bool; 256] = [
    true, true, true, true, true, true, true, true, true, true, true, true, true, true, true, true,
    true, true, true, true, true, true, true, true, true, true, true, true, true, true, true, true,
    true, true, true, false, true, false, false, true, true, true, false, false, true, false,
    false, false, false, false, false, false, false, false, false, false, false, false, false,
    true, false, false, false, true, true, true, true, true, true, true, true, true, true, true,
    true, true, true, true, true, true, true, true, true, true, true, true, true, true, true, true,
    true, true, true, true, true, true, true, true, true, true, true, true, true, true, true, true,
    true, true, true, true, true, true, true, true, true, true, true, true, true, true, true, true,
    true, true, false, true, true, true, true, true, true, true, true, true, true, true, true,
    true, true, true, true, true, true, true, true, true, true, true, true, true, true, true, true,
    true, true, true, true, true, true, true, true, true, true, true, true, true, true, true, true,
    true, true, true, true, true, true, true, true, true, true, true, true, true, true, true, true,
    true, true, true, true, true, true, true, true, true, true, true, true, true, true, true, true,
    true, true, true, true, true, true, true, true, true, true, true, true, true, true, true, true,
    true, true, true, true, true, true, true, true, true, true, true, true, true, true, true, true,
    true, true, true, true, true, true, true, true, true, true, true, true, true, true, true, true,
    true, true, true, true, true, true, true,
];

/// What ends a punctuator of one byte that stands before it: it goes on with none, and neither a number
/// nor a comment is begun.
#[inline(always)]
pub(crate) fn ends_mark(byte: u8) -> bool
    ensures { result ≡ ends_mark byte }
{
    c_chars::told(&ENDS_MARK, byte)
}

/// Whether a number goes on with both of these as one unit (C11 6.4.8).
#[inline(always)]
pub(crate) fn is_pair(dialect: Dialect, byte: u8, next: u8) -> bool
    ensures { result ≡ is_pair dialect byte next }
{
    (bytes::is_exponent(byte) && bytes::is_sign(next)) || bytes::is_separated(dialect, byte, next)
}

/// Whether a number goes on with this one by itself (C11 6.4.8).
#[inline(always)]
pub(crate) fn is_single(byte: u8) -> bool
    ensures { result ≡ is_single byte }
{
    bytes::is_word(byte) || byte == b'.'
}
