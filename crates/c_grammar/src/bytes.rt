//! Classes of bytes (C11 6.4): what the characters are that items are made of.

ghost use Rattle.std.specs.Prelude.{◌≡◌, ◌||◌, ◌&&◌, ◌==◌, ◌∷◌, [], nat_le};
ghost use Rattle.c_grammar.specs.Bytes.{is_quote_mark, begins_punctuator, is_beyond};
ghost use Rattle.c_grammar.specs.Grammar.{is_white, is_new_line, is_digit, is_letter, is_sign, is_exponent, is_hex};
ghost use Rattle.c_grammar.specs.Grammar.{is_separated};

use c_chars::Dialect;

/// Of each byte, whether it is white space or a new-line.
const BLANK_BYTES: [bool; 256] = [
    false, false, false, false, false, false, false, false, false, true, true, true, true, true,
    false, false, false, false, false, false, false, false, false, false, false, false, false,
    false, false, false, false, false, true, false, false, false, false, false, false, false,
    false, false, false, false, false, false, false, false, false, false, false, false, false,
    false, false, false, false, false, false, false, false, false, false, false, false, false,
    false, false, false, false, false, false, false, false, false, false, false, false, false,
    false, false, false, false, false, false, false, false, false, false, false, false, false,
    false, false, false, false, false, false, false, false, false, false, false, false, false,
    false, false, false, false, false, false, false, false, false, false, false, false, false,
    false, false, false, false, false, false, false, false, false, false, false, false, false,
    false, false, false, false, false, false, false, false, false, false, false, false, false,
    false, false, false, false, false, false, false, false, false, false, false, false, false,
    false, false, false, false, false, false, false, false, false, false, false, false, false,
    false, false, false, false, false, false, false, false, false, false, false, false, false,
    false, false, false, false, false, false, false, false, false, false, false, false, false,
    false, false, false, false, false, false, false, false, false, false, false, false, false,
    false, false, false, false, false, false, false, false, false, false, false, false, false,
    false, false, false, false, false, false, false, false, false, false, false, false, false,
    false, false, false, false, false, false, false, false, false, false, false, false, false,
    false, false, false, false, false, false, false, false,
];

/// White space and new-lines (C11 6.4p3).
#[inline(always)]
pub fn is_blank(byte: u8) -> bool
    ensures { result ≡ (is_white byte || is_new_line byte) }
{
    c_chars::told(&BLANK_BYTES, byte)
}

/// White space that ends no line (C11 6.4p3).
#[tactic(auto, unfolding(crate::specs::Grammar::is_white))]
#[inline(always)]
pub fn is_white(byte: u8) -> bool
    ensures { result ≡ is_white byte }
{
    matches!(byte, 9 | 11 | 12 | 13 | b' ')
}

/// The new-line character (C11 5.1.1.2).
#[tactic(auto, unfolding(crate::specs::Grammar::is_new_line))]
#[inline(always)]
pub fn is_new_line(byte: u8) -> bool
    ensures { result ≡ is_new_line byte }
{
    byte == b'\n'
}

/// A decimal digit (C11 6.4.2.1).
#[tactic(auto, unfolding(crate::specs::Grammar::is_digit))]
#[inline(always)]
pub fn is_digit(byte: u8) -> bool
    ensures { result ≡ is_digit byte }
{
    byte.is_ascii_digit()
}

/// Of each byte, whether it is a letter, `_` or `$`.
const LETTER_BYTES: [bool; 256] = [
    false, false, false, false, false, false, false, false, false, false, false, false, false,
    false, false, false, false, false, false, false, false, false, false, false, false, false,
    false, false, false, false, false, false, false, false, false, false, true, false, false,
    false, false, false, false, false, false, false, false, false, false, false, false, false,
    false, false, false, false, false, false, false, false, false, false, false, false, false,
    true, true, true, true, true, true, true, true, true, true, true, true, true, true, true, true,
    true, true, true, true, true, true, true, true, true, true, false, false, false, false, true,
    false, true, true, true, true, true, true, true, true, true, true, true, true, true, true,
    true, true, true, true, true, true, true, true, true, true, true, true, false, false, false,
    false, false, false, false, false, false, false, false, false, false, false, false, false,
    false, false, false, false, false, false, false, false, false, false, false, false, false,
    false, false, false, false, false, false, false, false, false, false, false, false, false,
    false, false, false, false, false, false, false, false, false, false, false, false, false,
    false, false, false, false, false, false, false, false, false, false, false, false, false,
    false, false, false, false, false, false, false, false, false, false, false, false, false,
    false, false, false, false, false, false, false, false, false, false, false, false, false,
    false, false, false, false, false, false, false, false, false, false, false, false, false,
    false, false, false, false, false, false, false, false, false, false, false, false, false,
    false, false, false, false, false, false, false, false, false, false, false, false, false,
];

/// A nondigit (C11 6.4.2.1): a letter or `_`; and `$`.
#[inline(always)]
pub fn is_letter(byte: u8) -> bool
    ensures { result ≡ is_letter byte }
{
    c_chars::told(&LETTER_BYTES, byte)
}

/// A hexadecimal digit (C11 6.4.4.1).
#[tactic(auto, unfolding(crate::specs::Grammar::is_digit, crate::specs::Grammar::is_hex))]
#[inline(always)]
pub fn is_hex(byte: u8) -> bool
    ensures { result ≡ is_hex byte }
{
    byte.is_ascii_hexdigit()
}

/// A sign, as it stands behind an exponent (C11 6.4.8).
#[tactic(auto, unfolding(crate::specs::Grammar::is_sign))]
#[inline(always)]
pub fn is_sign(byte: u8) -> bool
    ensures { result ≡ is_sign byte }
{
    byte == b'+' || byte == b'-'
}

/// A letter that a sign may follow in a number (C11 6.4.8).
#[tactic(auto, unfolding(crate::specs::Grammar::is_exponent))]
#[inline(always)]
pub fn is_exponent(byte: u8) -> bool
    ensures { result ≡ is_exponent byte }
{
    matches!(byte, b'e' | b'E' | b'p' | b'P')
}

/// A letter or a digit (C11 6.4.2.1).
#[inline(always)]
pub fn is_word(byte: u8) -> bool
    ensures { result ≡ (is_letter byte || is_digit byte) }
{
    c_chars::is_word_byte(byte)
}

/// An apostrophe or a quotation mark (C11 6.4.4.4, 6.4.5).
#[inline(always)]
pub fn is_quote_mark(byte: u8) -> bool
    ensures { result ≡ is_quote_mark byte }
{
    matches!(byte, b'\'' | b'"')
}

/// A backslash, or a byte past ASCII: what begins a universal character name (C11 6.4.3), or a character
/// past ASCII.
#[tactic(auto, unfolding(crate::specs::Bytes::is_beyond))]
#[inline(always)]
pub fn is_beyond(byte: u8) -> bool
    ensures { result ≡ is_beyond byte }
{
    byte == b'\\' || byte >= 128
}

/// Of each byte, whether it is the first of a punctuator.
const PUNCTUATOR_BYTES: [bool; 256] = [
    false, false, false, false, false, false, false, false, false, false, false, false, false,
    false, false, false, false, false, false, false, false, false, false, false, false, false,
    false, false, false, false, false, false, false, true, false, true, false, true, true, false,
    true, true, true, true, true, true, true, true, false, false, false, false, false, false,
    false, false, false, false, true, true, true, true, true, true, false, false, false, false,
    false, false, false, false, false, false, false, false, false, false, false, false, false,
    false, false, false, false, false, false, false, false, false, false, true, false, true, true,
    false, false, false, false, false, false, false, false, false, false, false, false, false,
    false, false, false, false, false, false, false, false, false, false, false, false, false,
    false, false, true, true, true, true, false, false, false, false, false, false, false, false,
    false, false, false, false, false, false, false, false, false, false, false, false, false,
    false, false, false, false, false, false, false, false, false, false, false, false, false,
    false, false, false, false, false, false, false, false, false, false, false, false, false,
    false, false, false, false, false, false, false, false, false, false, false, false, false,
    false, false, false, false, false, false, false, false, false, false, false, false, false,
    false, false, false, false, false, false, false, false, false, false, false, false, false,
    false, false, false, false, false, false, false, false, false, false, false, false, false,
    false, false, false, false, false, false, false, false, false, false, false, false, false,
    false, false, false, false, false, false, false, false, false, false, false, false, false,
    false, false, false, false,
];

/// The first byte of a punctuator (C11 6.4.6).
#[inline(always)]
pub fn begins_punctuator(byte: u8) -> bool
    ensures { result ≡ begins_punctuator byte }
{
    c_chars::told(&PUNCTUATOR_BYTES, byte)
}

/// What may stand behind a separator of digits (C23 6.4.4.1).
#[tactic(auto, unfolding(crate::specs::Grammar::is_digit))]
#[inline(always)]
pub fn is_separable(next: u8) -> bool
    ensures { result
        ≡ (is_digit next
        || ((nat_le 65 next && nat_le next 90) || (nat_le 97 next && nat_le next 122) || next == 95)) }
{
    next.is_ascii_alphanumeric() || next == b'_'
}

/// Whether these two are a separator of digits and what it separates (C23 6.4.4.1).
#[inline(always)]
pub fn is_separated(dialect: Dialect, byte: u8, next: u8) -> bool
    ensures { result ≡ is_separated dialect (byte ∷ next ∷ []) }
{
    match dialect {
        Dialect::C11 => false,
        Dialect::C23 => byte == b'\'' && is_separable(next),
    }
}
