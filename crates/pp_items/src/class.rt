//! Classes of characters (C11 6.4), and spellings of one unit.

ghost use Rattle.std.specs.Prelude.{◌≡◌, ◌==◌, ◌||◌, ◌&&◌, not};
ghost use Rattle.std.specs.List.{list_all};
ghost use Rattle.unicode_ident.specs.Ident.{is_xid_start, is_xid_continue};
ghost use Rattle.c_grammar.specs.Grammar.{is_new_line, is_digit, is_letter, is_hex, is_sign, is_exponent, is_wide};
ghost use Rattle.c_grammar.specs.Grammar.{is_universal_name, is_letter_unit, is_word_unit, is_number_head};
ghost use Rattle.c_grammar.specs.Grammar.{is_number_unit, is_quoted_unit, is_separated, is_one, is_two};

use c_chars::Dialect;
use c_grammar::bytes::{is_hex, is_separable};
pub(crate) use c_grammar::bytes::{
    is_digit, is_exponent, is_letter, is_new_line, is_quote_mark, is_sign, is_white,
};
use c_grammar::only_char;

/// Hexadecimal digits.
fn are_hex(bytes: &[u8]) -> bool
    ensures { result ≡ list_all is_hex bytes.now }
{
    bytes.iter().all(|byte| is_hex(*byte))
}

/// A universal character name (6.4.3).
#[tactic(auto, unfolding(c_grammar::specs::Grammar::is_universal_name))]
fn is_universal_name(unit: &[u8]) -> bool
    ensures { result ≡ is_universal_name unit.now }
{
    match unit {
        [backslash, letter, digits @ ..] => {
            *backslash == b'\\'
                && ((*letter == b'u' && digits.len() == 4)
                    || (*letter == b'U' && digits.len() == 8))
                && are_hex(digits)
        }
        _ => false,
    }
}

/// A character past ASCII that starts an identifier.
fn starts_word(unit: &[u8]) -> bool
    ensures { result ≡ is_wide is_xid_start unit.now }
{
    match only_char(unit) {
        Some(character) => unicode_ident::is_xid_start(character),
        None => false,
    }
}

/// A character past ASCII that starts no identifier.
pub(crate) fn starts_no_word(unit: &[u8]) -> bool
    ensures { result ≡ is_wide (λ c. not (is_xid_start c)) unit.now }
{
    match only_char(unit) {
        Some(character) => !unicode_ident::is_xid_start(character),
        None => false,
    }
}

/// A character past ASCII that continues an identifier.
fn continues_word(unit: &[u8]) -> bool
    ensures { result ≡ is_wide is_xid_continue unit.now }
{
    match only_char(unit) {
        Some(character) => unicode_ident::is_xid_continue(character),
        None => false,
    }
}

/// One letter.
fn is_one_letter(unit: &[u8]) -> bool
    ensures { result ≡ is_one is_letter unit.now }
{
    match unit {
        [letter] => is_letter(*letter),
        _ => false,
    }
}

/// One digit.
fn is_one_digit(unit: &[u8]) -> bool
    ensures { result ≡ is_one is_digit unit.now }
{
    match unit {
        [digit] => is_digit(*digit),
        _ => false,
    }
}

/// What may begin an identifier (6.4.2.1).
#[tactic(auto, unfolding(c_grammar::specs::Grammar::is_letter_unit))]
pub(crate) fn is_letter_unit(unit: &[u8]) -> bool
    ensures { result ≡ is_letter_unit unit.now }
{
    is_one_letter(unit) || (is_universal_name(unit) || starts_word(unit))
}

/// What an identifier may go on with.
#[tactic(auto, unfolding(c_grammar::specs::Grammar::is_word_unit))]
pub(crate) fn is_word_unit(unit: &[u8]) -> bool
    ensures { result ≡ is_word_unit unit.now }
{
    is_one_digit(unit) || (is_letter_unit(unit) || continues_word(unit))
}

/// What begins a number: a digit, or a point and a digit (6.4.8).
#[tactic(auto, unfolding(c_grammar::specs::Grammar::is_number_head))]
pub(crate) fn is_number_head(unit: &[u8]) -> bool
    ensures { result ≡ is_number_head unit.now }
{
    match unit {
        [digit] => is_digit(*digit),
        [point, digit] => *point == b'.' && is_digit(*digit),
        _ => false,
    }
}

/// A point.
fn is_point(unit: &[u8]) -> bool
    ensures { result ≡ is_one (λ c. c == 46) unit.now }
{
    match unit {
        [point] => *point == b'.',
        _ => false,
    }
}

/// An exponent with its sign.
fn is_signed(unit: &[u8]) -> bool
    ensures { result ≡ is_two is_exponent is_sign unit.now }
{
    match unit {
        [exponent, sign] => is_exponent(*exponent) && is_sign(*sign),
        _ => false,
    }
}

/// A digit separator with what it separates (C23 6.4.4.1).
fn is_separated(dialect: Dialect, unit: &[u8]) -> bool
    ensures { result ≡ is_separated dialect unit.now }
{
    match dialect {
        Dialect::C11 => false,
        Dialect::C23 => match unit {
            [separator, separated] => *separator == b'\'' && is_separable(*separated),
            _ => false,
        },
    }
}

/// What a number may go on with.
#[tactic(auto, unfolding(c_grammar::specs::Grammar::is_number_unit))]
pub(crate) fn is_number_unit(dialect: Dialect, unit: &[u8]) -> bool
    ensures { result ≡ is_number_unit dialect unit.now }
{
    is_word_unit(unit) || is_point(unit) || is_signed(unit) || is_separated(dialect, unit)
}

/// What stands for one character between quotes (6.4.4.4, 6.4.5).
#[tactic(auto, unfolding(c_grammar::specs::Grammar::is_quoted_unit))]
pub(crate) fn is_quoted_unit(quote: u8, unit: &[u8]) -> bool
    ensures { result ≡ is_quoted_unit quote unit.now }
{
    match unit {
        [byte] => *byte != quote && *byte != b'\\' && !is_new_line(*byte),
        [backslash, byte] => *backslash == b'\\' && !is_new_line(*byte),
        _ => false,
    }
}
