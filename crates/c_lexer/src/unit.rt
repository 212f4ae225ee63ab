//! The units of words and numbers (C11 6.4.2.1, 6.4.3, 6.4.8), and their runs.

ghost use Rattle.std.specs.Prelude.{◌≡◌, ◌≤◌, ◌==◌, IsTrue, IsFalse, IfSome, MatchOption};
ghost use Rattle.unicode_ident.specs.Ident.{is_xid_start, is_xid_continue};
ghost use Rattle.c_chars.specs.Characters.{bytes_of};
ghost use Rattle.c_grammar.specs.Grammar.{is_digit, is_universal_name, is_word_unit, is_number_unit};
ghost use Rattle.c_lexer.specs.Unit.{BeginsUnit, IsUnitOff, IsRunOff, is_rare_unit, begins_hex, begins_name};
ghost use Rattle.c_lexer.specs.Unit.{begins_pair};
ghost use Rattle.c_lexer.specs.Cut.{IsCutOff};
ghost use Rattle.c_lexer.specs.Reading.{AreOwnBytes, IsBegun};

use crate::line::Begun;
use crate::{class, front, line, utf8};
use c_chars::{Chars, Dialect};
use c_grammar::{ItemKind, bytes};

/// Whether the text begins with so many hexadecimal digits.
fn begins_hex(text: &Chars, count: usize) -> bool
    requires { count ≤ 8 }
    ensures { result ≡ begins_hex count (bytes_of text.now.chars) }
{
    for index in 0..count {
        if !bytes::is_hex(front::byte_at(text, index)) {
            return false;
        }
    }
    true
}

/// Whether the text begins with a backslash, this letter and so many hexadecimal digits.
fn begins_name(text: &Chars, letter: u8, count: usize) -> bool
    requires letter { IsFalse (letter == 0) }
    requires count { count ≤ 8 }
    ensures { result ≡ begins_name letter count (bytes_of text.now.chars) }
{
    front::byte_at(text, 0) == b'\\'
        && front::byte_at(text, 1) == letter
        && begins_hex(&front::behind(text, 2), count)
}

/// What stands behind the universal character name that the text begins with; none where it begins
/// with none.
#[inline(never)]
fn behind_name<'s>(text: &Chars<'s>) -> Option<Chars<'s>>
    ensures { MatchOption result
        (BeginsUnit is_universal_name (bytes_of text.now.chars) → ⊥)
        (λ left. IsUnitOff is_universal_name text.now left) }
{
    if begins_name(text, b'u', 4) {
        return Some(front::behind(text, 6));
    }
    if begins_name(text, b'U', 8) {
        return Some(front::behind(text, 10));
    }
    None
}

/// Whether the text begins with a universal character name, or with a character past ASCII that
/// starts an identifier.
#[inline(never)]
pub(crate) fn begins_rare_word(text: &Chars) -> bool
    ensures yes { IsTrue result → BeginsUnit (is_rare_unit is_xid_start) (bytes_of text.now.chars) }
    ensures no { IsFalse result → BeginsUnit (is_rare_unit is_xid_start) (bytes_of text.now.chars) → ⊥ }
{
    if !bytes::is_beyond(front::byte_at(text, 0)) {
        return false;
    }
    if let Some(_) = behind_name(text) {
        return true;
    }
    match utf8::next_char(text) {
        Some((character, _)) => unicode_ident::is_xid_start(character),
        None => false,
    }
}

/// What stands behind the universal character name, or the character past ASCII that continues an
/// identifier, that the text begins with; none where it begins with none.
#[inline(always)]
fn behind_rare<'s>(text: &Chars<'s>) -> Option<Chars<'s>>
    ensures { MatchOption result
        (BeginsUnit (is_rare_unit is_xid_continue) (bytes_of text.now.chars) → ⊥)
        (λ left. IsUnitOff (is_rare_unit is_xid_continue) text.now left) }
{
    if !bytes::is_beyond(front::byte_at(text, 0)) {
        return None;
    }
    if let Some(left) = behind_name(text) {
        return Some(left);
    }
    let Some((character, left)) = utf8::next_char(text) else {
        return None;
    };
    if unicode_ident::is_xid_continue(character) {
        Some(left)
    } else {
        None
    }
}

/// What stands behind the word that the text goes on with.
#[inline(always)]
pub(crate) fn behind_word<'s>(text: &Chars<'s>) -> Chars<'s>
    ensures { IsRunOff is_word_unit text.now result }
{
    let mut rest = line::behind_word(text);
    while let Some(left) = behind_rare(&rest) {
        rest = line::behind_word(&left);
    }
    rest
}

/// Whether two characters come next with both of which a number goes on as one unit.
#[inline(always)]
fn begins_pair(dialect: Dialect, text: &Chars) -> bool
    ensures { result ≡ begins_pair dialect (bytes_of text.now.chars) }
{
    class::is_pair(dialect, front::byte_at(text, 0), front::byte_at(text, 1))
}

/// What stands behind the unit with which a number goes on; none where it doesn't.
fn behind_number_unit<'s>(dialect: Dialect, text: &Chars<'s>) -> Option<Chars<'s>>
    ensures { MatchOption result
        (BeginsUnit (is_number_unit dialect) (bytes_of text.now.chars) → ⊥)
        (λ left. IsUnitOff (is_number_unit dialect) text.now left) }
{
    if begins_pair(dialect, text) {
        return Some(front::behind(text, 2));
    }
    if class::is_single(front::byte_at(text, 0)) {
        return Some(front::behind(text, 1));
    }
    behind_rare(text)
}

/// The number that a digit begins and what stands behind it, where it is of letters and digits and a plain byte
/// behind it ends it; none elsewhere.
#[inline(always)]
pub(crate) fn cut_plain_number<'s>(
    dialect: Dialect,
    begun: &Begun<'s>,
) -> Option<(ItemKind, Chars<'s>)>
    requires dialect { dialect ≡ begun.now.text.dialect }
    requires begun { IsBegun begun.now.text begun.now.first begun.now.behind }
    requires digit { IsTrue (is_digit begun.now.first.byte) }
    ensures off { IfSome result (λ r. IsCutOff begun.now.text r.1 r.0) }
    ensures plain { IfSome result (λ r. AreOwnBytes begun.now.first begun.now.behind r.1) }
{
    let mut left = begun.behind.ahead();
    left.pass_word();
    match left.peek_plain() {
        Some(character) => {
            if class::ends_number(character.byte) {
                Some((ItemKind::Number, left))
            } else {
                None
            }
        }
        None => None,
    }
}

/// What stands behind the number whose head stands before the text.
pub(crate) fn behind_number<'s>(dialect: Dialect, text: &Chars<'s>) -> Chars<'s>
    ensures { IsRunOff (is_number_unit dialect) text.now result }
{
    let mut rest = text.ahead();
    while let Some(left) = behind_number_unit(dialect, &rest) {
        rest = left;
    }
    rest
}
