//! The characters of one line, of a gap and of a word.

ghost use Rattle.std.specs.Prelude.{◌≡◌, ◌∷◌, ◌||◌, ◌+◌, not, IfSome, IfNone, IsTrue, IsFalse, if◌then◌else◌};
ghost use Rattle.std.specs.List.{prefix_len};
ghost use Rattle.c_chars.specs.Coming.{behind};
ghost use Rattle.c_chars.specs.Characters.{bytes_of};
ghost use Rattle.c_grammar.specs.Grammar.{is_new_line, is_white, is_letter, is_digit};
ghost use Rattle.c_grammar.specs.Place.{IsSpanned};
ghost use Rattle.c_lexer.specs.Reading.{IsBegun, IsGap, new_lines, bytes_in, first_gap};
ghost use Rattle.c_grammar.specs.Touch.{starts};

use crate::front;
use c_chars::{Chars, LogicalChar};
use c_grammar::bytes;

/// The next character of the line; none at its end, which stays where it is.
#[inline(always)]
pub(crate) fn next_of_line(chars: &mut Chars) -> Option<LogicalChar>
    ensures dialect { chars.new.dialect ≡ chars.old.dialect }
    ensures some { IfSome result
        (λ c. (chars.old.chars ≡ c ∷ chars.new.chars) × (chars.new.at ≡ c.to) × IsFalse (is_new_line c.byte)) }
    ensures none { IfNone result
        (IsFalse (starts (λ c. not (is_new_line c)) (bytes_of chars.old.chars)) × (chars.new ≡ chars.old)) }
{
    let mut ahead = chars.ahead();
    let Some(character) = ahead.next() else {
        return None;
    };
    if bytes::is_new_line(character.byte) {
        return None;
    }
    *chars = ahead;
    Some(character)
}

/// The next character of the gap; none behind it, where it stays.
#[inline(always)]
fn next_blank(chars: &mut Chars) -> Option<LogicalChar>
    ensures dialect { chars.new.dialect ≡ chars.old.dialect }
    ensures some { IfSome result (λ c.
        (chars.old.chars ≡ c ∷ chars.new.chars) × (chars.new.at ≡ c.to)
        × IsTrue (is_white c.byte || is_new_line c.byte)) }
    ensures none { IfNone result
        (IsFalse (starts (λ c. is_white c || is_new_line c) (bytes_of chars.old.chars)) × (chars.new ≡ chars.old)) }
{
    if !bytes::is_blank(front::byte_at(chars, 0)) {
        return None;
    }
    chars.next()
}

/// The next letter or digit; none behind the word, where it stays.
#[inline(always)]
fn next_of_word(chars: &mut Chars) -> Option<LogicalChar>
    ensures dialect { chars.new.dialect ≡ chars.old.dialect }
    ensures some { IfSome result (λ c.
        (chars.old.chars ≡ c ∷ chars.new.chars) × (chars.new.at ≡ c.to)
        × IsTrue (is_letter c.byte || is_digit c.byte)) }
    ensures none { IfNone result
        (IsFalse (starts (λ c. is_letter c || is_digit c) (bytes_of chars.old.chars)) × (chars.new ≡ chars.old)) }
{
    if !bytes::is_word(front::byte_at(chars, 0)) {
        return None;
    }
    chars.next()
}

/// How many lines a character ends: one or none.
fn lines_of(byte: u8) -> u32
    ensures { result ≡ if is_new_line byte then 1 else 0 }
{
    if bytes::is_new_line(byte) { 1 } else { 0 }
}

/// The gap that a text begins with, and what stands behind it.
#[derive(Drop)]
pub(crate) struct Gap<'s> {
    /// How many new-lines it has.
    pub lines: u32,
    /// How many bytes its characters are.
    pub bytes: u32,
    /// What stands behind it.
    pub rest: Chars<'s>,
}

/// The gap that the text begins with, and what stands behind it, whatever they are written as.
#[inline(never)]
fn behind_any_gap<'s>(text: &Chars<'s>) -> Gap<'s>
    requires { IsSpanned text.now }
    ensures lines { result.lines ≡ new_lines (first_gap text.now.chars) }
    ensures bytes { result.bytes ≡ bytes_in (first_gap text.now.chars) }
    ensures rest { result.rest
        ≡ behind text.now (prefix_len (λ c. is_white c || is_new_line c) (bytes_of text.now.chars)) }
{
    let mut rest = text.ahead();
    let mut lines = 0;
    let mut bytes = rest.pass_spaces();
    while let Some(character) = next_blank(&mut rest) {
        lines += lines_of(character.byte);
        bytes += character.to - character.from;
        bytes += rest.pass_spaces();
    }
    Gap { lines, bytes, rest }
}

/// An item that a plain byte begins, behind a gap of plain bytes.
#[derive(Drop)]
pub(crate) struct Begun<'s> {
    /// How many new-lines the gap has.
    pub lines: u32,
    /// How many bytes the gap's characters are.
    pub bytes: u32,
    /// What the item begins.
    pub text: Chars<'s>,
    /// The item's first character.
    pub first: LogicalChar,
    /// What stands behind that character.
    pub behind: Chars<'s>,
}

/// The gap that the text begins with and the first character of the item behind it, where plain bytes are
/// all of them; none elsewhere. Most gaps are one space or none, which are told without a jump.
#[inline(always)]
pub(crate) fn begin_plain<'s>(text: &Chars<'s>) -> Option<Begun<'s>>
    requires { IsSpanned text.now }
    ensures gap { IfSome result (λ begun. IsGap text.now begun.lines begun.bytes begun.text) }
    ensures begun { IfSome result (λ begun. IsBegun begun.text begun.first begun.behind) }
    ensures at { IfSome result (λ begun. begun.text.at ≡ text.now.at + begun.bytes) }
    ensures ink { IfSome result (λ begun. IsFalse (is_white begun.first.byte || is_new_line begun.first.byte)) }
    ensures plain { IfSome result (λ begun. (begun.first.from ≡ begun.text.at) × (begun.first.to ≡ begun.text.at + 1)) }
{
    let mut rest = text.ahead();
    let mut lines = 0;
    rest.pass_space();
    let mut behind = rest.ahead();
    while let Some(first) = behind.next_plain() {
        if !bytes::is_blank(first.byte) {
            return Some(Begun {
                lines,
                bytes: first.from - text.at() as u32,
                text: rest,
                first,
                behind,
            });
        }
        lines += lines_of(first.byte);
        behind.pass_spaces();
        rest = behind.ahead();
    }
    None
}

/// The gap that the text begins with, and what stands behind it. Most are plain bytes.
#[inline(always)]
pub(crate) fn behind_gap<'s>(text: &Chars<'s>) -> Gap<'s>
    requires { IsSpanned text.now }
    ensures lines { result.lines ≡ new_lines (first_gap text.now.chars) }
    ensures bytes { result.bytes ≡ bytes_in (first_gap text.now.chars) }
    ensures rest { result.rest
        ≡ behind text.now (prefix_len (λ c. is_white c || is_new_line c) (bytes_of text.now.chars)) }
{
    match begin_plain(text) {
        Some(begun) => Gap {
            lines: begun.lines,
            bytes: begun.bytes,
            rest: begun.text,
        },
        None => {
            // By a name of its own, so that what this function gives needs no place in memory.
            let gap = behind_any_gap(text);
            gap
        }
    }
}

/// What stands behind the letters and digits that the text begins with.
#[inline(always)]
pub(crate) fn behind_word<'s>(text: &Chars<'s>) -> Chars<'s>
    ensures { result ≡ behind text.now (prefix_len (λ c. is_letter c || is_digit c) (bytes_of text.now.chars)) }
{
    let mut rest = text.ahead();
    rest.pass_word();
    while let Some(_) = next_of_word(&mut rest) {}
    rest
}

/// The end of the line that the text stands in.
pub(crate) fn behind_line<'s>(text: &Chars<'s>) -> Chars<'s>
    ensures { result ≡ behind text.now (prefix_len (λ c. not (is_new_line c)) (bytes_of text.now.chars)) }
{
    let mut rest = text.ahead();
    while let Some(_) = next_of_line(&mut rest) {}
    rest
}
