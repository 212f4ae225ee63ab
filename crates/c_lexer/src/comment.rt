//! Comments (C11 6.4.9).

ghost use Rattle.std.specs.Prelude.{◌≡◌, ◌==◌, ◌≤◌, ◌+◌, ◌&&◌, length, false, slice_get, Some, IfSome, IsTrue};
ghost use Rattle.std.specs.Prelude.{IsFalse, MatchOption};
ghost use Rattle.c_chars.specs.Characters.{bytes_of};
ghost use Rattle.c_chars.specs.Coming.{behind};
ghost use Rattle.item_kinds.specs.declared.ItemKind.TheVariants.{BlockComment, LineComment};
ghost use Rattle.c_lexer.specs.Cut.{IsCutOff};
ghost use Rattle.c_lexer.specs.Reading.{AreOwnBytes, IsBegun};
ghost use Rattle.c_lexer.specs.Comment.{closes_block, block_len, line_len};

use crate::line::Begun;
use crate::{front, line};
use c_chars::{Chars, LogicalChar};
use c_grammar::bytes;

/// Whether this byte ends a block comment, behind a star or not.
#[inline(always)]
fn ends_block(star: bool, byte: u8) -> bool
    ensures { result ≡ (star && byte == 47) }
{
    star && byte == b'/'
}

/// Passes characters that end no block comment, unless a star stands before them.
#[inline(always)]
fn pass_within_block(chars: &mut Chars, star: bool)
    ensures closes { closes_block star (bytes_of chars.new.chars) ≡ closes_block star (bytes_of chars.old.chars) }
    ensures rest { behind chars.new (block_len star (bytes_of chars.new.chars))
        ≡ behind chars.old (block_len star (bytes_of chars.old.chars)) }
    ensures fewer { length chars.new.chars ≤ length chars.old.chars }
{
    if !star {
        chars.pass_comment();
    }
}

/// What stands behind the first `*/`; none where there is none.
pub(crate) fn behind_block<'s>(text: &Chars<'s>) -> Option<Chars<'s>>
    ensures { MatchOption result (IsFalse (closes_block false (bytes_of text.now.chars))) (λ rest.
        IsTrue (closes_block false (bytes_of text.now.chars))
        × (rest ≡ behind text.now (block_len false (bytes_of text.now.chars)))) }
{
    let mut rest = text.ahead();
    let mut star = false;
    pass_within_block(&mut rest, star);
    while let Some(character) = rest.next() {
        if ends_block(star, character.byte) {
            return Some(rest);
        }
        star = character.byte == b'*';
        pass_within_block(&mut rest, star);
    }
    None
}

/// Passes the rest of a word of a line comment, whose last character before it is this one and no white space. It
/// passes nothing behind a backslash, which may be the comment's last character.
#[inline(always)]
fn pass_within_line(chars: &mut Chars, last: u8)
    ensures rest { behind chars.new (line_len last (bytes_of chars.new.chars))
        ≡ behind chars.old (line_len last (bytes_of chars.old.chars)) }
    ensures fewer { length chars.new.chars ≤ length chars.old.chars }
{
    if last != b'\\' {
        chars.pass_words();
    }
}

/// What stands behind the line comment whose two slashes stand before the text.
///
/// White space at its end is no part of it, unless it would then end in a backslash.
pub(crate) fn behind_line<'s>(text: &Chars<'s>) -> Chars<'s>
    ensures { result ≡ behind text.now (line_len 47 (bytes_of text.now.chars)) }
{
    let mut rest = text.ahead();
    let mut last = b'/';
    pass_within_line(&mut rest, last);
    let mut kept = rest.ahead();
    while let Some(character) = line::next_of_line(&mut rest) {
        if !bytes::is_white(character.byte) {
            last = character.byte;
            pass_within_line(&mut rest, last);
            kept = rest.ahead();
        }
    }
    if last == b'\\' { rest } else { kept }
}

/// What stands behind the block comment that is begun, where it has only printable bytes that tell nothing else and
/// plain ones end it; none elsewhere. `second` is the character behind its first.
#[inline(always)]
pub(crate) fn cut_plain_block<'s>(begun: &Begun<'s>, second: LogicalChar) -> Option<Chars<'s>>
    requires begun { IsBegun begun.now.text begun.now.first begun.now.behind }
    requires second { slice_get begun.now.behind.chars 0 ≡ Some second }
    requires plain { (second.from ≡ begun.now.behind.at) × (second.to ≡ begun.now.behind.at + 1) }
    ensures off { IfSome result (λ left. IsCutOff begun.now.text left BlockComment) }
    ensures plain { IfSome result (λ left. AreOwnBytes begun.now.first begun.now.behind left) }
{
    if begun.first.byte != b'/' || second.byte != b'*' {
        return None;
    }
    let mut left = front::behind(&begun.behind, 1);
    left.pass_quiet();
    let star = left.next_plain()?;
    let slash = left.next_plain()?;
    if star.byte == b'*' && slash.byte == b'/' {
        Some(left)
    } else {
        None
    }
}

/// What stands behind the line comment that is begun, where it has only printable bytes that tell nothing else and a
/// new-line stands behind the last that is no space; none elsewhere. `second` is the character behind its first.
#[inline(always)]
pub(crate) fn cut_plain_line<'s>(begun: &Begun<'s>, second: LogicalChar) -> Option<Chars<'s>>
    requires begun { IsBegun begun.now.text begun.now.first begun.now.behind }
    requires second { slice_get begun.now.behind.chars 0 ≡ Some second }
    requires plain { (second.from ≡ begun.now.behind.at) × (second.to ≡ begun.now.behind.at + 1) }
    ensures off { IfSome result (λ left. IsCutOff begun.now.text left LineComment) }
    ensures plain { IfSome result (λ left. AreOwnBytes begun.now.first begun.now.behind left) }
{
    if begun.first.byte != b'/' || second.byte != b'/' {
        return None;
    }
    let mut left = front::behind(&begun.behind, 1);
    left.pass_quiet_words();
    if bytes::is_new_line(front::byte_at(&left, 0)) {
        Some(left)
    } else {
        None
    }
}
