//! What stands behind a quote, and header names.

ghost use Rattle.std.specs.Prelude.{◌≡◌, ◌==◌, ◌≤◌, ◌&&◌, length, not, true, false, IfSome, IsTrue, IsFalse};
ghost use Rattle.std.specs.Prelude.{MatchOption};
ghost use Rattle.c_chars.specs.Characters.{bytes_of};
ghost use Rattle.c_chars.specs.Coming.{behind};
ghost use Rattle.c_lexer.specs.Quote.{closes_quote, quote_len};
ghost use Rattle.c_lexer.specs.Cut.{IsCutOff};
ghost use Rattle.c_lexer.specs.Reading.{AreOwnBytes, IsBegun};
ghost use Rattle.c_lexer.specs.Header.{ends_name, name_len, begins_header, header_len};

use crate::line::Begun;
use crate::{front, line};
use c_chars::Chars;
use c_grammar::{ItemKind, bytes};

/// Whether the byte is this one, and no backslash takes its meaning.
#[inline(always)]
fn stands_for(escaped: bool, mark: u8, byte: u8) -> bool
    ensures { result ≡ (not escaped && mark == byte) }
{
    !escaped && mark == byte
}

/// Passes characters that close no quote, unless a backslash takes the meaning of the first.
#[inline(always)]
fn pass_within_quote(chars: &mut Chars, quote: u8, escaped: bool)
    ensures closes { closes_quote quote escaped (bytes_of chars.new.chars)
        ≡ closes_quote quote escaped (bytes_of chars.old.chars) }
    ensures rest { behind chars.new (quote_len quote escaped (bytes_of chars.new.chars))
        ≡ behind chars.old (quote_len quote escaped (bytes_of chars.old.chars)) }
    ensures fewer { length chars.new.chars ≤ length chars.old.chars }
{
    if !escaped && bytes::is_quote_mark(quote) {
        chars.pass_text();
    }
}

/// Whether the line closes the quote that stands before the text (C11 6.4.4.4, 6.4.5), and what
/// stands behind the closing quote, or is the line's end.
pub(crate) fn behind_quote<'s>(text: &Chars<'s>, quote: u8) -> (bool, Chars<'s>)
    ensures closed { result.0 ≡ closes_quote quote false (bytes_of text.now.chars) }
    ensures rest { result.1 ≡ behind text.now (quote_len quote false (bytes_of text.now.chars)) }
{
    let mut rest = text.ahead();
    let mut escaped = false;
    pass_within_quote(&mut rest, quote, escaped);
    while let Some(character) = line::next_of_line(&mut rest) {
        if stands_for(escaped, character.byte, quote) {
            return (true, rest);
        }
        escaped = stands_for(escaped, character.byte, b'\\');
        pass_within_quote(&mut rest, quote, escaped);
    }
    (false, rest)
}

/// What stands behind a name that ends in this byte, whose first byte stands before the text; none
/// where the line has no such name.
fn behind_name<'s>(text: &Chars<'s>, last: u8) -> Option<Chars<'s>>
    ensures { MatchOption result (IsFalse (ends_name last false (bytes_of text.now.chars))) (λ rest.
        IsTrue (ends_name last false (bytes_of text.now.chars))
        × (rest ≡ behind text.now (name_len last (bytes_of text.now.chars)))) }
{
    let mut rest = text.ahead();
    let mut some = false;
    while let Some(character) = line::next_of_line(&mut rest) {
        if character.byte == last {
            return if some { Some(rest) } else { None };
        }
        some = true;
    }
    None
}

/// What stands behind the header name that the text begins with (C11 6.4.7); none where it begins
/// with none.
pub(crate) fn behind_header<'s>(text: &Chars<'s>) -> Option<Chars<'s>>
    ensures { MatchOption result (IsFalse (begins_header (bytes_of text.now.chars))) (λ rest.
        IsTrue (begins_header (bytes_of text.now.chars))
        × (rest ≡ behind text.now (header_len (bytes_of text.now.chars)))) }
{
    let first = front::byte_at(text, 0);
    if first == b'<' {
        return behind_name(&front::behind(text, 1), b'>');
    }
    if first == b'"' {
        return behind_name(&front::behind(text, 1), b'"');
    }
    None
}

/// The literal that is begun and what stands behind it, where it has only printable bytes that tell nothing else and a
/// plain quote ends it; none elsewhere.
#[inline(always)]
pub(crate) fn cut_plain_quote<'s>(begun: &Begun<'s>) -> Option<(ItemKind, Chars<'s>)>
    requires begun { IsBegun begun.now.text begun.now.first begun.now.behind }
    ensures off { IfSome result (λ r. IsCutOff begun.now.text r.1 r.0) }
    ensures plain { IfSome result (λ r. AreOwnBytes begun.now.first begun.now.behind r.1) }
{
    let quote = begun.first.byte;
    let second = begun.behind.peek_plain()?;
    let mut left = begun.behind.ahead();
    if !bytes::is_quote_mark(quote) || second.byte == b'\'' {
        return None;
    }
    left.pass_quiet();
    let last = left.next_plain()?;
    if last.byte != quote {
        return None;
    }
    if quote == b'\'' {
        Some((ItemKind::CharConst, left))
    } else {
        Some((ItemKind::StringLit, left))
    }
}
