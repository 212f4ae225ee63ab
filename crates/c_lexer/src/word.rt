//! Words, and the literals whose prefix a word is (C11 6.4.2.1, 6.4.4.4, 6.4.5).

ghost use Rattle.std.specs.Prelude.{◌≡◌, ◌≤◌, ◌+◌, ◌==◌, ◌&&◌, ◌||◌, not, false, drop, codes, IsTrue, IsFalse, IfSome};
ghost use Rattle.std.specs.Prelude.{MatchOption};
ghost use Rattle.c_chars.specs.Characters.{bytes_of};
ghost use Rattle.c_grammar.specs.Grammar.{is_letter, is_letter_unit, is_word_unit, is_char_prefix};
ghost use Rattle.c_grammar.specs.Touch.{starts};
ghost use Rattle.c_grammar.specs.Bytes.{is_quote_mark};
ghost use Rattle.c_lexer.specs.Cut.{IsCutOff};
ghost use Rattle.c_lexer.specs.Literal.{begins_literal, prefix_len};
ghost use Rattle.c_lexer.specs.Quote.{IsClosed, closes_quote};
ghost use Rattle.c_chars.specs.Coming.{behind};
ghost use Rattle.c_lexer.specs.Reading.{AreOwnBytes, IsBegun};
ghost use Rattle.c_lexer.specs.Unit.{BeginsUnit, IsRunOff};

use crate::line::Begun;
use crate::{class, front, quote, unit};
use c_chars::{Chars, Dialect};
use c_grammar::{ItemKind, bytes};

/// How many characters the prefix of a literal has that begins the text; 0 where none does.
fn prefix_len(text: &Chars) -> usize
    ensures len { result ≡ prefix_len (bytes_of text.now.chars) }
    ensures few { result ≤ 2 }
{
    if front::begins_with(text, b"u8") {
        return 2;
    }
    if matches!(front::byte_at(text, 0), b'L' | b'u' | b'U') {
        1
    } else {
        0
    }
}

/// The literal of this kind whose prefix and quote are so many characters, and what stands behind it; none where
/// its line doesn't close it.
fn cut_closed<'s>(
    kind: ItemKind,
    text: &Chars<'s>,
    head: usize,
    quote: u8,
) -> Option<(ItemKind, Chars<'s>)>
    ensures { MatchOption result
        (IsFalse (closes_quote quote false (drop head (bytes_of text.now.chars))))
        (λ r. IsClosed kind quote (behind text.now head) r.1 r.0) }
{
    let (closed, left) = quote::behind_quote(&front::behind(text, head), quote);
    if closed { Some((kind, left)) } else { None }
}

/// Whether `u8` is a prefix of character constants (C23 6.4.4.5).
fn has_u8_chars(dialect: Dialect) -> bool
    ensures { result ≡ is_char_prefix dialect (codes "u8") }
{
    match dialect {
        Dialect::C11 => false,
        Dialect::C23 => true,
    }
}

/// Whether character constants have a prefix of so many characters, and the one behind its apostrophe isn't empty.
fn begins_constant(dialect: Dialect, text: &Chars, len: usize) -> bool
    requires { len ≤ 2 }
    ensures { result
        ≡ ((len == 1 || is_char_prefix dialect (codes "u8"))
        && not (starts (λ c. c == 39) (drop (len + 1) (bytes_of text.now.chars)))) }
{
    (len == 1 || has_u8_chars(dialect)) && front::byte_at(text, len + 1) != b'\''
}

/// The literal with a prefix that the text begins with, and what stands behind it; none where it
/// begins with none.
fn cut_prefixed<'s>(dialect: Dialect, text: &Chars<'s>) -> Option<(ItemKind, Chars<'s>)>
    requires { dialect ≡ text.now.dialect }
    ensures { MatchOption result
        (IsFalse (begins_literal text.now.dialect (bytes_of text.now.chars)))
        (λ r. IsCutOff text.now r.1 r.0) }
{
    let len = prefix_len(text);
    if len == 0 {
        return None;
    }
    let quote = front::byte_at(text, len);
    if quote == b'"' {
        return cut_closed(ItemKind::StringLit, text, len + 1, b'"');
    }
    if quote == b'\'' && begins_constant(dialect, text, len) {
        return cut_closed(ItemKind::CharConst, text, len + 1, b'\'');
    }
    None
}

/// The item that the text begins with a word of, before a quote, and what stands behind it: the
/// literal whose prefix the word is, otherwise the word. `left` is what stands behind the word.
#[inline(never)]
fn cut_before_quote<'s>(
    dialect: Dialect,
    text: &Chars<'s>,
    left: Chars<'s>,
) -> (ItemKind, Chars<'s>)
    requires dialect { dialect ≡ text.now.dialect }
    requires letter { BeginsUnit is_letter_unit (bytes_of text.now.chars) }
    requires left { IsRunOff is_word_unit text.now left }
    requires quote { IsTrue (starts is_quote_mark (bytes_of left.chars)) }
    ensures { IsCutOff text.now result.1 result.0 }
{
    match cut_prefixed(dialect, text) {
        Some(cut) => cut,
        None => (ItemKind::Identifier, left),
    }
}

/// The item that the text begins with a word of, and what stands behind it, whatever the word has.
#[inline(never)]
pub(crate) fn cut_word<'s>(dialect: Dialect, text: &Chars<'s>) -> (ItemKind, Chars<'s>)
    requires dialect { dialect ≡ text.now.dialect }
    requires letter { BeginsUnit is_letter_unit (bytes_of text.now.chars) }
    ensures { IsCutOff text.now result.1 result.0 }
{
    let left = unit::behind_word(text);
    if bytes::is_quote_mark(front::byte_at(&left, 0)) {
        return cut_before_quote(dialect, text, left);
    }
    (ItemKind::Identifier, left)
}

/// The word that is begun and what stands behind it, where it is of plain bytes and one behind it ends it; none
/// elsewhere.
#[inline(always)]
pub(crate) fn cut_plain_word<'s>(begun: &Begun<'s>) -> Option<(ItemKind, Chars<'s>)>
    requires begun { IsBegun begun.now.text begun.now.first begun.now.behind }
    requires letter { IsTrue (is_letter begun.now.first.byte) }
    ensures off { IfSome result (λ r. IsCutOff begun.now.text r.1 r.0) }
    ensures plain { IfSome result (λ r. AreOwnBytes begun.now.first begun.now.behind r.1) }
{
    let mut left = begun.behind.ahead();
    left.pass_word();
    match left.peek_plain() {
        Some(character) => {
            if class::ends_word(character.byte) {
                Some((ItemKind::Identifier, left))
            } else {
                None
            }
        }
        None => None,
    }
}
