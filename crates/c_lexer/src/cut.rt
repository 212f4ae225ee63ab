//! Cuts off the item that a text begins with.

ghost use Rattle.std.specs.Prelude.{◌≡◌, ◌∷◌, ◌||◌, ◌<◌, length, [], nat_eq, IsTrue, IsFalse, IfSome, MatchOption};
ghost use Rattle.std.specs.Prelude.{MatchResult, ◌+◌, Some, slice_get};
ghost use Rattle.std.specs.List.{starts_with};
ghost use Rattle.c_chars.specs.Characters.{bytes_of};
ghost use Rattle.c_chars.specs.Coming.{behind};
ghost use Rattle.c_grammar.specs.Grammar.{Unended, is_letter, is_white, is_new_line};
ghost use Rattle.c_grammar.specs.Touch.{starts};
ghost use Rattle.c_grammar.specs.Items.{IsLongest};
ghost use Rattle.item_kinds.specs.declared.ItemKind.TheVariants.{Number, Punct, Other, LineComment, BlockComment};
ghost use Rattle.c_lexer.specs.Cut.{IsCutOff, IsStop};
ghost use Rattle.c_grammar.specs.Bytes.{begins_punctuator, is_quote_mark, IsFirst};
ghost use Rattle.c_lexer.specs.Reading.{AreOwnBytes, IsBegun};
ghost use Rattle.c_lexer.specs.Run.{begins_number, is_shift_mark};
ghost use Rattle.c_lexer.specs.Unit.{BeginsUnit, is_rare_unit};
ghost use Rattle.unicode_ident.specs.Ident.{is_xid_start};

use crate::line::Begun;
use crate::{class, comment, front, line, punctuator, quote, unit, utf8, word};
use c_chars::{Chars, Dialect, LogicalChar};
use c_grammar::{ItemKind, bytes};

/// Why no item is cut off.
#[derive(Clone, Copy)]
pub(crate) enum Stop {
    /// Nothing ends the block comment that begins.
    Unterminated,
}

/// What stands behind the block comment that the text begins with; none where nothing ends it.
fn cut_block<'s>(text: &Chars<'s>) -> Option<Chars<'s>>
    requires { IsTrue (starts_with nat_eq (bytes_of text.now.chars) (47 ∷ 42 ∷ [])) }
    ensures { MatchOption result
        (IsLongest text.now.dialect Unended (bytes_of text.now.chars) [])
        (λ left. IsCutOff text.now left BlockComment) }
{
    comment::behind_block(&front::behind(text, 2))
}

/// What stands behind the line comment that the text begins with.
fn cut_line<'s>(text: &Chars<'s>) -> Chars<'s>
    requires { IsTrue (starts_with nat_eq (bytes_of text.now.chars) (47 ∷ 47 ∷ [])) }
    ensures { IsCutOff text.now result LineComment }
{
    comment::behind_line(&front::behind(text, 2))
}

/// What stands behind the number that the text begins with, whose first byte is this one. Its head is a digit,
/// or a point and a digit.
fn cut_number<'s>(dialect: Dialect, text: &Chars<'s>, first: u8) -> Chars<'s>
    requires dialect { dialect ≡ text.now.dialect }
    requires first { IsFirst first (bytes_of text.now.chars) }
    requires number { IsTrue (begins_number (bytes_of text.now.chars)) }
    ensures { IsCutOff text.now result Number }
{
    let head = if first == b'.' { 2 } else { 1 };
    unit::behind_number(dialect, &front::behind(text, head))
}

/// What stands behind the character that the text begins with, where it begins nothing else. A byte
/// past ASCII that begins no character stands for itself.
fn cut_other<'s>(text: &Chars<'s>) -> Chars<'s>
    requires blank { IsFalse (starts (λ c. is_white c || is_new_line c) (bytes_of text.now.chars)) }
    requires letter { IsFalse (starts is_letter (bytes_of text.now.chars)) }
    requires word { BeginsUnit (is_rare_unit is_xid_start) (bytes_of text.now.chars) → ⊥ }
    requires number { IsFalse (begins_number (bytes_of text.now.chars)) }
    requires mark { IsFalse (starts begins_punctuator (bytes_of text.now.chars)) }
    requires quote { IsFalse (starts is_quote_mark (bytes_of text.now.chars)) }
    requires some { 0 < length text.now.chars }
    ensures { IsCutOff text.now result Other }
{
    match utf8::next_char(text) {
        Some((_, left)) => left,
        None => front::behind(text, 1),
    }
}

/// What stands behind the punctuator that the text begins with, whose first byte is this one. Most have one
/// character, so the table is walked only where the first two allow a longer one.
fn cut_mark<'s>(dialect: Dialect, text: &Chars<'s>, first: u8) -> Chars<'s>
    requires dialect { dialect ≡ text.now.dialect }
    requires mark { IsTrue (starts begins_punctuator (bytes_of text.now.chars)) }
    requires first { IsFirst first (bytes_of text.now.chars) }
    requires number { IsFalse (begins_number (bytes_of text.now.chars)) }
    requires block { IsFalse (starts_with nat_eq (bytes_of text.now.chars) (47 ∷ 42 ∷ [])) }
    requires line { IsFalse (starts_with nat_eq (bytes_of text.now.chars) (47 ∷ 47 ∷ [])) }
    ensures { IsCutOff text.now result Punct }
{
    if !punctuator::begins_long(first) || !punctuator::goes_on_long(front::byte_at(text, 1)) {
        return front::behind(text, 1);
    }
    front::behind(text, punctuator::text_len(dialect, text))
}

/// The literal that the text begins with, or its quote and the line, and what stands behind it. `first` is the
/// quote.
fn cut_quoted<'s>(text: &Chars<'s>, first: u8) -> (ItemKind, Chars<'s>)
    requires first { IsFirst first (bytes_of text.now.chars) }
    requires quote { IsTrue (is_quote_mark first) }
    ensures { IsCutOff text.now result.1 result.0 }
{
    if front::begins_two(text, first, b'\'', b'\'') {
        return (
            ItemKind::StrayQuote,
            line::behind_line(&front::behind(text, 2)),
        );
    }
    let (closed, left) = quote::behind_quote(&front::behind(text, 1), first);
    if !closed {
        return (ItemKind::StrayQuote, left);
    }
    if first == b'\'' {
        (ItemKind::CharConst, left)
    } else {
        (ItemKind::StringLit, left)
    }
}

/// The shift that is begun, whose second byte is this one, and what stands behind it, where a plain byte ends it;
/// none elsewhere.
#[inline(always)]
fn cut_plain_shift<'s>(
    dialect: Dialect,
    begun: &Begun<'s>,
    second: LogicalChar,
) -> Option<(ItemKind, Chars<'s>)>
    requires dialect { dialect ≡ begun.now.text.dialect }
    requires begun { IsBegun begun.now.text begun.now.first begun.now.behind }
    requires second { slice_get begun.now.behind.chars 0 ≡ Some second }
    requires plain { (second.from ≡ begun.now.behind.at) × (second.to ≡ begun.now.behind.at + 1) }
    requires shift { IsTrue (is_shift_mark begun.now.first.byte second.byte) }
    ensures off { IfSome result (λ r. IsCutOff begun.now.text r.1 r.0) }
    ensures plain { IfSome result (λ r. AreOwnBytes begun.now.first begun.now.behind r.1) }
{
    let left = front::behind(&begun.behind, 1);
    match left.peek_plain() {
        Some(third) => {
            if third.byte == b'=' {
                None
            } else {
                Some((ItemKind::Punct, left))
            }
        }
        None => None,
    }
}

/// The comment of quiet bytes that is begun, whose second byte is this one, and what stands behind it; none elsewhere.
#[inline(always)]
fn cut_plain_comment<'s>(begun: &Begun<'s>, second: LogicalChar) -> Option<(ItemKind, Chars<'s>)>
    requires begun { IsBegun begun.now.text begun.now.first begun.now.behind }
    requires second { slice_get begun.now.behind.chars 0 ≡ Some second }
    requires plain { (second.from ≡ begun.now.behind.at) × (second.to ≡ begun.now.behind.at + 1) }
    ensures off { IfSome result (λ r. IsCutOff begun.now.text r.1 r.0) }
    ensures plain { IfSome result (λ r. AreOwnBytes begun.now.first begun.now.behind r.1) }
{
    if second.byte == b'/' {
        return match comment::cut_plain_line(begun, second) {
            Some(left) => Some((ItemKind::LineComment, left)),
            None => None,
        };
    }
    match comment::cut_plain_block(begun, second) {
        Some(left) => Some((ItemKind::BlockComment, left)),
        None => None,
    }
}

/// The punctuator, literal or comment that is begun and what stands behind it, where its first byte and plain bytes
/// behind it tell how long it is; none elsewhere.
#[inline(always)]
fn cut_plain_mark<'s>(dialect: Dialect, begun: &Begun<'s>) -> Option<(ItemKind, Chars<'s>)>
    requires dialect { dialect ≡ begun.now.text.dialect }
    requires begun { IsBegun begun.now.text begun.now.first begun.now.behind }
    ensures off { IfSome result (λ r. IsCutOff begun.now.text r.1 r.0) }
    ensures plain { IfSome result (λ r. AreOwnBytes begun.now.first begun.now.behind r.1) }
{
    let first = begun.first.byte;
    let left = begun.behind.ahead();
    if !punctuator::begins_long(first) {
        return quote::cut_plain_quote(begun);
    }
    match left.peek_plain() {
        Some(second) => {
            if class::ends_mark(second.byte) {
                return Some((ItemKind::Punct, left));
            }
            if punctuator::is_pair(first, second.byte) {
                return Some((ItemKind::Punct, front::behind(&left, 1)));
            }
            if punctuator::is_shift(first, second.byte) {
                return cut_plain_shift(dialect, begun, second);
            }
            if punctuator::is_alone(first, second.byte) {
                Some((ItemKind::Punct, left))
            } else {
                cut_plain_comment(begun, second)
            }
        }
        None => None,
    }
}

/// The item that is begun, where it is a word, a number or a punctuator of plain bytes and one behind it ends it, or a
/// literal or a comment of printable bytes that tell nothing else; none elsewhere.
#[inline(always)]
pub(crate) fn cut_plain<'s>(dialect: Dialect, begun: &Begun<'s>) -> Option<(ItemKind, Chars<'s>)>
    requires dialect { dialect ≡ begun.now.text.dialect }
    requires begun { IsBegun begun.now.text begun.now.first begun.now.behind }
    ensures off { IfSome result (λ r. IsCutOff begun.now.text r.1 r.0) }
    ensures plain { IfSome result (λ r. AreOwnBytes begun.now.first begun.now.behind r.1) }
{
    if bytes::is_letter(begun.first.byte) {
        return word::cut_plain_word(begun);
    }
    if class::is_lone_mark(begun.first.byte) {
        return Some((ItemKind::Punct, begun.behind.ahead()));
    }
    if bytes::is_digit(begun.first.byte) {
        return unit::cut_plain_number(dialect, begun);
    }
    cut_plain_mark(dialect, begun)
}

/// The item that the text begins with, wherever no header name is read, and what stands behind it.
/// `first` is the text's first byte.
pub(crate) fn cut_item<'s>(
    dialect: Dialect,
    text: &Chars<'s>,
    first: u8,
) -> Result<(ItemKind, Chars<'s>), Stop>
    requires dialect { dialect ≡ text.now.dialect }
    requires some { 0 < length text.now.chars }
    requires first { IsFirst first (bytes_of text.now.chars) }
    requires begins { IsFalse (starts (λ c. is_white c || is_new_line c) (bytes_of text.now.chars)) }
    ensures { MatchResult result (λ r. IsCutOff text.now r.1 r.0) (λ stop. IsStop text.now stop) }
{
    if bytes::is_letter(first) {
        return Ok(word::cut_word(dialect, text));
    }
    if front::begins_number(text, first) {
        return Ok((ItemKind::Number, cut_number(dialect, text, first)));
    }
    if front::begins_two(text, first, b'/', b'*') {
        return match cut_block(text) {
            Some(left) => Ok((ItemKind::BlockComment, left)),
            None => Err(Stop::Unterminated),
        };
    }
    if front::begins_two(text, first, b'/', b'/') {
        return Ok((ItemKind::LineComment, cut_line(text)));
    }
    if bytes::begins_punctuator(first) {
        return Ok((ItemKind::Punct, cut_mark(dialect, text, first)));
    }
    if bytes::is_quote_mark(first) {
        return Ok(cut_quoted(text, first));
    }
    if unit::begins_rare_word(text) {
        return Ok(word::cut_word(dialect, text));
    }
    Ok((ItemKind::Other, cut_other(text)))
}
