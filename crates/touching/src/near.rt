//! Items whose first bytes tell whether they may touch, as those of most do.

ghost use Rattle.std.specs.Prelude.{◌≡◌, ◌==◌, ◌<◌, ◌&&◌, ◌||◌, ◌∷◌, [], codes, length, IfSome};
ghost use Rattle.c_grammar.specs.Grammar.{is_of, is_sign};
ghost use Rattle.c_grammar.specs.Touch.{is_identifier, is_number, is_other_kind, may_touch, punct_goes_on, takes_line};
ghost use Rattle.c_grammar.specs.Touch.{word_by_word};
ghost use Rattle.touching.specs.Near.{is_plain, pair_goes_on, thirds};
ghost use Rattle.touching.specs.Spelling.{spelling};

use c_chars::Dialect;
use c_grammar::{ItemKind, bytes};

/// A byte that is a character wherever it stands, and no `?`.
#[inline(always)]
fn is_plain(byte: u8) -> bool
    ensures { result ≡ is_plain byte }
{
    byte != b'?' && byte != b'\r' && byte != b'\\' && byte != 0xEF
}

/// An identifier or a number, and what would go on with it.
#[inline(always)]
fn word_by_word(left: ItemKind, right: ItemKind, next: u8) -> bool
    ensures { result ≡ word_by_word left right (next ∷ []) }
{
    matches!(left, ItemKind::Identifier | ItemKind::Number)
        && match right {
            ItemKind::Identifier | ItemKind::Number => true,
            ItemKind::CharConst | ItemKind::StringLit => bytes::is_letter(next),
            _ => false,
        }
}

/// What may be a prefix, and a quote.
#[inline(always)]
fn word_by_quote(left: ItemKind, right: u8) -> bool
    ensures { result ≡ (is_identifier left && is_of (codes "'\"") right) }
{
    matches!(left, ItemKind::Identifier) && bytes::is_quote_mark(right)
}

/// A number, and what may go on with it.
#[inline(always)]
#[tactic(auto, unfolding(c_grammar::specs::Grammar::is_sign))]
fn number_may_go_on(left: ItemKind, right: u8) -> bool
    ensures { result ≡ (is_number left && (is_of (codes ".'") right || is_sign right)) }
{
    matches!(left, ItemKind::Number) && (right == b'.' || right == b'\'' || bytes::is_sign(right))
}

/// A point, and a number.
#[inline(always)]
fn point_by_number(left: u8, right: ItemKind) -> bool
    ensures { result ≡ ((left == 46) && is_number right) }
{
    left == b'.' && matches!(right, ItemKind::Number)
}

/// An item that is none of C, or one that takes its line.
#[inline(always)]
fn keeps_apart(left: ItemKind, right: ItemKind) -> bool
    ensures { result ≡ ((is_other_kind left || is_other_kind right) || takes_line left) }
{
    matches!(
        left,
        ItemKind::Other | ItemKind::LineComment | ItemKind::StrayQuote
    ) || matches!(right, ItemKind::Other)
}

/// Whether a byte is one of these.
#[inline(always)]
fn is_third(right: u8) -> bool
    ensures { result ≡ is_of thirds right }
{
    matches!(right, b'=' | b'.' | b'%')
}

/// Whether a punctuator begins with this byte and a `=`.
#[inline(always)]
fn is_before_equals(left: u8) -> bool
    ensures { result ≡ is_of (codes "*/%+-<>&^|=!") left }
{
    matches!(
        left,
        b'*' | b'/' | b'%' | b'+' | b'-' | b'<' | b'>' | b'&' | b'^' | b'|' | b'=' | b'!'
    )
}

/// Whether a punctuator begins with this byte and a `>`.
#[inline(always)]
fn is_before_greater(left: u8) -> bool
    ensures { result ≡ is_of (codes "->:%") left }
{
    matches!(left, b'-' | b'>' | b':' | b'%')
}

/// Whether a punctuator, or `::`, begins with this byte and a `:`.
#[inline(always)]
fn is_before_colon(left: u8) -> bool
    ensures { result ≡ is_of (codes ":<%") left }
{
    matches!(left, b':' | b'<' | b'%')
}

/// Whether a punctuator or a comment begins with these two.
#[inline(always)]
fn pair_goes_on(left: u8, right: u8) -> bool
    ensures { result ≡ pair_goes_on left right }
{
    match right {
        b'=' => is_before_equals(left),
        b'>' => is_before_greater(left),
        b':' => is_before_colon(left),
        b'*' => left == b'/',
        b'%' => left == b'<',
        b'/' | b'+' | b'-' | b'<' | b'&' | b'|' | b'#' | b'.' => left == right,
        _ => false,
    }
}

/// Whether a punctuator goes on with a character, where its bytes tell it.
#[inline(always)]
fn punct_goes_on(dialect: Dialect, left: ItemKind, raw: &[u8], right: u8) -> Option<bool>
    requires { 0 < length raw.now }
    ensures { IfSome result (λ goes_on. goes_on ≡ punct_goes_on left (spelling dialect raw.now) (right ∷ [])) }
{
    let _read = dialect;
    if !matches!(left, ItemKind::Punct) {
        return Some(false);
    }
    if raw.len() == 1 && is_plain(raw[0]) {
        return Some(pair_goes_on(raw[0], right));
    }
    if raw.len() == 2 && is_plain(raw[0]) && is_plain(raw[1]) && !is_third(right) {
        return Some(false);
    }
    None
}

/// Whether two items may touch, of these kinds and with these bytes, where their first bytes tell it, as those of most
/// do.
///
/// Where they don't, [`may_touch`](crate::may_touch) tells it.
#[inline(always)]
pub fn near_touch(
    dialect: Dialect,
    left: ItemKind,
    left_raw: &[u8],
    right: ItemKind,
    right_raw: &[u8],
) -> Option<bool>
    ensures { IfSome result
        (λ touch. touch ≡ may_touch left (spelling dialect left_raw.now) right (spelling dialect right_raw.now)) }
{
    if left_raw.is_empty() || right_raw.is_empty() {
        return None;
    }
    let (left_first, right_first) = (left_raw[0], right_raw[0]);
    if !is_plain(left_first) {
        return None;
    }
    if !is_plain(right_first) {
        return None;
    }
    if word_by_quote(left, right_first)
        || number_may_go_on(left, right_first)
        || point_by_number(left_first, right)
        || keeps_apart(left, right)
    {
        return None;
    }
    let goes_on = punct_goes_on(dialect, left, left_raw, right_first)?;
    Some(!(word_by_word(left, right, right_first) | goes_on))
}
