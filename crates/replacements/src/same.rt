//! Gaps that the input has as they are decided.

ghost use Rattle.std.specs.Prelude.{◌≡◌, ◌<◌, ◌≤◌, Bool, length, take, IfSome, IsTrue};
ghost use Rattle.token_arena.specs.Gaps.{Stands};
ghost use Rattle.replacements.specs.declared.gap_text.Decision.TheVariants.{Lines, Spaces};
ghost use Rattle.style_table.specs.declared.style.Style.{Style};
ghost use Rattle.token_arena.specs.Entries.{told_by};
ghost use Rattle.replacements.specs.Stances.{IsAt};
ghost use Rattle.replacements.specs.Same.{ComesNoHash, IsSame, IsWritten, blanks_told};
ghost use Rattle.replacements.specs.Written.{bytes_between, decision_at, is_old};

use crate::Decision;
use crate::entry::LineGap;
use crate::gap_text::{LinesPiece, lines_front};
use crate::guard::{guard_before, is_free};
use crate::hash::begins_no_hash;
use crate::plan::Plan;
use crate::written::decision_at;
use c_grammar::ItemKind;
use style_table::Style;
use token_arena::{Token, TokenArena};

/// The bytes of a text from one offset up to another.
#[inline(always)]
pub(crate) fn between(text: &[u8], from: usize, to: usize) -> &[u8]
    requires order { from ≤ to }
    requires within { to ≤ length text.now }
    ensures { result.now ≡ bytes_between text.now from to }
{
    &text[from..to]
}

/// Whether its kind and its first byte tell that no `#` comes from a token on. They do for most tokens.
#[inline(always)]
pub(crate) fn comes_no_hash(token: &Token<'_>) -> bool
    ensures { IsTrue result → ComesNoHash (told_by token.now) }
{
    match token.item.kind {
        ItemKind::BlockComment => false,
        ItemKind::LineComment => false,
        ItemKind::Punct => begins_no_hash(token.item.raw),
        _ => true,
    }
}

/// Of each byte, two for a blank, one where neither a comment nor what spells a `#` may begin with it, and otherwise
/// none. That is one more than the blanks that stand in a gap of at most one byte, where the byte is the first behind
/// the item before it.
const BLANKS_TOLD: [u8; 256] = [
    1, 1, 1, 1, 1, 1, 1, 1, 1, 1, 1, 1, 1, 0, 1, 1, 1, 1, 1, 1, 1, 1, 1, 1, 1, 1, 1, 1, 1, 1, 1, 1,
    2, 1, 1, 0, 1, 0, 1, 1, 1, 1, 1, 1, 1, 1, 1, 0, 1, 1, 1, 1, 1, 1, 1, 1, 1, 1, 1, 1, 1, 1, 1, 0,
    1, 1, 1, 1, 1, 1, 1, 1, 1, 1, 1, 1, 1, 1, 1, 1, 1, 1, 1, 1, 1, 1, 1, 1, 1, 1, 1, 1, 0, 1, 1, 1,
    1, 1, 1, 1, 1, 1, 1, 1, 1, 1, 1, 1, 1, 1, 1, 1, 1, 1, 1, 1, 1, 1, 1, 1, 1, 1, 1, 1, 1, 1, 1, 1,
    1, 1, 1, 1, 1, 1, 1, 1, 1, 1, 1, 1, 1, 1, 1, 1, 1, 1, 1, 1, 1, 1, 1, 1, 1, 1, 1, 1, 1, 1, 1, 1,
    1, 1, 1, 1, 1, 1, 1, 1, 1, 1, 1, 1, 1, 1, 1, 1, 1, 1, 1, 1, 1, 1, 1, 1, 1, 1, 1, 1, 1, 1, 1, 1,
    1, 1, 1, 1, 1, 1, 1, 1, 1, 1, 1, 1, 1, 1, 1, 1, 1, 1, 1, 1, 1, 1, 1, 1, 1, 1, 1, 1, 1, 1, 1, 1,
    1, 1, 1, 1, 1, 1, 1, 1, 1, 1, 1, 1, 1, 1, 1, 1, 1, 1, 1, 1, 1, 1, 1, 1, 1, 1, 1, 1, 1, 1, 1, 1,
];

/// What [`BLANKS_TOLD`] tells of a byte.
#[inline(always)]
fn blanks_told(byte: u8) -> u8
    ensures { result ≡ blanks_told byte }
{
    BLANKS_TOLD[byte as usize]
}

/// Whether so many blanks that are decided before an item stand there in the input; told for up to one, as most are.
///
/// Before a `#` stands one blank, whatever is decided, and before the first item of a text no decision counts.
#[inline(always)]
fn are_same_blanks(
    arena: &TokenArena<'_, '_>,
    at: usize,
    place: u32,
    token: &Token<'_>,
    count: u32,
) -> bool
    requires later { 0 < place }
    requires here { IsAt arena.now.tokens place (told_by token.now) }
    requires stands { Stands arena.now.text at (told_by token.now) }
    ensures { IsTrue result → (style : Style) (crlf : Bool) →
        IsSame style crlf arena.now at place (Spaces count) (told_by token.now) }
{
    let _items = arena.len();
    if token.item.start as usize - at != count as usize {
        return false;
    }
    let byte = arena.text()[at];
    usize::from(blanks_told(byte)) == count as usize + 1
}

/// Whether so many blanks that are decided before an item, which may be the first, stand there in the input.
#[inline(always)]
pub(crate) fn have_blanks(
    arena: &TokenArena<'_, '_>,
    at: usize,
    place: u32,
    token: &Token<'_>,
    count: u32,
) -> bool
    requires here { IsAt arena.now.tokens place (told_by token.now) }
    requires stands { Stands arena.now.text at (told_by token.now) }
    ensures { IsTrue result → (style : Style) (crlf : Bool) →
        IsSame style crlf arena.now at place (Spaces count) (told_by token.now) }
{
    if place == 0 {
        return false;
    }
    are_same_blanks(arena, at, place, token, count)
}

/// Whether blanks are decided before an item behind another, and stand there in the input.
#[inline(always)]
pub(crate) fn has_same_blanks(
    arena: &TokenArena<'_, '_>,
    at: usize,
    place: u32,
    token: &Token<'_>,
    plan: &Plan<'_>,
) -> bool
    requires whole { place < length plan.now }
    requires later { 0 < place }
    requires here { IsAt arena.now.tokens place (told_by token.now) }
    requires stands { Stands arena.now.text at (told_by token.now) }
    ensures { IsTrue result → (style : Style) (crlf : Bool) →
        IsSame style crlf arena.now at place (decision_at plan.now place) (told_by token.now) }
{
    match plan.blanks(place) {
        Some(count) => are_same_blanks(arena, at, place, token, count),
        None => false,
    }
}

/// Whether bytes are the same.
#[inline(always)]
pub(crate) fn are_equal(left: &[u8], right: &[u8]) -> bool
    ensures { IsTrue result → left.now ≡ right.now }
{
    left == right
}

/// The bytes that are written of lines that are decided before an item, whatever comes then. They are told where the
/// item begins its line in the input, so that no `#` comes, behind an item that needs no guard, and for lines that are
/// one piece. So it is before most items.
#[inline(always)]
pub(crate) fn lines_piece(
    style: &Style,
    crlf: bool,
    arena: &TokenArena<'_, '_>,
    place: u32,
    token: &Token<'_>,
    gap: LineGap,
) -> Option<LinesPiece>
    requires { place ≤ length arena.now.tokens }
    ensures within { IfSome result (λ piece. piece.len ≤ length piece.bytes.now) }
    ensures is { IfSome result (λ piece. IsWritten style.now crlf arena.now place (Lines gap.count gap.column gap.level)
        (told_by token.now) (take piece.len piece.bytes.now)) }
{
    if place == 0 || !token.gap.began {
        return None;
    }
    if !is_free(guard_before(arena, place)) {
        return None;
    }
    let piece = lines_front(style, crlf, gap.count, gap.column)?;
    Some(piece)
}

/// Whether the input's bytes stay in a gap that is decided so.
#[inline(always)]
pub(crate) fn stays(decision: Decision) -> bool
    ensures { result ≡ is_old decision }
{
    matches!(decision, Decision::Old)
}
