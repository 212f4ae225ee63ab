//! Where tokens stand, read off what is decided for their gaps.

ghost use Rattle.std.specs.Prelude.{◌≡◌, ◌<◌, ◌≤◌, ◌++◌, All, IfNone, IfSome, List, drop, get_or, length};
ghost use Rattle.style_table.specs.Range.{IsInRange};
ghost use Rattle.comment_rows.specs.Comments.{ends_in, first_start, is_next, rows_before, start_by};

use layout_tables::spaces_before;
use line_tokens::LineTok;
use replacements::{Decision, Plan, Slot};
use style_table::Style;
use view_tokens::{RowTokens, ViewTokens};

/// How many rows end in a gap that is decided so, where the input's gap has so many new-lines.
fn ends_in(decision: Decision, lines: u32) -> u32
    ensures { result ≡ ends_in decision lines }
{
    match decision {
        Decision::Old => lines,
        Decision::Spaces(_) => 0,
        Decision::Lines { count, .. } => count,
        Decision::Splice { .. } => 1,
    }
}

/// How many rows end in the gap before the token at a place; in one that is open none does.
#[inline(always)]
fn rows_before(slot: Option<Slot>, row: &RowTokens<'_>, at: usize) -> u32
    requires { at < length row.now }
    ensures { (d : LineTok) → result ≡ rows_before slot (get_or row.now at d) }
{
    match slot {
        None => 0,
        Some(slot) => ends_in(slot.decision, row.lines(at)),
    }
}

/// The column at which a token starts, where the one before it ends at a column.
pub(crate) fn start_by(
    style: &Style,
    left: &LineTok,
    column: u32,
    token: &LineTok,
    slot: Option<Slot>,
) -> u32
    requires { IsInRange style.now }
    ensures { result ≡ start_by style.now left.now column token.now slot }
{
    match slot {
        None => column.saturating_add(u32::from(spaces_before(style, left, token))),
        Some(slot) => slot.end,
    }
}

/// The column at which the first token of a view starts.
pub(crate) fn first_start(slot: Option<Slot>) -> u32
    ensures { result ≡ first_start slot }
{
    match slot {
        None => 0,
        Some(slot) => slot.end,
    }
}

/// Whether the next trailing comment begins on the row directly behind the comment before these tokens, and no
/// directive stands between, where these tokens tell it. `ended` counts the rows that ended since that comment.
#[inline(always)]
fn next_among(plan: &Plan<'_>, row: &RowTokens<'_>, ended: &mut u64) -> Option<bool>
    requires within { All (λ token. token.id.0 < length plan.now) row.now }
    requires short { ended.old ≤ 1 }
    ensures told { IfSome result (λ next. (later : List LineTok) →
        next ≡ is_next plan.now ended.old (row.now ++ later)) }
    ensures on { IfNone result ((later : List LineTok) →
        is_next plan.now ended.new later ≡ is_next plan.now ended.old (row.now ++ later)) }
    ensures short { IfNone result (ended.new ≤ 1) }
{
    for at in 0..row.len() {
        if row.is_behind_directive(at) {
            return Some(false);
        }
        let here = *ended + u64::from(rows_before(plan.slot(row.id(at)), row, at));
        if row.role(at).is_trailing() {
            return Some(here == 1);
        }
        *ended = here + u64::from(row.extent(at).rows.saturating_sub(1));
        if *ended > 1 {
            return Some(false);
        }
    }
    None
}

/// Whether the next trailing comment from a place on begins on the row directly behind the comment before that place,
/// and no directive stands between. `segment` is the number of the view's segment that was looked into last.
pub(crate) fn is_next(
    plan: &Plan<'_>,
    tokens: &ViewTokens<'_>,
    first: usize,
    segment: &mut usize,
) -> bool
    requires within { All (λ token. token.id.0 < length plan.now) tokens.now }
    requires inside { first ≤ length tokens.now }
    ensures { result ≡ is_next plan.now 0 (drop first tokens.now) }
{
    let mut ended = 0;
    let mut place = first;
    while place < tokens.len() {
        let row = tokens.row_from(place, segment);
        if let Some(next) = next_among(plan, &row, &mut ended) {
            return next;
        }
        place += row.len();
    }
    false
}
