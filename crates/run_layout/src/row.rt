//! Lines that stay on one row. They need no search.

ghost use Rattle.std.specs.Prelude.{◌≡◌, ◌+◌, ◌<◌, ◌≤◌, ◌^◌, All, IsTrue, None, drop, get_or};
ghost use Rattle.std.specs.Prelude.{if◌then◌else◌, length, min};
ghost use Rattle.line_tokens.specs.Roles.{is_trailing};
ghost use Rattle.style_table.specs.Range.{IsInRange};
ghost use Rattle.line_state.specs.Brackets.{opens_frame};
ghost use Rattle.line_state.specs.Line.{Line};
ghost use Rattle.line_tokens.specs.Tokens.{no_token};
ghost use Rattle.replacements.specs.declared.gap_text.Decision.TheVariants.{Spaces};
ghost use Rattle.replacements.specs.Decisions.{decided, decided_all};
ghost use Rattle.layout_tables.specs.Told.{TellBlanks};
ghost use Rattle.run_layout.specs.OneRow.{AreOpenInside, Fits, IsRow, IsRowLine, row_made};

use layout_tables::{RowBlanks, must_break};
use line_gaps::token_at;
use line_state::opens_frame;
use line_tokens::{Fixed, LineTok, Role, stored_or};
use replacements::{Decision, Plan};
use style_table::Style;

/// How many frames are open behind a token, where so many are before it, and so many brackets are open there.
#[inline(always)]
pub(crate) fn open_behind(frames: u64, role: Role, depth: u32) -> u64
    ensures is { result ≡ min depth frames + (if opens_frame role then 1 else 0) }
    ensures few { result ≤ 2 ^ 32 }
{
    let kept = frames.min(u64::from(depth));
    if opens_frame(role) { kept + 1 } else { kept }
}

/// Whether the first row of a token that starts here doesn't pass the limit.
#[inline(always)]
fn fits(style: &Style, token: &LineTok, start: u32) -> bool
    ensures { IsTrue result → Fits style.now token.now start }
{
    token.role.is_trailing() || start.saturating_add(token.first_width) <= style.column_limit
}

/// Whether a line's first token costs nothing: its gap is decided, or it doesn't pass the limit.
#[inline(always)]
fn first_fits(style: &Style, token: &LineTok, start: u32, first: Option<Fixed>) -> bool
    ensures { IsTrue result → first ≡ None → Fits style.now token.now start }
{
    match first {
        Some(_) => true,
        None => fits(style, token, start),
    }
}

/// Whether a line stays on one row as [`is_open_row`] says it, told by the blanks that stand in its gaps.
fn is_row_by_table(
    style: &Style,
    blanks: &RowBlanks,
    tokens: &[LineTok],
    column: u32,
    first: Option<Fixed>,
    budget: u64,
) -> bool
    requires range { IsInRange style.now }
    requires tell { TellBlanks style.now blanks.now.of_group }
    requires some { 0 < length tokens.now }
    requires budget { budget ≤ 16000000 }
    ensures { IsTrue result → (l : Line) → IsRowLine l style.now column tokens.now first → IsRow l budget }
{
    let mut left = token_at(tokens, 0);
    let start = stored_or(first, column);
    if !first_fits(style, left, start, first) {
        return false;
    }
    let mut behind = left.end_of(start);
    let mut frames = open_behind(0, left.role, left.depth);
    let mut cells = frames + 1;
    for at in 1..tokens.len() {
        let right = token_at(tokens, at);
        if must_break(style, left, right) {
            return false;
        }
        let start = behind.saturating_add(u32::from(blanks.before(style, left, right)));
        frames = open_behind(frames, right.role, right.depth);
        cells += frames + 1;
        if cells > budget {
            return false;
        }
        if !fits(style, right, start) {
            return false;
        }
        behind = right.end_of(start);
        left = right;
    }
    cells <= budget
}

/// The column up to which a line that starts at a column seems to go with no blank in it. Of its last token, which may
/// be a comment, nothing is counted.
#[inline(always)]
fn least_end(tokens: &[LineTok], column: u32) -> u64 {
    let mut end = u64::from(column);
    for at in 1..tokens.len() {
        end = end.wrapping_add(u64::from(token_at(tokens, at - 1).last_width));
    }
    end
}

/// Whether the gaps inside a line with these tokens are open.
#[inline(always)]
fn are_open_inside(plan: &Plan<'_>, tokens: &[LineTok]) -> bool
    requires { All (λ token. token.id.0 < length plan.now) tokens.now }
    ensures { IsTrue result → AreOpenInside plan.now tokens.now }
{
    for at in 1..tokens.len() {
        if plan.slot(token_at(tokens, at).id.0).is_some() {
            return false;
        }
    }
    true
}

/// Whether the gaps inside a line are open, and it stays on one row that doesn't pass the limit, within the budget.
pub(crate) fn is_open_row(
    style: &Style,
    blanks: &RowBlanks,
    tokens: &[LineTok],
    column: u32,
    first: Option<Fixed>,
    budget: u64,
    plan: &Plan<'_>,
) -> bool
    requires range { IsInRange style.now }
    requires tell { TellBlanks style.now blanks.now.of_group }
    requires some { 0 < length tokens.now }
    requires budget { budget ≤ 16000000 }
    requires within { All (λ token. token.id.0 < length plan.now) tokens.now }
    ensures inside { IsTrue result → AreOpenInside plan.now tokens.now }
    ensures row { IsTrue result → (l : Line) → IsRowLine l style.now column tokens.now first → IsRow l budget }
{
    least_end(tokens, column) <= u64::from(style.column_limit)
        && is_row_by_table(style, blanks, tokens, column, first, budget)
        && are_open_inside(plan, tokens)
}

/// Decides the gap before a token that stays behind another; a trailing comment waits.
#[inline(always)]
fn write_stay(token: &LineTok, spaces: u32, start: u32, plan: &mut Plan<'_>)
    requires { token.now.id.0 < length plan.old }
    ensures plan { plan.new
        ≡ (if is_trailing token.now.role then plan.old
        else decided plan.old token.now.id.0 (record { decision = Spaces spaces; end = start })) }
    ensures len { length plan.new ≡ length plan.old }
{
    if !token.role.is_trailing() {
        let _ = plan.decide(token.id.0, Decision::Spaces(spaces), start);
    }
}

/// Decides the gaps inside a line that stays on one row, whose first token ends at a column. Trailing comments wait.
pub(crate) fn write_row(
    style: &Style,
    blanks: &RowBlanks,
    tokens: &[LineTok],
    column: u32,
    plan: &mut Plan<'_>,
)
    requires range { IsInRange style.now }
    requires tell { TellBlanks style.now blanks.now.of_group }
    requires some { 0 < length tokens.now }
    requires within { All (λ token. token.id.0 < length plan.old) tokens.now }
    ensures plan { plan.new
        ≡ decided_all plan.old (row_made style.now column (get_or tokens.now 0 no_token) (drop 1 tokens.now)) }
    ensures len { length plan.new ≡ length plan.old }
{
    let mut left = token_at(tokens, 0);
    let mut column = column;
    for at in 1..tokens.len() {
        let right = token_at(tokens, at);
        let spaces = u32::from(blanks.before(style, left, right));
        let start = column.saturating_add(spaces);
        write_stay(right, spaces, start, plan);
        column = right.end_of(start);
        left = right;
    }
}
