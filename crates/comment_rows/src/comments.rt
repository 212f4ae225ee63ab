//! The trailing comments of a view.

ghost use Rattle.std.specs.Prelude.{◌≡◌, ◌+◌, ◌-◌, ◌<◌, ◌≤◌, All, IfOk, IsSome, List, OnOk, Some, drop, get_or};
ghost use Rattle.std.specs.Prelude.{if◌then◌else◌, length, map, slice_get, true};
ghost use Rattle.std.specs.Bool.{OnFalse};
ghost use Rattle.style_table.specs.Range.{IsInRange};
ghost use Rattle.line_tokens.specs.declared.LineTok.{LineTok};
ghost use Rattle.line_tokens.specs.Roles.{is_trailing};
ghost use Rattle.line_tokens.specs.Tokens.{no_token};
ghost use Rattle.replacements.specs.Decisions.{decided, decided_all, slot_of};
ghost use Rattle.comment_rows.specs.Comments.{column_behind, comment_of, comments_in, comments_made, is_next, placed};
ghost use Rattle.comment_rows.specs.Comments.{placed_slot, row_of};

use crate::rows::{first_start, is_next, start_by};
use crate::trailing::next_trailing;
use crate::{TrailRow, align};
use bumpalo::Bump;
use layout_tables::spaces_before;
use line_tokens::{LineTok, NoMemory};
use replacements::{Decision, Plan};
use style_table::Style;
use view_tokens::ViewTokens;

/// A trailing comment of a view, as it is read off the plan. Contracts tell the decisions for a view by these.
#[derive(Clone, Copy, Debug)]
pub struct Comment {
    /// The number of its item.
    pub id: u32,
    /// The blanks of the table before it.
    pub spaces: u32,
    /// Its row, before the rows are aligned.
    pub row: TrailRow,
}

/// The token at a place.
#[inline(always)]
fn token_at(tokens: &[LineTok], at: usize) -> &LineTok
    requires { at < length tokens.now }
    ensures { slice_get tokens.now at ≡ Some result.now }
{
    &tokens[at]
}

/// Whether the gap before a trailing comment is open.
fn has_open_comment(plan: &Plan<'_>, tokens: &ViewTokens<'_>) -> bool
    requires { All (λ token. token.id.0 < length plan.now) tokens.now }
    ensures { OnFalse result
        (All (λ token. is_trailing token.role ≡ true → IsSome (slot_of plan.now token.id.0)) tokens.now) }
{
    let mut segment = 0;
    let mut at = next_trailing(tokens, 0);
    while at < tokens.len() {
        if !plan.is_decided(tokens.id(at, &mut segment)) {
            return true;
        }
        at = next_trailing(tokens, at + 1);
    }
    false
}

/// A trailing comment with its row, behind a token that ends at a column. The next one follows it or doesn't.
fn comment_of(
    style: &Style,
    plan: &Plan<'_>,
    left: &LineTok,
    column: u32,
    token: &LineTok,
    next: bool,
) -> Comment
    requires range { IsInRange style.now }
    requires within { token.now.id.0 < length plan.now }
    ensures { (tokens : List LineTok) → next ≡ is_next plan.now 0 tokens →
        result ≡ comment_of style.now plan.now left.now column token.now tokens }
{
    let slot = plan.slot(token.id.0);
    Comment {
        id: token.id.0,
        spaces: u32::from(spaces_before(style, left, token)),
        row: TrailRow {
            end: column,
            column: start_by(style, left, column, token, slot),
            next,
            fixed: slot.is_some(),
        },
    }
}

/// A place of a view, and the column behind the token there.
#[derive(Clone, Copy)]
struct Behind {
    place: usize,
    column: u32,
}

/// The column behind the token at a place, from that behind an earlier one on. The tokens between are made at once,
/// since there may be many.
#[inline(never)]
fn walk_to(
    style: &Style,
    plan: &Plan<'_>,
    tokens: &ViewTokens<'_>,
    known: Behind,
    place: usize,
    run: &Bump,
) -> Result<u32, NoMemory>
    requires range { IsInRange style.now }
    requires within { All (λ token. token.id.0 < length plan.now) tokens.now }
    requires inside { place < length tokens.now }
    requires order { known.place ≤ place }
    requires known { known.column ≡ column_behind style.now plan.now tokens.now known.place }
    ensures { IfOk result (λ column. column ≡ column_behind style.now plan.now tokens.now place) }
{
    // How many there are fits, and so the next place.
    let _count = tokens.len();
    let between = tokens.between(known.place, place + 1, run)?;
    let mut column = known.column;
    for at in 0..place - known.place {
        let left = token_at(between, at);
        let token = token_at(between, at + 1);
        let start = start_by(style, left, column, token, plan.slot(token.id.0));
        column = token.end_of(start);
    }
    Ok(column)
}

/// The column behind a token at a place. Where its gap is decided, as most are, no other token is looked at.
fn column_behind(
    style: &Style,
    plan: &Plan<'_>,
    tokens: &ViewTokens<'_>,
    token: &LineTok,
    known: Behind,
    place: usize,
    run: &Bump,
) -> Result<u32, NoMemory>
    requires range { IsInRange style.now }
    requires within { All (λ token. token.id.0 < length plan.now) tokens.now }
    requires inside { place < length tokens.now }
    requires token { token.now ≡ get_or tokens.now place no_token }
    requires order { known.place ≤ place }
    requires known { known.column ≡ column_behind style.now plan.now tokens.now known.place }
    ensures { IfOk result (λ column. column ≡ column_behind style.now plan.now tokens.now place) }
{
    match plan.slot(token.id.0) {
        Some(slot) => Ok(token.end_of(slot.end)),
        None => walk_to(style, plan, tokens, known, place, run),
    }
}

/// The trailing comment at a place. Before it the column behind a token is known.
fn comment_at(
    style: &Style,
    plan: &Plan<'_>,
    tokens: &ViewTokens<'_>,
    at: usize,
    known: &mut Behind,
    segment: &mut usize,
    run: &Bump,
) -> Result<Comment, NoMemory>
    requires range { IsInRange style.now }
    requires within { All (λ token. token.id.0 < length plan.now) tokens.now }
    requires inside { at < length tokens.now }
    requires order { known.old.place < at }
    requires known { known.old.column ≡ column_behind style.now plan.now tokens.now known.old.place }
    ensures order { OnOk result (known.new.place < at) }
    ensures known { OnOk result (known.new.column ≡ column_behind style.now plan.now tokens.now known.new.place) }
    ensures comment { IfOk result (λ comment. comment
        ≡ comment_of style.now plan.now (get_or tokens.now (at - 1) no_token)
        (column_behind style.now plan.now tokens.now (at - 1)) (get_or tokens.now at no_token)
        (drop (at + 1) tokens.now)) }
{
    // How many there are fits, and so the next place.
    let _count = tokens.len();
    let place = at - 1;
    let left = tokens.at(place);
    let column = column_behind(style, plan, tokens, &left, *known, place, run)?;
    *known = Behind { place, column };
    let token = tokens.at(at);
    let next = is_next(plan, tokens, at + 1, segment);
    Ok(comment_of(style, plan, &left, column, &token, next))
}

/// The trailing comments of a view.
fn comments_in<'r>(
    style: &Style,
    plan: &Plan<'_>,
    tokens: &ViewTokens<'_>,
    run: &'r Bump,
) -> Result<Vec<Comment, &'r Bump>, NoMemory>
    requires range { IsInRange style.now }
    requires within { All (λ token. token.id.0 < length plan.now) tokens.now }
    ensures { IfOk result (λ comments. comments.items ≡ comments_in style.now plan.now tokens.now) }
{
    let mut comments = Vec::new(run);
    if tokens.is_empty() {
        return Ok(comments);
    }
    let first = tokens.at(0);
    let mut known = Behind {
        place: 0,
        column: first.end_of(first_start(plan.slot(first.id.0))),
    };
    let mut segment = 0;
    let mut at = next_trailing(tokens, 1);
    while at < tokens.len() {
        let comment = comment_at(style, plan, tokens, at, &mut known, &mut segment, run)?;
        comments.push(comment)?;
        at = next_trailing(tokens, at + 1);
    }
    Ok(comments)
}

/// The rows of comments.
fn rows_of<'r>(comments: &[Comment], run: &'r Bump) -> Result<Vec<TrailRow, &'r Bump>, NoMemory>
    ensures { IfOk result (λ rows. rows.items ≡ map row_of comments.now) }
{
    let mut rows = Vec::with_capacity(run, comments.len())?;
    for comment in comments {
        rows.push(comment.row)?;
    }
    Ok(rows)
}

/// Decides the gap before a comment in this row, where it is open.
fn place(comment: &Comment, row: &TrailRow, plan: &mut Plan<'_>)
    requires { comment.now.id < length plan.old }
    ensures plan { plan.new
        ≡ (if comment.now.row.fixed then plan.old
        else decided plan.old comment.now.id (placed_slot comment.now row.now)) }
    ensures len { length plan.new ≡ length plan.old }
{
    if !comment.row.fixed {
        let moved = row.column.saturating_sub(comment.row.column);
        let spaces = comment.spaces.saturating_add(moved);
        let _ = plan.decide(comment.id, Decision::Spaces(spaces), row.column);
    }
}

/// Decides the open gaps before comments, which stand in these rows.
fn place_all(comments: &[Comment], rows: &[TrailRow], plan: &mut Plan<'_>)
    requires same { length rows.now ≡ length comments.now }
    requires within { All (λ comment. comment.id < length plan.old) comments.now }
    ensures plan { plan.new ≡ decided_all plan.old (placed comments.now rows.now) }
    ensures len { length plan.new ≡ length plan.old }
{
    for at in 0..comments.len() {
        place(&comments[at], &rows[at], plan);
    }
}

/// Decides the open gaps before the trailing comments of a view, whose other gaps are decided. `tokens` are the view's
/// tokens. Those alone are made that tell where comments stand. Want of memory is the only error.
pub fn place_comments(
    style: &Style,
    tokens: &ViewTokens<'_>,
    plan: &mut Plan<'_>,
    run: &Bump,
) -> Result<(), NoMemory>
    requires range { IsInRange style.now }
    requires within { All (λ token. token.id.0 < length plan.old) tokens.now }
    ensures plan { OnOk result (plan.new ≡ decided_all plan.old (comments_made style.now tokens.now plan.old)) }
    ensures len { length plan.new ≡ length plan.old }
{
    if !has_open_comment(plan, tokens) {
        return Ok(());
    }
    let comments = comments_in(style, plan, tokens, run)?;
    let mut rows = rows_of(&comments, run)?;
    align(style, &mut rows);
    place_all(&comments, &rows, plan);
    Ok(())
}
