//! Short rows: lines that stay on one row far from the limit, as most do. Little is read of their tokens.

ghost use Rattle.std.specs.Prelude.{◌≡◌, ◌+◌, ◌-◌, ◌<◌, ◌≤◌, ◌^◌, All, IfSome, IsTrue, None, drop, false, ℕ, get_or};
ghost use Rattle.std.specs.Prelude.{if◌then◌else◌, length, min, true};
ghost use Rattle.line_tokens.specs.Roles.{is_trailing};
ghost use Rattle.style_table.specs.Range.{IsInRange};
ghost use Rattle.line_tokens.specs.Columns.{columns, end_of};
ghost use Rattle.line_state.specs.Line.{Line};
ghost use Rattle.line_tokens.specs.Tokens.{no_token};
ghost use Rattle.replacements.specs.Decisions.{decided, decided_all};
ghost use Rattle.replacements.specs.declared.gap_text.Decision.TheVariants.{Spaces};
ghost use Rattle.layout_tables.specs.Breaks.{ends_its_row};
ghost use Rattle.layout_tables.specs.Spaces.{spaces_before};
ghost use Rattle.layout_tables.specs.Told.{TellBlanks, group_before, group_behind};
ghost use Rattle.run_layout.specs.OneRow.{AreOpenInside, IsRow, IsRowLine, IsShortRow, NeedNoCount, StandTogether};
ghost use Rattle.run_layout.specs.OneRow.{row_made};

use crate::roles::{ends_row, groups_of, is_own_or_trailing};
use layout_tables::RowBlanks;
use replacements::{Decision, Plan};
use style_table::Style;
use view_tokens::{RowTokens, spaces_behind};

/// A line of more tokens isn't tested for a short row.
const MOST_TOKENS: usize = 1000;

/// A line of so many tokens has no more cells: behind each, one and no more than a frame for each token.
const MOST_CELLS: u64 = 1_001_000;

/// No style's limit of columns is greater.
const MOST_COLUMNS: u64 = 1000;

/// The column behind the token at a place that starts at a column.
#[inline(never)]
fn end_of_rows(tokens: &RowTokens<'_>, at: usize, start: u32) -> u32
    requires { at < length tokens.now }
    ensures { result ≡ end_of (get_or tokens.now at no_token) start }
{
    let extent = tokens.extent(at);
    if extent.rows > 1 {
        extent.last_width
    } else {
        start.saturating_add(extent.last_width)
    }
}

/// The same. No call is made for most tokens, which are one row.
#[inline(always)]
fn end_at(tokens: &RowTokens<'_>, at: usize, start: u32) -> u32
    requires { at < length tokens.now }
    ensures { result ≡ end_of (get_or tokens.now at no_token) start }
{
    if tokens.is_one_row(at) {
        return start.saturating_add(tokens.extent(at).last_width);
    }
    end_of_rows(tokens, at, start)
}

/// The same, where no column passes the largest number.
#[inline(always)]
fn near_end_at(tokens: &RowTokens<'_>, at: usize, start: u32) -> u32
    requires within { at < length tokens.now }
    requires near { start + (get_or tokens.now at no_token).last_width < 2 ^ 32 }
    ensures { result ≡ end_of (get_or tokens.now at no_token) start }
{
    if tokens.is_one_row(at) {
        return start + tokens.extent(at).last_width;
    }
    end_of_rows(tokens, at, start)
}

/// At least as many columns as the first row of the token at a place takes, and as the last one: the bitwise or of two
/// numbers has each bit that one of them has.
#[inline(never)]
fn most_of_rows(tokens: &RowTokens<'_>, at: usize) -> u32
    requires { at < length tokens.now }
    ensures first { (get_or tokens.now at no_token).first_width ≤ result }
    ensures last { (get_or tokens.now at no_token).last_width ≤ result }
{
    let extent = tokens.extent(at);
    extent.first_width | extent.last_width
}

/// The same. For most tokens both are one row, and this is its width.
#[inline(always)]
fn most_width(tokens: &RowTokens<'_>, at: usize) -> u32
    requires { at < length tokens.now }
    ensures first { (get_or tokens.now at no_token).first_width ≤ result }
    ensures last { (get_or tokens.now at no_token).last_width ≤ result }
{
    if tokens.is_one_row(at) {
        return tokens.extent(at).last_width;
    }
    most_of_rows(tokens, at)
}

/// How many tokens a line may have that is tested for a short row.
pub(crate) fn few_tokens(style: &Style, budget: u64) -> usize
    ensures { NeedNoCount style.now budget result }
{
    if style.column_limit > 0 && budget >= MOST_CELLS {
        MOST_TOKENS
    } else {
        0
    }
}

/// Whether the token at a place is a trailing comment that ends its line and stays behind another.
#[inline(always)]
fn ends_waiting(tokens: &RowTokens<'_>, at: usize) -> bool
    requires some { 0 < at }
    requires short { length tokens.now ≤ 1000 }
    requires within { at < length tokens.now }
    ensures last { IsTrue result → at + 1 ≡ length tokens.now }
    ensures waits { IsTrue result → is_trailing (get_or tokens.now at no_token).role ≡ true }
    ensures goes_on { IsTrue result → ends_its_row (get_or tokens.now (at - 1) no_token).kind ≡ false }
    ensures apart { IsTrue result → (get_or tokens.now at no_token).trailing_list ≡ false }
{
    at + 1 == tokens.len()
        && tokens.role(at).is_trailing()
        && !ends_row(tokens.kind(at - 1), tokens.is_in_trailing_list(at))
}

/// One blank or none.
#[inline(always)]
fn one_if(holds: bool) -> u8
    ensures { result ≡ (if holds then 1 else 0) }
{
    if holds { 1 } else { 0 }
}

/// The blanks before a token of a row, where the groups of its role and of the one before it tell them, and the two
/// items needn't be asked whether they touch. That is so for most tokens.
#[inline(always)]
fn told_at(
    style: &Style,
    blanks: &RowBlanks,
    tokens: &RowTokens<'_>,
    at: usize,
    group: u32,
) -> Option<u8>
    requires tell { TellBlanks style.now blanks.now.of_group }
    requires some { 0 < at }
    requires within { at < length tokens.now }
    requires few { group ≤ 9 }
    requires group { group
        ≡ min (group_behind (get_or tokens.now (at - 1) no_token).role)
        (group_before (get_or tokens.now at no_token).role) }
    ensures { IfSome result (λ told. told
        ≡ spaces_before style.now (get_or tokens.now (at - 1) no_token) (get_or tokens.now at no_token)) }
{
    let told = blanks.of_group[group as usize];
    if told > 1 {
        return None;
    }
    // One comparison, since whether a blank stands there is hard to foresee.
    if one_if(!tokens.is_behind_nothing(at)) > told {
        return None;
    }
    Some(told)
}

/// The blanks before a token of a row, by these groups. Where they don't tell them the table is read.
#[inline(always)]
fn spaces_at(style: &Style, blanks: &RowBlanks, tokens: &RowTokens<'_>, at: usize, group: u32) -> u8
    requires range { IsInRange style.now }
    requires tell { TellBlanks style.now blanks.now.of_group }
    requires some { 0 < at }
    requires within { at < length tokens.now }
    requires few { group ≤ 9 }
    requires group { group
        ≡ min (group_behind (get_or tokens.now (at - 1) no_token).role)
        (group_before (get_or tokens.now at no_token).role) }
    ensures { result
        ≡ spaces_before style.now (get_or tokens.now (at - 1) no_token) (get_or tokens.now at no_token) }
{
    match told_at(style, blanks, tokens, at, group) {
        Some(told) => told,
        None => spaces_behind(style, tokens, at),
    }
}

/// Whether the first row of the token at a place doesn't pass the limit, where it starts at a column.
#[inline(always)]
fn fits_at(style: &Style, tokens: &RowTokens<'_>, at: usize, start: u32) -> bool
    requires { at < length tokens.now }
    ensures { IsTrue result →
        columns start (get_or tokens.now at no_token).first_width ≤ style.now.column_limit }
{
    start.saturating_add(tokens.extent(at).first_width) <= style.column_limit
}

/// Whether a line without trailing comments, whose gaps are open, stays on one row as [`is_open_row`] says it, told by
/// the blanks that stand in its gaps. Few lines come so near to the limit that these are asked for.
#[inline(never)]
fn is_near_row(style: &Style, tokens: &RowTokens<'_>, column: u32) -> bool
    requires range { IsInRange style.now }
    requires limit { 0 < style.now.column_limit }
    requires some { 0 < length tokens.now }
    requires few { length tokens.now ≤ 1000 }
    requires together { StandTogether tokens.now }
    ensures { IsTrue result → (l : Line) (budget : ℕ) → 1001000 ≤ budget →
        IsRowLine l style.now column tokens.now None → IsRow l budget }
{
    let blanks = RowBlanks::of(style);
    let mut kind = tokens.kind(0);
    let mut behind = groups_of(tokens.role(0)).behind;
    let mut end = end_at(tokens, 0, column);
    if !fits_at(style, tokens, 0, column) {
        return false;
    }
    for at in 1..tokens.len() {
        if ends_row(kind, tokens.is_in_trailing_list(at)) | is_own_or_trailing(tokens.role(at)) {
            return false;
        }
        let groups = groups_of(tokens.role(at));
        let group = behind.min(groups.before);
        let spaces = u32::from(spaces_at(style, &blanks, tokens, at, group));
        let start = end.saturating_add(spaces);
        if !fits_at(style, tokens, at, start) {
            return false;
        }
        end = end_at(tokens, at, start);
        behind = groups.behind;
        kind = tokens.kind(at);
    }
    true
}

/// How many tokens of a line whose first gap is open stand in its row before a trailing comment that ends it, where the
/// line stays on one row as [`is_open_row`] says it and the gaps inside it are open. Of most lines it is told by one
/// blank in each gap: the table has no more but before trailing comments.
#[inline(always)]
pub(crate) fn short_row(
    style: &Style,
    tokens: &RowTokens<'_>,
    column: u32,
    plan: &Plan<'_>,
) -> Option<usize>
    requires range { IsInRange style.now }
    requires limit { 0 < style.now.column_limit }
    requires some { 0 < length tokens.now }
    requires few { length tokens.now ≤ 1000 }
    requires together { StandTogether tokens.now }
    requires within { All (λ token. token.id.0 < length plan.now) tokens.now }
    ensures inside { IfSome result (λ count. AreOpenInside plan.now tokens.now) }
    ensures row { IfSome result (λ count.
        (l : Line) (budget : ℕ) → 1001000 ≤ budget → IsRowLine l style.now column tokens.now None → IsRow l budget) }
    ensures short { IfSome result
        (λ count. IsShortRow tokens.now (end_of (get_or tokens.now 0 no_token) column) count) }
{
    let limit = u64::from(style.column_limit);
    let mut kind = tokens.kind(0);
    let mut least = u64::from(column) + u64::from(most_width(tokens, 0));
    for at in 1..tokens.len() {
        if least > limit {
            return None;
        }
        if plan.is_decided(tokens.id(at)) {
            return None;
        }
        if ends_row(kind, tokens.is_in_trailing_list(at)) | is_own_or_trailing(tokens.role(at)) {
            if !ends_waiting(tokens, at) {
                return None;
            }
            if least + (at - 1) as u64 > limit {
                return None;
            }
            return Some(at);
        }
        least += u64::from(most_width(tokens, at));
        kind = tokens.kind(at);
    }
    if least > limit {
        return None;
    }
    let count = tokens.len();
    let most = least + (count - 1) as u64;
    if most <= limit {
        return Some(count);
    }
    if most > MOST_COLUMNS {
        return None;
    }
    if is_near_row(style, tokens, column) {
        return Some(count);
    }
    None
}

/// Decides the gap before a token of a row that stays behind another; a trailing comment waits.
#[inline(always)]
fn write_stay(tokens: &RowTokens<'_>, at: usize, spaces: u32, start: u32, plan: &mut Plan<'_>)
    requires within { at < length tokens.now }
    requires small { (get_or tokens.now at no_token).id.0 < length plan.old }
    ensures plan { plan.new
        ≡ (if is_trailing (get_or tokens.now at no_token).role then plan.old
        else decided plan.old (get_or tokens.now at no_token).id.0
        (record { decision = Spaces spaces; end = start })) }
    ensures len { length plan.new ≡ length plan.old }
{
    if !tokens.role(at).is_trailing() {
        let _ = plan.decide(tokens.id(at), Decision::Spaces(spaces), start);
    }
}

/// Decides the gaps of a row from a place on, where the token before it ends at a column. Trailing comments wait.
#[inline(never)]
fn write_from(
    style: &Style,
    blanks: &RowBlanks,
    tokens: &RowTokens<'_>,
    first: usize,
    column: u32,
    plan: &mut Plan<'_>,
)
    requires range { IsInRange style.now }
    requires tell { TellBlanks style.now blanks.now.of_group }
    requires some { 0 < first }
    requires place { first ≤ length tokens.now }
    requires within { All (λ token. token.id.0 < length plan.old) tokens.now }
    ensures plan { plan.new
        ≡ decided_all plan.old (row_made style.now column (get_or tokens.now (first - 1) no_token)
        (drop first tokens.now)) }
    ensures len { length plan.new ≡ length plan.old }
{
    let mut behind = groups_of(tokens.role(first - 1)).behind;
    let mut column = column;
    for at in first..tokens.len() {
        let groups = groups_of(tokens.role(at));
        let group = behind.min(groups.before);
        let spaces = u32::from(spaces_at(style, blanks, tokens, at, group));
        let start = column.saturating_add(spaces);
        write_stay(tokens, at, spaces, start, plan);
        column = end_at(tokens, at, start);
        behind = groups.behind;
    }
}

/// Decides the gaps inside a row whose first token ends at a column, up to a trailing comment that waits. No call is
/// made up to the first token that isn't one row, or whose blanks the roles don't tell.
#[inline(always)]
fn write_behind(
    style: &Style,
    blanks: &RowBlanks,
    tokens: &RowTokens<'_>,
    count: usize,
    column: u32,
    plan: &mut Plan<'_>,
)
    requires range { IsInRange style.now }
    requires tell { TellBlanks style.now blanks.now.of_group }
    requires short { IsShortRow tokens.now column count }
    requires within { All (λ token. token.id.0 < length plan.old) tokens.now }
    ensures plan { plan.new
        ≡ decided_all plan.old (row_made style.now column (get_or tokens.now 0 no_token)
        (drop 1 tokens.now)) }
    ensures len { length plan.new ≡ length plan.old }
{
    let mut behind = groups_of(tokens.role(0)).behind;
    // An entry has room for such columns, so that none is asked whether it has.
    let mut column = column as u16;
    for at in 1..count {
        let groups = groups_of(tokens.role(at));
        let group = behind.min(groups.before);
        let Some(spaces) = told_at(style, blanks, tokens, at, group) else {
            return write_from(style, blanks, tokens, at, u32::from(column), plan);
        };
        if !tokens.is_one_row(at) {
            return write_from(style, blanks, tokens, at, u32::from(column), plan);
        }
        let start = column + u16::from(spaces);
        let end = near_end_at(tokens, at, u32::from(start)) as u16;
        let decision = Decision::Spaces(u32::from(spaces));
        let _ = plan.decide(tokens.id(at), decision, u32::from(start));
        column = end;
        behind = groups.behind;
    }
}

/// Decides the gaps inside a short line that starts at a column, up to a trailing comment that waits. Where nothing
/// stands behind the first token, as behind a comment on lines of its own, its end isn't read.
#[inline(always)]
pub(crate) fn write_short_row(
    style: &Style,
    blanks: &RowBlanks,
    tokens: &RowTokens<'_>,
    count: usize,
    column: u32,
    plan: &mut Plan<'_>,
)
    requires range { IsInRange style.now }
    requires tell { TellBlanks style.now blanks.now.of_group }
    requires short { IsShortRow tokens.now (end_of (get_or tokens.now 0 no_token) column) count }
    requires within { All (λ token. token.id.0 < length plan.old) tokens.now }
    ensures plan { plan.new
        ≡ decided_all plan.old (row_made style.now (end_of (get_or tokens.now 0 no_token) column)
        (get_or tokens.now 0 no_token) (drop 1 tokens.now)) }
    ensures len { length plan.new ≡ length plan.old }
{
    if count == 1 {
        return;
    }
    let behind = end_at(tokens, 0, column);
    write_behind(style, blanks, tokens, count, behind, plan);
}
