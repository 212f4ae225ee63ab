//! The lines of a run.

ghost use Rattle.std.specs.Prelude.{◌≡◌, ◌+◌, ◌*◌, ◌^◌, ◌<◌, ◌≤◌, IfOk, OnOk, get_or, length};
ghost use Rattle.std.specs.Bool.{OnFalse, OnTrue};
ghost use Rattle.style_table.specs.Range.{IsInRange};
ghost use Rattle.item_classes.specs.Viewed.{AreWithin, classes_of};
ghost use Rattle.item_classes.specs.Items.{TellItems};
ghost use Rattle.line_state.specs.Line.{gaps};
ghost use Rattle.run_layout.specs.Ready.{IsOpenLine, IsReady};
ghost use Rattle.replacements.specs.Decisions.{decided, decided_all};
ghost use Rattle.line_gaps.specs.Counted.{IsCounted};
ghost use Rattle.run_layout.specs.Broken.{broken_line, broken_made, of_line};
ghost use Rattle.line_gaps.specs.InputColumns.{input_before};
ghost use Rattle.line_gaps.specs.Rows.{first_slot};
ghost use Rattle.layout_tables.specs.Indents.{start_column};
ghost use Rattle.layout_tables.specs.Told.{TellBlanks};
ghost use Rattle.run_layout.specs.OneRow.{IsRow, NeedNoCount, stays};
ghost use Rattle.line_gaps.specs.OpenGaps.{AreDecided, IsOpen};
ghost use Rattle.line_tokens.specs.Lines.{CutPlaces};
ghost use Rattle.line_tokens.specs.Tokens.{no_token};
ghost use Rattle.run_layout.specs.RunsLaid.{IsRunLaid};
ghost use Rattle.run_layout.specs.Told.{IsLaid};

use crate::broken::{OpenLine, write_broken};
use crate::laid::Laid;
use crate::past_budget::line_cells_past;
use crate::report::{Tally, note_line};
use crate::rooms::LineRooms;
use crate::row::{is_open_row, write_row};
use crate::short_row::{few_tokens, short_row, write_short_row};
use break_search::{Outcome, search};
use bumpalo::Bump;
use layout_tables::{RowBlanks, start_column};
use line_gaps::{
    InputCursor, ViewLayout, decide_first, fixed_of, is_decided, report_line, token_at,
};
use line_tokens::{LineTok, NoMemory, ULine, stored_or};
use line_walk::least_breaks;
use replacements::{Decision, Plan};
use view_tokens::RowTokens;

/// Decides the gap before the first item of a line that starts at this column, where the gap is open. Most have no
/// empty line, and what stands around them isn't looked at.
#[inline(always)]
fn begin_row(
    layout: &ViewLayout<'_>,
    line: &ULine,
    row: &RowTokens<'_>,
    column: u32,
    plan: &mut Plan<'_>,
)
    requires ready { IsReady layout.now }
    requires row { row.now ≡ of_line line.now layout.now.tokens.now }
    requires column { column ≡ start_column layout.now.style.now line.now }
    requires some { line.now.first ≤ line.now.last }
    requires places { line.now.last < length layout.now.view.now }
    requires whole { length plan.old ≡ length layout.now.arena.now.tokens + 1 }
    ensures plan { plan.new
        ≡ decided plan.old (get_or row.now 0 no_token).id.0
        (first_slot layout.now.style.now layout.now.arena.now layout.now.view.now line.now) }
    ensures len { length plan.new ≡ length plan.old }
{
    let id = row.id(0);
    if id > 0 && row.lines(0) <= 1 {
        let decision = Decision::Lines {
            count: 1,
            column,
            level: line.level,
        };
        let _ = plan.decide(id, decision, column);
        return;
    }
    decide_first(layout, line, id, plan);
}

/// Lays out a line whose gaps are open, if it is far from the limit, as most are. Otherwise nothing is decided. The
/// table of blanks is read for few gaps. `segment` is the number of the view's segment that was looked into last.
#[inline(always)]
fn lay_out_short_row(
    layout: &ViewLayout<'_>,
    line: &ULine,
    blanks: &RowBlanks,
    few: usize,
    segment: &mut usize,
    plan: &mut Plan<'_>,
) -> bool
    requires ready { IsReady layout.now }
    requires tell { TellBlanks layout.now.style.now blanks.now.of_group }
    requires few { NeedNoCount layout.now.style.now layout.now.budget few }
    requires some { line.now.first ≤ line.now.last }
    requires places { line.now.last < length layout.now.view.now }
    requires whole { length plan.old ≡ length layout.now.arena.now.tokens + 1 }
    ensures row { OnTrue result (IsRow (broken_line layout.now.style.now layout.now.arena.now layout.now.view.now
        layout.now.tokens.now plan.old line.now) layout.now.budget) }
    ensures opens { OnTrue result (IsOpen plan.old layout.now.view.now line.now) }
    ensures limit { OnTrue result (0 < layout.now.style.now.column_limit) }
    ensures plan { OnTrue result (plan.new
        ≡ decided_all plan.old (broken_made layout.now.style.now layout.now.arena.now layout.now.view.now
        layout.now.tokens.now plan.old line.now (stays (gaps
        (broken_line layout.now.style.now layout.now.arena.now layout.now.view.now layout.now.tokens.now
        plan.old line.now))))) }
    ensures same { OnFalse result (plan.new ≡ plan.old) }
    ensures len { length plan.new ≡ length plan.old }
{
    let style = layout.style;
    let arena = layout.arena;
    let items = arena.len();
    let end = line.last as usize + 1;
    let Some(row) = layout.tokens.row(line.first as usize, end, segment) else {
        return false;
    };
    let id = row.id(0);
    prove!(id < items);
    if plan.is_decided(id) {
        return false;
    }
    if row.len() > few {
        return false;
    }
    let column = start_column(style, line);
    let Some(count) = short_row(style, &row, column, plan) else {
        return false;
    };
    begin_row(layout, line, &row, column, plan);
    write_short_row(style, blanks, &row, count, column, plan);
    true
}

/// Lays out a line with these tokens whose inner gaps are open, if it stays on one row. Otherwise nothing is decided.
#[inline(never)]
fn lay_out_row(
    layout: &ViewLayout<'_>,
    line: &ULine,
    tokens: &[LineTok],
    blanks: &RowBlanks,
    plan: &mut Plan<'_>,
) -> bool
    requires ready { IsReady layout.now }
    requires tell { TellBlanks layout.now.style.now blanks.now.of_group }
    requires tokens { tokens.now ≡ of_line line.now layout.now.tokens.now }
    requires some { line.now.first ≤ line.now.last }
    requires places { line.now.last < length layout.now.view.now }
    requires whole { length plan.old ≡ length layout.now.arena.now.tokens + 1 }
    ensures row { OnTrue result (IsRow (broken_line layout.now.style.now layout.now.arena.now layout.now.view.now
        layout.now.tokens.now plan.old line.now) layout.now.budget) }
    ensures limit { OnTrue result (0 < layout.now.style.now.column_limit) }
    ensures plan { OnTrue result (plan.new
        ≡ decided_all plan.old (broken_made layout.now.style.now layout.now.arena.now layout.now.view.now
        layout.now.tokens.now plan.old line.now (stays (gaps
        (broken_line layout.now.style.now layout.now.arena.now layout.now.view.now layout.now.tokens.now
        plan.old line.now))))) }
    ensures same { OnFalse result (plan.new ≡ plan.old) }
    ensures len { length plan.new ≡ length plan.old }
{
    let style = layout.style;
    let arena = layout.arena;
    let items = arena.len();
    if style.column_limit == 0 {
        return false;
    }
    let token = token_at(tokens, 0);
    let id = token.id.0;
    prove!(id < items);
    let first = plan.fixed_of(arena, id);
    let column = start_column(style, line);
    if !is_open_row(style, blanks, tokens, column, first, layout.budget, plan) {
        return false;
    }
    let behind = token.end_of(stored_or(first, column));
    decide_first(layout, line, id, plan);
    write_row(style, blanks, tokens, behind, plan);
    true
}

/// Lays out a line that has an open gap, where there is no limit of columns.
#[inline(always)]
fn lay_out_unlimited(
    layout: &ViewLayout<'_>,
    open_line: &OpenLine<'_>,
    blanks: &RowBlanks,
    plan: &mut Plan<'_>,
    run: &Bump,
) -> Result<Laid, NoMemory>
    requires ready { IsReady layout.now }
    requires tell { TellBlanks layout.now.style.now blanks.now.of_group }
    requires line { IsOpenLine layout.now plan.old open_line.now }
    requires limit { layout.now.style.now.column_limit ≡ 0 }
    ensures laid { IfOk result (IsLaid layout.now.style.now layout.now.budget layout.now.arena.now layout.now.view.now
        layout.now.tokens.now plan.old open_line.now.line.now plan.new) }
    ensures len { OnOk result (length plan.new ≡ length plan.old) }
{
    let style = layout.style;
    let column = start_column(style, open_line.line);
    let breaks = least_breaks(
        layout.alloc,
        style,
        open_line.tokens,
        column,
        open_line.fixed,
        run,
    )?;
    write_broken(layout, open_line, blanks, breaks, plan)?;
    Ok(Laid::Unsearched)
}

/// Lays out a line that has an open gap by a search, or reports it.
#[inline(always)]
fn lay_out_limited(
    layout: &ViewLayout<'_>,
    open_line: &OpenLine<'_>,
    blanks: &RowBlanks,
    cursor: &mut InputCursor,
    plan: &mut Plan<'_>,
    run: &Bump,
) -> Result<Laid, NoMemory>
    requires ready { IsReady layout.now }
    requires tell { TellBlanks layout.now.style.now blanks.now.of_group }
    requires line { IsOpenLine layout.now plan.old open_line.now }
    requires limit { 0 < layout.now.style.now.column_limit }
    requires before { cursor.old.place ≤ open_line.now.line.now.first }
    requires column { cursor.old.column
        ≡ input_before layout.now.style.now layout.now.arena.now layout.now.view.now cursor.old.place }
    ensures laid { IfOk result (IsLaid layout.now.style.now layout.now.budget layout.now.arena.now layout.now.view.now
        layout.now.tokens.now plan.old open_line.now.line.now plan.new) }
    ensures len { OnOk result (length plan.new ≡ length plan.old) }
    ensures before { OnOk result (cursor.new.place ≤ open_line.now.line.now.last + 1) }
    ensures column { OnOk result (cursor.new.column
        ≡ input_before layout.now.style.now layout.now.arena.now layout.now.view.now cursor.new.place) }
{
    let style = layout.style;
    let budget = layout.budget;
    let tokens = open_line.tokens;
    let fixed = open_line.fixed;
    let column = start_column(style, open_line.line);
    match search(layout.alloc, style, tokens, column, fixed, budget, run)? {
        Outcome::Found { breaks, cost } => {
            write_broken(layout, open_line, blanks, breaks, plan)?;
            Ok(Laid::Least { cost })
        }
        Outcome::OverBudget { cells } => {
            report_line(layout, open_line.line, cursor, plan);
            Ok(Laid::Over { cells })
        }
    }
}

/// Lays out a line with these tokens that has an open gap and doesn't stay on one row.
#[inline(never)]
fn lay_out_searched(
    layout: &ViewLayout<'_>,
    line: &ULine,
    tokens: &[LineTok],
    blanks: &RowBlanks,
    cursor: &mut InputCursor,
    plan: &mut Plan<'_>,
    run: &Bump,
) -> Result<Laid, NoMemory>
    requires ready { IsReady layout.now }
    requires tell { TellBlanks layout.now.style.now blanks.now.of_group }
    requires tokens { tokens.now ≡ of_line line.now layout.now.tokens.now }
    requires some { line.now.first ≤ line.now.last }
    requires places { line.now.last < length layout.now.view.now }
    requires whole { length plan.old ≡ length layout.now.arena.now.tokens + 1 }
    requires opens { IsOpen plan.old layout.now.view.now line.now }
    requires before { cursor.old.place ≤ line.now.first }
    requires column { cursor.old.column
        ≡ input_before layout.now.style.now layout.now.arena.now layout.now.view.now cursor.old.place }
    ensures laid { IfOk result (IsLaid layout.now.style.now layout.now.budget layout.now.arena.now layout.now.view.now
        layout.now.tokens.now plan.old line.now plan.new) }
    ensures len { OnOk result (length plan.new ≡ length plan.old) }
    ensures before { OnOk result (cursor.new.place ≤ line.now.last + 1) }
    ensures column { OnOk result (cursor.new.column
        ≡ input_before layout.now.style.now layout.now.arena.now layout.now.view.now cursor.new.place) }
{
    let count = layout.view.len();
    prove!(line.last < count);
    let fixed = fixed_of(layout.arena, tokens, plan, run)?;
    let open_line = OpenLine {
        line,
        tokens,
        fixed,
    };
    if layout.style.column_limit == 0 {
        return lay_out_unlimited(layout, &open_line, blanks, plan, run);
    }
    lay_out_limited(layout, &open_line, blanks, cursor, plan, run)
}

/// Whether each gap of a line is decided. Before the first item of most lines it isn't, and no other gap is looked at.
#[inline(always)]
fn is_line_decided(
    layout: &ViewLayout<'_>,
    line: &ULine,
    plan: &Plan<'_>,
    segment: &mut usize,
) -> bool
    requires items { AreWithin layout.now.arena.now layout.now.view.now }
    requires some { line.now.first ≤ line.now.last }
    requires places { line.now.last < length layout.now.view.now }
    requires whole { length plan.now ≡ length layout.now.arena.now.tokens + 1 }
    ensures yes { OnTrue result (AreDecided plan.now layout.now.view.now line.now) }
    ensures no { OnFalse result (IsOpen plan.now layout.now.view.now line.now) }
{
    let items = layout.arena.len();
    let first = layout.view.at_near(line.first, segment).0;
    prove!(first < items);
    if !plan.is_decided(first) {
        return false;
    }
    is_decided(layout.arena, layout.view, line, plan, segment)
}

/// Lays out a line that isn't open or isn't far from the limit: decides its open gaps, and tells what came of it.
/// `segment` is the number of the view's segment that was looked into last.
#[inline(never)]
fn lay_out_other_line(
    layout: &ViewLayout<'_>,
    line: &ULine,
    blanks: &RowBlanks,
    segment: &mut usize,
    cursor: &mut InputCursor,
    plan: &mut Plan<'_>,
    rooms: &mut LineRooms<'_>,
) -> Result<Laid, NoMemory>
    requires ready { IsReady layout.now }
    requires tell { TellBlanks layout.now.style.now blanks.now.of_group }
    requires some { line.now.first ≤ line.now.last }
    requires places { line.now.last < length layout.now.view.now }
    requires whole { length plan.old ≡ length layout.now.arena.now.tokens + 1 }
    requires before { cursor.old.place ≤ line.now.first }
    requires column { cursor.old.column
        ≡ input_before layout.now.style.now layout.now.arena.now layout.now.view.now cursor.old.place }
    ensures laid { IfOk result (IsLaid layout.now.style.now layout.now.budget layout.now.arena.now layout.now.view.now
        layout.now.tokens.now plan.old line.now plan.new) }
    ensures len { OnOk result (length plan.new ≡ length plan.old) }
    ensures before { OnOk result (cursor.new.place ≤ line.now.last + 1) }
    ensures column { OnOk result (cursor.new.column
        ≡ input_before layout.now.style.now layout.now.arena.now layout.now.view.now cursor.new.place) }
{
    if is_line_decided(layout, line, plan, segment) {
        return Ok(Laid::Unsearched);
    }
    if let Some(cells) = line_cells_past(layout, line, segment) {
        report_line(layout, line, cursor, plan);
        return Ok(Laid::Over { cells });
    }
    let run = rooms.next(layout.alloc);
    let end = line.last as usize + 1;
    let tokens = layout.tokens.between(line.first as usize, end, run)?;
    if lay_out_row(layout, line, tokens, blanks, plan) {
        return Ok(Laid::Least { cost: 0 });
    }
    lay_out_searched(layout, line, tokens, blanks, cursor, plan, run)
}

/// Lays out a line: decides its open gaps, and tells what came of it. `segment` is the number of the view's segment
/// that was looked into last.
#[inline(always)]
fn lay_out_line(
    layout: &ViewLayout<'_>,
    line: &ULine,
    blanks: &RowBlanks,
    few: usize,
    segment: &mut usize,
    cursor: &mut InputCursor,
    plan: &mut Plan<'_>,
    rooms: &mut LineRooms<'_>,
) -> Result<Laid, NoMemory>
    requires ready { IsReady layout.now }
    requires tell { TellBlanks layout.now.style.now blanks.now.of_group }
    requires few { NeedNoCount layout.now.style.now layout.now.budget few }
    requires some { line.now.first ≤ line.now.last }
    requires places { line.now.last < length layout.now.view.now }
    requires whole { length plan.old ≡ length layout.now.arena.now.tokens + 1 }
    requires before { cursor.old.place ≤ line.now.first }
    requires column { cursor.old.column
        ≡ input_before layout.now.style.now layout.now.arena.now layout.now.view.now cursor.old.place }
    ensures laid { IfOk result (IsLaid layout.now.style.now layout.now.budget layout.now.arena.now layout.now.view.now
        layout.now.tokens.now plan.old line.now plan.new) }
    ensures len { OnOk result (length plan.new ≡ length plan.old) }
    ensures before { OnOk result (cursor.new.place ≤ line.now.last + 1) }
    ensures column { OnOk result (cursor.new.column
        ≡ input_before layout.now.style.now layout.now.arena.now layout.now.view.now cursor.new.place) }
{
    if lay_out_short_row(layout, line, blanks, few, segment, plan) {
        return Ok(Laid::Least { cost: 0 });
    }
    lay_out_other_line(layout, line, blanks, segment, cursor, plan, rooms)
}

/// Lays out the lines of a run: decides the gap before each item of a view, which these lines cut, where it is open.
/// What came of them is noted.
pub fn lay_out_lines(
    layout: &ViewLayout<'_>,
    number: u32,
    lines: &[ULine],
    plan: &mut Plan<'_>,
    tally: &mut Tally<'_>,
    run: &Bump,
) -> Result<(), NoMemory>
    requires range { IsInRange layout.now.style.now }
    requires budget { layout.now.budget ≤ 16000000 }
    requires within { AreWithin layout.now.arena.now layout.now.view.now }
    requires classes { layout.now.classes.now ≡ classes_of layout.now.arena.now layout.now.view.now }
    requires count { length layout.now.tokens.now ≡ length layout.now.view.now }
    requires tell { TellItems layout.now.arena.now layout.now.view.now layout.now.tokens.now }
    requires cut { CutPlaces 0 (length layout.now.view.now) lines.now }
    requires whole { length plan.old ≡ length layout.now.arena.now.tokens + 1 }
    requires room { tally.old.searched + length lines.now < 2 ^ 60 }
    requires cheap { tally.old.cost ≤ tally.old.searched * 18446744073709551615 }
    requires counted { IsCounted layout.now.arena.now tally.old.lines }
    ensures laid { OnOk result (IsRunLaid layout.now.style.now layout.now.budget layout.now.arena.now
        layout.now.view.now layout.now.tokens.now number plan.old lines.now plan.new tally.old tally.new) }
    ensures len { OnOk result (length plan.new ≡ length plan.old) }
    ensures room { OnOk result (tally.new.searched ≤ tally.old.searched + length lines.now) }
    ensures cheap { OnOk result (tally.new.cost ≤ tally.new.searched * 18446744073709551615) }
    ensures counted { OnOk result (IsCounted layout.now.arena.now tally.new.lines) }
{
    let mut segment = 0;
    let mut cursor = InputCursor {
        place: 0,
        column: 0,
    };
    let blanks = RowBlanks::of(layout.style);
    let mut rooms = LineRooms::of(layout, run);
    let few = few_tokens(layout.style, layout.budget);
    for line in lines {
        let laid = lay_out_line(
            layout,
            line,
            &blanks,
            few,
            &mut segment,
            &mut cursor,
            plan,
            &mut rooms,
        )?;
        note_line(layout.arena, layout.view, number, line.first, laid, tally)?;
    }
    Ok(())
}
