//! Lines that are reported.

ghost use Rattle.std.specs.Prelude.{◌≡◌, ◌∷◌, ◌+◌, ◌<◌, ◌≤◌, ◌^◌, length};
ghost use Rattle.item_classes.specs.Viewed.{AreWithin, classes_of};
ghost use Rattle.replacements.specs.Decisions.{decided_all};
ghost use Rattle.line_gaps.specs.Rows.{first_made};
ghost use Rattle.line_gaps.specs.InputColumns.{column_past, column_through, input_before, input_behind, input_column};
ghost use Rattle.line_gaps.specs.InputColumns.{reported_made};

use crate::columns::column_behind;
use crate::first::decide_first;
use crate::view_layout::ViewLayout;
use line_tokens::ULine;
use replacements::{Decision, Plan};
use style_table::Style;
use token_arena::{TokenArena, View};

/// Up to where the columns of the input are told. They are told only where a line is reported, each once in a run.
#[derive(Clone, Copy)]
pub struct InputCursor {
    /// How many items of the view are passed.
    pub place: u32,
    /// The column of the input behind them.
    pub column: u32,
}

/// The column behind a byte of white space that stands at a column.
fn column_past(tab: u32, column: u32, byte: u8) -> u32
    requires { 1 ≤ tab }
    ensures { result ≡ column_past tab column byte }
{
    match byte {
        b'\n' => 0,
        b'\t' => column.saturating_add(tab - column % tab),
        _ => column.saturating_add(1),
    }
}

/// The column behind the bytes of a gap that begins at a column.
pub fn column_through(tab: u32, column: u32, gap: &[u8]) -> u32
    requires { 1 ≤ tab }
    ensures { result ≡ column_through tab column gap.now }
{
    let mut at = column;
    for byte in gap {
        at = column_past(tab, at, *byte);
    }
    at
}

/// Passes the next item of a view, and tells where it starts in the input.
fn pass(style: &Style, arena: &TokenArena<'_, '_>, id: u32, cursor: &mut InputCursor) -> u32
    requires tab { 1 ≤ style.now.tab_width }
    requires within { id < length arena.now.tokens }
    requires room { cursor.old.place + 1 < 2 ^ 32 }
    ensures start { result ≡ input_column style.now arena.now cursor.old.column id }
    ensures column { cursor.new.column ≡ input_behind style.now arena.now cursor.old.column id }
    ensures place { cursor.new.place ≡ cursor.old.place + 1 }
{
    let start = column_through(style.tab_width, cursor.column, arena.gap(id));
    cursor.column = column_behind(arena, start, id);
    cursor.place += 1;
    start
}

/// Passes the items of a view up to a place.
fn move_to(
    style: &Style,
    arena: &TokenArena<'_, '_>,
    view: &View<'_>,
    place: u32,
    cursor: &mut InputCursor,
)
    requires tab { 1 ≤ style.now.tab_width }
    requires items { AreWithin arena.now view.now }
    requires before { cursor.old.place ≤ place }
    requires within { place ≤ length view.now }
    requires column { cursor.old.column ≡ input_before style.now arena.now view.now cursor.old.place }
    ensures place { cursor.new.place ≡ place }
    ensures column { cursor.new.column ≡ input_before style.now arena.now view.now place }
{
    for at in cursor.place..place {
        let _ = pass(style, arena, view.at(at).0, cursor);
    }
}

/// Decides the first gap of a line as ever, and keeps the bytes of its other gaps, where they are open.
pub fn report_line(
    layout: &ViewLayout<'_>,
    line: &ULine,
    cursor: &mut InputCursor,
    plan: &mut Plan<'_>,
)
    requires tab { 1 ≤ layout.now.style.now.tab_width }
    requires items { AreWithin layout.now.arena.now layout.now.view.now }
    requires classes { layout.now.classes.now ≡ classes_of layout.now.arena.now layout.now.view.now }
    requires some { line.now.first ≤ line.now.last }
    requires places { line.now.last < length layout.now.view.now }
    requires whole { length plan.old ≡ length layout.now.arena.now.tokens + 1 }
    requires before { cursor.old.place ≤ line.now.first }
    requires column { cursor.old.column
        ≡ input_before layout.now.style.now layout.now.arena.now layout.now.view.now cursor.old.place }
    ensures plan { plan.new
        ≡ decided_all plan.old (first_made layout.now.style.now layout.now.arena.now layout.now.view.now line.now
        ∷ reported_made layout.now.style.now layout.now.arena.now layout.now.view.now line.now) }
    ensures len { length plan.new ≡ length plan.old }
    ensures place { cursor.new.place ≡ line.now.last + 1 }
    ensures column { cursor.new.column
        ≡ input_before layout.now.style.now layout.now.arena.now layout.now.view.now (line.now.last + 1) }
{
    let style = layout.style;
    let arena = layout.arena;
    let view = layout.view;
    let count = view.len();
    prove!(line.last < count);
    decide_first(layout, line, view.at(line.first).0, plan);
    move_to(style, arena, view, line.first + 1, cursor);
    for place in line.first + 1..line.last + 1 {
        let id = view.at(place).0;
        let start = pass(style, arena, id, cursor);
        let _ = plan.decide(id, Decision::Old, start);
    }
}
