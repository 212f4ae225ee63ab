//! What stands before a line's first item.

ghost use Rattle.std.specs.Prelude.{◌≡◌, ◌==◌, ◌<◌, ◌≤◌, ◌+◌, IsTrue, false, length, get_or};
ghost use Rattle.item_classes.specs.Viewed.{AreWithin, classes_of};
ghost use Rattle.replacements.specs.Decisions.{decided};
ghost use Rattle.line_gaps.specs.Rows.{item_before, row_token, first_role, opens_before, empty_rows, first_of_line};
ghost use Rattle.line_gaps.specs.Rows.{first_decision, first_slot};
ghost use Rattle.layout_tables.specs.Indents.{start_column};
ghost use Rattle.item_classes.specs.Items.{item_at};
ghost use Rattle.replacements.specs.declared.gap_text.Decision.TheVariants.{Lines};

use crate::columns::start_behind;
use crate::item::item;
use crate::view_layout::ViewLayout;
use layout_tables::{empty_lines, start_column};
use line_tokens::{LineTok, Role, TokenId, ULine};
use replacements::{Decision, Plan};
use style_table::Style;
use token_arena::TokenArena;
use token_classes::TokenClass;

/// An item as the rule on empty lines sees it.
fn row_token(arena: &TokenArena<'_, '_>, id: u32, role: Role) -> LineTok
    requires { id < length arena.now.tokens }
    ensures { result ≡ row_token arena.now id role }
{
    let token = item(arena, id);
    LineTok {
        id: TokenId(id),
        role,
        power: 0,
        depth: 0,
        trailing_list: false,
        held: false,
        touch: false,
        directive: false,
        gap: token.gap,
        kind: token.item.kind,
        rows: 1,
        first_width: 0,
        last_width: 0,
    }
}

/// The role of an item that begins a line.
fn first_role(class: TokenClass) -> Role
    ensures { result ≡ first_role class }
{
    if class.is_close_brace() {
        Role::BlockClose
    } else {
        Role::Word
    }
}

/// Whether a `{` stands before a place, where the places have these classes.
fn opens_before(classes: &[TokenClass], place: u32) -> bool
    requires { place < length classes.now }
    ensures { result ≡ opens_before classes.now place }
{
    place > 0 && classes[place as usize - 1].is_open_brace()
}

/// The empty lines before an item, where the `{` of a block stands directly before it or doesn't.
fn empty_rows(style: &Style, line: &ULine, opened: bool, token: &LineTok) -> u32
    ensures { result ≡ empty_rows style.now line.now opened token.now }
{
    if opened {
        let mut brace = *token;
        brace.role = Role::BlockOpen;
        return empty_lines(style, Some(&brace), line, token);
    }
    empty_lines(style, None, line, token)
}

/// What stands before the first item of a line, behind a `{` or not.
fn first_of_line(
    style: &Style,
    arena: &TokenArena<'_, '_>,
    line: &ULine,
    opened: bool,
    class: TokenClass,
    id: u32,
) -> Decision
    requires { id < length arena.now.tokens }
    ensures { result ≡ first_of_line style.now arena.now line.now opened class id }
{
    if id == 0 {
        return Decision::Spaces(0);
    }
    let token = row_token(arena, id, first_role(class));
    Decision::Lines {
        count: 1 + empty_rows(style, line, opened, &token),
        column: start_column(style, line),
        level: line.level,
    }
}

/// Whether an item isn't the text's first one and its gap has no empty line.
#[inline(always)]
fn begins_next_row(arena: &TokenArena<'_, '_>, id: u32) -> bool
    requires { id < length arena.now.tokens }
    ensures later { IsTrue result → (id == 0) ≡ false }
    ensures near { IsTrue result → (item_at arena.now id).gap.lines ≤ 1 }
{
    id != 0 && item(arena, id).gap.lines <= 1
}

/// What stands before such an item, where it begins a line.
#[inline(always)]
fn next_row(style: &Style, line: &ULine) -> Decision
    ensures { result ≡ Lines 1 (start_column style.now line.now) line.now.level }
{
    Decision::Lines {
        count: 1,
        column: start_column(style, line),
        level: line.level,
    }
}

/// What stands before the first item of a line. Most gaps have no empty line, and what stands around them isn't looked
/// at.
#[inline(always)]
fn first_decision(layout: &ViewLayout<'_>, line: &ULine, id: u32) -> Decision
    requires classes { layout.now.classes.now ≡ classes_of layout.now.arena.now layout.now.view.now }
    requires place { line.now.first < length layout.now.view.now }
    requires items { AreWithin layout.now.arena.now layout.now.view.now }
    requires id { get_or layout.now.view.now line.now.first 0 ≡ id }
    ensures { result
        ≡ first_decision layout.now.style.now layout.now.arena.now line.now
        (item_before layout.now.view.now line.now.first) id }
{
    let classes = layout.classes;
    let count = classes.len();
    let place = line.first;
    prove!((place as usize) < count);
    if begins_next_row(layout.arena, id) {
        return next_row(layout.style, line);
    }
    let opened = opens_before(classes, place);
    let class = classes[place as usize];
    first_of_line(layout.style, layout.arena, line, opened, class, id)
}

/// Decides the gap before the first item of a line, where it is open.
#[inline(always)]
pub fn decide_first(layout: &ViewLayout<'_>, line: &ULine, id: u32, plan: &mut Plan<'_>)
    requires classes { layout.now.classes.now ≡ classes_of layout.now.arena.now layout.now.view.now }
    requires place { line.now.first < length layout.now.view.now }
    requires items { AreWithin layout.now.arena.now layout.now.view.now }
    requires id { get_or layout.now.view.now line.now.first 0 ≡ id }
    requires whole { length plan.old ≡ length layout.now.arena.now.tokens + 1 }
    ensures plan { plan.new
        ≡ decided plan.old id (first_slot layout.now.style.now layout.now.arena.now layout.now.view.now line.now) }
    ensures len { length plan.new ≡ length plan.old }
{
    let items = layout.arena.len();
    prove!(id < items);
    let decision = first_decision(layout, line, id);
    let _ = plan.decide(id, decision, start_behind(0, decision));
}
