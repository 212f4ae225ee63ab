//! Tokens that begin a row inside the topmost frame, of which all but where that frame stands is known before the line
//! is walked along.

ghost use Rattle.std.specs.Prelude.{◌≡◌, ◌+◌, ◌*◌, ◌^◌, ◌<◌, ◌≤◌, Option, None, true};
ghost use Rattle.layout_tables.specs.Breaks.{gap_rule};
ghost use Rattle.line_tokens.specs.declared.Fixed.{Fixed};
ghost use Rattle.line_state.specs.Layout.{AreRules, gap_before, is_allowed, layout_after, cost_of};
ghost use Rattle.line_state.specs.Beside.{IsAsideIfLess, IsRow, IsRowIfLess};
ghost use Rattle.line_state.specs.StoredStates.{layout_in};
ghost use Rattle.frame_store.specs.Store.{IsIn};
ghost use Rattle.style_table.specs.Range.{IsInRange};

use crate::gap::GapRules;
use crate::placing::excess_cost;
use crate::stepping::binds_no_openers;
use frame_store::{FrameStore, NodeState};
use line_tokens::{LineTok, Role};
use style_table::Style;

/// How wide the row is that a token begins where its gap breaks, if that may be, leaves the open frames as they are and
/// starts where the topmost one says. The largest number where that isn't so. `aside` is what `width_aside` tells of
/// the token.
#[inline(always)]
pub fn width_below(
    style: &Style,
    left: &LineTok,
    right: &LineTok,
    aside: u32,
    rules: &GapRules,
) -> u32
    requires { AreRules style.now left.now right.now rules.now }
    ensures { (fixed : Option Fixed) → IsAsideIfLess style.now left.now right.now fixed aside →
        IsRowIfLess style.now left.now right.now fixed result }
{
    let _ = left;
    if aside == u32::MAX || !rules.rule.can || !binds_no_openers(style) {
        return u32::MAX;
    }
    match right.role {
        Role::DeclName | Role::ListClose => u32::MAX,
        _ => right.first_width,
    }
}

/// The state with one token more, which begins a row of the width, as `width_below` tells it, at the cost of the gap.
/// So many brackets are open before it. That choice is admissible.
#[inline(always)]
pub fn step_row(
    store: &FrameStore<'_>,
    style: &Style,
    state: &NodeState,
    left: &LineTok,
    right: &LineTok,
    width: u32,
    cost: u64,
    depth: u32,
) -> NodeState
    requires range { IsInRange style.now }
    requires known { IsIn store.now state.now }
    requires some { 0 < state.now.index }
    requires index { state.now.index < 4294967295 }
    requires cheap { state.now.cost ≤ state.now.index * 18446744073709551615 }
    requires row { IsRow style.now left.now right.now None width }
    requires cost { cost ≡ (gap_rule style.now left.now right.now).cost }
    requires small { cost < 2 ^ 37 }
    requires depth { depth ≡ right.now.depth }
    ensures allowed { let layout = layout_in store.now state.now in
        is_allowed style.now layout (gap_before layout left.now right.now None) true ≡ true }
    ensures layout { let layout = layout_in store.now state.now in
        layout_in store.now result ≡ layout_after style.now layout (gap_before layout left.now right.now None) true }
    ensures cost { let layout = layout_in store.now state.now in
        result.cost ≡ state.now.cost + cost_of style.now layout (gap_before layout left.now right.now None) true }
    ensures bound { result.cost ≤ result.index * 18446744073709551615 }
    ensures known { IsIn store.now result }
{
    let _ = left;
    let _ = right;
    let node = store.lowest(state.node, depth);
    let column = store.topmost(node).indent.saturating_add(width);
    let past = column.saturating_sub(style.column_limit);
    let total = cost + excess_cost(style, past);
    NodeState {
        index: state.index + 1,
        column,
        cost: state.cost + u128::from(total),
        node,
    }
}
