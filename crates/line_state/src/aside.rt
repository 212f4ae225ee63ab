//! Tokens that stay beside the one before them, of which all but the column is known before the line is walked along.

ghost use Rattle.std.specs.Prelude.{◌≡◌, ◌+◌, ◌*◌, ◌<◌, ◌≤◌, None, true, false};
ghost use Rattle.line_state.specs.Layout.{AreRules, gap_before, is_allowed, layout_after, cost_of};
ghost use Rattle.line_state.specs.Beside.{IsAside, IsAsideIfLess};
ghost use Rattle.line_state.specs.StoredStates.{layout_in};
ghost use Rattle.frame_store.specs.Store.{IsIn};
ghost use Rattle.style_table.specs.Range.{IsInRange};

use crate::gap::{GapRules, opens_frame};
use crate::placing::excess_cost;
use crate::stepping::binds_no_gaps;
use frame_store::{FrameStore, NodeState};
use line_tokens::{Fixed, LineTok};
use style_table::Style;

/// How far a token moves the column where its gap stays, if that may be and leaves the open frames as they are,
/// whatever they are. The largest number where that isn't so.
#[inline(always)]
pub fn width_aside(
    style: &Style,
    left: &LineTok,
    right: &LineTok,
    fixed: Option<Fixed>,
    rules: &GapRules,
) -> u32
    requires { AreRules style.now left.now right.now rules.now }
    ensures { IsAsideIfLess style.now left.now right.now fixed result }
{
    if fixed.is_some() || rules.rule.must || right.role.is_trailing() {
        return u32::MAX;
    }
    if right.rows > 1 || right.first_width != right.last_width {
        return u32::MAX;
    }
    if opens_frame(left.role) || opens_frame(right.role) || !binds_no_gaps(style, left.role) {
        return u32::MAX;
    }
    u32::from(rules.spaces).saturating_add(right.first_width)
}

/// The state with one token more, which stays beside the one before it and moves the column by the width, as
/// `width_aside` tells it. So many brackets are open before it. That choice is admissible.
#[inline(always)]
pub fn step_aside(
    store: &FrameStore<'_>,
    style: &Style,
    state: &NodeState,
    left: &LineTok,
    right: &LineTok,
    width: u32,
    depth: u32,
) -> NodeState
    requires range { IsInRange style.now }
    requires known { IsIn store.now state.now }
    requires some { 0 < state.now.index }
    requires index { state.now.index < 4294967295 }
    requires cost { state.now.cost ≤ state.now.index * 18446744073709551615 }
    requires aside { IsAside style.now left.now right.now None width }
    requires depth { depth ≡ right.now.depth }
    ensures allowed { let layout = layout_in store.now state.now in
        is_allowed style.now layout (gap_before layout left.now right.now None) false ≡ true }
    ensures layout { let layout = layout_in store.now state.now in
        layout_in store.now result ≡ layout_after style.now layout (gap_before layout left.now right.now None) false }
    ensures cost { let layout = layout_in store.now state.now in
        result.cost ≡ state.now.cost + cost_of style.now layout (gap_before layout left.now right.now None) false }
    ensures bound { result.cost ≤ result.index * 18446744073709551615 }
    ensures known { IsIn store.now result }
{
    let _ = left;
    let _ = right;
    let column = state.column.saturating_add(width);
    let before = state.column.saturating_sub(style.column_limit);
    let past = column
        .saturating_sub(style.column_limit)
        .saturating_sub(before);
    NodeState {
        index: state.index + 1,
        column,
        cost: state.cost + u128::from(excess_cost(style, past)),
        node: store.lowest(state.node, depth),
    }
}
