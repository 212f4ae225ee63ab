//! States with their frames in a store: the same steps, in which equal lists of frames are kept once.

ghost use Rattle.std.specs.Prelude.{◌≡◌, ◌+◌, ◌*◌, ◌^◌, ◌<◌, ◌≤◌, ◌&&◌, not, nat_le, true, false, length, IfOk, IsTrue};
ghost use Rattle.std.specs.Prelude.{IfNone, IfSome, OnSome};
ghost use Rattle.line_tokens.specs.Roles.{is_comma};
ghost use Rattle.line_tokens.specs.declared.role.Role.{Role};
ghost use Rattle.line_state.specs.Brackets.{opens_frame, binds_commas, binds_opening};
ghost use Rattle.style_table.specs.Range.{IsInRange};
ghost use Rattle.line_state.specs.Layout.{AreRules, gap_before, is_allowed, spot_of, open_frames, with_opened};
ghost use Rattle.line_state.specs.Layout.{layout_after, cost_of, cells_of, start_layout};
ghost use Rattle.frame_store.specs.Frames.{with_topmost};
ghost use Rattle.frame_store.specs.Store.{list_at, IsIn, IsGrown};
ghost use Rattle.line_state.specs.StoredStates.{layout_in};
ghost use Rattle.line_state.specs.Beside.{IsBelow, excess_below, row_start};
ghost use Rattle.line_tokens.specs.Columns.{end_of};
ghost use Rattle.std.specs.Bool.{OnTrue};

use crate::gap::{Gap, GapRules, gap_rules, opens_frame};
use crate::placing::{cost, excess_cost, frame_above, placed, start_column};
use crate::rules::{allows, is_refused};
use crate::spot::Spot;
use frame_store::{Frame, FrameStore, NodeState};
use layout_tables::GapRule;
use line_tokens::{Fixed, LineTok, NoMemory, Role};
use style_table::{AlignAfterOpenBracket, Style};

/// The state before a line's first token, at the column at which the line starts.
///
/// # Errors
///
/// `NoMemory` where memory ran out.
pub fn start_in<'r>(
    store: &mut FrameStore<'r>,
    style: &Style,
    column: u32,
) -> Result<NodeState, NoMemory>
    ensures layout { IfOk result (λ state. layout_in store.new state ≡ start_layout style.now column) }
    ensures cost { IfOk result (λ state. state.cost ≡ 0) }
    ensures known { IfOk result (IsIn store.new) }
    ensures grown { IsGrown store.old store.new }
{
    let base = Frame {
        indent: column.saturating_add(style.continuation_indent_width),
        base: column,
        comma: 0,
        opening: 0,
        opener: Role::Word,
    };
    let node = store.keep(base, None)?;
    Ok(NodeState {
        index: 0,
        column,
        cost: 0,
        node,
    })
}

/// What a state counts: 1 and its frames, the base frame aside. Takes no memory.
pub fn cells_in(store: &FrameStore<'_>, state: &NodeState) -> u64
    requires { IsIn store.now state.now }
    ensures value { result ≡ cells_of (layout_in store.now state.now) }
    ensures some { 1 ≤ result }
    ensures small { result ≤ 2 ^ 32 }
{
    u64::from(store.node(state.node).depth) + 1
}

/// Whether the left token opened the topmost one of so many frames, and nothing has been placed in it.
#[inline(always)]
fn is_just_opened(gap: &Gap, count: u32) -> bool
    ensures { result ≡ (not gap.now.first && opens_frame gap.now.left.role && nat_le count gap.now.right.depth) }
{
    !gap.first && opens_frame(gap.left.role) && count <= gap.right.depth
}

/// The spot of a gap behind a state. `left_open` is the node of the frames that are open there.
#[inline(always)]
fn spot_in(store: &FrameStore<'_>, state: &NodeState, gap: &Gap, left_open: u32) -> Spot
    requires known { IsIn store.now state.now }
    requires known_open { left_open < length store.now }
    requires list { list_at store.now left_open
        ≡ record {
          base = (list_at store.now state.now.node).base;
          frames = open_frames (layout_in store.now state.now) gap.now;
        } }
    ensures { result ≡ spot_of (layout_in store.now state.now) gap.now }
{
    Spot {
        column: state.column,
        base: store.node(left_open).base,
        below: store.below_topmost(left_open),
        top: store.topmost(left_open),
        opened: is_just_opened(gap, store.node(state.node).depth),
    }
}

/// The node of the frames once the token is placed, its own among them.
#[inline(always)]
fn place_in<'r>(
    store: &mut FrameStore<'r>,
    style: &Style,
    gap: &Gap,
    left_open: u32,
    top: Frame,
) -> Result<u32, NoMemory>
    requires { left_open < length store.old }
    ensures known { IfOk result (λ node. node < length store.new) }
    ensures list { let list = list_at store.old left_open in
        IfOk result (λ node.
        list_at store.new node
        ≡ record {
          base = list.base;
          frames = with_opened style.now gap.now.right.role list.base (with_topmost list.frames top);
        }) }
    ensures grown { IsGrown store.old store.new }
{
    let node = store.with_topmost(left_open, top)?;
    if !opens_frame(gap.right.role) {
        return Ok(node);
    }
    let below = store.node(node).frame;
    let kept = store.keep(frame_above(style, below, gap.right.role), Some(node))?;
    Ok(kept)
}

/// The state with the gap's token more. `left_open` is the node of the frames that are open there.
#[inline(always)]
fn step_from<'r>(
    store: &mut FrameStore<'r>,
    style: &Style,
    state: &NodeState,
    gap: &Gap,
    rules: &GapRules,
    left_open: u32,
    spot: &Spot,
    brk: bool,
) -> Result<NodeState, NoMemory>
    requires range { IsInRange style.now }
    requires known { IsIn store.old state.now }
    requires index { state.now.index < 4294967295 }
    requires cost { state.now.cost ≤ state.now.index * 18446744073709551615 }
    requires known_open { left_open < length store.old }
    requires list { list_at store.old left_open
        ≡ record {
          base = (list_at store.old state.now.node).base;
          frames = open_frames (layout_in store.old state.now) gap.now;
        } }
    requires spot { spot.now ≡ spot_of (layout_in store.old state.now) gap.now }
    requires rules { AreRules style.now gap.now.left gap.now.right rules.now }
    ensures layout { IfOk result
        (λ next. layout_in store.new next ≡ layout_after style.now (layout_in store.old state.now) gap.now brk) }
    ensures cost { IfOk result
        (λ next. next.cost ≡ state.now.cost + cost_of style.now (layout_in store.old state.now) gap.now brk) }
    ensures bound { IfOk result (λ next. next.cost ≤ next.index * 18446744073709551615) }
    ensures known { IfOk result (IsIn store.new) }
    ensures grown { IsGrown store.old store.new }
{
    let start = start_column(style, spot, gap, rules.spaces, brk);
    let cost = cost(style, spot, gap, &rules.rule, brk, start);
    let top = placed(style, spot, gap, &rules.rule, brk, start);
    let node = place_in(store, style, gap, left_open, top)?;
    Ok(NodeState {
        index: state.index + 1,
        column: gap.right.end_of(start),
        cost: state.cost + u128::from(cost),
        node,
    })
}

/// The state with one token more, in which the gap before `right` broke, where `brk`, or stayed.
///
/// Before the line's first token, which then stands for `left` too, `brk` is true. The given state stays as it is, and
/// so does each state whose node is in the store.
///
/// # Errors
///
/// `NoMemory` where memory ran out.
pub fn step_in<'r>(
    store: &mut FrameStore<'r>,
    style: &Style,
    state: &NodeState,
    left: &LineTok,
    right: &LineTok,
    fixed: Option<Fixed>,
    brk: bool,
) -> Result<NodeState, NoMemory>
    requires range { IsInRange style.now }
    requires known { IsIn store.old state.now }
    requires index { state.now.index < 4294967295 }
    requires cost { state.now.cost ≤ state.now.index * 18446744073709551615 }
    requires allowed { let layout = layout_in store.old state.now in
        let gap = gap_before layout left.now right.now fixed in
        IsTrue (is_allowed style.now layout gap brk) }
    ensures layout { let layout = layout_in store.old state.now in
        let gap = gap_before layout left.now right.now fixed in
        IfOk result (λ next. layout_in store.new next ≡ layout_after style.now layout gap brk) }
    ensures cost { let layout = layout_in store.old state.now in
        let gap = gap_before layout left.now right.now fixed in
        IfOk result (λ next. next.cost ≡ state.now.cost + cost_of style.now layout gap brk) }
    ensures bound { IfOk result (λ next. next.cost ≤ next.index * 18446744073709551615) }
    ensures known { IfOk result (IsIn store.new) }
    ensures grown { IsGrown store.old store.new }
{
    let gap = Gap {
        left: *left,
        right: *right,
        fixed,
        first: state.index == 0,
    };
    let left_open = store.lowest(state.node, gap.right.depth);
    let spot = spot_in(store, state, &gap, left_open);
    let rules = gap_rules(style, left, right);
    step_from(store, style, state, &gap, &rules, left_open, &spot, brk)
}

/// Whether a token is no comma by which gaps behind other commas are bound, in whatever bracket it stands.
#[inline(always)]
pub(crate) fn binds_no_gaps(style: &Style, role: Role) -> bool
    ensures { OnTrue result ((opener : Role) → (is_comma role && binds_commas style.now opener) ≡ false) }
{
    !role.is_comma() || style.bin_pack_arguments && style.bin_pack_parameters
}

/// Whether the gaps in a bracket are free of the gap behind it, whatever bracket it is.
#[inline(always)]
pub(crate) fn binds_no_openers(style: &Style) -> bool
    ensures { OnTrue result ((opener : Role) → binds_opening style.now opener ≡ false) }
{
    !matches!(
        style.align_after_open_bracket,
        AlignAfterOpenBracket::AlwaysBreak
    )
}

/// Whether a token leaves the open frames as they are and may begin a row whatever they tell: neither it nor the one
/// before it opens one, and neither a comma nor an opener before it binds its gap.
#[inline(always)]
fn is_below(style: &Style, gap: &Gap, rule: &GapRule, brk: bool) -> bool
    ensures { OnTrue result (IsBelow style.now gap.now rule.now brk) }
{
    if !brk || gap.first || gap.fixed.is_some() || rule.must || !rule.can {
        return false;
    }
    if opens_frame(gap.left.role) || opens_frame(gap.right.role) {
        return false;
    }
    binds_no_openers(style) && binds_no_gaps(style, gap.left.role)
}

/// The column at which a token begins a row inside the frames of a node, which are open there.
#[inline(always)]
fn row_start(store: &FrameStore<'_>, role: Role, node: u32) -> u32
    requires { node < length store.now }
    ensures { result ≡ row_start role (list_at store.now node) }
{
    match role {
        Role::DeclName => store.node(node).base.base,
        Role::ListClose => store.below_topmost(node).base,
        _ => store.topmost(node).indent,
    }
}

/// The columns past the limit of a token's first row, where the token begins a row at a column.
#[inline(always)]
fn excess_below(style: &Style, start: u32, token: &LineTok) -> u32
    ensures { result ≡ excess_below style.now start token.now }
{
    if token.role.is_trailing() {
        return 0;
    }
    start
        .saturating_add(token.first_width)
        .saturating_sub(style.column_limit)
}

/// The state with the gap's token more, which begins a row and leaves the open frames as they are. These are the
/// node's.
#[inline(always)]
fn step_below(
    store: &FrameStore<'_>,
    style: &Style,
    state: &NodeState,
    gap: &Gap,
    rule: &GapRule,
    left_open: u32,
) -> NodeState
    requires range { IsInRange style.now }
    requires known_open { left_open < length store.now }
    requires index { state.now.index < 4294967295 }
    requires cost { state.now.cost ≤ state.now.index * 18446744073709551615 }
    requires low { rule.now.cost < 2 ^ 37 }
    ensures index { result.index ≡ state.now.index + 1 }
    ensures node { result.node ≡ left_open }
    ensures column { result.column ≡ end_of gap.now.right (row_start gap.now.right.role (list_at store.now left_open)) }
    ensures cost { result.cost
        ≡ state.now.cost
        + (rule.now.cost + style.now.penalty_excess_character
        * excess_below style.now (row_start gap.now.right.role (list_at store.now left_open)) gap.now.right) }
    ensures bound { result.cost ≤ result.index * 18446744073709551615 }
{
    let start = row_start(store, gap.right.role, left_open);
    let past = excess_below(style, start, &gap.right);
    let cost = rule.cost + excess_cost(style, past);
    NodeState {
        index: state.index + 1,
        column: gap.right.end_of(start),
        cost: state.cost + u128::from(cost),
        node: left_open,
    }
}

/// The state with one token more, as `step_in` tells it, where the choice is admissible and the tables were asked of
/// the gap before.
///
/// # Errors
///
/// `NoMemory` where memory ran out.
#[inline(always)]
pub fn try_step_by<'r>(
    store: &mut FrameStore<'r>,
    style: &Style,
    state: &NodeState,
    left: &LineTok,
    right: &LineTok,
    fixed: Option<Fixed>,
    rules: &GapRules,
    brk: bool,
) -> Result<Option<NodeState>, NoMemory>
    requires range { IsInRange style.now }
    requires known { IsIn store.old state.now }
    requires index { state.now.index < 4294967295 }
    requires cost { state.now.cost ≤ state.now.index * 18446744073709551615 }
    requires rules { AreRules style.now left.now right.now rules.now }
    ensures none { let layout = layout_in store.old state.now in
        let gap = gap_before layout left.now right.now fixed in
        IfOk result (λ next. IfNone next (is_allowed style.now layout gap brk ≡ false)) }
    ensures some { let layout = layout_in store.old state.now in
        let gap = gap_before layout left.now right.now fixed in
        IfOk result (λ next. OnSome next (is_allowed style.now layout gap brk ≡ true)) }
    ensures layout { let layout = layout_in store.old state.now in
        let gap = gap_before layout left.now right.now fixed in
        IfOk result (λ next. IfSome next (λ n. layout_in store.new n ≡ layout_after style.now layout gap brk)) }
    ensures cost { let layout = layout_in store.old state.now in
        let gap = gap_before layout left.now right.now fixed in
        IfOk result (λ next. IfSome next (λ n. n.cost ≡ state.now.cost + cost_of style.now layout gap brk)) }
    ensures bound { IfOk result (λ next. IfSome next (λ n. n.cost ≤ n.index * 18446744073709551615)) }
    ensures known { IfOk result (λ next. IfSome next (IsIn store.new)) }
    ensures grown { IsGrown store.old store.new }
{
    let gap = Gap {
        left: *left,
        right: *right,
        fixed,
        first: state.index == 0,
    };
    if is_refused(style, &gap, &rules.rule, brk) {
        return Ok(None);
    }
    let left_open = store.lowest(state.node, gap.right.depth);
    if is_below(style, &gap, &rules.rule, brk) {
        let next = step_below(store, style, state, &gap, &rules.rule, left_open);
        return Ok(Some(next));
    }
    let spot = spot_in(store, state, &gap, left_open);
    if !allows(style, &spot, &gap, &rules.rule, brk) {
        return Ok(None);
    }
    let next = step_from(store, style, state, &gap, rules, left_open, &spot, brk)?;
    Ok(Some(next))
}
