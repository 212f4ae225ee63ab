//! A line that is searched.

ghost use Rattle.std.specs.Prelude.{◌≡◌, true, List, ◌+◌, ◌-◌, ◌*◌, ◌<◌, ◌≤◌, Some, length, slice_get, IfOk, IfSome};
ghost use Rattle.std.specs.Prelude.{OnOk};
ghost use Rattle.std.specs.Bool.{OnTrue, OnFalse};
ghost use Rattle.style_table.specs.Range.{IsInRange};
ghost use Rattle.line_tokens.specs.declared.LineTok.{LineTok};
ghost use Rattle.line_tokens.specs.Columns.{stored_or};
ghost use Rattle.line_state.specs.Layout.{Layout, AreRules, layout_of};
ghost use Rattle.frame_store.specs.Store.{FrameList, IsIn, IsGrown};
ghost use Rattle.line_state.specs.StoredStates.{layout_in, state_in};
ghost use Rattle.line_state.specs.Line.{gaps, first_layout, first_cost, decision_at, joined};
ghost use Rattle.searched_line.specs.Ahead.{least_ahead};
ghost use Rattle.searched_line.specs.Searched.{IsSearchable, line_of};
ghost use Rattle.line_state.specs.Beside.{IsAsideIfLess, IsRowIfLess};
ghost use Rattle.searched_line.specs.Rules.{IsGapAhead};
ghost use Rattle.line_state.specs.declared.gap.Gap.{Gap};
ghost use Rattle.searched_line.specs.Saturation.{IsSaturation, gap_into, reach};
ghost use Rattle.searched_line.specs.Successors.{IsNextState, IsSuccessor, LeadsOn, LeadsNowhere, states_in};

use crate::ahead::{GapAhead, gap_at, gaps_of};
use crate::saturation::Saturation;
use bumpalo::Bump;
use bumpalo::collections::into_bump_slice;
use frame_store::{FrameStore, NodeState};
use line_state::{
    GapRules, NoMemory, State, advance, allowed_by, gap_rules, start, start_in, step_aside,
    step_in, step_row, try_step_by,
};
use line_tokens::{Fixed, LineTok};
use std::alloc::Global;
use std::marker::Model;
use style_table::Style;

/// The token at a place.
#[inline(always)]
pub fn token_at(tokens: &[LineTok], at: usize) -> &LineTok
    requires { at < length tokens.now }
    ensures { slice_get tokens.now at ≡ Some result.now }
{
    &tokens[at]
}

/// The decision at a place, if there is one.
pub fn decision_of(fixed: &[Option<Fixed>], at: usize) -> Option<Fixed>
    ensures { result ≡ joined (slice_get fixed.now at) }
{
    match fixed.get(at) {
        Some(decision) => *decision,
        None => None,
    }
}

/// As far as a gap and the token behind it can move a column.
fn reach_of(indent: u32, token: &LineTok, decision: Option<Fixed>, rules: &GapRules) -> u64
    ensures { result ≡ rules.now.spaces + stored_or decision 0 + token.now.first_width + token.now.last_width + indent }
{
    let decided = match decision {
        Some(fixed) => fixed.column,
        None => 0,
    };
    let moved = u64::from(rules.spaces) + u64::from(decided);
    let wide = u64::from(token.first_width) + u64::from(token.last_width);
    moved + wide + u64::from(indent)
}

/// Whether no column comes to the largest number, where each of the line's tokens moves one by no more than the width.
fn has_room(column: u32, count: usize, width: u64) -> bool
    requires { count < 4294967296 }
    ensures { OnTrue result (column + (count + 1) * width ≤ 4294967295) }
{
    let room = u64::from(u32::MAX - column);
    width <= room / (count as u64 + 1)
}

/// A line, with its style and what is decided of its gaps.
#[derive(Drop)]
pub struct SearchedLine<'a> {
    /// How it is laid out.
    style: &'a Style,
    /// Where it starts.
    column: u32,
    /// Its tokens.
    tokens: &'a [LineTok],
    /// For each token the decision of the gap before it, if it has one.
    fixed: &'a [Option<Fixed>],
    /// What is known of each gap inside it, by how many tokens are left there.
    ahead: &'a [GapAhead],
}

impl<'a> Model for SearchedLine<'a> {
    ghost use Rattle.line_state.specs.Line.{Line};

    ghost Value = { Line };

    ghost use Rattle.searched_line.specs.Ahead.{HaveStretches};
    ghost use Rattle.searched_line.specs.Searched.{line_of};
    ghost use Rattle.searched_line.specs.Rules.{HaveGaps};

    ghost view = { λ l. record { style = l.style.now; column = l.column; tokens = l.tokens.now; fixed = l.fixed.now } };

    ghost invariant = { λ l. HaveGaps l.style.now l.tokens.now l.fixed.now l.ahead.now
        × HaveStretches (line_of l.style.now l.column l.tokens.now l.fixed.now) l.ahead.now };
}

impl<'a> SearchedLine<'a> {
    /// A line that starts at a column. What the tables say of its gaps lies in the arena. Want of memory is the only
    /// error.
    pub fn make(
        style: &'a Style,
        column: u32,
        tokens: &'a [LineTok],
        fixed: &'a [Option<Fixed>],
        run: &'a Bump,
    ) -> Result<SearchedLine<'a>, NoMemory>
        requires range { IsInRange style.now }
        requires some { 0 < length tokens.now }
        ensures { IfOk result (λ line. line ≡ line_of style.now column tokens.now fixed.now) }
    {
        let ahead = gaps_of(style, tokens, fixed, run)?;
        Ok(SearchedLine {
            style,
            column,
            tokens,
            fixed,
            ahead,
        })
    }

    /// How many tokens the line has.
    #[inline(always)]
    pub fn count(&self) -> usize
        ensures { result ≡ length self.now.tokens }
    {
        self.tokens.len()
    }

    /// How many gaps lie inside the line.
    pub fn gaps(&self) -> u32
        requires { IsSearchable self.now }
        ensures { result ≡ gaps self.now }
    {
        (self.tokens.len() - 1) as u32
    }

    /// What every whole breaking costs at least beyond a layout of so many tokens, at the column.
    #[inline(always)]
    pub fn least_ahead(&self, index: u32, column: u32) -> u64
        ensures { (s : Layout) → s.index ≡ index → s.column ≡ column → result ≡ least_ahead self.now s }
    {
        let left = self.tokens.len().saturating_sub(index as usize);
        let ahead = gap_at(self.ahead, left).stretch();
        let end = column.saturating_add(ahead.width);
        let past = end.saturating_sub(column.max(self.style.column_limit));
        let cost = u64::from(self.style.penalty_excess_character) * u64::from(past);
        ahead.least.min(cost)
    }

    /// The token at a place.
    #[inline(always)]
    fn token(&self, at: usize) -> &LineTok
        requires { at < length self.now.tokens }
        ensures { slice_get self.now.tokens at ≡ Some result.now }
    {
        token_at(self.tokens, at)
    }

    /// The token before a place that isn't the first one.
    #[inline(always)]
    fn token_before(&self, at: usize) -> &LineTok
        requires some { 0 < at }
        requires at { at < length self.now.tokens }
        ensures { slice_get self.now.tokens (at - 1) ≡ Some result.now }
    {
        let Some(before) = at.checked_sub(1) else {
            unreachable!()
        };
        self.token(before)
    }

    /// The decision of the gap before the token at a place, if it has one.
    #[inline(always)]
    fn decision(&self, at: usize) -> Option<Fixed>
        requires line { IsSearchable self.now }
        requires at { at < length self.now.tokens }
        ensures { result ≡ decision_at self.now at }
    {
        self.fixed[at]
    }

    /// What is known of the gap before the token at a place, which isn't the first one.
    #[inline(always)]
    fn gap(&self, at: usize) -> &GapAhead
        requires some { 0 < at }
        requires at { at < length self.now.tokens }
        ensures { (left right : LineTok) → slice_get self.now.tokens (at - 1) ≡ Some left →
            slice_get self.now.tokens at ≡ Some right →
            IsGapAhead self.now.style left right (decision_at self.now at) result.now }
    {
        gap_at(self.ahead, self.tokens.len() - at)
    }

    /// What the tables say of the gap before the token at a place, which isn't the first one.
    #[inline(always)]
    fn rules_before(&self, at: usize) -> GapRules
        requires some { 0 < at }
        requires at { at < length self.now.tokens }
        ensures { (left right : LineTok) → slice_get self.now.tokens (at - 1) ≡ Some left →
            slice_get self.now.tokens at ≡ Some right → AreRules self.now.style left right result }
    {
        self.gap(at).rules()
    }

    /// How far the token at a place, which isn't the first one, moves the column where it stays, as `width_aside` tells
    /// it.
    #[inline(always)]
    fn aside(&self, at: usize) -> u32
        requires some { 0 < at }
        requires at { at < length self.now.tokens }
        ensures { (left right : LineTok) → slice_get self.now.tokens (at - 1) ≡ Some left →
            slice_get self.now.tokens at ≡ Some right →
            IsAsideIfLess self.now.style left right (decision_at self.now at) result }
    {
        self.gap(at).aside
    }

    /// How wide the row is that the token at a place, which isn't the first one, begins where its gap breaks, as
    /// `width_below` tells it.
    #[inline(always)]
    fn row(&self, at: usize) -> u32
        requires some { 0 < at }
        requires at { at < length self.now.tokens }
        ensures { (left right : LineTok) → slice_get self.now.tokens (at - 1) ≡ Some left →
            slice_get self.now.tokens at ≡ Some right →
            IsRowIfLess self.now.style left right (decision_at self.now at) result }
    {
        self.gap(at).row
    }

    /// Whether the choices that break only where they have to can cost nothing. They can't where what stands before the
    /// first gap that has to break is wider than a row, but for a line of one token, which has no choices. This test
    /// spares many lines the walk over their states.
    pub fn may_be_straight(&self) -> bool
        requires { IsSearchable self.now }
    {
        let limit = self.style.column_limit;
        if limit == 0 || self.style.penalty_excess_character == 0 || self.tokens.len() == 1 {
            return true;
        }
        let token = self.token(0);
        if self.decision(0).is_some() || token.rows > 1 || token.role.is_trailing() {
            return true;
        }
        let ahead = gap_at(self.ahead, self.tokens.len() - 1).stretch();
        let end = self.column.saturating_add(token.first_width);
        end.saturating_add(ahead.width) <= limit
    }

    /// What the tables say of the gap before a token. The first one stands on both sides of its gap.
    fn rules_into(&self, at: usize) -> GapRules
        requires line { IsSearchable self.now }
        requires at { at < length self.now.tokens }
        ensures { (left right : LineTok) → slice_get self.now.tokens (at - 1) ≡ Some left →
            slice_get self.now.tokens at ≡ Some right → AreRules self.now.style left right result }
    {
        if at == 0 {
            let token = self.token(0);
            return gap_rules(self.style, token, token);
        }
        self.rules_before(at)
    }

    /// As far as the gap before a token and the token can move a column.
    fn reach(&self, at: usize) -> u64
        requires line { IsSearchable self.now }
        requires at { at < length self.now.tokens }
        ensures { (gap : Gap) → gap_into self.now at ≡ Some gap → reach self.now.style gap ≤ result }
    {
        let rules = self.rules_into(at);
        let decision = self.decision(at);
        let indent = self.style.continuation_indent_width;
        reach_of(indent, self.token(at), decision, &rules)
    }

    /// Whether the columns of the line's layouts can come to the largest number.
    pub fn saturation(&self) -> Saturation
        requires { IsSearchable self.now }
        ensures { IsSaturation self.now result }
    {
        let count = self.tokens.len();
        let mut width = 0;
        'tokens: for at in 0..count {
            width = self.reach(at).max(width);
        }
        if has_room(self.column, count, width) {
            Saturation::Never
        } else {
            Saturation::Possible
        }
    }

    /// The state of the first token, with its frames in a store. Want of memory is the only error.
    pub fn first<'r>(&self, store: &mut FrameStore<'r>) -> Result<NodeState, NoMemory>
        requires { IsSearchable self.now }
        ensures layout { IfOk result (λ state. layout_in store.new state ≡ first_layout self.now) }
        ensures cost { IfOk result (λ state. state.cost ≡ first_cost self.now) }
        ensures small { IfOk result (λ state. state.cost ≤ 18446744073709551615) }
        ensures known { IfOk result (IsIn store.new) }
    {
        let before = start_in(store, self.style, self.column)?;
        let token = self.token(0);
        step_in(
            store,
            self.style,
            &before,
            token,
            token,
            self.decision(0),
            true,
        )
    }

    /// The state that a choice leads to, where it is admissible. Want of memory is the only error.
    #[inline(always)]
    pub fn successor<'r>(
        &self,
        store: &mut FrameStore<'r>,
        state: &NodeState,
        brk: bool,
    ) -> Result<Option<NodeState>, NoMemory>
        requires line { IsSearchable self.now }
        requires known { IsIn store.old state.now }
        requires some { 0 < state.now.index }
        requires next { state.now.index < length self.now.tokens }
        requires cheap { state.now.cost ≤ state.now.index * 18446744073709551615 }
        ensures gives { IfOk result
            (λ next. IsSuccessor self.now (state_in store.old state.now) brk (states_in store.new next)) }
        ensures known { IfOk result (λ next. IfSome next (IsIn store.new)) }
        ensures grown { IsGrown store.old store.new }
    {
        let at = state.index as usize;
        let left = self.token_before(at);
        let right = self.token(at);
        if !brk {
            let width = self.aside(at);
            if width < u32::MAX {
                let depth = right.depth;
                let next = step_aside(store, self.style, state, left, right, width, depth);
                return Ok(Some(next));
            }
        } else {
            let width = self.row(at);
            if width < u32::MAX {
                let (cost, depth) = (self.gap(at).cost, right.depth);
                let next = step_row(store, self.style, state, left, right, width, cost, depth);
                return Ok(Some(next));
            }
        }
        let fixed = self.decision(at);
        let rules = self.rules_before(at);
        let next = try_step_by(store, self.style, state, left, right, fixed, &rules, brk)?;
        Ok(next)
    }

    /// Whether no break may be in the gap behind a state, whatever frames are open.
    #[inline(always)]
    pub fn has_to_stay(&self, state: &NodeState) -> bool
        requires line { IsSearchable self.now }
        requires some { 0 < state.now.index }
        requires next { state.now.index < length self.now.tokens }
        ensures { OnTrue result ((lists : List FrameList) → LeadsNowhere self.now (layout_in lists state.now) true) }
    {
        let at = state.index as usize;
        let _before = self.token_before(at);
        let _token = self.token(at);
        self.gap(at).stays
    }

    /// The state of the first token. Want of memory is the only error.
    pub fn first_alone(&self, alloc: Global) -> Result<State, NoMemory>
        requires { IsSearchable self.now }
        ensures layout { IfOk result (λ state. layout_of state ≡ first_layout self.now) }
        ensures cost { IfOk result (λ state. state.cost ≡ first_cost self.now) }
        ensures small { IfOk result (λ state. state.cost ≤ 18446744073709551615) }
    {
        let mut state = start(alloc, self.style, self.column);
        let token = self.token(0);
        let rules = gap_rules(self.style, token, token);
        let fixed = self.decision(0);
        advance(self.style, &mut state, token, token, fixed, &rules, true)?;
        Ok(state)
    }

    /// Whether a choice is admissible.
    #[inline(always)]
    pub fn admits(&self, state: &State, brk: bool) -> bool
        requires line { IsSearchable self.now }
        requires some { 0 < state.now.index }
        requires next { state.now.index < length self.now.tokens }
        ensures yes { OnTrue result (LeadsOn self.now (layout_of state.now) brk) }
        ensures no { OnFalse result (LeadsNowhere self.now (layout_of state.now) brk) }
    {
        let at = state.index as usize;
        let left = self.token_before(at);
        let right = self.token(at);
        let fixed = self.decision(at);
        let rules = self.rules_before(at);
        allowed_by(self.style, state, left, right, fixed, &rules, brk)
    }

    /// Takes an admissible choice. Want of memory is the only error.
    pub fn go(&self, state: &mut State, brk: bool) -> Result<(), NoMemory>
        requires line { IsSearchable self.now }
        requires some { 0 < state.old.index }
        requires next { state.old.index < length self.now.tokens }
        requires cheap { state.old.cost ≤ state.old.index * 18446744073709551615 }
        requires leads { LeadsOn self.now (layout_of state.old) brk }
        ensures { OnOk result (IsNextState self.now (layout_of state.old) state.old.cost brk state.new) }
    {
        let at = state.index as usize;
        let left = self.token_before(at);
        let right = self.token(at);
        let fixed = self.decision(at);
        let rules = self.rules_before(at);
        advance(self.style, state, left, right, fixed, &rules, brk)?;
        Ok(())
    }
}
