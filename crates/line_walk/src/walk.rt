//! Choices that break only where they have to.

ghost use Rattle.std.specs.Prelude.{◌≡◌, ◌*◌, ◌<◌, ◌≤◌, length, IfOk};
ghost use Rattle.style_table.specs.Range.{IsInRange};
ghost use Rattle.line_state.specs.StoredStates.{layout_in, state_in};
ghost use Rattle.frame_store.specs.Store.{IsIn};
ghost use Rattle.searched_line.specs.Searched.{IsSearchable, line_of};
ghost use Rattle.line_walk.specs.Starts.{IsAdmissible, MayStay};
ghost use Rattle.searched_line.specs.Successors.{IsNextState};

use bumpalo::Bump;
use bumpalo::collections::into_bump_slice;
use frame_store::{FrameStore, NodeState};
use line_state::NoMemory;
use line_tokens::{Fixed, LineTok};
use searched_line::SearchedLine;
use std::alloc::Global;
use style_table::Style;

/// The next state and its choice, which breaks only where the gap can't stay.
fn least_next<'r>(
    line: &SearchedLine<'_>,
    store: &mut FrameStore<'r>,
    state: &NodeState,
) -> Result<(NodeState, bool), NoMemory>
    requires line { IsSearchable line.now }
    requires known { IsIn store.old state.now }
    requires some { 0 < state.now.index }
    requires next { state.now.index < length line.now.tokens }
    requires cheap { state.now.cost ≤ state.now.index * 18446744073709551615 }
    requires stay { MayStay (layout_in store.old state.now) }
    ensures next { IfOk result
        (λ x. IsNextState line.now (layout_in store.old state.now) state.now.cost x.1 (state_in store.new x.0)) }
    ensures known { IfOk result (λ x. IsIn store.new x.0) }
    ensures stay { IfOk result (λ x. MayStay (layout_in store.new x.0)) }
{
    if let Some(next) = line.successor(store, state, false)? {
        return Ok((next, false));
    }
    let Some(next) = line.successor(store, state, true)? else {
        unreachable!()
    };
    Ok((next, true))
}

/// The breaking of a line that breaks only where it has to, with its states' frames in a store.
fn least_breaks_in<'r>(
    line: &SearchedLine<'_>,
    store: &mut FrameStore<'_>,
    run: &'r Bump,
) -> Result<&'r [bool], NoMemory>
    requires { IsSearchable line.now }
    ensures { IfOk result (λ breaks. IsAdmissible line.now breaks.now) }
{
    let mut state = line.first(store)?;
    let count = line.gaps();
    let mut breaks = Vec::with_capacity(run, count as usize)?;
    'tokens: for placed in 0..count {
        let (next, brk) = least_next(line, store, &state)?;
        breaks.push(brk)?;
        state = next;
    }
    Ok(into_bump_slice(breaks))
}

/// The breaking of a line that breaks only where it has to.
///
/// # Errors
///
/// `NoMemory` where memory ran out.
pub fn least_breaks<'r>(
    alloc: Global,
    style: &Style,
    line: &[LineTok],
    column: u32,
    fixed: &[Option<Fixed>],
    run: &'r Bump,
) -> Result<&'r [bool], NoMemory>
    requires some { 0 < length line.now }
    requires short { length line.now < 4294967296 }
    requires even { length fixed.now ≡ length line.now }
    requires range { IsInRange style.now }
    ensures { IfOk result (λ breaks. IsAdmissible (line_of style.now column line.now fixed.now) breaks.now) }
{
    let scratch = Bump::new(alloc);
    let line = SearchedLine::make(style, column, line, fixed, &scratch)?;
    let mut store = FrameStore::make(&scratch)?;
    least_breaks_in(&line, &mut store, run)
}
