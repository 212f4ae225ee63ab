//! The least breaking of a line, by trying its choices one after another.
//!
//! The first choices from the left are followed as long as a whole breaking over them may cost no more than a bound,
//! and where none can, the last stay that was tried becomes a break. So the first whole breaking that is met is the
//! first of those within the bound, and all that were left out cost more. Where there is none, what they cost at least
//! is the next bound. Most lines are told by the first bound or the second; others are searched.

ghost use Rattle.std.specs.Prelude.{◌≡◌, ℕ, ◌<◌, ◌≤◌, ◌^◌, List, [], length, IfOk, IfSome};
ghost use Rattle.line_state.proofs.Ways.{onto};
ghost use Rattle.line_state.specs.Line.{first_cost};
ghost use Rattle.frame_store.specs.Store.{FrameList};
ghost use Rattle.line_state.specs.Layout.{Layout};
ghost use Rattle.searched_line.specs.Ahead.{least_ahead};
ghost use Rattle.searched_line.specs.Searched.{IsSearchable};
ghost use Rattle.break_search.specs.Outcome.{IsOutcome};
ghost use Rattle.break_search.specs.Descent.{IsTop, IsTrying, IsDescent, IsTurned, IsEnd, after, choices_of};

use crate::outcome::{Descent, Outcome};
use crate::searching::tell;
use crate::trail::{Step, Trail};
use bumpalo::Bump;
use frame_store::{FrameStore, NodeState};
use line_state::{NoMemory, cells_in};
use searched_line::SearchedLine;

/// How many tokens a line has at most that is tried so. Nearly all longer ones take more turns than they are given.
const MOST_TOKENS: usize = 48;

/// How many turns are taken at most, for each token. Most lines take one or two.
const TURNS_A_TOKEN: usize = 5;

/// How often the bound rises at most. Few lines are told where it rises again.
const MOST_RISES: u32 = 1;

/// What is tried next.
#[derive(Clone, Copy)]
pub(crate) enum Choice {
    /// That the gap behind the last step stays.
    Stay,
    /// That it breaks.
    Break,
    /// Neither, but another choice before it.
    Back,
}

/// Where a descent stands beside its steps.
#[derive(Clone, Copy)]
pub(crate) struct Trying {
    /// What the breakings cost at most that are tried.
    pub most: u128,
    /// What those cost at least that were left out.
    pub next: u128,
    /// What is tried next.
    pub choice: Choice,
    /// How often the bound may still rise.
    pub rises: u32,
}

/// What is tried where a choice leads to nothing.
#[inline(always)]
fn after(breaks: bool) -> Choice
    ensures { result ≡ after breaks }
{
    if breaks { Choice::Back } else { Choice::Break }
}

/// What is known of what every whole breaking costs at least beyond the state to which a choice led behind a step.
/// Where no other choice may be nothing is asked, since it is asked behind the next one.
#[inline(always)]
fn known_ahead(line: &SearchedLine<'_>, here: &Step, state: &NodeState, breaks: bool) -> u64
    requires line { IsSearchable line.now }
    requires some { 0 < here.now.state.index }
    requires more { here.now.state.index < length line.now.tokens }
    ensures { (layout : Layout) → layout.index ≡ state.now.index → layout.column ≡ state.now.column →
        result ≤ least_ahead line.now layout }
{
    if !breaks && line.has_to_stay(&here.state) {
        return 0;
    }
    line.least_ahead(state.index, state.column)
}

/// Tries a choice behind the last step.
#[inline(always)]
fn go(
    line: &SearchedLine<'_>,
    budget: u64,
    store: &mut FrameStore<'_>,
    trail: &mut Trail<'_>,
    trying: &mut Trying,
    here: &Step,
    breaks: bool,
) -> Result<Descent, NoMemory>
    requires line { IsSearchable line.now }
    requires budget { budget < 2 ^ 62 }
    requires tries { IsTrying line.now store.old budget trail.old trying.old.most trying.old.next breaks }
    requires top { IsTop trail.old here.now }
    ensures { IfOk result
        (IsTurned line.now store.new budget trail.new trying.new.most trying.new.next trying.new.choice) }
{
    let Some(state) = line.successor(store, &here.state, breaks)? else {
        trying.choice = after(breaks);
        return Ok(Descent::Goes);
    };
    let least = state.cost + u128::from(known_ahead(line, here, &state, breaks));
    if least > trying.most {
        trying.next = least.min(trying.next);
        trying.choice = after(breaks);
        return Ok(Descent::Goes);
    }
    let own = here.own + cells_in(store, &state);
    if own > budget {
        return Ok(Descent::Stops);
    }
    trail.push(Step {
        state,
        own,
        brk: breaks,
    })?;
    trying.choice = Choice::Stay;
    if state.index as usize == line.count() {
        return Ok(Descent::Ends);
    }
    Ok(Descent::Goes)
}

/// Takes the last step back, or begins again with the next bound where there is none but the first token's.
#[inline(always)]
fn back(line: &SearchedLine<'_>, trail: &mut Trail<'_>, trying: &mut Trying, here: &Step) -> Descent
    requires line { IsSearchable line.now }
    requires top { IsTop trail.old here.now }
    requires descent { (lists : List FrameList) × (budget : ℕ)
        × IsDescent line.now lists budget trail.old trying.old.most trying.old.next Choice.Back }
    ensures { (lists : List FrameList) (budget : ℕ) →
        IsDescent line.now lists budget trail.old trying.old.most trying.old.next Choice.Back →
        IsTurned line.now lists budget trail.new trying.new.most trying.new.next trying.new.choice result }
{
    if here.state.index == 1 {
        if trying.next < u128::MAX && trying.rises > 0 {
            trying.most = trying.next;
            trying.next = u128::MAX;
            trying.choice = Choice::Stay;
            trying.rises -= 1;
            return Descent::Goes;
        }
        return Descent::Stops;
    }
    let Some(_) = trail.pop() else {
        return Descent::Stops;
    };
    trying.choice = after(here.brk);
    if here.brk {
        return Descent::Goes;
    }
    let Some(below) = trail.top() else {
        return Descent::Stops;
    };
    if line.has_to_stay(&below.state) {
        trying.choice = Choice::Back;
    }
    Descent::Goes
}

/// Takes a turn.
#[inline(always)]
fn turn(
    line: &SearchedLine<'_>,
    budget: u64,
    store: &mut FrameStore<'_>,
    trail: &mut Trail<'_>,
    trying: &mut Trying,
) -> Result<Descent, NoMemory>
    requires line { IsSearchable line.now }
    requires budget { budget < 2 ^ 62 }
    requires descent { IsDescent line.now store.old budget trail.old trying.old.most trying.old.next trying.old.choice }
    ensures { IfOk result
        (IsTurned line.now store.new budget trail.new trying.new.most trying.new.next trying.new.choice) }
{
    let Some(here) = trail.top() else {
        return Ok(Descent::Stops);
    };
    match trying.choice {
        Choice::Stay => go(line, budget, store, trail, trying, &here, false),
        Choice::Break => {
            if line.has_to_stay(&here.state) {
                trying.choice = Choice::Back;
                return Ok(Descent::Goes);
            }
            go(line, budget, store, trail, trying, &here, true)
        }
        Choice::Back => Ok(back(line, trail, trying, &here)),
    }
}

/// The choices of so many steps behind the first token's.
fn breaks_of<'r>(
    run: &'r Bump,
    trail: &mut Trail<'_>,
    count: u32,
) -> Result<Vec<bool, &'r Bump>, NoMemory>
    requires { length (choices_of trail.old) ≡ count }
    ensures { IfOk result (λ v. v.items ≡ onto (choices_of trail.old) []) }
{
    let mut breaks = Vec::with_capacity(run, count as usize)?;
    for done in 0..count {
        let Some(step) = trail.pop() else {
            unreachable!()
        };
        breaks.push_reserved(step.brk);
    }
    breaks.reverse();
    Ok(breaks)
}

/// Tells the breaking of the steps, and its cost.
fn tell_end<'r>(
    scratch: &Bump,
    line: &SearchedLine<'_>,
    budget: u64,
    paid: u128,
    trail: &mut Trail<'_>,
    run: &'r Bump,
) -> Result<Outcome<'r>, NoMemory>
    requires line { IsSearchable line.now }
    requires paid { paid ≡ first_cost line.now }
    requires small { paid ≤ 18446744073709551615 }
    requires ends { IsEnd line.now budget trail.old }
    ensures { IfOk result (IsOutcome line.now budget) }
{
    let Some(top) = trail.top() else {
        unreachable!()
    };
    let breaks = breaks_of(scratch, trail, line.gaps())?;
    tell(breaks.as_slice(), paid + top.state.cost, run)
}

/// Takes turns, from the step of the first token on, as many as tell most lines' breakings. The first bound is what all
/// breakings cost at least.
fn take_turns<'r>(
    scratch: &Bump,
    line: &SearchedLine<'_>,
    budget: u64,
    paid: u128,
    least: u64,
    store: &mut FrameStore<'_>,
    trail: &mut Trail<'_>,
    run: &'r Bump,
) -> Result<Option<Outcome<'r>>, NoMemory>
    requires line { IsSearchable line.now }
    requires budget { budget < 2 ^ 62 }
    requires paid { paid ≡ first_cost line.now }
    requires small { paid ≤ 18446744073709551615 }
    requires begins { IsDescent line.now store.old budget trail.old least 340282366920938463463374607431768211455
        Choice.Stay }
    ensures { IfOk result (λ found. IfSome found (IsOutcome line.now budget)) }
{
    let mut trying = Trying {
        most: u128::from(least),
        next: u128::MAX,
        choice: Choice::Stay,
        rises: MOST_RISES,
    };
    'turns: for _ in 0..line.count() * TURNS_A_TOKEN {
        match turn(line, budget, store, trail, &mut trying)? {
            Descent::Goes => {}
            Descent::Stops => return Ok(None),
            Descent::Ends => {
                let outcome = tell_end(scratch, line, budget, paid, trail, run)?;
                return Ok(Some(outcome));
            }
        }
    }
    Ok(None)
}

/// The least breaking of a line that isn't long, where few turns tell it.
pub(crate) fn descend<'r>(
    scratch: &Bump,
    line: &SearchedLine<'_>,
    budget: u64,
    run: &'r Bump,
) -> Result<Option<Outcome<'r>>, NoMemory>
    requires line { IsSearchable line.now }
    requires budget { budget < 2 ^ 62 }
    ensures { IfOk result (λ found. IfSome found (IsOutcome line.now budget)) }
{
    let count = line.count();
    if count < 2 || count > MOST_TOKENS {
        return Ok(None);
    }
    let mut store = FrameStore::make(scratch)?;
    let mut state = line.first(&mut store)?;
    let paid = state.cost;
    state.cost = 0;
    let own = cells_in(&store, &state);
    if own > budget {
        return Ok(None);
    }
    let mut trail = Trail::with_room(scratch, count)?;
    trail.push(Step {
        state,
        own,
        brk: true,
    })?;
    let least = line.least_ahead(state.index, state.column);
    take_turns(
        scratch, line, budget, paid, least, &mut store, &mut trail, run,
    )
}
