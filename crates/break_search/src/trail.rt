//! The choices that a descent has made, and the states that they led to.

ghost use Rattle.std.specs.Prelude.{◌≡◌, ◌<◌, [], ◌∷◌, IfOk, OnOk, MatchOption};
ghost use Rattle.std.specs.Vec.{vec_len, vec_capacity};
ghost use Rattle.break_search.specs.Descent.{IsTop};

use bumpalo::Bump;
use frame_store::NodeState;
use line_state::NoMemory;
use std::marker::Model;

/// A choice, and where it leads.
#[derive(Clone, Copy)]
pub(crate) struct Step {
    /// The state behind it, with its frames in a store.
    pub state: NodeState,
    /// What that state and all before it count.
    pub own: u64,
    /// The choice.
    pub brk: bool,
}

/// Makes room for a step. It is a call of its own, since it is seldom needed.
#[inline(never)]
fn make_room(steps: &mut Vec<Step, &Bump>) -> Result<(), NoMemory>
    ensures items { steps.new.items ≡ steps.old.items }
    ensures room { OnOk result (vec_len steps.new < vec_capacity steps.new) }
{
    steps.reserve(1)?;
    Ok(())
}

/// Sees that there is room for a step.
#[inline(always)]
fn reserve_room(steps: &mut Vec<Step, &Bump>) -> Result<(), NoMemory>
    ensures items { steps.new.items ≡ steps.old.items }
    ensures room { OnOk result (vec_len steps.new < vec_capacity steps.new) }
{
    if steps.len() < steps.capacity() {
        return Ok(());
    }
    make_room(steps)
}

/// The steps from a line's first token on. Contracts see the last one first.
#[derive(Drop)]
pub(crate) struct Trail<'r> {
    steps: Vec<Step, &'r Bump>,
}

impl<'r> Model for Trail<'r> {
    ghost use Rattle.std.specs.Prelude.{List, reverse};
    ghost use Rattle.break_search.specs.declared.trail.Step.{Step};

    ghost Value = { List Step };

    ghost view = { λ t. reverse t.steps.items };
}

impl<'r> Trail<'r> {
    /// No steps, with room for so many.
    pub fn with_room(run: &'r Bump, room: usize) -> Result<Trail<'r>, NoMemory>
        ensures { IfOk result (λ trail. trail ≡ []) }
    {
        Ok(Trail {
            steps: Vec::with_capacity(run, room)?,
        })
    }

    /// Adds a step. It is written to its place at once: the vector's `push` would hold it ready to be handed back.
    #[inline(always)]
    pub fn push(&mut self, step: Step) -> Result<(), NoMemory>
        ensures { IfOk result (λ _. self.new ≡ step ∷ self.old) }
    {
        reserve_room(&mut self.steps)?;
        self.steps.push_reserved(step);
        Ok(())
    }

    /// Takes the last step back.
    #[inline(always)]
    pub fn pop(&mut self) -> Option<Step>
        ensures { MatchOption result ((self.old ≡ []) × (self.new ≡ [])) (λ x. self.old ≡ x ∷ self.new) }
    {
        self.steps.pop()
    }

    /// The last step.
    #[inline(always)]
    pub fn top(&self) -> Option<Step>
        ensures { MatchOption result (self.now ≡ []) (IsTop self.now) }
    {
        self.steps.last().copied()
    }
}
