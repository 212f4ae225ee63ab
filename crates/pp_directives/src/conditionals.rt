//! The open conditionals of a text.

ghost use Rattle.std.specs.Prelude.{◌≡◌, true, map};
ghost use Rattle.pp_directives.specs.CondView.{cond_shown};
ghost use Rattle.pp_directives.specs.Nesting.{is_nested};

use crate::cond::Cond;
use std::alloc::{AllocError, Global};
use std::collections::VecDeque;

/// The open conditionals of a text.
#[derive(Drop)]
pub struct Conditionals {
    /// The innermost is first.
    pub(crate) open: VecDeque<Cond>,
    ghost nested: { is_nested (map cond_shown open.items) ≡ true },
}

impl Conditionals {
    ghost use Rattle.std.specs.Prelude.{List, [], ◌∷◌, drop, IfOk, MatchOption};
    ghost use Rattle.pp_model.specs.Condition.{is_active, opened_cond, skipped_cond};
    ghost use Rattle.pp_directives.specs.WorldView.{conds_shown};

    /// None.
    pub fn new(alloc: Global) -> Self
        ensures { conds_shown result ≡ [] }
    {
        Conditionals {
            open: VecDeque::new(alloc),
        }
    }

    /// Whether every group around is taken.
    #[tactic(auto, using(crate::proofs::Nests::innermost_is_active, crate::proofs::Nests::none_is_active))]
    pub fn is_active(&self) -> bool
        ensures { result ≡ is_active (conds_shown self.now) }
    {
        match self.open.front() {
            None => true,
            Some(conditional) => conditional.active,
        }
    }

    /// The innermost.
    #[tactic(auto, using(crate::proofs::Nests::innermost_is, crate::proofs::Nests::none_is_open))]
    pub(crate) fn innermost(&self) -> Option<Cond>
        ensures { MatchOption result (conds_shown self.now ≡ [])
            (λ c. conds_shown self.now ≡ cond_shown c ∷ drop 1 (conds_shown self.now)) }
    {
        match self.open.front() {
            None => None,
            Some(conditional) => Some(*conditional),
        }
    }

    /// One more, which begins with this answer.
    #[tactic(auto, using(crate::proofs::Nests::active_nests))]
    pub(crate) fn begin(&mut self, answer: bool) -> Result<(), AllocError>
        requires { is_active (conds_shown self.old) ≡ true }
        ensures { IfOk result (λ _. conds_shown self.new ≡ opened_cond answer ∷ conds_shown self.old) }
    {
        self.open.push_front(Cond {
            taken: answer,
            active: answer,
            had_else: false,
            skipped: false,
        })?;
        Ok(())
    }

    /// One more, in a skipped group, which is followed for nesting alone (C11 6.10.1p6).
    #[tactic(auto, using(crate::proofs::Nests::done_nests))]
    pub(crate) fn skip(&mut self) -> Result<(), AllocError>
        ensures { IfOk result (λ _. conds_shown self.new ≡ skipped_cond ∷ conds_shown self.old) }
    {
        self.open.push_front(Cond {
            taken: true,
            active: false,
            had_else: false,
            skipped: true,
        })?;
        Ok(())
    }

    /// Another state of the innermost.
    #[tactic(auto, using(crate::proofs::Nests::rest_nests))]
    pub(crate) fn replace(&mut self, conditional: Cond) -> Result<(), AllocError>
        requires { is_nested (cond_shown conditional ∷ drop 1 (conds_shown self.old)) ≡ true }
        ensures { IfOk result (λ _. conds_shown self.new ≡ cond_shown conditional ∷ drop 1 (conds_shown self.old)) }
    {
        self.end();
        self.open.push_front(conditional)?;
        Ok(())
    }

    /// Without the innermost.
    #[tactic(auto, using(crate::proofs::Nests::tail_nests))]
    pub(crate) fn end(&mut self)
        ensures { conds_shown self.new ≡ drop 1 (conds_shown self.old) }
    {
        let _ = self.open.pop_front();
    }
}
