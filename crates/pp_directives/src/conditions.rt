//! What the directives of conditionals do (C11 6.10.1).

ghost use Rattle.std.specs.Prelude.{◌≡◌, Bool, true, false, List, ◌∷◌, ◌++◌, map, drop, IfOk, IfSome, Option, Some};
ghost use Rattle.std.specs.Prelude.{None};
ghost use Rattle.pp_model.specs.Condition.{Cond as Conds, is_active};
ghost use Rattle.pp_model.specs.Setting.{holds_in};
ghost use Rattle.pp_model.specs.Preprocess.{World as Worlds, test, asked, begin_if, if_active, branch, entered};
ghost use Rattle.pp_model.specs.Preprocess.{otherwise, endif, blame, left_open, finish};
ghost use Rattle.pp_events.specs.View.{tok_shown};
ghost use Rattle.pp_directives.specs.CondView.{cond_shown};
ghost use Rattle.pp_directives.specs.SettingView.{condition_shown};
ghost use Rattle.pp_directives.specs.WorldView.{world_shown, conds_shown, event_shown, goes_with, asked_next};

use crate::cond::Cond;
use crate::conditionals::Conditionals;
use crate::events::Event;
use crate::keys::holds_in;
use crate::resolve::{front_defined, resolve};
use crate::settings::Condition;
use crate::state::World;
use pp_events::{Spellings, Tok};
use std::alloc::{AllocError, Global};
use std::collections::VecDeque;

impl World {
    /// Whether a condition holds (6.10.1p1 to p4); none where the turns don't suffice, and then it is over.
    #[tactic(auto, using(crate::proofs::Answered::tested_by_tokens, crate::proofs::Answered::tested_by_none))]
    fn test<R: Spellings>(
        &mut self,
        alloc: Global,
        reader: &R,
        conditions: &[Condition],
        tokens: VecDeque<Tok>,
    ) -> Result<Option<bool>, AllocError>
        ensures shown { IfOk result (λ r.
            (go : Bool → Worlds → Worlds) →
            test (R.kinds reader.now) (holds_in (map condition_shown conditions.now)) go (map tok_shown tokens.items)
            (world_shown self.old)
            ≡ goes_with r go (world_shown self.new)) }
        ensures conds { self.new.conds ≡ self.old.conds }
    {
        let resolved = resolve(alloc, self.table.as_slice(), tokens)?;
        match self.expanded(alloc, reader, resolved)? {
            None => Ok(None),
            Some(made) => Ok(Some(holds_in(conditions, made.as_slice()))),
        }
    }

    /// Whether a name is defined, or isn't where `sense` is false (6.10.1p5): without a name it is
    /// malformed, and false.
    #[tactic(auto, using(crate::proofs::Answered::asked_of_name, crate::proofs::Answered::asked_of_none))]
    fn asked(
        &mut self,
        alloc: Global,
        sense: bool,
        tokens: &VecDeque<Tok>,
    ) -> Result<bool, AllocError>
        ensures shown { IfOk result (λ r.
            (go : Bool → Worlds → Worlds) →
            asked sense go (map tok_shown tokens.now.items) (world_shown self.old) ≡ go r (world_shown self.new)) }
        ensures conds { self.new.conds ≡ self.old.conds }
    {
        match front_defined(self.table.as_slice(), tokens) {
            None => {
                self.malformed(alloc)?;
                Ok(false)
            }
            Some(defined) => Ok(sense == defined),
        }
    }

    /// An `#if`.
    #[tactic(auto, using(crate::proofs::Branches::active_if))]
    pub fn begin_if<R: Spellings>(
        &mut self,
        alloc: Global,
        reader: &R,
        conditions: &[Condition],
        tokens: VecDeque<Tok>,
    ) -> Result<(), AllocError>
        ensures { IfOk result (λ _.
            world_shown self.new
            ≡ if_active (test (R.kinds reader.now) (holds_in (map condition_shown conditions.now)) begin_if
            (map tok_shown tokens.items)) (world_shown self.old)) }
    {
        if self.conds.is_active() {
            match self.test(alloc, reader, conditions, tokens)? {
                None => Ok(()),
                Some(holds) => {
                    self.conds.begin(holds)?;
                    Ok(())
                }
            }
        } else {
            self.conds.skip()
        }
    }

    /// An `#ifdef`, or an `#ifndef` where `sense` is false.
    pub fn begin_ifdef(
        &mut self,
        alloc: Global,
        sense: bool,
        tokens: VecDeque<Tok>,
    ) -> Result<(), AllocError>
        ensures { IfOk result (λ _.
            world_shown self.new
            ≡ if_active (asked sense begin_if (map tok_shown tokens.items)) (world_shown self.old)) }
    {
        if self.conds.is_active() {
            let holds = self.asked(alloc, sense, &tokens)?;
            self.conds.begin(holds)
        } else {
            self.conds.skip()
        }
    }

    /// Malformed, but in a skipped group.
    #[tactic(auto, using(crate::proofs::Branches::blame_skipped, crate::proofs::Branches::blame_taken))]
    fn blame(&mut self, alloc: Global, skipped: bool) -> Result<(), AllocError>
        ensures { IfOk result (λ _.
            world_shown self.new
            ≡ blame (record { taken = true; active = false; had_else = true; skipped = skipped })
            (world_shown self.old)) }
    {
        if skipped {
            Ok(())
        } else {
            self.malformed(alloc)
        }
    }

    /// The next group of a conditional of which none was taken, with this answer.
    #[tactic(auto, using(crate::proofs::Nests::entered_nests))]
    fn enter(&mut self, conditional: Cond, holds: bool) -> Result<(), AllocError>
        requires innermost { conds_shown self.old.conds ≡ cond_shown conditional ∷ drop 1 (conds_shown self.old.conds) }
        requires open { conditional.taken ≡ false }
        ensures { IfOk result (λ _.
            world_shown self.new
            ≡ entered (cond_shown conditional) (drop 1 (conds_shown self.old.conds)) holds (world_shown self.old)) }
    {
        self.conds.replace(Cond {
            taken: holds,
            active: holds,
            had_else: false,
            skipped: conditional.skipped,
        })
    }

    /// The conditional whose next group asks a condition, since no group before it was taken (6.10.1p6);
    /// none where the next group asks nothing, which is then begun.
    #[tactic(auto, using(crate::proofs::Branches::had_else_branch, crate::proofs::Branches::asking_branch, crate::proofs::Nests::done_nests))]
    fn next_asked(&mut self, alloc: Global) -> Result<Option<Cond>, AllocError>
        ensures shown { IfOk result (λ r.
            (go : Conds → List Conds → Worlds → Worlds) →
            branch go (conds_shown self.old.conds) (world_shown self.old)
            ≡ asked_next r go (drop 1 (conds_shown self.old.conds)) (world_shown self.new)) }
        ensures same { IfOk result (λ r. IfSome r (λ c. world_shown self.new ≡ world_shown self.old)) }
        ensures innermost { IfOk result
            (λ r. IfSome r (λ c. conds_shown self.old.conds ≡ cond_shown c ∷ drop 1 (conds_shown self.old.conds))) }
        ensures open { IfOk result (λ r. IfSome r (λ c. c.taken ≡ false)) }
    {
        match self.conds.innermost() {
            None => {
                self.malformed(alloc)?;
                Ok(None)
            }
            Some(conditional) => {
                if conditional.had_else {
                    self.blame(alloc, conditional.skipped)?;
                    Ok(None)
                } else if conditional.taken {
                    self.conds.replace(Cond {
                        taken: true,
                        active: false,
                        had_else: conditional.had_else,
                        skipped: conditional.skipped,
                    })?;
                    Ok(None)
                } else {
                    Ok(Some(conditional))
                }
            }
        }
    }

    /// An `#elif`.
    pub fn elif<R: Spellings>(
        &mut self,
        alloc: Global,
        reader: &R,
        conditions: &[Condition],
        tokens: VecDeque<Tok>,
    ) -> Result<(), AllocError>
        ensures { IfOk result (λ _.
            world_shown self.new
            ≡ branch (λ c cs.
            test (R.kinds reader.now) (holds_in (map condition_shown conditions.now)) (entered c cs)
            (map tok_shown tokens.items)) (conds_shown self.old.conds) (world_shown self.old)) }
    {
        if let Some(conditional) = self.next_asked(alloc)? {
            if let Some(holds) = self.test(alloc, reader, conditions, tokens)? {
                self.enter(conditional, holds)?;
            }
        }
        Ok(())
    }

    /// An `#elifdef`, or an `#elifndef` where `sense` is false.
    pub fn elifdef(
        &mut self,
        alloc: Global,
        sense: bool,
        tokens: VecDeque<Tok>,
    ) -> Result<(), AllocError>
        ensures { IfOk result (λ _.
            world_shown self.new
            ≡ branch (λ c cs. asked sense (entered c cs) (map tok_shown tokens.items)) (conds_shown self.old.conds)
            (world_shown self.old)) }
    {
        if let Some(conditional) = self.next_asked(alloc)? {
            let holds = self.asked(alloc, sense, &tokens)?;
            self.enter(conditional, holds)?;
        }
        Ok(())
    }

    /// An `#else`.
    #[tactic(auto, using(crate::proofs::Branches::had_else_last))]
    pub fn otherwise(&mut self, alloc: Global) -> Result<(), AllocError>
        ensures { IfOk result
            (λ _. world_shown self.new ≡ otherwise (conds_shown self.old.conds) (world_shown self.old)) }
    {
        match self.conds.innermost() {
            None => self.malformed(alloc),
            Some(conditional) => {
                if conditional.had_else {
                    self.blame(alloc, conditional.skipped)?;
                    Ok(())
                } else {
                    self.conds.replace(Cond {
                        taken: true,
                        active: !conditional.taken,
                        had_else: true,
                        skipped: conditional.skipped,
                    })
                }
            }
        }
    }

    /// An `#endif`.
    pub fn endif(&mut self, alloc: Global) -> Result<(), AllocError>
        ensures { IfOk result (λ _. world_shown self.new ≡ endif (conds_shown self.old.conds) (world_shown self.old)) }
    {
        match self.conds.innermost() {
            None => self.malformed(alloc),
            Some(_) => {
                self.conds.end();
                Ok(())
            }
        }
    }

    /// The end of a text: the text that waits is expanded, and each conditional that is open is
    /// malformed.
    pub fn finish<R: Spellings>(&mut self, alloc: Global, reader: &R) -> Result<(), AllocError>
        ensures { IfOk result (λ _. world_shown self.new ≡ finish (R.kinds reader.now) (world_shown self.old)) }
    {
        self.flush(alloc, reader)?;
        if self.over {
            Ok(())
        } else {
            blame_open(alloc, &self.conds, &mut self.events)
        }
    }
}

/// A malformed more for each open conditional that isn't in a skipped group.
fn blame_open(
    alloc: Global,
    conditionals: &Conditionals,
    events: &mut Vec<Event>,
) -> Result<(), AllocError>
    ensures { IfOk result (λ _.
        map event_shown events.new.items
        ≡ map event_shown events.old.items ++ left_open (conds_shown conditionals.now)) }
{
    let open = &conditionals.open;
    for index in 0..open.len() {
        if !open[index].skipped {
            events.push(Event::Malformed(Vec::new(alloc)))?;
        }
    }
    Ok(())
}
