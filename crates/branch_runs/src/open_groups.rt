//! The conditionals that are open where a reading stands.

ghost use Rattle.std.specs.Prelude.{◌≡◌, ◌<◌, ◌≤◌, ◌+◌, ◌^◌, false, [], ◌∷◌, length, IfOk};
ghost use Rattle.branch_runs.specs.Reading.{kind_in, open_after};
ghost use Rattle.branch_runs.specs.Dead.{has_zero};
ghost use Rattle.branch_runs.specs.Flags.{IsBranchStep};

use crate::mark::Open;
use crate::stack::Stack;
use crate::{MarkKind, NoMemory};
use bumpalo::Bump;
use std::marker::Model;

/// The open conditionals. A contract sees their list, the innermost first.
#[derive(Drop)]
pub(crate) struct OpenGroups<'a> {
    stack: Stack<'a, Open>,
    dead_groups: u32,
}

impl<'a> Model for OpenGroups<'a> {
    ghost use Rattle.std.specs.Prelude.{List, ◌≡◌};
    ghost use Rattle.branch_runs.specs.declared.mark.Open.{Open};
    ghost use Rattle.branch_runs.specs.Flags.{zeros};

    ghost Value = { List Open };

    ghost view = { λ g. g.stack };

    ghost invariant = { λ g. g.dead_groups ≡ zeros g.stack };
}

impl<'a> OpenGroups<'a> {
    /// None is open.
    pub fn new(bump: &'a Bump) -> Self
        ensures { result ≡ [] }
    {
        OpenGroups {
            stack: Stack::new(bump),
            dead_groups: 0,
        }
    }

    /// Whether one of them is the group of a literal `#if 0`.
    pub fn is_dead(&self) -> bool
        ensures { result ≡ has_zero self.now }
    {
        self.dead_groups > 0
    }

    /// What a section of this kind does here. Afterwards those are open that are open behind it.
    #[tactic(auto, using(crate::proofs::Zeros::zeros_length))]
    pub fn enter(&mut self, kind: MarkKind) -> Result<MarkKind, NoMemory>
        requires { length self.old < 2 ^ 31 }
        ensures kind { IfOk result (λ k. k ≡ kind_in kind self.old) }
        ensures after { IfOk result (λ k. self.new ≡ open_after k self.old) }
        ensures len { IfOk result (λ k. length self.new ≤ length self.old + 1) }
    {
        match kind {
            MarkKind::Text | MarkKind::Flat => Ok(kind),
            MarkKind::IfZero => {
                self.stack.push(Open::Zero)?;
                self.dead_groups += 1;
                Ok(kind)
            }
            MarkKind::Opens => {
                self.stack.push(Open::Live)?;
                Ok(kind)
            }
            MarkKind::Branch => self.branch(kind, Open::Live),
            MarkKind::LastBranch => self.branch(kind, Open::Last),
            MarkKind::Ends => match self.stack.pop() {
                None => Ok(MarkKind::Flat),
                Some(Open::Zero) => {
                    self.dead_groups -= 1;
                    Ok(kind)
                }
                Some(_) => Ok(kind),
            },
        }
    }

    // What a branch does here, with which this group of the innermost conditional begins.
    fn branch(&mut self, kind: MarkKind, group: Open) -> Result<MarkKind, NoMemory>
        requires small { length self.old < 2 ^ 31 }
        requires live { has_zero (group ∷ []) ≡ false }
        ensures { IfOk result (λ k. IsBranchStep kind group self.old k self.new) }
    {
        match self.stack.pop() {
            None => Ok(MarkKind::Flat),
            Some(Open::Last) => {
                self.stack.push(Open::Last)?;
                Ok(MarkKind::Flat)
            }
            Some(Open::Zero) => {
                self.dead_groups -= 1;
                self.stack.push(group)?;
                Ok(kind)
            }
            Some(Open::Live) => {
                self.stack.push(group)?;
                Ok(kind)
            }
        }
    }
}
