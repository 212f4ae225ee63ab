//! The conditionals that are open where a walk over the directives of a text stands (C11 6.10p1).

ghost use Rattle.std.specs.Prelude.{◌≡◌, ◌<◌, ◌≤◌, ◌+◌, ◌^◌, [], length, IfOk};
ghost use Rattle.early_gaps.specs.Depths.{around_branch, depth_in, open_behind};

use line_tokens::NoMemory;
use std::alloc::Global;
use std::marker::Model;
use token_arena::Nesting;

/// The open conditionals. A contract sees of each whether its last branch has begun, the innermost first.
#[derive(Drop)]
pub(crate) struct Conditionals {
    last_begun: Vec<bool, Global>,
}

impl Model for Conditionals {
    ghost use Rattle.std.specs.Prelude.{List, Bool, reverse};

    ghost Value = { List Bool };

    ghost view = { λ c. reverse c.last_begun.items };
}

impl Conditionals {
    /// None is open. It takes no memory.
    pub fn none(alloc: Global) -> Self
        ensures { result ≡ [] }
    {
        Conditionals {
            last_begun: Vec::new(alloc),
        }
    }

    /// How many are open.
    fn count(&self) -> u32
        requires { length self.now < 2 ^ 31 }
        ensures { result ≡ length self.now }
    {
        self.last_begun.len() as u32
    }

    /// How many stand around what begins a branch of the innermost: all, where its last branch has begun.
    fn around_branch(&self) -> u32
        requires { length self.now < 2 ^ 31 }
        ensures { result ≡ length (around_branch self.now) }
    {
        match self.last_begun.last().copied() {
            None => 0,
            Some(true) => self.count(),
            Some(false) => self.count() - 1,
        }
    }

    /// Passes a directive that does this, and tells how many conditionals stand around it. Want of memory is the only
    /// error.
    pub fn pass(&mut self, nesting: Nesting) -> Result<u32, NoMemory>
        requires { length self.old < 2 ^ 31 }
        ensures depth { IfOk result (λ depth. depth ≡ depth_in nesting self.old) }
        ensures behind { IfOk result (λ _. self.new ≡ open_behind nesting self.old) }
        ensures few { IfOk result (λ depth. depth ≤ length self.old) }
        ensures len { IfOk result (λ _. length self.new ≤ length self.old + 1) }
    {
        match nesting {
            Nesting::Opens => {
                let depth = self.count();
                self.last_begun.push(false)?;
                Ok(depth)
            }
            Nesting::Branch => Ok(self.around_branch()),
            Nesting::LastBranch => {
                let depth = self.around_branch();
                if self.last_begun.pop().is_some() {
                    self.last_begun.push(true)?;
                }
                Ok(depth)
            }
            Nesting::Ends => {
                let _ = self.last_begun.pop();
                Ok(self.count())
            }
            Nesting::Flat => Ok(self.count()),
        }
    }
}
