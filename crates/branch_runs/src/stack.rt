//! A list that grows and shrinks at its front.

ghost use Rattle.std.specs.Prelude.{◌≡◌, [], ◌∷◌, IfOk, OnErr, MatchOption};
ghost use Rattle.branch_runs.specs.Front.{IsFront};

use crate::NoMemory;
use bumpalo::Bump;
use std::marker::Model;

/// A stack. A contract sees the list of what it holds, the last pushed first.
#[derive(Drop)]
pub(crate) struct Stack<'a, T: Drop> {
    items: Vec<T, &'a Bump>,
}

impl<'a, T: Drop> Model for Stack<'a, T> {
    ghost use Rattle.std.specs.Prelude.{List, reverse};

    ghost Value = { List T };

    ghost view = { λ s. reverse s.items.items };
}

impl<'a, T: Drop> Stack<'a, T> {
    /// A stack that holds nothing.
    pub fn new(bump: &'a Bump) -> Self
        ensures { result ≡ [] }
    {
        Stack {
            items: Vec::new(bump),
        }
    }

    /// Puts a value to the front.
    pub fn push(&mut self, entry: T) -> Result<(), NoMemory>
        ensures ok { IfOk result (λ _. self.new ≡ entry ∷ self.old) }
        ensures err { OnErr result (self.new ≡ self.old) }
    {
        self.items.push(entry)?;
        Ok(())
    }

    /// Takes the value at the front away.
    pub fn pop(&mut self) -> Option<T>
        ensures { MatchOption result ((self.old ≡ []) × (self.new ≡ [])) (λ x. self.old ≡ x ∷ self.new) }
    {
        self.items.pop()
    }

    /// The value at the front.
    pub fn top(&self) -> Option<T>
    where
        T: Copy,
        ensures { MatchOption result (self.now ≡ []) (λ x. IsFront self.now x) }
    {
        self.items.last().copied()
    }
}
