//! The sections of a text, as conditionals see them.

ghost use Rattle.std.specs.Prelude.{◌≡◌, length};
ghost use Rattle.branch_runs.specs.Marks.{mark_of, kind_by};
ghost use Rattle.branch_runs.specs.Operands.{IsWithin};

use crate::zero::is_if_zero;
use token_arena::{Nesting, Section, TokenArena, nesting_of};

/// What a section does to the conditionals that are open.
#[derive(Clone, Copy, Debug, PartialEq, Eq)]
pub enum MarkKind {
    /// It is a text.
    Text,
    /// It opens a conditional whose first group is that of a literal `#if 0`.
    IfZero,
    /// It opens any other conditional.
    Opens,
    /// It begins a branch, and others may follow.
    Branch,
    /// It begins the last branch.
    LastBranch,
    /// It ends a conditional.
    Ends,
    /// It is a directive that does nothing to them.
    Flat,
}

/// A section, as conditionals see it.
#[derive(Clone, Copy, Debug, PartialEq, Eq)]
pub struct Mark {
    /// Its first item.
    pub first: u32,
    /// The first item behind it.
    pub end: u32,
    /// What it does.
    pub kind: MarkKind,
}

/// A conditional that is open, by the group of it that is being read.
#[derive(Clone, Copy)]
pub(crate) enum Open {
    /// The group of a literal `#if 0`.
    Zero,
    /// The group behind `#else`.
    Last,
    /// Any other.
    Live,
}

// What a directive of this nesting does, which is a literal `#if 0` or not.
fn kind_by(is_zero: bool, nesting: Nesting) -> MarkKind
    ensures { result ≡ kind_by is_zero nesting }
{
    match nesting {
        Nesting::Opens => {
            if is_zero {
                MarkKind::IfZero
            } else {
                MarkKind::Opens
            }
        }
        Nesting::Branch => MarkKind::Branch,
        Nesting::LastBranch => MarkKind::LastBranch,
        Nesting::Ends => MarkKind::Ends,
        Nesting::Flat => MarkKind::Flat,
    }
}

/// The mark of a section.
pub(crate) fn mark_of(arena: &TokenArena<'_, '_>, section: Section) -> Mark
    requires { IsWithin (length arena.now.tokens) section }
    ensures { result ≡ mark_of arena.now section }
{
    match section {
        Section::Text { first, end } => Mark {
            first,
            end,
            kind: MarkKind::Text,
        },
        Section::Dir(directive) => Mark {
            first: directive.first,
            end: directive.end,
            kind: kind_by(is_if_zero(arena, directive), nesting_of(directive.kind)),
        },
    }
}
