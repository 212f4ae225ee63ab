//! What a directive does to the conditionals around it.

ghost use Rattle.std.specs.Prelude.{◌≡◌};
ghost use Rattle.token_arena.specs.Nesting.{nesting_of};

use crate::DirectiveKind;

/// What a directive does to the conditionals around it (C11 6.10.1).
#[derive(Clone, Copy, Debug, PartialEq, Eq)]
pub enum Nesting {
    /// It opens a conditional.
    Opens,
    /// It begins a branch, and others may follow.
    Branch,
    /// It begins the last branch.
    LastBranch,
    /// It ends a conditional.
    Ends,
    /// Nothing.
    Flat,
}

/// What a directive of this kind does to the conditionals around it.
pub fn nesting_of(kind: DirectiveKind) -> Nesting
    ensures { result ≡ nesting_of kind }
{
    match kind {
        DirectiveKind::If | DirectiveKind::Ifdef | DirectiveKind::Ifndef => Nesting::Opens,
        DirectiveKind::Elif => Nesting::Branch,
        DirectiveKind::Else => Nesting::LastBranch,
        DirectiveKind::Endif => Nesting::Ends,
        DirectiveKind::Include
        | DirectiveKind::Define
        | DirectiveKind::Undef
        | DirectiveKind::Line
        | DirectiveKind::Error
        | DirectiveKind::Pragma
        | DirectiveKind::Null
        | DirectiveKind::Unknown => Nesting::Flat,
    }
}
