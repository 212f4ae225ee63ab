//! What the roles of two tokens of a row tell of the gap between them.

ghost use Rattle.std.specs.Prelude.{◌≡◌, ◌||◌, ◌≤◌, IfSome};
ghost use Rattle.line_tokens.specs.Roles.{is_own, is_trailing};
ghost use Rattle.layout_tables.specs.Breaks.{ends_its_row};
ghost use Rattle.layout_tables.specs.Told.{group_before, group_behind};

use line_tokens::{ItemKind, Role};

/// Whether a row ends behind an item of this kind, or since the next token belongs to a list that ends with a comma.
#[inline(always)]
pub(crate) fn ends_row(left: ItemKind, is_in_trailing_list: bool) -> bool
    ensures { result ≡ (is_in_trailing_list || ends_its_row left) }
{
    is_in_trailing_list | matches!(left, ItemKind::LineComment | ItemKind::StrayQuote)
}

/// A comment that begins its row or ends it.
#[inline(always)]
pub(crate) fn is_own_or_trailing(role: Role) -> bool
    ensures { result ≡ (is_own role || is_trailing role) }
{
    matches!(role, Role::Own | Role::Trailing)
}

/// The groups of rows of the table of blanks in which a role counts first.
#[derive(Clone, Copy)]
pub(crate) struct Groups {
    /// Behind a token with this role.
    pub behind: u32,
    /// Before one. That is 0 where the roles don't tell the blanks.
    pub before: u32,
}

/// The groups of a role. Both are told at once, since most tokens stand between two gaps.
#[inline(always)]
pub(crate) fn groups_of(role: Role) -> Groups
    ensures behind { result.behind ≡ group_behind role }
    ensures before { result.before ≡ group_before role }
    ensures few_behind { result.behind ≤ 9 }
    ensures few_before { result.before ≤ 9 }
{
    let (behind, before) = match role {
        Role::CtrlOpen => (1, 4),
        Role::CallOpen | Role::DeclOpen => (1, 5),
        Role::IndexOpen => (1, 6),
        Role::CastOpen | Role::GroupOpen | Role::DesigOpen => (1, 9),
        Role::ListOpen => (2, 9),
        Role::Inner | Role::Stray => (3, 0),
        Role::Member => (6, 6),
        Role::Unary | Role::Prefix | Role::DesigDot => (6, 9),
        Role::CastClose => (7, 1),
        Role::Pointer => (8, 0),
        Role::Trailing | Role::ListClose | Role::BlockClose | Role::AsmColon => (9, 0),
        Role::Comma
        | Role::Semi
        | Role::CtrlClose
        | Role::CallClose
        | Role::DeclClose
        | Role::GroupClose
        | Role::IndexClose
        | Role::DesigClose => (9, 1),
        Role::Postfix | Role::LabelColon => (9, 6),
        _ => (9, 9),
    };
    Groups { behind, before }
}
