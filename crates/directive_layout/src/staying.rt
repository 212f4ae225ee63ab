//! Which gaps of a directive keep the input's bytes.

ghost use Rattle.std.specs.Prelude.{◌≡◌};
ghost use Rattle.token_arena.specs.Entries.{told_by};
ghost use Rattle.token_arena.specs.Sections.{sections_of};
ghost use Rattle.token_arena.specs.declared.directives.Section.TheVariants.{Dir};
ghost use Rattle.std.specs.List.{Contains};
ghost use Rattle.directive_layout.specs.Staying.{is_behind_name, is_body_gap, stays, is_definition, staying_in};

use crate::part::{HeadPart, opens_list};
use c_chars::Dialect;
use style_table::Style;
use token_arena::{Directive, DirectiveKind, Token, TokenArena, kept_after_name};

/// Which gaps of a directive keep the input's bytes.
#[derive(Clone, Copy, Debug, PartialEq, Eq)]
pub enum Staying {
    /// None.
    Nothing,
    /// Those behind its name.
    BehindName,
    /// The one before a macro's body, and those in it.
    Body,
}

/// Whether it is the name of a directive or an item behind it.
#[inline(always)]
fn is_behind_name(part: HeadPart) -> bool
    ensures { result ≡ is_behind_name part }
{
    match part {
        HeadPart::Before => false,
        HeadPart::Hash => false,
        HeadPart::BeforeName => false,
        HeadPart::Name => true,
        HeadPart::BeforeMacro => false,
        HeadPart::Nameless => false,
        HeadPart::Macro => false,
        HeadPart::Opening => false,
        HeadPart::Parameter => false,
        HeadPart::Closing => false,
        HeadPart::Operand => true,
    }
}

/// Whether the gap before an item, behind one of a definition that is this part, is the one before a body or stands in
/// it.
#[inline(always)]
fn is_body_gap(dialect: Dialect, part: HeadPart, token: &Token<'_>) -> bool
    ensures { result ≡ is_body_gap dialect part (told_by token.now) }
{
    match part {
        HeadPart::Before => false,
        HeadPart::Hash => false,
        HeadPart::BeforeName => false,
        HeadPart::Name => false,
        HeadPart::BeforeMacro => false,
        HeadPart::Nameless => false,
        HeadPart::Macro => !opens_list(dialect, token),
        HeadPart::Opening => false,
        HeadPart::Parameter => false,
        HeadPart::Closing => true,
        HeadPart::Operand => true,
    }
}

/// Whether the gap before an item, behind one that is this part, keeps the input's bytes.
#[inline(always)]
pub(crate) fn stays(dialect: Dialect, staying: Staying, part: HeadPart, token: &Token<'_>) -> bool
    ensures { result ≡ stays dialect staying part (told_by token.now) }
{
    match staying {
        Staying::Nothing => false,
        Staying::BehindName => is_behind_name(part),
        Staying::Body => is_body_gap(dialect, part, token),
    }
}

/// Whether it defines a macro.
fn is_definition(kind: DirectiveKind) -> bool
    ensures { result ≡ is_definition kind }
{
    matches!(kind, DirectiveKind::Define)
}

/// Which gaps of a directive keep the input's bytes: those behind its name as [`kept_after_name`] tells it, and the
/// body of a macro where `SkipMacroDefinitionBody` says so.
pub fn staying_in(style: &Style, arena: &TokenArena<'_, '_>, dir: &Directive) -> Staying
    requires { Contains (sections_of arena.now) (Dir dir.now) }
    ensures { result ≡ staying_in style.now arena.now dir.now }
{
    if kept_after_name(arena, dir) {
        Staying::BehindName
    } else if style.skip_macro_definition_body && is_definition(dir.kind) {
        Staying::Body
    } else {
        Staying::Nothing
    }
}
