//! Which gaps behind the name of a directive are kept as they are.

ghost use Rattle.std.specs.Prelude.{◌≡◌, ◌≤◌, ◌+◌, length};
ghost use Rattle.std.specs.List.{slice_range, list_any, Contains};
ghost use Rattle.token_arena.specs.Entries.{told_by};
ghost use Rattle.token_arena.specs.Sections.{sections_of};
ghost use Rattle.token_arena.specs.Keeping.{behind_of, operand, is_file_name, is_one_file_name, asks_whether_there};
ghost use Rattle.token_arena.specs.Keeping.{keeps_after_name};
ghost use Rattle.token_arena.specs.declared.directives.Section.TheVariants.{Dir};

use crate::directives::names::{first_code, is_identifier};
use crate::directives::spelling::begins_with;
use crate::{Directive, DirectiveKind, Token, TokenArena};
use c_chars::Dialect;
use line_tokens::{ItemKind, TokenId};

fn is_file_name(kind: ItemKind) -> bool
    ensures { result ≡ is_file_name kind }
{
    matches!(kind, ItemKind::HeaderName | ItemKind::StringLit)
}

/// Whether the operand behind a `#` and its name is one file name.
fn names_one_file(arena: &TokenArena<'_, '_>, from: u32, end: u32) -> bool
    requires { end ≤ length arena.now.tokens }
    ensures { result ≡ is_one_file_name (operand (slice_range arena.now.tokens from end)) }
{
    match first_code(arena, from, end) {
        Some((name, _)) => match first_code(arena, name + 1, end) {
            Some((file, token)) => match first_code(arena, file + 1, end) {
                Some(_) => false,
                None => is_file_name(token.item.kind),
            },
            None => false,
        },
        None => false,
    }
}

/// Whether the item is an identifier that begins with `__has_`.
fn asks_whether_there(token: &Token<'_>, dialect: Dialect) -> bool
    ensures { result ≡ asks_whether_there dialect (told_by token.now) }
{
    is_identifier(token.item.kind) && begins_with(dialect, token.item.raw, b"__has_")
}

/// Whether one of these items is an identifier that begins with `__has_`.
fn some_asks_whether_there(arena: &TokenArena<'_, '_>, from: u32, end: u32) -> bool
    requires { end ≤ length arena.now.tokens }
    ensures { result ≡ list_any (asks_whether_there arena.now.dialect) (slice_range arena.now.tokens from end) }
{
    for at in from..end {
        if asks_whether_there(&arena.get(TokenId(at)), arena.dialect()) {
            return true;
        }
    }
    false
}

/// Whether the gaps behind the name of a directive of this kind are kept, by the items behind its `#`.
fn keeps_after_name(arena: &TokenArena<'_, '_>, kind: DirectiveKind, from: u32, end: u32) -> bool
    requires { end ≤ length arena.now.tokens }
    ensures { result ≡ keeps_after_name arena.now.dialect kind (slice_range arena.now.tokens from end) }
{
    match kind {
        DirectiveKind::Include => !names_one_file(arena, from, end),
        DirectiveKind::Pragma
        | DirectiveKind::Error
        | DirectiveKind::Line
        | DirectiveKind::Unknown => true,
        DirectiveKind::If | DirectiveKind::Elif | DirectiveKind::Ifdef | DirectiveKind::Ifndef =>
            some_asks_whether_there(arena, from, end),
        DirectiveKind::Else
        | DirectiveKind::Endif
        | DirectiveKind::Define
        | DirectiveKind::Undef
        | DirectiveKind::Null => false,
    }
}

/// Whether the gaps behind the directive's name are kept as they are.
///
/// They are where the operand of an include isn't one header name or one string literal, in a pragma,
/// an error, a line and an unknown directive, and where a condition names an identifier that begins
/// with `__has_`.
pub fn kept_after_name(arena: &TokenArena<'_, '_>, directive: &Directive) -> bool
    requires { Contains (sections_of arena.now) (Dir directive.now) }
    ensures { result ≡ keeps_after_name arena.now.dialect directive.now.kind (behind_of arena.now directive.now) }
{
    let Directive {
        hash,
        end,
        kind,
        ..
    } = *directive;
    keeps_after_name(arena, kind, hash.0 + 1, end)
}
