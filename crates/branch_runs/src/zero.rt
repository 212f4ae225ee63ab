//! The literal `#if 0`.

ghost use Rattle.std.specs.Prelude.{◌≡◌, ◌<◌, ◌≤◌, ◌+◌, [], length, MatchOption};
ghost use Rattle.std.specs.List.{slice_range};
ghost use Rattle.c_grammar.specs.Fitting.{is_comment};
ghost use Rattle.token_arena.specs.Entries.{told_by};
ghost use Rattle.branch_runs.specs.Zero.{without_comments, is_zero, tests_zero, is_if_zero};
ghost use Rattle.branch_runs.specs.Operands.{IsFirst};

use line_tokens::{ItemKind, TokenId};
use token_arena::{Dialect, Directive, DirectiveKind, Token, TokenArena, is_spelled};

// Whether items of this kind are comments.
fn is_comment(kind: ItemKind) -> bool
    ensures { result ≡ is_comment kind }
{
    matches!(kind, ItemKind::BlockComment | ItemKind::LineComment)
}

// Whether an item is the Number `0`.
fn is_zero(dialect: Dialect, token: &Token<'_>) -> bool
    ensures { result ≡ is_zero dialect (told_by token.now) }
{
    matches!(token.item.kind, ItemKind::Number) && is_spelled(dialect, token.item.raw, b"0")
}

// The first item from a place on that is no comment, with its number; none where there is none up to the end.
fn first_token<'s>(arena: &TokenArena<'_, 's>, from: u32, end: u32) -> Option<(u32, Token<'s>)>
    requires { end ≤ length arena.now.tokens }
    ensures { MatchOption result
        (without_comments (slice_range arena.now.tokens from end) ≡ [])
        (λ r. IsFirst arena.now.tokens from end r.0 (told_by r.1)) }
{
    for at in from..end {
        let token = arena.get(TokenId(at));
        if !is_comment(token.item.kind) {
            return Some((at, token));
        }
    }
    None
}

// Whether the items from a place on, up to the end, are a name and the Number `0`, comments aside.
fn tests_zero(arena: &TokenArena<'_, '_>, from: u32, end: u32) -> bool
    requires { end ≤ length arena.now.tokens }
    ensures { result ≡ tests_zero arena.now.dialect (slice_range arena.now.tokens from end) }
{
    let Some((name, _)) = first_token(arena, from, end) else {
        return false;
    };
    let Some((operand, token)) = first_token(arena, name + 1, end) else {
        return false;
    };
    match first_token(arena, operand + 1, end) {
        Some(_) => false,
        None => is_zero(arena.dialect(), &token),
    }
}

/// Whether a directive is a literal `#if 0`.
pub(crate) fn is_if_zero(arena: &TokenArena<'_, '_>, directive: Directive) -> bool
    requires hash { directive.hash.0 < directive.end }
    requires within { directive.end ≤ length arena.now.tokens }
    ensures { result ≡ is_if_zero arena.now directive }
{
    matches!(directive.kind, DirectiveKind::If)
        && tests_zero(arena, directive.hash.0 + 1, directive.end)
}
