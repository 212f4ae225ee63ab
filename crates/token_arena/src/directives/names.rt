//! What a directive is, by the items behind its `#`.

ghost use Rattle.std.specs.Prelude.{◌≡◌, ◌≤◌, ◌<◌, ◌+◌, ◌∷◌, [], length, MatchOption, if◌then◌else◌};
ghost use Rattle.std.specs.List.{slice_range};
ghost use Rattle.c_grammar.specs.Fitting.{is_comment};
ghost use Rattle.c_grammar.specs.Touch.{is_identifier};
ghost use Rattle.c_grammar.specs.Grammar.{is_same};
ghost use Rattle.c_grammar.specs.Rewritten.{read_alone};
ghost use Rattle.token_arena.specs.Entries.{told_by};
ghost use Rattle.token_arena.specs.declared.directives.DirectiveKind.TheVariants.{Unknown};
ghost use Rattle.token_arena.specs.Directives.{spelling, is_hash_token, is_opening, kind_named, kind_behind};
ghost use Rattle.token_arena.specs.Directives.{past_comments, opens_parameters, heads_function, defines_function};

use crate::directives::spelling::is_spelled;
use crate::{DirectiveKind, Token, TokenArena};
use c_chars::{Dialect, next_character};
use line_tokens::{ItemKind, TokenId};

/// Whether it is a comment.
pub(crate) fn is_comment(kind: ItemKind) -> bool
    ensures { result ≡ is_comment kind }
{
    matches!(kind, ItemKind::BlockComment | ItemKind::LineComment)
}

/// Whether the kind is [`ItemKind::Identifier`].
pub(crate) fn is_identifier(kind: ItemKind) -> bool
    ensures { result ≡ is_identifier kind }
{
    matches!(kind, ItemKind::Identifier)
}

/// Whether the item is a `#` or its digraph.
#[inline(always)]
pub(crate) fn is_hash(token: &Token<'_>, dialect: Dialect) -> bool
    ensures { result ≡ is_hash_token dialect (told_by token.now) }
{
    if !matches!(token.item.kind, ItemKind::Punct) {
        return false;
    }
    is_spelled(dialect, token.item.raw, b"#") || is_spelled(dialect, token.item.raw, b"%:")
}

/// Whether the item is a `(`.
fn is_opening(token: &Token<'_>, dialect: Dialect) -> bool
    ensures { result ≡ is_opening dialect (told_by token.now) }
{
    matches!(token.item.kind, ItemKind::Punct) && is_spelled(dialect, token.item.raw, b"(")
}

/// The item at a place, where one stands there before the end.
fn item_at<'s>(arena: &TokenArena<'_, 's>, at: u32, end: u32) -> Option<Token<'s>>
    requires { end ≤ length arena.now.tokens }
    ensures { MatchOption result
        (slice_range arena.now.tokens at end ≡ [])
        (λ token. slice_range arena.now.tokens at end ≡ told_by token ∷ slice_range arena.now.tokens (at + 1) end) }
{
    if at < end {
        Some(arena.get(TokenId(at)))
    } else {
        None
    }
}

/// The first item from a place up to an end that is no comment, with its place.
#[inline(always)]
pub(crate) fn first_code<'s>(
    arena: &TokenArena<'_, 's>,
    from: u32,
    end: u32,
) -> Option<(u32, Token<'s>)>
    requires { end ≤ length arena.now.tokens }
    ensures { MatchOption result (past_comments (slice_range arena.now.tokens from end) ≡ []) (λ found.
        (from ≤ found.0) × (found.0 < end)
        × (past_comments (slice_range arena.now.tokens from end)
        ≡ told_by found.1 ∷ slice_range arena.now.tokens (found.0 + 1) end)) }
{
    for at in from..end {
        let token = arena.get(TokenId(at));
        if !is_comment(token.item.kind) {
            return Some((at, token));
        }
    }
    None
}

/// The kind of the directive whose name begins with an `i`, by what is spelled behind that.
fn kind_behind_i(rest: &[u8], dialect: Dialect) -> DirectiveKind
    ensures { result ≡ kind_named (105 ∷ read_alone dialect rest.now) }
{
    if is_spelled(dialect, rest, b"f") {
        DirectiveKind::If
    } else if is_spelled(dialect, rest, b"fdef") {
        DirectiveKind::Ifdef
    } else if is_spelled(dialect, rest, b"fndef") {
        DirectiveKind::Ifndef
    } else if is_spelled(dialect, rest, b"nclude") {
        DirectiveKind::Include
    } else {
        DirectiveKind::Unknown
    }
}

/// The kind of the directive whose name begins with an `e`, by what is spelled behind that.
fn kind_behind_e(rest: &[u8], dialect: Dialect) -> DirectiveKind
    ensures { result ≡ kind_named (101 ∷ read_alone dialect rest.now) }
{
    if is_spelled(dialect, rest, b"lif") {
        DirectiveKind::Elif
    } else if is_spelled(dialect, rest, b"lse") {
        DirectiveKind::Else
    } else if is_spelled(dialect, rest, b"ndif") {
        DirectiveKind::Endif
    } else if is_spelled(dialect, rest, b"rror") {
        DirectiveKind::Error
    } else {
        DirectiveKind::Unknown
    }
}

/// The kind, where what is spelled behind the first character of its name makes it this one.
fn kind_if(rest: &[u8], dialect: Dialect, word: &[u8], kind: DirectiveKind) -> DirectiveKind
    ensures { result ≡ (if is_same (read_alone dialect rest.now) word.now then kind else Unknown) }
{
    if is_spelled(dialect, rest, word) {
        kind
    } else {
        DirectiveKind::Unknown
    }
}

/// The kind of the directive that has this name. Its first character leaves few names to compare with.
fn kind_named(name: &Token<'_>, dialect: Dialect) -> DirectiveKind
    ensures { result ≡ kind_named (spelling dialect (told_by name.now)) }
{
    let Some((first, rest)) = next_character(dialect, name.item.raw) else {
        return DirectiveKind::Unknown;
    };
    if first == b'i' {
        kind_behind_i(rest, dialect)
    } else if first == b'e' {
        kind_behind_e(rest, dialect)
    } else if first == b'd' {
        kind_if(rest, dialect, b"efine", DirectiveKind::Define)
    } else if first == b'u' {
        kind_if(rest, dialect, b"ndef", DirectiveKind::Undef)
    } else if first == b'l' {
        kind_if(rest, dialect, b"ine", DirectiveKind::Line)
    } else if first == b'p' {
        kind_if(rest, dialect, b"ragma", DirectiveKind::Pragma)
    } else {
        DirectiveKind::Unknown
    }
}

/// The kind of the directive that has these items behind its `#`.
pub(crate) fn kind_behind(arena: &TokenArena<'_, '_>, from: u32, end: u32) -> DirectiveKind
    requires { end ≤ length arena.now.tokens }
    ensures { result ≡ kind_behind arena.now.dialect (slice_range arena.now.tokens from end) }
{
    match first_code(arena, from, end) {
        Some((_, name)) => {
            if is_identifier(name.item.kind) {
                kind_named(&name, arena.dialect())
            } else {
                DirectiveKind::Unknown
            }
        }
        None => DirectiveKind::Null,
    }
}

/// Whether the item at a place is a `(` with no white space before it.
fn opens_parameters(arena: &TokenArena<'_, '_>, at: u32, end: u32) -> bool
    requires { end ≤ length arena.now.tokens }
    ensures { result ≡ opens_parameters arena.now.dialect (slice_range arena.now.tokens at end) }
{
    match item_at(arena, at, end) {
        Some(token) => !token.gap.white && is_opening(&token, arena.dialect()),
        None => false,
    }
}

/// Whether the first of these items that is no comment is the name of a function-like macro.
fn heads_function(arena: &TokenArena<'_, '_>, from: u32, end: u32) -> bool
    requires { end ≤ length arena.now.tokens }
    ensures { result ≡ heads_function arena.now.dialect (past_comments (slice_range arena.now.tokens from end)) }
{
    match first_code(arena, from, end) {
        Some((at, name)) => is_identifier(name.item.kind) && opens_parameters(arena, at + 1, end),
        None => false,
    }
}

/// Whether the directive that has these items behind its `#` defines a function-like macro.
pub(crate) fn defines_function(arena: &TokenArena<'_, '_>, from: u32, end: u32) -> bool
    requires { end ≤ length arena.now.tokens }
    ensures { result ≡ defines_function arena.now.dialect (slice_range arena.now.tokens from end) }
{
    match first_code(arena, from, end) {
        Some((at, name)) => {
            is_identifier(name.item.kind)
                && is_spelled(arena.dialect(), name.item.raw, b"define")
                && heads_function(arena, at + 1, end)
        }
        None => false,
    }
}
