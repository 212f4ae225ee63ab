//! Whether a `#` comes behind an item in its line, comments aside.

ghost use Rattle.std.specs.Prelude.{◌≡◌, ◌<◌, length, drop, IsTrue};
ghost use Rattle.c_grammar.specs.Fitting.{is_comment};
ghost use Rattle.token_arena.specs.Directives.{is_hash_token};
ghost use Rattle.token_arena.specs.Entries.{told_by};
ghost use Rattle.replacements.specs.Stances.{hash_comes, may_begin_hash, IsAt, IsKnown, SpellsNoHash};

use c_chars::Dialect;
use c_grammar::ItemKind;
use line_tokens::TokenId;
use token_arena::{Token, TokenArena, is_spelled};

fn is_comment(kind: ItemKind) -> bool
    ensures { result ≡ is_comment kind }
{
    matches!(kind, ItemKind::BlockComment | ItemKind::LineComment)
}

/// Whether a `#` may be spelled from this byte on.
#[inline(always)]
fn may_begin_hash(byte: u8) -> bool
    ensures { result ≡ may_begin_hash byte }
{
    byte == b'#' || (byte == b'%' || (byte == b'?' || (byte == b'\r' || byte == b'\\')))
}

/// Whether the first byte tells that bytes spell no `#`. It does for most items, and then no other byte is looked at.
#[inline(always)]
pub(crate) fn begins_no_hash(raw: &[u8]) -> bool
    ensures { IsTrue result → SpellsNoHash raw.now }
{
    match raw {
        [first, ..] => !may_begin_hash(*first),
        [] => false,
    }
}

/// Whether a token is a `#`, or the digraph that spells it.
#[inline(always)]
fn is_hash(dialect: Dialect, token: &Token<'_>) -> bool
    ensures { result ≡ is_hash_token dialect (told_by token.now) }
{
    if !matches!(token.item.kind, ItemKind::Punct) {
        return false;
    }
    if begins_no_hash(token.item.raw) {
        return false;
    }
    is_spelled(dialect, token.item.raw, b"#") || is_spelled(dialect, token.item.raw, b"%:")
}

/// Whether a `#` comes behind comments; known for the items before `end`.
#[derive(Clone, Copy)]
pub struct HashRun {
    /// The first item for which it isn't known.
    pub end: u32,
    /// Whether a `#` comes.
    pub hash: bool,
}

impl HashRun {
    /// Nothing is known.
    pub fn none() -> HashRun
        ensures { result.end ≡ 0 }
    {
        HashRun {
            end: 0,
            hash: false,
        }
    }
}

/// Whether a `#` comes from this item on in its line, comments aside; known for all comments up to it.
fn run_of(arena: &TokenArena<'_, '_>, place: u32) -> HashRun
    requires here { place < length arena.now.tokens }
    ensures known { IsKnown arena.now.dialect arena.now.tokens place result.end result.hash }
    ensures later { place < result.end }
{
    let count = arena.len();
    for at in place..count {
        let token = arena.get(TokenId(at));
        if token.gap.began {
            return HashRun {
                end: at + 1,
                hash: false,
            };
        }
        if !is_comment(token.item.kind) {
            return HashRun {
                end: at + 1,
                hash: is_hash(arena.dialect(), &token),
            };
        }
    }
    HashRun {
        end: count,
        hash: false,
    }
}

/// Whether a `#` comes from this token on in its line, comments aside.
#[inline(always)]
pub fn hash_comes(
    arena: &TokenArena<'_, '_>,
    place: u32,
    token: &Token<'_>,
    run: &mut HashRun,
) -> bool
    requires here { IsAt arena.now.tokens place (told_by token.now) }
    requires known { IsKnown arena.now.dialect arena.now.tokens place run.old.end run.old.hash }
    ensures known { IsKnown arena.now.dialect arena.now.tokens place run.new.end run.new.hash }
    ensures is { result ≡ hash_comes arena.now.dialect (drop place arena.now.tokens) }
{
    if token.gap.began {
        return false;
    }
    if !is_comment(token.item.kind) {
        return is_hash(arena.dialect(), token);
    }
    if place >= run.end {
        *run = run_of(arena, place);
    }
    run.hash
}
