//! What a line end needs from the item before it.

ghost use Rattle.std.specs.Prelude.{◌≡◌, ◌==◌, ◌≤◌, length, IsTrue};
ghost use Rattle.replacements.specs.declared.guard.Guard.TheVariants.{Free};
ghost use Rattle.c_grammar.specs.Touch.{ends, takes_line};
ghost use Rattle.token_arena.specs.Entries.{told_by};
ghost use Rattle.replacements.specs.Guards.{guard_before, guard_for, guard_of, guard_text, guarded_ends};
ghost use Rattle.replacements.specs.Guards.{is_behind_backslash};

use crate::Decision;
use c_grammar::ItemKind;
use line_tokens::TokenId;
use token_arena::{Token, TokenArena};

/// What stands before a line end behind an item, so that the two don't read as something else.
#[derive(Clone, Copy, Debug, PartialEq, Eq)]
pub enum Guard {
    /// Nothing.
    Free,
    /// A blank: the item's last character is a backslash.
    Blank,
    /// A splice: the item's last character is a backslash, and it takes the rest of its line.
    Splice,
    /// Nothing, but the line end is `\r\n`: the item's last byte is `\r`.
    Return,
}

/// Whether an item takes the rest of its line.
fn takes_line(kind: ItemKind) -> bool
    ensures { result ≡ takes_line kind }
{
    matches!(kind, ItemKind::LineComment | ItemKind::StrayQuote)
}

/// Whether the last byte is `\r`.
#[inline(always)]
fn ends_in_return(raw: &[u8]) -> bool
    ensures { result ≡ ends (λ b. b == 13) raw.now }
{
    match raw {
        [] => false,
        [.., last] => *last == b'\r',
    }
}

/// What a line end behind an item needs.
#[inline(always)]
pub fn guard_of(token: &Token<'_>) -> Guard
    ensures { result ≡ guard_of (told_by token.now) }
{
    if token.back {
        if takes_line(token.item.kind) {
            Guard::Splice
        } else {
            Guard::Blank
        }
    } else if ends_in_return(token.item.raw) {
        Guard::Return
    } else {
        Guard::Free
    }
}

/// What a line end needs in the gap at a place, behind the item before it.
#[inline(always)]
pub(crate) fn guard_before(arena: &TokenArena<'_, '_>, place: u32) -> Guard
    requires { place ≤ length arena.now.tokens }
    ensures { result ≡ guard_before arena.now.tokens place }
{
    if place == 0 {
        return Guard::Free;
    }
    guard_of(&arena.get(TokenId(place - 1)))
}

/// Whether a line end needs nothing.
#[inline(always)]
pub(crate) fn is_free(guard: Guard) -> bool
    ensures { IsTrue result → guard ≡ Free }
{
    match guard {
        Guard::Free => true,
        Guard::Blank => false,
        Guard::Splice => false,
        Guard::Return => false,
    }
}

/// Whether the item before it ends in a backslash.
pub fn is_behind_backslash(guard: Guard) -> bool
    ensures { result ≡ is_behind_backslash guard }
{
    matches!(guard, Guard::Blank | Guard::Splice)
}

/// Whether line ends behind it are `\r\n`, where those of the text are or aren't.
#[inline(always)]
pub(crate) fn guarded_ends(crlf: bool, guard: Guard) -> bool
    ensures { result ≡ guarded_ends crlf guard }
{
    match guard {
        Guard::Free => crlf,
        Guard::Blank => crlf,
        Guard::Splice => crlf,
        Guard::Return => true,
    }
}

/// What stands before the line end.
#[inline(always)]
pub(crate) fn guard_text(crlf: bool, guard: Guard) -> &'static [u8]
    ensures { result.now ≡ guard_text crlf guard }
{
    match guard {
        Guard::Free => b"",
        Guard::Blank => b" ",
        Guard::Splice => { if crlf { b"\\\r\n" } else { b"\\\n" } }
        Guard::Return => b"",
    }
}

/// The guard that a decision needs: only line ends that are decided need one.
#[inline(always)]
pub(crate) fn guard_for(guard: Guard, decision: Decision) -> Guard
    ensures { result ≡ guard_for guard decision }
{
    match decision {
        Decision::Old => Guard::Free,
        Decision::Spaces(_) => Guard::Free,
        Decision::Lines { .. } => guard,
        Decision::Splice { .. } => Guard::Free,
    }
}
