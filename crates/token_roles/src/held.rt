//! Tokens that stay where they stood.

ghost use Rattle.std.specs.Prelude.{◌≡◌, ◌<◌, drop, length};
ghost use Rattle.token_roles.specs.Held.{is_held, is_inner, TellsHeld};

use crate::mark::Mark;
use crate::sets::is_hash;
use line_tokens::{LineTok, Role};

/// An inner comment.
#[inline(always)]
pub fn is_inner(role: Role) -> bool
    ensures { result ≡ is_inner role }
{
    matches!(role, Role::Inner)
}

/// Whether the first of these tokens stays where it stood. It looks up to the first that is no inner comment.
pub(crate) fn is_held(marks: &[Mark]) -> bool
    ensures { result ≡ is_held marks.now }
{
    for mark in marks {
        if is_hash(mark.seen.class) {
            return true;
        }
        if !is_inner(mark.seen.role) {
            return false;
        }
    }
    false
}

/// Whether the inner comment behind these tokens stays where it stood. One behind another does if that does.
#[inline(never)]
pub fn holds_inner(marks: &[Mark], tokens: &[LineTok]) -> bool
    requires within { length tokens.now < length marks.now }
    requires told { TellsHeld marks.now tokens.now }
    ensures { result ≡ is_held (drop (length tokens.now) marks.now) }
{
    let place = tokens.len();
    if place > 0 {
        let before = marks[place - 1].seen;
        if is_inner(before.role) && !is_hash(before.class) {
            return tokens[place - 1].held;
        }
    }
    is_held(&marks[place..])
}
