//! What the next item of a part tells.

ghost use Rattle.std.specs.Prelude.{◌≡◌, ◌<◌, length};
ghost use Rattle.part_walk.specs.declared.walk.Around.TheVariants.{Outside, Body};
ghost use Rattle.part_walk.specs.Steps.{opens_group, read_so, StaysWhereItEnds};
ghost use Rattle.part_walk.specs.Walk.{reading};

use crate::between::{follows_between, pass_between};
use crate::classes::is_lost;
use crate::walk::{Around, Outcome, Walk, asked_at};
use line_tokens::TokenId;
use token_arena::TokenArena;
use token_classes::TokenClass;

/// What the next item tells outside brackets.
#[inline(always)]
fn read_outside(
    arena: &TokenArena<'_, '_>,
    walk: &mut Walk,
    id: TokenId,
    class: TokenClass,
) -> Outcome
    requires item { id.0 < length arena.now.tokens }
    requires small { id.0 < 4294967295 }
    requires room { walk.old.place < 4294967295 }
    ensures read { read_so result walk.new ≡ reading arena.now walk.old Outside id.0 class }
    ensures stays { StaysWhereItEnds result walk.old walk.new }
{
    // Most items outside brackets are comments, and most of these stand behind others.
    if follows_between(walk, class) {
        pass_between(arena, walk, id, class);
        return Outcome::GoesOn;
    }
    let asked = asked_at(arena, walk, id, class);
    if let Some(count) = asked {
        if class.is_word() {
            return Outcome::EndsOutside(count);
        }
    }
    if is_lost(class) {
        return Outcome::Never;
    }
    walk.pass_outside(id, class, asked);
    Outcome::GoesOn
}

/// What the next item of a body tells.
#[inline(never)]
fn read_in_body(
    arena: &TokenArena<'_, '_>,
    walk: &mut Walk,
    id: TokenId,
    class: TokenClass,
) -> Outcome
    requires item { id.0 < length arena.now.tokens }
    requires small { id.0 < 4294967295 }
    requires room { walk.old.place < 4294967295 }
    ensures read { read_so result walk.new ≡ reading arena.now walk.old Body id.0 class }
    ensures stays { StaysWhereItEnds result walk.old walk.new }
{
    if class.is_comment() {
        walk.pass_comment(arena, id);
        return Outcome::GoesOn;
    }
    if let Some(count) = walk.end_in_body(id, class) {
        return Outcome::EndsInBody(count);
    }
    walk.pass_in_body(id, class);
    Outcome::GoesOn
}

/// Whether a token is a `(` or `[`.
#[inline(always)]
pub fn opens_group(class: TokenClass) -> bool
    ensures { result ≡ opens_group class }
{
    matches!(class, TokenClass::OpenRound | TokenClass::OpenSquare)
}

/// What the next item tells. Where the part goes on behind it, so does the way; else it stays.
#[inline(always)]
pub fn read(
    arena: &TokenArena<'_, '_>,
    walk: &mut Walk,
    around: Around,
    id: TokenId,
    class: TokenClass,
) -> Outcome
    requires item { id.0 < length arena.now.tokens }
    requires small { id.0 < 4294967295 }
    requires room { walk.old.place < 4294967295 }
    ensures read { read_so result walk.new ≡ reading arena.now walk.old around id.0 class }
    ensures stays { StaysWhereItEnds result walk.old walk.new }
{
    match around {
        Around::Outside => read_outside(arena, walk, id, class),
        Around::Body => {
            if opens_group(class) && !walk.may_end(Around::Body, id) {
                walk.pass_opener(id, class);
                return Outcome::GoesOn;
            }
            read_in_body(arena, walk, id, class)
        }
        Around::Group => {
            walk.pass_in_group(id, class);
            Outcome::GoesOn
        }
    }
}
