//! Comments between the declarations of a file.

ghost use Rattle.std.specs.Prelude.{◌≡◌, ◌<◌, length};
ghost use Rattle.part_walk.specs.Steps.{comment_passed, follows_between, still_asked};

use crate::walk::{Before, Begun, PartToken, Walk, item_began};
use line_tokens::TokenId;
use token_arena::TokenArena;
use token_classes::TokenClass;

/// Whether the next item, which stands outside brackets, is a comment behind the end of a declaration and comments, or
/// behind these alone.
#[inline(always)]
pub(crate) fn follows_between(walk: &Walk, class: TokenClass) -> bool
    ensures { result ≡ follows_between walk.now class }
{
    class.is_comment() && matches!(walk.declaration.before, Before::Between)
}

/// Behind how many items the part is asked to end at such a comment.
#[inline(always)]
fn still_asked(arena: &TokenArena<'_, '_>, walk: &Walk, id: TokenId) -> Option<u32>
    requires { id.0 < length arena.now.tokens }
    ensures { result ≡ still_asked arena.now walk.now id.0 }
{
    match walk.asked {
        Some(count) if item_began(arena, id) => Some(count),
        _ => None,
    }
}

/// Passes such a comment.
#[inline(always)]
pub(crate) fn pass_between(
    arena: &TokenArena<'_, '_>,
    walk: &mut Walk,
    id: TokenId,
    class: TokenClass,
)
    requires item { id.0 < length arena.now.tokens }
    requires small { id.0 < 4294967295 }
    requires room { walk.old.place < 4294967295 }
    ensures { walk.new ≡ comment_passed walk.old id.0 class (still_asked arena.now walk.old id.0) }
{
    let asked = still_asked(arena, walk, id);
    if walk.begins_outside(id) {
        walk.begun = Begun::With(PartToken {
            id: id.0,
            place: walk.place,
        });
    }
    walk.declaration.commented = false;
    walk.asked = asked;
    walk.place += 1;
    walk.behind = id.0 + 1;
    walk.last.structure = false;
    walk.last.class = class;
    walk.last.id = id.0;
}
