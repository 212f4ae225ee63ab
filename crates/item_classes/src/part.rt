//! What stands at a place of a view: a token, or a comment of one of three kinds.

ghost use Rattle.std.specs.Prelude.{◌≡◌, ◌<◌, length, true};
ghost use Rattle.token_classes.specs.Classes.{is_comment};
ghost use Rattle.item_classes.specs.Part.{line_ends_behind, part_of};

use line_tokens::TokenId;
use token_arena::TokenArena;
use token_classes::TokenClass;

/// What stands at a place of a view.
#[derive(Clone, Copy, Debug, PartialEq, Eq)]
pub enum Part {
    /// A token that is no comment.
    Token,
    /// A comment on lines of its own.
    Own,
    /// A comment that ends its line.
    Trailing,
    /// Any other comment.
    Inner,
}

/// Whether a new-line or the end of the file comes behind an item.
fn line_ends_behind(arena: &TokenArena<'_, '_>, id: u32) -> bool
    requires { id < length arena.now.tokens }
    ensures { result ≡ line_ends_behind arena.now id }
{
    let count = arena.len();
    count <= id + 1 || arena.get(TokenId(id + 1)).gap.began
}

/// Which of three kinds the comment with this number is. `started`: a token that is no comment stands before it in the
/// view. At the view's start every comment is on lines of its own, and so is one that began its line in the input.
pub fn comment_part(arena: &TokenArena<'_, '_>, id: u32, started: bool, class: TokenClass) -> Part
    requires item { id < length arena.now.tokens }
    requires comment { is_comment class ≡ true }
    ensures { result ≡ part_of arena.now id started class }
{
    if !started || arena.get(TokenId(id)).gap.began {
        return Part::Own;
    }
    if class.is_line_comment() || line_ends_behind(arena, id) {
        return Part::Trailing;
    }
    Part::Inner
}
