//! Items by their numbers.

ghost use Rattle.std.specs.Prelude.{◌≡◌, ◌<◌, ◌^◌, length};
ghost use Rattle.token_arena.specs.Entries.{told_by};
ghost use Rattle.item_classes.specs.Items.{item_at};

use line_tokens::TokenId;
use token_arena::{Token, TokenArena};

/// The item with this number, whose rows can be read.
#[inline(always)]
pub(crate) fn item<'s>(arena: &TokenArena<'_, 's>, id: u32) -> Token<'s>
    requires { id < length arena.now.tokens }
    ensures is { told_by result ≡ item_at arena.now id }
    ensures fits { length result.item.raw.now < 2 ^ 31 }
{
    let count = arena.len();
    prove!(id < count);
    arena.get(TokenId(id))
}
