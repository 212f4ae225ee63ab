//! What the items before a place make of its gap.

ghost use Rattle.std.specs.Prelude.{◌≡◌, ◌<◌, ◌≤◌, ◌+◌, false, length, slice_get, IsTrue};
ghost use Rattle.c_chars.specs.declared.TheConstants.{LIMIT};
ghost use Rattle.item_classes.specs.Viewed.{item_classes};
ghost use Rattle.early_gaps.specs.Dead.{IsTreeOf, is_dead_item};
ghost use Rattle.early_gaps.specs.Joined.{is_backslash, is_joined};
ghost use Rattle.early_gaps.specs.Kept.{IsBehind, IsPlain, Passes};

use branch_runs::CondTree;
use c_grammar::ItemKind;
use line_tokens::TokenId;
use replacements::has_new_line_at;
use token_arena::TokenArena;
use token_classes::TokenClass;

/// What the item before a place is. At the first place it is nothing of this.
#[derive(Clone, Copy)]
pub(crate) struct Behind {
    /// It stands in the group of a literal `#if 0`.
    pub dead: bool,
    /// Its row begins behind a backslash, blanks and a new-line.
    pub joined: bool,
    /// It is a backslash alone.
    pub backslash: bool,
}

/// Whether there is an item with this number, and it stands in the group of a literal `#if 0`.
#[inline(always)]
fn is_dead_item(arena: &TokenArena<'_, '_>, tree: &CondTree<'_>, id: u32) -> bool
    requires { IsTreeOf arena.now tree.now }
    ensures { result ≡ is_dead_item arena.now id }
{
    id < arena.len() && tree.is_dead(TokenId(id))
}

/// Whether there is an item with this number, and it is a backslash alone.
#[inline(always)]
fn is_backslash(arena: &TokenArena<'_, '_>, id: u32) -> bool
    ensures { result ≡ is_backslash (slice_get arena.now.tokens id) }
{
    if id >= arena.len() {
        return false;
    }
    let token = arena.get(TokenId(id));
    matches!(token.item.kind, ItemKind::Other) && token.back
}

/// Whether the row of what stands behind the gap at a place begins behind a backslash, blanks and a new-line.
#[inline(always)]
fn is_joined(arena: &TokenArena<'_, '_>, behind: Behind, place: u32) -> bool
    requires fits { length arena.now.text ≤ LIMIT }
    requires behind { IsBehind arena.now place behind }
    requires within { place ≤ length arena.now.tokens }
    ensures { result ≡ is_joined arena.now place }
{
    // Most rows stand behind no backslash, and then the gap needs no look.
    if !behind.backslash && !behind.joined {
        return false;
    }
    if has_new_line_at(arena, place) {
        behind.backslash
    } else {
        behind.joined
    }
}

/// Whether the item before a place is nothing of this, as most are.
#[inline(always)]
pub(crate) fn is_plain(behind: Behind) -> bool
    ensures { IsTrue result → IsPlain behind }
{
    match behind {
        Behind {
            dead: false,
            joined: false,
            backslash: false,
        } => true,
        _ => false,
    }
}

/// Whether an item may be a backslash alone, as its class tells.
#[inline(always)]
pub(crate) fn may_be_backslash(arena: &TokenArena<'_, '_>, classes: &[TokenClass], id: u32) -> bool
    requires all { classes.now ≡ item_classes arena.now }
    requires within { id < length arena.now.tokens }
    ensures { result ≡ false → is_backslash (slice_get arena.now.tokens id) ≡ false }
{
    matches!(classes[id as usize], TokenClass::Other)
}

/// Whether an item stands in the group of a literal `#if 0`, or one before it does.
#[inline(always)]
pub(crate) fn dead_or(
    arena: &TokenArena<'_, '_>,
    tree: &CondTree<'_>,
    place: u32,
    before: bool,
) -> bool
    requires tree { IsTreeOf arena.now tree.now }
    requires within { place < length arena.now.tokens }
    ensures before { result ≡ false → before ≡ false }
    ensures dead { result ≡ false → is_dead_item arena.now place ≡ false }
{
    let dead = tree.is_dead(TokenId(place));
    before | dead
}

/// Whether no gap stays at a place behind a plain item, and the item there is plain too, as its class tells; its gap is
/// frozen or not.
#[inline(always)]
pub(crate) fn passes(
    arena: &TokenArena<'_, '_>,
    tree: &CondTree<'_>,
    classes: &[TokenClass],
    frozen: bool,
    place: u32,
) -> bool
    requires tree { IsTreeOf arena.now tree.now }
    requires all { classes.now ≡ item_classes arena.now }
    requires within { place < length arena.now.tokens }
    ensures { IsTrue result → Passes arena.now frozen place }
{
    // Both are looked up before the first branch: a loop of such looks finds out once where they are kept.
    let dead = tree.is_dead(TokenId(place));
    let backslash = may_be_backslash(arena, classes, place);
    !(frozen | dead | backslash)
}

/// Nothing stands before the first place.
pub(crate) fn nothing_before(arena: &TokenArena<'_, '_>) -> Behind
    ensures { IsBehind arena.now 0 result }
{
    Behind {
        dead: false,
        joined: false,
        backslash: false,
    }
}

/// What the item at a place is, where this is the one before it.
#[inline(always)]
pub(crate) fn next_behind(
    arena: &TokenArena<'_, '_>,
    tree: &CondTree<'_>,
    behind: Behind,
    place: u32,
) -> Behind
    requires fits { length arena.now.text ≤ LIMIT }
    requires tree { IsTreeOf arena.now tree.now }
    requires behind { IsBehind arena.now place behind }
    requires within { place ≤ length arena.now.tokens }
    ensures { IsBehind arena.now (place + 1) result }
{
    let dead = is_dead_item(arena, tree, place);
    let joined = is_joined(arena, behind, place);
    let backslash = is_backslash(arena, place);
    Behind {
        dead,
        joined,
        backslash,
    }
}
