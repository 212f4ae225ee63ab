//! Texts, their stores, and what their runs see. Where one can't be had the test ends.

ghost use Rattle.std.specs.Prelude.{◌≡◌, ◌<◌, All, length};
ghost use Rattle.branch_runs.specs.Cut.{end_of};

use branch_runs::CondTree;
use bumpalo::Bump;
use std::alloc::Global;
use std::process::Abort;
use token_arena::{Dialect, GapFacts, ItemKind, TokenArena, TokenId, View, build, sections};

/// A text of pieces, each so many times.
pub fn repeated(rt: &impl Abort, alloc: Global, pieces: &[(&[u8], usize)]) -> Vec<u8> {
    let mut text = Vec::new(alloc);
    for (piece, times) in pieces {
        for _turn in 0..*times {
            text.extend_from_slice(piece).expect(rt, "memory");
        }
    }
    text
}

/// The store of a text of C11.
pub fn store<'a, 's>(rt: &impl Abort, bump: &'a Bump, text: &'s [u8]) -> TokenArena<'a, 's> {
    build(bump, text, Dialect::C11).expect(rt, "a store")
}

/// The tree of a text's runs.
pub fn tree<'a>(rt: &impl Abort, bump: &'a Bump, arena: &TokenArena<'_, '_>) -> CondTree<'a>
    ensures { end_of 0 result ≡ length arena.now.tokens }
{
    let cut = sections(arena, bump).expect(rt, "sections");
    CondTree::build(arena, cut, bump).expect(rt, "a tree")
}

/// What a run sees.
pub fn view<'r>(rt: &impl Abort, run: &'r Bump, tree: &CondTree<'_>, number: u32) -> View<'r>
    ensures { All (λ id. id < end_of 0 tree.now) result }
{
    assert!(rt; number < tree.runs());
    tree.view(number, run).expect(rt, "a view")
}

/// The item at a place of a view.
pub fn item_at(rt: &impl Abort, view: &View<'_>, place: u32) -> TokenId {
    assert!(rt; place < view.len());
    view.at(place)
}

/// What is looked at of an item: its kind, its bytes, its offset, its gap and its line.
pub type Seen<'s> = (ItemKind, &'s [u8], u32, GapFacts, usize);

/// What a store has of an item.
pub fn seen<'s>(rt: &impl Abort, arena: &TokenArena<'_, 's>, id: TokenId) -> Seen<'s> {
    assert!(rt; id.0 < arena.len());
    let token = arena.get(id);
    let item = token.item;
    (item.kind, item.raw, item.start, token.gap, token.line())
}
