//! What stays the same for all lines of a view.

use std::alloc::Global;
use style_table::Style;
use token_arena::{TokenArena, View};
use token_classes::TokenClass;
use view_tokens::ViewTokens;

/// A view, and what its lines are laid out by.
#[derive(Clone, Copy)]
pub struct ViewLayout<'v> {
    /// What the memory of a search is taken from.
    pub alloc: Global,
    /// How the lines are laid out.
    pub style: &'v Style,
    /// How many cells the search of a line may have.
    pub budget: u64,
    /// The items of the text.
    pub arena: &'v TokenArena<'v, 'v>,
    /// Those that the run sees.
    pub view: &'v View<'v>,
    /// The classes of the view's places.
    pub classes: &'v [TokenClass],
    /// The tokens of the view's places.
    pub tokens: &'v ViewTokens<'v>,
}
