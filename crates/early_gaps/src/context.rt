//! What stays the same for all gaps of a text.

use std::alloc::Global;
use style_table::Style;
use token_arena::TokenArena;
use token_classes::TokenClass;

/// A text, and what its gaps are decided by.
#[derive(Clone, Copy)]
pub struct Context<'c> {
    /// What the memory of a run is taken from.
    pub alloc: Global,
    /// How it is formatted.
    pub style: &'c Style,
    /// How many cells the search of a line may have.
    pub budget: u64,
    /// Its items.
    pub arena: &'c TokenArena<'c, 'c>,
    /// The classes of all items.
    pub classes: &'c [TokenClass],
}
