//! A line as it is read.

use crate::open::{Head, Open, Start};
use line_tokens::LineKind;

/// What a line leaves open.
#[derive(Clone, Copy, Drop)]
pub enum Next {
    /// Its statement ends.
    Ends,
    /// Its statement goes on with a line of its own.
    Goes(Start),
    /// It is a header that waits for its one statement.
    Waits(Head),
    /// A block follows.
    Opens {
        /// Its `{` is a line of its own.
        wrapped: bool,
        /// The block.
        block: Open,
    },
}

/// A line: where it ends, its block's `{` aside, and what it leaves open.
#[derive(Clone, Copy, Drop)]
pub struct Form {
    /// What it is.
    pub kind: LineKind,
    /// Its level.
    pub level: u32,
    /// The first place behind it.
    pub end: usize,
    /// What it leaves open.
    pub next: Next,
}

/// Where a statement ends, or the `{` of its block stands.
#[derive(Clone, Copy, Drop)]
pub struct Stop {
    /// The first place behind the statement, or the place of the `{`.
    pub at: usize,
    /// It is the `{` of a block.
    pub opens: bool,
    /// An `=` or `return` stood before it outside brackets.
    pub assigned: bool,
}
