//! Lines of tokens that are no comments.

use line_tokens::LineKind;

/// A line of tokens that are no comments, as contracts see it.
#[derive(Clone, Copy, Drop)]
pub struct Line {
    /// Its first token.
    pub first: u32,
    /// The first token behind it.
    pub end: u32,
    /// Its level.
    pub level: u32,
    /// What it is.
    pub kind: LineKind,
    /// The level of a comment on lines of its own before it.
    pub list_level: u32,
}
