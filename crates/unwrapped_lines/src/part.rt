//! Places of a view: its comments, and where lines begin.

use item_classes::Part;
use line_tokens::LineKind;

/// A comment of a view.
#[derive(Clone, Copy, Drop)]
pub struct ViewComment {
    /// Its place.
    pub place: u32,
    /// Which of the three kinds it is.
    pub part: Part,
}

/// The inner comments directly before a place: none, or they begin a line, or they belong to the line before.
#[derive(Clone, Copy, PartialEq, Eq)]
pub enum Run {
    /// There is none.
    Apart,
    /// They begin a line.
    Begun,
    /// They belong to the line before them.
    Joined,
}

/// How many tokens were passed and lines begun.
#[derive(Clone, Copy, Drop)]
pub struct Marks {
    /// The tokens that were passed.
    pub seen: usize,
    /// The lines that have begun.
    pub begun: usize,
    /// The inner comments before the place.
    pub run: Run,
}

/// The first place of a line.
#[derive(Clone, Copy, Drop)]
pub struct Begin {
    /// The place.
    pub first: u32,
    /// The line's level.
    pub level: u32,
    /// What the line is.
    pub kind: LineKind,
}
