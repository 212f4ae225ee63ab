//! An open conditional.

/// An open conditional (C11 6.10.1).
#[derive(Clone, Copy)]
pub struct Cond {
    /// Whether a group was taken.
    pub taken: bool,
    /// Whether the group that is read is taken.
    pub active: bool,
    /// Whether an `#else` was read.
    pub had_else: bool,
    /// Whether it stands in a skipped group.
    pub skipped: bool,
}
