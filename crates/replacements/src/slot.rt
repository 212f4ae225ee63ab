//! What is kept of a decision.

use crate::Decision;

/// Whether a decision was taken.
#[derive(Clone, Copy, Debug, PartialEq, Eq)]
pub enum Decided {
    /// It is the gap's first, and stands.
    New,
    /// The gap was decided before, and keeps what was decided then.
    Kept,
}

/// A decision for a gap, and where it ends.
#[derive(Clone, Copy, Debug, PartialEq, Eq)]
pub struct Slot {
    /// What stands in the gap.
    pub decision: Decision,
    /// The column at which the item behind the gap starts, from 0.
    pub end: u32,
}
