//! What comes of a line.

/// What came of a line.
#[derive(Clone, Copy)]
pub enum Laid {
    /// It wasn't searched: each of its gaps was decided before, or there is no limit of columns.
    Unsearched,
    /// It is broken at its least breaking, which costs this much.
    Least {
        /// The cost, as the search tells it.
        cost: u64,
    },
    /// It has more cells than the budget, and is reported with this number of them.
    Over {
        /// A number above the budget, and not above the line's cells.
        cells: u64,
    },
}
