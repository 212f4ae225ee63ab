//! The bytes of a decided gap.
//!
//! A decision says what stands between two items. This module writes it to a sink; it never looks at
//! the items.

mod short;
mod white;

pub(crate) use short::{LinesPiece, lines_front};
pub use white::write_gap;

/// What was decided for a gap.
#[derive(Clone, Copy, Debug, PartialEq, Eq)]
pub enum Decision {
    /// The input's bytes stay.
    Old,
    /// So many blanks.
    Spaces(u32),
    /// So many line ends, and then indentation up to the column at which the next item starts.
    Lines {
        /// How many line ends.
        count: u32,
        /// The column of the next item, from 0.
        column: u32,
        /// The level of the line that begins there, from 0.
        level: u32,
    },
    /// A backslash at the end of a line of a directive, and then the next line's indentation.
    Splice {
        /// How many blanks stand before the backslash.
        pad: u32,
        /// The column of the next item, from 0.
        column: u32,
    },
}
