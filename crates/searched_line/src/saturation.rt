//! What can come of the columns of a line.

/// Whether sums of columns in a line can stop at the largest number.
#[derive(Clone, Copy)]
pub enum Saturation {
    /// No column of any layout comes to it.
    Never,
    /// One may.
    Possible,
}
