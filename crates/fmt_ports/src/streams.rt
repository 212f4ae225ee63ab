//! Texts that are written to a sink and needn't be in memory.
//!
//! A [`Stream`] writes itself in many small pieces. [`write_in_pieces`] collects these, so that the sink behind sees
//! few calls; [`is_same`] compares the text with bytes and ends at the first difference; [`bytes_of`] makes it in
//! memory.

mod pieces;
mod room;
mod same;
mod stream;

pub use pieces::write_in_pieces;
pub use room::PIECE;
pub use stream::{Stream, bytes_of, is_same};
