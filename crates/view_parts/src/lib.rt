//! The parts of a view, which are laid out one after another: each ends behind a declaration of the file, or behind a
//! statement or member of a body.
//!
//! [`part_end`] finds where one ends, as `docs/PROFILE.md` says under "Parts". What is laid out in a part depends on
//! its own items alone, so tables are made for one part at a time, and a part whose gaps are decided is passed over.
#![tactic(auto)]

mod body;
mod ends;
mod groups;
mod joined;
mod known;
mod lanes;
mod notes;
mod row;

pub use body::laid_view;
pub use ends::{PartSource, PartStart, part_end};
pub use joined::{join_rows, known_parts_end};
pub use known::{KnownEnd, KnownRow, KnownSpan, KnownSpans, PartsEnd, known_part_end};
pub use line_tokens::NoMemory;
pub use notes::KnownEnds;
pub use row::{near_segment, row_behind};
