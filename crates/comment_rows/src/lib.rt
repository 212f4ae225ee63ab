//! Where the trailing comments of a view stand.
//!
//! The layout of lines leaves open the gap before a trailing comment that stays on its row. Once all lines of a view
//! are laid out, [`place_comments`] reads the rows that end in comments off the plan, has [`align`] give those that
//! follow one another their common column, and decides these gaps, as `docs/PROFILE.md` says under "Trailing comments".
#![tactic(auto)]

mod comments;
mod place;
mod rows;
mod trailing;

pub use comments::{Comment, place_comments};
pub use place::{TrailRow, align};
