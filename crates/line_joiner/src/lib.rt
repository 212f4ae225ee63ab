//! Short lines that become one.
//!
//! [`join_of_classes`] takes the lines of a view and joins those that stand in one row of a table, `docs/PROFILE.md`,
//! "Joined lines", and that fit there. [`are_alone`] tells of most views that none do.
#![tactic(auto)]

mod facts;
mod fits;
mod heads;
mod joined;
mod keys;
mod kinds;
mod merging;
mod table;

pub use joined::{are_alone, join_of_classes};
