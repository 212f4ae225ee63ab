//! The unwrapped lines of a view: the cut of its items into lines, with the level and the kind of each.
#![tactic(auto)]

mod comments;
mod cutting;
mod lanes;
mod part;
mod viewed;

pub use cutting::lines_of_classes;
pub use line_tokens::NoMemory;
