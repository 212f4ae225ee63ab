//! The lines of tokens that are no comments, statement by statement.
//!
//! [`tree_lines`] cuts tokens into lines with levels and kinds, and [`end_level`] tells the level behind the last of
//! them. Both look for the colon of a `case` in what [`case_colons`] keeps, and [`Braces`] tell them which braces begin
//! a line. Which items of a view are such tokens, and where its comments go, is told above this crate.
#![tactic(auto)]

mod braces;
mod colons;
mod ending;
mod form;
mod forms;
mod line;
mod lines;
mod lookups;
mod open;
mod scans;
mod simple;
mod token;
mod tree;

pub use braces::{Braces, braces_of};
pub use colons::case_colons;
pub use ending::end_level;
pub use line::Line;
pub use line_tokens::NoMemory;
pub use lines::Lines;
pub use token::{CodeToken, CodeTokens, Places};
pub use tree::tree_lines;
