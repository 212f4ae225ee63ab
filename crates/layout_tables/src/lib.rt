//! The tables of the layout: the blanks between two tokens of a row, what a break costs, and where a line starts.
//!
//! [`spaces_before`] and [`gap_rule`] decide by the roles of the two tokens, [`start_column`] and [`empty_lines`] by
//! the line and the tokens where it begins. [`keeps_apart`] carries the law that blanks keep apart what may not touch.
#![tactic(auto)]

mod indents;
mod penalties;
mod spacing;

pub use indents::{empty_lines, start_column};
pub use penalties::{GapRule, gap_rule, must_break};
pub use spacing::{RowBlanks, keeps_apart, spaces_before};
