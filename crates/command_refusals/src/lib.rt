//! Refusals of the command, and the style that its words choose.
//!
//! A refusal has a status and a row, whoever finds it. The style is chosen before any input is read. None of this knows
//! how a text is formatted, so the top call stands on it and on the formatter alike. Whoever tells something writes its
//! row by `write_number` and `write_two`.
#![tactic(auto)]

mod in_force;
mod refusal;
mod rows;
mod words;

pub use in_force::style_in_force;
pub use refusal::{GENERATED, Refusal, STANDARD_INPUT, status_of, tell};
pub use rows::{write_number, write_two};
pub use words::refusal_of;
