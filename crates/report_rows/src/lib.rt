//! The rows that are told of an input: its reports and its summary.
//!
//! [`tell_reports`] writes a row for each line that is reported, and [`tell_summary`] one of what came of all lines.
//! They look at what runs note of their lines, and not at how a text is formatted, so they stand beside the formatter.
//! Want of memory is no error here: a row is written in several pieces then.
#![tactic(auto)]

mod reports;
mod summary;

pub use reports::tell_reports;
pub use summary::tell_summary;
