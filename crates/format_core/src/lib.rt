//! The formatted text of a text.
//!
//! [`format`] reads a text into an arena and decides its gaps: first those that no run decides ([`decide_early`]), and
//! then run by run, so that every branch of `#if` is laid out. Each line is broken at its least breaking, or it is
//! reported and keeps the bytes inside it. [`format`] takes all the memory that is needed, so that
//! [`Formatted::write`] takes none. The text that it writes has the same items as its input.
#![tactic(auto)]

mod fault;
mod formatted;
mod laid_text;
mod laws;
mod line_ends;
mod runs;

pub use fault::FormatFault;
pub use formatted::{Formatted, Job, format};
pub use laid_text::LaidText;
pub use laws::{
    early_decisions_stay, every_gap_is_decided, kept_gaps_stay, open_texts_have_no_layout,
    planned_texts_are_twins,
};
pub use off_regions::Ranges;
pub use run_layout::{Counts, Report};
