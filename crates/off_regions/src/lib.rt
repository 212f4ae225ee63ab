//! Which gaps stay as they are, since formatting is off there, or nobody asked for their lines.
//!
//! [`Ranges`] are the lines that are asked for. [`frozen`] marks the gaps of a text that comments switch off, and those
//! before items that begin on no line that is asked for.
#![tactic(auto)]

mod asked;
mod fault;
mod laws;
mod marks;
mod parse;
mod range;
mod switch;

pub use fault::RangeFault;
pub use laws::{ranges_stay, regions_stay};
pub use line_tokens::NoMemory;
pub use marks::{frozen, stays_nowhere};
pub use range::{LineRange, MOST_RANGES, Ranges};
