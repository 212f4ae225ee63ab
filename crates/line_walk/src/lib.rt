//! Breakings of a line, walked along without a search.
//!
//! [`TokenStarts`] tells where each of a line's tokens starts by given choices, and [`least_breaks`] gives the choices
//! that break only where they have to, which any line has. Lines that are left as they are, or have no limit, need no
//! more.
#![tactic(auto)]

mod starts;
mod walk;

pub use line_state::NoMemory;
pub use starts::TokenStarts;
pub use walk::least_breaks;
