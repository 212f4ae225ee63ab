//! What waits in the search for the least breaking of a line, in order.
//!
//! A [`Frontier`] keeps layouts in the order of what a whole breaking over them may cost at least, of how many tokens
//! they have and of their numbers: one that is the least beside a heap of the others. It knows nothing of lines.
#![tactic(auto)]

mod frontier;

pub use frontier::Frontier;
