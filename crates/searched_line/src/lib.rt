//! A line that is searched for its least breaking.
//!
//! A [`SearchedLine`] is a line with its style and what is decided of its gaps. It asks the tables of breaks and of
//! spaces once for each gap, and answers which choice is admissible after a layout and where it leads. It knows besides
//! what the breakings of the line cost at least beyond a layout, and whether its columns can come to the largest
//! number. The lemmas on these stand beside it; it knows nothing of a search.
#![tactic(auto)]

mod ahead;
mod line;
mod saturation;

pub use line::{SearchedLine, decision_of, token_at};
pub use line_state::NoMemory;
pub use saturation::Saturation;
