//! Which two items may stand side by side, and that taking the white space between them away changes nothing.
//!
//! [`may_touch`] is the table; [`takes_gaps_away`] carries the law that it is sound. An [`Edge`] is told once for an
//! item, and two of them tell for most items what the table says ([`touch_of`]).
#![tactic(auto)]

mod edge;
mod laws;
mod near;
mod spelling;
mod touch;

pub use edge::{Edge, edge_of, touch_of};
pub use laws::takes_gaps_away;
pub use near::near_touch;
pub use touch::may_touch;
