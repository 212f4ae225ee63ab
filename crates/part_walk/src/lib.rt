//! What reading the items of a part one by one tells of where it may end, as `docs/PROFILE.md` says under "Parts".
//!
//! A [`Walk`] is what is known behind the items that were read, and [`read`] tells by the next one whether the part
//! ends or goes on. [`OpenBrackets`] has the openers that wait there and the heads of the bodies that are open. Nothing
//! here knows a view: who stands above finds the items, and says where a part of a view ends.
#![tactic(auto)]

mod between;
mod bodies;
mod brackets;
mod classes;
mod reading;
mod walk;

pub use bodies::{BodyKind, BodyPlace, Head, opened_head, place_behind};
pub use brackets::OpenBrackets;
pub use line_tokens::NoMemory;
pub use reading::{opens_group, read};
pub use walk::{Around, Before, LEAST_IN_ROW, Outcome, Walk, start};
