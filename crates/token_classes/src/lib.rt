//! Classes of tokens: what their spelling tells, as far as brackets, lines and roles depend on it.
//!
//! [`word_class`] and [`punctuator_class`] tell the class of a spelling. [`bracket_facts`] tells by the classes of a
//! view which of its brackets belong together, and which gaps inside them stay as they are. By [`numbers`] sixteen
//! classes are compared at once. No text is read here.
#![tactic(auto)]

mod class;
mod class_sets;
mod kept;
mod lanes;
mod listed;
mod pairing;
mod partner;
mod words;

pub use class::TokenClass;
pub use kept::{BracketFacts, bracket_facts};
pub use lanes::{LANES, numbers};
pub use line_tokens::NoMemory;
pub use pairing::{Opener, waiting_step};
pub use partner::Partner;
pub use words::{mark_class, punctuator_class, word_class};
