//! The class of each item of a text: what its token is spelled, as far as brackets, lines and roles depend on it.
//!
//! Classes are told once for a text ([`item_classes`]); those of a view are taken from them ([`classes_among`]).
//! [`comment_part`] tells which kind of comment one is.
#![tactic(auto)]

mod part;
mod spelling;
mod viewed;

pub use line_tokens::NoMemory;
pub use part::{Part, comment_part};
pub use viewed::{classes_among, item_class, item_classes};
