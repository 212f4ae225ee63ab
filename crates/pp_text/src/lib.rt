//! The events of a text: what translation phases 1 to 4 make of it (C11 5.1.1.2), as code.
//!
//! [`events`] reads the sections of a text and of what it includes, one after another, and is equal to
//! the model's definition for every text and setting.
#![tactic(auto)]

mod fault;
mod include;
mod plain;
mod reading;
mod rules;
mod text;
mod tokens;

pub use c_chars::{Dialect, LIMIT};
pub use fault::EventsFault;
pub use text::events;
