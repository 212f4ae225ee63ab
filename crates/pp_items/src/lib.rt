//! What preprocessing reads: the items of a text, cut into sections, and the kinds of spellings.
//!
//! [`sections_of`] cuts a text into texts between directives and directives, each with its items. [`kind_of`] tells
//! what a spelling is as one item. Both are as the model of preprocessing defines them.
#![tactic(auto)]

mod class;
mod cut;
mod item;
mod kinds;
mod lines;
mod name;
mod part;
mod reader;
mod sections;
mod unit;

pub use c_lexer::{Dialect, ItemKind, LIMIT};
pub use item::{PpItem, PpSection, SectionKind};
pub use kinds::kind_of;
pub use sections::sections_of;
