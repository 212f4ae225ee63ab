//! The items of a text, each once and in order, with what stands between them.
//!
//! [`build`] reads a text into an arena. From then on every layer asks the arena: an item is named by
//! its [`TokenId`], its bytes are borrowed from the text and never copied, and the gaps and the items
//! joined are the text. Nothing here changes after `build`.
//!
//! [`sections`] cuts the items into texts and directives. A [`View`] lists those that a run sees.
#![tactic(auto)]

mod arena;
mod directives;
mod facts;
mod fault;
mod reading;
mod view;

pub use arena::{Token, TokenArena};
pub use c_lexer::{Dialect, Item, ItemKind, LIMIT};
pub use directives::{
    Directive, DirectiveKind, Nesting, Section, begins_with, behind_word, is_spelled,
    kept_after_name, nesting_of, sections, sections_say_how_items_stand,
};
pub use facts::Rows;
pub use fault::ArenaFault;
pub use line_tokens::{Fixed, GapFacts, LineTok, NoMemory, Role, TokenId};
pub use reading::build;
pub use view::{Segment, Stretch, View};
