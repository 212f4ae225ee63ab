//! The runs of a text: what each run sees where conditionals leave out groups (C11 6.10.1).
//!
//! A text whose `#if` and `#else` both hold code can't be laid out as one text. It is laid out once for
//! each run; in a run each conditional takes one of its branches, and every item outside the groups of
//! a literal `#if 0` is seen by some run. `docs/PROFILE.md`, "Runs", says which branch a run takes.
#![tactic(auto)]

mod change;
mod effect;
mod laws;
mod link;
mod mark;
mod node;
mod open_groups;
mod seen;
mod stack;
mod tree;
mod visible;
mod window;
mod zero;

pub use change::Change;
pub use laws::views_are_of_texts;
pub use mark::{Mark, MarkKind};
pub use token_arena::{NoMemory, TokenId, View};
pub use tree::CondTree;
