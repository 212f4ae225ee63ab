//! Which role a token has, by the classes of the tokens of its line, the partners of brackets and what stands around.
//!
//! [`mark_token`] and [`mark_comment`] go along a line from the left. They tell what a token does and how tightly it
//! binds ([`Mark`]), and take along what stands to the left of the next one ([`Left`]), as `docs/PROFILE.md` says under
//! "Roles". [`holds_inner`] tells which inner comments stay where they stood. Nothing here looks at an item of a text.
#![tactic(auto)]

mod closing;
mod commas;
mod held;
mod left;
mod mark;
mod marking;
mod power;
mod sets;
mod table;

pub use held::{holds_inner, is_inner};
pub use left::{Around, Lead, Left, Seen, at_start};
pub use mark::Mark;
pub use marking::{mark_comment, mark_token};
pub use sets::{is_hash, is_nothing};
pub use table::class_behind;
