//! Lines and roles of declarations depend on their own items alone.
//!
//! A part of a view is, in this crate, what stands between two places behind declarations of the file, where the next
//! one begins on a line of its own (`specs/Declarations.antt`): whole declarations, whose bodies are never cut.
//! [`partners_stay`] and [`lines_stay`] carry the laws of partners of brackets and of lines, [`tells_parts`] and
//! [`roles_stay`] those of roles. [`declarations_stay`] carries the law that these places are where the parts of
//! `view_parts` end, but for those that end in a body.
#![tactic(auto)]

mod ends;
mod lines;
mod roles;

pub use ends::{declaration_ends, declarations_follow, declarations_stay};
pub use lines::{lines_stay, partners_stay};
pub use roles::{roles_stay, tells_parts};
