//! What is decided for the gaps that no run decides: those that stay, those of directives, and the last gap.
//!
//! [`decide_early`] decides them before any run: first the gaps that stay, then those of directives, and the last gap.
//! All of it stays, since a gap keeps what is decided for it first. [`lay_all`] goes over the directives of a text and
//! has `directive_layout` lay out each of them. [`all_directives_stay_sound`] and [`early_plans_are_sound`] carry the
//! laws that each of these decisions may stand.
#![tactic(auto)]

mod all_directives;
mod behind;
mod columns;
mod context;
mod early;
mod keep;
mod last;
mod laws;

pub use all_directives::{all_directives_are_decided, all_directives_stay_sound, lay_all};
pub use context::Context;
pub use early::decide_early;
pub use laws::{early_or_left, early_plans_are_sound, early_plans_keep};
