//! What is decided for each gap of a text, once for all runs, and the text that is written of it.
//!
//! A text is laid out run by run over one store of items, and several runs see the same gap. The first
//! that decides it has the word: a later decision for it changes nothing and is told so. [`write_gap`]
//! writes the bytes of one decision, [`write_out`] the text of a plan. [`sound_plans_are_twins`] carries
//! the law of the text: where each decision may stand, it is a twin of the input. It rests on
//! [`rewrites_free_gaps`], the law on other bytes between the items of a text.
#![tactic(auto)]

mod entry;
mod free_gaps;
mod gap_text;
mod guard;
mod hash;
mod laws;
mod plan;
mod reading;
mod same;
mod slot;
mod sound;
mod stance;
mod written;

pub use free_gaps::{keeps_marks_away, rewrites_free_gaps};
pub use gap_text::{Decision, write_gap};
pub use guard::{Guard, guard_of, is_behind_backslash};
pub use laws::{decisions_stay, first_decision_stands};
pub use line_tokens::{Fixed, NoMemory};
pub use plan::Plan;
pub use reading::has_new_line_at;
pub use slot::{Decided, Slot};
pub use sound::sound_plans_are_twins;
pub use stance::{Stance, stance_at};
pub use written::write_out;
