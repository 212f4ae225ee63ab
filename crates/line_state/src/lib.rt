//! The layout of a line, one token at a time: which breaks are admissible, where a token then stands
//! and what that costs.
//!
//! A state holds the column behind the line's last placed token and a frame for each bracket that is
//! open there, or names the node of these frames in a store of `frame_store`. `step` places one token
//! more, `allowed` tells whether a choice is admissible, and `cells` what a state counts. The rules are
//! those of `docs/PROFILE.md`, "Breaking a line"; no call asks which breaking is best.
//!
//! What it means that one list of choices is the least of all is stated here too, of any such step
//! (`specs/Choices.antt`, `specs/Cells.antt`), with lemmas on a search for it that settles the open
//! layout whose cost and bound are the least in sum, and offers what follows it. Nothing in these
//! knows of tokens or columns.
#![tactic(auto)]

mod aside;
mod gap;
mod placing;
mod row;
mod rules;
mod spot;
mod state;
mod stepping;

pub use aside::{step_aside, width_aside};
pub use gap::{Gap, GapRules, gap_rules, opens_frame};
pub use line_tokens::NoMemory;
pub use placing::{advance, step};
pub use row::{step_row, width_below};
pub use rules::{allowed, allowed_by, has_to_stay};
pub use state::{State, cells, start};
pub use stepping::{cells_in, start_in, step_in, try_step_by};
