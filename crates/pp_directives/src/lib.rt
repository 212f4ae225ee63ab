//! What one directive does (C11 6.10), as code: what the model of preprocessing defines of settings,
//! define directives, conditions, open conditionals and line numbers.
//!
//! Each call is equal to the model's definition of it for every value.
#![tactic(auto)]

mod acts;
mod bodies;
mod cond;
mod conditionals;
mod conditions;
mod define;
mod events;
mod keys;
mod lines;
mod operands;
mod parameters;
mod resolve;
mod settings;
mod state;
mod tables;
mod words;

pub use cond::Cond;
pub use conditionals::Conditionals;
pub use define::define_of;
pub use events::Event;
pub use keys::{find_text, holds_in, is_key_of};
pub use lines::{Shift, jump_of};
pub use operands::{names_file, names_header};
pub use resolve::is_defined;
pub use settings::{BodyToken, Condition, IncludeText, MacroDefinition, Setting};
pub use state::{World, spelled};
pub use tables::table_by;
pub use words::{is_kept_name, is_name};
