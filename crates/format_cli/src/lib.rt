//! The command: `format_command` is the whole program, over any ports.
//!
//! It reads the words, chooses the style, formats each input, tells its reports and puts its text in its place, or in a
//! dry run tells its summary. The first refusal ends it, with a row that tells the cause and a status. It looks at
//! nothing but its words and ports.
#![tactic(auto)]

mod command;
mod input;
mod laws;
mod told;

pub use command::format_command;
pub use laws::outputs_are_joined;
