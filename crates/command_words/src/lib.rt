//! The words of the command, those that stand after the program's name, and the text that `--generate` makes.
//!
//! `read_words` tells what they say, borrowed from them. What is of the command's form is what a simple
//! command of `clap` takes, stated in `specs/Command.antt`; docs/PROFILE.md, "Words of the command", says
//! it for users. Values are texts here: whether a style's name is known, or a file is there, is found later.
//!
//! A new word is a line of `make_command`, a field of `Words` with its line in `said`, and its rule and its
//! line of `Says` in `specs/`.
#![tactic(auto)]

mod budget;
mod command;
mod fault;
mod generator;
mod pieces;
mod read;

pub use budget::DEFAULT_BUDGET;
pub use fault::{USAGE, WordsFault};
pub use generator::generated;
pub use pieces::Generate;
pub use read::{StyleChoice, Words, read_words};
