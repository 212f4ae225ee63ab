//! Tests of the ports, of styles and configurations, of the words of the command, and of the text that one of them
//! makes.
//!
//! - `ports`: the ends in memory and those of the process, which fail and end where they should.
//! - `named_styles`: the five named styles, and the values that keys take.
//! - `configurations`: what is read of configurations, those of another tool among them, and their faults.
//! - `comparing`: what is found beside what is wanted.
//! - `fixtures`: styles, and ends of which a call fails.
//! - `generated`: the pieces of the text that `--generate` makes.
//! - `ranges`: the ranges of lines that a word tells (`off_regions`).
//! - `words`: what the words of the command say, and why they are refused.
#![tactic(auto)]

#[cfg(test)]
mod comparing;
#[cfg(test)]
mod configurations;
#[cfg(test)]
mod fixtures;
#[cfg(test)]
mod generated;
#[cfg(test)]
mod named_styles;
#[cfg(test)]
mod ports;
#[cfg(test)]
mod ranges;
#[cfg(test)]
mod words;
