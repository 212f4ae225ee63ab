//! Tests of the program: worked rows of `format_cli::format_command`, over ends in memory.
//!
//! - `broken_lines`: the rows of long lines, budgets and reports.
//! - `commands`: the one table of calls, and the rows of words, styles, ports and files.
//! - `formatted_texts`: the rows of texts and their layout.
//! - `generated_inputs`: the rows of inputs that `--generate` makes.
//! - `hostile_cases`: each front of a text, each byte, and ports that fail at each of their calls.
//! - `long_texts`: the rows of long texts.
//! - `trailing_comments`: the rows of texts with trailing comments.
//! - `whole_files`: the rows of whole files, with directives and what stays.
#![tactic(auto)]

#[cfg(test)]
mod broken_lines;
#[cfg(test)]
mod commands;
#[cfg(test)]
mod formatted_texts;
#[cfg(test)]
mod generated_inputs;
#[cfg(test)]
mod hostile_cases;
#[cfg(test)]
mod long_texts;
#[cfg(test)]
mod trailing_comments;
#[cfg(test)]
mod whole_files;
