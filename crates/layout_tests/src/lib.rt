//! What no contract says of the layers that lay out lines: worked rows by hand, each short line beside a search of
//! every breaking, and that calls succeed with ample memory.
//!
//! The libraries have no tests of their own, so that they are proved once. All that is here speaks to their public
//! calls.
//!
//! - `fixtures`: what several of these are made of
//! - `token_fixtures`: tokens by their roles, and steps from one token to the next
//! - `comparing`: what is found beside what is wanted
//! - `bracket_pairs`: partners of brackets and kept gaps (`token_classes`)
//! - `row_starts`: where lines start, and empty lines (`layout_tables`)
//! - `blanks`: the blanks of a row (`layout_tables`)
//! - `break_costs`: where rows may end (`layout_tables`)
//! - `joined_lines`: short lines that become one (`line_joiner`)
//! - `digests`: numbers that are found by digests (`frame_store`)
//! - `line_steps`: a line, one token after another (`line_state`)
//! - `searches`: the least breaking, beside a search of every breaking (`break_search`)
//! - `written_gaps`: the bytes of decisions (`replacements`)
//! - `plans`: decisions for gaps (`replacements`)
//! - `written_plans`: the texts of plans (`replacements`)
//! - `directive_rows`: directives that are laid out (`early_gaps`)
//! - `trailing_comments`: trailing comments in one column (`comment_rows`)
//! - `asked_lines`: which gaps stay, since formatting is off or nobody asked for their lines (`off_regions`)
//! - `input_columns`: the columns of kept gaps (`line_gaps`)
//! - `laid_runs`: lines that are laid out, whole texts (`run_layout`)
//! - `kept_texts`: whole texts of which some gaps stay (`format_core`)
#![tactic(auto)]

#[cfg(test)]
mod asked_lines;
#[cfg(test)]
mod blanks;
#[cfg(test)]
mod bracket_pairs;
#[cfg(test)]
mod break_costs;
#[cfg(test)]
mod comparing;
#[cfg(test)]
mod digests;
#[cfg(test)]
mod directive_rows;
#[cfg(test)]
mod fixtures;
#[cfg(test)]
mod input_columns;
#[cfg(test)]
mod joined_lines;
#[cfg(test)]
mod kept_texts;
#[cfg(test)]
mod laid_runs;
#[cfg(test)]
mod line_steps;
#[cfg(test)]
mod plans;
#[cfg(test)]
mod row_starts;
#[cfg(test)]
mod searches;
#[cfg(test)]
mod token_fixtures;
#[cfg(test)]
mod trailing_comments;
#[cfg(test)]
mod written_gaps;
#[cfg(test)]
mod written_plans;
