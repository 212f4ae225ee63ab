//! Tests of the layers from the characters of a text to its runs, lines and roles, each by its public calls alone.
//!
//! They stand above the libraries, so that a library is proved once. A case has what no contract says: that a
//! contract means what the C standard and docs/PROFILE.md do, and that calls succeed with ample memory.
//!
//! - `characters`: the characters of a text, and the words and blanks that are passed at once (`c_chars`).
//! - `items`: the items of a text, their gaps and their last characters (`c_lexer`).
//! - `touching_items`: the table of the items that may touch (`touching`).
//! - `two_views`: what two runs see of one text (`token_arena`).
//! - `views`: the places of a view (`token_arena`).
//! - `arena`: what the store keeps of a text, and which texts it refuses (`token_arena`).
//! - `sections`: texts and directives, the gaps that directives keep, and spellings (`token_arena`).
//! - `runs`: what each run sees, which items are dead, and long texts (`branch_runs`).
//! - `classes`: the classes of items, and of those of a view (`item_classes`).
//! - `parts`: parts of a view (`view_parts`).
//! - `text_lines`: the lines of whole texts (`unwrapped_lines`).
//! - `text_roles`: the roles of whole texts (`annotator`).
//!
//! `fixtures` makes what they stand on, `line_fixtures` what the lower layers tell of a text, and `comparing` compares.
#![tactic(auto)]

#[cfg(test)]
mod arena;
#[cfg(test)]
mod characters;
#[cfg(test)]
mod classes;
#[cfg(test)]
mod comparing;
#[cfg(test)]
mod fixtures;
#[cfg(test)]
mod items;
#[cfg(test)]
mod line_fixtures;
#[cfg(test)]
mod parts;
#[cfg(test)]
mod runs;
#[cfg(test)]
mod sections;
#[cfg(test)]
mod text_lines;
#[cfg(test)]
mod text_roles;
#[cfg(test)]
mod touching_items;
#[cfg(test)]
mod two_views;
#[cfg(test)]
mod views;
