//! Tests of the layers that compute what preprocessing makes of a text, each by its public calls alone.
//!
//! They stand above the libraries, so that a library is proved once. Each layer is proved equal to the model of
//! preprocessing; a case has what the C standard says of an example, by which the model is tested too.
//!
//! - `comparing`: what is found beside what is wanted.
//! - `fixtures`: tokens, macros and texts.
//! - `expansion`: names that are replaced, and the turns that it takes (`pp_events`).
//! - `stream`: the sections of texts, in both editions (`pp_items`).
//! - `kinds`: the kinds of spellings (`pp_items`).
//! - `directive_acts`: define directives, conditionals and numbers of lines (`pp_directives`).
//! - `events`: the events of whole texts: the examples of C11 6.10.3, conditionals, includes, lines, turns, and
//!   the same events of formatted texts (`pp_text`).
#![tactic(auto)]

#[cfg(test)]
mod comparing;
#[cfg(test)]
mod directive_acts;
#[cfg(test)]
mod events;
#[cfg(test)]
mod expansion;
#[cfg(test)]
mod fixtures;
#[cfg(test)]
mod kinds;
#[cfg(test)]
mod stream;
