//! What preprocessing makes of a text: translation phases 1 to 4 of C11 5.1.1.2, by the rules of 6.10.
//!
//! The definitions say which events a text gives under a setting, and the laws that twins, which
//! differ in white space alone, give the same. The formatter runs nothing of this.
#![tactic(auto)]

mod laws;

pub use laws::{items_are_found, kinds_are_found, twins_preprocess_alike};
