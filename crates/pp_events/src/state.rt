//! Where an expansion stands.

use crate::token::{Macro, Tok};
use std::collections::VecDeque;

/// A replacement that begins.
#[derive(Drop)]
pub struct Begun<'t> {
    pub named: &'t Macro,
    pub hide: Vec<Vec<u8>>,
    pub args: Vec<Vec<Tok>>,
    pub waiting: VecDeque<Vec<Tok>>,
    pub after: VecDeque<Tok>,
}

/// A call whose arguments are being expanded.
#[derive(Drop)]
pub struct Call<'t> {
    pub named: &'t Macro,
    /// The presumed line of its name.
    pub line: u64,
    pub hide: Vec<Vec<u8>>,
    /// Its arguments as written.
    pub written: Vec<Vec<Tok>>,
    /// Those that are expanded.
    pub full: Vec<Vec<Tok>>,
    /// Those that wait.
    pub waiting: VecDeque<Vec<Tok>>,
    /// What stands before the call.
    pub before: Vec<Tok>,
    /// What follows it.
    pub after: VecDeque<Tok>,
}

/// What is still to be read, what was read, and the open calls, the innermost first.
#[derive(Drop)]
pub struct State<'t> {
    pub rest: VecDeque<Tok>,
    pub out: Vec<Tok>,
    pub calls: VecDeque<Call<'t>>,
}
