//! What a text is preprocessed with.

use pp_events::PpToken;

/// A token of a macro's body, and whether white space stands before it.
#[derive(Drop)]
pub struct BodyToken {
    pub token: PpToken,
    pub white: bool,
}

/// A macro; the parameters and `variadic` count for a function-like one alone.
#[derive(Drop)]
pub struct MacroDefinition {
    pub name: Vec<u8>,
    pub function_like: bool,
    pub params: Vec<Vec<u8>>,
    pub variadic: bool,
    pub body: Vec<BodyToken>,
}

/// The bytes that an include of this operand finds.
#[derive(Drop)]
pub struct IncludeText {
    pub key: Vec<PpToken>,
    pub bytes: Vec<u8>,
}

/// Whether a condition of these tokens, expanded, holds.
#[derive(Drop)]
pub struct Condition {
    pub key: Vec<PpToken>,
    pub holds: bool,
}

/// A setting. A depth or a number of turns of 0 is none left.
#[derive(Drop)]
pub struct Setting {
    pub macros: Vec<MacroDefinition>,
    pub includes: Vec<IncludeText>,
    pub conditions: Vec<Condition>,
    /// How deep includes go.
    pub depth: u64,
    /// How many turns of expansion there are.
    pub turns: u64,
}
