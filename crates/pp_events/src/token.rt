//! Tokens, macros, and what stands for them while a macro is replaced.

use c_grammar::ItemKind;

/// A preprocessing token of an event.
#[derive(Drop)]
#[cycle(ast)]
pub enum PpToken {
    /// An item, by its spelling.
    Plain { text: Vec<u8> },
    /// The number that `__LINE__` became (C11 6.10.8.1).
    Line { number: u64 },
    /// The string that `#` made of these tokens (6.10.3.2).
    Str { parts: SpacedList },
    /// A paste of these tokens that is no item (6.10.3.3).
    Pasted { parts: PpTokens },
}

/// A token, and whether white space stands before it.
#[derive(Drop)]
#[cycle(ast)]
pub struct Spaced {
    pub token: PpToken,
    pub white: bool,
}

/// A list of tokens with the white space before them.
#[derive(Drop)]
#[cycle(ast)]
pub struct SpacedList {
    pub items: Vec<Spaced>,
}

/// A list of tokens.
#[derive(Drop)]
#[cycle(ast)]
pub struct PpTokens {
    pub items: Vec<PpToken>,
}

/// A token while it is expanded.
#[derive(Drop)]
pub struct Tok {
    pub token: PpToken,
    /// Its kind as an item; `Other` for one that no item spells.
    pub kind: ItemKind,
    /// The names that hide it from being replaced again (6.10.3.4).
    pub hide: Vec<Vec<u8>>,
    /// Whether white space stands before it.
    pub white: bool,
    /// Its presumed line, from 1.
    pub line: u64,
}

/// The arguments of a call, what hides its `)`, and how many tokens they take with their brackets.
#[derive(Drop)]
pub struct Actuals {
    pub args: Vec<Vec<Tok>>,
    pub close: Vec<Vec<u8>>,
    pub taken: usize,
}

/// What comes in the place of a part of a macro's body.
#[derive(Drop)]
pub enum What {
    /// This token.
    Word(Tok),
    /// The argument of this number, from 0, expanded (6.10.3.1).
    Full(usize),
    /// The argument as it is written, beside `##` (6.10.3.3).
    Written(usize),
    /// The argument as a string, behind `#` (6.10.3.2).
    Quoted(usize),
}

/// A part of a macro's body.
#[derive(Drop)]
pub struct Part {
    pub what: What,
    /// Whether white space stands before it.
    pub white: bool,
    /// Whether `##` stands before it.
    pub glue: bool,
}

/// A macro (6.10.3).
#[derive(Drop)]
pub struct Macro {
    pub name: Vec<u8>,
    pub function_like: bool,
    /// How many named parameters it has.
    pub arity: usize,
    /// Whether `...` follows them.
    pub variadic: bool,
    pub body: Vec<Part>,
}

/// A token of a replacement, or none for a placemarker (6.10.3.3).
#[derive(Drop)]
pub struct Piece {
    pub tok: Option<Tok>,
    /// Whether it is pasted to what stands before it.
    pub glue: bool,
}
