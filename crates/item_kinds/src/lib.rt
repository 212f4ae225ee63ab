//! The kinds of items, by themselves: what the grammar, tokens of lines and the tables of the layout all speak of.
//!
//! What spells an item of each kind, `c_grammar` says.
#![tactic(auto)]

/// What an item is (C11 6.4, with comments and with the quotes that nothing closes).
#[derive(Clone, Copy, Debug, PartialEq, Eq)]
pub enum ItemKind {
    /// 6.4.2, keywords among them.
    Identifier,
    /// A preprocessing number, 6.4.8.
    Number,
    /// A character constant with its prefix, 6.4.4.4.
    CharConst,
    /// A string literal with its prefix, 6.4.5.
    StringLit,
    /// 6.4.6, digraphs among them.
    Punct,
    /// 6.4.7, behind the `include` of a directive alone.
    HeaderName,
    /// A quote that its line doesn't close, through the end of the line.
    StrayQuote,
    /// A character that begins nothing else.
    Other,
    /// From `/*` through `*/`, 6.4.9.
    BlockComment,
    /// From `//` to the end of the line, 6.4.9.
    LineComment,
}
