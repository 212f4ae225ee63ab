//! Items and sections.

use c_grammar::ItemKind;

/// An item of a section. Comments are none.
#[derive(Debug, Drop)]
pub struct PpItem {
    /// What it is.
    pub kind: ItemKind,
    /// Its spelling: splices taken out and trigraphs replaced.
    pub text: Vec<u8>,
    /// Whether white space or a comment stands before it.
    pub white: bool,
    /// The physical line on which it begins, from 1. A text within [`LIMIT`](crate::LIMIT) has no line past 32 bits.
    pub line: u32,
}

/// What a section is: a text between directives, or a directive by its name (C11 6.10p1).
#[derive(Clone, Copy, Debug, PartialEq, Eq)]
pub enum SectionKind {
    /// What stands between two directives.
    Text,
    /// `#if`
    If,
    /// `#ifdef`
    Ifdef,
    /// `#ifndef`
    Ifndef,
    /// `#elif`
    Elif,
    /// `#elifdef`, of C23.
    Elifdef,
    /// `#elifndef`, of C23.
    Elifndef,
    /// `#else`
    Else,
    /// `#endif`
    Endif,
    /// `#include`
    Include,
    /// `#define`
    Define,
    /// `#undef`
    Undef,
    /// `#line`
    LineNumber,
    /// `#error`
    Error,
    /// `#warning`, of C23.
    Warning,
    /// `#embed`, of C23.
    Embed,
    /// `#pragma`
    Pragma,
    /// A `#` with nothing behind it (6.10.7).
    Null,
    /// Any other name, or none.
    Unknown,
}

/// A text or a directive.
#[derive(Debug, Drop)]
pub struct PpSection {
    /// Which it is.
    pub kind: SectionKind,
    /// A directive that defines a function-like macro (6.10.3p10).
    pub function_like: bool,
    /// The items of a text; those behind the name of a directive, and behind the `#` of an unknown one.
    pub items: Vec<PpItem>,
    /// The physical line behind a directive; 0 of a text, and where the text ends.
    pub next: u32,
}

/// What an item is to a directive (6.10p2).
#[derive(Clone, Copy, Debug, PartialEq, Eq)]
pub(crate) enum Part {
    /// Of a text.
    OfText,
    /// The `#` that begins a directive.
    BeginsDirective,
    /// The `(` that makes the macro of a `#define` function-like.
    OpensParameters,
    /// Of a directive otherwise.
    OfDirective,
}

/// An item as it is read.
#[derive(Drop)]
pub(crate) struct Streamed {
    /// The item; its kind may be that of a comment.
    pub item: PpItem,
    /// What it is to a directive.
    pub part: Part,
    /// The physical line that the first new-line before it begins; 0 where there is none.
    pub begun: u32,
}
