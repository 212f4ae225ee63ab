//! The items of a text, cut into texts and directives (C11 6.10p2).
//!
//! A directive is a line of items whose first, comments aside, is a `#`; comments before it on its line
//! belong to it. A text is all items between two directives.

mod cut;
mod keeping;
mod laws;
pub(crate) mod names;
mod nesting;
mod spelling;

pub use cut::sections;
pub use keeping::kept_after_name;
pub use laws::sections_say_how_items_stand;
use line_tokens::TokenId;
pub use nesting::{Nesting, nesting_of};
pub use spelling::{begins_with, behind_word, is_spelled};

/// What a directive is, by its name (C11 6.10p1).
#[derive(Clone, Copy, Debug, PartialEq, Eq)]
pub enum DirectiveKind {
    /// `#if`
    If,
    /// `#ifdef`
    Ifdef,
    /// `#ifndef`
    Ifndef,
    /// `#elif`
    Elif,
    /// `#else`
    Else,
    /// `#endif`
    Endif,
    /// `#include`
    Include,
    /// `#define`
    Define,
    /// `#undef`
    Undef,
    /// `#line`
    Line,
    /// `#error`
    Error,
    /// `#pragma`
    Pragma,
    /// A `#` with nothing behind it (C11 6.10.7).
    Null,
    /// Any other name, or none.
    Unknown,
}

/// A directive.
#[derive(Clone, Copy, Debug, PartialEq, Eq)]
pub struct Directive {
    /// Its first item: its `#`, or the first comment before it on its line.
    pub first: u32,
    /// Its `#`.
    pub hash: TokenId,
    /// The first item behind it.
    pub end: u32,
    /// What it is.
    pub kind: DirectiveKind,
    /// It defines a function-like macro (C11 6.10.3p10).
    pub function_like: bool,
}

/// A text or a directive.
#[derive(Clone, Copy, Debug, PartialEq, Eq)]
pub enum Section {
    /// The items from `first` on, up to `end`.
    Text {
        /// Its first item.
        first: u32,
        /// The first item behind it.
        end: u32,
    },
    /// A directive.
    Dir(Directive),
}
