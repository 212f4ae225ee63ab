//! The style table: what can be set, within which bounds, and what each named style sets.
//!
//! `Style` has one field for each key of a configuration. The table of the named styles and the table
//! of the keys are stated in `docs/PROFILE.md`, "Styles", and stand here in the same order.
#![tactic(auto)]

mod key;
mod named;
mod style;
mod value;
mod words;

pub use key::{KEYS, Key};
pub use style::{
    AlignAfterOpenBracket, AlignEscapedNewlines, AlignTrailingCommentsKind,
    AllowShortBlocksOnASingleLine, AllowShortFunctionsOnASingleLine,
    AllowShortIfStatementsOnASingleLine, BraceWrappingAfterControlStatement,
    BreakBeforeBinaryOperators, BreakBeforeBraces, IndentPPDirectives, LineEnding,
    PointerAlignment, SpaceBeforeParens, Style, UseTab,
};
pub use value::{Value, ValueFault};
pub use words::bool_from_word;
