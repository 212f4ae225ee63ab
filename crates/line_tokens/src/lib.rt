//! A token as the layout of a line sees it: its role, the gap before it and its widths.
//!
//! These are the types that the tables of spaces, breaks and joined lines look at, and unwrapped lines. They hold no
//! text.
#![tactic(auto)]

mod ends;
mod line;
mod no_memory;
mod role;
mod role_sets;

pub use ends::stored_or;
pub use item_kinds::ItemKind;
pub use line::{LineKind, ULine};
pub use no_memory::NoMemory;
pub use role::Role;

/// An item of a file, counted from 0 in the order of the file.
#[derive(Clone, Copy, Debug, PartialEq, Eq, PartialOrd, Ord)]
pub struct TokenId(pub u32);

/// What stands before an item. A splice is no new-line.
#[derive(Clone, Copy, Debug, PartialEq, Eq)]
pub struct GapFacts {
    /// How many new-lines it has.
    pub lines: u32,
    /// It has no bytes.
    pub empty: bool,
    /// It has white space other than splices.
    pub white: bool,
    /// It has a splice.
    pub splice: bool,
    /// The item began its line: the gap is the file's first, or has a new-line.
    pub began: bool,
}

/// A token of an unwrapped line, as far as spaces, breaks and joining depend on it.
#[derive(Clone, Copy, Debug, PartialEq, Eq)]
pub struct LineTok {
    /// Which item of the file it is.
    pub id: TokenId,
    /// What it does in its line.
    pub role: Role,
    /// How tightly a binary operator binds, 0 for every other token.
    pub power: u8,
    /// The kind of its item.
    pub kind: ItemKind,
    /// It may stand directly behind the item before it in the file.
    pub touch: bool,
    /// How many round brackets, square brackets and braced lists of its line are open before it.
    pub depth: u32,
    /// The gap before it belongs to a braced list whose last token is a comma.
    pub trailing_list: bool,
    /// It is a `#` that begins no directive, or an inner comment before one.
    pub held: bool,
    /// A directive stands between the token before it and it.
    pub directive: bool,
    /// The gap before it.
    pub gap: GapFacts,
    /// How many physical lines it has, from 1.
    pub rows: u32,
    /// The width of its first row, in columns.
    pub first_width: u32,
    /// The width of its last row, in columns.
    pub last_width: u32,
}

/// A gap that is decided: where the item behind it stands, and whether a line ends in it.
#[derive(Clone, Copy, Debug, PartialEq, Eq)]
pub struct Fixed {
    /// The column at which the item behind the gap starts, from 0.
    pub column: u32,
    /// The gap has a new-line.
    pub broken: bool,
}
