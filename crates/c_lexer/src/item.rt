//! The items of a text.

use c_grammar::ItemKind;

/// An item of a text.
#[derive(Clone, Copy, Debug)]
pub struct Item<'s> {
    /// What it is.
    pub kind: ItemKind,
    /// Its bytes in the text, splices and trigraphs among them.
    pub raw: &'s [u8],
    /// The offset of its first byte.
    pub start: u32,
}

/// An item with what its characters and those of the gap before it tell, so that none is read twice.
#[derive(Clone, Copy)]
pub struct Lexeme<'s> {
    /// The item.
    pub item: Item<'s>,
    /// How many new-line characters its gap has.
    pub lines: u32,
    /// How many bytes the characters of its gap are. The gap has more bytes where lines are spliced in it.
    pub bytes: u32,
    /// Its gap has a character.
    pub white: bool,
    /// A backslash is its last character, which may be spelled as a trigraph.
    pub back: bool,
}
