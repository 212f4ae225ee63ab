//! The logical characters of a C text: translation phases 1 and 2 of C11 5.1.1.2.
//!
//! A text is a list of bytes. Trigraphs are replaced and spliced lines joined, and each character
//! that is left keeps the span of its own raw bytes.
#![tactic(auto)]

mod alone;
mod classes;
mod front;
mod lanes;
mod reader;
mod units;

pub use alone::next_character;
pub use classes::{is_word_byte, row_len, told};
pub use front::{begins_with, behind};
pub use reader::Chars;

/// The most bytes that one input may have.
pub const LIMIT: usize = 8_388_608;

/// Which edition of the C standard a text is read by.
#[derive(Clone, Copy)]
pub enum Dialect {
    /// ISO/IEC 9899:2011.
    C11,
    /// ISO/IEC 9899:2024: no trigraphs, digit separators, `::` and `u8'c'`.
    C23,
}

/// A character after phases 1 and 2 of C11 5.1.1.2.
#[derive(Clone, Copy)]
pub struct LogicalChar {
    /// Its byte. A new-line is 10, also where it is written `\r\n`.
    pub byte: u8,
    /// The offset of its first raw byte.
    pub from: u32,
    /// The offset behind its last raw byte.
    pub to: u32,
}
