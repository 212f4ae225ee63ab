//! The grammar of preprocessing items: C11 6.4, over lists of logical characters.
//!
//! Each kind of item has a definition of what spells it. The items of a text are, one after another,
//! the longest prefix of what is left that spells one. The laws of this crate say that a text has one
//! list of items, and which changes of white space leave it as it is.
//!
//! What follows from the definitions alone is told here to all who read characters: the classes of bytes
//! ([`bytes`]), where an item stands behind another ([`place`]), and which character bytes are ([`only_char`]).
#![tactic(auto)]

pub mod bytes;
mod laws;
pub mod place;
mod utf8;

pub use item_kinds::ItemKind;
pub use laws::{
    has_one_list, keeps_items, keeps_items_apart, keeps_items_over_fit_gaps, keeps_items_over_gaps,
    keeps_items_over_lines, kept_bytes_fit, rewrites_gaps, text_has_one_list, white_reads_so,
};
pub use utf8::{char_len, only_char};
