//! What a run sees, part by part: how far it has come, and what it tells later runs.
//!
//! A run goes over windows of what it sees ([`Window`]) from part to part ([`Way`]): behind parts that earlier runs
//! noted in a row ([`pass_row`]), and behind each that was laid out ([`pass_part`]). It begins at the last end of a
//! part that items before what is new in it tell ([`change_of`], [`last_bound`]), and notes such ends itself
//! ([`note_bound`]). [`row_of_part`] and [`is_part_decided`] tell which parts needn't be laid out, and [`read_items`]
//! and [`keep_gaps`] what of a part is read and what stays as it is. How lines are laid out isn't known here.
#![tactic(auto)]

mod bounds;
mod change;
mod kept;
mod known_parts;
mod part_rows;
mod read;
mod way;

pub use bounds::{KnownBound, last_bound, note_bound};
pub use change::change_of;
pub use kept::keep_gaps;
pub use known_parts::KnownParts;
pub use line_tokens::NoMemory;
pub use part_rows::{is_part_decided, row_of_part};
pub use read::{ReadItems, read_items};
pub use way::{Way, Window, pass_part, pass_row};
