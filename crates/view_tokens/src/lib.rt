//! The tokens of a view, each made where it is asked for.
//!
//! Most lines are laid out by the roles and the widths of their tokens alone. [`ViewTokens`] tells these of a place,
//! [`RowTokens`] of tokens whose items follow one another in the text, [`spaces_behind`] the blanks between two of
//! these, and the tokens are made of lines alone that more is asked of.
#![tactic(auto)]

mod made;
mod row;
mod spacing;
mod start;
mod tokens;

pub use row::{Extent, RowTokens};
pub use spacing::spaces_behind;
pub use tokens::ViewTokens;
