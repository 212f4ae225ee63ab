//! The gaps of a view's lines, as far as they need no search.
//!
//! [`fixed_of_view`], [`fixed_of`] and [`is_decided`] tell what is decided of them already, [`decide_first`] decides
//! the gap before the first item of a line, and [`report_line`] keeps those of a line that is past its budget. Besides,
//! the columns of items, in the input and behind what is decided, and physical lines, counted along for what is
//! reported.
#![tactic(auto)]

mod columns;
mod decided;
mod first;
mod fixed;
mod fixed_view;
mod item;
mod line_count;
mod reported;
mod stretches;
mod tokens;
mod view_layout;

pub use columns::{column_behind, start_behind};
pub use decided::{is_decided, is_row_decided};
pub use first::decide_first;
pub use fixed::fixed_of;
pub use fixed_view::fixed_of_view;
pub use line_count::{LineCount, line_of};
pub use reported::{InputCursor, column_through, report_line};
pub use tokens::token_at;
pub use view_layout::ViewLayout;
