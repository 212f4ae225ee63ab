//! All directives of a text, laid out one after another.
//!
//! [`lay_all`] goes over the sections of a text once. It counts the conditionals around each directive, tells the roles
//! of its operand's items, and has [`lay`](directive_layout::lay) decide its gaps. The laws say that what is decided
//! may stand, and that each gap before and inside a directive is decided.

mod all;
mod conditionals;
mod directive;
mod laws;

pub use all::lay_all;
pub use laws::{all_directives_are_decided, all_directives_stay_sound};
