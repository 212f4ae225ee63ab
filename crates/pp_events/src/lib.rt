//! The events of a text, computed: what the model of preprocessing defines, as code.
//!
//! So far the expansion of macros runs: arguments, `#`, `##`, placemarkers and rescanning (C11
//! 6.10.3), equal to the model's for every table, text and number of turns.
#![tactic(auto)]

ghost use Rattle.std.specs.Prelude.{◌≡◌, ℕ, List, Option};
ghost use Rattle.item_kinds.specs.declared.ItemKind.{ItemKind as Kinds};

mod call;
mod copy;
mod machine;
mod replace;
mod same;
mod state;
mod token;

pub use c_grammar::ItemKind;
pub use call::{is_identifier_kind, is_spelled};
pub use copy::{add_name, copy_bytes, copy_names, copy_tok, copy_token, copy_toks};
pub use machine::{expand, look_up, spelling_of};
pub use replace::contains_name;
pub use same::is_same_token;
pub use token::{Macro, Part, PpToken, PpTokens, Spaced, SpacedList, Tok, What};

/// What tells the kind of a spelling.
pub trait Spellings {
    /// The kind that it tells of each spelling.
    ghost kinds: { Self → List ℕ → Option Kinds };

    /// The kind of a spelling that is one item other than a comment.
    fn kind_of(&self, text: &[u8]) -> Option<ItemKind>
        ensures { result ≡ kinds self.now text.now };
}
