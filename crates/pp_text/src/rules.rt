//! What texts are read by.

ghost use Rattle.pp_model.specs.Finding.{kind_of};

use c_chars::Dialect;
use pp_directives::Setting;
use pp_events::{ItemKind, Spellings};
use std::alloc::Global;

/// The spellings of an edition.
#[derive(Clone, Copy)]
pub(crate) struct EditionSpellings {
    pub dialect: Dialect,
}

impl Spellings for EditionSpellings {
    ghost kinds = { λ s. kind_of s.dialect };

    fn kind_of(&self, text: &[u8]) -> Option<ItemKind> {
        pp_items::kind_of(self.dialect, text)
    }
}

/// What texts are read by.
#[derive(Clone, Copy)]
pub(crate) struct Rules<'s> {
    pub alloc: Global,
    pub spellings: EditionSpellings,
    pub setting: &'s Setting,
}
