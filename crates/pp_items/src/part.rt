//! What an item is to a directive (C11 6.10).

ghost use Rattle.std.specs.Prelude.{◌≡◌};
ghost use Rattle.c_grammar.specs.Grammar.{is_same};
ghost use Rattle.c_grammar.specs.Items.{is_hash};
ghost use Rattle.c_grammar.specs.Touch.{is_punct};
ghost use Rattle.c_grammar.specs.Place.{place_of};
ghost use Rattle.pp_items.specs.View.{part_shown};
ghost use Rattle.pp_items.specs.Walk.{part_here};

use crate::item::Part;
use c_lexer::{ItemKind, Standing};

/// Whether a spelling is this one.
#[tactic(auto, using(crate::proofs::Words::same_bytes))]
fn is_spelled(text: &[u8], word: &[u8]) -> bool
    ensures { result ≡ is_same text.now word.now }
{
    text == word
}

/// Whether it is `#` or its digraph.
fn is_hash(text: &[u8]) -> bool
    ensures { result ≡ is_hash text.now }
{
    is_spelled(text, b"#") || is_spelled(text, b"%:")
}

/// Whether the kind is [`ItemKind::Punct`].
fn is_punct(kind: ItemKind) -> bool
    ensures { result ≡ is_punct kind }
{
    matches!(kind, ItemKind::Punct)
}

/// What an item is to a directive that stands here, with white space directly before it or without.
pub(crate) fn part_of(standing: Standing, white: bool, kind: ItemKind, text: &[u8]) -> Part
    ensures { part_shown result ≡ part_here (place_of standing) white kind text.now }
{
    match standing {
        Standing::FirstInLine => {
            if is_punct(kind) && is_hash(text) {
                Part::BeginsDirective
            } else {
                Part::OfText
            }
        }
        Standing::WithinText => Part::OfText,
        Standing::BehindMacroName => {
            if !white && (is_punct(kind) && is_spelled(text, b"(")) {
                Part::OpensParameters
            } else {
                Part::OfDirective
            }
        }
        Standing::BehindHash
        | Standing::BehindInclude
        | Standing::BehindDefine
        | Standing::WithinDirective => Part::OfDirective,
    }
}
