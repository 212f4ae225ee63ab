//! Operands that are one item.

ghost use Rattle.std.specs.Prelude.{◌≡◌, Option, map};
ghost use Rattle.pp_model.specs.Preprocess.{names_header, names_file, is_file_kind};
ghost use Rattle.pp_events.specs.View.{tok_shown};
ghost use Rattle.pp_directives.specs.Operand.{only_kind, is_header};

use pp_events::{ItemKind, Tok};
use std::collections::VecDeque;

/// The kind of the only token.
#[tactic(auto, using(crate::proofs::OnlyItems::only_of_one, crate::proofs::OnlyItems::only_of_none, crate::proofs::OnlyItems::only_of_more))]
fn only_kind(tokens: &VecDeque<Tok>) -> Option<ItemKind>
    ensures { result ≡ only_kind (map tok_shown tokens.now.items) }
{
    match tokens.front() {
        None => None,
        Some(token) => {
            if tokens.len() == 1 {
                Some(token.kind)
            } else {
                None
            }
        }
    }
}

/// Whether the kind is a header name's.
fn is_header_name(kind: ItemKind) -> bool
    ensures { result ≡ is_header kind }
{
    match kind {
        ItemKind::HeaderName => true,
        ItemKind::Identifier => false,
        ItemKind::Number => false,
        ItemKind::CharConst => false,
        ItemKind::StringLit => false,
        ItemKind::Punct => false,
        ItemKind::StrayQuote => false,
        ItemKind::Other => false,
        ItemKind::BlockComment => false,
        ItemKind::LineComment => false,
    }
}

/// Whether the kind is a header name's or a string's.
fn is_file(kind: ItemKind) -> bool
    ensures { result ≡ is_file_kind kind }
{
    match kind {
        ItemKind::HeaderName => true,
        ItemKind::StringLit => true,
        ItemKind::Identifier => false,
        ItemKind::Number => false,
        ItemKind::CharConst => false,
        ItemKind::Punct => false,
        ItemKind::StrayQuote => false,
        ItemKind::Other => false,
        ItemKind::BlockComment => false,
        ItemKind::LineComment => false,
    }
}

/// Whether the operand is one header name.
#[tactic(auto, using(crate::proofs::OnlyItems::header_by_kind, crate::proofs::OnlyItems::header_by_none))]
pub fn names_header(tokens: &VecDeque<Tok>) -> bool
    ensures { result ≡ names_header (map tok_shown tokens.now.items) }
{
    match only_kind(tokens) {
        None => false,
        Some(kind) => is_header_name(kind),
    }
}

/// Whether the operand is one header name or one string (C11 6.10.2p2 and p3).
#[tactic(auto, using(crate::proofs::OnlyItems::file_by_kind, crate::proofs::OnlyItems::file_by_none))]
pub fn names_file(tokens: &VecDeque<Tok>) -> bool
    ensures { result ≡ names_file (map tok_shown tokens.now.items) }
{
    match only_kind(tokens) {
        None => false,
        Some(kind) => is_file(kind),
    }
}
