//! What a directive is, by its name (C11 6.10p1).

ghost use Rattle.std.specs.Prelude.{◌≡◌, bytes_eq};
ghost use Rattle.pp_model.specs.Stream.{named_kind, common_names, directive_names, kind_named};
ghost use Rattle.pp_items.specs.View.{kind_shown, item_shown};

use crate::item::{PpItem, SectionKind};
use c_lexer::{Dialect, ItemKind};

/// Whether a name is this one.
fn is_named(name: &[u8], word: &[u8]) -> bool
    ensures { result ≡ bytes_eq name.now word.now }
{
    name == word
}

/// The directive of this name in every edition.
fn common_kind(name: &[u8]) -> SectionKind
    ensures { kind_shown result ≡ named_kind common_names name.now }
{
    if is_named(name, b"if") {
        SectionKind::If
    } else if is_named(name, b"ifdef") {
        SectionKind::Ifdef
    } else if is_named(name, b"ifndef") {
        SectionKind::Ifndef
    } else if is_named(name, b"elif") {
        SectionKind::Elif
    } else if is_named(name, b"else") {
        SectionKind::Else
    } else if is_named(name, b"endif") {
        SectionKind::Endif
    } else if is_named(name, b"include") {
        SectionKind::Include
    } else if is_named(name, b"define") {
        SectionKind::Define
    } else if is_named(name, b"undef") {
        SectionKind::Undef
    } else if is_named(name, b"line") {
        SectionKind::LineNumber
    } else if is_named(name, b"error") {
        SectionKind::Error
    } else if is_named(name, b"pragma") {
        SectionKind::Pragma
    } else {
        SectionKind::Unknown
    }
}

/// The directive of this name in C23.
fn newer_kind(name: &[u8]) -> SectionKind
    ensures { kind_shown result ≡ named_kind (directive_names Dialect.C23) name.now }
{
    if is_named(name, b"elifdef") {
        SectionKind::Elifdef
    } else if is_named(name, b"elifndef") {
        SectionKind::Elifndef
    } else if is_named(name, b"warning") {
        SectionKind::Warning
    } else if is_named(name, b"embed") {
        SectionKind::Embed
    } else {
        common_kind(name)
    }
}

/// The directive of this name.
fn kind_of_name(dialect: Dialect, name: &[u8]) -> SectionKind
    ensures { kind_shown result ≡ named_kind (directive_names dialect) name.now }
{
    match dialect {
        Dialect::C11 => common_kind(name),
        Dialect::C23 => newer_kind(name),
    }
}

/// What the first item behind the `#` makes of a directive.
pub(crate) fn kind_named(dialect: Dialect, item: &PpItem) -> SectionKind
    ensures { kind_shown result ≡ kind_named dialect (item_shown item.now) }
{
    match item.kind {
        ItemKind::Identifier => kind_of_name(dialect, item.text.as_slice()),
        ItemKind::Number
        | ItemKind::CharConst
        | ItemKind::StringLit
        | ItemKind::Punct
        | ItemKind::HeaderName
        | ItemKind::StrayQuote
        | ItemKind::Other
        | ItemKind::BlockComment
        | ItemKind::LineComment => SectionKind::Unknown,
    }
}
