//! The item that stands next: behind an `include` a header name, wherever one begins (C11 6.4p4).

ghost use Rattle.std.specs.Prelude.{◌≡◌, ◌||◌, ◌<◌, length, IsFalse, IfSome, MatchOption, MatchResult};
ghost use Rattle.c_chars.specs.Characters.{bytes_of};
ghost use Rattle.c_grammar.specs.Grammar.{is_white, is_new_line};
ghost use Rattle.c_grammar.specs.Items.{AfterInclude, BeginsHeader, past_item};
ghost use Rattle.c_grammar.specs.Touch.{starts};
ghost use Rattle.item_kinds.specs.declared.ItemKind.TheVariants.{HeaderName};
ghost use Rattle.c_grammar.specs.Bytes.{IsFirst};
ghost use Rattle.c_lexer.specs.Cut.{IsStop};
ghost use Rattle.c_lexer.specs.Next.{IsCutNext};
ghost use Rattle.c_grammar.specs.Place.{IsInText, IsSpanned, SpelledBy, place_of};
ghost use Rattle.c_lexer.specs.Reading.{AreOwnBytes, IsBegun};

use crate::cut::{self, Stop};
use crate::line::Begun;
use crate::quote;
use c_chars::{Chars, Dialect};
use c_grammar::ItemKind;
use c_grammar::place::{self, Standing};

/// What stands behind the header name that stands next; none where none does.
fn cut_header<'s>(standing: Standing, text: &Chars<'s>) -> Option<Chars<'s>>
    requires { 0 < length text.now.chars }
    ensures { MatchOption result
        (place_of standing ≡ AfterInclude → BeginsHeader (bytes_of text.now.chars) → ⊥)
        (λ left. IsCutNext (place_of standing) text.now left HeaderName) }
{
    match standing {
        Standing::BehindInclude => quote::behind_header(text),
        Standing::FirstInLine
        | Standing::BehindHash
        | Standing::BehindDefine
        | Standing::BehindMacroName
        | Standing::WithinDirective
        | Standing::WithinText => None,
    }
}

/// The item that stands next in the text, which begins with this byte, and what stands behind it.
#[inline(never)]
pub(crate) fn cut_next<'s>(
    dialect: Dialect,
    standing: Standing,
    text: &Chars<'s>,
    first: u8,
) -> Result<(ItemKind, Chars<'s>), Stop>
    requires dialect { dialect ≡ text.now.dialect }
    requires some { 0 < length text.now.chars }
    requires first { IsFirst first (bytes_of text.now.chars) }
    requires begins { IsFalse (starts (λ c. is_white c || is_new_line c) (bytes_of text.now.chars)) }
    ensures { MatchResult result (λ r. IsCutNext (place_of standing) text.now r.1 r.0) (λ stop. IsStop text.now stop) }
{
    match cut_header(standing, text) {
        Some(left) => Ok((ItemKind::HeaderName, left)),
        None => cut::cut_item(dialect, text, first),
    }
}

/// Whether a header name may stand next.
#[inline(always)]
fn is_behind_include(standing: Standing) -> bool
    ensures { IsFalse result → place_of standing ≡ AfterInclude → ⊥ }
{
    matches!(standing, Standing::BehindInclude)
}

/// The item that is begun and what stands behind it, where plain bytes tell it and no header name may stand here; none
/// elsewhere.
#[inline(always)]
fn cut_begun<'s>(
    dialect: Dialect,
    standing: Standing,
    begun: &Begun<'s>,
) -> Option<(ItemKind, Chars<'s>)>
    requires dialect { dialect ≡ begun.now.text.dialect }
    requires begun { IsBegun begun.now.text begun.now.first begun.now.behind }
    ensures next { IfSome result (λ r. IsCutNext (place_of standing) begun.now.text r.1 r.0) }
    ensures plain { IfSome result (λ r. AreOwnBytes begun.now.first begun.now.behind r.1) }
{
    if is_behind_include(standing) {
        return None;
    }
    cut::cut_plain(dialect, begun)
}

/// An item that plain bytes tell.
#[derive(Drop)]
pub(crate) struct Placed<'s> {
    /// What it is.
    pub kind: ItemKind,
    /// What stands behind it.
    pub left: Chars<'s>,
    /// Where that stands.
    pub past: Standing,
}

/// The item that is begun, which stands in a text line or first in its line, where it is one that plain bytes tell;
/// none elsewhere.
#[inline(always)]
fn place_in_text<'s>(dialect: Dialect, standing: Standing, begun: &Begun<'s>) -> Option<Placed<'s>>
    requires dialect { dialect ≡ begun.now.text.dialect }
    requires begun { IsBegun begun.now.text begun.now.first begun.now.behind }
    requires spans { IsSpanned begun.now.text }
    requires in_text { IsInText (place_of standing) }
    ensures next { IfSome result (λ r. IsCutNext (place_of standing) begun.now.text r.left r.kind) }
    ensures plain { IfSome result (λ r. AreOwnBytes begun.now.first begun.now.behind r.left) }
    ensures past { IfSome result (λ r. SpelledBy begun.now.text r.left
        (λ s. place_of r.past ≡ past_item dialect (place_of standing) r.kind s)) }
{
    let Some((kind, left)) = cut::cut_plain(dialect, begun) else {
        return None;
    };
    match place::past_begun_in_text(standing, kind, begun.first.byte, &begun.text, &left) {
        Some(past) => Some(Placed { kind, left, past }),
        None => None,
    }
}

/// The item that is begun, wherever it stands, where it is one that plain bytes tell; none elsewhere. Most stand in
/// text lines, where few tell a place.
#[inline(always)]
pub(crate) fn place_begun<'s>(
    dialect: Dialect,
    standing: Standing,
    begun: &Begun<'s>,
) -> Option<Placed<'s>>
    requires dialect { dialect ≡ begun.now.text.dialect }
    requires begun { IsBegun begun.now.text begun.now.first begun.now.behind }
    requires spans { IsSpanned begun.now.text }
    ensures next { IfSome result (λ r. IsCutNext (place_of standing) begun.now.text r.left r.kind) }
    ensures plain { IfSome result (λ r. AreOwnBytes begun.now.first begun.now.behind r.left) }
    ensures past { IfSome result (λ r. SpelledBy begun.now.text r.left
        (λ s. place_of r.past ≡ past_item dialect (place_of standing) r.kind s)) }
{
    if place::is_in_text(standing) {
        return place_in_text(dialect, standing, begun);
    }
    let Some((kind, left)) = cut_begun(dialect, standing, begun) else {
        return None;
    };
    match place::past_begun(
        dialect,
        standing,
        kind,
        begun.first.byte,
        &begun.text,
        &left,
    ) {
        Some(past) => Some(Placed { kind, left, past }),
        None => None,
    }
}
