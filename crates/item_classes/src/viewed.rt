//! The classes of the items of a text, and of the places of a view.

ghost use Rattle.std.specs.Prelude.{◌≡◌, ◌<◌, ◌≤◌, ℕ, List, length, IfOk, IsTrue};
ghost use Rattle.std.specs.List.{list_all};
ghost use Rattle.c_chars.specs.declared.Dialect.{Dialect};
ghost use Rattle.c_chars.specs.declared.TheConstants.{LIMIT};
ghost use Rattle.item_kinds.specs.declared.ItemKind.{ItemKind};
ghost use Rattle.c_grammar.specs.Rewritten.{read_alone};
ghost use Rattle.item_classes.specs.Viewed.{class_spelled, is_itself, AreWithin, item_class, item_classes, classes_of};

use crate::spelling::spelling;
use bumpalo::Bump;
use bumpalo::collections::{into_bump_slice, into_bump_slice_mut};
use c_chars::Dialect;
use line_tokens::{NoMemory, TokenId};
use token_arena::{ItemKind, TokenArena, View};
use token_classes::{TokenClass, mark_class, punctuator_class, word_class};

/// The class of a punctuator, which is known to be spelled by its bytes as they are, or isn't. One of a single byte
/// is spelled by that byte, whichever it is.
#[inline(always)]
fn class_of_punctuator(
    dialect: Dialect,
    raw: &[u8],
    itself: bool,
    run: &Bump,
) -> Result<TokenClass, NoMemory>
    requires { IsTrue itself → IsTrue (list_all is_itself raw.now) }
    ensures { IfOk result (λ class. class ≡ class_spelled ItemKind.Punct (read_alone dialect raw.now)) }
{
    if let [mark] = raw {
        return Ok(mark_class(*mark));
    }
    if itself {
        return Ok(punctuator_class(raw));
    }
    let spelled = spelling(dialect, raw, run)?;
    Ok(punctuator_class(spelled))
}

/// The class of a word that is spelled by its bytes as they are.
#[inline(always)]
fn class_of_plain_word(raw: &[u8]) -> TokenClass
    requires { IsTrue (list_all is_itself raw.now) }
    ensures { (dialect : Dialect) → result ≡ class_spelled ItemKind.Identifier (read_alone dialect raw.now) }
{
    word_class(raw)
}

/// The class of a word that may not be spelled by its bytes as they are, as where a splice stands in it.
#[inline(never)]
fn class_of_read_word(dialect: Dialect, raw: &[u8], run: &Bump) -> Result<TokenClass, NoMemory>
    ensures { IfOk result (λ class. class ≡ class_spelled ItemKind.Identifier (read_alone dialect raw.now)) }
{
    let spelled = spelling(dialect, raw, run)?;
    Ok(word_class(spelled))
}

/// The class of an item that is neither a word nor a punctuator. Apart, so that the kinds of most items are told by
/// two comparisons.
#[inline(never)]
fn class_of_kind(kind: ItemKind) -> TokenClass
    requires word { kind ≡ ItemKind.Identifier → ⊥ }
    requires mark { kind ≡ ItemKind.Punct → ⊥ }
    ensures { (s : List ℕ) → class_spelled kind s ≡ result }
{
    match kind {
        ItemKind::StringLit => TokenClass::Text,
        ItemKind::LineComment => TokenClass::LineComment,
        ItemKind::BlockComment => TokenClass::BlockComment,
        ItemKind::Number | ItemKind::CharConst | ItemKind::HeaderName => TokenClass::Literal,
        ItemKind::Identifier | ItemKind::Punct | ItemKind::StrayQuote | ItemKind::Other => {
            TokenClass::Other
        }
    }
}

/// The class of an item. Want of memory is the only error.
#[inline(always)]
pub fn item_class(
    arena: &TokenArena<'_, '_>,
    id: TokenId,
    run: &Bump,
) -> Result<TokenClass, NoMemory>
    requires { id.0 < length arena.now.tokens }
    ensures { IfOk result (λ class. class ≡ item_class arena.now id.0) }
{
    let token = arena.get(id);
    let raw = token.item.raw;
    let class = match token.item.kind {
        ItemKind::Identifier if arena.is_itself(id) => class_of_plain_word(raw),
        ItemKind::Identifier => class_of_read_word(arena.dialect(), raw, run)?,
        ItemKind::Punct => class_of_punctuator(arena.dialect(), raw, arena.is_itself(id), run)?,
        kind => class_of_kind(kind),
    };
    Ok(class)
}

/// The class of each item of a text, in its order. Want of memory is the only error.
///
/// Where several views of a text are asked for, [`classes_among`] takes theirs from it, so no item is read twice.
pub fn item_classes<'a>(
    arena: &TokenArena<'_, '_>,
    bump: &'a Bump,
) -> Result<&'a [TokenClass], NoMemory>
    ensures { IfOk result (λ all. all.now ≡ item_classes arena.now) }
{
    let count = arena.len();
    let classes = into_bump_slice_mut(vec![in bump; TokenClass::Nothing; count as usize]?);
    for id in 0..count {
        classes[id as usize] = item_class(arena, TokenId(id), bump)?;
    }
    Ok(classes)
}

/// The class of each place of a view, copied from the classes of all items of its text, segment by segment.
fn copied_classes<'r>(
    all: &[TokenClass],
    arena: &TokenArena<'_, '_>,
    view: &View<'_>,
    run: &'r Bump,
) -> Result<&'r [TokenClass], NoMemory>
    requires all { all.now ≡ item_classes arena.now }
    requires within { AreWithin arena.now view.now }
    ensures classes { IfOk result (λ classes. classes.now ≡ classes_of arena.now view.now) }
    ensures few { IfOk result (λ classes. length classes.now ≤ LIMIT) }
{
    let count = view.len();
    let items = arena.len();
    prove!(count <= items);
    let mut classes = Vec::with_capacity(run, count as usize)?;
    for segment in view.segments() {
        classes.extend_from_slice(&all[segment.first as usize..segment.end as usize])?;
    }
    Ok(into_bump_slice(classes))
}

/// The class of each place of a view, taken from the classes of all items of its text. Want of memory is the only
/// error.
///
/// Those of a view of items in a row are lent, and take no memory.
pub fn classes_among<'r>(
    all: &'r [TokenClass],
    arena: &TokenArena<'_, '_>,
    view: &View<'_>,
    run: &'r Bump,
) -> Result<&'r [TokenClass], NoMemory>
    requires all { all.now ≡ item_classes arena.now }
    requires within { AreWithin arena.now view.now }
    ensures classes { IfOk result (λ classes. classes.now ≡ classes_of arena.now view.now) }
    ensures few { IfOk result (λ classes. length classes.now ≤ LIMIT) }
{
    let segments = view.segments();
    if segments.len() == 1 {
        let only = segments[0];
        let items = arena.len();
        prove!(only.end <= items);
        return Ok(&all[only.first as usize..only.end as usize]);
    }
    copied_classes(all, arena, view, run)
}
