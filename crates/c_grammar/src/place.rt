//! Where an item stands: in a line, and in a directive (C11 6.10).

ghost use Rattle.std.specs.Prelude.{◌≡◌, ◌==◌, not, ℕ, List, if◌then◌else◌, IfSome, IsFalse, IsTrue};
ghost use Rattle.c_chars.specs.Characters.{bytes_of};
ghost use Rattle.c_chars.specs.declared.Dialect.{Dialect};
ghost use Rattle.c_grammar.specs.Grammar.{is_same};
ghost use Rattle.c_grammar.specs.Touch.{starts};
ghost use Rattle.c_grammar.specs.Items.{LineStart, AfterHash, AfterDefine, past_item, past_name, past_comment, is_hash};
ghost use Rattle.c_grammar.specs.Items.{is_include};
ghost use Rattle.item_kinds.specs.declared.ItemKind.TheVariants.{Identifier, Punct, Other, BlockComment};
ghost use Rattle.c_grammar.specs.Bytes.{IsFirst};
ghost use Rattle.c_grammar.specs.Place.{place_of, past_plain, past_mark, past_word, IsInText, IsSpanned, SpelledBy};

use crate::ItemKind;
use c_chars::{Chars, Dialect};

/// Where an item stands.
#[derive(Clone, Copy)]
pub enum Standing {
    /// First in its line, comments aside.
    FirstInLine,
    /// In a text line.
    WithinText,
    /// Behind the `#` of a directive.
    BehindHash,
    /// Behind the `include` of a directive.
    BehindInclude,
    /// Behind the `define` of a directive.
    BehindDefine,
    /// Directly behind the name of a macro that is defined.
    BehindMacroName,
    /// Further on in a directive.
    WithinDirective,
}

impl Standing {
    /// Behind a gap with a new-line or without one.
    pub fn past_gap(self, new_line: bool) -> Standing
        ensures { place_of result ≡ if new_line then LineStart else place_of self }
    {
        if new_line {
            Standing::FirstInLine
        } else {
            self
        }
    }
}

/// Whether the characters of the text up to what is left of it are these. Most differ in the first.
fn spells(text: &Chars, left: &Chars, word: &[u8]) -> bool
    requires { IsSpanned text.now }
    ensures { SpelledBy text.now left.now (λ s. result ≡ is_same s word.now) }
{
    let mut rest = text.ahead();
    for byte in word {
        match rest.next() {
            Some(character) => {
                if character.byte != *byte {
                    return false;
                }
            }
            None => return false,
        }
    }
    rest.at() == left.at()
}

/// Whether they are `#` or its digraph.
#[inline(never)]
fn spells_hash(text: &Chars, left: &Chars) -> bool
    requires { IsSpanned text.now }
    ensures { SpelledBy text.now left.now (λ s. result ≡ is_hash s) }
{
    spells(text, left, b"#") || spells(text, left, b"%:")
}

/// Whether they are the name of a directive whose operand may be a header name.
fn spells_include(dialect: Dialect, text: &Chars, left: &Chars) -> bool
    requires { IsSpanned text.now }
    ensures { SpelledBy text.now left.now (λ s. result ≡ is_include dialect s) }
{
    match dialect {
        Dialect::C11 => spells(text, left, b"include"),
        Dialect::C23 => spells(text, left, b"include") || spells(text, left, b"embed"),
    }
}

/// Behind the name of a directive.
#[inline(never)]
fn past_name(dialect: Dialect, text: &Chars, left: &Chars) -> Standing
    requires { IsSpanned text.now }
    ensures { SpelledBy text.now left.now (λ s. place_of result ≡ past_name dialect s) }
{
    if spells_include(dialect, text, left) {
        return Standing::BehindInclude;
    }
    if spells(text, left, b"define") {
        return Standing::BehindDefine;
    }
    Standing::WithinDirective
}

/// Behind a comment.
fn past_comment(standing: Standing) -> Standing
    ensures { place_of result ≡ past_comment (place_of standing) }
{
    if matches!(standing, Standing::BehindMacroName) {
        Standing::WithinDirective
    } else {
        standing
    }
}

/// Behind an item whose spelling tells nothing.
fn past_other(standing: Standing) -> Standing
    ensures { place_of result ≡ past_plain (place_of standing) }
{
    match standing {
        Standing::FirstInLine | Standing::WithinText => Standing::WithinText,
        Standing::BehindHash
        | Standing::BehindInclude
        | Standing::BehindDefine
        | Standing::BehindMacroName
        | Standing::WithinDirective => Standing::WithinDirective,
    }
}

/// Behind a punctuator.
fn past_mark(standing: Standing, text: &Chars, left: &Chars) -> Standing
    requires { IsSpanned text.now }
    ensures { SpelledBy text.now left.now (λ s. place_of result ≡ past_mark (place_of standing) s) }
{
    match standing {
        Standing::FirstInLine => {
            if spells_hash(text, left) {
                Standing::BehindHash
            } else {
                Standing::WithinText
            }
        }
        Standing::BehindHash
        | Standing::BehindInclude
        | Standing::BehindDefine
        | Standing::BehindMacroName
        | Standing::WithinDirective
        | Standing::WithinText => past_other(standing),
    }
}

/// Behind a word.
fn past_word(dialect: Dialect, standing: Standing, text: &Chars, left: &Chars) -> Standing
    requires { IsSpanned text.now }
    ensures { SpelledBy text.now left.now (λ s. place_of result ≡ past_word dialect (place_of standing) s) }
{
    match standing {
        Standing::BehindHash => past_name(dialect, text, left),
        Standing::BehindDefine => Standing::BehindMacroName,
        Standing::FirstInLine
        | Standing::BehindInclude
        | Standing::BehindMacroName
        | Standing::WithinDirective
        | Standing::WithinText => past_other(standing),
    }
}

/// Behind an item of this kind, whose characters are those of the text up to what is left of it.
pub fn past_item(
    dialect: Dialect,
    standing: Standing,
    kind: ItemKind,
    text: &Chars,
    left: &Chars,
) -> Standing
    requires { IsSpanned text.now }
    ensures { SpelledBy text.now left.now (λ s. place_of result ≡ past_item dialect (place_of standing) kind s) }
{
    match kind {
        ItemKind::Identifier => past_word(dialect, standing, text, left),
        ItemKind::Punct => past_mark(standing, text, left),
        ItemKind::BlockComment | ItemKind::LineComment => past_comment(standing),
        ItemKind::Number
        | ItemKind::CharConst
        | ItemKind::StringLit
        | ItemKind::HeaderName
        | ItemKind::StrayQuote
        | ItemKind::Other => past_other(standing),
    }
}

/// Whether an item stands behind the `#` of a directive.
#[inline(always)]
fn is_behind_hash(standing: Standing) -> bool
    ensures hash { IsTrue result → place_of standing ≡ AfterHash }
    ensures other { IsFalse result → place_of standing ≡ AfterHash → ⊥ }
{
    matches!(standing, Standing::BehindHash)
}

/// Whether an item stands behind the `define` of a directive.
#[inline(always)]
fn is_behind_define(standing: Standing) -> bool
    ensures define { IsTrue result → place_of standing ≡ AfterDefine }
    ensures other { IsFalse result → place_of standing ≡ AfterDefine → ⊥ }
{
    matches!(standing, Standing::BehindDefine)
}

/// Behind a word whose spelling tells nothing; none where it may tell something.
#[inline(always)]
fn past_plain_word(standing: Standing) -> Option<Standing>
    ensures { IfSome result (λ past. (d : Dialect) (s : List ℕ) → place_of past ≡ past_word d (place_of standing) s) }
{
    if is_behind_hash(standing) {
        return None;
    }
    if is_behind_define(standing) {
        return Some(Standing::BehindMacroName);
    }
    Some(past_other(standing))
}

/// Whether an item stands first in its line.
#[inline(always)]
fn is_first_in_line(standing: Standing) -> bool
    ensures first { IsTrue result → place_of standing ≡ LineStart }
    ensures other { IsFalse result → place_of standing ≡ LineStart → ⊥ }
{
    matches!(standing, Standing::FirstInLine)
}

/// Behind a punctuator that begins with this byte, whose spelling tells nothing more; none where it may
/// tell something.
#[inline(always)]
fn past_plain_mark(standing: Standing, first: u8) -> Option<Standing>
    ensures { IfSome result (λ past.
        (s : List ℕ) → IsFalse (starts (λ c. not (c == first)) s) → place_of past ≡ past_mark (place_of standing) s) }
{
    if is_first_in_line(standing) && (first == b'#' || first == b'%') {
        return None;
    }
    Some(past_other(standing))
}

/// Behind an item of this kind that begins with this byte, where that tells the place; none elsewhere.
#[inline(always)]
fn past_plain(dialect: Dialect, standing: Standing, kind: ItemKind, first: u8) -> Option<Standing>
    ensures { IfSome result (λ past.
        (s : List ℕ) → IsFalse (starts (λ c. not (c == first)) s) →
        place_of past ≡ past_item dialect (place_of standing) kind s) }
{
    match kind {
        ItemKind::Identifier => past_plain_word(standing),
        ItemKind::Punct => past_plain_mark(standing, first),
        ItemKind::Number | ItemKind::CharConst | ItemKind::StringLit => Some(past_other(standing)),
        ItemKind::BlockComment | ItemKind::LineComment => Some(past_comment(standing)),
        ItemKind::HeaderName | ItemKind::StrayQuote | ItemKind::Other => None,
    }
}

/// Whether it is a punctuator.
#[inline(always)]
fn is_mark(kind: ItemKind) -> bool
    ensures { IsTrue result → kind ≡ Punct }
{
    matches!(kind, ItemKind::Punct)
}

/// Behind an item of this kind that is a `#` first in its line; none elsewhere.
#[inline(always)]
fn past_hash(standing: Standing, kind: ItemKind, text: &Chars, left: &Chars) -> Option<Standing>
    requires { IsSpanned text.now }
    ensures { IfSome result (λ past.
        (d : Dialect) → SpelledBy text.now left.now (λ s. place_of past ≡ past_item d (place_of standing) kind s)) }
{
    let mark = text.peek_plain()?;
    if mark.byte != b'#' || mark.to as usize != left.at() {
        return None;
    }
    if is_first_in_line(standing) && is_mark(kind) {
        Some(Standing::BehindHash)
    } else {
        None
    }
}

/// Whether it is a word.
#[inline(always)]
fn is_word(kind: ItemKind) -> bool
    ensures { IsTrue result → kind ≡ Identifier }
{
    matches!(kind, ItemKind::Identifier)
}

/// Behind an item of this kind that is the name of a directive, or a `#` first in its line; none elsewhere.
#[inline(always)]
fn past_spelled(
    dialect: Dialect,
    standing: Standing,
    kind: ItemKind,
    text: &Chars,
    left: &Chars,
) -> Option<Standing>
    requires { IsSpanned text.now }
    ensures { IfSome result
        (λ past. SpelledBy text.now left.now (λ s. place_of past ≡ past_item dialect (place_of standing) kind s)) }
{
    if is_behind_hash(standing) && is_word(kind) {
        // Second readers, so that the first ones need no place in memory.
        let text = text.ahead();
        let left = left.ahead();
        return Some(past_name(dialect, &text, &left));
    }
    past_hash(standing, kind, text, left)
}

/// Behind an item of this kind that begins with this byte, whose characters are those of the text up to
/// what is left of it. Only the name of a directive is read again, and none is told where others would have to be.
#[inline(always)]
pub fn past_begun(
    dialect: Dialect,
    standing: Standing,
    kind: ItemKind,
    first: u8,
    text: &Chars,
    left: &Chars,
) -> Option<Standing>
    requires spans { IsSpanned text.now }
    requires first { IsFirst first (bytes_of text.now.chars) }
    ensures { IfSome result
        (λ past. SpelledBy text.now left.now (λ s. place_of past ≡ past_item dialect (place_of standing) kind s)) }
{
    match past_plain(dialect, standing, kind, first) {
        Some(past) => Some(past),
        None => past_spelled(dialect, standing, kind, text, left),
    }
}

/// Whether an item stands in a text line, or first in its line.
#[inline(always)]
pub fn is_in_text(standing: Standing) -> bool
    ensures { IsTrue result → IsInText (place_of standing) }
{
    matches!(standing, Standing::FirstInLine | Standing::WithinText)
}

/// Behind an item of this kind that stands in a text line or first in its line and begins with this byte, where that
/// tells the place; none elsewhere.
#[inline(always)]
fn past_plain_in_text(standing: Standing, kind: ItemKind, first: u8) -> Option<Standing>
    requires { IsInText (place_of standing) }
    ensures { IfSome result (λ past.
        (d : Dialect) (s : List ℕ) → IsFalse (starts (λ c. not (c == first)) s) →
        place_of past ≡ past_item d (place_of standing) kind s) }
{
    match kind {
        ItemKind::Punct => {
            if is_first_in_line(standing) && (first == b'#' || first == b'%') {
                None
            } else {
                Some(Standing::WithinText)
            }
        }
        ItemKind::BlockComment | ItemKind::LineComment => Some(standing),
        ItemKind::Identifier
        | ItemKind::Number
        | ItemKind::CharConst
        | ItemKind::StringLit
        | ItemKind::HeaderName
        | ItemKind::StrayQuote
        | ItemKind::Other => Some(Standing::WithinText),
    }
}

/// Behind an item of this kind that stands in a text line or first in its line and begins with this byte, whose
/// characters are those of the text up to what is left of it. None is told where they would have to be read again.
#[inline(always)]
pub fn past_begun_in_text(
    standing: Standing,
    kind: ItemKind,
    first: u8,
    text: &Chars,
    left: &Chars,
) -> Option<Standing>
    requires spans { IsSpanned text.now }
    requires first { IsFirst first (bytes_of text.now.chars) }
    requires in_text { IsInText (place_of standing) }
    ensures { IfSome result (λ past.
        (d : Dialect) → SpelledBy text.now left.now (λ s. place_of past ≡ past_item d (place_of standing) kind s)) }
{
    match past_plain_in_text(standing, kind, first) {
        Some(past) => Some(past),
        None => past_hash(standing, kind, text, left),
    }
}
