//! The table of the items that may touch.

ghost use Rattle.std.specs.Prelude.{◌≡◌, ◌==◌, ◌≤◌, ◌++◌, ◌∷◌, ◌||◌, codes, length, map, slice_get};
ghost use Rattle.std.specs.List.{list_any};
ghost use Rattle.c_chars.specs.declared.TheConstants.{LIMIT};
ghost use Rattle.c_grammar.specs.Grammar.{is_of, is_letter, is_sign, is_string_prefix, common_punctuators};
ghost use Rattle.c_grammar.specs.Touch.{starts, first_of, is_front, may_touch, number_goes_on, point_by_number};
ghost use Rattle.c_grammar.specs.Touch.{prefix_by_quote, punct_goes_on, trigraph_comes, word_by_word};
ghost use Rattle.std.specs.Option.{option_to_list};
ghost use Rattle.touching.specs.Spelling.{spelling};

use crate::spelling::{begins, ends_in_exponent, first_char, is_spelled};
use c_chars::{Dialect, LIMIT};
use c_grammar::{ItemKind, bytes};
use c_lexer::Item;

/// `::`, the two that begin a comment, and the punctuators of C11 6.4.6.
const GOING_ON: [&[u8]; 57] = [
    b"::", b"//", b"/*", b"[", b"]", b"(", b")", b"{", b"}", b".", b"->", b"++", b"--", b"&", b"*",
    b"+", b"-", b"~", b"!", b"/", b"%", b"<<", b">>", b"<", b">", b"<=", b">=", b"==", b"!=", b"^",
    b"|", b"&&", b"||", b"?", b":", b";", b"...", b"=", b"*=", b"/=", b"%=", b"+=", b"-=", b"<<=",
    b">>=", b"&=", b"^=", b"|=", b",", b"#", b"##", b"<:", b":>", b"<%", b"%>", b"%:", b"%:%:",
];

/// Whether a letter, `_` or `$` comes first.
fn begins_letter(dialect: Dialect, raw: &[u8]) -> bool
    requires { length raw.now ≤ LIMIT }
    ensures { result ≡ starts is_letter (spelling dialect raw.now) }
{
    match first_char(dialect, raw) {
        Some(first) => bytes::is_letter(first),
        None => false,
    }
}

fn is_one_of(byte: u8, characters: &[u8]) -> bool
    ensures { result ≡ is_of characters.now byte }
{
    characters.iter().any(|character| *character == byte)
}

/// Whether one of these characters comes first.
fn begins_one_of(dialect: Dialect, raw: &[u8], characters: &[u8]) -> bool
    requires { length raw.now ≤ LIMIT }
    ensures { result ≡ starts (is_of characters.now) (spelling dialect raw.now) }
{
    match first_char(dialect, raw) {
        Some(first) => is_one_of(first, characters),
        None => false,
    }
}

/// An identifier or a number, and what would go on with it: another, or a literal with a prefix.
fn word_by_word(dialect: Dialect, left: &Item<'_>, right: &Item<'_>) -> bool
    requires { length right.now.raw.now ≤ LIMIT }
    ensures { result ≡ word_by_word left.now.kind right.now.kind (spelling dialect right.now.raw.now) }
{
    matches!(left.kind, ItemKind::Identifier | ItemKind::Number)
        && match right.kind {
            ItemKind::Identifier | ItemKind::Number => true,
            ItemKind::CharConst | ItemKind::StringLit => begins_letter(dialect, right.raw),
            _ => false,
        }
}

#[tactic(auto, unfolding(c_grammar::specs::Grammar::is_string_prefix))]
fn is_prefix(dialect: Dialect, raw: &[u8]) -> bool
    requires { length raw.now ≤ LIMIT }
    ensures { result ≡ is_string_prefix (spelling dialect raw.now) }
{
    is_spelled(dialect, raw, b"")
        || is_spelled(dialect, raw, b"L")
        || is_spelled(dialect, raw, b"u")
        || is_spelled(dialect, raw, b"U")
        || is_spelled(dialect, raw, b"u8")
}

/// A prefix of a literal, and a quote.
fn prefix_by_quote(dialect: Dialect, left: &Item<'_>, right: &Item<'_>) -> bool
    requires left { length left.now.raw.now ≤ LIMIT }
    requires right { length right.now.raw.now ≤ LIMIT }
    ensures { result
        ≡ prefix_by_quote left.now.kind (spelling dialect left.now.raw.now) (spelling dialect right.now.raw.now) }
{
    matches!(left.kind, ItemKind::Identifier)
        && is_prefix(dialect, left.raw)
        && begins_one_of(dialect, right.raw, b"'\"")
}

/// A number, and what goes on with it: a point, an apostrophe, a sign behind its exponent.
#[tactic(auto, unfolding(c_grammar::specs::Grammar::is_sign))]
fn number_goes_on(dialect: Dialect, left: &Item<'_>, right: &Item<'_>) -> bool
    requires left { length left.now.raw.now ≤ LIMIT }
    requires right { length right.now.raw.now ≤ LIMIT }
    ensures { result
        ≡ number_goes_on left.now.kind (spelling dialect left.now.raw.now) (spelling dialect right.now.raw.now) }
{
    matches!(left.kind, ItemKind::Number)
        && (begins_one_of(dialect, right.raw, b".'")
            || (begins_one_of(dialect, right.raw, b"+-") && ends_in_exponent(dialect, left.raw)))
}

/// A point, and a number.
fn point_by_number(dialect: Dialect, left: &Item<'_>, right: &Item<'_>) -> bool
    requires { length left.now.raw.now ≤ LIMIT }
    ensures { result ≡ point_by_number (spelling dialect left.now.raw.now) right.now.kind }
{
    is_spelled(dialect, left.raw, b".") && matches!(right.kind, ItemKind::Number)
}

/// Whether a punctuator or the start of a comment begins with these characters and the next one.
fn goes_on(dialect: Dialect, left: &[u8], right: &[u8]) -> bool
    requires left { length left.now ≤ LIMIT }
    requires right { length right.now ≤ LIMIT }
    ensures { result
        ≡ list_any (is_front (spelling dialect left.now ++ first_of (spelling dialect right.now)))
        (codes "::" ∷ codes "//" ∷ codes "/*" ∷ common_punctuators) }
{
    let next = first_char(dialect, right);
    begins_some(dialect, left, next, &GOING_ON)
}

/// A punctuator that with the next character begins another, or a comment.
fn punct_goes_on(dialect: Dialect, left: &Item<'_>, right: &Item<'_>) -> bool
    requires left { length left.now.raw.now ≤ LIMIT }
    requires right { length right.now.raw.now ≤ LIMIT }
    ensures { result
        ≡ punct_goes_on left.now.kind (spelling dialect left.now.raw.now) (spelling dialect right.now.raw.now) }
{
    matches!(left.kind, ItemKind::Punct) && goes_on(dialect, left.raw, right.raw)
}

/// Whether a word begins with this character.
#[inline(always)]
fn begins_with(first: u8, word: &[u8]) -> bool
    ensures { result ≡ starts (λ b. first == b) word.now }
{
    match word {
        [byte, ..] => first == *byte,
        _ => false,
    }
}

/// Whether a word begins with these characters, the first of which is known, and then this one. Most words begin with
/// another.
#[inline(always)]
fn begins_behind(
    first: Option<u8>,
    dialect: Dialect,
    raw: &[u8],
    right: Option<u8>,
    word: &[u8],
) -> bool
    requires fits { length raw.now ≤ LIMIT }
    requires first { first ≡ slice_get (spelling dialect raw.now) 0 }
    ensures { result ≡ is_front (spelling dialect raw.now ++ option_to_list right) word.now }
{
    match first {
        Some(first) => begins_with(first, word) && begins(dialect, raw, right, word),
        None => begins(dialect, raw, right, word),
    }
}

/// Whether a word of this table begins with these characters and then this one.
fn begins_some(dialect: Dialect, raw: &[u8], next: Option<u8>, table: &[&[u8]]) -> bool
    requires { length raw.now ≤ LIMIT }
    ensures { result
        ≡ list_any (is_front (spelling dialect raw.now ++ option_to_list next)) (map (λ p. p.now) table.now) }
{
    let first = first_char(dialect, raw);
    for word in table {
        if begins_behind(first, dialect, raw, next, word) {
            return true;
        }
    }
    false
}

/// A `?`, and what could make a trigraph of it.
fn trigraph_comes(dialect: Dialect, left: &Item<'_>, right: &Item<'_>) -> bool
    requires left { length left.now.raw.now ≤ LIMIT }
    requires right { length right.now.raw.now ≤ LIMIT }
    ensures { result ≡ trigraph_comes (spelling dialect left.now.raw.now) (spelling dialect right.now.raw.now) }
{
    is_spelled(dialect, left.raw, b"?") && begins_one_of(dialect, right.raw, b"?=(/)'<!>-")
}

/// Whether two items may stand side by side with nothing between them (docs/DEFINITIONS.md, "Items that may touch").
///
/// Their bytes are at most [`LIMIT`], as those of every item of a text. Ask [`near_touch`](crate::near_touch) first,
/// which is told most answers by the first bytes.
#[inline(never)]
pub fn may_touch(dialect: Dialect, left: &Item<'_>, right: &Item<'_>) -> bool
    requires left { length left.now.raw.now ≤ LIMIT }
    requires right { length right.now.raw.now ≤ LIMIT }
    ensures { result
        ≡ may_touch left.now.kind (spelling dialect left.now.raw.now) right.now.kind
        (spelling dialect right.now.raw.now) }
{
    !(word_by_word(dialect, left, right)
        || prefix_by_quote(dialect, left, right)
        || number_goes_on(dialect, left, right)
        || point_by_number(dialect, left, right)
        || punct_goes_on(dialect, left, right)
        || trigraph_comes(dialect, left, right)
        || matches!(left.kind, ItemKind::Other)
        || matches!(right.kind, ItemKind::Other)
        || matches!(left.kind, ItemKind::LineComment | ItemKind::StrayQuote))
}
