//! The class of a token by its spelling.

ghost use Rattle.std.specs.Prelude.{◌≡◌, ◌∷◌, ◌<◌, [], nat_eq, codes, filter, get_or, map};
ghost use Rattle.std.specs.List.{ends_with, list_any};
ghost use Rattle.std.specs.Char.{is_ascii_lowercase};
ghost use Rattle.token_classes.specs.Words.{class_in, begins, is_in_capitals, named_class, word_class, punctuators};
ghost use Rattle.token_classes.specs.declared.class.TokenClass.TheVariants.{Other};

use crate::class::TokenClass;
use crate::listed::candidate;
use std::simd::prelude::*;

/// The class in the first row with this spelling, and `other` where none has it.
#[inline(always)]
fn class_in(rows: &[(&[u8], TokenClass)], spelled: &[u8], other: TokenClass) -> TokenClass
    ensures { result ≡ class_in (map (λ row. (row.0.now, row.1)) rows.now) spelled.now other }
{
    for (word, class) in rows {
        if spelled == *word {
            return *class;
        }
    }
    other
}

/// Whether one of eight characters is a small letter.
#[inline(always)]
fn has_small_in_eight(eight: u8x8) -> bool
    ensures { result ≡ list_any is_ascii_lowercase eight }
{
    let from_a = eight - u8x8::splat(b'a');
    from_a.simd_lt(u8x8::splat(26)).to_bitmask() != 0
}

/// Whether one of these characters is a small letter, looked at one after another.
#[inline(always)]
fn has_small_in_few(spelled: &[u8]) -> bool
    ensures { result ≡ list_any is_ascii_lowercase spelled.now }
{
    spelled.iter().any(|byte| byte.is_ascii_lowercase())
}

/// Whether it has a small letter. The first eight characters are looked at at once.
#[inline(always)]
fn has_small_letter(spelled: &[u8]) -> bool
    ensures { result ≡ list_any is_ascii_lowercase spelled.now }
{
    match spelled.split_first_chunk::<8>() {
        Some((eight, rest)) => {
            has_small_in_eight(u8x8::from_array(*eight)) || has_small_in_few(rest)
        }
        None => has_small_in_few(spelled),
    }
}

/// Whether it has two characters and no small letter.
#[inline(always)]
fn is_in_capitals(spelled: &[u8]) -> bool
    ensures { result ≡ is_in_capitals spelled.now }
{
    let [first, rest @ ..] = spelled else {
        return false;
    };
    !first.is_ascii_lowercase() && !rest.is_empty() && !has_small_letter(rest)
}

/// Whether it ends as the names of types do.
#[inline(always)]
fn ends_as_type(spelled: &[u8]) -> bool
    ensures { result ≡ ends_with nat_eq spelled.now (codes "_t") }
{
    spelled.last() == Some(&b't') && spelled.ends_with(b"_t")
}

/// The class of a word that is in no table.
#[inline(always)]
fn named_class(spelled: &[u8]) -> TokenClass
    ensures { result ≡ named_class spelled.now }
{
    if ends_as_type(spelled) {
        TokenClass::TypeWord
    } else if is_in_capitals(spelled) {
        TokenClass::CapitalWord
    } else {
        TokenClass::PlainWord
    }
}

/// The class of a word that is spelled so (C11 6.4.1, and docs/PROFILE.md, "Statements and lines"). It is compared with
/// the only word of the language that it can be. One of a single character is none of these.
#[inline(always)]
pub fn word_class(spelled: &[u8]) -> TokenClass
    ensures { result ≡ word_class spelled.now }
{
    if spelled.len() < 2 {
        return TokenClass::PlainWord;
    }
    let (word, class) = candidate(spelled);
    if spelled == word {
        return class;
    }
    named_class(spelled)
}

/// The class of a punctuator that begins with this byte and has a class of its own, and `other` where it has none.
#[tactic(none)]
fn listed_mark(first: u8, spelled: &[u8], other: TokenClass) -> TokenClass
    ensures { result ≡ class_in (filter (begins first) punctuators) spelled.now other }
{
    match first {
        b'!' => class_in(
            &[(b"!", TokenClass::Not), (b"!=", TokenClass::Equality)],
            spelled,
            other,
        ),
        b'#' => class_in(&[(b"#", TokenClass::Hash)], spelled, other),
        b'%' => class_in(
            &[
                (b"%>", TokenClass::CloseBrace),
                (b"%=", TokenClass::OtherAssign),
                (b"%", TokenClass::Divide),
                (b"%:", TokenClass::Hash),
            ],
            spelled,
            other,
        ),
        b'&' => class_in(
            &[
                (b"&=", TokenClass::OtherAssign),
                (b"&", TokenClass::Ampersand),
                (b"&&", TokenClass::And),
            ],
            spelled,
            other,
        ),
        b'(' => class_in(&[(b"(", TokenClass::OpenRound)], spelled, other),
        b')' => class_in(&[(b")", TokenClass::CloseRound)], spelled, other),
        b'*' => class_in(
            &[(b"*=", TokenClass::OtherAssign), (b"*", TokenClass::Star)],
            spelled,
            other,
        ),
        b'+' => class_in(
            &[
                (b"+=", TokenClass::OtherAssign),
                (b"++", TokenClass::Step),
                (b"+", TokenClass::Sign),
            ],
            spelled,
            other,
        ),
        b',' => class_in(&[(b",", TokenClass::Comma)], spelled, other),
        b'-' => class_in(
            &[
                (b"-=", TokenClass::OtherAssign),
                (b"->", TokenClass::Arrow),
                (b"--", TokenClass::Step),
                (b"-", TokenClass::Sign),
            ],
            spelled,
            other,
        ),
        b'.' => class_in(
            &[(b".", TokenClass::Point), (b"...", TokenClass::Ellipsis)],
            spelled,
            other,
        ),
        b'/' => class_in(
            &[(b"/=", TokenClass::OtherAssign), (b"/", TokenClass::Divide)],
            spelled,
            other,
        ),
        b':' => class_in(
            &[(b":>", TokenClass::CloseSquare), (b":", TokenClass::Colon)],
            spelled,
            other,
        ),
        b';' => class_in(&[(b";", TokenClass::Semicolon)], spelled, other),
        b'<' => class_in(
            &[
                (b"<:", TokenClass::OpenSquare),
                (b"<%", TokenClass::OpenBrace),
                (b"<<=", TokenClass::OtherAssign),
                (b"<<", TokenClass::Shift),
                (b"<", TokenClass::Relation),
                (b"<=", TokenClass::Relation),
            ],
            spelled,
            other,
        ),
        b'=' => class_in(
            &[(b"=", TokenClass::Equals), (b"==", TokenClass::Equality)],
            spelled,
            other,
        ),
        b'>' => class_in(
            &[
                (b">>=", TokenClass::OtherAssign),
                (b">>", TokenClass::Shift),
                (b">", TokenClass::Relation),
                (b">=", TokenClass::Relation),
            ],
            spelled,
            other,
        ),
        b'?' => class_in(&[(b"?", TokenClass::Question)], spelled, other),
        b'[' => class_in(&[(b"[", TokenClass::OpenSquare)], spelled, other),
        b']' => class_in(&[(b"]", TokenClass::CloseSquare)], spelled, other),
        b'^' => class_in(
            &[(b"^=", TokenClass::OtherAssign), (b"^", TokenClass::Caret)],
            spelled,
            other,
        ),
        b'{' => class_in(&[(b"{", TokenClass::OpenBrace)], spelled, other),
        b'|' => class_in(
            &[
                (b"|=", TokenClass::OtherAssign),
                (b"|", TokenClass::Bar),
                (b"||", TokenClass::Or),
            ],
            spelled,
            other,
        ),
        b'}' => class_in(&[(b"}", TokenClass::CloseBrace)], spelled, other),
        b'~' => class_in(&[(b"~", TokenClass::Not)], spelled, other),
        _ => other,
    }
}

/// The class of a punctuator that is spelled so (C11 6.4.6), a digraph too, and `Other` where it has none of its own.
/// It is looked for among those with its first byte.
pub fn punctuator_class(spelled: &[u8]) -> TokenClass
    ensures { result ≡ class_in punctuators spelled.now Other }
{
    if spelled.is_empty() {
        return TokenClass::Other;
    }
    listed_mark(spelled[0], spelled, TokenClass::Other)
}

/// The classes of punctuators of one character, behind that of what is none.
const MARK_CLASSES: [TokenClass; 22] = [
    TokenClass::Other,
    TokenClass::Not,
    TokenClass::Hash,
    TokenClass::Divide,
    TokenClass::Ampersand,
    TokenClass::OpenRound,
    TokenClass::CloseRound,
    TokenClass::Star,
    TokenClass::Sign,
    TokenClass::Comma,
    TokenClass::Point,
    TokenClass::Colon,
    TokenClass::Semicolon,
    TokenClass::Relation,
    TokenClass::Equals,
    TokenClass::Question,
    TokenClass::OpenSquare,
    TokenClass::CloseSquare,
    TokenClass::Caret,
    TokenClass::OpenBrace,
    TokenClass::Bar,
    TokenClass::CloseBrace,
];

/// Of each byte, where its class stands among those.
const CLASS_OF_MARK: [u8; 256] = [
    0, 0, 0, 0, 0, 0, 0, 0, 0, 0, 0, 0, 0, 0, 0, 0, 0, 0, 0, 0, 0, 0, 0, 0, 0, 0, 0, 0, 0, 0, 0, 0,
    0, 1, 0, 2, 0, 3, 4, 0, 5, 6, 7, 8, 9, 8, 10, 3, 0, 0, 0, 0, 0, 0, 0, 0, 0, 0, 11, 12, 13, 14,
    13, 15, 0, 0, 0, 0, 0, 0, 0, 0, 0, 0, 0, 0, 0, 0, 0, 0, 0, 0, 0, 0, 0, 0, 0, 0, 0, 0, 0, 16, 0,
    17, 18, 0, 0, 0, 0, 0, 0, 0, 0, 0, 0, 0, 0, 0, 0, 0, 0, 0, 0, 0, 0, 0, 0, 0, 0, 0, 0, 0, 0, 19,
    20, 21, 1, 0, 0, 0, 0, 0, 0, 0, 0, 0, 0, 0, 0, 0, 0, 0, 0, 0, 0, 0, 0, 0, 0, 0, 0, 0, 0, 0, 0,
    0, 0, 0, 0, 0, 0, 0, 0, 0, 0, 0, 0, 0, 0, 0, 0, 0, 0, 0, 0, 0, 0, 0, 0, 0, 0, 0, 0, 0, 0, 0, 0,
    0, 0, 0, 0, 0, 0, 0, 0, 0, 0, 0, 0, 0, 0, 0, 0, 0, 0, 0, 0, 0, 0, 0, 0, 0, 0, 0, 0, 0, 0, 0, 0,
    0, 0, 0, 0, 0, 0, 0, 0, 0, 0, 0, 0, 0, 0, 0, 0, 0, 0, 0, 0, 0, 0, 0, 0, 0, 0, 0, 0, 0, 0, 0, 0,
    0, 0, 0, 0, 0,
];

/// Where the class of a byte stands.
#[inline(always)]
fn place_of_mark(places: &[u8; 256], mark: u8) -> usize
    ensures { result ≡ get_or places.now mark 0 }
{
    places[mark as usize] as usize
}

/// The class that stands at this place.
#[inline(always)]
fn class_at(classes: &[TokenClass; 22], place: usize) -> TokenClass
    requires { place < 22 }
    ensures { result ≡ get_or classes.now place Other }
{
    classes[place]
}

/// The class of a punctuator of one character (C11 6.4.6), and `Other` where it has no class of its own.
#[inline(always)]
pub fn mark_class(mark: u8) -> TokenClass
    ensures { result ≡ class_in punctuators (mark ∷ []) Other }
{
    class_at(&MARK_CLASSES, place_of_mark(&CLASS_OF_MARK, mark))
}
