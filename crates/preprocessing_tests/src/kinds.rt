//! Spellings and their kinds, by C11 6.4.

use crate::comparing::same;
use pp_items::ItemKind::{
    self, CharConst, Identifier, Number, Other, Punct, StrayQuote, StringLit,
};
use pp_items::{Dialect, kind_of};

/// A spelling, and the kind of the one item that it is.
const KINDS: &[(&str, &[u8], Option<ItemKind>)] = &[
    ("nothing", b"", None),
    ("a letter", b"a", Some(Identifier)),
    ("a word with _, a digit and $", b"_a1$", Some(Identifier)),
    ("a universal character name", b"\\u00e9a", Some(Identifier)),
    ("one of three digits", b"\\u00e", None),
    (
        "letters past ASCII",
        b"d\xc3\xa9j\xc3\xa0",
        Some(Identifier),
    ),
    ("two words", b"a b", None),
    ("a number with a sign", b"1.5e+3", Some(Number)),
    ("a number that begins with a point", b".5", Some(Number)),
    ("a sign behind a digit", b"1+", None),
    ("signs behind exponents", b"0x1p-2e+", Some(Number)),
    ("a constant", b"'a'", Some(CharConst)),
    ("a prefix and an escaped quote", b"L'\\''", Some(CharConst)),
    ("a constant of C23", b"u8'a'", None),
    ("an empty constant", b"''", Some(StrayQuote)),
    ("an open quote", b"'a", Some(StrayQuote)),
    ("an open quote and a backslash", b"\"\\", Some(StrayQuote)),
    ("a string", b"\"a\"", Some(StringLit)),
    ("an empty string with a prefix", b"u8\"\"", Some(StringLit)),
    ("no trigraph in a string", b"\"??/\"", Some(StringLit)),
    ("a quote too many", b"L\"a\"b\"", None),
    ("a new-line in a string", b"\"a\nb\"", None),
    ("a punctuator of two", b"##", Some(Punct)),
    ("a digraph of four", b"%:%:", Some(Punct)),
    ("a punctuator of C23", b"::", None),
    ("no punctuator", b"=>", None),
    ("another character", b"@", Some(Other)),
    ("a byte of no character", b"\xff", Some(Other)),
    ("a comment", b"/* a */", None),
    ("a line's comment", b"// a", None),
];

#[test]
fn tells_the_kind_of_one_item(rt: HostRuntime) {
    for case in KINDS {
        let (name, text, kind) = *case;
        same(&rt, name, kind_of(Dialect::C11, text), kind);
    }
}

/// A spelling that is one item in C23 alone, and its kind.
const NEWER: &[(&str, &[u8], ItemKind)] = &[
    ("two colons", b"::", ItemKind::Punct),
    ("a constant with u8", b"u8'a'", ItemKind::CharConst),
    ("digit separators", b"1'000", ItemKind::Number),
];

#[test]
fn knows_the_items_of_c23(rt: HostRuntime) {
    for case in NEWER {
        let (name, text, kind) = *case;
        let kinds = (kind_of(Dialect::C23, text), kind_of(Dialect::C11, text));
        same(&rt, name, kinds, (Some(kind), None));
    }
}
