//! The table of docs/DEFINITIONS.md, "Items that may touch", row by row.

ghost use Rattle.std.specs.Prelude.{◌<◌, length};

use crate::comparing::same;
use c_lexer::ItemKind::{
    self, CharConst, Identifier, LineComment, Number, Other, Punct, StringLit,
};
use c_lexer::{Dialect, Item};
use std::process::Abort;
use touching::{may_touch, near_touch};

/// An item's kind and bytes.
type Side = (ItemKind, &'static [u8]);

fn item_of(rt: &impl Abort, side: Side) -> Item<'static>
    ensures { length result.raw.now < 9 }
{
    let (kind, raw) = side;
    assert!(rt; raw.len() < 9);
    Item {
        kind,
        raw,
        start: 0,
    }
}

/// Two items, and whether they may touch.
const PAIRS: &[(&str, Side, Side, bool)] = &[
    ("two words", (Identifier, b"a"), (Identifier, b"b"), false),
    ("a word and (", (Identifier, b"a"), (Punct, b"("), true),
    (
        "a number and a word",
        (Number, b"1"),
        (Identifier, b"u"),
        false,
    ),
    (
        "a word and a prefix",
        (Identifier, b"a"),
        (StringLit, b"L\"s\""),
        false,
    ),
    (
        "a word and a quote",
        (Identifier, b"a"),
        (StringLit, b"\"s\""),
        true,
    ),
    (
        "a prefix and a quote",
        (Identifier, b"u8"),
        (StringLit, b"\"s\""),
        false,
    ),
    (
        "a spliced prefix",
        (Identifier, b"u\\\n8"),
        (CharConst, b"'c'"),
        false,
    ),
    ("a number and a point", (Number, b"1"), (Punct, b"."), false),
    (
        "an exponent and a sign",
        (Number, b"1e"),
        (Punct, b"+"),
        false,
    ),
    (
        "a number and a sign",
        (Number, b"0x1F"),
        (Punct, b"+"),
        true,
    ),
    (
        "a number and a quote",
        (Number, b"1"),
        (CharConst, b"'c'"),
        false,
    ),
    ("a point and a number", (Punct, b"."), (Number, b"5"), false),
    ("+ and +=", (Punct, b"+"), (Punct, b"+="), false),
    ("- and >", (Punct, b"-"), (Punct, b">"), false),
    ("what begins a comment", (Punct, b"/"), (Punct, b"*"), false),
    ("two colons", (Punct, b":"), (Punct, b":"), false),
    (
        "a trigraph of | and |",
        (Punct, b"??!"),
        (Punct, b"|"),
        false,
    ),
    ("two digraphs of #", (Punct, b"%:"), (Punct, b"%:"), false),
    (") and (", (Punct, b")"), (Punct, b"("), true),
    (
        "what may begin a trigraph",
        (Punct, b"?"),
        (Punct, b"="),
        false,
    ),
    ("? and a word", (Punct, b"?"), (Identifier, b"a"), true),
    (
        "another character first",
        (Other, b"@"),
        (Punct, b";"),
        false,
    ),
    (
        "another character behind",
        (Punct, b";"),
        (Other, b"`"),
        false,
    ),
    (
        "a line's comment",
        (LineComment, b"// x"),
        (Punct, b";"),
        false,
    ),
];

#[test]
fn each_row_of_the_table(rt: HostRuntime) {
    let rt = &rt;
    for case in PAIRS {
        let (name, left, right, touch) = *case;
        let (left, right) = (item_of(rt, left), item_of(rt, right));
        same(rt, name, may_touch(Dialect::C11, &left, &right), touch);
    }
}

/// Two items, and what is told of them at once.
const NEAR_PAIRS: &[(&str, Side, Side, Option<bool>)] = &[
    (
        "two words",
        (Identifier, b"a"),
        (Identifier, b"b"),
        Some(false),
    ),
    (
        "a word and (",
        (Identifier, b"a"),
        (Punct, b"("),
        Some(true),
    ),
    ("two plus signs", (Punct, b"+"), (Punct, b"+"), Some(false)),
    (
        "a mark of two and a sign",
        (Punct, b"<<"),
        (Punct, b"-"),
        Some(true),
    ),
    ("a number and a point", (Number, b"1"), (Punct, b"."), None),
];

/// A short way may decline, and tells most pairs.
#[test]
fn tells_most_pairs_by_their_first_bytes(rt: HostRuntime) {
    for case in NEAR_PAIRS {
        let (name, (kind, raw), (behind, bytes), touch) = *case;
        let told = near_touch(Dialect::C11, kind, raw, behind, bytes);
        same(&rt, name, told, touch);
    }
}
