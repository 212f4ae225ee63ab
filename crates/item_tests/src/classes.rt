//! The classes of items, as `docs/PROFILE.md` says under "Statements and lines".

use crate::comparing::same;
use crate::fixtures::{store, tree, view};
use bumpalo::Bump;
use item_classes::{classes_among, item_class, item_classes};
use line_tokens::TokenId;
use std::process::Abort;
use token_classes::TokenClass::{
    self, CallWord, CapitalWord, CloseRound, CloseSquare, Hash, If, Literal, OpenBrace, OpenRound,
    OpenSquare, PlainWord, Semicolon, Sign, TypeWord,
};

/// An item, and its class.
const CLASSES: &[(&str, TokenClass)] = &[
    ("if", If),
    ("i\\\nf", If),
    ("__attribute__", CallWord),
    ("unsigned", TypeWord),
    ("size_t", TypeWord),
    ("struc", PlainWord),
    ("structs", PlainWord),
    ("FOO_1", CapitalWord),
    ("X", PlainWord),
    ("Foo", PlainWord),
    ("if_", PlainWord),
    ("{", OpenBrace),
    ("<%", OpenBrace),
    ("??<", OpenBrace),
    (":>", CloseSquare),
    ("+", Sign),
];

/// How many items a text has, and the class of the first.
fn first_class(rt: &impl Abort, text: &[u8], run: &Bump) -> (u32, TokenClass) {
    let arena = store(rt, run, text);
    assert!(rt; !arena.is_empty());
    let class = item_class(&arena, TokenId(0), run).expect(rt, "a class");
    (arena.len(), class)
}

#[test]
fn tells_the_classes_of_items(rt: HostRuntime) {
    let run = Bump::new(rt.alloc());
    for case in CLASSES {
        let (text, want) = *case;
        let found = first_class(&rt, text.as_bytes(), &run);
        same(&rt, text, found, (1, want));
    }
}

/// The classes of the items of a text with a directive.
const ALL: &[TokenClass] = &[
    If,
    OpenRound,
    PlainWord,
    CloseRound,
    Hash,
    PlainWord,
    PlainWord,
    PlainWord,
    OpenSquare,
    Literal,
    CloseSquare,
    Semicolon,
];

/// Those of the items around its directive.
const AROUND: &[TokenClass] = &[
    If,
    OpenRound,
    PlainWord,
    CloseRound,
    PlainWord,
    OpenSquare,
    Literal,
    CloseSquare,
    Semicolon,
];

#[test]
fn takes_the_classes_of_views(rt: HostRuntime) {
    let run = Bump::new(rt.alloc());
    let arena = store(&rt, &run, b"if (x)\n#undef y\ny[0];");
    let all = item_classes(&arena, &run).expect(&rt, "classes");
    same(&rt, "all", all, ALL);
    let seen = view(&rt, &run, &tree(&rt, &run, &arena), 0);
    let around = classes_among(all, &arena, &seen, &run).expect(&rt, "classes");
    same(&rt, "around a directive", around, AROUND);
}
