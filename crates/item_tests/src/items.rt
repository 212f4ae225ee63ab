//! Items of texts, by C11 6.4.

use crate::comparing::same;
use c_lexer::{Dialect, Item, ItemKind, LIMIT, LexFault, Lexeme, Lexer};
use std::process::Abort;

/// What reads the items of a text.
fn lexer<'s>(rt: &impl Abort, text: &'s [u8], dialect: Dialect) -> Lexer<'s> {
    assert!(rt; text.len() <= LIMIT);
    Lexer::new(text, dialect)
}

/// The next item, which a case is to have.
fn next_item<'s>(rt: &impl Abort, name: &str, lexer: &mut Lexer<'s>) -> Item<'s> {
    lexer.next_item().expect(rt, name).expect(rt, name)
}

/// The same with what its gap tells.
fn next_lexeme<'s>(rt: &impl Abort, name: &str, lexer: &mut Lexer<'s>) -> Lexeme<'s> {
    lexer.next_lexeme().expect(rt, name).expect(rt, name)
}

/// A text in one of the two dialects, and the kind and the bytes of each of its items.
type Case = (
    &'static str,
    Dialect,
    &'static [u8],
    &'static [(ItemKind, &'static [u8])],
);

/// Words and what begins like one, 6.4.2.
const WORDS: &[Case] = &[
    (
        "a universal character name, 6.4.3",
        Dialect::C23,
        b"\\u00e4b1",
        &[(ItemKind::Identifier, b"\\u00e4b1")],
    ),
    (
        "one whose backslash is spelled by a trigraph",
        Dialect::C11,
        b"??/u00e4",
        &[(ItemKind::Identifier, b"??/u00e4")],
    ),
    (
        "a letter past ASCII",
        Dialect::C23,
        b"\xc3\xa4 = 1",
        &[
            (ItemKind::Identifier, b"\xc3\xa4"),
            (ItemKind::Punct, b"="),
            (ItemKind::Number, b"1"),
        ],
    ),
    (
        "splices within characters",
        Dialect::C11,
        b"\xc3\\\n\xa4\\u0\\\n0e4",
        &[(ItemKind::Identifier, b"\xc3\\\n\xa4\\u0\\\n0e4")],
    ),
    (
        "a character of no word between two words",
        Dialect::C11,
        b"a\xef\xbb\xbfb",
        &[
            (ItemKind::Identifier, b"a"),
            (ItemKind::Other, b"\xef\xbb\xbf"),
            (ItemKind::Identifier, b"b"),
        ],
    ),
    (
        "a lone backslash",
        Dialect::C11,
        b"\\",
        &[(ItemKind::Other, b"\\")],
    ),
    (
        "backslashes that begin no name",
        Dialect::C11,
        b"\\x\\u12",
        &[
            (ItemKind::Other, b"\\"),
            (ItemKind::Identifier, b"x"),
            (ItemKind::Other, b"\\"),
            (ItemKind::Identifier, b"u12"),
        ],
    ),
];

/// Numbers, and quotes behind them.
const NUMBERS: &[Case] = &[
    (
        "a letter past ASCII in a number, 6.4.8",
        Dialect::C11,
        b"1\xc3\xa4",
        &[(ItemKind::Number, b"1\xc3\xa4")],
    ),
    (
        "a universal character name and a sign",
        Dialect::C11,
        b"1\\U000000e4e+",
        &[(ItemKind::Number, b"1\\U000000e4e+")],
    ),
    (
        "a number and a character constant",
        Dialect::C11,
        b"1'a'",
        &[(ItemKind::Number, b"1"), (ItemKind::CharConst, b"'a'")],
    ),
    (
        "digit separators of C23",
        Dialect::C23,
        b"1'000'0",
        &[(ItemKind::Number, b"1'000'0")],
    ),
    (
        "quotes that separate no digits",
        Dialect::C23,
        b"1''",
        &[(ItemKind::Number, b"1"), (ItemKind::StrayQuote, b"''")],
    ),
];

/// A character past ASCII is one item, and a byte of none is one by itself.
const OTHERS: &[Case] = &[
    (
        "a character of three bytes",
        Dialect::C11,
        b"\xe2\x82\xac",
        &[(ItemKind::Other, b"\xe2\x82\xac")],
    ),
    (
        "a byte of no character",
        Dialect::C11,
        b"\xff",
        &[(ItemKind::Other, b"\xff")],
    ),
    (
        "a character cut off, and one that is too long",
        Dialect::C23,
        b"\xc3 \xc0\x80",
        &[
            (ItemKind::Other, b"\xc3"),
            (ItemKind::Other, b"\xc0"),
            (ItemKind::Other, b"\x80"),
        ],
    ),
    (
        "a character cut off at the end",
        Dialect::C11,
        b"\xe2\x82",
        &[(ItemKind::Other, b"\xe2"), (ItemKind::Other, b"\x82")],
    ),
    (
        "a surrogate",
        Dialect::C11,
        b"\xed\xa0\x80",
        &[
            (ItemKind::Other, b"\xed"),
            (ItemKind::Other, b"\xa0"),
            (ItemKind::Other, b"\x80"),
        ],
    ),
    (
        "the character 0",
        Dialect::C11,
        b"\0",
        &[(ItemKind::Other, b"\0")],
    ),
];

/// Compares the items of a case's text.
fn compare(rt: &impl Abort, case: &Case) {
    let (name, dialect, text, items) = *case;
    let mut lexer = lexer(rt, text, dialect);
    for want in items {
        let item = next_item(rt, name, &mut lexer);
        same(rt, name, (item.kind, item.raw), *want);
    }
    let behind = lexer.next_item().expect(rt, name);
    same(rt, name, behind.is_none(), true);
}

#[test]
fn reads_items(rt: HostRuntime) {
    for cases in [WORDS, NUMBERS, OTHERS] {
        for case in cases {
            compare(&rt, case);
        }
    }
}

/// The kind, the bytes and the offset of an item.
const KINDS: &[(&str, (ItemKind, &[u8], u32))] = &[
    ("a #", (ItemKind::Punct, b"#", 0)),
    ("a name", (ItemKind::Identifier, b"include", 1)),
    ("a header name", (ItemKind::HeaderName, b"<a\\\nb.h>", 9)),
    ("a comment", (ItemKind::BlockComment, b"/* x */", 18)),
    ("a string", (ItemKind::StringLit, b"u8\"s\\\"\"", 26)),
    ("a constant", (ItemKind::CharConst, b"L'c'", 34)),
    ("an open quote", (ItemKind::StrayQuote, b"'z", 39)),
    ("a number", (ItemKind::Number, b"1.5e+3", 42)),
    ("a trigraph", (ItemKind::Punct, b"??(", 49)),
    ("another character", (ItemKind::Other, b"@", 53)),
    ("a line's comment", (ItemKind::LineComment, b"// end", 55)),
];

#[test]
fn reads_each_kind(rt: HostRuntime) {
    let rt = &rt;
    let text = b"#include <a\\\nb.h>\n/* x */ u8\"s\\\"\" L'c' 'z\n1.5e+3 ??( @ // end  \n/*";
    let mut lexer = Lexer::new(text, Dialect::C11);
    for case in KINDS {
        let (name, want) = *case;
        let item = next_item(rt, name, &mut lexer);
        same(rt, name, (item.kind, item.raw, item.start), want);
    }
    // A comment without an end: each call tells of it.
    let open = Some(LexFault::UnterminatedComment { start: 64 });
    same(rt, "the first call", lexer.next_item().err(), open);
    same(rt, "the next call", lexer.next_item().err(), open);
}

/// What is told of the gap before an item: its new-lines, how many bytes its characters are, and whether it has one.
const GAPS: &[(&str, (u32, u32, bool))] = &[
    ("the first item", (0, 0, false)),
    ("behind a splice alone", (0, 0, false)),
    ("behind a blank, a splice and a line end", (1, 4, true)),
    ("behind a splice and a line end", (1, 3, true)),
    ("behind a blank", (0, 1, true)),
];

#[test]
fn tells_of_gaps(rt: HostRuntime) {
    let rt = &rt;
    let mut lexer = Lexer::new(b"a\\\n/ \\\r\n\r\n\tb\\\n \n /* */ c", Dialect::C11);
    for case in GAPS {
        let (name, gap) = *case;
        let lexeme = next_lexeme(rt, name, &mut lexer);
        let found = (lexeme.lines, lexeme.bytes, lexeme.white);
        same(rt, name, found, gap);
    }
    let behind = lexer.next_lexeme().expect(rt, "behind the last one");
    same(rt, "behind the last one", behind.is_none(), true);
}

/// A text of one item, and whether the item ends in a backslash.
const ENDS: &[(&str, Dialect, &[u8], bool)] = &[
    ("a trigraph", Dialect::C11, b"// a ??/", true),
    ("no trigraph in C23", Dialect::C23, b"// a ??/", false),
    ("a backslash", Dialect::C23, b"// a \\", true),
    (
        "a backslash and a splice",
        Dialect::C11,
        b"// a \\\\\n\n",
        true,
    ),
    ("a slash", Dialect::C11, b"// a /", false),
    ("an open quote", Dialect::C11, b"'\\", true),
    ("a block comment", Dialect::C11, b"/* \\*/", false),
    ("a closed quote", Dialect::C11, b"'\\\\'", false),
    ("a word", Dialect::C11, b"a", false),
];

#[test]
fn tells_a_backslash_at_the_end(rt: HostRuntime) {
    let rt = &rt;
    for case in ENDS {
        let (name, dialect, text, back) = *case;
        let mut lexer = lexer(rt, text, dialect);
        same(rt, name, next_lexeme(rt, name, &mut lexer).back, back);
    }
}
