//! The characters of texts, by translation phases 1 and 2 of C11 5.1.1.2.

use crate::comparing::same;
use c_chars::{Chars, Dialect, LIMIT, LogicalChar};
use std::process::Abort;

/// A character by its byte, the offset of its first raw byte and the one behind its last.
type Span = (u8, u32, u32);

fn span_of(c: LogicalChar) -> Span {
    (c.byte, c.from, c.to)
}

/// The characters of a text.
fn chars_of<'s>(rt: &impl Abort, text: &'s [u8], dialect: Dialect) -> Chars<'s> {
    assert!(rt; text.len() <= LIMIT);
    Chars::new(text, dialect)
}

/// Compares the characters that are left.
fn compare(rt: &impl Abort, name: &str, left: Chars<'_>, spans: &[Span]) {
    let mut chars = left;
    for span in spans {
        let peeked = chars.peek(0).map(span_of);
        let next = chars.next().map(span_of);
        same(rt, name, (peeked, next), (Some(*span), Some(*span)));
    }
    same(rt, name, chars.next().map(span_of), None);
}

/// A text and its characters.
const CHARACTERS: &[(&str, Dialect, &[u8], &[Span])] = &[
    ("no character", Dialect::C11, b"", &[]),
    (
        "splices, one of them spelled by a trigraph",
        Dialect::C11,
        b"a\\\nb??/\r\nc\\",
        &[(b'a', 0, 1), (b'b', 3, 4), (b'c', 9, 10), (b'\\', 10, 11)],
    ),
    (
        "a mark, a trigraph and a line end of two bytes",
        Dialect::C11,
        b"\xef\xbb\xbf??(\r\n\r",
        &[(b'[', 3, 6), (b'\n', 6, 8), (b'\r', 8, 9)],
    ),
    (
        "no trigraph",
        Dialect::C11,
        b"??a",
        &[(b'?', 0, 1), (b'?', 1, 2), (b'a', 2, 3)],
    ),
    (
        "no trigraph in C23",
        Dialect::C23,
        b"??(",
        &[(b'?', 0, 1), (b'?', 1, 2), (b'(', 2, 3)],
    ),
];

#[test]
fn joins_lines_and_replaces_trigraphs(rt: HostRuntime) {
    let rt = &rt;
    for case in CHARACTERS {
        let (name, dialect, text, spans) = *case;
        compare(rt, name, chars_of(rt, text, dialect), spans);
    }
}

/// How far ahead, and the character that stands there.
const AHEAD: &[(&str, usize, Option<Span>)] = &[
    ("the next one", 0, Some((b'a', 0, 1))),
    ("one behind a splice", 1, Some((b'b', 3, 4))),
    ("the last one", 2, Some((b'[', 4, 7))),
    ("none", 3, None),
];

#[test]
fn looks_ahead(rt: HostRuntime) {
    let chars = Chars::new(b"a\\\nb??(", Dialect::C11);
    for case in AHEAD {
        let (name, k, span) = *case;
        assert!(rt; k <= 8);
        same(&rt, name, chars.ahead().peek(k).map(span_of), span);
    }
}

/// A text, and its first character where it is plain.
const PLAIN: &[(&str, &[u8], Option<Span>)] = &[
    ("a letter", b"a", Some((b'a', 0, 1))),
    ("a new-line of one byte", b"\n", Some((b'\n', 0, 1))),
    ("a letter behind a splice", b"\\\na", None),
    ("no character", b"", None),
];

/// A short way may decline; one that is told is the next character.
#[test]
fn takes_plain_bytes_at_once(rt: HostRuntime) {
    let rt = &rt;
    for case in PLAIN {
        let (name, text, span) = *case;
        let mut chars = chars_of(rt, text, Dialect::C11);
        let peeked = chars.peek_plain().map(span_of);
        let next = chars.next_plain().map(span_of);
        same(rt, name, (peeked, next), (span, span));
    }
}

/// A text, and where it goes on behind its first word.
const WORDS: &[(&str, &[u8], usize)] = &[
    ("letters, digits, _ and $ up to a splice", b"aZ_$9\\\nb", 5),
    ("a word up to what is no part of it", b"b1+c", 2),
    ("no word", b"+b", 0),
];

#[test]
fn passes_words(rt: HostRuntime) {
    let rt = &rt;
    for case in WORDS {
        let (name, text, at) = *case;
        let mut chars = chars_of(rt, text, Dialect::C11);
        chars.pass_word();
        same(rt, name, chars.at(), at);
    }
}

/// A text, and how many spaces begin it.
const SPACES: &[(&str, &[u8], u32)] = &[
    ("blanks and tabs before a line end", b" \t \r\n\t", 3),
    ("a tab before a word", b"\ta", 1),
    ("a blank before a splice", b" \\\n ", 1),
    ("a line end", b"\r\n a", 0),
];

#[test]
fn passes_spaces(rt: HostRuntime) {
    let rt = &rt;
    for case in SPACES {
        let (name, text, count) = *case;
        let mut chars = chars_of(rt, text, Dialect::C23);
        let passed = chars.pass_spaces();
        same(rt, name, (passed, chars.at()), (count, count as usize));
    }
}
