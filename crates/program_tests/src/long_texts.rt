//! The rows of long texts, which no failure prints.

use crate::commands::{QUIET, Row, ends_of, same, status_of};
use crate::whole_files::{DRIVER, DRIVER_LAID_OUT, DRIVER_STYLE};
use c_chars::LIMIT;
use std::alloc::Global;
use std::process::Abort;

/// A text: its pieces in order, each so many times.
type Pieces = &'static [(&'static [u8], usize)];

/// What a long text gives.
enum Output {
    /// This text.
    Text(Pieces),
    /// So many bytes.
    Bytes(usize),
}

/// A row, its input and its output.
struct LongText {
    row: Row,
    input: Pieces,
    out: Output,
}

/// 100,000 brackets that nothing closes.
const BRACKETS: Pieces = &[(b"(", 100_000)];

/// 100,000 blocks that nothing closes.
const BRACES: Pieces = &[(b"{", 100_000)];

/// 100,000 conditionals in one another that nothing closes.
const CONDITIONALS: Pieces = &[(b"#ifdef A\n", 100_000), (b"x;\n", 1)];

/// A function with as many branches beside one another as statements behind them.
const BRANCHES: Pieces = &[
    (b"void f(void) {\n#if A\n", 1),
    (b"b();\n#elif B\n", 20_000),
    (b"#endif\n", 1),
    (b"c();\n", 20_000),
    (b"}\n", 1),
];

/// The same, laid out.
const BRANCHES_LAID_OUT: Pieces = &[
    (b"void f(void) {\n#if A\n", 1),
    (b"  b();\n#elif B\n", 20_000),
    (b"#endif\n", 1),
    (b"  c();\n", 20_000),
    (b"}\n", 1),
];

/// A function with conditionals in one another, each with two branches.
const BRANCHES_IN_BRANCHES: Pieces = &[
    (b"void f(void) {\n", 1),
    (b"#if A\nb();\n#else\nc();\n", 10_000),
    (b"#endif\n", 10_000),
    (b"}\n", 1),
];

/// Braces of all levels begin their rows at column 0.
const FLAT: &[(&str, &[u8])] = &[(".clang-format", b"IndentWidth: 0\n")];

/// A list of 4,096 numbers without white space.
const DENSE_LIST: Pieces = &[
    (b"unsigned char t[] = {", 1),
    (b"0x00,", 4_095),
    (b"0x00};\n", 1),
];

/// The same, laid out: broken behind its brace and then where a row is full, twelve numbers a row.
const LIST_IN_ROWS: Pieces = &[
    (b"unsigned char t[] = {\n    ", 1),
    (
        b"0x00, 0x00, 0x00, 0x00, 0x00, 0x00, 0x00, 0x00, 0x00, 0x00, 0x00, 0x00,\n    ",
        341,
    ),
    (b"0x00, 0x00, 0x00, 0x00};\n", 1),
];

const LONG_TEXTS: &[LongText] = &[
    LongText {
        row: Row {
            name: "brackets that nothing closes",
            notes: b"<stdin>:1: run 0: not searched within 2000000 cells\n",
            ..QUIET
        },
        input: BRACKETS,
        out: Output::Text(BRACKETS),
    },
    LongText {
        row: Row {
            name: "blocks that nothing closes",
            files: FLAT,
            ..QUIET
        },
        input: BRACES,
        out: Output::Text(&[(b"{\n", 99_999), (b"{", 1)]),
    },
    LongText {
        row: Row {
            name: "the lines of blocks that nothing closes",
            words: &["--dry-run"],
            files: FLAT,
            notes: b"<stdin>: runs 1, searched 100000, over 0, cost 0, changed\n",
            ..QUIET
        },
        input: BRACES,
        out: Output::Text(&[]),
    },
    LongText {
        row: Row {
            name: "conditionals that nothing closes",
            ..QUIET
        },
        input: CONDITIONALS,
        out: Output::Text(CONDITIONALS),
    },
    LongText {
        row: Row {
            name: "the runs of conditionals that nothing closes",
            words: &["--dry-run"],
            notes: b"<stdin>: runs 1, searched 1, over 0, cost 0, unchanged\n",
            ..QUIET
        },
        input: CONDITIONALS,
        out: Output::Text(&[]),
    },
    LongText {
        row: Row {
            name: "20,000 branches and as many statements in one function",
            ..QUIET
        },
        input: BRANCHES,
        out: Output::Text(BRANCHES_LAID_OUT),
    },
    LongText {
        row: Row {
            name: "10,000 conditionals in one another in one function",
            ..QUIET
        },
        input: BRANCHES_IN_BRANCHES,
        out: Output::Text(&[
            (b"void f(void) {\n", 1),
            (b"#if A\n  b();\n#else\n  c();\n", 10_000),
            (b"#endif\n", 10_000),
            (b"}\n", 1),
        ]),
    },
    LongText {
        row: Row {
            name: "a driver's source 200 times, 52,000 items",
            files: &[(".clang-format", DRIVER_STYLE)],
            ..QUIET
        },
        input: &[(DRIVER, 200)],
        out: Output::Text(&[(DRIVER_LAID_OUT, 200)]),
    },
    LongText {
        row: Row {
            name: "a long list",
            ..QUIET
        },
        input: DENSE_LIST,
        out: Output::Text(LIST_IN_ROWS),
    },
    LongText {
        row: Row {
            name: "a long list that is laid out",
            ..QUIET
        },
        input: LIST_IN_ROWS,
        out: Output::Text(LIST_IN_ROWS),
    },
    LongText {
        row: Row {
            name: "the longest input",
            ..QUIET
        },
        input: &[(b" ", LIMIT)],
        out: Output::Text(&[]),
    },
    LongText {
        row: Row {
            name: "an input past the limit",
            status: 4,
            notes: b"<stdin>: more than 8388608 bytes\n",
            ..QUIET
        },
        input: &[(b" ", LIMIT + 1)],
        out: Output::Text(&[]),
    },
    // Each row begins 8 columns further right: 8 * (0 + .. + 1,999) blanks, 2,000 braces and as many line ends.
    LongText {
        row: Row {
            name: "deep nesting, whose layout is far longer than the text",
            words: &["--style", "file:wide"],
            files: &[("wide", b"IndentWidth: 8\n")],
            ..QUIET
        },
        input: &[(b"{", 2_000), (b"\n", 1)],
        out: Output::Bytes(15_996_000),
    },
];

/// The bytes of a text.
fn spelled(rt: &impl Abort, alloc: Global, pieces: &[(&[u8], usize)]) -> Vec<u8> {
    let mut bytes = Vec::new(alloc);
    for (piece, times) in pieces {
        for _turn in 0..*times {
            bytes.extend_from_slice(piece).expect(rt, "memory");
        }
    }
    bytes
}

fn is_output(rt: &impl Abort, alloc: Global, found: &[u8], out: &Output) -> bool {
    match out {
        Output::Text(pieces) => found == spelled(rt, alloc, pieces).as_slice(),
        Output::Bytes(count) => found.len() == *count,
    }
}

fn check_long(rt: &impl Abort, alloc: Global, long: &LongText) {
    let row = &long.row;
    let input = spelled(rt, alloc, long.input);
    let mut ends = ends_of(rt, alloc, row, input.as_slice());
    let status = status_of(rt, alloc, row, &mut ends);
    let is_output = is_output(rt, alloc, ends.out.taken(), &long.out);
    let found = (status, is_output, ends.notes.taken());
    same(rt, row.name, found, (row.status, true, row.notes));
}

#[test]
fn takes_long_texts(rt: HostRuntime) {
    for long in LONG_TEXTS {
        check_long(&rt, rt.alloc(), long);
    }
}
