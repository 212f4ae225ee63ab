//! Texts that nobody would write, and ports that fail at each of their calls.

use crate::commands::{
    Ends, QUIET, Row, check, ends_of, files_of, same, sink, source_of, status_of,
};
use crate::whole_files::{DRIVER, DRIVER_STYLE};
use c_lexer::{Dialect, ItemKind, LIMIT, Lexer};
use std::alloc::Global;
use std::process::Abort;

/// A row, of which a call is made with each front of its input. It ends as the row says where its length is one from
/// the first to the last, and otherwise its items stay.
struct Fronts {
    row: Row,
    first: usize,
    last: usize,
}

const FRONTS: &[Fronts] = &[
    Fronts {
        row: Row {
            name: "fronts of a driver's source",
            files: &[(".clang-format", DRIVER_STYLE)],
            input: DRIVER,
            ..QUIET
        },
        first: 1,
        last: 0,
    },
    Fronts {
        row: Row {
            name: "fronts of a text with a comment",
            input: b"int x;  /*\n*/ #define Y\n",
            status: 4,
            notes: b"<stdin>: comment without an end at byte 8\n",
            ..QUIET
        },
        first: 10,
        last: 12,
    },
];

/// The kind and the bytes of the next item.
fn next_item<'s>(
    rt: &impl Abort,
    name: &str,
    lexer: &mut Lexer<'s>,
) -> Option<(ItemKind, &'s [u8])> {
    let item = lexer.next_item().expect(rt, name)?;
    Some((item.kind, item.raw))
}

/// Sees that two texts have the same items. Behind its last item a text has none at each further turn.
fn check_items(rt: &impl Abort, name: &str, text: &[u8], made: &[u8]) {
    assert!(rt; text.len() <= LIMIT && made.len() <= LIMIT);
    let mut before = Lexer::new(text, Dialect::C11);
    let mut after = Lexer::new(made, Dialect::C11);
    for _item in 0..=text.len() {
        let found = next_item(rt, name, &mut after);
        same(rt, name, found, next_item(rt, name, &mut before));
    }
}

/// Sees that a call with this input ends with status 0 and no notes, and keeps its items.
fn check_kept(rt: &impl Abort, alloc: Global, row: &Row, input: &[u8]) {
    let mut ends = ends_of(rt, alloc, row, input);
    let status = status_of(rt, alloc, row, &mut ends);
    same(rt, row.name, (status, ends.notes.taken()), (0, b""));
    check_items(rt, row.name, input, ends.out.taken());
}

fn check_fronts(rt: &impl Abort, alloc: Global, fronts: &Fronts) {
    let row = &fronts.row;
    for len in 0..=row.input.len() {
        let front = &row.input[..len];
        if fronts.first <= len && len <= fronts.last {
            check(rt, alloc, row, front);
        } else {
            check_kept(rt, alloc, row, front);
        }
    }
}

#[test]
fn takes_fronts_of_texts(rt: HostRuntime) {
    for fronts in FRONTS {
        check_fronts(&rt, rt.alloc(), fronts);
    }
}

const ONE_BYTE: &Row = &Row {
    name: "one byte",
    ..QUIET
};

#[test]
fn takes_each_byte(rt: HostRuntime) {
    for byte in 0..=255_u8 {
        check_kept(&rt, rt.alloc(), ONE_BYTE, &[byte]);
    }
}

/// Two heads of a statement and one body.
const HEADS: &[u8] = b"void g(void){\n#ifdef A\nif(x){\n#else\n  if (y){\n#endif\nf( );\n}\n}\n";

/// The same, laid out.
const HEADS_LAID_OUT: &[u8] =
    b"void g(void) {\n#ifdef A\n  if (x) {\n#else\n  if (y) {\n#endif\n    f();\n  }\n}\n";

/// The port of which a call fails.
#[derive(Clone, Copy)]
enum Port {
    Source,
    Out,
}

/// A row for each port, which says how a call ends in which one call of the port fails, and of which text its output is
/// a front.
const FAULTS: &[(Port, Row)] = &[
    (
        Port::Source,
        Row {
            name: "a read that fails",
            input: HEADS,
            status: 5,
            notes: b"<stdin>: failed\n",
            ..QUIET
        },
    ),
    (
        Port::Out,
        Row {
            name: "a write that fails",
            input: HEADS,
            status: 5,
            out: HEADS_LAID_OUT,
            notes: b"standard output: failed\n",
            ..QUIET
        },
    ),
];

/// Sees that a call ends as its row says where this call of a port is made, which fails. True where it isn't made.
fn is_past_last(rt: &impl Abort, alloc: Global, row: &Row, port: Port, number: u64) -> bool {
    let failing: &[u64] = &[number];
    let (reads, writes): (&[u64], &[u64]) = match port {
        Port::Source => (failing, &[]),
        Port::Out => (&[], failing),
    };
    let mut ends = Ends {
        source: source_of(rt, alloc, row.input, reads),
        out: sink(rt, alloc, writes),
        notes: sink(rt, alloc, row.failing_notes),
        files: files_of(rt, alloc, row),
    };
    let status = status_of(rt, alloc, row, &mut ends);
    if status != 0 {
        let is_front = row.out.starts_with(ends.out.taken());
        let found = (status, is_front, ends.notes.taken());
        same(rt, row.name, found, (row.status, true, row.notes));
    }
    status == 0
}

/// Sees that the first calls of a port that are made can fail, up to one that isn't made.
fn check_faults(rt: &impl Abort, alloc: Global, row: &Row, port: Port) {
    let mut is_told = false;
    for number in 1..1_000_u64 {
        if is_past_last(rt, alloc, row, port, number) {
            is_told = 1 < number;
            break;
        }
    }
    same(rt, row.name, is_told, true);
}

#[test]
fn tells_of_each_fault(rt: HostRuntime) {
    for (port, row) in FAULTS {
        check_faults(&rt, rt.alloc(), row, *port);
    }
}
