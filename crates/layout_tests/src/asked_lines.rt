//! Which gaps of worked texts stay.

use crate::comparing::same;
use crate::fixtures::marks_of;
use bumpalo::Bump;
use off_regions::{Ranges, frozen};
use std::alloc::Global;
use std::process::Abort;
use token_arena::{Dialect, build};

/// A text, its ranges, and a mark for each gap: `x` where it stays.
struct Row {
    name: &'static str,
    text: &'static [u8],
    lines: &'static str,
    marks: &'static [u8],
}

const ROWS: &[Row] = &[
    Row {
        name: "the empty text",
        text: b"",
        lines: "",
        marks: b".",
    },
    Row {
        name: "off to the end",
        text: b"a /* clang-format off */ b c\n",
        lines: "",
        marks: b"..xxx",
    },
    Row {
        name: "off and on: the gap before the comment that switches on stays too",
        text: b"// clang-format off\na b\n// clang-format on\nc\n",
        lines: "",
        marks: b".xxx..",
    },
    Row {
        name: "on without off",
        text: b"a /* clang-format on */ b\n",
        lines: "",
        marks: b"....",
    },
    Row {
        name: "off twice, on once",
        text: b"/* clang-format off */ a /* clang-format off */ b /* clang-format on */ c\n",
        lines: "",
        marks: b".xxxx..",
    },
    Row {
        name: "a reason behind a colon",
        text: b"/*clang-format off: a table*/ a /*\tclang-format on:*/ b\n",
        lines: "",
        marks: b".xx..",
    },
    Row {
        name: "words behind it without a colon",
        text: b"/* clang-format off a table */ a // clang-format off a\nb\n",
        lines: "",
        marks: b".....",
    },
    Row {
        name: "a blank before the colon",
        text: b"// clang-format off :\na\n",
        lines: "",
        marks: b"...",
    },
    Row {
        name: "other letters, other blanks, and more of the word",
        text: b"// Clang-format off\n// clang-format  off\n// clang-format offs\n//clang-formatoff\na\n",
        lines: "",
        marks: b"......",
    },
    Row {
        name: "a line comment with blanks at both ends",
        text: b"//\t clang-format off \t\r\na\n",
        lines: "",
        marks: b".xx",
    },
    Row {
        name: "a block comment over several rows",
        text: b"/*\r\n\x0b\x0c clang-format off\r\n*/ a\n",
        lines: "",
        marks: b".xx",
    },
    Row {
        name: "splices and trigraphs inside",
        text: b"/\\\n* clang-\\\nformat o??/\nff \\\n*\\\n/ a /\\\n/ clang-format \\\non\nb\n",
        lines: "",
        marks: b".xx..",
    },
    Row {
        name: "a star before the end",
        text: b"/* clang-format off **/ a\n",
        lines: "",
        marks: b"...",
    },
    Row {
        name: "a line comment that ends in a block's mark",
        text: b"// clang-format off*/\na\n",
        lines: "",
        marks: b"...",
    },
    Row {
        name: "off in a directive",
        text: b"#define A /* clang-format off */ 1\nb\n",
        lines: "",
        marks: b"....xxx",
    },
    Row {
        name: "off behind a directive",
        text: b"#define A 1 // clang-format off\nb\n",
        lines: "",
        marks: b".....xx",
    },
    Row {
        name: "off in a dead group",
        text: b"#if 0\n// clang-format off\n#endif\na\n",
        lines: "",
        marks: b"....xxxx",
    },
    Row {
        name: "in a string",
        text: b"\"/* clang-format off */\" a\n",
        lines: "",
        marks: b"...",
    },
    Row {
        name: "empty comments",
        text: b"/**/ //\n/***/ a\n",
        lines: "",
        marks: b".....",
    },
    Row {
        name: "the second line",
        text: b"a;\nb;\nc;\n",
        lines: "2:2",
        marks: b"xx..xxx",
    },
    Row {
        name: "the line behind the last new-line",
        text: b"a;\nb;\n",
        lines: "3:3",
        marks: b"xxxx.",
    },
    Row {
        name: "the last line, where no new-line ends it",
        text: b"a;\nb;",
        lines: "2:9",
        marks: b"xx...",
    },
    Row {
        name: "ranges in any order, some of which overlap",
        text: b"a\nb\nc\nd\ne\nf\n",
        lines: "5:6,1:3,2:2,3:3,6:6",
        marks: b"...x..x",
    },
    Row {
        name: "a short range inside a long one that begins before it",
        text: b"a\nb\nc\nd\ne\n",
        lines: "2:4,3:3",
        marks: b"x...xx",
    },
    Row {
        name: "an item over several lines counts by the line where it begins",
        text: b"a /* b\n*/ c\nd\n",
        lines: "2:2",
        marks: b"xx.xx",
    },
    Row {
        name: "spliced line ends and lines of two bytes are lines",
        text: b"a \\\nb\\\n\r\nc\\\n\\\nd\n",
        lines: "2:2,4:5",
        marks: b"x..x",
    },
    Row {
        name: "a byte order mark",
        text: b"\xef\xbb\xbfa\nb",
        lines: "1:1",
        marks: b".xx",
    },
    Row {
        name: "off in lines that are asked for",
        text: b"a // clang-format off\nb\nc /* clang-format on */ d\ne\n",
        lines: "1:3",
        marks: b"..xxx.xx",
    },
];

/// The gaps of a text have these marks where its lines are asked for.
fn has_marks(rt: &impl Abort, alloc: Global, run: &Bump, row: &Row) {
    let asked = Ranges::parse(alloc, row.lines).ok();
    let arena = build(run, row.text, Dialect::C11).expect(rt, row.name);
    let marks = frozen(&arena, asked.as_ref(), run).expect(rt, row.name);
    same(rt, row.name, marks_of(rt, marks, b'x', run), row.marks);
}

#[test]
fn marks_gaps(rt: HostRuntime) {
    let run = Bump::new(rt.alloc());
    for row in ROWS {
        has_marks(&rt, rt.alloc(), &run, row);
    }
}
