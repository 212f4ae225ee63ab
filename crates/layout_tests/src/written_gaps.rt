//! The bytes of decisions, as `docs/PROFILE.md` says under "White space of a decision".

ghost use Rattle.style_table.specs.Range.{IsInRange};

use crate::comparing::same;
use crate::fixtures::style;
use fmt_ports::TextSink;
use replacements::{Decision, write_gap};
use std::alloc::Global;
use std::process::Abort;
use style_table::{Style, UseTab};

/// The LLVM style with tabs of four columns, used so.
fn tabbed(rt: &impl Abort, use_tab: UseTab) -> Style
    ensures { IsInRange result }
{
    let mut style = style(rt, "LLVM");
    style.use_tab = use_tab;
    style.tab_width = 4;
    style
}

/// The old bytes of each gap.
const OLD: &[u8] = b" \\\n\t";

/// What a decision writes with tabs used so.
fn written(
    rt: &impl Abort,
    alloc: Global,
    use_tab: UseTab,
    crlf: bool,
    decision: Decision,
) -> Vec<u8> {
    let style = tabbed(rt, use_tab);
    let mut sink = TextSink::with_room(alloc, 0).expect(rt, "a sink");
    let written = write_gap(&style, crlf, decision, OLD, &mut sink);
    written.ok().expect(rt, "a write");
    sink.into_text()
}

/// Two line ends, and a row of a line of level 3 (six columns) that starts at column 9.
const ROW: Decision = Decision::Lines {
    count: 2,
    column: 9,
    level: 3,
};

/// The same row behind a splice.
const SPLICE: Decision = Decision::Splice { pad: 2, column: 9 };

/// A row at column 3 of a line of the deepest level.
const DEEP: Decision = Decision::Lines {
    count: 1,
    column: 3,
    level: u32::MAX,
};

/// A use of tabs, a decision, whether lines end in two bytes, and what is written.
const WRITTEN: &[(&str, UseTab, Decision, bool, &[u8])] = &[
    ("a row, Never", UseTab::Never, ROW, false, b"\n\n         "),
    (
        "a splice, Never",
        UseTab::Never,
        SPLICE,
        false,
        b"  \\\n         ",
    ),
    (
        "a row, ForIndentation",
        UseTab::ForIndentation,
        ROW,
        false,
        b"\n\n\t     ",
    ),
    (
        "a splice, ForIndentation",
        UseTab::ForIndentation,
        SPLICE,
        false,
        b"  \\\n\t\t ",
    ),
    (
        "a row, ForContinuationAndIndentation",
        UseTab::ForContinuationAndIndentation,
        ROW,
        false,
        b"\n\n\t\t ",
    ),
    (
        "a splice, ForContinuationAndIndentation",
        UseTab::ForContinuationAndIndentation,
        SPLICE,
        false,
        b"  \\\n\t\t ",
    ),
    (
        "a row, AlignWithSpaces",
        UseTab::AlignWithSpaces,
        ROW,
        false,
        b"\n\n\t     ",
    ),
    (
        "a splice, AlignWithSpaces",
        UseTab::AlignWithSpaces,
        SPLICE,
        false,
        b"  \\\n\t\t ",
    ),
    ("a row, Always", UseTab::Always, ROW, false, b"\n\n\t\t "),
    (
        "a splice, Always",
        UseTab::Always,
        SPLICE,
        false,
        b"  \\\n\t\t ",
    ),
    (
        "the old bytes",
        UseTab::Never,
        Decision::Old,
        false,
        b" \\\n\t",
    ),
    ("no blank", UseTab::Never, Decision::Spaces(0), false, b""),
    (
        "three blanks",
        UseTab::Never,
        Decision::Spaces(3),
        true,
        b"   ",
    ),
    (
        "two line ends",
        UseTab::Never,
        ROW,
        true,
        b"\r\n\r\n         ",
    ),
    ("a deep row", UseTab::Never, DEEP, false, b"\n   "),
    (
        "a splice",
        UseTab::Never,
        Decision::Splice { pad: 0, column: 0 },
        true,
        b"\\\r\n",
    ),
];

#[test]
fn writes_what_was_decided(rt: HostRuntime) {
    for case in WRITTEN {
        let (name, use_tab, decision, crlf, want) = *case;
        let text = written(&rt, rt.alloc(), use_tab, crlf, decision);
        same(&rt, name, text.as_slice(), want);
    }
}

/// Line ends with columns and no level: how tabs are used, whether lines end in two bytes, how many there are, the
/// column, and what is written.
const LINES: &[(&str, UseTab, bool, u32, u32, &[u8])] = &[
    ("one line end", UseTab::Never, false, 1, 3, b"\n   "),
    ("two line ends", UseTab::Never, false, 2, 0, b"\n\n"),
    ("three line ends", UseTab::Never, false, 3, 0, b"\n\n\n"),
    (
        "many columns",
        UseTab::Never,
        false,
        1,
        65,
        b"\n                                                                 ",
    ),
    ("carriage returns", UseTab::Never, true, 1, 3, b"\r\n   "),
    ("tabs", UseTab::Always, false, 1, 5, b"\n\t "),
];

#[test]
fn writes_lines_without_a_level(rt: HostRuntime) {
    for case in LINES {
        let (name, use_tab, crlf, count, column, want) = *case;
        let decision = Decision::Lines {
            count,
            column,
            level: 0,
        };
        let text = written(&rt, rt.alloc(), use_tab, crlf, decision);
        same(&rt, name, text.as_slice(), want);
    }
}
