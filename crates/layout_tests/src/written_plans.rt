//! Plans of small texts, and the text that is written of them.

ghost use Rattle.std.specs.Prelude.{◌≡◌, ◌+◌, length};

use crate::fixtures::{Output, WHOLE, is_written, items, open_plan, style};
use bumpalo::Bump;
use replacements::{Decision, Plan};
use std::process::Abort;
use token_arena::{TokenArena, sections};

/// A text, what is decided for its gaps, and the text of that plan in the LLVM style.
struct Row {
    name: &'static str,
    input: &'static [u8],
    decisions: &'static [(u32, Decision)],
    output: Output,
}

/// One line end.
const LINE: Decision = Decision::Lines {
    count: 1,
    column: 0,
    level: 1,
};

/// One line end, and two columns.
const LINE_AND_TWO: Decision = Decision::Lines {
    count: 1,
    column: 2,
    level: 1,
};

/// Two line ends, and one column.
const LINES_AND_ONE: Decision = Decision::Lines {
    count: 2,
    column: 1,
    level: 1,
};

/// Two line ends, and four columns.
const LINES_AND_FOUR: Decision = Decision::Lines {
    count: 2,
    column: 4,
    level: 1,
};

const ROWS: &[Row] = &[
    Row {
        name: "nothing is decided",
        input: b" a \n\tb /* c */ \\\n",
        decisions: &[],
        output: Output {
            text: b" a \n\tb /* c */ \\\n",
            ..WHOLE
        },
    },
    Row {
        name: "the first gap, behind a byte order mark",
        input: b"\xEF\xBB\xBF  a",
        decisions: &[(0, Decision::Spaces(3))],
        output: Output {
            text: b"\xEF\xBB\xBFa",
            ..WHOLE
        },
    },
    Row {
        name: "a first item that would read as a mark",
        input: b"\t\xEF\xBB\xBFa",
        decisions: &[(0, Decision::Spaces(0))],
        output: Output {
            text: b" \xEF\xBB\xBFa",
            ..WHOLE
        },
    },
    Row {
        name: "line ends and indentation",
        input: b"a b",
        decisions: &[(1, LINES_AND_FOUR)],
        output: Output {
            text: b"a\n\n    b",
            ..WHOLE
        },
    },
    Row {
        name: "a carriage return before each new-line",
        input: b"a b",
        decisions: &[(1, LINE_AND_TWO)],
        output: Output {
            crlf: true,
            text: b"a\r\n  b",
            ..WHOLE
        },
    },
    Row {
        name: "joined lines",
        input: b"a\n\n b;",
        decisions: &[(1, Decision::Spaces(1)), (2, Decision::Spaces(0))],
        output: Output {
            text: b"a b;",
            ..WHOLE
        },
    },
    Row {
        name: "items that touch",
        input: b"a + b",
        decisions: &[(1, Decision::Spaces(0)), (2, Decision::Spaces(0))],
        output: Output {
            text: b"a+b",
            ..WHOLE
        },
    },
    Row {
        name: "a hash that begins no directive, behind a comment",
        input: b"a  /**/#b",
        decisions: &[(1, LINE), (2, LINE), (3, LINE)],
        output: Output {
            text: b"a /**/ #\nb",
            ..WHOLE
        },
    },
    Row {
        name: "a directive and the text behind it",
        input: b"a\n\n  #b  c\n   d",
        decisions: &[(1, LINE), (4, LINES_AND_ONE)],
        output: Output {
            text: b"a\n#b  c\n\n d",
            ..WHOLE
        },
    },
    Row {
        name: "a spliced line",
        input: b"#define a b",
        decisions: &[(3, Decision::Splice { pad: 1, column: 4 })],
        output: Output {
            text: b"#define a \\\n    b",
            ..WHOLE
        },
    },
    Row {
        name: "a line end behind a backslash",
        input: b"a \\ b",
        decisions: &[(2, LINE)],
        output: Output {
            text: b"a \\ \nb",
            ..WHOLE
        },
    },
    Row {
        name: "a line end behind a comment that ends in a backslash",
        input: b"//a\\\\\n\nb",
        decisions: &[(1, LINE)],
        output: Output {
            text: b"//a\\\\\n\nb",
            ..WHOLE
        },
    },
    Row {
        name: "the last gap",
        input: b"a \n\n\t",
        decisions: &[(1, LINE)],
        output: Output {
            text: b"a\n",
            ..WHOLE
        },
    },
    Row {
        name: "no last gap",
        input: b"a \n\n\t",
        decisions: &[(1, Decision::Spaces(0))],
        output: Output {
            text: b"a",
            ..WHOLE
        },
    },
    Row {
        name: "a text without items",
        input: b" \t",
        decisions: &[(0, LINE)],
        output: Output {
            text: b"\n",
            ..WHOLE
        },
    },
    Row {
        name: "a sink that fails in the midst",
        input: b"a b c",
        decisions: &[(1, Decision::Spaces(2)), (2, Decision::Spaces(2))],
        output: Output {
            failing: &[2],
            text: b"a",
            done: false,
            ..WHOLE
        },
    },
];

/// A plan with these decisions; those of no gap are passed over.
fn planned<'a>(
    rt: &impl Abort,
    arena: &TokenArena<'_, '_>,
    decisions: &[(u32, Decision)],
    bump: &'a Bump,
) -> Plan<'a>
    ensures { length result ≡ length arena.now.tokens + 1 }
{
    let mut plan = open_plan(rt, arena, bump);
    for (place, decision) in decisions {
        if *place <= arena.len() {
            let _decided = plan.decide(*place, *decision, 0);
        }
    }
    plan
}

#[test]
fn writes_each_row(rt: HostRuntime) {
    let bump = Bump::new(rt.alloc());
    let style = style(&rt, "LLVM");
    for row in ROWS {
        let arena = items(&rt, row.input, &bump);
        let sections = sections(&arena, &bump).expect(&rt, "sections");
        let plan = planned(&rt, &arena, row.decisions, &bump);
        is_written(
            &rt,
            rt.alloc(),
            row.name,
            &style,
            &arena,
            sections,
            &plan,
            &row.output,
        );
    }
}
