//! Whole texts of which some gaps stay: in the LLVM style, with what is asked for.

ghost use Rattle.style_table.specs.Range.{IsInRange};

use crate::comparing::same;
use bumpalo::Bump;
use format_core::{Job, Ranges, format};
use std::alloc::Global;
use std::process::Abort;
use style_table::Style;
use token_arena::Dialect;

/// A text, the lines that are asked for (none: all), and the formatted text.
struct Row {
    name: &'static str,
    text: &'static [u8],
    lines: &'static str,
    out: &'static [u8],
}

const ROWS: &[Row] = &[
    Row {
        name: "off in a line, to the end",
        text: b"f(a,  /* clang-format off */   b,c\n ,d );\nx=1;\n",
        lines: "",
        out: b"f(a, /* clang-format off */   b,c\n ,d );\nx=1;\n",
    },
    Row {
        name: "off and on",
        text: b"a=1;\n// clang-format off\nint  b [ 2 ];\n  // clang-format on\nint  c;\n",
        lines: "",
        out: b"a = 1;\n// clang-format off\nint  b [ 2 ];\n  // clang-format on\nint c;\n",
    },
    Row {
        name: "off in a directive",
        text: b"#define A /* clang-format off */  1\nint  a;\n/* clang-format on */\nint  b;\n",
        lines: "",
        out: b"#define A /* clang-format off */  1\nint  a;\n/* clang-format on */\nint b;\n",
    },
    Row {
        name: "off in a dead group",
        text: b"#if 0\n// clang-format off\n#endif\nint  a;\n",
        lines: "",
        out: b"#if 0\n// clang-format off\n#endif\nint  a;\n",
    },
    Row {
        name: "off at the end",
        text: b"int  a; // clang-format off\n \n  ",
        lines: "",
        out: b"int a; // clang-format off\n \n  ",
    },
    Row {
        name: "the second line",
        text: b"a=1;\nb=2;\nc=3;\n",
        lines: "2:2",
        out: b"a=1;\nb = 2;\nc=3;\n",
    },
    Row {
        name: "the first and the last line",
        text: b"a=1;\nb=2;\nc=3;  ",
        lines: "3:9,1:1",
        out: b"a = 1;\nb=2;\nc = 3;",
    },
    Row {
        name: "a line that isn't there",
        text: b"  a=1;\n\n\n\nb=2;  ",
        lines: "7:7",
        out: b"  a=1;\n\n\n\nb=2;  ",
    },
    Row {
        name: "a row in a line",
        text: b"f(a,b,\n  c,d,\n  e,g);\n",
        lines: "2:2",
        out: b"f(a,b, c, d,\n  e,g);\n",
    },
    Row {
        name: "a blank behind a backslash",
        text: b"#define M(x) do { \\ \n f( x );  g(x); \\\n} while (0)\nint  a;\n",
        lines: "",
        out: b"#define M(x) do { \\ \n f( x );  g(x); \\\n} while (0)\nint a;\n",
    },
    Row {
        name: "blanks behind two backslashes",
        text: b"#define M a; \\  \n b ;  \\\t\n  c  ;\nd  ;\n",
        lines: "",
        out: b"#define M a; \\  \n b ;  \\\t\n  c  ;\nd;\n",
    },
    Row {
        name: "a backslash at the end",
        text: b"int  a \\ \n\n ",
        lines: "",
        out: b"int a \\ \n\n ",
    },
    Row {
        name: "a backslash in a line",
        text: b"int  a \\ b  ;\nint  c;\n",
        lines: "",
        out: b"int a \\ b;\nint c;\n",
    },
    Row {
        name: "columns behind a gap that stays",
        text: b"f( /* clang-format off */\n                                                            aaaaaaaaaa /* clang-format on */ , b,c);\n",
        lines: "",
        out: b"f( /* clang-format off */\n                                                            aaaaaaaaaa /* clang-format on */,\n   b, c);\n",
    },
];

/// The text of a row is formatted so.
fn is_formatted(rt: &impl Abort, alloc: Global, style: &Style, run: &Bump, row: &Row)
    requires { IsInRange style.now }
{
    let ranges = Ranges::parse(alloc, row.lines).ok();
    let job = Job {
        budget: 2_000_000,
        dialect: Dialect::C11,
        ranges: ranges.as_ref(),
    };
    let made = format(alloc, run, row.text, style, &job)
        .ok()
        .expect(rt, row.name);
    let bytes = made.bytes(alloc).expect(rt, row.name);
    same(rt, row.name, bytes.as_slice(), row.out);
}

#[test]
fn keeps_gaps(rt: HostRuntime) {
    let style = Style::named("LLVM").expect(&rt, "a style");
    let run = Bump::new(rt.alloc());
    for row in ROWS {
        is_formatted(&rt, rt.alloc(), &style, &run, row);
    }
}
