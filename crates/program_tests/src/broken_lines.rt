//! The rows of long lines: breaks, budgets and reports.

use crate::commands::{QUIET, Row};

/// Lines that are broken, or reported.
pub const BROKEN_LINES: &[Row] = &[
    Row {
        name: "a break where it costs least",
        input: b"call(aaaaaaaaaaaaaaaaaaaaaaaaaaaaaaaaaaaaaaaaaaaaaaaaaa, bbbbbbbbbbbbbbbbbbbbbbbbbbbbbbbbbbbb);\n",
        out: b"call(aaaaaaaaaaaaaaaaaaaaaaaaaaaaaaaaaaaaaaaaaaaaaaaaaa,\n     bbbbbbbbbbbbbbbbbbbbbbbbbbbbbbbbbbbb);\n",
        ..QUIET
    },
    Row {
        name: "a break behind a bracket, where all behind it fits on one row",
        input: b"nnnnnnnnnnnnnnnnnnnnnnnnnnnnnnnnnnnnnnnn(aaaaaaaaaaaaaaaaaaaaaaaaaaaaaaaaaaaaaaaa, bbbbbbbbbbbbbbbbbbbbbbbbbbbbbb);\n",
        out: b"nnnnnnnnnnnnnnnnnnnnnnnnnnnnnnnnnnnnnnnn(\n    aaaaaaaaaaaaaaaaaaaaaaaaaaaaaaaaaaaaaaaa, bbbbbbbbbbbbbbbbbbbbbbbbbbbbbb);\n",
        ..QUIET
    },
    Row {
        name: "a line that fits, in rows",
        input: b"f(a,\n  b\n  );\n",
        out: b"f(a, b);\n",
        ..QUIET
    },
    Row {
        name: "a list with a last comma",
        input: b"int a[] = {1, // one\n2,};\n",
        out: b"int a[] = {\n    1, // one\n    2,\n};\n",
        ..QUIET
    },
    Row {
        name: "a line over its budget",
        words: &["--states", "1"],
        input: b"call(aaaaaaaaaaaaaaaaaaaaaaaaaaaaaaaaaaaaaaaaaaaaaaaaaa, bbbbbbbbbbbbbbbbbbbbbbbbbbbbbbbbbbbb);\n",
        out: b"call(aaaaaaaaaaaaaaaaaaaaaaaaaaaaaaaaaaaaaaaaaaaaaaaaaa, bbbbbbbbbbbbbbbbbbbbbbbbbbbbbbbbbbbb);\n",
        notes: b"<stdin>:1: run 0: not searched within 1 cells\n",
        ..QUIET
    },
    Row {
        name: "a line within its budget",
        words: &["--states=16000000"],
        input: b"call(aaaaaaaaaaaaaaaaaaaaaaaaaaaaaaaaaaaaaaaaaaaaaaaaaa, bbbbbbbbbbbbbbbbbbbbbbbbbbbbbbbbbbbb);\n",
        out: b"call(aaaaaaaaaaaaaaaaaaaaaaaaaaaaaaaaaaaaaaaaaaaaaaaaaa,\n     bbbbbbbbbbbbbbbbbbbbbbbbbbbbbbbbbbbb);\n",
        ..QUIET
    },
    Row {
        name: "lines over their budget in two runs",
        words: &["--states", "2"],
        input: b"x ;\n#ifdef A\n  f(a,b);\n#else\n  g(a ,b);\n#endif\n",
        out: b"x;\n#ifdef A\nf(a,b);\n#else\ng(a ,b);\n#endif\n",
        notes: b"<stdin>:3: run 0: not searched within 2 cells\n<stdin>:5: run 1: not searched within 2 cells\n",
        ..QUIET
    },
    Row {
        name: "reports behind skipped keys",
        words: &["--states", "1"],
        input: b"f(a,b);\n",
        files: &[(".clang-format", b"SortIncludes: Never\n")],
        out: b"f(a,b);\n",
        notes: b".clang-format:1: skipped SortIncludes\n<stdin>:1: run 0: not searched within 1 cells\n",
        ..QUIET
    },
    Row {
        name: "rows that stay where there is no limit of columns",
        words: &["--style", "WebKit"],
        input: b"if(a){\nf(b,\nc);}\n",
        out: b"if (a) {\n    f(b,\n        c);\n}\n",
        ..QUIET
    },
    Row {
        name: "rows that stay, behind an open bracket",
        input: b"f(a,\nb,c);\n",
        files: &[(".clang-format", b"ColumnLimit: 0\n")],
        out: b"f(a,\n  b, c);\n",
        ..QUIET
    },
];

/// Budgets that the words tell, and reports of files.
pub const BUDGETS: &[Row] = &[
    Row {
        name: "no cells",
        words: &["--states", "0"],
        input: b"a",
        status: 2,
        notes: b"clang_format: --states 0: not 1 to 16000000\n",
        ..QUIET
    },
    Row {
        name: "too many cells",
        words: &["--states", "16000001"],
        input: b"a",
        status: 2,
        notes: b"clang_format: --states 16000001: not 1 to 16000000\n",
        ..QUIET
    },
    Row {
        name: "cells that are no number",
        words: &["--states", "1x"],
        input: b"a",
        status: 2,
        notes: b"clang_format: --states 1x: not 1 to 16000000\n",
        ..QUIET
    },
    Row {
        name: "cells in ten digits",
        words: &["--states", "0000000001"],
        input: b"a",
        status: 2,
        notes: b"clang_format: --states 0000000001: not 1 to 16000000\n",
        ..QUIET
    },
    Row {
        name: "no cells, and -i without a file",
        words: &["--states", "0", "-i"],
        input: b"a",
        status: 2,
        notes: b"clang_format: --states 0: not 1 to 16000000\n",
        ..QUIET
    },
    Row {
        name: "cells with a zero before them",
        words: &["--states", "010"],
        input: b"f(a,b);\n",
        out: b"f(a,b);\n",
        notes: b"<stdin>:1: run 0: not searched within 10 cells\n",
        ..QUIET
    },
    Row {
        name: "a report, and a file that isn't there",
        words: &["--states", "1", "a.c", "b.c"],
        files: &[("a.c", b"f(a,b);\n")],
        status: 6,
        out: b"f(a,b);\n",
        notes: b"a.c:1: run 0: not searched within 1 cells\nb.c: missing\n",
        ..QUIET
    },
    Row {
        name: "reports of files that are written back",
        words: &["--states", "1", "-i", "a.c"],
        files: &[("a.c", b"\n  f(a,b);\n")],
        notes: b"a.c:2: run 0: not searched within 1 cells\n",
        held: &[("a.c", b"f(a,b);\n")],
        ..QUIET
    },
    Row {
        name: "notes that fail at a report",
        words: &["--states", "1"],
        input: b"f(a,b);\n",
        failing_notes: &[1],
        status: 5,
        ..QUIET
    },
];
