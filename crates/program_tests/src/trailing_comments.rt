//! The rows of texts with trailing comments, in the LLVM style where a row names no other.

use crate::commands::{QUIET, Row};

/// Trailing comments, which stand in one column where their rows follow one another.
pub const TRAILING_COMMENTS: &[Row] = &[
    Row {
        name: "comments of two rows",
        input: b"a=1; // x\nbb=2; // y\n",
        out: b"a = 1;  // x\nbb = 2; // y\n",
        ..QUIET
    },
    Row {
        name: "an empty line parts comments",
        input: b"a=1; // x\n\nbb=2; // y\n",
        out: b"a = 1; // x\n\nbb = 2; // y\n",
        ..QUIET
    },
    Row {
        name: "a row without a comment parts comments",
        input: b"a=1; // x\nc;\nbb=2; // y\n",
        out: b"a = 1; // x\nc;\nbb = 2; // y\n",
        ..QUIET
    },
    Row {
        name: "a directive parts comments",
        input: b"a=1; // x\n#if A\nbb=2; // y\n#endif\n",
        out: b"a = 1; // x\n#if A\nbb = 2; // y\n#endif\n",
        ..QUIET
    },
    Row {
        name: "a style that aligns no comments",
        words: &["--style", "WebKit"],
        input: b"a=1;// x\nbb=2;// y\n",
        out: b"a = 1; // x\nbb = 2; // y\n",
        ..QUIET
    },
    Row {
        name: "two blanks before line comments",
        words: &["--style", "Google"],
        input: b"a=1; // x\nbb=2; // y\n",
        out: b"a = 1;   // x\nbb = 2;  // y\n",
        ..QUIET
    },
    Row {
        name: "a block comment of two rows, and a row behind it",
        input: b"a=1; /* x\n y */\nbb=2; // y\n",
        out: b"a = 1;  /* x\n y */\nbb = 2; // y\n",
        ..QUIET
    },
    Row {
        name: "comments of lines at several levels",
        input: b"void f(void){// a\nif(x){// b\ng();// c\n}}\n",
        out: b"void f(void) { // a\n  if (x) {     // b\n    g();       // c\n  }\n}\n",
        ..QUIET
    },
    Row {
        name: "comments of rows inside a line",
        input: b"int a[] = {1, // one\n22, // two\n};\n",
        out: b"int a[] = {\n    1,  // one\n    22, // two\n};\n",
        ..QUIET
    },
    Row {
        name: "a row behind a line comment",
        input: b"int a, // first\nb;\n",
        out: b"int a, // first\n    b;\n",
        ..QUIET
    },
    Row {
        name: "two comments on a row",
        input: b"a = b /* c */\n+ d; // e\nff = 2; // g\n",
        out: b"a = b /* c */ + d; // e\nff = 2;            // g\n",
        ..QUIET
    },
    Row {
        name: "a comment of a reported line stays, and counts",
        words: &["--states", "5"],
        input: b"f(a,b);   // x\ne=1; // y\n",
        out: b"f(a,b);   // x\ne = 1;    // y\n",
        notes: b"<stdin>:1: run 0: not searched within 5 cells\n",
        ..QUIET
    },
];
