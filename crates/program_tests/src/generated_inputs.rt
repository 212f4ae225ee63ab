//! The rows of inputs that `--generate` makes.

use crate::commands::{QUIET, Row};

/// What is told of the first four pieces in the LLVM style.
const FOUR_PIECES: &[u8] = b"<generated>: runs 2, searched 6, over 0, cost 1, changed\n";

/// What is told where `--generate` has a word beside it that it takes none of.
const BESIDE: &[u8] = b"clang_format: --generate takes no file, -i or --dump-config\n";

/// Inputs that are made, and values and words that are refused.
pub const GENERATED_INPUTS: &[Row] = &[
    Row {
        name: "an input that is made: the source isn't read, and no text is written",
        words: &["--generate", "5:4"],
        input: b"a=1;\n",
        failing_reads: &[1],
        failing_writes: &[1],
        notes: FOUR_PIECES,
        ..QUIET
    },
    Row {
        name: "leading zeros",
        words: &["--generate=000000005:004"],
        notes: FOUR_PIECES,
        ..QUIET
    },
    Row {
        name: "a dry run of an input that is made",
        words: &["--dry-run", "--generate=5:4", "--Werror"],
        status: 1,
        notes: FOUR_PIECES,
        ..QUIET
    },
    Row {
        name: "--Werror without --dry-run",
        words: &["--generate=5:4", "--Werror"],
        notes: FOUR_PIECES,
        ..QUIET
    },
    Row {
        name: "one piece, and no limit",
        words: &["--style=WebKit", "--generate", "999999999:1"],
        notes: b"<generated>: runs 1, searched 0, over 0, cost 0, changed\n",
        ..QUIET
    },
    Row {
        name: "many pieces",
        words: &["--generate", "1:20000"],
        notes: b"<generated>: runs 2, searched 30000, over 0, cost 5000, changed\n",
        ..QUIET
    },
    Row {
        name: "a style goes before an input that is made",
        words: &["--generate", "5:4", "--style", "Foo"],
        status: 3,
        notes: b"clang_format: style Foo: unknown name\n",
        ..QUIET
    },
    Row {
        name: "notes that fail at an input that is made",
        words: &["--generate", "5:4"],
        failing_notes: &[1],
        status: 5,
        ..QUIET
    },
    Row {
        name: "no pieces",
        words: &["--generate", "1:0"],
        input: b"a=1;\n",
        status: 2,
        notes: b"clang_format: --generate 1:0: not N:COUNT\n",
        ..QUIET
    },
    Row {
        name: "no colon",
        words: &["--generate", "1"],
        status: 2,
        notes: b"clang_format: --generate 1: not N:COUNT\n",
        ..QUIET
    },
    Row {
        name: "no N",
        words: &["--generate", ":1"],
        status: 2,
        notes: b"clang_format: --generate :1: not N:COUNT\n",
        ..QUIET
    },
    Row {
        name: "no COUNT",
        words: &["--generate", "1:"],
        status: 2,
        notes: b"clang_format: --generate 1:: not N:COUNT\n",
        ..QUIET
    },
    Row {
        name: "a piece too many",
        words: &["--generate", "1:100001"],
        status: 2,
        notes: b"clang_format: --generate 1:100001: not N:COUNT\n",
        ..QUIET
    },
    Row {
        name: "ten digits",
        words: &["--generate", "1000000000:1"],
        status: 2,
        notes: b"clang_format: --generate 1000000000:1: not N:COUNT\n",
        ..QUIET
    },
    Row {
        name: "a sign",
        words: &["--generate", "+1:1"],
        status: 2,
        notes: b"clang_format: --generate +1:1: not N:COUNT\n",
        ..QUIET
    },
    Row {
        name: "an input that is made, and a file",
        words: &["--generate", "5:4", "a.c"],
        files: &[("a.c", b"a=1;\n")],
        status: 2,
        notes: BESIDE,
        held: &[("a.c", b"a=1;\n")],
        ..QUIET
    },
    Row {
        name: "an input that is made, -i and a file",
        words: &["--generate", "5:4", "-i", "a.c"],
        files: &[("a.c", b"a=1;\n")],
        status: 2,
        notes: BESIDE,
        held: &[("a.c", b"a=1;\n")],
        ..QUIET
    },
    Row {
        name: "an input that is made and -i: the FILE is missed first",
        words: &["--generate", "5:4", "-i"],
        status: 2,
        notes: b"clang_format: -i needs a file\n",
        ..QUIET
    },
    Row {
        name: "an input that is made, and a dump",
        words: &["--generate", "5:4", "--dump-config"],
        status: 2,
        notes: BESIDE,
        ..QUIET
    },
    Row {
        name: "a dump and -i, and a value that is refused first",
        words: &["--generate", "x", "-i", "--dump-config"],
        status: 2,
        notes: b"clang_format: --generate x: not N:COUNT\n",
        ..QUIET
    },
];
