//! The table of calls, and the rows of words, styles, ports and files.

use crate::broken_lines::{BROKEN_LINES, BUDGETS};
use crate::formatted_texts::{BRANCHES, DIRECTIVES, GAPS, ITEMS, JOINED, STATEMENTS, STYLES};
use crate::generated_inputs::GENERATED_INPUTS;
use crate::trailing_comments::TRAILING_COMMENTS;
use crate::whole_files::WHOLE_FILES;
use format_cli::format_command;
use memory_ports::{MemFiles, MemSink, MemSource};
use std::alloc::Global;
use std::fmt::Debug;
use std::process::Abort;

/// A file: its name and its bytes.
pub type File = (&'static str, &'static [u8]);

/// A call: its words, its input, its files, and the calls of each port that fail, counted from 1; then its status, what
/// it writes and tells, and what a file holds afterwards.
#[derive(Clone, Copy)]
pub struct Row {
    pub name: &'static str,
    pub words: &'static [&'static str],
    pub input: &'static [u8],
    pub files: &'static [File],
    pub failing_reads: &'static [u64],
    pub failing_writes: &'static [u64],
    pub failing_notes: &'static [u64],
    pub failing_files: &'static [u64],
    pub status: u8,
    pub out: &'static [u8],
    pub notes: &'static [u8],
    pub held: &'static [File],
}

/// A call without words, input or files, in which nothing fails and that does nothing.
pub const QUIET: Row = Row {
    name: "a call that does nothing",
    words: &[],
    input: b"",
    files: &[],
    failing_reads: &[],
    failing_writes: &[],
    failing_notes: &[],
    failing_files: &[],
    status: 0,
    out: b"",
    notes: b"",
    held: &[],
};

/// The LLVM style as a configuration.
const LLVM: &[u8] = b"---
Language: Cpp
ColumnLimit: 80
IndentWidth: 2
ContinuationIndentWidth: 4
TabWidth: 8
UseTab: Never
BreakBeforeBraces: Attach
BraceWrapping:
  AfterCaseLabel: false
  AfterEnum: false
  AfterExternBlock: false
  AfterFunction: false
  AfterStruct: false
  AfterUnion: false
  BeforeElse: false
  BeforeWhile: false
  AfterControlStatement: Never
PointerAlignment: Right
SpaceBeforeParens: ControlStatements
AlignAfterOpenBracket: Align
BinPackArguments: true
BinPackParameters: true
BreakBeforeBinaryOperators: None
BreakBeforeTernaryOperators: true
MaxEmptyLinesToKeep: 1
KeepEmptyLinesAtTheStartOfBlocks: true
IndentCaseLabels: false
IndentGotoLabels: true
IndentPPDirectives: None
AllowShortFunctionsOnASingleLine: All
AllowShortIfStatementsOnASingleLine: Never
AllowShortLoopsOnASingleLine: false
AllowShortBlocksOnASingleLine: Never
AllowShortCaseLabelsOnASingleLine: false
AllowShortEnumsOnASingleLine: true
SpacesBeforeTrailingComments: 1
SpaceAfterCStyleCast: false
Cpp11BracedListStyle: true
AlignEscapedNewlines: Right
AlignTrailingComments:
  Kind: Always
LineEnding: DeriveLF
InsertNewlineAtEOF: false
SkipMacroDefinitionBody: false
PenaltyBreakAssignment: 2
PenaltyBreakBeforeFirstCallParameter: 19
PenaltyBreakOpenParenthesis: 0
PenaltyExcessCharacter: 1000000
PenaltyReturnTypeOnItsOwnLine: 60
...
";

/// Words and styles that are refused.
const WORDS_AND_STYLES: &[Row] = &[
    Row {
        name: "an unknown word",
        words: &["--sort", "1:2"],
        input: b"a",
        status: 2,
        notes: b"usage: clang_format [--style S] [--lines L] [--states N] [-i] [--dry-run] [--Werror] [--dump-config] [--generate N:COUNT] [FILE ..]\n",
        ..QUIET
    },
    Row {
        name: "-i without a file",
        words: &["-i"],
        status: 2,
        notes: b"clang_format: -i needs a file\n",
        ..QUIET
    },
    Row {
        name: "an unknown style",
        words: &["--style", "Foo"],
        input: b"a",
        status: 3,
        notes: b"clang_format: style Foo: unknown name\n",
        ..QUIET
    },
    Row {
        name: "a value of no key",
        input: b"a",
        files: &[(".clang-format", b"ColumnLimit: eighty\n")],
        status: 3,
        notes: b".clang-format:1: bad value\n",
        ..QUIET
    },
    Row {
        name: "a number out of its range",
        input: b"a",
        files: &[(".clang-format", b"ColumnLimit: 1001\n")],
        status: 3,
        notes: b".clang-format:1: out of range\n",
        ..QUIET
    },
    Row {
        name: "a key twice",
        words: &["--style=file:s", "-i", "a.c"],
        files: &[("a.c", b"a"), ("s", b"TabWidth: 2\nTabWidth: 2\n")],
        status: 3,
        notes: b"s:2: repeated key\n",
        held: &[("a.c", b"a")],
        ..QUIET
    },
    Row {
        name: "a base of no name",
        files: &[(".clang-format", b"\nBasedOnStyle: Foo\n")],
        status: 3,
        notes: b".clang-format:2: unknown style\n",
        ..QUIET
    },
    Row {
        name: "no line of a configuration",
        files: &[(".clang-format", b"TabWidth\n")],
        status: 3,
        notes: b".clang-format:1: bad line\n",
        ..QUIET
    },
    Row {
        name: "a configuration that isn't UTF-8",
        files: &[(".clang-format", b"a: \xff\n")],
        status: 3,
        notes: b".clang-format: not UTF-8 at byte 3\n",
        ..QUIET
    },
    Row {
        name: "a configuration that isn't there",
        words: &["--style", "file:s"],
        status: 6,
        notes: b"s: missing\n",
        ..QUIET
    },
];

/// Styles that are dumped.
const DUMPS: &[Row] = &[
    Row {
        name: "the dump",
        words: &["--dump-config"],
        input: b"a",
        failing_reads: &[1],
        out: LLVM,
        ..QUIET
    },
    Row {
        name: "the dump of a named style, and no configuration read",
        words: &["--style=LLVM", "--dump-config", "-i", "b.c"],
        files: &[(".clang-format", b"x")],
        failing_files: &[1],
        out: LLVM,
        ..QUIET
    },
    Row {
        name: "the dump of a configuration with skipped keys",
        words: &["--dump-config", "--style=file:s"],
        files: &[("s", b"Skip: 1\nBraceWrapping:\n  Skip: 2\n")],
        out: LLVM,
        notes: b"s:1: skipped Skip\ns:3: skipped BraceWrapping.Skip\n",
        ..QUIET
    },
    Row {
        name: "the dump of another tool's configuration",
        words: &["--dump-config"],
        files: &[(
            ".clang-format",
            b"---\nLanguage:        Cpp\n# BasedOnStyle:  LLVM\nBasedOnStyle:    ''\nColumnLimit:     80\nMacroBlockBegin: ''\n...\n",
        )],
        out: LLVM,
        notes: b".clang-format:6: skipped MacroBlockBegin\n",
        ..QUIET
    },
];

/// Inputs that are read, and texts that are put in their places.
const INPUTS: &[Row] = &[
    Row {
        name: "the empty input with skipped keys",
        files: &[(
            ".clang-format",
            b"---\nLanguage:        Cpp\n# LLVM values, some changed\nBasedOnStyle:  LLVM\nIndentWidth:     4\nAllowShortIfStatementsOnASingleLine: true\nBreakBeforeBraces: Custom\nBraceWrapping:\n  AfterFunction:   true\n  SplitEmptyFunction: true\nIncludeCategories:\n  - Regex:           '^\"(llvm)/'\n    Priority:        2\n...\n",
        )],
        notes: b".clang-format:10: skipped BraceWrapping.SplitEmptyFunction\n.clang-format:11: skipped IncludeCategories\n",
        ..QUIET
    },
    Row {
        name: "files in order, one of them twice",
        words: &["a.c", "b.c", "a.c"],
        files: &[("a.c", b"a  b\n"), ("b.c", b"c\n")],
        out: b"a b\nc\na b\n",
        held: &[("a.c", b"a  b\n")],
        ..QUIET
    },
    Row {
        name: "written back, and read again",
        words: &["-i", "a.c", "a.c"],
        files: &[("a.c", b"x  =1;\n")],
        failing_files: &[5],
        held: &[("a.c", b"x = 1;\n")],
        ..QUIET
    },
    Row {
        name: "an unchanged file isn't written",
        words: &["-i", "a.c"],
        files: &[("a.c", b"x = 1;\n")],
        failing_files: &[3],
        held: &[("a.c", b"x = 1;\n")],
        ..QUIET
    },
    Row {
        name: "written back, and then one that isn't there",
        words: &["-i", "a.c", "b.c"],
        files: &[("a.c", b"x  =1;\n")],
        status: 6,
        notes: b"b.c: missing\n",
        held: &[("a.c", b"x = 1;\n")],
        ..QUIET
    },
    Row {
        name: "a file that isn't there",
        words: &["b.c"],
        status: 6,
        notes: b"b.c: missing\n",
        ..QUIET
    },
    Row {
        name: "a comment without an end",
        input: b"int a; /* x",
        status: 4,
        notes: b"<stdin>: comment without an end at byte 7\n",
        ..QUIET
    },
    Row {
        name: "a file with a comment without an end",
        words: &["a.c", "b.c"],
        files: &[("a.c", b"a;  b;\n"), ("b.c", b"/*")],
        status: 4,
        out: b"a;\nb;\n",
        notes: b"b.c: comment without an end at byte 0\n",
        ..QUIET
    },
];

/// Lines that are asked for.
const ASKED_LINES: &[Row] = &[
    Row {
        name: "one line of three",
        words: &["--lines", "2:2"],
        input: b"a=1;\nb=2;\nc=3;\n",
        out: b"a=1;\nb = 2;\nc=3;\n",
        ..QUIET
    },
    Row {
        name: "lines of a file",
        words: &["-i", "--lines=1:1,3:9", "a.c"],
        files: &[("a.c", b"a=1;\nb=2;\nc=3;\n")],
        held: &[("a.c", b"a = 1;\nb=2;\nc = 3;\n")],
        ..QUIET
    },
    Row {
        name: "no line is asked for",
        words: &["--lines", "9:9", "--dry-run", "--Werror"],
        input: b"a=1;\n",
        notes: b"<stdin>: runs 1, searched 0, over 0, cost 0, unchanged\n",
        ..QUIET
    },
    Row {
        name: "a range that is reversed",
        words: &["--lines", "3:2"],
        input: b"a=1;\n",
        status: 2,
        notes: b"clang_format: --lines 3:2: reversed at 0\n",
        ..QUIET
    },
    Row {
        name: "a range that is no text of two numbers",
        words: &["--lines", "1:2,x", "--states", "0"],
        status: 2,
        notes: b"clang_format: --lines 1:2,x: bad text at 4\n",
        ..QUIET
    },
    Row {
        name: "a line 0, and a dump",
        words: &["--lines", "0:2", "--dump-config"],
        status: 2,
        notes: b"clang_format: --lines 0:2: line zero at 0\n",
        ..QUIET
    },
    Row {
        name: "lines and two files",
        words: &["--lines", "1:2", "a.c", "a.c"],
        files: &[("a.c", b"a=1;\n")],
        status: 2,
        notes: b"clang_format: --lines takes one file\n",
        ..QUIET
    },
    Row {
        name: "lines, -i and no file",
        words: &["--lines", "1:2", "-i"],
        status: 2,
        notes: b"clang_format: -i needs a file\n",
        ..QUIET
    },
];

/// Dry runs.
const DRY_RUNS: &[Row] = &[
    Row {
        name: "a text that would change, where that is asked",
        words: &["--dry-run", "--Werror"],
        input: b"int  main( void ){return 0;}\n",
        status: 1,
        notes: b"<stdin>: runs 1, searched 1, over 0, cost 0, changed\n",
        ..QUIET
    },
    Row {
        name: "a text that wouldn't change, where that is asked",
        words: &["--Werror", "--dry-run"],
        input: b"int main(void) { return 0; }\n",
        notes: b"<stdin>: runs 1, searched 1, over 0, cost 0, unchanged\n",
        ..QUIET
    },
    Row {
        name: "a text that would change",
        words: &["--dry-run"],
        input: b"a=1;\n",
        failing_writes: &[1],
        notes: b"<stdin>: runs 1, searched 1, over 0, cost 0, changed\n",
        ..QUIET
    },
    Row {
        name: "the word for a status alone",
        words: &["--Werror"],
        input: b"a=1;\n",
        out: b"a = 1;\n",
        ..QUIET
    },
    Row {
        name: "a dry run goes before -i",
        words: &["--dry-run", "-i", "a.c"],
        files: &[("a.c", b"x  =1;\n")],
        failing_files: &[3],
        notes: b"a.c: runs 1, searched 1, over 0, cost 0, changed\n",
        held: &[("a.c", b"x  =1;\n")],
        ..QUIET
    },
    Row {
        name: "a dry run with -i and without a file",
        words: &["--dry-run", "-i"],
        status: 2,
        notes: b"clang_format: -i needs a file\n",
        ..QUIET
    },
    Row {
        name: "the first of two files would change",
        words: &["--dry-run", "--Werror", "a.c", "b.c"],
        files: &[("a.c", b"a  b\n"), ("b.c", b"c\n")],
        status: 1,
        notes: b"a.c: runs 1, searched 1, over 0, cost 0, changed\nb.c: runs 1, searched 1, over 0, cost 0, unchanged\n",
        held: &[("a.c", b"a  b\n")],
        ..QUIET
    },
    Row {
        name: "a text that would change, and then a file that isn't there",
        words: &["--dry-run", "--Werror", "a.c", "b.c"],
        files: &[("a.c", b"a  b\n")],
        status: 6,
        notes: b"a.c: runs 1, searched 1, over 0, cost 0, changed\nb.c: missing\n",
        ..QUIET
    },
    Row {
        name: "a report, and then the summary",
        words: &["--dry-run", "--Werror", "--states", "1"],
        input: b"f(a,b);\n",
        notes: b"<stdin>:1: run 0: not searched within 1 cells\n<stdin>: runs 1, searched 0, over 1, cost 0, unchanged\n",
        ..QUIET
    },
    Row {
        name: "two runs, and no limit",
        words: &["--dry-run", "--style=WebKit"],
        input: b"#ifdef A\na;\n#else\nb;\n#endif\n",
        notes: b"<stdin>: runs 2, searched 0, over 0, cost 0, unchanged\n",
        ..QUIET
    },
    Row {
        name: "notes that fail in a summary",
        words: &["--dry-run", "--Werror"],
        input: b"a=1;\n",
        failing_notes: &[1],
        status: 5,
        ..QUIET
    },
    Row {
        name: "a summary in one write",
        words: &["--dry-run", "--Werror"],
        input: b"int  a;\n",
        failing_notes: &[2],
        status: 1,
        notes: b"<stdin>: runs 1, searched 1, over 0, cost 0, changed\n",
        ..QUIET
    },
    Row {
        name: "a dump goes before a dry run",
        words: &["--dry-run", "--Werror", "--dump-config"],
        input: b"a=1;\n",
        failing_reads: &[1],
        out: LLVM,
        ..QUIET
    },
];

/// Calls of ports that fail.
const FAILING_PORTS: &[Row] = &[
    Row {
        name: "a configuration that can't be read",
        failing_files: &[1],
        status: 5,
        notes: b".clang-format: failed\n",
        ..QUIET
    },
    Row {
        name: "a source that can't be read",
        input: b"a;\n",
        failing_reads: &[2],
        status: 5,
        notes: b"<stdin>: failed\n",
        ..QUIET
    },
    Row {
        name: "a file that can't be read",
        words: &["a.c"],
        files: &[("a.c", b"a")],
        failing_files: &[2],
        status: 5,
        notes: b"a.c: failed\n",
        ..QUIET
    },
    Row {
        name: "a file that can't be written",
        words: &["-i", "a.c"],
        files: &[("a.c", b"x  =1;\n")],
        failing_files: &[3],
        status: 5,
        notes: b"a.c: failed\n",
        ..QUIET
    },
    Row {
        name: "an output that can't be written",
        input: b"a;\n",
        failing_writes: &[1],
        status: 5,
        notes: b"standard output: failed\n",
        ..QUIET
    },
    Row {
        name: "a dump that can't be written",
        words: &["--dump-config"],
        failing_writes: &[1],
        status: 5,
        notes: b"standard output: failed\n",
        ..QUIET
    },
    Row {
        name: "notes that fail at a skipped key",
        files: &[(".clang-format", b"Skip: 1\n")],
        failing_notes: &[1],
        status: 5,
        ..QUIET
    },
    Row {
        name: "a skipped key in one write",
        files: &[(".clang-format", b"Skip: 1\nLast: 1\n")],
        failing_notes: &[2],
        status: 5,
        notes: b".clang-format:1: skipped Skip\n",
        ..QUIET
    },
    Row {
        name: "a report in one write",
        words: &["--states", "2"],
        input: b"x ;\n#ifdef A\n  f(a,b);\n#else\n  g(a ,b);\n#endif\n",
        failing_notes: &[2],
        status: 5,
        notes: b"<stdin>:3: run 0: not searched within 2 cells\n",
        ..QUIET
    },
    Row {
        name: "a refusal in one write",
        words: &["--style=Foo"],
        failing_notes: &[2],
        status: 3,
        notes: b"clang_format: style Foo: unknown name\n",
        ..QUIET
    },
    Row {
        name: "a text in one write",
        input: b"int  a;\nint  b;\n",
        failing_writes: &[2],
        out: b"int a;\nint b;\n",
        ..QUIET
    },
    Row {
        name: "notes that fail at a refusal",
        words: &["--style=Foo"],
        failing_notes: &[1],
        status: 3,
        ..QUIET
    },
    Row {
        name: "the first note fails, and it is a report",
        words: &["--states", "1"],
        input: b"call(aaaaaaaaaaaaaaaaaaaaaaaaaaaaaaaaaaaaaaaaaaaaaaaaaa, bbbbbbbbbbbbbbbbbbbbbbbbbbbbbbbbbbbb);\n",
        failing_notes: &[1],
        status: 5,
        ..QUIET
    },
    Row {
        name: "the second of two files can't be written back",
        words: &["-i", "a.c", "b.c"],
        files: &[("a.c", b"x=1;\n"), ("b.c", b"x=1;\n")],
        failing_files: &[5],
        status: 5,
        notes: b"b.c: failed\n",
        held: &[("a.c", b"x = 1;\n"), ("b.c", b"x=1;\n")],
        ..QUIET
    },
    Row {
        name: "a configuration that can't be looked for, and a file",
        words: &["-i", "a.c"],
        files: &[("a.c", b"x=1;\n")],
        failing_files: &[1],
        status: 5,
        notes: b".clang-format: failed\n",
        held: &[("a.c", b"x=1;\n")],
        ..QUIET
    },
    Row {
        name: "a file twice is written back once: the fourth call of files is the last",
        words: &["-i", "a.c", "a.c"],
        files: &[("a.c", b"x=1;\n")],
        failing_files: &[5],
        held: &[("a.c", b"x = 1;\n")],
        ..QUIET
    },
];

/// The ends of a call.
#[derive(Drop)]
pub struct Ends {
    pub source: MemSource,
    pub out: MemSink,
    pub notes: MemSink,
    pub files: MemFiles,
}

/// The words of a row's call.
fn words_of(rt: &impl Abort, alloc: Global, row: &Row) -> Vec<String> {
    let mut words = Vec::new(alloc);
    for word in row.words {
        let word = String::from_str(alloc, word).expect(rt, row.name);
        words.push(word).expect(rt, row.name);
    }
    words
}

/// The files of a row's call.
pub fn files_of(rt: &impl Abort, alloc: Global, row: &Row) -> MemFiles {
    let mut files = MemFiles::new(alloc, numbers(rt, alloc, row.failing_files));
    for (name, bytes) in row.files {
        files.put(name, bytes).expect(rt, row.name);
    }
    files
}

/// The numbers of the calls that fail.
fn numbers(rt: &impl Abort, alloc: Global, failing: &[u64]) -> Vec<u64> {
    failing.to_vec(alloc).expect(rt, "memory")
}

/// A source of these bytes.
pub fn source_of(rt: &impl Abort, alloc: Global, input: &[u8], failing: &[u64]) -> MemSource {
    let bytes = input.to_vec(alloc).expect(rt, "memory");
    MemSource::new(bytes, numbers(rt, alloc, failing))
}

/// A sink.
pub fn sink(rt: &impl Abort, alloc: Global, failing: &[u64]) -> MemSink {
    MemSink::new(alloc, numbers(rt, alloc, failing))
}

/// The ends of a row's call, with this input.
pub fn ends_of(rt: &impl Abort, alloc: Global, row: &Row, input: &[u8]) -> Ends {
    Ends {
        source: source_of(rt, alloc, input, row.failing_reads),
        out: sink(rt, alloc, row.failing_writes),
        notes: sink(rt, alloc, row.failing_notes),
        files: files_of(rt, alloc, row),
    }
}

/// The status of a row's call.
pub fn status_of(rt: &impl Abort, alloc: Global, row: &Row, ends: &mut Ends) -> u8 {
    format_command(
        alloc,
        &words_of(rt, alloc, row),
        &mut ends.source,
        &mut ends.out,
        &mut ends.notes,
        &mut ends.files,
    )
}

/// What is found by the row of this name is what is wanted. One function compares all values, so that it is proved
/// once.
pub fn same<T: Copy + PartialEq + Debug>(rt: &impl Abort, name: &str, found: T, want: T) {
    if found != want {
        panic!(rt; "{name}: found {found:?}, want {want:?}");
    }
}

/// Sees that a call with this input ends as its row says: its status, its output, its notes and its files.
pub fn check(rt: &impl Abort, alloc: Global, row: &Row, input: &[u8]) {
    let mut ends = ends_of(rt, alloc, row, input);
    let status = status_of(rt, alloc, row, &mut ends);
    let found = (status, ends.out.taken(), ends.notes.taken());
    same(rt, row.name, found, (row.status, row.out, row.notes));
    for (name, bytes) in row.held {
        let found = (*name, ends.files.held(name));
        same(rt, row.name, found, (*name, Some(*bytes)));
    }
}

#[test]
fn does_what_the_words_ask_for(rt: HostRuntime) {
    for rows in &[
        WORDS_AND_STYLES,
        DUMPS,
        INPUTS,
        ASKED_LINES,
        DRY_RUNS,
        FAILING_PORTS,
        BUDGETS,
        GENERATED_INPUTS,
    ] {
        for row in *rows {
            check(&rt, rt.alloc(), row, row.input);
        }
    }
}

/// Each text is laid out, and what is laid out stays.
#[test]
fn lays_out_texts(rt: HostRuntime) {
    for rows in &[
        GAPS,
        ITEMS,
        DIRECTIVES,
        STATEMENTS,
        JOINED,
        BRANCHES,
        STYLES,
        BROKEN_LINES,
        TRAILING_COMMENTS,
        WHOLE_FILES,
    ] {
        for row in *rows {
            check(&rt, rt.alloc(), row, row.input);
            check(&rt, rt.alloc(), row, row.out);
        }
    }
}
