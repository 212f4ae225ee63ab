//! Worked rows of words.

use crate::comparing::same;
use command_words::{Generate, StyleChoice, Words, WordsFault, read_words};
use off_regions::{LineRange, RangeFault};
use std::alloc::Global;
use std::process::Abort;

/// What words say.
struct Said {
    style: StyleChoice<'static>,
    lines: Option<&'static [LineRange]>,
    in_place: bool,
    dry_run: bool,
    werror: bool,
    dump_config: bool,
    generate: Option<Generate>,
    files: &'static [&'static str],
}

/// Words that say nothing.
const NOTHING: Said = Said {
    style: StyleChoice::File,
    lines: None,
    in_place: false,
    dry_run: false,
    werror: false,
    dump_config: false,
    generate: None,
    files: &[],
};

/// Words, and what they say or why they are refused.
struct Row {
    name: &'static str,
    words: &'static [&'static str],
    said: Result<Said, WordsFault<'static>>,
}

const ROWS: &[Row] = &[
    Row {
        name: "no words",
        words: &[],
        said: Ok(NOTHING),
    },
    Row {
        name: "a file",
        words: &["a.c"],
        said: Ok(Said {
            files: &["a.c"],
            ..NOTHING
        }),
    },
    Row {
        name: "files to be written back",
        words: &["-i", "a.c", "b.c"],
        said: Ok(Said {
            in_place: true,
            files: &["a.c", "b.c"],
            ..NOTHING
        }),
    },
    Row {
        name: "a flag between files",
        words: &["a.c", "-i", "b.c"],
        said: Ok(Said {
            in_place: true,
            files: &["a.c", "b.c"],
            ..NOTHING
        }),
    },
    Row {
        name: "-i without a file",
        words: &["-i"],
        said: Err(WordsFault::NoInput),
    },
    Row {
        name: "-i with a dump and without a file",
        words: &["-i", "--dump-config"],
        said: Ok(Said {
            in_place: true,
            dump_config: true,
            ..NOTHING
        }),
    },
    Row {
        name: "a style's name behind its word",
        words: &["a.c", "--style", "LLVM"],
        said: Ok(Said {
            style: StyleChoice::Named("LLVM"),
            files: &["a.c"],
            ..NOTHING
        }),
    },
    Row {
        name: "a configuration's path behind `=`",
        words: &["--style=file:x/y", "--dump-config"],
        said: Ok(Said {
            style: StyleChoice::FileAt("x/y"),
            dump_config: true,
            ..NOTHING
        }),
    },
    Row {
        name: "the folder's configuration",
        words: &["--style=file"],
        said: Ok(NOTHING),
    },
    Row {
        name: "an empty path",
        words: &["--style=file:"],
        said: Ok(Said {
            style: StyleChoice::FileAt(""),
            ..NOTHING
        }),
    },
    Row {
        name: "a name in other letters than `file`",
        words: &["--style=File"],
        said: Ok(Said {
            style: StyleChoice::Named("File"),
            ..NOTHING
        }),
    },
    Row {
        name: "a name like an option",
        words: &["--style=-x"],
        said: Ok(Said {
            style: StyleChoice::Named("-x"),
            ..NOTHING
        }),
    },
    Row {
        name: "files like options",
        words: &["--", "-i", "--help"],
        said: Ok(Said {
            files: &["-i", "--help"],
            ..NOTHING
        }),
    },
    Row {
        name: "a file named `-`",
        words: &["-"],
        said: Ok(Said {
            files: &["-"],
            ..NOTHING
        }),
    },
    Row {
        name: "no word for help",
        words: &["--help"],
        said: Err(WordsFault::Form),
    },
    Row {
        name: "no letter for help",
        words: &["-h"],
        said: Err(WordsFault::Form),
    },
    Row {
        name: "no word for the version",
        words: &["--version"],
        said: Err(WordsFault::Form),
    },
    Row {
        name: "a style without its value",
        words: &["--style"],
        said: Err(WordsFault::Form),
    },
    Row {
        name: "a flag twice",
        words: &["-i", "-i"],
        said: Err(WordsFault::Form),
    },
    Row {
        name: "a style twice",
        words: &["--style=LLVM", "--style=LLVM"],
        said: Err(WordsFault::Form),
    },
    Row {
        name: "an unknown word",
        words: &["--sort=1:2"],
        said: Err(WordsFault::Form),
    },
    Row {
        name: "lines",
        words: &["--lines=2:5,1:1", "a.c"],
        said: Ok(Said {
            lines: Some(&[
                LineRange { first: 2, last: 5 },
                LineRange { first: 1, last: 1 },
            ]),
            files: &["a.c"],
            ..NOTHING
        }),
    },
    Row {
        name: "lines that are reversed, and no number of cells",
        words: &["--states=0", "--lines=3:2"],
        said: Err(WordsFault::BadLines {
            word: "3:2",
            fault: RangeFault::Reversed { place: 0 },
        }),
    },
    Row {
        name: "lines and two files",
        words: &["a.c", "--lines", "1:1", "b.c"],
        said: Err(WordsFault::ManyFiles),
    },
    Row {
        name: "lines twice",
        words: &["--lines=1:1", "--lines=1:1"],
        said: Err(WordsFault::Form),
    },
    Row {
        name: "a dry run",
        words: &["--dry-run"],
        said: Ok(Said {
            dry_run: true,
            ..NOTHING
        }),
    },
    Row {
        name: "a dry run that tells by its status",
        words: &["--Werror", "a.c", "--dry-run"],
        said: Ok(Said {
            dry_run: true,
            werror: true,
            files: &["a.c"],
            ..NOTHING
        }),
    },
    Row {
        name: "a word in other letters",
        words: &["--werror"],
        said: Err(WordsFault::Form),
    },
    Row {
        name: "a dry run with -i and without a file",
        words: &["--dry-run", "-i"],
        said: Err(WordsFault::NoInput),
    },
    Row {
        name: "a dry run twice",
        words: &["--dry-run", "--dry-run"],
        said: Err(WordsFault::Form),
    },
    Row {
        name: "an input that is made",
        words: &["--generate", "5:4"],
        said: Ok(Said {
            generate: Some(Generate { seed: 5, count: 4 }),
            ..NOTHING
        }),
    },
    Row {
        name: "the largest input that is made, in nine digits each",
        words: &["--Werror", "--generate=999999999:000100000", "--dry-run"],
        said: Ok(Said {
            dry_run: true,
            werror: true,
            generate: Some(Generate {
                seed: 999_999_999,
                count: 100_000,
            }),
            ..NOTHING
        }),
    },
    Row {
        name: "an input of no pieces",
        words: &["--generate", "1:0"],
        said: Err(WordsFault::BadGenerate("1:0")),
    },
    Row {
        name: "two colons",
        words: &["--generate", "1:1:1"],
        said: Err(WordsFault::BadGenerate("1:1:1")),
    },
    Row {
        name: "COUNT in ten digits",
        words: &["--generate", "1:0000000001"],
        said: Err(WordsFault::BadGenerate("1:0000000001")),
    },
    Row {
        name: "an input that is made without its value",
        words: &["--generate"],
        said: Err(WordsFault::Form),
    },
    Row {
        name: "an input that is made twice",
        words: &["--generate=1:1", "--generate=1:1"],
        said: Err(WordsFault::Form),
    },
    Row {
        name: "an input that is made, and a file",
        words: &["a.c", "--generate=1:1"],
        said: Err(WordsFault::GenerateBeside),
    },
    Row {
        name: "a value that is refused before the file beside it",
        words: &["a.c", "--generate=1"],
        said: Err(WordsFault::BadGenerate("1")),
    },
    Row {
        name: "no number of cells, and a value that is refused behind it",
        words: &["--generate=1", "--states=0"],
        said: Err(WordsFault::BadStates("0")),
    },
    Row {
        name: "-i without a file, and a value that is refused behind it",
        words: &["--generate=1", "-i"],
        said: Err(WordsFault::NoInput),
    },
    Row {
        name: "lines and two files, and a value that is refused behind them",
        words: &["--generate=1", "--lines=1:1", "a.c", "b.c"],
        said: Err(WordsFault::ManyFiles),
    },
    Row {
        name: "an input that is made, and a dump",
        words: &["--generate=1:1", "--dump-config"],
        said: Err(WordsFault::GenerateBeside),
    },
];

fn texts(rt: &impl Abort, alloc: Global, words: &[&str]) -> Vec<String> {
    let mut all = Vec::new(alloc);
    for word in words {
        let text = String::from_str(alloc, word).expect(rt, "memory");
        all.push(text).expect(rt, "memory");
    }
    all
}

/// Whether words ask for these lines.
fn has_lines(found: &Words<'_>, lines: Option<&[LineRange]>) -> bool {
    match (&found.lines, lines) {
        (Some(ranges), Some(lines)) => ranges.as_slice() == lines,
        (None, None) => true,
        _ => false,
    }
}

/// Words say what a row has.
fn do_say(rt: &impl Abort, name: &str, found: &Words<'_>, said: &Said) {
    same(rt, name, has_lines(found, said.lines), true);
    let flags = [
        found.in_place,
        found.dry_run,
        found.werror,
        found.dump_config,
    ];
    let wanted = [said.in_place, said.dry_run, said.werror, said.dump_config];
    same(rt, name, flags, wanted);
    let found = (found.style, found.generate, found.files.as_slice());
    same(rt, name, found, (said.style, said.generate, said.files));
}

/// Sees that words are read as their row says.
fn check(rt: &impl Abort, alloc: Global, row: &Row) {
    let name = row.name;
    let words = texts(rt, alloc, row.words);
    match read_words(alloc, &words) {
        Ok(found) => do_say(rt, name, &found, row.said.as_ref().expect(rt, name)),
        Err(found) => same(rt, name, Some(&found), row.said.as_ref().err()),
    }
}

#[test]
fn reads_words(rt: HostRuntime) {
    for row in ROWS {
        check(&rt, rt.alloc(), row);
    }
}

/// A fault, and its row on standard error.
const NOTES: &[(WordsFault<'static>, &str)] = &[
    (
        WordsFault::Form,
        "usage: clang_format [--style S] [--lines L] [--states N] [-i] [--dry-run] [--Werror] [--dump-config] [--generate N:COUNT] [FILE ..]",
    ),
    (
        WordsFault::BadStates("0"),
        "clang_format: --states 0: not 1 to 16000000",
    ),
    (
        WordsFault::BadLines {
            word: "1:2,x",
            fault: RangeFault::BadText { place: 4 },
        },
        "clang_format: --lines 1:2,x: bad text at 4",
    ),
    (
        WordsFault::ManyFiles,
        "clang_format: --lines takes one file",
    ),
    (WordsFault::NoInput, "clang_format: -i needs a file"),
    (
        WordsFault::BadGenerate("1:0"),
        "clang_format: --generate 1:0: not N:COUNT",
    ),
    (
        WordsFault::GenerateBeside,
        "clang_format: --generate takes no file, -i or --dump-config",
    ),
    (WordsFault::NoMemory, "clang_format: no memory"),
];

#[test]
fn shows_its_note(rt: HostRuntime) {
    let rt = &rt;
    for case in NOTES {
        let (fault, note) = *case;
        let shown = format!(in rt.alloc(); "{fault}").expect(rt, note);
        same(rt, note, shown.as_str(), note);
    }
}
