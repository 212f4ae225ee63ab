//! What is read of configurations.

ghost use Rattle.style_table.specs.Range.{IsInRange};

use crate::comparing::same;
use crate::fixtures::style;
use memory_ports::MemSink;
use std::alloc::Global;
use std::process::Abort;
use style_config::{ConfigFault, LIMIT, SkippedKey, dump, read};
use style_table::{Style, UseTab};

/// What is looked at of a style that was read, and the keys that were skipped, each behind its line.
struct Seen {
    indent_width: u32,
    column_limit: u32,
    before_comments: u32,
    after_enum: bool,
    skipped: &'static [(u32, &'static str)],
}

/// What is seen of the LLVM style.
const LLVM: Seen = Seen {
    indent_width: 2,
    column_limit: 80,
    before_comments: 1,
    after_enum: false,
    skipped: &[],
};

/// A configuration, and what is read of it over the LLVM style or its first fault.
struct Row {
    name: &'static str,
    text: &'static [u8],
    seen: Result<Seen, ConfigFault>,
}

/// Lines of what `clang-format` 14 writes of its named styles.
const DUMPS: &[Row] = &[
    Row {
        name: "the dump of LLVM",
        text: b"---\nLanguage:        Cpp\n# BasedOnStyle:  LLVM\nAccessModifierOffset: -2\n\
            AlignTrailingComments: true\nAttributeMacros:\n  - __capability\nBraceWrapping:\n\
            \x20 AfterCaseLabel:  false\nColumnLimit:     80\nBasedOnStyle:    ''\n\
            IncludeIsMainSourceRegex: ''\nIndentWidth:     2\n...\n",
        seen: Ok(Seen {
            skipped: &[
                (4, "AccessModifierOffset"),
                (6, "AttributeMacros"),
                (12, "IncludeIsMainSourceRegex"),
            ],
            ..LLVM
        }),
    },
    Row {
        name: "the dump of Google",
        text: b"---\nLanguage:        Cpp\n# BasedOnStyle:  Google\nColumnLimit:     80\nBasedOnStyle:    ''\n\
            ForEachMacros:\n  - foreach\nIncludeCategories:\n  - Regex:           '^<ext/.*\\.h>'\n\
            \x20   Priority:        2\nIncludeIsMainRegex: '([-_](test|unittest))?$'\n\
            IndentWidth:     2\nRawStringFormats:\n  - Language:        Cpp\n    CanonicalDelimiter: ''\n\
            \x20   BasedOnStyle:    google\n...\n",
        seen: Ok(Seen {
            skipped: &[
                (6, "ForEachMacros"),
                (8, "IncludeCategories"),
                (11, "IncludeIsMainRegex"),
                (13, "RawStringFormats"),
            ],
            ..LLVM
        }),
    },
    Row {
        name: "the dump of WebKit",
        text: b"---\nLanguage:        Cpp\n# BasedOnStyle:  WebKit\nAlignAfterOpenBracket: DontAlign\n\
            AlignTrailingComments: false\nColumnLimit:     0\nBasedOnStyle:    ''\nIndentWidth:     4\n...\n",
        seen: Ok(Seen {
            indent_width: 4,
            column_limit: 0,
            ..LLVM
        }),
    },
    Row {
        name: "the dump of Mozilla",
        text: b"---\nLanguage:        Cpp\n# BasedOnStyle:  Mozilla\nBraceWrapping:\n  AfterClass:      true\n\
            \x20 AfterEnum:       true\nColumnLimit:     80\nBasedOnStyle:    ''\nIndentWidth:     2\n...\n",
        seen: Ok(Seen {
            after_enum: true,
            skipped: &[(5, "BraceWrapping.AfterClass")],
            ..LLVM
        }),
    },
    Row {
        name: "the dump of Microsoft",
        text: b"---\nLanguage:        Cpp\n# BasedOnStyle:  Microsoft\nAllowShortFunctionsOnASingleLine: None\n\
            BreakBeforeBraces: Custom\nColumnLimit:     120\nBasedOnStyle:    ''\nIndentWidth:     4\n\
            TabWidth:        4\nUseTab:          Never\nWhitespaceSensitiveMacros:\n  - STRINGIZE\n...\n",
        seen: Ok(Seen {
            indent_width: 4,
            column_limit: 120,
            skipped: &[(11, "WhitespaceSensitiveMacros")],
            ..LLVM
        }),
    },
];

/// Documents, and what `BasedOnStyle` may have.
const BASES: &[Row] = &[
    Row {
        name: "a document for another language, and a base behind an entry",
        text: b"---\nLanguage: Java\nIndentWidth: x\n---\nLanguage: Cpp\n\
            IndentWidth: 3 # blanks\nBasedOnStyle: 'WebKit'\nStandard: c++11\n\
            BraceWrapping:\n  AfterEnum: true\n  AfterClass: true\n...\n",
        seen: Ok(Seen {
            indent_width: 3,
            column_limit: 0,
            after_enum: true,
            skipped: &[(8, "Standard"), (11, "BraceWrapping.AfterClass")],
            ..LLVM
        }),
    },
    Row {
        name: "empty quotes",
        text: b"BasedOnStyle: ''\n",
        seen: Ok(LLVM),
    },
    Row {
        name: "empty quotes and a comment",
        text: b"BasedOnStyle: \"\" # none\n",
        seen: Ok(LLVM),
    },
    Row {
        name: "a base, and empty quotes in the next document",
        text: b"BasedOnStyle: google\n---\nBasedOnStyle: ''\n",
        seen: Ok(Seen {
            before_comments: 2,
            ..LLVM
        }),
    },
    Row {
        name: "a base in quotes",
        text: b"BasedOnStyle: 'google'\n",
        seen: Ok(Seen {
            before_comments: 2,
            ..LLVM
        }),
    },
    Row {
        name: "a base without a value",
        text: b"BasedOnStyle:\n",
        seen: Err(ConfigFault::UnknownStyle { line: 1 }),
    },
    Row {
        name: "a blank in quotes",
        text: b"BasedOnStyle: ' '\n",
        seen: Err(ConfigFault::UnknownStyle { line: 1 }),
    },
    Row {
        name: "one quote",
        text: b"BasedOnStyle: '\n",
        seen: Err(ConfigFault::UnknownStyle { line: 1 }),
    },
    Row {
        name: "two quotes that differ",
        text: b"BasedOnStyle: '\"\n",
        seen: Err(ConfigFault::UnknownStyle { line: 1 }),
    },
    Row {
        name: "a base of no name",
        text: b"BasedOnStyle: Mine\n",
        seen: Err(ConfigFault::UnknownStyle { line: 1 }),
    },
];

/// Configurations at fault.
const FAULTS: &[Row] = &[
    Row {
        name: "a byte that isn't UTF-8",
        text: b"A: \xff",
        seen: Err(ConfigFault::NotUtf8 { offset: 3 }),
    },
    Row {
        name: "a line without a colon",
        text: b"\n# x\nIndentWidth 2\n",
        seen: Err(ConfigFault::BadLine { line: 3 }),
    },
    Row {
        name: "a line behind a tab",
        text: b"\tIndentWidth: 2\n",
        seen: Err(ConfigFault::BadLine { line: 1 }),
    },
    Row {
        name: "a nested line under no key",
        text: b"  Nested: 2\n",
        seen: Err(ConfigFault::BadLine { line: 1 }),
    },
    Row {
        name: "an item of a list where keys stand",
        text: b"BraceWrapping:\n- x\n",
        seen: Err(ConfigFault::BadLine { line: 2 }),
    },
    Row {
        name: "a key without a value",
        text: b"UseTab:\n",
        seen: Err(ConfigFault::BadValue { line: 1 }),
    },
    Row {
        name: "a word that the key doesn't take",
        text: b"UseTab: Nver\n",
        seen: Err(ConfigFault::BadValue { line: 1 }),
    },
    Row {
        name: "an outer key without keys",
        text: b"BraceWrapping:\nUseTab: Never\n",
        seen: Err(ConfigFault::BadValue { line: 1 }),
    },
    Row {
        name: "an outer key with a value and a key",
        text: b"AlignTrailingComments: true\n  Kind: Never\n",
        seen: Err(ConfigFault::BadValue { line: 1 }),
    },
    Row {
        name: "a number past its range",
        text: b"IndentWidth: 17\n",
        seen: Err(ConfigFault::OutOfRange { line: 1 }),
    },
    Row {
        name: "a key twice",
        text: b"A:\nA: 1\n",
        seen: Err(ConfigFault::Repeated { line: 2 }),
    },
];

/// The style and the skipped keys that were read are those that a row has.
fn is_seen(rt: &impl Abort, name: &str, style: &Style, skipped: &[SkippedKey], seen: &Seen) {
    let found = (
        style.indent_width,
        style.column_limit,
        style.spaces_before_trailing_comments,
        style.brace_wrapping_after_enum,
        skipped.len(),
    );
    let wanted = (
        seen.indent_width,
        seen.column_limit,
        seen.before_comments,
        seen.after_enum,
        seen.skipped.len(),
    );
    same(rt, name, found, wanted);
    for (key, wanted) in skipped.iter().zip(seen.skipped) {
        same(rt, name, (key.line, key.key.text()), *wanted);
    }
}

/// Sees that a configuration is read as its row says.
fn check(rt: &impl Abort, alloc: Global, row: &Row) {
    let name = row.name;
    assert!(rt; row.text.len() <= LIMIT);
    match read(alloc, row.text, style(rt, "LLVM")) {
        Ok((style, skipped)) => {
            let seen = row.seen.as_ref().expect(rt, name);
            is_seen(rt, name, &style, skipped.keys(), seen);
        }
        Err(found) => same(rt, name, Some(&found), row.seen.as_ref().err()),
    }
}

#[test]
fn reads_configurations(rt: HostRuntime) {
    for rows in [DUMPS, BASES, FAULTS] {
        for row in rows {
            check(&rt, rt.alloc(), row);
        }
    }
}

/// What is dumped of a style is read back over a base, so that the same is dumped of what was read.
fn is_read_back(rt: &impl Abort, alloc: Global, name: &str, dumped: &Style, base: &str)
    requires { IsInRange dumped.now }
{
    let mut sink = MemSink::new(alloc, Vec::new(alloc));
    same(rt, name, dump(dumped, &mut sink).is_ok(), true);
    let text = sink.taken();
    assert!(rt; text.len() <= LIMIT);
    let (found, skipped) = read(alloc, text, style(rt, base)).expect(rt, name);
    let mut again = MemSink::new(alloc, Vec::new(alloc));
    same(rt, name, dump(&found, &mut again).is_ok(), true);
    same(rt, name, (again.taken(), skipped.keys().len()), (text, 0));
}

/// A style, its use of tabs, and the base over which its dump is read.
const DUMPED: &[(&str, UseTab, &str)] = &[
    ("Microsoft", UseTab::AlignWithSpaces, "Google"),
    ("Google", UseTab::Never, "WebKit"),
];

#[test]
fn reads_back_what_is_dumped(rt: HostRuntime) {
    let rt = &rt;
    for case in DUMPED {
        let (name, use_tab, base) = *case;
        let mut dumped = style(rt, name);
        dumped.use_tab = use_tab;
        is_read_back(rt, rt.alloc(), name, &dumped, base);
    }
}
