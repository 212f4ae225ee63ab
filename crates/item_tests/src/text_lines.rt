//! The lines of whole texts, as `docs/PROFILE.md` says under "Statements and lines".

use crate::comparing::same;
use crate::line_fixtures::{Told, read_text, repeated};
use bumpalo::Bump;
use line_tokens::LineKind::{
    Brace, CaseLabel, Close, Comment, Control, EnumHead, Enumerator, ExternHead, FuncHead,
    GotoLabel, MacroLine, Simple, StructHead,
};
use line_tokens::{LineKind, ULine};
use std::process::Abort;
use token_arena::{TokenArena, TokenId};

/// A line: its text, its level and its kind.
type Row = (&'static str, u32, LineKind);

/// A text with its lines in a style.
type Case = (&'static str, &'static str, &'static str, &'static [Row]);

const STATEMENTS: &[Case] = &[
    (
        "branches",
        "LLVM",
        "void f(void){if(x){g();}else h();}",
        &[
            ("void f(void){", 0, FuncHead),
            ("if(x){", 1, Control),
            ("g();", 2, Simple),
            ("}else", 1, Close),
            ("h();", 2, Simple),
            ("}", 0, Close),
        ],
    ),
    (
        "branches with wrapped braces",
        "Microsoft",
        "void f(void){if(x){g();}else h();}",
        &[
            ("void f(void)", 0, FuncHead),
            ("{", 0, Brace),
            ("if(x)", 1, Control),
            ("{", 1, Brace),
            ("g();", 2, Simple),
            ("}", 1, Close),
            ("else", 1, Control),
            ("h();", 2, Simple),
            ("}", 0, Close),
        ],
    ),
    (
        "an else of an inner if",
        "LLVM",
        "for(;;)if(a)b();else if(c)d();",
        &[
            ("for(;;)", 0, Control),
            ("if(a)", 1, Control),
            ("b();", 2, Simple),
            ("else if(c)", 1, Control),
            ("d();", 2, Simple),
        ],
    ),
    (
        "an else of no if",
        "LLVM",
        "else a;",
        &[("else", 0, Control), ("a;", 1, Simple)],
    ),
    (
        "a do with its tail",
        "LLVM",
        "void f(void){do{a();}while(b);}",
        &[
            ("void f(void){", 0, FuncHead),
            ("do{", 1, Control),
            ("a();", 2, Simple),
            ("}while(b);", 1, Close),
            ("}", 0, Close),
        ],
    ),
    (
        "a tail behind an inner if",
        "LLVM",
        "do if(a)b;else c;while(d);",
        &[
            ("do", 0, Control),
            ("if(a)", 1, Control),
            ("b;", 2, Simple),
            ("else", 1, Control),
            ("c;", 2, Simple),
            ("while(d);", 0, Control),
        ],
    ),
    (
        "labels of a switch",
        "LLVM",
        "void f(int x){switch(x){case 1:{a();}default:b();}}",
        &[
            ("void f(int x){", 0, FuncHead),
            ("switch(x){", 1, Control),
            ("case 1:{", 1, CaseLabel),
            ("a();", 2, Simple),
            ("}", 1, Close),
            ("default:", 1, CaseLabel),
            ("b();", 2, Simple),
            ("}", 1, Close),
            ("}", 0, Close),
        ],
    ),
    (
        "indented labels of a switch",
        "Google",
        "void f(int x){switch(x){case 1:{a();}default:b();}}",
        &[
            ("void f(int x){", 0, FuncHead),
            ("switch(x){", 1, Control),
            ("case 1:{", 2, CaseLabel),
            ("a();", 3, Simple),
            ("}", 2, Close),
            ("default:", 2, CaseLabel),
            ("b();", 3, Simple),
            ("}", 1, Close),
            ("}", 0, Close),
        ],
    ),
    (
        "cases whose colons come late or not",
        "LLVM",
        "switch(x){case a?b:c:d;case e;case f}",
        &[
            ("switch(x){", 0, Control),
            ("case a?b:c:", 0, CaseLabel),
            ("d;", 1, Simple),
            ("case e;", 1, Simple),
            ("case f", 1, Simple),
            ("}", 0, Close),
        ],
    ),
    (
        "a label",
        "LLVM",
        "void f(void){again:g();}",
        &[
            ("void f(void){", 0, FuncHead),
            ("again:", 0, GotoLabel),
            ("g();", 1, Simple),
            ("}", 0, Close),
        ],
    ),
    (
        "members",
        "LLVM",
        "struct s{int a;union{int b;}c;}v;",
        &[
            ("struct s{", 0, StructHead),
            ("int a;", 1, Simple),
            ("union{", 1, StructHead),
            ("int b;", 2, Simple),
            ("}c;", 1, Close),
            ("}v;", 0, Close),
        ],
    ),
    (
        "enumerators",
        "LLVM",
        "enum e{A,B=2,};",
        &[
            ("enum e{", 0, EnumHead),
            ("A,", 1, Enumerator),
            ("B=2,", 1, Enumerator),
            ("};", 0, Close),
        ],
    ),
    (
        "an enumerator without a comma",
        "LLVM",
        "enum{a,b};",
        &[
            ("enum{", 0, EnumHead),
            ("a,", 1, Enumerator),
            ("b", 1, Enumerator),
            ("};", 0, Close),
        ],
    ),
    (
        "lists of values",
        "LLVM",
        "int a[]={1,{2,3}};int b;",
        &[("int a[]={1,{2,3}};", 0, Simple), ("int b;", 0, Simple)],
    ),
    (
        "an extern block",
        "LLVM",
        "extern \"C\"{int f(void);}",
        &[
            ("extern \"C\"{", 0, ExternHead),
            ("int f(void);", 0, Simple),
            ("}", 0, Close),
        ],
    ),
    (
        "a macro's line",
        "LLVM",
        "FOO(a)\nint b;",
        &[("FOO(a)", 0, MacroLine), ("int b;", 0, Simple)],
    ),
];

const COMMENTS: &[Case] = &[
    (
        "comments behind and between lines",
        "LLVM",
        "int a;// x\n// y\nint b;/* z */\n",
        &[
            ("int a;// x", 0, Simple),
            ("// y", 0, Comment),
            ("int b;/* z */", 0, Simple),
        ],
    ),
    (
        "a comment before a label",
        "LLVM",
        "void f(void){\n// x\nagain:\n// y\ng();}",
        &[
            ("void f(void){", 0, FuncHead),
            ("// x", 0, Comment),
            ("again:", 0, GotoLabel),
            ("// y", 1, Comment),
            ("g();", 1, Simple),
            ("}", 0, Close),
        ],
    ),
    (
        "a comment within a line",
        "LLVM",
        "int/* x */a;",
        &[("int/* x */a;", 0, Simple)],
    ),
    (
        "comments around the body of a branch",
        "LLVM",
        "if(x)\n// own\ny;// trailing\n// own",
        &[
            ("if(x)", 0, Control),
            ("// own", 1, Comment),
            ("y;// trailing", 1, Simple),
            ("// own", 0, Comment),
        ],
    ),
    (
        "a comment at the end of an open block",
        "LLVM",
        "void f(void){g();\n/* x */",
        &[
            ("void f(void){", 0, FuncHead),
            ("g();", 1, Simple),
            ("/* x */", 1, Comment),
        ],
    ),
];

const UNBALANCED: &[Case] = &[
    (
        "a brace that opens nothing",
        "LLVM",
        "a;}b;",
        &[("a;", 0, Simple), ("}", 0, Close), ("b;", 0, Simple)],
    ),
    (
        "a brace that opens nothing and its end",
        "LLVM",
        "};",
        &[("}", 0, Close), (";", 0, Simple)],
    ),
    (
        "a brace too many",
        "LLVM",
        "void f(void){a;}}b;",
        &[
            ("void f(void){", 0, FuncHead),
            ("a;", 1, Simple),
            ("}", 0, Close),
            ("}", 0, Close),
            ("b;", 0, Simple),
        ],
    ),
    (
        "braces that nothing closes",
        "LLVM",
        "{{a;",
        &[("{", 0, Brace), ("{", 1, Brace), ("a;", 2, Simple)],
    ),
    (
        "a bracket that nothing closes",
        "LLVM",
        "f(a;b;",
        &[("f(a;b;", 0, Simple)],
    ),
    (
        "a bracket that a brace leaves open",
        "LLVM",
        "void f(void){g(a;}b;",
        &[
            ("void f(void){", 0, FuncHead),
            ("g(a;", 1, Simple),
            ("}", 0, Close),
            ("b;", 0, Simple),
        ],
    ),
    ("nothing", "LLVM", " \n", &[]),
];

/// The text of a line.
fn text_of<'s>(arena: &TokenArena<'_, 's>, line: &ULine) -> Option<&'s [u8]> {
    if line.first >= arena.len() || line.last >= arena.len() {
        return None;
    }
    let first = arena.get(TokenId(line.first)).item;
    let last = arena.get(TokenId(line.last)).item;
    let end = (last.start as usize).saturating_add(last.raw.len());
    arena.text().get(first.start as usize..end)
}

/// The lines of a text are these.
fn are_lines(rt: &impl Abort, name: &str, found: &Told<'_, '_>, want: &[Row]) {
    same(rt, name, found.lines.len(), want.len());
    for (k, (line, row)) in found.lines.iter().zip(want).enumerate() {
        let (code, level, kind) = *row;
        let told = (k, text_of(&found.arena, line), line.level, line.kind);
        same(rt, name, told, (k, Some(code.as_bytes()), level, kind));
    }
}

#[test]
fn cuts_texts_into_lines(rt: HostRuntime) {
    let run = Bump::new(rt.alloc());
    for cases in [STATEMENTS, COMMENTS, UNBALANCED] {
        for (name, style, text, want) in cases {
            let told = read_text(&rt, &run, name, style, text);
            are_lines(&rt, name, &told, want);
        }
    }
}

/// What a long text has.
#[derive(Clone, Copy)]
enum Long {
    /// A `switch` with 10,000 labels that no colon ends, for which none is looked for twice.
    Labels,
    /// 10,000 blocks in one another.
    Blocks,
}

/// A long text by its pieces, and how many lines it has.
const LONG: &[(&str, Long, &[(&str, usize)], usize)] = &[
    (
        "labels",
        Long::Labels,
        &[("switch(x){", 1), ("case a;", 10_000), ("}", 1)],
        10_002,
    ),
    (
        "blocks",
        Long::Blocks,
        &[("{", 10_000), ("}", 10_000)],
        20_000,
    ),
];

/// The level and the kind of one of its lines.
fn line_at(long: Long, line: u32) -> (u32, LineKind) {
    match long {
        Long::Labels if line == 0 => (0, Control),
        Long::Labels if line <= 10_000 => (1, Simple),
        Long::Blocks if line < 10_000 => (line, Brace),
        Long::Labels => (0, Close),
        Long::Blocks => (19_999u32.saturating_sub(line), Close),
    }
}

/// The lines of a long text are these.
fn are_lines_of(rt: &impl Abort, name: &str, found: &[ULine], long: Long) {
    let mut at = 0u32;
    for line in found {
        let (level, kind) = line_at(long, at);
        same(rt, name, (at, line.level, line.kind), (at, level, kind));
        at = at.saturating_add(1);
    }
}

#[test]
fn cuts_long_texts_into_lines(rt: HostRuntime) {
    let run = Bump::new(rt.alloc());
    for (name, long, pieces, count) in LONG {
        let text = repeated(&rt, rt.alloc(), pieces);
        let found = read_text(&rt, &run, name, "LLVM", &text).lines;
        same(&rt, name, found.len(), *count);
        are_lines_of(&rt, name, found, *long);
    }
}
