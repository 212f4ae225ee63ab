//! The rows of whole texts, as `docs/PROFILE.md` says under "Joined lines".

ghost use Rattle.std.specs.Prelude.{◌≡◌, ◌<◌, length, IfSome};
ghost use Rattle.style_table.specs.Range.{IsInRange};
ghost use Rattle.item_classes.specs.Viewed.{AreWithin};

use crate::comparing::same;
use crate::fixtures::{items, read_view, repeated, view_of};
use crate::joined_lines::With::{
    Blocks, Braces, Cases, Enums, Functions, Ifs, Limit, Loops, Unlimited,
};
use bumpalo::Bump;
use bumpalo::collections::into_bump_slice;
use line_joiner::join_of_classes;
use line_tokens::{Fixed, LineTok, ULine};
use std::process::Abort;
use style_table::{
    AllowShortBlocksOnASingleLine as ShortBlocks,
    AllowShortFunctionsOnASingleLine as ShortFunctions,
    AllowShortIfStatementsOnASingleLine as ShortIfs, BreakBeforeBraces, Style,
};
use token_arena::{Dialect, Stretch, TokenArena, View, build};

/// What a case changes in its style.
#[derive(Clone, Copy)]
enum With {
    Functions(ShortFunctions),
    Ifs(ShortIfs),
    Loops,
    Blocks(ShortBlocks),
    Cases,
    Enums(bool),
    Braces(BreakBeforeBraces),
    Limit(u8),
    Unlimited,
}

/// A text with its rows; a blank in a row is one between two items whose gap in the input isn't empty.
type Case = (&'static [With], &'static str, &'static [&'static str]);

const FUNCTIONS: &[Case] = &[
    (&[], "int f(void){return 1;}", &["int f(void){return 1;}"]),
    (
        &[],
        "int f(void){a();return 1;}",
        &["int f(void){", "a();", "return 1;", "}"],
    ),
    (&[], "int f(void){}", &["int f(void){}"]),
    (
        &[Functions(ShortFunctions::Empty)],
        "int f(void){}int g(void){a();}",
        &["int f(void){}", "int g(void){", "a();", "}"],
    ),
    (
        &[Functions(ShortFunctions::Inline)],
        "int f(void){}int g(void){a();}",
        &["int f(void){}", "int g(void){", "a();", "}"],
    ),
    (
        &[Functions(ShortFunctions::InlineOnly)],
        "int f(void){}",
        &["int f(void){", "}"],
    ),
    (
        &[Functions(ShortFunctions::None)],
        "int f(void){}",
        &["int f(void){", "}"],
    ),
    (
        &[Braces(BreakBeforeBraces::Linux)],
        "int f(void){}int g(void){a();}",
        &["int f(void){}", "int g(void){a();}"],
    ),
    (&[], "void f(void){};", &["void f(void){", "};"]),
    (&[], "struct a{};", &["struct a{};"]),
    (
        &[Braces(BreakBeforeBraces::Mozilla)],
        "struct a{}b;",
        &["struct a{}b;"],
    ),
    (&[], "struct a{int b;};", &["struct a{", "int b;", "};"]),
    (&[], "struct a{}f(){}", &["struct a{}f(){", "}"]),
    (&[], "FOO(x){return 1;}", &["FOO(x){return 1;}"]),
];

const BRANCHES: &[Case] = &[
    (
        &[],
        "int f(void){}if(a)b();",
        &["int f(void){}", "if(a)", "b();"],
    ),
    (&[], "if(a)b();", &["if(a)", "b();"]),
    (&[Ifs(ShortIfs::WithoutElse)], "if(a)b();", &["if(a)b();"]),
    (&[Ifs(ShortIfs::OnlyFirstIf)], "if(a)b();", &["if(a)b();"]),
    (&[Ifs(ShortIfs::AllIfsAndElse)], "if(a)b();", &["if(a)b();"]),
    (
        &[Ifs(ShortIfs::WithoutElse)],
        "if(a)b();else c();",
        &["if(a)", "b();", "else", "c();"],
    ),
    (
        &[Ifs(ShortIfs::OnlyFirstIf)],
        "if(a)b();else c();",
        &["if(a)b();", "else", "c();"],
    ),
    (
        &[Ifs(ShortIfs::AllIfsAndElse)],
        "if(a)b();else c();",
        &["if(a)b();", "else c();"],
    ),
    (
        &[Ifs(ShortIfs::WithoutElse)],
        "if(a)b();else if(c)d();",
        &["if(a)", "b();", "else if(c)", "d();"],
    ),
    (
        &[Ifs(ShortIfs::OnlyFirstIf)],
        "if(a)b();else if(c)d();",
        &["if(a)b();", "else if(c)", "d();"],
    ),
    (
        &[Ifs(ShortIfs::AllIfsAndElse)],
        "if(a)b();else if(c)d();else e();",
        &["if(a)b();", "else if(c)d();", "else e();"],
    ),
    (
        &[Ifs(ShortIfs::WithoutElse)],
        "if(a)b();\n// c\nelse c();",
        &["if(a)", "b();", "// c", "else", "c();"],
    ),
    (
        &[Ifs(ShortIfs::WithoutElse)],
        "if(x){if(a)b();}else c();",
        &["if(x){", "if(a)b();", "}else", "c();"],
    ),
    (
        &[Ifs(ShortIfs::AllIfsAndElse)],
        "if(x){y();}else c();",
        &["if(x){", "y();", "}else c();"],
    ),
    (
        &[Ifs(ShortIfs::AllIfsAndElse)],
        "if(a)if(b)c();",
        &["if(a)", "if(b)c();"],
    ),
    (
        &[Ifs(ShortIfs::WithoutElse), Loops],
        "if(a)while(b)c();",
        &["if(a)", "while(b)c();"],
    ),
    (
        &[Ifs(ShortIfs::WithoutElse)],
        "if(a){b();}",
        &["if(a){", "b();", "}"],
    ),
    (
        &[Ifs(ShortIfs::AllIfsAndElse)],
        "struct a{int b;}else x;y;",
        &["struct a{", "int b;", "}else x;", "y;"],
    ),
];

const BLOCKS: &[Case] = &[
    (&[], "while(a)b();", &["while(a)", "b();"]),
    (&[Loops], "while(a)b();", &["while(a)b();"]),
    (&[Loops], "for(;;)b();", &["for(;;)b();"]),
    (
        &[Loops],
        "do b();while(a);c();",
        &["do", "b();", "while(a);", "c();"],
    ),
    (&[Loops], "switch(a)b();", &["switch(a)", "b();"]),
    (
        &[Loops],
        "do{b();}while(a);c();",
        &["do{", "b();", "}while(a);", "c();"],
    ),
    (&[], "while(a){}", &["while(a){", "}"]),
    (
        &[Blocks(ShortBlocks::Empty)],
        "while(a){}while(b){c();}",
        &["while(a){}", "while(b){", "c();", "}"],
    ),
    (
        &[Blocks(ShortBlocks::Always)],
        "while(a){}while(b){c();}",
        &["while(a){}", "while(b){c();}"],
    ),
    (
        &[Blocks(ShortBlocks::Always)],
        "while(a){b();c();}",
        &["while(a){", "b();", "c();", "}"],
    ),
    (
        &[Blocks(ShortBlocks::Always)],
        "if(a){}else{}",
        &["if(a){", "}else{", "}"],
    ),
    (
        &[Blocks(ShortBlocks::Always)],
        "do{a();}while(b);",
        &["do{", "a();", "}while(b);"],
    ),
    (
        &[
            Blocks(ShortBlocks::Always),
            Braces(BreakBeforeBraces::Allman),
        ],
        "while(a){}",
        &["while(a)", "{", "}"],
    ),
    (
        &[Blocks(ShortBlocks::Always), Ifs(ShortIfs::WithoutElse)],
        "while(a){if(b)c();}",
        &["while(a){", "if(b)c();", "}"],
    ),
    (
        &[Blocks(ShortBlocks::Always)],
        "while(a){b();};",
        &["while(a){", "b();", "};"],
    ),
];

const LABELS: &[Case] = &[
    (
        &[],
        "switch(a){case 1:b();}",
        &["switch(a){", "case 1:", "b();", "}"],
    ),
    (
        &[Cases],
        "switch(a){case 1:b();}",
        &["switch(a){", "case 1:b();", "}"],
    ),
    (
        &[Cases],
        "switch(a){case 1:b();break;default:c();}",
        &["switch(a){", "case 1:b();break;", "default:c();", "}"],
    ),
    (
        &[Cases],
        "switch(a){case 1:case 2:b();}",
        &["switch(a){", "case 1:", "case 2:b();", "}"],
    ),
    (
        &[Cases],
        "switch(a){case 1:b();c();break;}",
        &["switch(a){", "case 1:", "b();", "c();", "break;", "}"],
    ),
    (
        &[Cases],
        "switch(a){case 1:if(b)c();}",
        &["switch(a){", "case 1:", "if(b)", "c();", "}"],
    ),
    (
        &[Cases],
        "switch(a){case 1:{b();}}",
        &["switch(a){", "case 1:{", "b();", "}", "}"],
    ),
    (&[Cases], "case 1:b();c();", &["case 1:b();c();"]),
    (&[], "enum{A,B};", &["enum{A,B};"]),
    (&[], "enum e{};", &["enum e{};"]),
    (&[], "enum e{A,B=2,}x;", &["enum e{A,B=2,}x;"]),
    (&[Enums(false)], "enum{A,B};", &["enum{", "A,", "B", "};"]),
    (
        &[Braces(BreakBeforeBraces::Mozilla)],
        "enum{A,B};",
        &["enum", "{", "A,", "B", "};"],
    ),
    (&[Limit(13)], "enum{A,B};", &["enum{", "A,", "B", "};"]),
    (&[Limit(14)], "enum{A,B};", &["enum{A,B};"]),
    (&[], "enum{A,B// c\n};", &["enum{", "A,", "B// c", "};"]),
];

const GAPS: &[Case] = &[
    (
        &[],
        "int f(void){\nreturn 1;\n}",
        &["int f(void){return 1;}"],
    ),
    (
        &[],
        "int f(void){return 1;}// c",
        &["int f(void){return 1;}// c"],
    ),
    (
        &[Limit(25)],
        "int f(void){return 1;}// cccccc",
        &["int f(void){return 1;}// cccccc"],
    ),
    (
        &[Limit(24)],
        "int f(void){return 1;}",
        &["int f(void){", "return 1;", "}"],
    ),
    (
        &[],
        "int f(void){return 1;// c\n}",
        &["int f(void){", "return 1;// c", "}"],
    ),
    (
        &[],
        "int f(void){return/* c */1;}",
        &["int f(void){", "return/* c */1;", "}"],
    ),
    (
        &[],
        "int f(void){\n/* c */return 1;}",
        &["int f(void){", "/* c */", "return 1;", "}"],
    ),
    (
        &[],
        "int f(void){int a[]={1,};}",
        &["int f(void){", "int a[]={1,};", "}"],
    ),
    (
        &[Ifs(ShortIfs::WithoutElse), Limit(9)],
        "if(a)b();",
        &["if(a)", "b();"],
    ),
    (
        &[Ifs(ShortIfs::WithoutElse), Limit(10)],
        "if(a)b();",
        &["if(a)", "b();"],
    ),
    (
        &[Ifs(ShortIfs::WithoutElse), Limit(11)],
        "if(a)b();",
        &["if(a)b();"],
    ),
    (
        &[Unlimited, Ifs(ShortIfs::WithoutElse)],
        "if(a)b();",
        &["if(a)b();"],
    ),
    (
        &[Unlimited, Ifs(ShortIfs::WithoutElse)],
        "if(a)\nb();",
        &["if(a)", "b();"],
    ),
];

fn with_key(style: Style, with: With) -> Style
    requires { IsInRange style }
    ensures { IsInRange result }
{
    let mut style = style;
    match with {
        Functions(value) => style.allow_short_functions_on_a_single_line = value,
        Ifs(value) => style.allow_short_if_statements_on_a_single_line = value,
        Loops => style.allow_short_loops_on_a_single_line = true,
        Blocks(value) => style.allow_short_blocks_on_a_single_line = value,
        Cases => style.allow_short_case_labels_on_a_single_line = true,
        Enums(value) => style.allow_short_enums_on_a_single_line = value,
        Braces(value) => style.break_before_braces = value,
        Limit(value) => style.column_limit = u32::from(value),
        Unlimited => style.column_limit = 0,
    }
    style
}

/// LLVM with these changes.
fn styled(keys: &[With]) -> Option<Style>
    ensures { IfSome result (λ changed. IsInRange changed) }
{
    let mut style = Style::named("LLVM")?;
    for with in keys {
        style = with_key(style, *with);
    }
    Some(style)
}

/// The bytes of the item of a token.
fn item_of<'s>(arena: &TokenArena<'_, 's>, token: &LineTok) -> Option<&'s [u8]> {
    if token.id.0 < arena.len() {
        Some(arena.get(token.id).item.raw)
    } else {
        None
    }
}

/// What is left of a row behind the items of a line, where these are the row's.
fn behind_line<'t>(
    arena: &TokenArena<'_, '_>,
    toks: &[LineTok],
    line: &ULine,
    row: &'t [u8],
) -> Option<&'t [u8]> {
    let mut rest = row;
    for place in line.first..=line.last {
        let item = item_of(arena, toks.get(place as usize)?)?;
        rest = rest.strip_prefix(b" ").unwrap_or(rest).strip_prefix(item)?;
    }
    Some(rest)
}

/// Tokens, and their lines once short ones are joined.
type Joined<'r> = (&'r [LineTok], &'r [ULine]);

/// The items of these lines are those of the rows.
fn are_rows(
    rt: &impl Abort,
    name: &str,
    arena: &TokenArena<'_, '_>,
    found: Joined<'_>,
    rows: &[&str],
) {
    let (toks, lines) = found;
    same(rt, name, lines.len(), rows.len());
    for (line, row) in lines.iter().zip(rows) {
        let rest = behind_line(arena, toks, line, row.as_bytes());
        same(rt, row, rest, Some(b""));
    }
}

/// What is decided before each of so many tokens: nothing, but for one place.
fn decisions<'r>(
    rt: &impl Abort,
    count: usize,
    decided: Option<(usize, Fixed)>,
    run: &'r Bump,
) -> &'r [Option<Fixed>]
    ensures { length result.now ≡ count }
{
    let mut fixed = vec![in run; None; count].expect(rt, "room for decisions");
    if let Some((place, decision)) = decided {
        if place < fixed.len() {
            fixed[place] = Some(decision);
        }
    }
    into_bump_slice(fixed)
}

/// The tokens of a view, and its lines with short ones joined.
fn joined<'r>(
    rt: &impl Abort,
    name: &str,
    style: &Style,
    arena: &'r TokenArena<'r, 'r>,
    view: &'r View<'r>,
    decided: Option<(usize, Fixed)>,
    run: &'r Bump,
) -> Joined<'r>
    requires range { IsInRange style.now }
    requires within { AreWithin arena.now view.now }
{
    let told = read_view(rt, style, arena, view, run);
    let fixed = decisions(rt, told.tokens.len(), decided, run);
    let found = join_of_classes(style, told.classes, told.lines, &told.tokens, fixed, run);
    let tokens = told
        .tokens
        .between(0, told.tokens.len(), run)
        .expect(rt, name);
    (tokens, found.expect(rt, name))
}

/// The text of a case has its rows where this is decided.
fn has_rows(rt: &impl Abort, run: &Bump, decided: Option<(usize, Fixed)>, case: &Case) {
    let (keys, text, rows) = *case;
    let style = styled(keys).expect(rt, text);
    let arena = items(rt, text.as_bytes(), run);
    let view = view_of(rt, &arena, None, run);
    let found = joined(rt, text, &style, &arena, &view, decided, run);
    are_rows(rt, text, &arena, found, rows);
}

#[test]
fn joins_short_lines(rt: HostRuntime) {
    let run = Bump::new(rt.alloc());
    for cases in [FUNCTIONS, BRANCHES, BLOCKS, LABELS, GAPS] {
        for case in cases {
            has_rows(&rt, &run, None, case);
        }
    }
}

/// The items around a directive.
const AROUND: &[Stretch] = &[Stretch { first: 0, end: 2 }, Stretch { first: 6, end: 7 }];

/// A text of seven items has these rows for who doesn't see its directive.
fn has_rows_around(rt: &impl Abort, run: &Bump, text: &str, rows: &[&str]) {
    let style = styled(&[]).expect(rt, text);
    let arena = build(run, text.as_bytes(), Dialect::C11).expect(rt, text);
    assert!(rt; arena.len() == 7);
    let view = View::of_stretches(AROUND, run).expect(rt, text);
    let found = joined(rt, text, &style, &arena, &view, None, run);
    are_rows(rt, text, &arena, found, rows);
}

#[test]
fn joins_over_no_directive(rt: HostRuntime) {
    let run = Bump::new(rt.alloc());
    has_rows_around(&rt, &run, "struct{\n#define X 1\n}", &["struct{", "}"]);
}

/// A function on one row.
const JOINED: Case = (&[], "int f(void){return 1;}", &["int f(void){return 1;}"]);

/// The same function, which isn't joined.
const APART: Case = (
    &[],
    "int f(void){return 1;}",
    &["int f(void){", "return 1;", "}"],
);

/// What is decided before a place of the function, and its rows.
const DECIDED: &[((usize, Fixed), Case)] = &[
    // A decided new-line stands between two lines, or inside one.
    (
        (
            6,
            Fixed {
                column: 2,
                broken: true,
            },
        ),
        APART,
    ),
    (
        (
            8,
            Fixed {
                column: 4,
                broken: true,
            },
        ),
        JOINED,
    ),
    // The `return` is stored further right, up to the limit and past it.
    (
        (
            6,
            Fixed {
                column: 69,
                broken: false,
            },
        ),
        JOINED,
    ),
    (
        (
            6,
            Fixed {
                column: 70,
                broken: false,
            },
        ),
        APART,
    ),
    (
        (
            6,
            Fixed {
                column: 4294967295,
                broken: false,
            },
        ),
        APART,
    ),
];

#[test]
fn follows_what_is_decided(rt: HostRuntime) {
    let run = Bump::new(rt.alloc());
    for (decided, case) in DECIDED {
        has_rows(&rt, &run, Some(*decided), case);
    }
}

/// What changes in the style, a text by its head, a piece that stands 10,000 times, and its tail; and its lines.
const LONG: &[(&str, &[With], &str, &str, &str, usize)] = &[
    ("enumerators", &[], "enum{", "A,", "};", 10_002),
    (
        "enumerators without a limit",
        &[Unlimited, Braces(BreakBeforeBraces::Attach)],
        "enum{",
        "A,",
        "};",
        1,
    ),
    ("labels", &[Cases], "switch(x){", "case a:", "}", 10_002),
    (
        "branches behind comments",
        &[Ifs(ShortIfs::WithoutElse)],
        "",
        "if(a)b();\n// c\n",
        "",
        20_000,
    ),
];

#[test]
fn joins_long_lists_in_one_pass(rt: HostRuntime) {
    let run = Bump::new(rt.alloc());
    for case in LONG {
        let (name, keys, head, piece, tail, count) = *case;
        let style = styled(keys).expect(&rt, name);
        let text = repeated(&rt, rt.alloc(), head, piece, 10_000, tail);
        let arena = items(&rt, text.as_bytes(), &run);
        let view = view_of(&rt, &arena, None, &run);
        let (_tokens, lines) = joined(&rt, name, &style, &arena, &view, None, &run);
        same(&rt, name, lines.len(), count);
    }
}
