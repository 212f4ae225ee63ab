//! The decisions for whole texts, as `docs/PROFILE.md` says under "Layout of lines".

ghost use Rattle.std.specs.Prelude.{◌≡◌, ◌+◌, length};
ghost use Rattle.style_table.specs.Range.{IsInRange};

use crate::comparing::{holds, same};
use crate::fixtures::{items, open_plan, read_view, style, three_items, view_of};
use bumpalo::Bump;
use bumpalo::collections::into_bump_slice;
use line_gaps::ViewLayout;
use line_tokens::TokenId;
use replacements::{Decided, Decision, Plan, Slot};
use run_layout::{Report, Tally, lay_out_lines};
use std::alloc::{AllocError, Global};
use std::process::Abort;
use style_table::Style;
use token_arena::TokenArena;

/// A text, how it is laid out, and the text of its items and decisions.
#[derive(Clone, Copy)]
struct Case {
    name: &'static str,
    style: &'static str,
    /// The limit of columns, where it is not the style's own.
    limit: Option<u8>,
    /// The budget of a line in cells.
    budget: u16,
    input: &'static [u8],
    /// The first item and the end of a directive that the lines leave out.
    directive: Option<(u32, u32)>,
    output: &'static [u8],
}

/// No text in the LLVM style, with a budget that no line passes.
const LLVM: Case = Case {
    name: "nothing",
    style: "LLVM",
    limit: None,
    budget: 1_000,
    input: b"",
    directive: None,
    output: b"",
};

const CASES: &[Case] = &[
    Case {
        name: "blanks by roles",
        input: b"int*p,*q;\nx=(int)y*z;",
        output: b"int *p, *q;\nx = (int)y * z;",
        ..LLVM
    },
    Case {
        name: "a pointer beside its type",
        style: "Google",
        input: b"char*s;",
        output: b"char* s;",
        ..LLVM
    },
    Case {
        name: "branches",
        input: b"void f(void){if(x){g();}else h();}",
        output: b"void f(void) {\n  if (x) {\n    g();\n  } else\n    h();\n}",
        ..LLVM
    },
    Case {
        name: "branches with wrapped braces",
        style: "Microsoft",
        input: b"void f(void){if(x){g();}else h();}",
        output: b"void f(void)\n{\n    if (x)\n    {\n        g();\n    }\n    else\n        h();\n}",
        ..LLVM
    },
    Case {
        name: "rows that are joined",
        input: b" int\na\n=\t1;",
        output: b"int a = 1;",
        ..LLVM
    },
    Case {
        name: "few empty lines",
        input: b"int a;\n\n\n\nint b;\nint c;",
        output: b"int a;\n\nint b;\nint c;",
        ..LLVM
    },
    Case {
        name: "empty lines of a block",
        input: b"void f(void){\n\n\ng();\n\n}",
        output: b"void f(void) {\n\n  g();\n}",
        ..LLVM
    },
    Case {
        name: "no empty lines at the start of a block",
        style: "Google",
        input: b"void f(void){\n\n\ng();\n\n}",
        output: b"void f(void) {\n  g();\n}",
        ..LLVM
    },
    Case {
        name: "empty lines behind the brace of a list",
        style: "Google",
        input: b"int a[] = {\n\n1};",
        output: b"int a[] = {1};",
        ..LLVM
    },
    Case {
        name: "a digraph for a brace",
        style: "Google",
        input: b"void f(void)<%\n\ng();%>",
        output: b"void f(void) <%\n  g();\n%>",
        ..LLVM
    },
    Case {
        name: "a comment that began its line",
        style: "Mozilla",
        input: b"int a,\n\n/* second */ b;",
        output: b"int a,\n  /* second */ b;",
        ..LLVM
    },
    Case {
        name: "a quote that nothing ends",
        input: b"int a = 'x\n\n;",
        output: b"int a = 'x\n    ;",
        ..LLVM
    },
    Case {
        name: "a comment of several rows",
        input: b"int /* a\n b */ c;",
        output: b"int /* a\n b */ c;",
        ..LLVM
    },
    Case {
        name: "comments between lines",
        input: b"// a\n\n// b\nint b;",
        output: b"// a\n\n// b\nint b;",
        ..LLVM
    },
    Case {
        name: "nothing",
        input: b" \n",
        output: b"",
        ..LLVM
    },
    Case {
        name: "a directive in a line",
        input: b"int a =\n#define X 1\n\n\n1;",
        directive: Some((3, 7)),
        output: b"int a =\n\n    1;",
        ..LLVM
    },
];

/// Adds a byte so many times.
fn push_times(text: &mut Vec<u8, &Bump>, byte: u8, count: u32) -> Result<(), AllocError> {
    for _time in 0..count {
        text.push(byte)?;
    }
    Ok(())
}

/// Adds the white space of a decision for a gap with these bytes.
fn push_gap(text: &mut Vec<u8, &Bump>, decision: Decision, old: &[u8]) -> Result<(), AllocError> {
    let (lines, columns) = match decision {
        Decision::Old => return text.extend_from_slice(old),
        Decision::Spaces(count) => (0, count),
        Decision::Lines { count, column, .. } => (count, column),
        Decision::Splice { .. } => (0, 0),
    };
    push_times(text, b'\n', lines)?;
    push_times(text, b' ', columns)
}

/// How many bytes stand behind the last new-line.
fn column_of(text: &[u8]) -> u32 {
    let mut column: u32 = 0;
    for byte in text {
        column = if *byte == b'\n' {
            0
        } else {
            column.saturating_add(1)
        };
    }
    column
}

/// The text of the items whose gaps a plan decides; each item starts at the column that is told.
fn drawn<'r>(
    rt: &impl Abort,
    name: &str,
    arena: &TokenArena<'_, '_>,
    plan: &Plan<'_>,
    run: &'r Bump,
) -> &'r [u8]
    requires { length plan.now ≡ length arena.now.tokens + 1 }
{
    let mut text = Vec::new(run);
    for place in 0..arena.len() {
        if let Some(slot) = plan.slot(place) {
            push_gap(&mut text, slot.decision, arena.gap(place)).expect(rt, "memory");
            same(
                rt,
                name,
                (place, column_of(text.as_slice())),
                (place, slot.end),
            );
            text.extend_from_slice(arena.get(TokenId(place)).item.raw)
                .expect(rt, "memory");
        }
    }
    into_bump_slice(text)
}

/// The style of a case.
fn style_of(rt: &impl Abort, case: &Case) -> Style
    ensures { IsInRange result }
{
    let mut style = style(rt, case.style);
    if let Some(limit) = case.limit {
        style.column_limit = u32::from(limit);
    }
    style
}

/// What is noted of lines: how many were searched, what they cost together, and the reports.
type Noted<'r> = (u64, u128, &'r [Report]);

/// Lays out the lines of a case's text as those of run 5, and tells what is noted of them.
fn lay_out<'r>(
    rt: &impl Abort,
    alloc: Global,
    case: &Case,
    arena: &TokenArena<'_, '_>,
    plan: &mut Plan<'_>,
    run: &'r Bump,
) -> Noted<'r>
    requires { length plan.old ≡ length arena.now.tokens + 1 }
    ensures { length plan.new ≡ length plan.old }
{
    let style = style_of(rt, case);
    let view = view_of(rt, arena, case.directive, run);
    let told = read_view(rt, &style, arena, &view, run);
    holds(rt, "few lines", told.lines.len() < 1_000);
    let layout = ViewLayout {
        alloc,
        style: &style,
        budget: u64::from(case.budget),
        arena,
        view: &view,
        classes: told.classes,
        tokens: &told.tokens,
    };
    let mut tally = Tally::new(run);
    lay_out_lines(&layout, 5, told.lines, plan, &mut tally, run).expect(rt, "a layout");
    (tally.searched, tally.cost, into_bump_slice(tally.reports))
}

/// The text of a case is laid out as it says. Tells what is noted of its lines.
fn is_laid_out<'r>(rt: &impl Abort, alloc: Global, case: &Case, run: &'r Bump) -> Noted<'r> {
    let arena = items(rt, case.input, run);
    let mut plan = open_plan(rt, &arena, run);
    let noted = lay_out(rt, alloc, case, &arena, &mut plan, run);
    same(
        rt,
        case.name,
        drawn(rt, case.name, &arena, &plan, run),
        case.output,
    );
    noted
}

#[test]
fn lays_out_lines(rt: HostRuntime) {
    let run = Bump::new(rt.alloc());
    for case in CASES {
        let _noted = is_laid_out(&rt, rt.alloc(), case, &run);
    }
}

/// What is told of a decision for a gap, and what is decided in the end for this gap and the next.
const GOES_ON: (Decided, Option<Slot>, Option<Slot>) = (
    Decided::New,
    Some(Slot {
        decision: Decision::Old,
        end: 9,
    }),
    Some(Slot {
        decision: Decision::Spaces(1),
        end: 11,
    }),
);

#[test]
fn goes_on_from_what_is_decided(rt: HostRuntime) {
    let run = Bump::new(rt.alloc());
    let arena = three_items(&rt, &run);
    let mut plan = open_plan(&rt, &arena, &run);
    let decided = plan.decide(1, Decision::Old, 9);
    let _noted = lay_out(&rt, rt.alloc(), &LLVM, &arena, &mut plan, &run);
    let found = (decided, plan.slot(1), plan.slot(2));
    same(&rt, "what is decided, and where it ends", found, GOES_ON);
}

/// A text, and what is noted of its lines.
struct Searched {
    case: Case,
    noted: Noted<'static>,
}

const SEARCHED: &[Searched] = &[
    Searched {
        case: Case {
            name: "a line that stays on a row",
            limit: Some(30),
            input: b"x=\nf( a,b );",
            output: b"x = f(a, b);",
            ..LLVM
        },
        noted: (1, 0, &[]),
    },
    Searched {
        case: Case {
            name: "a call that breaks behind its comma",
            limit: Some(30),
            input: b"call(first_argument,second_argument);",
            output: b"call(first_argument,\n     second_argument);",
            ..LLVM
        },
        noted: (1, 1, &[]),
    },
    Searched {
        case: Case {
            name: "the line of a block",
            limit: Some(30),
            input: b"void f(void){\n\n\ncall(first_argument,second_arg);}",
            output: b"void f(void) {\n\n  call(first_argument,\n       second_arg);\n}",
            ..LLVM
        },
        noted: (3, 1, &[]),
    },
    Searched {
        case: Case {
            name: "no limit of columns",
            limit: Some(0),
            input: b"x =  a\n+ b;",
            output: b"x = a\n    + b;",
            ..LLVM
        },
        noted: (0, 0, &[]),
    },
    Searched {
        case: Case {
            name: "columns past the limit",
            limit: Some(4),
            input: b"return  12345;",
            output: b"return 12345;",
            ..LLVM
        },
        noted: (1, 9_000_000, &[]),
    },
    Searched {
        case: Case {
            name: "a line over the budget",
            limit: Some(30),
            budget: 11,
            input: b"a ;\n\n\nf( a,\n  b);",
            output: b"a;\n\nf( a,\n  b);",
            ..LLVM
        },
        noted: (
            1,
            0,
            &[Report {
                run: 5,
                line: 4,
                cells: 12,
            }],
        ),
    },
    Searched {
        case: Case {
            name: "a line of more tokens than the budget",
            limit: Some(30),
            budget: 6,
            input: b"a ;\n\n\nf( a,\n  b);",
            output: b"a;\n\nf( a,\n  b);",
            ..LLVM
        },
        noted: (
            1,
            0,
            &[Report {
                run: 5,
                line: 4,
                cells: 7,
            }],
        ),
    },
];

#[test]
fn searches_lines(rt: HostRuntime) {
    let run = Bump::new(rt.alloc());
    for row in SEARCHED {
        let noted = is_laid_out(&rt, rt.alloc(), &row.case, &run);
        same(&rt, row.case.name, noted, row.noted);
    }
}
