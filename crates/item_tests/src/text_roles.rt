//! The roles of whole texts, as `docs/PROFILE.md` says under "Roles".

use crate::comparing::same;
use crate::line_fixtures::{items_from, read_text, tokens_of};
use bumpalo::Bump;
use line_tokens::Role::{
    self, AsmColon, Assign, Binary, BlockClose, BlockOpen, CallClose, CallOpen, CastClose,
    CastOpen, Comma, CtrlClose, CtrlOpen, DeclClose, DeclName, DeclOpen, DesigClose, DesigDot,
    DesigOpen, FieldColon, GroupClose, GroupOpen, IndexClose, IndexOpen, Inner, LabelColon,
    ListClose, ListOpen, Literal, Member, Own, Pointer, Postfix, Prefix, Question, Semi, Stray,
    TernColon, Trailing, Unary, Word,
};
use line_tokens::{LineKind, LineTok, ULine};
use std::process::Abort;
use token_arena::{Dialect, build};

/// A text with the roles of its items.
type Case = (&'static str, &'static str, &'static [Role]);

const CASES: &[Case] = &[
    (
        "declarators",
        "int *p, *q;",
        &[Word, Pointer, Word, Comma, Unary, Word, Semi],
    ),
    (
        "a cast and a product",
        "x = (int)y * z;",
        &[
            Word, Assign, CastOpen, Word, CastClose, Word, Binary, Word, Semi,
        ],
    ),
    (
        "a cast to a plain word",
        "x = (foo)y;",
        &[Word, Assign, CastOpen, Word, CastClose, Word, Semi],
    ),
    (
        "a group before a sign",
        "x = (foo)-y;",
        &[
            Word, Assign, GroupOpen, Word, GroupClose, Binary, Word, Semi,
        ],
    ),
    (
        "a group before a group",
        "x = (a)(b);",
        &[
            Word, Assign, GroupOpen, Word, GroupClose, CallOpen, Word, CallClose, Semi,
        ],
    ),
    (
        "a cast before an address",
        "x = (struct s *)&y[0];",
        &[
            Word, Assign, CastOpen, Word, Word, Pointer, CastClose, Unary, Word, IndexOpen,
            Literal, IndexClose, Semi,
        ],
    ),
    (
        "no cast before `&&`",
        "x = (int)&& y;",
        &[
            Word, Assign, GroupOpen, Word, GroupClose, Binary, Word, Semi,
        ],
    ),
    (
        "comments in a cast",
        "x = (/*a*/foo/*b*/)/*c*/y;",
        &[
            Word, Assign, CastOpen, Inner, Word, Inner, CastClose, Inner, Word, Semi,
        ],
    ),
    (
        "a pointer to a function",
        "int (*f)(int, char *);",
        &[
            Word, GroupOpen, Unary, Word, GroupClose, CallOpen, Word, Comma, Word, Pointer,
            CallClose, Semi,
        ],
    ),
    (
        "the type of such a pointer",
        "typedef unsigned long (*handler)(struct s *, int *x);",
        &[
            Word, Word, Word, GroupOpen, Unary, Word, GroupClose, CallOpen, Word, Word, Pointer,
            Comma, Word, Pointer, Word, CallClose, Semi,
        ],
    ),
    (
        "designators",
        "a = {.x = 1, [2] = 3};",
        &[
            Word, Assign, ListOpen, DesigDot, Word, Assign, Literal, Comma, DesigOpen, Literal,
            DesigClose, Assign, Literal, ListClose, Semi,
        ],
    ),
    (
        "compound literals",
        "f((T){1}, (int){2});",
        &[
            Word, CallOpen, GroupOpen, Word, GroupClose, ListOpen, Literal, ListClose, Comma,
            CastOpen, Word, CastClose, ListOpen, Literal, ListClose, CallClose, Semi,
        ],
    ),
    (
        "a compound literal outside brackets",
        "x = (int){2};",
        &[
            Word, Assign, CastOpen, Word, CastClose, ListOpen, Literal, ListClose, Semi,
        ],
    ),
    (
        "assembly",
        "__asm__ volatile(\"nop\" : : \"r\"(flags) : \"memory\");",
        &[
            Word, Word, CallOpen, Literal, AsmColon, AsmColon, Literal, CallOpen, Word, CallClose,
            AsmColon, Literal, CallClose, Semi,
        ],
    ),
    (
        "assembly that jumps",
        "asm volatile goto(\"jmp %l0\" : : : : there);",
        &[
            Word, Word, Word, CallOpen, Literal, AsmColon, AsmColon, AsmColon, AsmColon, Word,
            CallClose, Semi,
        ],
    ),
    (
        "a conditional",
        "x = a ? b : c;",
        &[Word, Assign, Word, Question, Word, TernColon, Word, Semi],
    ),
    (
        "bit-fields",
        "struct s { int irq : 5; };",
        &[
            Word, Word, BlockOpen, Word, Word, FieldColon, Literal, Semi, BlockClose, Semi,
        ],
    ),
    (
        "labels",
        "void f(void) { switch (a) { case x ? 1 : 2: default: b(); } end: ; }",
        &[
            Word, DeclName, DeclOpen, Word, DeclClose, BlockOpen, Word, CtrlOpen, Word, CtrlClose,
            BlockOpen, Word, Word, Question, Literal, TernColon, Literal, LabelColon, Word,
            LabelColon, Word, CallOpen, CallClose, Semi, BlockClose, Word, LabelColon, Semi,
            BlockClose,
        ],
    ),
    (
        "the size of a type",
        "n = sizeof (int) * k;",
        &[
            Word, Assign, Word, CallOpen, Word, CallClose, Binary, Word, Semi,
        ],
    ),
    ("a jump", "return -1;", &[Word, Unary, Literal, Semi]),
    (
        "an operator between operands",
        "x = a & b;",
        &[Word, Assign, Word, Binary, Word, Semi],
    ),
    (
        "an address",
        "f(&x);",
        &[Word, CallOpen, Unary, Word, CallClose, Semi],
    ),
    (
        "comments",
        "x = /* a */ y; // b\n// c",
        &[Word, Assign, Inner, Word, Semi, Trailing, Own],
    ),
    (
        "a statement in brackets",
        "x = ({ int y = 1; y; });",
        &[
            Word, Assign, GroupOpen, ListOpen, Word, Word, Assign, Literal, Semi, Word, Semi,
            ListClose, GroupClose, Semi,
        ],
    ),
    (
        "the header of a loop",
        "for (T *p = q; p < e; p++) { }",
        &[
            Word, CtrlOpen, Word, Pointer, Word, Assign, Word, Semi, Word, Binary, Word, Semi,
            Word, Postfix, CtrlClose, BlockOpen, BlockClose,
        ],
    ),
    (
        "lists",
        "static const char *const names[] = {a, {b}};",
        &[
            Word, Word, Word, Pointer, Word, Word, IndexOpen, IndexClose, Assign, ListOpen, Word,
            Comma, ListOpen, Word, ListClose, ListClose, Semi,
        ],
    ),
    (
        "steps",
        "x = *p++ + --*q;",
        &[
            Word, Assign, Unary, Word, Postfix, Binary, Prefix, Unary, Word, Semi,
        ],
    ),
    (
        "members",
        "a->b.c[i] = !d;",
        &[
            Word, Member, Word, Member, Word, IndexOpen, Word, IndexClose, Assign, Unary, Word,
            Semi,
        ],
    ),
    ("a declared pointer", "T *p;", &[Word, Pointer, Word, Semi]),
    (
        "a product",
        "x = a * b;",
        &[Word, Assign, Word, Binary, Word, Semi],
    ),
    (
        "enumerators",
        "enum e { A = 1 << 2, B };",
        &[
            Word, Word, BlockOpen, Word, Assign, Literal, Binary, Literal, Comma, Word, BlockClose,
            Semi,
        ],
    ),
    (
        "what is no token of C",
        "x = y # z ## w;",
        &[Word, Assign, Word, Stray, Word, Stray, Word, Semi],
    ),
    (
        "parameters",
        "int f(const char *s, T *t, ...);",
        &[
            Word, DeclName, DeclOpen, Word, Word, Pointer, Word, Comma, Word, Pointer, Word, Comma,
            Word, DeclClose, Semi,
        ],
    ),
    (
        "the tail of a loop",
        "do { } while (x && *y);",
        &[
            Word, BlockOpen, BlockClose, Word, CtrlOpen, Word, Binary, Unary, Word, CtrlClose, Semi,
        ],
    ),
    (
        "branches",
        "if (a) return (b); else goto c;",
        &[
            Word, CtrlOpen, Word, CtrlClose, Word, GroupOpen, Word, GroupClose, Semi, Word, Word,
            Word, Semi,
        ],
    ),
    (
        "an attribute",
        "__attribute__((packed)) int x;",
        &[
            Word, CallOpen, GroupOpen, Word, GroupClose, CallClose, Word, Word, Semi,
        ],
    ),
    (
        "a conditional in another",
        "x = a ? b ? c : d : e;",
        &[
            Word, Assign, Word, Question, Word, Question, Word, TernColon, Word, TernColon, Word,
            Semi,
        ],
    ),
    (
        "a macro without a semicolon",
        "FOO(x)\nint y;",
        &[Word, CallOpen, Word, CallClose, Word, Word, Semi],
    ),
    (
        "a cast before a cast",
        "x = (int)(char)c;",
        &[
            Word, Assign, CastOpen, Word, CastClose, CastOpen, Word, CastClose, Word, Semi,
        ],
    ),
    (
        "a function that gives a pointer",
        "struct s *f(void);",
        &[
            Word, Word, Pointer, DeclName, DeclOpen, Word, DeclClose, Semi,
        ],
    ),
    (
        "a bit-field without a name",
        "struct s { unsigned : 3; };",
        &[
            Word, Word, BlockOpen, Word, FieldColon, Literal, Semi, BlockClose, Semi,
        ],
    ),
    (
        "brackets without partners",
        ") ] }",
        &[GroupClose, IndexClose, BlockClose],
    ),
    (
        "digraphs",
        "a<:0:> = <%1%>;",
        &[
            Word, IndexOpen, Literal, IndexClose, Assign, ListOpen, Literal, ListClose, Semi,
        ],
    ),
];

/// The tokens have these roles.
fn have_roles(rt: &impl Abort, name: &str, found: &[LineTok], want: &[Role]) {
    same(rt, name, found.len(), want.len());
    for (k, (token, role)) in found.iter().zip(want).enumerate() {
        same(rt, name, (k, token.role), (k, *role));
    }
}

#[test]
fn tells_the_roles_of_texts(rt: HostRuntime) {
    let run = Bump::new(rt.alloc());
    for (name, text, want) in CASES {
        let told = read_text(&rt, &run, name, "LLVM", text);
        have_roles(&rt, name, told.tokens, want);
    }
}

/// The roles of an operand's items.
const OPERAND: &[Role] = &[
    Word, Assign, GroupOpen, Word, GroupClose, Semi, Word, CtrlOpen, Word, CtrlClose, BlockOpen,
    Word, Semi, BlockClose,
];

/// An operand that is one line.
const LINE: ULine = ULine {
    first: 0,
    last: 13,
    level: 0,
    kind: LineKind::Simple,
};

/// The 14 items of an operand have these roles where they are one line.
fn is_one_line(rt: &impl Abort, run: &Bump, text: &str, want: &[Role]) {
    let arena = build(run, text.as_bytes(), Dialect::C11).expect(rt, text);
    let view = items_from(&arena, 3, run).expect(rt, text);
    assert!(rt; view.len() == 14);
    have_roles(
        rt,
        text,
        tokens_of(rt, run, text, &arena, &view, &[LINE]),
        want,
    );
}

#[test]
fn takes_an_operand_for_one_line(rt: HostRuntime) {
    let run = Bump::new(rt.alloc());
    is_one_line(&rt, &run, "#define M x=(a);if(b){c;}", OPERAND);
}

/// What tables look at beside the role: how tightly a token binds, how many brackets are open, and whether the gap is
/// one of a list with a last comma, the token is held, it may touch the one before it, a directive stands between.
fn letter(token: &LineTok) -> u8 {
    if token.directive {
        b'd'
    } else if token.held {
        b'h'
    } else if token.trailing_list {
        b't'
    } else if !token.touch {
        b'a'
    } else {
        b'.'
    }
}

/// A text; below each of its items stands how many brackets are open before it, how tightly it binds, and what the
/// gap is.
const LOOKED_AT: &[(&str, &str, &[u32], &[u8], &[u8])] = &[
    (
        "operators",
        "x = a + (b * c) || d == - 1;",
        &[0, 0, 0, 0, 0, 1, 1, 1, 1, 0, 0, 0, 0, 0, 0],
        &[0, 0, 0, 13, 0, 0, 14, 0, 0, 4, 0, 9, 0, 0, 0],
        b"...............",
    ),
    (
        "a list with a last comma",
        "a[] = { /* i */ 1, // c\n f(x, y), {2}, };",
        &[
            0, 0, 1, 0, 0, 1, 1, 1, 1, 1, 1, 2, 2, 2, 2, 1, 1, 2, 2, 1, 1, 0,
        ],
        &[0; 22],
        b".....t...t......t...t.",
    ),
    (
        "items that are held",
        "x /* a */ /* b */ # y /* c */ z ## w;",
        &[0; 10],
        &[0; 10],
        b".hhh......",
    ),
    (
        "items that may not touch",
        "int x = + +y;",
        &[0; 7],
        &[0; 7],
        b".a..a..",
    ),
];

/// The tokens have these depths and powers, and stand behind these gaps.
fn are_looked_at(
    rt: &impl Abort,
    name: &str,
    found: &[LineTok],
    depths: &[u32],
    powers: &[u8],
    gaps: &[u8],
) {
    let count = found.len();
    let counts = (depths.len(), powers.len(), gaps.len());
    same(rt, name, (count, count, count), counts);
    for (k, token) in found.iter().enumerate() {
        let gap = letter(token);
        let told = (k, Some(&token.depth), Some(&token.power), Some(&gap));
        let want = (k, depths.get(k), powers.get(k), gaps.get(k));
        same(rt, name, told, want);
    }
}

#[test]
fn tells_what_else_tables_look_at(rt: HostRuntime) {
    let run = Bump::new(rt.alloc());
    for (name, text, depths, powers, gaps) in LOOKED_AT {
        let told = read_text(&rt, &run, name, "LLVM", text);
        are_looked_at(&rt, name, told.tokens, depths, powers, gaps);
    }
}
