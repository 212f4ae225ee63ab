//! Parts of a view, as `docs/PROFILE.md` says under "Parts".

ghost use Rattle.std.specs.Prelude.{◌≡◌, ◌<◌, length, get_or};
ghost use Rattle.std.specs.Option.{ForSome};
ghost use Rattle.item_classes.specs.Viewed.{AreWithin, item_classes};
ghost use Rattle.view_parts.specs.Parts.{StandsBefore};
ghost use Rattle.part_walk.specs.Places.{place_in};

use crate::comparing::same;
use crate::fixtures::{tree, view};
use crate::line_fixtures::{items_from, repeated};
use bumpalo::Bump;
use bumpalo::collections::into_bump_slice;
use item_classes::item_classes;
use std::alloc::Global;
use std::process::Abort;
use token_arena::{Dialect, TokenArena, View, build};
use view_parts::{PartSource, PartStart, PartsEnd, laid_view, part_end};

/// A text, and behind how many of its items each part ends.
const PARTS: &[(&str, &[u32])] = &[
    ("", &[]),
    ("int a;\nint b;", &[3, 6]),
    ("int a; int b;", &[6]),
    ("int a; // one\nint b;", &[7]),
    ("int a;\n// one\n/* two */\nint b;", &[3, 8]),
    ("int a;\n/* one */ /* two */ int b;", &[8]),
    ("int a, /* one */ b;\nint c;", &[9]),
    ("int a, /* one */ b;\n// two\nint c;", &[6, 10]),
    ("int a;\n// one\nint b;\nint c;", &[3, 7, 10]),
    ("int f(int a, // one\nint b) { }\nint c;", &[15]),
    ("int f(void) { return 1; }\n// two\nint b;", &[10, 14]),
    ("int f(void) { /* one */ }\nint b;", &[8, 11]),
    ("int f(void) /* one */ { }\nint b;", &[11]),
    ("int f(void) { }\n;", &[8]),
    ("x = f(a) { }\nint b;", &[11]),
    ("x = 1;\nf(a) { }\nint b;", &[4, 10, 13]),
    ("struct s { int a; }\nname;", &[9]),
    ("struct s { int a; };\nint b;", &[8, 11]),
    ("int k[] = { 1 };\nint b;", &[9, 12]),
    ("int f(a) int a; { }\nint b;", &[13]),
    ("f(\nint a;\nint b;", &[8]),
    ("if (a) b;\nint c;", &[9]),
    ("a;\ndefault: b;\nc;", &[2, 8]),
];

/// A statement of 19 items.
const CALL: &str = "a(1, 2, 3, 4, 5, 6, 7, 8);\n";

/// A text behind the head of a function and three such statements, which have 63 items; behind how many of the items
/// that the first run sees each part ends, and how many items are laid out for it: its own, and those that stand for
/// the place of a body where it begins.
const PARTS_BEHIND_CALLS: &[(&str, &[(u32, u32)])] = &[
    ("#if A\nb;\n#endif\n}", &[(66, 66)]),
    (";\n#if A\nb;\n#endif\n}", &[(64, 64), (67, 10)]),
    ("a;\n#if A\nb;\n#endif\nc;\n}", &[(65, 65), (70, 12)]),
    ("a;\n#define A\nb;\n}", &[(65, 65), (68, 10)]),
    ("a;\nb;\n}", &[(68, 68)]),
    (
        "a;\n#if A\nb;\n#endif\n}\nint c;",
        &[(65, 65), (68, 10), (71, 3)],
    ),
    ("if (a)\n#if A\nb;\n#endif\nelse c;\n}", &[(73, 73)]),
    ("do a;\n#if A\n#endif\nwhile (b);\n}", &[(72, 72)]),
    ("if (a) { b; }\n#if A\nc;\n#endif\n}", &[(71, 71), (74, 11)]),
    (
        "if (a) b; else { c; }\n#if A\nd;\n#endif\n}",
        &[(74, 74), (77, 11)],
    ),
    ("{ b; }\n#if A\nc;\n#endif\n}", &[(67, 67), (70, 11)]),
    ("{ b; }\n#if A\n;\n#endif\n}", &[(69, 69)]),
    ("a;\n#if A\n;\n#endif\n}", &[(65, 65), (67, 9)]),
    ("a;\n#if A\n*b;\n#endif\n}", &[(65, 65), (69, 11)]),
    ("a;\n#if A\n{ b; }\n#endif\n}", &[(65, 65), (70, 12)]),
    ("int a[] = { 1 }\n#if A\nc;\n#endif\n}", &[(74, 74)]),
    ("struct g(1) { int a; }\n#if A\nc;\n#endif\n}", &[(76, 76)]),
    ("a;\n// one\n#if A\nb;\n#endif\n}", &[(65, 65), (69, 11)]),
    ("a; // one\n#if A\nb;\n#endif\n}", &[(66, 66), (69, 10)]),
    ("a;\n#if A\n// one\nb;\n#endif\n}", &[(65, 65), (69, 11)]),
    ("a;\n#if A\n// one\n#endif\n}", &[(67, 67)]),
];

/// The same where statements or members stand in bodies of the function's body.
const PARTS_IN_BLOCKS: &[(&str, &[(u32, u32)])] = &[
    (
        "while (a) {\nb;\n#if A\nc;\n#endif\n}\n}",
        &[(70, 70), (74, 16)],
    ),
    (
        "for (;;) {\nif (a) {\nb;\n#if A\nc;\n#endif\n}\n}\n}",
        &[(76, 76), (81, 23)],
    ),
    (
        "while (a) {\nif (b) { c; }\n#if A\nd;\n#endif\n}\n}",
        &[(76, 76), (80, 17)],
    ),
    (
        "if (a) b; else {\nc;\n#if A\nd;\n#endif\n}\n}",
        &[(73, 73), (77, 19)],
    ),
    (
        "if (a) {\nb;\n} else {\nc;\n#if A\nd;\n#endif\n}\n}",
        &[(75, 75), (79, 16)],
    ),
    (
        "if (a) {\nb;\n} else if (c) {\nd;\n#if A\ne;\n#endif\n}\n}",
        &[(79, 79), (83, 16)],
    ),
    (
        "struct g {\nint b;\n#if A\nint c;\n#endif\n} d;\n}",
        &[(69, 69), (76, 17)],
    ),
    (
        "struct __attribute__((x)) g {\nint b;\n#if A\nint c;\n#endif\n} d;\n}",
        &[(75, 75), (82, 23)],
    ),
    (
        "struct __attribute__((x)) {\nint b;\n#if A\nint c;\n#endif\n} d;\n}",
        &[(81, 81)],
    ),
    (
        "switch (a) {\ncase 1:\nb;\n#if A\nc;\n#endif\n}\n}",
        &[(77, 77)],
    ),
    (
        "switch (a) {\ncase 1:\nb;\nb;\nb;\n#if A\nc;\n#endif\n}\n}",
        &[(77, 77), (81, 16)],
    ),
    (
        "switch (a) {\ncase 1:\nb;\n#if A\ncase 2:\nc;\n#endif\n}\n}",
        &[(73, 73), (80, 19)],
    ),
    (
        "switch (a) {\ncase 1:\nb;\n// one\n#if A\ncase 2:\nc;\n#endif\n}\n}",
        &[(81, 81)],
    ),
];

/// Pieces of a text, each so many times, and the same of that text.
const PARTS_OF_PIECES: &[(&[(&str, usize)], &[(u32, u32)])] = &[
    (
        &[
            ("int f(void) {\n", 1),
            (CALL, 3),
            ("a;\n#if A\n", 1),
            (CALL, 4),
            ("#endif\nc;\n}", 1),
        ],
        &[(65, 65), (141, 83), (144, 10)],
    ),
    (
        &[
            ("int f(void) {\nwhile (a) {\n", 1),
            (CALL, 3),
            ("#if A\nb;\n#endif\n}\n", 1),
            (CALL, 4),
            ("#if B\nc;\n#endif\n}", 1),
        ],
        &[(68, 68), (147, 91), (150, 10)],
    ),
    (
        &[
            ("int f(\n#if A\nint a\n#endif\n) {\n", 1),
            (CALL, 3),
            ("b;\n#if A\nc;\n#endif\n}", 1),
        ],
        &[(69, 69)],
    ),
    (
        &[
            ("struct s {\n", 1),
            ("int a;\n", 21),
            ("#if A\nint b;\n#endif\n};", 1),
        ],
        &[(66, 66), (71, 9)],
    ),
    (
        &[
            ("struct __attribute__((x)) {\n", 1),
            ("int a;\n", 20),
            ("#if A\nint b;\n#endif\n};", 1),
        ],
        &[(68, 68), (73, 14)],
    ),
    (
        &[
            ("a = 1 struct __attribute__((x)) {\n", 1),
            ("int a;\n", 20),
            ("#if A\nint b;\n#endif\n};", 1),
        ],
        &[(76, 76)],
    ),
    (
        &[
            ("extern \"C\" {\n", 1),
            ("int a;\n", 21),
            ("#if A\nint b;\n#endif\n}", 1),
        ],
        &[(66, 66), (70, 8)],
    ),
    (
        &[
            ("int \"C\" {\n", 1),
            ("int a;\n", 21),
            ("#if A\nint b;\n#endif\n}", 1),
        ],
        &[(70, 70)],
    ),
    (
        &[
            ("// one\n#if A\nextern \"C\" {\n#endif\n", 1),
            ("int a;\n", 21),
            ("#if B\nint b;\n#endif\n}", 1),
        ],
        &[(67, 67), (71, 8)],
    ),
    (
        &[
            ("// one\n#define A\nint f(void) {\n", 1),
            (CALL, 3),
            ("b;\n#if A\nc;\n#endif\n}", 1),
        ],
        &[(66, 66), (69, 10)],
    ),
    (
        &[
            ("int\n#define A\nf(void) {\n", 1),
            (CALL, 3),
            ("b;\n#if A\nc;\n#endif\n}", 1),
        ],
        &[(68, 68)],
    ),
    (
        &[
            ("int f(void) {\n", 1),
            (CALL, 26),
            ("b;\n", 6),
            (CALL, 1),
            ("}", 1),
        ],
        &[(512, 512), (532, 27)],
    ),
    (
        &[
            ("int f(void) {\n", 1),
            (CALL, 26),
            ("b;\n", 5),
            (CALL, 2),
            ("}", 1),
        ],
        &[(529, 529), (549, 27)],
    ),
    (
        &[
            ("int f(void) {\n", 1),
            (CALL, 26),
            ("b;\n", 5),
            ("b; // one\n", 1),
            (CALL, 2),
            ("}", 1),
        ],
        &[(532, 532), (552, 27)],
    ),
    (
        &[
            ("int f(void) {\n// one\n", 1),
            (CALL, 27),
            ("b;\n", 2),
            ("}", 1),
        ],
        &[(522, 522), (525, 10)],
    ),
];

/// Where a part ends, and how many items are laid out for it.
fn next_part<'r>(
    rt: &impl Abort,
    name: &str,
    source: &PartSource<'_>,
    begin: PartStart<'r>,
    run: &'r Bump,
) -> (PartsEnd<'r>, u32)
    requires within { AreWithin source.now.arena.now source.now.view.now }
    requires all { source.now.classes.now ≡ item_classes source.now.arena.now }
    requires here { begin.first < length source.now.view.now }
    requires begins { ForSome (place_in begin.inside)
        (λ place. StandsBefore place (get_or source.now.view.now begin.first 0)) }
    ensures place { ForSome (place_in result.0.inside)
        (λ place. StandsBefore place (get_or source.now.view.now result.0.end 0)) }
{
    let mut segment = 0;
    let part = part_end(source, begin, &mut segment, run, run).expect(rt, name);
    let laid = laid_view(begin.inside, source.view, begin.first, part.end, run).expect(rt, name);
    (part, laid.len())
}

/// The places behind the last item of each part of a view, and how many items are laid out for it.
fn parts_of<'r>(
    rt: &impl Abort,
    name: &str,
    arena: &TokenArena<'_, '_>,
    view: &View<'_>,
    run: &'r Bump,
) -> &'r [(u32, u32)]
    requires { AreWithin arena.now view.now }
{
    let source = PartSource {
        arena,
        view,
        classes: item_classes(arena, run).expect(rt, name),
    };
    let count = view.len();
    let mut parts = Vec::new(run);
    let mut begin = PartStart {
        first: 0,
        inside: None,
    };
    for _ in 0..count {
        if begin.first < count {
            let (part, laid) = next_part(rt, name, &source, begin, run);
            begin = PartStart {
                first: part.end,
                inside: part.inside,
            };
            parts.push((part.end, laid)).expect(rt, name);
        }
    }
    into_bump_slice(parts)
}

/// The parts of a text end behind so many of its items.
fn has_parts(rt: &impl Abort, run: &Bump, text: &str, want: &[u32]) {
    let arena = build(run, text.as_bytes(), Dialect::C11).expect(rt, text);
    let view = items_from(&arena, 0, run).expect(rt, text);
    let mut ends = Vec::new(run);
    for (end, _) in parts_of(rt, text, &arena, &view, run) {
        ends.push(*end).expect(rt, text);
    }
    same(rt, text, ends.as_slice(), want);
}

/// The parts of what the first run of a text sees end behind so many items, and so many are laid out for each.
fn has_parts_in_bodies(rt: &impl Abort, run: &Bump, text: &str, want: &[(u32, u32)]) {
    let arena = build(run, text.as_bytes(), Dialect::C11).expect(rt, text);
    let tree = tree(rt, run, &arena);
    let view = view(rt, run, &tree, 0);
    same(rt, text, parts_of(rt, text, &arena, &view, run), want);
}

/// The same of a text behind the head of a function and three statements.
fn has_parts_behind_calls(
    rt: &impl Abort,
    run: &Bump,
    alloc: Global,
    text: &str,
    want: &[(u32, u32)],
) {
    let whole = repeated(rt, alloc, &[("int f(void) {\n", 1), (CALL, 3), (text, 1)]);
    has_parts_in_bodies(rt, run, &whole, want);
}

#[test]
fn ends_parts_behind_declarations(rt: HostRuntime) {
    let run = Bump::new(rt.alloc());
    for (text, want) in PARTS {
        has_parts(&rt, &run, text, want);
    }
}

#[test]
fn ends_parts_in_bodies_where_a_directive_stands(rt: HostRuntime) {
    let run = Bump::new(rt.alloc());
    for (text, want) in PARTS_BEHIND_CALLS {
        has_parts_behind_calls(&rt, &run, rt.alloc(), text, want);
    }
}

#[test]
fn ends_parts_in_blocks_where_a_directive_stands(rt: HostRuntime) {
    let run = Bump::new(rt.alloc());
    for (text, want) in PARTS_IN_BLOCKS {
        has_parts_behind_calls(&rt, &run, rt.alloc(), text, want);
    }
}

#[test]
fn ends_parts_of_long_bodies(rt: HostRuntime) {
    let run = Bump::new(rt.alloc());
    for (pieces, want) in PARTS_OF_PIECES {
        let text = repeated(&rt, rt.alloc(), pieces);
        has_parts_in_bodies(&rt, &run, &text, want);
    }
}

/// A function whose head has four items more than so many words, and this body.
fn with_head(rt: &impl Abort, alloc: Global, words: usize, body: &str) -> String {
    repeated(
        rt,
        alloc,
        &[("f(", 1), ("a ", words), (") {\n", 1), (body, 1)],
    )
}

#[test]
fn ends_no_parts_behind_long_heads(rt: HostRuntime) {
    let run = Bump::new(rt.alloc());
    let body = "b;\n#if A\nc;\n#endif\n}";
    let short = with_head(&rt, rt.alloc(), 60, body);
    has_parts_in_bodies(&rt, &run, &short, &[(66, 66), (69, 68)]);
    let long = with_head(&rt, rt.alloc(), 61, body);
    has_parts_in_bodies(&rt, &run, &long, &[(70, 70)]);
    let block = "if (a) {\nb;\n#if A\nc;\n#endif\n}\n}";
    let short = with_head(&rt, rt.alloc(), 55, block);
    has_parts_in_bodies(&rt, &run, &short, &[(66, 66), (70, 69)]);
    let long = with_head(&rt, rt.alloc(), 56, block);
    has_parts_in_bodies(&rt, &run, &long, &[(71, 71)]);
}
