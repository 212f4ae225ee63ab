//! Runs and what they see, by docs/PROFILE.md, "Runs". Items outside of directives are letters.

ghost use Rattle.std.specs.Prelude.{◌≡◌, length};
ghost use Rattle.branch_runs.specs.Cut.{end_of};

use crate::comparing::same;
use crate::fixtures::{item_at, repeated, seen, store, tree, view};
use branch_runs::{Change, CondTree, TokenId};
use bumpalo::Bump;
use std::alloc::Global;
use std::process::Abort;
use std::str::from_utf8;
use token_arena::{TokenArena, View};

/// Adds the bytes of an item, and a blank before them where another stands there.
fn push_item(rt: &impl Abort, out: &mut String, arena: &TokenArena<'_, '_>, id: TokenId) {
    let raw = seen(rt, arena, id).1;
    let blank = if out.is_empty() { "" } else { " " };
    out.push_str(blank).expect(rt, "memory");
    let text = from_utf8(raw).expect(rt, "a text");
    out.push_str(text).expect(rt, "memory");
}

/// The items of a view.
fn items_in(rt: &impl Abort, alloc: Global, arena: &TokenArena<'_, '_>, view: &View<'_>) -> String {
    let mut out = String::new(alloc);
    for k in 0..view.len() {
        push_item(rt, &mut out, arena, item_at(rt, view, k));
    }
    out
}

/// The items that a run sees.
fn items_of(
    rt: &impl Abort,
    alloc: Global,
    arena: &TokenArena<'_, '_>,
    tree: &CondTree<'_>,
    number: u32,
) -> String {
    let run = Bump::new(alloc);
    let view = view(rt, &run, tree, number);
    items_in(rt, alloc, arena, &view)
}

/// A text, and what each run sees of it.
const RUNS: &[(&str, &str, &[&str])] = &[
    ("no item", "", &[""]),
    ("no conditional", "a\n#define X\nb", &["a b"]),
    ("a conditional without an end", "a\n#if A\nb", &["a b"]),
    (
        "the example of docs/PROFILE.md",
        "#ifdef A\na\n#ifdef B\nb\n#else\nc\n#endif\n#else\nd\n#endif\n#ifdef E\ne\n#endif",
        &["a b e", "a c e", "d e"],
    ),
    (
        "two conditionals",
        "#if A\na\n#else\nb\n#endif\nc\n#if B\nd\n#elif C\ne\n#elif D\nf\n#endif",
        &["a c d", "b c e", "b c f"],
    ),
    (
        "one in the first branch of another",
        "#if A\na\n#if B\nb\n#elif C\nc\n#else\nd\n#endif\n#else\ne\n#endif",
        &["a b", "a c", "a d", "e"],
    ),
    (
        "what fits no conditional",
        "#endif\na\n#else\nb\n#if A\nc\n#else\nd\n#elif B\ne\n#else\nf",
        &["a b c", "a b d e f"],
    ),
    ("a dead group alone", "#if 0\na\n#endif", &[""]),
    (
        "a dead group and its #else",
        "a\n#if 0\nb\n#if A\nc\n#endif\n#else\nd\n#endif",
        &["a d"],
    ),
    (
        "an #elif of 0 is live",
        "#if A\na\n#elif 0\nb\n#endif",
        &["a", "b"],
    ),
];

/// Compares what each run of a text sees.
fn compare(
    rt: &impl Abort,
    alloc: Global,
    name: &str,
    arena: &TokenArena<'_, '_>,
    tree: &CondTree<'_>,
    views: &[&str],
) {
    same(rt, name, tree.runs() as usize, views.len());
    for (r, items) in (0..tree.runs()).zip(views) {
        let told = items_of(rt, alloc, arena, tree, r);
        same(rt, name, (r, told.as_str()), (r, *items));
    }
}

#[test]
fn takes_one_branch_of_each_conditional(rt: HostRuntime) {
    let rt = &rt;
    let bump = Bump::new(rt.alloc());
    for case in RUNS {
        let (name, text, views) = *case;
        let arena = store(rt, &bump, text.as_bytes());
        let tree = tree(rt, &bump, &arena);
        compare(rt, rt.alloc(), name, &arena, &tree, views);
    }
}

/// A text, and for each run behind the first the first item that changes from the run before it, and the item behind
/// the last one that is new.
const CHANGES: &[(&str, &str, &[(u32, u32)])] = &[
    ("one run", "a\n#if A\nb\n#endif", &[]),
    (
        "one branch for another",
        "#if A\na\n#else\nb\n#endif\nc",
        &[(3, 7)],
    ),
    (
        "a branch that comes and goes",
        "a\n#if A\n#elif B\nb\n#else\n#endif",
        &[(7, 8), (7, 0)],
    ),
    (
        "a branch with branches in it",
        "#if A\na\n#if B\nb\n#else\nc\n#endif\n#else\nd\n#endif",
        &[(7, 11), (3, 16)],
    ),
    (
        "two conditionals",
        "#if A\na\n#else\nb\n#endif\n#if B\nc\n#else\nd\n#endif",
        &[(3, 16)],
    ),
    (
        "branches without code",
        "#if A\n#else\n#endif",
        &[(u32::MAX, 0)],
    ),
];

/// What changes from the run before this one.
fn change_of(rt: &impl Abort, tree: &CondTree<'_>, run: u32) -> Change {
    assert!(rt; 0 < run && run < tree.runs());
    tree.change(run)
}

#[test]
fn tells_what_changes_from_run_to_run(rt: HostRuntime) {
    let rt = &rt;
    let bump = Bump::new(rt.alloc());
    for case in CHANGES {
        let (name, text, changes) = *case;
        let arena = store(rt, &bump, text.as_bytes());
        let tree = tree(rt, &bump, &arena);
        same(rt, name, tree.runs() as usize, changes.len() + 1);
        for (r, change) in (1..tree.runs()).zip(changes) {
            let told = change_of(rt, &tree, r);
            same(rt, name, (r, told.first, told.end), (r, change.0, change.1));
        }
    }
}

/// Its items are `a` (3), `b` (7), `c` (10), `d` (15) and `e` (18); its runs see `a b e`, `a c e` and `d e`.
const NESTED: &[u8] = b"#if A\na\n#if B\nb\n#else\nc\n#endif\n#else\nd\n#endif\ne";

/// A run, an item and the item before which the view ends, and what it has.
const BETWEEN: &[(&str, u32, u32, u32, &str)] = &[
    ("all", 1, 0, 19, "a c e"),
    ("from an item on", 0, 7, 19, "b e"),
    ("from an item that the run doesn't see", 1, 4, 19, "c e"),
    ("up to an item", 1, 0, 10, "a"),
    ("behind the last", 2, 19, 30, ""),
    ("none", 2, 16, 18, ""),
    ("one item", 2, 15, 16, "d"),
];

#[test]
fn gives_what_a_run_sees_between_two_items(rt: HostRuntime) {
    let rt = &rt;
    let bump = Bump::new(rt.alloc());
    let arena = store(rt, &bump, NESTED);
    let tree = tree(rt, &bump, &arena);
    for case in BETWEEN {
        let (name, r, first, end, items) = *case;
        assert!(rt; r < tree.runs());
        let view = tree.view_between(r, first, end, &bump).expect(rt, name);
        let told = items_in(rt, rt.alloc(), &arena, &view);
        same(rt, name, told.as_str(), items);
    }
}

/// The items in the groups of a literal `#if 0`.
fn dead_items(
    rt: &impl Abort,
    alloc: Global,
    arena: &TokenArena<'_, '_>,
    tree: &CondTree<'_>,
) -> String
    requires { end_of 0 tree.now ≡ length arena.now.tokens }
{
    let mut out = String::new(alloc);
    for id in 0..arena.len() {
        if tree.is_dead(TokenId(id)) {
            push_item(rt, &mut out, arena, TokenId(id));
        }
    }
    out
}

/// A text, and the items in the groups of its literal `#if 0`.
const DEAD: &[(&str, &str, &str)] = &[
    (
        "a conditional in a dead group",
        "a\n#if 0\nb\n#if A\nc\n#endif\n#else\nd\n#endif",
        "b # if A c # endif",
    ),
    (
        "comments beside the 0",
        "#if /* c */ 0 // d\na\n#endif",
        "a",
    ),
    ("a 0 that is spliced", "#i\\\nf \\\n0\na\n#endif", "a"),
    ("another number", "#if 00\na\n#endif", ""),
    ("more behind the 0", "#if 0 + 1\na\n#endif", ""),
    ("no operand", "#if\na\n#endif", ""),
    ("an #ifdef", "#ifdef 0\na\n#endif", ""),
    ("an #elif", "#if A\na\n#elif 0\nb\n#endif", ""),
];

#[test]
fn tells_which_items_are_dead(rt: HostRuntime) {
    let rt = &rt;
    let bump = Bump::new(rt.alloc());
    for case in DEAD {
        let (name, text, items) = *case;
        let arena = store(rt, &bump, text.as_bytes());
        let tree = tree(rt, &bump, &arena);
        let told = dead_items(rt, rt.alloc(), &arena, &tree);
        same(rt, name, told.as_str(), items);
    }
}

const IN_ONE_ANOTHER: &[(&[u8], usize)] = &[
    (b"#if A\na\n", 100_000),
    (b"#else\nb\n#endif\n", 100_000),
];

/// A run of this text, and how many places its view has.
const PLACES: &[(&str, u32, u32)] = &[
    ("the first run", 0, 100_000),
    ("the innermost #else", 1, 100_000),
    ("the next one", 2, 99_999),
    ("the last but one", 99_999, 2),
    ("the outermost #else", 100_000, 1),
];

/// The tree of the runs of a text of pieces, each so many times.
fn tree_of<'a>(
    rt: &impl Abort,
    alloc: Global,
    bump: &'a Bump,
    pieces: &[(&[u8], usize)],
) -> CondTree<'a> {
    let text = repeated(rt, alloc, pieces);
    let arena = store(rt, bump, text.as_slice());
    tree(rt, bump, &arena)
}

/// How many places a run sees, and the first of them.
fn places_of(rt: &impl Abort, alloc: Global, tree: &CondTree<'_>, number: u32) -> (u32, TokenId) {
    let run = Bump::new(alloc);
    let view = view(rt, &run, tree, number);
    (view.len(), item_at(rt, &view, 0))
}

/// Each run leaves one conditional more, from the innermost on, by its `#else`.
#[test]
fn reads_a_hundred_thousand_conditionals_in_one_another(rt: HostRuntime) {
    let rt = &rt;
    let bump = Bump::new(rt.alloc());
    let tree = tree_of(rt, rt.alloc(), &bump, IN_ONE_ANOTHER);
    same(rt, "how many runs", tree.runs(), 100_001);
    for case in PLACES {
        let (name, r, places) = *case;
        let found = places_of(rt, rt.alloc(), &tree, r).0;
        same(rt, name, found, places);
    }
}

const BRANCHES: &[(&[u8], usize)] = &[(b"#if A\na\n", 1), (b"#elif B\nb\n", 100_000)];

/// Each run of a conditional of so many branches sees its own branch alone: all views together take no more steps
/// than there are branches, times the steps of a search among them.
#[test]
fn takes_each_of_a_hundred_thousand_branches(rt: HostRuntime) {
    let rt = &rt;
    let bump = Bump::new(rt.alloc());
    let tree = tree_of(rt, rt.alloc(), &bump, BRANCHES);
    same(rt, "how many runs", tree.runs(), 100_001);
    for r in 0..tree.runs() {
        let (places, first) = places_of(rt, rt.alloc(), &tree, r);
        let branch = first.0 / 4;
        same(
            rt,
            "the item of the run's branch",
            (r, places, branch),
            (r, 1, r),
        );
    }
}
