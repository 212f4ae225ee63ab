//! Views of two runs beside each other, over the store of one text.

use crate::comparing::same;
use crate::fixtures::{Seen, item_at, seen, store, tree, view};
use bumpalo::Bump;
use std::process::Abort;
use token_arena::{Segment, TokenArena, View};

/// A call with branches of `#if` in its list. Its items are `f ( a ,` from 0 on, `b ,` from 7 on, `c ,` from 11 on and
/// `d ) ;` from 15 on; the others are those of directives.
const CALL: &[u8] = b"f(a,\n#ifdef X\nb ,\n#else\nc ,\n#endif\nd);\n";

/// The stretch of items before the branches, and the one behind them.
const BEFORE: Segment = Segment {
    first: 0,
    end: 4,
    before: 0,
};

const BEHIND: Segment = Segment {
    first: 15,
    end: 18,
    before: 6,
};

/// What the first run sees, and what the second one does.
const FIRST: &[Segment] = &[
    BEFORE,
    Segment {
        first: 7,
        end: 9,
        before: 4,
    },
    BEHIND,
];

const SECOND: &[Segment] = &[
    BEFORE,
    Segment {
        first: 11,
        end: 13,
        before: 4,
    },
    BEHIND,
];

/// Each item that both views have: its bytes, and its place in the one and in the other.
const COMMON: &[(&str, &[u8], u32, u32)] = &[
    ("f", b"f", 0, 0),
    ("(", b"(", 1, 1),
    ("a", b"a", 2, 2),
    ("the first comma", b",", 3, 3),
    ("d", b"d", 6, 6),
    (")", b")", 7, 7),
    (";", b";", 8, 8),
];

/// The number of the item at a place of a view, and what the store has of it.
fn seen_at<'s>(
    rt: &impl Abort,
    arena: &TokenArena<'_, 's>,
    view: &View<'_>,
    place: u32,
) -> (u32, Seen<'s>) {
    let id = item_at(rt, view, place);
    (id.0, seen(rt, arena, id))
}

/// Sees that the views of both runs have the items that are common.
fn compare(rt: &impl Abort, arena: &TokenArena<'_, '_>, first: &View<'_>, second: &View<'_>) {
    for case in COMMON {
        let (name, raw, here, there) = *case;
        let token = seen_at(rt, arena, first, here);
        same(rt, name, seen_at(rt, arena, second, there), token);
        same(rt, name, token.1.1, raw);
    }
}

#[test]
fn gives_the_same_tokens_through_two_views(rt: HostRuntime) {
    let rt = &rt;
    let bump = Bump::new(rt.alloc());
    let arena = store(rt, &bump, CALL);
    let tree = tree(rt, &bump, &arena);
    same(rt, "how many runs", tree.runs(), 2);
    let first = view(rt, &bump, &tree, 0);
    let second = view(rt, &bump, &tree, 1);
    same(rt, "the first run", first.segments(), FIRST);
    same(rt, "the second run", second.segments(), SECOND);
    compare(rt, &arena, &first, &second);
}
