//! Places of a view, counted by hand.

use crate::comparing::same;
use bumpalo::Bump;
use std::process::Abort;
use token_arena::{Segment, Stretch, View};

/// The items `f ( a ,`, `b ,` and `d ) ;` of a text in which a directive stands behind each of the first two, and
/// `c ,` between two directives.
const CALL: [Stretch; 3] = [
    Stretch { first: 0, end: 4 },
    Stretch { first: 7, end: 9 },
    Stretch { first: 15, end: 18 },
];

/// A place of the view of `CALL`, the number of its item, and whether a directive stands before it.
const PLACES: &[(&str, u32, u32, bool)] = &[
    ("f", 0, 0, false),
    ("(", 1, 1, false),
    ("a", 2, 2, false),
    ("the first comma", 3, 3, false),
    ("b", 4, 7, true),
    ("the comma behind b", 5, 8, false),
    ("d", 6, 15, true),
    (")", 7, 16, false),
    (";", 8, 17, false),
];

/// The view of `CALL`.
fn view_of_call<'r>(rt: &impl Abort, run: &'r Bump) -> View<'r> {
    View::of_stretches(&CALL, run).expect(rt, "a view")
}

/// What a view tells of a place: the number of its item, told twice, and whether a directive stands before it.
fn told(rt: &impl Abort, view: &View<'_>, place: u32, number: &mut usize) -> (u32, u32, bool) {
    assert!(rt; place < view.len());
    let id = view.at(place).0;
    (
        id,
        view.at_near(place, number).0,
        view.directive_before(place),
    )
}

#[test]
fn finds_each_place(rt: HostRuntime) {
    let rt = &rt;
    let run = Bump::new(rt.alloc());
    let view = view_of_call(rt, &run);
    let mut number = 0;
    for case in PLACES {
        let (name, k, id, behind_directive) = *case;
        let found = told(rt, &view, k, &mut number);
        same(rt, name, found, (id, id, behind_directive));
    }
    let size = (view.len(), view.is_empty());
    same(rt, "how many places, and whether none", size, (9, false));
}

/// The segments of the view of `CALL`, with how many places stand before each.
const SEGMENTS: &[Segment] = &[
    Segment {
        first: 0,
        end: 4,
        before: 0,
    },
    Segment {
        first: 7,
        end: 9,
        before: 4,
    },
    Segment {
        first: 15,
        end: 18,
        before: 6,
    },
];

#[test]
fn keeps_a_segment_for_each_stretch(rt: HostRuntime) {
    let rt = &rt;
    let run = Bump::new(rt.alloc());
    let view = View::from_segments(view_of_call(rt, &run).segments());
    same(rt, "three stretches", view.segments(), SEGMENTS);
    let none = View::of_stretches(&[], &run).expect(rt, "a view");
    let size = (none.is_empty(), none.segments().len());
    same(rt, "no stretch", size, (true, 0));
}

/// The first item, the end and the items between.
const ROWS: &[(&str, u32, u32, &[u32])] = &[
    ("from the front", 0, 3, &[0, 1, 2]),
    ("from another item", 5, 7, &[5, 6]),
    ("no item", 4, 4, &[]),
    ("an end before the front", 9, 2, &[]),
];

/// Sees that a view has these items, and no directive among them.
fn compare(rt: &impl Abort, name: &str, view: &View<'_>, ids: &[u32]) {
    same(rt, name, view.len() as usize, ids.len());
    let mut number = 0;
    for (k, id) in (0..view.len()).zip(ids) {
        let found = told(rt, view, k, &mut number);
        same(rt, name, found, (*id, *id, false));
    }
}

#[test]
fn sees_all_items_in_a_row(rt: HostRuntime) {
    let rt = &rt;
    let run = Bump::new(rt.alloc());
    for case in ROWS {
        let (name, first, end, ids) = *case;
        let view = View::of(first, end, &run).expect(rt, name);
        compare(rt, name, &view, ids);
    }
}
