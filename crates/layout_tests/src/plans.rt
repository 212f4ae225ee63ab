//! Decisions for small texts.

use crate::comparing::{holds, same};
use crate::fixtures::{items, open_plan, three_items};
use bumpalo::Bump;
use replacements::{Decided, Decision, Fixed, Slot};
use std::process::Abort;

/// What is decided for the first, the second and the last gap of the next test's text.
const SLOTS: (Option<Slot>, Option<Slot>, Option<Slot>) = (
    None,
    Some(Slot {
        decision: Decision::Spaces(1),
        end: 2,
    }),
    Some(Slot {
        decision: Decision::Spaces(0),
        end: 5,
    }),
);

#[test]
fn keeps_the_first_decision(rt: HostRuntime) {
    let bump = Bump::new(rt.alloc());
    let arena = three_items(&rt, &bump);
    let mut plan = open_plan(&rt, &arena, &bump);
    same(&rt, "the last gap, open", plan.slot(3), None);
    let first = plan.decide(1, Decision::Spaces(1), 2);
    let second = plan.decide(1, Decision::Old, 7);
    let last = plan.decide(3, Decision::Spaces(0), 5);
    let want = (Decided::New, Decided::Kept, Decided::New);
    same(&rt, "what is decided", (first, second, last), want);
    let slots = (plan.slot(0), plan.slot(1), plan.slot(3));
    same(&rt, "the first, the second and the last gap", slots, SLOTS);
    let decided = (plan.is_decided(2), plan.is_decided(3));
    let want = (false, true);
    same(
        &rt,
        "whether the third and the last are decided",
        decided,
        want,
    );
}

/// Whether the second gap of a text keeps this decision, with this column behind it.
fn keeps(rt: &impl Abort, name: &str, decision: Decision, end: u32, bump: &Bump) {
    let arena = three_items(rt, bump);
    let mut plan = open_plan(rt, &arena, bump);
    let decided = plan.decide(1, decision, end);
    let again = plan.decide(1, Decision::Old, 0);
    let want = (Decided::New, Decided::Kept);
    same(rt, name, (decided, again), want);
    same(rt, name, plan.slot(1), Some(Slot { decision, end }));
    let others = (plan.slot(0), plan.slot(2));
    same(rt, name, others, (None, None));
}

/// What is decided, and the column behind it: at the last that is near, behind it, at the last of 24 bits, and behind
/// it.
const KEPT: &[(&str, Decision, u32)] = &[
    ("bytes that stay, near", Decision::Old, 65_535),
    ("bytes that stay, far", Decision::Old, 65_536),
    ("bytes that stay, farthest", Decision::Old, 16_777_215),
    ("bytes that stay, farther yet", Decision::Old, 16_777_216),
    ("nothing, near", Decision::Spaces(0), 65_535),
    ("nothing, far", Decision::Spaces(0), 65_536),
    ("nothing, farther yet", Decision::Spaces(0), 4_294_967_295),
    ("a blank, near", Decision::Spaces(1), 65_535),
    ("a blank, far", Decision::Spaces(1), 70_000),
    ("a blank, farther yet", Decision::Spaces(1), 16_777_217),
    ("two blanks, far", Decision::Spaces(2), 70_000),
    ("many blanks", Decision::Spaces(256), 300),
    (
        "a splice, far",
        Decision::Splice { pad: 1, column: 8 },
        70_000,
    ),
];

#[test]
fn keeps_decisions_far_to_the_right(rt: HostRuntime) {
    let bump = Bump::new(rt.alloc());
    for case in KEPT {
        let (name, decision, end) = *case;
        keeps(&rt, name, decision, end, &bump);
    }
}

/// How many line ends, the level of the line behind them, and its column. A level takes two columns.
const LINES: &[(&str, u32, u32, u32)] = &[
    ("a small level", 1, 255, 510),
    ("a level past a byte", 1, 256, 512),
    ("a level past its columns' two bytes", 1, 32_768, 65_536),
    ("a level past two bytes", 1, 70_000, 140_000),
    ("the last level of 24 bits", 1, 16_777_215, 33_554_430),
    ("the level behind it", 1, 16_777_216, 33_554_432),
    ("a level whose columns pass 32 bits", 1, 2_147_483_650, 4),
    ("a deep level at another column", 1, 300, 601),
    ("a small level at a far column", 1, 2, 70_000),
    ("no line end before a deep level", 0, 300, 600),
    ("a blank line before a deep level", 2, 300, 600),
    ("a blank line before a small level", 2, 3, 6),
];

#[test]
fn keeps_lines_of_any_level(rt: HostRuntime) {
    let bump = Bump::new(rt.alloc());
    for case in LINES {
        let (name, count, level, column) = *case;
        let decision = Decision::Lines {
            count,
            column,
            level,
        };
        keeps(&rt, name, decision, column, &bump);
    }
}

/// What is told of a text's gap while it's open, and what once it is decided at column 9.
fn told(
    rt: &impl Abort,
    text: &[u8],
    place: u32,
    decision: Decision,
    bump: &Bump,
) -> (Option<Fixed>, Decided, Option<Fixed>) {
    let arena = items(rt, text, bump);
    holds(rt, "a gap of the text", place <= arena.len());
    let mut plan = open_plan(rt, &arena, bump);
    let open = plan.fixed_of(&arena, place);
    let decided = plan.decide(place, decision, 9);
    (open, decided, plan.fixed_of(&arena, place))
}

/// Indentation to column 9.
const NO_LINE: Decision = Decision::Lines {
    count: 0,
    column: 9,
    level: 1,
};

/// A line end, and then indentation to column 9.
const ONE_LINE: Decision = Decision::Lines {
    count: 1,
    column: 9,
    level: 1,
};

/// Two line ends, and then indentation to column 9.
const TWO_LINES: Decision = Decision::Lines {
    count: 2,
    column: 9,
    level: 1,
};

/// A text, the place of a gap, what is decided for it, and whether a row begins behind it.
const ENDS: &[(&str, &[u8], u32, Decision, bool)] = &[
    (
        "blanks for a new-line",
        b"a\nb",
        1,
        Decision::Spaces(1),
        false,
    ),
    ("one line end", b"a b", 1, ONE_LINE, true),
    ("two line ends", b"a b", 1, TWO_LINES, true),
    (
        "indentation of the text's first row",
        b"a",
        0,
        NO_LINE,
        false,
    ),
    (
        "a spliced line",
        b"#define a b",
        3,
        Decision::Splice { pad: 1, column: 9 },
        true,
    ),
    ("a kept blank", b"a b", 1, Decision::Old, false),
    ("a kept new-line", b"a \n b", 1, Decision::Old, true),
    ("a kept splice", b"a \\\n b", 1, Decision::Old, false),
    ("a kept first gap", b"\n\na", 0, Decision::Old, true),
    ("no last gap", b"a", 1, Decision::Old, false),
    ("a kept last new-line", b"a\n", 1, Decision::Old, true),
    ("a kept last splice", b"a \\\r\n", 1, Decision::Old, false),
    (
        "a kept last splice by a trigraph",
        b"a ??/\n",
        1,
        Decision::Old,
        false,
    ),
    ("a text without items", b" \n", 0, Decision::Old, true),
];

#[test]
fn tells_where_a_decision_ends_a_line(rt: HostRuntime) {
    let bump = Bump::new(rt.alloc());
    for case in ENDS {
        let (name, text, place, decision, broken) = *case;
        let fixed = Some(Fixed { column: 9, broken });
        let found = told(&rt, text, place, decision, &bump);
        same(&rt, name, found, (None, Decided::New, fixed));
    }
}
