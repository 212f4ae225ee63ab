//! Worked lines, and all short lines against a search of every breaking.

ghost use Rattle.std.specs.Prelude.{◌≡◌, ◌<◌, ◌≤◌, length};
ghost use Rattle.style_table.specs.Range.{IsInRange};

use crate::comparing::{holds, same};
use crate::fixtures::{count_of, style};
use crate::token_fixtures::{step_by, token};
use break_search::{Outcome, search};
use bumpalo::Bump;
use bumpalo::collections::into_bump_slice;
use line_state::start;
use line_tokens::{Fixed, LineTok, Role};
use std::alloc::{AllocError, Global};
use std::process::Abort;
use style_table::{AlignAfterOpenBracket, Style};

/// A call of two arguments, with the widths of its name and its arguments.
fn call(name: u32, first: u32, second: u32) -> [LineTok; 7] {
    [
        token(Role::Word, 0, name),
        token(Role::CallOpen, 0, 1),
        token(Role::Word, 1, first),
        token(Role::Comma, 1, 1),
        token(Role::Word, 1, second),
        token(Role::CallClose, 1, 1),
        token(Role::Semi, 0, 1),
    ]
}

/// The widths of a call's name and arguments, the budget, and where the call is within it, whether each of its gaps
/// breaks and the cost.
const CALLS: &[(&str, u32, u32, u32, u32, Option<(&[bool], u64)>)] = &[
    ("fits", 4, 10, 10, 2_000_000, Some((&[false; 6], 0))),
    (
        "behind the comma",
        4,
        50,
        36,
        2_000_000,
        Some((&[false, false, false, true, false, false], 1)),
    ),
    (
        "behind the opener",
        40,
        40,
        30,
        2_000_000,
        Some((&[false, true, false, false, false, false], 19)),
    ),
    (
        "past the limit",
        4,
        100,
        1,
        2_000_000,
        Some((&[false, true, false, true, false, false], 25_000_020)),
    ),
    ("over its budget", 4, 50, 36, 1, None),
];

/// What a search found, where it was within the budget.
fn found_of<'r>(outcome: Outcome<'r>) -> Option<(&'r [bool], u64)> {
    match outcome {
        Outcome::Found { breaks, cost } => Some((breaks, cost)),
        Outcome::OverBudget { cells: _ } => None,
    }
}

/// What a search found within its budget, and whether it tells more cells than that.
fn told_of<'r>(outcome: Outcome<'r>, budget: u64) -> (Option<(&'r [bool], u64)>, bool) {
    match outcome {
        Outcome::Found { breaks, cost } => (Some((breaks, cost)), false),
        Outcome::OverBudget { cells } => (None, cells > budget),
    }
}

/// No gap is decided.
const FREE: [Option<Fixed>; 8] = [None; 8];

#[test]
fn breaks_calls_at_their_least_cost(rt: HostRuntime) {
    let style = style(&rt, "LLVM");
    let run = Bump::new(rt.alloc());
    for case in CALLS {
        let (name, called, first, second, budget, want) = *case;
        let line = call(called, first, second);
        let budget = u64::from(budget);
        let outcome = search(rt.alloc(), &style, &line, 0, &FREE[..7], budget, &run).expect(
            &rt,
            "an outcome",
        );
        same(&rt, name, told_of(outcome, budget), (want, want.is_none()));
    }
}

/// The cost of a breaking, if it is admissible. Of the bits the highest is that of the first gap.
fn cost_of(
    rt: &impl Abort,
    alloc: Global,
    style: &Style,
    line: &[LineTok],
    fixed: &[Option<Fixed>],
    bits: u32,
) -> Option<u128>
    requires range { IsInRange style.now }
    requires even { length fixed.now ≡ length line.now }
    requires short { length line.now ≤ 8 }
{
    let mut state = start(alloc, style, 0);
    for at in 0..line.len() {
        let right = &line[at];
        let left = if at == 0 { right } else { &line[at - 1] };
        let place = line.len() - 1 - at;
        let brk = at == 0 || (bits >> place) % 2 == 1;
        state = step_by(rt, style, &state, left, right, fixed[at], brk)?;
    }
    Some(state.cost)
}

/// The least cost of all breakings of a line, and the first of these told by its bits.
fn least_of(
    rt: &impl Abort,
    alloc: Global,
    style: &Style,
    line: &[LineTok],
    fixed: &[Option<Fixed>],
) -> Option<(u128, u32)>
    requires range { IsInRange style.now }
    requires some { 0 < length line.now }
    requires even { length fixed.now ≡ length line.now }
    requires short { length line.now ≤ 8 }
{
    let mut least: Option<(u128, u32)> = None;
    for bits in 0..1u32 << (line.len() - 1) {
        if let Some(cost) = cost_of(rt, alloc, style, line, fixed, bits) {
            least = match least {
                Some((best, _)) if best <= cost => least,
                _ => Some((cost, bits)),
            };
        }
    }
    least
}

/// A breaking told by its bits.
fn bits_of(breaks: &[bool]) -> u32 {
    let mut bits: u32 = 0;
    for brk in breaks {
        bits = bits.wrapping_mul(2).wrapping_add(u32::from(*brk));
    }
    bits
}

/// Compares the search of a line with all of its breakings, of which one is admissible.
fn compare(
    rt: &impl Abort,
    alloc: Global,
    name: &str,
    style: &Style,
    line: &[LineTok],
    fixed: &[Option<Fixed>],
)
    requires range { IsInRange style.now }
    requires some { 0 < length line.now }
    requires even { length fixed.now ≡ length line.now }
    requires short { length line.now ≤ 8 }
{
    let least = least_of(rt, alloc, style, line, fixed).expect(rt, "an admissible breaking");
    let run = Bump::new(alloc);
    let outcome = search(alloc, style, line, 0, fixed, 2_000_000, &run).expect(rt, "an outcome");
    let found = match found_of(outcome) {
        Some((breaks, cost)) => Some((u128::from(cost), bits_of(breaks))),
        None => None,
    };
    same(rt, name, (line, found), (line, Some(least)));
}

/// The line whose tokens are told by the digits of a number: each digit is a role and a width of these.
fn line_of(
    rt: &impl Abort,
    alloc: Global,
    shapes: &[(Role, u32)],
    code: usize,
    len: u32,
) -> Vec<LineTok>
    requires { 0 < length shapes.now }
{
    let mut tokens = Vec::new(alloc);
    let mut rest = code;
    let mut depth: u32 = 0;
    for _ in 0..len {
        let (role, width) = shapes[rest % shapes.len()];
        rest = rest / shapes.len();
        tokens.push(token(role, depth, width)).expect(rt, "memory");
        depth = match role {
            Role::CallOpen | Role::ListOpen => depth.saturating_add(1),
            Role::CallClose | Role::ListClose => depth.saturating_sub(1),
            _ => depth,
        };
    }
    tokens
}

/// Lines that are compared with a search of every breaking, in LLVM with a limit of eight columns: all of at most so
/// many tokens, each of one of these roles and widths, with these gaps decided.
struct Lines {
    name: &'static str,
    align: AlignAfterOpenBracket,
    pack: bool,
    shapes: &'static [(Role, u32)],
    fixed: &'static [Option<Fixed>; 8],
    longest: u32,
}

/// The style of some lines.
fn narrow(rt: &impl Abort, lines: &Lines) -> Style
    ensures { IsInRange result }
{
    let mut style = style(rt, "LLVM");
    style.column_limit = 8;
    style.align_after_open_bracket = lines.align;
    style.bin_pack_arguments = lines.pack;
    style
}

/// Compares all lines of so many tokens.
fn compare_lines(
    rt: &impl Abort,
    alloc: Global,
    style: &Style,
    lines: &Lines,
    len: u32,
    count: usize,
)
    requires range { IsInRange style.now }
    requires some { 0 < length lines.now.shapes.now }
{
    let fixed = lines.fixed;
    for code in 0..count {
        let tokens = line_of(rt, alloc, lines.shapes, code, len);
        let line = tokens.as_slice();
        holds(rt, "some tokens", !line.is_empty());
        holds(rt, "few tokens", line.len() <= 8);
        compare(rt, alloc, lines.name, style, line, &fixed[..line.len()]);
    }
}

/// Compares all lines of at most so many tokens.
fn compare_up_to(rt: &impl Abort, alloc: Global, lines: &Lines) {
    holds(rt, "some shapes", !lines.shapes.is_empty());
    let style = narrow(rt, lines);
    let mut count: usize = 1;
    for len in 1..=lines.longest {
        count = count.saturating_mul(lines.shapes.len());
        compare_lines(rt, alloc, &style, lines, len, count);
    }
}

/// Words, calls and an operator.
const MIXED: &[(Role, u32)] = &[
    (Role::Word, 3),
    (Role::Comma, 1),
    (Role::CallOpen, 1),
    (Role::CallClose, 1),
    (Role::Binary, 2),
];

/// A word and what opens a call.
const WORDS: &[(Role, u32)] = &[(Role::Word, 3), (Role::Comma, 1), (Role::CallOpen, 1)];

/// What opens and closes a call.
const CALLS_ALONE: &[(Role, u32)] = &[(Role::Comma, 1), (Role::CallOpen, 1), (Role::CallClose, 1)];

/// What opens a list, and an operator.
const LISTS: &[(Role, u32)] = &[(Role::Comma, 1), (Role::ListOpen, 1), (Role::Binary, 2)];

/// The gap before the third token is decided.
const DECIDED: [Option<Fixed>; 8] = [
    None,
    None,
    Some(Fixed {
        column: 5,
        broken: true,
    }),
    None,
    None,
    None,
    None,
    None,
];

const LINES: &[Lines] = &[
    Lines {
        name: "mixed, aligned",
        align: AlignAfterOpenBracket::Align,
        pack: true,
        shapes: MIXED,
        fixed: &FREE,
        longest: 4,
    },
    Lines {
        name: "mixed, with a gap that is decided, aligned",
        align: AlignAfterOpenBracket::Align,
        pack: true,
        shapes: MIXED,
        fixed: &DECIDED,
        longest: 4,
    },
    Lines {
        name: "mixed, not aligned",
        align: AlignAfterOpenBracket::DontAlign,
        pack: false,
        shapes: MIXED,
        fixed: &FREE,
        longest: 4,
    },
    Lines {
        name: "mixed, with a gap that is decided, not aligned",
        align: AlignAfterOpenBracket::DontAlign,
        pack: false,
        shapes: MIXED,
        fixed: &DECIDED,
        longest: 4,
    },
    Lines {
        name: "mixed, always broken",
        align: AlignAfterOpenBracket::AlwaysBreak,
        pack: false,
        shapes: MIXED,
        fixed: &FREE,
        longest: 4,
    },
    Lines {
        name: "mixed, with a gap that is decided, always broken",
        align: AlignAfterOpenBracket::AlwaysBreak,
        pack: false,
        shapes: MIXED,
        fixed: &DECIDED,
        longest: 4,
    },
    Lines {
        name: "words, aligned",
        align: AlignAfterOpenBracket::Align,
        pack: true,
        shapes: WORDS,
        fixed: &FREE,
        longest: 6,
    },
    Lines {
        name: "calls, not aligned",
        align: AlignAfterOpenBracket::DontAlign,
        pack: false,
        shapes: CALLS_ALONE,
        fixed: &FREE,
        longest: 6,
    },
    Lines {
        name: "lists, always broken",
        align: AlignAfterOpenBracket::AlwaysBreak,
        pack: false,
        shapes: LISTS,
        fixed: &FREE,
        longest: 6,
    },
];

#[test]
fn finds_the_least_of_all_breakings(rt: HostRuntime) {
    for lines in LINES {
        compare_up_to(&rt, rt.alloc(), lines);
    }
}

/// Tokens by their roles, depths and widths, so many times.
type Part = (&'static [(Role, u32, u32)], u32);

/// Adds these tokens so many times.
fn push_times(
    tokens: &mut Vec<LineTok>,
    added: &[(Role, u32, u32)],
    count: u32,
) -> Result<(), AllocError> {
    for _ in 0..count {
        for (role, depth, width) in added {
            tokens.push(token(*role, *depth, *width))?;
        }
    }
    Ok(())
}

/// The line of these parts.
fn line_of_parts(rt: &impl Abort, alloc: Global, parts: &[Part]) -> Vec<LineTok> {
    let mut tokens = Vec::new(alloc);
    for (added, count) in parts {
        push_times(&mut tokens, added, *count).expect(rt, "memory");
    }
    tokens
}

/// Two words that can't both stay on the first row. Behind them stand closers and points that take no column and break
/// at some cost: so the ways that break before the one word and before the other cost the same, wherever the line ends.
const TWO_WORDS: Part = (
    &[
        (Role::Word, 0, 60),
        (Role::Comma, 0, 1),
        (Role::Word, 0, 10),
        (Role::Comma, 0, 1),
        (Role::Word, 0, 10),
    ],
    1,
);

/// A closer.
const CLOSER: Part = (&[(Role::CallClose, 0, 0)], 1);

/// A closer and a point.
const PAIR: &[(Role, u32, u32)] = &[(Role::CallClose, 0, 0), (Role::Member, 0, 0)];

/// An initialiser of 4,096 numbers.
const INITIALISER: &[Part] = &[
    (
        &[
            (Role::Word, 0, 8),
            (Role::Word, 0, 4),
            (Role::Word, 0, 1),
            (Role::IndexOpen, 0, 1),
            (Role::IndexClose, 1, 1),
            (Role::Assign, 0, 1),
            (Role::ListOpen, 0, 1),
            (Role::Literal, 1, 4),
        ],
        1,
    ),
    (&[(Role::Comma, 1, 1), (Role::Literal, 1, 4)], 4_095),
    (&[(Role::ListClose, 1, 1), (Role::Semi, 0, 1)], 1),
];

/// What the search of a line finds in LLVM: its cost, whether the fourth gap breaks, and how many gaps do.
type Searched = (u64, Option<bool>, u32);

/// Of two ways of one cost the first is taken, which breaks the fourth gap.
const FIRST_WAY: Searched = (1, Some(true), 1);

/// The parts of a line, and what its search finds.
const LONG: &[(&str, &[Part], Searched)] = &[
    ("no closer", &[TWO_WORDS], FIRST_WAY),
    ("one closer", &[TWO_WORDS, CLOSER], FIRST_WAY),
    ("a point", &[TWO_WORDS, (PAIR, 1)], FIRST_WAY),
    ("nine tokens", &[TWO_WORDS, (PAIR, 2)], FIRST_WAY),
    ("sixteen tokens", &[TWO_WORDS, (PAIR, 5), CLOSER], FIRST_WAY),
    ("forty tokens", &[TWO_WORDS, (PAIR, 17), CLOSER], FIRST_WAY),
    (
        "four hundred tokens",
        &[TWO_WORDS, (PAIR, 197), CLOSER],
        FIRST_WAY,
    ),
    // The cost is that of the brace and of 341 commas, so all breaks are in the list.
    ("an initialiser", INITIALISER, (351, Some(false), 342)),
];

/// What the search of a line finds.
fn searched(rt: &impl Abort, alloc: Global, line: &[LineTok]) -> Searched {
    let style = style(rt, "LLVM");
    let run = Bump::new(alloc);
    let fixed = into_bump_slice(vec![in &run; None; line.len()].expect(rt, "memory"));
    holds(rt, "some tokens", !line.is_empty());
    holds(rt, "few tokens", line.len() < 4_294_967_295);
    let outcome = search(alloc, &style, line, 0, fixed, 2_000_000, &run).expect(rt, "an outcome");
    let (breaks, cost) = found_of(outcome).expect(rt, "a breaking");
    (cost, breaks.get(3).copied(), count_of(breaks))
}

#[test]
fn breaks_long_lines(rt: HostRuntime) {
    for (name, parts, want) in LONG {
        let line = line_of_parts(&rt, rt.alloc(), parts);
        let found = searched(&rt, rt.alloc(), line.as_slice());
        same(&rt, name, found, *want);
    }
}
