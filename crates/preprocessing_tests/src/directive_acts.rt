//! What C11 says of define directives, conditionals and line numbers.

use crate::comparing::same;
use crate::fixtures::{table_with, token, tokens};
use pp_directives::{World, define_of, jump_of};
use std::alloc::Global;
use std::process::Abort;

/// Whether the macro is function-like, the operand, and how many parts the body has where 6.10.3 allows it.
const DEFINITIONS: &[(&str, bool, &str, Option<usize>)] = &[
    ("no name", false, "", None),
    ("a number as the name", false, "1", None),
    ("defined as the name", false, "defined 1", None),
    ("__LINE__ as the name", false, "__LINE__", None),
    ("the same parameter twice", true, "f ( x , x )", None),
    (
        "__VA_ARGS__ as a parameter",
        true,
        "f ( __VA_ARGS__ )",
        None,
    ),
    ("nothing behind a comma", true, "f ( x , )", None),
    ("a parameter behind ...", true, "f ( ... , x )", None),
    ("a list without an end", true, "f ( x", None),
    ("# before no parameter", true, "f ( x ) # y", None),
    ("# at the end", true, "f ( x ) #", None),
    ("## at the front", false, "f ## x", None),
    ("## at the end", false, "f x ##", None),
    ("an empty body", false, "EMPTY", Some(0)),
    (
        "# in an object-like macro",
        false,
        "hash_hash # ## #",
        Some(2),
    ),
    ("# before a parameter", true, "str ( s ) # s", Some(1)),
    (
        "a variadic macro",
        true,
        "showlist ( ... ) puts ( # __VA_ARGS__ )",
        Some(4),
    ),
];

/// How many parts the body of a macro has where 6.10.3 allows it.
fn parts_of(rt: &impl Abort, alloc: Global, function_like: bool, operand: &str) -> Option<usize> {
    let told = define_of(alloc, function_like, tokens(rt, alloc, operand));
    let made = told.expect(rt, "memory")?;
    Some(made.body.len())
}

#[test]
fn refuses_what_the_constraints_of_6_10_3_refuse(rt: HostRuntime) {
    for case in DEFINITIONS {
        let (name, function_like, operand, expected) = *case;
        let parts = parts_of(&rt, rt.alloc(), function_like, operand);
        same(&rt, name, parts, expected);
    }
}

/// A directive of a conditional.
#[derive(Clone, Copy)]
enum Step {
    /// `#ifdef` of a name that is defined, or `#ifndef` of it.
    If(bool),
    /// `#elifdef` or `#elifndef` of it.
    Elif(bool),
    /// `#else`
    Else,
    /// `#endif`
    Endif,
}

/// One directive.
fn take(rt: &impl Abort, alloc: Global, world: &mut World, step: Step) {
    let yes = tokens(rt, alloc, "Y");
    let done = match step {
        Step::If(holds) => world.begin_ifdef(alloc, holds, yes),
        Step::Elif(holds) => world.elifdef(alloc, holds, yes),
        Step::Else => world.otherwise(alloc),
        Step::Endif => world.endif(alloc),
    };
    done.expect(rt, "memory");
}

/// Directives, whether the group behind them is taken, and how many of them 6.10p1 doesn't allow.
const GROUPS: &[(&str, &[Step], bool, usize)] = &[
    ("a group that holds", &[Step::If(true)], true, 0),
    ("a group that doesn't", &[Step::If(false)], false, 0),
    (
        "the next that holds",
        &[Step::If(false), Step::Elif(true)],
        true,
        0,
    ),
    (
        "only the first that holds",
        &[Step::If(true), Step::Elif(true)],
        false,
        0,
    ),
    (
        "the last, where none holds",
        &[Step::If(false), Step::Else],
        true,
        0,
    ),
    (
        "not the last, where one holds",
        &[Step::If(true), Step::Else],
        false,
        0,
    ),
    (
        "nothing in a skipped group",
        &[Step::If(false), Step::If(true), Step::Else],
        false,
        0,
    ),
    (
        "what is behind the conditional",
        &[Step::If(false), Step::Endif],
        true,
        0,
    ),
    (
        "no second #else",
        &[Step::If(false), Step::Else, Step::Else],
        true,
        1,
    ),
];

/// Whether the group behind these directives is taken where `Y` is defined, and how many of them aren't allowed.
fn group_behind(rt: &impl Abort, alloc: Global, steps: &[Step]) -> (bool, usize) {
    let table = table_with(rt, alloc, b"Y", Vec::new(alloc));
    let mut world = World::starting(alloc, table, 0);
    for step in steps {
        take(rt, alloc, &mut world, *step);
    }
    (world.conds.is_active(), world.events.len())
}

#[test]
fn takes_the_first_group_that_holds(rt: HostRuntime) {
    for case in GROUPS {
        let (name, steps, active, malformed) = *case;
        let told = group_behind(&rt, rt.alloc(), steps);
        same(&rt, name, told, (active, malformed));
    }
}

/// The operand of a line directive, and its number.
const NUMBERS: &[(&str, &str, Option<u32>)] = &[
    ("digits", "100", Some(100)),
    ("a 0 first", "010", Some(10)),
    (
        "more than any number has",
        "99999999999999999999999999999999",
        None,
    ),
    ("a suffix", "12u", None),
];

/// The number that a line directive of this operand gives.
fn number_of(rt: &impl Abort, alloc: Global, operand: &str) -> Option<u32> {
    jump_of(&[token(rt, alloc, operand)])
}

#[test]
fn reads_numbers_of_lines(rt: HostRuntime) {
    for case in NUMBERS {
        let (name, text, number) = *case;
        same(&rt, name, number_of(&rt, rt.alloc(), text), number);
    }
}
