//! A macro whose body has its own name, as C11 6.10.3.4 has it.

ghost use Rattle.std.specs.Prelude.{None};

use crate::comparing::same;
use crate::fixtures::{table_with, token, tokens};
use pp_events::{ItemKind, Part, Spellings, What, expand};
use std::alloc::Global;
use std::process::Abort;

/// Tells of no spelling that it is an item.
struct NoItem;

impl Spellings for NoItem {
    ghost kinds = { λ _ _. None };

    fn kind_of(&self, _text: &[u8]) -> Option<ItemKind> {
        None
    }
}

/// The body of `#define z z w`.
fn body_of_z(rt: &impl Abort, alloc: Global) -> Vec<Part> {
    let mut body = Vec::new(alloc);
    for text in ["z", "w"] {
        let part = Part {
            what: What::Word(token(rt, alloc, text)),
            white: true,
            glue: false,
        };
        body.push(part).expect(rt, "memory");
    }
    body
}

/// How many tokens a `z` becomes in so many turns, and how many turns are left.
fn replaced(rt: &impl Abort, alloc: Global, turns: u64) -> Option<(usize, u64)> {
    let table = table_with(rt, alloc, b"z", body_of_z(rt, alloc));
    let text = tokens(rt, alloc, "z");
    let told = expand(alloc, &NoItem, table.as_slice(), turns, text);
    let (tokens, left) = told.expect(rt, "memory")?;
    Some((tokens.len(), left))
}

/// The turns, how many tokens there are then, and how many turns are left.
const CASES: &[(&str, u64, Option<(usize, u64)>)] = &[
    ("a turn for each name", 3, Some((2, 0))),
    ("a turn that is left", 4, Some((2, 1))),
    ("a turn too few", 2, None),
];

#[test]
fn replaces_a_name_once(rt: HostRuntime) {
    for case in CASES {
        let (name, turns, expected) = *case;
        same(&rt, name, replaced(&rt, rt.alloc(), turns), expected);
    }
}
