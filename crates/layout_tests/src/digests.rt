//! What is listed is found.

use crate::comparing::same;
use bumpalo::Bump;
use frame_store::Group;

/// Whether a number is on the chain of a digest, of at most 100 links.
fn is_on_chain(group: &Group<'_>, digest: u64, number: usize) -> bool {
    let mut end = group.end(digest);
    for _ in 0..100 {
        let Some(link) = group.links().get(end.wrapping_sub(1)) else {
            return false;
        };
        if link.digest == digest && link.number as usize == number {
            return true;
        }
        end = link.before as usize;
    }
    false
}

/// A digest, a number, and whether it was listed under the digest.
const LISTED: &[(&str, u64, usize, bool)] = &[
    ("the first", 0, 0, true),
    ("one in between", 63, 9, true),
    ("another under its digest", 63, 100, true),
    ("the last", 693, 99, true),
    ("one under another digest", 63, 8, false),
    ("a digest that wasn't listed", 64, 9, false),
];

#[test]
fn finds_what_was_listed_under_a_digest(rt: HostRuntime) {
    let run = Bump::new(rt.alloc());
    let mut group = Group::new(&run);
    for number in 0..100u64 {
        group.add(number * 7, number as usize).expect(&rt, "memory");
    }
    group.add(63, 100).expect(&rt, "memory");
    for case in LISTED {
        let (name, digest, number, want) = *case;
        same(&rt, name, is_on_chain(&group, digest, number), want);
    }
}
