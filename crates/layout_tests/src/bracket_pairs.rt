//! Partners and kept gaps, as `docs/PROFILE.md` says under "Statements and lines".

ghost use Rattle.std.specs.Prelude.{◌<◌, length};

use crate::comparing::{holds, same};
use crate::fixtures::{count_of, marks_of};
use bumpalo::Bump;
use bumpalo::collections::into_bump_slice;
use std::alloc::AllocError;
use std::process::Abort;
use token_classes::TokenClass::{
    self, CloseBrace, CloseRound, CloseSquare, Comma, Equals, OpenBrace, OpenRound, OpenSquare,
    PlainWord, Semicolon,
};
use token_classes::{Partner, bracket_facts};

/// The class of a token of one letter.
fn letter_class(letter: u8) -> TokenClass {
    match letter {
        b'(' => OpenRound,
        b')' => CloseRound,
        b'[' => OpenSquare,
        b']' => CloseSquare,
        b'{' => OpenBrace,
        b'}' => CloseBrace,
        b';' => Semicolon,
        b',' => Comma,
        b'=' => Equals,
        _ => PlainWord,
    }
}

/// The classes of tokens of one letter.
fn letter_classes<'r>(rt: &impl Abort, letters: &[u8], run: &'r Bump) -> &'r [TokenClass]
    ensures { length result.now < 100 }
{
    let mut classes = Vec::new(run);
    for letter in letters {
        classes.push(letter_class(*letter)).expect(rt, "memory");
    }
    holds(rt, "few letters", classes.len() < 100);
    into_bump_slice(classes)
}

/// Tokens of one letter, and the place of the partner of each.
const PAIRS: &[(&str, &[u8], &[Option<u32>])] = &[
    ("crossing", b"([)]", &[None, Some(3), None, Some(1)]),
    (
        "a brace ends a bracket",
        b"{(})",
        &[Some(2), None, Some(0), None],
    ),
    (
        "a brace that closes none",
        b"}(})",
        &[None, Some(3), None, Some(1)],
    ),
    ("nested", b"{{}}", &[Some(3), Some(2), Some(1), Some(0)]),
];

/// The places of partners.
fn places_of<'r>(rt: &impl Abort, partners: &[Partner], run: &'r Bump) -> &'r [Option<u32>] {
    let mut places = Vec::new(run);
    for partner in partners {
        places.push(partner.place()).expect(rt, "memory");
    }
    into_bump_slice(places)
}

#[test]
fn pairs_brackets(rt: HostRuntime) {
    let run = Bump::new(rt.alloc());
    for case in PAIRS {
        let (name, letters, want) = *case;
        let classes = letter_classes(&rt, letters, &run);
        let facts = bracket_facts(classes, &run).expect(&rt, "facts");
        same(&rt, name, places_of(&rt, facts.partners, &run), want);
    }
}

/// Tokens of one letter; below each stands whether the gap before it is kept.
const KEPT: &[(&str, &[u8], &[u8])] = &[
    ("an initializer", b"x=({iy=1;y;});", b"....^^^^^^^^.."),
    ("a list of values", b"({1,2})", b"......."),
    ("one in another", b"({a;({b;})})", b"..^^^^^^^^^."),
    ("one in a list", b"({({b;})})", b"....^^^..."),
    ("`;` behind another", b"({({b;});})", b"..^^^^^^^^."),
    ("one behind another", b"({a;}{b})", b"..^^^...."),
    ("square brackets", b"[{a;}]", b"..^^^."),
    ("no brackets", b"{a;}", b"...."),
    ("behind brackets", b"(){a;}", b"......"),
    ("behind brackets that a brace ended", b"{(}{a;}", b"......."),
    ("`;` in inner brackets", b"({(;}", b"....."),
    ("`;` in brackets", b"a(;;){}", b"......."),
    ("a bracket without partner", b"({a;}", b"..^^^"),
    ("a brace without partner", b"({a;)", b"....."),
];

#[test]
fn keeps_the_gaps_of_statement_braces(rt: HostRuntime) {
    let run = Bump::new(rt.alloc());
    for case in KEPT {
        let (name, letters, marks) = *case;
        let classes = letter_classes(&rt, letters, &run);
        let facts = bracket_facts(classes, &run).expect(&rt, "facts");
        same(&rt, name, marks_of(&rt, facts.kept, b'^', &run), marks);
    }
}

/// Statements in brackets and in many braces: tokens of these classes, so many times.
const DEEP: &[(&[TokenClass], u32)] = &[
    (&[OpenRound], 1),
    (&[OpenBrace, Semicolon], 100_000),
    (&[CloseBrace], 100_000),
    (&[CloseRound], 1),
];

/// Adds these classes so many times.
fn push_times(
    classes: &mut Vec<TokenClass, &Bump>,
    added: &[TokenClass],
    count: u32,
) -> Result<(), AllocError> {
    for _ in 0..count {
        classes.extend_from_slice(added)?;
    }
    Ok(())
}

/// The classes of many statements.
fn deep_classes<'r>(rt: &impl Abort, run: &'r Bump) -> &'r [TokenClass]
    ensures { length result.now < 1000000 }
{
    let mut classes = Vec::new(run);
    for (added, count) in DEEP {
        push_times(&mut classes, added, *count).expect(rt, "memory");
    }
    holds(rt, "not too many", classes.len() < 1_000_000);
    into_bump_slice(classes)
}

#[test]
fn keeps_the_gaps_of_many_statement_braces(rt: HostRuntime) {
    let run = Bump::new(rt.alloc());
    let facts = bracket_facts(deep_classes(&rt, &run), &run).expect(&rt, "facts");
    // All are kept, but those before the brackets outside and before the first brace.
    let found = (facts.kept.len(), count_of(facts.kept));
    same(
        &rt,
        "how many gaps, and how many are kept",
        found,
        (300_002, 299_999),
    );
}
