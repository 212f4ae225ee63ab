//! What the store keeps of a text, worked out by hand.

use crate::comparing::same;
use crate::fixtures::{Seen, repeated, seen, store};
use bumpalo::Bump;
use std::process::Abort;
use token_arena::ItemKind::{BlockComment, Identifier, Number, Punct};
use token_arena::{ArenaFault, Dialect, GapFacts, LIMIT, Rows, TokenArena, TokenId, build};

/// No gap.
const NONE: GapFacts = GapFacts {
    lines: 0,
    empty: true,
    white: false,
    splice: false,
    began: false,
};

/// A gap of blanks.
const BLANKS: GapFacts = GapFacts {
    empty: false,
    white: true,
    ..NONE
};

/// A gap of blanks with a new-line.
const LINE_END: GapFacts = GapFacts {
    lines: 1,
    began: true,
    ..BLANKS
};

/// One with two.
const LINE_ENDS: GapFacts = GapFacts {
    lines: 2,
    ..LINE_END
};

/// No gap before the first item of a text.
const FRONT: GapFacts = GapFacts {
    began: true,
    ..NONE
};

/// A splice alone.
const SPLICE: GapFacts = GapFacts {
    empty: false,
    splice: true,
    ..NONE
};

/// A splice and a new-line.
const SPLICED_LINE_END: GapFacts = GapFacts {
    splice: true,
    ..LINE_END
};

/// A text and its items, each with its number.
type Text = (&'static [u8], &'static [(&'static str, u32, Seen<'static>)]);

/// A text with blanks, tabs and line ends.
const PLAIN: Text = (
    b"\n a12\t=\n\n(1)+b \n",
    &[
        ("behind a line end", 0, (Identifier, b"a12", 2, LINE_END, 2)),
        ("behind a tab", 1, (Punct, b"=", 6, BLANKS, 2)),
        ("behind two line ends", 2, (Punct, b"(", 9, LINE_ENDS, 4)),
        ("behind no gap", 3, (Number, b"1", 10, NONE, 4)),
        ("the next one", 4, (Punct, b")", 11, NONE, 4)),
        ("an operator", 5, (Punct, b"+", 12, NONE, 4)),
        ("the last one", 6, (Identifier, b"b", 13, NONE, 4)),
    ],
);

const COMMENT: &[u8] = b"/* a\r\n  bc */";

/// A text with a mark, splices in items and in gaps, line ends of two bytes and a comment of several rows.
const SPLICED: Text = (
    b"\xef\xbb\xbfi\\\nnt x; \\\r\n\r\n/* a\r\n  bc */ y\\\n+??/\n",
    &[
        ("a spliced word", 0, (Identifier, b"i\\\nnt", 3, FRONT, 1)),
        ("behind a blank", 1, (Identifier, b"x", 9, BLANKS, 2)),
        ("a mark behind no gap", 2, (Punct, b";", 10, NONE, 2)),
        (
            "a comment",
            3,
            (BlockComment, COMMENT, 17, SPLICED_LINE_END, 4),
        ),
        ("behind a comment", 4, (Identifier, b"y", 31, BLANKS, 5)),
        ("behind a splice", 5, (Punct, b"+", 34, SPLICE, 6)),
    ],
);

const TEXTS: &[Text] = &[PLAIN, SPLICED];

#[test]
fn keeps_each_item_with_its_facts(rt: HostRuntime) {
    let rt = &rt;
    let bump = Bump::new(rt.alloc());
    for case in TEXTS {
        let (text, items) = *case;
        let arena = store(rt, &bump, text);
        let found = (
            arena.len() as usize,
            matches!(arena.dialect(), Dialect::C11),
        );
        let wanted = (items.len(), true);
        same(rt, "how many items, and that they are C11's", found, wanted);
        for item in items {
            let (name, id, wanted) = *item;
            same(rt, name, seen(rt, &arena, TokenId(id)), wanted);
        }
    }
}

/// A text, one of its items, and whether a mark begins the text, with the bytes of the gap before the item.
const GAPS: &[(&str, &[u8], u32, (bool, &[u8]))] = &[
    ("before the first item", b"\n a", 0, (false, b"\n ")),
    ("behind a mark", b"\xef\xbb\xbf a", 0, (true, b" ")),
    (
        "between two items",
        b"a \\\r\n\r\nb",
        1,
        (false, b" \\\r\n\r\n"),
    ),
    ("between two that touch", b"a;", 1, (false, b"")),
    ("behind the last item", b"a??/\n", 1, (false, b"??/\n")),
    ("of a text without items", b" \n", 0, (false, b" \n")),
];

/// Whether a mark begins a text, and the bytes of a gap.
fn gap_at<'s>(rt: &impl Abort, arena: &TokenArena<'_, 's>, place: u32) -> (bool, &'s [u8]) {
    assert!(rt; place <= arena.len());
    (arena.mark(), arena.gap(place))
}

#[test]
fn keeps_the_bytes_of_gaps(rt: HostRuntime) {
    let rt = &rt;
    let bump = Bump::new(rt.alloc());
    for case in GAPS {
        let (name, text, place, want) = *case;
        let arena = store(rt, &bump, text);
        same(rt, name, gap_at(rt, &arena, place), want);
    }
}

/// How many rows an item has, and the widths of the first and of the last.
type Numbers = (u32, u32, u32);

fn numbers_of(rows: Rows) -> Numbers {
    (rows.count, rows.first_width, rows.last_width)
}

/// An item and its rows.
const ROWS: &[(&str, &[u8], Numbers)] = &[
    ("a word", b"word", (1, 4, 4)),
    ("a wide character", b"/* \xe4\xb8\x80 */", (1, 8, 8)),
    ("bytes of no character", b"\"\xff\xfe\"", (1, 4, 4)),
    (
        "a tab in the last of three rows",
        b"/* a\r\nbc\n\t*/",
        (3, 4, 3),
    ),
    ("a return that ends no row", b"/*\r*/", (1, 5, 5)),
    ("a splice", b"i\\\nnt", (2, 2, 2)),
    ("a comment of two rows", b"/* a\r\n  bc */", (2, 4, 7)),
];

/// The bytes of the only item of a text, and its rows, told by its token and by the store.
fn rows_of<'s>(rt: &impl Abort, arena: &TokenArena<'_, 's>) -> (&'s [u8], Numbers, Numbers) {
    assert!(rt; arena.len() == 1);
    let token = arena.get(TokenId(0));
    assert!(rt; token.item.raw.len() < 100);
    let by_store = numbers_of(arena.rows(TokenId(0)));
    (token.item.raw, numbers_of(token.rows()), by_store)
}

#[test]
fn measures_each_row_in_columns(rt: HostRuntime) {
    let rt = &rt;
    let bump = Bump::new(rt.alloc());
    for case in ROWS {
        let (name, text, want) = *case;
        let arena = store(rt, &bump, text);
        same(rt, name, arena.len(), 1);
        same(rt, name, rows_of(rt, &arena), (text, want, want));
    }
}

/// A text that is a piece so many times, and why it has no store.
const REFUSED: &[(&str, &[u8], usize, Option<ArenaFault>)] = &[
    ("a text of the limit", b" ", LIMIT, None),
    (
        "a larger text",
        b"#",
        LIMIT + 1,
        Some(ArenaFault::TooLarge { bytes: 8_388_609 }),
    ),
    (
        "a comment without an end",
        b"a; /* b",
        1,
        Some(ArenaFault::UnterminatedComment { start: 3 }),
    ),
];

#[test]
fn refuses_what_has_no_arena(rt: HostRuntime) {
    let rt = &rt;
    for case in REFUSED {
        let (name, piece, times, fault) = *case;
        let text = repeated(rt, rt.alloc(), &[(piece, times)]);
        let bump = Bump::new(rt.alloc());
        let found = build(&bump, text.as_slice(), Dialect::C23).err();
        same(rt, name, found, fault);
    }
}

/// The items of a text take no more memory than they need.
#[test]
fn takes_memory_for_its_items_alone(rt: HostRuntime) {
    let rt = &rt;
    let bump = Bump::new(rt.alloc());
    let commas = repeated(rt, rt.alloc(), &[(b",", 100_000)]);
    let arena = store(rt, &bump, commas.as_slice());
    same(rt, "how many items", arena.len(), 100_000);
    let few = bump.allocated_bytes() < 100_000 * 32;
    same(rt, "few bytes", few, true);
}
