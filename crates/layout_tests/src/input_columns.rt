//! Columns of the input.

ghost use Rattle.std.specs.Prelude.{◌≤◌, length};

use crate::comparing::same;
use bumpalo::Bump;
use line_gaps::{column_behind, column_through};
use token_arena::{Dialect, TokenArena, build};

/// A text, the width of a tab, a place, and the column of what stands behind the gap there.
const ROWS: &[(&str, u32, u32, u32)] = &[
    ("a", 8, 0, 0),
    ("  a", 8, 0, 2),
    ("\u{feff}  a", 8, 0, 2),
    ("a\t b", 8, 1, 9),
    ("abc\td", 4, 1, 4),
    ("abcd\te", 4, 1, 8),
    ("a;\n\tb c", 8, 3, 10),
    ("a \\\n  b c", 8, 1, 2),
    ("a \\\n  b c", 8, 2, 4),
    ("ab\\\ncd e", 8, 1, 3),
    ("/* x\n y */ z", 8, 1, 6),
    ("a\x0b\x0c\rb", 8, 1, 4),
    ("/* \u{4e00} */ a", 8, 1, 9),
    ("a  \n   ", 8, 1, 3),
];

/// The column of what stands behind the gap at a place, counted item by item from the text's start.
fn column_at(tab: u32, arena: &TokenArena<'_, '_>, place: u32) -> u32
    requires tab { 1 ≤ tab }
    requires within { place ≤ length arena.now.tokens }
{
    let mut column = column_through(tab, 0, arena.gap(0));
    for id in 0..place {
        let behind = column_behind(arena, column, id);
        column = column_through(tab, behind, arena.gap(id + 1));
    }
    column
}

/// The same of a text.
fn column_in(text: &str, tab: u32, place: u32, run: &Bump) -> Option<u32> {
    let arena = build(run, text.as_bytes(), Dialect::C11).ok()?;
    if 1 <= tab && place <= arena.len() {
        Some(column_at(tab, &arena, place))
    } else {
        None
    }
}

#[test]
fn counts_columns_of_the_input(rt: HostRuntime) {
    let run = Bump::new(rt.alloc());
    for row in ROWS {
        let (text, tab, place, column) = *row;
        let told = column_in(text, tab, place, &run);
        same(&rt, text, (place, told), (place, Some(column)));
    }
}
