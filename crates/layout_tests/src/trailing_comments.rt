//! Worked rows of comments.

use self::Comment::{Fixed, Open};
use crate::comparing::same;
use comment_rows::{TrailRow, align};
use style_table::AlignTrailingCommentsKind::{Always, Never};
use style_table::{AlignTrailingCommentsKind, Style};

/// The row of a comment: where its code ends, the column, and whether the next row follows it.
#[derive(Clone, Copy)]
enum Comment {
    /// It is to be placed.
    Open(u32, u32, bool),
    /// It stays.
    Fixed(u32, u32, bool),
}

/// A comment's row as the library has it.
fn row_of(comment: Comment) -> TrailRow {
    let (end, column, next, fixed) = match comment {
        Open(end, column, next) => (end, column, next, false),
        Fixed(end, column, next) => (end, column, next, true),
    };
    TrailRow {
        end,
        column,
        next,
        fixed,
    }
}

/// Rows, and the columns at which their comments stand.
struct Case {
    name: &'static str,
    kind: AlignTrailingCommentsKind,
    rows: [Comment; 4],
    columns: [u32; 4],
}

const CASES: &[Case] = &[
    Case {
        name: "two rows, and two others behind a row without a comment",
        kind: Always,
        rows: [
            Open(4, 5, true),
            Open(7, 8, false),
            Open(20, 21, true),
            Open(3, 4, false),
        ],
        columns: [8, 8, 21, 21],
    },
    Case {
        name: "a decided comment counts and stays",
        kind: Always,
        rows: [
            Open(4, 5, true),
            Fixed(7, 30, true),
            Fixed(7, 9, true),
            Open(3, 4, false),
        ],
        columns: [30, 30, 9, 30],
    },
    Case {
        name: "the largest comes last",
        kind: Always,
        rows: [
            Open(1, 2, true),
            Open(2, 3, true),
            Open(3, 4, true),
            Open(4, 5, false),
        ],
        columns: [5, 5, 5, 5],
    },
    Case {
        name: "each row alone",
        kind: Always,
        rows: [
            Open(1, 2, false),
            Open(2, 3, false),
            Open(3, 4, false),
            Open(4, 5, false),
        ],
        columns: [2, 3, 4, 5],
    },
    Case {
        name: "the last row has nothing behind it",
        kind: Always,
        rows: [
            Open(9, 10, false),
            Open(2, 3, true),
            Open(3, 14, true),
            Open(4, 5, true),
        ],
        columns: [10, 14, 14, 14],
    },
    Case {
        name: "no style that asks for it",
        kind: Never,
        rows: [
            Open(4, 5, true),
            Open(7, 8, true),
            Fixed(2, 9, true),
            Open(3, 4, false),
        ],
        columns: [5, 8, 9, 4],
    },
];

/// The column of a comment.
fn column_of(row: TrailRow) -> u32 {
    row.column
}

/// The columns of these rows behind a call.
fn columns_of(kind: AlignTrailingCommentsKind, comments: &[Comment; 4]) -> Option<[u32; 4]> {
    let mut style = Style::named("LLVM")?;
    style.align_trailing_comments_kind = kind;
    let mut rows = comments.map(row_of);
    align(&style, &mut rows);
    Some(rows.map(column_of))
}

#[test]
fn lines_comments_up(rt: HostRuntime) {
    for case in CASES {
        let columns = columns_of(case.kind, &case.rows);
        same(&rt, case.name, columns, Some(case.columns));
    }
}
