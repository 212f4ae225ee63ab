//! Rows that end in comments, and the column that their comments share.
//!
//! [`align`] puts the comments of rows that follow one another into one column. It takes no memory.

ghost use Rattle.std.specs.Prelude.{◌≡◌, length};
ghost use Rattle.comment_rows.specs.Columns.{aligned, largest_column, moved_to, shared_column, StandRight};

use style_table::{AlignTrailingCommentsKind, Style};

/// A row that ends in a comment.
#[derive(Clone, Copy, Debug, PartialEq, Eq)]
pub struct TrailRow {
    /// The column at which its code ends.
    pub end: u32,
    /// The column of the comment.
    pub column: u32,
    /// The next row of comments directly follows.
    pub next: bool,
    /// The column is decided.
    pub fixed: bool,
}

/// The largest column of comments, up to the first row that the next one doesn't directly follow.
fn largest_column(rows: &[TrailRow]) -> u32
    ensures { result ≡ largest_column rows.now }
{
    let mut most = 0;
    for row in rows {
        most = most.max(row.column);
        if !row.next {
            return most;
        }
    }
    most
}

/// The row with its comment at a column, unless that is decided.
fn moved_to(row: TrailRow, column: u32) -> TrailRow
    ensures { result ≡ moved_to column row }
{
    if row.fixed {
        return row;
    }
    TrailRow { column, ..row }
}

/// The column of rows: that of the row before them where it goes on with them, and else the largest of their own.
fn shared_column(before: Option<u32>, rows: &[TrailRow]) -> u32
    ensures { result ≡ shared_column before rows.now }
{
    match before {
        Some(column) => column,
        None => largest_column(rows),
    }
}

/// Puts the comments of rows that follow one another into the largest of their columns, where the style asks for it.
pub fn align(style: &Style, rows: &mut [TrailRow])
    ensures rows { rows.new ≡ aligned style.now.align_trailing_comments_kind rows.old }
    ensures right { StandRight rows.old rows.new }
    ensures len { length rows.new ≡ length rows.old }
{
    if style.align_trailing_comments_kind == AlignTrailingCommentsKind::Never {
        return;
    }
    let mut before = None;
    for index in 0..rows.len() {
        let column = shared_column(before, &rows[index..]);
        let row = rows[index];
        rows[index] = moved_to(row, column);
        before = if row.next { Some(column) } else { None };
    }
}
