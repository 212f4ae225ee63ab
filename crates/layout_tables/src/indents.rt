//! Where the row of an unwrapped line starts, and how many empty lines stand before it.

ghost use Rattle.std.specs.Prelude.{◌≡◌};
ghost use Rattle.layout_tables.specs.Indents.{start_column, is_close, begins_with_close, opens_block, keeps_none};
ghost use Rattle.layout_tables.specs.Indents.{empty_lines};

use line_tokens::{LineKind, LineTok, ULine};
use style_table::Style;

/// The column at which a line starts, from 0: its level times IndentWidth, at most the greatest `u32`.
pub fn start_column(style: &Style, line: &ULine) -> u32
    ensures { result ≡ start_column style.now line.now }
{
    let columns = u64::from(line.level) * u64::from(style.indent_width);
    columns.min(u64::from(u32::MAX)) as u32
}

/// Whether it is the line of a block's `}`.
fn is_close(kind: LineKind) -> bool
    ensures { result ≡ is_close kind }
{
    matches!(kind, LineKind::Close)
}

/// Whether a line begins with the `}` of a block.
fn begins_with_close(line: &ULine, first: &LineTok) -> bool
    ensures { result ≡ begins_with_close line.now first.now }
{
    is_close(line.kind) && first.role.is_block_close()
}

/// Whether the token before is the `{` of a block.
fn opens_block(before: Option<&LineTok>) -> bool
    ensures { result ≡ opens_block before.entry }
{
    match before {
        Some(token) => token.role.is_block_open(),
        None => false,
    }
}

/// Whether no empty line is kept.
fn keeps_none(style: &Style, before: Option<&LineTok>, line: &ULine, first: &LineTok) -> bool
    ensures { result ≡ keeps_none style.now before.entry line.now first.now }
{
    let keeps = style.keep_empty_lines_at_the_start_of_blocks;
    let opens = opens_block(before);
    let closes = begins_with_close(line, first);
    first.id.0 == 0 || closes || (!keeps && opens)
}

/// The empty lines before a token that begins a line, or that stands behind a directive in it.
///
/// `before` is the token before it in the view, comments among them, and `line` the line that it stands in.
pub fn empty_lines(style: &Style, before: Option<&LineTok>, line: &ULine, first: &LineTok) -> u32
    ensures { result ≡ empty_lines style.now before.entry line.now first.now }
{
    if keeps_none(style, before, line, first) {
        return 0;
    }
    first
        .gap
        .lines
        .saturating_sub(1)
        .min(style.max_empty_lines_to_keep)
}
