//! Physical lines of a text, counted along.

ghost use Rattle.std.specs.Prelude.{◌≡◌, ◌<◌, ◌≤◌, count_by, length, take};
ghost use Rattle.token_arena.specs.Stored.{is_line_feed};
ghost use Rattle.line_gaps.specs.Counted.{IsCounted};
ghost use Rattle.item_classes.specs.Items.{item_at};

use crate::item::item;
use token_arena::TokenArena;

/// Up to where the physical lines of a text are counted. They are counted only where a line is reported.
#[derive(Clone, Copy)]
pub struct LineCount {
    /// So many bytes are passed.
    pub offset: usize,
    /// So many new-lines are among them.
    pub feeds: usize,
}

/// How many new-lines there are among these bytes.
fn line_feeds(bytes: &[u8]) -> usize
    ensures { result ≡ count_by is_line_feed bytes.now }
{
    bytes.iter().filter(|byte| **byte == b'\n').count()
}

/// How many new-lines stand before a place. They are counted from where the last count ended, forward or back.
fn feeds_before(text: &[u8], count: LineCount, to: usize) -> usize
    requires within { count.offset ≤ length text.now }
    requires place { to ≤ length text.now }
    requires counted { count.feeds ≡ count_by is_line_feed (take count.offset text.now) }
    ensures { result ≡ count_by is_line_feed (take to text.now) }
{
    if count.offset <= to {
        return count.feeds + line_feeds(&text[count.offset..to]);
    }
    count.feeds - line_feeds(&text[to..count.offset])
}

/// The physical line on which an item begins, from 1. Many reports don't count the text many times.
pub fn line_of(arena: &TokenArena<'_, '_>, id: u32, count: &mut LineCount) -> u32
    requires within { id < length arena.now.tokens }
    requires counted { IsCounted arena.now count.old }
    ensures line { result ≡ (item_at arena.now id).line }
    ensures counted { IsCounted arena.now count.new }
{
    let items = arena.len();
    prove!(id < items);
    let start = item(arena, id).item.start as usize;
    let feeds = feeds_before(arena.text(), *count, start);
    *count = LineCount {
        offset: start,
        feeds,
    };
    feeds as u32 + 1
}
