//! Rows of items: places of a view whose items follow one another in the text.

ghost use Rattle.std.specs.Prelude.{◌≡◌, ◌<◌, ◌≤◌, ◌+◌, ◌^◌, ℕ, length, get_or};
ghost use Rattle.token_arena.specs.Ids.{Increase};
ghost use Rattle.view_parts.specs.Rows.{IsRow, row_behind};

use line_tokens::TokenId;
use token_arena::View;

/// How many items stand behind this one, which is that at a place, in its segment of a view. There are none where
/// `number` isn't that of its segment.
#[inline(always)]
pub fn row_behind(view: &View<'_>, place: u32, id: TokenId, number: usize) -> u32
    requires here { place < length view.now }
    requires item { get_or view.now place 0 ≡ id.0 }
    ensures count { result ≡ row_behind view.now place number }
    ensures within { place + result < length view.now }
    ensures row { (k : ℕ) → k ≤ result → get_or view.now (place + k) 0 ≡ id.0 + k }
    ensures fits { id.0 + result < 2 ^ 32 }
{
    let segments = view.segments();
    if number < segments.len() {
        let segment = segments[number];
        if segment.before <= place && place - segment.before < segment.end - segment.first {
            return segment.end - 1 - id.0;
        }
    }
    0
}

/// The number of a segment near this one that may have a place: who goes from place to place, mostly comes to the next
/// one or back to the one before.
#[inline(always)]
pub fn near_segment(view: &View<'_>, place: u32, number: usize) -> usize {
    let segments = view.segments();
    if number >= segments.len() {
        return number;
    }
    if place < segments[number].before {
        return number.saturating_sub(1);
    }
    if number + 1 < segments.len() && segments[number + 1].before <= place {
        return number + 1;
    }
    number
}

/// Places of a view whose items stand in a row.
#[derive(Clone, Copy)]
pub(crate) struct Row {
    /// How much greater the number of each item is than that of its place.
    pub shift: u32,
    /// The place behind the last one.
    pub end: u32,
}

/// The item at a place. It is read from the row of the place before, which becomes that of the place.
#[inline(always)]
pub(crate) fn item_at(view: &View<'_>, place: u32, row: &mut Row, segment: &mut usize) -> TokenId
    requires here { place < length view.now }
    requires few { length view.now < 2 ^ 32 }
    requires increase { Increase view.now }
    requires row { IsRow view.now place row.old }
    ensures item { (d : ℕ) → get_or view.now place d ≡ result.0 }
    ensures row { IsRow view.now place row.new }
    ensures some { place < row.new.end }
    ensures shift { result.0 ≡ place + row.new.shift }
{
    if place >= row.end {
        *segment = near_segment(view, place, *segment);
        let id = view.at_near(place, segment);
        let behind = row_behind(view, place, id, *segment);
        *row = Row {
            shift: id.0 - place,
            end: place + behind + 1,
        };
    }
    TokenId(place + row.shift)
}
