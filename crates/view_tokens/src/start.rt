//! Where items that follow one another begin.

ghost use Rattle.std.specs.Prelude.{◌≡◌, ◌==◌, ◌<◌, ◌&&◌, nat_lt, length, map, IfSome};
ghost use Rattle.token_arena.specs.Segments.{ids_of, segment_bounds, AreSegments};
ghost use Rattle.view_tokens.specs.Inside.{IsRowStart};

use token_arena::{Segment, View};

/// Items of a view that follow one another from a place on.
#[derive(Clone, Copy)]
pub(crate) struct RowStart {
    /// The number of the first.
    pub id: u32,
    /// How many there are.
    pub count: u32,
    /// A directive stands between the place before and the first.
    pub apart: bool,
}

/// Whether a directive stands before a place of a segment, which has so many places before it.
#[inline(always)]
fn begins(place: u32, before: u32) -> bool
    ensures { result ≡ (nat_lt 0 place && before == place) }
{
    place > 0 && before == place
}

/// The items from a place on in the segment with this number, where it has the place.
#[inline(always)]
fn start_in(segments: &[Segment], number: usize, place: u32) -> Option<RowStart>
    requires { AreSegments segments.now }
    ensures { IfSome result (IsRowStart (ids_of (map segment_bounds segments.now)) place) }
{
    if number >= segments.len() {
        return None;
    }
    let segment = segments[number];
    if segment.before > place {
        return None;
    }
    let skipped = place - segment.before;
    let count = segment.end - segment.first;
    if skipped >= count {
        return None;
    }
    Some(RowStart {
        id: segment.first + skipped,
        count: count - skipped,
        apart: begins(place, segment.before),
    })
}

/// The items from a place on in its segment, which is looked for.
#[inline(never)]
fn start_found(view: &View<'_>, place: u32, segment: &mut usize) -> RowStart
    requires { place < length view.now }
    ensures { IsRowStart view.now place result }
{
    let id = view.at_near(place, segment).0;
    match start_in(view.segments(), *segment, place) {
        Some(start) => start,
        None => RowStart {
            id,
            count: 1,
            apart: view.directive_before(place),
        },
    }
}

/// The items from a place on in its segment, which is looked for in the one with this number first, and then has it.
#[inline(always)]
pub(crate) fn row_start(view: &View<'_>, place: u32, segment: &mut usize) -> RowStart
    requires { place < length view.now }
    ensures { IsRowStart view.now place result }
{
    match start_in(view.segments(), *segment, place) {
        Some(start) => start,
        None => start_found(view, place, segment),
    }
}
