//! Items of a view that follow one another in the text.

ghost use Rattle.std.specs.Prelude.{◌<◌, ◌≤◌, ◌+◌, ◌-◌, IfSome, length};
ghost use Rattle.item_classes.specs.Viewed.{AreWithin};
ghost use Rattle.token_arena.specs.Segments.{AreSegments};
ghost use Rattle.line_gaps.specs.Stretches.{AreFrom, IsRest};

use token_arena::{Segment, Stretch, TokenArena, View};

/// The items of the segment with this number from a place on, if the place is in it.
#[inline(always)]
fn rest_at(segments: &[Segment], number: usize, place: u32) -> Option<Stretch>
    requires { AreSegments segments.now }
    ensures { IfSome result (λ rest. IsRest segments.now number place rest) }
{
    if number >= segments.len() {
        return None;
    }
    let segment = segments[number];
    let count = segment.end - segment.first;
    if segment.before <= place && place - segment.before < count {
        Some(Stretch {
            first: segment.first + (place - segment.before),
            end: segment.end,
        })
    } else {
        None
    }
}

/// The items of a view from a place on that follow one another in the text, up to another place: those of the segment
/// with this number, or one item of another, whose number it then becomes.
#[inline(always)]
pub(crate) fn stretch_near(
    arena: &TokenArena<'_, '_>,
    view: &View<'_>,
    place: u32,
    end: u32,
    number: &mut usize,
) -> Stretch
    requires items { AreWithin arena.now view.now }
    requires some { place < end }
    requires within { end ≤ length view.now }
    ensures some { result.first < result.end }
    ensures within { place + (result.end - result.first) ≤ end }
    ensures are { AreFrom view.now place result }
    ensures items { result.end ≤ length arena.now.tokens }
{
    let items = arena.len();
    if let Some(rest) = rest_at(view.segments(), *number, place) {
        let count = (rest.end - rest.first).min(end - place);
        return Stretch {
            first: rest.first,
            end: rest.first + count,
        };
    }
    let first = view.at_near(place, number).0;
    prove!(first < items);
    Stretch {
        first,
        end: first + 1,
    }
}
