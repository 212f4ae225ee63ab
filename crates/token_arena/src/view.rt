//! Which items of a text a run sees.
//!
//! A [`View`] is an increasing list of items. It is kept as segments, one for each unbroken stretch of
//! items, so its memory grows with the directives of a text and not with its items.

ghost use Rattle.std.specs.Prelude.{◌≡◌, ◌≢◌, ◌<◌, ◌≤◌, ◌+◌, ◌-◌, ◌↔◌, ℕ, All, map, length, get_or, min, slice_range};
ghost use Rattle.std.specs.Prelude.{IsTrue, IfOk};
ghost use Rattle.std.specs.Bool.{OnTrue};
ghost use Rattle.std.specs.List.{range_with_len};
ghost use Rattle.token_arena.specs.Segments.{segment_bounds, ids_of, AreSegments, HasPlace, AscendFrom, bounds_of};
ghost use Rattle.token_arena.specs.Ids.{Increase};

use bumpalo::Bump;
use bumpalo::collections::into_bump_slice;
use line_tokens::{NoMemory, TokenId};
use std::marker::Model;

/// Items that follow one another in a text, within a view.
#[derive(Clone, Copy, Debug, PartialEq, Eq)]
pub struct Segment {
    /// The number of its first item.
    pub first: u32,
    /// The number of the first item behind it.
    pub end: u32,
    /// How many places the view has before it.
    pub before: u32,
}

/// Items that follow one another in a text.
#[derive(Clone, Copy, Debug, PartialEq, Eq)]
pub struct Stretch {
    /// The number of its first item.
    pub first: u32,
    /// The number of the first item behind it.
    pub end: u32,
}

/// Some items of a text, in its order. A contract sees the list of their numbers.
#[derive(Drop)]
pub struct View<'r> {
    segments: &'r [Segment],
}

impl<'r> Model for View<'r> {
    ghost use Rattle.std.specs.Prelude.{List, ℕ, map};
    ghost use Rattle.token_arena.specs.Segments.{segment_bounds, ids_of, AreSegments};

    ghost Value = { List ℕ };

    ghost view = { λ v. ids_of (map segment_bounds v.segments.now) };

    ghost invariant = { λ v. AreSegments v.segments.now };
}

impl<'r> View<'r> {
    /// The view of these segments. It takes no memory.
    pub fn from_segments(segments: &'r [Segment]) -> View<'r>
        requires { AreSegments segments.now }
        ensures items { result ≡ ids_of (map segment_bounds segments.now) }
        ensures increase { Increase result }
    {
        View { segments }
    }

    /// The view of all items from one to before another: none where the first isn't before the other.
    pub fn of(first: u32, end: u32, run: &'r Bump) -> Result<View<'r>, NoMemory>
        ensures items { IfOk result (λ view. view ≡ range_with_len first (end - first)) }
        ensures increase { IfOk result (λ view. Increase view) }
        ensures within { IfOk result (λ view. All (λ id. id < end) view) }
    {
        let mut segments = Vec::new(run);
        if first < end {
            segments.push(Segment {
                first,
                end,
                before: 0,
            })?;
        }
        Ok(View::from_segments(into_bump_slice(segments)))
    }

    /// The view of these stretches, with their places counted.
    pub fn of_stretches(stretches: &[Stretch], run: &'r Bump) -> Result<View<'r>, NoMemory>
        requires { AscendFrom 0 (map bounds_of stretches.now) }
        ensures items { IfOk result (λ view. view ≡ ids_of (map bounds_of stretches.now)) }
        ensures increase { IfOk result (λ view. Increase view) }
    {
        let mut segments = Vec::new(run);
        let mut before = 0;
        for stretch in stretches {
            segments.push(Segment {
                first: stretch.first,
                end: stretch.end,
                before,
            })?;
            before += stretch.end - stretch.first;
        }
        Ok(View::from_segments(into_bump_slice(segments)))
    }

    /// The segments, in the order of the text.
    pub fn segments(&self) -> &'r [Segment]
        ensures items { ids_of (map segment_bounds result.now) ≡ self.now }
        ensures rule { AreSegments result.now }
    {
        self.segments
    }

    /// The view of its places from one to before another. Want of memory is the only error.
    pub fn part<'b>(&self, first: u32, end: u32, bump: &'b Bump) -> Result<View<'b>, NoMemory>
        requires some { first < end }
        requires within { end ≤ length self.now }
        ensures items { IfOk result (λ view. view ≡ slice_range self.now first end) }
        ensures increase { IfOk result (λ view. Increase view) }
    {
        let segments = self.segments();
        let mut stretches = Vec::new(bump);
        for number in segment_at(segments, first)..segments.len() {
            let segment = &segments[number];
            if end <= segment.before {
                break;
            }
            stretches.push(between(segment, first, end))?;
        }
        View::of_stretches(&stretches, bump)
    }

    /// How many places there are.
    pub fn len(&self) -> u32
        ensures count { result ≡ length self.now }
        ensures increase { Increase self.now }
    {
        let count = self.segments.len();
        if count == 0 {
            return 0;
        }
        let last = self.segments[count - 1];
        last.before + (last.end - last.first)
    }

    /// Whether the view has no item.
    pub fn is_empty(&self) -> bool
        ensures { IsTrue result ↔ (length self.now ≡ 0) }
    {
        self.len() == 0
    }

    /// The item at a place, found by halving.
    pub fn at(&self, place: u32) -> TokenId
        requires { place < length self.now }
        ensures { (d : ℕ) → get_or self.now place d ≡ result.0 }
    {
        let mut segment = 0;
        self.at_near(place, &mut segment)
    }

    /// The item at a place. It is looked for in the segment with this number first, which then becomes the number
    /// of its segment: who asks for one place after another starts at 0 and searches once for each segment.
    #[inline(always)]
    pub fn at_near(&self, place: u32, number: &mut usize) -> TokenId
        requires { place < length self.now }
        ensures { (d : ℕ) → get_or self.now place d ≡ result.0 }
    {
        if !has_place(self.segments, *number, place) {
            *number = segment_at(self.segments, place);
        }
        let segment = self.segments[*number];
        TokenId(segment.first + (place - segment.before))
    }

    /// Whether items of the text are left out directly before a place that isn't the first.
    pub fn directive_before(&self, place: u32) -> bool
        requires { place < length self.now }
        ensures { IsTrue result ↔ ((0 < place) × (get_or self.now place 0 ≢ get_or self.now (place - 1) 0 + 1)) }
    {
        let segment = self.segments[segment_at(self.segments, place)];
        place > 0 && segment.before == place
    }
}

// The items of a segment that stand at places from one to before another, of which there are some.
fn between(segment: &Segment, first: u32, end: u32) -> Stretch
    requires some { segment.now.first < segment.now.end }
    requires room { segment.now.before ≤ segment.now.first }
    requires early { first < segment.now.before + (segment.now.end - segment.now.first) }
    requires late { segment.now.before < end }
    ensures { result
        ≡ record {
          first = segment.now.first + (first - segment.now.before);
          end = segment.now.first + min (segment.now.end - segment.now.first) (end - segment.now.before);
        } }
{
    let skipped = first.saturating_sub(segment.before);
    let count = (segment.end - segment.first).min(end - segment.before);
    Stretch {
        first: segment.first + skipped,
        end: segment.first + count,
    }
}

// Whether the segment with this number has a place.
#[inline(always)]
fn has_place(segments: &[Segment], number: usize, place: u32) -> bool
    requires { AreSegments segments.now }
    ensures within { OnTrue result (number < length segments.now) }
    ensures has { OnTrue result (HasPlace segments.now place number) }
{
    if number >= segments.len() {
        return false;
    }
    let segment = segments[number];
    segment.before <= place && place - segment.before < segment.end - segment.first
}

// The number of the segment that has a place.
#[inline(never)]
fn segment_at(segments: &[Segment], place: u32) -> usize
    requires rule { AreSegments segments.now }
    requires within { place < length (ids_of (map segment_bounds segments.now)) }
    ensures within { result < length segments.now }
    ensures has { HasPlace segments.now place result }
{
    let mut low = 0;
    let mut high = segments.len();
    while high - low > 1 {
        let mid = low + (high - low) / 2;
        if segments[mid].before <= place {
            low = mid;
        } else {
            high = mid;
        }
    }
    low
}
