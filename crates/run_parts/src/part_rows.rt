//! Rows of items in a part of a view.

ghost use Rattle.std.specs.Prelude.{◌≡◌, ◌<◌, ◌≤◌, ◌+◌, ◌-◌, ◌↔◌, ℕ, IfSome, IsTrue, get_or, length, slice_range};
ghost use Rattle.std.specs.List.{range_with_len};
ghost use Rattle.item_classes.specs.Viewed.{AreWithin};
ghost use Rattle.run_parts.specs.Runs.{AreDecided};

use line_gaps::is_row_decided;
use line_tokens::TokenId;
use replacements::Plan;
use token_arena::{Segment, TokenArena, View};
use view_parts::row_behind;

/// The items of a part of a view that begins with this item, as one segment, where they stand in the segment with this
/// number.
#[inline(always)]
pub fn row_of_part(
    arena: &TokenArena<'_, '_>,
    view: &View<'_>,
    id: TokenId,
    first: u32,
    end: u32,
    number: usize,
) -> Option<Segment>
    requires within { AreWithin arena.now view.now }
    requires some { first < end }
    requires inside { end ≤ length view.now }
    requires item { (d : ℕ) → get_or view.now first d ≡ id.0 }
    ensures items { IfSome result
        (λ row. slice_range view.now first end ≡ range_with_len row.first (row.end - row.first)) }
    ensures some { IfSome result (λ row. row.first < row.end) }
    ensures below { IfSome result (λ row. row.end ≤ length arena.now.tokens) }
    ensures before { IfSome result (λ row. row.before ≡ 0) }
{
    let count = view.len();
    prove!(end <= count);
    let items = arena.len();
    let behind = end - 1 - first;
    if row_behind(view, first, id, number) < behind {
        return None;
    }
    let last = id.0 + behind;
    prove!(last < items);
    Some(Segment {
        first: id.0,
        end: last + 1,
        before: 0,
    })
}

/// Whether the gap before each item of a part of a view is decided. Its first item is looked for in the segment with
/// this number first.
#[inline(never)]
pub fn is_part_decided(
    arena: &TokenArena<'_, '_>,
    view: &View<'_>,
    first: u32,
    end: u32,
    plan: &Plan<'_>,
    number: usize,
) -> bool
    requires within { AreWithin arena.now view.now }
    requires inside { end ≤ length view.now }
    requires whole { length plan.now ≡ length arena.now.tokens + 1 }
    ensures { IsTrue result ↔ AreDecided plan.now (slice_range view.now first end) }
{
    let items = arena.len();
    let mut number = number;
    let mut place = first;
    while place < end {
        let id = view.at_near(place, &mut number);
        let behind = row_behind(view, place, id, number).min(end - 1 - place);
        let last = id.0 + behind;
        prove!(last < items);
        if !is_row_decided(plan, id.0, last + 1) {
            return false;
        }
        place += behind + 1;
        // The next row is that of the next segment.
        number = number.saturating_add(1);
    }
    true
}
