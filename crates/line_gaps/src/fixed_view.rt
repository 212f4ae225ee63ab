//! What is decided of the gaps of a view before its lines are laid out.

ghost use Rattle.std.specs.Prelude.{◌≡◌, ◌+◌, ◌-◌, ◌<◌, ◌≤◌, IfOk, IsTrue, None, length, ℕ, map, get_or};
ghost use Rattle.replacements.specs.Decisions.{slot_of};
ghost use Rattle.item_classes.specs.Viewed.{AreWithin};
ghost use Rattle.line_gaps.specs.Fixed.{fixed_of_id, fixed_up_to};
ghost use Rattle.line_gaps.specs.Stretches.{AreFrom};

use crate::fixed::{all_open, own_open};
use crate::stretches::stretch_near;
use bumpalo::Bump;
use line_tokens::{Fixed, NoMemory};
use replacements::Plan;
use token_arena::{Stretch, TokenArena, View};

/// Whether the gap before each item from one up to another is open. All are looked at, since that takes fewer steps
/// than to end at the first that isn't.
fn is_row_open(plan: &Plan<'_>, first: u32, end: u32) -> bool
    requires { end ≤ length plan.now }
    ensures { IsTrue result → (id : ℕ) → first ≤ id → id < end → slot_of plan.now id ≡ None }
{
    let mut decided = false;
    for id in first..end {
        decided |= plan.is_decided(id);
    }
    !decided
}

/// Whether the gap before each item of a view is open.
fn is_view_open(arena: &TokenArena<'_, '_>, view: &View<'_>, plan: &Plan<'_>) -> bool
    requires items { AreWithin arena.now view.now }
    requires whole { length plan.now ≡ length arena.now.tokens + 1 }
    ensures { IsTrue result → (k : ℕ) → k < length view.now → slot_of plan.now (get_or view.now k 0) ≡ None }
{
    let count = view.len();
    let mut segment = 0;
    let mut place = 0;
    while place < count {
        let stretch = stretch_near(arena, view, place, count, &mut segment);
        if !is_row_open(plan, stretch.first, stretch.end) {
            return false;
        }
        place += stretch.end - stretch.first;
    }
    true
}

/// Tells what is decided of the gaps before the items of a stretch, which stand at a place of their view, where that is
/// told up to the place.
fn tell_stretch(
    arena: &TokenArena<'_, '_>,
    view: &View<'_>,
    plan: &Plan<'_>,
    place: u32,
    stretch: Stretch,
    fixed: &mut [Option<Fixed>],
)
    requires whole { length plan.now ≡ length arena.now.tokens + 1 }
    requires items { stretch.end ≤ length arena.now.tokens }
    requires some { stretch.first ≤ stretch.end }
    requires within { place + (stretch.end - stretch.first) ≤ length view.now }
    requires are { AreFrom view.now place stretch }
    requires told { fixed.old ≡ fixed_up_to (fixed_of_id arena.now plan.now) view.now place }
    ensures told { fixed.new
        ≡ fixed_up_to (fixed_of_id arena.now plan.now) view.now (place + (stretch.end - stretch.first)) }
{
    let items = arena.len();
    let count = view.len();
    for offset in 0..stretch.end - stretch.first {
        let id = stretch.first + offset;
        if plan.is_decided(id) {
            fixed[(place + offset) as usize] = plan.fixed_of(arena, id);
        }
    }
    let _ = items;
    let _ = count;
}

/// What is decided of the gaps before the items of a view. Of a part of which no run has decided anything it is
/// nothing, as the first run finds it in most parts. Want of memory is the only error.
pub fn fixed_of_view<'r>(
    arena: &TokenArena<'_, '_>,
    view: &View<'_>,
    plan: &Plan<'_>,
    run: &'r Bump,
) -> Result<&'r [Option<Fixed>], NoMemory>
    requires items { AreWithin arena.now view.now }
    requires whole { length plan.now ≡ length arena.now.tokens + 1 }
    ensures { IfOk result (λ fixed. fixed.now ≡ map (fixed_of_id arena.now plan.now) view.now) }
{
    let count = view.len();
    if is_view_open(arena, view, plan) {
        let open = all_open(count as usize, run)?;
        return Ok(open);
    }
    let fixed = own_open(count as usize, run)?;
    let mut segment = 0;
    let mut place = 0;
    while place < count {
        let stretch = stretch_near(arena, view, place, count, &mut segment);
        tell_stretch(arena, view, plan, place, stretch, fixed);
        place += stretch.end - stretch.first;
    }
    Ok(&*fixed)
}
