//! Gaps that are decided already.

ghost use Rattle.std.specs.Prelude.{◌≡◌, ◌<◌, ◌≤◌, ◌+◌, length};
ghost use Rattle.std.specs.Bool.{OnFalse, OnTrue};
ghost use Rattle.item_classes.specs.Viewed.{AreWithin};
ghost use Rattle.line_gaps.specs.OpenGaps.{AreDecided, IsOpen, IsRowDecided, IsRowOpen};

use crate::stretches::stretch_near;
use line_tokens::ULine;
use replacements::Plan;
use token_arena::{TokenArena, View};

/// Whether the gap before each item from one up to another is decided.
#[inline(always)]
pub fn is_row_decided(plan: &Plan<'_>, first: u32, end: u32) -> bool
    requires { end ≤ length plan.now }
    ensures yes { OnTrue result (IsRowDecided plan.now first end) }
    ensures no { OnFalse result (IsRowOpen plan.now first end) }
{
    if first >= end {
        return true;
    }
    plan.are_decided(first, end)
}

/// Whether each gap of a line is decided, as in most lines that an earlier run saw.
#[inline(always)]
pub fn is_decided(
    arena: &TokenArena<'_, '_>,
    view: &View<'_>,
    line: &ULine,
    plan: &Plan<'_>,
    segment: &mut usize,
) -> bool
    requires items { AreWithin arena.now view.now }
    requires places { line.now.last < length view.now }
    requires whole { length plan.now ≡ length arena.now.tokens + 1 }
    ensures yes { OnTrue result (AreDecided plan.now view.now line.now) }
    ensures no { OnFalse result (IsOpen plan.now view.now line.now) }
{
    let count = view.len();
    prove!(line.last < count);
    let mut place = line.first;
    while place <= line.last {
        let stretch = stretch_near(arena, view, place, line.last + 1, segment);
        if !is_row_decided(plan, stretch.first, stretch.end) {
            return false;
        }
        place += stretch.end - stretch.first;
    }
    true
}
