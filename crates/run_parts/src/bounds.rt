//! Places of a view where a later run may start.

ghost use Rattle.std.specs.Prelude.{◌≡◌, ◌<◌, ◌≤◌, ◌+◌, ℕ, List, IsTrue, OnOk, length};
ghost use Rattle.std.specs.Option.{ForNone, ForSome};
ghost use Rattle.branch_runs.specs.Anew.{items_between};
ghost use Rattle.item_classes.specs.Viewed.{AreWithin};
ghost use Rattle.token_arena.specs.Gaps.{Contents};
ghost use Rattle.part_walk.specs.Places.{place_in};
ghost use Rattle.run_parts.specs.Bounds.{AreBounds, BeginTold, IsBound};
ghost use Rattle.run_parts.specs.Runs.{seen_by};
ghost use Rattle.run_parts.specs.Windows.{AreToldIn, IsWindow, place_before};

use crate::way::{Way, Window};
use bumpalo::Bump;
use line_tokens::NoMemory;
use part_walk::BodyPlace;
use token_arena::TokenArena;
use view_parts::{PartsEnd, near_segment};

/// Where parts of a view end, as its first items tell.
#[derive(Clone, Copy)]
pub struct KnownBound<'k> {
    /// The item before which they end.
    pub item: u32,
    /// The item behind those that tell so.
    pub told: u32,
    /// Where that is in a body, if it is in one.
    pub inside: Option<BodyPlace<'k>>,
}

/// Takes away the bounds that are told by this item or one behind it. The result is the last one that is left.
pub fn last_bound<'k>(bounds: &mut Vec<KnownBound<'k>, &Bump>, first: u32) -> KnownBound<'k>
    ensures low { result.told ≤ first }
    ensures bounds { (arena : Contents) (view : List ℕ) (told : ℕ) → AreBounds arena view bounds.old.items told →
        AreBounds arena view bounds.new.items result.told }
    ensures last { (arena : Contents) (view : List ℕ) (told : ℕ) → AreBounds arena view bounds.old.items told →
        IsBound arena view result.item result.told (place_in result.inside) }
{
    let mut count = bounds.len();
    while count > 0 {
        let bound = bounds[count - 1];
        if bound.told <= first {
            bounds.truncate(count);
            return bound;
        }
        count -= 1;
    }
    bounds.truncate(0);
    KnownBound {
        item: 0,
        told: 0,
        inside: None,
    }
}

/// Notes where parts end that begin at this place, if a later run follows. Want of memory is the only error.
pub fn note_bound<'k>(
    arena: &TokenArena<'_, '_>,
    window: &Window<'_>,
    begins: Option<BodyPlace<'k>>,
    first: u32,
    parts: PartsEnd<'k>,
    bounds: &mut Vec<KnownBound<'k>, &'k Bump>,
    way: &mut Way<'_>,
) -> Result<(), NoMemory>
    requires within { AreWithin arena.now window.now.view }
    requires window { IsWindow arena.now window.now.number window.now.view window.now.first window.now.end }
    requires some { first < parts.end }
    requires told { ForSome parts.told
        (λ told. AreToldIn arena.now window.now.view (place_in begins) first parts.end (place_in parts.inside) told) }
    requires whole { ForNone parts.told (parts.end ≡ length window.now.view) }
    requires begin { IsTrue window.now.later →
        BeginTold arena.now (items_between 0 way.old.told (seen_by arena.now window.now.number))
        (place_before arena.now window.now.number window.now.first + first) (place_in begins) }
    requires bounds { AreBounds arena.now (seen_by arena.now window.now.number) bounds.old.items way.old.told }
    ensures first { OnOk result (way.new.first ≡ way.old.first) }
    ensures inside { OnOk result (way.new.inside ≡ way.old.inside) }
    ensures begin { OnOk result (IsTrue window.now.later → parts.entry.end < length window.now.view →
        BeginTold arena.now (items_between 0 way.new.told (seen_by arena.now window.now.number))
        (place_before arena.now window.now.number window.now.first + parts.entry.end)
        (place_in parts.entry.inside)) }
    ensures bounds { OnOk result
        (AreBounds arena.now (seen_by arena.now window.now.number) bounds.new.items way.new.told) }
{
    if !window.later {
        return Ok(());
    }
    let Some(told) = parts.told else {
        return Ok(());
    };
    let items = arena.len();
    let mut near = near_segment(&window.view, told - 1, way.segment);
    let last = window.view.at_near(told - 1, &mut near);
    prove!(last.0 < items);
    way.segment = near_segment(&window.view, parts.end, way.segment);
    // The next part begins there, and its segment is found then.
    let item = window.view.at_near(parts.end, &mut way.segment);
    way.told = way.told.max(last.0 + 1);
    bounds.push(KnownBound {
        item: item.0,
        told: way.told,
        inside: parts.inside,
    })?;
    Ok(())
}
