//! What is laid out for a part that begins in a body.

ghost use Rattle.std.specs.Prelude.{◌≡◌, ◌<◌, ◌≤◌, ◌++◌, ◌∷◌, [], ◌-◌, length, get_or, map, IfOk, OnOk};
ghost use Rattle.std.specs.Option.{ForSome};
ghost use Rattle.std.specs.List.{range_with_len};
ghost use Rattle.token_arena.specs.Ids.{Increase};
ghost use Rattle.token_arena.specs.Segments.{ids_of, AscendFrom, bounds_of};
ghost use Rattle.view_parts.specs.Parts.{head_items, heads_end, laid_items, Stand, StandsBefore};
ghost use Rattle.part_walk.specs.Places.{place_in};

use bumpalo::Bump;
use line_tokens::NoMemory;
use part_walk::{BodyPlace, Head};
use token_arena::{Stretch, View};

/// Adds the items from one to before another, all behind those of some stretches and a last one.
fn push_stretch(
    done: &mut Vec<Stretch, &Bump>,
    last: &mut Stretch,
    first: u32,
    end: u32,
) -> Result<(), NoMemory>
    requires ascend { AscendFrom 0 (map bounds_of (done.old.items ++ last.old ∷ [])) }
    requires behind { last.old.end ≤ first }
    requires some { first < end }
    ensures ascend { OnOk result (AscendFrom 0 (map bounds_of (done.new.items ++ last.new ∷ []))) }
    ensures items { OnOk result (ids_of (map bounds_of (done.new.items ++ last.new ∷ []))
        ≡ ids_of (map bounds_of (done.old.items ++ last.old ∷ [])) ++ range_with_len first (end - first)) }
    ensures end { OnOk result (last.new.end ≡ end) }
{
    if last.end == first {
        last.end = end;
    } else {
        done.push(*last)?;
        *last = Stretch { first, end };
    }
    Ok(())
}

/// Adds the items of a view, all behind those of some stretches and a last one.
fn push_view(
    done: &mut Vec<Stretch, &Bump>,
    last: &mut Stretch,
    view: &View<'_>,
) -> Result<(), NoMemory>
    requires ascend { AscendFrom 0 (map bounds_of (done.old.items ++ last.old ∷ [])) }
    requires some { 0 < length view.now }
    requires behind { last.old.end ≤ get_or view.now 0 0 }
    ensures ascend { OnOk result (AscendFrom 0 (map bounds_of (done.new.items ++ last.new ∷ []))) }
    ensures items { OnOk result (ids_of (map bounds_of (done.new.items ++ last.new ∷ []))
        ≡ ids_of (map bounds_of (done.old.items ++ last.old ∷ [])) ++ view.now) }
{
    for segment in view.segments() {
        push_stretch(done, last, segment.first, segment.end)?;
    }
    Ok(())
}

/// Adds the items of heads, all behind those of some stretches and a last one.
fn push_heads(
    done: &mut Vec<Stretch, &Bump>,
    last: &mut Stretch,
    heads: &[Head],
) -> Result<(), NoMemory>
    requires ascend { AscendFrom 0 (map bounds_of (done.old.items ++ last.old ∷ [])) }
    requires stand { Stand last.old.end heads.now }
    ensures ascend { OnOk result (AscendFrom 0 (map bounds_of (done.new.items ++ last.new ∷ []))) }
    ensures items { OnOk result (ids_of (map bounds_of (done.new.items ++ last.new ∷ []))
        ≡ ids_of (map bounds_of (done.old.items ++ last.old ∷ [])) ++ head_items heads.now) }
    ensures end { OnOk result (last.new.end ≡ heads_end last.old.end heads.now) }
{
    for head in heads {
        push_stretch(done, last, head.first, head.end)?;
    }
    Ok(())
}

/// The items that are laid out for a part of a view, from one place to before another: where it begins in a body, those
/// that stand for that place, and then its own. Want of memory is the only error.
pub fn laid_view<'r>(
    begins: Option<BodyPlace<'_>>,
    view: &View<'_>,
    first: u32,
    end: u32,
    room: &'r Bump,
) -> Result<View<'r>, NoMemory>
    requires some { first < end }
    requires within { end ≤ length view.now }
    requires begins { ForSome (place_in begins) (λ place. StandsBefore place (get_or view.now first 0)) }
    ensures items { IfOk result (λ laid. laid ≡ laid_items (place_in begins.entry) view.now first end) }
    ensures increase { IfOk result (λ laid. Increase laid) }
{
    let own = view.part(first, end, room)?;
    let Some(place) = begins else {
        return Ok(own);
    };
    let next = view.at(first);
    prove!(place.ended < next.0);
    let mut done = Vec::new(room);
    let outermost = place.heads[0];
    let mut last = Stretch {
        first: outermost.first,
        end: outermost.end,
    };
    push_heads(&mut done, &mut last, &place.heads[1..])?;
    if let Some(opened) = place.opened {
        push_stretch(&mut done, &mut last, opened, opened + 1)?;
    }
    push_stretch(&mut done, &mut last, place.ended, place.ended + 1)?;
    push_view(&mut done, &mut last, &own)?;
    done.push(last)?;
    View::of_stretches(&done, room)
}
