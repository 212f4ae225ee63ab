//! How a run goes over what it sees, a window after another.

ghost use Rattle.std.specs.Prelude.{◌≡◌, ◌<◌, ◌≤◌, ℕ, List, Option, None, IfSome, IsSome, get_or, length, slice_range};
ghost use Rattle.std.specs.Option.{ForNone, ForSome};
ghost use Rattle.replacements.specs.declared.slot.Slot.{Slot};
ghost use Rattle.view_parts.specs.Known.{AreKnown};
ghost use Rattle.view_parts.specs.Parts.{ArePartsUpTo};
ghost use Rattle.run_parts.specs.Runs.{AreDecided, AreRowsDecided};
ghost use Rattle.run_parts.specs.Windows.{AreToldIn};

use line_tokens::TokenId;
use part_walk::BodyPlace;
use token_arena::{TokenArena, View};
use view_parts::{KnownEnds, PartsEnd, join_rows, known_parts_end};

/// What a run sees of the items from one to before another.
#[derive(Drop)]
pub struct Window<'r> {
    /// The number of the run.
    pub number: u32,
    /// What it sees of them.
    pub view: View<'r>,
    /// The first of those items.
    pub first: u32,
    /// The item behind them.
    pub end: u32,
    /// The item behind those that are new in the run.
    pub new_end: u32,
    /// Whether another run follows, which may start where parts end.
    pub later: bool,
}

/// How far a run has come in a window.
#[derive(Drop)]
pub struct Way<'k> {
    /// The place of the next part.
    pub first: u32,
    /// The number of the segment that is looked at first.
    pub segment: usize,
    /// The item with which the row of parts begins that ends there.
    pub row: TokenId,
    /// The item behind those that tell where the parts before it end.
    pub told: u32,
    /// Where the next part begins in a body, if it begins in one.
    pub inside: Option<BodyPlace<'k>>,
}

impl<'k> Way<'k> {
    /// At the first part, before which parts end as the items before this one tell.
    pub fn start(told: u32, inside: Option<BodyPlace<'k>>) -> Way<'k>
        ensures first { result.first ≡ 0 }
        ensures told { result.told ≡ told }
        ensures inside { result.inside ≡ inside.entry }
    {
        Way {
            first: 0,
            segment: 0,
            row: TokenId(0),
            told,
            inside,
        }
    }
}

/// Goes on behind a part that is noted in a row, or parts that follow one another. Such parts begin outside brackets.
pub fn pass_row(
    arena: &TokenArena<'_, '_>,
    view: &View<'_>,
    id: TokenId,
    known: &mut KnownEnds<'_>,
    way: &mut Way<'_>,
) -> Option<PartsEnd<'static>>
    requires here { way.old.first < length view.now }
    requires item { (d : ℕ) → get_or view.now way.old.first d ≡ id.0 }
    requires known { AreKnown arena.now known.old }
    ensures known { AreKnown arena.now known.new }
    ensures rows { (plan : List (Option Slot)) → AreRowsDecided plan known.old → AreRowsDecided plan known.new }
    ensures parts { IfSome result
        (λ parts. ArePartsUpTo arena.now view.now None way.old.first (record { end = parts.end; inside = None })) }
    ensures decided { IfSome result (λ parts.
        (plan : List (Option Slot)) → AreRowsDecided plan known.old →
        AreDecided plan (slice_range view.now way.old.first parts.end)) }
    ensures begins { IfSome result (λ parts. way.old.inside ≡ None) }
    ensures outside { IfSome result (λ parts. parts.inside ≡ None) }
    ensures some { IfSome result (λ parts. way.old.first < parts.end) }
    ensures inside { IfSome result (λ parts. parts.end ≤ length view.now) }
    ensures end { IfSome result (λ parts. way.new.first ≡ parts.end) }
    ensures told { IfSome result
        (λ parts. ForSome parts.told (λ told. AreToldIn arena.now view.now None way.old.first parts.end None told)) }
    ensures whole { IfSome result (λ parts. ForNone parts.told (parts.end ≡ length view.now)) }
    ensures always { IfSome result (λ parts. IsSome parts.told) }
    ensures stays { ForNone result (way.new.first ≡ way.old.first) }
    ensures same { way.new.told ≡ way.old.told }
    ensures place { way.new.inside ≡ way.old.inside }
{
    if way.inside.is_some() {
        return None;
    }
    let first = way.first;
    let parts = known_parts_end(arena, view, first, id, known, &mut way.segment)?;
    way.row = join_rows(arena, known, way.row, id);
    way.first = parts.end;
    Some(parts)
}

/// Goes on behind a part that was laid out, which begins with this item. If it is noted in a row, so it is with those
/// before it.
pub fn pass_part<'k>(
    arena: &TokenArena<'_, '_>,
    id: TokenId,
    part: PartsEnd<'k>,
    known: &mut KnownEnds<'_>,
    way: &mut Way<'k>,
)
    requires known { AreKnown arena.now known.old }
    ensures known { AreKnown arena.now known.new }
    ensures rows { (plan : List (Option Slot)) → AreRowsDecided plan known.old → AreRowsDecided plan known.new }
    ensures end { way.new.first ≡ part.entry.end }
    ensures inside { way.new.inside ≡ part.entry.inside }
    ensures same { way.new.told ≡ way.old.told }
{
    if way.inside.is_none() {
        way.row = join_rows(arena, known, way.row, id);
    }
    way.first = part.end;
    way.inside = part.inside;
}
