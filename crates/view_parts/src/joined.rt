//! Parts that follow one another in a row, which are noted as one.

ghost use Rattle.std.specs.Prelude.{◌≡◌, ◌<◌, ◌≤◌, ◌-◌, ℕ, length, get_or, slice_range, IfSome, IsSome, None};
ghost use Rattle.std.specs.Option.{ForNone, ForSome};
ghost use Rattle.view_parts.specs.declared.known.KnownEnd.TheVariants.{Unknown};
ghost use Rattle.view_parts.specs.Known.{AreKnown, HasNotedRow, after_joined, item_of_row, joined, row_of};
ghost use Rattle.view_parts.specs.Parts.{ArePartsUpTo};
ghost use Rattle.view_parts.specs.Told.{TellParts};

use crate::known::{KnownEnd, KnownRow, PartsEnd};
use crate::notes::KnownEnds;
use line_tokens::TokenId;
use token_arena::{TokenArena, View};

impl KnownEnd {
    /// The row of a part, or of parts that follow one another.
    fn row(self) -> Option<KnownRow>
        ensures { result ≡ row_of self }
    {
        match self {
            KnownEnd::InRow(row) | KnownEnd::InRows(row) => Some(row),
            KnownEnd::Unknown | KnownEnd::InSpan(_) => None,
        }
    }
}

/// The parts of two rows as one row, where the second begins with this item behind the first.
#[inline(always)]
fn joined(first: KnownEnd, next: TokenId, later: KnownEnd) -> Option<KnownRow>
    ensures { result ≡ joined first next.0 later }
{
    let (Some(row), Some(behind)) = (first.row(), later.row()) else {
        return None;
    };
    if row.end != next.0 {
        return None;
    }
    Some(KnownRow {
        end: behind.end,
        seen: row.seen.max(behind.seen),
    })
}

/// Notes the parts of the row that begins with the item `first`, and those of the row behind it that begins with
/// `next`, as one row, where both are known. The result is the item with which the row begins that has those of `next`.
#[inline(always)]
pub fn join_rows(
    arena: &TokenArena<'_, '_>,
    known: &mut KnownEnds<'_>,
    first: TokenId,
    next: TokenId,
) -> TokenId
    requires { AreKnown arena.now known.old }
    ensures known { AreKnown arena.now known.new }
    ensures joined { known.new ≡ after_joined known.old first.0 next.0 }
    ensures item { result.0 ≡ item_of_row known.old first.0 next.0 }
{
    match joined(known.get(first), next, known.get(next)) {
        Some(row) => {
            known.replace(first, KnownEnd::InRows(row));
            first
        }
        None => next,
    }
}

/// Where a part of a view ends that begins at a place with this item, or parts that follow one another, which are noted
/// in a row, where the view has that row. The row always tells so.
#[inline(always)]
pub fn known_parts_end(
    arena: &TokenArena<'_, '_>,
    view: &View<'_>,
    first: u32,
    id: TokenId,
    known: &KnownEnds<'_>,
    segment: &mut usize,
) -> Option<PartsEnd<'static>>
    requires here { first < length view.now }
    requires item { (d : ℕ) → get_or view.now first d ≡ id.0 }
    requires known { AreKnown arena.now known.now }
    ensures parts { IfSome result
        (λ parts. ArePartsUpTo arena.now view.now None first (record { end = parts.end; inside = None })) }
    ensures row { IfSome result (λ parts. HasNotedRow known.now view.now first parts.end id.0) }
    ensures outside { IfSome result (λ parts. parts.inside ≡ None) }
    ensures some { IfSome result (λ parts. first < parts.end) }
    ensures inside { IfSome result (λ parts. parts.end ≤ length view.now) }
    ensures told { IfSome result (λ parts.
        ForSome parts.told
        (λ told. TellParts arena.now None (slice_range view.now first told) (parts.end - first) None)) }
    ensures later { IfSome result (λ parts. ForSome parts.told (λ told. parts.end < told)) }
    ensures below { IfSome result (λ parts. ForSome parts.told (λ told. told ≤ length view.now)) }
    ensures always { IfSome result (λ parts. IsSome parts.told) }
    ensures whole { IfSome result (λ parts. ForNone parts.told (parts.end ≡ length view.now)) }
{
    let Some(row) = known.get(id).row() else {
        return None;
    };
    let count = view.len();
    let last = row.seen - 1;
    let behind = last - id.0;
    if behind >= count - first || view.at_near(first + behind, segment).0 != last {
        return None;
    }
    Some(PartsEnd {
        end: first + (row.end - id.0),
        told: Some(first + behind + 1),
        inside: None,
    })
}
