//! Where parts end that earlier runs saw.

ghost use Rattle.std.specs.Prelude.{◌≡◌, ◌<◌, ◌≤◌, ◌+◌, ◌-◌, [], length, drop, get_or, slice_range, IfOk, IfSome};
ghost use Rattle.std.specs.Prelude.{IsTrue, None, OnOk};
ghost use Rattle.std.specs.Option.{ForNone, ForSome};
ghost use Rattle.item_classes.specs.Viewed.{AreWithin, item_classes};
ghost use Rattle.view_parts.specs.Known.{AreKnown, AreRowsFrom, AreSpans, HasRow, IsKnown, IsKnownRow, IsRowAt};
ghost use Rattle.view_parts.specs.Known.{IsToldPart};
ghost use Rattle.view_parts.specs.Parts.{part_inside, part_len, EndsBehind, StandsBefore};
ghost use Rattle.part_walk.specs.Places.{place_in};
ghost use Rattle.view_parts.specs.Told.{IsEndOfPart, TellParts};

use crate::ends::{PartSource, PartStart, part_end};
use crate::notes::KnownEnds;
use bumpalo::Bump;
use line_tokens::{NoMemory, TokenId};
use part_walk::BodyPlace;
use token_arena::View;

/// Where a part ends that goes on in a row up to what tells so, or the last of parts that follow one another in a row.
#[derive(Clone, Copy)]
pub struct KnownRow {
    /// The item behind its last one.
    pub end: u32,
    /// The item behind those that tell so.
    pub seen: u32,
}

/// What is known of where a part ends, or parts that follow one another, that begins with an item.
#[derive(Clone, Copy)]
pub enum KnownEnd {
    /// Nothing.
    Unknown,
    /// It goes on in a row.
    InRow(KnownRow),
    /// It and others that follow one another go on in a row.
    InRows(KnownRow),
    /// It stands in no row, and is the one with this number of those that are known.
    InSpan(u32),
}

/// A part that stands in no row.
#[derive(Drop)]
pub struct KnownSpan<'k> {
    /// How many items it has.
    pub count: u32,
    /// Its items, and those behind it that tell where it ends.
    pub told: View<'k>,
}

/// Parts that stand in no row.
#[derive(Drop)]
pub struct KnownSpans<'k> {
    /// What is known of them.
    pub spans: Vec<KnownSpan<'k>, &'k Bump>,
    /// How many segments more are kept at most.
    pub left: usize,
    /// The fewest items that tell the end of a part that is noted. Where there is none, none is.
    pub least: Option<u32>,
    /// What the memory of these is taken from, and that of the heads of bodies in which parts begin.
    pub keep: &'k Bump,
}

impl<'k> KnownSpans<'k> {
    /// Nothing is known. So many segments are kept at most.
    pub fn none(segments: usize, keep: &'k Bump) -> KnownSpans<'k>
        ensures { result.spans.items ≡ [] }
    {
        KnownSpans {
            spans: Vec::new(keep),
            left: segments,
            least: None,
            keep,
        }
    }
}

/// Where a part of a view ends, or the last of parts that follow one another.
#[derive(Clone, Copy)]
pub struct PartsEnd<'k> {
    /// The place behind the last item.
    pub end: u32,
    /// The place behind the items that tell so, whatever follows them. There is none where the parts end with the view.
    pub told: Option<u32>,
    /// Where that is in a body, if it is in one.
    pub inside: Option<BodyPlace<'k>>,
}

/// The item with which a part begins.
#[derive(Clone, Copy)]
pub(crate) struct FirstItem {
    /// Its place in the view.
    pub place: u32,
    /// The item.
    pub id: TokenId,
    /// The number of its segment.
    pub segment: usize,
}

/// A part outside brackets, where items of its view tell where it ends.
#[derive(Clone, Copy)]
pub(crate) struct ToldPart {
    /// The item with which it begins.
    pub first: FirstItem,
    /// The place behind its last item.
    pub end: u32,
    /// The place behind the items that tell so.
    pub told: u32,
}

/// The end of the part that begins with this item, where the view has the items in a row that tell it.
fn recalled_row(
    source: &PartSource<'_>,
    first: FirstItem,
    known: KnownRow,
    segment: &mut usize,
) -> Option<PartsEnd<'static>>
    requires here { first.place < length source.now.view.now }
    requires item { get_or source.now.view.now first.place 0 ≡ first.id.0 }
    requires known { IsKnownRow source.now.arena.now first.id.0 known }
    ensures { IfSome result (λ part. IsEndOfPart source.now.arena.now None source.now.view.now first.place part) }
{
    let view = source.view;
    let count = view.len();
    let place = first.place;
    let last = known.seen - 1;
    let behind = last - first.id.0;
    if behind >= count - place || view.at_near(place + behind, segment).0 != last {
        return None;
    }
    Some(PartsEnd {
        end: place + (known.end - first.id.0),
        told: Some(place + behind + 1),
        inside: None,
    })
}

/// Whether a view has these items from a place on.
fn has_items(view: &View<'_>, first: u32, items: &View<'_>, segment: &mut usize) -> bool
    requires { first < length view.now }
    ensures items { IsTrue result → slice_range view.now first (first + length items.now) ≡ items.now }
    ensures within { IsTrue result → first + length items.now ≤ length view.now }
{
    if items.len() > view.len() - first {
        return false;
    }
    for row in items.segments() {
        let place = first + row.before;
        let last = row.end - 1;
        let begun = view.at_near(place, segment);
        if begun.0 != row.first {
            return false;
        }
        let ended = view.at_near(place + (last - row.first), segment);
        if ended.0 != last {
            return false;
        }
    }
    true
}

/// The end of the part that begins at a place, where the view has the items of the span with this number.
fn recalled_span(
    source: &PartSource<'_>,
    first: u32,
    number: u32,
    spans: &KnownSpans<'_>,
    segment: &mut usize,
) -> Option<PartsEnd<'static>>
    requires here { first < length source.now.view.now }
    requires known { AreSpans source.now.arena.now spans.now.spans.items }
    ensures { IfSome result (λ part. IsEndOfPart source.now.arena.now None source.now.view.now first part) }
{
    let view = source.view;
    let count = view.len();
    prove!(first < count);
    let number = number as usize;
    if number >= spans.spans.len() {
        return None;
    }
    let span = &spans.spans[number];
    if !has_items(view, first, &span.told, segment) {
        return None;
    }
    Some(PartsEnd {
        end: first + span.count,
        told: Some(first + span.told.len()),
        inside: None,
    })
}

/// The end of the part that begins with this item, of which this is known, where the view has the items that tell it.
fn recalled(
    source: &PartSource<'_>,
    first: FirstItem,
    known: KnownEnd,
    spans: &KnownSpans<'_>,
    segment: &mut usize,
) -> Option<PartsEnd<'static>>
    requires here { first.place < length source.now.view.now }
    requires item { get_or source.now.view.now first.place 0 ≡ first.id.0 }
    requires known { IsKnown source.now.arena.now first.id.0 known }
    requires spans { AreSpans source.now.arena.now spans.now.spans.items }
    ensures { IfSome result (λ part. IsEndOfPart source.now.arena.now None source.now.view.now first.place part) }
{
    match known {
        KnownEnd::Unknown | KnownEnd::InRows(_) => None,
        KnownEnd::InRow(row) => recalled_row(source, first, row, segment),
        KnownEnd::InSpan(number) => recalled_span(source, first.place, number, spans, segment),
    }
}

/// What is known of a part whose items, and those that tell its end, stand in a row.
fn noted_row(source: &PartSource<'_>, part: &ToldPart, segment: &mut usize) -> Option<KnownRow>
    requires within { AreWithin source.now.arena.now source.now.view.now }
    requires told { IsToldPart source.now.arena.now source.now.view.now part.now }
    ensures known { IfSome result (λ known. IsKnownRow source.now.arena.now part.now.first.id.0 known) }
    ensures row { IfSome result
        (λ known. HasRow source.now.view.now part.now.first.place part.now.end part.now.first.id.0 known) }
{
    let view = source.view;
    let first = part.first;
    let count = view.len();
    let items = source.arena.len();
    let last = view.at_near(part.told - 1, segment);
    prove!(last.0 < items);
    if last.0 < first.id.0 || last.0 - first.id.0 != part.told - 1 - first.place {
        return None;
    }
    Some(KnownRow {
        end: first.id.0 + (part.end - first.place),
        seen: last.0 + 1,
    })
}

/// Notes a part that stands in so many segments, where there is room.
fn noted_span<'k>(
    source: &PartSource<'_>,
    part: &ToldPart,
    segments: usize,
    spans: &mut KnownSpans<'k>,
) -> Result<KnownEnd, NoMemory>
    requires told { IsToldPart source.now.arena.now source.now.view.now part.now }
    requires known { AreSpans source.now.arena.now spans.old.spans.items }
    ensures end { IfOk result (λ known. IsKnown source.now.arena.now part.now.first.id.0 known) }
    ensures row { IfOk result
        (λ known. IsRowAt source.now.view.now part.now.first.place part.now.end part.now.first.id.0 known) }
    ensures known { OnOk result (AreSpans source.now.arena.now spans.new.spans.items) }
{
    let number = spans.spans.len();
    if segments > spans.left || number > u32::MAX as usize {
        return Ok(KnownEnd::Unknown);
    }
    let first = part.first.place;
    let told = source.view.part(first, part.told, spans.keep)?;
    spans.left -= segments;
    spans.spans.push(KnownSpan {
        count: part.end - first,
        told,
    })?;
    Ok(KnownEnd::InSpan(number as u32))
}

/// What is known of a part. One that stands in no row is noted.
fn noted_part<'k>(
    source: &PartSource<'_>,
    part: &ToldPart,
    spans: &mut KnownSpans<'k>,
    segment: &mut usize,
) -> Result<KnownEnd, NoMemory>
    requires within { AreWithin source.now.arena.now source.now.view.now }
    requires told { IsToldPart source.now.arena.now source.now.view.now part.now }
    requires known { AreSpans source.now.arena.now spans.old.spans.items }
    ensures end { IfOk result (λ known. IsKnown source.now.arena.now part.now.first.id.0 known) }
    ensures row { IfOk result
        (λ known. IsRowAt source.now.view.now part.now.first.place part.now.end part.now.first.id.0 known) }
    ensures known { OnOk result (AreSpans source.now.arena.now spans.new.spans.items) }
{
    if let Some(row) = noted_row(source, part, segment) {
        return Ok(KnownEnd::InRow(row));
    }
    match spans.least {
        Some(least) if part.told - part.first.place >= least => {
            let segments = segment.saturating_sub(part.first.segment);
            noted_span(source, part, segments, spans)
        }
        _ => Ok(KnownEnd::Unknown),
    }
}

/// Notes a part that begins with this item, where it ends outside brackets and items tell so.
fn note_part<'k>(
    source: &PartSource<'_>,
    first: FirstItem,
    part: &PartsEnd<'k>,
    known: &mut KnownEnds<'_>,
    spans: &mut KnownSpans<'k>,
    segment: &mut usize,
) -> Result<(), NoMemory>
    requires within { AreWithin source.now.arena.now source.now.view.now }
    requires item { get_or source.now.view.now first.place 0 ≡ first.id.0 }
    requires stored { first.id.0 < length known.old }
    requires some { first.place < part.now.end }
    requires later { ForSome part.now.told (λ told. part.now.end < told) }
    requires below { ForSome part.now.told (λ told. told ≤ length source.now.view.now) }
    requires ends { ForSome part.now.told (λ told.
        EndsBehind source.now.arena.now None (slice_range source.now.view.now first.place told)
        (record { count = part.now.end - first.place; inside = place_in part.now.inside })) }
    requires known { AreKnown source.now.arena.now known.old }
    requires spans { AreSpans source.now.arena.now spans.old.spans.items }
    ensures untold { ForNone part.now.told (known.new ≡ known.old) }
    ensures known { AreKnown source.now.arena.now known.new }
    ensures rows { AreRowsFrom known.old source.now.view.now first.place part.now.end known.new }
    ensures spans { OnOk result (AreSpans source.now.arena.now spans.new.spans.items) }
{
    let Some(told) = part.told else {
        return Ok(());
    };
    if part.inside.is_some() {
        return Ok(());
    }
    let end = part.end;
    let noted = noted_part(source, &ToldPart { first, end, told }, spans, segment)?;
    known.set(first.id, noted)
}

/// Where the part ends that begins with this item, outside brackets, for which there is a place for what is known of
/// it. Where nothing is known yet it is noted.
fn noted_part_end<'k>(
    source: &PartSource<'_>,
    first: FirstItem,
    known: &mut KnownEnds<'_>,
    spans: &mut KnownSpans<'k>,
    segment: &mut usize,
    room: &Bump,
) -> Result<PartsEnd<'k>, NoMemory>
    requires within { AreWithin source.now.arena.now source.now.view.now }
    requires all { source.now.classes.now ≡ item_classes source.now.arena.now }
    requires here { first.place < length source.now.view.now }
    requires item { get_or source.now.view.now first.place 0 ≡ first.id.0 }
    requires stored { first.id.0 < length known.old }
    requires known { AreKnown source.now.arena.now known.old }
    requires spans { AreSpans source.now.arena.now spans.old.spans.items }
    ensures part { IfOk result
        (λ part. IsEndOfPart source.now.arena.now None source.now.view.now first.place part) }
    ensures untold { IfOk result (λ part. ForNone part.told (known.new ≡ known.old)) }
    ensures known { AreKnown source.now.arena.now known.new }
    ensures rows { IfOk result
        (λ part. AreRowsFrom known.old source.now.view.now first.place part.end known.new) }
    ensures spans { OnOk result (AreSpans source.now.arena.now spans.new.spans.items) }
{
    let id = first.id;
    if let Some(part) = recalled(source, first, known.get(id), spans, segment) {
        return Ok(part);
    }
    let start = PartStart {
        first: first.place,
        inside: None,
    };
    let part = part_end(source, start, segment, spans.keep, room)?;
    note_part(source, first, &part, known, spans, segment)?;
    Ok(part)
}

/// Where the part of a view ends that begins there, as [`part_end`](crate::part_end) says, and which items tell so.
/// Where it is known, that takes one step. Want of memory is the only error.
///
/// `known` has what is known for each item of the text, or for none where nothing is to be kept. `segment` is kept from
/// one place of a view to the next, and starts at 0.
pub fn known_part_end<'k>(
    source: &PartSource<'_>,
    begin: PartStart<'k>,
    known: &mut KnownEnds<'_>,
    spans: &mut KnownSpans<'k>,
    segment: &mut usize,
    room: &Bump,
) -> Result<PartsEnd<'k>, NoMemory>
    requires within { AreWithin source.now.arena.now source.now.view.now }
    requires all { source.now.classes.now ≡ item_classes source.now.arena.now }
    requires here { begin.first < length source.now.view.now }
    requires begins { ForSome (place_in begin.inside)
        (λ place. StandsBefore place (get_or source.now.view.now begin.first 0)) }
    requires known { AreKnown source.now.arena.now known.old }
    requires spans { AreSpans source.now.arena.now spans.old.spans.items }
    ensures end { IfOk result (λ part. part.end ≡ begin.entry.first
        + part_len source.now.arena.now (place_in begin.entry.inside) (drop begin.entry.first source.now.view.now)) }
    ensures begun { IfOk result (λ part. place_in part.inside
        ≡ part_inside source.now.arena.now (place_in begin.entry.inside) (drop begin.entry.first source.now.view.now)) }
    ensures place { IfOk result (λ part.
        ForSome (place_in part.inside) (λ place. StandsBefore place (get_or source.now.view.now part.end 0))) }
    ensures some { IfOk result (λ part. begin.entry.first < part.end) }
    ensures inside { IfOk result (λ part. part.end ≤ length source.now.view.now) }
    ensures told { IfOk result (λ part.
        ForSome part.told (λ told.
        TellParts source.now.arena.now (place_in begin.entry.inside)
        (slice_range source.now.view.now begin.entry.first told) (part.end - begin.entry.first)
        (place_in part.inside))) }
    ensures later { IfOk result (λ part. ForSome part.told (λ told. part.end < told)) }
    ensures below { IfOk result (λ part. ForSome part.told (λ told. told ≤ length source.now.view.now)) }
    ensures whole { IfOk result (λ part. ForNone part.told (part.end ≡ length source.now.view.now)) }
    ensures untold { IfOk result (λ part. ForNone part.told (known.new ≡ known.old)) }
    ensures known { AreKnown source.now.arena.now known.new }
    ensures rows { IfOk result
        (λ part. AreRowsFrom known.old source.now.view.now begin.entry.first part.end known.new) }
    ensures spans { OnOk result (AreSpans source.now.arena.now spans.new.spans.items) }
{
    let place = begin.first;
    let id = source.view.at_near(place, segment);
    if begin.inside.is_none() && known.has_place(id) {
        let first = FirstItem {
            place,
            id,
            segment: *segment,
        };
        return noted_part_end(source, first, known, spans, segment, room);
    }
    part_end(source, begin, segment, spans.keep, room)
}
