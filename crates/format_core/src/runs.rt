//! The plan of a text, run by run over one store of items.

ghost use Rattle.std.specs.Prelude.{◌≡◌, ◌<◌, ◌≤◌, ◌+◌, ◌*◌, ◌^◌, ◌-◌, ℕ, List, Option, None, Some, IfOk, IfSome};
ghost use Rattle.std.specs.Prelude.{IsTrue, OnOk, get_or, length, option_map, IsSome};
ghost use Rattle.std.specs.Option.{ForNone};
ghost use Rattle.c_chars.specs.declared.TheConstants.{LIMIT};
ghost use Rattle.style_table.specs.Range.{IsInRange};
ghost use Rattle.item_classes.specs.Viewed.{AreWithin, item_classes};
ghost use Rattle.token_arena.specs.Sections.{sections_of, IsCut};
ghost use Rattle.early_gaps.specs.Dead.{IsTreeOf};
ghost use Rattle.branch_runs.specs.Anew.{items_between};
ghost use Rattle.run_layout.specs.declared.report.Tally.{Tally};
ghost use Rattle.replacements.specs.declared.slot.Slot.{Slot};
ghost use Rattle.view_parts.specs.Parts.{laid_items};
ghost use Rattle.part_walk.specs.Places.{place_in};
ghost use Rattle.run_parts.specs.Runs.{runs_of, seen_by};
ghost use Rattle.std.specs.List.{Contains};
ghost use Rattle.replacements.specs.Decisions.{slot_of};
ghost use Rattle.run_parts.specs.Bounds.{AreBounds, BeginTold, IsBound};
ghost use Rattle.format_core.specs.InStep.{AreInStep, AreNext, IsBegun, IsMade, IsReady};
ghost use Rattle.run_parts.specs.Windows.{IsWindow, place_before};
ghost use Rattle.format_core.specs.PartByPart.{GoesOnFrom};
ghost use Rattle.format_core.specs.RunsTold.{AreItemsTold, AreRunsTold, AreSeenTold, IsPlanned};

use branch_runs::CondTree;
use bumpalo::Bump;
use early_gaps::{Context, decide_early};
use item_classes::item_classes;
use line_gaps::{ViewLayout, is_row_decided};
use line_tokens::{NoMemory, TokenId};
use off_regions::Ranges;
use part_walk::BodyPlace;
use replacements::Plan;
use run_layout::{Tally, lay_out_view};
use run_parts::{
    KnownBound, KnownParts, Way, Window, change_of, is_part_decided, keep_gaps, last_bound,
    note_bound, pass_part, pass_row, read_items, row_of_part,
};
use std::alloc::Global;
use style_table::Style;
use token_arena::{Section, TokenArena, View};
use view_parts::{KnownSpans, PartSource, PartStart, PartsEnd, known_part_end, laid_view};

/// How many items behind what is new in a run are looked at first at least. Most parts end within as many, and so do
/// the items that tell it.
const LEAST_AHEAD: u32 = 64;

/// The plan of a text, and what is told of its lines.
#[derive(Drop)]
pub(crate) struct Planned<'a> {
    /// What is decided for each gap.
    pub plan: Plan<'a>,
    /// How many runs the text has.
    pub runs: u32,
    /// What came of the lines of all runs.
    pub tally: Tally<'a>,
}

/// What is made of a text, run by run.
#[derive(Drop)]
struct Made<'a> {
    /// What is decided for each gap.
    plan: Plan<'a>,
    /// What came of the lines of the runs so far.
    tally: Tally<'a>,
}

/// A part of so many items or more has room of its own.
const LARGE_PART: u32 = 8192;

/// So many bytes of such room are asked for at once for each item.
const ROOM_OF_AN_ITEM: usize = 128;

/// Room for a part of so many items. It is of one piece, where there is as much memory: so what is given back serves
/// again within the part, and what grows needn't be copied elsewhere. What isn't filled isn't touched.
fn room_for(items: u32, alloc: Global) -> Bump {
    match Bump::try_with_capacity(alloc, items as usize * ROOM_OF_AN_ITEM) {
        Ok(room) => room,
        Err(_) => Bump::new(alloc),
    }
}

/// Decides the gaps of these items, where they are open: first those that stay as they are.
fn lay_out_in_room(
    context: &Context<'_>,
    number: u32,
    view: &View<'_>,
    made: &mut Made<'_>,
    run: &Bump,
) -> Result<(), NoMemory>
    requires ready { IsReady context.now }
    requires within { AreWithin context.now.arena.now view.now }
    requires made { IsMade context.now.arena.now made.old }
    requires room { made.old.tally.searched + length view.now < 2 ^ 60 }
    ensures told { OnOk result (AreItemsTold context.now.style.now context.now.budget context.now.arena.now number
        made.old.plan view.now made.new.plan made.old.tally made.new.tally) }
    ensures made { OnOk result (IsMade context.now.arena.now made.new) }
    ensures room { OnOk result (made.new.tally.searched ≤ made.old.tally.searched + length view.now) }
{
    let style = context.style;
    let arena = context.arena;
    let items = arena.len();
    let count = view.len();
    prove!(count <= items);
    let read = read_items(style, arena, context.classes, view, run)?;
    keep_gaps(style, arena, view, read.kept, &mut made.plan);
    let layout = ViewLayout {
        alloc: context.alloc,
        style,
        budget: context.budget,
        arena,
        view,
        classes: read.classes,
        tokens: &read.tokens,
    };
    lay_out_view(
        &layout,
        number,
        read.lines,
        &mut made.plan,
        &mut made.tally,
        run,
    )
}

/// Decides the gaps of these items, where they are open. Many items have room of their own, others this one.
fn lay_out_items(
    context: &Context<'_>,
    number: u32,
    view: &View<'_>,
    made: &mut Made<'_>,
    room: &Bump,
) -> Result<(), NoMemory>
    requires ready { IsReady context.now }
    requires within { AreWithin context.now.arena.now view.now }
    requires made { IsMade context.now.arena.now made.old }
    requires room { made.old.tally.searched + length view.now < 2 ^ 60 }
    ensures told { OnOk result (AreItemsTold context.now.style.now context.now.budget context.now.arena.now number
        made.old.plan view.now made.new.plan made.old.tally made.new.tally) }
    ensures made { OnOk result (IsMade context.now.arena.now made.new) }
    ensures room { OnOk result (made.new.tally.searched ≤ made.old.tally.searched + length view.now) }
{
    let count = view.len();
    if count < LARGE_PART {
        return lay_out_in_room(context, number, view, made, room);
    }
    let own = room_for(count, context.alloc);
    lay_out_in_room(context, number, view, made, &own)
}

/// Decides the gaps of a part of a view that begins with this item, from one place to before another, where they are
/// open. A part of which all gaps are decided, as an earlier run left it, isn't looked at. Most parts stand in a row
/// outside bodies, and their views take no memory.
fn lay_out_part(
    context: &Context<'_>,
    window: &Window<'_>,
    id: TokenId,
    inside: Option<BodyPlace<'_>>,
    first: u32,
    end: u32,
    made: &mut Made<'_>,
    segment: usize,
    room: &Bump,
) -> Result<(), NoMemory>
    requires ready { IsReady context.now }
    requires within { AreWithin context.now.arena.now window.now.view }
    requires some { first < end }
    requires inside { end ≤ length window.now.view }
    requires item { (d : ℕ) → get_or window.now.view first d ≡ id.0 }
    requires made { IsMade context.now.arena.now made.old }
    requires begun { IsBegun context.now.arena.now made.old.plan window.now.view (place_in inside) first }
    requires room { made.old.tally.searched + 67 * (end - first) < 2 ^ 60 }
    ensures told { OnOk result (AreItemsTold context.now.style.now context.now.budget context.now.arena.now
        window.now.number made.old.plan (laid_items (place_in inside.entry) window.now.view first end) made.new.plan
        made.old.tally made.new.tally) }
    ensures made { OnOk result (IsMade context.now.arena.now made.new) }
    ensures room { OnOk result (made.new.tally.searched ≤ made.old.tally.searched + 67 * (end - first)) }
{
    let arena = context.arena;
    let number = window.number;
    let view = &window.view;
    if let Some(row) = row_of_part(arena, view, id, first, end, segment) {
        if is_row_decided(&made.plan, row.first, row.end) {
            return Ok(());
        }
        if inside.is_none() {
            let segments = [row];
            let own = View::from_segments(&segments);
            return lay_out_items(context, number, &own, made, room);
        }
    } else if is_part_decided(arena, view, first, end, &made.plan, segment) {
        return Ok(());
    }
    let laid = laid_view(inside, view, first, end, room)?;
    lay_out_items(context, number, &laid, made, room)
}

/// A run, and what of it is looked at.
#[derive(Drop)]
struct Turn<'k> {
    /// The number of the run.
    number: u32,
    /// Where it starts.
    bound: KnownBound<'k>,
    /// The item behind those that are new in it.
    new_end: u32,
    /// Whether another run follows.
    later: bool,
}

/// Empties the room of a part or a run for the next one.
#[inline(always)]
fn clear(room: &mut Bump, alloc: Global) {
    if room.reset().is_err() {
        *room = Bump::new(alloc);
    }
}

/// Gives back the room in which the end of a part of so many items was looked for, where they are many.
fn give_back_behind(items: u32, room: &mut Bump, alloc: Global) {
    if items >= LARGE_PART {
        *room = Bump::new(alloc);
    }
}

/// Decides the gaps of the next part of a window, where they are open, or passes over parts that are noted in a row.
/// Where the window doesn't tell where the part ends, the result is none.
fn lay_out_next<'k>(
    context: &Context<'_>,
    window: &Window<'_>,
    id: TokenId,
    known: &mut KnownParts<'k>,
    made: &mut Made<'_>,
    way: &mut Way<'k>,
    room: &mut Bump,
) -> Result<Option<PartsEnd<'k>>, NoMemory>
    requires ready { IsReady context.now }
    requires within { AreWithin context.now.arena.now window.now.view }
    requires window { IsWindow context.now.arena.now window.now.number window.now.view window.now.first window.now.end }
    requires here { way.old.first < length window.now.view }
    requires item { (d : ℕ) → get_or window.now.view way.old.first d ≡ id.0 }
    requires begun { IsBegun context.now.arena.now made.old.plan window.now.view (place_in way.old.inside)
        way.old.first }
    requires room { made.old.tally.searched + 67 * (length window.now.view - way.old.first) < 2 ^ 60 }
    requires state { AreInStep context.now.arena.now made.old known.old.ends known.old.spans.spans.items }
    ensures state { OnOk result (AreInStep context.now.arena.now made.new known.new.ends known.new.spans.spans.items) }
    ensures on { OnOk result ((plan : List (Option Slot)) (before : Tally) →
        GoesOnFrom context.now.style.now context.now.budget context.now.arena.now window.now.number plan
        (seen_by context.now.arena.now window.now.number) before made.old.plan (place_in way.old.inside)
        (place_before context.now.arena.now window.now.number window.now.first + way.old.first) made.old.tally →
        GoesOnFrom context.now.style.now context.now.budget context.now.arena.now window.now.number plan
        (seen_by context.now.arena.now window.now.number) before made.new.plan (place_in way.new.inside)
        (place_before context.now.arena.now window.now.number window.now.first + way.new.first) made.new.tally) }
    ensures room { OnOk result
        (made.new.tally.searched ≤ made.old.tally.searched + 67 * (way.new.first - way.old.first)) }
    ensures within { OnOk result (way.new.first ≤ length window.now.view) }
    ensures end { IfOk result (λ found. IfSome found (λ parts. way.new.first ≡ parts.end)) }
    ensures inside { IfOk result (λ found. IfSome found (λ parts. way.new.inside ≡ parts.inside)) }
    ensures begun { IfOk result (λ found.
        IfSome found (λ parts.
        IsBegun context.now.arena.now made.new.plan window.now.view (place_in parts.inside) parts.end)) }
    ensures next { IfOk result (λ found.
        IfSome found (AreNext context.now.arena.now window.now.view (place_in way.old.inside) way.old.first)) }
    ensures none { IfOk result (λ found. ForNone found (window.now.end < length context.now.arena.now.tokens)) }
    ensures stays { IfOk result (λ found.
        ForNone found
        ((way.new.first ≡ way.old.first) × (way.new.inside ≡ way.old.inside) × (made.new.plan ≡ made.old.plan))) }
    ensures bounds { OnOk result (known.new.bounds.items ≡ known.old.bounds.items) }
    ensures same { OnOk result (way.new.told ≡ way.old.told) }
{
    let first = way.first;
    let begun = way.segment;
    let arena = context.arena;
    let view = &window.view;
    let inside = way.inside;
    if let Some(parts) = pass_row(arena, view, id, &mut known.ends, way) {
        return Ok(Some(parts));
    }
    let source = PartSource {
        arena,
        view,
        classes: context.classes,
    };
    let part = known_part_end(
        &source,
        PartStart { first, inside },
        &mut known.ends,
        &mut known.spans,
        &mut way.segment,
        room,
    )?;
    if part.told.is_none() && window.end < arena.len() {
        return Ok(None);
    }
    give_back_behind(part.end.saturating_sub(first), room, context.alloc);
    lay_out_part(
        context, window, id, inside, first, part.end, made, begun, room,
    )?;
    pass_part(arena, id, part, &mut known.ends, way);
    Ok(Some(part))
}

/// Goes over a window from part to part, up to the first one that begins behind what is new. Where the window doesn't
/// tell where a part ends, the result is the item with which it begins. What a part takes of memory is of the room, and
/// serves the next one too.
fn lay_out_window<'k>(
    context: &Context<'_>,
    window: &Window<'_>,
    known: &mut KnownParts<'k>,
    made: &mut Made<'_>,
    way: &mut Way<'k>,
    room: &mut Bump,
) -> Result<Option<TokenId>, NoMemory>
    requires ready { IsReady context.now }
    requires within { AreWithin context.now.arena.now window.now.view }
    requires window { IsWindow context.now.arena.now window.now.number window.now.view window.now.first window.now.end }
    requires new { window.now.new_end ≤ window.now.end }
    requires start { way.old.first ≡ 0 }
    requires begun { IsBegun context.now.arena.now made.old.plan (seen_by context.now.arena.now window.now.number)
        (place_in way.old.inside) (place_before context.now.arena.now window.now.number window.now.first) }
    requires room { made.old.tally.searched ≤ 2 ^ 59 + 4294967296 }
    requires state { AreInStep context.now.arena.now made.old known.old.ends known.old.spans.spans.items }
    requires begin { IsTrue window.now.later →
        BeginTold context.now.arena.now
        (items_between 0 way.old.told (seen_by context.now.arena.now window.now.number))
        (place_before context.now.arena.now window.now.number window.now.first) (place_in way.old.inside) }
    requires bounds { AreBounds context.now.arena.now (seen_by context.now.arena.now window.now.number)
        known.old.bounds.items way.old.told }
    ensures state { OnOk result (AreInStep context.now.arena.now made.new known.new.ends known.new.spans.spans.items) }
    ensures on { OnOk result ((plan : List (Option Slot)) (before : Tally) →
        GoesOnFrom context.now.style.now context.now.budget context.now.arena.now window.now.number plan
        (seen_by context.now.arena.now window.now.number) before made.old.plan (place_in way.old.inside)
        (place_before context.now.arena.now window.now.number window.now.first) made.old.tally →
        GoesOnFrom context.now.style.now context.now.budget context.now.arena.now window.now.number plan
        (seen_by context.now.arena.now window.now.number) before made.new.plan (place_in way.new.inside)
        (place_before context.now.arena.now window.now.number window.now.first + way.new.first) made.new.tally) }
    ensures room { OnOk result (made.new.tally.searched ≤ made.old.tally.searched + 67 * way.new.first) }
    ensures inside { OnOk result (way.new.first ≤ length window.now.view) }
    ensures bounds { OnOk result (AreBounds context.now.arena.now (seen_by context.now.arena.now window.now.number)
        known.new.bounds.items way.new.told) }
    ensures begin { IfOk result (λ found.
        IfSome found (λ id.
        IsTrue window.now.later →
        BeginTold context.now.arena.now
        (items_between 0 way.new.told (seen_by context.now.arena.now window.now.number))
        (place_before context.now.arena.now window.now.number window.now.first + way.new.first)
        (place_in way.new.inside))) }
    ensures stopped { IfOk result (λ found. IfSome found (λ id. id.0 ≡ get_or window.now.view way.new.first 0)) }
    ensures here { IfOk result (λ found. IfSome found (λ id. way.new.first < length window.now.view)) }
    ensures begun { OnOk result (IsBegun context.now.arena.now made.new.plan
        (seen_by context.now.arena.now window.now.number) (place_in way.new.inside)
        (place_before context.now.arena.now window.now.number window.now.first + way.new.first)) }
    ensures short { IfOk result (λ found. IfSome found (λ id. window.now.end < length context.now.arena.now.tokens)) }
    ensures done { IfOk result (λ found.
        ForNone found ((k : ℕ) →
        place_before context.now.arena.now window.now.number window.now.first + way.new.first ≤ k →
        k < length (seen_by context.now.arena.now window.now.number) →
        window.now.new_end ≤ get_or (seen_by context.now.arena.now window.now.number) k 0)) }
{
    let view = &window.view;
    let count = view.len();
    let items = context.arena.len();
    prove!(count <= items);
    while way.first < count {
        let first = way.first;
        let begins = way.inside;
        let id = view.at_near(first, &mut way.segment);
        if id.0 >= window.new_end {
            return Ok(None);
        }
        let found = lay_out_next(context, window, id, known, made, way, room)?;
        let Some(parts) = found else {
            return Ok(Some(id));
        };
        let bounds = &mut known.bounds;
        note_bound(context.arena, window, begins, first, parts, bounds, way)?;
        clear(room, context.alloc);
    }
    Ok(None)
}

/// How many items behind what is new were needed, where those before `told` tell where parts end, or else all before
/// `end`.
fn ahead_of(new_end: u32, told: u32, end: u32) -> u32 {
    let needed = if told > new_end { told } else { end };
    needed.saturating_sub(new_end).max(LEAST_AHEAD)
}

/// Decides the gaps of the items that a run sees, where they are open, part after part: from where it starts up to
/// behind what is new in it. So many items behind that are looked at first as `ahead` says; where they don't tell where
/// a part ends, twice as many are. What is new in the next run is often in the same part, so that run looks first at as
/// many as this one needed.
fn lay_out_seen<'k>(
    context: &Context<'_>,
    tree: &CondTree<'_>,
    turn: &Turn<'k>,
    known: &mut KnownParts<'k>,
    made: &mut Made<'_>,
    ahead: &mut u32,
    run: &Bump,
    room: &mut Bump,
) -> Result<(), NoMemory>
    requires ready { IsReady context.now }
    requires tree { IsTreeOf context.now.arena.now tree.now }
    requires number { turn.now.number < runs_of context.now.arena.now }
    requires room { made.old.tally.searched ≤ 2 ^ 59 }
    requires state { AreInStep context.now.arena.now made.old known.old.ends known.old.spans.spans.items }
    requires bound { IsBound context.now.arena.now (seen_by context.now.arena.now turn.now.number) turn.now.bound.item
        turn.now.bound.told (place_in turn.now.bound.inside) }
    requires bounds { AreBounds context.now.arena.now (seen_by context.now.arena.now turn.now.number)
        known.old.bounds.items turn.now.bound.told }
    requires new { turn.now.new_end ≤ length context.now.arena.now.tokens }
    requires before { (id : ℕ) → id < turn.now.bound.item →
        Contains (seen_by context.now.arena.now turn.now.number) id → IsSome (slot_of made.old.plan id) }
    requires behind { (id : ℕ) → turn.now.new_end ≤ id → Contains (seen_by context.now.arena.now turn.now.number) id →
        IsSome (slot_of made.old.plan id) }
    ensures told { OnOk result (AreSeenTold context.now.style.now context.now.budget context.now.arena.now
        turn.now.number made.old.plan (seen_by context.now.arena.now turn.now.number) made.new.plan made.old.tally
        made.new.tally) }
    ensures room { OnOk result (made.new.tally.searched ≤ made.old.tally.searched + 4294967296) }
    ensures state { OnOk result (AreInStep context.now.arena.now made.new known.new.ends known.new.spans.spans.items) }
    ensures bounds { OnOk result ((told : ℕ)
        × AreBounds context.now.arena.now (seen_by context.now.arena.now turn.now.number) known.new.bounds.items
        told) }
{
    let items = context.arena.len();
    let mut first = turn.bound.item;
    let mut told = turn.bound.told;
    let mut inside = turn.bound.inside;
    let mut end = turn.new_end.saturating_add(*ahead).min(items).max(first);
    loop {
        let window = Window {
            number: turn.number,
            view: tree.view_between(turn.number, first, end, run)?,
            first,
            end,
            new_end: turn.new_end,
            later: turn.later,
        };
        let mut way = Way::start(told, inside);
        let stopped = lay_out_window(context, &window, known, made, &mut way, room)?;
        let Some(id) = stopped else {
            *ahead = ahead_of(turn.new_end, way.told, end);
            return Ok(());
        };
        first = id.0;
        told = way.told;
        inside = way.inside;
        end = (end + (end - first)).min(items);
    }
}

/// How many items tell the end of a part at least that is noted for later runs, where it stands in no row: few do not
/// take longer to be read again once, and behind the last run nothing is read again.
fn least_noted(number: u32, runs: u32) -> Option<u32>
    ensures last { runs ≤ number + 1 → result ≡ None }
    ensures first { number ≡ 0 → 1 < runs → result ≡ Some 16 }
    ensures later { 0 < number → number + 1 < runs → result ≡ Some 0 }
{
    if number >= runs.saturating_sub(1) {
        None
    } else if number == 0 {
        Some(16)
    } else {
        Some(0)
    }
}

/// From now on a part that stands in no row is noted where so many items or more tell its end, or none is.
fn note_from(spans: &mut KnownSpans<'_>, least: Option<u32>)
    ensures least { spans.new.least ≡ least }
    ensures same { spans.new.spans.items ≡ spans.old.spans.items }
{
    spans.least = least;
}

/// Decides the gaps of all items of texts, run by run. A run that sees nothing new is passed over. What a run and its
/// parts take of memory serves the next one too.
fn lay_out_runs(
    context: &Context<'_>,
    tree: &CondTree<'_>,
    keep: &Bump,
    made: &mut Made<'_>,
) -> Result<(), NoMemory>
    requires ready { IsReady context.now }
    requires tree { IsTreeOf context.now.arena.now tree.now }
    requires made { IsMade context.now.arena.now made.old }
    requires none { made.old.tally.searched ≡ 0 }
    ensures told { OnOk result (AreRunsTold context.now.style.now context.now.budget context.now.arena.now
        made.old.plan 0 (runs_of context.now.arena.now) made.new.plan made.old.tally made.new.tally) }
    ensures made { OnOk result (IsMade context.now.arena.now made.new) }
{
    let count = tree.runs();
    let items = context.arena.len();
    // Where there is one run, none follows to which parts are told.
    let again = if count > 1 { items } else { 0 };
    let mut known = KnownParts::none(again as usize, keep)?;
    let mut run = Bump::new(context.alloc);
    let mut room = Bump::new(context.alloc);
    let mut ahead = LEAST_AHEAD;
    for number in 0..count {
        let change = change_of(context.arena, tree, number);
        let bound = last_bound(&mut known.bounds, change.first);
        if change.end == 0 {
            continue;
        }
        note_from(&mut known.spans, least_noted(number, count));
        let turn = Turn {
            number,
            bound,
            new_end: change.end,
            later: number + 1 < count,
        };
        lay_out_seen(
            context, tree, &turn, &mut known, made, &mut ahead, &run, &mut room,
        )?;
        clear(&mut run, context.alloc);
    }
    Ok(())
}

/// The plan of a text, of which these are the sections and the lines that are asked for.
pub(crate) fn plan_of<'a>(
    alloc: Global,
    bump: &'a Bump,
    style: &Style,
    budget: u64,
    arena: &TokenArena<'_, '_>,
    sections: &[Section],
    ranges: Option<&Ranges>,
) -> Result<Planned<'a>, NoMemory>
    requires range { IsInRange style.now }
    requires budget { budget ≤ 16000000 }
    requires fits { length arena.now.text ≤ LIMIT }
    requires sections { sections.now ≡ sections_of arena.now }
    requires cut { IsCut 0 (length arena.now.tokens) sections.now }
    ensures plan { IfOk result (IsPlanned style.now (option_map (λ ranges. ranges.now) ranges.entry) budget arena.now) }
    ensures len { IfOk result (λ made. length made.plan ≡ length arena.now.tokens + 1) }
{
    // The plan takes room of which it fills a part. What comes behind it stands beside that part.
    let mut plan = Plan::make(style, arena, bump)?;
    let context = Context {
        alloc,
        style,
        budget,
        arena,
        classes: item_classes(arena, bump)?,
    };
    let tree = CondTree::build(arena, sections, bump)?;
    decide_early(&context, sections, &tree, ranges, bump, &mut plan)?;
    let tally = Tally::new(bump);
    let mut made = Made { plan, tally };
    lay_out_runs(&context, &tree, bump, &mut made)?;
    Ok(Planned {
        plan: made.plan,
        runs: tree.runs(),
        tally: made.tally,
    })
}
