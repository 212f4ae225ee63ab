//! The text of a plan.

ghost use Rattle.std.specs.Prelude.{◌≡◌, ◌==◌, ◌&&◌, ◌<◌, ◌≤◌, ◌+◌, ◌++◌, Bool, List, ℕ, length, drop, take};
ghost use Rattle.std.specs.Prelude.{OnOk, false};
ghost use Rattle.std.specs.Io.KnownBytes.{Appends};
ghost use Rattle.c_chars.specs.Characters.{mark_len};
ghost use Rattle.token_arena.specs.declared.directives.Section.{Section};
ghost use Rattle.fmt_ports.specs.Causes.{AppendsPart, Counts};
ghost use Rattle.token_arena.specs.Entries.{told_by};
ghost use Rattle.token_arena.specs.Stored.{Stored};
ghost use Rattle.token_arena.specs.Gaps.{gap_start, Stands, StandFrom};
ghost use Rattle.replacements.specs.Guards.{guard_before, guarded_text};
ghost use Rattle.replacements.specs.Stances.{stance_in, hash_comes, IsAt, IsKnown};
ghost use Rattle.replacements.specs.Written.{bytes_between, decision_at, first_gap, is_of_text, is_old, laid_gap};
ghost use Rattle.replacements.specs.Written.{mark_bytes, planned_gap, written, written_from};
ghost use Rattle.replacements.specs.declared.gap_text.Decision.TheVariants.{Lines, Spaces};
ghost use Rattle.replacements.specs.declared.guard.Guard.TheVariants.{Free};
ghost use Rattle.style_table.specs.declared.style.Style.{Style};

use crate::entry::LineGap;
use crate::gap_text::LinesPiece;
use crate::guard::{Guard, guard_before, guard_for, guard_text, guarded_ends, is_free};
use crate::hash::{HashRun, hash_comes};
use crate::plan::Plan;
use crate::same::{
    are_equal, between, comes_no_hash, has_same_blanks, have_blanks, lines_piece, stays,
};
use crate::stance::{Stance, stance_at};
use crate::{Decision, write_gap};
use fmt_ports::{Failed, Sink, write_all, write_front};
use line_tokens::TokenId;
use style_table::Style;
use token_arena::{Section, Token, TokenArena};

/// The bytes of a byte order mark.
const MARK: [u8; 3] = [0xEF, 0xBB, 0xBF];

/// Where the writing stands.
#[derive(Clone, Copy)]
struct Walk {
    /// The section in which the next item stands, or one before it.
    section: usize,
    /// Whether a `#` comes.
    run: HashRun,
    /// Where the gap before the next item begins.
    at: usize,
    /// The input's bytes from here on up to `at` are written as they are, and still to be written.
    held: usize,
}

/// Where items were passed.
#[derive(Clone, Copy)]
struct Passed {
    /// The next item.
    place: u32,
    /// Where the gap before it begins.
    at: usize,
}

/// What a plan decides for a gap: that it stays, where nothing else is decided.
#[inline(always)]
pub(crate) fn decision_at(plan: &Plan<'_>, place: u32) -> Decision
    requires { place < length plan.now }
    ensures { result ≡ decision_at plan.now place }
{
    match plan.slot(place) {
        Some(slot) => slot.decision,
        None => Decision::Old,
    }
}

/// What stands before the first item where its gap doesn't stay.
fn first_gap(arena: &TokenArena<'_, '_>, token: &Token<'_>) -> &'static [u8]
    ensures { result.now ≡ first_gap arena.now.text (told_by token.now) }
{
    if arena.mark() {
        return b"";
    }
    if !token.item.raw.starts_with(&MARK) {
        return b"";
    }
    b" "
}

/// Whether a blank must stand before an item of a text, since a `#` comes that begins no directive.
#[inline(always)]
fn blank_comes(
    arena: &TokenArena<'_, '_>,
    sections: &[Section],
    walk: &mut Walk,
    place: u32,
    token: &Token<'_>,
) -> bool
    requires here { IsAt arena.now.tokens place (told_by token.now) }
    requires within { walk.old.section ≤ length sections.now }
    requires later { (k : ℕ) → place ≤ k → stance_in (drop walk.old.section sections.now) k ≡ stance_in sections.now k }
    requires known { IsKnown arena.now.dialect arena.now.tokens place walk.old.run.end walk.old.run.hash }
    ensures within { walk.new.section ≤ length sections.now }
    ensures later { (k : ℕ) → place ≤ k → stance_in (drop walk.new.section sections.now) k ≡ stance_in sections.now k }
    ensures known { IsKnown arena.now.dialect arena.now.tokens place walk.new.run.end walk.new.run.hash }
    ensures kept { (walk.new.at ≡ walk.old.at) × (walk.new.held ≡ walk.old.held) }
    ensures is { result
        ≡ (is_of_text (stance_in sections.now place) && hash_comes arena.now.dialect (drop place arena.now.tokens)) }
{
    if comes_no_hash(token) {
        return false;
    }
    match stance_at(sections, &mut walk.section, place) {
        Stance::OfText => hash_comes(arena, place, token, &mut walk.run),
        Stance::Leads => false,
        Stance::Within => false,
    }
}

/// Writes the bytes of a decision, and before them what stands before a line end.
#[inline(never)]
fn write_with_guard<K: Sink>(
    style: &Style,
    crlf: bool,
    guard: Guard,
    decision: Decision,
    old: &[u8],
    sink: &mut K,
) -> Result<(), Failed>
    requires { 1 ≤ style.now.tab_width }
    ensures ok { OnOk result
        (Appends (K.taken sink.old) (K.taken sink.new) (guarded_text style.now crlf guard decision old.now)) }
    ensures part { AppendsPart (K.taken sink.old) (K.taken sink.new)
        (guarded_text style.now crlf guard decision old.now) }
    ensures counts { Counts (K.faults sink.old) (K.faults sink.new) result }
{
    let needed = guard_for(guard, decision);
    write_all(sink, guard_text(crlf, needed))?;
    write_gap(style, guarded_ends(crlf, needed), decision, old, sink)
}

/// Writes the bytes of a decision behind an item that leaves a guard.
#[inline(always)]
fn write_guarded<K: Sink>(
    style: &Style,
    crlf: bool,
    guard: Guard,
    decision: Decision,
    old: &[u8],
    sink: &mut K,
) -> Result<(), Failed>
    requires { 1 ≤ style.now.tab_width }
    ensures ok { OnOk result
        (Appends (K.taken sink.old) (K.taken sink.new) (guarded_text style.now crlf guard decision old.now)) }
    ensures part { AppendsPart (K.taken sink.old) (K.taken sink.new)
        (guarded_text style.now crlf guard decision old.now) }
    ensures counts { Counts (K.faults sink.old) (K.faults sink.new) result }
{
    // Behind most items nothing has to stand.
    if is_free(guard_for(guard, decision)) {
        return write_gap(style, crlf, decision, old, sink);
    }
    write_with_guard(style, crlf, guard, decision, old, sink)
}

/// Writes what is decided before an item, where its gap doesn't stay.
#[inline(always)]
fn write_laid<K: Sink>(
    style: &Style,
    crlf: bool,
    arena: &TokenArena<'_, '_>,
    sections: &[Section],
    walk: &mut Walk,
    place: u32,
    token: &Token<'_>,
    decision: Decision,
    sink: &mut K,
) -> Result<(), Failed>
    requires tab { 1 ≤ style.now.tab_width }
    requires here { IsAt arena.now.tokens place (told_by token.now) }
    requires within { walk.old.section ≤ length sections.now }
    requires later { (k : ℕ) → place ≤ k → stance_in (drop walk.old.section sections.now) k ≡ stance_in sections.now k }
    requires known { IsKnown arena.now.dialect arena.now.tokens place walk.old.run.end walk.old.run.hash }
    ensures within { walk.new.section ≤ length sections.now }
    ensures later { (k : ℕ) → place ≤ k → stance_in (drop walk.new.section sections.now) k ≡ stance_in sections.now k }
    ensures known { IsKnown arena.now.dialect arena.now.tokens place walk.new.run.end walk.new.run.hash }
    ensures kept { (walk.new.at ≡ walk.old.at) × (walk.new.held ≡ walk.old.held) }
    ensures ok { OnOk result (Appends (K.taken sink.old) (K.taken sink.new)
        (laid_gap style.now crlf arena.now (guard_before arena.now.tokens place) place (stance_in sections.now place)
        decision (told_by token.now) (drop (place + 1) arena.now.tokens))) }
    ensures part { AppendsPart (K.taken sink.old) (K.taken sink.new)
        (laid_gap style.now crlf arena.now (guard_before arena.now.tokens place) place (stance_in sections.now place)
        decision (told_by token.now) (drop (place + 1) arena.now.tokens)) }
    ensures counts { Counts (K.faults sink.old) (K.faults sink.new) result }
{
    if place == 0 {
        return write_all(sink, first_gap(arena, token));
    }
    if blank_comes(arena, sections, walk, place, token) {
        return write_all(sink, b" ");
    }
    write_guarded(style, crlf, guard_before(arena, place), decision, b"", sink)
}

/// Writes the bytes of a text from one offset up to another. Most are few, and these are copied with those behind them,
/// so that it is known how many are copied.
#[inline(always)]
fn write_between<K: Sink>(text: &[u8], from: usize, to: usize, sink: &mut K) -> Result<(), Failed>
    requires order { from ≤ to }
    requires within { to ≤ length text.now }
    ensures ok { OnOk result (Appends (K.taken sink.old) (K.taken sink.new) (bytes_between text.now from to)) }
    ensures part { AppendsPart (K.taken sink.old) (K.taken sink.new) (bytes_between text.now from to) }
    ensures counts { Counts (K.faults sink.old) (K.faults sink.new) result }
{
    if to - from <= 64 && text.len() - from >= 64 {
        return write_front(sink, between(text, from, from + 64), to - from);
    }
    write_all(sink, between(text, from, to))
}

/// Writes what is held and what is decided before an item whose gap doesn't stay, and holds nothing then.
#[inline(always)]
fn write_anew<K: Sink>(
    style: &Style,
    crlf: bool,
    arena: &TokenArena<'_, '_>,
    sections: &[Section],
    walk: &mut Walk,
    place: u32,
    token: &Token<'_>,
    decision: Decision,
    sink: &mut K,
) -> Result<(), Failed>
    requires tab { 1 ≤ style.now.tab_width }
    requires here { IsAt arena.now.tokens place (told_by token.now) }
    requires within { walk.old.section ≤ length sections.now }
    requires later { (k : ℕ) → place ≤ k → stance_in (drop walk.old.section sections.now) k ≡ stance_in sections.now k }
    requires known { IsKnown arena.now.dialect arena.now.tokens place walk.old.run.end walk.old.run.hash }
    requires stands { Stands arena.now.text walk.old.at (told_by token.now) }
    requires held { walk.old.held ≤ walk.old.at }
    requires anew { is_old decision ≡ false }
    ensures within { walk.new.section ≤ length sections.now }
    ensures later { (k : ℕ) → place ≤ k → stance_in (drop walk.new.section sections.now) k ≡ stance_in sections.now k }
    ensures known { IsKnown arena.now.dialect arena.now.tokens place walk.new.run.end walk.new.run.hash }
    ensures kept { walk.new.at ≡ walk.old.at }
    ensures held { walk.new.held ≤ token.now.item.start }
    ensures ok { OnOk result ((piece : List ℕ) × Appends (K.taken sink.old) (K.taken sink.new) piece
        × (bytes_between arena.now.text walk.old.held walk.old.at
        ++ planned_gap style.now crlf arena.now (guard_before arena.now.tokens place) walk.old.at place
        (stance_in sections.now place) decision (told_by token.now) (drop (place + 1) arena.now.tokens)
        ≡ piece ++ bytes_between arena.now.text walk.new.held token.now.item.start)) }
    ensures part { AppendsPart (K.taken sink.old) (K.taken sink.new)
        (bytes_between arena.now.text walk.old.held walk.old.at
        ++ planned_gap style.now crlf arena.now (guard_before arena.now.tokens place) walk.old.at place
        (stance_in sections.now place) decision (told_by token.now) (drop (place + 1) arena.now.tokens)) }
    ensures counts { Counts (K.faults sink.old) (K.faults sink.new) result }
{
    write_between(arena.text(), walk.held, walk.at, sink)?;
    write_laid(
        style, crlf, arena, sections, walk, place, token, decision, sink,
    )?;
    walk.held = token.item.start as usize;
    Ok(())
}

/// Writes a piece that stands before an item, and what is held before that, unless the input has it there and it is
/// held too.
#[inline(always)]
fn write_piece<K: Sink>(
    text: &[u8],
    at: usize,
    held: &mut usize,
    start: usize,
    piece: LinesPiece,
    sink: &mut K,
) -> Result<(), Failed>
    requires held { held.old ≤ at }
    requires order { at ≤ start }
    requires within { start ≤ length text.now }
    requires piece { piece.len ≤ length piece.bytes.now }
    ensures held { held.new ≤ start }
    ensures ok { OnOk result ((written : List ℕ) × Appends (K.taken sink.old) (K.taken sink.new) written
        × (bytes_between text.now held.old at ++ take piece.len piece.bytes.now
        ≡ written ++ bytes_between text.now held.new start)) }
    ensures part { AppendsPart (K.taken sink.old) (K.taken sink.new)
        (bytes_between text.now held.old at ++ take piece.len piece.bytes.now) }
    ensures counts { Counts (K.faults sink.old) (K.faults sink.new) result }
{
    if are_equal(between(text, at, start), &piece.bytes[..piece.len]) {
        return Ok(());
    }
    write_between(text, *held, at, sink)?;
    write_front(sink, piece.bytes, piece.len)?;
    *held = start;
    Ok(())
}

/// Writes lines that are decided before an item, and what is held before that, unless the input has them there and
/// they are held too.
#[inline(always)]
fn write_lines_before<K: Sink>(
    style: &Style,
    crlf: bool,
    arena: &TokenArena<'_, '_>,
    sections: &[Section],
    walk: &mut Walk,
    place: u32,
    token: &Token<'_>,
    gap: LineGap,
    sink: &mut K,
) -> Result<(), Failed>
    requires tab { 1 ≤ style.now.tab_width }
    requires inside { place < length arena.now.tokens }
    requires here { IsAt arena.now.tokens place (told_by token.now) }
    requires within { walk.old.section ≤ length sections.now }
    requires later { (k : ℕ) → place ≤ k → stance_in (drop walk.old.section sections.now) k ≡ stance_in sections.now k }
    requires known { IsKnown arena.now.dialect arena.now.tokens place walk.old.run.end walk.old.run.hash }
    requires stands { Stands arena.now.text walk.old.at (told_by token.now) }
    requires held { walk.old.held ≤ walk.old.at }
    ensures within { walk.new.section ≤ length sections.now }
    ensures later { (k : ℕ) → place ≤ k → stance_in (drop walk.new.section sections.now) k ≡ stance_in sections.now k }
    ensures known { IsKnown arena.now.dialect arena.now.tokens place walk.new.run.end walk.new.run.hash }
    ensures kept { walk.new.at ≡ walk.old.at }
    ensures held { walk.new.held ≤ token.now.item.start }
    ensures ok { OnOk result ((piece : List ℕ) × Appends (K.taken sink.old) (K.taken sink.new) piece
        × (bytes_between arena.now.text walk.old.held walk.old.at
        ++ planned_gap style.now crlf arena.now (guard_before arena.now.tokens place) walk.old.at place
        (stance_in sections.now place) (Lines gap.count gap.column gap.level) (told_by token.now)
        (drop (place + 1) arena.now.tokens)
        ≡ piece ++ bytes_between arena.now.text walk.new.held token.now.item.start)) }
    ensures part { AppendsPart (K.taken sink.old) (K.taken sink.new)
        (bytes_between arena.now.text walk.old.held walk.old.at
        ++ planned_gap style.now crlf arena.now (guard_before arena.now.tokens place) walk.old.at place
        (stance_in sections.now place) (Lines gap.count gap.column gap.level) (told_by token.now)
        (drop (place + 1) arena.now.tokens)) }
    ensures counts { Counts (K.faults sink.old) (K.faults sink.new) result }
{
    if let Some(piece) = lines_piece(style, crlf, arena, place, token, gap) {
        let start = token.item.start as usize;
        return write_piece(arena.text(), walk.at, &mut walk.held, start, piece, sink);
    }
    let decision = Decision::Lines {
        count: gap.count,
        column: gap.column,
        level: gap.level,
    };
    write_anew(
        style, crlf, arena, sections, walk, place, token, decision, sink,
    )
}

/// Writes blanks that are decided before an item, and what is held before that, unless the input has them there and
/// they are held too.
#[inline(always)]
fn write_blanks_before<K: Sink>(
    style: &Style,
    crlf: bool,
    arena: &TokenArena<'_, '_>,
    sections: &[Section],
    walk: &mut Walk,
    place: u32,
    token: &Token<'_>,
    count: u32,
    sink: &mut K,
) -> Result<(), Failed>
    requires tab { 1 ≤ style.now.tab_width }
    requires here { IsAt arena.now.tokens place (told_by token.now) }
    requires within { walk.old.section ≤ length sections.now }
    requires later { (k : ℕ) → place ≤ k → stance_in (drop walk.old.section sections.now) k ≡ stance_in sections.now k }
    requires known { IsKnown arena.now.dialect arena.now.tokens place walk.old.run.end walk.old.run.hash }
    requires stands { Stands arena.now.text walk.old.at (told_by token.now) }
    requires held { walk.old.held ≤ walk.old.at }
    ensures within { walk.new.section ≤ length sections.now }
    ensures later { (k : ℕ) → place ≤ k → stance_in (drop walk.new.section sections.now) k ≡ stance_in sections.now k }
    ensures known { IsKnown arena.now.dialect arena.now.tokens place walk.new.run.end walk.new.run.hash }
    ensures kept { walk.new.at ≡ walk.old.at }
    ensures held { walk.new.held ≤ token.now.item.start }
    ensures ok { OnOk result ((piece : List ℕ) × Appends (K.taken sink.old) (K.taken sink.new) piece
        × (bytes_between arena.now.text walk.old.held walk.old.at
        ++ planned_gap style.now crlf arena.now (guard_before arena.now.tokens place) walk.old.at place
        (stance_in sections.now place) (Spaces count) (told_by token.now)
        (drop (place + 1) arena.now.tokens)
        ≡ piece ++ bytes_between arena.now.text walk.new.held token.now.item.start)) }
    ensures part { AppendsPart (K.taken sink.old) (K.taken sink.new)
        (bytes_between arena.now.text walk.old.held walk.old.at
        ++ planned_gap style.now crlf arena.now (guard_before arena.now.tokens place) walk.old.at place
        (stance_in sections.now place) (Spaces count) (told_by token.now)
        (drop (place + 1) arena.now.tokens)) }
    ensures counts { Counts (K.faults sink.old) (K.faults sink.new) result }
{
    if have_blanks(arena, walk.at, place, token, count) {
        return Ok(());
    }
    let decision = Decision::Spaces(count);
    write_anew(
        style, crlf, arena, sections, walk, place, token, decision, sink,
    )
}

/// Writes what stands before an item where that is neither lines nor blanks, as before few. It reads the item itself,
/// so that none lies in memory for it.
#[inline(never)]
fn write_other_before<K: Sink>(
    style: &Style,
    crlf: bool,
    arena: &TokenArena<'_, '_>,
    sections: &[Section],
    plan: &Plan<'_>,
    walk: &mut Walk,
    place: u32,
    sink: &mut K,
) -> Result<(), Failed>
    requires tab { 1 ≤ style.now.tab_width }
    requires whole { length plan.now ≡ length arena.now.tokens + 1 }
    requires inside { place < length arena.now.tokens }
    requires within { walk.old.section ≤ length sections.now }
    requires later { (k : ℕ) → place ≤ k → stance_in (drop walk.old.section sections.now) k ≡ stance_in sections.now k }
    requires known { IsKnown arena.now.dialect arena.now.tokens place walk.old.run.end walk.old.run.hash }
    requires stands { (token : Stored) → IsAt arena.now.tokens place token → Stands arena.now.text walk.old.at token }
    requires held { walk.old.held ≤ walk.old.at }
    ensures within { walk.new.section ≤ length sections.now }
    ensures later { (k : ℕ) → place ≤ k → stance_in (drop walk.new.section sections.now) k ≡ stance_in sections.now k }
    ensures known { IsKnown arena.now.dialect arena.now.tokens place walk.new.run.end walk.new.run.hash }
    ensures kept { walk.new.at ≡ walk.old.at }
    ensures held { (token : Stored) → IsAt arena.now.tokens place token → walk.new.held ≤ token.start }
    ensures ok { (token : Stored) → IsAt arena.now.tokens place token →
        OnOk result ((piece : List ℕ) × Appends (K.taken sink.old) (K.taken sink.new) piece
        × (bytes_between arena.now.text walk.old.held walk.old.at
        ++ planned_gap style.now crlf arena.now (guard_before arena.now.tokens place) walk.old.at place
        (stance_in sections.now place) (decision_at plan.now place) token (drop (place + 1) arena.now.tokens)
        ≡ piece ++ bytes_between arena.now.text walk.new.held token.start)) }
    ensures part { (token : Stored) → IsAt arena.now.tokens place token →
        AppendsPart (K.taken sink.old) (K.taken sink.new)
        (bytes_between arena.now.text walk.old.held walk.old.at
        ++ planned_gap style.now crlf arena.now (guard_before arena.now.tokens place) walk.old.at place
        (stance_in sections.now place) (decision_at plan.now place) token (drop (place + 1) arena.now.tokens)) }
    ensures counts { Counts (K.faults sink.old) (K.faults sink.new) result }
{
    let token = arena.get(TokenId(place));
    let decision = decision_at(plan, place);
    if stays(decision) {
        return Ok(());
    }
    write_anew(
        style, crlf, arena, sections, walk, place, &token, decision, sink,
    )
}

/// Writes what stands before an item, and what is held before that, unless the input has it there and it is held too.
#[inline(always)]
fn write_before<K: Sink>(
    style: &Style,
    crlf: bool,
    arena: &TokenArena<'_, '_>,
    sections: &[Section],
    plan: &Plan<'_>,
    walk: &mut Walk,
    place: u32,
    token: &Token<'_>,
    sink: &mut K,
) -> Result<(), Failed>
    requires tab { 1 ≤ style.now.tab_width }
    requires whole { length plan.now ≡ length arena.now.tokens + 1 }
    requires inside { place < length arena.now.tokens }
    requires here { IsAt arena.now.tokens place (told_by token.now) }
    requires within { walk.old.section ≤ length sections.now }
    requires later { (k : ℕ) → place ≤ k → stance_in (drop walk.old.section sections.now) k ≡ stance_in sections.now k }
    requires known { IsKnown arena.now.dialect arena.now.tokens place walk.old.run.end walk.old.run.hash }
    requires stands { Stands arena.now.text walk.old.at (told_by token.now) }
    requires held { walk.old.held ≤ walk.old.at }
    ensures within { walk.new.section ≤ length sections.now }
    ensures later { (k : ℕ) → place ≤ k → stance_in (drop walk.new.section sections.now) k ≡ stance_in sections.now k }
    ensures known { IsKnown arena.now.dialect arena.now.tokens place walk.new.run.end walk.new.run.hash }
    ensures kept { walk.new.at ≡ walk.old.at }
    ensures held { walk.new.held ≤ token.now.item.start }
    ensures ok { OnOk result ((piece : List ℕ) × Appends (K.taken sink.old) (K.taken sink.new) piece
        × (bytes_between arena.now.text walk.old.held walk.old.at
        ++ planned_gap style.now crlf arena.now (guard_before arena.now.tokens place) walk.old.at place
        (stance_in sections.now place) (decision_at plan.now place) (told_by token.now)
        (drop (place + 1) arena.now.tokens)
        ≡ piece ++ bytes_between arena.now.text walk.new.held token.now.item.start)) }
    ensures part { AppendsPart (K.taken sink.old) (K.taken sink.new)
        (bytes_between arena.now.text walk.old.held walk.old.at
        ++ planned_gap style.now crlf arena.now (guard_before arena.now.tokens place) walk.old.at place
        (stance_in sections.now place) (decision_at plan.now place) (told_by token.now)
        (drop (place + 1) arena.now.tokens)) }
    ensures counts { Counts (K.faults sink.old) (K.faults sink.new) result }
{
    // Most of these gaps are lines or blanks, which are told apart before anything is written.
    if let Some(gap) = plan.lines(place) {
        return write_lines_before(style, crlf, arena, sections, walk, place, token, gap, sink);
    }
    if let Some(count) = plan.blanks(place) {
        return write_blanks_before(
            style, crlf, arena, sections, walk, place, token, count, sink,
        );
    }
    write_other_before(style, crlf, arena, sections, plan, walk, place, sink)
}

/// Writes what stands before an item that the input doesn't have there, and holds the item.
#[inline(always)]
fn write_token<K: Sink>(
    style: &Style,
    crlf: bool,
    arena: &TokenArena<'_, '_>,
    sections: &[Section],
    plan: &Plan<'_>,
    walk: &mut Walk,
    place: u32,
    sink: &mut K,
) -> Result<(), Failed>
    requires tab { 1 ≤ style.now.tab_width }
    requires whole { length plan.now ≡ length arena.now.tokens + 1 }
    requires here { place < length arena.now.tokens }
    requires within { walk.old.section ≤ length sections.now }
    requires known { IsKnown arena.now.dialect arena.now.tokens place walk.old.run.end walk.old.run.hash }
    requires later { (k : ℕ) → place ≤ k → stance_in (drop walk.old.section sections.now) k ≡ stance_in sections.now k }
    requires stand { StandFrom arena.now.text (mark_len arena.now.text) arena.now.tokens }
    requires at { walk.old.at ≡ gap_start (mark_len arena.now.text) arena.now.tokens place }
    requires held { walk.old.held ≤ walk.old.at }
    ensures within { walk.new.section ≤ length sections.now }
    ensures known { IsKnown arena.now.dialect arena.now.tokens place walk.new.run.end walk.new.run.hash }
    ensures later { (k : ℕ) → place ≤ k → stance_in (drop walk.new.section sections.now) k ≡ stance_in sections.now k }
    ensures at { OnOk result ((walk.new.at ≡ gap_start (mark_len arena.now.text) arena.now.tokens (place + 1))
        × (walk.new.held ≤ walk.new.at)) }
    ensures ok { OnOk result ((piece : List ℕ) × Appends (K.taken sink.old) (K.taken sink.new) piece
        × (bytes_between arena.now.text walk.old.held walk.old.at
        ++ written_from style.now crlf arena.now sections.now plan.now (guard_before arena.now.tokens place)
        walk.old.at place (drop place arena.now.tokens)
        ≡ piece
        ++ (bytes_between arena.now.text walk.new.held walk.new.at
        ++ written_from style.now crlf arena.now sections.now plan.now
        (guard_before arena.now.tokens (place + 1)) walk.new.at (place + 1)
        (drop (place + 1) arena.now.tokens)))) }
    ensures part { AppendsPart (K.taken sink.old) (K.taken sink.new)
        (bytes_between arena.now.text walk.old.held walk.old.at
        ++ written_from style.now crlf arena.now sections.now plan.now (guard_before arena.now.tokens place)
        walk.old.at place (drop place arena.now.tokens)) }
    ensures counts { Counts (K.faults sink.old) (K.faults sink.new) result }
{
    let token = arena.get(TokenId(place));
    write_before(
        style, crlf, arena, sections, plan, walk, place, &token, sink,
    )?;
    walk.at = token.item.start as usize + token.item.raw.len();
    Ok(())
}

/// The byte order mark of a text; nothing where it has none.
fn mark_of(arena: &TokenArena<'_, '_>) -> &'static [u8]
    ensures { result.now ≡ mark_bytes (mark_len arena.now.text) }
{
    if arena.mark() { &MARK } else { b"" }
}

/// Where the first gap begins: behind a byte order mark.
fn first_offset(arena: &TokenArena<'_, '_>) -> usize
    ensures { result ≡ mark_len arena.now.text }
{
    if arena.mark() { MARK.len() } else { 0 }
}

/// Passes items from a place on, which isn't the first, as long as blanks are decided before each and stand there in
/// the input, so that they are copied in one stretch. The first other item, or what stands behind the last one.
#[inline(never)]
fn pass_blanks(arena: &TokenArena<'_, '_>, plan: &Plan<'_>, place: u32, at: usize) -> Passed
    requires whole { length plan.now ≡ length arena.now.tokens + 1 }
    requires here { place ≤ length arena.now.tokens }
    requires behind { 0 < place }
    requires at { at ≡ gap_start (mark_len arena.now.text) arena.now.tokens place }
    ensures within { result.place ≤ length arena.now.tokens }
    ensures later { place ≤ result.place }
    ensures at { result.at ≡ gap_start (mark_len arena.now.text) arena.now.tokens result.place }
    ensures on { at ≤ result.at }
    ensures same { (style : Style) (crlf : Bool) (sections : List Section) →
        written_from style crlf arena.now sections plan.now (guard_before arena.now.tokens place) at place
        (drop place arena.now.tokens)
        ≡ bytes_between arena.now.text at result.at
        ++ written_from style crlf arena.now sections plan.now (guard_before arena.now.tokens result.place) result.at
        result.place (drop result.place arena.now.tokens) }
{
    let count = arena.len();
    let mut here = at;
    for next in place..count {
        let token = arena.get(TokenId(next));
        if !has_same_blanks(arena, here, next, &token, plan) {
            return Passed {
                place: next,
                at: here,
            };
        }
        here = token.item.start as usize + token.item.raw.len();
    }
    Passed {
        place: count,
        at: here,
    }
}

/// Writes all items, and the gaps before and behind them.
fn write_tokens<K: Sink>(
    style: &Style,
    crlf: bool,
    arena: &TokenArena<'_, '_>,
    sections: &[Section],
    plan: &Plan<'_>,
    sink: &mut K,
) -> Result<(), Failed>
    requires tab { 1 ≤ style.now.tab_width }
    requires whole { length plan.now ≡ length arena.now.tokens + 1 }
    ensures ok { OnOk result (Appends (K.taken sink.old) (K.taken sink.new)
        (written_from style.now crlf arena.now sections.now plan.now Free (mark_len arena.now.text) 0
        arena.now.tokens)) }
    ensures part { AppendsPart (K.taken sink.old) (K.taken sink.new)
        (written_from style.now crlf arena.now sections.now plan.now Free (mark_len arena.now.text) 0
        arena.now.tokens) }
    ensures counts { Counts (K.faults sink.old) (K.faults sink.new) result }
{
    let count = arena.len();
    let begin = first_offset(arena);
    let mut walk = Walk {
        section: 0,
        run: HashRun::none(),
        at: begin,
        held: begin,
    };
    let mut place = 0;
    while place < count {
        write_token(style, crlf, arena, sections, plan, &mut walk, place, sink)?;
        let passed = pass_blanks(arena, plan, place + 1, walk.at);
        walk.at = passed.at;
        place = passed.place;
    }
    write_all(sink, between(arena.text(), walk.held, walk.at))?;
    let decision = decision_at(plan, count);
    let guard = guard_before(arena, count);
    write_guarded(style, crlf, guard, decision, arena.gap(count), sink)
}

/// Writes the text of a plan in a style: the byte order mark, then each item behind the text of its gap, and the
/// last gap's text. `crlf` says that lines end in `\r\n`.
///
/// It takes no memory; after `Failed`, the sink took a part of the text.
pub fn write_out<K: Sink>(
    style: &Style,
    crlf: bool,
    arena: &TokenArena<'_, '_>,
    sections: &[Section],
    plan: &Plan<'_>,
    sink: &mut K,
) -> Result<(), Failed>
    requires tab { 1 ≤ style.now.tab_width }
    requires whole { length plan.now ≡ length arena.now.tokens + 1 }
    ensures ok { OnOk result
        (Appends (K.taken sink.old) (K.taken sink.new) (written style.now crlf arena.now sections.now plan.now)) }
    ensures part { AppendsPart (K.taken sink.old) (K.taken sink.new)
        (written style.now crlf arena.now sections.now plan.now) }
    ensures counts { Counts (K.faults sink.old) (K.faults sink.new) result }
{
    write_all(sink, mark_of(arena))?;
    write_tokens(style, crlf, arena, sections, plan, sink)
}
