//! The decisions for the gaps of a text.

ghost use Rattle.std.specs.Prelude.{◌≡◌, ◌<◌, ◌≤◌, ◌+◌, ◌/◌, ◌%◌, ◌^◌, ◌++◌, ◌∷◌, ◌↔◌, [], Some, None, false};
ghost use Rattle.std.specs.Prelude.{is_some, length, replicate, vec_capacity, IfOk, IfSome, IsSome, IsTrue};
ghost use Rattle.replacements.specs.declared.gap_text.Decision.TheVariants.{Lines, Spaces};
ghost use Rattle.replacements.specs.Written.{decision_at};
ghost use Rattle.std.specs.Bool.{OnFalse, OnTrue};
ghost use Rattle.c_chars.specs.declared.TheConstants.{LIMIT};
ghost use Rattle.replacements.specs.declared.slot.Decided.TheVariants as Decided;
ghost use Rattle.replacements.specs.Decisions.{AreDecided, IsSomeOpen, decided, slot_of};
ghost use Rattle.replacements.specs.Breaks.{fixed_by, has_line_end, has_new_line_at};
ghost use Rattle.replacements.specs.Inside.{AreTaken, IsSomeFree};
ghost use Rattle.replacements.specs.declared.entry.Entry.TheVariants.{Apart};

use crate::Decision;
use crate::entry::{Entry, LineGap};
use crate::reading::has_new_line_at;
use crate::slot::{Decided, Slot};
use bumpalo::Bump;
use bumpalo::collections::into_bump_slice_mut;
use line_tokens::{Fixed, NoMemory};
use std::marker::Model;
use style_table::Style;
use token_arena::TokenArena;

/// Whether a line ends in the gap at a place, which is decided so. The input's bytes are looked at only where they
/// stay.
#[inline(always)]
fn ends_line(arena: &TokenArena<'_, '_>, place: u32, decision: Decision) -> bool
    requires fits { length arena.now.text ≤ LIMIT }
    requires within { place ≤ length arena.now.tokens }
    ensures { result ≡ has_line_end decision (has_new_line_at arena.now place) }
{
    match decision {
        Decision::Old => has_new_line_at(arena, place),
        Decision::Spaces(_) => false,
        Decision::Lines { count, .. } => count > 0,
        Decision::Splice { .. } => true,
    }
}

/// Whether eight entries from a place on are those of decided gaps.
#[inline(always)]
fn are_eight_decided(entries: &[Entry], first: usize) -> bool
    requires { first + 8 ≤ length entries.now }
    ensures { IsTrue result → AreTaken entries.now first (first + 8) }
{
    for at in first..first + 8 {
        if !entries[at].is_decided() {
            return false;
        }
    }
    true
}

/// A place up to which all gaps are decided, looked at by eights.
#[inline(always)]
fn decided_front(entries: &[Entry]) -> usize
    ensures within { result ≤ length entries.now }
    ensures decided { AreTaken entries.now 0 result }
{
    let mut first = 0;
    while first + 8 <= entries.len() {
        if !are_eight_decided(entries, first) {
            return first;
        }
        first += 8;
    }
    first
}

/// Whether each of these entries is that of a decided gap.
#[inline(always)]
fn all_decided(entries: &[Entry]) -> bool
    ensures yes { OnTrue result (AreTaken entries.now 0 (length entries.now)) }
    ensures no { OnFalse result (IsSomeFree entries.now 0 (length entries.now)) }
{
    for at in decided_front(entries)..entries.len() {
        if !entries[at].is_decided() {
            return false;
        }
    }
    true
}

/// The entry of a decision that stands apart from now on.
fn set_apart(apart: &mut Vec<Slot, &Bump>, slot: Slot) -> Entry
    requires few { length apart.old.items < 2 ^ 24 }
    requires room { length apart.old.items < vec_capacity apart.old }
    ensures room { vec_capacity apart.new ≡ vec_capacity apart.old }
    ensures apart { apart.new.items ≡ apart.old.items ++ slot ∷ [] }
    ensures entry { result ≡ Apart (length apart.old.items / 65536) (length apart.old.items % 65536) }
{
    let place = apart.len();
    apart.push_reserved(slot);
    Entry::apart(place)
}

/// What is decided for the gaps of a text, and so far nothing for some. A contract sees the list of what is
/// decided: one place for the gap before each item, and one for the last gap.
#[derive(Drop)]
pub struct Plan<'a> {
    entries: &'a mut [Entry],
    /// The decisions that no entry has room for, in the order in which they were made.
    apart: Vec<Slot, &'a Bump>,
    /// How many columns each level is indented.
    width: u8,
}

impl<'a> Model for Plan<'a> {
    ghost use Rattle.std.specs.Prelude.{List, Option};
    ghost use Rattle.replacements.specs.declared.slot.Slot.{Slot};
    ghost use Rattle.std.specs.Prelude.{vec_capacity};
    ghost use Rattle.replacements.specs.Inside.{FitApart, slots_in};

    ghost Value = { List (Option Slot) };

    ghost view = { λ p. slots_in p.width p.apart.items p.entries.now };

    ghost invariant = { λ p. FitApart p.apart.items (vec_capacity p.apart) p.entries.now };
}

impl<'a> Plan<'a> {
    /// A plan for the gaps of a text in which nothing is decided. No other call takes memory. By the columns of a level
    /// in the style, lines of deep levels are kept in few bytes; others are kept too.
    pub fn make(
        style: &Style,
        arena: &TokenArena<'_, '_>,
        bump: &'a Bump,
    ) -> Result<Plan<'a>, NoMemory>
        ensures { IfOk result (λ plan. plan ≡ replicate (length arena.now.tokens + 1) None) }
    {
        let places = arena.len() + 1;
        let apart = Vec::with_capacity(bump, places as usize)?;
        let entries = vec![in bump; Entry::Open; places as usize]?;
        Ok(Plan {
            entries: into_bump_slice_mut(entries),
            apart,
            width: u8::try_from(style.indent_width).unwrap_or(0),
        })
    }

    /// Decides a gap that is open, by a decision for which an entry has no room. Few have none.
    #[inline(never)]
    fn decide_apart(&mut self, place: u32, slot: Slot)
        requires within { place < length self.old }
        requires open_gap { is_some (slot_of self.old place) ≡ false }
        ensures plan { self.new ≡ decided self.old place slot }
        ensures len { length self.new ≡ length self.old }
    {
        let entry = set_apart(&mut self.apart, slot);
        self.entries[place as usize] = entry;
    }

    /// Decides a gap that is open, by a decision of a far column or a deep level, or one that stands apart.
    #[inline(never)]
    fn decide_far(&mut self, place: u32, slot: Slot)
        requires within { place < length self.old }
        requires open_gap { is_some (slot_of self.old place) ≡ false }
        ensures plan { self.new ≡ decided self.old place slot }
        ensures len { length self.new ≡ length self.old }
    {
        if let Some(entry) = Entry::far(slot, self.width) {
            self.entries[place as usize] = entry;
            return;
        }
        self.decide_apart(place, slot);
    }

    /// Decides a gap where it is open; `end` is the column at which the item behind it starts.
    #[inline(always)]
    pub fn decide(&mut self, place: u32, decision: Decision, end: u32) -> Decided
        requires { place < length self.old }
        ensures kept { (result ≡ Decided.Kept) ↔ IsSome (slot_of self.old place) }
        ensures plan { self.new ≡ decided self.old place (record { decision = decision; end = end }) }
        ensures len { length self.new ≡ length self.old }
    {
        if self.is_decided(place) {
            return Decided::Kept;
        }
        if let Some(entry) = Entry::of(Slot { decision, end }) {
            self.entries[place as usize] = entry;
            return Decided::New;
        }
        // A slot of its own, so that one whose entry has room never lies in memory.
        self.decide_far(place, Slot { decision, end });
        Decided::New
    }

    /// Whether a gap is decided.
    #[inline(always)]
    pub fn is_decided(&self, place: u32) -> bool
        requires { place < length self.now }
        ensures { IsTrue result ↔ IsSome (slot_of self.now place) }
    {
        let entries = &*self.entries;
        entries[place as usize].is_decided()
    }

    /// Whether the gaps at the places from one up to another are decided.
    #[inline(always)]
    pub fn are_decided(&self, first: u32, end: u32) -> bool
        requires order { first ≤ end }
        requires within { end ≤ length self.now }
        ensures yes { OnTrue result (AreDecided self.now first end) }
        ensures no { OnFalse result (IsSomeOpen self.now first end) }
    {
        let entries = &*self.entries;
        all_decided(&entries[first as usize..end as usize])
    }

    /// How many blanks are decided for a gap, where it is blanks.
    #[inline(always)]
    pub(crate) fn blanks(&self, place: u32) -> Option<u32>
        requires { place < length self.now }
        ensures { IfSome result (λ count. decision_at self.now place ≡ Spaces count) }
    {
        let entries = &*self.entries;
        entries[place as usize].blanks()
    }

    /// The line ends and the indentation that are decided for a gap, where it is lines.
    #[inline(always)]
    pub(crate) fn lines(&self, place: u32) -> Option<LineGap>
        requires { place < length self.now }
        ensures { IfSome result (λ gap. decision_at self.now place ≡ Lines gap.count gap.column gap.level) }
    {
        let entries = &*self.entries;
        entries[place as usize].lines()
    }

    /// What is decided for a gap.
    #[inline(always)]
    pub fn slot(&self, place: u32) -> Option<Slot>
        requires { place < length self.now }
        ensures { result ≡ slot_of self.now place }
    {
        let entries = &*self.entries;
        entries[place as usize].slot(&self.apart, self.width)
    }

    /// Where the item behind a decided gap starts, and whether a line ends in the gap. The plan is of this arena's
    /// text.
    pub fn fixed_of(&self, arena: &TokenArena<'_, '_>, place: u32) -> Option<Fixed>
        requires fits { length arena.now.text ≤ LIMIT }
        requires whole { length self.now ≡ length arena.now.tokens + 1 }
        requires within { place < length self.now }
        ensures { result ≡ fixed_by arena.now place (slot_of self.now place) }
    {
        if !self.is_decided(place) {
            return None;
        }
        let slot = self.slot(place)?;
        Some(Fixed {
            column: slot.end,
            broken: ends_line(arena, place, slot.decision),
        })
    }
}
