//! The store of items, and what it answers.

ghost use Rattle.std.specs.Prelude.{◌≡◌, ◌==◌, ◌<◌, ◌≤◌, ◌+◌, ◌^◌, ◌∷◌, length, take, drop, Some, get_or, slice_get};
ghost use Rattle.std.specs.Prelude.{if◌then◌else◌, IsTrue};
ghost use Rattle.std.specs.List.{list_all, position_or_len, slice_range};
ghost use Rattle.c_chars.specs.Characters.{is_plain, mark_len};
ghost use Rattle.c_chars.specs.declared.TheConstants.{LIMIT};
ghost use Rattle.token_arena.specs.Comments.{comments_from};
ghost use Rattle.token_arena.specs.Hashes.{hashes_from};
ghost use Rattle.token_arena.specs.Gaps.{gap_of, gap_start, gap_end, joined, StandFrom};
ghost use Rattle.token_arena.specs.Holds.{HoldsItems};
ghost use Rattle.token_arena.specs.Entries.{told_by, AreEntries, contents_of, gap_kept, is_back, is_itself};
ghost use Rattle.token_arena.specs.Entries.{is_begun, is_printable};
ghost use Rattle.token_arena.specs.Sections.{lines_of};
ghost use Rattle.token_arena.specs.Stored.{Stored};

use crate::facts::{Rows, line_feeds, one_row, rows_of, rows_of_any};
use c_lexer::{Dialect, Item, ItemKind};
use line_tokens::{GapFacts, TokenId};
use std::marker::Model;

/// The bytes of a byte order mark.
pub(crate) const MARK: [u8; 3] = [0xEF, 0xBB, 0xBF];

/// An item of a text, with what stands before it and what it takes.
#[derive(Clone, Copy, Debug)]
pub struct Token<'s> {
    /// Its kind, its bytes and the offset of the first of them.
    pub item: Item<'s>,
    /// The gap before it.
    pub gap: GapFacts,
    /// Its last character is a backslash.
    pub back: bool,
    /// The text before it.
    pub before: &'s [u8],
}

impl Token<'_> {
    /// Its rows. They are read from its bytes at each call, so that nobody pays for them who doesn't ask.
    #[inline(always)]
    pub fn rows(&self) -> Rows
        requires { length self.now.item.raw.now < 2 ^ 31 }
        ensures count { result.count ≡ (told_by self.now).rows }
        ensures first { result.first_width ≡ (told_by self.now).first_width }
        ensures last { result.last_width ≡ (told_by self.now).last_width }
    {
        rows_of(self.item.raw)
    }

    /// The physical line on which it begins, from 1. The new-lines before it are counted at each call, as its rows are
    /// read.
    pub fn line(&self) -> usize
        ensures { result ≡ (told_by self.now).line }
    {
        line_feeds(self.before) + 1
    }
}

/// What is known of an item's bytes.
#[derive(Clone, Copy)]
pub(crate) enum Spelled {
    /// They are printable ASCII, each is a character by itself, and no backslash is the last of them.
    Itself,
    /// They are printable ASCII, and no backslash is the last character.
    Plain,
    /// A backslash is the last character.
    Backslash,
    /// Neither is known.
    Other,
}

/// Whether a backslash is the last character of an item that is spelled so.
#[inline(always)]
fn is_back(spelled: Spelled) -> bool
    ensures { result ≡ is_back spelled }
{
    matches!(spelled, Spelled::Backslash)
}

/// Whether an item that is spelled so is known to have bytes of printable ASCII alone.
#[inline(always)]
fn is_printable(spelled: Spelled) -> bool
    ensures { result ≡ is_printable spelled }
{
    matches!(spelled, Spelled::Itself | Spelled::Plain)
}

/// Whether each byte of an item that is spelled so is known to be a character by itself.
#[inline(always)]
fn is_itself(spelled: Spelled) -> bool
    ensures { result ≡ is_itself spelled }
{
    matches!(spelled, Spelled::Itself)
}

/// An item as it lies in memory; its bytes are those of the text from `start` on. It has `lines` new-lines before it,
/// `white` space other than splices, and a `splice`; the other facts of its gap follow from these.
#[derive(Clone, Copy)]
pub(crate) struct Entry {
    pub start: u32,
    pub len: u32,
    pub lines: u32,
    pub kind: ItemKind,
    pub white: bool,
    pub splice: bool,
    pub spelled: Spelled,
}

const _: () = prove!(size_of::<Entry>() <= 16);

/// What the gap of an item is, where it is the first of its text or not.
#[inline(always)]
fn gap_kept(entry: &Entry, is_first: bool) -> GapFacts
    ensures { result ≡ gap_kept is_first entry.now }
{
    GapFacts {
        lines: entry.lines,
        empty: !(entry.white | entry.splice),
        white: entry.white,
        splice: entry.splice,
        began: is_first || entry.lines != 0,
    }
}

/// Where the first of these entries stands before which a line begins, or how many there are.
#[inline(always)]
fn first_begun(entries: &[Entry]) -> usize
    ensures { result ≡ position_or_len is_begun entries.now }
{
    for (i, entry) in entries.iter().enumerate() {
        if entry.lines != 0 {
            return i;
        }
    }
    entries.len()
}

/// So many bytes of a text, from an offset on.
#[inline(always)]
fn bytes_of(text: &[u8], start: u32, len: u32) -> &[u8]
    requires { start + len ≤ length text.now }
    ensures { result.now ≡ take len (drop start text.now) }
{
    let from = start as usize;
    &text[from..from + len as usize]
}

/// The items of a text in its order. A contract sees the text, its dialect and what is kept of each item.
#[derive(Drop)]
pub struct TokenArena<'a, 's> {
    text: &'s [u8],
    dialect: Dialect,
    entries: &'a [Entry],
    comments: &'a [u32],
    hashes: &'a [u32],
}

impl<'a, 's> Model for TokenArena<'a, 's> {
    ghost use Rattle.token_arena.specs.Gaps.{Contents};
    ghost use Rattle.token_arena.specs.Entries.{AreEntries, contents_of};

    ghost Value = { Contents };

    ghost view = { λ a. contents_of a.text.now a.dialect a.entries.now };

    ghost invariant = { λ a. AreEntries a.text.now a.dialect a.entries.now a.comments.now a.hashes.now };
}

impl<'a, 's> TokenArena<'a, 's> {
    /// An arena of these entries of a text, of which those with these numbers are comments, or may be a `#`.
    pub(crate) fn of(
        text: &'s [u8],
        dialect: Dialect,
        entries: &'a [Entry],
        comments: &'a [u32],
        hashes: &'a [u32],
    ) -> TokenArena<'a, 's>
        requires { AreEntries text.now dialect entries.now comments.now hashes.now }
        ensures { result ≡ contents_of text.now dialect entries.now }
    {
        TokenArena {
            text,
            dialect,
            entries,
            comments,
            hashes,
        }
    }

    /// How many items there are.
    #[inline(always)]
    #[tactic(auto, using(crate::proofs::EntryLemmas::length_kept))]
    pub fn len(&self) -> u32
        ensures count { result ≡ length self.now.tokens }
        ensures most { result ≤ LIMIT }
        ensures whole { joined self.now ≡ drop (mark_len self.now.text) self.now.text }
        ensures fits { length self.now.text ≤ LIMIT }
        ensures stand { StandFrom self.now.text (mark_len self.now.text) self.now.tokens }
        ensures holds { HoldsItems self.now }
    {
        self.entries.len() as u32
    }

    /// There is no item: the text has at most a mark and white space.
    #[tactic(auto, using(crate::proofs::EntryLemmas::length_kept))]
    pub fn is_empty(&self) -> bool
        ensures { result ≡ (length self.now.tokens == 0) }
    {
        self.entries.is_empty()
    }

    /// The item with this number.
    #[inline(always)]
    #[tactic(auto, using(crate::proofs::EntryLemmas::length_kept))]
    pub fn get(&self, id: TokenId) -> Token<'s>
        requires { id.0 < length self.now.tokens }
        ensures { slice_get self.now.tokens id.0 ≡ Some (told_by result) }
    {
        let entry = &self.entries[id.0 as usize];
        let raw = bytes_of(self.text, entry.start, entry.len);
        Token {
            item: Item {
                kind: entry.kind,
                raw,
                start: entry.start,
            },
            gap: gap_kept(entry, id.0 == 0),
            back: is_back(entry.spelled),
            before: bytes_of(self.text, 0, entry.start),
        }
    }

    /// The rows of the item with this number. Of most items the entry alone tells them.
    #[inline(always)]
    #[tactic(auto, using(crate::proofs::EntryLemmas::length_kept))]
    pub fn rows(&self, id: TokenId) -> Rows
        requires { id.0 < length self.now.tokens }
        ensures count { (no_token : Stored) → result.count ≡ (get_or self.now.tokens id.0 no_token).rows }
        ensures first { (no_token : Stored) → result.first_width ≡ (get_or self.now.tokens id.0 no_token).first_width }
        ensures last { (no_token : Stored) → result.last_width ≡ (get_or self.now.tokens id.0 no_token).last_width }
    {
        let entry = &self.entries[id.0 as usize];
        if is_printable(entry.spelled) {
            return one_row(entry.len);
        }
        rows_of_any(bytes_of(self.text, entry.start, entry.len))
    }

    /// Whether the item with this number is known to be spelled by its bytes as they are: none of them begins a
    /// trigraph, a splice or a line end.
    #[inline(always)]
    #[tactic(auto, using(crate::proofs::EntryLemmas::length_kept))]
    pub fn is_itself(&self, id: TokenId) -> bool
        requires { id.0 < length self.now.tokens }
        ensures { (no_token : Stored) → IsTrue result →
            IsTrue (list_all is_plain (get_or self.now.tokens id.0 no_token).raw) }
    {
        is_itself(self.entries[id.0 as usize].spelled)
    }

    /// Where the line of this item begins, no item before the one of the first number.
    #[inline(always)]
    #[tactic(auto, using(crate::proofs::EntryLemmas::length_kept))]
    pub(crate) fn line_start(&self, from: u32, at: u32) -> u32
        requires order { from ≤ at }
        requires within { at < length self.now.tokens }
        ensures from { from ≤ result }
        ensures most { result ≤ at }
        ensures begins { (no_token : Stored) → from < result →
            IsTrue (get_or self.now.tokens result no_token).gap.began }
    {
        let mut start = at;
        while start > from && self.entries[start as usize].lines == 0 {
            start -= 1;
        }
        start
    }

    /// Whether the item with this number is known to be one row of printable ASCII, which is as wide as it is long.
    #[inline(always)]
    #[tactic(auto, using(crate::proofs::EntryLemmas::length_kept))]
    pub fn is_one_row(&self, id: TokenId) -> bool
        requires { id.0 < length self.now.tokens }
        ensures count { (no_token : Stored) → IsTrue result → (get_or self.now.tokens id.0 no_token).rows ≡ 1 }
        ensures first { (no_token : Stored) → IsTrue result →
            (get_or self.now.tokens id.0 no_token).first_width ≡ length (get_or self.now.tokens id.0 no_token).raw }
        ensures last { (no_token : Stored) → IsTrue result →
            (get_or self.now.tokens id.0 no_token).last_width ≡ length (get_or self.now.tokens id.0 no_token).raw }
    {
        is_printable(self.entries[id.0 as usize].spelled)
    }

    /// The first item behind the line that begins with this one.
    #[inline(always)]
    pub(crate) fn line_end(&self, at: u32) -> u32
        requires { at < length self.now.tokens }
        ensures behind { at < result }
        ensures within { result ≤ length self.now.tokens }
        ensures line { lines_of (drop at self.now.tokens)
            ≡ slice_range self.now.tokens at result ∷ lines_of (drop result self.now.tokens) }
    {
        let next = at as usize + 1;
        (next + first_begun(&self.entries[next..])) as u32
    }

    /// The numbers of the items that are comments, in order.
    #[inline(always)]
    pub fn comments(&self) -> &'a [u32]
        ensures { result.now ≡ comments_from 0 self.now.tokens }
    {
        self.comments
    }

    /// The numbers of the items that may be a `#`, in order.
    #[inline(always)]
    pub(crate) fn hashes(&self) -> &'a [u32]
        ensures { result.now ≡ hashes_from 0 self.now.tokens }
    {
        self.hashes
    }

    /// The bytes before the item with this number, or after the last item. The mark is in no gap.
    #[inline(always)]
    pub fn gap(&self, place: u32) -> &'s [u8]
        requires { place ≤ length self.now.tokens }
        ensures { result.now ≡ gap_of self.now place }
    {
        let from = self.gap_start(place);
        let to = self.gap_end(place);
        &self.text[from..to]
    }

    /// Whether the text begins with a byte order mark.
    pub fn mark(&self) -> bool
        ensures { mark_len self.now.text ≡ (if result then 3 else 0) }
    {
        self.text.starts_with(&MARK)
    }

    /// The text.
    pub fn text(&self) -> &'s [u8]
        ensures { result.now ≡ self.now.text }
    {
        self.text
    }

    /// The dialect that the text was read in.
    pub fn dialect(&self) -> Dialect
        ensures { result ≡ self.now.dialect }
    {
        self.dialect
    }

    // Where the gap at a place begins.
    #[tactic(auto, using(crate::proofs::EntryLemmas::length_kept))]
    fn gap_start(&self, place: u32) -> usize
        requires { place ≤ length self.now.tokens }
        ensures { result ≡ gap_start (mark_len self.now.text) self.now.tokens place }
    {
        if place == 0 {
            return if self.mark() { MARK.len() } else { 0 };
        }
        let before = self.entries[place as usize - 1];
        before.start as usize + before.len as usize
    }

    // Where the gap at a place ends.
    #[tactic(auto, using(crate::proofs::EntryLemmas::length_kept))]
    fn gap_end(&self, place: u32) -> usize
        requires { place ≤ length self.now.tokens }
        ensures { result ≡ gap_end (length self.now.text) self.now.tokens place }
    {
        if place as usize == self.entries.len() {
            return self.text.len();
        }
        self.entries[place as usize].start as usize
    }
}
