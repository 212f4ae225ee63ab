//! What is noted for the items with which parts begin.

ghost use Rattle.std.specs.Prelude.{◌≡◌, ◌<◌, ◌≤◌, length, replicate, slice_set, get_or, IfOk, IfSome, OnErr, OnOk};
ghost use Rattle.std.specs.Bool.{OnFalse, OnTrue};
ghost use Rattle.view_parts.specs.declared.known.KnownEnd.TheVariants.{Unknown};
ghost use Rattle.view_parts.specs.declared.notes.Note.{Note};
ghost use Rattle.view_parts.specs.Notes.{Fall, note_of};

use crate::known::KnownEnd;
use bumpalo::Bump;
use line_tokens::{NoMemory, TokenId};
use std::marker::Model;

/// What is noted for an item.
#[derive(Clone, Copy)]
pub(crate) struct Note {
    /// The item.
    pub id: u32,
    /// The place behind the note of its block before this one, or 0.
    pub before: u32,
    /// What is known of the part that begins with it.
    pub end: KnownEnd,
}

/// How many items a block has.
const BLOCK_LEN: usize = 16;

/// What is known of where parts end, for each item of a text with which one may begin, or for none where nothing is to
/// be kept. Few items begin a part, so four bytes are taken for a block of items, and twenty for each note. The notes
/// of a block are a chain from the newest one back: an item has one at most, so none is longer than its block.
/// Contracts see what is known for each item.
#[derive(Drop)]
pub struct KnownEnds<'k> {
    /// How many items there are.
    count: usize,
    /// For each block the place behind its newest note, or 0.
    newest: Vec<u32, &'k Bump>,
    notes: Vec<Note, &'k Bump>,
}

impl<'k> Model for KnownEnds<'k> {
    ghost use Rattle.std.specs.Prelude.{List};
    ghost use Rattle.view_parts.specs.declared.known.KnownEnd.{KnownEnd};
    ghost use Rattle.view_parts.specs.Notes.{AreChains, known_ends};

    ghost Value = { List KnownEnd };

    ghost view = { λ known. known_ends known.notes.items known.newest.items known.count };

    ghost invariant = { λ known. AreChains known.notes.items known.newest.items known.count };
}

/// Which note of a chain is that of an item, if one is. The newest stands before the place `newest`.
#[inline(always)]
fn note_of(notes: &[Note], id: u32, newest: u32) -> Option<usize>
    requires within { newest ≤ length notes.now }
    requires fall { Fall notes.now }
    ensures found { result ≡ note_of notes.now id newest }
    ensures within { IfSome result (λ at. at < length notes.now) }
    ensures own { IfSome result (λ at. (d : Note) → (get_or notes.now at d).id ≡ id) }
{
    let mut place = newest;
    while place > 0 {
        let at = place as usize - 1;
        let note = &notes[at];
        if note.id == id {
            return Some(at);
        }
        place = note.before;
    }
    None
}

impl<'k> KnownEnds<'k> {
    /// Nothing is known of the parts of a text with so many items. Want of memory is the only error.
    pub fn none(items: usize, keep: &'k Bump) -> Result<KnownEnds<'k>, NoMemory>
        ensures { IfOk result (λ known. known ≡ replicate items Unknown) }
    {
        Ok(KnownEnds {
            count: items,
            newest: vec![in keep; 0; items.div_ceil(BLOCK_LEN)]?,
            notes: Vec::new(keep),
        })
    }

    /// Whether it has a place for what is noted for an item.
    #[inline(always)]
    pub(crate) fn has_place(&self, id: TokenId) -> bool
        ensures yes { OnTrue result (id.0 < length self.now) }
        ensures no { OnFalse result (length self.now ≤ id.0) }
    {
        (id.0 as usize) < self.count
    }

    /// What is noted for an item, or nothing.
    #[inline(always)]
    pub(crate) fn get(&self, id: TokenId) -> KnownEnd
        ensures { result ≡ get_or self.now id.0 Unknown }
    {
        if !self.has_place(id) {
            return KnownEnd::Unknown;
        }
        let newest = self.newest[id.0 as usize / BLOCK_LEN];
        match note_of(self.notes.as_slice(), id.0, newest) {
            Some(at) => self.notes[at].end,
            None => KnownEnd::Unknown,
        }
    }

    /// Notes it for an item in place of what is noted for it. The result tells whether anything is.
    #[inline(always)]
    pub(crate) fn replace(&mut self, id: TokenId, end: KnownEnd) -> bool
        requires { id.0 < length self.old }
        ensures yes { OnTrue result (self.new ≡ slice_set self.old id.0 end) }
        ensures no { OnFalse result (self.new ≡ self.old) }
        ensures none { OnFalse result (get_or self.old id.0 Unknown ≡ Unknown) }
    {
        let newest = self.newest[id.0 as usize / BLOCK_LEN];
        let Some(at) = note_of(self.notes.as_slice(), id.0, newest) else {
            return false;
        };
        self.notes[at].end = end;
        true
    }

    /// Notes it for an item.
    pub(crate) fn set(&mut self, id: TokenId, end: KnownEnd) -> Result<(), NoMemory>
        requires { id.0 < length self.old }
        ensures set { OnOk result (self.new ≡ slice_set self.old id.0 end) }
        ensures same { OnErr result (self.new ≡ self.old) }
    {
        if self.replace(id, end) {
            return Ok(());
        }
        if let KnownEnd::Unknown = end {
            return Ok(());
        }
        let count = self.notes.len();
        if count >= u32::MAX as usize {
            return Err(NoMemory);
        }
        let block = id.0 as usize / BLOCK_LEN;
        self.notes.push(Note {
            id: id.0,
            before: self.newest[block],
            end,
        })?;
        self.newest[block] = count as u32 + 1;
        Ok(())
    }
}
