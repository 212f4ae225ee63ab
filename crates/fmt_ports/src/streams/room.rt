//! Room for bytes that are collected.

ghost use Rattle.std.specs.Prelude.{◌≡◌, ◌≤◌, ℕ, List, [], ◌++◌, IsFalse, IsTrue, drop, length, take};
ghost use Rattle.std.specs.List.{slice_range};

use std::alloc::{AllocError, Global};
use std::marker::Model;

/// How many bytes a piece has at most, a single write of more aside: what a pipe holds.
pub const PIECE: usize = 65_536;

/// What a room is widened by: a page of memory.
const STEP: [u8; 4096] = [0; 4096];

/// Room for a piece. Contracts see the bytes that it holds.
#[derive(Drop)]
pub(crate) struct Room {
    // What is ready. Memory is reserved for a piece.
    bytes: Vec<u8>,
    // The bytes from `sent` up to `end` are held.
    sent: usize,
    end: usize,
}

impl Model for Room {
    ghost Value = { List ℕ };

    ghost view = { λ room. slice_range room.bytes.items room.sent room.end };

    ghost invariant = { λ room. (room.sent ≤ room.end) × (room.end ≤ length room.bytes.items) };
}

/// Makes so many bytes ready behind a place, page by page, as far as memory is reserved.
fn make_ready(bytes: &mut Vec<u8>, end: usize, count: usize)
    requires { end ≤ length bytes.old.items }
    ensures within { end ≤ length bytes.new.items }
    ensures same { (sent : ℕ) → sent ≤ end →
        slice_range bytes.new.items sent end ≡ slice_range bytes.old.items sent end }
{
    for _page in 0..PIECE / STEP.len() {
        if count <= bytes.len() - end {
            return;
        }
        let left = bytes.capacity() - bytes.len();
        let _ = bytes.extend_from_slice(&STEP[..left.min(STEP.len())]);
    }
}

impl Room {
    /// Holds nothing. Where memory ran out it has no place for any byte.
    pub(crate) fn new(alloc: Global) -> Room
        ensures { result ≡ [] }
    {
        let bytes = match Vec::with_capacity(alloc, PIECE) {
            Ok(bytes) => bytes,
            Err(AllocError) => Vec::new(alloc),
        };
        Room {
            bytes,
            sent: 0,
            end: 0,
        }
    }

    /// The bytes that it holds.
    pub(crate) fn held(&self) -> &[u8]
        ensures { result.now ≡ self.now }
    {
        &self.bytes[self.sent..self.end]
    }

    /// Makes so many bytes more ready behind those that it holds, as far as memory is reserved. What isn't ready isn't
    /// touched, so that a short text touches little memory.
    pub(crate) fn widen(&mut self, count: usize)
        ensures { self.new ≡ self.old }
    {
        make_ready(&mut self.bytes, self.end, count);
    }

    /// Takes bytes, all where they find room behind those that it holds, and none otherwise.
    #[inline(always)]
    pub(crate) fn try_add(&mut self, bytes: &[u8]) -> bool
        ensures added { IsTrue result → self.new ≡ self.old ++ bytes.now }
        ensures kept { IsFalse result → self.new ≡ self.old }
    {
        self.try_add_front(bytes, bytes.len())
    }

    /// Takes the first of some bytes, so many of them, where all find room behind those that it holds, and none
    /// otherwise. All are copied, which is quicker where it is known how many these are.
    #[inline(always)]
    pub(crate) fn try_add_front(&mut self, bytes: &[u8], count: usize) -> bool
        requires { count ≤ length bytes.now }
        ensures added { IsTrue result → self.new ≡ self.old ++ take count bytes.now }
        ensures kept { IsFalse result → self.new ≡ self.old }
    {
        let end = self.end;
        if bytes.len() > self.bytes.len() - end {
            return false;
        }
        self.bytes[end..end + bytes.len()].copy_from_slice(bytes);
        self.end = end + count;
        true
    }

    /// Gives up the first of the bytes.
    pub(crate) fn remove(&mut self, count: usize)
        requires { count ≤ length self.old }
        ensures { self.new ≡ drop count self.old }
    {
        self.sent += count;
        if self.sent == self.end {
            self.sent = 0;
            self.end = 0;
        }
    }
}
