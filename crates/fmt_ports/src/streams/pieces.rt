//! Small writes that are collected, and handed on in pieces.

ghost use Rattle.std.specs.Prelude.{◌≡◌, ◌≤◌, ◌<◌, ℕ, List, [], Option, None, IfOk, OnOk, length, take};
ghost use Rattle.std.specs.Io.{WritesAtMost};
ghost use Rattle.std.specs.Io.KnownBytes.{Appends, Keeps, WriteAppends};
ghost use Rattle.fmt_ports.specs.Causes.{AppendsPart, Counts};
ghost use Rattle.fmt_ports.specs.Taken.{Grows, taken_by};

use crate::streams::room::Room;
use crate::whole::write_most;
use crate::{Failed, Sink, Stream};
use std::alloc::Global;
use std::marker::{Brand, PhantomData};

/// A sink, and a room that collects small writes in front of it.
#[derive(Drop)]
struct Pieces<'k, K> {
    out: &'k mut K,
    room: &'k mut Room,
}

impl<'k, K: Sink> Pieces<'k, K> {
    fn new(out: &'k mut K, room: &'k mut Room) -> Pieces<'k, K>
        ensures same_sink { result.out.ghost_name ≡ out.entry.ghost_name }
        ensures out { result.out.now ≡ out.old }
        ensures room { result.room.now ≡ room.old }
    {
        Pieces { out, room }
    }

    /// Hands on what is held. What a failure leaves stays held.
    fn flush(&mut self) -> Result<(), Failed>
        ensures same_sink { self.new.out.ghost_name ≡ self.old.out.ghost_name }
        ensures empty { OnOk result (self.new.room.now ≡ []) }
        ensures bytes { Keeps (taken_by K.taken self.old) (taken_by K.taken self.new) }
        ensures grows { Grows (K.taken self.old.out.now) (K.taken self.new.out.now) }
        ensures counts { Counts (K.faults self.old.out.now) (K.faults self.new.out.now) result }
    {
        let (count, result) = write_most(self.out, self.room.held());
        self.room.remove(count);
        result
    }

    /// Takes bytes for which the room hasn't enough left.
    #[cold]
    #[inline(never)]
    fn add_behind(&mut self, bytes: &[u8]) -> Result<usize, Failed>
        ensures same_sink { self.new.out.ghost_name ≡ self.old.out.ghost_name }
        ensures bound { WritesAtMost result bytes.now }
        ensures some { 0 < length bytes.now → IfOk result (λ n. 0 < n) }
        ensures bytes { WriteAppends (taken_by K.taken self.old) (taken_by K.taken self.new) result bytes.now }
        ensures grows { Grows (K.taken self.old.out.now) (K.taken self.new.out.now) }
        ensures counts { Counts (K.faults self.old.out.now) (K.faults self.new.out.now) result }
    {
        self.flush()?;
        if self.room.try_add(bytes) {
            return Ok(bytes.len());
        }
        self.out.write(bytes)
    }

    /// Takes bytes for which what is ready of the room hasn't enough left.
    #[cold]
    #[inline(never)]
    fn add_widened(&mut self, bytes: &[u8]) -> Result<usize, Failed>
        ensures same_sink { self.new.out.ghost_name ≡ self.old.out.ghost_name }
        ensures bound { WritesAtMost result bytes.now }
        ensures some { 0 < length bytes.now → IfOk result (λ n. 0 < n) }
        ensures bytes { WriteAppends (taken_by K.taken self.old) (taken_by K.taken self.new) result bytes.now }
        ensures grows { Grows (K.taken self.old.out.now) (K.taken self.new.out.now) }
        ensures counts { Counts (K.faults self.old.out.now) (K.faults self.new.out.now) result }
    {
        self.room.widen(bytes.len());
        if self.room.try_add(bytes) {
            return Ok(bytes.len());
        }
        self.add_behind(bytes)
    }

    /// Takes bytes: into the room, where it has enough left.
    #[inline(always)]
    fn add(&mut self, bytes: &[u8]) -> Result<usize, Failed>
        ensures same_sink { self.new.out.ghost_name ≡ self.old.out.ghost_name }
        ensures bound { WritesAtMost result bytes.now }
        ensures some { 0 < length bytes.now → IfOk result (λ n. 0 < n) }
        ensures bytes { WriteAppends (taken_by K.taken self.old) (taken_by K.taken self.new) result bytes.now }
        ensures grows { Grows (K.taken self.old.out.now) (K.taken self.new.out.now) }
        ensures counts { Counts (K.faults self.old.out.now) (K.faults self.new.out.now) result }
    {
        if self.room.try_add(bytes) {
            return Ok(bytes.len());
        }
        self.add_widened(bytes)
    }

    /// Takes the first of some bytes, so many of them.
    #[inline(always)]
    fn add_front(&mut self, bytes: &[u8], count: usize) -> Result<usize, Failed>
        requires { count ≤ length bytes.now }
        ensures same_sink { self.new.out.ghost_name ≡ self.old.out.ghost_name }
        ensures bound { WritesAtMost result (take count bytes.now) }
        ensures some { 0 < count → IfOk result (λ n. 0 < n) }
        ensures bytes { WriteAppends (taken_by K.taken self.old) (taken_by K.taken self.new) result
            (take count bytes.now) }
        ensures grows { Grows (K.taken self.old.out.now) (K.taken self.new.out.now) }
        ensures counts { Counts (K.faults self.old.out.now) (K.faults self.new.out.now) result }
    {
        if self.room.try_add_front(bytes, count) {
            return Ok(count);
        }
        self.add_widened(&bytes[..count])
    }
}

/// Which sink stands behind [`Pieces`], and what it had taken at first. A call over any sink says nothing of that, so
/// the type of [`PieceSink`] does.
trait Behind {
    ghost name: { ℕ };

    ghost first: { Option (List ℕ) };
}

impl Behind for Brand {
    ghost name = { 0 };

    ghost first = { None };
}

/// Pieces in front of the sink that the type names.
struct PieceSink<'k, K: Sink, B: Behind> {
    pieces: Pieces<'k, K>,
    of: PhantomData<B>,
    ghost same_sink: { pieces.out.ghost_name ≡ B.name },
    ghost grows: { Grows B.first (K.taken pieces.out.now) },
}

impl<K: Sink, B: Behind> Drop for PieceSink<'_, K, B> {
    fn drop(self) {
        let PieceSink { pieces: _, of: _ } = self;
    }
}

impl<'k, K: Sink, B: Behind> PieceSink<'k, K, B> {
    fn into_pieces(self) -> Pieces<'k, K>
        ensures same_sink { result.out.ghost_name ≡ B.name }
        ensures grows { Grows B.first (K.taken result.out.now) }
        ensures pieces { result ≡ self.entry.pieces }
    {
        let PieceSink { pieces, of: _ } = self;
        pieces
    }
}

impl<K: Sink, B: Behind> Sink for PieceSink<'_, K, B> {
    ghost taken = { λ s. taken_by K.taken s.pieces };

    ghost faults = { λ s. K.faults s.pieces.out.now };

    #[inline(always)]
    fn write(&mut self, bytes: &[u8]) -> Result<usize, Failed> {
        self.pieces.add(bytes)
    }

    #[inline(always)]
    fn write_front(&mut self, bytes: &[u8], count: usize) -> Result<usize, Failed> {
        self.pieces.add_front(bytes, count)
    }
}

/// Writes a text into pieces that hold nothing, and hands all of it on. The type names the sink behind them.
fn write_through<'k, T: Stream, K: Sink, B: Behind>(
    text: &T,
    pieces: Pieces<'k, K>,
) -> (Pieces<'k, K>, Result<(), Failed>)
    requires name { pieces.out.ghost_name ≡ B.name }
    requires first { K.taken pieces.out.now ≡ B.first }
    requires empty { pieces.room.now ≡ [] }
    ensures same_sink { result.0.out.ghost_name ≡ pieces.entry.out.ghost_name }
    ensures ok { OnOk result.1
        (Appends (K.taken pieces.entry.out.now) (K.taken result.0.out.now) (T.bytes text.entry.now)) }
    ensures part { AppendsPart (K.taken pieces.entry.out.now) (K.taken result.0.out.now) (T.bytes text.entry.now) }
    ensures counts { Counts (K.faults pieces.entry.out.now) (K.faults result.0.out.now) result.1 }
{
    let mut sink = PieceSink::<K, B> {
        pieces,
        of: PhantomData,
    };
    let written = text.write(&mut sink);
    let mut pieces = sink.into_pieces();
    let result = match written {
        Ok(()) => pieces.flush(),
        Err(Failed) => Err(Failed),
    };
    (pieces, result)
}

/// Writes a text in pieces of [`PIECE`](crate::PIECE) bytes, however small the writes are of which it is made. It takes
/// memory for one piece; where that isn't there, the text is written as it is made. After `Failed` the sink took a
/// front of the text.
pub fn write_in_pieces<T: Stream, K: Sink>(
    alloc: Global,
    text: &T,
    sink: &mut K,
) -> Result<(), Failed>
    ensures ok { OnOk result (Appends (K.taken sink.old) (K.taken sink.new) (T.bytes text.now)) }
    ensures part { AppendsPart (K.taken sink.old) (K.taken sink.new) (T.bytes text.now) }
    ensures counts { Counts (K.faults sink.old) (K.faults sink.new) result }
{
    let mut room = Room::new(alloc);
    let pieces = Pieces::new(sink, &mut room);
    let (_, result) = write_through::<T, K, Brand>(text, pieces);
    result
}
