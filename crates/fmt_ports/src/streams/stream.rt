//! Texts that are written gap by gap, and what is done with them without making them in memory.

ghost use Rattle.std.specs.Prelude.{◌≡◌, ◌↔◌, ℕ, List, IfOk, IsTrue, OnOk};
ghost use Rattle.std.specs.Io.KnownBytes.{Appends};
ghost use Rattle.fmt_ports.specs.Causes.{AppendsPart, Counts};

use crate::streams::same::{Original, SameSink};
use crate::{Failed, Sink, TextSink};
use std::alloc::{AllocError, Global};
use std::marker::Brand;

/// A text that is written to any sink, and needn't be in memory.
pub trait Stream {
    /// Its bytes.
    ghost bytes: { Self → List ℕ };

    /// Writes it. It takes no memory; after `Failed` the sink took a front of it.
    fn write<K: Sink>(&self, sink: &mut K) -> Result<(), Failed>
        ensures ok { OnOk result (Appends (K.taken sink.old) (K.taken sink.new) (bytes self.now)) }
        ensures part { AppendsPart (K.taken sink.old) (K.taken sink.new) (bytes self.now) }
        ensures counts { Counts (K.faults sink.old) (K.faults sink.new) result };
}

/// Compares with the text that the type names.
fn compare<T: Stream, O: Original>(text: &T, original: &[u8]) -> bool
    requires { original.now ≡ O.original }
    ensures { IsTrue result ↔ (T.bytes text.now ≡ O.original) }
{
    let mut sink = SameSink::<O>::new(original);
    match text.write(&mut sink) {
        Ok(()) => sink.is_same(),
        Err(Failed) => false,
    }
}

/// Whether a text is the same as bytes in memory. It takes no memory, and ends at the first difference.
pub fn is_same<T: Stream>(text: &T, original: &[u8]) -> bool
    ensures { IsTrue result ↔ (T.bytes text.now ≡ original.now) }
{
    compare::<T, Brand>(text, original)
}

/// The bytes of a text, with room for so many before more memory is taken.
pub fn bytes_of<T: Stream>(alloc: Global, text: &T, room: usize) -> Result<Vec<u8>, AllocError>
    ensures { IfOk result (λ made. made.items ≡ T.bytes text.now) }
{
    let mut sink = TextSink::with_room(alloc, room)?;
    match text.write(&mut sink) {
        Ok(()) => Ok(sink.into_text()),
        Err(Failed) => Err(AllocError),
    }
}
