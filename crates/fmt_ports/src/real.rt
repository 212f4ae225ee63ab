// The ends of the process. They count each error that they answer, and tell what the reader or
// writer inside tells: nothing, where it is a stream of the process.
ghost use Rattle.std.specs.Prelude.{◌≡◌};
ghost use Rattle.std.specs.Io.KnownBytes.{ReadConsumes, WriteAppends};
ghost use Rattle.std.specs.Io.{ReadsAtMost, WritesAtMost};

use crate::{Failed, Sink, Source};
use std::io::{ErrorKind, Read, Write};

// How often in a row a call is made that a signal interrupts, before it is an error.
const TRIES: u32 = 1000;

/// A reader, as standard input, as a source.
#[derive(Drop)]
pub struct RealIn<R> {
    inner: R,
    faults: u64,
}

/// A writer, as standard output, as a sink. A write that takes nothing is a fault.
#[derive(Drop)]
pub struct RealOut<W> {
    inner: W,
    faults: u64,
}

impl<R: Read> RealIn<R> {
    /// The source that reads from `inner`.
    pub fn new(inner: R) -> RealIn<R>
        ensures left { ⟦<RealIn<R> as Source>⟧.left result ≡ R.remaining inner }
        ensures faults { ⟦<RealIn<R> as Source>⟧.faults result ≡ 0 }
    {
        RealIn { inner, faults: 0 }
    }
}

// Reads, and again where a signal came between.
fn read_again<R: Read>(inner: &mut R, buf: &mut [u8]) -> Result<usize, Failed>
    ensures bound { ReadsAtMost result buf.new }
    ensures bytes { ReadConsumes (R.remaining inner.old) (R.remaining inner.new) result buf.new }
{
    for _turn in 0..TRIES {
        match inner.read(buf) {
            Ok(count) => return Ok(count),
            Err(error) if error.kind() == ErrorKind::Interrupted => {}
            Err(_) => return Err(Failed),
        }
    }
    Err(Failed)
}

impl<R: Read> Source for RealIn<R> {
    ghost left = { λ s. R.remaining s.inner };

    ghost faults = { λ s. s.faults };

    fn read(&mut self, buf: &mut [u8]) -> Result<usize, Failed> {
        match read_again(&mut self.inner, buf) {
            Ok(count) => Ok(count),
            Err(Failed) => {
                self.faults = self.faults.saturating_add(1);
                Err(Failed)
            }
        }
    }
}

impl<W: Write> RealOut<W> {
    /// The sink that writes to `inner`.
    pub fn new(inner: W) -> RealOut<W>
        ensures taken { ⟦<RealOut<W> as Sink>⟧.taken result ≡ W.contents inner }
        ensures faults { ⟦<RealOut<W> as Sink>⟧.faults result ≡ 0 }
    {
        RealOut { inner, faults: 0 }
    }
}

// Writes, and again where a signal came between.
fn write_again<W: Write>(inner: &mut W, bytes: &[u8]) -> Result<usize, Failed>
    ensures bound { WritesAtMost result bytes.now }
    ensures bytes { WriteAppends (W.contents inner.old) (W.contents inner.new) result bytes.now }
{
    for _turn in 0..TRIES {
        match inner.write(bytes) {
            Ok(count) => return Ok(count),
            Err(error) if error.kind() == ErrorKind::Interrupted => {}
            Err(_) => return Err(Failed),
        }
    }
    Err(Failed)
}

impl<W: Write> Sink for RealOut<W> {
    ghost taken = { λ s. W.contents s.inner };

    ghost faults = { λ s. s.faults };

    fn write(&mut self, bytes: &[u8]) -> Result<usize, Failed> {
        match write_again(&mut self.inner, bytes) {
            Ok(count) if count > 0 || bytes.is_empty() => Ok(count),
            _ => {
                self.faults = self.faults.saturating_add(1);
                Err(Failed)
            }
        }
    }
}
