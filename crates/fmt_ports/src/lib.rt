//! The ports of the formatter: the only way in and out.
//!
//! Bytes come from a `Source` and go to a `Sink`. Each tells its bytes, where it knows them, and
//! counts its faults: a call answers `Failed` only where the count rose, and every other answer
//! leaves the count as it was. So a caller who keeps the count knows whether anything outside
//! failed. The ends of the process pass on what the reader or writer inside tells.
//!
//! A [`Stream`] is a text that writes itself and needn't be in memory; [`write_in_pieces`] gives it
//! to a sink, and [`is_same`] compares it with bytes.
#![tactic(auto)]

mod beside;
mod files;
mod name;
mod real;
mod real_files;
mod streams;
mod text;
mod whole;
mod write_back;

ghost use Rattle.std.specs.Prelude.{◌≤◌, ◌<◌, ℕ, List, Option, length, take, IfOk};
ghost use Rattle.std.specs.Io.{ReadsAtMost, WritesAtMost};
ghost use Rattle.std.specs.Io.KnownBytes.{ReadConsumes, WriteAppends};
ghost use Rattle.fmt_ports.specs.Causes.{Counts};

pub use files::{FileFault, Files};
pub use name::Name;
pub use real::{RealIn, RealOut};
pub use real_files::RealFiles;
pub use streams::{PIECE, Stream, bytes_of, is_same, write_in_pieces};
pub use text::TextSink;
use thiserror::Error;
pub use whole::{BUFFER, InFault, read_all, write_all, write_front};

/// A call on the outside failed.
#[derive(Clone, Copy, Debug, PartialEq, Eq, Error)]
#[error("failed")]
pub struct Failed;

/// Where bytes come from.
pub trait Source {
    /// The bytes still to come, where they are told.
    ghost left: { Self → Option (List ℕ) };

    /// How often a call has failed; the count stays at its last value, 2^64 - 1.
    ghost faults: { Self → ℕ };

    /// Puts the next bytes into the front of `buf` and answers how many. None, where `buf` has
    /// room for one, is the end. After `Failed` nothing was taken.
    fn read(&mut self, buf: &mut [u8]) -> Result<usize, Failed>
        ensures bound { ReadsAtMost result buf.new }
        ensures bytes { ReadConsumes (left self.old) (left self.new) result buf.new }
        ensures counts { Counts (faults self.old) (faults self.new) result };
}

/// Where bytes go.
pub trait Sink {
    /// The bytes taken so far, where they are told.
    ghost taken: { Self → Option (List ℕ) };

    /// How often a call has failed; the count stays at its last value, 2^64 - 1.
    ghost faults: { Self → ℕ };

    /// Takes the first of the bytes and answers how many, at least one where there is one. After
    /// `Failed` nothing was taken.
    fn write(&mut self, bytes: &[u8]) -> Result<usize, Failed>
        ensures bound { WritesAtMost result bytes.now }
        ensures some { 0 < length bytes.now → IfOk result (λ n. 0 < n) }
        ensures bytes { WriteAppends (taken self.old) (taken self.new) result bytes.now }
        ensures counts { Counts (faults self.old) (faults self.new) result };

    /// The same for the first of some bytes, so many of them. A sink that copies bytes may copy more than it takes,
    /// which is quicker where it is known how many it copies.
    #[inline(always)]
    fn write_front(&mut self, bytes: &[u8], count: usize) -> Result<usize, Failed>
        requires { count ≤ length bytes.now }
        ensures bound { WritesAtMost result (take count bytes.now) }
        ensures some { 0 < count → IfOk result (λ n. 0 < n) }
        ensures bytes { WriteAppends (taken self.old) (taken self.new) result (take count bytes.now) }
        ensures counts { Counts (faults self.old) (faults self.new) result }
    {
        self.write(&bytes[..count])
    }
}
