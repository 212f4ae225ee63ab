// Files by their names.
ghost use Rattle.std.specs.Prelude.{ℕ, List, Option};
ghost use Rattle.fmt_ports.specs.Files.{FileCounts, Finds, KeepsAll, KeepsOthers, Reads, Writes};

use thiserror::Error;

/// Why a file can't be had or written.
#[derive(Clone, Copy, Debug, PartialEq, Eq, Error)]
pub enum FileFault {
    /// No file has the name.
    #[error("missing")]
    Missing,
    /// A call on the file failed.
    #[error("failed")]
    Failed,
    /// The file has more bytes than the limit.
    #[error("too long")]
    TooLong,
    /// There is not enough memory.
    #[error("out of memory")]
    NoMemory,
}

/// Files that are read and written whole.
pub trait Files {
    /// The bytes under each name, where they are told.
    ghost holds: { Self → Option (List ℕ → Option (List ℕ)) };

    /// How often a call has failed; the count stays at its last value, 2^64 - 1.
    ghost faults: { Self → ℕ };

    /// How often a read has met a name that isn't held; the count stays at its last value.
    ghost misses: { Self → ℕ };

    /// The bytes of a file, if they are no more than `limit`.
    fn read(&mut self, name: &str, limit: u64) -> Result<Vec<u8>, FileFault>
        ensures bytes { Reads (holds self.old) name.now limit result }
        ensures same { KeepsAll (holds self.old) (holds self.new) }
        ensures counts { FileCounts (faults self.old) (faults self.new) (misses self.old) (misses self.new) result };

    /// The same, with `None` for a name that isn't held: then no count rises.
    fn find(&mut self, name: &str, limit: u64) -> Result<Option<Vec<u8>>, FileFault>
        ensures bytes { Finds (holds self.old) name.now limit result }
        ensures same { KeepsAll (holds self.old) (holds self.new) }
        ensures counts { FileCounts (faults self.old) (faults self.new) (misses self.old) (misses self.new) result };

    /// Writes a file whole; it is made where there is none. After `Failed` that file is unknown,
    /// and after `NoMemory` all is as before. It answers nothing else.
    fn write(&mut self, name: &str, bytes: &[u8]) -> Result<(), FileFault>
        ensures bytes { Writes (holds self.old) (holds self.new) name.now bytes.now result }
        ensures others { KeepsOthers name.now (holds self.old) (holds self.new) }
        ensures counts { FileCounts (faults self.old) (faults self.new) (misses self.old) (misses self.new) result };
}
