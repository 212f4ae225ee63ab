//! Why a text has no arena.

ghost use Rattle.std.specs.Prelude.{◌≡◌};
ghost use Rattle.token_arena.specs.declared.fault.ArenaFault.TheVariants as ArenaFault;

use c_lexer::LIMIT;
use std::alloc::{AllocError, AllocFailed};
use thiserror::Error;

/// Why [`build`](crate::build) made no arena.
#[derive(Clone, Copy, Debug, PartialEq, Eq, Error)]
pub enum ArenaFault {
    /// The text is within the limit, and a block comment that nothing ends begins at this offset (C11 6.4.9).
    #[error("comment without an end at byte {start}")]
    UnterminatedComment { start: u32 },
    /// The text has more than [`LIMIT`] bytes; it has this many.
    #[error("{bytes} bytes, more than {LIMIT}")]
    TooLarge { bytes: u64 },
    /// Memory ran out.
    #[error("no memory")]
    NoMemory,
}

impl From<AllocError> for ArenaFault {
    ghost from_gives = { λ _ fault. fault ≡ ArenaFault.NoMemory };

    fn from(_: AllocError) -> Self {
        ArenaFault::NoMemory
    }
}

impl<T: Drop> From<AllocFailed<T>> for ArenaFault {
    ghost from_gives = { λ _ fault. fault ≡ ArenaFault.NoMemory };

    fn from(_: AllocFailed<T>) -> Self {
        ArenaFault::NoMemory
    }
}
