//! Why the events of a text aren't told.

ghost use Rattle.std.specs.Prelude.{◌≡◌};
ghost use Rattle.pp_text.specs.declared.fault.EventsFault.TheVariants as EventsFault;

use c_chars::LIMIT;
use std::alloc::{AllocError, AllocFailed};
use thiserror::Error;

/// Why the events of a text aren't told.
#[derive(Clone, Copy, Debug, PartialEq, Eq, Error)]
pub enum EventsFault {
    /// The text, or one that it includes, has more than [`LIMIT`] bytes.
    #[error("more than {LIMIT} bytes")]
    TooLarge,
    /// Memory ran out.
    #[error("no memory")]
    NoMemory,
}

impl From<AllocError> for EventsFault {
    ghost from_gives = { λ _ result. result ≡ EventsFault.NoMemory };

    fn from(_: AllocError) -> Self {
        EventsFault::NoMemory
    }
}

impl<T: Drop> From<AllocFailed<T>> for EventsFault {
    ghost from_gives = { λ _ result. result ≡ EventsFault.NoMemory };

    fn from(_: AllocFailed<T>) -> Self {
        EventsFault::NoMemory
    }
}
