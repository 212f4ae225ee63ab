// Why a configuration can't be read.
ghost use Rattle.std.specs.Prelude.{◌≡◌};
ghost use Rattle.style_config.specs.declared.fault.ConfigFault.TheVariants as Fault;

use std::alloc::{AllocError, AllocFailed};
use thiserror::Error;

/// Why a configuration can't be read. Lines count from 1. The text that isn't UTF-8 comes first,
/// then the first line at fault; at one line the faults come in this order: a bad line, a repeated
/// key, an unknown style, a bad value, a number out of its range.
#[derive(Clone, Copy, Debug, PartialEq, Eq, Error)]
pub enum ConfigFault {
    /// The text isn't UTF-8, first at the byte with this offset.
    #[error("not UTF-8 at byte {offset}")]
    NotUtf8 { offset: u32 },
    /// The line has none of the forms of a line.
    #[error("{line}: bad line")]
    BadLine { line: u32 },
    /// `BasedOnStyle` names no style.
    #[error("{line}: unknown style")]
    UnknownStyle { line: u32 },
    /// The key takes no such value.
    #[error("{line}: bad value")]
    BadValue { line: u32 },
    /// The number is outside the key's range.
    #[error("{line}: out of range")]
    OutOfRange { line: u32 },
    /// The key stood before in its document.
    #[error("{line}: repeated key")]
    Repeated { line: u32 },
    /// There is not enough memory.
    #[error("out of memory")]
    NoMemory,
}

impl From<AllocError> for ConfigFault {
    ghost from_gives = { λ _ fault. fault ≡ Fault.NoMemory };

    fn from(_: AllocError) -> ConfigFault {
        ConfigFault::NoMemory
    }
}

impl<T: Drop> From<AllocFailed<T>> for ConfigFault {
    ghost from_gives = { λ _ fault. fault ≡ Fault.NoMemory };

    fn from(_: AllocFailed<T>) -> ConfigFault {
        ConfigFault::NoMemory
    }
}
