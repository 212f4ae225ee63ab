//! Why a text isn't formatted.

ghost use Rattle.std.specs.Prelude.{◌≡◌};
ghost use Rattle.format_core.specs.Faults.{fault_of};
ghost use Rattle.format_core.specs.declared.fault.FormatFault.TheVariants as FormatFault;

use c_chars::LIMIT;
use line_tokens::NoMemory;
use token_arena::ArenaFault;

/// Why a text isn't formatted.
#[derive(Clone, Copy)]
pub enum FormatFault {
    /// The text is within the limit, and a block comment that nothing ends begins at this offset (C11 6.4.9).
    UnterminatedComment { start: u32 },
    /// The text has more than [`LIMIT`] bytes; it has this many.
    TooLarge { bytes: u64 },
    /// Memory ran out.
    NoMemory,
}

impl From<ArenaFault> for FormatFault {
    ghost from_gives = { λ fault result. result ≡ fault_of fault };

    fn from(fault: ArenaFault) -> Self {
        match fault {
            ArenaFault::UnterminatedComment { start } => FormatFault::UnterminatedComment { start },
            ArenaFault::TooLarge { bytes } => FormatFault::TooLarge { bytes },
            ArenaFault::NoMemory => FormatFault::NoMemory,
        }
    }
}

impl From<NoMemory> for FormatFault {
    ghost from_gives = { λ _ result. result ≡ FormatFault.NoMemory };

    fn from(_: NoMemory) -> Self {
        FormatFault::NoMemory
    }
}
