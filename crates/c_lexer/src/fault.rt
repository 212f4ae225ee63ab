//! Why no item is read.

ghost use Rattle.std.specs.Prelude.{◌≡◌};
ghost use Rattle.c_lexer.specs.Fault.{fault_of};

use crate::cut::Stop;
use thiserror::Error;

/// Why no item is read. What is left stays as it was, so the next call gives the same fault.
#[derive(Clone, Copy, Debug, PartialEq, Eq, Error)]
pub enum LexFault {
    /// A block comment begins at this offset, and nothing ends it (C11 6.4.9).
    #[error("the comment at byte {start} doesn't end")]
    UnterminatedComment { start: u32 },
}

/// Why no item is cut off at this offset.
pub(crate) fn fault_of(stop: Stop, start: u32) -> LexFault
    ensures { result ≡ fault_of stop start }
{
    match stop {
        Stop::Unterminated => LexFault::UnterminatedComment { start },
    }
}
