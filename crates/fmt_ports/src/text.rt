//! A sink that keeps a text in memory.

ghost use Rattle.std.specs.Prelude.{◌≡◌, [], Some, IfOk};

use crate::{Failed, Sink};
use std::alloc::{AllocError, Global};

/// Takes all bytes and tells them; it fails only where there is no memory for more.
#[derive(Drop)]
pub struct TextSink {
    text: Vec<u8>,
    faults: u64,
}

impl TextSink {
    /// An empty text, with room for so many bytes before more memory is taken.
    pub fn with_room(alloc: Global, room: usize) -> Result<TextSink, AllocError>
        ensures taken { IfOk result (λ sink. ⟦<TextSink as Sink>⟧.taken sink ≡ Some []) }
        ensures faults { IfOk result (λ sink. ⟦<TextSink as Sink>⟧.faults sink ≡ 0) }
    {
        Ok(TextSink {
            text: Vec::with_capacity(alloc, room)?,
            faults: 0,
        })
    }

    /// The bytes that it took.
    pub fn into_text(self) -> Vec<u8>
        ensures { ⟦<TextSink as Sink>⟧.taken self ≡ Some result.items }
    {
        self.text
    }
}

impl Sink for TextSink {
    ghost taken = { λ s. Some s.text.items };

    ghost faults = { λ s. s.faults };

    #[inline(always)]
    fn write(&mut self, bytes: &[u8]) -> Result<usize, Failed> {
        match self.text.extend_from_slice(bytes) {
            Ok(()) => Ok(bytes.len()),
            Err(_) => {
                self.faults = self.faults.saturating_add(1);
                Err(Failed)
            }
        }
    }
}
