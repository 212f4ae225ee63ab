//! A sink that compares what it takes with a text.

ghost use Rattle.std.specs.Prelude.{◌≡◌, ◌≢◌, ◌≤◌, ◌<◌, ◌↔◌, ℕ, List, [], Some, IsTrue, get_or, length, take, true};
ghost use Rattle.fmt_ports.specs.Same.{taken_of};

use crate::{Failed, Sink};
use std::marker::{Brand, PhantomData};

/// The text that a [`SameSink`] compares with. A call over any sink says nothing of that text, so the sink's type does.
pub(crate) trait Original {
    ghost original: { List ℕ };
}

impl Original for Brand {
    ghost original = { [] };
}

/// Takes the bytes of a text as long as they come, and then one byte that differs; each further call fails. So who
/// writes stops at the first difference. It takes no memory.
pub(crate) struct SameSink<'s, O: Original> {
    text: &'s [u8],
    at: usize,
    differs: bool,
    byte: u8,
    faults: u64,
    of: PhantomData<O>,
    ghost of_original: { text.now ≡ O.original },
    ghost within: { at ≤ length text.now },
    ghost other: { differs ≡ true → at < length text.now → get_or text.now at 0 ≢ byte },
    ghost failed: { 0 < faults → differs ≡ true },
}

impl<O: Original> Drop for SameSink<'_, O> {
    fn drop(self) {
        let SameSink {
            text: _,
            at: _,
            differs: _,
            byte: _,
            faults: _,
            of: _,
        } = self;
    }
}

impl<'s, O: Original> SameSink<'s, O> {
    /// Nothing is taken yet.
    pub(crate) fn new(text: &'s [u8]) -> SameSink<'s, O>
        requires { text.now ≡ O.original }
        ensures taken { ⟦<SameSink<'s, O> as Sink>⟧.taken result ≡ Some [] }
        ensures faults { ⟦<SameSink<'s, O> as Sink>⟧.faults result ≡ 0 }
    {
        SameSink {
            text,
            at: 0,
            differs: false,
            byte: 0,
            faults: 0,
            of: PhantomData,
        }
    }

    /// Whether what it took is the text.
    pub(crate) fn is_same(&self) -> bool
        ensures { IsTrue result ↔ (⟦<SameSink<'s, O> as Sink>⟧.taken self.now ≡ Some O.original) }
    {
        !self.differs && self.at == self.text.len()
    }
}

/// How many bytes at the front of two texts are the same, up to the first difference.
fn common_len(left: &[u8], right: &[u8]) -> usize
    ensures within { (result ≤ length left.now) × (result ≤ length right.now) }
    ensures same { take result left.now ≡ take result right.now }
    ensures differs { result < length left.now → result < length right.now →
        get_or left.now result 0 ≢ get_or right.now result 0 }
{
    if left.starts_with(right) {
        return right.len();
    }
    let most = left.len().min(right.len());
    for at in 0..most {
        if left[at] != right[at] {
            return at;
        }
    }
    most
}

impl<'s, O: Original> Sink for SameSink<'s, O> {
    ghost taken = { λ s. Some (taken_of s.text.now s.at s.differs s.byte) };

    ghost faults = { λ s. s.faults };

    fn write(&mut self, bytes: &[u8]) -> Result<usize, Failed> {
        if bytes.is_empty() {
            return Ok(0);
        }
        if self.differs {
            self.faults = self.faults.saturating_add(1);
            return Err(Failed);
        }
        let text = self.text;
        let count = common_len(&text[self.at..], bytes);
        if count == 0 {
            self.byte = bytes[0];
            self.differs = true;
            return Ok(1);
        }
        self.at += count;
        Ok(count)
    }
}
