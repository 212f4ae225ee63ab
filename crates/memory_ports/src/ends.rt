// Ends in memory. They tell their bytes, and fail at the calls whose numbers they are given.
ghost use Rattle.std.specs.Prelude.{◌≡◌, ◌≤◌, ◌<◌, ◌↔◌, [], Some, length, drop, IfOk, IsErr};
ghost use Rattle.std.specs.Io.{ReadsAtMost, WritesAtMost};
ghost use Rattle.std.specs.Io.KnownBytes.{ReadConsumes, WriteAppends};
ghost use Rattle.fmt_ports.specs.Causes.{Counts};
ghost use Rattle.memory_ports.specs.Calls.{IsToFail, SinkState, SourceState, after_call, calls_to_make};

use crate::plan::Plan;
use fmt_ports::{Failed, Sink, Source};
use std::alloc::Global;
use std::marker::Model;

/// Bytes in memory, as a source.
#[derive(Drop)]
pub struct MemSource {
    bytes: Vec<u8>,
    at: usize,
    faults: u64,
    plan: Plan,
}

impl Model for MemSource {
    ghost Value = { SourceState };

    ghost view = { λ s. record { left = drop s.at s.bytes.items; faults = s.faults; calls = s.plan } };

    ghost invariant = { λ s. s.at ≤ length s.bytes.items };
}

/// A list of bytes in memory, as a sink. A write that finds no memory fails.
#[derive(Drop)]
pub struct MemSink {
    taken: Vec<u8>,
    faults: u64,
    plan: Plan,
}

impl Model for MemSink {
    ghost Value = { SinkState };

    ghost view = { λ s. record { taken = s.taken.items; faults = s.faults; calls = s.plan } };
}

impl MemSource {
    /// Gives these bytes, and fails at the calls with these numbers, counted from 1.
    pub fn new(bytes: Vec<u8>, fail: Vec<u64>) -> MemSource
        ensures { result ≡ record { left = bytes.items; faults = 0; calls = calls_to_make fail.items } }
    {
        MemSource {
            bytes,
            at: 0,
            faults: 0,
            plan: Plan::new(fail),
        }
    }
}

impl Source for MemSource {
    ghost left = { λ s. Some s.left };

    ghost faults = { λ s. s.faults };

    fn read(&mut self, buf: &mut [u8]) -> Result<usize, Failed>
        ensures bound { ReadsAtMost result buf.new }
        ensures bytes { ReadConsumes (Some self.old.left) (Some self.new.left) result buf.new }
        ensures counts { Counts self.old.faults self.new.faults result }
        ensures planned { IsErr result ↔ IsToFail self.old.calls }
        ensures counted { self.new.calls ≡ after_call self.old.calls }
    {
        if self.plan.next_fails() {
            self.faults = self.faults.saturating_add(1);
            return Err(Failed);
        }
        let rest = &self.bytes[self.at..];
        let count = rest.len().min(buf.len());
        buf[..count].copy_from_slice(&rest[..count]);
        self.at += count;
        Ok(count)
    }
}

impl MemSink {
    /// Takes all bytes, and fails at the calls with these numbers, counted from 1.
    pub fn new(alloc: Global, fail: Vec<u64>) -> MemSink
        ensures { result ≡ record { taken = []; faults = 0; calls = calls_to_make fail.items } }
    {
        MemSink {
            taken: Vec::new(alloc),
            faults: 0,
            plan: Plan::new(fail),
        }
    }

    /// The bytes taken so far.
    pub fn taken(&self) -> &[u8]
        ensures { result.now ≡ self.now.taken }
    {
        self.taken.as_slice()
    }
}

impl Sink for MemSink {
    ghost taken = { λ s. Some s.taken };

    ghost faults = { λ s. s.faults };

    fn write(&mut self, bytes: &[u8]) -> Result<usize, Failed>
        ensures bound { WritesAtMost result bytes.now }
        ensures some { 0 < length bytes.now → IfOk result (λ n. 0 < n) }
        ensures bytes { WriteAppends (Some self.old.taken) (Some self.new.taken) result bytes.now }
        ensures counts { Counts self.old.faults self.new.faults result }
        ensures planned { IsToFail self.old.calls → IsErr result }
        ensures counted { self.new.calls ≡ after_call self.old.calls }
    {
        if self.plan.next_fails() || self.taken.extend_from_slice(bytes).is_err() {
            self.faults = self.faults.saturating_add(1);
            return Err(Failed);
        }
        Ok(bytes.len())
    }
}
