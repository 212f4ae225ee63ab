// Files in memory. They tell their bytes, and fail at the calls whose numbers they are given.
ghost use Rattle.std.specs.Prelude.{◌≡◌, ◌↔◌, Err, None, Some, OnErr, OnOk, List, ℕ};
ghost use Rattle.std.specs.Option.{option_map};
ghost use Rattle.fmt_ports.specs.declared.files.FileFault.TheVariants.{Failed};
ghost use Rattle.fmt_ports.specs.Files.{FileCounts, Finds, KeepsAll, KeepsOthers, Reads, Writes};
ghost use Rattle.memory_ports.specs.Calls.{IsToFail, after_call, calls_to_make};
ghost use Rattle.memory_ports.specs.Files.{CopiesWithin, bytes_under, calls_of};

use crate::plan::Plan;
use fmt_ports::{FileFault, Files};
use std::alloc::{AllocError, Global};
use std::collections::BTreeMap;

/// Files in memory.
#[derive(Drop)]
pub struct MemFiles {
    alloc: Global,
    held: BTreeMap<String, Vec<u8>>,
    faults: u64,
    misses: u64,
    plan: Plan,
}

impl MemFiles {
    /// No files; fails at the calls with these numbers, counted from 1.
    pub fn new(alloc: Global, fail: Vec<u64>) -> MemFiles
        ensures empty { (name : List ℕ) → bytes_under result name ≡ None }
        ensures faults { ⟦<MemFiles as Files>⟧.faults result ≡ 0 }
        ensures misses { ⟦<MemFiles as Files>⟧.misses result ≡ 0 }
        ensures calls { calls_of result ≡ calls_to_make fail.items }
    {
        MemFiles {
            alloc,
            held: BTreeMap::new(alloc),
            faults: 0,
            misses: 0,
            plan: Plan::new(fail),
        }
    }

    /// Adds or replaces a file. It isn't counted as a call, and after an error all is as before.
    pub fn put(&mut self, name: &str, bytes: &[u8]) -> Result<(), AllocError>
        ensures held { OnOk result (bytes_under self.new name.now ≡ Some bytes.now) }
        ensures others { KeepsOthers name.now (Some (bytes_under self.old)) (Some (bytes_under self.new)) }
        ensures err { OnErr result (KeepsAll (Some (bytes_under self.old)) (Some (bytes_under self.new))) }
        ensures faults { ⟦<MemFiles as Files>⟧.faults self.new ≡ ⟦<MemFiles as Files>⟧.faults self.old }
        ensures misses { ⟦<MemFiles as Files>⟧.misses self.new ≡ ⟦<MemFiles as Files>⟧.misses self.old }
        ensures calls { calls_of self.new ≡ calls_of self.old }
    {
        let name = String::from_str(self.alloc, name)?;
        let bytes = bytes.to_vec(self.alloc)?;
        self.held.insert(name, bytes)?;
        Ok(())
    }

    /// The bytes of a file.
    pub fn held(&self, name: &str) -> Option<&[u8]>
        ensures { option_map (λ bytes. bytes.now) result ≡ bytes_under self.now name.now }
    {
        match self.held.get(name) {
            Some(bytes) => Some(bytes.as_slice()),
            None => None,
        }
    }
}

impl Files for MemFiles {
    ghost holds = { λ s. Some (bytes_under s) };

    ghost faults = { λ s. s.faults };

    ghost misses = { λ s. s.misses };

    fn read(&mut self, name: &str, limit: u64) -> Result<Vec<u8>, FileFault>
        ensures bytes { Reads (Some (bytes_under self.old)) name.now limit result }
        ensures same { KeepsAll (Some (bytes_under self.old)) (Some (bytes_under self.new)) }
        ensures counts { FileCounts self.old.faults self.new.faults self.old.misses self.new.misses result }
        ensures planned { (result ≡ Err Failed) ↔ IsToFail (calls_of self.old) }
        ensures counted { calls_of self.new ≡ after_call (calls_of self.old) }
    {
        if self.plan.next_fails() {
            self.faults = self.faults.saturating_add(1);
            return Err(FileFault::Failed);
        }
        let Some(bytes) = self.held.get(name) else {
            self.misses = self.misses.saturating_add(1);
            return Err(FileFault::Missing);
        };
        copy_within(self.alloc, bytes, limit)
    }

    fn find(&mut self, name: &str, limit: u64) -> Result<Option<Vec<u8>>, FileFault>
        ensures bytes { Finds (Some (bytes_under self.old)) name.now limit result }
        ensures same { KeepsAll (Some (bytes_under self.old)) (Some (bytes_under self.new)) }
        ensures counts { FileCounts self.old.faults self.new.faults self.old.misses self.new.misses result }
        ensures planned { (result ≡ Err Failed) ↔ IsToFail (calls_of self.old) }
        ensures counted { calls_of self.new ≡ after_call (calls_of self.old) }
    {
        if self.plan.next_fails() {
            self.faults = self.faults.saturating_add(1);
            return Err(FileFault::Failed);
        }
        let Some(bytes) = self.held.get(name) else {
            return Ok(None);
        };
        match copy_within(self.alloc, bytes, limit) {
            Ok(copy) => Ok(Some(copy)),
            Err(fault) => Err(fault),
        }
    }

    fn write(&mut self, name: &str, bytes: &[u8]) -> Result<(), FileFault>
        ensures bytes { Writes (Some (bytes_under self.old)) (Some (bytes_under self.new)) name.now bytes.now result }
        ensures others { KeepsOthers name.now (Some (bytes_under self.old)) (Some (bytes_under self.new)) }
        ensures counts { FileCounts self.old.faults self.new.faults self.old.misses self.new.misses result }
        ensures planned { (result ≡ Err Failed) ↔ IsToFail (calls_of self.old) }
        ensures counted { calls_of self.new ≡ after_call (calls_of self.old) }
    {
        if self.plan.next_fails() {
            self.faults = self.faults.saturating_add(1);
            return Err(FileFault::Failed);
        }
        match self.put(name, bytes) {
            Ok(()) => Ok(()),
            Err(AllocError) => Err(FileFault::NoMemory),
        }
    }
}

// A copy of the bytes, if they are no more than the limit.
fn copy_within(alloc: Global, bytes: &Vec<u8>, limit: u64) -> Result<Vec<u8>, FileFault>
    ensures { CopiesWithin bytes.now.items limit result }
{
    if bytes.len() as u64 > limit {
        return Err(FileFault::TooLong);
    }
    match bytes.to_vec(alloc) {
        Ok(copy) => Ok(copy),
        Err(AllocError) => Err(FileFault::NoMemory),
    }
}
