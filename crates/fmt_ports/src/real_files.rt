// The file system. It tells no bytes, and counts each error that it answers.
ghost use Rattle.std.specs.Prelude.{◌≡◌, ◌≤◌, IfOk, IfSome, None, length};

use crate::write_back::{WriteFault, write_back, write_new};
use crate::{FileFault, Files, InFault, RealIn, read_all};
use std::alloc::Global;
use std::fs::File;
use std::io::{self, ErrorKind};
use std::random::RandomSource;

/// The file system of a runtime. Only a regular file can be read or written: any other fails, and
/// isn't opened.
///
/// A file that is written back is first written whole beside its place, to the disk, and then
/// renamed: so the old bytes stand until the new ones are there, and a write that fails half-way
/// costs nothing. The file beside has a name that no other one has and that can't be foretold, and
/// before it is renamed it has the permissions of the old one; until then only its owner has any.
/// Behind a symbolic link the file that it leads to is replaced, and the link stays.
///
/// Where a new file can't be all that the old one is, the old one is written in its place: where it
/// has several hard links, another owner or group, or more rights for its group than for all
/// others, behind which an access list may stand; where the folder takes no new file; and where the
/// rename is refused. Then the old bytes stand beside it, on the disk, until the new ones are
/// written whole, or in memory alone where the folder takes no new file. Where the write fails they
/// are put back; where that fails too, the file beside them stays.
///
/// A file that is replaced loses its extended attributes, and an access list that gives no right
/// but what all have: the runtime doesn't show them. One that is written in its place keeps all.
#[derive(Drop)]
pub struct RealFiles<R> {
    rt: R,
    alloc: Global,
    faults: u64,
    misses: u64,
}

impl<R: std::rt::Files + RandomSource> RealFiles<R> {
    /// The files that `rt` opens.
    pub fn new(rt: R, alloc: Global) -> RealFiles<R>
        ensures faults { ⟦<RealFiles<R> as Files>⟧.faults result ≡ 0 }
        ensures misses { ⟦<RealFiles<R> as Files>⟧.misses result ≡ 0 }
    {
        RealFiles {
            rt,
            alloc,
            faults: 0,
            misses: 0,
        }
    }
}

// Opens a regular file to read it. Any other isn't opened, since that may wait for ever.
fn open_regular<R: std::rt::Files>(rt: &R, name: &str) -> io::Result<R::File> {
    if rt.metadata(name)?.is_file() {
        File::open(rt, name)
    } else {
        Err(io::Error::from(ErrorKind::InvalidInput))
    }
}

// Reads a file whole. None where there is no file of this name.
fn find_file<R: std::rt::Files>(
    rt: &R,
    alloc: Global,
    name: &str,
    limit: u64,
) -> Result<Option<Vec<u8>>, InFault>
    ensures { IfOk result (λ found. IfSome found (λ bytes. length bytes.items ≤ limit)) }
{
    let file = match open_regular(rt, name) {
        Ok(file) => file,
        Err(error) if error.kind() == ErrorKind::NotFound => return Ok(None),
        Err(_) => return Err(InFault::Failed),
    };
    match read_all(alloc, &mut RealIn::new(file), limit) {
        Ok(bytes) => Ok(Some(bytes)),
        Err(fault) => Err(fault),
    }
}

// Writes a file whole, which may be new. What is no regular file isn't opened.
fn write_file<R: std::rt::Files + RandomSource>(
    rt: &R,
    alloc: Global,
    name: &str,
    bytes: &[u8],
) -> Result<(), WriteFault> {
    match rt.metadata(name) {
        Ok(metadata) if metadata.is_file() => write_back(rt, alloc, name, bytes),
        Err(error) if error.kind() == ErrorKind::NotFound => write_new(rt, name, bytes),
        _ => Err(WriteFault::Failed),
    }
}

impl<R: std::rt::Files + RandomSource> Files for RealFiles<R> {
    ghost holds = { λ s. None };

    ghost faults = { λ s. s.faults };

    ghost misses = { λ s. s.misses };

    fn read(&mut self, name: &str, limit: u64) -> Result<Vec<u8>, FileFault> {
        match self.find(name, limit) {
            Ok(Some(bytes)) => Ok(bytes),
            Ok(None) => {
                self.misses = self.misses.saturating_add(1);
                Err(FileFault::Missing)
            }
            Err(fault) => Err(fault),
        }
    }

    fn find(&mut self, name: &str, limit: u64) -> Result<Option<Vec<u8>>, FileFault> {
        match find_file(&self.rt, self.alloc, name, limit) {
            Ok(found) => Ok(found),
            Err(InFault::Failed) => {
                self.faults = self.faults.saturating_add(1);
                Err(FileFault::Failed)
            }
            Err(InFault::TooLong) => Err(FileFault::TooLong),
            Err(InFault::NoMemory) => Err(FileFault::NoMemory),
        }
    }

    fn write(&mut self, name: &str, bytes: &[u8]) -> Result<(), FileFault> {
        match write_file(&self.rt, self.alloc, name, bytes) {
            Ok(()) => Ok(()),
            Err(WriteFault::Failed) => {
                self.faults = self.faults.saturating_add(1);
                Err(FileFault::Failed)
            }
            Err(WriteFault::NoMemory) => Err(FileFault::NoMemory),
        }
    }
}
