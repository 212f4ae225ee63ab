// Files of the program's own that stand beside another file while that one is written.
use crate::write_back::WriteFault;
use std::alloc::Global;
use std::fs::{File, OpenFile, OpenOptions};
use std::io::{self, ErrorKind};
use std::os::unix::fs::OpenOptionsExt;
use std::path::Path;
use std::random::RandomSource;
use std::rt::Files;

// Only its owner may read or write it.
const OWNER_ALONE: u32 = 0o600;

/// An open file and its name.
#[derive(Drop)]
pub(crate) struct Beside<F> {
    pub(crate) file: F,
    pub(crate) name: String,
}

// A name in the folder of `place` that can't be foretold.
fn name_beside(rt: &impl RandomSource, alloc: Global, place: &str) -> Result<String, WriteFault> {
    let mut random = [0u8; 8];
    if rt.fill_bytes(&mut random).is_err() {
        return Err(WriteFault::Failed);
    }
    let number = u64::from_le_bytes(random);
    Ok(format!(in alloc; "{place}.{number:016x}.clang_format")?)
}

/// A new, empty file beside `place`, under a name that no other file has. Only its owner has any
/// right to it. None where the folder takes no new file.
pub(crate) fn create_beside<R: Files + RandomSource>(
    rt: &R,
    alloc: Global,
    place: &str,
) -> Result<Option<Beside<R::File>>, WriteFault> {
    let name = name_beside(rt, alloc, place)?;
    match create_for_owner(rt, name.as_str()) {
        Ok(file) => Ok(Some(Beside { file, name })),
        Err(error) => match error.kind() {
            ErrorKind::PermissionDenied
            | ErrorKind::ReadOnlyFilesystem
            | ErrorKind::InvalidFilename => Ok(None),
            _ => Err(WriteFault::Failed),
        },
    }
}

// A new file to which only its owner has any right.
fn create_for_owner<R: Files>(rt: &R, name: &str) -> io::Result<R::File> {
    let mut options = OpenOptions::new();
    options.write(true).create_new(true).mode(OWNER_ALONE);
    options.open(rt, name)
}

/// Whether a file was seen to the disk. One that has no disk is no fault.
pub(crate) fn sync(file: &impl OpenFile) -> bool {
    match file.sync_all() {
        Ok(()) => true,
        Err(error) => error.kind() == ErrorKind::InvalidInput,
    }
}

// The folder in which `place` stands.
fn folder_of(place: &str) -> &str {
    match Path::new(place).parent() {
        Some(folder) if !folder.as_str().is_empty() => folder.as_str(),
        _ => ".",
    }
}

/// Whether the names in the folder of `place` were seen to the disk. A folder that can't be opened is no fault.
pub(crate) fn sync_folder<R: Files>(rt: &R, place: &str) -> bool {
    match File::open(rt, folder_of(place)) {
        Ok(folder) => sync(&folder),
        Err(_) => true,
    }
}
