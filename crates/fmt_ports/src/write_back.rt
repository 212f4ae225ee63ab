// Writing a file that may be there: a new file in its place, or the new bytes in the old file.
use crate::beside::{Beside, create_beside, sync, sync_folder};
use std::alloc::{AllocError, Global};
use std::fs::{File, Metadata, OpenFile, OpenOptions};
use std::io::{ErrorKind, Read, Seek, SeekFrom, Write};
use std::os::unix::fs::MetadataExt;
use std::random::RandomSource;
use std::rt::Files;

/// Why a file isn't written.
#[derive(Clone, Copy)]
pub(crate) enum WriteFault {
    /// A call on a file failed.
    Failed,
    /// There is not enough memory, and nothing is written.
    NoMemory,
}

impl From<AllocError> for WriteFault {
    fn from(_error: AllocError) -> WriteFault {
        WriteFault::NoMemory
    }
}

// A file that is to be written, open, and what it was like when it was opened.
#[derive(Drop)]
struct Old<F> {
    file: F,
    metadata: Metadata,
}

/// Writes a file that isn't there yet. Where that fails none is left.
pub(crate) fn write_new<R: Files>(rt: &R, name: &str, bytes: &[u8]) -> Result<(), WriteFault> {
    match File::create_new(rt, name) {
        Ok(mut file) => fill_new(rt, name, &mut file, bytes),
        Err(_) => Err(WriteFault::Failed),
    }
}

// Writes all the bytes to a new file, and sees them and its name to the disk. Where that fails the file goes.
fn fill_new<R: Files>(
    rt: &R,
    name: &str,
    file: &mut R::File,
    bytes: &[u8],
) -> Result<(), WriteFault> {
    if file.write_all(bytes).is_ok() && sync(file) && sync_folder(rt, name) {
        return Ok(());
    }
    let _ = rt.remove_file(name);
    Err(WriteFault::Failed)
}

/// Writes a file that is there. Behind symbolic links it is the file to which they lead, if that can be told.
pub(crate) fn write_back<R: Files + RandomSource>(
    rt: &R,
    alloc: Global,
    name: &str,
    bytes: &[u8],
) -> Result<(), WriteFault> {
    let Some(mut old) = open_old(rt, name) else {
        return Err(WriteFault::Failed);
    };
    if is_no_link(rt, name) {
        return write_at(rt, alloc, name, &mut old, bytes);
    }
    match rt.canonicalize(alloc, name) {
        Ok(place) => write_at(rt, alloc, place.as_str(), &mut old, bytes),
        Err(error) if error.kind() == ErrorKind::OutOfMemory => Err(WriteFault::NoMemory),
        Err(_) => write_in_place(rt, alloc, name, &mut old.file, bytes),
    }
}

// Opens a file that may be read and written; nothing in it is changed by that.
fn open_old<R: Files>(rt: &R, name: &str) -> Option<Old<R::File>> {
    let mut options = OpenOptions::new();
    options.read(true).write(true);
    let Ok(file) = options.open(rt, name) else {
        return None;
    };
    match file.metadata() {
        Ok(metadata) if metadata.is_file() => Some(Old { file, metadata }),
        _ => None,
    }
}

// Whether this is known to be no symbolic link.
fn is_no_link<R: Files>(rt: &R, name: &str) -> bool {
    match rt.symlink_metadata(name) {
        Ok(entry) => !entry.is_symlink(),
        Err(_) => false,
    }
}

// Writes a file that lies at this place: a new one there, or the bytes into the old one.
fn write_at<R: Files + RandomSource>(
    rt: &R,
    alloc: Global,
    place: &str,
    old: &mut Old<R::File>,
    bytes: &[u8],
) -> Result<(), WriteFault> {
    if can_be_replaced(&old.metadata) && replace(rt, alloc, place, &old.metadata, bytes)? {
        return Ok(());
    }
    write_in_place(rt, alloc, place, &mut old.file, bytes)
}

// Whether a new file can be all that this one is, as far as its metadata tell. An access list isn't
// among them; the most that its entries give shows as the group's rights. So where the group has
// no more rights than all others have, none of its entries gives a right that would be lost.
fn can_be_replaced(old: &Metadata) -> bool {
    let group = (old.mode() >> 3) & 0o7;
    let others = old.mode() & 0o7;
    old.nlink() == 1 && group & others == group
}

// Puts a new file with these bytes in the place of the old one. False where it can't be what the
// old one is, or can't be put there; then nothing is changed.
fn replace<R: Files + RandomSource>(
    rt: &R,
    alloc: Global,
    place: &str,
    old: &Metadata,
    bytes: &[u8],
) -> Result<bool, WriteFault> {
    let Some(Beside { mut file, name }) = create_beside(rt, alloc, place)? else {
        return Ok(false);
    };
    let made = fill_as(&mut file, old, bytes);
    if matches!(made, Ok(true)) && rt.rename(name.as_str(), place).is_ok() {
        return if sync_folder(rt, place) {
            made
        } else {
            Err(WriteFault::Failed)
        };
    }
    let _ = rt.remove_file(name.as_str());
    match made {
        Ok(_) => Ok(false),
        failed => failed,
    }
}

// Writes all the bytes to a new file, makes it what the old one is, and sees it to the disk. False
// where it can't be that.
fn fill_as<F: Write + OpenFile>(
    file: &mut F,
    old: &Metadata,
    bytes: &[u8],
) -> Result<bool, WriteFault> {
    if file.write_all(bytes).is_err() {
        return Err(WriteFault::Failed);
    }
    let _ = file.set_permissions(old.permissions());
    match file.metadata() {
        Ok(new) if !is_alike(&new, old) => Ok(false),
        Ok(_) if sync(file) => Ok(true),
        _ => Err(WriteFault::Failed),
    }
}

// Whether a new file has the owner, the group and the rights of the old one.
fn is_alike(new: &Metadata, old: &Metadata) -> bool {
    new.uid() == old.uid() && new.gid() == old.gid() && new.mode() == old.mode()
}

// Writes the bytes into the old file. Its old bytes stand beside it until that is done, and where
// it fails they are put back. They are in memory alone where the folder takes no new file.
fn write_in_place<R: Files + RandomSource>(
    rt: &R,
    alloc: Global,
    place: &str,
    file: &mut R::File,
    bytes: &[u8],
) -> Result<(), WriteFault> {
    let old = bytes_of(alloc, file)?;
    let copy = keep_copy(rt, alloc, place, &old)?;
    if overwrite(file, bytes) {
        remove_copy(rt, &copy);
        return Ok(());
    }
    if overwrite(file, &old) {
        remove_copy(rt, &copy);
    }
    Err(WriteFault::Failed)
}

// Takes a copy away again, where one was made.
fn remove_copy<R: Files>(rt: &R, copy: &Option<String>) {
    if let Some(name) = copy {
        let _ = rt.remove_file(name.as_str());
    }
}

// All that a file holds.
fn bytes_of<F: Read>(alloc: Global, file: &mut F) -> Result<Vec<u8>, WriteFault> {
    let mut bytes = Vec::new(alloc);
    match file.read_to_end(&mut bytes) {
        Ok(_) => Ok(bytes),
        Err(error) if error.kind() == ErrorKind::OutOfMemory => Err(WriteFault::NoMemory),
        Err(_) => Err(WriteFault::Failed),
    }
}

// Puts a copy of the old bytes beside their file, sees it to the disk, and answers its name. None
// where the folder takes no new file.
fn keep_copy<R: Files + RandomSource>(
    rt: &R,
    alloc: Global,
    place: &str,
    bytes: &[u8],
) -> Result<Option<String>, WriteFault> {
    let Some(Beside { mut file, name }) = create_beside(rt, alloc, place)? else {
        return Ok(None);
    };
    fill_new(rt, name.as_str(), &mut file, bytes)?;
    Ok(Some(name))
}

// Makes these bytes all that a file has, and tells whether that was done. The file is cut last, so that the room of its
// old bytes is there for the new ones, and for the old ones again.
fn overwrite<F: Write + Seek + OpenFile>(file: &mut F, bytes: &[u8]) -> bool {
    file.seek(SeekFrom::Start(0)).is_ok()
        && file.write_all(bytes).is_ok()
        && file.set_len(bytes.len() as u64).is_ok()
        && sync(file)
}
