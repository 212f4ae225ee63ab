//! The ends in memory and those of the process.

ghost use Rattle.std.specs.Prelude.{◌++◌};

use crate::comparing::same;
use crate::fixtures::{one_call, sink};
use fmt_ports::{
    Failed, FileFault, Files, InFault, Name, PIECE, RealFiles, RealIn, RealOut, Sink, Stream,
    TextSink, bytes_of, is_same, read_all, write_all, write_in_pieces,
};
use memory_ports::{MemFiles, MemSource};
use std::alloc::Global;
use std::os::unix::fs::PermissionsExt;
use std::process::Abort;
use std::{fs, rt};

/// A source of three bytes: the call that fails, the limit, and all its bytes or why they can't be had.
type Reading = (&'static str, u64, u64, Result<&'static [u8], &'static str>);

const READINGS: &[Reading] = &[
    ("as many bytes as the limit", 9, 3, Ok(b"abc")),
    ("one byte past the limit", 9, 2, Err("too long")),
    ("a read that fails", 1, 3, Err("failed")),
    ("a read that fails at the end", 2, 3, Err("failed")),
];

/// What is said of bytes that can't be had.
fn said_of(fault: InFault) -> &'static str {
    match fault {
        InFault::Failed => "failed",
        InFault::TooLong => "too long",
        InFault::NoMemory => "out of memory",
    }
}

/// The source that a reading has.
fn source(rt: &impl Abort, alloc: Global, failing: u64) -> MemSource {
    let bytes = b"abc".to_vec(alloc).expect(rt, "memory");
    MemSource::new(bytes, one_call(rt, alloc, failing))
}

/// Whether a reader of these bytes is read within a limit.
fn reads_within(alloc: Global, limit: u64) -> bool {
    let mut reader = RealIn::new(b"abc".as_slice());
    read_all(alloc, &mut reader, limit).is_ok()
}

#[test]
fn reads_all_bytes(rt: HostRuntime) {
    let rt = &rt;
    let alloc = rt.alloc();
    for case in READINGS {
        let (name, failing, limit, wanted) = *case;
        match read_all(alloc, &mut source(rt, alloc, failing), limit) {
            Ok(found) => same(rt, name, Ok(found.as_slice()), wanted),
            Err(fault) => same(rt, name, Err(said_of(fault)), wanted),
        }
        same(rt, name, reads_within(alloc, limit), limit == 3);
    }
}

/// A sink: the call that fails, and what it takes of three bytes and then of two.
const WRITINGS: &[(&str, u64, &[u8])] = &[
    ("no call fails", 9, b"abcde"),
    ("the first call fails", 1, b"de"),
    ("the second call fails", 2, b"abc"),
];

/// Whether all of three bytes and of two is taken.
fn write_both(sink: &mut impl Sink) -> (bool, bool) {
    let first = write_all(sink, b"abc").is_ok();
    (first, write_all(sink, b"de").is_ok())
}

#[test]
fn writes_all_bytes(rt: HostRuntime) {
    let rt = &rt;
    for case in WRITINGS {
        let (name, failing, taken) = *case;
        let mut sink = sink(rt, rt.alloc(), failing);
        let written = write_both(&mut sink);
        same(rt, name, written, (failing != 1, failing != 2));
        same(rt, name, sink.taken(), taken);
    }
}

#[test]
fn writes_into_texts_and_rooms(rt: HostRuntime) {
    let rt = &rt;
    let mut room = [0u8; 2];
    let mut writer = RealOut::new(room.as_mut_slice());
    let written = write_all(&mut writer, b"abc");
    same(rt, "a writer that is full", written.is_err(), true);
    let mut text = TextSink::with_room(rt.alloc(), 2).expect(rt, "memory");
    let written = write_all(&mut text, b"abc").is_ok();
    let taken = text.into_text();
    let wanted = (true, b"abc".as_slice());
    same(rt, "a text", (written, taken.as_slice()), wanted);
}

/// Bytes that are written twice, in two calls.
#[derive(Drop)]
struct Twice<'t>(&'t [u8]);

impl Stream for Twice<'_> {
    ghost bytes = { λ s. s.0.now ++ s.0.now };

    fn write<K: Sink>(&self, sink: &mut K) -> Result<(), Failed> {
        write_all(sink, self.0)?;
        write_all(sink, self.0)
    }
}

/// A text, and whether it is twice the bytes `ab`.
const COMPARISONS: &[(&[u8], bool)] = &[
    (b"abab", true),
    (b"abac", false),
    (b"baba", false),
    (b"aba", false),
    (b"ababa", false),
    (b"", false),
];

#[test]
fn compares_what_is_written(rt: HostRuntime) {
    let rt = &rt;
    for case in COMPARISONS {
        let text = case.0;
        same(rt, "a text", (text, is_same(&Twice(b"ab"), text)), *case);
    }
    same(rt, "nothing", is_same(&Twice(b""), b""), true);
}

/// Twice so many bytes: their number, the call that fails, whether all is written, and how many the sink took.
type Pieces = (usize, u64, bool, usize);

const PIECES: &[Pieces] = &[
    (2, 1, false, 0),
    (2, 2, true, 4),
    (PIECE / 2, 2, true, PIECE),
    (PIECE, 2, false, PIECE),
    (PIECE, 3, true, PIECE + PIECE),
    (PIECE + 1, 2, false, PIECE + 1),
    (PIECE + 1, 3, true, PIECE + PIECE + 2),
    (0, 1, true, 0),
];

/// What becomes of twice so many bytes where this call fails.
fn in_pieces(rt: &impl Abort, alloc: Global, size: usize, failing: u64) -> Pieces {
    let text = vec![in alloc; b'a'; size].expect(rt, "memory");
    let mut sink = sink(rt, alloc, failing);
    let written = write_in_pieces(alloc, &Twice(&text), &mut sink).is_ok();
    (size, failing, written, sink.taken().len())
}

#[test]
fn writes_in_pieces(rt: HostRuntime) {
    let rt = &rt;
    let alloc = rt.alloc();
    for case in PIECES {
        let (size, failing, ..) = *case;
        let found = in_pieces(rt, alloc, size, failing);
        same(rt, "so many bytes and this call", found, *case);
    }
    let made = bytes_of(alloc, &Twice(b"ab"), 1).expect(rt, "bytes");
    same(rt, "in memory", made.as_slice(), b"abab".as_slice());
}

/// Sees that a file has these bytes.
fn is_read(rt: &impl Abort, files: &mut impl Files, file: &str, bytes: &[u8]) {
    let read = files.read(file, 3).ok().expect(rt, file);
    same(rt, file, read.as_slice(), bytes);
}

/// Sees that it is found, with these bytes.
fn is_found(rt: &impl Abort, files: &mut impl Files, file: &str, bytes: &[u8]) {
    let found = files.find(file, 3).ok().expect(rt, file);
    let read = found.expect(rt, file);
    same(rt, file, read.as_slice(), bytes);
}

#[test]
fn holds_files_in_memory(rt: HostRuntime) {
    let rt = &rt;
    let mut files = MemFiles::new(rt.alloc(), Vec::new(rt.alloc()));
    files.put("a.c", b"abc").expect(rt, "memory");
    is_read(rt, &mut files, "a.c", b"abc");
    same(rt, "a write", files.write("b.c", b"abc").is_ok(), true);
    is_found(rt, &mut files, "b.c", b"abc");
    same(rt, "a file", files.held("a.c"), Some(b"abc".as_slice()));
}

#[test]
fn keeps_names(rt: HostRuntime) {
    let rt = &rt;
    let name = Name::from_text(rt.alloc(), "a.c").expect(rt, "memory");
    same(rt, "a name", name.text(), "a.c");
}

const REAL: &str = "written_by_a_test.c";

/// The permissions of the real file.
fn real_mode(rt: &(impl Abort + rt::Files)) -> u32 {
    let found = fs::metadata(rt, REAL).expect(rt, "permissions");
    found.permissions().mode() % 0o1000
}

/// Writes the real file anew under these permissions, and sees that it keeps them.
fn write_anew<R: Abort + rt::Files>(rt: &R, files: &mut impl Files, kept: u32) {
    let permissions = PermissionsExt::from_mode(kept);
    fs::set_permissions(rt, REAL, permissions).expect(rt, "permissions");
    same(rt, "an old file", files.write(REAL, b"new").is_ok(), true);
    is_read(rt, files, REAL, b"new");
    same(rt, "its permissions", real_mode(rt), kept);
}

/// Sees that the real file isn't there.
fn is_missing(rt: &impl Abort, files: &mut impl Files) {
    let read = files.read(REAL, 3);
    let is_missing = matches!(read, Err(FileFault::Missing));
    same(rt, "no file", is_missing, true);
    let found = files.find(REAL, 3);
    same(rt, "a search for it", matches!(found, Ok(None)), true);
}

const MODES: &[u32] = &[0o600, 0o640];

#[test]
fn writes_real_files_and_keeps_their_permissions(rt: HostRuntime) {
    let rt = &rt;
    let clone = rt.clone().expect(rt, "memory");
    let mut files = RealFiles::new(clone, rt.alloc());
    for mode in MODES {
        same(rt, "a new file", files.write(REAL, b"old").is_ok(), true);
        write_anew(rt, &mut files, *mode);
        fs::remove_file(rt, REAL).expect(rt, "a file");
        is_missing(rt, &mut files);
    }
}
