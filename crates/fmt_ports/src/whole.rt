// All the bytes of a source, and all bytes to a sink.
ghost use Rattle.std.specs.Prelude.{◌≡◌, ◌<◌, ◌≤◌, ◌+◌, length, take, IfOk, OnOk};
ghost use Rattle.std.specs.Io.KnownBytes.{Appends};
ghost use Rattle.fmt_ports.specs.Causes.{AppendsPart, Counts};
ghost use Rattle.fmt_ports.specs.Whole.{ConsumesAtMost, InCounts, TellsAll};

use crate::{Failed, Sink, Source};
use std::alloc::Global;
use thiserror::Error;

/// Why the bytes of a source can't be had.
#[derive(Clone, Copy, Debug, PartialEq, Eq, Error)]
pub enum InFault {
    /// A read failed.
    #[error("failed")]
    Failed,
    /// There are more bytes than the limit.
    #[error("too long")]
    TooLong,
    /// There is not enough memory for the bytes.
    #[error("out of memory")]
    NoMemory,
}

/// How many bytes `read_all` asks for at a time: as many as most sources have, since zeros are written to all of them
/// before the first read.
pub const BUFFER: usize = 20_480;

// The room that is taken before the first read: most sources need no more.
const FIRST_ROOM: usize = 131_072;

// All bytes that are left, read through a buffer.
fn read_through<S: Source>(
    alloc: Global,
    source: &mut S,
    buffer: &mut [u8],
    limit: u64,
) -> Result<Vec<u8>, InFault>
    requires { 0 < length buffer.old }
    ensures bytes { TellsAll limit (S.left source.old) (S.left source.new) result }
    ensures taken { ConsumesAtMost (limit + length buffer.old) (S.left source.old) (S.left source.new) }
    ensures counts { InCounts (S.faults source.old) (S.faults source.new) result }
{
    let Ok(mut all) = Vec::with_capacity(alloc, FIRST_ROOM) else {
        return Err(InFault::NoMemory);
    };
    loop {
        let Ok(count) = source.read(buffer) else {
            return Err(InFault::Failed);
        };
        if count == 0 {
            return Ok(all);
        }
        if count as u64 > limit - all.len() as u64 {
            return Err(InFault::TooLong);
        }
        if all.extend_from_slice(&buffer[..count]).is_err() {
            return Err(InFault::NoMemory);
        }
    }
}

/// All bytes that are left, if they are no more than the limit. Past the limit, no more than one
/// buffer was taken from the source.
pub fn read_all<S: Source>(alloc: Global, source: &mut S, limit: u64) -> Result<Vec<u8>, InFault>
    ensures bytes { TellsAll limit (S.left source.old) (S.left source.new) result }
    ensures taken { ConsumesAtMost (limit + BUFFER) (S.left source.old) (S.left source.new) }
    ensures counts { InCounts (S.faults source.old) (S.faults source.new) result }
{
    let Ok(mut buffer) = vec![in alloc; 0u8; BUFFER] else {
        return Err(InFault::NoMemory);
    };
    read_through(alloc, source, buffer.as_mut_slice(), limit)
}

/// Writes bytes until all are taken or a call fails, and answers how many were taken.
#[inline(always)]
pub(crate) fn write_most<K: Sink>(sink: &mut K, bytes: &[u8]) -> (usize, Result<(), Failed>)
    ensures bound { result.0 ≤ length bytes.now }
    ensures all { OnOk result.1 (result.0 ≡ length bytes.now) }
    ensures bytes { Appends (K.taken sink.old) (K.taken sink.new) (take result.0 bytes.now) }
    ensures counts { Counts (K.faults sink.old) (K.faults sink.new) result.1 }
{
    let mut at = 0;
    while at < bytes.len() {
        match sink.write(&bytes[at..]) {
            Ok(count) => at += count,
            Err(Failed) => return (at, Err(Failed)),
        }
    }
    (at, Ok(()))
}

/// Appends all the bytes. After `Failed` a front part of them was appended. It takes no memory.
#[inline(always)]
pub fn write_all<K: Sink>(sink: &mut K, bytes: &[u8]) -> Result<(), Failed>
    ensures ok { IfOk result (λ _. Appends (K.taken sink.old) (K.taken sink.new) bytes.now) }
    ensures part { AppendsPart (K.taken sink.old) (K.taken sink.new) bytes.now }
    ensures counts { Counts (K.faults sink.old) (K.faults sink.new) result }
{
    let (_, result) = write_most(sink, bytes);
    result
}

/// Appends the first of some bytes, so many of them. After `Failed` a front part of these was appended. It takes no
/// memory.
#[inline(always)]
pub fn write_front<K: Sink>(sink: &mut K, bytes: &[u8], count: usize) -> Result<(), Failed>
    requires { count ≤ length bytes.now }
    ensures ok { IfOk result (λ _. Appends (K.taken sink.old) (K.taken sink.new) (take count bytes.now)) }
    ensures part { AppendsPart (K.taken sink.old) (K.taken sink.new) (take count bytes.now) }
    ensures counts { Counts (K.faults sink.old) (K.faults sink.new) result }
{
    let taken = sink.write_front(bytes, count)?;
    write_all(sink, &bytes[taken..count])
}
