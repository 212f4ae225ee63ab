//! Classes of bytes, and how many of a class some bytes begin with.

ghost use Rattle.std.specs.Prelude.{◌≡◌, ◌==◌, ◌<◌, ◌≤◌, false, get_or, length, take, if◌then◌else◌, IsTrue};
ghost use Rattle.std.specs.List.{list_all, prefix_len};
ghost use Rattle.c_chars.specs.Characters.{are_words, is_plain, is_quiet_byte, is_quiet_comment, is_row_byte};
ghost use Rattle.c_chars.specs.Characters.{is_space_byte, is_word_byte};

use crate::lanes::{
    ByteClass, CommentBytes, QuietBytes, QuietCommentBytes, RowBytes, SpaceBytes, WordBytes,
};
use std::simd::prelude::*;

/// What a table tells of a byte.
#[inline(always)]
pub fn told(table: &[bool; 256], byte: u8) -> bool
    ensures { result ≡ get_or table.now byte false }
{
    table[byte as usize]
}

/// Of each byte, whether it is none of `?`, a carriage return and a backslash.
const PLAIN_BYTES: [bool; 256] = [
    true, true, true, true, true, true, true, true, true, true, true, true, true, false, true,
    true, true, true, true, true, true, true, true, true, true, true, true, true, true, true, true,
    true, true, true, true, true, true, true, true, true, true, true, true, true, true, true, true,
    true, true, true, true, true, true, true, true, true, true, true, true, true, true, true, true,
    false, true, true, true, true, true, true, true, true, true, true, true, true, true, true,
    true, true, true, true, true, true, true, true, true, true, true, true, true, true, false,
    true, true, true, true, true, true, true, true, true, true, true, true, true, true, true, true,
    true, true, true, true, true, true, true, true, true, true, true, true, true, true, true, true,
    true, true, true, true, true, true, true, true, true, true, true, true, true, true, true, true,
    true, true, true, true, true, true, true, true, true, true, true, true, true, true, true, true,
    true, true, true, true, true, true, true, true, true, true, true, true, true, true, true, true,
    true, true, true, true, true, true, true, true, true, true, true, true, true, true, true, true,
    true, true, true, true, true, true, true, true, true, true, true, true, true, true, true, true,
    true, true, true, true, true, true, true, true, true, true, true, true, true, true, true, true,
    true, true, true, true, true, true, true, true, true, true, true, true, true, true, true, true,
    true, true, true, true, true, true, true, true, true, true, true, true, true, true, true, true,
    true, true, true,
];

/// Whether the byte is a character by itself, whatever follows it: it begins no trigraph, no line end
/// of two bytes and no splice.
#[inline(always)]
pub(crate) fn is_plain(byte: u8) -> bool
    ensures { result ≡ is_plain byte }
{
    told(&PLAIN_BYTES, byte)
}

/// Of each byte, whether it is a letter, a digit, `_` or `$`.
const WORD_BYTES: [bool; 256] = [
    false, false, false, false, false, false, false, false, false, false, false, false, false,
    false, false, false, false, false, false, false, false, false, false, false, false, false,
    false, false, false, false, false, false, false, false, false, false, true, false, false,
    false, false, false, false, false, false, false, false, false, true, true, true, true, true,
    true, true, true, true, true, false, false, false, false, false, false, false, true, true,
    true, true, true, true, true, true, true, true, true, true, true, true, true, true, true, true,
    true, true, true, true, true, true, true, true, false, false, false, false, true, false, true,
    true, true, true, true, true, true, true, true, true, true, true, true, true, true, true, true,
    true, true, true, true, true, true, true, true, true, false, false, false, false, false, false,
    false, false, false, false, false, false, false, false, false, false, false, false, false,
    false, false, false, false, false, false, false, false, false, false, false, false, false,
    false, false, false, false, false, false, false, false, false, false, false, false, false,
    false, false, false, false, false, false, false, false, false, false, false, false, false,
    false, false, false, false, false, false, false, false, false, false, false, false, false,
    false, false, false, false, false, false, false, false, false, false, false, false, false,
    false, false, false, false, false, false, false, false, false, false, false, false, false,
    false, false, false, false, false, false, false, false, false, false, false, false, false,
    false, false, false, false, false, false, false, false, false, false, false, false, false,
    false, false, false, false, false, false, false, false, false, false,
];

/// A letter, a digit, `_` or `$`.
#[inline(always)]
pub fn is_word_byte(byte: u8) -> bool
    ensures { result ≡ is_word_byte byte }
{
    told(&WORD_BYTES, byte)
}

/// How many bytes of the class these begin with, fewer than sixteen.
#[inline(never)]
fn short_len<C: ByteClass>(bytes: &[u8]) -> usize
    requires { length bytes.now < 16 }
    ensures { result ≡ prefix_len C.holds bytes.now }
{
    let mut sixteen = [0; 16];
    sixteen[..bytes.len()].copy_from_slice(bytes);
    let stops = C::stops(u8x16::from_array(sixteen));
    bytes.len().min(stops.trailing_zeros() as usize)
}

/// How many bytes of the class these begin with, however many.
#[inline(always)]
pub(crate) fn run_len<C: ByteClass>(bytes: &[u8]) -> usize
    ensures { result ≡ prefix_len C.holds bytes.now }
{
    let mut rest = bytes;
    while let Some((sixteen, behind)) = rest.split_first_chunk::<16>() {
        let stops = C::stops(u8x16::from_array(*sixteen));
        if stops != 0 {
            return bytes.len() - rest.len() + stops.trailing_zeros() as usize;
        }
        rest = behind;
    }
    bytes.len() - rest.len() + short_len::<C>(rest)
}

/// How many letters, digits, `_` and `$` the bytes begin with, however many.
#[inline(never)]
fn long_word_len(bytes: &[u8]) -> usize
    ensures { result ≡ prefix_len is_word_byte bytes.now }
{
    run_len::<WordBytes>(bytes)
}

/// How many letters, digits, `_` and `$` the bytes begin with. Most words end within sixteen bytes, and are told
/// without a loop.
#[inline(always)]
pub(crate) fn word_len(bytes: &[u8]) -> usize
    ensures { result ≡ prefix_len is_word_byte bytes.now }
{
    if let Some((sixteen, _)) = bytes.split_first_chunk::<16>() {
        let stops = WordBytes::stops(u8x16::from_array(*sixteen));
        if stops != 0 {
            return stops.trailing_zeros() as usize;
        }
    }
    long_word_len(bytes)
}

/// A space or a tab.
#[tactic(auto, unfolding(crate::specs::Characters::is_space_byte))]
#[inline(always)]
fn is_space_byte(byte: u8) -> bool
    ensures { result ≡ is_space_byte byte }
{
    byte == b' ' || byte == b'\t'
}

/// How many of a first space there are: one or none.
#[inline(always)]
pub(crate) fn first_space_len(bytes: &[u8]) -> usize
    ensures { result ≡ if get_or bytes.now 0 0 == 32 then 1 else 0 }
{
    match bytes {
        [first, ..] => (*first == b' ') as usize,
        _ => 0,
    }
}

/// How many spaces and tabs the bytes begin with, however many.
#[inline(never)]
fn long_space_len(bytes: &[u8]) -> usize
    ensures { result ≡ prefix_len is_space_byte bytes.now }
{
    run_len::<SpaceBytes>(bytes)
}

/// How many spaces and tabs the bytes begin with. Most runs end within sixteen bytes, and are told without a loop.
#[inline(always)]
pub(crate) fn space_len(bytes: &[u8]) -> usize
    ensures { result ≡ prefix_len is_space_byte bytes.now }
{
    if let Some((sixteen, _)) = bytes.split_first_chunk::<16>() {
        let stops = SpaceBytes::stops(u8x16::from_array(*sixteen));
        if stops != 0 {
            return stops.trailing_zeros() as usize;
        }
    }
    long_space_len(bytes)
}

/// How many bytes of comments these begin with, up to the last that is no space or tab.
#[inline(always)]
pub(crate) fn words_len(bytes: &[u8]) -> usize
    ensures within { result ≤ length bytes.now }
    ensures words { IsTrue (are_words (take result bytes.now)) }
{
    let mut len = run_len::<CommentBytes>(bytes);
    while len > 0 && is_space_byte(bytes[len - 1]) {
        len -= 1;
    }
    len
}

/// How many printable bytes of comments these begin with, up to the last that is no space.
#[inline(never)]
pub(crate) fn quiet_words_len(bytes: &[u8]) -> usize
    ensures within { result ≤ length bytes.now }
    ensures words { IsTrue (are_words (take result bytes.now)) }
    ensures quiet { IsTrue (list_all is_quiet_comment (take result bytes.now)) }
{
    let mut len = run_len::<QuietCommentBytes>(bytes);
    while len > 0 && is_space_byte(bytes[len - 1]) {
        len -= 1;
    }
    len
}

/// How many printable bytes of strings these begin with, however many.
#[inline(never)]
pub(crate) fn quiet_len(bytes: &[u8]) -> usize
    ensures { result ≡ prefix_len is_quiet_byte bytes.now }
{
    run_len::<QuietBytes>(bytes)
}

/// How many bytes of ASCII that end no line the bytes begin with, however many.
#[inline(never)]
pub fn row_len(bytes: &[u8]) -> usize
    ensures { result ≡ prefix_len is_row_byte bytes.now }
{
    run_len::<RowBytes>(bytes)
}
