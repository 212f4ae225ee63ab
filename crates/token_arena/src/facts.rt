//! What is kept of an item, from its bytes and those of the gap before it.

ghost use Rattle.std.specs.Prelude.{◌≡◌, ◌<◌, ◌≤◌, ◌-◌, ◌^◌, not, drop, length, count_by, IsTrue};
ghost use Rattle.std.specs.Int.{is_in_range};
ghost use Rattle.std.specs.List.{list_all, position_or_len, suffix_len};
ghost use Rattle.std.specs.Io.BufRead.{strip_last};
ghost use Rattle.token_arena.specs.Stored.{is_line_feed, rows_of, first_row, last_row, width_of};
ghost use Rattle.token_arena.specs.Eight.{unprintable};
ghost use Rattle.token_arena.specs.Entries.{IsTold, entry_of, spelled};

use crate::arena::{Entry, Spelled};
use c_chars::row_len;
use c_lexer::Lexeme;
use std::simd::prelude::*;
use std::str::from_utf8;
use unicode_width::UnicodeWidthStr;

/// How many new-lines there are among sixteen bytes.
#[inline(always)]
fn line_feeds_in(sixteen: &[u8; 16]) -> usize
    ensures { result ≡ count_by is_line_feed sixteen.now }
{
    let feeds = u8x16::from_array(*sixteen).simd_eq(u8x16::splat(b'\n'));
    feeds.to_bitmask().count_ones() as usize
}

/// How many new-lines there are among these bytes, told sixteen at a time.
pub(crate) fn line_feeds(bytes: &[u8]) -> usize
    ensures { result ≡ count_by is_line_feed bytes.now }
{
    let mut rest = bytes;
    let mut feeds = 0;
    while let Some((sixteen, behind)) = rest.split_first_chunk::<16>() {
        feeds += line_feeds_in(sixteen);
        rest = behind;
    }
    feeds + rest.iter().filter(|b| **b == b'\n').count()
}

/// A row without the carriage return at its end.
fn without_return(row: &[u8]) -> &[u8]
    ensures { result.now ≡ strip_last 13 row.now }
{
    match row {
        [rest @ .., b'\r'] => rest,
        _ => row,
    }
}

/// Where the first row ends: at the first new-line, or where there is none.
fn first_row_end(raw: &[u8]) -> usize
    ensures { result ≡ position_or_len is_line_feed raw.now }
{
    for (i, b) in raw.iter().enumerate() {
        if *b == b'\n' {
            return i;
        }
    }
    raw.len()
}

/// Where the last row begins: behind the last new-line.
fn last_row_start(raw: &[u8]) -> usize
    ensures { result ≡ length raw.now - suffix_len (λ b. not (is_line_feed b)) raw.now }
{
    let mut start = raw.len();
    while start > 0 && raw[start - 1] != b'\n' {
        start -= 1;
    }
    start
}

/// The first row of an item, without its line end.
fn first_row(raw: &[u8]) -> &[u8]
    ensures { result.now ≡ first_row raw.now }
{
    let end = first_row_end(raw);
    if end == raw.len() {
        return raw;
    }
    without_return(&raw[..end])
}

/// The last row of an item.
fn last_row(raw: &[u8]) -> &[u8]
    ensures { result.now ≡ last_row raw.now }
{
    &raw[last_row_start(raw)..]
}

/// The highest bit of each of eight bytes.
const HIGH_BITS: u64 = 0x8080_8080_8080_8080;

/// The other bits of each of eight bytes.
const LOW_BITS: u64 = 0x7f7f_7f7f_7f7f_7f7f;

/// The highest bit of each of eight bytes that is no printable character of ASCII.
///
/// No sum carries into the next byte: the first sets the highest bit from 0x20 on, and the second at 0x7F.
#[tactic(auto, using(std::proofs::lemmas::Nat::and_le_r), unfolding(crate::specs::Eight::unprintable))]
#[inline(always)]
fn unprintable(eight: u64) -> u64
    ensures { result ≡ unprintable eight }
{
    let low = eight & LOW_BITS;
    let ink = low + 0x6060_6060_6060_6060;
    let delete = low + 0x0101_0101_0101_0101;
    ((ink ^ HIGH_BITS) | delete | eight) & HIGH_BITS
}

/// Whether eight bytes are printable characters of ASCII.
#[inline(always)]
fn are_printable(eight: &[u8; 8]) -> bool
    ensures { IsTrue result → IsTrue (list_all (is_in_range 0x20 0x7E) eight.now) }
{
    unprintable(u64::from_le_bytes(*eight)) == 0
}

/// What stands in a row behind bytes that are told to be printable eight at a time.
#[inline(always)]
fn behind_printable(row: &[u8]) -> &[u8]
    ensures same { list_all (is_in_range 0x20 0x7E) result.now ≡ list_all (is_in_range 0x20 0x7E) row.now }
    ensures rest { result.now ≡ drop (length row.now - length result.now) row.now }
    ensures within { length result.now ≤ length row.now }
{
    let mut rest = row;
    while let Some((eight, behind)) = rest.split_first_chunk::<8>() {
        if !are_printable(eight) {
            return rest;
        }
        rest = behind;
    }
    rest
}

/// Whether each byte is a printable character of ASCII, told byte by byte.
#[inline(always)]
fn is_each_printable(row: &[u8]) -> bool
    ensures { result ≡ list_all (is_in_range 0x20 0x7E) row.now }
{
    for byte in row {
        if !(0x20..=0x7E).contains(byte) {
            return false;
        }
    }
    true
}

/// Whether each byte is told to be a printable character of ASCII: where there are eight and more, eight at a time,
/// with the last eight once more for those that are left behind the others.
#[inline(never)]
pub(crate) fn looks_printable(row: &[u8]) -> bool
    ensures { IsTrue result → IsTrue (list_all (is_in_range 0x20 0x7E) row.now) }
{
    let Some((_, last)) = row.split_last_chunk::<8>() else {
        return is_each_printable(row);
    };
    are_printable(last) && behind_printable(row).len() < 8
}

/// Whether each byte of a row of several words is a printable character of ASCII.
#[inline(never)]
fn is_long_printable(row: &[u8]) -> bool
    ensures { result ≡ list_all (is_in_range 0x20 0x7E) row.now }
{
    is_each_printable(behind_printable(row))
}

/// Whether each byte is a printable character of ASCII. Most rows are a word or a mark.
#[inline(always)]
fn is_printable(row: &[u8]) -> bool
    ensures { result ≡ list_all (is_in_range 0x20 0x7E) row.now }
{
    if row.len() >= 16 {
        return is_long_printable(row);
    }
    is_each_printable(row)
}

/// How many columns a row takes. Most rows are ASCII, each character of which takes one.
#[inline(never)]
fn width(row: &[u8]) -> u32
    requires { length row.now < 2 ^ 31 }
    ensures { result ≡ width_of row.now }
{
    if row_len(row) == row.len() {
        return row.len() as u32;
    }
    match from_utf8(row) {
        Ok(text) => text.width() as u32,
        Err(_) => row.len() as u32,
    }
}

/// The rows of an item: its physical lines.
#[derive(Clone, Copy, Debug, PartialEq, Eq)]
pub struct Rows {
    /// How many there are, from 1.
    pub count: u32,
    /// The width of the first, in columns.
    pub first_width: u32,
    /// The width of the last, in columns.
    pub last_width: u32,
}

/// The only row of an item, of this width.
#[inline(always)]
pub(crate) fn one_row(width: u32) -> Rows
    ensures { result ≡ record { count = 1; first_width = width; last_width = width } }
{
    Rows {
        count: 1,
        first_width: width,
        last_width: width,
    }
}

/// The rows of an item of any bytes. Most are one row of ASCII.
#[inline(never)]
pub(crate) fn rows_of_any(raw: &[u8]) -> Rows
    requires { length raw.now < 2 ^ 31 }
    ensures count { result.count ≡ rows_of raw.now }
    ensures first { result.first_width ≡ width_of (first_row raw.now) }
    ensures last { result.last_width ≡ width_of (last_row raw.now) }
{
    if row_len(raw) == raw.len() {
        return one_row(raw.len() as u32);
    }
    let feeds = line_feeds(raw);
    if feeds == 0 {
        return one_row(width(raw));
    }
    Rows {
        count: feeds as u32 + 1,
        first_width: width(first_row(raw)),
        last_width: width(last_row(raw)),
    }
}

/// The rows of an item. Most items are one row of printable ASCII, which one pass shows.
#[inline(always)]
pub(crate) fn rows_of(raw: &[u8]) -> Rows
    requires { length raw.now < 2 ^ 31 }
    ensures count { result.count ≡ rows_of raw.now }
    ensures first { result.first_width ≡ width_of (first_row raw.now) }
    ensures last { result.last_width ≡ width_of (last_row raw.now) }
{
    if is_printable(raw) {
        return one_row(raw.len() as u32);
    }
    rows_of_any(raw)
}

/// What is told of an item's bytes.
#[derive(Clone, Copy)]
pub(crate) enum Told {
    /// They are printable ASCII, and each is a character by itself.
    Itself,
    /// They are printable ASCII.
    Printable,
    /// Nothing.
    Nothing,
}

/// What the bytes of an item tell, looked at eight at a time.
#[inline(always)]
pub(crate) fn told_by_bytes(raw: &[u8]) -> Told
    ensures { IsTold result raw.now }
{
    if looks_printable(raw) {
        Told::Printable
    } else {
        Told::Nothing
    }
}

/// How an item is spelled, where a backslash is its last character or not, and this is told of its bytes.
#[inline(always)]
fn spelled(back: bool, told: Told) -> Spelled
    ensures { result ≡ spelled back told }
{
    if back {
        return Spelled::Backslash;
    }
    match told {
        Told::Itself => Spelled::Itself,
        Told::Printable => Spelled::Plain,
        Told::Nothing => Spelled::Other,
    }
}

/// The entry of an item, of whose bytes this is told, behind a gap that begins at this offset. Spliced line ends are
/// bytes of no character.
#[inline(always)]
pub(crate) fn entry_of(lexeme: &Lexeme<'_>, gap: u32, told: Told) -> Entry
    requires fits { length lexeme.now.item.raw.now < 2 ^ 31 }
    requires order { gap ≤ lexeme.now.item.start }
    ensures { result ≡ entry_of lexeme.now gap told }
{
    let item = &lexeme.item;
    Entry {
        start: item.start,
        len: item.raw.len() as u32,
        lines: lexeme.lines,
        kind: item.kind,
        white: lexeme.white,
        splice: lexeme.bytes != item.start - gap,
        spelled: spelled(lexeme.back, told),
    }
}
