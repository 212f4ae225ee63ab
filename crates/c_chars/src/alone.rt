//! Bytes that stand for themselves, read a character at a time.

ghost use Rattle.std.specs.Prelude.{◌≡◌, ◌+◌, ◌≤◌, ◌∷◌, [], length, MatchOption, IfSome, IfNone};
ghost use Rattle.c_chars.specs.Characters.{chars, bytes_of};
ghost use Rattle.c_chars.specs.Alone.{IsFirstCharacter, HasNoCharacter};

use crate::Dialect;
use crate::classes::is_plain;
use crate::units::unit;

/// The first character of some bytes.
#[derive(Clone, Copy)]
pub(crate) struct FirstCharacter {
    /// Its byte.
    pub byte: u8,
    /// How many bytes of splices stand before it.
    pub before: usize,
    /// How many bytes it is written as.
    pub len: usize,
}

/// The first character of the bytes, wherever they stand; none exactly where there is none.
pub(crate) fn first_character(dialect: Dialect, bytes: &[u8]) -> Option<FirstCharacter>
    ensures within { IfSome result (λ c. c.before + c.len ≤ length bytes.now) }
    ensures first { IfSome result (λ c. IsFirstCharacter dialect bytes.now c) }
    ensures none { IfNone result (HasNoCharacter dialect bytes.now) }
{
    let mut rest = bytes;
    let mut before = 0;
    while !rest.is_empty() {
        let (byte, len) = unit(dialect, rest);
        let (_, behind) = rest.split_at(len);
        if byte != b'\\' {
            return Some(FirstCharacter { byte, before, len });
        }
        if behind.is_empty() {
            return Some(FirstCharacter { byte, before, len });
        }
        let (next, next_len) = unit(dialect, behind);
        if next != b'\n' {
            return Some(FirstCharacter { byte, before, len });
        }
        let (_, after) = behind.split_at(next_len);
        rest = after;
        before += len + next_len;
    }
    None
}

/// The first character of bytes that stand for themselves, whatever it is written as, and the bytes behind it;
/// none exactly where there is none.
fn next_written<'s>(dialect: Dialect, bytes: &'s [u8]) -> Option<(u8, &'s [u8])>
    ensures { MatchOption result
        (bytes_of (chars dialect 0 bytes.now) ≡ [])
        (λ c. bytes_of (chars dialect 0 bytes.now) ≡ c.0 ∷ bytes_of (chars dialect 0 c.1.now)) }
{
    let Some(first) = first_character(dialect, bytes) else {
        return None;
    };
    let (_, behind) = bytes.split_at(first.before + first.len);
    Some((first.byte, behind))
}

/// The first character of bytes that stand for themselves, and the bytes behind it; none exactly where
/// there is none. Most bytes are plain, and taken here.
///
/// Trigraphs are replaced, spliced lines joined, and `\r\n` is one new-line (C11 5.1.1.2, phases 1 and
/// 2). No byte order mark is taken off, and there is no limit to the number of bytes.
#[inline(always)]
pub fn next_character<'s>(dialect: Dialect, bytes: &'s [u8]) -> Option<(u8, &'s [u8])>
    ensures { MatchOption result
        (bytes_of (chars dialect 0 bytes.now) ≡ [])
        (λ c. bytes_of (chars dialect 0 bytes.now) ≡ c.0 ∷ bytes_of (chars dialect 0 c.1.now)) }
{
    let [byte, behind @ ..] = bytes else {
        return None;
    };
    if is_plain(*byte) {
        return Some((*byte, behind));
    }
    next_written(dialect, bytes)
}
