//! How an item is spelled: its bytes read with trigraphs replaced and spliced lines joined.
//!
//! The bytes of an item stand for themselves: no byte order mark is taken off, and there is no limit to
//! their number. Only as many are read as the word asked for has.

ghost use Rattle.std.specs.Prelude.{◌≡◌, ◌∷◌, ◌++◌, [], false, MatchOption, IsTrue};
ghost use Rattle.c_chars.specs.Characters.{is_plain};
ghost use Rattle.c_chars.specs.declared.Dialect.{Dialect};
ghost use Rattle.c_grammar.specs.Grammar.{is_same};
ghost use Rattle.c_grammar.specs.Touch.{is_front};
ghost use Rattle.c_grammar.specs.Rewritten.{read_alone};

use c_chars::Dialect;

/// Whether a byte is a character by itself wherever it stands.
#[inline(always)]
fn is_plain(byte: u8) -> bool
    ensures { result ≡ is_plain byte }
{
    byte != b'?' && byte != b'\r' && byte != b'\\'
}

/// The first character, and the bytes behind it; none exactly where there is none. Most are a byte by itself.
#[inline(always)]
fn next_character<'s>(dialect: Dialect, bytes: &'s [u8]) -> Option<(u8, &'s [u8])>
    ensures { MatchOption result
        (read_alone dialect bytes.now ≡ [])
        (λ c. read_alone dialect bytes.now ≡ c.0 ∷ read_alone dialect c.1.now) }
{
    match bytes {
        [] => None,
        [byte, behind @ ..] => {
            if is_plain(*byte) {
                return Some((*byte, behind));
            }
            c_chars::next_character(dialect, bytes)
        }
    }
}

/// Whether the first byte tells that the spelling doesn't begin with this word.
#[inline(always)]
fn begins_apart(raw: &[u8], word: &[u8]) -> bool
    ensures { IsTrue result → (dialect : Dialect) → is_front word.now (read_alone dialect raw.now) ≡ false }
{
    if raw.is_empty() || word.is_empty() {
        return false;
    }
    is_plain(raw[0]) && raw[0] != word[0]
}

/// The bytes behind a word that the spelling begins with; none exactly where it doesn't. The first byte
/// tells for most.
#[inline(always)]
pub fn behind_word<'s>(dialect: Dialect, raw: &'s [u8], word: &[u8]) -> Option<&'s [u8]>
    ensures { MatchOption result
        (is_front word.now (read_alone dialect raw.now) ≡ false)
        (λ rest. read_alone dialect raw.now ≡ word.now ++ read_alone dialect rest.now) }
{
    if begins_apart(raw, word) {
        return None;
    }
    behind_each_byte(dialect, raw, word)
}

/// The bytes behind a word that the spelling begins with, which is compared byte by byte.
fn behind_each_byte<'s>(dialect: Dialect, raw: &'s [u8], word: &[u8]) -> Option<&'s [u8]>
    ensures { MatchOption result
        (is_front word.now (read_alone dialect raw.now) ≡ false)
        (λ rest. read_alone dialect raw.now ≡ word.now ++ read_alone dialect rest.now) }
{
    let mut rest = raw;
    for byte in word {
        match next_character(dialect, rest) {
            Some((first, behind)) => {
                if first != *byte {
                    return None;
                }
                rest = behind;
            }
            None => return None,
        }
    }
    Some(rest)
}

/// Whether an item of these bytes is spelled so.
#[inline(always)]
pub fn is_spelled(dialect: Dialect, raw: &[u8], word: &[u8]) -> bool
    ensures { result ≡ is_same (read_alone dialect raw.now) word.now }
{
    match behind_word(dialect, raw, word) {
        Some(rest) => match next_character(dialect, rest) {
            Some(_) => false,
            None => true,
        },
        None => false,
    }
}

/// Whether the spelling of an item of these bytes begins so.
pub fn begins_with(dialect: Dialect, raw: &[u8], word: &[u8]) -> bool
    ensures { result ≡ is_front word.now (read_alone dialect raw.now) }
{
    match behind_word(dialect, raw, word) {
        Some(_) => true,
        None => false,
    }
}
