//! Characters past ASCII, in UTF-8 (C11 6.4.2.1, Annex D).

ghost use Rattle.std.specs.Prelude.{◌≡◌, ◌+◌, ◌≤◌, IsTrue, IsFalse, MatchOption};
ghost use Rattle.std.specs.Str.{continuation_len};
ghost use Rattle.c_grammar.specs.Grammar.{is_wide};
ghost use Rattle.c_grammar.specs.Utf8.{any_char, only};

/// The one character past ASCII that the bytes are, in UTF-8; none where they are none.
pub fn only_char(bytes: &[u8]) -> Option<char>
    ensures { MatchOption result
        (IsFalse (is_wide any_char bytes.now))
        (λ c. IsTrue (is_wide (only c) bytes.now)) }
{
    let Ok(text) = std::str::from_utf8(bytes) else {
        return None;
    };
    let mut chars = text.chars();
    let Some(character) = chars.next() else {
        return None;
    };
    if (character as u32) < 128 {
        return None;
    }
    match chars.next() {
        Some(_) => None,
        None => Some(character),
    }
}

/// How many bytes a character has in UTF-8 that begins with this one.
pub fn char_len(byte: u8) -> usize
    ensures len { result ≡ continuation_len byte + 1 }
    ensures within { result ≤ 4 }
{
    if byte < 128 {
        1
    } else if byte < 224 {
        2
    } else if byte < 240 {
        3
    } else {
        4
    }
}
