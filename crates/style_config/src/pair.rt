// A key with its value.
ghost use Rattle.std.specs.Prelude.{◌≡◌, ◌≤◌, length};
ghost use Rattle.std.specs.Option.{option_map};
ghost use Rattle.style_config.specs.Texts.{is_pair, pair_of};
ghost use Rattle.style_config.specs.Lines.{pair_text};

use crate::text::{is_blank, is_quoted, key_len, without_quotes, written_of};

/// A key and its value.
#[derive(Clone, Copy)]
pub(crate) struct Pair<'t> {
    pub(crate) key: &'t str,
    pub(crate) value: &'t [u8],
    /// Whether quotes stood around the value.
    pub(crate) is_quoted: bool,
}

// Behind a key of so many bytes stands `:`, and behind that a blank or nothing.
fn is_pair(end: usize, text: &[u8]) -> bool
    requires { end ≤ length text.now }
    ensures { result ≡ is_pair end text.now }
{
    end > 0
        && end < text.len()
        && text[end] == b':'
        && (text.len() <= end + 1 || is_blank(text[end + 1]))
}

/// The key and the value of a text of the form `Key:` or `Key: value`.
pub(crate) fn pair_of(text: &[u8]) -> Option<Pair<'_>>
    ensures { option_map pair_text result ≡ pair_of text.now }
{
    let end = key_len(text);
    if !is_pair(end, text) {
        return None;
    }
    let Ok(key) = std::str::from_utf8(&text[..end]) else {
        unreachable!()
    };
    let written = written_of(&text[end + 1..]);
    Some(Pair {
        key,
        value: without_quotes(written),
        is_quoted: is_quoted(written),
    })
}
