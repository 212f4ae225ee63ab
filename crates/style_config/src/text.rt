// The parts of a line: blanks, comments, quotes, keys and values.
ghost use Rattle.std.specs.Prelude.{◌≡◌, ◌≤◌, ◌<◌, drop, length};
ghost use Rattle.std.specs.List.{prefix_len};
ghost use Rattle.style_config.specs.Texts.{begins_comment, blanks_of, is_blank, is_key_byte, is_quoted};
ghost use Rattle.style_config.specs.Texts.{without_comment, without_first_blanks, without_last_blanks, without_quotes};
ghost use Rattle.style_config.specs.Texts.{written_of};

/// A blank or a tab.
pub(crate) fn is_blank(byte: u8) -> bool
    ensures { result ≡ is_blank byte }
{
    byte == b' ' || byte == b'\t'
}

// A letter, a digit or `_`.
fn is_key_byte(byte: u8) -> bool
    ensures { result ≡ is_key_byte byte }
{
    byte.is_ascii_alphanumeric() || byte == b'_'
}

/// How many blanks a text begins with.
pub(crate) fn blanks_of(text: &[u8]) -> usize
    ensures count { result ≡ blanks_of text.now }
    ensures within { result ≤ length text.now }
{
    let mut at = 0;
    while at < text.len() && is_blank(text[at]) {
        at += 1;
    }
    at
}

/// A text without the blanks at its start.
pub(crate) fn without_first_blanks(text: &[u8]) -> &[u8]
    ensures { result.now ≡ without_first_blanks text.now }
{
    &text[blanks_of(text)..]
}

/// A text without the blanks at its end.
#[tactic(auto, using(crate::proofs::Steps::suffix_len_yes))]
pub(crate) fn without_last_blanks(text: &[u8]) -> &[u8]
    ensures { result.now ≡ without_last_blanks text.now }
{
    let mut end = text.len();
    while end > 0 && is_blank(text[end - 1]) {
        end -= 1;
    }
    &text[..end]
}

// A text without its comment, which begins with a blank and `#`.
#[tactic(auto, using(crate::proofs::Steps::comment_start_no, crate::proofs::Steps::comment_start_yes, crate::proofs::Steps::comment_start_all))]
fn without_comment(text: &[u8]) -> &[u8]
    ensures { result.now ≡ without_comment text.now }
{
    let mut at = 0;
    while at < text.len() && !begins_comment(text, at) {
        at += 1;
    }
    &text[..at]
}

/// A text of two bytes and more begins and ends with the same quote.
pub(crate) fn is_quoted(text: &[u8]) -> bool
    ensures { result ≡ is_quoted text.now }
{
    let len = text.len();
    len >= 2 && (text[0] == b'\'' || text[0] == b'"') && text[0] == text[len - 1]
}

/// A text without one pair of quotes around it.
pub(crate) fn without_quotes(text: &[u8]) -> &[u8]
    ensures { result.now ≡ without_quotes text.now }
{
    if is_quoted(text) {
        return &text[1..text.len() - 1];
    }
    text
}

// At this place a comment begins.
fn begins_comment(text: &[u8], at: usize) -> bool
    requires { at < length text.now }
    ensures { result ≡ begins_comment (drop at text.now) }
{
    is_blank(text[at]) && at + 1 < text.len() && text[at + 1] == b'#'
}

/// What is written behind a key's `:`, without its comment and the blanks around it.
pub(crate) fn written_of(text: &[u8]) -> &[u8]
    ensures { result.now ≡ written_of text.now }
{
    without_first_blanks(without_last_blanks(without_comment(text)))
}

/// How many bytes a key at the start of a text has.
pub(crate) fn key_len(text: &[u8]) -> usize
    ensures count { result ≡ prefix_len is_key_byte text.now }
    ensures within { result ≤ length text.now }
{
    let mut at = 0;
    while at < text.len() && is_key_byte(text[at]) {
        at += 1;
    }
    at
}
