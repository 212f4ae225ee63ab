//! The first character of a text, before splices are taken out.

ghost use Rattle.std.specs.Prelude.{◌≡◌, ◌&&◌, ◌<◌, ◌≤◌, length};
ghost use Rattle.c_chars.specs.Characters.{trigraph, IsUnit, begins_trigraph, begins_return, has_trigraphs};

use crate::Dialect;

/// What a trigraph with this last byte stands for, or 0 (C11 5.2.1.1).
#[tactic(auto, unfolding(crate::specs::Characters::trigraph))]
fn trigraph(byte: u8) -> u8
    ensures { result ≡ trigraph byte }
{
    match byte {
        b'=' => b'#',
        b'(' => b'[',
        b'/' => b'\\',
        b')' => b']',
        b'\'' => b'^',
        b'<' => b'{',
        b'!' => b'|',
        b'>' => b'}',
        b'-' => b'~',
        _ => 0,
    }
}

fn begins_trigraph(bytes: &[u8]) -> bool
    ensures { result ≡ begins_trigraph bytes.now }
{
    match bytes {
        [a, b, c, ..] => *a == b'?' && (*b == b'?' && !(trigraph(*c) == 0)),
        _ => false,
    }
}

fn begins_return(bytes: &[u8]) -> bool
    ensures { result ≡ begins_return bytes.now }
{
    match bytes {
        [a, b, ..] => *a == b'\r' && *b == b'\n',
        _ => false,
    }
}

fn has_trigraphs(dialect: Dialect) -> bool
    ensures { result ≡ has_trigraphs dialect }
{
    matches!(dialect, Dialect::C11)
}

/// Whether the text begins with a trigraph of the dialect.
fn replaces(dialect: Dialect, bytes: &[u8]) -> bool
    ensures { result ≡ (has_trigraphs dialect && begins_trigraph bytes.now) }
{
    has_trigraphs(dialect) && begins_trigraph(bytes)
}

/// The first character before splices are taken out, and how many bytes it has.
pub(crate) fn unit(dialect: Dialect, bytes: &[u8]) -> (u8, usize)
    requires { 0 < length bytes.now }
    ensures unit { IsUnit dialect bytes.now result.0 result.1 }
    ensures within { result.1 ≤ length bytes.now }
    ensures some { 0 < result.1 }
{
    if replaces(dialect, bytes) {
        (trigraph(bytes[2]), 3)
    } else if begins_return(bytes) {
        (b'\n', 2)
    } else {
        (bytes[0], 1)
    }
}
