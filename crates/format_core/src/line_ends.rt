//! How the lines of a formatted text end.

ghost use Rattle.std.specs.Prelude.{◌≡◌, ◌==◌, false};
ghost use Rattle.std.specs.List.{list_any};
ghost use Rattle.format_core.specs.LineEnds.{ends_by, feed_lines, return_lines};

use memchr::memchr;
use style_table::LineEnding;

/// How many lines of a text end in `\r\n`, and how many in `\n` alone.
#[derive(Clone, Copy)]
struct LineCounts {
    returns: usize,
    feeds: usize,
}

fn line_counts(text: &[u8]) -> LineCounts
    ensures returns { result.returns ≡ return_lines false text.now }
    ensures feeds { result.feeds ≡ feed_lines false text.now }
{
    let mut counts = LineCounts {
        returns: 0,
        feeds: 0,
    };
    let mut after = false;
    for byte in text {
        if *byte == b'\n' {
            if after {
                counts.returns += 1;
            } else {
                counts.feeds += 1;
            }
        }
        after = *byte == b'\r';
    }
    counts
}

/// Whether there is a `\r`.
fn has_return(text: &[u8]) -> bool
    ensures { result ≡ list_any (λ b. b == 13) text.now }
{
    memchr(b'\r', text).is_some()
}

/// Whether the lines of a formatted text end in `\r\n`, where this is the input.
pub(crate) fn ends_by(ending: LineEnding, text: &[u8]) -> bool
    ensures { result ≡ ends_by ending text.now }
{
    match ending {
        LineEnding::DeriveLF => {
            // Most texts have no `\r`, and then need no count of lines.
            if !has_return(text) {
                return false;
            }
            let counts = line_counts(text);
            counts.feeds < counts.returns
        }
        LineEnding::DeriveCRLF => {
            let counts = line_counts(text);
            !(counts.returns < counts.feeds)
        }
        LineEnding::LF => false,
        LineEnding::CRLF => true,
    }
}
