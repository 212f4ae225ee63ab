//! Line ends and indentation in one piece.

ghost use Rattle.std.specs.Prelude.{◌≡◌, ◌≤◌, ℕ, ◌∷◌, ◌++◌, IfSome, IsTrue, length, take};
ghost use Rattle.replacements.specs.GapText.{blanks, indentation, line_ends};

use style_table::{Style, UseTab};

/// Two line ends and 65 blanks.
const LINES: [u8; 67] = *b"\n\n                                                                 ";

/// Line ends and indentation: the first of some bytes, so many of them. There are always 66 to copy.
#[derive(Clone, Copy)]
pub(crate) struct LinesPiece {
    /// The bytes.
    pub bytes: &'static [u8],
    /// How many of them count.
    pub len: usize,
}

/// A line end and so many blanks.
#[inline(always)]
fn one_line(column: u32) -> LinesPiece
    requires { column ≤ 64 }
    ensures within { result.len ≤ length result.bytes.now }
    ensures is { take result.len result.bytes.now ≡ 10 ∷ blanks column }
{
    LinesPiece {
        bytes: &LINES[1..],
        len: 1 + column as usize,
    }
}

/// Two line ends and so many blanks.
#[inline(always)]
fn two_lines(column: u32) -> LinesPiece
    requires { column ≤ 64 }
    ensures within { result.len ≤ length result.bytes.now }
    ensures is { take result.len result.bytes.now ≡ 10 ∷ 10 ∷ blanks column }
{
    LinesPiece {
        bytes: &LINES[..66],
        len: 2 + column as usize,
    }
}

/// Whether a style indents with blanks alone.
#[inline(always)]
fn uses_no_tabs(style: &Style) -> bool
    ensures { IsTrue result → (own column : ℕ) → indentation style.now own column ≡ blanks column }
{
    match style.use_tab {
        UseTab::Never => true,
        UseTab::ForIndentation => false,
        UseTab::ForContinuationAndIndentation => false,
        UseTab::AlignWithSpaces => false,
        UseTab::Always => false,
    }
}

/// So many line ends and then indentation up to a column, whatever the level: told for one or two line ends without
/// a carriage return and up to 64 blanks, as most are.
#[inline(always)]
pub(crate) fn lines_front(style: &Style, crlf: bool, count: u32, column: u32) -> Option<LinesPiece>
    ensures within { IfSome result (λ piece. piece.len ≤ length piece.bytes.now) }
    ensures is { IfSome result (λ piece.
        (own : ℕ) → take piece.len piece.bytes.now ≡ line_ends crlf count ++ indentation style.now own column) }
{
    if crlf {
        return None;
    }
    if column > 64 {
        return None;
    }
    if uses_no_tabs(style) {
        return match count {
            1 => Some(one_line(column)),
            2 => Some(two_lines(column)),
            _ => None,
        };
    }
    None
}
