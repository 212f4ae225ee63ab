// The lines of a configuration, with their numbers.
ghost use Rattle.std.specs.Prelude.{◌≡◌, ◌≤◌, ◌^◌, length, IfOk};
ghost use Rattle.std.specs.Option.{option_map};
ghost use Rattle.style_config.specs.Lines.{belongs_to_key, document_text, is_mark, is_passed_over, line_of, line_text};
ghost use Rattle.style_config.specs.Lines.{lines_in};

use crate::pair::{Pair, pair_of};
use crate::text::{blanks_of, without_first_blanks, without_last_blanks};
use bstr::ByteSlice;
use std::alloc::{AllocError, Global};

/// What a line is, if it is no blank line and no comment.
#[derive(Clone, Copy)]
pub(crate) enum Line<'t> {
    /// The mark of a document's begin or end.
    Marker,
    /// A key with its value.
    Entry(Pair<'t>),
    /// A line that belongs to the last key, behind so many blanks.
    Nested(usize, &'t [u8]),
    /// None of these.
    Malformed,
}

/// A line with its number, counted from 1.
#[derive(Clone, Copy)]
pub(crate) struct NumberedLine<'t> {
    pub(crate) number: u32,
    pub(crate) line: Line<'t>,
}

// A blank line, or a comment.
fn is_passed_over(text: &[u8]) -> bool
    ensures { result ≡ is_passed_over text.now }
{
    let rest = without_first_blanks(text);
    rest.is_empty() || rest[0] == b'#'
}

// A line that begins with blanks or with `- ` belongs to the last key.
fn belongs_to_key(text: &[u8]) -> bool
    ensures { result ≡ belongs_to_key text.now }
{
    blanks_of(text) > 0 || text.len() > 1 && text[0] == b'-' && text[1] == b' '
}

// `---` or `...`, blanks at the end aside.
fn is_mark(text: &[u8]) -> bool
    ensures { result ≡ is_mark text.now }
{
    let rest = without_last_blanks(text);
    rest == b"---".as_slice() || rest == b"...".as_slice()
}

// What a line is. None where it is passed over.
fn line_of(text: &[u8]) -> Option<Line<'_>>
    ensures { option_map line_text result ≡ line_of text.now }
{
    if is_passed_over(text) {
        return None;
    }
    if text[0] == b'\t' {
        return Some(Line::Malformed);
    }
    if belongs_to_key(text) {
        return Some(Line::Nested(blanks_of(text), without_first_blanks(text)));
    }
    if is_mark(text) {
        return Some(Line::Marker);
    }
    match pair_of(text) {
        Some(pair) => Some(Line::Entry(pair)),
        None => Some(Line::Malformed),
    }
}

/// The lines of a text that aren't passed over.
#[tactic(auto, using(crate::proofs::Numbers::length_lines))]
pub(crate) fn lines_of(text: &[u8], alloc: Global) -> Result<Vec<NumberedLine<'_>>, AllocError>
    requires { length text.now ≤ 2 ^ 20 }
    ensures { IfOk result (λ lines. document_text lines.items ≡ lines_in text.now) }
{
    let mut lines = Vec::new(alloc);
    let mut number = 1;
    for line in text.lines() {
        if let Some(line) = line_of(line) {
            lines.push(NumberedLine { number, line })?;
        }
        number += 1;
    }
    Ok(lines)
}
