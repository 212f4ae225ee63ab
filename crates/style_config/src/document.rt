// The documents of a configuration.
ghost use Rattle.std.specs.Prelude.{◌≡◌, ◌≤◌, ◌++◌, ◌∷◌, [], filter, length, IfOk};
ghost use Rattle.std.specs.List.{position_or_len};
ghost use Rattle.std.specs.Option.{option_map};
ghost use Rattle.style_table.specs.Range.{IsInRange};
ghost use Rattle.style_config.specs.Lines.{base_after, based_on, document_text, documents_for_c, documents_text};
ghost use Rattle.style_config.specs.Lines.{is_for_c, is_language_of_c, is_marker, line_text, value_at};

use crate::line::{Line, NumberedLine};
use std::alloc::{AllocError, Global};
use style_table::Style;

// The value of this key, if it is that of the line.
fn value_at<'t>(key: &str, line: &Line<'t>) -> Option<&'t [u8]>
    ensures { option_map (λ value. value.now) result ≡ value_at key.now (line_text line.now) }
{
    match line {
        Line::Entry(pair) => {
            if pair.key == key {
                Some(pair.value)
            } else {
                None
            }
        }
        Line::Marker | Line::Nested(_, _) | Line::Malformed => None,
    }
}

// Whether a document may be for this language.
fn is_language_of_c(value: &[u8]) -> bool
    ensures { result ≡ is_language_of_c value.now }
{
    value == b"Cpp".as_slice() || value == b"C".as_slice()
}

// Whether a document is for C: its first `Language` says so, or none says anything.
fn is_for_c(document: &[NumberedLine<'_>]) -> bool
    ensures { result ≡ is_for_c (document_text document.now) }
{
    for line in document {
        if let Some(value) = value_at("Language", &line.line) {
            return is_language_of_c(value);
        }
    }
    true
}

// The style that a line is based on, or the one before.
fn based_on(style: Style, value: Option<&[u8]>) -> Style
    ensures style { result ≡ based_on style (option_map (λ value. value.now) value.entry) }
    ensures range { IsInRange style → IsInRange result }
{
    let Some(value) = value else {
        return style;
    };
    match std::str::from_utf8(value) {
        Ok(name) => Style::named(name).unwrap_or(style),
        Err(_) => style,
    }
}

/// The style that the last `BasedOnStyle` of a document names, or the one before.
pub(crate) fn base_after(style: Style, document: &[NumberedLine<'_>]) -> Style
    ensures style { result ≡ base_after style (document_text document.now) }
    ensures range { IsInRange style → IsInRange result }
{
    let mut style = style;
    for line in document {
        style = based_on(style, value_at("BasedOnStyle", &line.line));
    }
    style
}

// Whether a line is the mark of a document's begin or end.
fn is_marker(line: &Line<'_>) -> bool
    ensures { result ≡ is_marker (line_text line.now) }
{
    match line {
        Line::Marker => true,
        Line::Entry(_) | Line::Nested(_, _) | Line::Malformed => false,
    }
}

// How many lines the first document has.
fn document_len(lines: &[NumberedLine<'_>]) -> usize
    ensures len { result ≡ position_or_len (λ line. is_marker line.line) (document_text lines.now) }
    ensures within { result ≤ length lines.now }
{
    let mut at = 0;
    while at < lines.len() && !is_marker(&lines[at].line) {
        at += 1;
    }
    at
}

// Puts a document behind others, if it is for C.
fn keep_for_c<'l, 't>(
    documents: &mut Vec<&'l [NumberedLine<'t>]>,
    document: &'l [NumberedLine<'t>],
) -> Result<(), AllocError>
    ensures { IfOk result (λ _.
        documents_text documents.new.items
        ≡ documents_text documents.old.items ++ filter is_for_c (document_text document.now ∷ [])) }
{
    if is_for_c(document) {
        documents.push(document)?;
    }
    Ok(())
}

/// The documents that are for C.
pub(crate) fn documents_for_c<'l, 't>(
    alloc: Global,
    lines: &'l [NumberedLine<'t>],
) -> Result<Vec<&'l [NumberedLine<'t>]>, AllocError>
    ensures { IfOk result (λ documents.
        documents_text documents.items ≡ documents_for_c (document_text lines.now)) }
{
    let mut documents = Vec::new(alloc);
    let mut start = 0;
    loop {
        let rest = &lines[start..];
        let len = document_len(rest);
        keep_for_c(&mut documents, &rest[..len])?;
        if len == rest.len() {
            return Ok(documents);
        }
        start += len + 1;
    }
}
