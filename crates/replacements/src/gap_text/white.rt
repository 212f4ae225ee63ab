//! Blanks, tabs, line ends and spliced lines.

ghost use Rattle.std.specs.Prelude.{◌≡◌, ◌≤◌, ◌-◌, OnOk, ◌++◌, ◌∷◌, replicate};
ghost use Rattle.std.specs.Io.KnownBytes.{Appends};
ghost use Rattle.fmt_ports.specs.Causes.{AppendsPart, Counts};
ghost use Rattle.replacements.specs.GapText.{blanks, gap_text, indentation, level_columns, line_end, line_ends};
ghost use Rattle.replacements.specs.GapText.{tabs_to};

use crate::Decision;
use crate::gap_text::lines_front;
use fmt_ports::{Failed, Sink, write_all, write_front};
use style_table::{Style, UseTab};

const BLANKS: [u8; 64] = [b' '; 64];

const TABS: [u8; 64] = [b'\t'; 64];

/// So many blanks.
fn some_blanks(count: u32) -> &'static [u8]
    requires { count ≤ 64 }
    ensures { result.now ≡ blanks count }
{
    &BLANKS[..count as usize]
}

/// So many tabs.
fn some_tabs(count: u32) -> &'static [u8]
    requires { count ≤ 64 }
    ensures { result.now ≡ replicate count 9 }
{
    &TABS[..count as usize]
}

/// Writes so many blanks, in pieces of up to 64.
#[inline(never)]
fn write_many_blanks<K: Sink>(count: u32, sink: &mut K) -> Result<(), Failed>
    ensures ok { OnOk result (Appends (K.taken sink.old) (K.taken sink.new) (blanks count)) }
    ensures part { AppendsPart (K.taken sink.old) (K.taken sink.new) (blanks count) }
    ensures counts { Counts (K.faults sink.old) (K.faults sink.new) result }
{
    let mut left = count;
    while left > 0 {
        let piece = left.min(64);
        write_all(sink, some_blanks(piece))?;
        left -= piece;
    }
    Ok(())
}

/// Writes so many blanks. Most are few.
#[inline(always)]
fn write_blanks<K: Sink>(count: u32, sink: &mut K) -> Result<(), Failed>
    ensures ok { OnOk result (Appends (K.taken sink.old) (K.taken sink.new) (blanks count)) }
    ensures part { AppendsPart (K.taken sink.old) (K.taken sink.new) (blanks count) }
    ensures counts { Counts (K.faults sink.old) (K.faults sink.new) result }
{
    if count <= 64 {
        return write_front(sink, &BLANKS, count as usize);
    }
    write_many_blanks(count, sink)
}

/// Writes so many tabs, in pieces of up to 64.
fn write_tabs<K: Sink>(count: u32, sink: &mut K) -> Result<(), Failed>
    ensures ok { OnOk result (Appends (K.taken sink.old) (K.taken sink.new) (replicate count 9)) }
    ensures part { AppendsPart (K.taken sink.old) (K.taken sink.new) (replicate count 9) }
    ensures counts { Counts (K.faults sink.old) (K.faults sink.new) result }
{
    let mut left = count;
    while left > 0 {
        let piece = left.min(64);
        write_all(sink, some_tabs(piece))?;
        left -= piece;
    }
    Ok(())
}

/// Writes so many columns as tabs of a width and blanks.
fn write_tabs_to<K: Sink>(width: u32, column: u32, sink: &mut K) -> Result<(), Failed>
    requires { 1 ≤ width }
    ensures ok { OnOk result (Appends (K.taken sink.old) (K.taken sink.new) (tabs_to width column)) }
    ensures part { AppendsPart (K.taken sink.old) (K.taken sink.new) (tabs_to width column) }
    ensures counts { Counts (K.faults sink.old) (K.faults sink.new) result }
{
    write_tabs(column / width, sink)?;
    write_blanks(column % width, sink)
}

/// Writes the columns of a line's level with tabs, and the rest with blanks.
fn write_level<K: Sink>(width: u32, own: u32, column: u32, sink: &mut K) -> Result<(), Failed>
    requires width { 1 ≤ width }
    requires own { own ≤ column }
    ensures ok { OnOk result
        (Appends (K.taken sink.old) (K.taken sink.new) (tabs_to width own ++ blanks (column - own))) }
    ensures part { AppendsPart (K.taken sink.old) (K.taken sink.new) (tabs_to width own ++ blanks (column - own)) }
    ensures counts { Counts (K.faults sink.old) (K.faults sink.new) result }
{
    write_tabs_to(width, own, sink)?;
    write_blanks(column - own, sink)
}

/// Writes indentation up to a column, of which so many columns are those of the line's level.
#[inline(always)]
fn write_indentation<K: Sink>(
    style: &Style,
    own: u32,
    column: u32,
    sink: &mut K,
) -> Result<(), Failed>
    requires width { 1 ≤ style.now.tab_width }
    requires own { own ≤ column }
    ensures ok { OnOk result (Appends (K.taken sink.old) (K.taken sink.new) (indentation style.now own column)) }
    ensures part { AppendsPart (K.taken sink.old) (K.taken sink.new) (indentation style.now own column) }
    ensures counts { Counts (K.faults sink.old) (K.faults sink.new) result }
{
    match style.use_tab {
        UseTab::Never => write_blanks(column, sink),
        UseTab::ForIndentation => write_level(style.tab_width, own, column, sink),
        UseTab::ForContinuationAndIndentation => write_tabs_to(style.tab_width, column, sink),
        UseTab::AlignWithSpaces => write_level(style.tab_width, own, column, sink),
        UseTab::Always => write_tabs_to(style.tab_width, column, sink),
    }
}

/// The columns of a level, as far as a column.
#[inline(always)]
fn level_columns(style: &Style, level: u32, column: u32) -> u32
    ensures is { result ≡ level_columns style.now level column }
    ensures within { result ≤ column }
{
    level.saturating_mul(style.indent_width).min(column)
}

fn line_end(crlf: bool) -> &'static [u8]
    ensures { result.now ≡ line_end crlf }
{
    if crlf { b"\r\n" } else { b"\n" }
}

/// A backslash that ends its line.
fn splice(crlf: bool) -> &'static [u8]
    ensures { result.now ≡ 92 ∷ line_end crlf }
{
    if crlf { b"\\\r\n" } else { b"\\\n" }
}

#[inline(always)]
fn write_line_ends<K: Sink>(crlf: bool, count: u32, sink: &mut K) -> Result<(), Failed>
    ensures ok { OnOk result (Appends (K.taken sink.old) (K.taken sink.new) (line_ends crlf count)) }
    ensures part { AppendsPart (K.taken sink.old) (K.taken sink.new) (line_ends crlf count) }
    ensures counts { Counts (K.faults sink.old) (K.faults sink.new) result }
{
    for _line in 0..count {
        write_all(sink, line_end(crlf))?;
    }
    Ok(())
}

/// Writes line ends and then indentation at a level.
#[inline(always)]
fn write_lines<K: Sink>(
    style: &Style,
    crlf: bool,
    count: u32,
    column: u32,
    level: u32,
    sink: &mut K,
) -> Result<(), Failed>
    requires { 1 ≤ style.now.tab_width }
    ensures ok { OnOk result (Appends (K.taken sink.old) (K.taken sink.new)
        (line_ends crlf count ++ indentation style.now (level_columns style.now level column) column)) }
    ensures part { AppendsPart (K.taken sink.old) (K.taken sink.new)
        (line_ends crlf count ++ indentation style.now (level_columns style.now level column) column) }
    ensures counts { Counts (K.faults sink.old) (K.faults sink.new) result }
{
    if let Some(piece) = lines_front(style, crlf, count, column) {
        return write_front(sink, piece.bytes, piece.len);
    }
    write_line_ends(crlf, count, sink)?;
    write_indentation(style, level_columns(style, level, column), column, sink)
}

/// Writes a backslash, a line end and the next line's indentation.
fn write_spliced<K: Sink>(
    style: &Style,
    crlf: bool,
    column: u32,
    sink: &mut K,
) -> Result<(), Failed>
    requires { 1 ≤ style.now.tab_width }
    ensures ok { OnOk result
        (Appends (K.taken sink.old) (K.taken sink.new) (92 ∷ line_end crlf ++ indentation style.now column column)) }
    ensures part { AppendsPart (K.taken sink.old) (K.taken sink.new)
        (92 ∷ line_end crlf ++ indentation style.now column column) }
    ensures counts { Counts (K.faults sink.old) (K.faults sink.new) result }
{
    write_all(sink, splice(crlf))?;
    write_indentation(style, column, column, sink)
}

/// Writes the white space of a decision for a gap that has these bytes in the input.
///
/// `crlf` says that the text's lines end in `\r\n`. After `Failed`, the sink took a part of it.
#[inline(always)]
pub fn write_gap<K: Sink>(
    style: &Style,
    crlf: bool,
    decision: Decision,
    old: &[u8],
    sink: &mut K,
) -> Result<(), Failed>
    requires { 1 ≤ style.now.tab_width }
    ensures ok { OnOk result
        (Appends (K.taken sink.old) (K.taken sink.new) (gap_text style.now crlf decision old.now)) }
    ensures part { AppendsPart (K.taken sink.old) (K.taken sink.new) (gap_text style.now crlf decision old.now) }
    ensures counts { Counts (K.faults sink.old) (K.faults sink.new) result }
{
    match decision {
        Decision::Old => write_all(sink, old),
        Decision::Spaces(count) => write_blanks(count, sink),
        Decision::Lines {
            count,
            column,
            level,
        } => write_lines(style, crlf, count, column, level, sink),
        Decision::Splice { pad, column } => {
            write_blanks(pad, sink)?;
            write_spliced(style, crlf, column, sink)
        }
    }
}
