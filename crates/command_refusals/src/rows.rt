//! Rows, in the pieces that they are written in.

ghost use Rattle.std.specs.Prelude.{◌++◌, OnOk, decimal};
ghost use Rattle.std.specs.Io.KnownBytes.{Appends};
ghost use Rattle.fmt_ports.specs.Causes.{AppendsPart, Counts};
ghost use Rattle.command_refusals.specs.Rows.{bytes_of, place_row};

use fmt_ports::{Failed, Sink, Stream, write_all};
use itoa::Buffer;

/// How the row of a fault of a value of `--lines` begins.
pub(crate) const LINES: &str = "clang_format: --lines ";

/// A row, by the texts and the number that it is made of.
#[derive(Drop)]
pub(crate) enum Row<'r> {
    /// A text.
    Plain(&'r str),
    /// A name, and what is told of it.
    Named(&'r str, &'r str),
    /// What a word stands for, the word, and what is told of it.
    Quoted(&'r str, &'r str, &'r str),
    /// A name, what is told of it, and a byte.
    AtByte(&'r str, &'r str, u32),
    /// The name of a file, a line, and what is told of it.
    AtLine(&'r str, u32, &'r str),
    /// A value of `--lines`, what is told of it, and a place.
    AtPlace(&'r str, &'r str, u64),
}

impl Stream for Row<'_> {
    ghost bytes = { bytes_of };

    fn write<E: Sink>(&self, notes: &mut E) -> Result<(), Failed> {
        match *self {
            Row::Plain(text) => write_all(notes, text.as_bytes()),
            Row::Named(name, told) => write_two(name, told, notes),
            Row::Quoted(before, word, told) => write_three(before, word, told, notes),
            Row::AtByte(name, told, at) => write_number(name, told, at, "\n", notes),
            Row::AtLine(file, line, told) => write_number(file, ":", line, told, notes),
            Row::AtPlace(word, told, place) => write_place(word, told, place, notes),
        }
    }
}

/// Writes the row of a value of `--lines` that is at fault at a place.
fn write_place<E: Sink>(word: &str, told: &str, place: u64, notes: &mut E) -> Result<(), Failed>
    ensures part { AppendsPart (E.taken notes.old) (E.taken notes.new) (place_row word.now told.now place) }
    ensures ok { OnOk result (Appends (E.taken notes.old) (E.taken notes.new) (place_row word.now told.now place)) }
    ensures counts { Counts (E.faults notes.old) (E.faults notes.new) result }
{
    let mut buffer = Buffer::new();
    write_two(LINES, word, notes)?;
    write_three(told, buffer.format(place), "\n", notes)
}

/// Writes a text, a second text, a number and a third text.
pub fn write_number<E: Sink>(
    name: &str,
    before: &str,
    number: u32,
    end: &str,
    notes: &mut E,
) -> Result<(), Failed>
    ensures part { AppendsPart (E.taken notes.old) (E.taken notes.new)
        (name.now ++ before.now ++ decimal number ++ end.now) }
    ensures ok { OnOk result
        (Appends (E.taken notes.old) (E.taken notes.new) (name.now ++ before.now ++ decimal number ++ end.now)) }
    ensures counts { Counts (E.faults notes.old) (E.faults notes.new) result }
{
    let mut buffer = Buffer::new();
    write_three(name, before, buffer.format(number), notes)?;
    write_all(notes, end.as_bytes())
}

/// Writes three texts.
fn write_three<E: Sink>(first: &str, second: &str, third: &str, notes: &mut E) -> Result<(), Failed>
    ensures part { AppendsPart (E.taken notes.old) (E.taken notes.new) (first.now ++ second.now ++ third.now) }
    ensures ok { OnOk result (Appends (E.taken notes.old) (E.taken notes.new) (first.now ++ second.now ++ third.now)) }
    ensures counts { Counts (E.faults notes.old) (E.faults notes.new) result }
{
    write_two(first, second, notes)?;
    write_all(notes, third.as_bytes())
}

/// Writes two texts.
pub fn write_two<E: Sink>(first: &str, second: &str, notes: &mut E) -> Result<(), Failed>
    ensures part { AppendsPart (E.taken notes.old) (E.taken notes.new) (first.now ++ second.now) }
    ensures ok { OnOk result (Appends (E.taken notes.old) (E.taken notes.new) (first.now ++ second.now)) }
    ensures counts { Counts (E.faults notes.old) (E.faults notes.new) result }
{
    write_all(notes, first.as_bytes())?;
    write_all(notes, second.as_bytes())
}
