//! Refusals, and how they are told.

ghost use Rattle.std.specs.Prelude.{◌≡◌, ◌++◌, OnOk, codes};
ghost use Rattle.std.specs.Io.KnownBytes.{Appends};
ghost use Rattle.fmt_ports.specs.Causes.{AppendsPart, Counts};
ghost use Rattle.command_refusals.specs.Notes.{fault_row, range_row, row_of, status_of};
ghost use Rattle.command_refusals.specs.Rows.{bytes_of};

use crate::rows::{LINES, Row};
use command_words::USAGE;
use fmt_ports::{Failed, Sink, write_in_pieces};
use off_regions::RangeFault;
use std::alloc::Global;
use style_config::ConfigFault;

/// The name of the input where the words give no FILE.
pub const STANDARD_INPUT: &str = "<stdin>";

/// The name of the input that `--generate` makes.
pub const GENERATED: &str = "<generated>";

/// What the row of a value of `--states` begins with.
const STATES: &str = "clang_format: --states ";

/// What the row of a value of `--generate` begins with.
const GENERATE: &str = "clang_format: --generate ";

/// The row that tells what `--generate` can't stand beside.
const GENERATE_BESIDE: &str = "clang_format: --generate takes no file, -i or --dump-config\n";

/// What is told of an input or a file that can't be read or written.
const FAILED: &str = ": failed\n";

/// The row that tells want of memory.
const NO_MEMORY: &str = "clang_format: no memory\n";

/// Why the command ends early. A name is that of an input, a configuration or a style.
#[derive(Clone, Copy)]
pub enum Refusal<'w> {
    /// The words aren't of the command's form.
    BadWords,
    /// This value of `--lines` is no list of ranges.
    BadLines { word: &'w str, fault: RangeFault },
    /// This value of `--states` tells no budget.
    BadStates(&'w str),
    /// `-i` has no FILE.
    NoInput,
    /// `--lines` has two FILEs or more.
    ManyFiles,
    /// This value of `--generate` isn't N:COUNT.
    BadGenerate(&'w str),
    /// `--generate` stands beside a FILE, `-i` or `--dump-config`.
    GenerateBeside,
    /// No style has this name.
    UnknownStyle(&'w str),
    /// The configuration has more than [`style_config::LIMIT`] bytes.
    LongConfiguration(&'w str),
    /// The configuration is at fault.
    BadConfiguration { file: &'w str, fault: ConfigFault },
    /// The input has more than `c_chars::LIMIT` bytes.
    TooLarge(&'w str),
    /// A block comment begins at this offset of the input, and nothing ends it.
    OpenComment { input: &'w str, at: u32 },
    /// Standard input can't be read.
    SourceFailed,
    /// A file can't be read or written.
    FileFailed(&'w str),
    /// Standard output can't be written.
    OutFailed,
    /// The notes can't be written.
    NotesFailed,
    /// A file isn't there.
    Missing(&'w str),
    /// Memory ran out.
    NoMemory,
}

/// The exit status of a refusal.
pub fn status_of(refusal: Refusal) -> u8
    ensures { result ≡ status_of refusal.entry }
{
    match refusal {
        Refusal::BadWords
        | Refusal::BadLines { .. }
        | Refusal::BadStates(_)
        | Refusal::NoInput
        | Refusal::ManyFiles
        | Refusal::BadGenerate(_)
        | Refusal::GenerateBeside => 2,
        Refusal::UnknownStyle(_)
        | Refusal::LongConfiguration(_)
        | Refusal::BadConfiguration { .. } => 3,
        Refusal::TooLarge(_) | Refusal::OpenComment { .. } => 4,
        Refusal::SourceFailed
        | Refusal::FileFailed(_)
        | Refusal::OutFailed
        | Refusal::NotesFailed => 5,
        Refusal::Missing(_) => 6,
        Refusal::NoMemory => 7,
    }
}

/// Writes the row that tells a refusal, nothing where the notes have failed: in one write, if there is memory for it.
pub fn tell<E: Sink>(alloc: Global, refusal: Refusal, notes: &mut E) -> Result<(), Failed>
    ensures part { AppendsPart (E.taken notes.old) (E.taken notes.new) (row_of refusal.entry) }
    ensures ok { OnOk result (Appends (E.taken notes.old) (E.taken notes.new) (row_of refusal.entry)) }
    ensures counts { Counts (E.faults notes.old) (E.faults notes.new) result }
{
    let row = row_of(refusal);
    write_in_pieces(alloc, &row, notes)
}

/// The row of a refusal, nothing where the notes have failed.
fn row_of<'w>(refusal: Refusal<'w>) -> Row<'w>
    ensures { bytes_of result ≡ row_of refusal.entry }
{
    match refusal {
        Refusal::BadWords => Row::Named(USAGE, "\n"),
        Refusal::BadLines { word, fault } => lines_row(word, fault),
        Refusal::BadStates(word) => Row::Quoted(STATES, word, ": not 1 to 16000000\n"),
        Refusal::NoInput => Row::Plain("clang_format: -i needs a file\n"),
        Refusal::ManyFiles => Row::Plain("clang_format: --lines takes one file\n"),
        Refusal::BadGenerate(word) => Row::Quoted(GENERATE, word, ": not N:COUNT\n"),
        Refusal::GenerateBeside => Row::Plain(GENERATE_BESIDE),
        Refusal::UnknownStyle(name) => Row::Quoted(
            "clang_format: style ",
            name,
            ": unknown name\n",
        ),
        Refusal::LongConfiguration(file) => Row::Named(file, ": more than 1048576 bytes\n"),
        Refusal::BadConfiguration { file, fault } => fault_row(file, fault),
        Refusal::TooLarge(input) => Row::Named(input, ": more than 8388608 bytes\n"),
        Refusal::OpenComment { input, at } => Row::AtByte(
            input,
            ": comment without an end at byte ",
            at,
        ),
        Refusal::SourceFailed => Row::Named(STANDARD_INPUT, FAILED),
        Refusal::FileFailed(file) => Row::Named(file, FAILED),
        Refusal::OutFailed => Row::Plain("standard output: failed\n"),
        Refusal::NotesFailed => Row::Plain(""),
        Refusal::Missing(file) => Row::Named(file, ": missing\n"),
        Refusal::NoMemory => Row::Plain(NO_MEMORY),
    }
}

/// The row that tells the fault of a value of `--lines`.
fn lines_row<'w>(word: &'w str, fault: RangeFault) -> Row<'w>
    ensures { bytes_of result ≡ codes "clang_format: --lines " ++ word.entry.now ++ range_row fault }
{
    match fault {
        RangeFault::BadText { place } => Row::AtPlace(word, ": bad text at ", place),
        RangeFault::Reversed { place } => Row::AtPlace(word, ": reversed at ", place),
        RangeFault::ZeroLine { place } => Row::AtPlace(word, ": line zero at ", place),
        RangeFault::TooMany => Row::Quoted(LINES, word, ": too many ranges\n"),
        RangeFault::NoMemory => Row::Quoted(LINES, word, ": no memory\n"),
    }
}

/// The row that tells the fault of a configuration.
fn fault_row<'w>(file: &'w str, fault: ConfigFault) -> Row<'w>
    ensures { bytes_of result ≡ fault_row file.entry.now fault }
{
    match fault {
        ConfigFault::NotUtf8 { offset } => Row::AtByte(file, ": not UTF-8 at byte ", offset),
        ConfigFault::BadLine { line } => Row::AtLine(file, line, ": bad line\n"),
        ConfigFault::UnknownStyle { line } => Row::AtLine(file, line, ": unknown style\n"),
        ConfigFault::BadValue { line } => Row::AtLine(file, line, ": bad value\n"),
        ConfigFault::OutOfRange { line } => Row::AtLine(file, line, ": out of range\n"),
        ConfigFault::Repeated { line } => Row::AtLine(file, line, ": repeated key\n"),
        ConfigFault::NoMemory => Row::Plain(NO_MEMORY),
    }
}
