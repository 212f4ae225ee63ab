//! Which style is in force.

ghost use Rattle.std.specs.Prelude.{◌≡◌, ◌≤◌, List, ℕ, IfErr, IfOk, OnOk, None, Some, length};
ghost use Rattle.std.specs.Io.KnownBytes.{Appends};
ghost use Rattle.fmt_ports.specs.Causes.{AppendsPart, Counts};
ghost use Rattle.fmt_ports.specs.Files.{KeepsAll};
ghost use Rattle.style_config.specs.declared.TheConstants.{LIMIT as CONFIGURATION_LIMIT};
ghost use Rattle.style_table.specs.Named.{named};
ghost use Rattle.style_table.specs.Range.{IsInRange};
ghost use Rattle.command_refusals.specs.Counts.{Counted, Faults};
ghost use Rattle.command_refusals.specs.InForce.{Configures, IsConfigurationRefused, IsInForce, IsStyleRefused};
ghost use Rattle.command_refusals.specs.InForce.{lacking_refusal};
ghost use Rattle.command_refusals.specs.Notes.{skipped_row, skipped_rows};

use crate::refusal::Refusal;
use crate::rows::{write_number, write_two};
use command_words::StyleChoice;
use fmt_ports::{Failed, FileFault, Files, Sink, Stream, write_in_pieces};
use std::alloc::Global;
use style_config::{ConfigFault, LIMIT, SkippedKey};
use style_table::Style;

/// The configuration of the working folder.
const DEFAULT_FILE: &str = ".clang-format";

/// The style that configurations change, and that is in force where there is none.
const BASE: &str = "LLVM";

/// The style that the words choose, and its skipped keys told.
///
/// Refused where no style has the name, the configuration isn't there, is too long or is at fault, and where
/// the notes fail.
pub fn style_in_force<'w, E: Sink, F: Files>(
    alloc: Global,
    choice: StyleChoice<'w>,
    notes: &mut E,
    files: &mut F,
) -> Result<Style, Refusal<'w>>
    ensures range { IfOk result (λ style. IsInRange style) }
    ensures chosen { IfOk result (λ style.
        (rows : List ℕ) × IsInForce choice.entry (F.holds files.old) style rows
        × Appends (E.taken notes.old) (E.taken notes.new) rows) }
    ensures refused { IfErr result
        (IsStyleRefused choice.entry (F.holds files.old) (E.taken notes.old) (E.taken notes.new)) }
    ensures same { KeepsAll (F.holds files.old) (F.holds files.new) }
    ensures counts { (f : Faults) →
        Counted (record f { notes = E.faults notes.old; files = F.faults files.old; misses = F.misses files.old })
        (record f { notes = E.faults notes.new; files = F.faults files.new; misses = F.misses files.new })
        result }
{
    match choice {
        StyleChoice::Named(name) => named_style(name),
        StyleChoice::FileAt(path) => match files.read(path, LIMIT as u64) {
            Ok(text) => configured(alloc, path, &text, notes),
            Err(fault) => Err(lacking(path, fault)),
        },
        StyleChoice::File => match files.find(DEFAULT_FILE, LIMIT as u64) {
            Ok(Some(text)) => configured(alloc, DEFAULT_FILE, &text, notes),
            Ok(None) => named_style(BASE),
            Err(fault) => Err(lacking(DEFAULT_FILE, fault)),
        },
    }
}

/// The style of this name.
fn named_style<'w>(name: &'w str) -> Result<Style, Refusal<'w>>
    ensures range { IfOk result (λ style. IsInRange style) }
    ensures table { IfOk result (λ style. named name.entry.now ≡ Some style) }
    ensures unknown { IfErr result
        (λ refusal. (refusal ≡ Refusal.UnknownStyle name.entry) × (named name.entry.now ≡ None)) }
{
    match Style::named(name) {
        Some(style) => Ok(style),
        None => Err(Refusal::UnknownStyle(name)),
    }
}

/// Why a configuration can't be had.
fn lacking<'w>(file: &'w str, fault: FileFault) -> Refusal<'w>
    ensures { result ≡ lacking_refusal file.entry fault }
{
    match fault {
        FileFault::Missing => Refusal::Missing(file),
        FileFault::Failed => Refusal::FileFailed(file),
        FileFault::TooLong => Refusal::LongConfiguration(file),
        FileFault::NoMemory => Refusal::NoMemory,
    }
}

/// The style that a configuration makes of the base, and its skipped keys told.
fn configured<'w, E: Sink>(
    alloc: Global,
    file: &'w str,
    text: &[u8],
    notes: &mut E,
) -> Result<Style, Refusal<'w>>
    requires { length text.now ≤ CONFIGURATION_LIMIT }
    ensures range { IfOk result (λ style. IsInRange style) }
    ensures made { IfOk result (λ style.
        (rows : List ℕ) × Configures file.entry.now text.now style rows
        × Appends (E.taken notes.old) (E.taken notes.new) rows) }
    ensures refused { IfErr result
        (IsConfigurationRefused file.entry text.now (E.taken notes.old) (E.taken notes.new)) }
    ensures counts { (f : Faults) →
        Counted (record f { notes = E.faults notes.old }) (record f { notes = E.faults notes.new }) result }
{
    let base = named_style(BASE)?;
    match style_config::read(alloc, text, base) {
        Ok((style, skipped)) => match tell_skipped(alloc, file, skipped.keys(), notes) {
            Ok(()) => Ok(style),
            Err(Failed) => Err(Refusal::NotesFailed),
        },
        Err(ConfigFault::NoMemory) => Err(Refusal::NoMemory),
        Err(fault) => Err(Refusal::BadConfiguration { file, fault }),
    }
}

/// Tells the skipped keys of a configuration, a row each.
fn tell_skipped<E: Sink>(
    alloc: Global,
    file: &str,
    keys: &[SkippedKey],
    notes: &mut E,
) -> Result<(), Failed>
    ensures ok { OnOk result (Appends (E.taken notes.old) (E.taken notes.new) (skipped_rows file.now keys.now)) }
    ensures part { AppendsPart (E.taken notes.old) (E.taken notes.new) (skipped_rows file.now keys.now) }
    ensures counts { Counts (E.faults notes.old) (E.faults notes.new) result }
{
    for key in keys {
        tell_key(alloc, file, key, notes)?;
    }
    Ok(())
}

/// The row of a key that no style has.
#[derive(Drop)]
struct SkippedRow<'r> {
    file: &'r str,
    key: &'r SkippedKey,
}

impl Stream for SkippedRow<'_> {
    ghost bytes = { λ row. skipped_row row.file.now row.key.now };

    fn write<E: Sink>(&self, notes: &mut E) -> Result<(), Failed> {
        write_number(self.file, ":", self.key.line, ": skipped ", notes)?;
        write_two(self.key.key.text(), "\n", notes)
    }
}

/// Tells a key that no style has, in one write.
fn tell_key<E: Sink>(
    alloc: Global,
    file: &str,
    key: &SkippedKey,
    notes: &mut E,
) -> Result<(), Failed>
    ensures ok { OnOk result (Appends (E.taken notes.old) (E.taken notes.new) (skipped_row file.now key.now)) }
    ensures part { AppendsPart (E.taken notes.old) (E.taken notes.new) (skipped_row file.now key.now) }
    ensures counts { Counts (E.faults notes.old) (E.faults notes.new) result }
{
    write_in_pieces(alloc, &SkippedRow { file, key }, notes)
}
