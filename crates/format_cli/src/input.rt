//! The inputs: each is read, formatted and put in its place.

ghost use Rattle.std.specs.Prelude.{◌≡◌, ◌≤◌, ◌||◌, IfErr, IfOk, map, not};
ghost use Rattle.std.specs.Io.KnownBytes.{Appends};
ghost use Rattle.fmt_ports.specs.Causes.{AppendsPart};
ghost use Rattle.fmt_ports.specs.Files.{KeepsAll, KeepsOthers};
ghost use Rattle.c_grammar.specs.Grammar.{is_same};
ghost use Rattle.style_table.specs.Range.{IsInRange};
ghost use Rattle.format_core.specs.TextOf.{text_of as laid_text};
ghost use Rattle.command_refusals.specs.Counts.{Counted, Faults};
ghost use Rattle.format_cli.specs.Options.{values_of};
ghost use Rattle.format_cli.specs.Generated.{IsGeneratedDoneWith, IsGeneratedRefused, text_of};
ghost use Rattle.command_refusals.specs.InForce.{IsHeld};
ghost use Rattle.format_cli.specs.Inputs.{AreDoneWith, AreRefused, FilePutFails, FilePuts, IsDoneWith, IsFileCause};
ghost use Rattle.format_cli.specs.Inputs.{IsFileRefused, IsFormatted, IsSourceCause, IsSourceDoneWith, IsSourceRefused};
ghost use Rattle.format_cli.specs.Inputs.{IsTextCause, IsTextRefused, IsTextTold, IsTold, IsWriteRefused};
ghost use Rattle.format_cli.specs.Inputs.{SourcePutFails, SourcePuts, ends, file_refusal, text_refusal};

use crate::told::tell_input;
use bumpalo::Bump;
use c_chars::{Dialect, LIMIT};
use command_refusals::{GENERATED, Refusal, STANDARD_INPUT};
use command_words::{Generate, generated};
use fmt_ports::{Failed, FileFault, Files, InFault, Sink, Source, read_all};
use format_core::{FormatFault, Formatted, Job, format};
use off_regions::Ranges;
use std::alloc::{AllocError, Global};
use style_table::Style;

/// How texts are formatted.
#[derive(Clone, Copy)]
pub struct Options<'o> {
    /// The style in force.
    pub style: &'o Style,
    /// The lines that are asked for, all where there are no ranges.
    pub ranges: Option<&'o Ranges>,
    /// How many cells the search of a line may have.
    pub budget: u64,
}

/// Where the texts go.
#[derive(Clone, Copy)]
pub enum Place {
    /// To the output, in order.
    Output,
    /// Into the file itself, where its text changes. Standard input has none: its text goes to the output.
    Itself,
    /// Nowhere: a summary is told in its place.
    Nowhere,
}

/// The refusal of an input of this name whose text isn't formatted.
fn text_refusal<'w>(name: &'w str, fault: FormatFault) -> Refusal<'w>
    ensures { result ≡ text_refusal name.entry fault }
{
    match fault {
        FormatFault::UnterminatedComment { start } => Refusal::OpenComment {
            input: name,
            at: start,
        },
        FormatFault::TooLarge { .. } => Refusal::TooLarge(name),
        FormatFault::NoMemory => Refusal::NoMemory,
    }
}

/// The formatted text of an input of this name.
fn formatted<'a, 's, 'w>(
    alloc: Global,
    bump: &'a Bump,
    options: &Options<'_>,
    name: &'w str,
    text: &'s [u8],
) -> Result<Formatted<'a, 's>, Refusal<'w>>
    requires range { IsInRange options.now.style.now }
    requires budget { options.now.budget ≤ 16000000 }
    ensures formats { IfOk result (λ made.
        (is : IsFormatted (values_of options.now) text.now (laid_text made.laid)) × (made.reports.now ≡ is.reports)
        × (made.counts ≡ is.counts)) }
    ensures changed { IfOk result (λ made. made.changed ≡ not (is_same (laid_text made.laid) text.now)) }
    ensures refused { IfErr result (IsTextCause name.entry.now text.now) }
    ensures counts { (f : Faults) → Counted f f result }
{
    let job = Job {
        budget: options.budget,
        dialect: Dialect::C11,
        ranges: options.ranges,
    };
    match format(alloc, bump, text, options.style, &job) {
        Ok(formatted) => Ok(formatted),
        Err(fault) => Err(text_refusal(name, fault)),
    }
}

/// The formatted text of an input of this name, whose reports were told, and in a dry run its summary.
fn format_and_tell<'a, 's, 'w, E: Sink>(
    alloc: Global,
    bump: &'a Bump,
    options: &Options<'_>,
    place: Place,
    name: &'w str,
    text: &'s [u8],
    notes: &mut E,
) -> Result<Formatted<'a, 's>, Refusal<'w>>
    requires range { IsInRange options.now.style.now }
    requires budget { options.now.budget ≤ 16000000 }
    ensures told { IfOk result (λ made.
        IsTextTold (values_of options.now) place name.entry.now text.now (laid_text made.laid) (E.taken notes.old)
        (E.taken notes.new)) }
    ensures changed { IfOk result (λ made. made.changed ≡ not (is_same (laid_text made.laid) text.now)) }
    ensures refused { IfErr result
        (IsTextRefused (values_of options.now) place name.entry.now text.now (E.taken notes.old) (E.taken notes.new)) }
    ensures counts { (f : Faults) →
        Counted (record f { notes = E.faults notes.old }) (record f { notes = E.faults notes.new }) result }
{
    let formatted = formatted(alloc, bump, options, name, text)?;
    match tell_input(alloc, name, options.budget, place, &formatted, notes) {
        Ok(()) => Ok(formatted),
        Err(Failed) => Err(Refusal::NotesFailed),
    }
}

/// The bytes of standard input.
fn read_source<S: Source>(alloc: Global, source: &mut S) -> Result<Vec<u8>, Refusal<'static>>
    ensures bytes { IfOk result (λ text. IsTold (S.left source.old) text.items) }
    ensures refused { IfErr result (IsSourceCause (S.left source.old)) }
    ensures counts { (f : Faults) →
        Counted (record f { source = S.faults source.old }) (record f { source = S.faults source.new }) result }
{
    match read_all(alloc, source, LIMIT as u64) {
        Ok(text) => Ok(text),
        Err(InFault::Failed) => Err(Refusal::SourceFailed),
        Err(InFault::TooLong) => Err(Refusal::TooLarge(STANDARD_INPUT)),
        Err(InFault::NoMemory) => Err(Refusal::NoMemory),
    }
}

/// Writes a formatted text to the output. The answer is whether the text changes.
fn write_text<K: Sink>(
    alloc: Global,
    formatted: &Formatted<'_, '_>,
    out: &mut K,
) -> Result<bool, Refusal<'static>>
    ensures done { IfOk result (λ changes. (changes ≡ formatted.now.changed)
        × Appends (K.taken out.old) (K.taken out.new) (laid_text formatted.now.laid)) }
    ensures refused { IfErr result (λ refusal. (refusal ≡ Refusal.OutFailed)
        × AppendsPart (K.taken out.old) (K.taken out.new) (laid_text formatted.now.laid)) }
    ensures counts { (f : Faults) →
        Counted (record f { out = K.faults out.old }) (record f { out = K.faults out.new }) result }
{
    match formatted.write(alloc, out) {
        Ok(()) => Ok(formatted.changed),
        Err(Failed) => Err(Refusal::OutFailed),
    }
}

/// Writes the formatted text of standard input, or in a dry run nothing. The answer is whether the text changes.
fn put_source<K: Sink>(
    alloc: Global,
    place: Place,
    formatted: &Formatted<'_, '_>,
    out: &mut K,
) -> Result<bool, Refusal<'static>>
    ensures done { IfOk result (λ changes. (changes ≡ formatted.now.changed)
        × SourcePuts place (laid_text formatted.now.laid) (K.taken out.old) (K.taken out.new)) }
    ensures refused { IfErr result (λ refusal. (refusal ≡ Refusal.OutFailed)
        × SourcePutFails place (laid_text formatted.now.laid) (K.taken out.old) (K.taken out.new)) }
    ensures counts { (f : Faults) →
        Counted (record f { out = K.faults out.old }) (record f { out = K.faults out.new }) result }
{
    match place {
        Place::Output => write_text(alloc, formatted, out),
        Place::Itself => write_text(alloc, formatted, out),
        Place::Nowhere => Ok(formatted.changed),
    }
}

/// Formats standard input: tells its reports, and writes its text, or in a dry run tells its summary. The answer is
/// whether its text changes.
pub fn format_source<S: Source, K: Sink, E: Sink>(
    alloc: Global,
    options: &Options<'_>,
    place: Place,
    source: &mut S,
    out: &mut K,
    notes: &mut E,
) -> Result<bool, Refusal<'static>>
    requires range { IsInRange options.now.style.now }
    requires budget { options.now.budget ≤ 16000000 }
    ensures done { IfOk result (λ changes.
        IsSourceDoneWith (values_of options.now) place (S.left source.old) (K.taken out.old) (K.taken out.new)
        (E.taken notes.old) (E.taken notes.new) changes) }
    ensures refused { IfErr result (IsSourceRefused (values_of options.now) place (S.left source.old) (K.taken out.old)
        (K.taken out.new) (E.taken notes.old) (E.taken notes.new)) }
    ensures counts { (f : Faults) →
        Counted (record f { source = S.faults source.old; out = K.faults out.old; notes = E.faults notes.old })
        (record f { source = S.faults source.new; out = K.faults out.new; notes = E.faults notes.new }) result }
{
    let text = read_source(alloc, source)?;
    let bump = Bump::new(alloc);
    let made = format_and_tell(alloc, &bump, options, place, STANDARD_INPUT, &text, notes)?;
    put_source(alloc, place, &made, out)
}

/// Formats the text that `--generate` makes: tells its reports and its summary, and writes no text. The answer is
/// whether the text changes.
pub fn format_generated<E: Sink>(
    alloc: Global,
    options: &Options<'_>,
    generate: Generate,
    notes: &mut E,
) -> Result<bool, Refusal<'static>>
    requires range { IsInRange options.now.style.now }
    requires budget { options.now.budget ≤ 16000000 }
    ensures done { IfOk result (λ changes.
        IsGeneratedDoneWith (values_of options.now) (text_of generate) (E.taken notes.old) (E.taken notes.new)
        changes) }
    ensures refused { IfErr result
        (IsGeneratedRefused (values_of options.now) (text_of generate) (E.taken notes.old) (E.taken notes.new)) }
    ensures counts { (f : Faults) →
        Counted (record f { notes = E.faults notes.old }) (record f { notes = E.faults notes.new }) result }
{
    let text = match generated(alloc, generate.seed, generate.count) {
        Ok(text) => text,
        Err(AllocError) => return Err(Refusal::NoMemory),
    };
    let bump = Bump::new(alloc);
    let made = format_and_tell(
        alloc,
        &bump,
        options,
        Place::Nowhere,
        GENERATED,
        &text,
        notes,
    )?;
    Ok(made.changed)
}

/// The refusal of a FILE that can't be read or written.
fn file_refusal<'w>(name: &'w str, fault: FileFault) -> Refusal<'w>
    ensures { result ≡ file_refusal name.entry fault }
{
    match fault {
        FileFault::Missing => Refusal::Missing(name),
        FileFault::Failed => Refusal::FileFailed(name),
        FileFault::TooLong => Refusal::TooLarge(name),
        FileFault::NoMemory => Refusal::NoMemory,
    }
}

/// The bytes of a FILE.
fn read_file<'w, F: Files>(name: &'w str, files: &mut F) -> Result<Vec<u8>, Refusal<'w>>
    ensures bytes { IfOk result (λ text. IsHeld (F.holds files.old) name.entry.now text.items) }
    ensures refused { IfErr result (IsFileCause (F.holds files.old) name.entry.now) }
    ensures same { KeepsAll (F.holds files.old) (F.holds files.new) }
    ensures counts { (f : Faults) →
        Counted (record f { files = F.faults files.old; misses = F.misses files.old })
        (record f { files = F.faults files.new; misses = F.misses files.new }) result }
{
    match files.read(name, LIMIT as u64) {
        Ok(text) => Ok(text),
        Err(fault) => Err(file_refusal(name, fault)),
    }
}

/// Writes a file back: its text is made in memory for that. The answer is whether the text changes.
fn write_back<'w, F: Files>(
    alloc: Global,
    name: &'w str,
    formatted: &Formatted<'_, '_>,
    files: &mut F,
) -> Result<bool, Refusal<'w>>
    ensures done { IfOk result (λ changes. (changes ≡ formatted.now.changed)
        × IsHeld (F.holds files.new) name.entry.now (laid_text formatted.now.laid)
        × KeepsOthers name.entry.now (F.holds files.old) (F.holds files.new)) }
    ensures refused { IfErr result (IsWriteRefused name.entry.now (F.holds files.old) (F.holds files.new)) }
    ensures counts { (f : Faults) →
        Counted (record f { files = F.faults files.old; misses = F.misses files.old })
        (record f { files = F.faults files.new; misses = F.misses files.new }) result }
{
    let text = match formatted.bytes(alloc) {
        Ok(text) => text,
        Err(AllocError) => return Err(Refusal::NoMemory),
    };
    match files.write(name, &text) {
        Ok(()) => Ok(formatted.changed),
        Err(fault) => Err(file_refusal(name, fault)),
    }
}

/// Puts the formatted text of a FILE in its place, or in a dry run nowhere. A text that stays as it was isn't written
/// back. The answer is whether the text changes.
fn put_file<'w, K: Sink, F: Files>(
    alloc: Global,
    place: Place,
    name: &'w str,
    formatted: &Formatted<'_, '_>,
    out: &mut K,
    files: &mut F,
) -> Result<bool, Refusal<'w>>
    ensures done { IfOk result (λ changes. (changes ≡ formatted.now.changed)
        × FilePuts place name.entry.now (laid_text formatted.now.laid) formatted.now.changed (K.taken out.old)
        (K.taken out.new) (F.holds files.old) (F.holds files.new)) }
    ensures refused { IfErr result
        (FilePutFails place name.entry.now (laid_text formatted.now.laid) formatted.now.changed (K.taken out.old)
        (K.taken out.new) (F.holds files.old) (F.holds files.new)) }
    ensures counts { (f : Faults) →
        Counted (record f { out = K.faults out.old; files = F.faults files.old; misses = F.misses files.old })
        (record f { out = K.faults out.new; files = F.faults files.new; misses = F.misses files.new }) result }
{
    match place {
        Place::Output => write_text(alloc, formatted, out),
        Place::Itself => {
            if formatted.changed {
                write_back(alloc, name, formatted, files)
            } else {
                Ok(false)
            }
        }
        Place::Nowhere => {
            // A dry run puts nothing anywhere.
            Ok(formatted.changed)
        }
    }
}

/// Formats a FILE: tells its reports, and puts its text in its place, or in a dry run tells its summary. A text that
/// stays as it was isn't written back. The answer is whether its text changes.
fn format_file<'w, K: Sink, E: Sink, F: Files>(
    alloc: Global,
    options: &Options<'_>,
    place: Place,
    name: &'w str,
    out: &mut K,
    notes: &mut E,
    files: &mut F,
) -> Result<bool, Refusal<'w>>
    requires range { IsInRange options.now.style.now }
    requires budget { options.now.budget ≤ 16000000 }
    ensures done { IfOk result (λ changes.
        IsDoneWith (values_of options.now) place name.entry.now
        (ends (K.taken out.old) (F.holds files.old) (E.taken notes.old))
        (ends (K.taken out.new) (F.holds files.new) (E.taken notes.new)) changes) }
    ensures refused { IfErr result (IsFileRefused (values_of options.now) place name.entry.now
        (ends (K.taken out.old) (F.holds files.old) (E.taken notes.old))
        (ends (K.taken out.new) (F.holds files.new) (E.taken notes.new))) }
    ensures counts { (f : Faults) →
        Counted (record f {
          out = K.faults out.old;
          notes = E.faults notes.old;
          files = F.faults files.old;
          misses = F.misses files.old;
        }) (record f {
          out = K.faults out.new;
          notes = E.faults notes.new;
          files = F.faults files.new;
          misses = F.misses files.new;
        }) result }
{
    let text = read_file(name, files)?;
    let bump = Bump::new(alloc);
    let made = format_and_tell(alloc, &bump, options, place, name, &text, notes)?;
    put_file(alloc, place, name, &made, out, files)
}

/// Whether some text changes, one of those before or the one here.
fn some_changes(before: bool, here: bool) -> bool
    ensures { result ≡ (before || here) }
{
    before || here
}

/// Formats the FILEs in order. The first refusal ends it; those before stay done. The answer is whether some text
/// changes.
pub fn format_files<'w, K: Sink, E: Sink, F: Files>(
    alloc: Global,
    options: &Options<'_>,
    place: Place,
    names: &[&'w str],
    out: &mut K,
    notes: &mut E,
    files: &mut F,
) -> Result<bool, Refusal<'w>>
    requires range { IsInRange options.now.style.now }
    requires budget { options.now.budget ≤ 16000000 }
    ensures done { IfOk result (λ changes.
        AreDoneWith (values_of options.now) place (map (λ name. name.now) names.now)
        (ends (K.taken out.old) (F.holds files.old) (E.taken notes.old))
        (ends (K.taken out.new) (F.holds files.new) (E.taken notes.new)) changes) }
    ensures refused { IfErr result (AreRefused (values_of options.now) place (map (λ name. name.now) names.now)
        (ends (K.taken out.old) (F.holds files.old) (E.taken notes.old))
        (ends (K.taken out.new) (F.holds files.new) (E.taken notes.new))) }
    ensures counts { (f : Faults) →
        Counted (record f {
          out = K.faults out.old;
          notes = E.faults notes.old;
          files = F.faults files.old;
          misses = F.misses files.old;
        }) (record f {
          out = K.faults out.new;
          notes = E.faults notes.new;
          files = F.faults files.new;
          misses = F.misses files.new;
        }) result }
{
    let mut changes = false;
    for name in names {
        let here = format_file(alloc, options, place, name, out, notes, files)?;
        changes = some_changes(changes, here);
    }
    Ok(changes)
}
