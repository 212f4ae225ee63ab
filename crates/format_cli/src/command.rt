//! The top call.

ghost use Rattle.std.specs.Prelude.{◌≡◌, ◌&&◌, ◌≢◌, ◌⊎◌, ◌<◌, ◌≤◌, ℕ, IfErr, IfOk, false, map, string_bytes};
ghost use Rattle.std.specs.Io.KnownBytes.{Appends, Keeps};
ghost use Rattle.fmt_ports.specs.Causes.{AppendsPart, Rose};
ghost use Rattle.fmt_ports.specs.Files.{KeepsAll};
ghost use Rattle.style_table.specs.Range.{IsInRange};
ghost use Rattle.style_config.specs.Dump.{dump_text};
ghost use Rattle.format_cli.specs.Account.{EndsWell, IsNotPerformed, IsPerformedWith, IsRefused};
ghost use Rattle.format_cli.specs.Account.{outcome_of, outcome_status, place_of, world};
ghost use Rattle.format_cli.specs.Causes.{IsRefusedFor};
ghost use Rattle.command_refusals.specs.Counts.{Counted, Faults};
ghost use Rattle.format_cli.specs.Statuses.{AreBadWords, AsksWhetherChanged, HasNoStyle, HasRefusedInput, IsStatus};
ghost use Rattle.format_cli.specs.Statuses.{LacksName, LeavesFiles, LeavesOutput};
ghost use Rattle.format_cli.specs.Order.{LacksRows, StopsWith};

use crate::input::{Options, Place, format_files, format_generated, format_source};
use command_refusals::{Refusal, refusal_of, status_of, style_in_force, tell};
use command_words::{Words, read_words};
use fmt_ports::{Failed, Files, Sink, Source};
use std::alloc::Global;
use style_config::dump;
use style_table::Style;

/// How a call ends that does all that its words ask for.
#[derive(Clone, Copy)]
pub enum Outcome {
    /// No text was to be told of.
    Done,
    /// A dry run with `--Werror` found a text that would change.
    WouldChange,
}

/// Where the texts go.
fn place_of(dry_run: bool, in_place: bool) -> Place
    ensures { result ≡ place_of dry_run in_place }
{
    if dry_run {
        Place::Nowhere
    } else if in_place {
        Place::Itself
    } else {
        Place::Output
    }
}

/// Writes the style to the output. No text changes by it.
fn dump_style<K: Sink>(style: &Style, out: &mut K) -> Result<bool, Refusal<'static>>
    ensures done { IfOk result (λ changes.
        (changes ≡ false) × Appends (K.taken out.old) (K.taken out.new) (dump_text style.now)) }
    ensures refused { IfErr result (λ refusal.
        (refusal ≡ Refusal.OutFailed) × AppendsPart (K.taken out.old) (K.taken out.new) (dump_text style.now)) }
    ensures counts { (f : Faults) →
        Counted (record f { out = K.faults out.old }) (record f { out = K.faults out.new }) result }
{
    match dump(style, out) {
        Ok(()) => Ok(false),
        Err(Failed) => Err(Refusal::OutFailed),
    }
}

/// Does what the words ask for: dumps the style, or formats each input. The answer is whether some text changes.
fn perform<'w, S: Source, K: Sink, E: Sink, F: Files>(
    alloc: Global,
    said: &Words<'w>,
    style: &Style,
    source: &mut S,
    out: &mut K,
    notes: &mut E,
    files: &mut F,
) -> Result<bool, Refusal<'w>>
    requires range { IsInRange style.now }
    requires budget { said.now.budget ≤ 16000000 }
    ensures done { IfOk result (λ changes.
        IsPerformedWith said.now style.now
        (world (S.left source.old) (K.taken out.old) (F.holds files.old) (E.taken notes.old))
        (world (S.left source.new) (K.taken out.new) (F.holds files.new) (E.taken notes.new)) changes) }
    ensures refused { IfErr result (IsNotPerformed said.now style.now
        (world (S.left source.old) (K.taken out.old) (F.holds files.old) (E.taken notes.old))
        (world (S.left source.new) (K.taken out.new) (F.holds files.new) (E.taken notes.new))) }
    ensures counts { (f : Faults) →
        Counted (record f {
          source = S.faults source.old;
          out = K.faults out.old;
          notes = E.faults notes.old;
          files = F.faults files.old;
          misses = F.misses files.old;
        })
        (record f {
          source = S.faults source.new;
          out = K.faults out.new;
          notes = E.faults notes.new;
          files = F.faults files.new;
          misses = F.misses files.new;
        }) result }
{
    if said.dump_config {
        return dump_style(style, out);
    }
    let options = Options {
        style,
        ranges: said.lines.as_ref(),
        budget: said.budget,
    };
    if let Some(generate) = said.generate {
        return format_generated(alloc, &options, generate, notes);
    }
    let place = place_of(said.dry_run, said.in_place);
    if said.files.is_empty() {
        return format_source(alloc, &options, place, source, out, notes);
    }
    format_files(alloc, &options, place, &said.files, out, notes, files)
}

/// How a call ends, where all was done, and these tell whether the words ask for texts that change and whether some
/// text does.
fn outcome_of(asks: bool, changes: bool) -> Outcome
    ensures { result ≡ outcome_of asks changes }
{
    if asks && changes {
        Outcome::WouldChange
    } else {
        Outcome::Done
    }
}

/// Whether the words ask for texts that change.
fn asks_for_changes(said: &Words) -> bool
    ensures { result ≡ (said.now.dry_run && said.now.werror) }
{
    said.dry_run && said.werror
}

/// Reads the words and the style, and does what they ask for.
fn run<'w, S: Source, K: Sink, E: Sink, F: Files>(
    alloc: Global,
    words: &'w [String],
    source: &mut S,
    out: &mut K,
    notes: &mut E,
    files: &mut F,
) -> Result<Outcome, Refusal<'w>>
    ensures done { IfOk result (λ outcome.
        EndsWell (map string_bytes words.entry.now)
        (world (S.left source.old) (K.taken out.old) (F.holds files.old) (E.taken notes.old))
        (world (S.left source.new) (K.taken out.new) (F.holds files.new) (E.taken notes.new))
        (outcome_status outcome)) }
    ensures refused { IfErr result (IsRefused (map string_bytes words.entry.now)
        (world (S.left source.old) (K.taken out.old) (F.holds files.old) (E.taken notes.old))
        (world (S.left source.new) (K.taken out.new) (F.holds files.new) (E.taken notes.new))) }
    ensures counts { Counted (record {
      source = S.faults source.old;
      out = K.faults out.old;
      notes = E.faults notes.old;
      files = F.faults files.old;
      misses = F.misses files.old;
    })
        (record {
          source = S.faults source.new;
          out = K.faults out.new;
          notes = E.faults notes.new;
          files = F.faults files.new;
          misses = F.misses files.new;
        }) result }
{
    let said = match read_words(alloc, words) {
        Ok(said) => said,
        Err(fault) => return Err(refusal_of(fault)),
    };
    let style = style_in_force(alloc, said.style, notes, files)?;
    let changes = perform(alloc, &said, &style, source, out, notes, files)?;
    Ok(outcome_of(asks_for_changes(&said), changes))
}

/// Formats the inputs that the words name, in the style that they choose, and answers the exit status.
///
/// Without a FILE the input is `source`; the texts go to `out`, or with `-i` back into their files where they
/// change, or with `--dry-run` nowhere. With `--generate` the input is the text that it makes, and no text is
/// written. `--dump-config` writes the style to `out` and reads no input. The first refusal ends the call, in this
/// order: the words, the style, and then each input. Its row is told last in `notes`, behind the rows of the
/// keys of the configuration that no style has, and those of each input: of the lines that are reported, and with
/// `--dry-run` or `--generate` its summary, which are told before its text is written.
///
/// 0: all was done. 1: so it was, and a dry run with `--Werror` found a text that would change. 2: the words. 3: the
/// style. 4: an input is past the limit or has a comment without an end.
/// 5: a port failed. 6: a file isn't there. 7: memory ran out. Inputs before a refusal stay done.
pub fn format_command<S: Source, K: Sink, E: Sink, F: Files>(
    alloc: Global,
    words: &[String],
    source: &mut S,
    out: &mut K,
    notes: &mut E,
    files: &mut F,
) -> u8
    // All that the words ask for was done, in the style in force: each input has a formatted text, its twin that
    // preprocesses alike, which stands in its place; and the notes took the rows of the skipped keys and then those of
    // each input. The status is 1 exactly where the words have `--dry-run` and `--Werror` and some input's text
    // changes.
    ensures done { (result ≡ 0) ⊎ (result ≡ 1) →
        EndsWell (map string_bytes words.now)
        (world (S.left source.old) (K.taken out.old) (F.holds files.old) (E.taken notes.old))
        (world (S.left source.new) (K.taken out.new) (F.holds files.new) (E.taken notes.new)) result }

    // What was done before a refusal, its cause, what the notes took, and the count that it raised: that of what its
    // row names, and no other. Where the notes don't tell what they take, all but the row is said.
    ensures refused { result ≢ 0 → result ≢ 1 →
        IsRefusedFor (map string_bytes words.now)
        (world (S.left source.old) (K.taken out.old) (F.holds files.old) (E.taken notes.old))
        (world (S.left source.new) (K.taken out.new) (F.holds files.new) (E.taken notes.new))
        (record {
          source = S.faults source.old;
          out = K.faults out.old;
          notes = E.faults notes.old;
          files = F.faults files.old;
          misses = F.misses files.old;
        })
        (record {
          source = S.faults source.new;
          out = K.faults out.new;
          notes = E.faults notes.new;
          files = F.faults files.new;
          misses = F.misses files.new;
        }) result }
    ensures known { IsStatus result }

    // 1 only where the words ask for it.
    ensures changed { result ≡ 1 → AsksWhetherChanged (map string_bytes words.now) }

    // 2 exactly where the words aren't of the form, `--lines`, `--states` or `--generate` isn't in form, `-i` has no
    // FILE without `--dump-config`, `--lines` has two FILEs or more, or `--generate` is given with a FILE, `-i` or
    // `--dump-config`, want of memory aside.
    ensures usage { result ≡ 2 → AreBadWords (map string_bytes words.now) }
    ensures form { AreBadWords (map string_bytes words.now) → (result ≡ 2) ⊎ (result ≡ 7) }

    // 3 only for the style that the words choose: its name, its length or its fault.
    ensures style { result ≡ 3 → HasNoStyle (map string_bytes words.now) (F.holds files.old) 3 }

    // 3, 4 and 6 always where names and bytes tell a first refusal of that status, a fault of a port and want of memory
    // aside.
    ensures first { (status : ℕ) →
        StopsWith (map string_bytes words.now) (S.left source.old) (F.holds files.old) status →
        (result ≡ status) ⊎ (result ≡ 5) ⊎ (result ≡ 7) }

    // 4 only for the text of an input: its size or a comment without an end. Where files are written it is the text
    // that stands there at its turn (`refused`).
    ensures input { result ≡ 4 → LeavesFiles (map string_bytes words.now) →
        HasRefusedInput (map string_bytes words.now) (S.left source.old) (F.holds files.old) 4 }

    // 5 only where a count of faults rose, and always where one is greater than at entry, but for the notes' while a
    // refusal is told.
    ensures failed { result ≡ 5 →
        Rose (S.faults source.old) (S.faults source.new) ⊎ Rose (K.faults out.old) (K.faults out.new)
        ⊎ Rose (E.faults notes.old) (E.faults notes.new) ⊎ Rose (F.faults files.old) (F.faults files.new) }
    ensures source_fault { S.faults source.old < S.faults source.new → result ≡ 5 }
    ensures out_fault { K.faults out.old < K.faults out.new → result ≡ 5 }
    ensures file_fault { F.faults files.old < F.faults files.new → result ≡ 5 }
    ensures note_fault { E.faults notes.old < E.faults notes.new → (result ≢ 0) × (result ≢ 1) }

    // 5 where the notes don't take the rows of all skipped keys, want of memory aside.
    ensures skipped { LacksRows (map string_bytes words.now) (F.holds files.old) (E.taken notes.old)
        (E.taken notes.new) →
        (result ≡ 5) ⊎ (result ≡ 7) }

    // With `-i`, `--dry-run` or `--generate` nothing goes to the output; without `-i`, and with `--dry-run`, no file is
    // written. `--dump-config` goes before both.
    ensures out_kept { LeavesOutput (map string_bytes words.now) → Keeps (K.taken out.old) (K.taken out.new) }
    ensures files_kept { LeavesFiles (map string_bytes words.now) → KeepsAll (F.holds files.old) (F.holds files.new) }

    // 6 only where a named file isn't there, and always where the misses are greater than at entry.
    ensures missing_name { result ≡ 6 → LacksName (map string_bytes words.now) (F.holds files.old) }
    ensures missing { result ≡ 6 → Rose (F.misses files.old) (F.misses files.new) }
    ensures misses { F.misses files.old < F.misses files.new → result ≡ 6 }
{
    match run(alloc, words, source, out, notes, files) {
        Ok(Outcome::Done) => 0,
        Ok(Outcome::WouldChange) => 1,
        Err(refusal) => {
            // The status stays where the row can't be told.
            let _ = tell(alloc, refusal, notes);
            status_of(refusal)
        }
    }
}
