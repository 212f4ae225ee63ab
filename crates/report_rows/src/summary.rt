//! What came of the lines of an input, in one row.

ghost use Rattle.std.specs.Prelude.{◌≡◌, [], OnOk};
ghost use Rattle.std.specs.Io.KnownBytes.{Appends};
ghost use Rattle.fmt_ports.specs.Causes.{AppendsPart, Counts as FaultCounts};
ghost use Rattle.command_refusals.specs.Notes.{numbered_row};
ghost use Rattle.report_rows.specs.Rows.{change_word, cost_row, lines_row, summary_row};

use command_refusals::{write_number, write_two};
use fmt_ports::{Failed, Sink, Stream, write_in_pieces};
use itoa::Buffer;
use run_layout::Counts;
use std::alloc::Global;

/// The row that sums an input up.
#[derive(Drop)]
struct SummaryRow<'r> {
    name: &'r str,
    counts: &'r Counts,
    changed: bool,
}

impl Stream for SummaryRow<'_> {
    ghost bytes = { λ row. summary_row row.name.now row.counts.now row.changed };

    fn write<E: Sink>(&self, notes: &mut E) -> Result<(), Failed> {
        write_number(self.name, ": runs ", self.counts.runs, ", searched ", notes)?;
        tell_lines(self.counts, self.changed, notes)
    }
}

/// Tells the summary of an input of this name, in one write: what came of its lines, and whether its text changes. The
/// sink's failure is the only error, and then it took a front of the row.
pub fn tell_summary<E: Sink>(
    alloc: Global,
    name: &str,
    counts: &Counts,
    changed: bool,
    notes: &mut E,
) -> Result<(), Failed>
    ensures ok { OnOk result
        (Appends (E.taken notes.old) (E.taken notes.new) (summary_row name.now counts.now changed)) }
    ensures part { AppendsPart (E.taken notes.old) (E.taken notes.new) (summary_row name.now counts.now changed) }
    ensures counts { FaultCounts (E.faults notes.old) (E.faults notes.new) result }
{
    let row = SummaryRow {
        name,
        counts,
        changed,
    };
    write_in_pieces(alloc, &row, notes)
}

/// Tells how many lines were searched, and what comes behind it in a summary.
fn tell_lines<E: Sink>(counts: &Counts, changed: bool, notes: &mut E) -> Result<(), Failed>
    ensures ok { OnOk result (Appends (E.taken notes.old) (E.taken notes.new) (lines_row counts.now changed)) }
    ensures part { AppendsPart (E.taken notes.old) (E.taken notes.new) (lines_row counts.now changed) }
    ensures counts { FaultCounts (E.faults notes.old) (E.faults notes.new) result }
{
    write_count(counts.searched as u128, ", over ", notes)?;
    tell_cost(counts, changed, notes)
}

/// Tells how many lines weren't searched, what the others cost, and whether the text changes.
fn tell_cost<E: Sink>(counts: &Counts, changed: bool, notes: &mut E) -> Result<(), Failed>
    ensures ok { OnOk result (Appends (E.taken notes.old) (E.taken notes.new) (cost_row counts.now changed)) }
    ensures part { AppendsPart (E.taken notes.old) (E.taken notes.new) (cost_row counts.now changed) }
    ensures counts { FaultCounts (E.faults notes.old) (E.faults notes.new) result }
{
    write_count(counts.over as u128, ", cost ", notes)?;
    write_count(counts.cost, change_word(changed), notes)
}

/// How a summary ends.
fn change_word(changed: bool) -> &'static str
    ensures { result.now ≡ change_word changed }
{
    if changed {
        ", changed\n"
    } else {
        ", unchanged\n"
    }
}

/// Writes a number and a text.
fn write_count<E: Sink>(number: u128, end: &str, notes: &mut E) -> Result<(), Failed>
    ensures ok { OnOk result (Appends (E.taken notes.old) (E.taken notes.new) (numbered_row [] [] number end.now)) }
    ensures part { AppendsPart (E.taken notes.old) (E.taken notes.new) (numbered_row [] [] number end.now) }
    ensures counts { FaultCounts (E.faults notes.old) (E.faults notes.new) result }
{
    let mut buffer = Buffer::new();
    write_two(buffer.format(number), end, notes)
}
