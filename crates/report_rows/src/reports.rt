//! Lines that are reported, and how they are told.

ghost use Rattle.std.specs.Prelude.{◌≤◌, ◌++◌, [], OnOk, codes};
ghost use Rattle.std.specs.Io.KnownBytes.{Appends};
ghost use Rattle.fmt_ports.specs.Causes.{AppendsPart, Counts};
ghost use Rattle.command_refusals.specs.Notes.{numbered_row};
ghost use Rattle.report_rows.specs.Rows.{report_row, report_rows};

use command_refusals::write_number;
use fmt_ports::{Failed, Sink, Stream, write_in_pieces};
use run_layout::Report;
use std::alloc::Global;

/// Tells the lines of an input of this name that are reported, a row each in one write, with the budget of cells that
/// they are past. The sink's failure is the only error, and then it took a front of the rows.
pub fn tell_reports<E: Sink>(
    alloc: Global,
    name: &str,
    budget: u64,
    reports: &[Report],
    notes: &mut E,
) -> Result<(), Failed>
    requires { budget ≤ 16000000 }
    ensures ok { OnOk result
        (Appends (E.taken notes.old) (E.taken notes.new) (report_rows name.now budget reports.now)) }
    ensures part { AppendsPart (E.taken notes.old) (E.taken notes.new) (report_rows name.now budget reports.now) }
    ensures counts { Counts (E.faults notes.old) (E.faults notes.new) result }
{
    for report in reports {
        tell_report(alloc, name, budget, report, notes)?;
    }
    Ok(())
}

/// The row of a line that is reported.
#[derive(Drop)]
struct ReportRow<'r> {
    name: &'r str,
    budget: u64,
    report: &'r Report,
    ghost within: { budget ≤ 16000000 },
}

impl Stream for ReportRow<'_> {
    ghost bytes = { λ row. report_row row.name.now row.budget row.report.now };

    fn write<E: Sink>(&self, notes: &mut E) -> Result<(), Failed> {
        write_number(self.name, ":", self.report.line, ": run ", notes)?;
        tell_run(self.report.run, self.budget, notes)
    }
}

/// Tells a line that is reported, in one write.
fn tell_report<E: Sink>(
    alloc: Global,
    name: &str,
    budget: u64,
    report: &Report,
    notes: &mut E,
) -> Result<(), Failed>
    requires { budget ≤ 16000000 }
    ensures ok { OnOk result (Appends (E.taken notes.old) (E.taken notes.new) (report_row name.now budget report.now)) }
    ensures part { AppendsPart (E.taken notes.old) (E.taken notes.new) (report_row name.now budget report.now) }
    ensures counts { Counts (E.faults notes.old) (E.faults notes.new) result }
{
    let row = ReportRow {
        name,
        budget,
        report,
    };
    write_in_pieces(alloc, &row, notes)
}

/// Tells in which run a line is reported, and for how many cells.
fn tell_run<E: Sink>(run: u32, budget: u64, notes: &mut E) -> Result<(), Failed>
    requires { budget ≤ 16000000 }
    ensures ok { OnOk result (Appends (E.taken notes.old) (E.taken notes.new)
        (numbered_row [] [] run (codes ": not searched within ") ++ numbered_row [] [] budget (codes " cells\n"))) }
    ensures part { AppendsPart (E.taken notes.old) (E.taken notes.new)
        (numbered_row [] [] run (codes ": not searched within ") ++ numbered_row [] [] budget (codes " cells\n")) }
    ensures counts { Counts (E.faults notes.old) (E.faults notes.new) result }
{
    write_number("", "", run, ": not searched within ", notes)?;
    write_number("", "", budget as u32, " cells\n", notes)
}
