//! What is told of an input: its reports, and in a dry run its summary.

ghost use Rattle.std.specs.Prelude.{◌≤◌, OnOk};
ghost use Rattle.std.specs.Io.KnownBytes.{Appends};
ghost use Rattle.fmt_ports.specs.Causes.{AppendsPart, Counts};
ghost use Rattle.format_cli.specs.Notes.{input_rows};

use crate::input::Place;
use fmt_ports::{Failed, Sink};
use format_core::Formatted;
use report_rows::{tell_reports, tell_summary};
use std::alloc::Global;

/// Tells the reports of an input, and in a dry run its summary behind them.
pub fn tell_input<'a, 's, E: Sink>(
    alloc: Global,
    name: &str,
    budget: u64,
    place: Place,
    formatted: &Formatted<'a, 's>,
    notes: &mut E,
) -> Result<(), Failed>
    requires { budget ≤ 16000000 }
    ensures ok { OnOk result (Appends (E.taken notes.old) (E.taken notes.new)
        (input_rows place name.now budget formatted.now.reports.now formatted.now.counts formatted.now.changed)) }
    ensures part { AppendsPart (E.taken notes.old) (E.taken notes.new)
        (input_rows place name.now budget formatted.now.reports.now formatted.now.counts formatted.now.changed) }
    ensures counts { Counts (E.faults notes.old) (E.faults notes.new) result }
{
    tell_reports(alloc, name, budget, formatted.reports, notes)?;
    match place {
        Place::Output => Ok(()),
        Place::Itself => Ok(()),
        Place::Nowhere => tell_summary(alloc, name, &formatted.counts, formatted.changed, notes),
    }
}
