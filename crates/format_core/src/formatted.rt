//! A text and its formatted text.

ghost use Rattle.std.specs.Prelude.{◌≡◌, ◌≤◌, not, length, option_map, IfOk, IfErr, OnOk};
ghost use Rattle.std.specs.Io.KnownBytes.{Appends};
ghost use Rattle.fmt_ports.specs.Causes.{AppendsPart, Counts as FaultCounts};
ghost use Rattle.c_chars.specs.declared.TheConstants.{LIMIT};
ghost use Rattle.c_grammar.specs.Grammar.{is_same};
ghost use Rattle.c_grammar.specs.Twin.{IsTwin};
ghost use Rattle.style_table.specs.Range.{IsInRange};
ghost use Rattle.format_core.specs.Faults.{IsCause};
ghost use Rattle.format_core.specs.Formats.{IsFormatted};
ghost use Rattle.format_core.specs.TextOf.{text_of};

use crate::FormatFault;
use crate::laid_text::LaidText;
use crate::line_ends::ends_by;
use crate::runs::{Planned, plan_of};
use bumpalo::Bump;
use bumpalo::collections::into_bump_slice;
use c_chars::{Dialect, LIMIT};
use fmt_ports::{Failed, Sink, bytes_of, is_same, write_in_pieces};
use off_regions::Ranges;
use run_layout::{Counts, Report};
use std::alloc::{AllocError, Global};
use style_table::Style;
use token_arena::{build, sections};

/// What a text is formatted by, beside a style.
#[derive(Clone, Copy)]
pub struct Job<'j> {
    /// How many cells the search of a line may have. A line that has more may be reported.
    pub budget: u64,
    /// The dialect that the text is read in.
    pub dialect: Dialect,
    /// The lines that are asked for: all without ranges. The gaps of all other lines keep the bytes of the input.
    pub ranges: Option<&'j Ranges>,
}

/// A formatted text.
#[derive(Drop)]
pub struct Formatted<'a, 's> {
    /// The text.
    pub laid: LaidText<'a, 's>,
    /// The lines whose inner gaps keep their bytes, since they have more cells than the budget; in order of runs and
    /// lines.
    pub reports: &'a [Report],
    /// What its lines came to.
    pub counts: Counts,
    /// It isn't the input.
    pub changed: bool,
}

/// Formats a text of at most [`LIMIT`] bytes in a style. Where formatting is off, or none of the ranges has the line,
/// the gaps keep the bytes of the input.
pub fn format<'a, 's>(
    alloc: Global,
    bump: &'a Bump,
    text: &'s [u8],
    style: &Style,
    job: &Job<'_>,
) -> Result<Formatted<'a, 's>, FormatFault>
    requires range { IsInRange style.now }
    requires budget { job.now.budget ≤ 16000000 }
    ensures formats { IfOk result (λ f.
        IsFormatted style.now (option_map (λ ranges. ranges.now) job.now.ranges) job.now.budget job.now.dialect
        text.now (text_of f.laid) f.reports.now f.counts) }
    ensures twins { IfOk result (λ f. IsTwin job.now.dialect text.now (text_of f.laid)) }
    ensures changed { IfOk result (λ f. f.changed ≡ not (is_same (text_of f.laid) text.now)) }
    ensures fits { IfOk result (λ _. length text.now ≤ LIMIT) }
    ensures fault { IfErr result (IsCause job.now.dialect text.now) }
{
    let arena = build(bump, text, job.dialect)?;
    let sections = sections(&arena, bump)?;
    let made = plan_of(alloc, bump, style, job.budget, &arena, sections, job.ranges)?;
    let Planned { plan, runs, tally } = made;
    let crlf = ends_by(style.line_ending, text);
    let laid = LaidText {
        arena,
        sections,
        plan,
        style: *style,
        crlf,
    };
    let changed = !is_same(&laid, text);
    let searched = tally.searched;
    let cost = tally.cost;
    let reports = into_bump_slice(tally.reports);
    let counts = Counts {
        runs,
        searched,
        over: reports.len() as u64,
        cost,
    };
    Ok(Formatted {
        laid,
        reports,
        counts,
        changed,
    })
}

impl<'a, 's> Formatted<'a, 's> {
    /// Writes the formatted text gap by gap, in pieces. It takes memory for one piece at most; after `Failed`, the sink
    /// took a part of the text.
    pub fn write<K: Sink>(&self, alloc: Global, sink: &mut K) -> Result<(), Failed>
        ensures ok { OnOk result (Appends (K.taken sink.old) (K.taken sink.new) (text_of self.now.laid)) }
        ensures part { AppendsPart (K.taken sink.old) (K.taken sink.new) (text_of self.now.laid) }
        ensures counts { FaultCounts (K.faults sink.old) (K.faults sink.new) result }
    {
        write_in_pieces(alloc, &self.laid, sink)
    }

    /// The formatted text in memory.
    pub fn bytes(&self, alloc: Global) -> Result<Vec<u8>, AllocError>
        ensures { IfOk result (λ bytes. bytes.items ≡ text_of self.now.laid) }
    {
        let room = self.laid.arena.text().len();
        bytes_of(alloc, &self.laid, room)
    }
}
