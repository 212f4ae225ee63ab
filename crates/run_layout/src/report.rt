//! What came of the lines of a text.

ghost use Rattle.std.specs.Prelude.{◌≡◌, ◌++◌, ◌+◌, ◌*◌, ◌<◌, ◌≤◌, ◌^◌, [], OnOk, get_or, length};
ghost use Rattle.token_arena.specs.Gaps.{Contents};
ghost use Rattle.line_gaps.specs.Counted.{IsCounted};
ghost use Rattle.run_layout.specs.Reports.{cost_told, report_told, searched_told};
ghost use Rattle.item_classes.specs.Items.{item_at};
ghost use Rattle.item_classes.specs.Viewed.{AreWithin};

use crate::laid::Laid;
use bumpalo::Bump;
use line_gaps::{LineCount, line_of};
use line_tokens::NoMemory;
use token_arena::{TokenArena, View};

/// A line that has more cells than the budget: its inner gaps keep their bytes.
#[derive(Clone, Copy, Debug, PartialEq, Eq)]
pub struct Report {
    /// The run, from 0.
    pub run: u32,
    /// The physical line of its first item, from 1.
    pub line: u32,
    /// A number of cells above the budget, and not above the line's.
    pub cells: u64,
}

/// What the lines of all runs came to.
#[derive(Clone, Copy)]
pub struct Counts {
    /// How many runs the text has.
    pub runs: u32,
    /// How many lines were searched and broken at their least breaking.
    pub searched: u64,
    /// How many were reported.
    pub over: u64,
    /// What the least breakings cost together.
    pub cost: u128,
}

/// What came of the lines so far.
#[derive(Drop)]
pub struct Tally<'a> {
    /// The reports, in order of runs and lines.
    pub reports: Vec<Report, &'a Bump>,
    /// How many lines were broken at their least breaking.
    pub searched: u64,
    /// What these cost together.
    pub cost: u128,
    /// Up to where the physical lines are counted.
    pub lines: LineCount,
}

impl<'a> Tally<'a> {
    /// Nothing is told yet.
    pub fn new(bump: &'a Bump) -> Tally<'a>
        ensures reports { result.reports.items ≡ [] }
        ensures searched { result.searched ≡ 0 }
        ensures cost { result.cost ≡ 0 }
        ensures counted { (arena : Contents) → IsCounted arena result.lines }
    {
        Tally {
            reports: Vec::new(bump),
            searched: 0,
            cost: 0,
            lines: LineCount {
                offset: 0,
                feeds: 0,
            },
        }
    }
}

/// Notes what came of a line, which begins at this place of a view.
pub(crate) fn note_line(
    arena: &TokenArena<'_, '_>,
    view: &View<'_>,
    run: u32,
    first: u32,
    laid: Laid,
    tally: &mut Tally<'_>,
) -> Result<(), NoMemory>
    requires items { AreWithin arena.now view.now }
    requires within { first < length view.now }
    requires room { tally.old.searched < 2 ^ 60 }
    requires cheap { tally.old.cost ≤ tally.old.searched * 18446744073709551615 }
    requires counted { IsCounted arena.now tally.old.lines }
    ensures reports { OnOk result
        (tally.new.reports.items
        ≡ tally.old.reports.items ++ report_told run (item_at arena.now (get_or view.now first 0)).line laid) }
    ensures searched { OnOk result (tally.new.searched ≡ tally.old.searched + searched_told laid) }
    ensures cost { OnOk result (tally.new.cost ≡ tally.old.cost + cost_told laid) }
    ensures room { OnOk result (tally.new.searched ≤ tally.old.searched + 1) }
    ensures cheap { OnOk result (tally.new.cost ≤ tally.new.searched * 18446744073709551615) }
    ensures counted { OnOk result (IsCounted arena.now tally.new.lines) }
{
    match laid {
        Laid::Unsearched => {}
        Laid::Least { cost } => {
            tally.searched += 1;
            tally.cost += u128::from(cost);
        }
        Laid::Over { cells } => {
            let id = view.at(first).0;
            let line = line_of(arena, id, &mut tally.lines);
            tally.reports.push(Report { run, line, cells })?;
        }
    }
    Ok(())
}
