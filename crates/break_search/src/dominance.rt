//! Layouts that need not be followed: what follows others is at least as good.

ghost use Rattle.std.specs.Prelude.{◌≡◌, ℕ, ◌<◌, length};
ghost use Rattle.std.specs.Bool.{OnTrue};
ghost use Rattle.line_state.proofs.Table.{HaveParents};
ghost use Rattle.break_search.specs.Passing.{Passes};
ghost use Rattle.break_search.specs.Vertices.{HavePaths, HaveLevels};

use crate::table::Table;
use crate::ties::is_before;
use searched_line::Saturation;

/// With how many of the layouts of as many tokens that were settled last a layout is compared.
const MOST_COMPARED: usize = 8;

/// Whether the first node is another one that is settled, stands ahead of the second and has a better way.
fn passes(table: &Table<'_>, first: usize, second: usize) -> bool
    requires parents { HaveParents table.now }
    requires apart { HavePaths table.now }
    requires levels { HaveLevels table.now }
    requires first { first < length table.now }
    requires second { second < length table.now }
    ensures { OnTrue result (Passes table.now first second) }
{
    if !table.is_ahead(first, second) {
        return false;
    }
    let cost = table.cost(first);
    let other = table.cost(second);
    if cost == other {
        return is_before(table, first, second);
    }
    cost < other
}

/// Whether one of the nodes that were settled last before a node passes it.
fn is_passed(table: &Table<'_>, at: usize) -> bool
    requires parents { HaveParents table.now }
    requires apart { HavePaths table.now }
    requires levels { HaveLevels table.now }
    requires at { at < length table.now }
    ensures { OnTrue result ((v : ℕ) × Passes table.now v at) }
{
    let mut end = table.settled_before(at);
    'back: for compared in 0..MOST_COMPARED {
        // Where none was settled before, this is the largest number.
        let before = end.wrapping_sub(1);
        if before >= table.len() {
            return false;
        }
        if passes(table, before, at) {
            return true;
        }
        end = table.settled_before(before);
    }
    false
}

/// Whether a node need not be followed: the choices that are made there are no better than the same ones at a node that
/// was followed before. This is told only where no column comes to the largest number.
pub(crate) fn is_dominated(table: &Table<'_>, saturation: Saturation, at: usize) -> bool
    requires parents { HaveParents table.now }
    requires apart { HavePaths table.now }
    requires levels { HaveLevels table.now }
    requires at { at < length table.now }
    ensures passed { OnTrue result ((v : ℕ) × Passes table.now v at) }
    ensures never { OnTrue result (saturation ≡ Saturation.Never) }
{
    match saturation {
        Saturation::Never => is_passed(table, at),
        Saturation::Possible => false,
    }
}
