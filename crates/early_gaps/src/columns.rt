//! Columns of the input.

ghost use Rattle.std.specs.Prelude.{◌≡◌, ◌==◌, ◌≤◌, ◌<◌, ◌+◌, ◌⊎◌, true, length};
ghost use Rattle.std.specs.List.{list_any};
ghost use Rattle.token_arena.specs.Gaps.{gap_of};
ghost use Rattle.line_gaps.specs.InputColumns.{column_through};
ghost use Rattle.line_gaps.specs.Rows.{column_behind};
ghost use Rattle.item_classes.specs.Items.{item_at};
ghost use Rattle.early_gaps.specs.Columns.{column_at};
ghost use Rattle.early_gaps.specs.Kept.{IsColumn};

use line_gaps::{column_behind, column_through};
use token_arena::TokenArena;

/// A place, and the column of the input at which what stands behind its gap begins.
#[derive(Clone, Copy)]
pub(crate) struct InputColumn {
    pub place: u32,
    pub column: u32,
}

/// Whether a row ends in a gap.
fn ends_row(gap: &[u8]) -> bool
    ensures { result ≡ list_any (λ b. b == 10) gap.now }
{
    gap.iter().any(|b| *b == b'\n')
}

/// The last place up to this one before which a row ends in the gap, or else the least one.
fn row_start(arena: &TokenArena<'_, '_>, least: u32, place: u32) -> u32
    requires order { least ≤ place }
    requires within { place ≤ length arena.now.tokens }
    ensures least { least ≤ result }
    ensures within { result ≤ place }
    ensures starts { (result ≡ least) ⊎ (list_any (λ b. b == 10) (gap_of arena.now result) ≡ true) }
{
    let mut at = place;
    while at > least && !ends_row(arena.gap(at)) {
        at -= 1;
    }
    at
}

/// The column of the input at which what stands behind an item begins, where the item begins at a column.
fn next_column(tab: u32, arena: &TokenArena<'_, '_>, column: u32, id: u32) -> u32
    requires tab { 1 ≤ tab }
    requires within { id < length arena.now.tokens }
    ensures { result ≡ column_through tab (column_behind column (item_at arena.now id)) (gap_of arena.now (id + 1)) }
{
    let count = arena.len();
    prove!(id < count);
    let behind = column_behind(arena, column, id);
    column_through(tab, behind, arena.gap(id + 1))
}

/// The column of the first place.
pub(crate) fn first_column(tab: u32, arena: &TokenArena<'_, '_>) -> InputColumn
    requires tab { 1 ≤ tab }
    ensures column { IsColumn tab arena.now result }
    ensures place { result.place ≡ 0 }
{
    InputColumn {
        place: 0,
        column: column_through(tab, 0, arena.gap(0)),
    }
}

/// The column of the place at which a row begins: it is known, or a row ends in the gap.
fn begun_column(tab: u32, arena: &TokenArena<'_, '_>, known: InputColumn, first: u32) -> u32
    requires tab { 1 ≤ tab }
    requires known { IsColumn tab arena.now known }
    requires within { first ≤ length arena.now.tokens }
    requires starts { (first ≡ known.place) ⊎ (list_any (λ b. b == 10) (gap_of arena.now first) ≡ true) }
    ensures { result ≡ column_at tab arena.now first }
{
    if first == known.place {
        return known.column;
    }
    column_through(tab, 0, arena.gap(first))
}

/// The column of a place, where that of a place before it is known. Only the place's row is read, and nothing before
/// the known place.
pub(crate) fn column_from(
    tab: u32,
    arena: &TokenArena<'_, '_>,
    known: InputColumn,
    place: u32,
) -> u32
    requires tab { 1 ≤ tab }
    requires known { IsColumn tab arena.now known }
    requires order { known.place ≤ place }
    requires within { place ≤ length arena.now.tokens }
    ensures { result ≡ column_at tab arena.now place }
{
    let first = row_start(arena, known.place, place);
    let mut column = begun_column(tab, arena, known, first);
    for id in first..place {
        column = next_column(tab, arena, column, id);
    }
    column
}
