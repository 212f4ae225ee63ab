//! Columns of rows.

ghost use Rattle.std.specs.Prelude.{◌≡◌, ◌<◌, length};
ghost use Rattle.line_gaps.specs.Rows.{start_behind, column_behind};
ghost use Rattle.item_classes.specs.Items.{item_at};

use replacements::Decision;
use token_arena::{TokenArena, TokenId};

/// Where an item starts behind a decision, where what stands before the gap ends at `column`.
pub fn start_behind(column: u32, decision: Decision) -> u32
    ensures { result ≡ start_behind column decision }
{
    match decision {
        Decision::Old => column,
        Decision::Spaces(count) => column.saturating_add(count),
        Decision::Lines { column: to, .. } | Decision::Splice { column: to, .. } => to,
    }
}

/// The column behind the item with this number, which starts at a column: only its last row counts. No column
/// passes 4,294,967,295.
pub fn column_behind(arena: &TokenArena<'_, '_>, start: u32, id: u32) -> u32
    requires { id < length arena.now.tokens }
    ensures { result ≡ column_behind start (item_at arena.now id) }
{
    let rows = arena.rows(TokenId(id));
    if rows.count == 1 {
        start.saturating_add(rows.first_width)
    } else {
        rows.last_width
    }
}
