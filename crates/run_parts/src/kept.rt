//! Gaps of a run that stay as they are, and the columns of the input.

ghost use Rattle.std.specs.Prelude.{◌≡◌, ◌<◌, ◌≤◌, ◌+◌, ◌∷◌, [], if◌then◌else◌, length};
ghost use Rattle.std.specs.List.{list_any};
ghost use Rattle.item_classes.specs.Viewed.{AreWithin};
ghost use Rattle.replacements.specs.Decisions.{decided_all};
ghost use Rattle.run_parts.specs.KeptGaps.{kept_decisions, kept_slot};

use line_gaps::{column_behind, column_through};
use line_tokens::TokenId;
use replacements::{Decision, Plan};
use style_table::Style;
use token_arena::{TokenArena, View};

/// Keeps the bytes of a gap, if it is marked and open; the item behind it starts at a column.
fn keep(plan: &mut Plan<'_>, id: TokenId, mark: bool, column: u32)
    requires { id.0 < length plan.old }
    ensures plan { plan.new ≡ decided_all plan.old (if mark then (id.0, kept_slot column) ∷ [] else []) }
    ensures len { length plan.new ≡ length plan.old }
{
    if mark {
        let _ = plan.decide(id.0, Decision::Old, column);
    }
}

/// Whether some gap is marked.
fn some_marked(marks: &[bool]) -> bool
    ensures { result ≡ list_any (λ mark. mark) marks.now }
{
    marks.contains(&true)
}

/// Keeps the bytes of the gaps of a view that are marked, where they are open.
pub fn keep_gaps(
    style: &Style,
    arena: &TokenArena<'_, '_>,
    view: &View<'_>,
    marks: &[bool],
    plan: &mut Plan<'_>,
)
    requires tab { 1 ≤ style.now.tab_width }
    requires within { AreWithin arena.now view.now }
    requires count { length marks.now ≡ length view.now }
    requires whole { length plan.old ≡ length arena.now.tokens + 1 }
    ensures plan { plan.new ≡ decided_all plan.old (kept_decisions style.now arena.now 0 view.now marks.now) }
    ensures len { length plan.new ≡ length plan.old }
{
    // Most views mark no gap.
    if !some_marked(marks) {
        return;
    }
    let mut column = 0;
    for place in 0..view.len() {
        let id = view.at(place);
        let start = column_through(style.tab_width, column, arena.gap(id.0));
        keep(plan, id, marks[place as usize], start);
        column = column_behind(arena, start, id.0);
    }
}
