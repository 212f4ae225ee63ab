//! What is new in a run.

ghost use Rattle.std.specs.Prelude.{◌≡◌, ◌<◌, ◌≤◌, ◌-◌, ℕ, length};
ghost use Rattle.std.specs.List.{Contains};
ghost use Rattle.branch_runs.specs.Anew.{items_between};
ghost use Rattle.branch_runs.specs.Marks.{marks_of};
ghost use Rattle.branch_runs.specs.Reading.{effects};
ghost use Rattle.run_parts.specs.Runs.{runs_of, seen_by};

use branch_runs::{Change, CondTree};
use token_arena::TokenArena;

/// How the view of a run differs from that of the run before it: all that the first run sees is new.
pub fn change_of(arena: &TokenArena<'_, '_>, tree: &CondTree<'_>, number: u32) -> Change
    requires tree { tree.now ≡ effects (marks_of arena.now) }
    requires number { number < runs_of arena.now }
    ensures end { result.end ≤ length arena.now.tokens }
    ensures first { number ≡ 0 → result.first ≡ 0 }
    ensures before { 0 < number →
        items_between 0 result.first (seen_by arena.now number)
        ≡ items_between 0 result.first (seen_by arena.now (number - 1)) }
    ensures behind { 0 < number → (id : ℕ) → result.end ≤ id → Contains (seen_by arena.now number) id →
        Contains (seen_by arena.now (number - 1)) id }
    ensures all { number ≡ 0 → result.end ≡ length arena.now.tokens }
{
    let items = arena.len();
    if number == 0 {
        return Change {
            first: 0,
            end: items,
        };
    }
    let change = tree.change(number);
    Change {
        first: change.first,
        end: change.end.min(items),
    }
}
