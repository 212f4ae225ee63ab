//! Lines that are past their budget by the number of their tokens alone.

ghost use Rattle.std.specs.Prelude.{◌≡◌, ◌≤◌, length};
ghost use Rattle.std.specs.Bool.{OnFalse, OnTrue};
ghost use Rattle.line_state.specs.Line.{Line};
ghost use Rattle.break_search.specs.Outcome.{IsOver};

/// Whether a line of so many tokens has more cells than the budget, whichever tokens they are: its cells are no fewer
/// than its tokens. So a very long line is told to be past its budget before its tokens are made.
#[inline]
pub fn is_too_long(count: usize, budget: u64) -> bool
    ensures yes { OnTrue result ((line : Line) → length line.tokens ≡ count → IsOver line budget count) }
    ensures no { OnFalse result (count ≤ budget) }
{
    count as u64 > budget
}
