//! What a run sees from one item to before another.

ghost use Rattle.std.specs.Prelude.{◌≡◌, ◌<◌, ◌≤◌, ℕ, map, length, IfOk};
ghost use Rattle.token_arena.specs.Segments.{AscendFrom, bounds_of};
ghost use Rattle.branch_runs.specs.Seen.{taken};
ghost use Rattle.branch_runs.specs.Visible.{text_at};
ghost use Rattle.branch_runs.specs.Inside.{text_bounds, inside};

use crate::NoMemory;
use crate::visible::Visible;
use bumpalo::Bump;
use bumpalo::collections::into_bump_slice;
use token_arena::Stretch;

// The place of the first text that ends behind an item, or behind all texts; found by halving.
fn first_behind(texts: &Visible<'_>, item: u32) -> usize
    requires { AscendFrom 0 (map text_bounds texts.now) }
    ensures within { result ≤ length texts.now }
    ensures before { (k : ℕ) → k < result → (text_at texts.now k).end ≤ item }
    ensures behind { (k : ℕ) → result ≤ k → k < length texts.now → item < (text_at texts.now k).end }
{
    let mut low = 0;
    let mut high = texts.len();
    while low < high {
        let mid = low + (high - low) / 2;
        if texts.text(mid).end <= item {
            low = mid + 1;
        } else {
            high = mid;
        }
    }
    low
}

/// What a run sees from one item to before another.
pub(crate) fn stretches_between<'r>(
    texts: &Visible<'_>,
    number: u32,
    first: u32,
    end: u32,
    run: &'r Bump,
) -> Result<&'r [Stretch], NoMemory>
    requires { AscendFrom 0 (map text_bounds texts.now) }
    ensures { IfOk result (λ stretches. map bounds_of stretches.now ≡ inside first end (taken texts.now number)) }
{
    let mut stretches = Vec::new(run);
    let mut at = first_behind(texts, first);
    while let Some(place) = texts.next(at, number) {
        let text = texts.text(place);
        let begins = first.max(text.first);
        if end <= begins {
            break;
        }
        stretches.push(Stretch {
            first: begins,
            end: end.min(text.end),
        })?;
        at = place + 1;
    }
    Ok(into_bump_slice(stretches))
}
