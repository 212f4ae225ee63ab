//! How the views of runs differ.

ghost use Rattle.std.specs.Prelude.{◌≡◌, ◌<◌, ◌^◌, length, IfOk, replicate};
ghost use Rattle.branch_runs.specs.Anew.{no_change};
ghost use Rattle.branch_runs.specs.Noted.{widened, noted_one, AreNoted, AreNarrow};

use crate::NoMemory;
use crate::seen::SeenText;
use bumpalo::Bump;
use bumpalo::collections::into_bump_slice_mut;

/// How the view of a run differs from that of the run before it.
#[derive(Clone, Copy, Debug, PartialEq, Eq)]
pub struct Change {
    /// The first item that one of both runs sees alone: `u32::MAX` where they see the same.
    pub first: u32,
    /// The item behind the last one that the later run sees alone: 0 where it sees nothing that the run before it
    /// doesn't see.
    pub end: u32,
}

// So many runs that see all the same.
fn no_changes<'a>(count: u32, bump: &'a Bump) -> Result<&'a mut [Change], NoMemory>
    ensures { IfOk result (λ changes. changes.now ≡ replicate count no_change) }
{
    let none = Change {
        first: u32::MAX,
        end: 0,
    };
    let mut changes = Vec::with_capacity(bump, count as usize)?;
    changes.resize(count as usize, none)?;
    Ok(into_bump_slice_mut(changes))
}

// Makes the change of a run begin at this item or before it, and hold the items up to an end, where there is such a
// run.
fn widen(changes: &mut [Change], run: u32, first: u32, end: u32)
    ensures { changes.new ≡ widened changes.old run first end }
{
    let run = run as usize;
    if run < changes.len() {
        let change = changes[run];
        changes[run] = Change {
            first: change.first.min(first),
            end: change.end.max(end),
        };
    }
}

// Makes the changes of the runs that a text begins and ends with hold it. Its first item is known to fit its type.
fn note(changes: &mut [Change], text: SeenText)
    ensures noted { changes.new ≡ noted_one changes.old text }
    ensures fits { text.first < 2 ^ 32 }
{
    if text.from < text.till {
        widen(changes, text.from, text.first, text.end);
        widen(changes, text.till, text.first, 0);
    }
}

/// How the view of each of so many runs differs from that of the run before it, by the texts that they see.
pub(crate) fn changes_of<'a>(
    texts: &[SeenText],
    runs: u32,
    bump: &'a Bump,
) -> Result<&'a [Change], NoMemory>
    ensures count { IfOk result (λ changes. length changes.now ≡ runs) }
    ensures noted { IfOk result (λ changes. AreNoted changes.now texts.now) }
    ensures narrow { IfOk result (λ changes. AreNarrow changes.now texts.now) }
{
    let changes = no_changes(runs, bump)?;
    for text in texts {
        note(changes, *text);
    }
    Ok(changes)
}
