//! What earlier runs told of parts.

ghost use Rattle.std.specs.Prelude.{◌≡◌, [], List, Option, IfOk};
ghost use Rattle.token_arena.specs.Gaps.{Contents};
ghost use Rattle.replacements.specs.declared.slot.Slot.{Slot};
ghost use Rattle.view_parts.specs.Known.{AreKnown, AreSpans};
ghost use Rattle.run_parts.specs.Runs.{AreRowsDecided};

use crate::bounds::KnownBound;
use bumpalo::Bump;
use line_tokens::NoMemory;
use view_parts::{KnownEnds, KnownSpans};

/// What earlier runs told of parts.
#[derive(Drop)]
pub struct KnownParts<'k> {
    /// Where parts end that begin with an item, for each item of the text, or for none.
    pub ends: KnownEnds<'k>,
    /// Parts that stand in no row.
    pub spans: KnownSpans<'k>,
    /// Where parts of the view end, as its first items tell.
    pub bounds: Vec<KnownBound<'k>, &'k Bump>,
}

impl<'k> KnownParts<'k> {
    /// Nothing is known. It has room for what is told of the parts of a text with so many items. Want of
    /// memory is the only error.
    pub fn none(items: usize, keep: &'k Bump) -> Result<KnownParts<'k>, NoMemory>
        ensures known { IfOk result (λ known. (arena : Contents) → AreKnown arena known.ends) }
        ensures rows { IfOk result (λ known. (plan : List (Option Slot)) → AreRowsDecided plan known.ends) }
        ensures spans { IfOk result (λ known. (arena : Contents) → AreSpans arena known.spans.spans.items) }
        ensures bounds { IfOk result (λ known. known.bounds.items ≡ []) }
    {
        Ok(KnownParts {
            ends: KnownEnds::none(items, keep)?,
            spans: KnownSpans::none(items / 2, keep),
            bounds: Vec::new(keep),
        })
    }
}
