//! The items of a section as tokens.

ghost use Rattle.std.specs.Prelude.{◌≡◌, map, IfOk};
ghost use Rattle.pp_model.specs.Preprocess.{tok_of};
ghost use Rattle.pp_events.specs.View.{tok_shown};
ghost use Rattle.pp_items.specs.View.{item_shown, items_shown};
ghost use Rattle.pp_directives.specs.WorldView.{shift_shown};

use pp_directives::Shift;
use pp_events::{PpToken, Tok};
use pp_items::PpItem;
use std::alloc::{AllocError, Global};
use std::collections::VecDeque;

/// An item before any expansion.
fn tok_of(alloc: Global, shift: Shift, item: PpItem) -> Tok
    ensures { tok_shown result ≡ tok_of (shift_shown shift) (item_shown item) }
{
    Tok {
        token: PpToken::Plain { text: item.text },
        kind: item.kind,
        hide: Vec::new(alloc),
        white: item.white,
        line: shift.presumed(item.line),
    }
}

/// The items of a section before any expansion.
pub(crate) fn toks_of(
    alloc: Global,
    shift: Shift,
    items: Vec<PpItem>,
) -> Result<VecDeque<Tok>, AllocError>
    ensures { IfOk result (λ ts. map tok_shown ts.items ≡ map (tok_of (shift_shown shift)) (items_shown items)) }
{
    let mut tokens = VecDeque::new(alloc);
    for item in items {
        tokens.push_back(tok_of(alloc, shift, item))?;
    }
    Ok(tokens)
}
