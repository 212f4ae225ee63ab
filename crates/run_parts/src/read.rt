//! What is read of the items of a view before they are laid out.

ghost use Rattle.std.specs.Prelude.{◌≡◌, IfOk};
ghost use Rattle.item_classes.specs.Viewed.{AreWithin, item_classes};
ghost use Rattle.run_parts.specs.Read.{IsRead};

use annotator::roles_of_classes;
use bumpalo::Bump;
use item_classes::classes_among;
use line_tokens::{NoMemory, ULine};
use style_table::Style;
use token_arena::{TokenArena, View};
use token_classes::{TokenClass, bracket_facts};
use unwrapped_lines::lines_of_classes;
use view_tokens::ViewTokens;

/// What is read of the items of a view.
#[derive(Drop)]
pub struct ReadItems<'r> {
    /// The classes of the places.
    pub classes: &'r [TokenClass],
    /// Of each place, whether the gap before it stays as it is.
    pub kept: &'r [bool],
    /// The unwrapped lines.
    pub lines: &'r [ULine],
    /// The tokens.
    pub tokens: ViewTokens<'r>,
}

/// Reads the items of a view, where these are the classes of all items. Want of memory is the only error.
#[inline(always)]
pub fn read_items<'r>(
    style: &Style,
    arena: &'r TokenArena<'r, 'r>,
    all: &'r [TokenClass],
    view: &'r View<'r>,
    run: &'r Bump,
) -> Result<ReadItems<'r>, NoMemory>
    requires all { all.now ≡ item_classes arena.now }
    requires within { AreWithin arena.now view.now }
    ensures { IfOk result (IsRead style.now arena.now view.now) }
{
    let classes = classes_among(all, arena, view, run)?;
    let facts = bracket_facts(classes, run)?;
    let lines = lines_of_classes(style, arena, view, classes, facts.partners, run)?;
    let tokens = roles_of_classes(arena, view, classes, facts.partners, lines, run)?;
    Ok(ReadItems {
        classes,
        kept: facts.kept,
        lines,
        tokens,
    })
}
