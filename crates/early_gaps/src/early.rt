//! All that is decided before the runs.

ghost use Rattle.std.specs.Prelude.{◌≡◌, ◌≤◌, ◌+◌, ℕ, option_map, false, get_or, length, IfOk, OnOk};
ghost use Rattle.c_chars.specs.declared.TheConstants.{LIMIT};
ghost use Rattle.token_arena.specs.Sections.{sections_of};
ghost use Rattle.item_classes.specs.Viewed.{item_classes};
ghost use Rattle.off_regions.specs.Frozen.{frozen_gaps};
ghost use Rattle.replacements.specs.Decisions.{decided_all};
ghost use Rattle.style_table.specs.Range.{IsInRange};
ghost use Rattle.early_gaps.specs.BeforeRuns.{early_decisions};
ghost use Rattle.early_gaps.specs.Dead.{IsTreeOf};

use crate::all_directives::lay_all;
use crate::context::Context;
use crate::keep::keep_gaps;
use crate::last::last_decision;
use branch_runs::CondTree;
use bumpalo::Bump;
use bumpalo::collections::into_bump_slice;
use line_tokens::NoMemory;
use off_regions::{Ranges, frozen, stays_nowhere};
use replacements::Plan;
use token_arena::{Section, TokenArena};

/// Of each place whether the gap before it is frozen; no marks where none is, as in most texts.
fn marks_of<'a>(
    arena: &TokenArena<'_, '_>,
    ranges: Option<&Ranges>,
    bump: &'a Bump,
) -> Result<&'a [bool], NoMemory>
    ensures { IfOk result (λ marks.
        (place : ℕ) → get_or marks.now place false
        ≡ get_or (frozen_gaps arena.now (option_map (λ ranges. ranges.now) ranges.entry)) place false) }
{
    if stays_nowhere(arena, ranges) {
        return Ok(into_bump_slice(Vec::new(bump)));
    }
    Ok(frozen(arena, ranges, bump)?)
}

/// Decides all that no run decides, where it is open: the gaps that stay, those of directives, and the last gap. The
/// sections are those of the text, and the tree is made of them. Gaps stay where formatting is off, where none of these
/// ranges has the line, beside items in the group of a literal `#if 0`, and in rows behind a backslash, blanks and a
/// new-line. Want of memory is the only error.
pub fn decide_early(
    context: &Context<'_>,
    sections: &[Section],
    tree: &CondTree<'_>,
    ranges: Option<&Ranges>,
    bump: &Bump,
    plan: &mut Plan<'_>,
) -> Result<(), NoMemory>
    requires range { IsInRange context.now.style.now }
    requires fits { length context.now.arena.now.text ≤ LIMIT }
    requires all { context.now.classes.now ≡ item_classes context.now.arena.now }
    requires sections { sections.now ≡ sections_of context.now.arena.now }
    requires tree { IsTreeOf context.now.arena.now tree.now }
    requires whole { length plan.old ≡ length context.now.arena.now.tokens + 1 }
    ensures plan { OnOk result (plan.new
        ≡ decided_all plan.old (early_decisions context.now.style.now context.now.arena.now
        (option_map (λ ranges. ranges.now) ranges.entry))) }
    ensures len { OnOk result (length plan.new ≡ length plan.old) }
{
    let style = context.style;
    let arena = context.arena;
    let marks = marks_of(arena, ranges, bump)?;
    keep_gaps(style.tab_width, arena, tree, context.classes, marks, plan);
    lay_all(context.alloc, style, arena, context.classes, sections, plan)?;
    let last = last_decision(style, arena);
    let _ = plan.decide(arena.len(), last, 0);
    Ok(())
}
