//! The directives of a text, in their order.

ghost use Rattle.std.specs.Prelude.{◌≡◌, ◌≤◌, ◌+◌, ◌∷◌, List, length, OnOk};
ghost use Rattle.std.specs.List.{Contains};
ghost use Rattle.c_chars.specs.declared.TheConstants.{LIMIT};
ghost use Rattle.style_table.specs.Range.{IsInRange};
ghost use Rattle.token_arena.specs.Sections.{sections_of};
ghost use Rattle.item_classes.specs.Viewed.{item_classes};
ghost use Rattle.token_arena.specs.declared.directives.Section.{Section};
ghost use Rattle.replacements.specs.Decisions.{decided_all};
ghost use Rattle.early_gaps.specs.AllLaid.{laid_in, all_laid};

use crate::all_directives::conditionals::Conditionals;
use crate::all_directives::directive::lay_directive;
use bumpalo::Bump;
use line_tokens::NoMemory;
use replacements::Plan;
use std::alloc::Global;
use style_table::Style;
use token_arena::{Section, TokenArena, nesting_of};
use token_classes::TokenClass;

/// Passes a section: of a directive the gaps are decided and the conditionals counted.
fn lay_section(
    style: &Style,
    arena: &TokenArena<'_, '_>,
    all: &[TokenClass],
    section: &Section,
    conditionals: &mut Conditionals,
    plan: &mut Plan<'_>,
    run: &Bump,
) -> Result<(), NoMemory>
    requires few { length conditionals.old ≤ LIMIT }
    requires range { IsInRange style.now }
    requires all { all.now ≡ item_classes arena.now }
    requires there { Contains (sections_of arena.now) section.now }
    requires whole { length plan.old ≡ length arena.now.tokens + 1 }
    ensures plan { OnOk result ((later : List Section) →
        decided_all plan.new (laid_in style.now arena.now conditionals.new later)
        ≡ decided_all plan.old (laid_in style.now arena.now conditionals.old (section.now ∷ later))) }
    ensures len { OnOk result (length plan.new ≡ length plan.old) }
    ensures few { OnOk result (length conditionals.new ≤ length conditionals.old + 1) }
{
    match section {
        Section::Text { .. } => Ok(()),
        Section::Dir(dir) => {
            let depth = conditionals.pass(nesting_of(dir.kind))?;
            lay_directive(style, arena, all, dir, depth, plan, run)?;
            Ok(())
        }
    }
}

/// Decides the gaps before and inside all directives of a text, of which these are the sections, and whose items have
/// these classes. What was decided before stays.
///
/// `docs/PROFILE.md` says under "Layout of directives" what stands in each gap. Time is linear in the items of the
/// directives and the sections, and what one directive takes of memory serves the next one too. Want of memory is the
/// only error.
pub fn lay_all(
    alloc: Global,
    style: &Style,
    arena: &TokenArena<'_, '_>,
    all: &[TokenClass],
    sections: &[Section],
    plan: &mut Plan<'_>,
) -> Result<(), NoMemory>
    requires range { IsInRange style.now }
    requires all { all.now ≡ item_classes arena.now }
    requires sections { sections.now ≡ sections_of arena.now }
    requires whole { length plan.old ≡ length arena.now.tokens + 1 }
    ensures plan { OnOk result (plan.new ≡ decided_all plan.old (all_laid style.now arena.now)) }
    ensures len { OnOk result (length plan.new ≡ length plan.old) }
{
    let _count = arena.len();
    let mut run = Bump::new(alloc);
    let mut conditionals = Conditionals::none(alloc);
    for section in sections {
        lay_section(style, arena, all, section, &mut conditionals, plan, &run)?;
        if run.reset().is_err() {
            run = Bump::new(alloc);
        }
    }
    Ok(())
}
