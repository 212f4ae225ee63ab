//! A directive, with the roles of its operand's items.

ghost use Rattle.std.specs.Prelude.{◌≡◌, ◌<◌, ◌≤◌, ◌+◌, [], length, OnOk};
ghost use Rattle.std.specs.List.{Contains};
ghost use Rattle.c_chars.specs.declared.TheConstants.{LIMIT};
ghost use Rattle.style_table.specs.Range.{IsInRange};
ghost use Rattle.token_arena.specs.Sections.{sections_of};
ghost use Rattle.item_classes.specs.Viewed.{item_classes};
ghost use Rattle.token_arena.specs.declared.directives.Section.TheVariants.{Dir};
ghost use Rattle.replacements.specs.Decisions.{decided_all};
ghost use Rattle.directive_layout.specs.Laid.{laid};
ghost use Rattle.early_gaps.specs.Roles.{one_line, roles_between, is_free, operand_roles};

use annotator::roles_of_classes;
use bumpalo::Bump;
use directive_layout::{Staying, lay, operand_first, staying_in};
use item_classes::classes_among;
use line_tokens::{LineKind, NoMemory, ULine};
use replacements::Plan;
use style_table::Style;
use token_arena::{Directive, TokenArena, View};
use token_classes::{TokenClass, bracket_facts};
use view_tokens::ViewTokens;

/// One line of so many items, as of a statement.
fn one_line(count: u32) -> ULine
    requires { 0 < count }
    ensures { result ≡ one_line count }
{
    ULine {
        first: 0,
        last: count - 1,
        level: 0,
        kind: LineKind::Simple,
    }
}

/// Whether no gap of a directive keeps the input's bytes.
fn is_free(staying: Staying) -> bool
    ensures { result ≡ is_free staying }
{
    matches!(staying, Staying::Nothing)
}

/// Decides the gaps of a directive by the roles that the items of its operand, of which this is the first, have as one
/// line. All items of the text have these classes.
fn lay_with_roles(
    style: &Style,
    arena: &TokenArena<'_, '_>,
    all: &[TokenClass],
    dir: &Directive,
    first: u32,
    depth: u32,
    plan: &mut Plan<'_>,
    run: &Bump,
) -> Result<(), NoMemory>
    requires depth { depth ≤ LIMIT }
    requires range { IsInRange style.now }
    requires all { all.now ≡ item_classes arena.now }
    requires there { Contains (sections_of arena.now) (Dir dir.now) }
    requires some { first < dir.now.end }
    requires within { dir.now.end ≤ length arena.now.tokens }
    requires whole { length plan.old ≡ length arena.now.tokens + 1 }
    ensures plan { OnOk result (plan.new
        ≡ decided_all plan.old (laid style.now arena.now depth (roles_between arena.now first dir.now.end) dir.now)) }
    ensures len { OnOk result (length plan.new ≡ length plan.old) }
{
    let view = View::of(first, dir.end, run)?;
    let classes = classes_among(all, arena, &view, run)?;
    let facts = bracket_facts(classes, run)?;
    let lines = [one_line(dir.end - first)];
    let toks = roles_of_classes(arena, &view, classes, facts.partners, &lines, run)?;
    lay(style, arena, dir, depth, &toks, plan);
    Ok(())
}

/// Decides the gaps of a directive for whose operand no table asks for roles.
fn lay_without_roles(
    style: &Style,
    arena: &TokenArena<'_, '_>,
    dir: &Directive,
    depth: u32,
    plan: &mut Plan<'_>,
    run: &Bump,
) -> Result<(), NoMemory>
    requires depth { depth ≤ LIMIT }
    requires range { IsInRange style.now }
    requires there { Contains (sections_of arena.now) (Dir dir.now) }
    requires whole { length plan.old ≡ length arena.now.tokens + 1 }
    ensures plan { OnOk result (plan.new ≡ decided_all plan.old (laid style.now arena.now depth [] dir.now)) }
    ensures len { OnOk result (length plan.new ≡ length plan.old) }
{
    let none = View::of(0, 0, run)?;
    let toks = ViewTokens::of(arena, &none, &[]);
    lay(style, arena, dir, depth, &toks, plan);
    Ok(())
}

/// Decides the gaps before and inside a directive that stands inside so many conditionals. The roles of its operand are
/// told where a table asks for them. Want of memory is the only error.
pub(crate) fn lay_directive(
    style: &Style,
    arena: &TokenArena<'_, '_>,
    all: &[TokenClass],
    dir: &Directive,
    depth: u32,
    plan: &mut Plan<'_>,
    run: &Bump,
) -> Result<(), NoMemory>
    requires depth { depth ≤ LIMIT }
    requires range { IsInRange style.now }
    requires all { all.now ≡ item_classes arena.now }
    requires there { Contains (sections_of arena.now) (Dir dir.now) }
    requires whole { length plan.old ≡ length arena.now.tokens + 1 }
    ensures plan { OnOk result (plan.new
        ≡ decided_all plan.old (laid style.now arena.now depth (operand_roles style.now arena.now dir.now) dir.now)) }
    ensures len { OnOk result (length plan.new ≡ length plan.old) }
{
    let _count = arena.len();
    let first = operand_first(arena, dir);
    if is_free(staying_in(style, arena, dir)) && first + 1 < dir.end {
        lay_with_roles(style, arena, all, dir, first, depth, plan, run)
    } else {
        lay_without_roles(style, arena, dir, depth, plan, run)
    }
}
