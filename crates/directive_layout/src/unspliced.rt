//! All gaps of one directive that has no splice behind its first item. Nothing there depends on a column or on braces.

ghost use Rattle.std.specs.Prelude.{◌≡◌, ◌≤◌, ◌<◌, ◌+◌, ◌-◌, ℕ, List, false, Some, drop, length, slice_get};
ghost use Rattle.c_chars.specs.declared.TheConstants.{LIMIT};
ghost use Rattle.line_tokens.specs.declared.LineTok.{LineTok};
ghost use Rattle.style_table.specs.Range.{IsInRange};
ghost use Rattle.replacements.specs.Decisions.{decided_all};
ghost use Rattle.token_arena.specs.Entries.{told_by};
ghost use Rattle.token_arena.specs.Stored.{Stored};
ghost use Rattle.directive_layout.specs.declared.part.HeadPart.TheVariants.{Operand};
ghost use Rattle.directive_layout.specs.declared.walk.Walk.{Walk};
ghost use Rattle.directive_layout.specs.Laid.{has_splice, inner_from, is_operand, laid_between};
ghost use Rattle.directive_layout.specs.Operands.{inner_decision};

use crate::heads::{first_decision, head_spaces, spaced};
use crate::operands::spaces_between;
use crate::part::{HeadPart, first_part, next_part};
use crate::staying::{Staying, stays};
use crate::walk::is_operand;
use c_chars::Dialect;
use line_tokens::TokenId;
use replacements::{Decision, Plan};
use style_table::Style;
use token_arena::{Token, TokenArena};
use view_tokens::ViewTokens;

/// What is decided behind an item of the head, which is this part.
#[inline(always)]
fn head_decision(
    style: &Style,
    dialect: Dialect,
    depth: u32,
    staying: Staying,
    part: HeadPart,
    left: &Token<'_>,
    token: &Token<'_>,
) -> Decision
    requires depth { depth ≤ LIMIT }
    requires range { IsInRange style.now }
    requires head { is_operand part ≡ false }
    requires unspliced { token.now.gap.splice ≡ false }
    requires left { length left.now.item.raw.now ≤ LIMIT }
    requires right { length token.now.item.raw.now ≤ LIMIT }
    ensures { (toks : List LineTok) (longest : ℕ) (walk : Walk) → walk.part ≡ part →
        result
        ≡ inner_decision style.now dialect depth staying toks longest walk (told_by left.now) (told_by token.now) }
{
    if stays(dialect, staying, part, token) {
        return Decision::Old;
    }
    let count = head_spaces(style, dialect, depth, part, left, token).unwrap_or(1);
    Decision::Spaces(spaced(dialect, left, token, count))
}

/// What is decided before the item of an operand with this number, behind another one of it.
#[inline(always)]
fn operand_decision(
    style: &Style,
    dialect: Dialect,
    staying: Staying,
    toks: &ViewTokens<'_>,
    left: &Token<'_>,
    token: &Token<'_>,
    index: u32,
) -> Decision
    requires range { IsInRange style.now }
    requires unspliced { token.now.gap.splice ≡ false }
    requires left { length left.now.item.raw.now ≤ LIMIT }
    requires right { length token.now.item.raw.now ≤ LIMIT }
    ensures { (depth longest : ℕ) (walk : Walk) → walk.part ≡ Operand → walk.index ≡ index →
        result
        ≡ inner_decision style.now dialect depth staying toks.now longest walk (told_by left.now) (told_by token.now) }
{
    match staying {
        Staying::Nothing => {
            let count = spaces_between(style, toks, token, index);
            Decision::Spaces(spaced(dialect, left, token, count))
        }
        Staying::BehindName => Decision::Old,
        Staying::Body => Decision::Old,
    }
}

/// Decides the gaps behind the first item of an operand, which has this number, up to `end`.
fn lay_operand(
    style: &Style,
    arena: &TokenArena<'_, '_>,
    staying: Staying,
    toks: &ViewTokens<'_>,
    first: u32,
    end: u32,
    plan: &mut Plan<'_>,
)
    requires range { IsInRange style.now }
    requires some { first < end }
    requires within { end ≤ length arena.now.tokens }
    requires whole { length plan.old ≡ length arena.now.tokens + 1 }
    requires unspliced { has_splice (drop (first + 1) arena.now.tokens) (end - (first + 1)) ≡ false }
    ensures plan { (depth longest : ℕ) (walk : Walk) (left : Stored) → walk.part ≡ Operand → walk.index ≡ 1 →
        slice_get arena.now.tokens first ≡ Some left →
        plan.new
        ≡ decided_all plan.old (inner_from style.now arena.now.dialect depth staying toks.now longest (first + 1) walk
        left (drop (first + 1) arena.now.tokens) (end - (first + 1))) }
    ensures len { length plan.new ≡ length plan.old }
{
    let _count = arena.len();
    let dialect = arena.dialect();
    let mut left = arena.get(TokenId(first));
    for place in first + 1..end {
        let token = arena.get(TokenId(place));
        let decision = operand_decision(
            style,
            dialect,
            staying,
            toks,
            &left,
            &token,
            place - first,
        );
        let _ = plan.decide(place, decision, 0);
        left = token;
    }
}

/// Decides the gaps before the items from `first` up to `end`, which are a directive.
pub(crate) fn lay_unspliced(
    style: &Style,
    arena: &TokenArena<'_, '_>,
    depth: u32,
    staying: Staying,
    toks: &ViewTokens<'_>,
    first: u32,
    end: u32,
    plan: &mut Plan<'_>,
)
    requires depth { depth ≤ LIMIT }
    requires range { IsInRange style.now }
    requires some { first < end }
    requires within { end ≤ length arena.now.tokens }
    requires whole { length plan.old ≡ length arena.now.tokens + 1 }
    requires unspliced { has_splice (drop (first + 1) arena.now.tokens) (end - (first + 1)) ≡ false }
    ensures plan { plan.new ≡ decided_all plan.old (laid_between style.now arena.now depth staying toks.now first end) }
    ensures len { length plan.new ≡ length plan.old }
{
    let _count = arena.len();
    let dialect = arena.dialect();
    let mut left = arena.get(TokenId(first));
    let decision = first_decision(style, depth, first, left.gap);
    let _ = plan.decide(first, decision, 0);
    let mut part = first_part(&left);
    for place in first + 1..end {
        let token = arena.get(TokenId(place));
        let decision = head_decision(style, dialect, depth, staying, part, &left, &token);
        let _ = plan.decide(place, decision, 0);
        part = next_part(dialect, part, &left, &token);
        if is_operand(part) {
            lay_operand(style, arena, staying, toks, place, end, plan);
            return;
        }
        left = token;
    }
}
