//! What is decided of the gaps of a line before it is laid out.

ghost use Rattle.std.specs.Prelude.{◌≡◌, ◌+◌, ◌<◌, ◌≤◌, All, IfOk, IsTrue, None, length, ℕ, map, get_or, replicate};
ghost use Rattle.replacements.specs.Decisions.{slot_of};
ghost use Rattle.line_tokens.specs.declared.LineTok.{LineTok};
ghost use Rattle.line_gaps.specs.Fixed.{fixed_of_token, fixed_up_to};

use crate::tokens::token_at;
use bumpalo::Bump;
use bumpalo::collections::{into_bump_slice, into_bump_slice_mut};
use line_tokens::{Fixed, LineTok, NoMemory};
use replacements::Plan;
use token_arena::TokenArena;

/// Whether the gaps before eight tokens from a place on are open.
#[inline(always)]
fn are_eight_open(plan: &Plan<'_>, tokens: &[LineTok], first: usize) -> bool
    requires room { first + 8 ≤ length tokens.now }
    requires within { All (λ token. token.id.0 < length plan.now) tokens.now }
    ensures { IsTrue result → (i : ℕ) (d : LineTok) → first ≤ i → i < first + 8 →
        slot_of plan.now (get_or tokens.now i d).id.0 ≡ None }
{
    let mut decided = false;
    for at in first..first + 8 {
        decided |= plan.is_decided(token_at(tokens, at).id.0);
    }
    !decided
}

/// A place up to which the gaps before all tokens are open. They are looked at by eights, since that many take fewer
/// steps at once than one by one.
#[inline(always)]
fn open_front(plan: &Plan<'_>, tokens: &[LineTok]) -> usize
    requires { All (λ token. token.id.0 < length plan.now) tokens.now }
    ensures within { result ≤ length tokens.now }
    ensures open_gaps { (i : ℕ) (d : LineTok) → i < result → slot_of plan.now (get_or tokens.now i d).id.0 ≡ None }
{
    let mut first = 0;
    while first + 8 <= tokens.len() {
        if !are_eight_open(plan, tokens, first) {
            return first;
        }
        first += 8;
    }
    first
}

/// Whether the gap before each of these tokens is open, where those before so many are.
#[inline(always)]
fn are_open(plan: &Plan<'_>, tokens: &[LineTok], front: usize) -> bool
    requires within { All (λ token. token.id.0 < length plan.now) tokens.now }
    requires front { (i : ℕ) (d : LineTok) → i < front → slot_of plan.now (get_or tokens.now i d).id.0 ≡ None }
    ensures { IsTrue result → All (λ token. slot_of plan.now token.id.0 ≡ None) tokens.now }
{
    for at in front..tokens.len() {
        if plan.is_decided(token_at(tokens, at).id.0) {
            return false;
        }
    }
    true
}

/// Gaps of which nothing is decided, more than most parts of a text have.
const OPEN: [Option<Fixed>; 4096] = [None; 4096];

/// So many gaps of which nothing is decided.
fn some_open(count: usize) -> &'static [Option<Fixed>]
    requires { count ≤ 4096 }
    ensures { result.now ≡ replicate count None }
{
    &OPEN[..count]
}

/// So many gaps of which nothing is decided. They take memory only where there are very many.
pub(crate) fn all_open<'r>(count: usize, run: &'r Bump) -> Result<&'r [Option<Fixed>], NoMemory>
    ensures { IfOk result (λ fixed. fixed.now ≡ replicate count None) }
{
    if count <= OPEN.len() {
        return Ok(some_open(count));
    }
    Ok(into_bump_slice(vec![in run; None; count]?))
}

/// The same, to be changed: they take memory, few or many.
pub(crate) fn own_open<'r>(count: usize, run: &'r Bump) -> Result<&'r mut [Option<Fixed>], NoMemory>
    ensures { IfOk result (λ fixed. fixed.now ≡ replicate count None) }
{
    if count <= OPEN.len() {
        return Ok(run.try_alloc_slice_copy(some_open(count))?);
    }
    Ok(into_bump_slice_mut(vec![in run; None; count]?))
}

/// Tells what is decided of the gaps before the tokens from one place up to another, where that is told up to the first
/// of them.
fn tell_decided(
    arena: &TokenArena<'_, '_>,
    tokens: &[LineTok],
    plan: &Plan<'_>,
    first: usize,
    end: usize,
    fixed: &mut [Option<Fixed>],
)
    requires whole { length plan.now ≡ length arena.now.tokens + 1 }
    requires within { All (λ token. token.id.0 < length plan.now) tokens.now }
    requires order { first ≤ end }
    requires inside { end ≤ length tokens.now }
    requires told { fixed.old ≡ fixed_up_to (fixed_of_token arena.now plan.now) tokens.now first }
    ensures told { fixed.new ≡ fixed_up_to (fixed_of_token arena.now plan.now) tokens.now end }
{
    let count = arena.len();
    for at in first..end {
        fixed[at] = plan.fixed_of(arena, token_at(tokens, at).id.0);
    }
    let _ = count;
}

/// The same for eight tokens. Where their gaps are open there is nothing to tell.
#[inline(always)]
fn tell_eight(
    arena: &TokenArena<'_, '_>,
    tokens: &[LineTok],
    plan: &Plan<'_>,
    first: usize,
    fixed: &mut [Option<Fixed>],
)
    requires whole { length plan.now ≡ length arena.now.tokens + 1 }
    requires within { All (λ token. token.id.0 < length plan.now) tokens.now }
    requires room { first + 8 ≤ length tokens.now }
    requires told { fixed.old ≡ fixed_up_to (fixed_of_token arena.now plan.now) tokens.now first }
    ensures told { fixed.new ≡ fixed_up_to (fixed_of_token arena.now plan.now) tokens.now (first + 8) }
{
    if are_eight_open(plan, tokens, first) {
        return;
    }
    tell_decided(arena, tokens, plan, first, first + 8, fixed);
}

/// What is decided of the gaps before these tokens, which of most lines is nothing. Want of memory is the only error.
pub fn fixed_of<'r>(
    arena: &TokenArena<'_, '_>,
    tokens: &[LineTok],
    plan: &Plan<'_>,
    run: &'r Bump,
) -> Result<&'r [Option<Fixed>], NoMemory>
    requires whole { length plan.now ≡ length arena.now.tokens + 1 }
    requires within { All (λ token. token.id.0 < length plan.now) tokens.now }
    ensures { IfOk result (λ fixed. fixed.now ≡ map (fixed_of_token arena.now plan.now) tokens.now) }
{
    let front = open_front(plan, tokens);
    if are_open(plan, tokens, front) {
        let open = all_open(tokens.len(), run)?;
        return Ok(open);
    }
    let fixed = own_open(tokens.len(), run)?;
    let mut first = front;
    while first + 8 <= tokens.len() {
        tell_eight(arena, tokens, plan, first, fixed);
        first += 8;
    }
    tell_decided(arena, tokens, plan, first, tokens.len(), fixed);
    Ok(&*fixed)
}
