//! The gaps that stay as they are.

ghost use Rattle.std.specs.Prelude.{◌≡◌, ◌≤◌, ◌<◌, ◌+◌, ◌^◌, ◌||◌, ℕ, Some, None, if◌then◌else◌, false, get_or, length};
ghost use Rattle.std.specs.Prelude.{IsTrue};
ghost use Rattle.c_chars.specs.declared.TheConstants.{LIMIT};
ghost use Rattle.replacements.specs.Decisions.{decided_all};
ghost use Rattle.line_gaps.specs.InputColumns.{kept_slot};
ghost use Rattle.item_classes.specs.Viewed.{item_classes};
ghost use Rattle.early_gaps.specs.Columns.{column_at};
ghost use Rattle.early_gaps.specs.Dead.{IsTreeOf};
ghost use Rattle.early_gaps.specs.Kept.{IsBehind, IsColumn, Passes, is_kept, kept_at};
ghost use Rattle.early_gaps.specs.Made.{made_at, made_from};

use crate::behind::{
    Behind, dead_or, is_plain, may_be_backslash, next_behind, nothing_before, passes,
};
use crate::columns::{InputColumn, column_from, first_column};
use branch_runs::CondTree;
use replacements::{Decision, Plan};
use token_arena::TokenArena;
use token_classes::TokenClass;

/// Whether the gap between two items stays, of which the first is `behind` and the second `here`.
#[inline(always)]
fn stays(frozen: bool, behind: Behind, here: Behind) -> bool
    ensures { result ≡ (frozen || ((here.dead || behind.dead) || (here.joined || behind.joined))) }
{
    frozen || here.dead || behind.dead || here.joined || behind.joined
}

/// Keeps the bytes of the gap at a place, if it stays and is open. The column of a place is known, and of which it is
/// known then is told.
#[inline(always)]
fn keep(
    tab: u32,
    arena: &TokenArena<'_, '_>,
    kept: bool,
    known: InputColumn,
    place: u32,
    plan: &mut Plan<'_>,
) -> InputColumn
    requires tab { 1 ≤ tab }
    requires known { IsColumn tab arena.now known }
    requires order { known.place ≤ place }
    requires within { place ≤ length arena.now.tokens }
    requires whole { place < length plan.old }
    ensures known { IsColumn tab arena.now result }
    ensures order { result.place ≤ place }
    ensures plan { plan.new
        ≡ decided_all plan.old
        (made_at place (if kept then Some (kept_slot (column_at tab arena.now place)) else None)) }
    ensures len { length plan.new ≡ length plan.old }
{
    if !kept {
        return known;
    }
    let column = column_from(tab, arena, known, place);
    let _ = plan.decide(place, Decision::Old, column);
    InputColumn { place, column }
}

/// Whether the gap at a place is marked. Where there are no marks, none is.
#[inline(always)]
fn is_marked(frozen: &[bool], place: u32) -> bool
    ensures { result ≡ get_or frozen.now place false }
{
    match frozen.get(place as usize) {
        Some(mark) => *mark,
        None => false,
    }
}

/// Whether one of the gaps at eight places from one on is marked. Most texts have no marks.
#[inline(always)]
fn is_some_marked(frozen: &[bool], first: u32) -> bool
    requires { first + 8 < 2 ^ 32 }
    ensures { result ≡ false → (k : ℕ) → first ≤ k → k < first + 8 → get_or frozen.now k false ≡ false }
{
    if frozen.is_empty() {
        return false;
    }
    let mut marked = false;
    for next in 0..8 {
        marked |= is_marked(frozen, first + next);
    }
    marked
}

/// Whether no gap stays at eight places from one on behind a plain item, and the items there are plain too.
#[inline(always)]
fn pass_eight(
    arena: &TokenArena<'_, '_>,
    tree: &CondTree<'_>,
    classes: &[TokenClass],
    frozen: &[bool],
    first: u32,
) -> bool
    requires tree { IsTreeOf arena.now tree.now }
    requires all { classes.now ≡ item_classes arena.now }
    requires room { first + 8 ≤ length arena.now.tokens }
    ensures { IsTrue result → (k : ℕ) → first ≤ k → k < first + 8 → Passes arena.now (get_or frozen.now k false) k }
{
    let _count = arena.len();
    if is_some_marked(frozen, first) {
        return false;
    }
    let mut dead = false;
    for next in 0..8 {
        dead = dead_or(arena, tree, first + next, dead);
    }
    if dead {
        return false;
    }
    for next in 0..8 {
        if may_be_backslash(arena, classes, first + next) {
            return false;
        }
    }
    true
}

/// The places from one on at which no gap stays behind a plain item, and whose items are plain too, looked at by
/// eights, since that many take fewer steps at once. The first place for which this isn't told.
#[inline(always)]
fn plain_front(
    arena: &TokenArena<'_, '_>,
    tree: &CondTree<'_>,
    classes: &[TokenClass],
    frozen: &[bool],
    place: u32,
) -> u32
    requires tree { IsTreeOf arena.now tree.now }
    requires all { classes.now ≡ item_classes arena.now }
    requires within { place ≤ length arena.now.tokens }
    ensures later { place ≤ result }
    ensures within { result ≤ length arena.now.tokens }
    ensures passed { (k : ℕ) → place ≤ k → k < result → Passes arena.now (get_or frozen.now k false) k }
{
    let count = arena.len();
    let mut at = place;
    while count - at >= 8 {
        if !pass_eight(arena, tree, classes, frozen, at) {
            return at;
        }
        at += 8;
    }
    at
}

/// Passes places at which no gap stays: the items from the one before a place on are plain. The first place for which
/// this isn't told, or the last one.
#[inline(never)]
fn pass_plain(
    arena: &TokenArena<'_, '_>,
    tree: &CondTree<'_>,
    classes: &[TokenClass],
    frozen: &[bool],
    behind: Behind,
    place: u32,
) -> u32
    requires tree { IsTreeOf arena.now tree.now }
    requires all { classes.now ≡ item_classes arena.now }
    requires behind { IsBehind arena.now place behind }
    requires within { place ≤ length arena.now.tokens }
    ensures later { place ≤ result }
    ensures within { result ≤ length arena.now.tokens }
    ensures behind { IsBehind arena.now result behind }
    ensures none { (k : ℕ) → place ≤ k → k < result → is_kept arena.now frozen.now k ≡ false }
{
    if !is_plain(behind) {
        return place;
    }
    let count = arena.len();
    for at in plain_front(arena, tree, classes, frozen, place)..count {
        if !passes(arena, tree, classes, is_marked(frozen, at), at) {
            return at;
        }
    }
    count
}

/// Keeps the bytes of all gaps that stay, where they are open. `frozen` marks those at which formatting is off or whose
/// lines aren't asked for, and has no marks where there are none of these. It goes over the items once.
pub(crate) fn keep_gaps(
    tab: u32,
    arena: &TokenArena<'_, '_>,
    tree: &CondTree<'_>,
    classes: &[TokenClass],
    frozen: &[bool],
    plan: &mut Plan<'_>,
)
    requires tab { 1 ≤ tab }
    requires fits { length arena.now.text ≤ LIMIT }
    requires tree { IsTreeOf arena.now tree.now }
    requires all { classes.now ≡ item_classes arena.now }
    requires whole { length plan.old ≡ length arena.now.tokens + 1 }
    ensures plan { plan.new
        ≡ decided_all plan.old (made_from (kept_at tab arena.now frozen.now) 0 (length arena.now.tokens + 1)) }
    ensures len { length plan.new ≡ length plan.old }
{
    let mut known = first_column(tab, arena);
    let mut behind = nothing_before(arena);
    let mut place = 0;
    while place <= arena.len() {
        place = pass_plain(arena, tree, classes, frozen, behind, place);
        let here = next_behind(arena, tree, behind, place);
        let kept = stays(is_marked(frozen, place), behind, here);
        known = keep(tab, arena, kept, known, place, plan);
        behind = here;
        place += 1;
    }
}
