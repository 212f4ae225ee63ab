//! What each section does where it stands, and which items are dead.

ghost use Rattle.std.specs.Prelude.{◌≡◌, ◌<◌, ◌≤◌, ◌+◌, ◌++◌, ◌^◌, [], All, IfOk, length, map, replicate};
ghost use Rattle.branch_runs.specs.Marks.{mark_of};
ghost use Rattle.branch_runs.specs.Links.{node_mark};
ghost use Rattle.branch_runs.specs.Operands.{IsWithin};
ghost use Rattle.branch_runs.specs.Reading.{effects, kind_in, open_after};
ghost use Rattle.branch_runs.specs.Dead.{groups_around, has_zero};
ghost use Rattle.branch_runs.specs.Flags.{flags_in};

use crate::mark::mark_of;
use crate::node::Node;
use crate::open_groups::OpenGroups;
use crate::{MarkKind, NoMemory};
use bumpalo::Bump;
use bumpalo::collections::{into_bump_slice, into_bump_slice_mut};
use token_arena::{Section, TokenArena};

// Adds a flag so many times.
fn push_flags(flags: &mut Vec<bool, &Bump>, count: u32, flag: bool) -> Result<(), NoMemory>
    ensures { IfOk result (λ _. flags.new.items ≡ flags.old.items ++ replicate count flag) }
{
    let len = flags.len();
    flags.resize(len + count as usize, flag)?;
    Ok(())
}

// What a section does, and whether it is dead.
fn enter(groups: &mut OpenGroups<'_>, kind: MarkKind) -> Result<(MarkKind, bool), NoMemory>
    requires { length groups.old < 2 ^ 31 }
    ensures kind { IfOk result (λ r. r.0 ≡ kind_in kind groups.old) }
    ensures dead { IfOk result (λ r. r.1 ≡ has_zero (groups_around r.0 groups.old)) }
    ensures after { IfOk result (λ r. groups.new ≡ open_after r.0 groups.old) }
    ensures len { IfOk result (λ _. length groups.new ≤ length groups.old + 1) }
{
    let before = groups.is_dead();
    let kind = groups.enter(kind)?;
    let after = groups.is_dead();
    Ok((kind, before && after))
}

/// A node for each section, with what it does where it stands, and for each item whether it stands in the group of a
/// literal `#if 0`.
pub(crate) fn effects<'a>(
    arena: &TokenArena<'_, '_>,
    sections: &[Section],
    bump: &'a Bump,
) -> Result<(&'a mut [Node], &'a [bool]), NoMemory>
    requires few { length sections.now < 2 ^ 31 }
    requires within { All (IsWithin (length arena.now.tokens)) sections.now }
    ensures marks { IfOk result (λ r. map node_mark r.0.now ≡ effects (map (mark_of arena.now) sections.now)) }
    ensures dead { IfOk result (λ r. r.1.now ≡ flags_in [] (effects (map (mark_of arena.now) sections.now))) }
{
    let mut groups = OpenGroups::new(bump);
    let mut done = Vec::with_capacity(bump, sections.len())?;
    let mut flags = Vec::with_capacity(bump, arena.len() as usize)?;
    for section in sections {
        let mark = mark_of(arena, *section);
        let (kind, dead) = enter(&mut groups, mark.kind)?;
        done.push(Node::alone(mark.first, mark.end, kind))?;
        push_flags(&mut flags, mark.end.saturating_sub(mark.first), dead)?;
    }
    Ok((into_bump_slice_mut(done), into_bump_slice(flags)))
}
