//! Sections with what a run needs to know of them.

ghost use Rattle.std.specs.Prelude.{◌≡◌, ◌<◌, ◌+◌, ◌^◌, [], map, IfOk};
ghost use Rattle.branch_runs.specs.Cut.{end_of};
ghost use Rattle.branch_runs.specs.Links.{links_after, level_of, below, total, node_mark};

use crate::stack::Stack;
use crate::{MarkKind, NoMemory};

/// A section, and what a walk needs where it begins a group. Sections are named by their numbers.
#[derive(Clone, Copy)]
pub(crate) struct Node {
    /// Its first item.
    pub first: u32,
    /// The first item behind it.
    pub end: u32,
    /// What it does.
    pub kind: MarkKind,
    /// How many runs the group behind it needs.
    pub need: u32,
    /// How many runs the live branches that follow in its conditional need together.
    pub later: u32,
    /// The next branch of its conditional, or the end.
    pub next: u32,
}

impl Node {
    /// A section of which it isn't known yet what a walk needs.
    pub fn alone(first: u32, end: u32, kind: MarkKind) -> Node
        ensures { node_mark result ≡ record { first = first; end = end; kind = kind } }
    {
        Node {
            first,
            end,
            kind,
            need: 0,
            later: 0,
            next: 0,
        }
    }
}

/// A conditional that is open for a reading from the end.
#[derive(Clone, Copy)]
pub(crate) struct Level {
    /// How many runs its live branches that were read need together.
    pub later: u32,
    /// How many runs the rest of the group around it needs.
    pub need: u32,
    /// Its branch that was read last, or its end.
    pub next: u32,
}

/// The item behind the last of these sections.
pub(crate) fn end_of(nodes: &[Node]) -> u32
    ensures { result ≡ end_of 0 (map node_mark nodes.now) }
{
    match nodes.last() {
        Some(node) => node.end,
        None => 0,
    }
}

// What a conditional without an end has, which ends at the end of the text.
fn unended(count: u32) -> Level
    ensures { result ≡ level_of count [] }
{
    Level {
        later: 0,
        need: 1,
        next: count,
    }
}

/// Takes the innermost level away, of a text of so many sections.
pub(crate) fn pop_level(levels: &mut Stack<'_, Level>, count: u32) -> Level
    ensures top { result ≡ level_of count levels.old }
    ensures rest { levels.new ≡ below levels.old }
{
    match levels.pop() {
        Some(level) => level,
        None => unended(count),
    }
}

/// The innermost level, of a text of so many sections.
pub(crate) fn peek_level(levels: &Stack<'_, Level>, count: u32) -> Level
    ensures { result ≡ level_of count levels.now }
{
    match levels.top() {
        Some(level) => level,
        None => unended(count),
    }
}

/// How many runs the rest of the group needs from a section on, where it needs so many from behind it on; and
/// the levels.
pub(crate) fn link(
    count: u32,
    at: u32,
    kind: MarkKind,
    need: u32,
    levels: &mut Stack<'_, Level>,
) -> Result<u32, NoMemory>
    requires small { total need levels.old < 2 ^ 31 }
    requires at { at < 2 ^ 31 }
    ensures { IfOk result (λ more. (more, levels.new) ≡ links_after count at kind need levels.old) }
{
    match kind {
        MarkKind::Text | MarkKind::Flat => Ok(need),
        MarkKind::IfZero => {
            let top = pop_level(levels, count);
            Ok(top.later.max(top.need))
        }
        MarkKind::Opens => {
            let top = pop_level(levels, count);
            Ok((need + top.later).max(top.need))
        }
        MarkKind::Branch | MarkKind::LastBranch => {
            let top = pop_level(levels, count);
            levels.push(Level {
                later: need + top.later,
                need: top.need,
                next: at,
            })?;
            Ok(1)
        }
        MarkKind::Ends => {
            levels.push(Level {
                later: 0,
                need,
                next: at,
            })?;
            Ok(1)
        }
    }
}
