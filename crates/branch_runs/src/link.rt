//! What a walk needs of each section, told in one pass from the end.

ghost use Rattle.std.specs.Prelude.{◌≡◌, ◌<◌, ◌≤◌, map, length, IfOk};
ghost use Rattle.c_chars.specs.declared.TheConstants.{LIMIT};
ghost use Rattle.branch_runs.specs.Links.{node_mark};
ghost use Rattle.branch_runs.specs.Fits.{FitNodes};
ghost use Rattle.branch_runs.specs.Reading.{rest_of};
ghost use Rattle.branch_runs.specs.Runs.{need};

use crate::NoMemory;
use crate::node::{Node, link, peek_level};
use crate::stack::Stack;
use bumpalo::Bump;

/// The nodes of sections with what a walk needs of them, and how many runs they need.
pub(crate) fn link_nodes<'a>(
    nodes: &'a mut [Node],
    bump: &Bump,
) -> Result<(&'a [Node], u32), NoMemory>
    requires { length nodes.old ≤ LIMIT }
    ensures marks { IfOk result (λ r. map node_mark r.0.now ≡ map node_mark nodes.old) }
    ensures fit { IfOk result (λ r. FitNodes (map node_mark nodes.old) 0 r.0.now) }
    ensures need { IfOk result (λ r. r.1 ≡ need (rest_of (map node_mark nodes.old)).0) }
{
    let count = nodes.len() as u32;
    let mut levels = Stack::new(bump);
    let mut need = 1;
    let mut at = count;
    while at > 0 {
        at -= 1;
        let node = nodes[at as usize];
        let level = peek_level(&levels, count);
        nodes[at as usize] = Node {
            first: node.first,
            end: node.end,
            kind: node.kind,
            need,
            later: level.later,
            next: level.next,
        };
        need = link(count, at, node.kind, need, &mut levels)?;
    }
    Ok((nodes, need))
}
