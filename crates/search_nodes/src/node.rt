//! Nodes, on chains of those of as many tokens.

ghost use Rattle.std.specs.Prelude.{◌≡◌, ◌+◌, min};
ghost use Rattle.search_nodes.specs.Groups.{IsRank};
ghost use Rattle.search_nodes.specs.Nodes.{open_node};

use frame_store::NodeState;

/// How many nodes a chain has on which a node is looked for. Where there are more, all are listed in a group.
pub(crate) const MOST_ON_CHAIN: u8 = 8;

/// A layout that was met, its least known cost, and where that way to it comes from.
#[derive(Clone, Copy)]
pub struct Node {
    /// The layout, with its cost. Its frames are in the search's store.
    pub state: NodeState,
    /// The node before it.
    pub parent: usize,
    /// A node further back on its way, once it is settled.
    pub jump: usize,
    /// Behind the node that was met before it with as many tokens, or 0.
    pub before: usize,
    /// How many nodes are on the chain that ends with it, at most one more than a node is looked for on.
    pub rank: u8,
    /// Over how many choices the jump leads: one less than this power of two.
    pub height: u8,
    /// The choice that leads here from its parent.
    pub brk: bool,
    /// No better way to it is left.
    pub settled: bool,
    /// Once it is settled: behind the node that was settled before it with as many tokens, or 0. It is told in 32 bits,
    /// so that a node fills a line of a processor's cache and no more; who reads it looks whether it can be.
    pub settled_before: u32,
}

/// A node that isn't settled, on a chain of so many others.
#[inline(always)]
pub fn open_node(state: NodeState, parent: usize, breaks: bool, before: usize, rank: u8) -> Node
    ensures { result ≡ open_node state parent breaks before (min rank 8 + 1) }
{
    Node {
        state,
        parent,
        jump: 0,
        before,
        rank: rank.min(MOST_ON_CHAIN) + 1,
        height: 0,
        brk: breaks,
        settled: false,
        settled_before: 0,
    }
}

/// How many nodes are on the chain that ends there, as the last one tells it.
#[inline(always)]
pub fn rank_at(nodes: &[Node], end: usize) -> u8
    ensures { IsRank nodes.now end result }
{
    if end == 0 {
        return 0;
    }
    match nodes.get(end - 1) {
        Some(node) => node.rank,
        None => 0,
    }
}
