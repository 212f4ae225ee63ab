//! Nodes, which stand for lists of frames, and the states that name them.

ghost use Rattle.std.specs.Prelude.{◌≡◌, ◌↔◌, ◌<◌, IsTrue, length, slice_get, Some, None};
ghost use Rattle.std.specs.Bool.{OnTrue, OnFalse};
ghost use Rattle.frame_store.specs.Store.{HasNode, LacksNode, IsSamePlace, node_digest, state_digest};

use crate::frames::{Frame, digest_with, frame_digest};

/// Where a line stands behind some of its tokens, with its frames in a store.
#[derive(Clone, Copy)]
pub struct NodeState {
    /// What its tokens cost.
    pub cost: u128,
    /// How many tokens are placed.
    pub index: u32,
    /// The column behind the last of them; before the first one, the column at which the line starts.
    pub column: u32,
    /// The node of its frames.
    pub node: u32,
}

/// A frame and the node below it. A base frame stands on no node.
#[derive(Clone, Copy)]
pub struct Node {
    /// The topmost frame of its list.
    pub frame: Frame,
    /// The node of the frames below.
    pub below: Option<u32>,
    /// The lowest frame of its list.
    pub base: Frame,
    /// How many frames its list has above that.
    pub depth: u32,
}

/// Whether two states of one store are one but for their cost.
#[inline(always)]
pub fn is_same_place(one: &NodeState, other: &NodeState) -> bool
    ensures yes { OnTrue result (IsSamePlace one.now other.now) }
    ensures no { OnFalse result (IsSamePlace one.now other.now → ⊥) }
{
    one.column == other.column && one.node == other.node && one.index == other.index
}

/// A number that states of one store and one layout share, and that few others behind as many tokens have.
#[inline(always)]
pub fn digest(state: &NodeState) -> u64
    ensures { result ≡ state_digest state.now }
{
    digest_with(u64::from(state.column), u64::from(state.node))
}

/// The number under which a node is looked up.
pub(crate) fn digest_of_node(frame: &Frame, below: Option<u32>) -> u64
    ensures { result ≡ node_digest frame.now below }
{
    match below {
        None => frame_digest(0, frame),
        Some(node) => frame_digest(u64::from(node) + 1, frame),
    }
}

/// Whether two frames are the same.
#[inline(always)]
pub(crate) fn is_same_frame(one: &Frame, other: &Frame) -> bool
    ensures { IsTrue result ↔ (one.now ≡ other.now) }
{
    *one == *other
}

/// Whether two nodes below are the same.
fn is_same_below(one: Option<u32>, other: Option<u32>) -> bool
    ensures { IsTrue result ↔ (one ≡ other) }
{
    match (one, other) {
        (None, None) => true,
        (Some(x), Some(y)) => x == y,
        (None, Some(_)) | (Some(_), None) => false,
    }
}

/// Whether a node is of the frame and the node below it.
#[inline(always)]
fn is_same_node(node: &Node, frame: &Frame, below: Option<u32>) -> bool
    ensures yes { OnTrue result ((node.now.frame ≡ frame.now) × (node.now.below ≡ below)) }
    ensures no { OnFalse result (node.now.frame ≡ frame.now → node.now.below ≡ below → ⊥) }
{
    if !is_same_below(node.below, below) {
        return false;
    }
    is_same_frame(&node.frame, frame)
}

/// Whether there is a node at a place, of the frame and the node below.
pub(crate) fn is_node(nodes: &[Node], at: usize, frame: &Frame, below: Option<u32>) -> bool
    ensures yes { OnTrue result (HasNode nodes.now at frame.now below) }
    ensures no { OnFalse result (LacksNode nodes.now at frame.now below) }
{
    match nodes.get(at) {
        Some(node) => is_same_node(node, frame, below),
        None => false,
    }
}

/// The node at a place.
#[inline(always)]
pub(crate) fn node_at(nodes: &[Node], at: u32) -> Node
    requires { at < length nodes.now }
    ensures { slice_get nodes.now at ≡ Some result }
{
    nodes[at as usize]
}
