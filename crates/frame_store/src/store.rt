//! The frames of many states, kept once.

ghost use Rattle.std.specs.Prelude.{◌≡◌, ℕ, ◌+◌, ◌<◌, ◌^◌, List, [], ◌∷◌, ◌++◌, length, slice_get, take, Some, None};
ghost use Rattle.std.specs.Prelude.{IfSome, IfNone, IfOk, OnErr};
ghost use Rattle.std.specs.Bool.{OnTrue, OnFalse};
ghost use Rattle.frame_store.specs.Chains.{IsOnChain};
ghost use Rattle.frame_store.specs.Frames.{topmost, below_topmost, with_topmost};
ghost use Rattle.frame_store.specs.Store.{FrameList, list_at, extended, IsKnown, IsNowhere, IsGrown, lists_of, IsNode};
ghost use Rattle.frame_store.specs.Store.{IsNewNode, AreTold, HasNode, LacksNode, AreApart};

use crate::frames::Frame;
use crate::group::{Group, Link};
use crate::node::{Node, digest_of_node, is_node, is_same_frame, node_at};
use bumpalo::Bump;
use line_tokens::NoMemory;
use std::marker::Model;

/// For how many nodes a store has room at first.
const NODES: usize = 16;

/// Frames on nodes. A node is a frame and the node below it, and equal lists of frames have one node. Nodes are only
/// added, and a node's list never changes. Contracts see the list of each node.
#[derive(Drop)]
pub struct FrameStore<'r> {
    nodes: Vec<Node, &'r Bump>,
    group: Group<'r>,
}

impl<'r> Model for FrameStore<'r> {
    ghost use Rattle.std.specs.Prelude.{List};
    ghost use Rattle.frame_store.specs.Store.{FrameList, lists_of, AreShared};

    ghost Value = { List FrameList };

    ghost view = { λ s. lists_of s.nodes.items };

    ghost invariant = { λ s. AreShared s.nodes.items s.group };
}

/// The link at a place, if there is one.
fn link_at(links: &[Link], at: usize) -> Option<&Link>
    ensures some { IfSome result (λ link. slice_get links.now at ≡ Some link.now) }
    ensures none { IfNone result (slice_get links.now at ≡ None) }
{
    links.get(at)
}

/// Whether the link is of the digest, and its number is that of the node.
fn tells(nodes: &[Node], link: &Link, digest: u64, frame: &Frame, below: Option<u32>) -> bool
    ensures yes { OnTrue result (HasNode nodes.now link.now.number frame.now below) }
    ensures no { OnFalse result (link.now.digest ≡ digest → LacksNode nodes.now link.now.number frame.now below) }
{
    if link.digest != digest {
        return false;
    }
    is_node(nodes, link.number as usize, frame, below)
}

/// The node of the frame and the node below, among those of its digest on a chain.
fn find_on_chain(
    nodes: &[Node],
    links: &[Link],
    end: usize,
    digest: u64,
    frame: &Frame,
    below: Option<u32>,
) -> Option<usize>
    ensures found { IfSome result (λ u. HasNode nodes.now u frame.now below) }
    ensures none { IfNone result ((u : ℕ) → IsOnChain links.now end digest u → LacksNode nodes.now u frame.now below) }
{
    let mut end = end;
    'back: while end > 0 {
        let at = end - 1;
        let Some(link) = link_at(links, at) else {
            return None;
        };
        if tells(nodes, link, digest, frame, below) {
            return Some(link.number as usize);
        }
        end = (link.before as usize).min(at);
    }
    None
}

/// A node of the frame and the node below it, to be added.
fn above(nodes: &[Node], frame: Frame, below: Option<u32>) -> Node
    requires known { IsKnown (lists_of nodes.now) below }
    requires told { AreTold nodes.now }
    requires few { length nodes.now < 2 ^ 32 }
    ensures { IsNewNode (lists_of nodes.now) frame below result }
{
    match below {
        None => Node {
            frame,
            below,
            base: frame,
            depth: 0,
        },
        Some(under) => {
            let node = node_at(nodes, under);
            Node {
                frame,
                below,
                base: node.base,
                depth: node.depth + 1,
            }
        }
    }
}

impl<'r> FrameStore<'r> {
    /// A store of no nodes, which will lie in the arena.
    ///
    /// # Errors
    ///
    /// `NoMemory` where memory ran out.
    pub fn make(run: &'r Bump) -> Result<FrameStore<'r>, NoMemory>
        ensures { IfOk result (λ store. store ≡ []) }
    {
        let nodes = Vec::with_capacity(run, NODES)?;
        let group = Group::with_slots(run, NODES)?;
        Ok(FrameStore { nodes, group })
    }

    /// The node of a number.
    #[inline(always)]
    pub fn node(&self, at: u32) -> Node
        requires { at < length self.now }
        ensures { IsNode self.now at result }
    {
        node_at(self.nodes.as_slice(), at)
    }

    /// The topmost frame of a node's list.
    #[inline(always)]
    pub fn topmost(&self, node: u32) -> Frame
        requires { node < length self.now }
        ensures { let list = list_at self.now node in
            result ≡ topmost list.base list.frames }
    {
        self.node(node).frame
    }

    /// The frame below that one; the base frame where there is none.
    #[inline(always)]
    pub fn below_topmost(&self, node: u32) -> Frame
        requires { node < length self.now }
        ensures { let list = list_at self.now node in
            result ≡ below_topmost list.base list.frames }
    {
        let here = self.node(node);
        match here.below {
            None => here.base,
            Some(below) => self.topmost(below),
        }
    }

    /// The node of a frame and the node below it, if there is one.
    fn find(&self, frame: &Frame, below: Option<u32>) -> Option<u32>
        requires { IsKnown self.now below }
        ensures known { IfSome result (λ u. u < length self.now) }
        ensures list { IfSome result (λ u. list_at self.now u ≡ extended self.now frame.now below) }
        ensures none { IfNone result (IsNowhere self.now (extended self.now frame.now below)) }
    {
        let digest = digest_of_node(frame, below);
        let end = self.group.end(digest);
        let links = self.group.links();
        match find_on_chain(self.nodes.as_slice(), links, end, digest, frame, below) {
            Some(at) => Some(at as u32),
            None => None,
        }
    }

    /// Adds a node whose list no node has.
    fn put(&mut self, frame: Frame, below: Option<u32>) -> Result<u32, NoMemory>
        requires known { IsKnown self.old below }
        requires new { IsNowhere self.old (extended self.old frame below) }
        ensures at { IfOk result (λ u. u ≡ length self.old) }
        ensures ok { IfOk result (λ u. self.new ≡ self.old ++ extended self.old frame below ∷ []) }
        ensures err { OnErr result (self.new ≡ self.old) }
    {
        let at = self.nodes.len();
        if at >= u32::MAX as usize {
            return Err(NoMemory);
        }
        let node = above(self.nodes.as_slice(), frame, below);
        self.group.add(digest_of_node(&frame, below), at)?;
        self.nodes.push(node)?;
        Ok(at as u32)
    }

    /// The node of a frame and the node below it, which is added where there is none.
    ///
    /// # Errors
    ///
    /// `NoMemory` where memory ran out, or there are 2^32 - 1 nodes.
    pub fn keep(&mut self, frame: Frame, below: Option<u32>) -> Result<u32, NoMemory>
        requires { IsKnown self.old below }
        ensures known { IfOk result (λ u. u < length self.new) }
        ensures list { IfOk result (λ u. list_at self.new u ≡ extended self.old frame below) }
        ensures grown { IsGrown self.old self.new }
    {
        match self.find(&frame, below) {
            Some(node) => Ok(node),
            None => self.put(frame, below),
        }
    }

    /// The node of a node's lowest frames, at most so many of them.
    #[inline(always)]
    pub fn lowest(&self, node: u32, count: u32) -> u32
        requires { node < length self.now }
        ensures known { result < length self.now }
        ensures list { list_at self.now result
            ≡ record { base = (list_at self.now node).base; frames = take count (list_at self.now node).frames } }
    {
        let mut at = node;
        'down: loop {
            let here = self.node(at);
            if here.depth <= count {
                return at;
            }
            match here.below {
                Some(below) => at = below,
                None => return at,
            }
        }
    }

    /// The node of a node's frames with another topmost one. The base frame stays.
    ///
    /// # Errors
    ///
    /// `NoMemory` where memory ran out, or there are 2^32 - 1 nodes.
    #[inline(always)]
    pub fn with_topmost(&mut self, node: u32, frame: Frame) -> Result<u32, NoMemory>
        requires { node < length self.old }
        ensures known { IfOk result (λ u. u < length self.new) }
        ensures list { IfOk result (λ u.
            list_at self.new u
            ≡ record
            { base = (list_at self.old node).base; frames = with_topmost (list_at self.old node).frames frame }) }
        ensures grown { IsGrown self.old self.new }
    {
        let here = self.node(node);
        match here.below {
            None => Ok(node),
            Some(_) => {
                if is_same_frame(&here.frame, &frame) {
                    return Ok(node);
                }
                let kept = self.keep(frame, here.below)?;
                Ok(kept)
            }
        }
    }

    /// Two nodes with the same list are the same node.
    pub fn tells_lists_apart(&self)
        ensures { AreApart self.now }
    {
        let _ = &self.nodes;
    }
}
