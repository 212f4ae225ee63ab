//! The node that has a layout, among those of as many tokens.

ghost use Rattle.std.specs.Prelude.{◌≡◌, ℕ, Some, slice_get, IfSome, IfNone};
ghost use Rattle.std.specs.Bool.{OnTrue, OnFalse};
ghost use Rattle.frame_store.specs.Digest.{digest_with};
ghost use Rattle.frame_store.specs.Store.{state_digest};
ghost use Rattle.frame_store.specs.Chains.{IsOnChain};
ghost use Rattle.search_nodes.specs.Groups.{IsPlaced, IsAmong, HasPlace, LacksPlace, Misses};

use crate::node::{MOST_ON_CHAIN, Node};
use frame_store::{Group, Link, NodeState, digest, digest_with, is_same_place};

/// How many numbers of tokens have one group.
pub(crate) const TOKENS_A_GROUP: u32 = 32;

/// Whether the link is of the digest, and its node has the state's layout.
#[inline(always)]
fn tells(nodes: &[Node], link: &Link, digest: u64, state: &NodeState) -> bool
    ensures yes { OnTrue result (HasPlace nodes.now link.now.number state.now) }
    ensures no { OnFalse result (link.now.digest ≡ digest → LacksPlace nodes.now link.now.number state.now) }
{
    if link.digest != digest {
        return false;
    }
    match nodes.get(link.number as usize) {
        Some(node) => is_same_place(&node.state, state),
        None => false,
    }
}

/// The number under which a group lists a node of the state.
#[inline(always)]
pub(crate) fn place_digest(state: &NodeState) -> u64
    ensures { result ≡ digest_with (state_digest state.now) state.now.index }
{
    digest_with(digest(state), u64::from(state.index))
}

/// The node that has the state's layout, among those of its digest on a chain.
#[inline(always)]
fn find_on_chain(
    nodes: &[Node],
    links: &[Link],
    end: usize,
    state: &NodeState,
    digest: u64,
) -> Option<usize>
    ensures found { IfSome result (λ w. HasPlace nodes.now w state.now) }
    ensures none { IfNone result ((u : ℕ) → IsOnChain links.now end digest u → LacksPlace nodes.now u state.now) }
{
    let mut end = end;
    'back: while end > 0 {
        let at = end - 1;
        let Some(link) = links.get(at) else {
            return None;
        };
        if tells(nodes, link, digest, state) {
            return Some(link.number as usize);
        }
        end = (link.before as usize).min(at);
    }
    None
}

/// The node that has the state's layout, among those that are listed. It is a call of its own, since it is seldom
/// needed.
#[inline(never)]
fn find_listed(nodes: &[Node], groups: &[Group<'_>], state: NodeState) -> Option<usize>
    ensures found { IfSome result (λ w. HasPlace nodes.now w state) }
    ensures none { IfNone result
        ((u : ℕ) → IsPlaced groups.now state.index (state_digest state) u → LacksPlace nodes.now u state) }
{
    let digest = place_digest(&state);
    let Some(group) = groups.get((state.index / TOKENS_A_GROUP) as usize) else {
        return None;
    };
    find_on_chain(nodes, group.links(), group.end(digest), &state, digest)
}

/// The node that has the state's layout, on a chain of so many nodes.
#[inline(always)]
fn find_among(nodes: &[Node], end: usize, count: u8, state: &NodeState) -> Option<usize>
    ensures found { IfSome result (λ w. HasPlace nodes.now w state.now) }
    ensures none { IfNone result ((u : ℕ) → IsAmong count nodes.now end u → LacksPlace nodes.now u state.now) }
{
    let mut end = end;
    let mut left = count;
    'back: while left > 0 && end > 0 {
        let at = end - 1;
        let Some(node) = nodes.get(at) else {
            return None;
        };
        if is_same_place(&node.state, state) {
            return Some(at);
        }
        left -= 1;
        end = node.before;
    }
    None
}

/// Where the chain of so many tokens ends.
#[inline(always)]
pub fn end_at(ends: &[usize], index: u32) -> usize
    ensures { (end : ℕ) → slice_get ends.now index ≡ Some end → result ≡ end }
{
    match ends.get(index as usize) {
        Some(end) => *end,
        None => 0,
    }
}

/// The node that has the state's layout, where the chain of as many tokens ends there and has so many nodes.
#[inline(always)]
pub fn find(
    nodes: &[Node],
    groups: &[Group<'_>],
    end: usize,
    rank: u8,
    state: &NodeState,
) -> Option<usize>
    ensures found { IfSome result (λ w. HasPlace nodes.now w state.now) }
    ensures none { IfNone result (Misses nodes.now groups.now end rank state.now) }
{
    if rank > MOST_ON_CHAIN {
        return find_listed(nodes, groups, *state);
    }
    find_among(nodes, end, rank, state)
}
