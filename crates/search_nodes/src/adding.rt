//! Adds nodes, and lists those of long chains.

ghost use Rattle.std.specs.Prelude.{◌≡◌, ◌≢◌, ℕ, ◌+◌, ◌<◌, ◌≤◌, [], ◌∷◌, ◌++◌, Some, length, slice_get, OnOk, OnErr};
ghost use Rattle.std.specs.Vec.{vec_len, vec_capacity};
ghost use Rattle.frame_store.specs.Store.{state_digest};
ghost use Rattle.search_nodes.specs.Groups.{IsGrouped, IsPlaced, AreListed};

use crate::finding::{TOKENS_A_GROUP, place_digest};
use crate::node::{MOST_ON_CHAIN, Node};
use bumpalo::Bump;
use frame_store::{Group, NoMemory, NodeState};

/// How many slots a group has at first.
const SLOTS: usize = 256;

/// Adds groups up to a place.
#[inline(always)]
fn fill_up<'r>(
    run: &'r Bump,
    groups: &mut Vec<Group<'r>, &'r Bump>,
    place: usize,
) -> Result<(), NoMemory>
    ensures kept { (i d u : ℕ) → IsGrouped groups.old.items i d u → IsGrouped groups.new.items i d u }
    ensures there { OnOk result (place < length groups.new.items) }
{
    'more: while groups.len() <= place {
        groups.push(Group::with_slots(run, SLOTS)?)?;
    }
    Ok(())
}

/// Lists a node, of which the state is told.
#[inline(always)]
fn enter<'r>(
    run: &'r Bump,
    groups: &mut Vec<Group<'r>, &'r Bump>,
    state: &NodeState,
    at: usize,
) -> Result<(), NoMemory>
    ensures kept { (i d u : ℕ) → IsGrouped groups.old.items i d u → IsGrouped groups.new.items i d u }
    ensures added { OnOk result (IsPlaced groups.new.items state.now.index (state_digest state.now) at) }
{
    let place = (state.index / TOKENS_A_GROUP) as usize;
    fill_up(run, groups, place)?;
    let group = &mut groups[place];
    group.add(place_digest(state), at)?;
    Ok(())
}

/// Lists the nodes of a chain of so many. It is a call of its own, since it is seldom needed.
#[inline(never)]
fn list_chain<'r>(
    run: &'r Bump,
    nodes: &[Node],
    groups: &mut Vec<Group<'r>, &'r Bump>,
    end: usize,
    count: u8,
) -> Result<(), NoMemory>
    ensures kept { (i d u : ℕ) → IsGrouped groups.old.items i d u → IsGrouped groups.new.items i d u }
    ensures listed { OnOk result (AreListed nodes.now groups.new.items end count) }
{
    let mut end = end;
    let mut left = count;
    'back: while left > 0 && end > 0 {
        let at = end - 1;
        let Some(node) = nodes.get(at) else {
            return Ok(());
        };
        enter(run, groups, &node.state, at)?;
        left -= 1;
        end = node.before;
    }
    Ok(())
}

/// Lists a node to be added to a chain that gets long, or is. It is a call of its own, since it is seldom needed.
#[inline(never)]
fn list_far<'r>(
    run: &'r Bump,
    nodes: &[Node],
    groups: &mut Vec<Group<'r>, &'r Bump>,
    end: usize,
    rank: u8,
    state: NodeState,
    at: usize,
) -> Result<(), NoMemory>
    ensures kept { (i d u : ℕ) → IsGrouped groups.old.items i d u → IsGrouped groups.new.items i d u }
    ensures own { OnOk result (IsPlaced groups.new.items state.index (state_digest state) at) }
    ensures others { OnOk result (rank ≡ 8 → AreListed nodes.now groups.new.items end rank) }
{
    if rank != MOST_ON_CHAIN {
        return enter(run, groups, &state, at);
    }
    list_chain(run, nodes, groups, end, rank)?;
    enter(run, groups, &state, at)
}

/// Lists a node to be added, where its chain gets long, or is. Want of memory is the only error.
#[inline(always)]
pub fn list_where_many<'r>(
    run: &'r Bump,
    nodes: &[Node],
    groups: &mut Vec<Group<'r>, &'r Bump>,
    end: usize,
    rank: u8,
    state: &NodeState,
    at: usize,
) -> Result<(), NoMemory>
    ensures kept { (i d u : ℕ) → IsGrouped groups.old.items i d u → IsGrouped groups.new.items i d u }
    ensures own { OnOk result (8 ≤ rank → IsPlaced groups.new.items state.now.index (state_digest state.now) at) }
    ensures others { OnOk result (rank ≡ 8 → AreListed nodes.now groups.new.items end rank) }
{
    if rank < MOST_ON_CHAIN {
        return Ok(());
    }
    list_far(run, nodes, groups, end, rank, *state, at)
}

/// Makes places for chains of up to so many tokens.
#[inline(never)]
fn make_places(ends: &mut Vec<usize, &Bump>, index: u32) -> Result<(), NoMemory>
    ensures kept { (i end : ℕ) → slice_get ends.old.items i ≡ Some end → slice_get ends.new.items i ≡ Some end }
    ensures there { OnOk result (index < length ends.new.items) }
{
    'more: while ends.len() <= index as usize {
        ends.push(0)?;
    }
    Ok(())
}

/// Sees that there is a place for the chain of so many tokens.
#[inline(always)]
fn reserve_place(ends: &mut Vec<usize, &Bump>, index: u32) -> Result<(), NoMemory>
    ensures kept { (i end : ℕ) → slice_get ends.old.items i ≡ Some end → slice_get ends.new.items i ≡ Some end }
    ensures there { OnOk result (index < length ends.new.items) }
{
    if (index as usize) < ends.len() {
        return Ok(());
    }
    make_places(ends, index)
}

/// Makes room for nodes. It is a call of its own, since it is seldom needed.
#[inline(never)]
fn make_room(nodes: &mut Vec<Node>) -> Result<(), NoMemory>
    ensures items { nodes.new.items ≡ nodes.old.items }
    ensures room { OnOk result (vec_len nodes.new < vec_capacity nodes.new) }
{
    nodes.reserve(1)?;
    Ok(())
}

/// Sees that there is room for a node.
#[inline(always)]
fn reserve_room(nodes: &mut Vec<Node>) -> Result<(), NoMemory>
    ensures items { nodes.new.items ≡ nodes.old.items }
    ensures room { OnOk result (vec_len nodes.new < vec_capacity nodes.new) }
{
    if nodes.len() < nodes.capacity() {
        return Ok(());
    }
    make_room(nodes)
}

/// Adds a node, with which the chain of its number of tokens ends. It is written to its place at once: the vector's
/// `push` would hold it ready to be handed back. Want of memory is the only error.
#[inline(always)]
pub fn add(nodes: &mut Vec<Node>, ends: &mut Vec<usize, &Bump>, node: Node) -> Result<(), NoMemory>
    ensures added { OnOk result (nodes.new.items ≡ nodes.old.items ++ node ∷ []) }
    ensures refused { OnErr result (nodes.new.items ≡ nodes.old.items) }
    ensures last { OnOk result (slice_get ends.new.items node.state.index ≡ Some (length nodes.old.items + 1)) }
    ensures others { OnOk result ((i end : ℕ) → i ≢ node.state.index → slice_get ends.old.items i ≡ Some end →
        slice_get ends.new.items i ≡ Some end) }
    ensures kept { OnErr result
        ((i end : ℕ) → slice_get ends.old.items i ≡ Some end → slice_get ends.new.items i ≡ Some end) }
{
    let index = node.state.index;
    reserve_place(ends, index)?;
    reserve_room(nodes)?;
    nodes.push_reserved(node);
    ends[index as usize] = nodes.len();
    Ok(())
}
