//! Numbers that are looked up by digests.
//!
//! A [`Group`] lists numbers, each under a digest: a number that equal things share and that few others have. Who looks
//! for a thing walks along the chain of its digest, and compares with what the numbers there stand for.

ghost use Rattle.std.specs.Prelude.{◌≡◌, ℕ, ◌<◌, [], length, IfOk, OnOk};
ghost use Rattle.std.specs.Vec.{vec_len, vec_capacity};
ghost use Rattle.frame_store.specs.declared.group.Link.{Link};
ghost use Rattle.frame_store.specs.Chains.{Chained, slot_of, IsListed, IsOnChain, IsLinked, Lists};

use bumpalo::Bump;
use std::alloc::AllocError;
use std::marker::Model;

/// How many slots a group has at least, once it has slots. Their number grows by a power of two, so that it stays one.
const FEWEST_SLOTS: usize = 4;

/// How many slots a group makes for each link that it has.
const SLOTS_A_LINK: usize = 4;

/// How many links a group has on one chain before it has slots.
const MOST_ON_ONE_CHAIN: usize = 4;

/// The largest number of a link.
const MOST: usize = u32::MAX as usize;

/// A link of a chain.
#[derive(Clone, Copy)]
pub struct Link {
    /// The digest under which its number is listed.
    pub digest: u64,
    /// Its number.
    pub number: u32,
    /// Where the rest of the chain ends.
    pub before: u32,
}

/// Numbers, found by digests. A slot's chain goes from its last link back to its first one, and ends behind its last
/// link, or at 0 where it has none. There are about as many slots as links, so that chains are short. A few links are
/// on one chain without slots.
#[derive(Drop)]
pub struct Group<'r> {
    /// For each slot where its chain ends.
    ends: Vec<u32, &'r Bump>,
    /// The links of all chains.
    links: Vec<Link, &'r Bump>,
}

impl<'r> Model for Group<'r> {
    ghost use Rattle.frame_store.specs.Chains.{Chained};

    ghost Value = { Chained };

    ghost view = { λ g. record { ends = g.ends.items; links = g.links.items } };
}

/// The slot of a digest, among so many. Where their number is a power of two, as it mostly is, this divides nothing.
#[inline(always)]
fn slot(digest: u64, count: usize) -> usize
    requires { 0 < count }
    ensures value { result ≡ slot_of count digest }
    ensures within { result < count }
{
    let count = count as u64;
    let power = 1 << count.ilog2();
    if power == count {
        return (digest & (power - 1)) as usize;
    }
    (digest % count) as usize
}

/// A link, where its numbers aren't too large.
#[inline(always)]
fn link_of(digest: u64, number: usize, before: usize) -> Result<Link, AllocError>
    ensures { IfOk result (λ link. link ≡ record { digest = digest; number = number; before = before }) }
{
    if number > MOST || before >= MOST {
        return Err(AllocError);
    }
    Ok(Link {
        digest,
        number: number as u32,
        before: before as u32,
    })
}

/// Puts a link behind a slot's chain, where there is room for it.
#[inline(always)]
fn list_in_room(
    ends: &mut Vec<u32, &Bump>,
    links: &mut Vec<Link, &Bump>,
    slot: usize,
    digest: u64,
    number: usize,
) -> Result<(), AllocError>
    requires slot { slot < length ends.old.items }
    requires room { vec_len links.old < vec_capacity links.old }
    ensures kept { (i d u : ℕ) → IsListed ends.old.items links.old.items i d u →
        IsListed ends.new.items links.new.items i d u }
    ensures len { length ends.new.items ≡ length ends.old.items }
    ensures added { OnOk result (IsListed ends.new.items links.new.items slot digest number) }
{
    let count = links.len();
    if count >= MOST {
        return Err(AllocError);
    }
    let before = (ends[slot] as usize).min(count);
    let link = link_of(digest, number, before)?;
    links.push_reserved(link);
    ends[slot] = count as u32 + 1;
    Ok(())
}

/// Puts a link behind a slot's chain.
fn list(
    ends: &mut Vec<u32, &Bump>,
    links: &mut Vec<Link, &Bump>,
    slot: usize,
    digest: u64,
    number: usize,
) -> Result<(), AllocError>
    requires { slot < length ends.old.items }
    ensures kept { (i d u : ℕ) → IsListed ends.old.items links.old.items i d u →
        IsListed ends.new.items links.new.items i d u }
    ensures len { length ends.new.items ≡ length ends.old.items }
    ensures added { OnOk result (IsListed ends.new.items links.new.items slot digest number) }
{
    links.reserve(1)?;
    list_in_room(ends, links, slot, digest, number)
}

/// Puts a link behind the only chain.
#[inline(always)]
fn chain(links: &mut Vec<Link, &Bump>, digest: u64, number: usize) -> Result<(), AllocError>
    ensures kept { (d u : ℕ) → IsOnChain links.old.items (length links.old.items) d u →
        IsOnChain links.new.items (length links.new.items) d u }
    ensures added { OnOk result (IsOnChain links.new.items (length links.new.items) digest number) }
{
    let before = links.len();
    links.push(link_of(digest, number, before)?)?;
    Ok(())
}

/// A group of so many slots that lists what the links tell.
fn spread<'r>(run: &'r Bump, links: &[Link], count: usize) -> Result<Group<'r>, AllocError>
    requires { 0 < count }
    ensures listed { IfOk result (λ group. (d u : ℕ) → IsLinked links.now d u → Lists group d u) }
    ensures len { IfOk result (λ group. length group.ends ≡ count) }
{
    let mut ends = vec![in run; 0; count]?;
    let mut spread = Vec::with_capacity(run, count)?;
    for link in links {
        list(
            &mut ends,
            &mut spread,
            slot(link.digest, count),
            link.digest,
            link.number as usize,
        )?;
    }
    Ok(Group {
        ends,
        links: spread,
    })
}

impl<'r> Group<'r> {
    /// Nothing is listed. Takes no memory.
    pub fn new(run: &'r Bump) -> Self
        ensures { result.links ≡ [] }
    {
        Group {
            ends: Vec::new(run),
            links: Vec::new(run),
        }
    }

    /// Nothing is listed, with so many slots, and room for as many links.
    ///
    /// # Errors
    ///
    /// `AllocError` where memory ran out.
    pub fn with_slots(run: &'r Bump, count: usize) -> Result<Self, AllocError>
        ensures { IfOk result (λ group. group.links ≡ []) }
    {
        let ends = vec![in run; 0; count]?;
        let links = Vec::with_capacity(run, count)?;
        Ok(Group { ends, links })
    }

    /// The links of all chains.
    pub fn links(&self) -> &[Link]
        ensures { result.now ≡ self.now.links }
    {
        self.links.as_slice()
    }

    /// Makes more slots where there are fewer than links.
    fn make_room(&mut self) -> Result<(), AllocError>
        ensures kept { (d u : ℕ) → Lists self.old d u → Lists self.new d u }
        ensures some { OnOk result (0 < length self.new.ends) }
    {
        let many = self.links.len();
        if many >= self.ends.len() {
            let count = many.saturating_mul(SLOTS_A_LINK).max(FEWEST_SLOTS);
            *self = spread(*self.ends.allocator(), self.links.as_slice(), count)?;
        }
        Ok(())
    }

    /// Lists a number under a digest, in the chain of its slot, once there are slots enough.
    fn add_to_slot(&mut self, digest: u64, number: usize) -> Result<(), AllocError>
        ensures kept { (d u : ℕ) → Lists self.old d u → Lists self.new d u }
        ensures added { OnOk result (Lists self.new digest number) }
    {
        self.make_room()?;
        let slot = slot(digest, self.ends.len());
        list(&mut self.ends, &mut self.links, slot, digest, number)
    }

    /// Lists a number under a digest where there may be no room.
    #[inline(never)]
    fn add_to_full(&mut self, digest: u64, number: usize) -> Result<(), AllocError>
        ensures kept { (d u : ℕ) → Lists self.old d u → Lists self.new d u }
        ensures added { OnOk result (Lists self.new digest number) }
    {
        if self.ends.is_empty() && self.links.len() < MOST_ON_ONE_CHAIN {
            return chain(&mut self.links, digest, number);
        }
        self.add_to_slot(digest, number)
    }

    /// Lists a number under a digest. `AllocError` where memory ran out, or the number or the links have no room in 32
    /// bits.
    #[inline(always)]
    pub fn add(&mut self, digest: u64, number: usize) -> Result<(), AllocError>
        ensures kept { (d u : ℕ) → Lists self.old d u → Lists self.new d u }
        ensures added { OnOk result (Lists self.new digest number) }
    {
        let count = self.ends.len();
        let many = self.links.len();
        if many >= count || many >= self.links.capacity() {
            return self.add_to_full(digest, number);
        }
        let slot = slot(digest, count);
        list_in_room(&mut self.ends, &mut self.links, slot, digest, number)
    }

    /// Where the chain ends that has the numbers of a digest.
    #[inline(always)]
    pub fn end(&self, digest: u64) -> usize
        ensures { (u : ℕ) → Lists self.now digest u → IsOnChain self.now.links result digest u }
    {
        let ends = self.ends.as_slice();
        if ends.is_empty() {
            return self.links.len();
        }
        ends[slot(digest, ends.len())] as usize
    }
}
