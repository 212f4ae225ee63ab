//! The runs that see each text.

ghost use Rattle.std.specs.Prelude.{◌≡◌, ◌<◌, ◌≤◌, ◌+◌, ◌++◌, ◌^◌, map, length, IfOk, slice_index_or};
ghost use Rattle.c_chars.specs.declared.TheConstants.{LIMIT};
ghost use Rattle.token_arena.specs.Segments.{AscendFrom};
ghost use Rattle.branch_runs.specs.Links.{node_mark};
ghost use Rattle.branch_runs.specs.Reading.{read};
ghost use Rattle.branch_runs.specs.Runs.{need};
ghost use Rattle.branch_runs.specs.Cut.{IsCutFrom};
ghost use Rattle.branch_runs.specs.Fits.{FitNodes, rest_at, no_node};
ghost use Rattle.branch_runs.specs.Inside.{text_bounds};
ghost use Rattle.branch_runs.specs.Seen.{seen_texts, seen_left, text_of, FitPlace, till_of};

use crate::node::Node;
use crate::stack::Stack;
use crate::{MarkKind, NoMemory};
use bumpalo::Bump;
use bumpalo::collections::into_bump_slice;

/// A text, with the runs that see it.
#[derive(Clone, Copy, Debug, PartialEq, Eq)]
pub(crate) struct SeenText {
    /// Its first item.
    pub first: u32,
    /// The first item behind it.
    pub end: u32,
    /// The first run that sees it.
    pub from: u32,
    /// The first run behind the last that sees it.
    pub till: u32,
}

/// A conditional that is open.
#[derive(Clone, Copy)]
pub(crate) struct OpenSlot {
    /// The first run of its next branch.
    pub next: u32,
    /// The first run that sees the group around it.
    pub from: u32,
    /// The first run behind the last that sees the group around it.
    pub till: u32,
}

/// Where a pass is: at a section, in a group that the runs from one to before another see.
#[derive(Clone, Copy)]
pub(crate) struct Place {
    pub at: u32,
    pub from: u32,
    pub till: u32,
}

// The first run that sees no more of a branch, which begins with this section and whose slot begins with this run.
fn till_of(node: &Node, from: u32, till: u32) -> u32
    requires { from + node.now.need < 2 ^ 32 }
    ensures { result ≡ till_of node.now.later node.now.need from till }
{
    if node.later > 0 {
        from + node.need
    } else {
        till
    }
}

impl Place {
    /// The same group, at another section.
    fn moved(self, at: u32) -> Place
        ensures { result ≡ record { at = at; from = self.from; till = self.till } }
    {
        Place {
            at,
            from: self.from,
            till: self.till,
        }
    }

    /// The slot of a conditional that opens in this group, before its first branch.
    fn slot(self) -> OpenSlot
        ensures { result ≡ record { next = self.from; from = self.from; till = self.till } }
    {
        OpenSlot {
            next: self.from,
            from: self.from,
            till: self.till,
        }
    }
}

impl OpenSlot {
    /// The slot behind its next branch, which needs so many runs.
    fn passed(self, need: u32) -> OpenSlot
        requires { self.next + need < 2 ^ 32 }
        ensures { result ≡ record { next = self.next + need; from = self.from; till = self.till } }
    {
        OpenSlot {
            next: self.next + need,
            from: self.from,
            till: self.till,
        }
    }

    /// The group of its next branch, which this section begins, at a section.
    fn in_branch(self, node: &Node, at: u32) -> Place
        requires { self.next + node.now.need < 2 ^ 32 }
        ensures { result
            ≡ record { at = at; from = self.next; till = till_of node.now.later node.now.need self.next self.till } }
    {
        Place {
            at,
            from: self.next,
            till: till_of(node, self.next, self.till),
        }
    }

    /// The group around the conditional, at a section.
    fn around(self, at: u32) -> Place
        ensures { result ≡ record { at = at; from = self.from; till = self.till } }
    {
        Place {
            at,
            from: self.from,
            till: self.till,
        }
    }
}

// Adds a section to the texts where it is one.
fn push_text(texts: &mut Vec<SeenText, &Bump>, node: Node, place: Place) -> Result<(), NoMemory>
    ensures { IfOk result (λ _. texts.new.items ≡ texts.old.items ++ text_of node place) }
{
    if let MarkKind::Text = node.kind {
        texts.push(SeenText {
            first: node.first,
            end: node.end,
            from: place.from,
            till: place.till,
        })?;
    }
    Ok(())
}

// Where a pass goes on behind a section.
fn step(nodes: &[Node], place: Place, slots: &mut Stack<'_, OpenSlot>) -> Result<Place, NoMemory>
    requires fit { FitNodes (map node_mark nodes.now) 0 nodes.now }
    requires small { length nodes.now ≤ LIMIT }
    requires within { place.at < length nodes.now }
    requires runs { FitPlace (rest_at (map node_mark nodes.now) place.at) place slots.old }
    ensures left { IfOk result (λ p. text_of (slice_index_or nodes.now place.at no_node) place
        ++ seen_left (rest_at (map node_mark nodes.now) p.at) p.from p.till slots.new
        ≡ seen_left (rest_at (map node_mark nodes.now) place.at) place.from place.till slots.old) }
    ensures runs { IfOk result (λ p. FitPlace (rest_at (map node_mark nodes.now) p.at) p slots.new) }
    ensures after { IfOk result (λ p. place.at < p.at) }
{
    let at = place.at;
    let node = nodes[at as usize];
    match node.kind {
        MarkKind::Text | MarkKind::Flat => Ok(place.moved(at + 1)),
        MarkKind::Opens => {
            let slot = place.slot();
            slots.push(slot.passed(node.need))?;
            Ok(slot.in_branch(&node, at + 1))
        }
        MarkKind::IfZero => {
            slots.push(place.slot())?;
            Ok(place.moved(node.next))
        }
        MarkKind::Branch | MarkKind::LastBranch => match slots.pop() {
            Some(slot) => {
                slots.push(slot.passed(node.need))?;
                Ok(slot.in_branch(&node, at + 1))
            }
            None => Ok(place.moved(nodes.len() as u32)),
        },
        MarkKind::Ends => match slots.pop() {
            Some(slot) => Ok(slot.around(at + 1)),
            None => Ok(place.moved(nodes.len() as u32)),
        },
    }
}

/// The texts, with the runs that see them, of which there are so many.
pub(crate) fn seen_texts<'a>(
    nodes: &[Node],
    runs: u32,
    bump: &'a Bump,
) -> Result<&'a [SeenText], NoMemory>
    requires fit { FitNodes (map node_mark nodes.now) 0 nodes.now }
    requires small { length nodes.now ≤ LIMIT }
    requires need { runs ≡ need (read (map node_mark nodes.now)) }
    requires cut { IsCutFrom 0 (map node_mark nodes.now) }
    ensures ascend { IfOk result (λ texts. AscendFrom 0 (map text_bounds texts.now)) }
    ensures texts { IfOk result (λ texts. texts.now ≡ seen_texts (read (map node_mark nodes.now)) 0 runs) }
{
    let mut texts = Vec::with_capacity(bump, nodes.len())?;
    let mut slots = Stack::new(bump);
    let mut place = Place {
        at: 0,
        from: 0,
        till: runs,
    };
    while (place.at as usize) < nodes.len() {
        push_text(&mut texts, nodes[place.at as usize], place)?;
        place = step(nodes, place, &mut slots)?;
    }
    Ok(into_bump_slice(texts))
}
