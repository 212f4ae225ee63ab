//! The conditionals of a text, and what each run sees.

ghost use Rattle.std.specs.Prelude.{◌≡◌, ◌<◌, ◌≤◌, [], All, IfOk, length, map};
ghost use Rattle.c_chars.specs.declared.TheConstants.{LIMIT};
ghost use Rattle.token_arena.specs.Ids.{Increase};
ghost use Rattle.token_arena.specs.Sections.{sections_of, IsCut};
ghost use Rattle.branch_runs.specs.Marks.{marks_of};
ghost use Rattle.branch_runs.specs.Links.{node_mark};
ghost use Rattle.branch_runs.specs.Reading.{read, effects};
ghost use Rattle.branch_runs.specs.Runs.{need, view_of};
ghost use Rattle.branch_runs.specs.Dead.{is_dead_in};
ghost use Rattle.branch_runs.specs.Laws.{IsCovered, NeverParted};
ghost use Rattle.branch_runs.specs.Cut.{IsCutFrom, end_of};
ghost use Rattle.branch_runs.specs.Anew.{IsChange, items_between};
ghost use Rattle.branch_runs.specs.Flags.{flags_in};

use crate::NoMemory;
use crate::change::{Change, changes_of};
use crate::effect::effects;
use crate::link::link_nodes;
use crate::node::{Node, end_of};
use crate::seen::seen_texts;
use crate::visible::Visible;
use crate::window::stretches_between;
use bumpalo::Bump;
use std::marker::Model;
use token_arena::{Section, TokenArena, TokenId, View};

/// The conditionals of a text. A contract sees the marks of its sections, each with what it does where it stands.
#[derive(Drop)]
pub struct CondTree<'a> {
    nodes: &'a [Node],
    dead: &'a [bool],
    texts: Visible<'a>,
    changes: &'a [Change],
    count: u32,
}

impl<'a> Model for CondTree<'a> {
    ghost use Rattle.std.specs.Prelude.{List, map};
    ghost use Rattle.branch_runs.specs.declared.mark.Mark.{Mark};
    ghost use Rattle.branch_runs.specs.Links.{node_mark};
    ghost use Rattle.branch_runs.specs.Kept.{IsKept};

    ghost Value = { List Mark };

    ghost view = { λ t. map node_mark t.nodes.now };

    ghost invariant = { λ t. IsKept t.nodes.now t.dead.now t.texts t.changes.now t.count };
}

impl<'a> CondTree<'a> {
    /// Reads the conditionals from the sections of a text, which [`token_arena::sections`] gives.
    pub fn build(
        arena: &TokenArena<'_, '_>,
        sections: &[Section],
        bump: &'a Bump,
    ) -> Result<CondTree<'a>, NoMemory>
        requires sections { sections.now ≡ sections_of arena.now }
        requires cut { IsCut 0 (length arena.now.tokens) sections.now }
        ensures marks { IfOk result (λ tree. tree ≡ effects (marks_of arena.now)) }
        ensures end { IfOk result (λ tree. end_of 0 tree ≡ length arena.now.tokens) }
        ensures covered { IfOk result (λ _. IsCovered (marks_of arena.now)) }
        ensures together { IfOk result (λ _. NeverParted (marks_of arena.now)) }
    {
        let _items = arena.len();
        let (nodes, dead) = effects(arena, sections, bump)?;
        let tree = CondTree::of_effects(nodes, dead, bump)?;
        Ok(tree)
    }

    // The tree of nodes that have what their sections do where they stand, with the flags of their dead items.
    fn of_effects(
        nodes: &'a mut [Node],
        dead: &'a [bool],
        bump: &'a Bump,
    ) -> Result<CondTree<'a>, NoMemory>
        requires small { length nodes.old ≤ LIMIT }
        requires cut { IsCutFrom 0 (map node_mark nodes.old) }
        requires dead { dead.now ≡ flags_in [] (map node_mark nodes.old) }
        ensures { IfOk result (λ tree. tree ≡ map node_mark nodes.old) }
    {
        let (nodes, count) = link_nodes(nodes, bump)?;
        let texts = seen_texts(nodes, count, bump)?;
        let changes = changes_of(texts, count, bump)?;
        let texts = Visible::make(texts, bump)?;
        Ok(CondTree {
            nodes,
            dead,
            texts,
            changes,
            count,
        })
    }

    /// How many runs there are.
    #[tactic(auto, using(crate::proofs::Cover::need_some))]
    pub fn runs(&self) -> u32
        ensures need { result ≡ need (read self.now) }
        ensures some { 1 ≤ result }
    {
        self.count
    }

    /// What a run sees.
    pub fn view<'r>(&self, number: u32, run: &'r Bump) -> Result<View<'r>, NoMemory>
        requires { number < need (read self.now) }
        ensures view { IfOk result (λ view. view ≡ view_of (read self.now) number) }
        ensures increase { IfOk result (λ view. Increase view) }
        ensures within { IfOk result (λ view. All (λ id. id < end_of 0 self.now) view) }
    {
        self.view_between(number, 0, end_of(self.nodes), run)
    }

    /// The items from one to before another that a run sees. It looks at no text before the first that it gives
    /// items of, but for those that it halves the texts at, and at few that the run doesn't see.
    pub fn view_between<'r>(
        &self,
        number: u32,
        first: u32,
        end: u32,
        run: &'r Bump,
    ) -> Result<View<'r>, NoMemory>
        requires { number < need (read self.now) }
        ensures view { IfOk result (λ view. view ≡ items_between first end (view_of (read self.now) number)) }
        ensures increase { IfOk result (λ view. Increase view) }
        ensures within { IfOk result (λ view. All (λ id. id < end_of 0 self.now) view) }
    {
        let stretches = stretches_between(&self.texts, number, first, end, run)?;
        let view = View::of_stretches(stretches, run)?;
        Ok(view)
    }

    /// How the view of a run differs from that of the run before it. It takes no memory, and no walk.
    pub fn change(&self, number: u32) -> Change
        requires later { 0 < number }
        requires run { number < need (read self.now) }
        ensures { IsChange (read self.now) number result }
    {
        self.changes[number as usize]
    }

    /// Whether an item stands in the group of a literal `#if 0`. It takes no memory.
    pub fn is_dead(&self, id: TokenId) -> bool
        requires { id.0 < end_of 0 self.now }
        ensures { result ≡ is_dead_in [] self.now id.0 }
    {
        self.dead[id.0 as usize]
    }
}
