//! The tokens of a view.

ghost use Rattle.std.specs.Prelude.{◌≡◌, ◌==◌, ◌<◌, ◌≤◌, ◌+◌, ℕ, IfOk, IfSome, length, get_or, slice_range, false};
ghost use Rattle.style_table.specs.Range.{IsInRange};
ghost use Rattle.line_tokens.specs.Tokens.{no_token};
ghost use Rattle.layout_tables.specs.Spaces.{spaces_before};
ghost use Rattle.line_tokens.specs.declared.LineTok.{LineTok};
ghost use Rattle.view_tokens.specs.Tokens.{toks_from, AreTold};

use crate::made::{mark_at, marks_from, push_places, token_at};
use crate::row::RowTokens;
use crate::spacing::spaces_behind;
use crate::start::row_start;
use bumpalo::Bump;
use bumpalo::collections::into_bump_slice;
use layout_tables::spaces_before;
use line_tokens::{LineTok, NoMemory, Role};
use std::marker::Model;
use style_table::Style;
use token_arena::{TokenArena, View};
use token_roles::Mark;

/// The tokens of a view, none of which is made before it is asked for. A contract sees the list of them.
#[derive(Drop)]
pub struct ViewTokens<'v> {
    /// The items of the text.
    arena: &'v TokenArena<'v, 'v>,
    /// Those of the view.
    view: &'v View<'v>,
    /// What their lines tell of them.
    marks: &'v [Mark],
}

impl<'v> Model for ViewTokens<'v> {
    ghost use Rattle.std.specs.Prelude.{List};
    ghost use Rattle.line_tokens.specs.declared.LineTok.{LineTok};
    ghost use Rattle.view_tokens.specs.Tokens.{toks_from, AreTold};

    ghost Value = { List LineTok };

    ghost view = { λ t. toks_from t.arena.now t.view.now 0 t.marks.now };

    ghost invariant = { λ t. AreTold t.arena.now t.view.now t.marks.now };
}

impl<'v> ViewTokens<'v> {
    /// The tokens of this view, of whose places this is told.
    pub fn of(
        arena: &'v TokenArena<'v, 'v>,
        view: &'v View<'v>,
        marks: &'v [Mark],
    ) -> ViewTokens<'v>
        requires { AreTold arena.now view.now marks.now }
        ensures { result ≡ toks_from arena.now view.now 0 marks.now }
    {
        ViewTokens { arena, view, marks }
    }

    /// How many there are.
    #[inline(always)]
    pub fn len(&self) -> usize
        ensures { result ≡ length self.now }
    {
        self.marks.len()
    }

    /// Whether there is none.
    pub fn is_empty(&self) -> bool
        ensures { result ≡ (length self.now == 0) }
    {
        self.marks.is_empty()
    }

    /// The role of the token at a place.
    #[inline(always)]
    pub fn role(&self, place: usize) -> Role
        requires { place < length self.now }
        ensures { (d : LineTok) → result ≡ (get_or self.now place d).role }
    {
        mark_at(self.marks, place).seen.role
    }

    /// The token at a place. Where many are needed, [`ViewTokens::between`] makes them in fewer steps.
    pub fn at(&self, place: usize) -> LineTok
        requires { place < length self.now }
        ensures { (d : LineTok) → result ≡ get_or self.now place d }
    {
        token_at(self.arena, self.view, self.marks, place)
    }

    /// The blanks between the tokens at two places, as [`spaces_before`](layout_tables::spaces_before) tells them.
    /// Neither token is made where their items stand side by side in the text.
    pub fn spaces_between(&self, style: &Style, left: usize, right: usize) -> u8
        requires range { IsInRange style.now }
        requires left { left < length self.now }
        requires right { right < length self.now }
        ensures { result ≡ spaces_before style.now (get_or self.now left no_token) (get_or self.now right no_token) }
    {
        let count = self.len();
        prove!(left < count);
        prove!(right < count);
        let mut segment = 0;
        if left + 1 == right {
            if let Some(row) = self.row(left, right + 1, &mut segment) {
                return spaces_behind(style, &row, 1);
            }
        }
        spaces_before(style, &self.at(left), &self.at(right))
    }

    /// The tokens from one place to before another, in memory of a room. Want of memory is the only error.
    pub fn between<'r>(
        &self,
        first: usize,
        end: usize,
        room: &'r Bump,
    ) -> Result<&'r [LineTok], NoMemory>
        requires order { first ≤ end }
        requires within { end ≤ length self.now }
        ensures { IfOk result (λ tokens. tokens.now ≡ slice_range self.now first end) }
    {
        let mut toks = Vec::with_capacity(room, end - first)?;
        push_places(
            self.arena,
            self.view,
            marks_from(self.marks, first),
            first,
            end - first,
            &mut toks,
        );
        Ok(into_bump_slice(toks))
    }

    /// The number of the item at a place. `segment` is the number of the view's segment that was looked into last.
    #[inline(always)]
    pub fn id(&self, place: usize, segment: &mut usize) -> u32
        requires { place < length self.now }
        ensures { (d : LineTok) → result ≡ (get_or self.now place d).id.0 }
    {
        row_start(self.view, place as u32, segment).id
    }

    /// The tokens from a place on whose items follow one another in the text, as many as there are. `segment` is the
    /// number of the view's segment that was looked into last.
    #[inline(always)]
    pub fn row_from(&self, first: usize, segment: &mut usize) -> RowTokens<'v>
        requires { first < length self.now }
        ensures some { 0 < length result }
        ensures within { first + length result ≤ length self.now }
        ensures tokens { result ≡ slice_range self.now first (first + length result) }
    {
        let left = self.marks.len() - first;
        let start = row_start(self.view, first as u32, segment);
        RowTokens::of(
            self.arena,
            start.id,
            start.apart,
            marks_from(self.marks, first),
            left.min(start.count as usize),
        )
    }

    /// The tokens from one place to before another, where their items follow one another in the text. `segment` is the
    /// number of the view's segment that was looked into last.
    #[inline(always)]
    pub fn row(&self, first: usize, end: usize, segment: &mut usize) -> Option<RowTokens<'v>>
        requires some { first < end }
        requires within { end ≤ length self.now }
        ensures tokens { IfSome result (λ row. row ≡ slice_range self.now first end) }
        ensures together { IfSome result (λ row. (k : ℕ) (d : LineTok) → 0 < k → k < length row →
            (get_or row k d).directive ≡ false) }
    {
        let start = row_start(self.view, first as u32, segment);
        if start.count < (end - first) as u32 {
            return None;
        }
        Some(RowTokens::of(
            self.arena,
            start.id,
            start.apart,
            marks_from(self.marks, first),
            end - first,
        ))
    }
}
