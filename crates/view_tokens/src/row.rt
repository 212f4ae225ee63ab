//! Tokens whose items follow one another in the text.

ghost use Rattle.std.specs.Prelude.{◌≡◌, ◌==◌, ◌<◌, ◌+◌, ◌&&◌, IsTrue, length, get_or};
ghost use Rattle.line_tokens.specs.declared.LineTok.{LineTok};
ghost use Rattle.view_tokens.specs.Row.{row_of, IsRow};

use crate::made::{item, mark_at, token_of, touches};
use line_tokens::{ItemKind, LineTok, Role, TokenId};
use std::marker::Model;
use token_arena::{Token, TokenArena};
use token_roles::Mark;

/// Tokens of a line whose items follow one another in the text, so that no directive stands between two of them. A
/// contract sees the list of the tokens.
#[derive(Drop)]
pub struct RowTokens<'v> {
    /// The items of the text.
    arena: &'v TokenArena<'v, 'v>,
    /// The number of the first.
    first: u32,
    /// A directive stands before it.
    apart: bool,
    /// What their lines tell of them, and of those behind them.
    marks: &'v [Mark],
    /// How many there are.
    count: usize,
}

impl<'v> Model for RowTokens<'v> {
    ghost use Rattle.std.specs.Prelude.{List};
    ghost use Rattle.line_tokens.specs.declared.LineTok.{LineTok};
    ghost use Rattle.view_tokens.specs.Row.{row_of, IsRow};

    ghost Value = { List LineTok };

    ghost view = { λ r. row_of r.arena.now r.first r.apart r.marks.now r.count };

    ghost invariant = { λ r. IsRow r.arena.now r.first r.marks.now r.count };
}

/// The number of the item so many behind this one.
#[inline(always)]
fn number(arena: &TokenArena<'_, '_>, first: u32, at: usize) -> u32
    requires { first + at < length arena.now.tokens }
    ensures is { result ≡ first + at }
    ensures within { result < length arena.now.tokens }
{
    let _items = arena.len();
    first + at as u32
}

/// What a token takes in its rows.
#[derive(Clone, Copy)]
pub struct Extent {
    /// How many physical lines it has, from 1.
    pub rows: u32,
    /// The width of its first row, in columns.
    pub first_width: u32,
    /// The width of its last row, in columns.
    pub last_width: u32,
}

/// Whether a directive stands before a place, where it stands before the first or doesn't.
#[inline(always)]
fn is_apart(apart: bool, at: usize) -> bool
    ensures { result ≡ (apart && at == 0) }
{
    apart && at == 0
}

impl<'v> RowTokens<'v> {
    /// So many tokens of items from this one on, of which this is told. A directive stands before the first or doesn't.
    pub(crate) fn of(
        arena: &'v TokenArena<'v, 'v>,
        first: u32,
        apart: bool,
        marks: &'v [Mark],
        count: usize,
    ) -> RowTokens<'v>
        requires { IsRow arena.now first marks.now count }
        ensures { result ≡ row_of arena.now first apart marks.now count }
    {
        RowTokens {
            arena,
            first,
            apart,
            marks,
            count,
        }
    }

    /// How many there are.
    #[inline(always)]
    pub fn len(&self) -> usize
        ensures { result ≡ length self.now }
    {
        self.count
    }

    /// Whether there is none.
    pub fn is_empty(&self) -> bool
        ensures { result ≡ (length self.now == 0) }
    {
        self.count == 0
    }

    /// The number of the item at a place.
    #[inline(always)]
    pub fn id(&self, at: usize) -> u32
        requires { at < length self.now }
        ensures { (d : LineTok) → result ≡ (get_or self.now at d).id.0 }
    {
        number(self.arena, self.first, at)
    }

    /// The token at a place.
    pub fn at(&self, at: usize) -> LineTok
        requires { at < length self.now }
        ensures { (d : LineTok) → result ≡ get_or self.now at d }
    {
        let id = number(self.arena, self.first, at);
        token_of(self.arena, id, is_apart(self.apart, at), self.marks, at)
    }

    /// What its line tells of the token at a place.
    #[inline(always)]
    fn mark(&self, at: usize) -> &Mark
        requires { at < length self.now }
        ensures role { (d : LineTok) → result.now.seen.role ≡ (get_or self.now at d).role }
        ensures depth { (d : LineTok) → result.now.around.depth ≡ (get_or self.now at d).depth }
        ensures list { (d : LineTok) → result.now.trailing_list ≡ (get_or self.now at d).trailing_list }
    {
        mark_at(self.marks, at)
    }

    /// The role of the token at a place.
    #[inline(always)]
    pub fn role(&self, at: usize) -> Role
        requires { at < length self.now }
        ensures { (d : LineTok) → result ≡ (get_or self.now at d).role }
    {
        self.mark(at).seen.role
    }

    /// The item at a place.
    #[inline(always)]
    fn item(&self, at: usize) -> Token<'v>
        requires { at < length self.now }
        ensures kind { (d : LineTok) → result.item.kind ≡ (get_or self.now at d).kind }
        ensures gap { (d : LineTok) → result.gap ≡ (get_or self.now at d).gap }
    {
        item(self.arena, number(self.arena, self.first, at))
    }

    /// The kind of the item at a place.
    #[inline(always)]
    pub fn kind(&self, at: usize) -> ItemKind
        requires { at < length self.now }
        ensures { (d : LineTok) → result ≡ (get_or self.now at d).kind }
    {
        self.item(at).item.kind
    }

    /// How many brackets of the line are open before a place.
    #[inline(always)]
    pub fn depth(&self, at: usize) -> u32
        requires { at < length self.now }
        ensures { (d : LineTok) → result ≡ (get_or self.now at d).depth }
    {
        self.mark(at).around.depth
    }

    /// Whether the gap before a place belongs to a braced list whose last token is a comma.
    #[inline(always)]
    pub fn is_in_trailing_list(&self, at: usize) -> bool
        requires { at < length self.now }
        ensures { (d : LineTok) → result ≡ (get_or self.now at d).trailing_list }
    {
        self.mark(at).trailing_list
    }

    /// Whether the gap before a place has no bytes.
    #[inline(always)]
    pub fn is_behind_nothing(&self, at: usize) -> bool
        requires { at < length self.now }
        ensures { (d : LineTok) → result ≡ (get_or self.now at d).gap.empty }
    {
        self.item(at).gap.empty
    }

    /// How many new-lines the gap before a place has in the input.
    #[inline(always)]
    pub fn lines(&self, at: usize) -> u32
        requires { at < length self.now }
        ensures { (d : LineTok) → result ≡ (get_or self.now at d).gap.lines }
    {
        self.item(at).gap.lines
    }

    /// Whether a directive stands between the token at a place and the one before it in its view.
    #[inline(always)]
    pub fn is_behind_directive(&self, at: usize) -> bool
        requires { at < length self.now }
        ensures { (d : LineTok) → result ≡ (get_or self.now at d).directive }
    {
        is_apart(self.apart, at)
    }

    /// Whether the token at a place may stand directly behind the item before it.
    #[inline(never)]
    pub fn touches(&self, at: usize) -> bool
        requires { at < length self.now }
        ensures { (d : LineTok) → result ≡ (get_or self.now at d).touch }
    {
        touches(self.arena, number(self.arena, self.first, at))
    }

    /// What the token at a place takes. A call is made only for those that aren't known to be one row.
    #[inline(always)]
    pub fn extent(&self, at: usize) -> Extent
        requires { at < length self.now }
        ensures rows { (d : LineTok) → result.rows ≡ (get_or self.now at d).rows }
        ensures first { (d : LineTok) → result.first_width ≡ (get_or self.now at d).first_width }
        ensures last { (d : LineTok) → result.last_width ≡ (get_or self.now at d).last_width }
    {
        let rows = self.arena.rows(TokenId(number(self.arena, self.first, at)));
        Extent {
            rows: rows.count,
            first_width: rows.first_width,
            last_width: rows.last_width,
        }
    }

    /// Whether the token at a place is known to be one row, the first and the last, which is as wide as its item is
    /// long.
    #[inline(always)]
    pub fn is_one_row(&self, at: usize) -> bool
        requires { at < length self.now }
        ensures rows { (d : LineTok) → IsTrue result → (get_or self.now at d).rows ≡ 1 }
        ensures width { (d : LineTok) → IsTrue result →
            (get_or self.now at d).first_width ≡ (get_or self.now at d).last_width }
    {
        self.arena
            .is_one_row(TokenId(number(self.arena, self.first, at)))
    }
}
