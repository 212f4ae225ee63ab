//! Tokens that are made of the items of a view.

ghost use Rattle.std.specs.Prelude.{◌≡◌, ◌==◌, ◌<◌, ◌≤◌, ◌+◌, ◌-◌, ◌^◌, ◌&&◌, not, nat_lt, [], ◌∷◌, ◌++◌, ℕ, length};
ghost use Rattle.std.specs.Prelude.{Some, drop, get_or, slice_get, slice_range, vec_capacity};
ghost use Rattle.c_chars.specs.declared.TheConstants.{LIMIT};
ghost use Rattle.line_tokens.specs.declared.LineTok.{LineTok};
ghost use Rattle.token_arena.specs.Entries.{told_by};
ghost use Rattle.token_roles.specs.Classes.{is_hash};
ghost use Rattle.token_roles.specs.Held.{TellsHeld, is_held};
ghost use Rattle.token_roles.specs.declared.mark.Mark.{Mark};
ghost use Rattle.view_tokens.specs.Tokens.{tok_of, toks_from, AreTold, IsPushed};
ghost use Rattle.view_tokens.specs.Inside.{edge_at, TellsTouch, item_tok, told};
ghost use Rattle.item_classes.specs.Items.{item_at, touches, stands_apart};
ghost use Rattle.item_classes.specs.Viewed.{AreWithin};

use crate::start::row_start;
use bumpalo::Bump;
use line_tokens::{GapFacts, LineTok, Role, TokenId};
use token_arena::{Stretch, Token, TokenArena, View};
use token_roles::{Mark, holds_inner, is_hash, is_inner};
use touching::{Edge, edge_of, may_touch, near_touch, touch_of};

/// The item with this number.
#[inline(always)]
pub(crate) fn item<'s>(arena: &TokenArena<'_, 's>, id: u32) -> Token<'s>
    requires { id < length arena.now.tokens }
    ensures { told_by result ≡ item_at arena.now id }
{
    arena.get(TokenId(id))
}

/// The item with this number, which is known to be no longer than a text.
#[inline(always)]
fn item_within<'s>(arena: &TokenArena<'_, 's>, id: u32) -> Token<'s>
    requires { id < length arena.now.tokens }
    ensures is { told_by result ≡ item_at arena.now id }
    ensures fits { length result.item.raw.now ≤ LIMIT }
{
    let count = arena.len();
    prove!(id < count);
    arena.get(TokenId(id))
}

/// What is told of a place.
#[inline(always)]
pub(crate) fn mark_at(marks: &[Mark], place: usize) -> &Mark
    requires { place < length marks.now }
    ensures { slice_get marks.now place ≡ Some result.now }
{
    &marks[place]
}

/// What is told of the places from one on.
#[inline(always)]
pub(crate) fn marks_from(marks: &[Mark], place: usize) -> &[Mark]
    requires { place ≤ length marks.now }
    ensures { result.now ≡ drop place marks.now }
{
    &marks[place..]
}

/// Whether an item may stand directly behind the one before it, where their first bytes don't tell it.
#[inline(never)]
fn touches_any(arena: &TokenArena<'_, '_>, id: u32) -> bool
    requires within { id < length arena.now.tokens }
    requires some { 0 < id }
    ensures { result ≡ touches arena.now id }
{
    let left = item_within(arena, id - 1);
    let token = item_within(arena, id);
    may_touch(arena.dialect(), &left.item, &token.item)
}

/// Whether an item may stand directly behind the one before it, where their edges don't tell it.
#[inline(never)]
fn touches_near(arena: &TokenArena<'_, '_>, id: u32) -> bool
    requires within { id < length arena.now.tokens }
    ensures { result ≡ touches arena.now id }
{
    if id == 0 {
        return true;
    }
    let left = item_within(arena, id - 1);
    let token = item_within(arena, id);
    match near_touch(
        arena.dialect(),
        left.item.kind,
        left.item.raw,
        token.item.kind,
        token.item.raw,
    ) {
        Some(touch) => touch,
        None => touches_any(arena, id),
    }
}

/// Whether an item may stand directly behind the one before it in the file, which has this edge.
#[inline(always)]
fn touches_by(arena: &TokenArena<'_, '_>, id: u32, left: Edge, edge: Edge) -> bool
    requires within { id < length arena.now.tokens }
    requires told { TellsTouch arena.now id left edge }
    ensures { result ≡ touches arena.now id }
{
    match touch_of(left, edge) {
        Some(touch) => touch,
        None => touches_near(arena, id),
    }
}

/// What the item with this number is to the items beside it.
#[inline(always)]
fn edge_at(arena: &TokenArena<'_, '_>, id: u32) -> Edge
    requires { id < length arena.now.tokens }
    ensures { result ≡ edge_at arena.now id }
{
    let token = item(arena, id);
    edge_of(token.item.kind, token.item.raw)
}

/// What the item before this one in the file is to the items beside it, if there is one.
fn edge_before(arena: &TokenArena<'_, '_>, id: u32) -> Edge
    requires { id < length arena.now.tokens }
    ensures { TellsTouch arena.now id result (edge_at arena.now id) }
{
    if id == 0 {
        return Edge::Unknown;
    }
    edge_at(arena, id - 1)
}

/// Whether an item may stand directly behind the one before it in the file.
pub(crate) fn touches(arena: &TokenArena<'_, '_>, id: u32) -> bool
    requires { id < length arena.now.tokens }
    ensures { result ≡ touches arena.now id }
{
    touches_by(arena, id, edge_before(arena, id), edge_at(arena, id))
}

/// An item of which its line tells nothing yet. It may stand directly behind the item before it in the file or not.
#[inline(always)]
fn item_tok(arena: &TokenArena<'_, '_>, id: u32, touch: bool, apart: bool) -> LineTok
    requires within { id < length arena.now.tokens }
    requires touch { touch ≡ touches arena.now id }
    ensures { result ≡ item_tok arena.now id apart }
{
    let token = item(arena, id);
    let rows = arena.rows(TokenId(id));
    let gap = token.gap;
    LineTok {
        id: TokenId(id),
        role: Role::Word,
        power: 0,
        depth: 0,
        trailing_list: false,
        held: false,
        touch,
        directive: apart,
        gap: GapFacts {
            lines: gap.lines,
            empty: gap.empty,
            white: gap.white,
            splice: gap.splice,
            began: gap.began,
        },
        kind: token.item.kind,
        rows: rows.count,
        first_width: rows.first_width,
        last_width: rows.last_width,
    }
}

/// Tells of a token what its line tells of its place.
#[inline(always)]
fn tell(tok: &mut LineTok, mark: &Mark, held: bool)
    ensures { tok.new ≡ told tok.old mark.now held }
{
    // All is read before any of it is written.
    let mark = *mark;
    tok.role = mark.seen.role;
    tok.power = mark.power;
    tok.depth = mark.around.depth;
    tok.trailing_list = mark.trailing_list;
    tok.held = held;
}

/// Adds an item in its line, of which the class alone tells whether it stays where it stood. It is added before its
/// line tells of it, so that little is kept meanwhile.
#[inline(always)]
fn push_told(
    arena: &TokenArena<'_, '_>,
    id: u32,
    touch: bool,
    apart: bool,
    mark: &Mark,
    toks: &mut Vec<LineTok, &Bump>,
)
    requires within { id < length arena.now.tokens }
    requires touch { touch ≡ touches arena.now id }
    requires room { length toks.old.items < vec_capacity toks.old }
    ensures room { vec_capacity toks.new ≡ vec_capacity toks.old }
    ensures items { toks.new.items ≡ toks.old.items
        ++ tok_of arena.now id apart mark.now (is_hash mark.now.seen.class) ∷ [] }
{
    let place = toks.len();
    toks.push_reserved(item_tok(arena, id, touch, apart));
    let tok = &mut toks[place];
    tell(tok, mark, is_hash(mark.seen.class));
}

/// Adds the same, where the item's rows may have to be read from its bytes.
#[inline(never)]
fn push_read(
    arena: &TokenArena<'_, '_>,
    id: u32,
    touch: bool,
    apart: bool,
    mark: &Mark,
    toks: &mut Vec<LineTok, &Bump>,
)
    requires within { id < length arena.now.tokens }
    requires touch { touch ≡ touches arena.now id }
    requires room { length toks.old.items < vec_capacity toks.old }
    ensures room { vec_capacity toks.new ≡ vec_capacity toks.old }
    ensures items { toks.new.items ≡ toks.old.items
        ++ tok_of arena.now id apart mark.now (is_hash mark.now.seen.class) ∷ [] }
{
    push_told(arena, id, touch, apart, mark, toks);
}

/// Adds the token of an item that has this edge, behind one that has that edge, at the place behind those that have
/// tokens.
#[inline(never)]
fn push_any(
    arena: &TokenArena<'_, '_>,
    id: u32,
    left: Edge,
    edge: Edge,
    apart: bool,
    marks: &[Mark],
    toks: &mut Vec<LineTok, &Bump>,
)
    requires within { id < length arena.now.tokens }
    requires touch { TellsTouch arena.now id left edge }
    requires place { length toks.old.items < length marks.now }
    requires told { TellsHeld marks.now toks.old.items }
    requires room { length toks.old.items < vec_capacity toks.old }
    ensures room { vec_capacity toks.new ≡ vec_capacity toks.old }
    ensures token { IsPushed arena.now id apart marks.now toks.old.items toks.new.items }
{
    let touch = touches_by(arena, id, left, edge);
    let mark = &marks[toks.len()];
    let held = is_hash(mark.seen.class)
        || (is_inner(mark.seen.role) && holds_inner(marks, toks.as_slice()));
    let mut tok = item_tok(arena, id, touch, apart);
    tell(&mut tok, mark, held);
    toks.push_reserved(tok);
}

/// Adds the token as [`push_any`] does, where this is told of its place. The edges of most items tell whether they
/// touch, and most items are one row of printable ASCII and no inner comments. No call is made for these.
#[inline(always)]
fn push_token(
    arena: &TokenArena<'_, '_>,
    id: u32,
    left: Edge,
    edge: Edge,
    apart: bool,
    mark: &Mark,
    marks: &[Mark],
    toks: &mut Vec<LineTok, &Bump>,
)
    requires within { id < length arena.now.tokens }
    requires touch { TellsTouch arena.now id left edge }
    requires place { length toks.old.items < length marks.now }
    requires mark { slice_get marks.now (length toks.old.items) ≡ Some mark.now }
    requires told { TellsHeld marks.now toks.old.items }
    requires room { length toks.old.items < vec_capacity toks.old }
    ensures room { vec_capacity toks.new ≡ vec_capacity toks.old }
    ensures token { IsPushed arena.now id apart marks.now toks.old.items toks.new.items }
{
    if let Some(touch) = touch_of(left, edge) {
        if !is_inner(mark.seen.role) {
            if arena.is_one_row(TokenId(id)) {
                push_told(arena, id, touch, apart, mark, toks);
            } else {
                push_read(arena, id, touch, apart, mark, toks);
            }
            return;
        }
    }
    push_any(arena, id, left, edge, apart, marks, toks);
}

/// Whether the first of these tokens stays where it stood. It looks up to the first that is no inner comment.
fn is_held(marks: &[Mark]) -> bool
    ensures { result ≡ is_held marks.now }
{
    for mark in marks {
        if is_hash(mark.seen.class) {
            return true;
        }
        if !is_inner(mark.seen.role) {
            return false;
        }
    }
    false
}

/// An item in its line, of which this is told at a place. A directive stands before it or doesn't.
#[inline(never)]
pub(crate) fn token_of(
    arena: &TokenArena<'_, '_>,
    id: u32,
    apart: bool,
    marks: &[Mark],
    place: usize,
) -> LineTok
    requires within { id < length arena.now.tokens }
    requires place { place < length marks.now }
    ensures { (d : Mark) → result
        ≡ tok_of arena.now id apart (get_or marks.now place d) (is_held (drop place marks.now)) }
{
    let mut tok = item_tok(arena, id, touches(arena, id), apart);
    tell(
        &mut tok,
        mark_at(marks, place),
        is_held(marks_from(marks, place)),
    );
    tok
}

/// The token at a place of a view, of whose places this is told.
pub(crate) fn token_at(
    arena: &TokenArena<'_, '_>,
    view: &View<'_>,
    marks: &[Mark],
    place: usize,
) -> LineTok
    requires told { AreTold arena.now view.now marks.now }
    requires place { place < length marks.now }
    ensures { (d : LineTok) → result ≡ get_or (toks_from arena.now view.now 0 marks.now) place d }
{
    let mut segment = 0;
    let start = row_start(view, place as u32, &mut segment);
    token_of(arena, start.id, start.apart, marks, place)
}

/// Adds the tokens of items that follow one another, whose places come behind those that have tokens. The first of
/// these is a place of the view.
#[inline(never)]
fn push_stretch(
    arena: &TokenArena<'_, '_>,
    view: &View<'_>,
    stretch: Stretch,
    apart: bool,
    first: usize,
    marks: &[Mark],
    toks: &mut Vec<LineTok, &Bump>,
)
    requires some { stretch.first < stretch.end }
    requires within { stretch.end ≤ length arena.now.tokens }
    requires places { length toks.old.items + (stretch.end - stretch.first) ≤ length marks.now }
    requires items { (j : ℕ) → j < stretch.end - stretch.first
        → get_or view.now (first + length toks.old.items + j) 0 ≡ stretch.first + j }
    requires apart { apart ≡ stands_apart view.now (first + length toks.old.items) }
    requires told { TellsHeld marks.now toks.old.items }
    requires room { length toks.old.items + (stretch.end - stretch.first) ≤ vec_capacity toks.old }
    ensures room { vec_capacity toks.new ≡ vec_capacity toks.old }
    ensures count { length toks.new.items ≡ length toks.old.items + (stretch.end - stretch.first) }
    ensures tokens { toks.new.items ++ toks_from arena.now view.now (first + length toks.new.items)
        (drop (length toks.new.items) marks.now)
        ≡ toks.old.items ++ toks_from arena.now view.now (first + length toks.old.items)
        (drop (length toks.old.items) marks.now) }
    ensures told { TellsHeld marks.now toks.new.items }
{
    let place = toks.len();
    let mut apart = apart;
    let mut left = edge_before(arena, stretch.first);
    let mut edge = edge_at(arena, stretch.first);
    let last = stretch.end - 1;
    for id in stretch.first..last {
        // The next item is looked at first, so that nothing that is read of this one is kept meanwhile.
        let next = edge_at(arena, id + 1);
        let mark = mark_at(marks, place + (id - stretch.first) as usize);
        push_token(arena, id, left, edge, apart, mark, marks, toks);
        left = edge;
        edge = next;
        apart = false;
    }
    let mark = mark_at(marks, place + (last - stretch.first) as usize);
    push_token(arena, last, left, edge, apart, mark, marks, toks);
}

/// Adds the tokens of so many places of a view from one on, of which this is told.
pub(crate) fn push_places(
    arena: &TokenArena<'_, '_>,
    view: &View<'_>,
    marks: &[Mark],
    first: usize,
    count: usize,
    toks: &mut Vec<LineTok, &Bump>,
)
    requires within { AreWithin arena.now view.now }
    requires places { first + length marks.now ≡ length view.now }
    requires few { length view.now < 2 ^ 32 }
    requires count { count ≤ length marks.now }
    requires none { toks.old.items ≡ [] }
    requires room { count ≤ vec_capacity toks.old }
    ensures count { length toks.new.items ≡ count }
    ensures tokens { toks.new.items ++ toks_from arena.now view.now (first + count) (drop count marks.now)
        ≡ toks_from arena.now view.now first marks.now }
{
    let _items = arena.len();
    let mut segment = 0;
    let mut at = 0;
    while at < count {
        let start = row_start(view, (first + at) as u32, &mut segment);
        let taken = start.count.min((count - at) as u32);
        let stretch = Stretch {
            first: start.id,
            end: start.id + taken,
        };
        push_stretch(arena, view, stretch, start.apart, first, marks, toks);
        at += taken as usize;
    }
}
