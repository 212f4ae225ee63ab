//! A view as a list of tokens and comments.

ghost use Rattle.std.specs.Prelude.{◌≡◌, ◌&&◌, ◌<◌, ◌≤◌, ◌+◌, ◌-◌, ◌++◌, ℕ, length, drop, get_or, map, slice_get};
ghost use Rattle.std.specs.Prelude.{take, vec_capacity, IfOk, false, true};
ghost use Rattle.std.specs.List.{range_with_len};
ghost use Rattle.item_classes.specs.Viewed.{AreWithin};
ghost use Rattle.token_classes.specs.Classes.{is_colon, is_comment};
ghost use Rattle.statement_lines.specs.Tokens.{is_touched};
ghost use Rattle.unwrapped_lines.specs.Viewed.{colon_touches, numbers_of, code_tokens, parts_of};
ghost use Rattle.unwrapped_lines.specs.Inside.{code_classes, code_partners, comment_place, comment_places_from};
ghost use Rattle.unwrapped_lines.specs.Inside.{comments_of};
ghost use Rattle.unwrapped_lines.specs.Inside.{parts_with, AreJoined, AreNoted, AreTouched};
ghost use Rattle.c_chars.specs.declared.TheConstants.{LIMIT};

use crate::lanes::usual_len;
use crate::part::ViewComment;
use bumpalo::Bump;
use item_classes::{comment_part, item_class};
use line_tokens::{NoMemory, TokenId};
use statement_lines::{CodeTokens, Places};
use token_arena::{TokenArena, View};
use token_classes::{Partner, TokenClass};

/// The classes of the items of which more is told than of others, a bit for each.
const OTHERS: u64 = (1 << TokenClass::Case as u64)
    | (1 << TokenClass::Colon as u64)
    | (1 << TokenClass::LineComment as u64)
    | (1 << TokenClass::BlockComment as u64);

/// Whether the item with a number, of this class, is a colon that another colon touches.
#[inline(never)]
fn touched(
    arena: &TokenArena<'_, '_>,
    id: u32,
    class: TokenClass,
    run: &Bump,
) -> Result<bool, NoMemory>
    requires { id < length arena.now.tokens }
    ensures { IfOk result (λ touched. touched ≡ (is_colon class && colon_touches arena.now id)) }
{
    if !class.is_colon() {
        return Ok(false);
    }
    let count = arena.len();
    if count <= id + 1 {
        return Ok(false);
    }
    let next = TokenId(id + 1);
    if !arena.get(next).gap.empty {
        return Ok(false);
    }
    let behind = item_class(arena, next, run)?;
    Ok(behind.is_colon())
}

/// Whether an item of this class is a comment, a colon or a `case`: of these more is told than of other items.
#[inline(always)]
fn is_other(class: TokenClass) -> bool
    ensures comment { result ≡ false → is_comment class ≡ false }
    ensures colon { result ≡ false → is_colon class ≡ false }
{
    (OTHERS >> class as u64) % 2 == 1
}

/// What is noted of a view: its comments, which of its tokens are a `case`, and which of its items a colon touches.
#[derive(Drop)]
struct Noted<'r> {
    touched: Vec<bool, &'r Bump>,
    cases: Vec<usize, &'r Bump>,
    comments: Vec<ViewComment, &'r Bump>,
}

/// Notes that a colon touches the item at a place, behind those of which it is told.
#[inline(never)]
fn note_touched(touched: &mut Vec<bool, &Bump>, place: usize) -> Result<(), NoMemory>
    requires { length touched.old.items ≤ place }
    ensures before { IfOk result (λ u.
        (i : ℕ) → i < place → is_touched (slice_get touched.new.items i) ≡ is_touched (slice_get touched.old.items i)) }
    ensures here { IfOk result (λ u. is_touched (slice_get touched.new.items place) ≡ true) }
    ensures few { IfOk result (λ u. length touched.new.items ≡ place + 1) }
{
    for _ in touched.len()..place {
        touched.push(false)?;
    }
    touched.push(true)?;
    Ok(())
}

/// Notes a token of this class, before which so many stand, where it is a `case`.
#[inline(always)]
fn note_case(
    class: TokenClass,
    number: usize,
    cases: &mut Vec<usize, &Bump>,
) -> Result<(), NoMemory> {
    if class.is_case() {
        cases.push(number)?;
    }
    Ok(())
}

/// Notes the item at a place, where it is a comment, a `case`, or a colon that another touches.
#[inline(never)]
fn note_item(
    arena: &TokenArena<'_, '_>,
    view: &View<'_>,
    classes: &[TokenClass],
    place: usize,
    id: u32,
    noted: &mut Noted<'_>,
    run: &Bump,
) -> Result<(), NoMemory>
    requires places { place < length classes.now }
    requires few { length classes.now ≤ LIMIT }
    requires item { get_or view.now place 0 ≡ id }
    requires within { id < length arena.now.tokens }
    requires before { AreNoted arena.now view.now classes.now place noted.old.comments.items noted.old.touched.items }
    ensures { IfOk result (λ u.
        AreNoted arena.now view.now classes.now (place + 1) noted.new.comments.items noted.new.touched.items) }
{
    let class = classes[place];
    if class.is_comment() {
        let started = noted.comments.len() < place;
        noted.comments.push(ViewComment {
            place: place as u32,
            part: comment_part(arena, id, started, class),
        })?;
        return Ok(());
    }
    note_case(class, place - noted.comments.len(), &mut noted.cases)?;
    if touched(arena, id, class, run)? {
        note_touched(&mut noted.touched, place)?;
    }
    Ok(())
}

/// The same, where the item's number isn't known yet. It is looked for in the segment with this number first.
#[inline(always)]
fn note_place(
    arena: &TokenArena<'_, '_>,
    view: &View<'_>,
    classes: &[TokenClass],
    place: usize,
    segment: &mut usize,
    noted: &mut Noted<'_>,
    run: &Bump,
) -> Result<(), NoMemory>
    requires within { AreWithin arena.now view.now }
    requires same { length classes.now ≡ length view.now }
    requires places { place < length classes.now }
    requires few { length classes.now ≤ LIMIT }
    requires before { AreNoted arena.now view.now classes.now place noted.old.comments.items noted.old.touched.items }
    ensures { IfOk result (λ u.
        AreNoted arena.now view.now classes.now (place + 1) noted.new.comments.items noted.new.touched.items) }
{
    if !is_other(classes[place]) {
        return Ok(());
    }
    let id = view.at_near(place as u32, segment).0;
    note_item(arena, view, classes, place, id, noted, run)
}

/// What is noted of the items of a view.
#[inline(never)]
fn note_items<'r>(
    arena: &TokenArena<'_, '_>,
    view: &View<'_>,
    classes: &[TokenClass],
    run: &'r Bump,
) -> Result<Noted<'r>, NoMemory>
    requires within { AreWithin arena.now view.now }
    requires places { length classes.now ≡ length view.now }
    requires few { length classes.now ≤ LIMIT }
    ensures comments { IfOk result (λ noted. noted.comments.items ≡ comments_of arena.now view.now classes.now) }
    ensures touched { IfOk result
        (λ noted. AreTouched arena.now view.now classes.now (length classes.now) noted.touched.items) }
{
    let most = arena.comments().len().min(classes.len());
    let mut noted = Noted {
        comments: Vec::with_capacity(run, most)?,
        cases: Vec::new(run),
        touched: Vec::new(run),
    };
    let mut segment = 0;
    let mut place = 0;
    while place < classes.len() {
        place += usual_len(&classes[place..]);
        if place < classes.len() {
            note_place(arena, view, classes, place, &mut segment, &mut noted, run)?;
            place += 1;
        }
    }
    Ok(noted)
}

/// The places of comments.
fn places_of<'r>(comments: &[ViewComment], run: &'r Bump) -> Result<Vec<u32, &'r Bump>, NoMemory>
    ensures { IfOk result (λ places. places.items ≡ map comment_place comments.now) }
{
    let mut places = Vec::with_capacity(run, comments.len())?;
    for comment in comments {
        places.push_reserved(comment.place);
    }
    Ok(places)
}

/// Tokens that are no comments, put one behind another, and how many of them stand before each place.
#[derive(Drop)]
struct Joined<'r> {
    classes: Vec<TokenClass, &'r Bump>,
    partners: Vec<Partner, &'r Bump>,
    numbers: Vec<u32, &'r Bump>,
}

/// Appends so many numbers, from one on.
#[inline(always)]
fn push_numbers<'r>(numbers: Vec<u32, &'r Bump>, first: u32, count: u32) -> Vec<u32, &'r Bump>
    requires small { first + count ≤ LIMIT }
    requires room { length numbers.items + count ≤ vec_capacity numbers }
    ensures items { result.items ≡ numbers.entry.items ++ range_with_len first count }
    ensures room { vec_capacity result ≡ vec_capacity numbers.entry }
{
    let mut numbers = numbers;
    for number in first..first + count {
        numbers.push_reserved(number);
    }
    numbers
}

/// Some of these partners, as many as there are.
#[inline(always)]
fn partners_among(partners: &[Partner], from: usize, end: usize) -> &[Partner]
    requires { from ≤ end }
    ensures { result.now ≡ take (end - from) (drop from partners.now) }
{
    let count = partners.len();
    &partners[from.min(count)..end.min(count)]
}

/// Appends the tokens from a place to before another, between which no comment stands.
#[inline(always)]
fn push_stretch<'r>(
    classes: &[TokenClass],
    partners: &[Partner],
    from: usize,
    end: usize,
    joined: Joined<'r>,
) -> Result<Joined<'r>, NoMemory>
    requires order { from ≤ end }
    requires within { end ≤ length classes.now }
    requires few { length classes.now ≤ LIMIT }
    requires fewer { length joined.classes.items ≤ from }
    requires numbers { length joined.numbers.items ≡ from }
    requires room { length classes.now ≤ vec_capacity joined.numbers }
    ensures classes { IfOk result
        (λ more. more.classes.items ≡ joined.entry.classes.items ++ take (end - from) (drop from classes.now)) }
    ensures partners { IfOk result
        (λ more. more.partners.items ≡ joined.entry.partners.items ++ take (end - from) (drop from partners.now)) }
    ensures numbers { IfOk result (λ more.
        more.numbers.items
        ≡ joined.entry.numbers.items ++ range_with_len (length joined.entry.classes.items) (end - from)) }
    ensures room { IfOk result (λ more. vec_capacity more.numbers ≡ vec_capacity joined.entry.numbers) }
{
    let Joined {
        classes: mut kept,
        partners: mut kept_partners,
        numbers,
    } = joined;
    let first = kept.len() as u32;
    kept.extend_from_slice(&classes[from..end])?;
    kept_partners.extend_from_slice(partners_among(partners, from, end))?;
    Ok(Joined {
        classes: kept,
        partners: kept_partners,
        numbers: push_numbers(numbers, first, (end - from) as u32),
    })
}

/// The tokens of a view that are no comments, where comments stand at these places.
#[inline(never)]
fn join_tokens<'r>(
    classes: &[TokenClass],
    partners: &[Partner],
    comments: &[u32],
    run: &'r Bump,
) -> Result<Joined<'r>, NoMemory>
    requires few { length classes.now ≤ LIMIT }
    requires comments { comments.now ≡ comment_places_from 0 classes.now }
    ensures classes { IfOk result (λ joined. joined.classes.items ≡ code_classes classes.now) }
    ensures partners { IfOk result (λ joined. joined.partners.items ≡ code_partners classes.now partners.now) }
    ensures numbers { IfOk result (λ joined. joined.numbers.items ≡ numbers_of classes.now) }
{
    // Classes take a byte each. Room for full words of them leaves no gap behind it, so all is given back.
    let bytes = classes.len() / 4 * 4 + 4;
    let mut joined = Joined {
        numbers: Vec::with_capacity(run, classes.len())?,
        partners: Vec::with_capacity(run, classes.len())?,
        classes: Vec::with_capacity(run, bytes)?,
    };
    let mut from = 0;
    for comment in comments {
        let place = *comment as usize;
        let mut stretched = push_stretch(classes, partners, from, place, joined)?;
        let number = stretched.classes.len() as u32;
        stretched.numbers.push_reserved(number);
        joined = stretched;
        from = place + 1;
    }
    push_stretch(classes, partners, from, classes.len(), joined)
}

/// What is read of a view. What was made last stands first, so that it is given back first.
#[derive(Drop)]
pub(crate) struct ReadView<'r> {
    /// The tokens that are no comments, where there are comments.
    joined: Joined<'r>,
    /// The places of the comments.
    marked: Vec<u32, &'r Bump>,
    /// What is noted of the items.
    noted: Noted<'r>,
}

/// The tokens beside the comments at these places. Where there are none, nothing is put.
fn joined_tokens<'r>(
    classes: &[TokenClass],
    partners: &[Partner],
    marked: &[u32],
    run: &'r Bump,
) -> Result<Joined<'r>, NoMemory>
    requires few { length classes.now ≤ LIMIT }
    requires comments { marked.now ≡ comment_places_from 0 classes.now }
    ensures { IfOk result (λ joined.
        AreJoined classes.now partners.now marked.now joined.classes.items joined.partners.items
        joined.numbers.items) }
{
    if marked.is_empty() {
        return Ok(Joined {
            numbers: Vec::new(run),
            partners: Vec::new(run),
            classes: Vec::new(run),
        });
    }
    let joined = join_tokens(classes, partners, marked, run)?;
    Ok(joined)
}

/// Reads a view: its comments, and where it has any the tokens beside them.
pub(crate) fn read_view<'r>(
    arena: &TokenArena<'_, '_>,
    view: &View<'_>,
    classes: &[TokenClass],
    partners: &[Partner],
    run: &'r Bump,
) -> Result<ReadView<'r>, NoMemory>
    requires within { AreWithin arena.now view.now }
    requires places { length classes.now ≡ length view.now }
    requires few { length classes.now ≤ LIMIT }
    ensures comments { IfOk result
        (λ read. read.noted.comments.items ≡ comments_of arena.now view.now classes.now) }
    ensures touched { IfOk result
        (λ read. AreTouched arena.now view.now classes.now (length classes.now) read.noted.touched.items) }
    ensures marked { IfOk result (λ read. read.marked.items ≡ comment_places_from 0 classes.now) }
    ensures joined { IfOk result (λ read.
        AreJoined classes.now partners.now read.marked.items read.joined.classes.items read.joined.partners.items
        read.joined.numbers.items) }
{
    let noted = note_items(arena, view, classes, run)?;
    let comments = noted.comments.as_slice();
    let marked = places_of(comments, run)?;
    let places = marked.as_slice();
    let joined = joined_tokens(classes, partners, places, run)?;
    Ok(ReadView {
        joined,
        marked,
        noted,
    })
}

/// A view's tokens that are no comments, its comments, and which of the tokens are a `case`.
#[derive(Drop)]
pub(crate) struct ViewTokens<'v> {
    pub(crate) tokens: CodeTokens<'v>,
    pub(crate) comments: &'v [ViewComment],
    pub(crate) cases: &'v [usize],
}

/// The tokens and the comments of a view that was read.
pub(crate) fn view_tokens<'v>(
    arena: &'v TokenArena<'v, 'v>,
    view: &'v View<'v>,
    classes: &'v [TokenClass],
    partners: &'v [Partner],
    read: &'v ReadView<'_>,
) -> ViewTokens<'v>
    requires within { AreWithin arena.now view.now }
    requires places { length classes.now ≡ length view.now }
    requires few { length classes.now ≤ LIMIT }
    requires comments { read.now.noted.comments.items ≡ comments_of arena.now view.now classes.now }
    requires touched { AreTouched arena.now view.now classes.now (length classes.now) read.now.noted.touched.items }
    requires marked { read.now.marked.items ≡ comment_places_from 0 classes.now }
    requires joined { AreJoined classes.now partners.now read.now.marked.items read.now.joined.classes.items
        read.now.joined.partners.items read.now.joined.numbers.items }
    ensures tokens { result.tokens ≡ code_tokens arena.now view.now classes.now partners.now }
    ensures few { length result.tokens ≤ LIMIT }
    ensures parts { parts_with (length view.now) 0 result.comments.now ≡ parts_of arena.now view.now classes.now }
{
    let comments = read.noted.comments.as_slice();
    let cases = read.noted.cases.as_slice();
    let touched = read.noted.touched.as_slice();
    let marked = read.marked.as_slice();
    let places = Places {
        arena,
        view,
        comments: marked,
        touched,
    };
    if marked.is_empty() {
        let tokens = CodeTokens::of(classes, partners, &[], places);
        return ViewTokens {
            tokens,
            comments,
            cases,
        };
    }
    let kept = read.joined.classes.as_slice();
    let kept_partners = read.joined.partners.as_slice();
    let numbers = read.joined.numbers.as_slice();
    let tokens = CodeTokens::of(kept, kept_partners, numbers, places);
    ViewTokens {
        tokens,
        comments,
        cases,
    }
}
