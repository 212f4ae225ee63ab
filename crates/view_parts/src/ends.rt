//! Where the parts of a view end.

ghost use Rattle.std.specs.Prelude.{◌&&◌, ◌||◌, ◌≡◌, ◌<◌, ◌≤◌, ◌∷◌, [], ◌+◌, ◌-◌, ◌^◌, ℕ, true, false, not, All};
ghost use Rattle.std.specs.Prelude.{length, drop, take, get_or, slice_range, IfOk, IfSome, None, Some};
ghost use Rattle.std.specs.Option.{ForNone, ForSome};
ghost use Rattle.std.specs.List.{prefix_len};
ghost use Rattle.token_arena.specs.Ids.{Increase};
ghost use Rattle.token_classes.specs.declared.class.TokenClass.{TokenClass};
ghost use Rattle.token_classes.specs.Classes.{is_close_brace, is_open_brace};
ghost use Rattle.item_classes.specs.Viewed.{AreWithin, item_classes};
ghost use Rattle.part_walk.specs.declared.walk.Around.TheVariants.{Body, Group};
ghost use Rattle.view_parts.specs.Parts.{part_inside, part_len, EndsBehind, StandsBefore};
ghost use Rattle.part_walk.specs.Places.{place_in};
ghost use Rattle.part_walk.specs.declared.walk.Before.TheVariants as Before;
ghost use Rattle.view_parts.specs.Rows.{IsRow};
ghost use Rattle.view_parts.specs.Lanes.{is_flat};
ghost use Rattle.view_parts.specs.Quiet.{Closes, ClosesGroup, PassesQuiet, is_quiet};
ghost use Rattle.part_walk.specs.Steps.{ends_before_brace, opens_group};

use crate::groups::group_len;
use crate::known::PartsEnd;
use crate::lanes::{flat_count, quiet_behind_label, quiet_in_body, quiet_in_group};
use crate::row::{Row, item_at};
use bumpalo::Bump;
use line_tokens::{NoMemory, TokenId};
use part_walk::{
    Around, Before, BodyPlace, Head, LEAST_IN_ROW, OpenBrackets, Outcome, Walk, opened_head,
    opens_group, place_behind, read, start,
};
use token_arena::{TokenArena, View};
use token_classes::{LANES, TokenClass};

/// What parts are read from: a view of a text.
#[derive(Clone, Copy)]
pub struct PartSource<'v> {
    /// The items of the text.
    pub arena: &'v TokenArena<'v, 'v>,
    /// Those that the view has.
    pub view: &'v View<'v>,
    /// The classes of all items of the text.
    pub classes: &'v [TokenClass],
}

/// Where a part of a view begins.
#[derive(Clone, Copy)]
pub struct PartStart<'k> {
    /// The place of its first item.
    pub first: u32,
    /// Where that is in a body, if it is in one.
    pub inside: Option<BodyPlace<'k>>,
}

impl<'k> PartsEnd<'k> {
    /// Behind so many items of the part that begins at `first`, as the item at this place of it tells.
    fn told(first: u32, count: u32, place: u32, inside: Option<BodyPlace<'k>>) -> PartsEnd<'k>
        requires within { first + count < 2 ^ 32 }
        requires here { first + place + 1 < 2 ^ 32 }
        ensures end { result.end ≡ first + count }
        ensures told { result.told ≡ Some (first + place + 1) }
        ensures inside { place_in result.inside ≡ place_in inside.entry }
    {
        PartsEnd {
            end: first + count,
            told: Some(first + place + 1),
            inside,
        }
    }

    /// With a view of so many items.
    fn with_view(count: u32) -> PartsEnd<'k>
        ensures end { result.end ≡ count }
        ensures told { result.told ≡ None }
        ensures inside { place_in result.inside ≡ None }
    {
        PartsEnd {
            end: count,
            told: None,
            inside: None,
        }
    }
}

/// The classes of tokens that change more in a group than the place, as a set of bits.
const TELLING_IN_GROUP: u64 = 1 << (TokenClass::OpenRound as u8)
    | 1 << (TokenClass::CloseRound as u8)
    | 1 << (TokenClass::OpenSquare as u8)
    | 1 << (TokenClass::CloseSquare as u8)
    | 1 << (TokenClass::OpenBrace as u8)
    | 1 << (TokenClass::CloseBrace as u8)
    | 1 << (TokenClass::LineComment as u8)
    | 1 << (TokenClass::BlockComment as u8);

/// The classes of tokens that change more elsewhere than the place and which token was the last.
const TELLING: u64 = TELLING_IN_GROUP
    | 1 << (TokenClass::If as u8)
    | 1 << (TokenClass::Else as u8)
    | 1 << (TokenClass::For as u8)
    | 1 << (TokenClass::While as u8)
    | 1 << (TokenClass::Do as u8)
    | 1 << (TokenClass::Switch as u8)
    | 1 << (TokenClass::Case as u8)
    | 1 << (TokenClass::Default as u8)
    | 1 << (TokenClass::Struct as u8)
    | 1 << (TokenClass::Union as u8);

/// Where a label holds the part's end, a `;` changes more too.
const TELLING_BEHIND_LABEL: u64 = TELLING | 1 << (TokenClass::Semicolon as u8);

/// Whether a token changes nothing but the place and which token was the last, by what it stands in and whether a label
/// holds the part's end.
#[inline(always)]
pub(crate) fn is_quiet(around: Around, held: bool, class: TokenClass) -> bool
    ensures { result ≡ is_quiet around held class }
{
    let telling = match around {
        Around::Group => TELLING_IN_GROUP,
        _ if held => TELLING_BEHIND_LABEL,
        _ => TELLING,
    };
    (telling >> (class as u8)) & 1 == 0
}

/// How many quiet tokens stand at the beginning of these, one after another.
#[inline(never)]
fn few_quiet(around: Around, held: bool, classes: &[TokenClass]) -> usize
    ensures within { result ≤ length classes.now }
    ensures quiet { (k : ℕ) → (d : TokenClass) → k < result → is_quiet around held (get_or classes.now k d) ≡ true }
{
    let mut count = 0;
    while count < classes.len() && is_quiet(around, held, classes[count]) {
        count += 1;
    }
    count
}

/// How many quiet tokens sixteen begin with, by what they stand in and whether a label holds the part's end.
#[inline(always)]
fn quiet_of_sixteen(around: Around, held: bool, classes: &[TokenClass; LANES]) -> usize
    ensures { result ≡ prefix_len (is_quiet around held) classes.now }
{
    match around {
        Around::Group => quiet_in_group(classes),
        Around::Outside | Around::Body => {
            if held {
                quiet_behind_label(classes)
            } else {
                quiet_in_body(classes)
            }
        }
    }
}

/// How many quiet tokens stand at the beginning of these, at most so many. Most are told by the first sixteen.
#[inline(always)]
fn quiet_count(around: Around, held: bool, classes: &[TokenClass], most: usize) -> usize
    requires { most ≤ length classes.now }
    ensures within { result ≤ most }
    ensures quiet { (k : ℕ) → (d : TokenClass) → k < result → is_quiet around held (get_or classes.now k d) ≡ true }
{
    match classes.split_first_chunk::<LANES>() {
        Some((sixteen, _)) => quiet_of_sixteen(around, held, sixteen).min(most),
        None => few_quiet(around, held, &classes[..most]),
    }
}

/// How many quiet tokens stand in a row from a place of a part on: in a body up to where parts may end anywhere.
#[inline(always)]
fn quiet_from(
    around: Around,
    held: bool,
    all: &[TokenClass],
    first: u32,
    place: u32,
    row: &Row,
) -> u32
    requires here { first + place ≤ row.now.end }
    requires within { row.now.end + row.now.shift ≤ length all.now }
    requires low { around ≡ Body → place < 512 }
    ensures within { first + place + result ≤ row.now.end }
    ensures low { around ≡ Body → place + result ≤ 512 }
    ensures quiet { (k : ℕ) → (d : TokenClass) → first + place ≤ k → k < first + place + result →
        is_quiet around held (get_or all.now (k + row.now.shift) d) ≡ true }
{
    let shift = row.shift as usize;
    let next = (first + place) as usize + shift;
    let count = match around {
        Around::Outside => 0,
        Around::Body => {
            let end = row.end.min(first.saturating_add(LEAST_IN_ROW));
            quiet_count(
                Around::Body,
                held,
                &all[next..],
                end as usize + shift - next,
            )
        }
        Around::Group => quiet_count(
            Around::Group,
            false,
            &all[next..],
            row.end as usize + shift - next,
        ),
    };
    count as u32
}

/// Goes past the quiet tokens that stand in a row from the next item of a part on. The result is the item behind them,
/// where that stands in the row too. `row` is kept from one place of a part to the next.
#[inline(always)]
fn pass_quiet(
    source: &PartSource<'_>,
    first: u32,
    walk: &mut Walk,
    around: Around,
    row: &mut Row,
    segment: &mut usize,
) -> Option<TokenId>
    requires here { first + walk.old.place < length source.now.view.now }
    requires few { length source.now.view.now < 2 ^ 32 }
    requires increase { Increase source.now.view.now }
    requires row { IsRow source.now.view.now (first + walk.old.place) row.old }
    requires items { All (λ id. id < length source.now.classes.now) source.now.view.now }
    requires fits { length source.now.classes.now < 2 ^ 32 }
    ensures row { IsRow source.now.view.now (first + walk.old.place) row.new }
    ensures some { first + walk.old.place < row.new.end }
    ensures place { walk.old.place ≤ walk.new.place }
    ensures within { first + walk.new.place ≤ row.new.end }
    ensures quiet { PassesQuiet source.now.classes.now around walk.old (first + walk.old.place + row.new.shift)
        (walk.new.place - walk.old.place) walk.new }
    ensures behind { ForNone result (first + walk.new.place ≡ row.new.end) }
    ensures below { ForSome result (λ id. first + walk.new.place < row.new.end) }
    ensures item { ForSome result (λ id. id.0 ≡ first + walk.new.place + row.new.shift) }
{
    let id = item_at(source.view, first + walk.place, row, segment);
    if walk.may_end(around, id) {
        return Some(id);
    }
    let all = source.classes;
    // Behind what tells something often stands what does too. So the next token is asked alone at first, by one test:
    // as in a body, where more tokens tell something than in a group.
    if !is_quiet(Around::Body, false, all[id.0 as usize]) {
        return Some(id);
    }
    let held = walk.last.held > 0;
    let quiet = quiet_from(around, held, all, first, walk.place, row);
    if quiet == 0 {
        return Some(id);
    }
    let last = TokenId(id.0 + (quiet - 1));
    walk.pass_quiet(around, walk.place + quiet, last, all[last.0 as usize]);
    if first + walk.place >= row.end {
        return None;
    }
    Some(TokenId(last.0 + 1))
}

/// Whether a token is a `{` or `}`.
#[inline(always)]
fn is_brace(class: TokenClass) -> bool
    ensures { result ≡ (is_open_brace class || is_close_brace class) }
{
    class.is_open_brace() || class.is_close_brace()
}

/// How many tokens these begin with that are no braces, as far as is told at once.
#[inline(always)]
fn flat_len(classes: &[TokenClass]) -> usize
    ensures within { result ≤ length classes.now }
    ensures flat { (k : ℕ) → (d : TokenClass) → k < result → is_flat (get_or classes.now k d) ≡ true }
{
    match classes.split_first_chunk::<LANES>() {
        Some((sixteen, _)) => flat_count(sixteen),
        None => 0,
    }
}

/// How many of these tokens stand up to the `}` that closes the brace before them, if it is among so many.
#[inline(always)]
fn closing_len(classes: &[TokenClass], most: usize) -> Option<usize>
    requires { most ≤ length classes.now }
    ensures within { IfSome result (λ len. len ≤ most) }
    ensures closes { IfSome result (λ len. Closes 1 (take len classes.now)) }
{
    let mut depth: usize = 1;
    let mut count: usize = 0;
    while count < most {
        let next = count + flat_len(&classes[count..]);
        if next >= most {
            return None;
        }
        let class = classes[next];
        count = next + 1;
        if is_brace(class) {
            depth = if class.is_open_brace() {
                depth + 1
            } else {
                depth - 1
            };
            if depth == 0 {
                return Some(count);
            }
        }
    }
    None
}

/// The bracket that closes a `(` or `[` at a place of a part, and how many items stand behind that up to it, where
/// nothing but quiet tokens and such groups stands between them in its row.
#[inline(always)]
fn passed_group(
    opener: TokenClass,
    all: &[TokenClass],
    first: u32,
    place: u32,
    row: &Row,
) -> Option<(TokenClass, u32)>
    requires here { first + place < row.now.end }
    requires within { row.now.end + row.now.shift ≤ length all.now }
    ensures within { IfSome result (λ group. first + place + group.1 < row.now.end) }
    ensures opens { IfSome result (λ group. opens_group opener ≡ true) }
    ensures closer { IfSome result
        (λ group. (d : TokenClass) → group.0 ≡ get_or all.now (first + place + group.1 + row.now.shift) d) }
    ensures closes { IfSome result (λ group.
        ClosesGroup (opener ∷ []) (take group.1 (drop (first + place + 1 + row.now.shift) all.now))) }
{
    if !opens_group(opener) {
        return None;
    }
    let shift = row.shift as usize;
    let next = (first + place) as usize + 1 + shift;
    let len = group_len(opener, &all[next..], row.end as usize + shift - next)?;
    let closer = all[next + len - 1];
    Some((closer, len as u32))
}

/// The head of the body that a `{` at a place of a part opens, and how many items stand behind that up to its `}`, if
/// it opens one and no part ends in it: they stand in its row, before the place from which a part may end there.
/// `walk` is behind the `{`.
#[inline(never)]
fn passed_body(
    walk: &Walk,
    opened: Option<Head>,
    all: &[TokenClass],
    first: u32,
    place: u32,
    row: &Row,
) -> Option<(Head, u32)>
    requires here { first + place < row.now.end }
    requires within { row.now.end + row.now.shift ≤ length all.now }
    ensures opened { IfSome result (λ body. opened ≡ Some body.0) }
    ensures before { IfSome result (λ body. walk.now.declaration.before ≡ Before.Body) }
    ensures within { IfSome result (λ body. first + place + body.1 < row.now.end) }
    ensures low { IfSome result (λ body. place + 1 + body.1 ≤ 512) }
    ensures closes { IfSome result
        (λ body. Closes 1 (take body.1 (drop (first + place + 1 + row.now.shift) all.now))) }
{
    let head = opened?;
    if place >= LEAST_IN_ROW || !matches!(walk.declaration.before, Before::Body) {
        return None;
    }
    let shift = row.shift as usize;
    let next = (first + place) as usize + 1 + shift;
    let end = row.end.min(first.saturating_add(LEAST_IN_ROW));
    let count = closing_len(&all[next..], end as usize + shift - next)?;
    Some((head, count as u32))
}

/// Whether an item is a `{` before which no part ends, by what it stands in.
#[inline(always)]
fn passes_brace(walk: &Walk, around: Around, id: TokenId, class: TokenClass) -> bool
    ensures { result ≡ (is_open_brace class && not (ends_before_brace walk.now around id.0)) }
{
    class.is_open_brace() && !walk.ends_before_brace(around, id)
}

/// Where the part of a view ends that begins there. `segment` is kept from one place of a view to the next, and starts
/// at 0.
///
/// `docs/PROFILE.md` says under "Parts" which these are. Items before the place aren't looked at, nor those behind the
/// first token of the next part. Want of memory is the only error: in `room` for brackets that are open, and in `keep`
/// for the heads of the bodies in which the next part begins.
#[inline(never)]
pub fn part_end<'k>(
    source: &PartSource<'_>,
    begin: PartStart<'k>,
    segment: &mut usize,
    keep: &'k Bump,
    room: &Bump,
) -> Result<PartsEnd<'k>, NoMemory>
    requires within { AreWithin source.now.arena.now source.now.view.now }
    requires all { source.now.classes.now ≡ item_classes source.now.arena.now }
    requires here { begin.first < length source.now.view.now }
    requires begins { ForSome (place_in begin.inside)
        (λ place. StandsBefore place (get_or source.now.view.now begin.first 0)) }
    ensures end { IfOk result (λ part. part.end ≡ begin.entry.first
        + part_len source.now.arena.now (place_in begin.entry.inside) (drop begin.entry.first source.now.view.now)) }
    ensures inside { IfOk result (λ part. place_in part.inside
        ≡ part_inside source.now.arena.now (place_in begin.entry.inside) (drop begin.entry.first source.now.view.now)) }
    ensures place { IfOk result (λ part.
        ForSome (place_in part.inside) (λ place. StandsBefore place (get_or source.now.view.now part.end 0))) }
    ensures some { IfOk result (λ part. begin.entry.first < part.end) }
    ensures within { IfOk result (λ part. part.end ≤ length source.now.view.now) }
    ensures told { IfOk result (λ part.
        ForSome part.told (λ told.
        EndsBehind source.now.arena.now (place_in begin.entry.inside)
        (slice_range source.now.view.now begin.entry.first told)
        (record { count = part.end - begin.entry.first; inside = place_in part.inside }))) }
    ensures later { IfOk result (λ part. ForSome part.told (λ told. part.end < told)) }
    ensures below { IfOk result (λ part. ForSome part.told (λ told. told ≤ length source.now.view.now)) }
    ensures whole { IfOk result (λ part. ForNone part.told (part.end ≡ length source.now.view.now)) }
{
    let count = source.view.len();
    let all = source.classes;
    let items = source.arena.len();
    prove!(all.len() <= items as usize);
    let first = begin.first;
    let mut brackets = OpenBrackets::start(begin.inside, room)?;
    let mut walk = start(begin.inside);
    let mut row = Row { shift: 0, end: 0 };
    while walk.place < count - first {
        let stands = brackets.around;
        let next = pass_quiet(source, first, &mut walk, stands, &mut row, segment);
        let Some(id) = next else { continue };
        let class = all[id.0 as usize];
        let place = walk.place;
        if passes_brace(&walk, stands, id, class) {
            let opened = opened_head(&walk, stands, &brackets.bodies, id);
            walk.pass_open_brace(stands, id);
            if let Some((head, len)) = passed_body(&walk, opened, all, first, place, &row) {
                walk.pass_body(head, place + 1 + len, TokenId(id.0 + len));
                continue;
            }
            brackets.pass(&mut walk, place, opened, id, class)?;
            continue;
        }
        match read(source.arena, &mut walk, stands, id, class) {
            Outcome::EndsOutside(ended) => return Ok(PartsEnd::told(first, ended, place, None)),
            Outcome::EndsInBody(ended) => {
                let inside = place_behind(&walk, &brackets.bodies, begin.inside, keep)?;
                return Ok(PartsEnd::told(first, ended, place, Some(inside)));
            }
            Outcome::Never => break,
            Outcome::GoesOn if !class.is_bracket() => continue,
            Outcome::GoesOn => {}
        }
        if let Some((closer, len)) = passed_group(class, all, first, place, &row) {
            walk.pass_group(place + 1 + len, TokenId(id.0 + len), closer);
            continue;
        }
        brackets.pass(&mut walk, place, None, id, class)?;
    }
    Ok(PartsEnd::with_view(count))
}
