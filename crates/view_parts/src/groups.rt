//! Groups in round and square brackets that are passed at once.

ghost use Rattle.std.specs.Prelude.{◌≡◌, ◌||◌, ◌<◌, ◌≤◌, ◌+◌, ◌^◌, ◌∷◌, [], ℕ, false, true, get_or, length};
ghost use Rattle.std.specs.Prelude.{take, IfSome, if◌then◌else◌, replicate};
ghost use Rattle.token_classes.specs.declared.class.TokenClass.{TokenClass};
ghost use Rattle.part_walk.specs.declared.walk.Around.TheVariants.{Group};
ghost use Rattle.part_walk.specs.Steps.{opens_group};
ghost use Rattle.token_classes.specs.Classes.{is_close_round, is_open_round};
ghost use Rattle.view_parts.specs.Quiet.{ClosesGroup, closes_group, is_quiet, is_square};
ghost use Rattle.view_parts.specs.Quiet.{kinds_behind, kinds_in, stands_in};

use crate::ends::is_quiet;
use crate::lanes::quiet_in_group;
use part_walk::Around;
use token_classes::{LANES, TokenClass};

/// The brackets that are open: so many `(`, and whether a `[` in the innermost of them.
#[derive(Clone, Copy, Drop)]
pub(crate) struct OpenKinds {
    rounds: usize,
    square: bool,
}

/// How many quiet tokens of a group these begin with, as far as is told at once.
#[inline(always)]
fn quiet_len(classes: &[TokenClass]) -> usize
    ensures within { result ≤ length classes.now }
    ensures quiet { (k : ℕ) → (d : TokenClass) → k < result → is_quiet Group false (get_or classes.now k d) ≡ true }
{
    match classes.split_first_chunk::<LANES>() {
        Some((sixteen, _)) => quiet_in_group(sixteen),
        None => 0,
    }
}

/// Whether a token is a `(` or `)`.
#[inline(always)]
fn is_round(class: TokenClass) -> bool
    ensures { result ≡ (is_open_round class || is_close_round class) }
{
    class.is_open_round() || class.is_close_round()
}

/// Whether a token is a `[` or `]`.
#[inline(always)]
fn is_square(class: TokenClass) -> bool
    ensures { result ≡ is_square class }
{
    matches!(class, TokenClass::OpenSquare | TokenClass::CloseSquare)
}

/// The brackets that are open behind a token, where these are before it. None is told where a bracket stands in a `[`.
#[inline(always)]
fn open_behind(kinds: OpenKinds, class: TokenClass) -> Option<OpenKinds>
    requires some { 0 < length (kinds_in kinds) }
    requires few { kinds.rounds < 2 ^ 60 }
    ensures stands { IfSome result (λ next. stands_in (kinds_in kinds) class ≡ true) }
    ensures kinds { IfSome result (λ next. kinds_in next ≡ kinds_behind (kinds_in kinds) class) }
    ensures few { IfSome result (λ next. next.rounds ≤ kinds.rounds + 1) }
{
    if is_quiet(Around::Group, false, class) {
        return Some(kinds);
    }
    let OpenKinds { rounds, square } = kinds;
    if is_round(class) && !square {
        let rounds = if class.is_open_round() {
            rounds + 1
        } else {
            rounds - 1
        };
        return Some(OpenKinds { rounds, square });
    }
    let opens = matches!(class, TokenClass::OpenSquare);
    if is_square(class) && opens != square {
        return Some(OpenKinds {
            rounds,
            square: opens,
        });
    }
    None
}

/// Whether this bracket closes a `(` or `[`.
#[inline(always)]
fn closes_group(opener: TokenClass, class: TokenClass) -> bool
    ensures { result ≡ closes_group opener class }
{
    match opener {
        TokenClass::OpenRound => class.is_close_round(),
        TokenClass::OpenSquare => matches!(class, TokenClass::CloseSquare),
        _ => false,
    }
}

/// How many of these tokens stand up to the bracket that closes the `(` or `[` before them, if it is among so many and
/// few quiet tokens stand before it, and nothing else.
#[inline(always)]
fn flat_group_len(opener: TokenClass, classes: &[TokenClass], most: usize) -> Option<usize>
    requires most { most ≤ length classes.now }
    ensures within { IfSome result (λ len. len ≤ most) }
    ensures some { IfSome result (λ len. 0 < len) }
    ensures closes { IfSome result (λ len. ClosesGroup (opener ∷ []) (take len classes.now)) }
{
    let next = quiet_len(classes);
    if next >= most {
        return None;
    }
    if !closes_group(opener, classes[next]) {
        return None;
    }
    Some(next + 1)
}

/// The same where more tokens stand before that bracket, or groups.
#[inline(never)]
fn deep_group_len(opener: TokenClass, classes: &[TokenClass], most: usize) -> Option<usize>
    requires opens { opens_group opener ≡ true }
    requires most { most ≤ length classes.now }
    requires few { most < 2 ^ 32 }
    ensures within { IfSome result (λ len. len ≤ most) }
    ensures some { IfSome result (λ len. 0 < len) }
    ensures closes { IfSome result (λ len. ClosesGroup (opener ∷ []) (take len classes.now)) }
{
    let mut kinds = OpenKinds {
        rounds: usize::from(opener.is_open_round()),
        square: !opener.is_open_round(),
    };
    let mut count = 0;
    while count < most {
        let next = count + quiet_len(&classes[count..]);
        if next >= most {
            return None;
        }
        kinds = open_behind(kinds, classes[next])?;
        count = next + 1;
        if kinds.rounds == 0 && !kinds.square {
            return Some(count);
        }
    }
    None
}

/// Up to so many items are looked at behind an opener. So brackets that nothing closes take no more than that each.
const MOST_IN_GROUP: usize = 64;

/// How many of these tokens stand up to the bracket that closes the `(` or `[` before them, if it is among so many and
/// nothing but quiet tokens and groups stands before it. Most groups have no others in them.
#[inline(always)]
pub(crate) fn group_len(opener: TokenClass, classes: &[TokenClass], most: usize) -> Option<usize>
    requires opens { opens_group opener ≡ true }
    requires most { most ≤ length classes.now }
    ensures within { IfSome result (λ len. len ≤ most) }
    ensures some { IfSome result (λ len. 0 < len) }
    ensures closes { IfSome result (λ len. ClosesGroup (opener ∷ []) (take len classes.now)) }
{
    if let Some(len) = flat_group_len(opener, classes, most) {
        return Some(len);
    }
    deep_group_len(opener, classes, most.min(MOST_IN_GROUP))
}
