//! Partners of brackets, found with a stack of the openers that wait.

ghost use Rattle.std.specs.Prelude.{◌≡◌, ◌∷◌, [], ◌++◌, ◌<◌, ◌≤◌, ◌+◌, ◌^◌, reverse, IfOk, Option, Some, None, IfSome};
ghost use Rattle.std.specs.Prelude.{IfNone, length, OnOk, slice_set};
ghost use Rattle.std.specs.Option.{ForSome};
ghost use Rattle.token_classes.specs.Classes.{is_opener};
ghost use Rattle.token_classes.specs.Partners.{count_braces, nearest_brace, topmost, is_round, is_square, paired};
ghost use Rattle.token_classes.specs.Partners.{TakesStep, StandBefore};

use crate::TokenClass;
use crate::partner::Partner;
use bumpalo::Bump;
use line_tokens::NoMemory;

/// An opening bracket that waits for its partner.
#[derive(Clone, Copy, Drop)]
pub struct Opener {
    /// Where it stands.
    pub place: u32,
    /// Which bracket it is.
    pub kind: TokenClass,
}

#[tactic(auto, using(crate::proofs::BracketLemmas::no_brace))]
/// Takes off the openers above the nearest brace, and the brace, and gives the brace's place.
fn take_brace(stack: &mut Vec<Opener, &Bump>, braces: &mut usize) -> Option<u32>
    requires { braces.old ≡ count_braces (reverse stack.old.items) }
    ensures some { IfSome result (λ p.
        nearest_brace (reverse stack.old.items) ≡ Some (record { place = p; below = reverse stack.new.items })) }
    ensures none { IfNone result (nearest_brace (reverse stack.old.items) ≡ None) }
    ensures same { IfNone result (stack.new.items ≡ stack.old.items) }
    ensures count { braces.new ≡ count_braces (reverse stack.new.items) }
    ensures fewer { braces.new ≤ braces.old }
{
    if *braces == 0 {
        return None;
    }
    while let Some(opener) = stack.pop() {
        if opener.kind == TokenClass::OpenBrace {
            *braces -= 1;
            return Some(opener.place);
        }
    }
    None
}

/// Takes off the topmost opener, where it is a square one.
#[inline(always)]
fn take_square(stack: &mut Vec<Opener, &Bump>) -> Option<u32>
    ensures some { IfSome result (λ p.
        topmost is_square (reverse stack.old.items) ≡ Some (record { place = p; below = reverse stack.new.items })) }
    ensures none { IfNone result (topmost is_square (reverse stack.old.items) ≡ None) }
    ensures same { IfNone result (stack.new.items ≡ stack.old.items) }
    ensures count { count_braces (reverse stack.new.items) ≡ count_braces (reverse stack.old.items) }
{
    match stack.last() {
        Some(opener) => {
            if opener.kind == TokenClass::OpenSquare {
                let place = opener.place;
                let _ = stack.pop();
                Some(place)
            } else {
                None
            }
        }
        None => None,
    }
}

/// Takes off the topmost opener, where it is a round one.
#[inline(always)]
fn take_round(stack: &mut Vec<Opener, &Bump>) -> Option<u32>
    ensures some { IfSome result (λ p.
        topmost is_round (reverse stack.old.items) ≡ Some (record { place = p; below = reverse stack.new.items })) }
    ensures none { IfNone result (topmost is_round (reverse stack.old.items) ≡ None) }
    ensures same { IfNone result (stack.new.items ≡ stack.old.items) }
    ensures count { count_braces (reverse stack.new.items) ≡ count_braces (reverse stack.old.items) }
{
    match stack.last() {
        Some(opener) => {
            if opener.kind == TokenClass::OpenRound {
                let place = opener.place;
                let _ = stack.pop();
                Some(place)
            } else {
                None
            }
        }
        None => None,
    }
}

/// The classes of opening brackets, a bit for each.
const OPENERS: u64 = (1 << TokenClass::OpenRound as u64)
    | (1 << TokenClass::OpenSquare as u64)
    | (1 << TokenClass::OpenBrace as u64);

/// An opening bracket. It is told by a bit, so that what waits goes by no table of jumps.
#[inline(always)]
fn opens(class: TokenClass) -> bool
    ensures { result ≡ is_opener class }
{
    (OPENERS >> class as u64) % 2 == 1
}

/// Makes the two places partners.
#[inline(always)]
fn match_up(partners: &mut [Partner], opened: u32, place: u32)
    requires few { length partners.old < 2 ^ 32 }
    requires opener { opened < length partners.old }
    requires closer { place < length partners.old }
    ensures { partners.new ≡ slice_set (slice_set partners.old opened (Some place)) place (Some opened) }
{
    partners[opened as usize] = Partner::at(place);
    partners[place as usize] = Partner::at(opened);
}

/// Makes the opener and the closer partners, where the closer has one.
#[inline(always)]
pub(crate) fn close(partners: &mut [Partner], opened: Option<u32>, place: u32)
    requires few { length partners.old < 2 ^ 32 }
    requires opener { ForSome opened (λ p. p < length partners.old) }
    requires closer { place < length partners.old }
    ensures { partners.new ≡ paired partners.old opened place }
{
    if let Some(opener) = opened {
        match_up(partners, opener, place);
    }
}

/// Lets an opener wait for which there may be no room yet.
#[inline(never)]
fn push_grown(stack: &mut Vec<Opener, &Bump>, opener: Opener) -> Result<(), NoMemory>
    ensures items { OnOk result (stack.new.items ≡ stack.old.items ++ opener ∷ []) }
{
    stack.push(opener)?;
    Ok(())
}

/// Lets an opener wait. Mostly there is room, and no call is made.
#[inline(always)]
fn push_opener(stack: &mut Vec<Opener, &Bump>, opener: Opener) -> Result<(), NoMemory>
    ensures items { OnOk result (stack.new.items ≡ stack.old.items ++ opener ∷ []) }
{
    if stack.len() < stack.capacity() {
        stack.push_reserved(opener);
        return Ok(());
    }
    push_grown(stack, opener)
}

/// One token, as far as the openers that wait go: the place of the opener that it takes off.
///
/// `stack` has the openers, the topmost last, and `braces` says how many of them are a `{`. Who reads tokens from the
/// left begins with none. Want of memory is the only error.
#[inline(always)]
pub fn waiting_step(
    stack: &mut Vec<Opener, &Bump>,
    braces: &mut usize,
    place: u32,
    class: TokenClass,
) -> Result<Option<u32>, NoMemory>
    requires count { braces.old ≡ count_braces (reverse stack.old.items) }
    requires small { braces.old ≤ place }
    requires before { StandBefore place (reverse stack.old.items) }
    ensures step { IfOk result (λ o. TakesStep class place (reverse stack.old.items) o (reverse stack.new.items)) }
    ensures opener { IfOk result (λ o. ForSome o (λ p. p < place)) }
    ensures count { OnOk result (braces.new ≡ count_braces (reverse stack.new.items)) }
    ensures small { OnOk result (braces.new ≤ place + 1) }
    ensures before { OnOk result (StandBefore (place + 1) (reverse stack.new.items)) }
{
    if !class.is_bracket() {
        return Ok(None);
    }
    if opens(class) {
        push_opener(stack, Opener { place, kind: class })?;
        *braces += class.is_open_brace() as usize;
        return Ok(None);
    }
    match class {
        TokenClass::CloseRound => Ok(take_round(stack)),
        TokenClass::CloseSquare => Ok(take_square(stack)),
        TokenClass::CloseBrace => Ok(take_brace(stack, braces)),
        _ => Ok(None),
    }
}
