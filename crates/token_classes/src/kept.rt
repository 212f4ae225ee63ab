//! Gaps that are kept as they are, inside the braces of statements that stand inside brackets.

ghost use Rattle.std.specs.Prelude.{◌≡◌, ◌&&◌, ◌<◌, ◌^◌, reverse, replicate, map, length, false, None, IfOk, OnOk};
ghost use Rattle.std.specs.List.{list_any, range_with_len};
ghost use Rattle.token_classes.specs.Partners.{partners_of, count_braces, StandBefore};
ghost use Rattle.token_classes.specs.Classes.{is_open_brace};
ghost use Rattle.token_classes.specs.Kept.{is_statement_brace, is_inside, kept_gaps_of, marked, AreOpeners};
ghost use Rattle.token_classes.specs.Kept.{is_round_or_square};

use crate::TokenClass;
use crate::lanes::quiet_len;
use crate::pairing::{Opener, close, waiting_step};
use crate::partner::Partner;
use bumpalo::Bump;
use bumpalo::collections::into_bump_slice_mut;
use line_tokens::NoMemory;

/// Marks the topmost opener, where that is a brace and a `(` or `[` waits below it, and tells whether it did.
#[inline(always)]
fn mark_topmost(stack: &[Opener], braces: usize, marks: &mut [bool]) -> bool
    requires count { braces ≡ count_braces (reverse stack.now) }
    requires openers { AreOpeners (reverse stack.now) }
    requires before { StandBefore (length marks.old) (reverse stack.now) }
    ensures marks { marks.new ≡ marked (reverse stack.now) marks.old }
    ensures none { result ≡ false → marks.new ≡ marks.old }
{
    if let Some(opener) = stack.last() {
        if opener.kind.is_open_brace() && braces < stack.len() {
            marks[opener.place as usize] = true;
            return true;
        }
    }
    false
}

/// Whether a token is a `{` that stands where a `(` or `[` waits.
#[inline(always)]
fn opens_inside(class: TokenClass, stack: &[Opener], braces: usize) -> bool
    requires count { braces ≡ count_braces (reverse stack.now) }
    requires openers { AreOpeners (reverse stack.now) }
    ensures { result ≡ (is_open_brace class && list_any is_round_or_square (reverse stack.now)) }
{
    class.is_open_brace() && braces < stack.len()
}

/// How many openers there is room for at first. Few views nest deeper.
const DEPTH: usize = 32;

/// Fills in the partners of the places, marks the statement braces among them, and tells whether there is one. Up to
/// the first `{` inside brackets no `;` marks one, so brackets alone are looked at.
fn read_brackets(
    classes: &[TokenClass],
    partners: &mut [Partner],
    marks: &mut [bool],
    run: &Bump,
) -> Result<bool, NoMemory>
    requires few { length classes.now < 2 ^ 32 }
    requires alone { partners.old ≡ replicate (length classes.now) None }
    requires unmarked { marks.old ≡ replicate (length classes.now) false }
    ensures partners { OnOk result (partners.new ≡ partners_of classes.now) }
    ensures marks { OnOk result
        (marks.new ≡ map (is_statement_brace classes.now) (range_with_len 0 (length classes.now))) }
    ensures none { IfOk result (λ any. any ≡ false → marks.new ≡ replicate (length classes.now) false) }
{
    let mut stack: Vec<Opener, &Bump> = Vec::with_capacity(run, DEPTH)?;
    let mut braces: usize = 0;
    let mut place = quiet_len(classes);
    while place < classes.len() && !opens_inside(classes[place], &stack, braces) {
        let taken = waiting_step(&mut stack, &mut braces, place as u32, classes[place])?;
        close(partners, taken, place as u32);
        place += 1;
        place += quiet_len(&classes[place..]);
    }
    let mut any = false;
    while place < classes.len() {
        let class = classes[place];
        if class.is_semicolon() && mark_topmost(&stack, braces, marks) {
            any = true;
        }
        let taken = waiting_step(&mut stack, &mut braces, place as u32, class)?;
        close(partners, taken, place as u32);
        place += 1;
    }
    Ok(any)
}

/// Puts in place of the marks of braces those of the gaps between a marked brace and its partner.
fn spread(marks: &mut [bool], partners: &[Partner])
    requires { length marks.old ≡ length partners.now }
    ensures { marks.new ≡ map (is_inside marks.old partners.now) (range_with_len 0 (length marks.old)) }
{
    let mut end: usize = 0;
    for (place, mark) in marks.iter_mut().enumerate() {
        let is_brace = *mark;
        *mark = place < end;
        if is_brace {
            if let Some(partner) = partners[place].place() {
                end = end.max(partner as usize + 1);
            }
        }
    }
}

/// What the brackets of a view tell of its places.
#[derive(Clone, Copy, Debug)]
pub struct BracketFacts<'r> {
    /// The partner of each place.
    pub partners: &'r [Partner],
    /// Of each place, whether the gap before it is kept as it is.
    pub kept: &'r [bool],
}

/// The partners of the places of a view and the gaps before them that are kept, read in one pass over the classes of
/// its tokens.
///
/// `docs/PROFILE.md` says under "Partners" and "Kept gaps" which these are. Want of memory is the only error.
pub fn bracket_facts<'r>(
    classes: &[TokenClass],
    run: &'r Bump,
) -> Result<BracketFacts<'r>, NoMemory>
    requires few { length classes.now < 2 ^ 32 }
    ensures partners { IfOk result (λ facts. facts.partners.now ≡ partners_of classes.now) }
    ensures kept { IfOk result (λ facts. facts.kept.now ≡ kept_gaps_of classes.now) }
    ensures count { IfOk result (λ facts. length facts.kept.now ≡ length classes.now) }
{
    let partners = into_bump_slice_mut(vec![in run; Partner::none(); classes.len()]?);
    let kept = into_bump_slice_mut(vec![in run; false; classes.len()]?);
    if read_brackets(classes, partners, kept, run)? {
        spread(kept, partners);
    }
    Ok(BracketFacts { partners, kept })
}
