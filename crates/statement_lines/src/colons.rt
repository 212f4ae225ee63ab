//! The colons of case labels.
//!
//! A `case` without a colon looks to the end of its list. So that many of them take no longer than one, each place
//! has its answer before the lines are read, found for all in one pass from the right. Where the colon of each
//! `case` stands near it, as in nearly every text, no answers are kept.

ghost use Rattle.std.specs.Prelude.{◌≡◌, ◌<◌, ◌≤◌, ◌+◌, ◌-◌, ◌^◌, length, IfOk};
ghost use Rattle.statement_lines.specs.Forms.{case_colon};
ghost use Rattle.statement_lines.specs.Colons.{AreColonsFrom, AreCaseColons};

use crate::lookups::step_over;
use crate::token::CodeTokens;
use bumpalo::Bump;
use line_tokens::NoMemory;

/// So many tokens are looked at for the colon of a `case` before the colons of all places are kept.
const NEAR: usize = 16;

/// The first colon at a place or behind it that answers no question mark, by those of the places behind it.
fn colon_from(tokens: &CodeTokens<'_>, colons: &[u32], place: usize) -> usize
    requires here { place < length tokens.now }
    requires few { length tokens.now < 2 ^ 30 }
    requires behind { AreColonsFrom (place + 1) colons.now tokens.now }
    ensures { result ≡ case_colon (length tokens.now - place) tokens.now (length tokens.now) place 0 }
{
    let count = tokens.count();
    let class = tokens.class_at(place);
    if class.is_question() {
        let answer = colons[place + 1] as usize;
        if answer < count {
            colons[answer + 1] as usize
        } else {
            count
        }
    } else if class.is_colon() {
        place
    } else {
        colons[step_over(tokens, count, place)] as usize
    }
}

/// The colon of the `case` at a place, or the end of its list where it has none, looked for from there on.
fn scan_colon(tokens: &CodeTokens<'_>, end: usize, at: usize) -> usize
    requires here { at < end }
    requires list { end ≤ length tokens.now }
    ensures same { result ≡ case_colon (end - (at + 1)) tokens.now end (at + 1) 0 }
    ensures least { at < result }
    ensures most { result ≤ end }
{
    let mut place = at + 1;
    let mut asked: usize = 0;
    while place < end {
        let class = tokens.class_at(place);
        if class.is_question() {
            asked += 1;
            place += 1;
        } else if !class.is_colon() {
            place = step_over(tokens, end, place);
        } else if asked == 0 {
            return place;
        } else {
            asked -= 1;
            place += 1;
        }
    }
    end
}

/// Puts the colon of each place there, from the last on.
fn fill_colons(tokens: &CodeTokens<'_>, colons: &mut [u32])
    requires few { length tokens.now < 2 ^ 30 }
    requires last { AreColonsFrom (length tokens.now) colons.old tokens.now }
    ensures { AreColonsFrom 0 colons.new tokens.now }
{
    let mut place = tokens.count();
    while place > 0 {
        place -= 1;
        let colon = colon_from(tokens, colons, place);
        colons[place] = colon as u32;
    }
}

/// The colon of each place.
fn all_colons<'r>(tokens: &CodeTokens<'_>, run: &'r Bump) -> Result<Vec<u32, &'r Bump>, NoMemory>
    requires few { length tokens.now < 2 ^ 30 }
    ensures { IfOk result (λ colons. AreColonsFrom 0 colons.items tokens.now) }
{
    let count = tokens.count();
    let mut colons = vec![in run; count as u32; count + 1]?;
    fill_colons(tokens, &mut colons);
    Ok(colons)
}

/// The colon of each place, or nothing where each of these `case`s has its colon near it: then that is found sooner
/// than kept.
///
/// `cases` are the places of tokens that are a `case`; which of them are told changes no line. Want of memory is the
/// only error.
pub fn case_colons<'r>(
    tokens: &CodeTokens<'_>,
    cases: &[usize],
    run: &'r Bump,
) -> Result<Vec<u32, &'r Bump>, NoMemory>
    requires few { length tokens.now < 2 ^ 30 }
    ensures { IfOk result (λ colons. AreCaseColons colons.items tokens.now) }
{
    for case in cases {
        let place = *case;
        if NEAR < tokens.count().saturating_sub(place) {
            let near = place + NEAR;
            if scan_colon(tokens, near, place) == near {
                return all_colons(tokens, run);
            }
        }
    }
    Ok(Vec::new(run))
}

/// The colon of the `case` at a place, or the end of its list where it has none.
pub(crate) fn label_colon(tokens: &CodeTokens<'_>, colons: &[u32], end: usize, at: usize) -> usize
    requires here { at < end }
    requires list { end ≤ length tokens.now }
    requires colons { AreCaseColons colons.now tokens.now }
    ensures same { result ≡ case_colon (end - (at + 1)) tokens.now end (at + 1) 0 }
    ensures least { at < result }
    ensures most { result ≤ end }
{
    if colons.is_empty() {
        return scan_colon(tokens, end, at);
    }
    let colon = colons[at + 1] as usize;
    if colon < end { colon } else { end }
}
