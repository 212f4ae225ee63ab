//! Scans outside brackets.

ghost use Rattle.std.specs.Prelude.{◌≡◌, ◌<◌, ◌≤◌, ◌+◌, ◌-◌, length, slice_get, Some, None, true, false};
ghost use Rattle.std.specs.Bool.{OnFalse, OnTrue};
ghost use Rattle.token_classes.specs.Classes.{is_assigning, is_open_brace, is_opener, is_semicolon};
ghost use Rattle.token_classes.specs.declared.class.TokenClass.TheVariants.{Nothing};
ghost use Rattle.statement_lines.specs.Forms.{enumerator_end, statement_stop, call_opener, tag_before, behind};
ghost use Rattle.statement_lines.specs.Forms.{partner_of, opens_block, assigns, is_member_word, class_at};

use crate::form::Stop;
use crate::lookups::step_over;
use crate::token::CodeTokens;
use token_classes::TokenClass;

/// The end of an enumerator, its comma included.
#[inline(always)]
pub(crate) fn enumerator_end(tokens: &CodeTokens<'_>, end: usize, at: usize) -> usize
    requires here { at < end }
    requires list { end ≤ length tokens.now }
    ensures same { result ≡ enumerator_end (end - at) tokens.now end at }
    ensures least { at < result }
    ensures most { result ≤ end }
{
    let mut place = at;
    while place < end {
        if tokens.class_at(place).is_comma() {
            return place + 1;
        }
        place = step_over(tokens, end, place);
    }
    end
}

fn assigns(tokens: &CodeTokens<'_>, assigned: bool, place: usize) -> bool
    ensures { result ≡ assigns tokens.now assigned place }
{
    assigned || tokens.class_at(place).is_assigning()
}

/// `struct` or `union`.
pub(crate) fn is_member_word(class: TokenClass) -> bool
    ensures { result ≡ is_member_word class }
{
    class.is_struct() || class.is_union()
}

fn opens_block(tokens: &CodeTokens<'_>, assigned: bool, place: usize) -> bool
    ensures { result ≡ opens_block tokens.now assigned place }
{
    if !tokens.class_at(place).is_open_brace() {
        return false;
    }
    let before = if place > 0 {
        tokens.class_at(place - 1)
    } else {
        TokenClass::Nothing
    };
    let opens_list = before.is_before_list() || (before.is_close_round() && assigned);
    !opens_list
}

/// The classes of tokens that a scan for a statement's end does more at than to step on, a bit for each.
const TELLING: u64 = (1 << TokenClass::OpenRound as u64)
    | (1 << TokenClass::OpenSquare as u64)
    | (1 << TokenClass::OpenBrace as u64)
    | (1 << TokenClass::Semicolon as u64)
    | (1 << TokenClass::Equals as u64)
    | (1 << TokenClass::Return as u64);

/// Whether a token neither ends a statement, opens anything nor assigns, as most don't.
#[inline(always)]
fn is_still(class: TokenClass) -> bool
    ensures semicolon { result ≡ true → is_semicolon class ≡ false }
    ensures opener { result ≡ true → is_opener class ≡ false }
    ensures brace { result ≡ true → is_open_brace class ≡ false }
    ensures assigning { result ≡ true → is_assigning class ≡ false }
{
    (TELLING >> class as u64) % 2 == 0
}

/// Where a statement that is no other case ends.
#[inline(always)]
#[tactic(auto, using(crate::proofs::ScanLemmas::stop_at_end))]
pub(crate) fn statement_stop(
    tokens: &CodeTokens<'_>,
    end: usize,
    from: usize,
    assigned: bool,
) -> Stop
    requires here { from ≤ end }
    requires list { end ≤ length tokens.now }
    ensures same { result ≡ statement_stop (end - from) tokens.now end from assigned }
    ensures least { from ≤ result.at }
    ensures most { result.at ≤ end }
    ensures brace { OnTrue result.opens (result.at < end) }
    ensures open { OnTrue result.opens (is_open_brace (class_at tokens.now result.at) ≡ true) }
    ensures takes { OnFalse result.opens (from < end → from < result.at) }
{
    // The compiler, told that the end stands within the tokens, leaves the checks of bounds out of the loop.
    let count = tokens.count();
    prove!(end <= count);
    let mut place = from;
    let mut assigned = assigned;
    while place < end {
        let class = tokens.class_at(place);
        if is_still(class) {
            place += 1;
            continue;
        }
        if class.is_semicolon() {
            return Stop {
                at: place + 1,
                opens: false,
                assigned,
            };
        }
        if opens_block(tokens, assigned, place) {
            return Stop {
                at: place,
                opens: true,
                assigned,
            };
        }
        assigned = assigns(tokens, assigned, place);
        place = step_over(tokens, end, place);
    }
    Stop {
        at: end,
        opens: false,
        assigned,
    }
}

/// The opener of the group that ends before a place and stands after a call word, otherwise 0.
fn call_opener(tokens: &CodeTokens<'_>, first: usize, place: usize) -> usize
    requires { 0 < place }
    ensures same { result ≡ call_opener tokens.now first place }
    ensures most { 0 < result → result < place }
{
    if tokens.class_at(place - 1).is_close_round() {
        let opener = behind(tokens, first, place - 1);
        if opener > 0 && tokens.class_at(opener - 1).is_call_word() {
            opener
        } else {
            0
        }
    } else {
        0
    }
}

/// The partner of a place, if it stands before it and after `first`, otherwise 0.
fn behind(tokens: &CodeTokens<'_>, first: usize, at: usize) -> usize
    ensures same { result ≡ behind first at (partner_of (slice_get tokens.now at)) }
    ensures most { 0 < result → result < at }
{
    match tokens.partner_at(at) {
        Some(partner) => {
            let place = partner as usize;
            if first < place && place < at {
                place
            } else {
                0
            }
        }
        None => 0,
    }
}

/// `struct`, `union` or `enum` before the brace.
#[inline(always)]
#[tactic(auto, using(crate::proofs::ScanLemmas::tag_at_end, crate::proofs::ScanLemmas::tag_member, crate::proofs::ScanLemmas::tag_other))]
pub(crate) fn tag_before(tokens: &CodeTokens<'_>, first: usize, brace: usize) -> TokenClass
    requires { brace ≤ length tokens.now }
    ensures { result ≡ tag_before (brace - first) tokens.now first brace Nothing }
{
    let mut place = brace;
    let mut found = TokenClass::Nothing;
    while first < place {
        let class = tokens.class_at(place - 1);
        if is_member_word(class) {
            return class;
        }
        if class.is_word() {
            if class.is_enum() {
                found = class;
            }
            place -= 1;
        } else {
            let opener = call_opener(tokens, first, place);
            if opener == 0 {
                return found;
            }
            place = opener;
        }
    }
    found
}
