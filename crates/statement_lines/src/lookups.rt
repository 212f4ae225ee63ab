//! What stands at a place of the tokens: its class, its group, its partner.

ghost use Rattle.std.specs.Prelude.{◌≡◌, ◌<◌, ◌≤◌, ◌+◌, ◌-◌, length, IfSome};
ghost use Rattle.statement_lines.specs.Forms.{seen, partner_in, after_group, step_over, block_end};

use crate::token::CodeTokens;
use token_classes::TokenClass;

/// The class of the token at a place, `Nothing` from `end` on.
#[inline(always)]
pub(crate) fn seen(tokens: &CodeTokens<'_>, end: usize, place: usize) -> TokenClass
    ensures { result ≡ seen tokens.now end place }
{
    if place < end {
        tokens.class_at(place)
    } else {
        TokenClass::Nothing
    }
}

/// The partner of the opener at a place, in the list that ends at `end`.
#[inline(always)]
pub(crate) fn partner_in(tokens: &CodeTokens<'_>, end: usize, opener: usize) -> Option<usize>
    ensures same { result ≡ partner_in tokens.now end opener }
    ensures inside { IfSome result (λ p. (opener < p) × (p < end)) }
{
    match tokens.partner_at(opener) {
        Some(partner) => {
            let place = partner as usize;
            if opener < place && place < end {
                Some(place)
            } else {
                None
            }
        }
        None => None,
    }
}

/// The place behind the group in round brackets that begins at a place, or that place where none does.
#[inline(always)]
pub(crate) fn after_group(tokens: &CodeTokens<'_>, end: usize, place: usize) -> usize
    ensures same { result ≡ after_group tokens.now end place }
    ensures least { place ≤ result }
    ensures most { place < result → result ≤ end }
{
    if seen(tokens, end, place).is_open_round() {
        match partner_in(tokens, end, place) {
            Some(closer) => closer + 1,
            None => place,
        }
    } else {
        place
    }
}

/// The place behind a token, or behind the group that it opens; `end` where nothing closes that.
#[inline(always)]
pub(crate) fn step_over(tokens: &CodeTokens<'_>, end: usize, place: usize) -> usize
    requires here { place < end }
    requires list { end ≤ length tokens.now }
    ensures same { result ≡ step_over tokens.now end place }
    ensures least { place < result }
    ensures most { result ≤ end }
{
    if tokens.class_at(place).is_opener() {
        match partner_in(tokens, end, place) {
            Some(closer) => closer + 1,
            None => end,
        }
    } else {
        place + 1
    }
}

/// The place of the partner of the opener at a place, or `end`.
#[inline(always)]
pub(crate) fn block_end(tokens: &CodeTokens<'_>, end: usize, place: usize) -> usize
    requires { place < end }
    ensures same { result ≡ block_end tokens.now end place }
    ensures least { place < result }
    ensures most { result ≤ end }
{
    match partner_in(tokens, end, place) {
        Some(closer) => closer,
        None => end,
    }
}
