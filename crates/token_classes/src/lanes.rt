//! Classes of tokens, told of sixteen at once.

ghost use Rattle.std.specs.Prelude.{◌≡◌, ◌<◌, ◌≤◌, ℕ, get_or, length, map, true};
ghost use Rattle.std.specs.List.{prefix_len};
ghost use Rattle.token_classes.specs.declared.class.TokenClass.{TokenClass};
ghost use Rattle.token_classes.specs.Lanes.{is_quiet, number_of};

use crate::TokenClass;
use std::simd::prelude::*;

/// So many tokens are told at once.
pub const LANES: usize = 16;

/// Which class it is, as they are listed.
#[inline(always)]
fn number_of(class: TokenClass) -> u8
    ensures { result ≡ number_of class }
{
    class as u8
}

/// Which classes sixteen tokens have, each by its place in the list of classes. Who compares these tells sixteen tokens
/// at once.
#[inline(always)]
pub fn numbers(classes: &[TokenClass; LANES]) -> u8x16
    ensures { result ≡ map number_of classes.now }
{
    u8x16::from_array([
        number_of(classes[0]),
        number_of(classes[1]),
        number_of(classes[2]),
        number_of(classes[3]),
        number_of(classes[4]),
        number_of(classes[5]),
        number_of(classes[6]),
        number_of(classes[7]),
        number_of(classes[8]),
        number_of(classes[9]),
        number_of(classes[10]),
        number_of(classes[11]),
        number_of(classes[12]),
        number_of(classes[13]),
        number_of(classes[14]),
        number_of(classes[15]),
    ])
}

/// How many of sixteen tokens stand before the first bracket. Brackets are listed side by side.
#[inline(always)]
fn quiet_in_sixteen(classes: &[TokenClass; LANES]) -> usize
    ensures { result ≡ prefix_len is_quiet classes.now }
{
    let from_bracket = numbers(classes) - u8x16::splat(TokenClass::OpenRound as u8);
    let told = from_bracket.simd_lt(u8x16::splat(6)).to_bitmask();
    if told == 0 {
        return LANES;
    }
    told.trailing_zeros() as usize
}

/// How many tokens that are no brackets these begin with, as far as is told at once.
#[inline(always)]
pub(crate) fn quiet_len(classes: &[TokenClass]) -> usize
    ensures within { result ≤ length classes.now }
    ensures quiet { (k : ℕ) → (d : TokenClass) → k < result → is_quiet (get_or classes.now k d) ≡ true }
{
    match classes.split_first_chunk::<LANES>() {
        Some((sixteen, _)) => quiet_in_sixteen(sixteen),
        None => 0,
    }
}
