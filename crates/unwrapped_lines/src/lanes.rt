//! Classes of tokens, told of sixteen at once.

ghost use Rattle.std.specs.Prelude.{◌≡◌, ◌<◌, ◌≤◌, ℕ, get_or, length, true};
ghost use Rattle.std.specs.List.{prefix_len};
ghost use Rattle.token_classes.specs.declared.class.TokenClass.{TokenClass};
ghost use Rattle.unwrapped_lines.specs.Inside.{is_usual};

use std::simd::prelude::*;
use token_classes::{LANES, TokenClass, numbers};

/// How many of sixteen tokens stand before the first of which more is told than of most. Comments are listed side by
/// side.
#[inline(always)]
fn usual_in_sixteen(classes: &[TokenClass; LANES]) -> usize
    ensures { result ≡ prefix_len is_usual classes.now }
{
    let numbers = numbers(classes);
    let cases = numbers.simd_eq(u8x16::splat(TokenClass::Case as u8));
    let colons = numbers.simd_eq(u8x16::splat(TokenClass::Colon as u8));
    let from_comment = numbers - u8x16::splat(TokenClass::LineComment as u8);
    let comments = from_comment.simd_lt(u8x16::splat(2));
    let told = (cases | colons | comments).to_bitmask();
    if told == 0 {
        return LANES;
    }
    told.trailing_zeros() as usize
}

/// How many tokens of which no more is told than of most these begin with, as far as is told at once.
#[inline(always)]
pub(crate) fn usual_len(classes: &[TokenClass]) -> usize
    ensures within { result ≤ length classes.now }
    ensures usual { (k : ℕ) → (d : TokenClass) → k < result → is_usual (get_or classes.now k d) ≡ true }
{
    match classes.split_first_chunk::<LANES>() {
        Some((sixteen, _)) => usual_in_sixteen(sixteen),
        None => 0,
    }
}
