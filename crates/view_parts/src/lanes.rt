//! Classes of tokens, told of sixteen at once.

ghost use Rattle.std.specs.Prelude.{◌≡◌, false, true};
ghost use Rattle.std.specs.List.{prefix_len};
ghost use Rattle.part_walk.specs.declared.walk.Around.TheVariants.{Body, Group};
ghost use Rattle.view_parts.specs.Lanes.{is_flat};
ghost use Rattle.view_parts.specs.Quiet.{is_quiet};

use std::simd::prelude::*;
use token_classes::{LANES, TokenClass, numbers};

/// How many of sixteen tokens stand before the first bracket or comment.
#[inline(always)]
pub(crate) fn quiet_in_group(classes: &[TokenClass; LANES]) -> usize
    ensures { result ≡ prefix_len (is_quiet Group false) classes.now }
{
    let numbers = numbers(classes);
    let from_bracket = numbers - u8x16::splat(TokenClass::OpenRound as u8);
    let from_comment = numbers - u8x16::splat(TokenClass::LineComment as u8);
    let bracket = from_bracket.simd_lt(u8x16::splat(6));
    let comment = from_comment.simd_lt(u8x16::splat(2));
    let told = (bracket | comment).to_bitmask();
    if told == 0 {
        return LANES;
    }
    told.trailing_zeros() as usize
}

/// How many of sixteen tokens stand before the first that tells something in a body, where no label holds.
#[inline(always)]
pub(crate) fn quiet_in_body(classes: &[TokenClass; LANES]) -> usize
    ensures { result ≡ prefix_len (is_quiet Body false) classes.now }
{
    let numbers = numbers(classes);
    let from_bracket = numbers - u8x16::splat(TokenClass::OpenRound as u8);
    let from_comment = numbers - u8x16::splat(TokenClass::LineComment as u8);
    let from_record = numbers - u8x16::splat(TokenClass::Struct as u8);
    let bracket = from_bracket.simd_lt(u8x16::splat(6));
    let comment = from_comment.simd_lt(u8x16::splat(2));
    let record = from_record.simd_lt(u8x16::splat(2));
    let control = numbers.simd_lt(u8x16::splat(8));
    let told = (bracket | comment | record | control).to_bitmask();
    if told == 0 {
        return LANES;
    }
    told.trailing_zeros() as usize
}

/// The same where a label holds the part's end, and a `;` tells something too.
#[inline(always)]
pub(crate) fn quiet_behind_label(classes: &[TokenClass; LANES]) -> usize
    ensures { result ≡ prefix_len (is_quiet Body true) classes.now }
{
    let numbers = numbers(classes);
    let from_bracket = numbers - u8x16::splat(TokenClass::OpenRound as u8);
    let from_comment = numbers - u8x16::splat(TokenClass::LineComment as u8);
    let from_record = numbers - u8x16::splat(TokenClass::Struct as u8);
    let bracket = from_bracket.simd_lt(u8x16::splat(6));
    let comment = from_comment.simd_lt(u8x16::splat(2));
    let record = from_record.simd_lt(u8x16::splat(2));
    let control = numbers.simd_lt(u8x16::splat(8));
    let end = numbers.simd_eq(u8x16::splat(TokenClass::Semicolon as u8));
    let told = (bracket | comment | record | control | end).to_bitmask();
    if told == 0 {
        return LANES;
    }
    told.trailing_zeros() as usize
}

/// How many of sixteen tokens stand before the first brace.
#[inline(always)]
pub(crate) fn flat_count(classes: &[TokenClass; LANES]) -> usize
    ensures { result ≡ prefix_len is_flat classes.now }
{
    let from_brace = numbers(classes) - u8x16::splat(TokenClass::OpenBrace as u8);
    let told = from_brace.simd_lt(u8x16::splat(2)).to_bitmask();
    if told == 0 {
        return LANES;
    }
    told.trailing_zeros() as usize
}
