//! Classes of bytes, and at which of sixteen bytes the runs of a class stop, told at once.

ghost use Rattle.std.specs.Prelude.{◌≡◌, ℕ, Bool, map, not};
ghost use Rattle.std.specs.Simd.Lanes.{mask_l};
ghost use Rattle.c_chars.specs.Characters.{is_comment_byte, is_quiet_byte, is_quiet_comment, is_space_byte};
ghost use Rattle.c_chars.specs.Characters.{is_row_byte, is_text_byte, is_word_byte};

use std::simd::prelude::*;

/// A class of bytes.
pub(crate) trait ByteClass {
    ghost holds: { ℕ → Bool };

    /// A bit for each byte that isn't of the class, the lowest for the first.
    fn stops(sixteen: u8x16) -> u64
        ensures { result ≡ mask_l (map (λ b. not (holds b)) sixteen) };
}

/// Letters, digits, `_` and `$`.
pub(crate) struct WordBytes;

impl ByteClass for WordBytes {
    ghost holds = { is_word_byte };

    #[inline(always)]
    fn stops(sixteen: u8x16) -> u64 {
        let from_letter = (sixteen | u8x16::splat(0x20)) - u8x16::splat(b'a');
        let from_digit = sixteen - u8x16::splat(b'0');
        let no_mark = sixteen.simd_ne(u8x16::splat(b'_')) & sixteen.simd_ne(u8x16::splat(b'$'));
        let no_letter = from_letter.simd_ge(u8x16::splat(26));
        let no_digit = from_digit.simd_ge(u8x16::splat(10));
        (no_letter & no_digit & no_mark).to_bitmask()
    }
}

/// Spaces and tabs.
pub(crate) struct SpaceBytes;

impl ByteClass for SpaceBytes {
    ghost holds = { is_space_byte };

    #[inline(always)]
    fn stops(sixteen: u8x16) -> u64 {
        let no_space = sixteen.simd_ne(u8x16::splat(b' '));
        let no_tab = sixteen.simd_ne(u8x16::splat(b'\t'));
        (no_space & no_tab).to_bitmask()
    }
}

/// The bytes of comments: spaces, tabs, and what is no white space and none of `*?\\`.
pub(crate) struct CommentBytes;

impl ByteClass for CommentBytes {
    ghost holds = { is_comment_byte };

    #[inline(always)]
    fn stops(sixteen: u8x16) -> u64 {
        let control = sixteen.simd_lt(u8x16::splat(b' ')) & sixteen.simd_ne(u8x16::splat(b'\t'));
        let star = sixteen.simd_eq(u8x16::splat(b'*'));
        let written = sixteen.simd_eq(u8x16::splat(b'?')) | sixteen.simd_eq(u8x16::splat(b'\\'));
        (control | star | written).to_bitmask()
    }
}

/// The bytes of strings: those of comments, without quotes.
pub(crate) struct TextBytes;

impl ByteClass for TextBytes {
    ghost holds = { is_text_byte };

    #[inline(always)]
    fn stops(sixteen: u8x16) -> u64 {
        let control = sixteen.simd_lt(u8x16::splat(b' ')) & sixteen.simd_ne(u8x16::splat(b'\t'));
        let star = sixteen.simd_eq(u8x16::splat(b'*'));
        let quote = sixteen.simd_eq(u8x16::splat(b'"')) | sixteen.simd_eq(u8x16::splat(b'\''));
        let written = sixteen.simd_eq(u8x16::splat(b'?')) | sixteen.simd_eq(u8x16::splat(b'\\'));
        (control | star | quote | written).to_bitmask()
    }
}

/// Printable bytes of strings.
pub(crate) struct QuietBytes;

impl ByteClass for QuietBytes {
    ghost holds = { is_quiet_byte };

    #[inline(always)]
    fn stops(sixteen: u8x16) -> u64 {
        let unprintable = (sixteen - u8x16::splat(b' ')).simd_ge(u8x16::splat(95));
        let star = sixteen.simd_eq(u8x16::splat(b'*'));
        let quote = sixteen.simd_eq(u8x16::splat(b'"')) | sixteen.simd_eq(u8x16::splat(b'\''));
        let written = sixteen.simd_eq(u8x16::splat(b'?')) | sixteen.simd_eq(u8x16::splat(b'\\'));
        (unprintable | star | quote | written).to_bitmask()
    }
}

/// Printable bytes of comments.
pub(crate) struct QuietCommentBytes;

impl ByteClass for QuietCommentBytes {
    ghost holds = { is_quiet_comment };

    #[inline(always)]
    fn stops(sixteen: u8x16) -> u64 {
        let unprintable = (sixteen - u8x16::splat(b' ')).simd_ge(u8x16::splat(95));
        let star = sixteen.simd_eq(u8x16::splat(b'*'));
        let written = sixteen.simd_eq(u8x16::splat(b'?')) | sixteen.simd_eq(u8x16::splat(b'\\'));
        (unprintable | star | written).to_bitmask()
    }
}

/// Bytes of ASCII that end no line.
pub(crate) struct RowBytes;

impl ByteClass for RowBytes {
    ghost holds = { is_row_byte };

    #[inline(always)]
    fn stops(sixteen: u8x16) -> u64 {
        let beyond = sixteen.simd_ge(u8x16::splat(128));
        let feed = sixteen.simd_eq(u8x16::splat(b'\n'));
        (beyond | feed).to_bitmask()
    }
}
