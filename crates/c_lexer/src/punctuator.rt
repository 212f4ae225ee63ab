//! The punctuators of C11 6.4.6, and `::` of C23.

ghost use Rattle.std.specs.Prelude.{◌≡◌};
ghost use Rattle.c_chars.specs.Characters.{bytes_of};
ghost use Rattle.c_lexer.specs.Run.{long, first_front, begins_long, goes_on_long, is_pair_mark, is_shift_mark};
ghost use Rattle.c_lexer.specs.Run.{is_alone_mark};

use crate::front;
use c_chars::{Chars, Dialect};

/// The punctuators of two bytes and more, each before those that it begins with. Both dialects have all but
/// the first.
const LONG: [&[u8]; 30] = [
    b"::", b"->", b"==", b"&&", b"++", b"||", b"!=", b"+=", b"<=", b">=", b"--", b"<<=", b"<<",
    b">>=", b">>", b"-=", b"|=", b"&=", b"*=", b"/=", b"%=", b"^=", b"...", b"##", b"<:", b":>",
    b"<%", b"%>", b"%:%:", b"%:",
];

/// Of each byte, whether some punctuator of two bytes and more begins with it.
const BEGINS_LONG: [bool; 256] = [
    false, false, false, false, false, false, false, false, false, false, false, false, false,
    false, false, false, false, false, false, false, false, false, false, false, false, false,
    false, false, false, false, false, false, false, true, false, true, false, true, true, false,
    false, false, true, true, false, true, true, true, false, false, false, false, false, false,
    false, false, false, false, true, false, true, true, true, false, false, false, false, false,
    false, false, false, false, false, false, false, false, false, false, false, false, false,
    false, false, false, false, false, false, false, false, false, false, false, false, false,
    true, false, false, false, false, false, false, false, false, false, false, false, false,
    false, false, false, false, false, false, false, false, false, false, false, false, false,
    false, false, false, false, true, false, false, false, false, false, false, false, false,
    false, false, false, false, false, false, false, false, false, false, false, false, false,
    false, false, false, false, false, false, false, false, false, false, false, false, false,
    false, false, false, false, false, false, false, false, false, false, false, false, false,
    false, false, false, false, false, false, false, false, false, false, false, false, false,
    false, false, false, false, false, false, false, false, false, false, false, false, false,
    false, false, false, false, false, false, false, false, false, false, false, false, false,
    false, false, false, false, false, false, false, false, false, false, false, false, false,
    false, false, false, false, false, false, false, false, false, false, false, false, false,
    false, false, false, false, false, false, false, false, false, false, false, false, false,
    false, false, false, false, false, false,
];

/// Whether some punctuator of two bytes and more begins with this one.
#[inline(always)]
pub(crate) fn begins_long(byte: u8) -> bool
    ensures { result ≡ begins_long byte }
{
    c_chars::told(&BEGINS_LONG, byte)
}

/// Of each byte, whether some punctuator has it behind its first.
const GOES_ON_LONG: [bool; 256] = [
    false, false, false, false, false, false, false, false, false, false, false, false, false,
    false, false, false, false, false, false, false, false, false, false, false, false, false,
    false, false, false, false, false, false, false, false, false, true, false, true, true, false,
    false, false, false, true, false, true, true, false, false, false, false, false, false, false,
    false, false, false, false, true, false, true, true, true, false, false, false, false, false,
    false, false, false, false, false, false, false, false, false, false, false, false, false,
    false, false, false, false, false, false, false, false, false, false, false, false, false,
    false, false, false, false, false, false, false, false, false, false, false, false, false,
    false, false, false, false, false, false, false, false, false, false, false, false, false,
    false, false, false, false, true, false, false, false, false, false, false, false, false,
    false, false, false, false, false, false, false, false, false, false, false, false, false,
    false, false, false, false, false, false, false, false, false, false, false, false, false,
    false, false, false, false, false, false, false, false, false, false, false, false, false,
    false, false, false, false, false, false, false, false, false, false, false, false, false,
    false, false, false, false, false, false, false, false, false, false, false, false, false,
    false, false, false, false, false, false, false, false, false, false, false, false, false,
    false, false, false, false, false, false, false, false, false, false, false, false, false,
    false, false, false, false, false, false, false, false, false, false, false, false, false,
    false, false, false, false, false, false, false, false, false, false, false, false, false,
    false, false, false, false, false, false,
];

/// Whether some punctuator has this second byte.
#[inline(always)]
pub(crate) fn goes_on_long(byte: u8) -> bool
    ensures { result ≡ goes_on_long byte }
{
    c_chars::told(&GOES_ON_LONG, byte)
}

/// Of each byte, whether it and an equals sign are a punctuator.
const TAKES_EQUALS: [bool; 256] = [
    false, false, false, false, false, false, false, false, false, false, false, false, false,
    false, false, false, false, false, false, false, false, false, false, false, false, false,
    false, false, false, false, false, false, false, true, false, false, false, true, true, false,
    false, false, true, true, false, true, false, true, false, false, false, false, false, false,
    false, false, false, false, false, false, true, true, true, false, false, false, false, false,
    false, false, false, false, false, false, false, false, false, false, false, false, false,
    false, false, false, false, false, false, false, false, false, false, false, false, false,
    true, false, false, false, false, false, false, false, false, false, false, false, false,
    false, false, false, false, false, false, false, false, false, false, false, false, false,
    false, false, false, false, true, false, false, false, false, false, false, false, false,
    false, false, false, false, false, false, false, false, false, false, false, false, false,
    false, false, false, false, false, false, false, false, false, false, false, false, false,
    false, false, false, false, false, false, false, false, false, false, false, false, false,
    false, false, false, false, false, false, false, false, false, false, false, false, false,
    false, false, false, false, false, false, false, false, false, false, false, false, false,
    false, false, false, false, false, false, false, false, false, false, false, false, false,
    false, false, false, false, false, false, false, false, false, false, false, false, false,
    false, false, false, false, false, false, false, false, false, false, false, false, false,
    false, false, false, false, false, false, false, false, false, false, false, false, false,
    false, false, false, false, false, false,
];

/// Whether the two bytes are a punctuator, and none that is longer begins with them.
#[tactic(auto, unfolding(crate::specs::Run::is_pair_mark))]
#[inline(always)]
pub(crate) fn is_pair(first: u8, second: u8) -> bool
    ensures { result ≡ is_pair_mark first second }
{
    if second == b'=' {
        return c_chars::told(&TAKES_EQUALS, first);
    }
    if second == b'>' {
        return first == b'-';
    }
    matches!(second, b'&' | b'+' | b'|' | b'-' | b'#') && first == second
}

/// Whether the two bytes are a shift, and only an equals sign behind them makes it longer.
#[tactic(auto, unfolding(crate::specs::Run::is_shift_mark))]
#[inline(always)]
pub(crate) fn is_shift(first: u8, second: u8) -> bool
    ensures { result ≡ is_shift_mark first second }
{
    matches!(first, b'<' | b'>') && first == second
}

/// Whether a punctuator is this first byte alone where that second one comes behind it, whatever the second
/// begins.
#[tactic(auto, unfolding(crate::specs::Run::is_alone_mark))]
#[inline(always)]
pub(crate) fn is_alone(first: u8, second: u8) -> bool
    ensures { result ≡ is_alone_mark first second }
{
    !goes_on_long(second) && !matches!(first, b'.' | b'/')
}

/// The length of the longest punctuator that the text begins with, otherwise 1.
pub(crate) fn text_len(dialect: Dialect, text: &Chars) -> usize
    ensures { result ≡ first_front (long dialect) (bytes_of text.now.chars) }
{
    let from = match dialect {
        Dialect::C11 => 1,
        Dialect::C23 => 0,
    };
    front::first_front(&LONG[from..], text)
}
