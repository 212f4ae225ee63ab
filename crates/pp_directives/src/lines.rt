//! Presumed lines (C11 6.10.4).

ghost use Rattle.std.specs.Prelude.{◌≡◌, [], map, Option, Some, None};
ghost use Rattle.pp_model.specs.Preprocess.{presumed, moved, jump_of};
ghost use Rattle.pp_events.specs.View.{tok_shown};
ghost use Rattle.pp_directives.specs.WorldView.{shift_shown};
ghost use Rattle.pp_directives.specs.LineNumber.{digits_value, line_number};

use pp_events::{Tok, spelling_of};

/// Presumed lines: the physical line `from` has the number `to`, and each line behind it one more.
#[derive(Clone, Copy)]
pub struct Shift {
    pub from: u32,
    pub to: u32,
}

impl Shift {
    /// Physical lines.
    pub const UNMOVED: Shift = Shift { from: 0, to: 0 };

    /// The presumed number of a physical line.
    pub fn presumed(self, line: u32) -> u64
        ensures { result ≡ presumed (shift_shown self) line }
    {
        u64::from(self.to) + u64::from(line.saturating_sub(self.from))
    }

    /// With the number that a line directive gives to the line `next`, which is behind it.
    pub fn moved(self, next: u32, jump: Option<u32>) -> Shift
        ensures { shift_shown result ≡ moved (shift_shown self) next jump }
    {
        match jump {
            None => self,
            Some(to) => Shift { from: next, to },
        }
    }
}

/// The greatest number that a line directive may give.
const MAX_LINE: u64 = 2147483647;

/// The value of a spelling that is digits alone and isn't too great (6.10.4p3).
#[tactic(auto, using(crate::proofs::LineNumbers::read_digit, crate::proofs::LineNumbers::no_digit, crate::proofs::LineNumbers::too_great, crate::proofs::LineNumbers::all_read))]
fn digits_value(text: &[u8]) -> Option<u32>
    ensures { result ≡ digits_value text.now }
{
    let mut number: u64 = 0;
    for byte in text {
        if !byte.is_ascii_digit() {
            return None;
        }
        number = 10 * number + u64::from(*byte - b'0');
        if number > MAX_LINE {
            return None;
        }
    }
    Some(number as u32)
}

/// The number that a spelling gives to a line, where it may.
fn line_number(text: &[u8]) -> Option<u32>
    ensures { result ≡ line_number text.now }
{
    match text {
        [] => None,
        [..] => digits_value(text),
    }
}

/// The number that a line directive of these tokens gives.
pub fn jump_of(tokens: &[Tok]) -> Option<u32>
    ensures { result ≡ jump_of (map tok_shown tokens.now) }
{
    match tokens {
        [] => None,
        [first, ..] => line_number(spelling_of(&first.token)),
    }
}
