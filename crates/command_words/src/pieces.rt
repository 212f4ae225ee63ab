//! The input that is made in place of the source, as `--generate` tells it.

ghost use Rattle.std.specs.Prelude.{◌≡◌};
ghost use Rattle.command_words.specs.Generate.{generate_in, numbers_of};

use crate::budget::number_of;

/// The most pieces of an input.
const MOST_PIECES: u32 = 100_000;

/// The input that is made.
#[derive(Clone, Copy, Debug, PartialEq, Eq)]
pub struct Generate {
    /// N: the number in its first piece, modulo 1000.
    pub seed: u32,
    /// COUNT: how many pieces it has.
    pub count: u32,
}

/// N and COUNT, where both are numbers, and COUNT is 1 to 100000.
fn numbers_of(seed: Option<u32>, count: Option<u32>) -> Option<Generate>
    ensures { result ≡ numbers_of seed count }
{
    let (seed, count) = (seed?, count?);
    if 1 <= count && count <= MOST_PIECES {
        Some(Generate { seed, count })
    } else {
        None
    }
}

/// The input that a value of `--generate` tells.
pub(crate) fn generate_in(word: &str) -> Option<Generate>
    ensures { result ≡ generate_in word.now }
{
    let (seed, count) = word.split_once(':')?;
    numbers_of(number_of(seed.as_bytes()), number_of(count.as_bytes()))
}
