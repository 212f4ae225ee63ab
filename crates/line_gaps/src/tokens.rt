//! Tokens of a line by their places.

ghost use Rattle.std.specs.Prelude.{◌≡◌, ◌<◌, Some, length, slice_get};

use line_tokens::LineTok;

/// The token at a place.
#[inline(always)]
pub fn token_at(tokens: &[LineTok], at: usize) -> &LineTok
    requires { at < length tokens.now }
    ensures { slice_get tokens.now at ≡ Some result.now }
{
    &tokens[at]
}
