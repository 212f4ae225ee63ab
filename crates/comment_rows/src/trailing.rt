//! Where the trailing comments of a view are, told by the roles of its tokens alone.

ghost use Rattle.std.specs.Prelude.{◌≡◌, ◌+◌, ◌<◌, ◌≤◌, IsTrue, ℕ, false, get_or, length, true};
ghost use Rattle.line_tokens.specs.Roles.{is_trailing};
ghost use Rattle.line_tokens.specs.declared.LineTok.{LineTok};

use view_tokens::ViewTokens;

/// Whether none of eight tokens from a place on is a trailing comment.
#[inline(always)]
fn are_eight_others(tokens: &ViewTokens<'_>, first: usize) -> bool
    requires { first + 8 ≤ length tokens.now }
    ensures { IsTrue result → (i : ℕ) (d : LineTok) → first ≤ i → i < first + 8 →
        is_trailing (get_or tokens.now i d).role ≡ false }
{
    // How many there are fits, and so each place.
    let _count = tokens.len();
    for next in 0..8 {
        if tokens.role(first + next).is_trailing() {
            return false;
        }
    }
    true
}

/// A place up to which no token from another place on is a trailing comment. They are looked at by eights, since that
/// many take fewer steps at once than one by one.
#[inline(always)]
fn others_end(tokens: &ViewTokens<'_>, from: usize) -> usize
    requires { from ≤ length tokens.now }
    ensures later { from ≤ result }
    ensures within { result ≤ length tokens.now }
    ensures others { (i : ℕ) (d : LineTok) → from ≤ i → i < result → is_trailing (get_or tokens.now i d).role ≡ false }
{
    let mut first = from;
    while tokens.len() - first >= 8 {
        if !are_eight_others(tokens, first) {
            return first;
        }
        first += 8;
    }
    first
}

/// The place of the first trailing comment from a place on, or behind the last token.
#[inline(never)]
pub(crate) fn next_trailing(tokens: &ViewTokens<'_>, from: usize) -> usize
    requires { from ≤ length tokens.now }
    ensures later { from ≤ result }
    ensures within { result ≤ length tokens.now }
    ensures others { (i : ℕ) (d : LineTok) → from ≤ i → i < result → is_trailing (get_or tokens.now i d).role ≡ false }
    ensures found { result < length tokens.now → (d : LineTok) → is_trailing (get_or tokens.now result d).role ≡ true }
{
    for at in others_end(tokens, from)..tokens.len() {
        if tokens.role(at).is_trailing() {
            return at;
        }
    }
    tokens.len()
}
