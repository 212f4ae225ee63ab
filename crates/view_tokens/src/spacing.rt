//! The blanks between two tokens of a view, by the table of the layout. Neither token is made for it.

ghost use Rattle.std.specs.Prelude.{◌≡◌, ◌-◌, ◌<◌, true, length, get_or};
ghost use Rattle.style_table.specs.Range.{IsInRange};
ghost use Rattle.line_tokens.specs.Tokens.{no_token};
ghost use Rattle.layout_tables.specs.Spaces.{spaces_before};

use crate::row::RowTokens;
use layout_tables::spaces_before;
use line_tokens::{GapFacts, LineTok, TokenId};
use style_table::Style;

/// A token of a row as the table of blanks sees it, where it may stand directly behind the one before it.
#[inline(always)]
fn seen_by_table(tokens: &RowTokens<'_>, at: usize) -> LineTok
    requires { at < length tokens.now }
    ensures role { result.role ≡ (get_or tokens.now at no_token).role }
    ensures kind { result.kind ≡ (get_or tokens.now at no_token).kind }
    ensures empty { result.gap.empty ≡ (get_or tokens.now at no_token).gap.empty }
    ensures touch { result.touch ≡ true }
{
    LineTok {
        id: TokenId(0),
        role: tokens.role(at),
        power: 0,
        depth: 0,
        trailing_list: false,
        held: false,
        touch: true,
        directive: false,
        gap: GapFacts {
            lines: 0,
            empty: tokens.is_behind_nothing(at),
            white: false,
            splice: false,
            began: false,
        },
        kind: tokens.kind(at),
        rows: 1,
        first_width: 0,
        last_width: 0,
    }
}

/// The blanks between the token at a place of a row and the one before it, as [`spaces_before`] tells them.
///
/// Whether the two may touch is asked only where the table tells no blank in a gap with bytes.
#[inline(never)]
pub fn spaces_behind(style: &Style, tokens: &RowTokens<'_>, at: usize) -> u8
    requires range { IsInRange style.now }
    requires some { 0 < at }
    requires within { at < length tokens.now }
    ensures { result ≡ spaces_before style.now (get_or tokens.now (at - 1) no_token) (get_or tokens.now at no_token) }
{
    let left = seen_by_table(tokens, at - 1);
    let right = seen_by_table(tokens, at);
    let spaces = spaces_before(style, &left, &right);
    if spaces > 0 || right.gap.empty || tokens.touches(at) {
        spaces
    } else {
        1
    }
}
