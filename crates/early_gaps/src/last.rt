//! What is decided for the last gap.

ghost use Rattle.std.specs.Prelude.{◌≡◌, ◌≤◌, length};
ghost use Rattle.c_chars.specs.declared.TheConstants.{LIMIT};
ghost use Rattle.replacements.specs.Sound.{item_before};
ghost use Rattle.early_gaps.specs.BeforeRuns.{ends_in_backslash, last_decision};

use line_tokens::TokenId;
use replacements::{Decision, guard_of, has_new_line_at, is_behind_backslash};
use style_table::Style;
use token_arena::TokenArena;

/// Whether the last character of the item before a place is a backslash.
fn ends_in_backslash(arena: &TokenArena<'_, '_>, place: u32) -> bool
    requires { place ≤ length arena.now.tokens }
    ensures { result ≡ ends_in_backslash (item_before arena.now.tokens place) }
{
    if place == 0 {
        return false;
    }
    is_behind_backslash(guard_of(&arena.get(TokenId(place - 1))))
}

/// What stands after the last item.
pub(crate) fn last_decision(style: &Style, arena: &TokenArena<'_, '_>) -> Decision
    requires { length arena.now.text ≤ LIMIT }
    ensures { result ≡ last_decision style.now arena.now }
{
    let line_end = Decision::Lines {
        count: 1,
        column: 0,
        level: 0,
    };
    let place = arena.len();
    if has_new_line_at(arena, place) {
        line_end
    } else if ends_in_backslash(arena, place) {
        Decision::Old
    } else if style.insert_newline_at_eof && !(place == 0) {
        line_end
    } else {
        Decision::Spaces(0)
    }
}
