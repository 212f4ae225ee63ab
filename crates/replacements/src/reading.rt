//! New-lines in the gaps of a text.

ghost use Rattle.std.specs.Prelude.{◌≡◌, ◌≤◌, length};
ghost use Rattle.std.specs.List.{list_any};
ghost use Rattle.c_chars.specs.declared.TheConstants.{LIMIT};
ghost use Rattle.c_grammar.specs.Grammar.{is_new_line};
ghost use Rattle.c_grammar.specs.Rewritten.{read_alone};
ghost use Rattle.replacements.specs.Breaks.{has_new_line_at};

use c_chars::{Chars, Dialect};
use line_tokens::TokenId;
use token_arena::TokenArena;

/// Whether there is a new-line among the characters that bytes are read as.
fn has_new_line(dialect: Dialect, gap: &[u8]) -> bool
    requires { length gap.now ≤ LIMIT }
    ensures { result ≡ list_any is_new_line (read_alone dialect gap.now) }
{
    let mut chars = Chars::new(gap, dialect);
    while let Some(character) = chars.next() {
        if character.byte == b'\n' {
            return true;
        }
    }
    false
}

/// Whether a text's gap at a place has a new-line.
pub fn has_new_line_at(arena: &TokenArena<'_, '_>, place: u32) -> bool
    requires fits { length arena.now.text ≤ LIMIT }
    requires within { place ≤ length arena.now.tokens }
    ensures { result ≡ has_new_line_at arena.now place }
{
    if place < arena.len() {
        arena.get(TokenId(place)).gap.lines > 0
    } else {
        has_new_line(arena.dialect(), arena.gap(place))
    }
}
