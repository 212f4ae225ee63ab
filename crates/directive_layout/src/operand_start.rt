//! Where the operand of a directive begins.

ghost use Rattle.std.specs.Prelude.{◌≡◌, ◌≤◌, ◌<◌};
ghost use Rattle.std.specs.List.{Contains};
ghost use Rattle.token_arena.specs.Sections.{sections_of};
ghost use Rattle.token_arena.specs.declared.directives.Section.TheVariants.{Dir};
ghost use Rattle.directive_layout.specs.OperandStart.{operand_first};

use crate::part::{first_part, next_part};
use crate::walk::is_operand;
use line_tokens::TokenId;
use token_arena::{Directive, TokenArena};

/// The number of the first item of a directive's operand; of the first behind the directive where it has none.
///
/// The operand of a definition is the macro's body; that of another directive is all behind its name.
pub fn operand_first(arena: &TokenArena<'_, '_>, dir: &Directive) -> u32
    requires { Contains (sections_of arena.now) (Dir dir.now) }
    ensures is { result ≡ operand_first arena.now dir.now }
    ensures after { dir.now.first < result }
    ensures within { result ≤ dir.now.end }
{
    let Directive { first, end, .. } = *dir;
    let _count = arena.len();
    let dialect = arena.dialect();
    let mut left = arena.get(TokenId(first));
    let mut part = first_part(&left);
    for place in first + 1..end {
        let token = arena.get(TokenId(place));
        part = next_part(dialect, part, &left, &token);
        if is_operand(part) {
            return place;
        }
        left = token;
    }
    end
}
