//! The cut of the items into texts and directives.

ghost use Rattle.std.specs.Prelude.{◌≡◌, ◌≤◌, ◌<◌, ◌+◌, ◌∷◌, IfOk, length, drop, option_map};
ghost use Rattle.std.specs.List.{slice_range};
ghost use Rattle.token_arena.specs.Sections.{lines_of, behind_hash, directive, sections_of, IsCut};

use crate::directives::names::{defines_function, first_code, is_hash, kind_behind};
use crate::{Directive, Section, TokenArena};
use bumpalo::Bump;
use bumpalo::collections::into_bump_slice;
use line_tokens::{NoMemory, TokenId};

/// The directive that these items of a line are; none exactly where they are text.
fn directive_in(arena: &TokenArena<'_, '_>, first: u32, end: u32) -> Option<Directive>
    requires order { first ≤ end }
    requires within { end ≤ length arena.now.tokens }
    ensures { result
        ≡ option_map (directive arena.now.dialect first end)
        (behind_hash arena.now.dialect (slice_range arena.now.tokens first end)) }
{
    let (hash, token) = first_code(arena, first, end)?;
    if !is_hash(&token, arena.dialect()) {
        return None;
    }
    Some(Directive {
        first,
        hash: TokenId(hash),
        end,
        kind: kind_behind(arena, hash + 1, end),
        function_like: defines_function(arena, hash + 1, end),
    })
}

/// The sections; text lines that follow one another are joined. Only lines are looked at that have what may be a `#`:
/// each is a directive with a text before it at most, and one text may stand behind them all.
fn cut_lines<'a>(arena: &TokenArena<'_, '_>, bump: &'a Bump) -> Result<&'a [Section], NoMemory>
    ensures { IfOk result (λ sections. sections.now ≡ sections_of arena.now) }
{
    let count = arena.len();
    let mut hashes = arena.hashes();
    let mut done = Vec::with_capacity(bump, hashes.len() * 2 + 1)?;
    let mut from = 0;
    let mut at = 0;
    while let [hash, behind @ ..] = hashes {
        if *hash < at {
            hashes = behind;
            continue;
        }
        let start = arena.line_start(at, *hash);
        at = arena.line_end(start);
        if let Some(directive) = directive_in(arena, start, at) {
            if from < start {
                done.push(Section::Text {
                    first: from,
                    end: start,
                })?;
            }
            done.push(Section::Dir(directive))?;
            from = at;
        }
    }
    if from < count {
        done.push(Section::Text {
            first: from,
            end: count,
        })?;
    }
    Ok(into_bump_slice(done))
}

/// The texts and directives of a text, in order. They cut its items; a text without items has none.
pub fn sections<'a>(arena: &TokenArena<'_, '_>, bump: &'a Bump) -> Result<&'a [Section], NoMemory>
    ensures sections { IfOk result (λ sections. sections.now ≡ sections_of arena.now) }
    ensures cut { IfOk result (λ sections. IsCut 0 (length arena.now.tokens) sections.now) }
{
    let sections = cut_lines(arena, bump)?;
    Ok(sections)
}
