//! The level behind the last token.

ghost use Rattle.std.specs.Prelude.{◌≡◌, ◌<◌, ◌≤◌, ◌-◌, ◌*◌, ◌^◌, ◌∷◌, reverse, length, IfOk};
ghost use Rattle.statement_lines.specs.Forms.{StaysIn, form_of};
ghost use Rattle.statement_lines.specs.Tree.{end_level, level_of_list};
ghost use Rattle.statement_lines.specs.Colons.{AreCaseColons};
ghost use Rattle.statement_lines.specs.Stack.{LeadsToEnd};

use crate::braces::Braces;
use crate::form::{Form, Next};
use crate::forms::form_of;
use crate::open::{Open, Start};
use crate::token::CodeTokens;
use crate::tree::{Place, go_behind, push_open, whole_file};
use bumpalo::Bump;
use line_tokens::NoMemory;

/// Passes over a line, and over its block where that ends before the list around it.
fn skip_line(
    braces: &Braces,
    tokens: &CodeTokens<'_>,
    stack: &mut Vec<Open, &Bump>,
    opened: Open,
    place: Place,
    form: Form,
) -> Result<Place, NoMemory>
    requires few { length tokens.now < 2 ^ 30 }
    requires leads { LeadsToEnd braces.now tokens.now (opened ∷ reverse stack.old.items) place.start place.at }
    requires here { place.at < opened.end }
    requires form { form_of braces.now tokens.now opened place.start place.at ≡ form }
    requires stays { StaysIn place.at opened form form.next }
    requires level { form.level ≤ 2 * place.at }
    ensures leads { IfOk result (λ p. LeadsToEnd braces.now tokens.now (reverse stack.new.items) p.start p.at) }
    ensures up { IfOk result (λ p. length tokens.now - p.at < length tokens.now - place.at) }
{
    if let Next::Opens { block, .. } = form.next {
        if block.end < opened.end {
            push_open(stack, opened)?;
            return Ok(Place {
                start: Start::Closing(block),
                at: block.end as usize,
            });
        }
        stack.clear();
        push_open(stack, block)?;
        return Ok(Place {
            start: Start::Fresh,
            at: form.end + 1,
        });
    }
    push_open(stack, opened)?;
    go_behind(tokens, stack, opened, form)
}

/// The level of the list above which the headers of these wait, the innermost of which stands apart.
fn level_of_list(innermost: Open, below: &[Open]) -> u32
    ensures { result ≡ level_of_list (innermost ∷ reverse below.now) }
{
    if innermost.block {
        return innermost.level;
    }
    for depth in (0..below.len()).rev() {
        if below[depth].block {
            return below[depth].level;
        }
    }
    0
}

/// The level of the innermost list that is open behind the last token, where `colons` has the colons of its `case`s.
/// Want of memory is the only error.
pub fn end_level(
    braces: &Braces,
    tokens: &CodeTokens<'_>,
    colons: &[u32],
    run: &Bump,
) -> Result<u32, NoMemory>
    requires few { length tokens.now < 2 ^ 30 }
    requires colons { AreCaseColons colons.now tokens.now }
    ensures { IfOk result (λ level. level ≡ end_level braces.now tokens.now) }
{
    let mut stack = Vec::new(run);
    push_open(&mut stack, whole_file(tokens))?;
    let mut place = Place {
        start: Start::Fresh,
        at: 0,
    };
    while let Some(opened) = stack.pop() {
        if place.at >= opened.end as usize {
            return Ok(level_of_list(opened, &stack));
        }
        let form = form_of(braces, tokens, colons, opened, place.start, place.at);
        place = skip_line(braces, tokens, &mut stack, opened, place, form)?;
    }
    Ok(0)
}
