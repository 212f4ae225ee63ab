//! The unwrapped lines of a view.

ghost use Rattle.std.specs.Prelude.{◌≡◌, ◌<◌, ◌≤◌, ◌^◌, List, [], length, map, IfOk};
ghost use Rattle.c_chars.specs.declared.TheConstants.{LIMIT};
ghost use Rattle.item_classes.specs.Viewed.{AreWithin, classes_of};
ghost use Rattle.line_tokens.specs.Lines.{CutPlaces};
ghost use Rattle.unwrapped_lines.specs.Lines.{tree_of, unwrapped_lines_of};
ghost use Rattle.statement_lines.specs.Colons.{AreCaseColons};
ghost use Rattle.unwrapped_lines.specs.Comments.{begins_from, no_marks};
ghost use Rattle.unwrapped_lines.specs.Inside.{lines_with, parts_with};
ghost use Rattle.statement_lines.specs.Stack.{IsCut};
ghost use Rattle.statement_lines.specs.Tree.{end_level, lines_of};
ghost use Rattle.unwrapped_lines.specs.Viewed.{code_places_from, parts_of};
ghost use Rattle.statement_lines.specs.declared.line.Line.{Line};

use crate::comments::comment_lines;
use crate::viewed::{ViewTokens, read_view, view_tokens};
use bumpalo::Bump;
use bumpalo::collections::into_bump_slice;
use line_tokens::{NoMemory, ULine};
use statement_lines::{Braces, CodeTokens, braces_of, case_colons, end_level, tree_lines};
use style_table::Style;
use token_arena::{TokenArena, View};
use token_classes::{Partner, TokenClass};

/// The level at a view's end, as far as the lines depend on it: where a token stands last, they don't.
#[inline(always)]
fn level_behind(
    braces: &Braces,
    arena: &TokenArena<'_, '_>,
    view: &View<'_>,
    classes: &[TokenClass],
    tokens: &CodeTokens<'_>,
    colons: &[u32],
    run: &Bump,
) -> Result<u32, NoMemory>
    requires few { length tokens.now < 2 ^ 30 }
    requires colons { AreCaseColons colons.now tokens.now }
    requires tokens { length tokens.now ≡ length (code_places_from 0 classes.now) }
    ensures { IfOk result (λ level.
        (lines : List Line) →
        begins_from (record { lines = lines; total = length tokens.now; end_level = level })
        (parts_of arena.now view.now classes.now) 0 no_marks
        ≡ begins_from
        (record { lines = lines; total = length tokens.now; end_level = end_level braces.now tokens.now })
        (parts_of arena.now view.now classes.now) 0 no_marks) }
{
    let count = classes.len();
    if count > 0 && !classes[count - 1].is_comment() {
        return Ok(0);
    }
    end_level(braces, tokens, colons, run)
}

/// The lines of a view that has these tokens and comments, put where none are yet.
#[inline(always)]
fn lines_of_read<'r>(
    braces: &Braces,
    arena: &TokenArena<'_, '_>,
    view: &View<'_>,
    classes: &[TokenClass],
    read: &ViewTokens<'_>,
    room: Vec<ULine, &'r Bump>,
    run: &'r Bump,
) -> Result<Vec<ULine, &'r Bump>, NoMemory>
    requires none { room.items ≡ [] }
    requires classes { classes.now ≡ classes_of arena.now view.now }
    requires few { length classes.now ≤ LIMIT }
    requires few_tokens { length read.now.tokens ≤ LIMIT }
    requires tokens { length read.now.tokens ≡ length (code_places_from 0 classes.now) }
    requires parts { parts_with (length classes.now) 0 read.now.comments.now
        ≡ parts_of arena.now view.now classes.now }
    ensures lines { IfOk result
        (λ lines. lines.items ≡ lines_with braces.now arena.now view.now classes.now read.now.tokens) }
    ensures tree { IfOk result
        (λ lines. IsCut 0 (length read.now.tokens) (lines_of braces.now read.now.tokens)) }
{
    let tokens = &read.tokens;
    let colons = case_colons(tokens, read.cases, run)?;
    let count = classes.len();
    let total = tokens.count();
    // Where there are no comments, the number of a token is its place.
    if total == count {
        let tree = tree_lines(braces, tokens, &colons, room, run)?;
        return Ok(tree.into_rows());
    }
    let rows = Vec::with_capacity(run, total)?;
    let tree = tree_lines(braces, tokens, &colons, rows, run)?;
    let level = level_behind(braces, arena, view, classes, tokens, &colons, run)?;
    comment_lines(&tree, total, level, read.comments, count, room)
}

/// The lines, and that those of the tokens that are no comments cut these.
fn read_lines<'r>(
    style: &Style,
    arena: &TokenArena<'_, '_>,
    view: &View<'_>,
    classes: &[TokenClass],
    partners: &[Partner],
    run: &'r Bump,
) -> Result<Vec<ULine, &'r Bump>, NoMemory>
    requires within { AreWithin arena.now view.now }
    requires classes { classes.now ≡ classes_of arena.now view.now }
    ensures lines { IfOk result (λ lines. lines.items ≡ unwrapped_lines_of style.now arena.now view.now partners.now) }
    ensures tree { IfOk result (λ lines.
        IsCut 0 (tree_of style.now arena.now view.now partners.now).total
        (tree_of style.now arena.now view.now partners.now).lines) }
{
    let count = view.len();
    let items = arena.len();
    prove!(count <= items);
    let braces = braces_of(style);
    // The lines stand first, and no more than there are places. So what is made behind them serves others later.
    let room = Vec::with_capacity(run, count as usize)?;
    let read = read_view(arena, view, classes, partners, run)?;
    let tokens = view_tokens(arena, view, classes, partners, &read);
    lines_of_read(&braces, arena, view, classes, &tokens, room, run)
}

/// The unwrapped lines of a view, whose tokens have these classes and whose brackets these partners.
///
/// `docs/PROFILE.md` says under "Statements and lines" which lines there are, and what their levels and kinds
/// are. The lines cut the view whole and in order. Want of memory is the only error.
pub fn lines_of_classes<'r>(
    style: &Style,
    arena: &TokenArena<'_, '_>,
    view: &View<'_>,
    classes: &[TokenClass],
    partners: &[Partner],
    run: &'r Bump,
) -> Result<&'r [ULine], NoMemory>
    requires within { AreWithin arena.now view.now }
    requires classes { classes.now ≡ classes_of arena.now view.now }
    ensures lines { IfOk result (λ lines. lines.now ≡ unwrapped_lines_of style.now arena.now view.now partners.now) }
    ensures cut { IfOk result (λ lines. CutPlaces 0 (length view.now) lines.now) }
{
    let lines = read_lines(style, arena, view, classes, partners, run)?;
    Ok(into_bump_slice(lines))
}
