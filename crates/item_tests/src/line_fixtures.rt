//! Long texts, views of texts, and what the lower layers tell of a text.

ghost use Rattle.std.specs.Prelude.{◌≡◌, length, IfOk};
ghost use Rattle.item_classes.specs.Viewed.{AreWithin, classes_of};
ghost use Rattle.line_tokens.specs.Lines.{CutPlaces};

use annotator::roles_of_classes;
use bumpalo::Bump;
use item_classes::{classes_among, item_classes};
use line_tokens::{LineTok, NoMemory, ULine};
use std::alloc::Global;
use std::process::Abort;
use style_table::Style;
use token_arena::{Dialect, TokenArena, View, build};
use token_classes::{Partner, TokenClass, bracket_facts};
use unwrapped_lines::lines_of_classes;

/// These pieces in order, each so many times.
pub fn repeated(rt: &impl Abort, alloc: Global, pieces: &[(&str, usize)]) -> String {
    let mut text = String::new(alloc);
    for (piece, times) in pieces {
        for _time in 0..*times {
            text.push_str(piece).expect(rt, "a long text");
        }
    }
    text
}

/// The view of a text's items from one on.
pub fn items_from<'r>(
    arena: &TokenArena<'_, '_>,
    first: u32,
    run: &'r Bump,
) -> Result<View<'r>, NoMemory>
    ensures { IfOk result (AreWithin arena.now) }
{
    View::of(first, arena.len(), run)
}

/// What is told of the places of a view.
#[derive(Clone, Copy)]
pub struct Places<'r> {
    /// The classes of its tokens.
    pub classes: &'r [TokenClass],
    /// The partners of its brackets.
    pub partners: &'r [Partner],
}

/// What is told of the places of a view of the text of the case of this name.
pub fn places_of<'r>(
    rt: &impl Abort,
    run: &'r Bump,
    name: &str,
    arena: &TokenArena<'_, '_>,
    view: &View<'_>,
) -> Places<'r>
    requires { AreWithin arena.now view.now }
    ensures { result.classes.now ≡ classes_of arena.now view.now }
{
    let all = item_classes(arena, run).expect(rt, name);
    let classes = classes_among(all, arena, view, run).expect(rt, name);
    let facts = bracket_facts(classes, run).expect(rt, name);
    Places {
        classes,
        partners: facts.partners,
    }
}

/// The tokens of a view of the text of the case of this name, which these lines cut.
pub fn tokens_of<'r>(
    rt: &impl Abort,
    run: &'r Bump,
    name: &str,
    arena: &TokenArena<'_, '_>,
    view: &View<'_>,
    lines: &[ULine],
) -> &'r [LineTok]
    requires within { AreWithin arena.now view.now }
    requires cut { CutPlaces 0 (length view.now) lines.now }
{
    let Places { classes, partners } = places_of(rt, run, name, arena, view);
    let tokens = roles_of_classes(arena, view, classes, partners, lines, run).expect(rt, name);
    tokens.between(0, tokens.len(), run).expect(rt, name)
}

/// What the lower layers tell of a text.
#[derive(Drop)]
pub struct Told<'r, 's> {
    /// Its items.
    pub arena: TokenArena<'r, 's>,
    /// Its lines.
    pub lines: &'r [ULine],
    /// Its tokens.
    pub tokens: &'r [LineTok],
}

/// What they tell of the text of the case of this name, in a style.
pub fn read_text<'r, 's>(
    rt: &impl Abort,
    run: &'r Bump,
    name: &str,
    style: &str,
    text: &'s str,
) -> Told<'r, 's> {
    let style = Style::named(style).expect(rt, name);
    let arena = build(run, text.as_bytes(), Dialect::C11).expect(rt, name);
    let view = items_from(&arena, 0, run).expect(rt, name);
    let Places { classes, partners } = places_of(rt, run, name, &arena, &view);
    let lines = lines_of_classes(&style, &arena, &view, classes, partners, run).expect(rt, name);
    let tokens = tokens_of(rt, run, name, &arena, &view, lines);
    Told {
        arena,
        lines,
        tokens,
    }
}
