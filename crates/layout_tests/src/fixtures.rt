//! Named styles, long texts, items, views and plans of texts, what the lower layers tell of a view, and what is written
//! of a plan.

ghost use Rattle.std.specs.Prelude.{◌≡◌, ◌+◌, ◌<◌, length, IfOk};
ghost use Rattle.item_classes.specs.Items.{TellItems};
ghost use Rattle.item_classes.specs.Viewed.{AreWithin, classes_of};
ghost use Rattle.style_table.specs.Range.{IsInRange};
ghost use Rattle.line_tokens.specs.Lines.{CutPlaces};

use crate::comparing::{holds, same};
use annotator::roles_of_classes;
use bumpalo::Bump;
use bumpalo::collections::into_bump_slice;
use item_classes::{classes_among, item_classes};
use line_tokens::{NoMemory, ULine};
use memory_ports::MemSink;
use replacements::{Plan, write_out};
use std::alloc::Global;
use std::process::Abort;
use style_table::Style;
use token_arena::{Dialect, Section, Stretch, TokenArena, View, build};
use token_classes::{TokenClass, bracket_facts};
use unwrapped_lines::lines_of_classes;
use view_tokens::ViewTokens;

/// The style of this name.
pub fn style(rt: &impl Abort, name: &str) -> Style
    ensures { IsInRange result }
{
    Style::named(name).expect(rt, "a style")
}

/// A text that begins so, goes on with so many times a piece, and ends so.
pub fn repeated(
    rt: &impl Abort,
    alloc: Global,
    head: &str,
    piece: &str,
    count: usize,
    tail: &str,
) -> String {
    let middle = piece.repeat(alloc, count).expect(rt, head);
    [head, middle.as_str(), tail].concat(alloc).expect(rt, head)
}

/// This mark for each gap that is told so, and a point for each other.
pub fn marks_of<'r>(rt: &impl Abort, told: &[bool], mark: u8, run: &'r Bump) -> &'r [u8] {
    let mut marks = Vec::new(run);
    for is_so in told {
        let here = if *is_so { mark } else { b'.' };
        marks.push(here).expect(rt, "marks");
    }
    into_bump_slice(marks)
}

/// The items of a text.
pub fn items<'t>(rt: &impl Abort, text: &'t [u8], run: &'t Bump) -> TokenArena<'t, 't> {
    build(run, text, Dialect::C11).expect(rt, "the items of a text")
}

/// The three items of a text.
pub fn three_items<'t>(rt: &impl Abort, run: &'t Bump) -> TokenArena<'t, 't>
    ensures { length result.tokens ≡ 3 }
{
    let arena = items(rt, b"a b c", run);
    holds(rt, "three items", arena.len() == 3);
    arena
}

/// A plan for a text, in which nothing is decided. A level takes two columns.
pub fn open_plan<'r>(rt: &impl Abort, arena: &TokenArena<'_, '_>, run: &'r Bump) -> Plan<'r>
    ensures { length result ≡ length arena.now.tokens + 1 }
{
    Plan::make(&style(rt, "LLVM"), arena, run).expect(rt, "a plan")
}

/// The view of a text's items, but for those of a directive where its first and its end are told.
pub fn view_of<'r>(
    rt: &impl Abort,
    arena: &TokenArena<'_, '_>,
    directive: Option<(u32, u32)>,
    run: &'r Bump,
) -> View<'r>
    ensures { AreWithin arena.now result }
{
    match directive {
        None => View::of(0, arena.len(), run).expect(rt, "a view"),
        Some((first, end)) => {
            holds(rt, "items before a directive", 0 < first);
            holds(rt, "a directive", first < end);
            holds(rt, "items behind it", end < arena.len());
            items_around(arena, first, end, run).expect(rt, "a view")
        }
    }
}

/// The view of the items before a directive and of those behind it; its items are those from `first` up to `end`.
fn items_around<'r>(
    arena: &TokenArena<'_, '_>,
    first: u32,
    end: u32,
    run: &'r Bump,
) -> Result<View<'r>, NoMemory>
    requires before { 0 < first }
    requires some { first < end }
    requires behind { end < length arena.now.tokens }
    ensures { IfOk result (AreWithin arena.now) }
{
    let count = arena.len();
    let stretches = [
        Stretch {
            first: 0,
            end: first,
        },
        Stretch {
            first: end,
            end: count,
        },
    ];
    let view = View::of_stretches(&stretches, run)?;
    Ok(view)
}

/// How many of these hold.
pub fn count_of(flags: &[bool]) -> u32 {
    let mut count: u32 = 0;
    for flag in flags {
        if *flag {
            count = count.saturating_add(1);
        }
    }
    count
}

/// What the lower layers tell of a view.
#[derive(Drop)]
pub struct Told<'r> {
    /// The classes of its places.
    pub classes: &'r [TokenClass],
    /// Its lines.
    pub lines: &'r [ULine],
    /// Its tokens.
    pub tokens: ViewTokens<'r>,
}

/// The classes, the lines and the tokens of a view.
pub fn read_view<'r>(
    rt: &impl Abort,
    style: &Style,
    arena: &'r TokenArena<'r, 'r>,
    view: &'r View<'r>,
    run: &'r Bump,
) -> Told<'r>
    requires { AreWithin arena.now view.now }
    ensures classes { result.classes.now ≡ classes_of arena.now view.now }
    ensures cut { CutPlaces 0 (length view.now) result.lines.now }
    ensures count { length result.tokens ≡ length view.now }
    ensures items { TellItems arena.now view.now result.tokens }
{
    let all = item_classes(arena, run).expect(rt, "the items' classes");
    let classes = classes_among(all, arena, view, run).expect(rt, "classes");
    let partners = bracket_facts(classes, run).expect(rt, "partners").partners;
    let lines = lines_of_classes(style, arena, view, classes, partners, run).expect(rt, "lines");
    let tokens = roles_of_classes(arena, view, classes, partners, lines, run).expect(rt, "tokens");
    Told {
        classes,
        lines,
        tokens,
    }
}

/// What a sink takes of a text, whose calls with these numbers fail.
#[derive(Clone, Copy)]
pub struct Output {
    /// Whether lines end in `\r\n`.
    pub crlf: bool,
    /// The numbers of the calls that fail.
    pub failing: &'static [u64],
    /// What the sink takes.
    pub text: &'static [u8],
    /// Whether it takes all.
    pub done: bool,
}

/// A sink takes all of an empty text.
pub const WHOLE: Output = Output {
    crlf: false,
    failing: &[],
    text: b"",
    done: true,
};

/// This is written of the plan of the case of this name.
pub fn is_written(
    rt: &impl Abort,
    alloc: Global,
    name: &str,
    style: &Style,
    arena: &TokenArena<'_, '_>,
    sections: &[Section],
    plan: &Plan<'_>,
    output: &Output,
)
    requires range { IsInRange style.now }
    requires whole { length plan.now ≡ length arena.now.tokens + 1 }
{
    let failing = output.failing.to_vec(alloc).expect(rt, "memory");
    let mut sink = MemSink::new(alloc, failing);
    let done = write_out(style, output.crlf, arena, sections, plan, &mut sink).is_ok();
    same(rt, name, (sink.taken(), done), (output.text, output.done));
}
