//! The lines of a view, short ones joined, and its trailing comments.

ghost use Rattle.std.specs.Prelude.{◌≡◌, ◌+◌, ◌*◌, ◌^◌, ◌<◌, ◌≤◌, IfOk, OnOk, length};
ghost use Rattle.style_table.specs.Range.{IsInRange};
ghost use Rattle.item_classes.specs.Viewed.{AreWithin, classes_of};
ghost use Rattle.item_classes.specs.Items.{TellItems};
ghost use Rattle.line_tokens.specs.Lines.{CutPlaces};
ghost use Rattle.line_gaps.specs.Counted.{IsCounted};
ghost use Rattle.run_layout.specs.View.{IsViewLaid, joined_lines};

use crate::lines::lay_out_lines;
use crate::report::Tally;
use bumpalo::Bump;
use comment_rows::place_comments;
use line_gaps::{ViewLayout, fixed_of_view};
use line_joiner::{are_alone, join_of_classes};
use line_tokens::{NoMemory, ULine};
use replacements::Plan;

/// The lines of a view with short ones joined. What is decided of its gaps is told only where some line may be joined.
fn joined_lines<'r>(
    layout: &ViewLayout<'_>,
    lines: &'r [ULine],
    plan: &Plan<'_>,
    run: &'r Bump,
) -> Result<&'r [ULine], NoMemory>
    requires range { IsInRange layout.now.style.now }
    requires within { AreWithin layout.now.arena.now layout.now.view.now }
    requires classes { layout.now.classes.now ≡ classes_of layout.now.arena.now layout.now.view.now }
    requires count { length layout.now.tokens.now ≡ length layout.now.view.now }
    requires cut { CutPlaces 0 (length layout.now.tokens.now) lines.now }
    requires whole { length plan.now ≡ length layout.now.arena.now.tokens + 1 }
    ensures lines { IfOk result (λ rows.
        rows.now ≡ joined_lines layout.now.style.now layout.now.arena.now layout.now.view.now layout.now.tokens.now
        plan.now lines.now) }
    ensures cut { IfOk result (λ rows. CutPlaces 0 (length layout.now.tokens.now) rows.now) }
{
    let style = layout.style;
    if are_alone(style, layout.classes, lines, layout.tokens) {
        return Ok(lines);
    }
    let fixed = fixed_of_view(layout.arena, layout.view, plan, run)?;
    join_of_classes(style, layout.classes, lines, layout.tokens, fixed, run)
}

/// Lays out a view: joins its short lines, and decides the gap before each of its items where it is open, that before
/// trailing comments last. What came of the lines is noted. `lines` are the view's unwrapped lines.
pub fn lay_out_view(
    layout: &ViewLayout<'_>,
    number: u32,
    lines: &[ULine],
    plan: &mut Plan<'_>,
    tally: &mut Tally<'_>,
    run: &Bump,
) -> Result<(), NoMemory>
    requires range { IsInRange layout.now.style.now }
    requires budget { layout.now.budget ≤ 16000000 }
    requires within { AreWithin layout.now.arena.now layout.now.view.now }
    requires classes { layout.now.classes.now ≡ classes_of layout.now.arena.now layout.now.view.now }
    requires count { length layout.now.tokens.now ≡ length layout.now.view.now }
    requires tell { TellItems layout.now.arena.now layout.now.view.now layout.now.tokens.now }
    requires cut { CutPlaces 0 (length layout.now.view.now) lines.now }
    requires whole { length plan.old ≡ length layout.now.arena.now.tokens + 1 }
    requires room { tally.old.searched + length layout.now.view.now < 2 ^ 60 }
    requires cheap { tally.old.cost ≤ tally.old.searched * 18446744073709551615 }
    requires counted { IsCounted layout.now.arena.now tally.old.lines }
    ensures laid { OnOk result (IsViewLaid layout.now.style.now layout.now.budget layout.now.arena.now
        layout.now.view.now layout.now.tokens.now number plan.old lines.now plan.new tally.old tally.new) }
    ensures len { OnOk result (length plan.new ≡ length plan.old) }
    ensures room { OnOk result (tally.new.searched ≤ tally.old.searched + length layout.now.view.now) }
    ensures cheap { OnOk result (tally.new.cost ≤ tally.new.searched * 18446744073709551615) }
    ensures counted { OnOk result (IsCounted layout.now.arena.now tally.new.lines) }
{
    let style = layout.style;
    let tokens = layout.tokens;
    let rows = joined_lines(layout, lines, plan, run)?;
    lay_out_lines(layout, number, rows, plan, tally, run)?;
    place_comments(style, tokens, plan, run)
}
