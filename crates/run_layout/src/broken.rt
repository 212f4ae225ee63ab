//! Lines that are broken.

ghost use Rattle.std.specs.Prelude.{◌≡◌, ◌||◌, ◌+◌, ◌<◌, ◌^◌, All, None, OnOk, length, map, if◌then◌else◌};
ghost use Rattle.style_table.specs.Range.{IsInRange};
ghost use Rattle.line_state.specs.Layout.{is_some_decision};
ghost use Rattle.line_state.specs.Line.{first_layout};
ghost use Rattle.searched_line.specs.Searched.{IsSearchable, line_of};
ghost use Rattle.layout_tables.specs.Spaces.{spaces_before};
ghost use Rattle.line_walk.specs.Starts.{IsAdmissible};
ghost use Rattle.layout_tables.specs.Indents.{start_column};
ghost use Rattle.layout_tables.specs.Told.{TellBlanks};
ghost use Rattle.replacements.specs.Decisions.{decided, decided_all};
ghost use Rattle.replacements.specs.declared.gap_text.Decision.TheVariants.{Lines};
ghost use Rattle.line_tokens.specs.declared.LineTok.{LineTok};
ghost use Rattle.run_layout.specs.Broken.{broken_made, decision_by, empty_inside, inside_made, number, waits};
ghost use Rattle.run_layout.specs.Ready.{IsOpenLine, IsReady};

use layout_tables::{RowBlanks, empty_lines, start_column};
use line_gaps::{ViewLayout, decide_first, token_at};
use line_tokens::{Fixed, LineTok, NoMemory, ULine};
use line_walk::TokenStarts;
use replacements::{Decision, Plan};
use std::alloc::Global;
use style_table::Style;

/// The empty lines before a further row of a line: only behind a directive are there any.
fn empty_inside(style: &Style, line: &ULine, token: &LineTok) -> u32
    requires { IsInRange style.now }
    ensures is { result ≡ empty_inside style.now line.now token.now }
    ensures fits { result + 1 < 2 ^ 32 }
{
    if token.directive {
        empty_lines(style, None, line, token)
    } else {
        0
    }
}

/// What stands before a token that begins a further row of a line at a column.
#[inline(always)]
fn further_row(style: &Style, line: &ULine, token: &LineTok, start: u32) -> Decision
    requires range { IsInRange style.now }
    ensures { result ≡ Lines (1 + empty_inside style.now line.now token.now) start line.now.level }
{
    Decision::Lines {
        count: 1 + empty_inside(style, line, token),
        column: start,
        level: line.level,
    }
}

/// Decides the gap before a token inside a line, which starts at a column, if it isn't decided: it breaks, or stays
/// behind so many blanks. A trailing comment that stays on its row waits until the rows of its view are known.
#[inline(always)]
fn decide_open(
    style: &Style,
    line: &ULine,
    fixed: Option<Fixed>,
    token: &LineTok,
    spaces: u8,
    brk: bool,
    start: u32,
    plan: &mut Plan<'_>,
)
    requires range { IsInRange style.now }
    requires within { token.now.id.0 < length plan.old }
    ensures plan { (left : LineTok) → spaces ≡ spaces_before style.now left token.now →
        plan.new
        ≡ (if is_some_decision fixed || waits token.now brk then plan.old
        else decided plan.old token.now.id.0
        (record { decision = decision_by style.now line.now left token.now brk start; end = start })) }
    ensures len { length plan.new ≡ length plan.old }
{
    if fixed.is_some() {
        return;
    }
    if brk {
        let _ = plan.decide(token.id.0, further_row(style, line, token, start), start);
    } else if !token.role.is_trailing() {
        let _ = plan.decide(token.id.0, Decision::Spaces(u32::from(spaces)), start);
    }
}

/// Decides the open gaps inside a line that starts at a column, by admissible choices.
fn write_breaks(
    alloc: Global,
    style: &Style,
    blanks: &RowBlanks,
    line: &ULine,
    tokens: &[LineTok],
    column: u32,
    fixed: &[Option<Fixed>],
    breaks: &[bool],
    plan: &mut Plan<'_>,
) -> Result<(), NoMemory>
    requires tell { TellBlanks style.now blanks.now.of_group }
    requires line { IsSearchable (line_of style.now column tokens.now fixed.now) }
    requires admissible { IsAdmissible (line_of style.now column tokens.now fixed.now) breaks.now }
    requires within { All (λ token. token.id.0 < length plan.old) tokens.now }
    ensures plan { OnOk result (plan.new
        ≡ decided_all plan.old (inside_made line.now (map number tokens.now)
        (line_of style.now column tokens.now fixed.now)
        (first_layout (line_of style.now column tokens.now fixed.now)) breaks.now)) }
    ensures len { length plan.new ≡ length plan.old }
{
    let mut starts = TokenStarts::behind_first(alloc, style, tokens, column, fixed)?;
    for at in 0..breaks.len() {
        let left = token_at(tokens, at);
        let right = token_at(tokens, at + 1);
        let spaces = blanks.before(style, left, right);
        let (decision, brk) = (fixed[at + 1], breaks[at]);
        let start = starts.next(style, left, right, decision, spaces, brk)?;
        decide_open(style, line, decision, right, spaces, brk, start, plan);
    }
    Ok(())
}

/// A line of a view that has an open gap.
#[derive(Clone, Copy)]
pub(crate) struct OpenLine<'l> {
    /// The line.
    pub line: &'l ULine,
    /// Its tokens.
    pub tokens: &'l [LineTok],
    /// What is decided of the gaps before them.
    pub fixed: &'l [Option<Fixed>],
}

/// Decides the open gaps of a line, by admissible choices.
pub(crate) fn write_broken(
    layout: &ViewLayout<'_>,
    open_line: &OpenLine<'_>,
    blanks: &RowBlanks,
    breaks: &[bool],
    plan: &mut Plan<'_>,
) -> Result<(), NoMemory>
    requires ready { IsReady layout.now }
    requires tell { TellBlanks layout.now.style.now blanks.now.of_group }
    requires line { IsOpenLine layout.now plan.old open_line.now }
    requires admissible { IsAdmissible
        (line_of layout.now.style.now (start_column layout.now.style.now open_line.now.line.now)
        open_line.now.tokens.now open_line.now.fixed.now) breaks.now }
    ensures plan { OnOk result (plan.new
        ≡ decided_all plan.old (broken_made layout.now.style.now layout.now.arena.now layout.now.view.now
        layout.now.tokens.now plan.old open_line.now.line.now breaks.now)) }
    ensures len { OnOk result (length plan.new ≡ length plan.old) }
{
    let style = layout.style;
    let line = open_line.line;
    let tokens = open_line.tokens;
    let fixed = open_line.fixed;
    let column = start_column(style, line);
    decide_first(layout, line, token_at(tokens, 0).id.0, plan);
    write_breaks(
        layout.alloc,
        style,
        blanks,
        line,
        tokens,
        column,
        fixed,
        breaks,
        plan,
    )?;
    Ok(())
}
