//! Lines that are past their budget, told before any of their tokens is made: millions take much memory.

ghost use Rattle.std.specs.Prelude.{◌≡◌, ◌<◌, ◌≤◌, IfSome, length};
ghost use Rattle.line_state.specs.Line.{Line};
ghost use Rattle.break_search.specs.Outcome.{IsOver};
ghost use Rattle.run_layout.specs.Broken.{of_line};

use crate::row::open_behind;
use break_search::is_too_long;
use line_gaps::ViewLayout;
use line_tokens::ULine;
use view_tokens::RowTokens;

/// The cells of lines of more tokens than this are counted before their tokens are made.
const MANY: usize = 1000;

/// The cells of the first tokens of a line, up to the one with which they are past its budget, if they ever are. They
/// are the same in each breaking, since the same frames are open behind a token.
#[inline(never)]
fn row_cells_past(tokens: &RowTokens<'_>, budget: u64) -> Option<u64>
    requires budget { budget ≤ 16000000 }
    ensures { IfSome result (λ cells. (l : Line) → l.tokens ≡ tokens.now → IsOver l budget cells) }
{
    let mut frames = 0;
    let mut cells = 0;
    for at in 0..tokens.len() {
        frames = open_behind(frames, tokens.role(at), tokens.depth(at));
        cells += frames + 1;
        if cells > budget {
            return Some(cells);
        }
    }
    None
}

/// A number of cells by which a line is past its budget, if that is told. Without a limit of columns there is no
/// budget. `segment` is the number of the view's segment that was looked into last.
#[inline(always)]
pub(crate) fn line_cells_past(
    layout: &ViewLayout<'_>,
    line: &ULine,
    segment: &mut usize,
) -> Option<u64>
    requires budget { layout.now.budget ≤ 16000000 }
    requires some { line.now.first ≤ line.now.last }
    requires within { line.now.last < length layout.now.tokens.now }
    ensures limit { IfSome result (λ cells. 0 < layout.now.style.now.column_limit) }
    ensures over { IfSome result (λ cells. (l : Line) → l.tokens ≡ of_line line.now layout.now.tokens.now →
        IsOver l layout.now.budget cells) }
{
    if layout.style.column_limit == 0 {
        return None;
    }
    let first = line.first as usize;
    let end = line.last as usize + 1;
    let count = end - first;
    if is_too_long(count, layout.budget) {
        return Some(count as u64);
    }
    if count <= MANY {
        return None;
    }
    let Some(row) = layout.tokens.row(first, end, segment) else {
        return None;
    };
    row_cells_past(&row, layout.budget)
}
