//! Where the tokens of a line start, by given choices.

ghost use Rattle.std.specs.Prelude.{◌≡◌, ◌-◌, ◌<◌, ◌∷◌, ◌++◌, [], length, IfOk, OnOk, slice_index_or, slice_set};
ghost use Rattle.std.specs.Prelude.{if◌then◌else◌};
ghost use Rattle.layout_tables.specs.Spaces.{spaces_before};
ghost use Rattle.line_state.specs.Brackets.{opens_frame};
ghost use Rattle.line_state.specs.Layout.{Layout, gap_before, layout_after, start_of};
ghost use Rattle.line_state.specs.Line.{first_layout};
ghost use Rattle.line_tokens.specs.Columns.{columns};
ghost use Rattle.line_walk.specs.Indents.{TellStarts, is_aligned, next_start, row_start};
ghost use Rattle.searched_line.specs.Searched.{IsSearchable, line_of};

use line_state::{NoMemory, opens_frame};
use line_tokens::{Fixed, LineTok, Role, stored_or};
use searched_line::{decision_of, token_at};
use std::alloc::Global;
use style_table::{AlignAfterOpenBracket, Style};

/// What tells where a line's next token starts, behind some of its tokens. Of the frame of a bracket no more is kept
/// than the column at which rows begin inside it, on which the brackets inside it stand too.
#[derive(Drop)]
pub struct TokenStarts {
    /// The column behind the last token.
    column: u32,
    /// Where the line starts.
    line: u32,
    /// Where rows begin inside the brackets that are open, and those that the last token closed, the innermost last.
    indents: Vec<u32>,
}

/// The column of the innermost bracket, or of what stands outside all of them.
#[inline(always)]
fn innermost(indents: &[u32], outside: u32) -> u32
    ensures { result ≡ slice_index_or indents.now (length indents.now - 1) outside }
{
    match indents.last() {
        Some(indent) => *indent,
        None => outside,
    }
}

/// The column of the bracket around the innermost one, or of what stands outside all of them.
#[inline(always)]
fn around_innermost(indents: &[u32], outside: u32) -> u32
    ensures { result ≡ slice_index_or (outside ∷ indents.now) (length indents.now - 1) outside }
{
    let len = indents.len();
    if len < 2 { outside } else { indents[len - 2] }
}

/// Where a token begins a row, by the columns of the brackets that are open before it.
#[inline(always)]
fn row_start(style: &Style, line: u32, indents: &[u32], role: Role) -> u32
    ensures { result ≡ row_start style.now line indents.now role }
{
    match role {
        Role::DeclName => line,
        Role::ListClose => around_innermost(indents, line),
        _ => {
            let outside = line.saturating_add(style.continuation_indent_width);
            innermost(indents, outside)
        }
    }
}

/// Puts the column in place of the innermost bracket's.
#[inline(always)]
fn set_innermost(indents: &mut Vec<u32>, column: u32)
    ensures { indents.new.items ≡ slice_set indents.old.items (length indents.old.items - 1) column }
{
    let len = indents.len();
    if len > 0 {
        indents[len - 1] = column;
    }
}

/// The innermost bracket's rows begin where the token behind it starts, if that stays beside it.
#[inline(always)]
fn align(indents: &mut Vec<u32>, aligned: bool, start: u32)
    ensures { indents.new.items
        ≡ (if aligned then slice_set indents.old.items (length indents.old.items - 1) start else indents.old.items) }
{
    if aligned {
        set_innermost(indents, start);
    }
}

/// Adds the column of a bracket, if the token is one.
#[inline(always)]
fn open(style: &Style, line: u32, indents: &mut Vec<u32>, role: Role) -> Result<(), NoMemory>
    ensures { OnOk result (indents.new.items
        ≡ (if opens_frame role then indents.old.items
        ++ columns (slice_index_or indents.old.items (length indents.old.items - 1) line)
        style.now.continuation_indent_width ∷ [] else indents.old.items)) }
{
    if opens_frame(role) {
        let around = innermost(indents.as_slice(), line);
        indents.push(around.saturating_add(style.continuation_indent_width))?;
    }
    Ok(())
}

/// Whether the token before opened the innermost bracket, and rows inside that begin where the token behind it starts.
#[inline(always)]
fn is_aligned(style: &Style, indents: &[u32], left: &LineTok, right: &LineTok, brk: bool) -> bool
    ensures { result ≡ is_aligned style.now (length indents.now) left.now right.now brk }
{
    if !opens_frame(left.role) || indents.len() > right.depth as usize {
        return false;
    }
    let apart = brk
        || matches!(
            style.align_after_open_bracket,
            AlignAfterOpenBracket::DontAlign
        );
    !apart
}

impl TokenStarts {
    /// Behind a line's first token.
    ///
    /// # Errors
    ///
    /// `NoMemory` where memory ran out.
    pub fn behind_first(
        alloc: Global,
        style: &Style,
        line: &[LineTok],
        column: u32,
        fixed: &[Option<Fixed>],
    ) -> Result<TokenStarts, NoMemory>
        requires { IsSearchable (line_of style.now column line.now fixed.now) }
        ensures { IfOk result (λ starts.
            TellStarts style.now starts (first_layout (line_of style.now column line.now fixed.now))) }
    {
        let token = token_at(line, 0);
        let start = stored_or(decision_of(fixed, 0), column);
        let mut indents = Vec::new(alloc);
        open(style, column, &mut indents, token.role)?;
        Ok(TokenStarts {
            column: token.end_of(start),
            line: column,
            indents,
        })
    }

    /// Where the next token starts, once the closed brackets are taken off.
    #[inline(always)]
    fn start(&self, style: &Style, role: Role, fixed: Option<Fixed>, spaces: u8, brk: bool) -> u32
        ensures { result
            ≡ next_start style.now self.now.line self.now.indents.items self.now.column role fixed spaces brk }
    {
        match fixed {
            Some(fixed) => fixed.column,
            None => {
                if brk {
                    row_start(style, self.line, self.indents.as_slice(), role)
                } else {
                    self.column.saturating_add(u32::from(spaces))
                }
            }
        }
    }

    /// Takes a choice at the gap before the next token, which isn't the line's first one, and tells where it starts.
    /// The table was asked of the blanks in the gap.
    ///
    /// # Errors
    ///
    /// `NoMemory` where memory ran out.
    #[inline(always)]
    pub fn next(
        &mut self,
        style: &Style,
        left: &LineTok,
        right: &LineTok,
        fixed: Option<Fixed>,
        spaces: u8,
        brk: bool,
    ) -> Result<u32, NoMemory>
        requires { spaces ≡ spaces_before style.now left.now right.now }
        ensures start { IfOk result (λ start. (layout : Layout) → 0 < layout.index →
            TellStarts style.now self.old layout →
            start ≡ start_of style.now layout (gap_before layout left.now right.now fixed) brk) }
        ensures next { OnOk result ((layout : Layout) → 0 < layout.index → TellStarts style.now self.old layout →
            TellStarts style.now self.new
            (layout_after style.now layout (gap_before layout left.now right.now fixed) brk)) }
    {
        let aligned = is_aligned(style, self.indents.as_slice(), left, right, brk);
        self.indents.truncate(right.depth as usize);
        let start = self.start(style, right.role, fixed, spaces, brk);
        align(&mut self.indents, aligned, start);
        open(style, self.line, &mut self.indents, right.role)?;
        self.column = right.end_of(start);
        Ok(start)
    }
}
