//! The lines of tokens, as they are kept.

ghost use Rattle.std.specs.Prelude.{◌≡◌, ◌<◌, ◌≤◌, ◌∷◌, [], ◌++◌, length, map, slice_get, slice_index_or};
ghost use Rattle.std.specs.Prelude.{IfOk, OnOk};
ghost use Rattle.std.specs.Vec.{vec_len, vec_capacity};
ghost use Rattle.statement_lines.specs.Lines.{row_of, lines_told};

use crate::line::Line;
use bumpalo::Bump;
use line_tokens::{NoMemory, ULine};
use std::marker::Model;

/// Makes room for one item more. It is a call of its own, since it is seldom needed.
#[inline(never)]
fn make_room<T: Copy>(items: &mut Vec<T, &Bump>) -> Result<(), NoMemory>
    ensures items { items.new.items ≡ items.old.items }
    ensures room { OnOk result (vec_len items.new < vec_capacity items.new) }
{
    items.reserve(1)?;
    Ok(())
}

/// Sees that there is room for one item more.
#[inline(always)]
pub(crate) fn reserve_room<T: Copy>(items: &mut Vec<T, &Bump>) -> Result<(), NoMemory>
    ensures items { items.new.items ≡ items.old.items }
    ensures room { OnOk result (vec_len items.new < vec_capacity items.new) }
{
    if items.len() < items.capacity() {
        return Ok(());
    }
    make_room(items)
}

/// Keeps the level of a comment before each of these lines that has none kept, which is the line's own.
#[inline(never)]
fn keep_levels(levels: &mut Vec<u32, &Bump>, rows: &[ULine]) -> Result<(), NoMemory>
    requires { length levels.old.items ≤ length rows.now }
    ensures lines { lines_told rows.now levels.new.items ≡ lines_told rows.now levels.old.items }
    ensures some { length levels.new.items ≤ length rows.now }
    ensures all { OnOk result (length levels.new.items ≡ length rows.now) }
{
    let kept = levels.len();
    levels.reserve(rows.len() - kept)?;
    for number in kept..rows.len() {
        levels.push_reserved(rows[number].level);
    }
    Ok(())
}

/// The level of a comment before the line with this number and level.
#[inline(always)]
fn kept_level(levels: &[u32], number: usize, level: u32) -> u32
    ensures { result ≡ slice_index_or levels.now number level }
{
    if number < levels.len() {
        levels[number]
    } else {
        level
    }
}

/// Lines of tokens that are no comments. A contract sees a list of [`Line`].
///
/// They are kept as lines of a view, which they are where it has no comments. The levels of comments before them stand
/// apart, up to the last that isn't its line's own.
#[derive(Drop)]
pub struct Lines<'r> {
    levels: Vec<u32, &'r Bump>,
    rows: Vec<ULine, &'r Bump>,
}

impl<'r> Model for Lines<'r> {
    ghost use Rattle.std.specs.Prelude.{List};
    ghost use Rattle.statement_lines.specs.declared.line.Line.{Line};
    ghost use Rattle.statement_lines.specs.Lines.{AreKept, lines_told};

    ghost Value = { List Line };

    ghost view = { λ l. lines_told l.rows.items l.levels.items };

    ghost invariant = { λ l. AreKept l.rows.items l.levels.items };
}

impl<'r> Lines<'r> {
    /// None, to which lines are to be added that are kept here. The levels apart have no room before one is needed.
    pub(crate) fn within(rows: Vec<ULine, &'r Bump>, run: &'r Bump) -> Lines<'r>
        requires { rows.items ≡ [] }
        ensures { result ≡ [] }
    {
        Lines {
            levels: Vec::new(run),
            rows,
        }
    }

    /// Adds a line. Mostly there is room, and no call is made.
    #[inline(always)]
    pub(crate) fn push(&mut self, line: Line) -> Result<(), NoMemory>
        requires { 0 < line.end }
        ensures { IfOk result (λ u. self.new ≡ self.old ++ line ∷ []) }
    {
        reserve_room(&mut self.rows)?;
        if line.list_level != line.level {
            keep_levels(&mut self.levels, &self.rows)?;
            self.levels.push(line.list_level)?;
        }
        self.rows.push_reserved(ULine {
            first: line.first,
            last: line.end - 1,
            level: line.level,
            kind: line.kind,
        });
        Ok(())
    }

    /// How many they are.
    #[inline(always)]
    pub fn len(&self) -> usize
        ensures { result ≡ length self.now }
    {
        self.rows.len()
    }

    /// The line with a number, if there is one.
    #[inline(always)]
    pub fn get(&self, number: usize) -> Option<Line>
        ensures { result ≡ slice_get self.now number }
    {
        if self.rows.len() <= number {
            return None;
        }
        let row = &self.rows[number];
        Some(Line {
            first: row.first,
            end: row.last + 1,
            level: row.level,
            kind: row.kind,
            list_level: kept_level(&self.levels, number, row.level),
        })
    }

    /// The lines of a view whose tokens these are.
    pub fn into_rows(self) -> Vec<ULine, &'r Bump>
        ensures { result.items ≡ map row_of self.entry }
    {
        self.rows
    }
}
