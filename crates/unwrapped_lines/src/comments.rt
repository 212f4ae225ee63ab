//! The lines of a view with its comments.

ghost use Rattle.std.specs.Prelude.{◌≡◌, ◌<◌, ◌≤◌, ◌+◌, ◌-◌, ◌^◌, ◌∷◌, ◌++◌, ◌&&◌, length, slice_get, ℕ, false, IfOk};
ghost use Rattle.std.specs.Prelude.{IfSome, List, []};
ghost use Rattle.unwrapped_lines.specs.declared.part.Begin.{Begin};
ghost use Rattle.unwrapped_lines.specs.declared.part.ViewComment.{ViewComment};
ghost use Rattle.unwrapped_lines.specs.Comments.{token_follows, between_at, begins_from, no_marks, list_of};
ghost use Rattle.unwrapped_lines.specs.Comments.{begins_line, is_begun};
ghost use Rattle.unwrapped_lines.specs.Lines.{lines_between};
ghost use Rattle.unwrapped_lines.specs.Inside.{parts_with, FollowFrom, begin_with, marks_with, run_with};

use crate::part::{Begin, Marks, Run, ViewComment};
use bumpalo::Bump;
use item_classes::Part;
use line_tokens::{LineKind, NoMemory, ULine};
use statement_lines::{Line, Lines};

/// Whether a token comes after the inner comments at a place, where these comments follow.
#[inline(never)]
#[tactic(auto, using(crate::proofs::Passed::follows_none, crate::proofs::Passed::follows_behind))]
fn token_follows(comments: &[ViewComment], count: usize, from: usize) -> bool
    ensures { result ≡ token_follows (parts_with (count - from) from comments.now) }
{
    let mut place = from;
    for comment in comments {
        if count <= place || comment.place as usize != place {
            return place < count;
        }
        match comment.part {
            Part::Token => return true,
            Part::Inner => {}
            Part::Own | Part::Trailing => return false,
        }
        place += 1;
    }
    place < count
}

/// The line that begins behind so many others, if there is one.
#[inline(always)]
fn line_at(lines: &Lines<'_>, begun: usize) -> Option<Line>
    ensures { result ≡ slice_get lines.now begun }
{
    lines.get(begun)
}

/// Whether no line goes on behind so many tokens, where this one is the next.
#[inline(always)]
fn is_between(next: Option<Line>, total: usize, seen: usize) -> bool
    ensures { result ≡ between_at total seen next }
{
    match next {
        Some(line) => line.first as usize == seen,
        None => total <= seen,
    }
}

/// Whether the part at a place, where a line may begin and these comments follow, begins the one that is next.
#[inline(always)]
fn begins_line(
    between: bool,
    comments: &[ViewComment],
    count: usize,
    behind: usize,
    part: Part,
    marks: Marks,
) -> bool
    ensures { result ≡ (between && begins_line part (parts_with (count - behind) behind comments.now) marks) }
{
    if !between {
        return false;
    }
    match part {
        Part::Token => marks.run != Run::Begun,
        Part::Own | Part::Trailing => false,
        Part::Inner => marks.run == Run::Apart && token_follows(comments, count, behind),
    }
}

/// The line that begins at a place, by whether one may and whether the part there begins the one that is next.
#[inline(always)]
fn new_begin(
    next: Option<Line>,
    end_level: u32,
    between: bool,
    begins: bool,
    index: usize,
    part: Part,
) -> Option<Begin>
    requires few { index < 2 ^ 32 }
    ensures { result ≡ begin_with end_level next between begins index part }
{
    if !between {
        return None;
    }
    if part == Part::Own {
        let level = match next {
            Some(line) => line.list_level,
            None => end_level,
        };
        return Some(Begin {
            first: index as u32,
            level,
            kind: LineKind::Comment,
        });
    }
    if !begins {
        return None;
    }
    match next {
        Some(line) => Some(Begin {
            first: index as u32,
            level: line.level,
            kind: line.kind,
        }),
        None => None,
    }
}

/// How the lines stand behind a place, by whether one may begin there and whether the part there begins the next.
#[inline(always)]
fn next_marks(between: bool, begins: bool, part: Part, marks: Marks) -> Marks
    requires seen { marks.seen < 2 ^ 40 }
    requires begun { marks.begun < 2 ^ 40 }
    ensures same { result ≡ marks_with between begins part marks }
    ensures seen { result.seen ≤ marks.seen + 1 }
    ensures begun { result.begun ≤ marks.begun + 1 }
{
    match part {
        Part::Token => Marks {
            seen: marks.seen + 1,
            begun: if between {
                marks.begun + 1
            } else {
                marks.begun
            },
            run: Run::Apart,
        },
        Part::Own | Part::Trailing => Marks {
            run: Run::Apart,
            ..marks
        },
        Part::Inner => Marks {
            run: next_run(between, begins, marks.run),
            ..marks
        },
    }
}

/// What the inner comments are behind one of them.
#[inline(always)]
fn next_run(between: bool, begins: bool, run: Run) -> Run
    ensures { result ≡ run_with between begins run }
{
    if !between || run != Run::Apart {
        return run;
    }
    if begins { Run::Begun } else { Run::Joined }
}

/// How many tokens are passed where the next line begins, at least: before that each stands inside a line.
#[inline(always)]
fn next_first(lines: &Lines<'_>, total: usize, begun: usize) -> usize
    ensures { (passed : ℕ) → passed < result → between_at total passed (slice_get lines.now begun) ≡ false }
{
    match line_at(lines, begun) {
        Some(line) => line.first as usize,
        None => total,
    }
}

/// How a walk over the parts of a view stands: at a place, behind what is marked, in a line that began before or in
/// none.
#[derive(Clone, Copy)]
struct Walk {
    index: usize,
    marks: Marks,
    current: Option<Begin>,
}

/// Where the first of these comments stands, or so many places where none does.
#[inline(always)]
fn next_comment(comments: &[ViewComment], count: usize) -> usize
    ensures follow { (k : ℕ) → k ≤ result → FollowFrom k comments.now }
    ensures most { result ≤ count }
{
    match comments {
        [] => count,
        [comment, ..] => (comment.place as usize).min(count),
    }
}

/// Ends the line that goes on up to a place, if there is one.
#[inline(always)]
fn end_line(lines: &mut Vec<ULine, &Bump>, current: Option<Begin>, end: u32) -> Result<(), NoMemory>
    ensures { IfOk result (λ u. lines.new.items ≡ lines.old.items ++ lines_between end (list_of current)) }
{
    if let Some(begin) = current {
        lines.push(ULine {
            first: begin.first,
            last: end.saturating_sub(1),
            level: begin.level,
            kind: begin.kind,
        })?;
    }
    Ok(())
}

/// A line that begins, and how the lines stand behind its first token.
#[derive(Clone, Copy, Drop)]
struct Begun {
    begin: Begin,
    marks: Marks,
}

/// The next line, if its first token stands before an end, up to which no comment stands.
#[inline(always)]
fn line_before(lines: &Lines<'_>, end: usize, index: usize, marks: Marks) -> Option<Begun>
    requires few { end < 2 ^ 32 }
    requires here { index < 2 ^ 32 }
    requires begun { marks.begun ≤ index }
    ensures row { IfSome result (λ next.
        (total : ℕ) → (end_level : ℕ) → (count : ℕ) → (comments : List ViewComment) →
        is_begun marks.run ≡ false → next.begin.first + 1 ≤ count → FollowFrom (next.begin.first + 1) comments →
        begins_from (record { lines = lines.now; total = total; end_level = end_level })
        (parts_with (count - index) index comments) index marks
        ≡ next.begin
        ∷ begins_from (record { lines = lines.now; total = total; end_level = end_level })
        (parts_with (count - (next.begin.first + 1)) (next.begin.first + 1) comments) (next.begin.first + 1)
        next.marks) }
    ensures on { IfSome result (λ next. index ≤ next.begin.first) }
    ensures near { IfSome result (λ next. next.begin.first < end) }
    ensures seen { marks.seen ≤ index → IfSome result (λ next. next.marks.seen ≤ next.begin.first + 1) }
    ensures begun { IfSome result (λ next. next.marks.begun ≡ marks.begun + 1) }
    ensures up { IfSome result (λ next. marks.begun < length lines.now) }
    ensures run { IfSome result (λ next. is_begun next.marks.run ≡ false) }
{
    let Some(line) = lines.get(marks.begun) else {
        return None;
    };
    let first = line.first as usize;
    if first < marks.seen {
        return None;
    }
    let place = index + (first - marks.seen);
    if end <= place {
        return None;
    }
    Some(Begun {
        begin: Begin {
            first: place as u32,
            level: line.level,
            kind: line.kind,
        },
        marks: Marks {
            seen: first + 1,
            begun: marks.begun + 1,
            run: Run::Apart,
        },
    })
}

/// Passes the lines that begin before the next comment, as most do. What is told of them and of the places behind
/// them is all that is told.
#[inline(always)]
fn pass_lines(
    lines: &Lines<'_>,
    total: usize,
    end_level: u32,
    comments: &[ViewComment],
    count: usize,
    from: Walk,
    out: &mut Vec<ULine, &Bump>,
) -> Result<Walk, NoMemory>
    requires most { from.index ≤ count }
    requires few { count < 2 ^ 32 }
    requires seen { from.marks.seen ≤ from.index }
    requires begun { from.marks.begun ≤ from.index }
    ensures same { IfOk result (λ walk.
        out.new.items
        ++ lines_between count (list_of walk.current
        ++ begins_from (record { lines = lines.now; total = total; end_level = end_level })
        (parts_with (count - walk.index) walk.index comments.now) walk.index walk.marks)
        ≡ out.old.items
        ++ lines_between count (list_of from.current
        ++ begins_from (record { lines = lines.now; total = total; end_level = end_level })
        (parts_with (count - from.index) from.index comments.now) from.index from.marks)) }
    ensures most { IfOk result (λ walk. walk.index ≤ count) }
    ensures on { IfOk result (λ walk. from.index ≤ walk.index) }
    ensures seen { IfOk result (λ walk. walk.marks.seen ≤ walk.index) }
    ensures begun { IfOk result (λ walk. walk.marks.begun ≤ walk.index) }
{
    if from.marks.run == Run::Begun {
        return Ok(from);
    }
    let end = next_comment(comments, count);
    let mut walk = from;
    while let Some(next) = line_before(lines, end, walk.index, walk.marks) {
        end_line(out, walk.current, next.begin.first)?;
        walk = Walk {
            index: next.begin.first as usize + 1,
            marks: next.marks,
            current: Some(next.begin),
        };
    }
    Ok(walk)
}

/// Passes tokens inside a line up to the next comment. What is told of the places behind them is all that is told.
#[inline(always)]
fn pass_tokens(
    lines: &Lines<'_>,
    total: usize,
    end_level: u32,
    comments: &[ViewComment],
    count: usize,
    from: Walk,
) -> Walk
    requires most { from.index ≤ count }
    requires few { count < 2 ^ 32 }
    requires seen { from.marks.seen ≤ from.index }
    ensures same { begins_from (record { lines = lines.now; total = total; end_level = end_level })
        (parts_with (count - result.index) result.index comments.now) result.index result.marks
        ≡ begins_from (record { lines = lines.now; total = total; end_level = end_level })
        (parts_with (count - from.index) from.index comments.now) from.index from.marks }
    ensures most { result.index ≤ count }
    ensures on { from.index ≤ result.index }
    ensures seen { result.marks.seen ≤ result.index }
    ensures begun { result.marks.begun ≡ from.marks.begun }
    ensures current { result.current ≡ from.current }
{
    let end = next_comment(comments, count);
    let inside = next_first(lines, total, from.marks.begun).saturating_sub(from.marks.seen);
    let passed = inside.min(end.saturating_sub(from.index));
    if passed == 0 {
        return from;
    }
    Walk {
        index: from.index + passed,
        marks: Marks {
            seen: from.marks.seen + passed,
            begun: from.marks.begun,
            run: Run::Apart,
        },
        current: from.current,
    }
}

/// What stands at a place, where these comments follow, and those that follow behind it.
#[inline(always)]
#[tactic(auto, using(crate::proofs::Passed::part_first, crate::proofs::Passed::part_none, crate::proofs::Passed::part_other))]
fn part_at(comments: &[ViewComment], count: usize, index: usize) -> (Part, &[ViewComment])
    requires { index < count }
    ensures { parts_with (count - index) index comments.now
        ≡ result.0 ∷ parts_with (count - (index + 1)) (index + 1) result.1.now }
{
    match comments {
        [] => (Part::Token, comments),
        [comment, behind @ ..] => {
            if comment.place as usize == index {
                (comment.part, behind)
            } else {
                (Part::Token, comments)
            }
        }
    }
}

/// What a place is to the lines: which begins there, and how they stand behind it.
#[derive(Clone, Copy, Drop)]
struct Step {
    begin: Option<Begin>,
    marks: Marks,
}

/// One place, behind which these comments follow.
#[inline(always)]
fn pass_place(
    lines: &Lines<'_>,
    total: usize,
    end_level: u32,
    comments: &[ViewComment],
    count: usize,
    index: usize,
    part: Part,
    marks: Marks,
) -> Step
    requires few { index < 2 ^ 32 }
    requires seen { marks.seen ≤ index }
    requires begun { marks.begun ≤ index }
    ensures told { list_of result.begin
        ++ begins_from (record { lines = lines.now; total = total; end_level = end_level })
        (parts_with (count - (index + 1)) (index + 1) comments.now) (index + 1) result.marks
        ≡ begins_from (record { lines = lines.now; total = total; end_level = end_level })
        (part ∷ parts_with (count - (index + 1)) (index + 1) comments.now) index marks }
    ensures seen { result.marks.seen ≤ index + 1 }
    ensures begun { result.marks.begun ≤ index + 1 }
{
    let next = line_at(lines, marks.begun);
    let between = is_between(next, total, marks.seen);
    let begins = begins_line(between, comments, count, index + 1, part, marks);
    Step {
        begin: new_begin(next, end_level, between, begins, index, part),
        marks: next_marks(between, begins, part, marks),
    }
}

/// Where this is a line that begins, it ends the one that went on. The line that goes on then.
#[inline(always)]
fn begin_line(
    lines: &mut Vec<ULine, &Bump>,
    current: Option<Begin>,
    begin: Option<Begin>,
) -> Result<Option<Begin>, NoMemory>
    ensures { IfOk result (λ now.
        (count : ℕ) → (behind : List Begin) →
        lines.new.items ++ lines_between count (list_of now ++ behind)
        ≡ lines.old.items ++ lines_between count (list_of current ++ (list_of begin ++ behind))) }
{
    if let Some(new) = begin {
        end_line(lines, current, new.first)?;
        return Ok(begin);
    }
    Ok(current)
}

/// The lines of a view that has so many places and these comments, put where none are yet.
pub fn comment_lines<'r>(
    lines: &Lines<'_>,
    total: usize,
    end_level: u32,
    comments: &[ViewComment],
    count: usize,
    room: Vec<ULine, &'r Bump>,
) -> Result<Vec<ULine, &'r Bump>, NoMemory>
    requires few { count < 2 ^ 32 }
    requires none { room.items ≡ [] }
    ensures { IfOk result (λ r.
        r.items
        ≡ lines_between count (begins_from (record { lines = lines.now; total = total; end_level = end_level })
        (parts_with count 0 comments.now) 0 no_marks)) }
{
    let mut out = room;
    let mut walk = Walk {
        index: 0,
        marks: Marks {
            seen: 0,
            begun: 0,
            run: Run::Apart,
        },
        current: None,
    };
    let mut rest = comments;
    'places: loop {
        let behind = pass_lines(lines, total, end_level, rest, count, walk, &mut out)?;
        walk = pass_tokens(lines, total, end_level, rest, count, behind);
        if count <= walk.index {
            end_line(&mut out, walk.current, count as u32)?;
            return Ok(out);
        }
        let (part, follow) = part_at(rest, count, walk.index);
        let step = pass_place(
            lines, total, end_level, follow, count, walk.index, part, walk.marks,
        );
        let current = begin_line(&mut out, walk.current, step.begin)?;
        walk = Walk {
            index: walk.index + 1,
            marks: step.marks,
            current,
        };
        rest = follow;
    }
}
