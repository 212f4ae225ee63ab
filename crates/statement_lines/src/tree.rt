//! The lines of tokens, with a stack of open lists.

ghost use Rattle.std.specs.Prelude.{◌≡◌, ◌<◌, ◌≤◌, ◌+◌, ◌-◌, ◌*◌, ◌^◌, ◌∷◌, [], ◌++◌, reverse, length, Some, None};
ghost use Rattle.std.specs.Prelude.{IfSome, IfNone, IfOk, IsTrue, List};
ghost use Rattle.statement_lines.specs.declared.braces.Braces.{Braces};
ghost use Rattle.statement_lines.specs.declared.line.Line.{Line};
ghost use Rattle.statement_lines.specs.declared.open.Start.TheVariants.{Fresh};
ghost use Rattle.statement_lines.specs.declared.token.CodeToken.{CodeToken};
ghost use Rattle.statement_lines.specs.Forms.{StaysIn, form_of};
ghost use Rattle.statement_lines.specs.Tree.{settled, lines_of, whole_file, body_of, line_of, head_lines};
ghost use Rattle.statement_lines.specs.Colons.{AreCaseColons};
ghost use Rattle.statement_lines.specs.Stack.{Stands, IsCut, LeavesOpen, GoesBehind, form_lines, left};

use crate::braces::Braces;
use crate::form::{Form, Next};
use crate::forms::{form_of, line_alone, tail_end};
use crate::line::Line;
use crate::lines::{Lines, reserve_room};
use crate::lookups::seen;
use crate::open::{Context, Head, Open, Start};
use crate::simple::simple_end;
use crate::token::CodeTokens;
use bumpalo::Bump;
use line_tokens::{LineKind, NoMemory, ULine};

/// What begins at a place.
#[derive(Clone, Copy, Drop)]
pub struct Place {
    pub start: Start,
    pub at: usize,
}

/// Ends the headers that waited for the statement that has ended.
#[inline(always)]
#[tactic(auto, using(crate::proofs::Lists::reverse_snoc))]
pub(crate) fn settle(tokens: &CodeTokens<'_>, stack: &mut Vec<Open, &Bump>, at: usize) -> Start
    requires { at < 2 ^ 33 }
    ensures same { settled tokens.now at (reverse stack.old.items)
        ≡ record { opens = reverse stack.new.items; start = result } }
    ensures fewer { length stack.new.items ≤ length stack.old.items }
{
    while let Some(innermost) = stack.last().copied() {
        if innermost.block {
            return Start::Fresh;
        }
        stack.pop();
        let end = innermost.end as usize;
        if innermost.head.is_if() && seen(tokens, end, at).is_else() {
            return Start::Fresh;
        }
        if innermost.head.is_do() && at < tail_end(tokens, end, at) {
            return Start::Tail;
        }
    }
    Start::Fresh
}

/// Puts a list on the stack. Mostly there is room, and no call is made.
#[inline(always)]
pub(crate) fn push_open(stack: &mut Vec<Open, &Bump>, opened: Open) -> Result<(), NoMemory>
    ensures items { IfOk result (λ u. stack.new.items ≡ stack.old.items ++ opened ∷ []) }
{
    reserve_room(stack)?;
    stack.push_reserved(opened);
    Ok(())
}

/// Takes off the innermost block, and all above it.
fn leave(stack: &mut Vec<Open, &Bump>) -> Option<Open>
    ensures some { IfSome result
        (λ b. left (reverse stack.old.items) ≡ Some (record { block = b; below = reverse stack.new.items })) }
    ensures none { IfNone result (left (reverse stack.old.items) ≡ None) }
    ensures fewer { IfSome result (λ b. length stack.new.items < length stack.old.items) }
    ensures most { length stack.new.items ≤ length stack.old.items }
{
    while let Some(innermost) = stack.pop() {
        if innermost.block {
            return Some(innermost);
        }
    }
    None
}

/// The line at a place.
#[inline(always)]
fn line_of(opened: Open, start: Start, at: usize, form: Form) -> Line
    requires begins { at < 2 ^ 32 }
    requires ends { form.end < 2 ^ 32 }
    ensures { result ≡ line_of opened start at form }
{
    // An own comment has the level of the line's list, but before a label that of the label.
    let list_level = match start {
        Start::Fresh => {
            if form.kind.is_label() {
                form.level
            } else {
                opened.level
            }
        }
        Start::Tail => opened.level,
        Start::Closing(block) => block.level,
    };
    Line {
        first: at as u32,
        end: form.end as u32,
        level: form.level,
        kind: form.kind,
        list_level,
    }
}

/// Appends the lines of a head and its block's brace.
#[inline(always)]
fn push_head(
    out: &mut Lines<'_>,
    opened: Open,
    start: Start,
    at: usize,
    form: Form,
    wrapped: bool,
) -> Result<(), NoMemory>
    requires begins { at < 2 ^ 32 }
    requires ends { form.end + 1 < 2 ^ 32 }
    requires takes { IsTrue wrapped → at < form.end }
    ensures { IfOk result (λ u. out.new ≡ out.old ++ head_lines opened start at form wrapped) }
{
    let line = line_of(opened, start, at, form);
    if !wrapped {
        let whole = Line {
            end: line.end + 1,
            ..line
        };
        return out.push(whole);
    }
    out.push(line)?;
    let brace = Line {
        first: form.end as u32,
        end: form.end as u32 + 1,
        level: form.level,
        kind: LineKind::Brace,
        list_level: opened.level,
    };
    out.push(brace)
}

/// The statement that a header waits for.
#[inline(always)]
pub(crate) fn body_of(opened: Open, head: Head, level: u32) -> Open
    requires { level < 2 ^ 31 }
    ensures { result ≡ body_of opened head level }
{
    Open {
        block: false,
        context: opened.context,
        level: level + 1,
        case_level: level + 1,
        end: opened.end,
        head,
        head_level: level,
        assigned: false,
    }
}

/// All tokens as a list.
pub(crate) fn whole_file(tokens: &CodeTokens<'_>) -> Open
    requires few { length tokens.now < 2 ^ 30 }
    ensures { result ≡ whole_file tokens.now }
{
    Open {
        block: true,
        context: Context::File,
        level: 0,
        case_level: 0,
        end: tokens.count() as u32,
        head: Head::Plain,
        head_level: 0,
        assigned: false,
    }
}

/// Leaves a list that has ended.
#[inline(always)]
fn leave_list(stack: &mut Vec<Open, &Bump>, opened: Open, place: Place) -> Place
    requires ended { opened.end ≤ place.at }
    ensures stands { (braces : Braces) (tokens : List CodeToken) (out : List Line)
        → Stands braces tokens out (opened ∷ reverse stack.old.items) place.start place.at
        → Stands braces tokens out (reverse stack.new.items) result.start result.at }
    ensures fewer { length stack.new.items ≤ length stack.old.items }
    ensures stays { (braces : Braces) (tokens : List CodeToken) (out : List Line)
        → Stands braces tokens out (opened ∷ reverse stack.old.items) place.start place.at
        → result.at ≡ place.at }
{
    if opened.block {
        return Place {
            start: Start::Closing(opened),
            at: opened.end as usize,
        };
    }
    match leave(stack) {
        Some(block) => Place {
            start: Start::Closing(block),
            at: block.end as usize,
        },
        None => place,
    }
}

/// Appends the lines of a form.
#[inline(always)]
fn push_form(
    out: &mut Lines<'_>,
    opened: Open,
    start: Start,
    at: usize,
    form: Form,
) -> Result<(), NoMemory>
    requires begins { at < 2 ^ 32 }
    requires ends { form.end + 1 < 2 ^ 32 }
    requires stays { StaysIn at opened form form.next }
    ensures { IfOk result (λ u. out.new ≡ out.old ++ form_lines opened start at form form.next) }
{
    if let Next::Opens { wrapped, .. } = form.next {
        push_head(out, opened, start, at, form, wrapped)
    } else {
        out.push(line_of(opened, start, at, form))
    }
}

/// Opens what a line of the innermost list leaves open, or ends what it ends, and tells what begins behind it.
#[inline(always)]
pub(crate) fn go_behind(
    tokens: &CodeTokens<'_>,
    stack: &mut Vec<Open, &Bump>,
    opened: Open,
    form: Form,
) -> Result<Place, NoMemory>
    requires end { form.end < 2 ^ 33 }
    requires level { form.level < 2 ^ 31 }
    ensures { IfOk result (λ p.
        GoesBehind tokens.now opened form (reverse stack.old.items) (reverse stack.new.items) p.start p.at form.next
        × (length stack.new.items ≤ length stack.old.items + 1)) }
{
    let end = form.end;
    let start = match form.next {
        Next::Ends => settle(tokens, stack, end),
        Next::Goes(start) => start,
        Next::Waits(head) => {
            push_open(stack, body_of(opened, head, form.level))?;
            Start::Fresh
        }
        Next::Opens { block, .. } => {
            push_open(stack, block)?;
            return Ok(Place {
                start: Start::Fresh,
                at: end + 1,
            });
        }
    };
    Ok(Place { start, at: end })
}

/// Appends a line, and opens or ends what it opens or ends.
#[inline(always)]
fn take_line(
    braces: &Braces,
    tokens: &CodeTokens<'_>,
    out: &mut Lines<'_>,
    stack: &mut Vec<Open, &Bump>,
    opened: Open,
    place: Place,
    form: Form,
) -> Result<Place, NoMemory>
    requires few { length tokens.now < 2 ^ 30 }
    requires stands { Stands braces.now tokens.now out.old (opened ∷ reverse stack.old.items) place.start
        place.at }
    requires here { place.at < opened.end }
    requires list { opened.end ≤ length tokens.now }
    requires form { form_of braces.now tokens.now opened place.start place.at ≡ form }
    requires stays { StaysIn place.at opened form form.next }
    requires level { form.level ≤ 2 * place.at }
    ensures stands { IfOk result
        (λ p. Stands braces.now tokens.now out.new (reverse stack.new.items) p.start p.at) }
    ensures up { IfOk result (λ p. (place.at < p.at) × (length stack.new.items ≤ length stack.old.items + 2)) }
{
    push_form(out, opened, place.start, place.at, form)?;
    push_open(stack, opened)?;
    go_behind(tokens, stack, opened, form)
}

/// The lines of tokens that are no comments, where `colons` has the colons of their `case`s.
///
/// `docs/PROFILE.md` says under "Statements and lines" which lines there are, and what their levels and kinds are. The
/// lines cut the tokens whole and in order. They are put where no lines are yet. Want of memory is the only error.
#[inline(never)]
pub fn tree_lines<'r>(
    braces: &Braces,
    tokens: &CodeTokens<'_>,
    colons: &[u32],
    room: Vec<ULine, &'r Bump>,
    run: &'r Bump,
) -> Result<Lines<'r>, NoMemory>
    requires few { length tokens.now < 2 ^ 30 }
    requires colons { AreCaseColons colons.now tokens.now }
    requires none { room.items ≡ [] }
    ensures same { IfOk result (λ r. r ≡ lines_of braces.now tokens.now) }
    ensures cut { IfOk result (λ r. IsCut 0 (length tokens.now) r) }
{
    // Each line has a token and opens one list at most, so there is room for all. What isn't filled isn't touched.
    let count = tokens.count();
    let mut out = Lines::within(room, run);
    let mut stack = Vec::with_capacity(run, count + 1)?;
    push_open(&mut stack, whole_file(tokens))?;
    let mut place = Place {
        start: Start::Fresh,
        at: 0,
    };
    while let Some(opened) = stack.pop() {
        place = turn(braces, tokens, colons, &mut out, &mut stack, opened, place)?;
    }
    Ok(out)
}

/// What begins behind a line that leaves the innermost list and all below it as they are, as most lines do.
#[inline(always)]
fn start_behind(opened: Open, form: Form) -> Option<Start>
    ensures { IfSome result (λ s. LeavesOpen opened form.next s) }
{
    match form.next {
        Next::Ends => {
            if opened.block {
                Some(Start::Fresh)
            } else {
                None
            }
        }
        Next::Goes(start) => Some(start),
        Next::Waits(_) | Next::Opens { .. } => None,
    }
}

/// Lines of the innermost list, up to one behind which another list is the innermost, or up to the end of the list.
/// What only other lines need isn't made ready for simple ones.
#[inline(always)]
fn turn(
    braces: &Braces,
    tokens: &CodeTokens<'_>,
    colons: &[u32],
    out: &mut Lines<'_>,
    stack: &mut Vec<Open, &Bump>,
    opened: Open,
    from: Place,
) -> Result<Place, NoMemory>
    requires colons { AreCaseColons colons.now tokens.now }
    requires few { length tokens.now < 2 ^ 30 }
    requires stands { Stands braces.now tokens.now out.old (opened ∷ reverse stack.old.items) from.start from.at }
    ensures stands { IfOk result
        (λ p. Stands braces.now tokens.now out.new (reverse stack.new.items) p.start p.at) }
    ensures up { IfOk result (λ p.
        2 * (length tokens.now - p.at) + length stack.new.items
        < 2 * (length tokens.now - from.at) + length stack.old.items + 1) }
{
    let list_end = opened.end as usize;
    let mut place = from;
    while place.at < list_end {
        let Some(end) = simple_end(tokens, opened, place.start, place.at) else {
            let form = form_of(braces, tokens, colons, opened, place.start, place.at);
            let Some(start) = start_behind(opened, form) else {
                return take_line(braces, tokens, out, stack, opened, place, form);
            };
            out.push(line_of(opened, place.start, place.at, form))?;
            place = Place {
                start,
                at: form.end,
            };
            continue;
        };
        let form = line_alone(LineKind::Simple, opened.level, end);
        out.push(line_of(opened, place.start, place.at, form))?;
        place = Place {
            start: Start::Fresh,
            at: end,
        };
    }
    Ok(leave_list(stack, opened, place))
}
