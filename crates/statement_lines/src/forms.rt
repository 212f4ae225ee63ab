//! The cases of a statement: what line begins at a place, where it ends, and what it leaves open.

ghost use Rattle.std.specs.Prelude.{◌≡◌, ◌<◌, ◌≤◌, ◌+◌, ◌-◌, ◌*◌, ◌^◌, length, Some, None, IfSome, true, false, ℕ};
ghost use Rattle.statement_lines.specs.declared.form.Next.TheVariants.{Ends, Opens};
ghost use Rattle.statement_lines.specs.declared.open.Context.TheVariants.{Code, File};
ghost use Rattle.line_tokens.specs.declared.line.LineKind.TheVariants.{ExternHead};
ghost use Rattle.statement_lines.specs.declared.open.Head.TheVariants.{Plain};
ghost use Rattle.std.specs.Bool.{OnTrue, OnFalse};
ghost use Rattle.token_classes.specs.Classes.{is_open_brace};
ghost use Rattle.statement_lines.specs.Colons.{AreCaseColons};
ghost use Rattle.statement_lines.specs.Forms.{class_at, seen, after_group, block_end};
ghost use Rattle.statement_lines.specs.Forms.{has_no_partner, enumerator_end, statement_stop, tag_before, block_at};
ghost use Rattle.statement_lines.specs.Forms.{label_form, goto_level, label, header_end, head_of, control_block};
ghost use Rattle.statement_lines.specs.Forms.{control_form, tail_end, ends_macro, macro_end, tagged_kind, wraps_tagged};
ghost use Rattle.statement_lines.specs.Forms.{tagged_context, behind_close, kind_or_close, is_member_word, other_form};
ghost use Rattle.statement_lines.specs.Forms.{unlabelled, statement, close_form, form_of, StaysIn, IsLow};

use crate::braces::Braces;
use crate::form::{Form, Next};
use crate::lookups::{after_group, block_end, seen};
use crate::open::{Context, Head, Open, Start};
use crate::token::CodeTokens;
use crate::{colons, scans};
use line_tokens::LineKind;
use token_classes::TokenClass;

/// A block of code at the brace at `place`, one level deeper than its head.
#[inline(always)]
fn code_block(tokens: &CodeTokens<'_>, end: u32, place: usize, head: Head, head_level: u32) -> Open
    requires here { place < end }
    requires low { head_level < 2 ^ 31 }
    ensures same { result ≡ block_at tokens.now end place Code head head_level (head_level + 1) }
    ensures least { place < result.end }
    ensures most { result.end ≤ end }
{
    Open {
        block: true,
        context: Context::Code,
        level: head_level + 1,
        case_level: head_level + 1,
        end: block_end(tokens, end as usize, place) as u32,
        head,
        head_level,
        assigned: false,
    }
}

#[inline(always)]
fn label_form(
    tokens: &CodeTokens<'_>,
    opened: Open,
    kind: LineKind,
    level: u32,
    wrapped: bool,
    colon: usize,
) -> Form
    requires here { colon < opened.end }
    requires list { opened.end ≤ length tokens.now }
    requires few { length tokens.now < 2 ^ 30 }
    requires low { level < 2 ^ 31 }
    ensures same { result ≡ label_form tokens.now opened kind level wrapped colon }
    ensures stays { StaysIn colon opened result result.next }
    ensures level { result.level ≡ level }
{
    let next = colon + 1;
    Form {
        kind,
        level,
        end: next,
        next: if seen(tokens, opened.end as usize, next).is_open_brace() {
            Next::Opens {
                wrapped,
                block: code_block(tokens, opened.end, next, Head::Plain, level),
            }
        } else {
            Next::Ends
        },
    }
}

fn goto_level(braces: &Braces, opened: Open) -> u32
    ensures same { result ≡ goto_level braces.now opened }
    ensures most { result ≤ opened.level }
{
    if braces.indent_goto_labels {
        opened.level.saturating_sub(1)
    } else {
        0
    }
}

/// A label.
#[inline(always)]
fn label(
    braces: &Braces,
    tokens: &CodeTokens<'_>,
    colons: &[u32],
    opened: Open,
    at: usize,
) -> Option<Form>
    requires colons { AreCaseColons colons.now tokens.now }
    requires here { at < opened.end }
    requires list { opened.end ≤ length tokens.now }
    requires few { length tokens.now < 2 ^ 30 }
    requires low { opened.level ≤ 2 * at }
    requires case_low { opened.case_level ≤ 2 * at }
    ensures same { result ≡ label braces.now tokens.now opened at }
    ensures stays { IfSome result (λ f. StaysIn at opened f f.next) }
    ensures level { IfSome result (λ f. f.level ≤ 2 * at) }
{
    let class = tokens.class_at(at);
    let end = opened.end as usize;
    if class.is_case() {
        let colon = colons::label_colon(tokens, colons, end, at);
        if colon < end {
            return Some(label_form(
                tokens,
                opened,
                LineKind::CaseLabel,
                opened.case_level,
                braces.after_case_label,
                colon,
            ));
        }
    }
    if !seen(tokens, end, at + 1).is_colon() {
        return None;
    }
    if class.is_default() {
        return Some(label_form(
            tokens,
            opened,
            LineKind::CaseLabel,
            opened.case_level,
            braces.after_case_label,
            at + 1,
        ));
    }
    if class.is_plain() && opened.context.is_code() && !tokens.touched_at(at + 1) {
        return Some(label_form(
            tokens,
            opened,
            LineKind::GotoLabel,
            goto_level(braces, opened),
            false,
            at + 1,
        ));
    }
    None
}

/// The end of the header of a control word.
#[inline(always)]
fn header_end(tokens: &CodeTokens<'_>, end: usize, at: usize) -> usize
    requires here { at < end }
    requires list { end ≤ length tokens.now }
    requires few { length tokens.now < 2 ^ 30 }
    ensures same { result ≡ header_end tokens.now end at }
    ensures least { at < result }
    ensures most { result ≤ end }
{
    let class = tokens.class_at(at);
    if class.is_do() {
        at + 1
    } else if !class.is_else() {
        after_group(tokens, end, at + 1)
    } else if seen(tokens, end, at + 1).is_if() {
        after_group(tokens, end, at + 2)
    } else {
        at + 1
    }
}

#[inline(always)]
fn head_of(tokens: &CodeTokens<'_>, end: usize, at: usize) -> Head
    requires here { at < end }
    requires list { end ≤ length tokens.now }
    ensures { result ≡ head_of tokens.now end at }
{
    let class = tokens.class_at(at);
    if class.is_if() || (class.is_else() && seen(tokens, end, at + 1).is_if()) {
        Head::If
    } else if class.is_do() {
        Head::Do
    } else if class.is_switch() {
        Head::Switch
    } else {
        Head::Plain
    }
}

#[inline(always)]
fn control_block(
    braces: &Braces,
    tokens: &CodeTokens<'_>,
    end: u32,
    place: usize,
    head: Head,
    level: u32,
) -> Open
    requires here { place < end }
    requires low { level < 2 ^ 31 }
    ensures same { result ≡ control_block braces.now tokens.now end place head level }
    ensures least { place < result.end }
    ensures most { result.end ≤ end }
    ensures block { result.block ≡ true }
    ensures level { result.level ≤ level + 2 }
    ensures case_level { result.case_level ≤ level + 2 }
    ensures head_level { result.head_level ≡ level }
{
    if matches!(head, Head::Switch) {
        let case_level = if braces.indent_case_labels {
            level + 1
        } else {
            level
        };
        Open {
            block: true,
            context: Context::Code,
            level: case_level + 1,
            case_level,
            end: block_end(tokens, end as usize, place) as u32,
            head,
            head_level: level,
            assigned: false,
        }
    } else {
        code_block(tokens, end, place, head, level)
    }
}

fn behind_close(closes: bool, at: usize) -> usize
    requires { at < 2 ^ 34 }
    ensures same { result ≡ behind_close closes at }
    ensures least { at ≤ result }
    ensures most { result ≤ at + 1 }
    ensures behind { OnTrue closes (result ≡ at + 1) }
    ensures here { OnFalse closes (result ≡ at) }
{
    if closes { at + 1 } else { at }
}

fn kind_or_close(closes: bool, kind: LineKind) -> LineKind
    ensures { result ≡ kind_or_close closes kind }
{
    if closes { LineKind::Close } else { kind }
}

/// A header, on a line of its own or behind a closing brace.
#[inline(always)]
fn control_form(
    braces: &Braces,
    tokens: &CodeTokens<'_>,
    opened: Open,
    closes: bool,
    level: u32,
    at: usize,
) -> Form
    requires here { at < opened.end }
    requires header { OnTrue closes (at + 1 < opened.end) }
    requires list { opened.end ≤ length tokens.now }
    requires few { length tokens.now < 2 ^ 30 }
    requires low { level < 2 ^ 31 }
    ensures same { result ≡ control_form braces.now tokens.now opened closes level at }
    ensures stays { StaysIn at opened result result.next }
    ensures level { result.level ≡ level }
{
    let end = opened.end as usize;
    let from = behind_close(closes, at);
    let behind = header_end(tokens, end, from);
    let head = head_of(tokens, end, from);
    Form {
        kind: kind_or_close(closes, LineKind::Control),
        level,
        end: behind,
        next: if seen(tokens, end, behind).is_open_brace() {
            Next::Opens {
                wrapped: braces.after_control,
                block: control_block(braces, tokens, opened.end, behind, head, level),
            }
        } else {
            Next::Waits(head)
        },
    }
}

/// The end of the tail of a `do`, or the place where there is none.
#[inline(always)]
pub(crate) fn tail_end(tokens: &CodeTokens<'_>, end: usize, place: usize) -> usize
    requires { place < 2 ^ 33 }
    ensures same { result ≡ tail_end tokens.now end place }
    ensures least { place ≤ result }
    ensures most { place < result → result ≤ end }
{
    let group_end = after_group(tokens, end, place + 1);
    if seen(tokens, end, place).is_while()
        && place + 1 < group_end
        && seen(tokens, end, group_end).is_semicolon()
    {
        group_end + 1
    } else {
        place
    }
}

#[inline(always)]
fn ends_macro(tokens: &CodeTokens<'_>, place: usize) -> bool
    ensures { result ≡ ends_macro tokens.now place }
{
    tokens.count() <= place
        || (tokens.began_at(place)
            && (tokens.class_at(place).is_word() || tokens.class_at(place).is_close_brace()))
}

#[inline(always)]
fn macro_end(tokens: &CodeTokens<'_>, end: usize, at: usize) -> usize
    requires here { at < end }
    requires list { end ≤ length tokens.now }
    ensures same { result ≡ macro_end tokens.now end at }
    ensures least { at ≤ result }
    ensures most { result ≤ end }
{
    let class = tokens.class_at(at);
    if !class.is_plain() {
        return at;
    }
    let group_end = after_group(tokens, end, at + 1);
    if (at + 1 < group_end || class.is_capital()) && ends_macro(tokens, group_end) {
        group_end
    } else {
        at
    }
}

fn tagged_kind(class: TokenClass) -> LineKind
    ensures { result ≡ tagged_kind class }
{
    if scans::is_member_word(class) {
        LineKind::StructHead
    } else if class.is_enum() {
        LineKind::EnumHead
    } else {
        LineKind::FuncHead
    }
}

fn wraps_tagged(braces: &Braces, class: TokenClass) -> bool
    ensures { result ≡ wraps_tagged braces.now class }
{
    if class.is_struct() {
        braces.after_struct
    } else if class.is_union() {
        braces.after_union
    } else if class.is_enum() {
        braces.after_enum
    } else {
        braces.after_function
    }
}

fn tagged_context(class: TokenClass) -> Context
    ensures { result ≡ tagged_context class }
{
    if scans::is_member_word(class) {
        Context::Member
    } else if class.is_enum() {
        Context::Enumerators
    } else {
        Context::Code
    }
}

/// Any other statement, or what goes on behind the closing brace of a struct, union or enum.
#[inline(always)]
fn other_form(
    braces: &Braces,
    tokens: &CodeTokens<'_>,
    opened: Open,
    closes: bool,
    level: u32,
    at: usize,
    assigned: bool,
) -> Form
    requires here { at < opened.end }
    requires list { opened.end ≤ length tokens.now }
    requires few { length tokens.now < 2 ^ 30 }
    requires low { level < 2 ^ 31 }
    requires first { OnFalse closes (is_open_brace (class_at tokens.now at) ≡ false) }
    ensures same { result ≡ other_form braces.now tokens.now opened closes level at assigned }
    ensures stays { StaysIn at opened result result.next }
    ensures level { result.level ≡ level }
{
    let end = opened.end as usize;
    let from = behind_close(closes, at);
    let stop = scans::statement_stop(tokens, end, from, assigned);
    if stop.opens {
        let tag = scans::tag_before(tokens, from, stop.at);
        let head = if tag.is_struct() || tag.is_union() || tag.is_enum() {
            Head::Tagged
        } else {
            Head::Plain
        };
        Form {
            kind: kind_or_close(closes, tagged_kind(tag)),
            level,
            end: stop.at,
            next: Next::Opens {
                wrapped: wraps_tagged(braces, tag),
                block: Open {
                    block: true,
                    context: tagged_context(tag),
                    level: level + 1,
                    case_level: level + 1,
                    end: block_end(tokens, end, stop.at) as u32,
                    head,
                    head_level: level,
                    assigned: stop.assigned,
                },
            },
        }
    } else {
        Form {
            kind: kind_or_close(closes, LineKind::Simple),
            level,
            end: stop.at,
            next: Next::Ends,
        }
    }
}

/// A line alone.
#[inline(always)]
pub(crate) fn line_alone(kind: LineKind, level: u32, end: usize) -> Form
    ensures { result ≡ record { kind = kind; level = level; end = end; next = Ends } }
{
    Form {
        kind,
        level,
        end,
        next: Next::Ends,
    }
}

/// A line that opens a block of code at its end.
#[inline(always)]
fn opens_code(
    tokens: &CodeTokens<'_>,
    opened: Open,
    kind: LineKind,
    brace: usize,
    wrapped: bool,
) -> Form
    requires here { brace < opened.end }
    requires low { opened.level < 2 ^ 31 }
    ensures same { result
        ≡ record {
          kind = kind;
          level = opened.level;
          end = brace;
          next = Opens wrapped
              (block_at tokens.now opened.end brace Code Plain opened.level (opened.level + 1));
        } }
    ensures stays { (at : ℕ) → at ≤ brace → (wrapped ≡ true → at < brace) → StaysIn at opened result result.next }
{
    Form {
        kind,
        level: opened.level,
        end: brace,
        next: Next::Opens {
            wrapped,
            block: code_block(tokens, opened.end, brace, Head::Plain, opened.level),
        },
    }
}

/// The head of an extern block, whose brace stands two places behind.
#[inline(always)]
fn extern_form(braces: &Braces, tokens: &CodeTokens<'_>, opened: Open, at: usize) -> Form
    requires here { at + 2 < opened.end }
    requires low { opened.level < 2 ^ 31 }
    ensures same { result
        ≡ record {
          kind = ExternHead;
          level = opened.level;
          end = at + 2;
          next = Opens braces.now.after_extern
              (block_at tokens.now opened.end (at + 2) File Plain opened.level opened.level);
        } }
    ensures stays { StaysIn at opened result result.next }
{
    Form {
        kind: LineKind::ExternHead,
        level: opened.level,
        end: at + 2,
        next: Next::Opens {
            wrapped: braces.after_extern,
            block: Open {
                block: true,
                context: Context::File,
                level: opened.level,
                case_level: opened.level,
                end: block_end(tokens, opened.end as usize, at + 2) as u32,
                head: Head::Plain,
                head_level: opened.level,
                assigned: false,
            },
        },
    }
}

/// The cases behind labels and control statements.
#[inline(always)]
fn unlabelled(braces: &Braces, tokens: &CodeTokens<'_>, opened: Open, at: usize) -> Form
    requires here { at < opened.end }
    requires list { opened.end ≤ length tokens.now }
    requires few { length tokens.now < 2 ^ 30 }
    requires low { opened.level ≤ 2 * at }
    ensures same { result ≡ unlabelled braces.now tokens.now opened at }
    ensures stays { StaysIn at opened result result.next }
    ensures level { result.level ≤ 2 * at }
{
    let class = tokens.class_at(at);
    let end = opened.end as usize;
    if opened.context.is_code() && class.is_plain() {
        let group_end = after_group(tokens, end, at + 1);
        if at + 1 < group_end && seen(tokens, end, group_end).is_open_brace() {
            return opens_code(
                tokens,
                opened,
                LineKind::Control,
                group_end,
                braces.after_control,
            );
        }
    }
    if class.is_open_brace() {
        return opens_code(tokens, opened, LineKind::Brace, at, false);
    }
    if class.is_extern()
        && seen(tokens, end, at + 1).is_text()
        && seen(tokens, end, at + 2).is_open_brace()
    {
        return extern_form(braces, tokens, opened, at);
    }
    let line_end = macro_end(tokens, end, at);
    if at < line_end {
        return line_alone(LineKind::MacroLine, opened.level, line_end);
    }
    other_form(braces, tokens, opened, false, opened.level, at, false)
}

/// The cases, the first that fits.
#[inline(always)]
pub(crate) fn statement(
    braces: &Braces,
    tokens: &CodeTokens<'_>,
    colons: &[u32],
    opened: Open,
    at: usize,
) -> Form
    requires colons { AreCaseColons colons.now tokens.now }
    requires here { at < opened.end }
    requires list { opened.end ≤ length tokens.now }
    requires few { length tokens.now < 2 ^ 30 }
    requires low { opened.level ≤ 2 * at }
    requires case_low { opened.case_level ≤ 2 * at }
    ensures same { result ≡ statement braces.now tokens.now opened at }
    ensures stays { StaysIn at opened result result.next }
    ensures level { result.level ≤ 2 * at }
{
    let class = tokens.class_at(at);
    if opened.context.is_enumerators() {
        return line_alone(
            LineKind::Enumerator,
            opened.level,
            scans::enumerator_end(tokens, opened.end as usize, at),
        );
    }
    if class.is_close_brace() && tokens.partner_at(at).is_none() {
        return line_alone(LineKind::Close, opened.level, at + 1);
    }
    if let Some(form) = label(braces, tokens, colons, opened, at) {
        return form;
    }
    if class.is_control() {
        return control_form(braces, tokens, opened, false, opened.level, at);
    }
    unlabelled(braces, tokens, opened, at)
}

/// The line of a block's closing brace.
#[inline(always)]
pub(crate) fn close_form(
    braces: &Braces,
    tokens: &CodeTokens<'_>,
    opened: Open,
    around: Open,
    at: usize,
) -> Form
    requires here { at < opened.end }
    requires list { opened.end ≤ length tokens.now }
    requires few { length tokens.now < 2 ^ 30 }
    requires low { around.head_level ≤ 2 * at }
    ensures same { result ≡ close_form braces.now tokens.now opened around at }
    ensures stays { StaysIn at opened result result.next }
    ensures level { result.level ≤ 2 * at }
{
    let level = around.head_level;
    let end = opened.end as usize;
    if matches!(around.head, Head::Tagged) {
        return other_form(braces, tokens, opened, true, level, at, around.assigned);
    }
    if around.head.is_do() && at + 1 < tail_end(tokens, end, at + 1) {
        if braces.before_while {
            return Form {
                kind: LineKind::Close,
                level,
                end: at + 1,
                next: Next::Goes(Start::Tail),
            };
        }
        return line_alone(LineKind::Close, level, tail_end(tokens, end, at + 1));
    }
    if seen(tokens, end, at + 1).is_semicolon() {
        return line_alone(LineKind::Close, level, at + 2);
    }
    if around.head.is_if() && seen(tokens, end, at + 1).is_else() {
        if braces.before_else {
            return Form {
                kind: LineKind::Close,
                level,
                end: at + 1,
                next: Next::Goes(Start::Fresh),
            };
        }
        return control_form(braces, tokens, opened, true, level, at);
    }
    line_alone(LineKind::Close, level, at + 1)
}

/// The line that begins at a place of the innermost list.
#[inline(always)]
pub(crate) fn form_of(
    braces: &Braces,
    tokens: &CodeTokens<'_>,
    colons: &[u32],
    opened: Open,
    start: Start,
    at: usize,
) -> Form
    requires colons { AreCaseColons colons.now tokens.now }
    requires here { at < opened.end }
    requires list { opened.end ≤ length tokens.now }
    requires few { length tokens.now < 2 ^ 30 }
    requires low { opened.level ≤ 2 * at }
    requires case_low { opened.case_level ≤ 2 * at }
    requires start_low { IsLow at start }
    ensures same { result ≡ form_of braces.now tokens.now opened start at }
    ensures stays { StaysIn at opened result result.next }
    ensures level { result.level ≤ 2 * at }
{
    let end = opened.end as usize;
    let count = tokens.count();
    prove!(end <= count);
    match start {
        Start::Fresh => {}
        Start::Tail => {
            let behind = tail_end(tokens, end, at);
            if at < behind {
                return line_alone(LineKind::Control, opened.level, behind);
            }
        }
        Start::Closing(block) => return close_form(braces, tokens, opened, block, at),
    }
    statement(braces, tokens, colons, opened, at)
}
