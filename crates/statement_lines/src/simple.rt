//! Simple statements, as most are: their first tokens tell that no other case fits, so that none is tried.

ghost use Rattle.std.specs.Prelude.{◌≡◌, ◌<◌, ◌≤◌, length, IfSome, true, false};
ghost use Rattle.line_tokens.specs.declared.line.LineKind.TheVariants.{Simple};
ghost use Rattle.statement_lines.specs.declared.braces.Braces.{Braces};
ghost use Rattle.statement_lines.specs.declared.form.Next.TheVariants.{Ends};
ghost use Rattle.statement_lines.specs.Forms.{form_of, is_enumerators, other_form, statement};

use crate::lookups::{after_group, seen};
use crate::open::{Open, Start};
use crate::scans::statement_stop;
use crate::token::CodeTokens;

/// Whether a statement is known to be none of the other cases by its first tokens.
#[inline(always)]
fn is_no_case(tokens: &CodeTokens<'_>, opened: Open, at: usize) -> bool
    requires list { opened.end ≤ length tokens.now }
    requires statements { is_enumerators opened.context ≡ false }
    ensures { result ≡ true → (braces : Braces) →
        statement braces tokens.now opened at ≡ other_form braces tokens.now opened false opened.level at false }
{
    let end = opened.end as usize;
    if end <= at {
        return false;
    }
    let count = tokens.count();
    prove!(end <= count);
    let class = tokens.class_at(at);
    if class.is_control() || class.is_case() || class.is_default() || class.is_extern() {
        return false;
    }
    if class.is_open_brace() || class.is_close_brace() {
        return false;
    }
    // Of most statements what follows their first token tells it, whatever that token is.
    let next = seen(tokens, end, at + 1);
    if !next.is_open_round() && !next.is_colon() && !class.is_capital() {
        return true;
    }
    if !class.is_plain() {
        return true;
    }
    if next.is_colon() || !next.is_open_round() {
        return false;
    }
    let behind = after_group(tokens, end, at + 1);
    seen(tokens, end, behind).is_semicolon()
}

/// The end of the line at a place, where its first tokens tell that it is a simple one and leaves all lists open.
#[inline(always)]
pub(crate) fn simple_end(
    tokens: &CodeTokens<'_>,
    opened: Open,
    start: Start,
    at: usize,
) -> Option<usize>
    requires here { at < opened.end }
    requires list { opened.end ≤ length tokens.now }
    ensures form { IfSome result (λ end.
        (braces : Braces) →
        form_of braces tokens.now opened start at
        ≡ record { kind = Simple; level = opened.level; end = end; next = Ends }) }
    ensures least { IfSome result (λ end. at < end) }
    ensures most { IfSome result (λ end. end ≤ opened.end) }
    ensures block { IfSome result (λ end. opened.block ≡ true) }
{
    match start {
        Start::Fresh => {}
        Start::Tail | Start::Closing(_) => return None,
    }
    if !opened.block || opened.context.is_enumerators() || !is_no_case(tokens, opened, at) {
        return None;
    }
    let stop = statement_stop(tokens, opened.end as usize, at, false);
    if stop.opens { None } else { Some(stop.at) }
}
