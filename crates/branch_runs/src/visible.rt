//! Which texts a run sees, without a look at all the others.
//!
//! At each place of the list begins a span of texts that follow one another, with the runs among which are all that
//! see one of them. The spans lie in one another as the trees of a skew binary list: behind the first text of a span
//! stand two spans of one length, or nothing. So a search passes many texts at once where a run sees none of them.

ghost use Rattle.std.specs.Prelude.{◌≡◌, ◌<◌, ◌≤◌, ◌+◌, ◌^◌, length, IfOk, MatchOption};
ghost use Rattle.branch_runs.specs.Seen.{is_seen};
ghost use Rattle.branch_runs.specs.Visible.{text_at, IsSeenAt, NoneSeen, FitsSpan, FitSpansFrom, FitSpans};

use crate::NoMemory;
use crate::seen::SeenText;
use bumpalo::Bump;
use bumpalo::collections::into_bump_slice_mut;
use std::marker::Model;

/// Texts that follow one another, by the runs that see them.
#[derive(Clone, Copy)]
pub(crate) struct Span {
    /// The place behind its last text.
    pub end: usize,
    /// No run before this one sees any of them.
    pub from: u32,
    /// No run from this one on sees any of them.
    pub till: u32,
}

// Whether a run sees a text.
fn is_seen(text: SeenText, run: u32) -> bool
    ensures { result ≡ is_seen text run }
{
    text.from <= run && run < text.till
}

// The span that begins at a place, where those behind it are made.
fn span_at(texts: &[SeenText], spans: &[Span], at: usize) -> Span
    requires count { length spans.now ≡ length texts.now }
    requires within { at < length texts.now }
    requires behind { FitSpansFrom (at + 1) texts.now spans.now }
    ensures { FitsSpan texts.now at result }
{
    let text = texts[at];
    let alone = Span {
        end: at + 1,
        from: text.from,
        till: text.till,
    };
    if alone.end == texts.len() {
        return alone;
    }
    let near = spans[alone.end];
    if near.end == texts.len() {
        return alone;
    }
    let far = spans[near.end];
    if far.end - near.end != near.end - alone.end {
        return alone;
    }
    Span {
        end: far.end,
        from: text.from.min(near.from).min(far.from),
        till: text.till.max(near.till).max(far.till),
    }
}

// Spans without a text, of this number.
fn no_spans<'a>(count: usize, bump: &'a Bump) -> Result<&'a mut [Span], NoMemory>
    ensures { IfOk result (λ spans. length spans.now ≡ count) }
{
    let none = Span {
        end: 0,
        from: u32::MAX,
        till: 0,
    };
    let mut spans = Vec::with_capacity(bump, count)?;
    spans.resize(count, none)?;
    Ok(into_bump_slice_mut(spans))
}

// The spans that begin at each place.
fn spans_of<'a>(texts: &[SeenText], bump: &'a Bump) -> Result<&'a [Span], NoMemory>
    ensures { IfOk result (λ spans. FitSpans texts.now spans.now) }
{
    let mut at = texts.len();
    let spans = no_spans(at, bump)?;
    while at > 0 {
        at -= 1;
        spans[at] = span_at(texts, spans, at);
    }
    Ok(spans)
}

/// Texts, with which of them a run sees. A contract sees the list of texts.
#[derive(Drop)]
pub(crate) struct Visible<'a> {
    texts: &'a [SeenText],
    spans: &'a [Span],
}

impl<'a> Model for Visible<'a> {
    ghost use Rattle.std.specs.Prelude.{List};
    ghost use Rattle.branch_runs.specs.declared.seen.SeenText.{SeenText};
    ghost use Rattle.branch_runs.specs.Visible.{FitSpans};

    ghost Value = { List SeenText };

    ghost view = { λ v. v.texts.now };

    ghost invariant = { λ v. FitSpans v.texts.now v.spans.now };
}

impl<'a> Visible<'a> {
    /// What a run sees of these texts. Want of memory is the only error.
    pub fn make(texts: &'a [SeenText], bump: &'a Bump) -> Result<Visible<'a>, NoMemory>
        ensures { IfOk result (λ visible. visible ≡ texts.now) }
    {
        let spans = spans_of(texts, bump)?;
        Ok(Visible { texts, spans })
    }

    /// How many texts there are.
    pub fn len(&self) -> usize
        ensures { result ≡ length self.now }
    {
        self.texts.len()
    }

    /// The text at a place.
    pub fn text(&self, at: usize) -> SeenText
        requires { at < length self.now }
        ensures { result ≡ text_at self.now at }
    {
        let texts = self.texts;
        texts[at]
    }

    /// The first text from this place on that a run sees.
    pub fn next(&self, at: usize, run: u32) -> Option<usize>
        ensures few { length self.now < 2 ^ 64 }
        ensures next { MatchOption result
            (NoneSeen self.now at (length self.now) run)
            (λ k. (at ≤ k) × (k < length self.now) × IsSeenAt self.now k run × NoneSeen self.now at k run) }
    {
        let mut place = at;
        while place < self.texts.len() {
            if is_seen(self.texts[place], run) {
                return Some(place);
            }
            let span = self.spans[place];
            if span.from <= run && run < span.till {
                place += 1;
            } else {
                place = span.end;
            }
        }
        None
    }
}
