//! What the breakings of a line cost at least beyond a layout.

ghost use Rattle.std.specs.Prelude.{◌≡◌, ℕ, ◌+◌, ◌<◌, Some, length, slice_get, IfOk, if◌then◌else◌, min};
ghost use Rattle.style_table.specs.Range.{IsInRange};
ghost use Rattle.line_state.specs.Layout.{AreRules};
ghost use Rattle.line_state.specs.Beside.{IsAsideIfLess};
ghost use Rattle.searched_line.specs.Ahead.{can_stay, stretch_with, no_stretch, stretch_in, HaveStretches};
ghost use Rattle.searched_line.specs.Searched.{line_of};
ghost use Rattle.searched_line.specs.Rules.{rules_in, IsGapAhead, HaveGaps};

use crate::line::{decision_of, token_at};
use bumpalo::Bump;
use bumpalo::collections::into_bump_slice;
use layout_tables::GapRule;
use line_state::{GapRules, NoMemory, gap_rules, has_to_stay, width_aside, width_below};
use line_tokens::{Fixed, LineTok};
use style_table::Style;

/// The tokens ahead that may stand on one row, each behind a gap that may stay.
#[derive(Clone, Copy)]
pub(crate) struct Stretch {
    /// How wide they are on one row.
    pub width: u32,
    /// What a break among them costs at least: the largest number where none may break.
    pub least: u64,
}

/// What is known of a gap and the tokens behind it, whatever stands before it in its line. The numbers stand beside
/// each other, so that it is made and read without a copy.
#[derive(Clone, Copy)]
pub(crate) struct GapAhead {
    /// What a break costs where it may break and need not, as the tables say.
    pub cost: u64,
    /// What a break in the stretch of its token and those behind it costs at least: the largest number where none may
    /// break.
    pub least: u64,
    /// How wide that stretch is on one row.
    pub width: u32,
    /// How far the token behind it moves the column where it stays, as `width_aside` tells it.
    pub aside: u32,
    /// How wide the row is that the token begins where it breaks, as `width_below` tells it.
    pub row: u32,
    /// The blanks in it where it doesn't break.
    pub spaces: u8,
    /// It may break, as the tables say.
    pub can: bool,
    /// It has to break, as the tables say.
    pub must: bool,
    /// No break may be in it, whatever frames are open.
    pub stays: bool,
}

impl GapAhead {
    /// What the tables say of it.
    #[inline(always)]
    pub fn rules(&self) -> GapRules
        ensures { result ≡ rules_in self.now }
    {
        GapRules {
            rule: GapRule {
                can: self.can,
                must: self.must,
                cost: self.cost,
            },
            spaces: self.spaces,
        }
    }

    /// The stretch of its token and those behind it.
    #[inline(always)]
    pub fn stretch(&self) -> Stretch
        ensures { result ≡ stretch_in self.now }
    {
        Stretch {
            width: self.width,
            least: self.least,
        }
    }
}

/// What is known where nothing is.
fn no_stretch() -> Stretch
    ensures { result ≡ no_stretch }
{
    Stretch {
        width: 0,
        least: u64::MAX,
    }
}

/// Whether a gap may stay, where its token is one row whose columns past the limit cost.
fn stays(rules: &GapRules, token: &LineTok, decision: Option<Fixed>) -> bool
    ensures { result ≡ can_stay rules.now.rule token.now decision }
{
    decision.is_none()
        && !rules.rule.must
        && !token.role.is_trailing()
        && token.rows <= 1
        && token.first_width == token.last_width
}

/// The lesser of two costs where the first one counts, and otherwise the second. Which gaps can break can't be
/// foreseen, so that isn't asked.
#[inline(always)]
fn least_where(counts: bool, cost: u64, other: u64) -> u64
    ensures { result ≡ (if counts then min cost other else other) }
{
    other - u64::from(counts) * other.saturating_sub(cost)
}

/// How far a gap's token moves the column where it stays, and the stretch of it and the tokens behind it.
#[inline(always)]
fn row_ahead(
    style: &Style,
    left: &LineTok,
    right: &LineTok,
    decision: Option<Fixed>,
    rules: &GapRules,
    next: Stretch,
) -> (u32, Stretch)
    requires { AreRules style.now left.now right.now rules.now }
    ensures aside { IsAsideIfLess style.now left.now right.now decision result.0 }
    ensures stretch { result.1 ≡ stretch_with rules.now right.now decision next }
{
    if !stays(rules, right, decision) {
        return (u32::MAX, no_stretch());
    }
    let width = u32::from(rules.spaces).saturating_add(right.first_width);
    let stretch = Stretch {
        width: width.saturating_add(next.width),
        least: least_where(rules.rule.can, rules.rule.cost, next.least),
    };
    (width_aside(style, left, right, decision, rules), stretch)
}

/// What is known of the gap between two tokens, before the stretch of those behind them.
#[inline(always)]
fn gap_ahead(
    style: &Style,
    left: &LineTok,
    right: &LineTok,
    decision: Option<Fixed>,
    next: Stretch,
) -> GapAhead
    requires { IsInRange style.now }
    ensures gap { IsGapAhead style.now left.now right.now decision result }
    ensures stretch { stretch_in result ≡ stretch_with (rules_in result) right.now decision next }
{
    let rules = gap_rules(style, left, right);
    let (aside, stretch) = row_ahead(style, left, right, decision, &rules, next);
    let row = width_below(style, left, right, aside, &rules);
    GapAhead {
        cost: rules.rule.cost,
        least: stretch.least,
        width: stretch.width,
        aside,
        row,
        spaces: rules.spaces,
        can: rules.rule.can,
        must: rules.rule.must,
        stays: has_to_stay(style, left, right, decision, &rules),
    }
}

/// What is known where no gap lies.
#[inline(always)]
fn no_gap() -> GapAhead
    ensures { stretch_in result ≡ no_stretch }
{
    let stretch = no_stretch();
    GapAhead {
        cost: 0,
        least: stretch.least,
        width: stretch.width,
        aside: u32::MAX,
        row: u32::MAX,
        spaces: 0,
        can: false,
        must: false,
        stays: false,
    }
}

/// What is known of the gap before which so many tokens are left.
#[inline(always)]
pub(crate) fn gap_at(gaps: &[GapAhead], left: usize) -> &GapAhead
    requires { left < length gaps.now }
    ensures { slice_get gaps.now left ≡ Some result.now }
{
    &gaps[left]
}

/// What is known of each gap inside a line, by how many tokens are left there.
pub(crate) fn gaps_of<'r>(
    style: &Style,
    tokens: &[LineTok],
    fixed: &[Option<Fixed>],
    run: &'r Bump,
) -> Result<&'r [GapAhead], NoMemory>
    requires range { IsInRange style.now }
    requires some { 0 < length tokens.now }
    ensures gaps { IfOk result (λ gaps. HaveGaps style.now tokens.now fixed.now gaps.now) }
    ensures stretches { IfOk result
        (λ gaps. (column : ℕ) → HaveStretches (line_of style.now column tokens.now fixed.now) gaps.now) }
{
    let count = tokens.len();
    let mut gaps = Vec::with_capacity(run, count + 1)?;
    let mut next = no_stretch();
    gaps.push_reserved(no_gap());
    for left in 0..count - 1 {
        let at = count - 1 - left;
        let beside = token_at(tokens, at - 1);
        let token = token_at(tokens, at);
        let gap = gap_ahead(style, beside, token, decision_of(fixed, at), next);
        next = gap.stretch();
        // It is written to its place at once: `push` would hold it ready to be handed back.
        gaps.push_reserved(gap);
    }
    gaps.push_reserved(no_gap());
    Ok(into_bump_slice(gaps))
}
