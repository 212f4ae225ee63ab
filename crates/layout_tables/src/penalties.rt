//! Whether a row may end between two tokens, and what that costs.
//!
//! One table decides, by the roles of the two tokens: `docs/PROFILE.md`, "Breaks". It is read from the
//! top, and the first row whose condition holds decides.

ghost use Rattle.std.specs.Prelude.{◌≡◌, ◌<◌, ◌^◌, ◌==◌, ◌||◌, ◌&&◌, not, IsTrue, false};
ghost use Rattle.line_tokens.specs.Roles.{is_own};
ghost use Rattle.style_table.specs.declared.style.Style.{Style};
ghost use Rattle.layout_tables.specs.Breaks.{ends_its_row, is_string, is_all, is_behind, is_never_first, is_never_last};
ghost use Rattle.layout_tables.specs.Breaks.{is_assignment_gap, operator_side, ternary_side, break_by_table, cost_in};
ghost use Rattle.layout_tables.specs.Breaks.{cost_rows, gap_rule};
ghost use Rattle.layout_tables.specs.declared.penalties.Break.TheVariants.{Not};
ghost use Rattle.line_tokens.specs.Table.{first_row};

use line_tokens::{ItemKind, LineTok, Role};
use style_table::{BreakBeforeBinaryOperators, Style};

/// Whether a row may end in a gap, and what that costs.
#[derive(Clone, Copy, PartialEq, Eq, Debug)]
pub struct GapRule {
    /// A row may end here.
    pub can: bool,
    /// A row has to end here.
    pub must: bool,
    /// What it costs where a row may end here and need not, otherwise 0.
    pub cost: u64,
}

/// What a row of the table says.
#[derive(Clone, Copy)]
enum Break {
    /// The gap breaks.
    Must,
    /// The gap doesn't break.
    Not,
    /// The gap can break at this cost.
    Costs(u64),
}

/// What reaches to the end of its line.
fn ends_its_row(kind: ItemKind) -> bool
    ensures { result ≡ ends_its_row kind }
{
    matches!(kind, ItemKind::LineComment | ItemKind::StrayQuote)
}

fn is_string(kind: ItemKind) -> bool
    ensures { result ≡ is_string kind }
{
    matches!(kind, ItemKind::StringLit)
}

/// Binary operators and assignments begin rows.
fn is_all(key: BreakBeforeBinaryOperators) -> bool
    ensures { result ≡ is_all key }
{
    matches!(key, BreakBeforeBinaryOperators::All)
}

/// Binary operators end rows.
fn is_behind(key: BreakBeforeBinaryOperators) -> bool
    ensures { result ≡ is_behind key }
{
    matches!(key, BreakBeforeBinaryOperators::None)
}

/// What no row begins with.
fn is_never_first(role: Role) -> bool
    ensures { result ≡ is_never_first role }
{
    matches!(
        role,
        Role::Comma
            | Role::Semi
            | Role::Trailing
            | Role::CtrlOpen
            | Role::CallOpen
            | Role::DeclOpen
            | Role::IndexOpen
            | Role::IndexClose
            | Role::CtrlClose
            | Role::CallClose
            | Role::CastClose
            | Role::DeclClose
            | Role::GroupClose
            | Role::ListClose
            | Role::Postfix
            | Role::LabelColon
            | Role::BlockOpen
    )
}

/// What no row ends with.
fn is_never_last(role: Role) -> bool
    ensures { result ≡ is_never_last role }
{
    matches!(
        role,
        Role::Unary
            | Role::Prefix
            | Role::CastClose
            | Role::Pointer
            | Role::IndexOpen
            | Role::DesigOpen
            | Role::Member
            | Role::DesigDot
    )
}

/// An assignment breaks before its operator where operators of all kinds begin rows, and otherwise behind
/// it where no list follows.
fn is_assignment_gap(style: &Style, left: &LineTok, right: &LineTok) -> bool
    ensures { result ≡ is_assignment_gap style.now left.now right.now }
{
    if is_all(style.break_before_binary_operators) {
        right.role.is_assign()
    } else {
        left.role.is_assign() && !right.role.is_list_open()
    }
}

/// The token that a binary operator is looked for at.
fn operator_side<'t>(style: &Style, left: &'t LineTok, right: &'t LineTok) -> &'t LineTok
    ensures { result.now ≡ operator_side style.now left.now right.now }
{
    if is_behind(style.break_before_binary_operators) {
        left
    } else {
        right
    }
}

/// The token that `?` or its `:` is looked for at.
fn ternary_side<'t>(style: &Style, left: &'t LineTok, right: &'t LineTok) -> &'t LineTok
    ensures { result.now ≡ ternary_side style.now left.now right.now }
{
    if style.break_before_ternary_operators {
        right
    } else {
        left
    }
}

/// The table's last rows, a row a branch: where a row may end by the roles of both tokens.
#[inline(always)]
fn by_cost_rows(style: &Style, left: &LineTok, right: &LineTok) -> Break
    ensures row { result ≡ first_row (cost_rows style.now left.now right.now) Not }
    ensures small { cost_in result < 2 ^ 34 }
{
    let (left_role, right_role) = (left.role, right.role);
    if left_role.is_call_or_decl_open() {
        Break::Costs(
            u64::from(style.penalty_break_before_first_call_parameter)
                + u64::from(style.penalty_break_open_parenthesis),
        )
    } else if left_role.is_ctrl_or_group_open() {
        Break::Costs(100 + u64::from(style.penalty_break_open_parenthesis))
    } else if left_role.is_comma_or_semi() {
        Break::Costs(1)
    } else if left_role.is_list_open() {
        Break::Costs(10)
    } else if is_assignment_gap(style, left, right) {
        Break::Costs(u64::from(style.penalty_break_assignment))
    } else if operator_side(style, left, right).role.is_binary() {
        Break::Costs(u64::from(operator_side(style, left, right).power))
    } else if ternary_side(style, left, right).role.is_ternary() {
        Break::Costs(3)
    } else if is_string(left.kind) && is_string(right.kind) {
        Break::Costs(10)
    } else if left_role.is_round_close() && right_role.is_member() {
        Break::Costs(150)
    } else if right_role.is_asm_colon() && !left_role.is_asm_colon() {
        Break::Costs(1)
    } else {
        Break::Not
    }
}

/// The table, a row a branch.
#[inline(always)]
fn by_table(style: &Style, left: &LineTok, right: &LineTok) -> Break
    ensures row { result ≡ break_by_table style.now left.now right.now }
    ensures small { cost_in result < 2 ^ 34 }
{
    let (left_role, right_role) = (left.role, right.role);
    if right.directive || ends_its_row(left.kind) || right_role.is_own() {
        Break::Must
    } else if right.trailing_list {
        Break::Must
    } else if style.column_limit == 0 {
        if right.gap.lines == 0 {
            Break::Not
        } else {
            Break::Must
        }
    } else if right.held {
        Break::Not
    } else if right_role.is_decl_name() {
        Break::Costs(u64::from(style.penalty_return_type_on_its_own_line))
    } else if is_never_first(right_role) {
        Break::Not
    } else if is_never_last(left_role) {
        Break::Not
    } else {
        by_cost_rows(style, left, right)
    }
}

/// What the table says of the gap between two tokens of a line.
///
/// A break costs 20 more for each bracket beyond the first that is open at the gap.
#[inline(always)]
pub fn gap_rule(style: &Style, left: &LineTok, right: &LineTok) -> GapRule
    ensures rule { result ≡ gap_rule style.now left.now right.now }
    ensures can { IsTrue result.must → IsTrue result.can }
    ensures small { result.cost < 2 ^ 37 }
{
    match by_table(style, left, right) {
        Break::Must => GapRule {
            can: true,
            must: true,
            cost: 0,
        },
        Break::Not => GapRule {
            can: false,
            must: false,
            cost: 0,
        },
        Break::Costs(cost) => GapRule {
            can: true,
            must: false,
            cost: cost + 20 * u64::from(right.depth.saturating_sub(1)),
        },
    }
}

/// Whether one of the table's first rows holds, by which a row has to end.
#[inline(always)]
fn ends_by_first_rows(style: &Style, left: &LineTok, right: &LineTok) -> bool
    ensures { result
        ≡ ((((right.now.directive || right.now.trailing_list) || ends_its_row left.now.kind) || is_own right.now.role)
        || ((style.now.column_limit == 0) && not (right.now.gap.lines == 0))) }
{
    (right.directive | right.trailing_list | ends_its_row(left.kind) | right.role.is_own())
        || (style.column_limit == 0 && right.gap.lines != 0)
}

/// Whether a row has to end between two tokens, as [`gap_rule`] says.
#[inline(always)]
pub fn must_break(style: &Style, left: &LineTok, right: &LineTok) -> bool
    ensures { result ≡ (gap_rule style.now left.now right.now).must }
{
    ends_by_first_rows(style, left, right)
}
