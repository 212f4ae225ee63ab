//! The blanks between two tokens that stand in one row.
//!
//! One table decides, by the roles of the two tokens: `docs/PROFILE.md`, "Spaces without a break". It is
//! read from the top, and the first row whose condition holds decides.

mod laws;

ghost use Rattle.std.specs.Prelude.{◌≡◌, ◌≤◌};
ghost use Rattle.style_table.specs.Range.{IsInRange};
ghost use Rattle.layout_tables.specs.Spaces.{as_before, one_if, is_attached, is_line_comment, is_never, is_always};
ghost use Rattle.layout_tables.specs.Spaces.{is_left, is_right, later_rows, spaces_by_table, spaces_before};
ghost use Rattle.line_tokens.specs.Table.{first_row};
ghost use Rattle.layout_tables.specs.Told.{TellBlanks, group_before, group_behind};

pub use laws::keeps_apart;
use line_tokens::{ItemKind, LineTok, Role};
use style_table::{PointerAlignment, SpaceBeforeParens, Style};

/// As many blanks as the input had, at most one.
fn as_before(right: &LineTok) -> u8
    ensures { result ≡ as_before right.now }
{
    if right.gap.empty { 0 } else { 1 }
}

/// One blank or none.
fn one_if(holds: bool) -> u8
    ensures { result ≡ one_if holds }
{
    if holds { 1 } else { 0 }
}

/// What stands directly behind the token before it.
fn is_attached(role: Role) -> bool
    ensures { result ≡ is_attached role }
{
    matches!(role, Role::IndexOpen | Role::Postfix | Role::LabelColon)
}

fn is_line_comment(kind: ItemKind) -> bool
    ensures { result ≡ is_line_comment kind }
{
    matches!(kind, ItemKind::LineComment)
}

fn is_never(key: SpaceBeforeParens) -> bool
    ensures { result ≡ is_never key }
{
    matches!(key, SpaceBeforeParens::Never)
}

fn is_always(key: SpaceBeforeParens) -> bool
    ensures { result ≡ is_always key }
{
    matches!(key, SpaceBeforeParens::Always)
}

fn is_left(key: PointerAlignment) -> bool
    ensures { result ≡ is_left key }
{
    matches!(key, PointerAlignment::Left)
}

fn is_right(key: PointerAlignment) -> bool
    ensures { result ≡ is_right key }
{
    matches!(key, PointerAlignment::Right)
}

/// The table's last rows, a row a branch.
#[inline(always)]
fn by_later_rows(style: &Style, left: &LineTok, right: &LineTok) -> u8
    ensures row { result ≡ first_row (later_rows style.now left.now right.now) 1 }
    ensures few { result ≤ 16 }
{
    let (left_role, right_role) = (left.role, right.role);
    if right_role.is_ctrl_open() {
        one_if(!is_never(style.space_before_parens))
    } else if right_role.is_call_or_decl_open() {
        one_if(is_always(style.space_before_parens))
    } else if is_attached(right_role) {
        0
    } else if left_role.is_unary_or_prefix() {
        0
    } else if left_role.is_member_or_desig_dot() || right_role.is_member() {
        0
    } else if left_role.is_cast_close() {
        one_if(style.space_after_c_style_cast)
    } else if left_role.is_pointer() && right_role.is_pointer() {
        0
    } else if right_role.is_pointer() {
        one_if(!is_left(style.pointer_alignment))
    } else if left_role.is_pointer() {
        one_if(!is_right(style.pointer_alignment))
    } else if left_role.is_asm_colon() && right_role.is_asm_colon() {
        as_before(right)
    } else {
        1
    }
}

/// The table, a row a branch.
fn by_table(style: &Style, left: &LineTok, right: &LineTok) -> u8
    requires { IsInRange style.now }
    ensures row { result ≡ spaces_by_table style.now left.now right.now }
    ensures few { result ≤ 16 }
{
    let (left_role, right_role) = (left.role, right.role);
    if right_role.is_trailing() {
        if is_line_comment(right.kind) {
            style.spaces_before_trailing_comments as u8
        } else {
            1
        }
    } else if right_role.is_comma_or_semi() {
        0
    } else if left_role.is_bracket_open() || right_role.is_bracket_close() {
        0
    } else if (left_role.is_list_open() && right_role.is_list_close())
        || (left_role.is_block_open() && right_role.is_block_close())
    {
        0
    } else if left_role.is_list_open() || right_role.is_list_close() {
        one_if(!style.cpp11_braced_list_style)
    } else if left_role.is_inner_or_stray() || right_role.is_inner_or_stray() {
        as_before(right)
    } else {
        by_later_rows(style, left, right)
    }
}

/// The rows of the table fall into ten groups, in order. This is the first one of which a row may hold behind a token
/// with this role, whatever follows.
#[inline(always)]
fn group_behind(left: Role) -> usize
    ensures is { result ≡ group_behind left }
    ensures few { result ≤ 9 }
{
    match left {
        Role::CtrlOpen
        | Role::CallOpen
        | Role::CastOpen
        | Role::DeclOpen
        | Role::GroupOpen
        | Role::IndexOpen
        | Role::DesigOpen => 1,
        Role::ListOpen => 2,
        Role::Inner | Role::Stray => 3,
        Role::Unary | Role::Prefix | Role::Member | Role::DesigDot => 6,
        Role::CastClose => 7,
        Role::Pointer => 8,
        _ => 9,
    }
}

/// The first group of which a row may hold before a token with this role, whatever stands before it. That is 0 where
/// the roles don't tell the blanks.
#[inline(always)]
fn group_before(right: Role) -> usize
    ensures is { result ≡ group_before right }
    ensures few { result ≤ 9 }
{
    match right {
        Role::Trailing
        | Role::ListClose
        | Role::BlockClose
        | Role::Inner
        | Role::Stray
        | Role::Pointer
        | Role::AsmColon => 0,
        Role::Comma
        | Role::Semi
        | Role::CtrlClose
        | Role::CallClose
        | Role::CastClose
        | Role::DeclClose
        | Role::GroupClose
        | Role::IndexClose
        | Role::DesigClose => 1,
        Role::CtrlOpen => 4,
        Role::CallOpen | Role::DeclOpen => 5,
        Role::IndexOpen | Role::Postfix | Role::LabelColon | Role::Member => 6,
        _ => 9,
    }
}

/// The blanks before the right token, by the table. A gap that had bytes keeps one where the two tokens may not touch.
#[inline(never)]
fn by_rows(style: &Style, left: &LineTok, right: &LineTok) -> u8
    requires { IsInRange style.now }
    ensures table { result ≡ spaces_before style.now left.now right.now }
    ensures few { result ≤ 16 }
{
    let spaces = by_table(style, left, right);
    if spaces == 0 && !right.gap.empty && !right.touch {
        1
    } else {
        spaces
    }
}

/// What the groups of rows say; more than one blank where that isn't known, and the table is read.
#[derive(Clone, Copy)]
pub struct RowBlanks {
    /// The blanks of each group.
    pub of_group: [u8; 10],
}

/// What the groups say in each style.
const IN_EACH_STYLE: RowBlanks = RowBlanks {
    of_group: [2, 0, 2, 2, 2, 2, 0, 2, 2, 1],
};

impl RowBlanks {
    /// What the groups say in a style, told once for many gaps.
    pub fn of(style: &Style) -> RowBlanks
        ensures { TellBlanks style.now result.of_group }
    {
        RowBlanks {
            of_group: [
                2,
                0,
                one_if(!style.cpp11_braced_list_style),
                2,
                one_if(!is_never(style.space_before_parens)),
                one_if(is_always(style.space_before_parens)),
                0,
                one_if(style.space_after_c_style_cast),
                one_if(!is_right(style.pointer_alignment)),
                1,
            ],
        }
    }

    /// The blanks before the right token, as [`spaces_before`] tells them. For most pairs the groups tell them, and the
    /// table isn't read.
    #[inline(always)]
    pub fn before(&self, style: &Style, left: &LineTok, right: &LineTok) -> u8
        requires range { IsInRange style.now }
        requires tell { TellBlanks style.now self.now.of_group }
        ensures table { result ≡ spaces_before style.now left.now right.now }
        ensures few { result ≤ 16 }
    {
        let group = group_behind(left.role).min(group_before(right.role));
        let blanks = self.of_group[group];
        if blanks > 1 {
            return by_rows(style, left, right);
        }
        blanks | one_if(!right.gap.empty & !right.touch)
    }
}

/// The blanks before the right token, in columns, where the gap between the two doesn't break. At most 16.
///
/// A gap that had bytes keeps a blank where the two tokens without one could be read as something else.
#[inline(always)]
pub fn spaces_before(style: &Style, left: &LineTok, right: &LineTok) -> u8
    requires { IsInRange style.now }
    ensures table { result ≡ spaces_before style.now left.now right.now }
    ensures few { result ≤ 16 }
{
    IN_EACH_STYLE.before(style, left, right)
}
