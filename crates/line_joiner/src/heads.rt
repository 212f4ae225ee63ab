//! With which kinds of lines a row of the table begins that joins lines under a style.

ghost use Rattle.std.specs.Prelude.{◌≡◌, ◌<◌};
ghost use Rattle.style_table.specs.declared.style.Style.{Style};
ghost use Rattle.line_joiner.specs.Heads.{heads_of, heads_row, joins_blocks, joins_functions, joins_headers};
ghost use Rattle.line_joiner.specs.Heads.{joins_some_ifs, number_of};

use crate::keys::{
    joins_all_blocks, joins_all_functions, joins_elses, joins_empty_blocks, joins_empty_functions,
    joins_ifs, joins_ifs_with_else,
};
use crate::kinds::{
    is_case_label, is_control, is_enum_head, is_func_head, is_struct_head, may_have_else,
};
use line_tokens::LineKind;
use style_table::Style;

/// So many kinds of lines there are.
const KINDS: usize = 13;

/// For each kind of line, as they are listed, whether some row begins with it that the style has.
pub(crate) type Heads = [bool; KINDS];

#[inline(always)]
fn joins_functions(style: &Style) -> bool
    ensures { result ≡ joins_functions style.now }
{
    joins_empty_functions(style.allow_short_functions_on_a_single_line)
        || joins_all_functions(style.allow_short_functions_on_a_single_line)
}

#[inline(always)]
fn joins_some_ifs(style: &Style) -> bool
    ensures { result ≡ joins_some_ifs style.now }
{
    joins_ifs(style.allow_short_if_statements_on_a_single_line)
        || joins_ifs_with_else(style.allow_short_if_statements_on_a_single_line)
}

#[inline(always)]
fn joins_blocks(style: &Style) -> bool
    ensures { result ≡ joins_blocks style.now }
{
    joins_empty_blocks(style.allow_short_blocks_on_a_single_line)
        || joins_all_blocks(style.allow_short_blocks_on_a_single_line)
}

#[inline(always)]
fn joins_headers(style: &Style) -> bool
    ensures { result ≡ joins_headers style.now }
{
    joins_some_ifs(style) || style.allow_short_loops_on_a_single_line || joins_blocks(style)
}

/// Whether some row that the style has begins with a line of this kind.
#[inline(always)]
pub(crate) fn heads_row(style: &Style, kind: LineKind) -> bool
    ensures { result ≡ heads_row style.now kind }
{
    is_struct_head(kind)
        || (is_func_head(kind) && joins_functions(style))
        || (is_control(kind) && joins_headers(style))
        || (may_have_else(kind) && joins_elses(style.allow_short_if_statements_on_a_single_line))
        || (is_case_label(kind) && style.allow_short_case_labels_on_a_single_line)
        || (is_enum_head(kind) && style.allow_short_enums_on_a_single_line)
}

/// The same for each kind.
#[inline(always)]
pub(crate) fn heads_of(style: &Style) -> Heads
    ensures { result ≡ heads_of style.now }
{
    [
        heads_row(style, LineKind::Simple),
        heads_row(style, LineKind::CaseLabel),
        heads_row(style, LineKind::GotoLabel),
        heads_row(style, LineKind::Control),
        heads_row(style, LineKind::FuncHead),
        heads_row(style, LineKind::StructHead),
        heads_row(style, LineKind::EnumHead),
        heads_row(style, LineKind::ExternHead),
        heads_row(style, LineKind::Brace),
        heads_row(style, LineKind::Close),
        heads_row(style, LineKind::Enumerator),
        heads_row(style, LineKind::MacroLine),
        heads_row(style, LineKind::Comment),
    ]
}

/// Which kind it is, as they are listed.
#[inline(always)]
fn number_of(kind: LineKind) -> usize
    ensures same { result ≡ number_of kind }
    ensures low { result < 13 }
{
    kind as usize
}

/// Whether some row begins with a line of this kind, by what is told of each kind.
#[inline(always)]
pub(crate) fn is_head(heads: &Heads, kind: LineKind) -> bool
    ensures { (style : Style) → heads.now ≡ heads_of style → result ≡ heads_row style kind }
{
    heads[number_of(kind)]
}
