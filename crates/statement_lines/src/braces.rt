//! Where the braces of blocks stand, and how labels are indented.

ghost use Rattle.std.specs.Prelude.{◌≡◌};
ghost use Rattle.statement_lines.specs.Wrapping.{plain_braces, custom_braces, braces_of};

use style_table::{BraceWrappingAfterControlStatement, BreakBeforeBraces, Style};

/// What a style says of braces and labels.
#[derive(Clone, Copy, Drop)]
pub struct Braces {
    /// The `{` of a block behind a case label begins a line.
    pub after_case_label: bool,
    /// So does that of a control statement.
    pub after_control: bool,
    /// That of an enum.
    pub after_enum: bool,
    /// That of an extern block.
    pub after_extern: bool,
    /// That of a function.
    pub after_function: bool,
    /// That of a struct.
    pub after_struct: bool,
    /// That of a union.
    pub after_union: bool,
    /// An `else` begins a line, behind `}` too.
    pub before_else: bool,
    /// The `while` of a `do` begins a line, behind `}` too.
    pub before_while: bool,
    /// Case labels are one level deeper than their switch.
    pub indent_case_labels: bool,
    /// Named labels have one level less than their list, and otherwise level 0.
    pub indent_goto_labels: bool,
}

/// No `{` begins a line; labels as the style has them.
fn plain_braces(style: &Style) -> Braces
    ensures { result ≡ plain_braces style.now }
{
    Braces {
        after_case_label: false,
        after_control: false,
        after_enum: false,
        after_extern: false,
        after_function: false,
        after_struct: false,
        after_union: false,
        before_else: false,
        before_while: false,
        indent_case_labels: style.indent_case_labels,
        indent_goto_labels: style.indent_goto_labels,
    }
}

/// As the keys under `BraceWrapping` have it.
fn custom_braces(style: &Style) -> Braces
    ensures { result ≡ custom_braces style.now }
{
    Braces {
        after_case_label: style.brace_wrapping_after_case_label,
        after_control: matches!(
            style.brace_wrapping_after_control_statement,
            BraceWrappingAfterControlStatement::Always
        ),
        after_enum: style.brace_wrapping_after_enum,
        after_extern: style.brace_wrapping_after_extern_block,
        after_function: style.brace_wrapping_after_function,
        after_struct: style.brace_wrapping_after_struct,
        after_union: style.brace_wrapping_after_union,
        before_else: style.brace_wrapping_before_else,
        before_while: style.brace_wrapping_before_while,
        ..plain_braces(style)
    }
}

/// What a style says of braces and labels.
pub fn braces_of(style: &Style) -> Braces
    ensures { result ≡ braces_of style.now }
{
    let plain = plain_braces(style);
    match style.break_before_braces {
        BreakBeforeBraces::Attach => plain,
        BreakBeforeBraces::Linux | BreakBeforeBraces::WebKit => Braces {
            after_function: true,
            ..plain
        },
        BreakBeforeBraces::Mozilla => Braces {
            after_enum: true,
            after_extern: true,
            after_function: true,
            after_struct: true,
            after_union: true,
            ..plain
        },
        BreakBeforeBraces::Stroustrup => Braces {
            after_function: true,
            before_else: true,
            ..plain
        },
        BreakBeforeBraces::Allman => Braces {
            after_case_label: true,
            after_control: true,
            after_enum: true,
            after_extern: true,
            after_function: true,
            after_struct: true,
            after_union: true,
            before_else: true,
            ..plain
        },
        BreakBeforeBraces::Custom => custom_braces(style),
    }
}
