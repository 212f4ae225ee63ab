//! The named styles.

ghost use Rattle.std.specs.Prelude.{◌≡◌, IfSome};
ghost use Rattle.style_table.specs.Named.{is_spelled, named_style, style_of, named};
ghost use Rattle.style_table.specs.Range.{IsInRange};

use crate::style::{
    AlignAfterOpenBracket, AlignEscapedNewlines, AlignTrailingCommentsKind,
    AllowShortBlocksOnASingleLine, AllowShortFunctionsOnASingleLine,
    AllowShortIfStatementsOnASingleLine, BraceWrappingAfterControlStatement,
    BreakBeforeBinaryOperators, BreakBeforeBraces, IndentPPDirectives, LineEnding,
    PointerAlignment, SpaceBeforeParens, Style, UseTab,
};

/// A style that has a name.
#[derive(Clone, Copy)]
enum NamedStyle {
    Llvm,
    Google,
    WebKit,
    Mozilla,
    Microsoft,
}

/// The style named LLVM.
const LLVM: Style = Style {
    column_limit: 80,
    indent_width: 2,
    continuation_indent_width: 4,
    tab_width: 8,
    use_tab: UseTab::Never,
    break_before_braces: BreakBeforeBraces::Attach,
    brace_wrapping_after_case_label: false,
    brace_wrapping_after_enum: false,
    brace_wrapping_after_extern_block: false,
    brace_wrapping_after_function: false,
    brace_wrapping_after_struct: false,
    brace_wrapping_after_union: false,
    brace_wrapping_before_else: false,
    brace_wrapping_before_while: false,
    brace_wrapping_after_control_statement: BraceWrappingAfterControlStatement::Never,
    pointer_alignment: PointerAlignment::Right,
    space_before_parens: SpaceBeforeParens::ControlStatements,
    align_after_open_bracket: AlignAfterOpenBracket::Align,
    bin_pack_arguments: true,
    bin_pack_parameters: true,
    break_before_binary_operators: BreakBeforeBinaryOperators::None,
    break_before_ternary_operators: true,
    max_empty_lines_to_keep: 1,
    keep_empty_lines_at_the_start_of_blocks: true,
    indent_case_labels: false,
    indent_goto_labels: true,
    indent_pp_directives: IndentPPDirectives::None,
    allow_short_functions_on_a_single_line: AllowShortFunctionsOnASingleLine::All,
    allow_short_if_statements_on_a_single_line: AllowShortIfStatementsOnASingleLine::Never,
    allow_short_loops_on_a_single_line: false,
    allow_short_blocks_on_a_single_line: AllowShortBlocksOnASingleLine::Never,
    allow_short_case_labels_on_a_single_line: false,
    allow_short_enums_on_a_single_line: true,
    spaces_before_trailing_comments: 1,
    space_after_c_style_cast: false,
    cpp11_braced_list_style: true,
    align_escaped_newlines: AlignEscapedNewlines::Right,
    align_trailing_comments_kind: AlignTrailingCommentsKind::Always,
    line_ending: LineEnding::DeriveLF,
    insert_newline_at_eof: false,
    skip_macro_definition_body: false,
    penalty_break_assignment: 2,
    penalty_break_before_first_call_parameter: 19,
    penalty_break_open_parenthesis: 0,
    penalty_excess_character: 1000000,
    penalty_return_type_on_its_own_line: 60,
};

/// The style named Google.
const GOOGLE: Style = Style {
    pointer_alignment: PointerAlignment::Left,
    keep_empty_lines_at_the_start_of_blocks: false,
    indent_case_labels: true,
    allow_short_if_statements_on_a_single_line: AllowShortIfStatementsOnASingleLine::WithoutElse,
    allow_short_loops_on_a_single_line: true,
    spaces_before_trailing_comments: 2,
    align_escaped_newlines: AlignEscapedNewlines::Left,
    penalty_break_before_first_call_parameter: 1,
    penalty_return_type_on_its_own_line: 200,
    ..LLVM
};

/// The style named WebKit.
const WEB_KIT: Style = Style {
    column_limit: 0,
    indent_width: 4,
    break_before_braces: BreakBeforeBraces::WebKit,
    pointer_alignment: PointerAlignment::Left,
    align_after_open_bracket: AlignAfterOpenBracket::DontAlign,
    break_before_binary_operators: BreakBeforeBinaryOperators::All,
    allow_short_blocks_on_a_single_line: AllowShortBlocksOnASingleLine::Empty,
    cpp11_braced_list_style: false,
    align_trailing_comments_kind: AlignTrailingCommentsKind::Never,
    ..LLVM
};

/// The style named Mozilla.
const MOZILLA: Style = Style {
    continuation_indent_width: 2,
    break_before_braces: BreakBeforeBraces::Mozilla,
    pointer_alignment: PointerAlignment::Left,
    bin_pack_arguments: false,
    bin_pack_parameters: false,
    indent_case_labels: true,
    allow_short_functions_on_a_single_line: AllowShortFunctionsOnASingleLine::Inline,
    cpp11_braced_list_style: false,
    penalty_return_type_on_its_own_line: 200,
    ..LLVM
};

/// The style named Microsoft.
const MICROSOFT: Style = Style {
    column_limit: 120,
    indent_width: 4,
    tab_width: 4,
    break_before_braces: BreakBeforeBraces::Custom,
    brace_wrapping_after_enum: true,
    brace_wrapping_after_extern_block: true,
    brace_wrapping_after_function: true,
    brace_wrapping_after_struct: true,
    brace_wrapping_before_else: true,
    brace_wrapping_after_control_statement: BraceWrappingAfterControlStatement::Always,
    allow_short_functions_on_a_single_line: AllowShortFunctionsOnASingleLine::None,
    allow_short_enums_on_a_single_line: false,
    penalty_return_type_on_its_own_line: 1000,
    ..LLVM
};

/// The styles that have names, in the order of `NamedStyle`.
const STYLES: &[Style] = &[LLVM, GOOGLE, WEB_KIT, MOZILLA, MICROSOFT];

/// Whether a name is this one, in letters of either case.
fn is_spelled(word: &str, name: &str) -> bool
    ensures { result ≡ is_spelled word.now name.now }
{
    name.eq_ignore_ascii_case(word)
}

impl NamedStyle {
    /// The style that a name names.
    fn find(name: &str) -> Option<NamedStyle>
        ensures { result ≡ named_style name.now }
    {
        if is_spelled("LLVM", name) {
            Some(NamedStyle::Llvm)
        } else if is_spelled("Google", name) {
            Some(NamedStyle::Google)
        } else if is_spelled("WebKit", name) {
            Some(NamedStyle::WebKit)
        } else if is_spelled("Mozilla", name) {
            Some(NamedStyle::Mozilla)
        } else if is_spelled("Microsoft", name) {
            Some(NamedStyle::Microsoft)
        } else {
            None
        }
    }

    /// The style that has the name.
    fn style(self) -> Style
        ensures { result ≡ style_of self }
    {
        STYLES[self as usize]
    }
}

impl Style {
    /// The style of this name, in letters of either case: LLVM, Google, WebKit, Mozilla or Microsoft.
    pub fn named(name: &str) -> Option<Style>
        ensures table { result ≡ named name.now }
        ensures range { IfSome result (λ style. IsInRange style) }
    {
        match NamedStyle::find(name) {
            Some(named) => Some(named.style()),
            None => None,
        }
    }
}
