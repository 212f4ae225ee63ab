//! The style: one field for each key of a configuration.

/// How a text is laid out. `docs/PROFILE.md`, "Styles", says what each key means.
///
/// The numbers of a style are in their keys' ranges where `IsInRange` holds of it, and the calls that
/// rely on that ask for it.
#[derive(Clone, Copy)]
pub struct Style {
    /// The column that a row should not pass, 0 where there is none.
    pub column_limit: u32,
    /// The columns of one level.
    pub indent_width: u32,
    /// The columns by which a broken line's further rows are indented.
    pub continuation_indent_width: u32,
    /// The columns of a tab.
    pub tab_width: u32,
    /// Where tabs indent.
    pub use_tab: UseTab,
    /// Which opening braces begin a line.
    pub break_before_braces: BreakBeforeBraces,
    /// With `Custom` braces: the brace of a case label's block begins a line.
    pub brace_wrapping_after_case_label: bool,
    /// With `Custom` braces: the brace of an enum begins a line.
    pub brace_wrapping_after_enum: bool,
    /// With `Custom` braces: the brace of an extern block begins a line.
    pub brace_wrapping_after_extern_block: bool,
    /// With `Custom` braces: the brace of a function begins a line.
    pub brace_wrapping_after_function: bool,
    /// With `Custom` braces: the brace of a struct begins a line.
    pub brace_wrapping_after_struct: bool,
    /// With `Custom` braces: the brace of a union begins a line.
    pub brace_wrapping_after_union: bool,
    /// With `Custom` braces: an `else` behind a closing brace begins a line.
    pub brace_wrapping_before_else: bool,
    /// With `Custom` braces: the `while` of a `do` begins a line.
    pub brace_wrapping_before_while: bool,
    /// With `Custom` braces: whether the brace of a control statement begins a line.
    pub brace_wrapping_after_control_statement: BraceWrappingAfterControlStatement,
    /// On which side of a declarator's `*` blanks stand.
    pub pointer_alignment: PointerAlignment,
    /// Before which opening parentheses a blank stands.
    pub space_before_parens: SpaceBeforeParens,
    /// Where further rows stand inside brackets.
    pub align_after_open_bracket: AlignAfterOpenBracket,
    /// The arguments of a call may be spread over rows, several in a row.
    pub bin_pack_arguments: bool,
    /// The parameters of a function may be spread over rows, several in a row.
    pub bin_pack_parameters: bool,
    /// Which binary operators begin a row rather than end one.
    pub break_before_binary_operators: BreakBeforeBinaryOperators,
    /// `?` and its `:` begin a row rather than end one.
    pub break_before_ternary_operators: bool,
    /// The empty lines that are kept, at most.
    pub max_empty_lines_to_keep: u32,
    /// Empty lines behind a block's opening brace are kept too.
    pub keep_empty_lines_at_the_start_of_blocks: bool,
    /// Case labels are one level deeper than their switch.
    pub indent_case_labels: bool,
    /// Goto labels are indented by their level rather than at column 0.
    pub indent_goto_labels: bool,
    /// Where directives inside conditionals are indented.
    pub indent_pp_directives: IndentPPDirectives,
    /// Which functions stand on one line.
    pub allow_short_functions_on_a_single_line: AllowShortFunctionsOnASingleLine,
    /// Which `if` statements stand on one line.
    pub allow_short_if_statements_on_a_single_line: AllowShortIfStatementsOnASingleLine,
    /// Loops with one short statement stand on one line.
    pub allow_short_loops_on_a_single_line: bool,
    /// Which blocks of control statements stand on one line.
    pub allow_short_blocks_on_a_single_line: AllowShortBlocksOnASingleLine,
    /// Case labels with short statements stand on one line.
    pub allow_short_case_labels_on_a_single_line: bool,
    /// Short enums stand on one line.
    pub allow_short_enums_on_a_single_line: bool,
    /// The blanks before a line comment that ends a line.
    pub spaces_before_trailing_comments: u32,
    /// A blank stands behind a cast.
    pub space_after_c_style_cast: bool,
    /// No blank stands inside the braces of a list.
    pub cpp11_braced_list_style: bool,
    /// Where the backslashes that end the lines of a directive stand.
    pub align_escaped_newlines: AlignEscapedNewlines,
    /// Whether the trailing comments of rows that follow one another stand in one column.
    pub align_trailing_comments_kind: AlignTrailingCommentsKind,
    /// How lines end.
    pub line_ending: LineEnding,
    /// The last line gets a line end where it has none.
    pub insert_newline_at_eof: bool,
    /// The bodies of macro definitions stay as they are.
    pub skip_macro_definition_body: bool,
    /// What a break at an assignment costs.
    pub penalty_break_assignment: u32,
    /// What a break behind the parenthesis of a call costs.
    pub penalty_break_before_first_call_parameter: u32,
    /// What a break behind any opening parenthesis costs besides.
    pub penalty_break_open_parenthesis: u32,
    /// What each column past the limit costs.
    pub penalty_excess_character: u32,
    /// What a break before the name of a declared function costs.
    pub penalty_return_type_on_its_own_line: u32,
}

/// Where tabs indent.
#[derive(Clone, Copy)]
pub enum UseTab {
    /// Nowhere.
    Never,
    /// In the columns of a line's level.
    ForIndentation,
    /// In all of a row's indentation.
    ForContinuationAndIndentation,
    /// In the columns of a line's level.
    AlignWithSpaces,
    /// In all of a row's indentation.
    Always,
}

/// Which opening braces begin a line.
#[derive(Clone, Copy)]
pub enum BreakBeforeBraces {
    /// None.
    Attach,
    /// Those of functions.
    Linux,
    /// Those of functions, structs, unions, enums and extern blocks.
    Mozilla,
    /// Those of functions; an `else` begins a line too.
    Stroustrup,
    /// All; an `else` begins a line too.
    Allman,
    /// Those of functions.
    WebKit,
    /// As the keys under `BraceWrapping` say.
    Custom,
}

/// Whether the brace of a control statement begins a line.
#[derive(Clone, Copy)]
pub enum BraceWrappingAfterControlStatement {
    /// It ends the statement's line.
    Never,
    /// It begins a line.
    Always,
}

/// On which side of a declarator's `*` blanks stand.
#[derive(Clone, Copy)]
pub enum PointerAlignment {
    /// Before it, as in `int *a`.
    Right,
    /// Behind it, as in `int* a`.
    Left,
    /// On both sides, as in `int * a`.
    Middle,
}

/// Before which opening parentheses a blank stands.
#[derive(Clone, Copy)]
pub enum SpaceBeforeParens {
    /// Those of control statements.
    ControlStatements,
    /// None.
    Never,
    /// Those of control statements, calls and declared functions.
    Always,
}

/// Where further rows stand inside brackets.
#[derive(Clone, Copy)]
pub enum AlignAfterOpenBracket {
    /// Below what follows the bracket.
    Align,
    /// At the indentation of a further row.
    DontAlign,
    /// At the indentation of a further row, with a break behind the bracket first.
    AlwaysBreak,
}

/// Which binary operators begin a row rather than end one.
#[derive(Clone, Copy)]
pub enum BreakBeforeBinaryOperators {
    /// None.
    None,
    /// All but assignments.
    NonAssignment,
    /// All, assignments among them.
    All,
}

/// Where directives inside conditionals are indented.
#[derive(Clone, Copy)]
pub enum IndentPPDirectives {
    /// Nowhere.
    None,
    /// Behind the `#`.
    AfterHash,
    /// Before the `#`.
    BeforeHash,
}

/// Which functions stand on one line.
#[derive(Clone, Copy)]
pub enum AllowShortFunctionsOnASingleLine {
    /// All that are short enough.
    All,
    /// None.
    None,
    /// Those of a class, so none in C.
    InlineOnly,
    /// Those with nothing between their braces.
    Empty,
    /// Those with nothing between their braces, in C.
    Inline,
}

/// Which `if` statements stand on one line.
#[derive(Clone, Copy)]
pub enum AllowShortIfStatementsOnASingleLine {
    /// None.
    Never,
    /// Those without an `else`.
    WithoutElse,
    /// Those, and the `if` before an `else`.
    OnlyFirstIf,
    /// All of them, with each `else`.
    AllIfsAndElse,
}

/// Which blocks of control statements stand on one line.
#[derive(Clone, Copy)]
pub enum AllowShortBlocksOnASingleLine {
    /// None.
    Never,
    /// Those with nothing between their braces.
    Empty,
    /// Those with at most one statement.
    Always,
}

/// Where the backslashes that end the lines of a directive stand.
#[derive(Clone, Copy)]
pub enum AlignEscapedNewlines {
    /// In the last column.
    Right,
    /// One blank behind the longest row.
    Left,
    /// One blank behind each row.
    DontAlign,
}

/// Whether the trailing comments of rows that follow one another stand in one column.
#[derive(Clone, Copy, PartialEq, Eq)]
pub enum AlignTrailingCommentsKind {
    /// They do.
    Always,
    /// Each stands directly behind its row.
    Never,
}

/// How lines end.
#[derive(Clone, Copy)]
pub enum LineEnding {
    /// As most lines of the input do, in `\n` where there are as many of both.
    DeriveLF,
    /// As most lines of the input do, in `\r\n` where there are as many of both.
    DeriveCRLF,
    /// In `\n`.
    LF,
    /// In `\r\n`.
    CRLF,
}
