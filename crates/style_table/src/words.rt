//! The words that a configuration writes for the values of its keys.
//!
//! A table has each word that is read, and what it stands for. First stand the words that are written, in the order of
//! their values, and last those of older configurations.

ghost use Rattle.std.specs.Prelude.{◌≡◌, ◌≤◌, length, map};
ghost use Rattle.style_table.specs.Words.{value_in, bool_word, bool_words, use_tab_word, break_before_braces_word};
ghost use Rattle.style_table.specs.Words.{brace_wrapping_after_control_statement_word, pointer_alignment_word};
ghost use Rattle.style_table.specs.Words.{space_before_parens_word, align_after_open_bracket_word};
ghost use Rattle.style_table.specs.Words.{break_before_binary_operators_word, indent_pp_directives_word};
ghost use Rattle.style_table.specs.Words.{allow_short_functions_on_a_single_line_word};
ghost use Rattle.style_table.specs.Words.{allow_short_if_statements_on_a_single_line_word};
ghost use Rattle.style_table.specs.Words.{allow_short_blocks_on_a_single_line_word, align_escaped_newlines_word};
ghost use Rattle.style_table.specs.Words.{align_trailing_comments_kind_word, line_ending_word};

use crate::style::{
    AlignAfterOpenBracket, AlignEscapedNewlines, AlignTrailingCommentsKind,
    AllowShortBlocksOnASingleLine, AllowShortFunctionsOnASingleLine,
    AllowShortIfStatementsOnASingleLine, BraceWrappingAfterControlStatement,
    BreakBeforeBinaryOperators, BreakBeforeBraces, IndentPPDirectives, LineEnding,
    PointerAlignment, SpaceBeforeParens, UseTab,
};
use crate::value::ValueFault;

/// Words, and what each stands for.
type Words<V> = &'static [(&'static str, V)];

/// The value in the first row with this word.
pub(crate) fn value_in<V: Copy>(rows: &[(&str, V)], text: &[u8]) -> Result<V, ValueFault>
    ensures { result ≡ value_in (map (λ row. (row.0.now, row.1)) rows.now) text.now }
{
    for (word, value) in rows {
        if text == word.as_bytes() {
            return Ok(*value);
        }
    }
    Err(ValueFault::BadValue)
}

/// The words for true and false.
pub(crate) const BOOL_WORDS: Words<bool> = &[("true", true), ("false", false)];

/// How a key that is true or false is written.
pub fn bool_word(value: bool) -> &'static str
    ensures word { result.now ≡ bool_word value }
    ensures short { length result.now ≤ 40 }
{
    if value { "true" } else { "false" }
}

/// Whether a word says that a key is true or false.
pub fn bool_from_word(text: &[u8]) -> Result<bool, ValueFault>
    ensures { result ≡ value_in bool_words text.now }
{
    value_in(BOOL_WORDS, text)
}

/// The words of `UseTab`.
pub(crate) const USE_TAB_WORDS: Words<UseTab> = &[
    ("Never", UseTab::Never),
    ("ForIndentation", UseTab::ForIndentation),
    (
        "ForContinuationAndIndentation",
        UseTab::ForContinuationAndIndentation,
    ),
    ("AlignWithSpaces", UseTab::AlignWithSpaces),
    ("Always", UseTab::Always),
    ("true", UseTab::Always),
    ("false", UseTab::Never),
];

impl UseTab {
    /// The word that a configuration writes for it.
    pub fn word(self) -> &'static str
        ensures word { result.now ≡ use_tab_word self }
        ensures short { length result.now ≤ 40 }
    {
        USE_TAB_WORDS[self as usize].0
    }
}

/// The words of `BreakBeforeBraces`.
pub(crate) const BREAK_BEFORE_BRACES_WORDS: Words<BreakBeforeBraces> = &[
    ("Attach", BreakBeforeBraces::Attach),
    ("Linux", BreakBeforeBraces::Linux),
    ("Mozilla", BreakBeforeBraces::Mozilla),
    ("Stroustrup", BreakBeforeBraces::Stroustrup),
    ("Allman", BreakBeforeBraces::Allman),
    ("WebKit", BreakBeforeBraces::WebKit),
    ("Custom", BreakBeforeBraces::Custom),
];

impl BreakBeforeBraces {
    /// The word that a configuration writes for it.
    pub fn word(self) -> &'static str
        ensures word { result.now ≡ break_before_braces_word self }
        ensures short { length result.now ≤ 40 }
    {
        BREAK_BEFORE_BRACES_WORDS[self as usize].0
    }
}

/// The words of `BraceWrappingAfterControlStatement`.
pub(crate) const BRACE_WRAPPING_AFTER_CONTROL_STATEMENT_WORDS: Words<
    BraceWrappingAfterControlStatement,
> = &[
    ("Never", BraceWrappingAfterControlStatement::Never),
    ("Always", BraceWrappingAfterControlStatement::Always),
    ("true", BraceWrappingAfterControlStatement::Always),
    ("false", BraceWrappingAfterControlStatement::Never),
];

impl BraceWrappingAfterControlStatement {
    /// The word that a configuration writes for it.
    pub fn word(self) -> &'static str
        ensures word { result.now ≡ brace_wrapping_after_control_statement_word self }
        ensures short { length result.now ≤ 40 }
    {
        BRACE_WRAPPING_AFTER_CONTROL_STATEMENT_WORDS[self as usize].0
    }
}

/// The words of `PointerAlignment`.
pub(crate) const POINTER_ALIGNMENT_WORDS: Words<PointerAlignment> = &[
    ("Right", PointerAlignment::Right),
    ("Left", PointerAlignment::Left),
    ("Middle", PointerAlignment::Middle),
];

impl PointerAlignment {
    /// The word that a configuration writes for it.
    pub fn word(self) -> &'static str
        ensures word { result.now ≡ pointer_alignment_word self }
        ensures short { length result.now ≤ 40 }
    {
        POINTER_ALIGNMENT_WORDS[self as usize].0
    }
}

/// The words of `SpaceBeforeParens`.
pub(crate) const SPACE_BEFORE_PARENS_WORDS: Words<SpaceBeforeParens> = &[
    ("ControlStatements", SpaceBeforeParens::ControlStatements),
    ("Never", SpaceBeforeParens::Never),
    ("Always", SpaceBeforeParens::Always),
    (
        "ControlStatementsExceptForEachMacros",
        SpaceBeforeParens::ControlStatements,
    ),
    (
        "ControlStatementsExceptControlMacros",
        SpaceBeforeParens::ControlStatements,
    ),
];

impl SpaceBeforeParens {
    /// The word that a configuration writes for it.
    pub fn word(self) -> &'static str
        ensures word { result.now ≡ space_before_parens_word self }
        ensures short { length result.now ≤ 40 }
    {
        SPACE_BEFORE_PARENS_WORDS[self as usize].0
    }
}

/// The words of `AlignAfterOpenBracket`.
pub(crate) const ALIGN_AFTER_OPEN_BRACKET_WORDS: Words<AlignAfterOpenBracket> = &[
    ("Align", AlignAfterOpenBracket::Align),
    ("DontAlign", AlignAfterOpenBracket::DontAlign),
    ("AlwaysBreak", AlignAfterOpenBracket::AlwaysBreak),
    ("true", AlignAfterOpenBracket::Align),
    ("false", AlignAfterOpenBracket::DontAlign),
];

impl AlignAfterOpenBracket {
    /// The word that a configuration writes for it.
    pub fn word(self) -> &'static str
        ensures word { result.now ≡ align_after_open_bracket_word self }
        ensures short { length result.now ≤ 40 }
    {
        ALIGN_AFTER_OPEN_BRACKET_WORDS[self as usize].0
    }
}

/// The words of `BreakBeforeBinaryOperators`.
pub(crate) const BREAK_BEFORE_BINARY_OPERATORS_WORDS: Words<BreakBeforeBinaryOperators> = &[
    ("None", BreakBeforeBinaryOperators::None),
    ("NonAssignment", BreakBeforeBinaryOperators::NonAssignment),
    ("All", BreakBeforeBinaryOperators::All),
    ("true", BreakBeforeBinaryOperators::All),
    ("false", BreakBeforeBinaryOperators::None),
];

impl BreakBeforeBinaryOperators {
    /// The word that a configuration writes for it.
    pub fn word(self) -> &'static str
        ensures word { result.now ≡ break_before_binary_operators_word self }
        ensures short { length result.now ≤ 40 }
    {
        BREAK_BEFORE_BINARY_OPERATORS_WORDS[self as usize].0
    }
}

/// The words of `IndentPPDirectives`.
pub(crate) const INDENT_PP_DIRECTIVES_WORDS: Words<IndentPPDirectives> = &[
    ("None", IndentPPDirectives::None),
    ("AfterHash", IndentPPDirectives::AfterHash),
    ("BeforeHash", IndentPPDirectives::BeforeHash),
];

impl IndentPPDirectives {
    /// The word that a configuration writes for it.
    pub fn word(self) -> &'static str
        ensures word { result.now ≡ indent_pp_directives_word self }
        ensures short { length result.now ≤ 40 }
    {
        INDENT_PP_DIRECTIVES_WORDS[self as usize].0
    }
}

/// The words of `AllowShortFunctionsOnASingleLine`.
pub(crate) const ALLOW_SHORT_FUNCTIONS_ON_A_SINGLE_LINE_WORDS: Words<
    AllowShortFunctionsOnASingleLine,
> = &[
    ("All", AllowShortFunctionsOnASingleLine::All),
    ("None", AllowShortFunctionsOnASingleLine::None),
    ("InlineOnly", AllowShortFunctionsOnASingleLine::InlineOnly),
    ("Empty", AllowShortFunctionsOnASingleLine::Empty),
    ("Inline", AllowShortFunctionsOnASingleLine::Inline),
    ("true", AllowShortFunctionsOnASingleLine::All),
    ("false", AllowShortFunctionsOnASingleLine::None),
];

impl AllowShortFunctionsOnASingleLine {
    /// The word that a configuration writes for it.
    pub fn word(self) -> &'static str
        ensures word { result.now ≡ allow_short_functions_on_a_single_line_word self }
        ensures short { length result.now ≤ 40 }
    {
        ALLOW_SHORT_FUNCTIONS_ON_A_SINGLE_LINE_WORDS[self as usize].0
    }
}

/// The words of `AllowShortIfStatementsOnASingleLine`.
pub(crate) const ALLOW_SHORT_IF_STATEMENTS_ON_A_SINGLE_LINE_WORDS: Words<
    AllowShortIfStatementsOnASingleLine,
> = &[
    ("Never", AllowShortIfStatementsOnASingleLine::Never),
    (
        "WithoutElse",
        AllowShortIfStatementsOnASingleLine::WithoutElse,
    ),
    (
        "OnlyFirstIf",
        AllowShortIfStatementsOnASingleLine::OnlyFirstIf,
    ),
    (
        "AllIfsAndElse",
        AllowShortIfStatementsOnASingleLine::AllIfsAndElse,
    ),
    ("true", AllowShortIfStatementsOnASingleLine::WithoutElse),
    ("false", AllowShortIfStatementsOnASingleLine::Never),
];

impl AllowShortIfStatementsOnASingleLine {
    /// The word that a configuration writes for it.
    pub fn word(self) -> &'static str
        ensures word { result.now ≡ allow_short_if_statements_on_a_single_line_word self }
        ensures short { length result.now ≤ 40 }
    {
        ALLOW_SHORT_IF_STATEMENTS_ON_A_SINGLE_LINE_WORDS[self as usize].0
    }
}

/// The words of `AllowShortBlocksOnASingleLine`.
pub(crate) const ALLOW_SHORT_BLOCKS_ON_A_SINGLE_LINE_WORDS: Words<AllowShortBlocksOnASingleLine> =
    &[
        ("Never", AllowShortBlocksOnASingleLine::Never),
        ("Empty", AllowShortBlocksOnASingleLine::Empty),
        ("Always", AllowShortBlocksOnASingleLine::Always),
        ("true", AllowShortBlocksOnASingleLine::Always),
        ("false", AllowShortBlocksOnASingleLine::Never),
    ];

impl AllowShortBlocksOnASingleLine {
    /// The word that a configuration writes for it.
    pub fn word(self) -> &'static str
        ensures word { result.now ≡ allow_short_blocks_on_a_single_line_word self }
        ensures short { length result.now ≤ 40 }
    {
        ALLOW_SHORT_BLOCKS_ON_A_SINGLE_LINE_WORDS[self as usize].0
    }
}

/// The words of `AlignEscapedNewlines`.
pub(crate) const ALIGN_ESCAPED_NEWLINES_WORDS: Words<AlignEscapedNewlines> = &[
    ("Right", AlignEscapedNewlines::Right),
    ("Left", AlignEscapedNewlines::Left),
    ("DontAlign", AlignEscapedNewlines::DontAlign),
];

impl AlignEscapedNewlines {
    /// The word that a configuration writes for it.
    pub fn word(self) -> &'static str
        ensures word { result.now ≡ align_escaped_newlines_word self }
        ensures short { length result.now ≤ 40 }
    {
        ALIGN_ESCAPED_NEWLINES_WORDS[self as usize].0
    }
}

/// The words of `AlignTrailingCommentsKind`.
pub(crate) const ALIGN_TRAILING_COMMENTS_KIND_WORDS: Words<AlignTrailingCommentsKind> = &[
    ("Always", AlignTrailingCommentsKind::Always),
    ("Never", AlignTrailingCommentsKind::Never),
];

impl AlignTrailingCommentsKind {
    /// The word that a configuration writes for it.
    pub fn word(self) -> &'static str
        ensures word { result.now ≡ align_trailing_comments_kind_word self }
        ensures short { length result.now ≤ 40 }
    {
        ALIGN_TRAILING_COMMENTS_KIND_WORDS[self as usize].0
    }
}

/// The words of `LineEnding`.
pub(crate) const LINE_ENDING_WORDS: Words<LineEnding> = &[
    ("DeriveLF", LineEnding::DeriveLF),
    ("DeriveCRLF", LineEnding::DeriveCRLF),
    ("LF", LineEnding::LF),
    ("CRLF", LineEnding::CRLF),
];

impl LineEnding {
    /// The word that a configuration writes for it.
    pub fn word(self) -> &'static str
        ensures word { result.now ≡ line_ending_word self }
        ensures short { length result.now ≤ 40 }
    {
        LINE_ENDING_WORDS[self as usize].0
    }
}
