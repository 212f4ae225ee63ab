//! The values of a style's keys: how each is written, and how it is read back.

ghost use Rattle.std.specs.Prelude.{◌≡◌, ◌≤◌, length, map, if◌then◌else◌, Some, None, Ok, Err, IfOk, MatchResult};
ghost use Rattle.style_table.specs.Keys.{shown, with_value, number_in, are_digits};
ghost use Rattle.std.specs.Str.Parse.{digits_value};
ghost use Rattle.style_table.specs.Words.{bool_word, bool_words, value_in};
ghost use Rattle.style_table.specs.Range.{IsInRange};
ghost use Rattle.style_table.specs.Values.{text_of, IsShort};

use crate::key::Key;
use crate::style::Style;
use crate::words::{
    ALIGN_AFTER_OPEN_BRACKET_WORDS, ALIGN_ESCAPED_NEWLINES_WORDS,
    ALIGN_TRAILING_COMMENTS_KIND_WORDS, ALLOW_SHORT_BLOCKS_ON_A_SINGLE_LINE_WORDS,
    ALLOW_SHORT_FUNCTIONS_ON_A_SINGLE_LINE_WORDS, ALLOW_SHORT_IF_STATEMENTS_ON_A_SINGLE_LINE_WORDS,
    BOOL_WORDS, BRACE_WRAPPING_AFTER_CONTROL_STATEMENT_WORDS, BREAK_BEFORE_BINARY_OPERATORS_WORDS,
    BREAK_BEFORE_BRACES_WORDS, INDENT_PP_DIRECTIVES_WORDS, LINE_ENDING_WORDS,
    POINTER_ALIGNMENT_WORDS, SPACE_BEFORE_PARENS_WORDS, USE_TAB_WORDS, bool_word, value_in,
};
use thiserror::Error;

/// What a break or a column past the limit costs at most.
const MOST_PENALTY: u32 = 100_000_000;

/// What is wrong with a value.
#[derive(Clone, Copy, Debug, PartialEq, Eq, Error)]
pub enum ValueFault {
    /// It is none of the key's values, or no number of 1 to 9 decimal digits.
    #[error("bad value")]
    BadValue,
    /// It is a number that the key does not take.
    #[error("out of range")]
    OutOfRange,
}

/// A key's value.
#[derive(Clone, Copy)]
pub enum Value {
    /// A number.
    Number(u32),
    /// One of the key's words.
    Word(&'static str),
}

/// The number that decimal digits write, if the text is digits alone.
fn digits_in(text: &[u8]) -> Option<u32>
    requires { length text.now ≤ 9 }
    ensures { result ≡ if are_digits text.now then Some (digits_value 10 text.now) else None }
{
    let mut number = 0;
    for byte in text {
        let digit = char::from(*byte).to_digit(10)?;
        number = number * 10 + digit;
    }
    Some(number)
}

/// Sets a number to the one that a text writes, where it is within these bounds.
fn set_number(field: &mut u32, least: u32, most: u32, text: &[u8]) -> Result<(), ValueFault>
    ensures { let read = number_in least most text.now in
        MatchResult result (λ _. read ≡ Ok field.new) (λ fault. read ≡ Err fault) }
{
    if text.is_empty() || 9 < text.len() {
        return Err(ValueFault::BadValue);
    }
    let number = digits_in(text).ok_or(ValueFault::BadValue)?;
    if number < least || most < number {
        return Err(ValueFault::OutOfRange);
    }
    *field = number;
    Ok(())
}

/// Sets a value to the one in the first row with this word.
fn set_word<V: Copy>(field: &mut V, rows: &[(&str, V)], text: &[u8]) -> Result<(), ValueFault>
    ensures { let read = value_in (map (λ row. (row.0.now, row.1)) rows.now) text.now in
        MatchResult result (λ _. read ≡ Ok field.new) (λ fault. read ≡ Err fault) }
{
    *field = value_in(rows, text)?;
    Ok(())
}

/// Sets a key that is true or false.
fn set_switch(field: &mut bool, text: &[u8]) -> Result<(), ValueFault>
    ensures { let read = value_in bool_words text.now in
        MatchResult result (λ _. read ≡ Ok field.new) (λ fault. read ≡ Err fault) }
{
    set_word(field, BOOL_WORDS, text)
}

/// The value of a key that is true or false.
fn switch(on: bool) -> Value
    ensures text { text_of result ≡ bool_word on }
    ensures short { IsShort result }
{
    Value::Word(bool_word(on))
}

impl Style {
    /// The value of a key.
    pub fn value(&self, key: Key) -> Value
        ensures text { text_of result ≡ shown self.now key }
        ensures short { IsShort result }
    {
        match key {
            Key::ColumnLimit => Value::Number(self.column_limit),
            Key::IndentWidth => Value::Number(self.indent_width),
            Key::ContinuationIndentWidth => Value::Number(self.continuation_indent_width),
            Key::TabWidth => Value::Number(self.tab_width),
            Key::UseTab => Value::Word(self.use_tab.word()),
            Key::BreakBeforeBraces => Value::Word(self.break_before_braces.word()),
            Key::BraceWrappingAfterCaseLabel => switch(self.brace_wrapping_after_case_label),
            Key::BraceWrappingAfterEnum => switch(self.brace_wrapping_after_enum),
            Key::BraceWrappingAfterExternBlock => switch(self.brace_wrapping_after_extern_block),
            Key::BraceWrappingAfterFunction => switch(self.brace_wrapping_after_function),
            Key::BraceWrappingAfterStruct => switch(self.brace_wrapping_after_struct),
            Key::BraceWrappingAfterUnion => switch(self.brace_wrapping_after_union),
            Key::BraceWrappingBeforeElse => switch(self.brace_wrapping_before_else),
            Key::BraceWrappingBeforeWhile => switch(self.brace_wrapping_before_while),
            Key::BraceWrappingAfterControlStatement => Value::Word(
                self.brace_wrapping_after_control_statement.word(),
            ),
            Key::PointerAlignment => Value::Word(self.pointer_alignment.word()),
            Key::SpaceBeforeParens => Value::Word(self.space_before_parens.word()),
            Key::AlignAfterOpenBracket => Value::Word(self.align_after_open_bracket.word()),
            Key::BinPackArguments => switch(self.bin_pack_arguments),
            Key::BinPackParameters => switch(self.bin_pack_parameters),
            Key::BreakBeforeBinaryOperators => Value::Word(
                self.break_before_binary_operators.word(),
            ),
            Key::BreakBeforeTernaryOperators => switch(self.break_before_ternary_operators),
            Key::MaxEmptyLinesToKeep => Value::Number(self.max_empty_lines_to_keep),
            Key::KeepEmptyLinesAtTheStartOfBlocks => switch(
                self.keep_empty_lines_at_the_start_of_blocks,
            ),
            Key::IndentCaseLabels => switch(self.indent_case_labels),
            Key::IndentGotoLabels => switch(self.indent_goto_labels),
            Key::IndentPPDirectives => Value::Word(self.indent_pp_directives.word()),
            Key::AllowShortFunctionsOnASingleLine => Value::Word(
                self.allow_short_functions_on_a_single_line.word(),
            ),
            Key::AllowShortIfStatementsOnASingleLine => Value::Word(
                self.allow_short_if_statements_on_a_single_line.word(),
            ),
            Key::AllowShortLoopsOnASingleLine => switch(self.allow_short_loops_on_a_single_line),
            Key::AllowShortBlocksOnASingleLine => Value::Word(
                self.allow_short_blocks_on_a_single_line.word(),
            ),
            Key::AllowShortCaseLabelsOnASingleLine => switch(
                self.allow_short_case_labels_on_a_single_line,
            ),
            Key::AllowShortEnumsOnASingleLine => switch(self.allow_short_enums_on_a_single_line),
            Key::SpacesBeforeTrailingComments => Value::Number(
                self.spaces_before_trailing_comments,
            ),
            Key::SpaceAfterCStyleCast => switch(self.space_after_c_style_cast),
            Key::Cpp11BracedListStyle => switch(self.cpp11_braced_list_style),
            Key::AlignEscapedNewlines => Value::Word(self.align_escaped_newlines.word()),
            Key::AlignTrailingCommentsKind => Value::Word(self.align_trailing_comments_kind.word()),
            Key::LineEnding => Value::Word(self.line_ending.word()),
            Key::InsertNewlineAtEOF => switch(self.insert_newline_at_eof),
            Key::SkipMacroDefinitionBody => switch(self.skip_macro_definition_body),
            Key::PenaltyBreakAssignment => Value::Number(self.penalty_break_assignment),
            Key::PenaltyBreakBeforeFirstCallParameter => Value::Number(
                self.penalty_break_before_first_call_parameter,
            ),
            Key::PenaltyBreakOpenParenthesis => Value::Number(self.penalty_break_open_parenthesis),
            Key::PenaltyExcessCharacter => Value::Number(self.penalty_excess_character),
            Key::PenaltyReturnTypeOnItsOwnLine => Value::Number(
                self.penalty_return_type_on_its_own_line,
            ),
        }
    }

    /// Sets a key to a value, as a configuration writes it.
    fn set(&mut self, key: Key, text: &[u8]) -> Result<(), ValueFault>
        ensures { let read = with_value self.old key text.now in
            MatchResult result (λ _. read ≡ Ok self.new) (λ fault. read ≡ Err fault) }
    {
        match key {
            Key::ColumnLimit => set_number(&mut self.column_limit, 0, 1000, text),
            Key::IndentWidth => set_number(&mut self.indent_width, 0, 16, text),
            Key::ContinuationIndentWidth => set_number(
                &mut self.continuation_indent_width,
                0,
                16,
                text,
            ),
            Key::TabWidth => set_number(&mut self.tab_width, 1, 16, text),
            Key::UseTab => set_word(&mut self.use_tab, USE_TAB_WORDS, text),
            Key::BreakBeforeBraces => set_word(
                &mut self.break_before_braces,
                BREAK_BEFORE_BRACES_WORDS,
                text,
            ),
            Key::BraceWrappingAfterCaseLabel => set_switch(
                &mut self.brace_wrapping_after_case_label,
                text,
            ),
            Key::BraceWrappingAfterEnum => set_switch(&mut self.brace_wrapping_after_enum, text),
            Key::BraceWrappingAfterExternBlock => set_switch(
                &mut self.brace_wrapping_after_extern_block,
                text,
            ),
            Key::BraceWrappingAfterFunction => set_switch(
                &mut self.brace_wrapping_after_function,
                text,
            ),
            Key::BraceWrappingAfterStruct => set_switch(
                &mut self.brace_wrapping_after_struct,
                text,
            ),
            Key::BraceWrappingAfterUnion => set_switch(&mut self.brace_wrapping_after_union, text),
            Key::BraceWrappingBeforeElse => set_switch(&mut self.brace_wrapping_before_else, text),
            Key::BraceWrappingBeforeWhile => set_switch(
                &mut self.brace_wrapping_before_while,
                text,
            ),
            Key::BraceWrappingAfterControlStatement => set_word(
                &mut self.brace_wrapping_after_control_statement,
                BRACE_WRAPPING_AFTER_CONTROL_STATEMENT_WORDS,
                text,
            ),
            Key::PointerAlignment => set_word(
                &mut self.pointer_alignment,
                POINTER_ALIGNMENT_WORDS,
                text,
            ),
            Key::SpaceBeforeParens => set_word(
                &mut self.space_before_parens,
                SPACE_BEFORE_PARENS_WORDS,
                text,
            ),
            Key::AlignAfterOpenBracket => set_word(
                &mut self.align_after_open_bracket,
                ALIGN_AFTER_OPEN_BRACKET_WORDS,
                text,
            ),
            Key::BinPackArguments => set_switch(&mut self.bin_pack_arguments, text),
            Key::BinPackParameters => set_switch(&mut self.bin_pack_parameters, text),
            Key::BreakBeforeBinaryOperators => set_word(
                &mut self.break_before_binary_operators,
                BREAK_BEFORE_BINARY_OPERATORS_WORDS,
                text,
            ),
            Key::BreakBeforeTernaryOperators => set_switch(
                &mut self.break_before_ternary_operators,
                text,
            ),
            Key::MaxEmptyLinesToKeep => set_number(&mut self.max_empty_lines_to_keep, 0, 100, text),
            Key::KeepEmptyLinesAtTheStartOfBlocks => set_switch(
                &mut self.keep_empty_lines_at_the_start_of_blocks,
                text,
            ),
            Key::IndentCaseLabels => set_switch(&mut self.indent_case_labels, text),
            Key::IndentGotoLabels => set_switch(&mut self.indent_goto_labels, text),
            Key::IndentPPDirectives => set_word(
                &mut self.indent_pp_directives,
                INDENT_PP_DIRECTIVES_WORDS,
                text,
            ),
            Key::AllowShortFunctionsOnASingleLine => set_word(
                &mut self.allow_short_functions_on_a_single_line,
                ALLOW_SHORT_FUNCTIONS_ON_A_SINGLE_LINE_WORDS,
                text,
            ),
            Key::AllowShortIfStatementsOnASingleLine => set_word(
                &mut self.allow_short_if_statements_on_a_single_line,
                ALLOW_SHORT_IF_STATEMENTS_ON_A_SINGLE_LINE_WORDS,
                text,
            ),
            Key::AllowShortLoopsOnASingleLine => set_switch(
                &mut self.allow_short_loops_on_a_single_line,
                text,
            ),
            Key::AllowShortBlocksOnASingleLine => set_word(
                &mut self.allow_short_blocks_on_a_single_line,
                ALLOW_SHORT_BLOCKS_ON_A_SINGLE_LINE_WORDS,
                text,
            ),
            Key::AllowShortCaseLabelsOnASingleLine => set_switch(
                &mut self.allow_short_case_labels_on_a_single_line,
                text,
            ),
            Key::AllowShortEnumsOnASingleLine => set_switch(
                &mut self.allow_short_enums_on_a_single_line,
                text,
            ),
            Key::SpacesBeforeTrailingComments => set_number(
                &mut self.spaces_before_trailing_comments,
                0,
                16,
                text,
            ),
            Key::SpaceAfterCStyleCast => set_switch(&mut self.space_after_c_style_cast, text),
            Key::Cpp11BracedListStyle => set_switch(&mut self.cpp11_braced_list_style, text),
            Key::AlignEscapedNewlines => set_word(
                &mut self.align_escaped_newlines,
                ALIGN_ESCAPED_NEWLINES_WORDS,
                text,
            ),
            Key::AlignTrailingCommentsKind => set_word(
                &mut self.align_trailing_comments_kind,
                ALIGN_TRAILING_COMMENTS_KIND_WORDS,
                text,
            ),
            Key::LineEnding => set_word(&mut self.line_ending, LINE_ENDING_WORDS, text),
            Key::InsertNewlineAtEOF => set_switch(&mut self.insert_newline_at_eof, text),
            Key::SkipMacroDefinitionBody => set_switch(&mut self.skip_macro_definition_body, text),
            Key::PenaltyBreakAssignment => set_number(
                &mut self.penalty_break_assignment,
                0,
                MOST_PENALTY,
                text,
            ),
            Key::PenaltyBreakBeforeFirstCallParameter => set_number(
                &mut self.penalty_break_before_first_call_parameter,
                0,
                MOST_PENALTY,
                text,
            ),
            Key::PenaltyBreakOpenParenthesis => set_number(
                &mut self.penalty_break_open_parenthesis,
                0,
                MOST_PENALTY,
                text,
            ),
            Key::PenaltyExcessCharacter => set_number(
                &mut self.penalty_excess_character,
                0,
                MOST_PENALTY,
                text,
            ),
            Key::PenaltyReturnTypeOnItsOwnLine => set_number(
                &mut self.penalty_return_type_on_its_own_line,
                0,
                MOST_PENALTY,
                text,
            ),
        }
    }

    /// The style with another value of a key, as a configuration writes it.
    pub fn with_value(mut self, key: Key, text: &[u8]) -> Result<Style, ValueFault>
        ensures value { result ≡ with_value self key text.now }
        ensures range { IsInRange self → IfOk result (λ style. IsInRange style) }
    {
        self.set(key, text)?;
        Ok(self)
    }
}
