//! Sets of classes: the tests that statements are told apart by.

ghost use Rattle.std.specs.Prelude.{◌≡◌};
ghost use Rattle.token_classes.specs.Classes.{is_word, is_plain, is_control, is_opener, is_bracket, is_before_list};
ghost use Rattle.token_classes.specs.Classes.{is_assigning, is_capital, is_if, is_else, is_while, is_do, is_switch};
ghost use Rattle.token_classes.specs.Classes.{is_case, is_default, is_struct, is_union, is_enum, is_extern};
ghost use Rattle.token_classes.specs.Classes.{is_call_word, is_open_round, is_close_round, is_open_brace};
ghost use Rattle.token_classes.specs.Classes.{is_close_brace, is_colon, is_semicolon, is_comma, is_question, is_text};
ghost use Rattle.token_classes.specs.Classes.{is_comment, is_line_comment};

use crate::class::TokenClass;

impl TokenClass {
    /// A word.
    pub fn is_word(self) -> bool
        ensures { result ≡ is_word self }
    {
        matches!(
            self,
            TokenClass::If
                | TokenClass::Else
                | TokenClass::For
                | TokenClass::While
                | TokenClass::Do
                | TokenClass::Switch
                | TokenClass::Case
                | TokenClass::Default
                | TokenClass::Return
                | TokenClass::Struct
                | TokenClass::Union
                | TokenClass::Enum
                | TokenClass::Extern
                | TokenClass::Goto
                | TokenClass::Jump
                | TokenClass::SizeWord
                | TokenClass::AsmWord
                | TokenClass::CallWord
                | TokenClass::Volatile
                | TokenClass::Inline
                | TokenClass::CapitalWord
                | TokenClass::PlainWord
                | TokenClass::TypeWord
        )
    }

    /// A plain word: no word of the language, and none that ends in `_t`.
    pub fn is_plain(self) -> bool
        ensures { result ≡ is_plain self }
    {
        matches!(self, TokenClass::CapitalWord | TokenClass::PlainWord)
    }

    /// A word that begins a control statement (C11 6.8.4, 6.8.5).
    pub fn is_control(self) -> bool
        ensures { result ≡ is_control self }
    {
        matches!(
            self,
            TokenClass::If
                | TokenClass::Else
                | TokenClass::For
                | TokenClass::While
                | TokenClass::Do
                | TokenClass::Switch
        )
    }

    /// An opening bracket.
    pub fn is_opener(self) -> bool
        ensures { result ≡ is_opener self }
    {
        matches!(
            self,
            TokenClass::OpenRound | TokenClass::OpenSquare | TokenClass::OpenBrace
        )
    }

    /// A bracket, opening or closing.
    #[inline(always)]
    pub fn is_bracket(self) -> bool
        ensures { result ≡ is_bracket self }
    {
        matches!(
            self,
            TokenClass::OpenRound
                | TokenClass::CloseRound
                | TokenClass::OpenSquare
                | TokenClass::CloseSquare
                | TokenClass::OpenBrace
                | TokenClass::CloseBrace
        )
    }

    /// A `{` directly behind it opens a list of values.
    pub fn is_before_list(self) -> bool
        ensures { result ≡ is_before_list self }
    {
        matches!(
            self,
            TokenClass::Equals | TokenClass::Return | TokenClass::Comma | TokenClass::OpenRound
        )
    }

    /// A `{` behind a `)` opens a list of values where it stands earlier in the statement.
    pub fn is_assigning(self) -> bool
        ensures { result ≡ is_assigning self }
    {
        matches!(self, TokenClass::Equals | TokenClass::Return)
    }

    /// A plain word of at least two characters without a small letter.
    pub fn is_capital(self) -> bool
        ensures { result ≡ is_capital self }
    {
        matches!(self, TokenClass::CapitalWord)
    }

    /// `if`
    pub fn is_if(self) -> bool
        ensures { result ≡ is_if self }
    {
        matches!(self, TokenClass::If)
    }

    /// `else`
    pub fn is_else(self) -> bool
        ensures { result ≡ is_else self }
    {
        matches!(self, TokenClass::Else)
    }

    /// `while`
    pub fn is_while(self) -> bool
        ensures { result ≡ is_while self }
    {
        matches!(self, TokenClass::While)
    }

    /// `do`
    pub fn is_do(self) -> bool
        ensures { result ≡ is_do self }
    {
        matches!(self, TokenClass::Do)
    }

    /// `switch`
    pub fn is_switch(self) -> bool
        ensures { result ≡ is_switch self }
    {
        matches!(self, TokenClass::Switch)
    }

    /// `case`
    pub fn is_case(self) -> bool
        ensures { result ≡ is_case self }
    {
        matches!(self, TokenClass::Case)
    }

    /// `default`
    pub fn is_default(self) -> bool
        ensures { result ≡ is_default self }
    {
        matches!(self, TokenClass::Default)
    }

    /// `struct`
    pub fn is_struct(self) -> bool
        ensures { result ≡ is_struct self }
    {
        matches!(self, TokenClass::Struct)
    }

    /// `union`
    pub fn is_union(self) -> bool
        ensures { result ≡ is_union self }
    {
        matches!(self, TokenClass::Union)
    }

    /// `enum`
    pub fn is_enum(self) -> bool
        ensures { result ≡ is_enum self }
    {
        matches!(self, TokenClass::Enum)
    }

    /// `extern`
    pub fn is_extern(self) -> bool
        ensures { result ≡ is_extern self }
    {
        matches!(self, TokenClass::Extern)
    }

    /// A word that a group in parentheses follows.
    pub fn is_call_word(self) -> bool
        ensures { result ≡ is_call_word self }
    {
        matches!(
            self,
            TokenClass::SizeWord | TokenClass::AsmWord | TokenClass::CallWord
        )
    }

    /// `(`
    pub fn is_open_round(self) -> bool
        ensures { result ≡ is_open_round self }
    {
        matches!(self, TokenClass::OpenRound)
    }

    /// `)`
    pub fn is_close_round(self) -> bool
        ensures { result ≡ is_close_round self }
    {
        matches!(self, TokenClass::CloseRound)
    }

    /// `{`
    pub fn is_open_brace(self) -> bool
        ensures { result ≡ is_open_brace self }
    {
        matches!(self, TokenClass::OpenBrace)
    }

    /// `}`
    pub fn is_close_brace(self) -> bool
        ensures { result ≡ is_close_brace self }
    {
        matches!(self, TokenClass::CloseBrace)
    }

    /// `:`
    pub fn is_colon(self) -> bool
        ensures { result ≡ is_colon self }
    {
        matches!(self, TokenClass::Colon)
    }

    /// `;`
    pub fn is_semicolon(self) -> bool
        ensures { result ≡ is_semicolon self }
    {
        matches!(self, TokenClass::Semicolon)
    }

    /// `,`
    pub fn is_comma(self) -> bool
        ensures { result ≡ is_comma self }
    {
        matches!(self, TokenClass::Comma)
    }

    /// `?`
    pub fn is_question(self) -> bool
        ensures { result ≡ is_question self }
    {
        matches!(self, TokenClass::Question)
    }

    /// A string.
    pub fn is_text(self) -> bool
        ensures { result ≡ is_text self }
    {
        matches!(self, TokenClass::Text)
    }

    /// A comment.
    pub fn is_comment(self) -> bool
        ensures { result ≡ is_comment self }
    {
        matches!(self, TokenClass::LineComment | TokenClass::BlockComment)
    }

    /// A comment that ends with its line.
    pub fn is_line_comment(self) -> bool
        ensures { result ≡ is_line_comment self }
    {
        matches!(self, TokenClass::LineComment)
    }
}
