//! Classes of tokens.

/// What a token is spelled, as far as brackets, lines and roles depend on it. `docs/PROFILE.md` has the words.
#[derive(Clone, Copy, Debug, PartialEq, Eq)]
pub enum TokenClass {
    /// `if`
    If,
    /// `else`
    Else,
    /// `for`
    For,
    /// `while`
    While,
    /// `do`
    Do,
    /// `switch`
    Switch,
    /// `case`
    Case,
    /// `default`
    Default,
    /// `return`
    Return,
    /// `goto`
    Goto,
    /// `break` or `continue`
    Jump,
    /// `struct`
    Struct,
    /// `union`
    Union,
    /// `enum`
    Enum,
    /// `extern`
    Extern,
    /// `sizeof` or `_Alignof`
    SizeWord,
    /// `asm`, `__asm__` or `__asm`
    AsmWord,
    /// Any other word that a group in parentheses follows, as `__attribute__`.
    CallWord,
    /// `volatile`
    Volatile,
    /// `inline`
    Inline,
    /// A plain word of at least two characters without a small letter of ASCII.
    CapitalWord,
    /// Any other plain word.
    PlainWord,
    /// Any other word of types.
    TypeWord,
    /// `(`
    OpenRound,
    /// `)`
    CloseRound,
    /// `[` or `<:`
    OpenSquare,
    /// `]` or `:>`
    CloseSquare,
    /// `{` or `<%`
    OpenBrace,
    /// `}` or `%>`
    CloseBrace,
    /// `:`
    Colon,
    /// `;`
    Semicolon,
    /// `,`
    Comma,
    /// `?`
    Question,
    /// `=`
    Equals,
    /// Any other assignment, as `+=`.
    OtherAssign,
    /// `->`
    Arrow,
    /// `.`
    Point,
    /// `...`
    Ellipsis,
    /// `++` or `--`
    Step,
    /// `!` or `~`
    Not,
    /// `*`
    Star,
    /// `/` or `%`
    Divide,
    /// `+` or `-`
    Sign,
    /// `<<` or `>>`
    Shift,
    /// `<`, `>`, `<=` or `>=`
    Relation,
    /// `==` or `!=`
    Equality,
    /// `&`
    Ampersand,
    /// `^`
    Caret,
    /// `|`
    Bar,
    /// `&&`
    And,
    /// `||`
    Or,
    /// `#` or `%:`
    Hash,
    /// A number, a character constant or a header name.
    Literal,
    /// A string.
    Text,
    /// A comment that ends with its line.
    LineComment,
    /// A comment between `/*` and `*/`.
    BlockComment,
    /// Any other token.
    Other,
    /// No token.
    Nothing,
}
