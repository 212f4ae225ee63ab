//! Roles of tokens.

/// What a token does in its line. `docs/PROFILE.md` has the table that tells the role of a token.
#[derive(Clone, Copy, Debug, PartialEq, Eq)]
pub enum Role {
    /// A comment on lines of its own.
    Own,
    /// A comment behind code, at its line's end.
    Trailing,
    /// A comment between tokens of a line.
    Inner,
    /// The `(` of a control statement's header.
    CtrlOpen,
    /// The `(` of a call.
    CallOpen,
    /// The `(` of a cast.
    CastOpen,
    /// The `(` of a declared function's parameters.
    DeclOpen,
    /// Any other `(`.
    GroupOpen,
    /// The `[` of an index.
    IndexOpen,
    /// The `[` of a designator.
    DesigOpen,
    /// The `{` of a braced list.
    ListOpen,
    /// The `{` of a block.
    BlockOpen,
    /// The partner of a `CtrlOpen`.
    CtrlClose,
    /// The partner of a `CallOpen`.
    CallClose,
    /// The partner of a `CastOpen`.
    CastClose,
    /// The partner of a `DeclOpen`.
    DeclClose,
    /// The partner of a `GroupOpen`, and a `)` without one.
    GroupClose,
    /// The partner of an `IndexOpen`, and a `]` without one.
    IndexClose,
    /// The partner of a `DesigOpen`.
    DesigClose,
    /// The partner of a `ListOpen`.
    ListClose,
    /// The partner of a `BlockOpen`, and a `}` without one.
    BlockClose,
    /// The `*` of a declarator.
    Pointer,
    /// An operator before its only operand.
    Unary,
    /// An operator between two operands.
    Binary,
    /// `++` or `--` before its operand.
    Prefix,
    /// `++` or `--` behind its operand.
    Postfix,
    /// `=`, `+=` and the like.
    Assign,
    /// The `?` of a conditional.
    Question,
    /// The `:` of a conditional.
    TernColon,
    /// The `:` that ends a label.
    LabelColon,
    /// A `:` of an assembly statement.
    AsmColon,
    /// The `:` of a bit-field, and any other.
    FieldColon,
    /// The `.` of a designator.
    DesigDot,
    /// `.` or `->` before a member.
    Member,
    /// A `,`.
    Comma,
    /// A `;`.
    Semi,
    /// The name of a declared function.
    DeclName,
    /// Any other word, and `...`.
    Word,
    /// A number, a character constant, a string or a header name.
    Literal,
    /// `#`, `##` and what is no token of C.
    Stray,
}
