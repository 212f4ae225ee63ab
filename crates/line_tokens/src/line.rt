//! Unwrapped lines and their kinds.

ghost use Rattle.std.specs.Prelude.{◌≡◌};
ghost use Rattle.line_tokens.specs.Lines.{is_label};

/// What a line is. `docs/PROFILE.md` says which statements give which lines.
#[derive(Clone, Copy, Debug, PartialEq, Eq)]
pub enum LineKind {
    /// A statement or declaration, or its last part.
    Simple,
    /// `case` or `default` with its colon (C11 6.8.1).
    CaseLabel,
    /// A named label with its colon (C11 6.8.1).
    GotoLabel,
    /// The header of a control statement, or the tail of a `do`.
    Control,
    /// The head of a function, or of another block that no other kind names.
    FuncHead,
    /// The head of a struct or union with its members.
    StructHead,
    /// The head of an enum with its enumerators.
    EnumHead,
    /// `extern` and a string before a block.
    ExternHead,
    /// The `{` of a block.
    Brace,
    /// The `}` of a block, and what follows on its line.
    Close,
    /// An enumerator with its comma.
    Enumerator,
    /// A call or a word in capitals that no `;` ends.
    MacroLine,
    /// A comment on lines of its own.
    Comment,
}

impl LineKind {
    /// A label.
    #[inline(always)]
    pub fn is_label(self) -> bool
        ensures { result ≡ is_label self }
    {
        matches!(self, LineKind::CaseLabel | LineKind::GotoLabel)
    }
}

/// An unwrapped line: the items of a view that stand on one row where nothing breaks.
#[derive(Clone, Copy, Debug, PartialEq, Eq)]
pub struct ULine {
    /// The place of its first item in the view.
    pub first: u32,
    /// The place of its last item.
    pub last: u32,
    /// How many levels it is indented by.
    pub level: u32,
    /// What it is.
    pub kind: LineKind,
}
