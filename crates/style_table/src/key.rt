//! The keys of a configuration.

/// A key of a configuration, in the order in which a style is written.
#[derive(Clone, Copy)]
pub enum Key {
    /// `ColumnLimit`.
    ColumnLimit,
    /// `IndentWidth`.
    IndentWidth,
    /// `ContinuationIndentWidth`.
    ContinuationIndentWidth,
    /// `TabWidth`.
    TabWidth,
    /// `UseTab`.
    UseTab,
    /// `BreakBeforeBraces`.
    BreakBeforeBraces,
    /// `BraceWrapping.AfterCaseLabel`.
    BraceWrappingAfterCaseLabel,
    /// `BraceWrapping.AfterEnum`.
    BraceWrappingAfterEnum,
    /// `BraceWrapping.AfterExternBlock`.
    BraceWrappingAfterExternBlock,
    /// `BraceWrapping.AfterFunction`.
    BraceWrappingAfterFunction,
    /// `BraceWrapping.AfterStruct`.
    BraceWrappingAfterStruct,
    /// `BraceWrapping.AfterUnion`.
    BraceWrappingAfterUnion,
    /// `BraceWrapping.BeforeElse`.
    BraceWrappingBeforeElse,
    /// `BraceWrapping.BeforeWhile`.
    BraceWrappingBeforeWhile,
    /// `BraceWrapping.AfterControlStatement`.
    BraceWrappingAfterControlStatement,
    /// `PointerAlignment`.
    PointerAlignment,
    /// `SpaceBeforeParens`.
    SpaceBeforeParens,
    /// `AlignAfterOpenBracket`.
    AlignAfterOpenBracket,
    /// `BinPackArguments`.
    BinPackArguments,
    /// `BinPackParameters`.
    BinPackParameters,
    /// `BreakBeforeBinaryOperators`.
    BreakBeforeBinaryOperators,
    /// `BreakBeforeTernaryOperators`.
    BreakBeforeTernaryOperators,
    /// `MaxEmptyLinesToKeep`.
    MaxEmptyLinesToKeep,
    /// `KeepEmptyLinesAtTheStartOfBlocks`.
    KeepEmptyLinesAtTheStartOfBlocks,
    /// `IndentCaseLabels`.
    IndentCaseLabels,
    /// `IndentGotoLabels`.
    IndentGotoLabels,
    /// `IndentPPDirectives`.
    IndentPPDirectives,
    /// `AllowShortFunctionsOnASingleLine`.
    AllowShortFunctionsOnASingleLine,
    /// `AllowShortIfStatementsOnASingleLine`.
    AllowShortIfStatementsOnASingleLine,
    /// `AllowShortLoopsOnASingleLine`.
    AllowShortLoopsOnASingleLine,
    /// `AllowShortBlocksOnASingleLine`.
    AllowShortBlocksOnASingleLine,
    /// `AllowShortCaseLabelsOnASingleLine`.
    AllowShortCaseLabelsOnASingleLine,
    /// `AllowShortEnumsOnASingleLine`.
    AllowShortEnumsOnASingleLine,
    /// `SpacesBeforeTrailingComments`.
    SpacesBeforeTrailingComments,
    /// `SpaceAfterCStyleCast`.
    SpaceAfterCStyleCast,
    /// `Cpp11BracedListStyle`.
    Cpp11BracedListStyle,
    /// `AlignEscapedNewlines`.
    AlignEscapedNewlines,
    /// `AlignTrailingComments.Kind`.
    AlignTrailingCommentsKind,
    /// `LineEnding`.
    LineEnding,
    /// `InsertNewlineAtEOF`.
    InsertNewlineAtEOF,
    /// `SkipMacroDefinitionBody`.
    SkipMacroDefinitionBody,
    /// `PenaltyBreakAssignment`.
    PenaltyBreakAssignment,
    /// `PenaltyBreakBeforeFirstCallParameter`.
    PenaltyBreakBeforeFirstCallParameter,
    /// `PenaltyBreakOpenParenthesis`.
    PenaltyBreakOpenParenthesis,
    /// `PenaltyExcessCharacter`.
    PenaltyExcessCharacter,
    /// `PenaltyReturnTypeOnItsOwnLine`.
    PenaltyReturnTypeOnItsOwnLine,
}

ghost use Rattle.std.specs.Prelude.{◌≡◌, ◌≤◌, length, find};
ghost use Rattle.style_table.specs.Keys.{spelling_of, outer_of, label_of, is_spelled, key_of, is_first_inside};

/// All keys, in the order in which a style is written.
pub const KEYS: [Key; 46] = [
    Key::ColumnLimit,
    Key::IndentWidth,
    Key::ContinuationIndentWidth,
    Key::TabWidth,
    Key::UseTab,
    Key::BreakBeforeBraces,
    Key::BraceWrappingAfterCaseLabel,
    Key::BraceWrappingAfterEnum,
    Key::BraceWrappingAfterExternBlock,
    Key::BraceWrappingAfterFunction,
    Key::BraceWrappingAfterStruct,
    Key::BraceWrappingAfterUnion,
    Key::BraceWrappingBeforeElse,
    Key::BraceWrappingBeforeWhile,
    Key::BraceWrappingAfterControlStatement,
    Key::PointerAlignment,
    Key::SpaceBeforeParens,
    Key::AlignAfterOpenBracket,
    Key::BinPackArguments,
    Key::BinPackParameters,
    Key::BreakBeforeBinaryOperators,
    Key::BreakBeforeTernaryOperators,
    Key::MaxEmptyLinesToKeep,
    Key::KeepEmptyLinesAtTheStartOfBlocks,
    Key::IndentCaseLabels,
    Key::IndentGotoLabels,
    Key::IndentPPDirectives,
    Key::AllowShortFunctionsOnASingleLine,
    Key::AllowShortIfStatementsOnASingleLine,
    Key::AllowShortLoopsOnASingleLine,
    Key::AllowShortBlocksOnASingleLine,
    Key::AllowShortCaseLabelsOnASingleLine,
    Key::AllowShortEnumsOnASingleLine,
    Key::SpacesBeforeTrailingComments,
    Key::SpaceAfterCStyleCast,
    Key::Cpp11BracedListStyle,
    Key::AlignEscapedNewlines,
    Key::AlignTrailingCommentsKind,
    Key::LineEnding,
    Key::InsertNewlineAtEOF,
    Key::SkipMacroDefinitionBody,
    Key::PenaltyBreakAssignment,
    Key::PenaltyBreakBeforeFirstCallParameter,
    Key::PenaltyBreakOpenParenthesis,
    Key::PenaltyExcessCharacter,
    Key::PenaltyReturnTypeOnItsOwnLine,
];

/// How each key is spelled, in the order of `Key`: the key that it stands under, empty where it stands under none, and
/// its own part.
const SPELLINGS: &[(&str, &str)] = &[
    ("", "ColumnLimit"),
    ("", "IndentWidth"),
    ("", "ContinuationIndentWidth"),
    ("", "TabWidth"),
    ("", "UseTab"),
    ("", "BreakBeforeBraces"),
    ("BraceWrapping", "AfterCaseLabel"),
    ("BraceWrapping", "AfterEnum"),
    ("BraceWrapping", "AfterExternBlock"),
    ("BraceWrapping", "AfterFunction"),
    ("BraceWrapping", "AfterStruct"),
    ("BraceWrapping", "AfterUnion"),
    ("BraceWrapping", "BeforeElse"),
    ("BraceWrapping", "BeforeWhile"),
    ("BraceWrapping", "AfterControlStatement"),
    ("", "PointerAlignment"),
    ("", "SpaceBeforeParens"),
    ("", "AlignAfterOpenBracket"),
    ("", "BinPackArguments"),
    ("", "BinPackParameters"),
    ("", "BreakBeforeBinaryOperators"),
    ("", "BreakBeforeTernaryOperators"),
    ("", "MaxEmptyLinesToKeep"),
    ("", "KeepEmptyLinesAtTheStartOfBlocks"),
    ("", "IndentCaseLabels"),
    ("", "IndentGotoLabels"),
    ("", "IndentPPDirectives"),
    ("", "AllowShortFunctionsOnASingleLine"),
    ("", "AllowShortIfStatementsOnASingleLine"),
    ("", "AllowShortLoopsOnASingleLine"),
    ("", "AllowShortBlocksOnASingleLine"),
    ("", "AllowShortCaseLabelsOnASingleLine"),
    ("", "AllowShortEnumsOnASingleLine"),
    ("", "SpacesBeforeTrailingComments"),
    ("", "SpaceAfterCStyleCast"),
    ("", "Cpp11BracedListStyle"),
    ("", "AlignEscapedNewlines"),
    ("AlignTrailingComments", "Kind"),
    ("", "LineEnding"),
    ("", "InsertNewlineAtEOF"),
    ("", "SkipMacroDefinitionBody"),
    ("", "PenaltyBreakAssignment"),
    ("", "PenaltyBreakBeforeFirstCallParameter"),
    ("", "PenaltyBreakOpenParenthesis"),
    ("", "PenaltyExcessCharacter"),
    ("", "PenaltyReturnTypeOnItsOwnLine"),
];

/// The first of the keys that is spelled so.
fn find_in(keys: &[Key], outer: &[u8], label: &[u8]) -> Option<Key>
    ensures { result ≡ find (is_spelled outer.now label.now) keys.now }
{
    for key in keys {
        if key.is_spelled(outer, label) {
            return Some(*key);
        }
    }
    None
}

impl Key {
    /// The key that is spelled so: `outer` is the key that it stands under, empty where there is none.
    pub fn find(outer: &[u8], label: &[u8]) -> Option<Key>
        ensures { result ≡ key_of outer.now label.now }
    {
        find_in(&KEYS, outer, label)
    }

    /// Whether it is spelled so.
    fn is_spelled(self, outer: &[u8], label: &[u8]) -> bool
        ensures { result ≡ is_spelled outer.now label.now self }
    {
        self.outer().as_bytes() == outer && self.label().as_bytes() == label
    }

    /// The key that it stands under, empty where it stands under none, and its own part.
    fn spelling(self) -> (&'static str, &'static str)
        ensures text { (result.0.now, result.1.now) ≡ spelling_of self }
        ensures short { (length result.0.now ≤ 40) × (length result.1.now ≤ 40) }
    {
        SPELLINGS[self as usize]
    }

    /// The key that it stands under, empty where it stands under none.
    pub fn outer(self) -> &'static str
        ensures text { result.now ≡ outer_of self }
        ensures short { length result.now ≤ 40 }
    {
        self.spelling().0
    }

    /// How it is spelled, the key that it stands under aside.
    pub fn label(self) -> &'static str
        ensures text { result.now ≡ label_of self }
        ensures short { length result.now ≤ 40 }
    {
        self.spelling().1
    }

    /// Whether it is the first of the keys under its outer key.
    pub fn is_first_inside(self) -> bool
        ensures { result ≡ is_first_inside self }
    {
        matches!(
            self,
            Key::BraceWrappingAfterCaseLabel | Key::AlignTrailingCommentsKind
        )
    }
}
