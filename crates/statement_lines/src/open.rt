//! Open lists of statements.

ghost use Rattle.std.specs.Prelude.{◌≡◌};
ghost use Rattle.statement_lines.specs.Forms.{is_code, is_enumerators, is_if_head, is_do_head};

/// What a list holds.
#[derive(Clone, Copy, PartialEq, Eq)]
pub enum Context {
    /// Declarations of a file or an extern block.
    File,
    /// Statements.
    Code,
    /// Members of a struct or union.
    Member,
    /// The enumerators of an enum.
    Enumerators,
}

impl Context {
    /// Statements.
    pub fn is_code(self) -> bool
        ensures { result ≡ is_code self }
    {
        matches!(self, Context::Code)
    }

    /// Enumerators.
    pub fn is_enumerators(self) -> bool
        ensures { result ≡ is_enumerators self }
    {
        matches!(self, Context::Enumerators)
    }
}

/// What a body or a block belongs to, as far as what follows it depends on that.
#[derive(Clone, Copy, PartialEq, Eq)]
pub enum Head {
    /// `if` or `else if`: an `else` may follow.
    If,
    /// `do`: its tail may follow.
    Do,
    /// `switch`.
    Switch,
    /// A struct, union or enum: its declaration goes on.
    Tagged,
    /// Any other head, or none.
    Plain,
}

impl Head {
    /// `if` or `else if`.
    pub fn is_if(self) -> bool
        ensures { result ≡ is_if_head self }
    {
        matches!(self, Head::If)
    }

    /// `do`.
    pub fn is_do(self) -> bool
        ensures { result ≡ is_do_head self }
    {
        matches!(self, Head::Do)
    }
}

/// An open list: a block, or a header that waits for its one statement. The larger fields stand first, so that it takes
/// no more memory than they do.
#[derive(Clone, Copy, Drop)]
pub struct Open {
    /// The first place behind it: its `}`, or the end of the list around it.
    pub end: u32,
    /// The level of its statements.
    pub level: u32,
    /// The level of its case labels.
    pub case_level: u32,
    /// The level of the line that it belongs to.
    pub head_level: u32,
    /// It is a block.
    pub block: bool,
    /// What it holds.
    pub context: Context,
    /// What it belongs to.
    pub head: Head,
    /// An `=` or `return` stood in the declaration before its `{`.
    pub assigned: bool,
}

const _: () = prove!(size_of::<Open>() <= 20);

/// What begins at a place.
#[derive(Clone, Copy, Drop)]
pub enum Start {
    /// A statement.
    Fresh,
    /// The tail of a `do`.
    Tail,
    /// The `}` of a block.
    Closing(Open),
}
