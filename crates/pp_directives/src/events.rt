//! What preprocessing gives.

use pp_events::PpToken;

/// What comes out, in order: tokens, directives that are left to the compiler, and what went wrong.
#[derive(Drop)]
pub enum Event {
    Token(PpToken),
    Pragma(Vec<PpToken>),
    Line(Vec<PpToken>),
    Error(Vec<PpToken>),
    Warning(Vec<PpToken>),
    Embed(Vec<PpToken>),
    IncludeNotFound,
    /// With the tokens of an unknown directive, and otherwise with none.
    Malformed(Vec<PpToken>),
    Unlexed,
    TurnsSpent,
}
