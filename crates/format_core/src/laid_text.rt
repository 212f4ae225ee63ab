//! A text and what is decided for its gaps.

ghost use Rattle.std.specs.Prelude.{◌≡◌, ◌≤◌, ◌+◌, length};

use fmt_ports::{Failed, Sink, Stream};
use replacements::{Plan, write_out};
use style_table::Style;
use token_arena::{Section, TokenArena};

/// A text that is laid out. It is written gap by gap, and never made in memory.
#[derive(Drop)]
pub struct LaidText<'a, 's> {
    /// The items of the input.
    pub(crate) arena: TokenArena<'a, 's>,
    /// The sections in which they stand.
    pub(crate) sections: &'a [Section],
    /// What is decided for each gap.
    pub(crate) plan: Plan<'a>,
    /// The style.
    pub(crate) style: Style,
    /// Whether lines end in `\r\n`.
    pub(crate) crlf: bool,
    ghost tab: { 1 ≤ style.tab_width },
    ghost whole: { length plan ≡ length arena.tokens + 1 },
}

impl<'a, 's> Stream for LaidText<'a, 's> {
    ghost use Rattle.format_core.specs.TextOf.{text_of};

    ghost bytes = { text_of };

    fn write<K: Sink>(&self, sink: &mut K) -> Result<(), Failed> {
        write_out(
            &self.style,
            self.crlf,
            &self.arena,
            self.sections,
            &self.plan,
            sink,
        )
    }
}
