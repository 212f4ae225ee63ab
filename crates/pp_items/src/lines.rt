//! Physical lines.

ghost use Rattle.std.specs.Prelude.{◌≡◌, ◌≤◌, ◌+◌, ◌==◌, length, count_by, unwrap_or};
ghost use Rattle.std.specs.Option.{ForSome, option_map_or};
ghost use Rattle.c_chars.specs.declared.TheConstants.{LIMIT};
ghost use Rattle.pp_model.specs.Stream.{line_at};

use c_lexer::LIMIT;

/// How many of the bytes end a line.
fn line_feeds(bytes: &[u8]) -> u32
    requires fits { length bytes.now ≤ LIMIT }
    ensures { result ≡ count_by (λ c. c == 10) bytes.now }
{
    bytes.iter().filter(|byte| **byte == b'\n').count() as u32
}

/// A text, and the physical line of an offset in it. It goes onwards, so that no byte is looked at twice.
#[derive(Drop)]
pub(crate) struct Lines<'s> {
    text: &'s [u8],
    at: usize,
    line: u32,
    ghost fits: { length text.now ≤ LIMIT },
    ghost within: { at ≤ length text.now },
    ghost counted: { line ≡ line_at text.now at },
}

impl<'s> Lines<'s> {
    /// The lines of a text, from its first byte on.
    pub fn new(text: &'s [u8]) -> Lines<'s>
        requires fits { length text.now ≤ LIMIT }
        ensures text { result.text.now ≡ text.now }
        ensures at { result.at ≡ 0 }
    {
        Lines {
            text,
            at: 0,
            line: 1,
        }
    }

    /// The line of an offset (C11 6.10.4p2), no nearer to the start than those asked for before.
    #[tactic(auto, using(crate::proofs::Counts::lines_further, crate::proofs::Counts::line_small))]
    pub fn line_of(&mut self, offset: usize) -> u32
        requires onwards { self.old.at ≤ offset }
        requires within { offset ≤ length self.old.text.now }
        ensures line { result ≡ line_at self.old.text.now offset }
        ensures text { self.new.text.now ≡ self.old.text.now }
        ensures at { self.new.at ≡ offset }
    {
        let line = self.line + line_feeds(&self.text[self.at..offset]);
        self.at = offset;
        self.line = line;
        line
    }

    /// The line that begins at an offset, no nearer to the start than those asked for before; 0 where none is given.
    pub fn line_begun(&mut self, offset: Option<usize>) -> u32
        requires onwards { ForSome offset (λ to. (self.old.at ≤ to) × (to ≤ length self.old.text.now)) }
        ensures line { result ≡ option_map_or (line_at self.old.text.now) offset 0 }
        ensures text { self.new.text.now ≡ self.old.text.now }
        ensures at { self.new.at ≡ unwrap_or offset self.old.at }
    {
        match offset {
            Some(to) => self.line_of(to),
            None => 0,
        }
    }
}
