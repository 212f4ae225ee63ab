//! The items of a text as phase 4 meets them: with their spelling, their line and their part in a directive.

ghost use Rattle.std.specs.Prelude.{◌≡◌, ◌≤◌, ◌<◌, ◌∷◌, [], List, false, length, MatchOption, IfOk};
ghost use Rattle.c_chars.specs.Characters.{bytes_of, logical};
ghost use Rattle.c_grammar.specs.Text.{ReadItem};
ghost use Rattle.c_chars.specs.declared.LogicalChar.{LogicalChar};
ghost use Rattle.c_chars.specs.declared.TheConstants.{LIMIT};
ghost use Rattle.c_grammar.specs.Place.{place_of};
ghost use Rattle.pp_model.specs.Finding.{is_comment};
ghost use Rattle.pp_items.specs.Walk.{before, past, first_line_end, IsNextOf, HasNext};
ghost use Rattle.pp_items.specs.Reading.{IsReaderOf, IsRead};

use crate::item::{PpItem, Streamed};
use crate::lines::Lines;
use crate::part::part_of;
use c_chars::{Chars, LogicalChar};
use c_lexer::{Dialect, ItemKind, LIMIT, Lexeme, Standing};
use std::alloc::{AllocError, Global};

/// The next character, where it begins before this offset.
fn next_before(chars: &mut Chars<'_>, end: usize) -> Option<LogicalChar>
    ensures { MatchOption result
        ((before end chars.old.chars ≡ []) × (past end chars.old.chars ≡ chars.new.chars))
        (λ c. (chars.old.chars ≡ c ∷ chars.new.chars) × (c.from < end)) }
{
    let mut ahead = chars.ahead();
    let character = ahead.next()?;
    if character.from as usize >= end {
        return None;
    }
    *chars = ahead;
    Some(character)
}

#[tactic(auto, unfolding(c_grammar::specs::Grammar::is_new_line))]
/// Passes the characters that begin before this offset, and finds where the first new-line of them ends.
fn pass_gap(chars: &mut Chars<'_>, end: usize) -> Option<usize>
    ensures found { result ≡ first_line_end (before end chars.old.chars) }
    ensures rest { chars.new.chars ≡ past end chars.old.chars }
{
    let mut line_end = None;
    while let Some(character) = next_before(chars, end) {
        if character.byte == b'\n' && line_end.is_none() {
            line_end = Some(character.to as usize);
        }
    }
    line_end
}

/// Reads the characters that begin before this offset.
fn read_spelling(alloc: Global, chars: &mut Chars<'_>, end: usize) -> Result<Vec<u8>, AllocError>
    ensures text { IfOk result (λ text. text.items ≡ bytes_of (before end chars.old.chars)) }
    ensures rest { IfOk result (λ text. chars.new.chars ≡ past end chars.old.chars) }
{
    let mut text = Vec::new(alloc);
    while let Some(character) = next_before(chars, end) {
        text.push(character.byte)?;
    }
    Ok(text)
}

/// Whether the kind is that of a comment (C11 6.4.9).
fn is_comment(kind: ItemKind) -> bool
    ensures { result ≡ is_comment kind }
{
    matches!(kind, ItemKind::BlockComment | ItemKind::LineComment)
}

/// Goes along with the lexer, and reads what it doesn't tell of an item.
#[derive(Drop)]
pub(crate) struct Reader<'s> {
    chars: Chars<'s>,
    lines: Lines<'s>,
    after_comment: bool,
}

impl<'s> Reader<'s> {
    /// Stands before the first item of a text.
    pub fn new(text: &'s [u8], dialect: Dialect) -> Reader<'s>
        requires fits { length text.now ≤ LIMIT }
        ensures reader { IsReaderOf text.now result }
        ensures chars { result.chars.chars ≡ logical dialect text.now }
        ensures after { result.after_comment ≡ false }
    {
        Reader {
            chars: Chars::new(text, dialect),
            lines: Lines::new(text),
            after_comment: false,
        }
    }

    /// Reads the item of which the lexer has told, and before which it stood so.
    pub fn read(
        &mut self,
        alloc: Global,
        stood: Standing,
        lexeme: &Lexeme<'_>,
    ) -> Result<Streamed, AllocError>
        requires reader { IsReaderOf self.old.lines.text.now self.old }
        requires next { HasNext self.old.lines.text.now self.old.chars.chars lexeme.now }
        ensures read { IfOk result (λ s.
            (read : ReadItem) (rest : List LogicalChar) →
            IsNextOf self.old.lines.text.now self.old.chars.chars lexeme.now read rest →
            IsRead self.old.lines.text.now (place_of stood) self.old self.new s read rest) }
        ensures reader { IfOk result (λ s. IsReaderOf self.old.lines.text.now self.new) }
    {
        let start = lexeme.item.start as usize;
        let line_end = pass_gap(&mut self.chars, start);
        let begun = self.lines.line_begun(line_end);
        let line = self.lines.line_of(start);
        let text = read_spelling(alloc, &mut self.chars, start + lexeme.item.raw.len())?;
        let kind = lexeme.item.kind;
        let standing = stood.past_gap(lexeme.lines != 0);
        let part = part_of(standing, lexeme.white, kind, text.as_slice());
        let white = self.after_comment || lexeme.white;
        self.after_comment = is_comment(kind);
        Ok(Streamed {
            item: PpItem {
                kind,
                text,
                white,
                line,
            },
            part,
            begun,
        })
    }
}
