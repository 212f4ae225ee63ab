//! Reads the items of a text one after another.

ghost use Rattle.std.specs.Prelude.{◌≡◌, ◌≤◌, ◌<◌, ◌+◌, ◌-◌, length, take, drop, get_or, IsTrue, IfSome, IfNone, IfOk};
ghost use Rattle.std.specs.Prelude.{IfErr, MatchOption, ⊤};
ghost use Rattle.std.specs.Int.{is_in_range};
ghost use Rattle.std.specs.List.{list_all};
ghost use Rattle.c_grammar.specs.Items.{is_gap, LineStart};
ghost use Rattle.c_chars.specs.Characters.{logical, bytes_of, is_plain, mark_len};
ghost use Rattle.c_grammar.specs.Place.{IsSpanned, place_of};
ghost use Rattle.c_lexer.specs.Reading.{IsNextItem, IsNextLexeme, AreSlashed, BeforeLeft, ends_backslash};
ghost use Rattle.c_lexer.specs.Reading.{ends_in_backslash};
ghost use Rattle.c_lexer.specs.Fault.{IsFault};

use crate::fault::{self, LexFault};
use crate::item::{Item, Lexeme};
use crate::{line, next};
use c_chars::{Chars, Dialect, LIMIT};
use c_grammar::place::{self, Standing};
use std::marker::Model;

/// The bytes of the text between two offsets.
fn between(text: &[u8], from: usize, to: usize) -> &[u8]
    requires order { from ≤ to }
    requires within { to ≤ length text.now }
    ensures { result.now ≡ take (to - from) (drop from text.now) }
{
    &text[from..to]
}

/// Whether a backslash may end at this offset. Most items end in neither of the last bytes that it has.
#[tactic(auto, unfolding(crate::specs::Reading::ends_backslash))]
fn may_end_backslash(text: &[u8], at: usize) -> bool
    requires some { 0 < at }
    requires within { at ≤ length text.now }
    ensures { result ≡ ends_backslash (get_or text.now (at - 2) 0) (get_or text.now (at - 1) 0) }
{
    let last = text[at - 1];
    last == b'\\' || (last == b'/' && text[at.saturating_sub(2)] == b'?')
}

/// Whether a backslash is the last of the characters up to what is left of them.
fn ends_in_backslash(chars: &Chars, left: &Chars) -> bool
    requires { IsSpanned chars.now }
    ensures { BeforeLeft chars.now left.now (λ s. result ≡ ends_in_backslash s) }
{
    let mut ahead = chars.ahead();
    let mut back = false;
    while ahead.at() < left.at() {
        let Some(character) = ahead.next() else {
            break;
        };
        back = character.byte == b'\\';
    }
    back
}

/// Whether a backslash is the last of an item's characters. Most items end in a byte that tells it.
fn is_backslash_last(text: &[u8], chars: &Chars, left: &Chars) -> bool
    requires some { 0 < left.now.at }
    requires within { left.now.at ≤ length text.now }
    requires spans { IsSpanned chars.now }
    requires slashed { AreSlashed text.now chars.now.chars }
    ensures { BeforeLeft chars.now left.now (λ s. result ≡ ends_in_backslash s) }
{
    if !may_end_backslash(text, left.at()) {
        return false;
    }
    ends_in_backslash(chars, left)
}

/// Reads the items of a text one after another.
#[derive(Drop)]
pub struct Lexer<'s> {
    text: &'s [u8],
    chars: Chars<'s>,
    dialect: Dialect,
    standing: Standing,
}

impl<'s> Model for Lexer<'s> {
    ghost use Rattle.c_lexer.specs.Reading.{Reading, AreRaw, AreSlashed};
    ghost use Rattle.c_grammar.specs.Place.{place_of};
    ghost use Rattle.c_lexer.specs.Fault.{IsAt};

    ghost Value = { Reading };

    ghost view = { λ a.
        record {
          text = a.text.now;
          dialect = a.dialect;
          left = record { place = place_of a.standing; chars = a.chars.chars };
          at = a.chars.at;
        } };

    ghost invariant = { λ a.
        IsAt a.text.now a.dialect a.chars × AreSlashed a.text.now a.chars.chars × AreRaw a.text.now a.chars.chars };
}

impl<'s> Lexer<'s> {
    /// The items of a text of at most [`LIMIT`] bytes.
    pub fn new(text: &'s [u8], dialect: Dialect) -> Lexer<'s>
        requires fits { length text.now ≤ LIMIT }
        ensures text { result.text ≡ text.now }
        ensures dialect { result.dialect ≡ dialect }
        ensures left { result.left ≡ record { place = LineStart; chars = logical dialect text.now } }
        ensures at { result.at ≡ mark_len text.now }
    {
        Lexer {
            text,
            chars: Chars::new(text, dialect),
            dialect,
            standing: Standing::FirstInLine,
        }
    }

    /// A second reader that stands at the same place.
    #[inline(always)]
    pub fn ahead(&self) -> Lexer<'s>
        ensures { result ≡ self.now }
    {
        Lexer {
            text: self.text,
            chars: self.chars.ahead(),
            dialect: self.dialect,
            standing: self.standing,
        }
    }

    /// The offset behind the last item that was read; where none was, the one behind the text's byte order mark.
    #[inline(always)]
    pub fn at(&self) -> usize
        ensures { result ≡ self.now.at }
    {
        self.chars.at()
    }

    /// Where what is left of the text stands: behind the last item that was read, or at the text's start.
    pub fn standing(&self) -> Standing
        ensures { place_of result ≡ self.now.left.place }
    {
        self.standing
    }

    /// The next item, with what it and its gap tell, whatever it is written as; none exactly where no item is
    /// left.
    #[inline(always)]
    pub fn next_any(&mut self) -> Result<Option<Lexeme<'s>>, LexFault>
        ensures text { self.new.text ≡ self.old.text }
        ensures dialect { self.new.dialect ≡ self.old.dialect }
        ensures some { IfOk result (λ next.
            MatchOption next (IsTrue (is_gap (bytes_of self.old.left.chars)))
            (λ lexeme. IsNextLexeme self.old self.new lexeme)) }
        ensures end { IfOk result (λ next. MatchOption next (self.new ≡ self.old) (λ lexeme. ⊤)) }
        ensures behind { IfOk result (λ next.
            MatchOption next ⊤ (λ lexeme. self.new.at ≡ lexeme.item.start + length lexeme.item.raw.now)) }
        ensures fault { IfErr result (λ fault. IsFault self.old fault) }
        ensures stays { IfErr result (λ fault. self.new ≡ self.old) }
    {
        let gap = line::behind_gap(&self.chars);
        let Some(first) = gap.rest.peek(0) else {
            return Ok(None);
        };
        let standing = self.standing.past_gap(gap.lines != 0);
        match next::cut_next(self.dialect, standing, &gap.rest, first.byte) {
            Ok((kind, left)) => {
                let raw = between(self.text, first.from as usize, left.at());
                let back = is_backslash_last(self.text, &gap.rest, &left);
                self.standing = place::past_item(self.dialect, standing, kind, &gap.rest, &left);
                self.chars = left;
                Ok(Some(Lexeme {
                    item: Item {
                        kind,
                        raw,
                        start: first.from,
                    },
                    lines: gap.lines,
                    bytes: gap.bytes,
                    white: gap.bytes != 0,
                    back,
                }))
            }
            Err(stop) => Err(fault::fault_of(stop, first.from)),
        }
    }

    /// The next item, with what it and its gap tell, where it is a word, a number, a punctuator, a literal or a comment
    /// that plain bytes tell at once, each of them a printable character of ASCII that nothing behind it can change;
    /// none elsewhere, where the reader stays. It calls nothing but what tells the name of a directive, and how far a
    /// literal, a comment or a long word reaches.
    #[inline(always)]
    pub fn next_plain_lexeme(&mut self) -> Option<Lexeme<'s>>
        ensures text { self.new.text ≡ self.old.text }
        ensures dialect { self.new.dialect ≡ self.old.dialect }
        ensures some { IfSome result (λ lexeme. IsNextLexeme self.old self.new lexeme) }
        ensures gap { IfSome result (λ lexeme. lexeme.item.start ≡ self.old.at + lexeme.bytes) }
        ensures behind { IfSome result (λ lexeme.
            self.new.at ≡ lexeme.item.start + length lexeme.item.raw.now) }
        ensures plain { IfSome result (λ lexeme. IsTrue (list_all (is_in_range 0x20 0x7E) lexeme.item.raw.now)) }
        ensures itself { IfSome result (λ lexeme. IsTrue (list_all is_plain lexeme.item.raw.now)) }
        ensures none { IfNone result (self.new ≡ self.old) }
    {
        let Some(begun) = line::begin_plain(&self.chars) else {
            return None;
        };
        let standing = self.standing.past_gap(begun.lines != 0);
        let Some(placed) = next::place_begun(self.dialect, standing, &begun) else {
            return None;
        };
        let raw = between(self.text, begun.first.from as usize, placed.left.at());
        self.standing = placed.past;
        self.chars = placed.left;
        Some(Lexeme {
            item: Item {
                kind: placed.kind,
                raw,
                start: begun.first.from,
            },
            lines: begun.lines,
            bytes: begun.bytes,
            white: begun.bytes != 0,
            back: false,
        })
    }

    /// The next item, with what it and its gap tell; none exactly where no item is left.
    #[inline(always)]
    pub fn next_lexeme(&mut self) -> Result<Option<Lexeme<'s>>, LexFault>
        ensures text { self.new.text ≡ self.old.text }
        ensures dialect { self.new.dialect ≡ self.old.dialect }
        ensures some { IfOk result (λ next.
            MatchOption next (IsTrue (is_gap (bytes_of self.old.left.chars)))
            (λ lexeme. IsNextLexeme self.old self.new lexeme)) }
        ensures end { IfOk result (λ next. MatchOption next (self.new ≡ self.old) (λ lexeme. ⊤)) }
        ensures fault { IfErr result (λ fault. IsFault self.old fault) }
        ensures stays { IfErr result (λ fault. self.new ≡ self.old) }
    {
        match self.next_plain_lexeme() {
            Some(lexeme) => Ok(Some(lexeme)),
            None => {
                // By a name of its own, so that what this function gives needs no place in memory.
                let lexeme = self.next_any();
                lexeme
            }
        }
    }

    /// The next item; none exactly where no item is left.
    pub fn next_item(&mut self) -> Result<Option<Item<'s>>, LexFault>
        ensures text { self.new.text ≡ self.old.text }
        ensures dialect { self.new.dialect ≡ self.old.dialect }
        ensures some { IfOk result (λ next.
            MatchOption next (IsTrue (is_gap (bytes_of self.old.left.chars)))
            (λ item. IsNextItem self.old self.new item.kind item.start item.raw.now)) }
        ensures end { IfOk result (λ next. MatchOption next (self.new ≡ self.old) (λ item. ⊤)) }
        ensures fault { IfErr result (λ fault. IsFault self.old fault) }
        ensures stays { IfErr result (λ fault. self.new ≡ self.old) }
    {
        match self.next_lexeme() {
            Ok(Some(lexeme)) => Ok(Some(lexeme.item)),
            Ok(None) => Ok(None),
            Err(fault) => Err(fault),
        }
    }
}
