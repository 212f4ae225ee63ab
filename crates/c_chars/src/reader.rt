//! Reads the characters of a text one after another.

ghost use Rattle.std.specs.Prelude.{◌≡◌, ◌+◌, ◌<◌, ◌≤◌, ◌^◌, length, drop, MatchOption, Some, IfSome, IfNone, ◌∷◌, []};
ghost use Rattle.std.specs.Prelude.{slice_get};
ghost use Rattle.c_chars.specs.Characters.{logical, mark_len, is_comment_byte, is_quiet_byte, is_quiet_comment};
ghost use Rattle.c_chars.specs.Characters.{is_text_byte, is_word_byte};
ghost use Rattle.c_chars.specs.Coming.{AreBetween, AreBytesPassed, ArePassed, AreSpacesPassed, AreWordsPassed};

use crate::alone::first_character;
use crate::classes::{
    first_space_len, is_plain, quiet_len, quiet_words_len, run_len, space_len, word_len, words_len,
};
use crate::front::behind;
use crate::lanes::{CommentBytes, TextBytes};
use crate::{Dialect, LIMIT, LogicalChar};
use std::marker::Model;

/// A place in a text, and what stands behind it.
#[derive(Clone, Copy)]
struct Cursor<'s> {
    text: &'s [u8],
    at: usize,
    dialect: Dialect,
    ghost within: { at ≤ length text.now },
    ghost fits: { length text.now < 2 ^ 32 },
}

impl<'s> Cursor<'s> {
    ghost use Rattle.c_chars.specs.Inside.{chars_behind, IsPastNext};

    /// The next character; none exactly at the end. Most bytes are plain, and taken here.
    #[inline(always)]
    fn next(&mut self) -> Option<LogicalChar>
        ensures dialect { self.new.dialect ≡ self.old.dialect }
        ensures next { IsPastNext self.old result self.new }
    {
        if self.at == self.text.len() {
            return None;
        }
        let byte = self.text[self.at];
        if is_plain(byte) {
            return Some(self.take_unit(byte, self.at, 1));
        }
        self.step_any()
    }

    /// The next character where a plain byte is it; none where it is written otherwise, and at the
    /// end. It stays there.
    #[inline(always)]
    fn next_plain(&mut self) -> Option<LogicalChar>
        ensures dialect { self.new.dialect ≡ self.old.dialect }
        ensures next { MatchOption result
            ((self.new.at ≡ self.old.at) × (self.new.text.now ≡ self.old.text.now))
            (λ c. (chars_behind self.old ≡ c ∷ chars_behind self.new) × (self.new.at ≡ c.to)) }
        ensures plain { IfSome result (λ c. (c.from ≡ self.old.at) × (c.to ≡ self.old.at + 1)) }
    {
        if self.at == self.text.len() {
            return None;
        }
        let byte = self.text[self.at];
        if is_plain(byte) {
            return Some(self.take_unit(byte, self.at, 1));
        }
        None
    }

    /// The next character, whatever it is written as. Apart from `next`, so that the room for what
    /// `next_any` gives is made only where it is called.
    #[inline(always)]
    fn step_any(&mut self) -> Option<LogicalChar>
        ensures dialect { self.new.dialect ≡ self.old.dialect }
        ensures next { IsPastNext self.old result self.new }
    {
        let (next, left) = self.next_any();
        *self = left;
        next
    }

    /// The next character, whatever it is written as, and what is left behind it. By value, so that a
    /// loop over plain bytes keeps its reader in registers.
    #[inline(never)]
    fn next_any(self) -> (Option<LogicalChar>, Cursor<'s>)
        ensures dialect { result.1.dialect ≡ self.entry.dialect }
        ensures next { IsPastNext self.entry result.0 result.1 }
    {
        let Some(first) = first_character(self.dialect, self.rest()) else {
            return (None, self);
        };
        let mut left = self;
        let next = left.take_unit(first.byte, self.at + first.before, first.len);
        (Some(next), left)
    }

    /// What stands behind it.
    #[inline(always)]
    fn rest(&self) -> &'s [u8]
        ensures { result.now ≡ drop self.now.at self.now.text.now }
    {
        &self.text[self.at..]
    }

    /// Steps behind a character of this byte, that so many bytes at this offset are.
    #[inline(always)]
    fn take_unit(&mut self, byte: u8, at: usize, len: usize) -> LogicalChar
        requires { at + len ≤ length self.old.text.now }
        ensures dialect { self.new.dialect ≡ self.old.dialect }
        ensures text { self.new.text.now ≡ self.old.text.now }
        ensures at { self.new.at ≡ at + len }
        ensures made { (result.byte ≡ byte) × (result.from ≡ at) × (result.to ≡ at + len) }
    {
        self.at = at + len;
        LogicalChar {
            byte,
            from: at as u32,
            to: (at + len) as u32,
        }
    }

    /// Steps behind the next n bytes.
    #[inline(always)]
    fn pass(&mut self, count: usize)
        requires { self.old.at + count ≤ length self.old.text.now }
        ensures dialect { self.new.dialect ≡ self.old.dialect }
        ensures text { self.new.text.now ≡ self.old.text.now }
        ensures at { self.new.at ≡ self.old.at + count }
    {
        self.at += count;
    }
}

/// How many bytes a byte order mark takes that the text begins with.
fn mark_len(text: &[u8]) -> usize
    ensures len { result ≡ mark_len text.now }
    ensures within { result ≤ length text.now }
{
    match text.strip_prefix(b"\xef\xbb\xbf") {
        Some(_) => 3,
        None => 0,
    }
}

/// Reads the characters of a text one after another.
///
/// Trigraphs are replaced, spliced lines joined, and `\r\n` is one new-line (C11 5.1.1.2, phases 1
/// and 2). A byte order mark at the text's start is no character.
#[derive(Drop)]
pub struct Chars<'s> {
    cursor: Cursor<'s>,
}

impl<'s> Model for Chars<'s> {
    ghost use Rattle.std.specs.Prelude.{drop};
    ghost use Rattle.c_chars.specs.Characters.{chars};
    ghost use Rattle.c_chars.specs.Coming.{Coming};

    ghost Value = { Coming };

    ghost view = { λ a. record {
      dialect = a.cursor.dialect;
      at = a.cursor.at;
      chars = chars a.cursor.dialect a.cursor.at (drop a.cursor.at a.cursor.text.now);
    } };
}

impl<'s> Chars<'s> {
    /// The characters of a text of at most [`LIMIT`] bytes.
    pub fn new(text: &'s [u8], dialect: Dialect) -> Chars<'s>
        requires { length text.now ≤ LIMIT }
        ensures coming { result
            ≡ record { dialect = dialect; at = mark_len text.now; chars = logical dialect text.now } }
        ensures spans { AreBetween result.at result.chars (length text.now) }
    {
        let at = mark_len(text);
        Chars {
            cursor: Cursor { text, at, dialect },
        }
    }

    /// The next character; none exactly at the end.
    #[inline(always)]
    pub fn next(&mut self) -> Option<LogicalChar>
        ensures dialect { self.new.dialect ≡ self.old.dialect }
        ensures some { IfSome result (λ c. (self.old.chars ≡ c ∷ self.new.chars) × (self.new.at ≡ c.to)) }
        ensures none { IfNone result ((self.old.chars ≡ []) × (self.new ≡ self.old)) }
    {
        self.cursor.next()
    }

    /// The next character where a plain byte is it, which nothing behind it can change; none where it
    /// is written otherwise, and at the end.
    ///
    /// It calls nothing, so that what reads plain bytes alone keeps its reader in registers.
    #[inline(always)]
    pub fn next_plain(&mut self) -> Option<LogicalChar>
        ensures dialect { self.new.dialect ≡ self.old.dialect }
        ensures some { IfSome result (λ c. (self.old.chars ≡ c ∷ self.new.chars) × (self.new.at ≡ c.to)) }
        ensures plain { IfSome result (λ c. (c.from ≡ self.old.at) × (c.to ≡ self.old.at + 1)) }
        ensures none { IfNone result (self.new ≡ self.old) }
    {
        self.cursor.next_plain()
    }

    /// The next character where a plain byte is it, which is left where it stands; none where it is
    /// written otherwise, and at the end.
    #[inline(always)]
    pub fn peek_plain(&self) -> Option<LogicalChar>
        ensures some { IfSome result (λ c. slice_get self.now.chars 0 ≡ Some c) }
        ensures plain { IfSome result (λ c. (c.from ≡ self.now.at) × (c.to ≡ self.now.at + 1)) }
    {
        let mut ahead = self.cursor;
        ahead.next_plain()
    }

    /// Steps behind the letters, digits, `_` and `$` that come next, in one pass over their bytes.
    ///
    /// It may stop before a further one, where lines are spliced between the two.
    #[inline(always)]
    pub fn pass_word(&mut self)
        ensures passed { ArePassed is_word_byte self.old self.new }
        ensures bytes { AreBytesPassed is_word_byte self.old self.new }
    {
        let len = word_len(self.cursor.rest());
        self.cursor.pass(len);
    }

    /// Steps behind the spaces and tabs that come next, in one pass over their bytes. How many they are.
    ///
    /// It may stop before a further one, where lines are spliced between the two.
    #[inline(always)]
    pub fn pass_spaces(&mut self) -> u32
        ensures passed { AreSpacesPassed self.old self.new result }
        ensures fits { self.new.at < 2 ^ 32 }
    {
        let len = space_len(self.cursor.rest());
        self.cursor.pass(len);
        len as u32
    }

    /// Steps behind the space that comes next, where one does. How many they are: one or none.
    ///
    /// It stays before one where lines are spliced.
    #[inline(always)]
    pub fn pass_space(&mut self) -> u32
        ensures passed { AreSpacesPassed self.old self.new result }
        ensures most { result ≤ 1 }
        ensures fits { self.new.at < 2 ^ 32 }
    {
        let len = first_space_len(self.cursor.rest());
        self.cursor.pass(len);
        len as u32
    }

    /// Steps behind the spaces, the tabs and the characters that come next and are no white space and none of
    /// `"'*?\\`, in one pass over their bytes: what strings are mostly made of.
    ///
    /// It may stop before a further one, where lines are spliced between the two.
    #[inline(always)]
    pub fn pass_text(&mut self)
        ensures { ArePassed is_text_byte self.old self.new }
    {
        let len = run_len::<TextBytes>(self.cursor.rest());
        self.cursor.pass(len);
    }

    /// Steps behind the printable characters of ASCII that come next and are none of `"'*?\\`, in one pass over their
    /// bytes: what most literals and short comments are made of.
    ///
    /// It may stop before a further one, where lines are spliced between the two.
    #[inline(always)]
    pub fn pass_quiet(&mut self)
        ensures passed { ArePassed is_quiet_byte self.old self.new }
        ensures bytes { AreBytesPassed is_quiet_byte self.old self.new }
    {
        let len = quiet_len(self.cursor.rest());
        self.cursor.pass(len);
    }

    /// Steps behind the spaces, the tabs and the characters that come next and are no white space and none of `*?\\`,
    /// sixteen bytes at a time: what comments are mostly made of.
    ///
    /// It may stop before a further one, where lines are spliced between the two.
    #[inline(always)]
    pub fn pass_comment(&mut self)
        ensures { ArePassed is_comment_byte self.old self.new }
    {
        let len = run_len::<CommentBytes>(self.cursor.rest());
        self.cursor.pass(len);
    }

    /// Steps behind the last of such characters that is no space or tab.
    #[inline(always)]
    pub fn pass_words(&mut self)
        ensures { AreWordsPassed self.old self.new }
    {
        let len = words_len(self.cursor.rest());
        self.cursor.pass(len);
    }

    /// Steps behind the last of the printable characters of ASCII that come next and are none of `*?\\`, and that is no
    /// space: what most line comments are.
    ///
    /// It may stop before a further one, where lines are spliced between the two.
    #[inline(always)]
    pub fn pass_quiet_words(&mut self)
        ensures passed { AreWordsPassed self.old self.new }
        ensures bytes { AreBytesPassed is_quiet_comment self.old self.new }
    {
        let len = quiet_words_len(self.cursor.rest());
        self.cursor.pass(len);
    }

    /// The character that stands behind the next k characters, 0 for the next one.
    ///
    /// It reads on from the next character each time, so k is to be small.
    #[inline(always)]
    pub fn peek(&self, index: usize) -> Option<LogicalChar>
        requires { index ≤ 8 }
        ensures { result ≡ slice_get self.now.chars index }
    {
        behind(self, index).next()
    }

    /// The offset behind the last character that was read; where none was, the one of the text behind
    /// its byte order mark.
    #[inline(always)]
    pub fn at(&self) -> usize
        ensures { result ≡ self.now.at }
    {
        self.cursor.at
    }

    /// A second reader that stands at the same place.
    #[inline(always)]
    pub fn ahead(&self) -> Chars<'s>
        ensures { result ≡ self.now }
    {
        Chars {
            cursor: self.cursor,
        }
    }
}
