//! Sequences of units: what identifiers, numbers and literals are made of (C11 6.4).

ghost use Rattle.std.specs.Prelude.{◌≡◌, ◌≤◌};
ghost use Rattle.pp_model.specs.Finding.{are_units, is_headed};
ghost use Rattle.c_grammar.specs.Grammar.{is_letter_unit, is_word_unit, is_number_head, is_number_unit};
ghost use Rattle.pp_items.specs.Units.{passes, unit_len, word_len, name_len, begins_two, quoted_len, head_len};

use crate::class;
use c_chars::Dialect;
use c_grammar::char_len;

/// Which units a sequence has.
#[derive(Clone, Copy)]
pub(crate) enum Units {
    /// What an identifier may go on with.
    Word,
    /// What a number may go on with.
    Number(Dialect),
    /// What may stand between two of these quotes.
    Quoted(u8),
}

/// How many a universal character name has that begins with a backslash and this.
fn name_len(text: &[u8]) -> usize
    ensures len { result ≡ name_len text.now }
    ensures some { 1 ≤ result }
{
    match text {
        [b'U', ..] => 10,
        [_, ..] => 6,
        [] => 1,
    }
}

/// How many the unit of a word has that begins this text, if one does.
fn word_len(text: &[u8]) -> usize
    ensures len { result ≡ word_len text.now }
    ensures some { 1 ≤ result }
{
    match text {
        [first, rest @ ..] => {
            if *first == b'\\' {
                name_len(rest)
            } else {
                char_len(*first)
            }
        }
        [] => 1,
    }
}

/// Whether a sign stands behind an exponent, or an apostrophe is first.
fn begins_two(text: &[u8]) -> bool
    ensures { result ≡ begins_two text.now }
{
    match text {
        [first, second, ..] => (class::is_exponent(*first) && class::is_sign(*second))
            || *first == b'\'',
        _ => false,
    }
}

/// How many a unit between quotes has that begins this text, if one does.
fn quoted_len(text: &[u8]) -> usize
    ensures len { result ≡ quoted_len text.now }
    ensures some { 1 ≤ result }
{
    match text {
        [b'\\', ..] => 2,
        _ => 1,
    }
}

/// How many the head of a number has that begins this text, if one does.
fn head_len(text: &[u8]) -> usize
    ensures { result ≡ head_len text.now }
{
    match text {
        [b'.', ..] => 2,
        _ => 1,
    }
}

impl Units {
    /// How many bytes the unit has that begins this text, if one does.
    fn unit_len(self, text: &[u8]) -> usize
        ensures len { result ≡ unit_len self text.now }
        ensures some { 1 ≤ result }
    {
        match self {
            Units::Word => word_len(text),
            Units::Number(_) => { if begins_two(text) { 2 } else { word_len(text) } }
            Units::Quoted(_) => quoted_len(text),
        }
    }

    /// Whether this is one unit.
    fn is_unit(self, unit: &[u8]) -> bool
        ensures { result ≡ passes self unit.now }
    {
        match self {
            Units::Word => class::is_word_unit(unit),
            Units::Number(dialect) => class::is_number_unit(dialect, unit),
            Units::Quoted(quote) => class::is_quoted_unit(quote, unit),
        }
    }

    /// Whether the text is a sequence of such units.
    pub fn are_units(self, text: &[u8]) -> bool
        ensures { result ≡ are_units (passes self) text.now }
    {
        let mut rest = text;
        while !rest.is_empty() {
            let len = self.unit_len(rest);
            if rest.len() < len {
                return false;
            }
            let (unit, behind) = rest.split_at(len);
            if !self.is_unit(unit) {
                return false;
            }
            rest = behind;
        }
        true
    }
}

/// Whether the text is an identifier (6.4.2.1).
pub(crate) fn is_identifier(text: &[u8]) -> bool
    ensures { result ≡ is_headed is_letter_unit is_word_unit text.now }
{
    let len = word_len(text);
    if text.len() < len {
        return false;
    }
    let (head, rest) = text.split_at(len);
    class::is_letter_unit(head) && Units::Word.are_units(rest)
}

/// Whether the text is a preprocessing number (6.4.8).
pub(crate) fn is_number(dialect: Dialect, text: &[u8]) -> bool
    ensures { result ≡ is_headed is_number_head (is_number_unit dialect) text.now }
{
    let len = head_len(text);
    if text.len() < len {
        return false;
    }
    let (head, rest) = text.split_at(len);
    class::is_number_head(head) && Units::Number(dialect).are_units(rest)
}
