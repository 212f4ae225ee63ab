//! The kind of a spelling: what a text of logical characters is as one item (C11 6.4), as the model of
//! preprocessing asks of pastes and of a setting's tokens.
//!
//! A spelling has any length, and no memory is taken. No trigraph and no splice is in it, so it isn't read
//! by the lexer, which would take `"??/"` for an open quote.

ghost use Rattle.std.specs.Prelude.{◌≡◌, ◌||◌, true, false, map};
ghost use Rattle.std.specs.List.{list_any};
ghost use Rattle.c_grammar.specs.Grammar.{is_same, is_char_prefix, is_string_prefix, is_punctuator, is_other};
ghost use Rattle.c_grammar.specs.Grammar.{is_other_unit};
ghost use Rattle.pp_model.specs.Finding.{kind_of, is_quoted, is_inside, is_unclosed, is_empty_quotes, is_in_line};
ghost use Rattle.pp_items.specs.Literals.{closes, ends_cut_off, is_open_body};

use crate::class;
use crate::unit::{Units, is_identifier, is_number};
use c_lexer::{Dialect, ItemKind};

/// The punctuators of C11, digraphs among them (6.4.6).
const PUNCTUATORS: [&[u8]; 54] = [
    b"[", b"]", b"(", b")", b"{", b"}", b".", b"->", b"++", b"--", b"&", b"*", b"+", b"-", b"~",
    b"!", b"/", b"%", b"<<", b">>", b"<", b">", b"<=", b">=", b"==", b"!=", b"^", b"|", b"&&",
    b"||", b"?", b":", b";", b"...", b"=", b"*=", b"/=", b"%=", b"+=", b"-=", b"<<=", b">>=",
    b"&=", b"^=", b"|=", b",", b"#", b"##", b"<:", b":>", b"<%", b"%>", b"%:", b"%:%:",
];

/// Whether a spelling is this one.
#[tactic(auto, using(crate::proofs::KindWords::same_bytes))]
fn is_spelled(text: &[u8], word: &[u8]) -> bool
    ensures { result ≡ is_same text.now word.now }
{
    text == word
}

/// Whether a spelling is in a table.
fn is_in(table: &[&[u8]], text: &[u8]) -> bool
    ensures { result ≡ list_any (is_same text.now) (map (λ p. p.now) table.now) }
{
    for word in table {
        if is_spelled(text, word) {
            return true;
        }
    }
    false
}

/// Whether it is a punctuator of the edition.
#[tactic(auto, unfolding(c_grammar::specs::Grammar::is_punctuator, c_grammar::specs::Grammar::punctuators))]
fn is_punctuator(dialect: Dialect, text: &[u8]) -> bool
    ensures { result ≡ is_punctuator dialect text.now }
{
    match dialect {
        Dialect::C11 => is_in(&PUNCTUATORS, text),
        Dialect::C23 => is_spelled(text, b"::") || is_in(&PUNCTUATORS, text),
    }
}

/// Whether the text may stand between two of these quotes.
#[tactic(auto, using(crate::proofs::Spelled::empty_is))]
fn is_inside(text: &[u8], quote: u8, may_be_empty: bool) -> bool
    ensures { result ≡ is_inside quote may_be_empty text.now }
{
    (may_be_empty || !text.is_empty()) && Units::Quoted(quote).are_units(text)
}

/// Whether the text is a quote, what may stand behind it in the literal, and the quote.
fn is_between_quotes(text: &[u8], quote: u8, may_be_empty: bool) -> bool
    ensures { result ≡ closes quote may_be_empty text.now }
{
    match text {
        [first, body @ .., last] => {
            *first == quote && (*last == quote && is_inside(body, quote, may_be_empty))
        }
        _ => false,
    }
}

/// Whether it is a literal with this prefix.
fn is_literal(text: &[u8], prefix: &[u8], quote: u8, may_be_empty: bool) -> bool
    ensures { result ≡ is_quoted (is_same prefix.now) quote may_be_empty text.now }
{
    text.starts_with(prefix) && is_between_quotes(&text[prefix.len()..], quote, may_be_empty)
}

/// Whether it is a string literal (6.4.5).
#[tactic(auto, using(crate::proofs::Spelled::strings))]
fn is_string(text: &[u8]) -> bool
    ensures { result ≡ is_quoted is_string_prefix 34 true text.now }
{
    is_literal(text, b"", b'"', true)
        || (is_literal(text, b"L", b'"', true)
            || (is_literal(text, b"u", b'"', true)
                || (is_literal(text, b"U", b'"', true) || is_literal(text, b"u8", b'"', true))))
}

/// Whether it is a character constant of both editions (6.4.4.4).
#[tactic(auto, using(crate::proofs::Spelled::common_constants))]
fn is_common_constant(text: &[u8]) -> bool
    ensures { result ≡ is_quoted (is_char_prefix Dialect.C11) 39 false text.now }
{
    is_literal(text, b"", b'\'', false)
        || (is_literal(text, b"L", b'\'', false)
            || (is_literal(text, b"u", b'\'', false) || is_literal(text, b"U", b'\'', false)))
}

/// Whether it is a character constant.
#[tactic(auto, using(crate::proofs::Spelled::newer_constants))]
fn is_constant(dialect: Dialect, text: &[u8]) -> bool
    ensures { result ≡ is_quoted (is_char_prefix dialect) 39 false text.now }
{
    match dialect {
        Dialect::C11 => is_common_constant(text),
        Dialect::C23 => is_common_constant(text) || is_literal(text, b"u8", b'\'', false),
    }
}

/// Whether it is what may stand behind a quote, and a backslash at the end of the line.
fn ends_cut_off(text: &[u8], quote: u8) -> bool
    ensures { result ≡ ends_cut_off quote text.now }
{
    match text {
        [body @ .., last] => *last == b'\\' && Units::Quoted(quote).are_units(body),
        [] => false,
    }
}

/// Whether it is what stands behind a quote in a line that doesn't close it.
#[tactic(auto, using(crate::proofs::Spelled::open_body))]
fn is_open_body(text: &[u8], quote: u8) -> bool
    ensures { result ≡ is_open_body quote text.now }
{
    Units::Quoted(quote).are_units(text) || ends_cut_off(text, quote)
}

/// Whether it is a quote that isn't closed.
fn is_unclosed(text: &[u8]) -> bool
    ensures { result ≡ is_unclosed text.now }
{
    match text {
        [quote, body @ ..] => class::is_quote_mark(*quote) && is_open_body(body, *quote),
        [] => false,
    }
}

/// Whether no new-line is in it.
fn is_in_line(text: &[u8]) -> bool
    ensures { result ≡ is_in_line text.now }
{
    text.iter().all(|byte| !class::is_new_line(*byte))
}

/// Whether it is two apostrophes and what stands behind them in their line.
fn is_empty_quotes(text: &[u8]) -> bool
    ensures { result ≡ is_empty_quotes text.now }
{
    text.starts_with(b"''") && is_in_line(&text[2..])
}

/// Whether it is a quote that its line doesn't close, or one that encloses nothing.
fn is_stray(text: &[u8]) -> bool
    ensures { result ≡ (is_unclosed text.now || is_empty_quotes text.now) }
{
    is_unclosed(text) || is_empty_quotes(text)
}

/// Whether the character begins nothing else.
#[tactic(auto, unfolding(c_grammar::specs::Grammar::is_other))]
fn begins_nothing(dialect: Dialect, byte: u8) -> bool
    ensures { result ≡ is_other dialect byte }
{
    !(class::is_white(byte)
        || class::is_new_line(byte)
        || class::is_letter(byte)
        || class::is_digit(byte)
        || class::is_quote_mark(byte)
        || is_punctuator(dialect, &[byte]))
}

/// Whether it is a character that begins nothing else.
#[tactic(auto, unfolding(c_grammar::specs::Grammar::is_other_unit))]
fn is_other(dialect: Dialect, text: &[u8]) -> bool
    ensures { result ≡ is_other_unit dialect text.now }
{
    match text {
        [byte] => begins_nothing(dialect, *byte) || class::starts_no_word(text),
        _ => class::starts_no_word(text),
    }
}

/// The kind of a spelling that is one item other than a comment. A spelling has logical characters: no
/// trigraph and no splice is in it.
pub fn kind_of(dialect: Dialect, text: &[u8]) -> Option<ItemKind>
    ensures { result ≡ kind_of dialect text.now }
{
    if is_identifier(text) {
        Some(ItemKind::Identifier)
    } else if is_number(dialect, text) {
        Some(ItemKind::Number)
    } else if is_constant(dialect, text) {
        Some(ItemKind::CharConst)
    } else if is_string(text) {
        Some(ItemKind::StringLit)
    } else if is_punctuator(dialect, text) {
        Some(ItemKind::Punct)
    } else if is_stray(text) {
        Some(ItemKind::StrayQuote)
    } else if is_other(dialect, text) {
        Some(ItemKind::Other)
    } else {
        None
    }
}
