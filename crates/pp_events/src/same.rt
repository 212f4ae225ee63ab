//! Whether two tokens are the same but for the numbers of lines and the white space in strings.

ghost use Rattle.std.specs.Prelude.{◌≡◌, []};
ghost use Rattle.pp_model.specs.Token.{erase, erase_tokens, erase_parts, token_eq, tokens_eq, parts_eq, Plain, Line};
ghost use Rattle.pp_events.specs.View.{shown, shown_tokens, shown_spaceds};

use crate::token::{PpToken, PpTokens, SpacedList};

/// Whether two tokens are the same after Erase. It goes down into the tokens that a string or a
/// paste was made of.
#[cycle(comparing)]
pub fn is_same_token(left: &PpToken, right: &PpToken) -> bool
    ensures { result ≡ token_eq (erase (shown left.now)) (erase (shown right.now)) }
{
    match left {
        PpToken::Plain { text } => is_same_plain(text.as_slice(), right),
        PpToken::Line { .. } => is_line(right),
        PpToken::Str { parts } => match right {
            PpToken::Str { parts: others } => are_same_parts(parts, others),
            PpToken::Plain { .. } => false,
            PpToken::Line { .. } => false,
            PpToken::Pasted { .. } => false,
        },
        PpToken::Pasted { parts } => match right {
            PpToken::Pasted { parts: others } => are_same_tokens(parts, others),
            PpToken::Plain { .. } => false,
            PpToken::Line { .. } => false,
            PpToken::Str { .. } => false,
        },
    }
}

/// Whether a token is an item of this spelling.
fn is_same_plain(text: &[u8], token: &PpToken) -> bool
    ensures { result ≡ token_eq (Plain text.now) (erase (shown token.now)) }
{
    match token {
        PpToken::Plain { text: other } => text == other.as_slice(),
        PpToken::Line { .. } => false,
        PpToken::Str { .. } => false,
        PpToken::Pasted { .. } => false,
    }
}

/// Whether a token is the number of a line.
fn is_line(token: &PpToken) -> bool
    ensures { result ≡ token_eq (Line 0) (erase (shown token.now)) }
{
    match token {
        PpToken::Line { .. } => true,
        PpToken::Plain { .. } => false,
        PpToken::Str { .. } => false,
        PpToken::Pasted { .. } => false,
    }
}

/// Whether two lists are the same after Erase.
#[cycle(comparing)]
fn are_same_tokens(left: &PpTokens, right: &PpTokens) -> bool
    ensures { result ≡ tokens_eq (erase_tokens (shown_tokens left.now)) (erase_tokens (shown_tokens right.now)) }
{
    let mut rest = right.items.as_slice();
    for token in &left.items {
        match rest {
            [] => return false,
            [first, others @ ..] => {
                if !is_same_token(token, first) {
                    return false;
                }
                rest = others;
            }
        }
    }
    rest.is_empty()
}

/// Whether the parts of two strings are the same after Erase.
#[cycle(comparing)]
fn are_same_parts(left: &SpacedList, right: &SpacedList) -> bool
    ensures { result ≡ parts_eq (erase_parts (shown_spaceds left.now)) (erase_parts (shown_spaceds right.now)) }
{
    let mut rest = right.items.as_slice();
    for part in &left.items {
        match rest {
            [] => return false,
            [first, others @ ..] => {
                if !is_same_token(&part.token, &first.token) {
                    return false;
                }
                rest = others;
            }
        }
    }
    rest.is_empty()
}
