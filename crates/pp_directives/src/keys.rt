//! How a setting is asked: by tokens, but for the numbers of lines and the white space in strings.

ghost use Rattle.std.specs.Prelude.{◌≡◌, [], map, Option, option_map};
ghost use Rattle.pp_model.specs.Token.{erase, list_eq};
ghost use Rattle.pp_model.specs.Preprocess.{key_of};
ghost use Rattle.pp_model.specs.Setting.{find_text, holds_in};
ghost use Rattle.pp_events.specs.View.{shown, tok_shown};
ghost use Rattle.pp_directives.specs.SettingView.{text_shown, condition_shown};

use crate::settings::{Condition, IncludeText};
use pp_events::{PpToken, Tok, is_same_token};

/// Whether a key is that of these tokens.
#[tactic(auto, using(crate::proofs::Ends::key_end))]
pub fn is_key_of(key: &[PpToken], tokens: &[Tok]) -> bool
    ensures { result ≡ list_eq (map erase (map shown key.now)) (key_of (map tok_shown tokens.now)) }
{
    let mut rest = tokens;
    for expected in key {
        match rest {
            [] => return false,
            [first, others @ ..] => {
                if !is_same_token(expected, &first.token) {
                    return false;
                }
                rest = others;
            }
        }
    }
    rest.is_empty()
}

/// The bytes that an include of these tokens finds; the first entry decides.
pub fn find_text<'s>(includes: &'s [IncludeText], tokens: &[Tok]) -> Option<&'s [u8]>
    ensures { option_map (λ b. b.now) result
        ≡ find_text (map text_shown includes.now) (key_of (map tok_shown tokens.now)) }
{
    for include in includes {
        if is_key_of(include.key.as_slice(), tokens) {
            return Some(include.bytes.as_slice());
        }
    }
    None
}

/// Whether a condition of these tokens holds; the first entry decides, and without one it is false.
pub fn holds_in(conditions: &[Condition], tokens: &[Tok]) -> bool
    ensures { result ≡ holds_in (map condition_shown conditions.now) (key_of (map tok_shown tokens.now)) }
{
    for condition in conditions {
        if is_key_of(condition.key.as_slice(), tokens) {
            return condition.holds;
        }
    }
    false
}
