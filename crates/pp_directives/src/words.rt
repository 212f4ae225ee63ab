//! Tests of single tokens.

ghost use Rattle.std.specs.Prelude.{◌≡◌, ◌∷◌, map, not, ◌&&◌, codes, Option, option_map};
ghost use Rattle.pp_model.specs.Token.{is_in, text_of};
ghost use Rattle.pp_model.specs.Define.{is_hash, is_paste, is_name, is_kept_name};
ghost use Rattle.pp_events.specs.View.{shown, tok_shown};
ghost use Rattle.pp_directives.specs.WorldView.{front_name};

use pp_events::{Tok, contains_name, is_identifier_kind, is_spelled, spelling_of};
use std::collections::VecDeque;

/// Whether the token is an identifier.
pub fn is_name(token: &Tok) -> bool
    ensures { result ≡ is_name (tok_shown token.now) }
{
    is_identifier_kind(token.kind)
}

/// Whether the token is `#` or its digraph.
pub fn is_hash(token: &Tok) -> bool
    ensures { result ≡ is_hash (tok_shown token.now) }
{
    is_spelled(token, b"#") || is_spelled(token, b"%:")
}

/// Whether the token is `##` or its digraph.
pub fn is_paste(token: &Tok) -> bool
    ensures { result ≡ is_paste (tok_shown token.now) }
{
    is_spelled(token, b"##") || is_spelled(token, b"%:%:")
}

/// Whether a name is never defined nor undefined (C11 6.10.8p4, 6.10.3p5).
pub fn is_kept_name(name: &[u8]) -> bool
    ensures { result ≡ is_kept_name name.now }
{
    name == b"defined".as_slice()
        || name == b"__LINE__".as_slice()
        || name == b"__VA_ARGS__".as_slice()
}

/// Whether the token is a name that a macro may have.
pub fn may_be_defined(token: &Tok) -> bool
    ensures { result ≡ (is_name (tok_shown token.now) && not (is_kept_name (text_of (shown token.now.token)))) }
{
    is_name(token) && !is_kept_name(spelling_of(&token.token))
}

/// The name in front, where a macro may have it.
#[tactic(auto, using(crate::proofs::Fronts::front_first, crate::proofs::Fronts::no_front))]
pub fn front_name(tokens: &VecDeque<Tok>) -> Option<&[u8]>
    ensures { option_map (λ b. b.now) result ≡ front_name (map tok_shown tokens.now.items) }
{
    match tokens.front() {
        None => None,
        Some(token) => {
            if may_be_defined(token) {
                Some(spelling_of(&token.token))
            } else {
                None
            }
        }
    }
}

/// Whether a name may be the next parameter: it is another one than these, and not `__VA_ARGS__`.
pub fn is_new_parameter(names: &[Vec<u8>], name: &[u8]) -> bool
    ensures { result ≡ not (is_in name.now (codes "__VA_ARGS__" ∷ map (λ n. n.items) names.now)) }
{
    name != b"__VA_ARGS__".as_slice() && !contains_name(names, name)
}
