//! The parameters of a macro.

ghost use Rattle.std.specs.Prelude.{◌≡◌, List, ◌∷◌, map, IfOk, Option};
ghost use Rattle.pp_model.specs.Define.{params_of, all_names, may_name, may_end, may_go_on, is_after_dots, index_of};
ghost use Rattle.pp_model.specs.Define.{param_of, AfterOpen};
ghost use Rattle.pp_model.specs.Token.{Tok as Token};
ghost use Rattle.pp_events.specs.View.{tok_shown};
ghost use Rattle.pp_directives.specs.DefineView.{place_shown, params_read, listed_on};

use crate::words::{is_name, is_new_parameter};
use pp_events::{Tok, add_name, is_spelled, spelling_of};
use std::alloc::{AllocError, Global};
use std::collections::VecDeque;

/// Where a parameter list is read.
#[derive(Clone, Copy)]
pub enum Place {
    AfterOpen,
    AfterName,
    AfterComma,
    AfterDots,
}

impl Place {
    /// Whether a name or `...` may follow.
    fn may_name(self) -> bool
        ensures { result ≡ may_name (place_shown self) }
    {
        match self {
            Place::AfterOpen => true,
            Place::AfterComma => true,
            Place::AfterName => false,
            Place::AfterDots => false,
        }
    }

    /// Whether `)` may follow.
    fn may_end(self) -> bool
        ensures { result ≡ may_end (place_shown self) }
    {
        match self {
            Place::AfterOpen => true,
            Place::AfterName => true,
            Place::AfterComma => false,
            Place::AfterDots => true,
        }
    }

    /// Whether a comma may follow.
    fn may_go_on(self) -> bool
        ensures { result ≡ may_go_on (place_shown self) }
    {
        match self {
            Place::AfterName => true,
            Place::AfterOpen => false,
            Place::AfterComma => false,
            Place::AfterDots => false,
        }
    }

    /// Whether `...` was read.
    fn is_after_dots(self) -> bool
        ensures { result ≡ is_after_dots (place_shown self) }
    {
        match self {
            Place::AfterDots => true,
            Place::AfterOpen => false,
            Place::AfterName => false,
            Place::AfterComma => false,
        }
    }
}

/// What a token of a parameter list is.
#[derive(Clone, Copy)]
pub enum Listed {
    /// The `)`.
    End,
    /// A comma or `...`, and what it is read behind then.
    Mark(Place),
    /// A parameter.
    Name,
    Malformed,
}

/// What a token of a parameter list is at this place, behind these names.
fn what_is_listed(place: Place, names: &[Vec<u8>], token: &Tok) -> Listed
    ensures { (ts : List Token) →
        params_of (map (λ n. n.items) names.now) (place_shown place) (tok_shown token.now ∷ ts)
        ≡ listed_on result (map (λ n. n.items) names.now) (place_shown place) (tok_shown token.now) ts }
{
    if is_spelled(token, b")") && place.may_end() {
        Listed::End
    } else if is_spelled(token, b",") && place.may_go_on() {
        Listed::Mark(Place::AfterComma)
    } else if is_spelled(token, b"...") && place.may_name() {
        Listed::Mark(Place::AfterDots)
    } else if is_name(token)
        && place.may_name()
        && is_new_parameter(names, spelling_of(&token.token))
    {
        Listed::Name
    } else {
        Listed::Malformed
    }
}

/// Reads the parameter list behind its `(`, up to its `)` (C11 6.10p1, 6.10.3p5 and p6): whether it ends
/// in `...`, or none where it is malformed.
#[tactic(auto, using(crate::proofs::Fronts::front_first, crate::proofs::Fronts::no_front))]
pub fn read_params(
    alloc: Global,
    names: &mut Vec<Vec<u8>>,
    rest: &mut VecDeque<Tok>,
) -> Result<Option<bool>, AllocError>
    ensures { IfOk result (λ r. params_read r (map (λ n. n.items) names.new.items) (map tok_shown rest.new.items)
        ≡ params_of (map (λ n. n.items) names.old.items) AfterOpen (map tok_shown rest.old.items)) }
{
    let mut place = Place::AfterOpen;
    while let Some(token) = rest.front() {
        match what_is_listed(place, names.as_slice(), token) {
            Listed::End => {
                let _ = rest.pop_front();
                return Ok(Some(place.is_after_dots()));
            }
            Listed::Mark(next) => place = next,
            Listed::Name => {
                add_name(alloc, names, spelling_of(&token.token))?;
                place = Place::AfterName;
            }
            Listed::Malformed => return Ok(None),
        }
        let _ = rest.pop_front();
    }
    Ok(None)
}

/// With `__VA_ARGS__` in a variadic macro: the names that stand for arguments in the body (6.10.3.1p2).
pub fn add_variadic(
    alloc: Global,
    names: &mut Vec<Vec<u8>>,
    variadic: bool,
) -> Result<(), AllocError>
    ensures { IfOk result (λ _.
        (body : List Token) →
        map (λ n. n.items) names.new.items
        ≡ all_names (record { names = map (λ n. n.items) names.old.items; variadic = variadic; body = body })) }
{
    if variadic {
        add_name(alloc, names, b"__VA_ARGS__")?;
    }
    Ok(())
}

/// Where a name stands among these.
#[tactic(auto, using(crate::proofs::Indices::index_from_start))]
fn index_of(names: &[Vec<u8>], name: &[u8]) -> Option<usize>
    ensures { result ≡ index_of name.now (map (λ n. n.items) names.now) }
{
    for (index, parameter) in names.iter().enumerate() {
        if name == parameter.as_slice() {
            return Some(index);
        }
    }
    None
}

/// The parameter that a token of the body names.
pub fn param_of(names: &[Vec<u8>], token: &Tok) -> Option<usize>
    ensures { result ≡ param_of (map (λ n. n.items) names.now) (tok_shown token.now) }
{
    if is_name(token) {
        index_of(names, spelling_of(&token.token))
    } else {
        None
    }
}
