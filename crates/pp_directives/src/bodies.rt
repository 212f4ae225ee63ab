//! The parts of a macro's body.

ghost use Rattle.std.specs.Prelude.{◌≡◌, Bool, false, List, ◌∷◌, map, IfOk, Option, Some};
ghost use Rattle.pp_model.specs.Define.{parts_of_body, paste_next, what_of, is_paste_before, is_item_before, ends_body};
ghost use Rattle.pp_model.specs.Define.{Nothing};
ghost use Rattle.pp_model.specs.Token.{Tok as Token, Name};
ghost use Rattle.pp_events.specs.View.{tok_shown, what_shown, part_shown};
ghost use Rattle.pp_directives.specs.DefineView.{before_shown, some_parts};
ghost use Rattle.pp_directives.specs.Body.{behind, goes_on, is_hash_before, stood, next_parts};

use crate::parameters::param_of;
use crate::words::{is_hash, is_paste};
use pp_events::{Part, Tok, What};
use std::alloc::{AllocError, Global};
use std::collections::VecDeque;

/// What was read of a body last.
#[derive(Clone, Copy)]
pub enum Before {
    Nothing,
    Item,
    /// `##`.
    Paste,
    /// A `#`, whether `##` stands before it, and whether white space does.
    Hash { glue: bool, white: bool },
}

impl Before {
    fn is_paste(self) -> bool
        ensures { result ≡ is_paste_before (before_shown self) }
    {
        match self {
            Before::Paste => true,
            Before::Nothing => false,
            Before::Item => false,
            Before::Hash { .. } => false,
        }
    }

    fn is_item(self) -> bool
        ensures { result ≡ is_item_before (before_shown self) }
    {
        match self {
            Before::Item => true,
            Before::Nothing => false,
            Before::Paste => false,
            Before::Hash { .. } => false,
        }
    }
}

/// Whether `##` is next.
#[tactic(auto, using(crate::proofs::BodyParts::paste_in_front, crate::proofs::BodyParts::no_paste_next))]
fn is_paste_next(rest: &VecDeque<Tok>) -> bool
    ensures { result ≡ paste_next (map tok_shown rest.now.items) }
{
    match rest.front() {
        Some(token) => is_paste(token),
        None => false,
    }
}

/// What comes in the place of a token of the body.
#[derive(Clone, Copy)]
pub enum Stand {
    Itself,
    Full(usize),
    Written(usize),
    Quoted(usize),
}

/// What a token of the body is.
#[derive(Clone, Copy)]
pub enum Next {
    /// A `##` or a `#`.
    Mark(Before),
    /// A part.
    Part {
        stand: Stand,
        white: bool,
        glue: bool,
    },
    Malformed,
}

/// What comes in the place of a token that is behind no `#`: a parameter beside `##` takes its argument as
/// written.
fn stand_of(beside: bool, parameter: Option<usize>) -> Stand
    ensures { (t : Token) → stood result t ≡ what_of beside t parameter }
{
    match parameter {
        None => Stand::Itself,
        Some(index) => {
            if beside {
                Stand::Written(index)
            } else {
                Stand::Full(index)
            }
        }
    }
}

/// What a token behind no `#` is.
#[tactic(auto, using(crate::proofs::BodyParts::plain_body))]
fn next_plain(
    names: &[Vec<u8>],
    function_like: bool,
    before: Before,
    token: &Tok,
    paste_is_next: bool,
) -> Next
    requires { is_hash_before (before_shown before) ≡ false }
    ensures { (ts : List Token) → paste_next ts ≡ paste_is_next →
        parts_of_body (map (λ n. n.items) names.now) function_like (before_shown before) (tok_shown token.now ∷ ts)
        ≡ next_parts result (map (λ n. n.items) names.now) function_like (tok_shown token.now) ts }
{
    let glue = before.is_paste();
    if is_paste(token) {
        if before.is_item() {
            Next::Mark(Before::Paste)
        } else {
            Next::Malformed
        }
    } else if function_like && is_hash(token) {
        let white = token.white;
        Next::Mark(Before::Hash { glue, white })
    } else {
        let stand = stand_of(glue || paste_is_next, param_of(names, token));
        let white = token.white;
        Next::Part { stand, white, glue }
    }
}

/// What a token is: behind a `#` it has to be a parameter (C11 6.10.3.2p1).
fn next_of(
    names: &[Vec<u8>],
    function_like: bool,
    before: Before,
    token: &Tok,
    paste_is_next: bool,
) -> Next
    ensures { (ts : List Token) → paste_next ts ≡ paste_is_next →
        parts_of_body (map (λ n. n.items) names.now) function_like (before_shown before) (tok_shown token.now ∷ ts)
        ≡ next_parts result (map (λ n. n.items) names.now) function_like (tok_shown token.now) ts }
{
    match before {
        Before::Hash { glue, white } => match param_of(names, token) {
            None => Next::Malformed,
            Some(index) => {
                let stand = Stand::Quoted(index);
                Next::Part { stand, white, glue }
            }
        },
        Before::Nothing => next_plain(names, function_like, Before::Nothing, token, paste_is_next),
        Before::Item => next_plain(names, function_like, Before::Item, token, paste_is_next),
        Before::Paste => next_plain(names, function_like, Before::Paste, token, paste_is_next),
    }
}

/// What a token of the body stands for.
fn what_of(stand: Stand, token: Tok) -> What
    ensures { what_shown result ≡ stood stand (tok_shown token) }
{
    match stand {
        Stand::Itself => What::Word(token),
        Stand::Full(index) => What::Full(index),
        Stand::Written(index) => What::Written(index),
        Stand::Quoted(index) => What::Quoted(index),
    }
}

/// Adds what a token of a body is.
#[tactic(auto, using(crate::proofs::BodyParts::behind_part))]
fn add_token(parts: &mut Vec<Part>, next: Next, token: Tok) -> Result<Option<Before>, AllocError>
    ensures { IfOk result (λ r.
        (names : List Name) (fl : Bool) (ts : List Token) →
        behind (map part_shown parts.old.items) (next_parts next names fl (tok_shown token) ts)
        ≡ goes_on r (λ b. behind (map part_shown parts.new.items) (parts_of_body names fl (before_shown b) ts))) }
{
    match next {
        Next::Malformed => Ok(None),
        Next::Mark(before) => Ok(Some(before)),
        Next::Part { stand, white, glue } => {
            let what = what_of(stand, token);
            parts.push(Part { what, white, glue })?;
            Ok(Some(Before::Item))
        }
    }
}

/// The parts, unless the body ends in `##` (6.10.3.3p1) or in a `#` that wants a parameter (6.10.3.2p1).
#[tactic(auto, using(crate::proofs::BodyParts::behind_nothing))]
fn ended_parts(parts: Vec<Part>, before: Before) -> Option<Vec<Part>>
    ensures { some_parts result ≡ behind (map part_shown parts.items) (ends_body (before_shown before)) }
{
    match before {
        Before::Nothing => Some(parts),
        Before::Item => Some(parts),
        Before::Paste => None,
        Before::Hash { .. } => None,
    }
}

/// The parts of a body, or none where it is malformed.
#[tactic(auto, using(crate::proofs::BodyParts::nothing_behind))]
pub fn parts_of_body(
    alloc: Global,
    names: &[Vec<u8>],
    function_like: bool,
    body: VecDeque<Tok>,
) -> Result<Option<Vec<Part>>, AllocError>
    ensures { IfOk result (λ r.
        some_parts r
        ≡ parts_of_body (map (λ n. n.items) names.now) function_like Nothing (map tok_shown body.items)) }
{
    let mut parts = Vec::new(alloc);
    let mut before = Before::Nothing;
    let mut rest = body;
    while let Some(token) = rest.pop_front() {
        let next = next_of(names, function_like, before, &token, is_paste_next(&rest));
        match add_token(&mut parts, next, token)? {
            None => return Ok(None),
            Some(last) => before = last,
        }
    }
    Ok(ended_parts(parts, before))
}
