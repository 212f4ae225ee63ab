//! The `defined` of a condition, answered by the table (C11 6.10.1p1).

ghost use Rattle.std.specs.Prelude.{◌≡◌, ◌+◌, ◌≤◌, List, [], ◌∷◌, ◌++◌, length, map, IfOk, Option};
ghost use Rattle.pp_model.specs.Token.{Tok as Token, Plain};
ghost use Rattle.item_kinds.specs.declared.ItemKind.TheVariants.{Number};
ghost use Rattle.pp_model.specs.Condition.{resolve, is_defined, answer, asks, Free};
ghost use Rattle.pp_events.specs.View.{tok_shown, macro_shown};
ghost use Rattle.pp_directives.specs.WorldView.{front_defined};
ghost use Rattle.pp_directives.specs.Resolving.{held_of, acted, more_held};

use crate::words::is_name;
use pp_events::{ItemKind, Macro, PpToken, Tok, copy_bytes, is_spelled, look_up, spelling_of};
use std::alloc::{AllocError, Global};
use std::collections::VecDeque;

/// What a token does behind those that are held back: of a `defined X` or `defined(X)` that isn't whole.
#[derive(Clone, Copy)]
pub enum Act {
    /// It is held back too.
    Wait,
    /// It makes them whole, and whether the table has the name answers them.
    Answer(bool),
    /// All of them come as they are written.
    Release,
}

/// Whether the table has the token's name.
pub fn is_defined(table: &[Macro], token: &Tok) -> bool
    ensures { result ≡ is_defined (map macro_shown table.now) (tok_shown token.now) }
{
    match look_up(table, spelling_of(&token.token)) {
        Some(_) => true,
        None => false,
    }
}

/// Whether the table has the name in front; none where there is no name.
#[tactic(auto, using(crate::proofs::Fronts::front_first, crate::proofs::Fronts::no_front))]
pub fn front_defined(table: &[Macro], tokens: &VecDeque<Tok>) -> Option<bool>
    ensures { result ≡ front_defined (map macro_shown table.now) (map tok_shown tokens.now.items) }
{
    match tokens.front() {
        None => None,
        Some(token) => {
            if is_name(token) {
                Some(is_defined(table, token))
            } else {
                None
            }
        }
    }
}

/// Whether the token is `defined`.
fn asks(token: &Tok) -> bool
    ensures { result ≡ asks (tok_shown token.now) }
{
    is_name(token) && is_spelled(token, b"defined")
}

/// A number in the place of a `defined`.
fn number_tok(alloc: Global, token: &Tok, text: &[u8]) -> Result<Tok, AllocError>
    ensures { IfOk result (λ r.
        tok_shown r
        ≡ record
        { token = Plain text.now; kind = Number; hide = []; white = token.now.white; line = token.now.line }) }
{
    let text = copy_bytes(alloc, text)?;
    Ok(Tok {
        token: PpToken::Plain { text },
        kind: ItemKind::Number,
        hide: Vec::new(alloc),
        white: token.white,
        line: token.line,
    })
}

/// 1 or 0 in the place of a `defined`.
fn answer(alloc: Global, token: &Tok, holds: bool) -> Result<Tok, AllocError>
    ensures { IfOk result (λ r. tok_shown r ≡ answer (tok_shown token.now) holds) }
{
    if holds {
        number_tok(alloc, token, b"1")
    } else {
        number_tok(alloc, token, b"0")
    }
}

/// What a token does behind those that are held back.
fn act_of(table: &[Macro], held: &[Tok], token: &Tok) -> Act
    requires { length held.now ≤ 3 }
    ensures acts { (ts : List Token) →
        resolve (map macro_shown table.now) (held_of (map tok_shown held.now)) (tok_shown token.now ∷ ts)
        ≡ acted (map macro_shown table.now) result (map tok_shown held.now ++ tok_shown token.now ∷ []) ts }
    ensures few { length held.now + more_held result ≤ 3 }
{
    match held {
        [] => { if asks(token) { Act::Wait } else { Act::Release } }
        [_] => {
            if is_name(token) {
                Act::Answer(is_defined(table, token))
            } else if is_spelled(token, b"(") {
                Act::Wait
            } else {
                Act::Release
            }
        }
        [_, _] => {
            if is_name(token) {
                Act::Wait
            } else {
                Act::Release
            }
        }
        [_, _, name, ..] => {
            if is_spelled(token, b")") {
                Act::Answer(is_defined(table, name))
            } else {
                Act::Release
            }
        }
    }
}

/// Reads the token behind what is held back.
fn read_token(
    alloc: Global,
    table: &[Macro],
    out: &mut Vec<Tok>,
    held: &mut Vec<Tok>,
    token: Tok,
) -> Result<(), AllocError>
    requires { length held.old.items ≤ 3 }
    ensures read { IfOk result (λ _.
        (ts : List Token) →
        map tok_shown out.new.items ++ resolve (map macro_shown table.now) (held_of (map tok_shown held.new.items)) ts
        ≡ map tok_shown out.old.items
        ++ resolve (map macro_shown table.now) (held_of (map tok_shown held.old.items)) (tok_shown token ∷ ts)) }
    ensures few { IfOk result (λ _. length held.new.items ≤ 3) }
{
    let act = act_of(table, held.as_slice(), &token);
    held.push(token)?;
    match act {
        Act::Wait => Ok(()),
        Act::Answer(holds) => {
            out.push(answer(alloc, &held[0], holds)?)?;
            held.clear();
            Ok(())
        }
        Act::Release => {
            out.append(held)?;
            Ok(())
        }
    }
}

/// A condition with each `defined` answered by the table; one that isn't whole stays as it is
/// written.
#[tactic(auto, using(crate::proofs::Resolved::held_back_at_end))]
pub fn resolve(
    alloc: Global,
    table: &[Macro],
    tokens: VecDeque<Tok>,
) -> Result<VecDeque<Tok>, AllocError>
    ensures { IfOk result
        (λ r. map tok_shown r.items ≡ resolve (map macro_shown table.now) Free (map tok_shown tokens.items)) }
{
    let mut out = Vec::new(alloc);
    let mut held = Vec::new(alloc);
    let mut rest = tokens;
    while let Some(token) = rest.pop_front() {
        read_token(alloc, table, &mut out, &mut held, token)?;
    }
    out.append(&mut held)?;
    Ok(VecDeque::from_vec(out))
}
