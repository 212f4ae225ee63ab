//! Copies.

ghost use Rattle.std.specs.Prelude.{◌≡◌, [], ◌∷◌, ◌++◌, map, IfOk};
ghost use Rattle.pp_events.specs.View.{shown, shown_tokens, shown_spaced, shown_spaceds, tokens_of, spaceds_of};
ghost use Rattle.pp_events.specs.View.{tok_shown, toks_shown};

use crate::token::{PpToken, PpTokens, Spaced, SpacedList, Tok};
use std::alloc::{AllocError, Global};
use std::collections::VecDeque;

/// A copy of a text.
pub fn copy_bytes(alloc: Global, text: &[u8]) -> Result<Vec<u8>, AllocError>
    ensures { IfOk result (λ r. r.items ≡ text.now) }
{
    let mut items = Vec::new(alloc);
    items.extend_from_slice(text)?;
    Ok(items)
}

/// A list of tokens.
pub fn as_tokens(items: Vec<PpToken>) -> PpTokens
    ensures { shown_tokens result ≡ tokens_of (map shown items.items) }
{
    PpTokens { items }
}

/// A token with its white space.
pub fn spaced(token: PpToken, white: bool) -> Spaced
    ensures { shown_spaced result ≡ (white, shown token) }
{
    Spaced { token, white }
}

/// A list of parts.
pub fn as_parts(items: Vec<Spaced>) -> SpacedList
    ensures { shown_spaceds result ≡ spaceds_of (map shown_spaced items.items) }
{
    SpacedList { items }
}

/// A copy of a token.
#[cycle(copying)]
pub fn copy_token(alloc: Global, token: &PpToken) -> Result<PpToken, AllocError>
    ensures { IfOk result (λ r. shown r ≡ shown token.now) }
{
    match token {
        PpToken::Plain { text } => {
            let copy = copy_bytes(alloc, text)?;
            Ok(PpToken::Plain { text: copy })
        }
        PpToken::Line { number } => Ok(PpToken::Line { number: *number }),
        PpToken::Str { parts } => {
            let copy = copy_parts(alloc, parts)?;
            Ok(PpToken::Str { parts: copy })
        }
        PpToken::Pasted { parts } => {
            let copy = copy_tokens(alloc, parts)?;
            Ok(PpToken::Pasted { parts: copy })
        }
    }
}

/// A copy of a list.
#[cycle(copying)]
pub fn copy_tokens(alloc: Global, tokens: &PpTokens) -> Result<PpTokens, AllocError>
    ensures { IfOk result (λ r. shown_tokens r ≡ shown_tokens tokens.now) }
{
    let mut items = Vec::new(alloc);
    for token in &tokens.items {
        items.push(copy_token(alloc, token)?)?;
    }
    Ok(as_tokens(items))
}

/// A copy of a string's parts.
#[cycle(copying)]
pub fn copy_parts(alloc: Global, parts: &SpacedList) -> Result<SpacedList, AllocError>
    ensures { IfOk result (λ r. shown_spaceds r ≡ shown_spaceds parts.now) }
{
    let mut items = Vec::new(alloc);
    for part in &parts.items {
        let token = copy_token(alloc, &part.token)?;
        items.push(spaced(token, part.white))?;
    }
    Ok(as_parts(items))
}

/// A copy of a name behind others.
pub fn add_name(alloc: Global, names: &mut Vec<Vec<u8>>, name: &[u8]) -> Result<(), AllocError>
    ensures { IfOk result
        (λ _. map (λ n. n.items) names.new.items ≡ map (λ n. n.items) names.old.items ++ name.now ∷ []) }
{
    let copy = copy_bytes(alloc, name)?;
    names.push(copy)?;
    Ok(())
}

/// Copies of names behind others.
pub fn add_names(alloc: Global, out: &mut Vec<Vec<u8>>, names: &[Vec<u8>]) -> Result<(), AllocError>
    ensures { IfOk result
        (λ _. map (λ n. n.items) out.new.items ≡ map (λ n. n.items) out.old.items ++ map (λ n. n.items) names.now) }
{
    for name in names {
        add_name(alloc, out, name.as_slice())?;
    }
    Ok(())
}

/// A copy of a list of names.
pub fn copy_names(alloc: Global, names: &[Vec<u8>]) -> Result<Vec<Vec<u8>>, AllocError>
    ensures { IfOk result (λ r. map (λ n. n.items) r.items ≡ map (λ n. n.items) names.now) }
{
    let mut out = Vec::new(alloc);
    add_names(alloc, &mut out, names)?;
    Ok(out)
}

/// A copy of a token in an expansion.
pub fn copy_tok(alloc: Global, tok: &Tok) -> Result<Tok, AllocError>
    ensures { IfOk result (λ r. tok_shown r ≡ tok_shown tok.now) }
{
    let token = copy_token(alloc, &tok.token)?;
    let hide = copy_names(alloc, tok.hide.as_slice())?;
    Ok(Tok {
        token,
        kind: tok.kind,
        hide,
        white: tok.white,
        line: tok.line,
    })
}

/// A copy of a token behind others.
pub fn add_tok(alloc: Global, toks: &mut Vec<Tok>, tok: &Tok) -> Result<(), AllocError>
    ensures { IfOk result (λ _. toks_shown toks.new ≡ toks_shown toks.old ++ tok_shown tok.now ∷ []) }
{
    let copy = copy_tok(alloc, tok)?;
    toks.push(copy)?;
    Ok(())
}

/// A copy of some tokens.
pub fn copy_toks(alloc: Global, toks: &[Tok]) -> Result<Vec<Tok>, AllocError>
    ensures { IfOk result (λ r. toks_shown r ≡ map tok_shown toks.now) }
{
    let mut out = Vec::new(alloc);
    for tok in toks {
        add_tok(alloc, &mut out, tok)?;
    }
    Ok(out)
}

/// A copy of some arguments.
pub fn copy_args(alloc: Global, args: &[Vec<Tok>]) -> Result<VecDeque<Vec<Tok>>, AllocError>
    ensures { IfOk result (λ r. map toks_shown r.items ≡ map toks_shown args.now) }
{
    let mut out = VecDeque::new(alloc);
    for arg in args {
        out.push_back(copy_toks(alloc, arg.as_slice())?)?;
    }
    Ok(out)
}
