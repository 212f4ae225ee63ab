//! The collection of a call's arguments.

ghost use Rattle.std.specs.Prelude.{◌≡◌, suc, ◌<◌, ◌≤◌, ◌^◌, true, List, [], ◌∷◌, map, length, drop, IfOk, IfSome};
ghost use Rattle.pp_model.specs.Token.{Tok as Token, is_text};
ghost use Rattle.c_grammar.specs.Touch.{is_identifier};
ghost use Rattle.pp_model.specs.Call.{collect, may_part, one_less};
ghost use Rattle.pp_events.specs.View.{tok_shown, toks_shown, some_actuals};
ghost use Rattle.pp_events.specs.Collected.{collect_on, depth_behind, collected};
ghost use Rattle.pp_events.specs.declared.call.Mark.{Mark as MarkValue};

use crate::copy::{add_tok, copy_names};
use crate::token::{Actuals, PpToken, Tok};
use c_grammar::ItemKind;
use std::alloc::{AllocError, Global};
use std::collections::VecDeque;

/// Whether the token is plain and spelled so.
pub fn is_spelled(token: &Tok, text: &[u8]) -> bool
    requires { 0 < length text.now }
    ensures { result ≡ is_text text.now (tok_shown token.now) }
{
    match &token.token {
        PpToken::Plain { text: spelling } => spelling.as_slice() == text,
        PpToken::Line { .. } => text.is_empty(),
        PpToken::Str { .. } => text.is_empty(),
        PpToken::Pasted { .. } => text.is_empty(),
    }
}

/// Whether the kind is an identifier's.
pub fn is_identifier_kind(kind: ItemKind) -> bool
    ensures { result ≡ is_identifier kind }
{
    match kind {
        ItemKind::Identifier => true,
        ItemKind::Number => false,
        ItemKind::CharConst => false,
        ItemKind::StringLit => false,
        ItemKind::Punct => false,
        ItemKind::HeaderName => false,
        ItemKind::StrayQuote => false,
        ItemKind::Other => false,
        ItemKind::BlockComment => false,
        ItemKind::LineComment => false,
    }
}

/// What a token is while the arguments of a call are read.
#[derive(Clone, Copy)]
pub enum Mark {
    /// The `)` of the call.
    End,
    /// A comma that parts two arguments.
    Comma,
    /// A token of an argument, behind which so many brackets are open.
    Within(usize),
}

/// What a token is, where so many brackets are open and so many commas still part arguments.
fn mark_of(token: &Tok, depth: usize, limit: Option<usize>) -> Mark
    requires { suc depth < 2 ^ 64 }
    ensures marks { (arg : List Token) (args : List (List Token)) (ts : List Token) →
        collect limit depth arg args (tok_shown token.now ∷ ts)
        ≡ collect_on result limit depth arg args (tok_shown token.now) ts }
    ensures bound { depth_behind result ≤ suc depth }
    ensures limit { result ≡ MarkValue.Comma → may_part limit ≡ true }
{
    if is_spelled(token, b"(") {
        Mark::Within(depth + 1)
    } else if is_spelled(token, b")") {
        if depth == 0 {
            Mark::End
        } else {
            Mark::Within(depth - 1)
        }
    } else if is_spelled(token, b",") && depth == 0 && limit != Some(0) {
        Mark::Comma
    } else {
        Mark::Within(depth)
    }
}

/// One comma less.
fn one_less(limit: Option<usize>) -> Option<usize>
    requires { may_part limit ≡ true }
    ensures { result ≡ one_less limit }
{
    match limit {
        None => None,
        Some(commas) => Some(commas - 1),
    }
}

/// Reads the arguments of a call, which these tokens begin with, from its `(` up to its `)`, at most
/// `limit` commas parting them: where the `)` stands.
fn read_args(
    alloc: Global,
    limit: Option<usize>,
    rest: &VecDeque<Tok>,
    args: &mut Vec<Vec<Tok>>,
) -> Result<Option<usize>, AllocError>
    ensures read { IfOk result (λ r.
        collected r (map toks_shown args.new.items) rest.now.items
        ≡ collect limit 0 [] (map toks_shown args.old.items) (map tok_shown (drop 1 rest.now.items))) }
    ensures bound { IfOk result (λ r. IfSome r (λ i. i < length rest.now.items)) }
{
    let mut limit = limit;
    let mut depth: usize = 0;
    let mut arg: Vec<Tok> = Vec::new(alloc);
    for index in 1..rest.len() {
        let token = &rest[index];
        match mark_of(token, depth, limit) {
            Mark::End => {
                args.push(arg)?;
                return Ok(Some(index));
            }
            Mark::Comma => {
                args.push(arg)?;
                arg = Vec::new(alloc);
                limit = one_less(limit);
            }
            Mark::Within(inner) => {
                add_tok(alloc, &mut arg, token)?;
                depth = inner;
            }
        }
    }
    Ok(None)
}

/// The arguments of a call, which these tokens begin with.
pub fn collect_actuals(
    alloc: Global,
    limit: Option<usize>,
    rest: &VecDeque<Tok>,
) -> Result<Option<Actuals>, AllocError>
    ensures read { IfOk result
        (λ r. some_actuals rest.now.items r ≡ collect limit 0 [] [] (map tok_shown (drop 1 rest.now.items))) }
    ensures taken { IfOk result (λ r. IfSome r (λ a. a.taken ≤ length rest.now.items)) }
{
    let mut args = Vec::new(alloc);
    match read_args(alloc, limit, rest, &mut args)? {
        None => Ok(None),
        Some(end) => {
            let close = copy_names(alloc, rest[end].hide.as_slice())?;
            let taken = end + 1;
            Ok(Some(Actuals { args, close, taken }))
        }
    }
}
