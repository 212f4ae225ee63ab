//! What a macro's body becomes.

ghost use Rattle.std.specs.Prelude.{◌≡◌, [], ◌∷◌, ◌++◌, map, IfOk, Option, option_map, flat_map, false};
ghost use Rattle.pp_model.specs.Token.{Tok as Token, common, is_in};
ghost use Rattle.pp_model.specs.Replace.{Piece, pieces, pieces_of, tokens_of, argument, parts_of, quoted, paste};
ghost use Rattle.pp_model.specs.Replace.{paste_all, paste_from, join, kept, hidden, joined, lined, placed, free, two};
ghost use Rattle.pp_model.specs.Replace.{pasted, joined_tokens, made, replacement};
ghost use Rattle.pp_events.specs.Pasted.{item_shown, item_read};
ghost use Rattle.pp_events.specs.View.{shown, shown_tokens, shown_spaceds, tok_shown, toks_shown, part_shown};
ghost use Rattle.pp_events.specs.View.{piece_shown, shown_spaced, spaced_pairs, trimmed, what_shown};
ghost use Rattle.pp_events.specs.View.{tokens_of as shown_list};

use crate::Spellings;
use crate::copy::{
    add_name, as_parts, as_tokens, copy_bytes, copy_names, copy_tok, copy_token, copy_toks, spaced,
};
use crate::token::{Part, Piece, PpToken, PpTokens, Spaced, SpacedList, Tok, What};
use c_grammar::ItemKind;
use std::alloc::{AllocError, Global};
use std::collections::VecDeque;

/// Whether a name is in a list.
pub fn contains_name(names: &[Vec<u8>], name: &[u8]) -> bool
    ensures { result ≡ is_in name.now (map (λ n. n.items) names.now) }
{
    for other in names {
        if name == other.as_slice() {
            return true;
        }
    }
    false
}

/// The names in both.
pub fn common_names(
    alloc: Global,
    left: &[Vec<u8>],
    right: &[Vec<u8>],
) -> Result<Vec<Vec<u8>>, AllocError>
    ensures { IfOk result
        (λ r. map (λ n. n.items) r.items ≡ common (map (λ n. n.items) left.now) (map (λ n. n.items) right.now)) }
{
    let mut out = Vec::new(alloc);
    for name in left {
        if contains_name(right, name.as_slice()) {
            add_name(alloc, &mut out, name.as_slice())?;
        }
    }
    Ok(out)
}

/// The spelling of two plain tokens beside each other.
fn joined_text(
    alloc: Global,
    left: &PpToken,
    right: &PpToken,
) -> Result<Option<Vec<u8>>, AllocError>
    ensures { IfOk result (λ r. option_map (λ v. v.items) r ≡ joined (shown left.now) (shown right.now)) }
{
    match left {
        PpToken::Plain { text: left_text } => match right {
            PpToken::Plain { text: right_text } => {
                let mut text = copy_bytes(alloc, left_text.as_slice())?;
                text.extend_from_slice(right_text.as_slice())?;
                Ok(Some(text))
            }
            PpToken::Line { .. } => Ok(None),
            PpToken::Str { .. } => Ok(None),
            PpToken::Pasted { .. } => Ok(None),
        },
        PpToken::Line { .. } => Ok(None),
        PpToken::Str { .. } => Ok(None),
        PpToken::Pasted { .. } => Ok(None),
    }
}

/// One token in a list.
fn one_in_list(alloc: Global, token: PpToken) -> Result<Vec<PpToken>, AllocError>
    ensures { IfOk result (λ r. map shown r.items ≡ shown token ∷ []) }
{
    let mut items = Vec::new(alloc);
    items.push(token)?;
    Ok(items)
}

/// What was pasted in a token.
fn pasted_items(alloc: Global, token: PpToken) -> Result<Vec<PpToken>, AllocError>
    ensures { IfOk result (λ r. shown_list (map shown r.items) ≡ pasted (shown token)) }
{
    match token {
        PpToken::Pasted { parts } => Ok(parts.items),
        PpToken::Plain { text } => one_in_list(alloc, PpToken::Plain { text }),
        PpToken::Line { number } => one_in_list(alloc, PpToken::Line { number }),
        PpToken::Str { parts } => one_in_list(alloc, PpToken::Str { parts }),
    }
}

/// All that was pasted in two tokens.
#[tactic(auto, using(crate::proofs::Arguments::joined_shown))]
fn two_tokens(alloc: Global, left: PpToken, right: PpToken) -> Result<PpTokens, AllocError>
    ensures { IfOk result (λ r. shown_tokens r ≡ joined_tokens (pasted (shown left)) (pasted (shown right))) }
{
    let mut all = pasted_items(alloc, left)?;
    let mut second = pasted_items(alloc, right)?;
    all.append(&mut second)?;
    Ok(as_tokens(all))
}

/// A paste that is no item.
fn pasted_token(alloc: Global, left: PpToken, right: PpToken) -> Result<PpToken, AllocError>
    ensures { IfOk result (λ r. shown r ≡ two (shown left) (shown right)) }
{
    let parts = two_tokens(alloc, left, right)?;
    Ok(PpToken::Pasted { parts })
}

/// The item that two tokens spell together, and its kind, where they do.
fn pasted_item<R: Spellings>(
    alloc: Global,
    reader: &R,
    left: &PpToken,
    right: &PpToken,
) -> Result<Option<(Vec<u8>, ItemKind)>, AllocError>
    ensures { IfOk result
        (λ r. item_shown r ≡ item_read (R.kinds reader.now) (joined (shown left.now) (shown right.now))) }
{
    match joined_text(alloc, left, right)? {
        None => Ok(None),
        Some(text) => match reader.kind_of(text.as_slice()) {
            None => Ok(None),
            Some(kind) => Ok(Some((text, kind))),
        },
    }
}

/// The token that `##` makes of two, and its kind.
#[tactic(auto, using(crate::proofs::Pastes::pasted_as_item, crate::proofs::Pastes::pasted_as_none))]
fn paste_of<R: Spellings>(
    alloc: Global,
    reader: &R,
    left: PpToken,
    right: PpToken,
) -> Result<(PpToken, ItemKind), AllocError>
    ensures { IfOk result (λ r.
        (s t : Token) → s.token ≡ shown left → t.token ≡ shown right →
        paste (R.kinds reader.now) s t ≡ made (shown r.0) r.1 s t) }
{
    match pasted_item(alloc, reader, &left, &right)? {
        Some((text, kind)) => Ok((PpToken::Plain { text }, kind)),
        None => Ok((pasted_token(alloc, left, right)?, ItemKind::Other)),
    }
}

/// What `##` makes of two tokens.
fn paste_tokens<R: Spellings>(
    alloc: Global,
    reader: &R,
    left: Tok,
    right: Tok,
) -> Result<Tok, AllocError>
    ensures { IfOk result (λ r. tok_shown r ≡ paste (R.kinds reader.now) (tok_shown left) (tok_shown right)) }
{
    let hide = common_names(alloc, left.hide.as_slice(), right.hide.as_slice())?;
    let (token, kind) = paste_of(alloc, reader, left.token, right.token)?;
    Ok(Tok {
        token,
        kind,
        hide,
        white: left.white,
        line: left.line,
    })
}

/// The argument of a parameter, empty past the last.
#[tactic(auto, using(crate::proofs::Arguments::argument_next, crate::proofs::Arguments::argument_first))]
fn argument_of(args: &[Vec<Tok>], index: usize) -> &[Tok]
    ensures { map tok_shown result.now ≡ argument (map toks_shown args.now) index }
{
    let mut before = index;
    for arg in args {
        if before == 0 {
            return arg.as_slice();
        }
        before -= 1;
    }
    &[]
}

/// The tokens of an argument as parts of a string.
fn quoted_items(alloc: Global, toks: &[Tok]) -> Result<Vec<Spaced>, AllocError>
    ensures { IfOk result (λ r. map shown_spaced r.items ≡ spaced_pairs toks.now) }
{
    let mut items = Vec::new(alloc);
    for tok in toks {
        let token = copy_token(alloc, &tok.token)?;
        items.push(spaced(token, tok.white))?;
    }
    Ok(items)
}

/// The parts, with no white space before the first.
fn trimmed(items: Vec<Spaced>) -> Vec<Spaced>
    ensures { map shown_spaced result.items ≡ trimmed (map shown_spaced items.items) }
{
    let mut items = items;
    if let Some(first) = items.first_mut() {
        first.white = false;
    }
    items
}

/// The string that `#` makes.
#[tactic(auto, using(crate::proofs::Arguments::parts_of_shown))]
fn quoted_parts(alloc: Global, toks: &[Tok]) -> Result<SpacedList, AllocError>
    ensures { IfOk result (λ r. shown_spaceds r ≡ parts_of (map tok_shown toks.now)) }
{
    let items = quoted_items(alloc, toks)?;
    Ok(as_parts(trimmed(items)))
}

/// The token that `#` makes.
fn quoted_tok(alloc: Global, line: u64, toks: &[Tok]) -> Result<Tok, AllocError>
    ensures { IfOk result (λ r. tok_shown r ≡ quoted line (map tok_shown toks.now)) }
{
    let parts = quoted_parts(alloc, toks)?;
    Ok(Tok {
        token: PpToken::Str { parts },
        kind: ItemKind::Other,
        hide: Vec::new(alloc),
        white: false,
        line,
    })
}

/// One token.
fn one_token(alloc: Global, tok: Tok) -> Result<Vec<Tok>, AllocError>
    ensures { IfOk result (λ r. map tok_shown r.items ≡ tok_shown tok ∷ []) }
{
    let mut out = Vec::new(alloc);
    out.push(tok)?;
    Ok(out)
}

/// A token on another line.
fn lined_tok(tok: Tok, line: u64) -> Tok
    ensures { tok_shown result ≡ lined line (tok_shown tok) }
{
    Tok {
        token: tok.token,
        kind: tok.kind,
        hide: tok.hide,
        white: tok.white,
        line,
    }
}

/// What a part stands for.
fn tokens_of_part(
    alloc: Global,
    line: u64,
    written: &[Vec<Tok>],
    full: &[Vec<Tok>],
    what: &What,
) -> Result<Vec<Tok>, AllocError>
    ensures { IfOk result (λ r.
        map tok_shown r.items
        ≡ tokens_of line (map toks_shown written.now) (map toks_shown full.now) (what_shown what.now)) }
{
    match what {
        What::Word(tok) => {
            let copy = copy_tok(alloc, tok)?;
            one_token(alloc, lined_tok(copy, line))
        }
        What::Full(index) => copy_toks(alloc, argument_of(full, *index)),
        What::Written(index) => copy_toks(alloc, argument_of(written, *index)),
        What::Quoted(index) => {
            let made = quoted_tok(alloc, line, argument_of(written, *index))?;
            one_token(alloc, made)
        }
    }
}

/// A token with other white space before it.
fn placed_tok(tok: Tok, white: bool) -> Tok
    ensures { tok_shown result ≡ placed white (tok_shown tok) }
{
    Tok {
        token: tok.token,
        kind: tok.kind,
        hide: tok.hide,
        white,
        line: tok.line,
    }
}

/// The pieces of a part, after others.
fn add_pieces(
    out: &mut VecDeque<Piece>,
    glue: bool,
    white: bool,
    toks: VecDeque<Tok>,
) -> Result<(), AllocError>
    ensures { IfOk result (λ _.
        map piece_shown out.new.items
        ≡ map piece_shown out.old.items ++ pieces glue white (map tok_shown toks.items)) }
{
    let mut toks = toks;
    match toks.pop_front() {
        None => {
            out.push_back(Piece { tok: None, glue })?;
            Ok(())
        }
        Some(first) => {
            out.push_back(Piece {
                tok: Some(placed_tok(first, white)),
                glue,
            })?;
            add_free(out, toks)
        }
    }
}

/// Tokens with no paste before them, after other pieces.
fn add_free(out: &mut VecDeque<Piece>, toks: VecDeque<Tok>) -> Result<(), AllocError>
    ensures { IfOk result
        (λ _. map piece_shown out.new.items ≡ map piece_shown out.old.items ++ map free (map tok_shown toks.items)) }
{
    let mut toks = toks;
    while let Some(tok) = toks.pop_front() {
        out.push_back(Piece {
            tok: Some(tok),
            glue: false,
        })?;
    }
    Ok(())
}

/// The pieces of a body.
fn body_pieces(
    alloc: Global,
    line: u64,
    written: &[Vec<Tok>],
    full: &[Vec<Tok>],
    body: &[Part],
) -> Result<VecDeque<Piece>, AllocError>
    ensures { IfOk result (λ r.
        map piece_shown r.items
        ≡ flat_map (pieces_of line (map toks_shown written.now) (map toks_shown full.now))
        (map part_shown body.now)) }
{
    let mut out = VecDeque::new(alloc);
    for part in body {
        let toks = tokens_of_part(alloc, line, written, full, &part.what)?;
        add_pieces(&mut out, part.glue, part.white, VecDeque::from_vec(toks))?;
    }
    Ok(out)
}

/// What `##` makes of two pieces.
fn join_toks<R: Spellings>(
    alloc: Global,
    reader: &R,
    left: Option<Tok>,
    right: Option<Tok>,
) -> Result<Option<Tok>, AllocError>
    ensures { IfOk result (λ r.
        option_map tok_shown r ≡ join (R.kinds reader.now) (option_map tok_shown left) (option_map tok_shown right)) }
{
    match left {
        None => Ok(right),
        Some(left) => match right {
            None => Ok(Some(left)),
            Some(right) => {
                let made = paste_tokens(alloc, reader, left, right)?;
                Ok(Some(made))
            }
        },
    }
}

/// A piece and the one that is pasted to it.
fn glued<R: Spellings>(
    alloc: Global,
    reader: &R,
    left: Piece,
    right: Piece,
) -> Result<Piece, AllocError>
    ensures { IfOk result (λ r.
        piece_shown r
        ≡ record { tok = join (R.kinds reader.now) (piece_shown left).tok (piece_shown right).tok; glue = false }) }
{
    let tok = join_toks(alloc, reader, left.tok, right.tok)?;
    Ok(Piece { tok, glue: false })
}

/// Pastes from left to right, from a first piece on.
fn paste_rest<R: Spellings>(
    alloc: Global,
    reader: &R,
    first: Piece,
    rest: VecDeque<Piece>,
) -> Result<VecDeque<Piece>, AllocError>
    ensures { IfOk result (λ r.
        map piece_shown r.items ≡ paste_from (R.kinds reader.now) (piece_shown first) (map piece_shown rest.items)) }
{
    let mut out = VecDeque::new(alloc);
    let mut left = first;
    let mut rest = rest;
    while let Some(right) = rest.pop_front() {
        if right.glue {
            left = glued(alloc, reader, left, right)?;
        } else {
            out.push_back(left)?;
            left = right;
        }
    }
    out.push_back(left)?;
    Ok(out)
}

/// Pastes from left to right.
fn paste_pieces<R: Spellings>(
    alloc: Global,
    reader: &R,
    pieces: VecDeque<Piece>,
) -> Result<VecDeque<Piece>, AllocError>
    ensures { IfOk result
        (λ r. map piece_shown r.items ≡ paste_all (R.kinds reader.now) (map piece_shown pieces.items)) }
{
    let mut pieces = pieces;
    match pieces.pop_front() {
        None => Ok(pieces),
        Some(first) => paste_rest(alloc, reader, first, pieces),
    }
}

/// A token with more names in its hide set.
fn hidden_tok(alloc: Global, hide: &[Vec<u8>], tok: Tok) -> Result<Tok, AllocError>
    ensures { IfOk result (λ r. tok_shown r ≡ hidden (map (λ n. n.items) hide.now) (tok_shown tok)) }
{
    let mut tok = tok;
    let mut names = copy_names(alloc, hide)?;
    names.append(&mut tok.hide)?;
    tok.hide = names;
    Ok(tok)
}

/// The tokens of pieces, without placemarkers, each with more names in its hide set.
fn kept_toks(
    alloc: Global,
    hide: &[Vec<u8>],
    pieces: VecDeque<Piece>,
) -> Result<Vec<Tok>, AllocError>
    ensures { IfOk result (λ r.
        map tok_shown r.items
        ≡ map (hidden (map (λ n. n.items) hide.now)) (kept (map piece_shown pieces.items))) }
{
    let mut out = Vec::new(alloc);
    let mut pieces = pieces;
    while let Some(piece) = pieces.pop_front() {
        if let Some(tok) = piece.tok {
            let made = hidden_tok(alloc, hide, tok)?;
            out.push(made)?;
        }
    }
    Ok(out)
}

/// The replacement of a macro.
pub fn replacement_of<R: Spellings>(
    alloc: Global,
    reader: &R,
    line: u64,
    hide: &[Vec<u8>],
    written: &[Vec<Tok>],
    full: &[Vec<Tok>],
    body: &[Part],
) -> Result<Vec<Tok>, AllocError>
    ensures { IfOk result (λ r.
        map tok_shown r.items
        ≡ replacement (R.kinds reader.now) line (map (λ n. n.items) hide.now) (map toks_shown written.now)
        (map toks_shown full.now) (map part_shown body.now)) }
{
    let made = body_pieces(alloc, line, written, full, body)?;
    let pasted = paste_pieces(alloc, reader, made)?;
    kept_toks(alloc, hide, pasted)
}
