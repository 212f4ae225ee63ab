//! The macros that are defined from the start.

ghost use Rattle.std.specs.Prelude.{◌≡◌, ◌∷◌, map, codes, true, IfOk, Option};
ghost use Rattle.pp_model.specs.Setting.{kind_by, tok_by, are_different, is_allowed, parameters, macro_by, table_by};
ghost use Rattle.pp_events.specs.View.{shown, tok_shown, macro_shown};
ghost use Rattle.pp_directives.specs.SettingView.{body_token_shown, definition_shown};
ghost use Rattle.pp_directives.specs.DefineView.{some_macro};

use crate::define::{Form, macro_of};
use crate::parameters::add_variadic;
use crate::settings::{BodyToken, MacroDefinition};
use crate::words::is_kept_name;
use pp_events::{ItemKind, Macro, PpToken, Spellings, Tok, contains_name, copy_names, copy_token};
use std::alloc::{AllocError, Global};
use std::collections::VecDeque;

/// The kind of a setting's token.
fn kind_by<R: Spellings>(reader: &R, token: &PpToken) -> ItemKind
    ensures { result ≡ kind_by (R.kinds reader.now) (shown token.now) }
{
    match token {
        PpToken::Plain { text } => match reader.kind_of(text.as_slice()) {
            Some(kind) => kind,
            None => ItemKind::Other,
        },
        PpToken::Line { .. } => ItemKind::Other,
        PpToken::Str { .. } => ItemKind::Other,
        PpToken::Pasted { .. } => ItemKind::Other,
    }
}

/// A body's token before any expansion.
fn tok_by<R: Spellings>(alloc: Global, reader: &R, body: &BodyToken) -> Result<Tok, AllocError>
    ensures { IfOk result (λ r. tok_shown r ≡ tok_by (R.kinds reader.now) (body_token_shown body.now)) }
{
    let token = copy_token(alloc, &body.token)?;
    let kind = kind_by(reader, &body.token);
    Ok(Tok {
        token,
        kind,
        hide: Vec::new(alloc),
        white: body.white,
        line: 0,
    })
}

/// A body's tokens before any expansion.
fn toks_by<R: Spellings>(
    alloc: Global,
    reader: &R,
    body: &[BodyToken],
) -> Result<VecDeque<Tok>, AllocError>
    ensures { IfOk result
        (λ r. map tok_shown r.items ≡ map (tok_by (R.kinds reader.now)) (map body_token_shown body.now)) }
{
    let mut out = VecDeque::new(alloc);
    for token in body {
        out.push_back(tok_by(alloc, reader, token)?)?;
    }
    Ok(out)
}

/// Whether no name stands twice.
fn are_different(names: &[Vec<u8>]) -> bool
    ensures { result ≡ are_different (map (λ n. n.items) names.now) }
{
    let mut rest = names;
    while let [first, others @ ..] = rest {
        if contains_name(others, first.as_slice()) {
            return false;
        }
        rest = others;
    }
    true
}

/// Whether the parameters may stand in a list.
fn are_parameters(names: &[Vec<u8>]) -> bool
    ensures { result ≡ are_different (codes "__VA_ARGS__" ∷ map (λ n. n.items) names.now) }
{
    !contains_name(names, b"__VA_ARGS__") && are_different(names)
}

/// Whether the name may be defined, and the parameters may stand in a list (C11 6.10.3p5 and p6,
/// 6.10.8p4).
fn is_allowed(definition: &MacroDefinition) -> bool
    ensures { result ≡ is_allowed (definition_shown definition.now) }
{
    !is_kept_name(definition.name.as_slice())
        && (!definition.function_like || are_parameters(definition.params.as_slice()))
}

/// The names that stand for arguments in the body.
fn parameters(alloc: Global, definition: &MacroDefinition) -> Result<Vec<Vec<u8>>, AllocError>
    ensures { IfOk result (λ r. map (λ n. n.items) r.items ≡ parameters (definition_shown definition.now)) }
{
    let mut names = Vec::new(alloc);
    if definition.function_like {
        names = copy_names(alloc, definition.params.as_slice())?;
        add_variadic(alloc, &mut names, definition.variadic)?;
    }
    Ok(names)
}

/// The macro of a definition; none where 6.10.3 doesn't allow it.
fn macro_by<R: Spellings>(
    alloc: Global,
    reader: &R,
    definition: &MacroDefinition,
) -> Result<Option<Macro>, AllocError>
    ensures { IfOk result (λ r. some_macro r ≡ macro_by (R.kinds reader.now) (definition_shown definition.now)) }
{
    if !is_allowed(definition) {
        return Ok(None);
    }
    let form = Form {
        function_like: definition.function_like,
        arity: definition.params.len(),
        variadic: definition.function_like && definition.variadic,
    };
    let names = parameters(alloc, definition)?;
    let body = toks_by(alloc, reader, definition.body.as_slice())?;
    macro_of(
        alloc,
        definition.name.as_slice(),
        form,
        names.as_slice(),
        body,
    )
}

/// The table at the start.
pub fn table_by<R: Spellings>(
    alloc: Global,
    reader: &R,
    definitions: &[MacroDefinition],
) -> Result<Vec<Macro>, AllocError>
    ensures { IfOk result
        (λ r. map macro_shown r.items ≡ table_by (R.kinds reader.now) (map definition_shown definitions.now)) }
{
    let mut table = Vec::new(alloc);
    for definition in definitions {
        if let Some(defined) = macro_by(alloc, reader, definition)? {
            table.push(defined)?;
        }
    }
    Ok(table)
}
