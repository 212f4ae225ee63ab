//! The macro of a define directive's operand.

ghost use Rattle.std.specs.Prelude.{◌≡◌, [], map, IfOk, Option, option_map};
ghost use Rattle.pp_model.specs.Define.{define_of, after_paren, function_of, with_body, parts_of_body, Nothing};
ghost use Rattle.pp_events.specs.View.{tok_shown};
ghost use Rattle.pp_directives.specs.DefineView.{some_macro};

use crate::bodies::parts_of_body;
use crate::parameters::{add_variadic, read_params};
use crate::words::may_be_defined;
use pp_events::{Macro, Tok, copy_bytes, spelling_of};
use std::alloc::{AllocError, Global};
use std::collections::VecDeque;

/// What a macro is beside its name and its body.
#[derive(Clone, Copy)]
pub struct Form {
    pub function_like: bool,
    pub arity: usize,
    pub variadic: bool,
}

/// The macro of this name, these names for its arguments and this body; none where the body is malformed.
pub fn macro_of(
    alloc: Global,
    name: &[u8],
    form: Form,
    names: &[Vec<u8>],
    body: VecDeque<Tok>,
) -> Result<Option<Macro>, AllocError>
    ensures { IfOk result (λ r.
        some_macro r
        ≡ option_map (with_body name.now form.function_like form.arity form.variadic)
        (parts_of_body (map (λ n. n.items) names.now) form.function_like Nothing (map tok_shown body.items))) }
{
    match parts_of_body(alloc, names, form.function_like, body)? {
        None => Ok(None),
        Some(body) => Ok(Some(Macro {
            name: copy_bytes(alloc, name)?,
            function_like: form.function_like,
            arity: form.arity,
            variadic: form.variadic,
            body,
        })),
    }
}

/// A function-like macro of these parameters.
fn function_of(
    alloc: Global,
    name: &[u8],
    parameters: Vec<Vec<u8>>,
    variadic: bool,
    body: VecDeque<Tok>,
) -> Result<Option<Macro>, AllocError>
    ensures { IfOk result (λ r.
        some_macro r
        ≡ function_of name.now (record
        { names = map (λ n. n.items) parameters.items; variadic = variadic; body = map tok_shown body.items })) }
{
    let form = Form {
        function_like: true,
        arity: parameters.len(),
        variadic,
    };
    let mut names = parameters;
    add_variadic(alloc, &mut names, variadic)?;
    macro_of(alloc, name, form, names.as_slice(), body)
}

/// What is read behind the name where `(` follows it directly.
fn after_paren(
    alloc: Global,
    name: &[u8],
    tokens: VecDeque<Tok>,
) -> Result<Option<Macro>, AllocError>
    ensures { IfOk result (λ r. some_macro r ≡ after_paren name.now (map tok_shown tokens.items)) }
{
    let mut rest = tokens;
    let _ = rest.pop_front();
    let mut parameters = Vec::new(alloc);
    match read_params(alloc, &mut parameters, &mut rest)? {
        None => Ok(None),
        Some(variadic) => function_of(alloc, name, parameters, variadic, rest),
    }
}

/// The macro of a define directive's operand; none where it is malformed (C11 6.10.3).
pub fn define_of(
    alloc: Global,
    function_like: bool,
    tokens: VecDeque<Tok>,
) -> Result<Option<Macro>, AllocError>
    ensures { IfOk result (λ r. some_macro r ≡ define_of function_like (map tok_shown tokens.items)) }
{
    let mut rest = tokens;
    match rest.pop_front() {
        None => Ok(None),
        Some(token) => {
            let name = spelling_of(&token.token);
            if !may_be_defined(&token) {
                Ok(None)
            } else if function_like {
                after_paren(alloc, name, rest)
            } else {
                let form = Form {
                    function_like: false,
                    arity: 0,
                    variadic: false,
                };
                macro_of(alloc, name, form, &[], rest)
            }
        }
    }
}
