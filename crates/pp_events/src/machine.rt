//! The expansion of a text, one step after another.

ghost use Rattle.std.specs.Prelude.{◌≡◌, ◌<◌, ◌≤◌, [], ◌∷◌, ◌++◌, length, drop, map, IfOk, IfSome, IfNone, Option};
ghost use Rattle.std.specs.Prelude.{Some, None, option_map};
ghost use Rattle.pp_model.specs.Token.{text_of, common};
ghost use Rattle.pp_model.specs.Macro.{lookup};
ghost use Rattle.pp_model.specs.Call.{begin, begin_macro, begin_call, with_actuals, named, fits, no_tokens};
ghost use Rattle.pp_model.specs.Expand.{resume, run, expand, settle, is_line, step, close, expanded, is_over};
ghost use Rattle.pp_events.specs.View.{shown, tok_shown, toks_shown, macro_shown, actuals_shown};
ghost use Rattle.pp_events.specs.MachineView.{call_replacement, call_shown, calls_shown, state_shown, begun_shown};
ghost use Rattle.pp_events.specs.MachineView.{expanded_shown};

use crate::Spellings;
use crate::call::{collect_actuals, is_identifier_kind, is_spelled};
use crate::copy::{add_name, add_names, copy_args};
use crate::replace::{common_names, contains_name, replacement_of};
use crate::state::{Begun, Call, State};
use crate::token::{Actuals, Macro, Part, PpToken, Tok};
use c_grammar::ItemKind;
use std::alloc::{AllocError, Global};
use std::collections::VecDeque;
use std::mem;

/// The spelling of a plain token.
pub fn spelling_of(token: &PpToken) -> &[u8]
    ensures { result.now ≡ text_of (shown token.now) }
{
    match token {
        PpToken::Plain { text } => text.as_slice(),
        PpToken::Line { .. } => &[],
        PpToken::Str { .. } => &[],
        PpToken::Pasted { .. } => &[],
    }
}

/// The macro of a name: the first entry decides.
pub fn look_up<'t>(table: &'t [Macro], name: &[u8]) -> Option<&'t Macro>
    ensures { option_map (λ m. macro_shown m.now) result ≡ lookup (map macro_shown table.now) name.now }
{
    for entry in table {
        if entry.name.as_slice() == name {
            return Some(entry);
        }
    }
    None
}

/// The macro that a token names.
fn named_macro<'t>(table: &'t [Macro], token: &Tok) -> Option<&'t Macro>
    ensures { option_map (λ m. macro_shown m.now) result ≡ named (map macro_shown table.now) (tok_shown token.now) }
{
    let name = spelling_of(&token.token);
    if is_identifier_kind(token.kind) && !contains_name(token.hide.as_slice(), name) {
        look_up(table, name)
    } else {
        None
    }
}

/// Whether there is one argument, and it is empty.
fn is_one_empty(args: &[Vec<Tok>]) -> bool
    ensures { result ≡ no_tokens (map toks_shown args.now) }
{
    args.len() == 1 && args[0].is_empty()
}

/// Whether the number of arguments is right.
fn has_right_number(definition: &Macro, args: &[Vec<Tok>]) -> bool
    ensures { result ≡ fits (macro_shown definition.now) (map toks_shown args.now) }
{
    let count = args.len();
    if definition.variadic {
        count > 0 && count - 1 == definition.arity
    } else {
        count == definition.arity || definition.arity == 0 && is_one_empty(args)
    }
}

/// A name before a list of names.
fn with_name(alloc: Global, name: &[u8], names: &[Vec<u8>]) -> Result<Vec<Vec<u8>>, AllocError>
    ensures { IfOk result (λ r. map (λ n. n.items) r.items ≡ name.now ∷ map (λ n. n.items) names.now) }
{
    let mut out = Vec::new(alloc);
    add_name(alloc, &mut out, name)?;
    add_names(alloc, &mut out, names)?;
    Ok(out)
}

/// The tokens without so many of the first.
fn pass(rest: &mut VecDeque<Tok>, count: usize)
    requires { count ≤ length rest.old.items }
    ensures { rest.new.items ≡ drop count rest.old.items }
{
    for _ in 0..count {
        let _passed = rest.pop_front();
    }
}

/// The names that hide what a call becomes.
fn call_hide(
    alloc: Global,
    definition: &Macro,
    token: &Tok,
    close: &[Vec<u8>],
) -> Result<Vec<Vec<u8>>, AllocError>
    ensures { IfOk result (λ r.
        map (λ n. n.items) r.items
        ≡ (macro_shown definition.now).name ∷ common (tok_shown token.now).hide (map (λ n. n.items) close.now)) }
{
    let both = common_names(alloc, token.hide.as_slice(), close)?;
    with_name(alloc, definition.name.as_slice(), both.as_slice())
}

/// A call whose arguments were read, where their number is right; it takes what is left.
fn with_arguments<'t>(
    alloc: Global,
    definition: &'t Macro,
    token: &Tok,
    actuals: Actuals,
    rest: &mut VecDeque<Tok>,
) -> Result<Option<Begun<'t>>, AllocError>
    requires { actuals.taken ≤ length rest.old.items }
    ensures begun { IfOk result (λ r.
        option_map begun_shown r
        ≡ with_actuals (macro_shown definition.now) (tok_shown token.now) (actuals_shown rest.old.items actuals)) }
    ensures waiting { IfOk result (λ r. IfSome r (λ b. map toks_shown b.waiting.items ≡ map toks_shown b.args.items)) }
    ensures kept { IfOk result (λ r. IfNone r (rest.new.items ≡ rest.old.items)) }
{
    if has_right_number(definition, actuals.args.as_slice()) {
        let hide = call_hide(alloc, definition, token, actuals.close.as_slice())?;
        let waiting = copy_args(alloc, actuals.args.as_slice())?;
        pass(rest, actuals.taken);
        Ok(Some(Begun {
            named: definition,
            hide,
            args: actuals.args,
            waiting,
            after: mem::replace(rest, VecDeque::new(alloc)),
        }))
    } else {
        Ok(None)
    }
}

/// A call of a function-like macro.
fn begin_function<'t>(
    alloc: Global,
    definition: &'t Macro,
    token: &Tok,
    rest: &mut VecDeque<Tok>,
) -> Result<Option<Begun<'t>>, AllocError>
    ensures begun { IfOk result (λ r.
        option_map begun_shown r
        ≡ begin_call (macro_shown definition.now) (tok_shown token.now) (map tok_shown rest.old.items)) }
    ensures waiting { IfOk result (λ r. IfSome r (λ b. map toks_shown b.waiting.items ≡ map toks_shown b.args.items)) }
    ensures kept { IfOk result (λ r. IfNone r (rest.new.items ≡ rest.old.items)) }
{
    match rest.front() {
        None => Ok(None),
        Some(open) => {
            if is_spelled(open, b"(") {
                let limit = if definition.variadic {
                    Some(definition.arity)
                } else {
                    None
                };
                match collect_actuals(alloc, limit, rest)? {
                    None => Ok(None),
                    Some(actuals) => with_arguments(alloc, definition, token, actuals, rest),
                }
            } else {
                Ok(None)
            }
        }
    }
}

/// The replacement that a name of a macro begins; it takes what is left.
fn begin_named<'t>(
    alloc: Global,
    definition: &'t Macro,
    token: &Tok,
    rest: &mut VecDeque<Tok>,
) -> Result<Option<Begun<'t>>, AllocError>
    ensures begun { IfOk result (λ r.
        option_map begun_shown r
        ≡ begin_macro (tok_shown token.now) (map tok_shown rest.old.items) (macro_shown definition.now)) }
    ensures waiting { IfOk result (λ r. IfSome r (λ b. map toks_shown b.waiting.items ≡ map toks_shown b.args.items)) }
    ensures kept { IfOk result (λ r. IfNone r (rest.new.items ≡ rest.old.items)) }
{
    if definition.function_like {
        begin_function(alloc, definition, token, rest)
    } else {
        let hide = with_name(alloc, definition.name.as_slice(), token.hide.as_slice())?;
        Ok(Some(Begun {
            named: definition,
            hide,
            args: Vec::new(alloc),
            waiting: VecDeque::new(alloc),
            after: mem::replace(rest, VecDeque::new(alloc)),
        }))
    }
}

/// The replacement that a token begins, which then takes what follows it.
fn begin_at<'t>(
    alloc: Global,
    table: &'t [Macro],
    token: &Tok,
    rest: &mut VecDeque<Tok>,
) -> Result<Option<Begun<'t>>, AllocError>
    ensures begun { IfOk result (λ r.
        option_map begun_shown r
        ≡ begin (map macro_shown table.now) (tok_shown token.now) (map tok_shown rest.old.items)) }
    ensures waiting { IfOk result (λ r. IfSome r (λ b. map toks_shown b.waiting.items ≡ map toks_shown b.args.items)) }
    ensures kept { IfOk result (λ r. IfNone r (rest.new.items ≡ rest.old.items)) }
{
    match named_macro(table, token) {
        None => Ok(None),
        Some(definition) => begin_named(alloc, definition, token, rest),
    }
}

/// Whether the token is `__LINE__`.
fn is_line_name(token: &Tok) -> bool
    ensures { result ≡ is_line (tok_shown token.now) }
{
    is_identifier_kind(token.kind) && is_spelled(token, b"__LINE__")
}

/// A token that stays.
fn settled(token: Tok) -> Tok
    ensures { tok_shown result ≡ settle (tok_shown token) }
{
    if is_line_name(&token) {
        let white = token.white;
        let line = token.line;
        Tok {
            token: PpToken::Line { number: line },
            kind: ItemKind::Other,
            hide: token.hide,
            white,
            line,
        }
    } else {
        token
    }
}

/// The tokens before the others.
fn put_before(mut tokens: Vec<Tok>, rest: &mut VecDeque<Tok>) -> Result<(), AllocError>
    ensures { IfOk result (λ _. rest.new.items ≡ tokens.items ++ rest.old.items) }
{
    while let Some(token) = tokens.pop() {
        rest.push_front(token)?;
    }
    Ok(())
}

/// What a call becomes.
fn replaced<'t, R: Spellings>(
    alloc: Global,
    reader: &R,
    call: &Call<'t>,
) -> Result<Vec<Tok>, AllocError>
    ensures { IfOk result (λ r. map tok_shown r.items ≡ call_replacement (R.kinds reader.now) (call_shown call.now)) }
{
    replacement_of(
        alloc,
        reader,
        call.line,
        call.hide.as_slice(),
        call.written.as_slice(),
        call.full.as_slice(),
        call.named.body.as_slice(),
    )
}

/// Goes on with a call, whose next argument is read or whose replacement is.
fn resume_call<'t, R: Spellings>(
    alloc: Global,
    reader: &R,
    mut call: Call<'t>,
    state: &mut State<'t>,
) -> Result<(), AllocError>
    ensures { IfOk result (λ _.
        state_shown state.new
        ≡ resume (R.kinds reader.now) (call_shown call.entry) (calls_shown state.old.calls)
        (map toks_shown call.entry.waiting.items)) }
{
    match call.waiting.pop_front() {
        None => {
            let made = replaced(alloc, reader, &call)?;
            put_before(made, &mut call.after)?;
            state.rest = call.after;
            state.out = call.before;
            Ok(())
        }
        Some(argument) => {
            state.rest = VecDeque::from_vec(argument);
            state.out = Vec::new(alloc);
            state.calls.push_front(call)?;
            Ok(())
        }
    }
}

/// Whether nothing is left to be read.
fn is_done<'t>(state: &State<'t>) -> bool
    ensures { result ≡ is_over (state_shown state.now) }
{
    state.rest.is_empty() && state.calls.is_empty()
}

/// A call with one more expanded argument.
fn with_expanded<'t>(mut call: Call<'t>, out: Vec<Tok>) -> Result<Call<'t>, AllocError>
    ensures { IfOk result (λ r. call_shown r ≡ expanded (call_shown call.entry) (map tok_shown out.items)) }
{
    call.full.push(out)?;
    Ok(call)
}

/// The end of an argument.
fn close_call<'t, R: Spellings>(
    alloc: Global,
    reader: &R,
    state: &mut State<'t>,
) -> Result<(), AllocError>
    requires { state.old.rest.items ≡ [] }
    ensures { IfOk result (λ _.
        state_shown state.new
        ≡ close (R.kinds reader.now) (map tok_shown state.old.out.items) (calls_shown state.old.calls)) }
{
    match state.calls.pop_front() {
        None => Ok(()),
        Some(call) => {
            let out = mem::replace(&mut state.out, Vec::new(alloc));
            let call = with_expanded(call, out)?;
            resume_call(alloc, reader, call, state)
        }
    }
}

/// One step, which spends one turn.
fn step_once<'t, R: Spellings>(
    alloc: Global,
    reader: &R,
    table: &'t [Macro],
    state: &mut State<'t>,
) -> Result<(), AllocError>
    ensures { IfOk result
        (λ _. state_shown state.new ≡ step (R.kinds reader.now) (map macro_shown table.now) (state_shown state.old)) }
{
    match state.rest.pop_front() {
        None => close_call(alloc, reader, state),
        Some(token) => match begin_at(alloc, table, &token, &mut state.rest)? {
            None => {
                state.out.push(settled(token))?;
                Ok(())
            }
            Some(begun) => {
                let call = Call {
                    named: begun.named,
                    line: token.line,
                    hide: begun.hide,
                    written: begun.args,
                    full: Vec::new(alloc),
                    waiting: begun.waiting,
                    before: mem::replace(&mut state.out, Vec::new(alloc)),
                    after: begun.after,
                };
                resume_call(alloc, reader, call, state)
            }
        },
    }
}

/// The expansion of a text, and the turns that are left; none where they don't suffice.
#[tactic(auto, using(crate::proofs::Runs::run_over, crate::proofs::Runs::run_spent, crate::proofs::Runs::run_step))]
fn run_all<'t, R: Spellings>(
    alloc: Global,
    reader: &R,
    table: &'t [Macro],
    turns: u64,
    start: State<'t>,
) -> Result<Option<(Vec<Tok>, u64)>, AllocError>
    ensures { IfOk result (λ r.
        expanded_shown r ≡ run (R.kinds reader.now) (map macro_shown table.now) turns (state_shown start.entry)) }
{
    let mut left = turns;
    let mut state = start;
    'turns: loop {
        if is_done(&state) {
            return Ok(Some((state.out, left)));
        }
        if left == 0 {
            return Ok(None);
        }
        left -= 1;
        step_once(alloc, reader, table, &mut state)?;
    }
}

/// The expansion of a text, and the turns that are left; none where they don't suffice.
///
/// Each step spends a turn: reading a token, a whole call where it begins one, or ending an
/// argument (C11 6.10.3.1, 6.10.3.4).
pub fn expand<R: Spellings>(
    alloc: Global,
    reader: &R,
    table: &[Macro],
    turns: u64,
    text: VecDeque<Tok>,
) -> Result<Option<(Vec<Tok>, u64)>, AllocError>
    ensures { IfOk result (λ r.
        expanded_shown r ≡ expand (R.kinds reader.now) (map macro_shown table.now) turns (map tok_shown text.items)) }
{
    let start = State {
        rest: text,
        out: Vec::new(alloc),
        calls: VecDeque::new(alloc),
    };
    run_all(alloc, reader, table, turns, start)
}
