//! Where a preprocessing stands.

ghost use Rattle.std.specs.Prelude.{◌≡◌, true, false, [], ◌∷◌, ◌++◌, map, IfOk, Option, Some, None};
ghost use Rattle.pp_model.specs.Preprocess.{World, emit, malformed, spend, flush, spelled, token_events, with_pending};
ghost use Rattle.pp_model.specs.Preprocess.{starting};
ghost use Rattle.pp_events.specs.View.{shown, tok_shown, macro_shown};
ghost use Rattle.pp_directives.specs.WorldView.{event_shown, world_shown, expansion_of, behind_expansion};
ghost use Rattle.pp_model.specs.Expand.{expand};

use crate::conditionals::Conditionals;
use crate::events::Event;
use pp_events::{Macro, PpToken, Spellings, Tok, expand};
use std::alloc::{AllocError, Global};
use std::collections::VecDeque;
use std::mem;

/// Where a preprocessing stands.
#[derive(Drop)]
pub struct World {
    /// The macros; the first entry of a name decides.
    pub table: Vec<Macro>,
    /// The turns that are left.
    pub turns: u64,
    pub events: Vec<Event>,
    /// Whether the turns were spent.
    pub over: bool,
    /// The text that waits for its expansion.
    pub pending: VecDeque<Tok>,
    pub conds: Conditionals,
    /// The number that the section just read gives to the next line.
    pub jump: Option<u32>,
}

/// The tokens alone.
pub fn spelled(alloc: Global, tokens: VecDeque<Tok>) -> Result<Vec<PpToken>, AllocError>
    ensures { IfOk result (λ r. map shown r.items ≡ spelled (map tok_shown tokens.items)) }
{
    let mut out = Vec::new(alloc);
    let mut rest = tokens;
    while let Some(token) = rest.pop_front() {
        out.push(token.token)?;
    }
    Ok(out)
}

impl World {
    /// At the start.
    pub fn starting(alloc: Global, table: Vec<Macro>, turns: u64) -> Self
        ensures { world_shown result ≡ starting (map macro_shown table.items) turns }
    {
        World {
            table,
            turns,
            events: Vec::new(alloc),
            over: false,
            pending: VecDeque::new(alloc),
            conds: Conditionals::new(alloc),
            jump: None,
        }
    }

    /// One event more.
    pub fn emit(&mut self, event: Event) -> Result<(), AllocError>
        ensures shown { IfOk result (λ _. world_shown self.new ≡ emit (event_shown event ∷ []) (world_shown self.old)) }
        ensures conds { self.new.conds ≡ self.old.conds }
    {
        self.events.push(event)?;
        Ok(())
    }

    /// Something that C11 6.10 doesn't allow.
    pub fn malformed(&mut self, alloc: Global) -> Result<(), AllocError>
        ensures shown { IfOk result (λ _. world_shown self.new ≡ malformed (world_shown self.old)) }
        ensures conds { self.new.conds ≡ self.old.conds }
    {
        self.emit(Event::Malformed(Vec::new(alloc)))
    }

    /// No turn is left.
    pub fn spend(&mut self, alloc: Global) -> Result<(), AllocError>
        ensures shown { IfOk result (λ _. world_shown self.new ≡ spend (world_shown self.old)) }
        ensures conds { self.new.conds ≡ self.old.conds }
    {
        self.events.push(Event::TurnsSpent)?;
        self.turns = 0;
        self.over = true;
        self.pending = VecDeque::new(alloc);
        Ok(())
    }

    /// The text that waits, more of it.
    pub fn wait(&mut self, tokens: VecDeque<Tok>) -> Result<(), AllocError>
        ensures { IfOk result (λ _.
            world_shown self.new
            ≡ with_pending ((world_shown self.old).pending ++ map tok_shown tokens.items) (world_shown self.old)) }
    {
        let mut tokens = tokens;
        self.pending.append(&mut tokens)?;
        Ok(())
    }

    /// Tokens, expanded; none where the turns don't suffice, and then it is over.
    pub fn expanded<R: Spellings>(
        &mut self,
        alloc: Global,
        reader: &R,
        tokens: VecDeque<Tok>,
    ) -> Result<Option<Vec<Tok>>, AllocError>
        ensures expansion { IfOk result (λ r.
            expansion_of r self.new.turns
            ≡ expand (R.kinds reader.now) (world_shown self.old).table (world_shown self.old).turns
            (map tok_shown tokens.items)) }
        ensures shown { IfOk result
            (λ r. world_shown self.new ≡ behind_expansion r self.new.turns (world_shown self.old)) }
        ensures conds { self.new.conds ≡ self.old.conds }
    {
        match expand(alloc, reader, self.table.as_slice(), self.turns, tokens)? {
            None => {
                self.spend(alloc)?;
                Ok(None)
            }
            Some((made, left)) => {
                self.turns = left;
                Ok(Some(made))
            }
        }
    }

    /// Expands the text that waits into tokens.
    pub fn flush<R: Spellings>(&mut self, alloc: Global, reader: &R) -> Result<(), AllocError>
        ensures shown { IfOk result (λ _. world_shown self.new ≡ flush (R.kinds reader.now) (world_shown self.old)) }
        ensures conds { self.new.conds ≡ self.old.conds }
    {
        let pending = mem::replace(&mut self.pending, VecDeque::new(alloc));
        match self.expanded(alloc, reader, pending)? {
            None => Ok(()),
            Some(tokens) => token_events(tokens, &mut self.events),
        }
    }
}

/// An event for each token, behind the others.
fn token_events(tokens: Vec<Tok>, events: &mut Vec<Event>) -> Result<(), AllocError>
    ensures { IfOk result (λ _.
        map event_shown events.new.items
        ≡ map event_shown events.old.items ++ token_events (map tok_shown tokens.items)) }
{
    for token in tokens {
        events.push(Event::Token(token.token))?;
    }
    Ok(())
}
