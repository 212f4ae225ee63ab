//! What the other directives do in an active group (C11 6.10.3, 6.10.3.5, 6.10.4 to 6.10.7).

ghost use Rattle.std.specs.Prelude.{◌≡◌, false, [], ◌∷◌, map, IfOk, Some, None};
ghost use Rattle.pp_model.specs.Condition.{is_active};
ghost use Rattle.pp_model.specs.Expand.{expand};
ghost use Rattle.pp_model.specs.Define.{define_of};
ghost use Rattle.pp_model.specs.Preprocess.{World as Worlds, emit, ErrorEvent, WarningEvent, PragmaEvent, Malformed};
ghost use Rattle.pp_model.specs.Preprocess.{defined_as, undef, without, line_read, embedded, flush, spelled};
ghost use Rattle.pp_events.specs.View.{tok_shown, macro_shown};
ghost use Rattle.pp_directives.specs.WorldView.{world_shown, conds_shown, acted_on, goes_on};

use crate::define::define_of;
use crate::events::Event;
use crate::lines::jump_of;
use crate::operands::names_header;
use crate::state::{World, spelled};
use crate::words::front_name;
use pp_events::{Macro, Spellings, Tok};
use std::alloc::{AllocError, Global};
use std::collections::VecDeque;

/// The table without this name.
fn without(table: &mut Vec<Macro>, name: &[u8])
    ensures { map macro_shown table.new.items ≡ without name.now (map macro_shown table.old.items) }
{
    table.retain(|entry| entry.name.as_slice() != name);
}

impl World {
    /// Begins a directive that acts in an active group alone: it first expands the text before it.
    /// Whether the directive acts.
    pub fn acts<R: Spellings>(&mut self, alloc: Global, reader: &R) -> Result<bool, AllocError>
        ensures { IfOk result (λ r.
            (go : Worlds → Worlds) →
            acted_on (is_active (conds_shown self.old.conds)) go (flush (R.kinds reader.now) (world_shown self.old))
            (world_shown self.old)
            ≡ goes_on r go (world_shown self.new)) }
    {
        if self.conds.is_active() {
            self.flush(alloc, reader)?;
            Ok(!self.over)
        } else {
            Ok(false)
        }
    }

    /// A define directive.
    pub fn define(
        &mut self,
        alloc: Global,
        function_like: bool,
        tokens: VecDeque<Tok>,
    ) -> Result<(), AllocError>
        ensures { IfOk result (λ _.
            world_shown self.new
            ≡ defined_as (world_shown self.old) (define_of function_like (map tok_shown tokens.items))) }
    {
        match define_of(alloc, function_like, tokens)? {
            None => self.malformed(alloc),
            Some(defined) => {
                self.table.insert(0, defined)?;
                Ok(())
            }
        }
    }

    /// An undef directive.
    pub fn undef(&mut self, alloc: Global, tokens: VecDeque<Tok>) -> Result<(), AllocError>
        ensures { IfOk result (λ _. world_shown self.new ≡ undef (map tok_shown tokens.items) (world_shown self.old)) }
    {
        match front_name(&tokens) {
            None => self.malformed(alloc),
            Some(name) => {
                without(&mut self.table, name);
                Ok(())
            }
        }
    }

    /// A line directive.
    pub fn line_number<R: Spellings>(
        &mut self,
        alloc: Global,
        reader: &R,
        tokens: VecDeque<Tok>,
    ) -> Result<(), AllocError>
        ensures { IfOk result (λ _.
            world_shown self.new
            ≡ line_read (world_shown self.old) (expand (R.kinds reader.now) (world_shown self.old).table
            (world_shown self.old).turns (map tok_shown tokens.items))) }
    {
        match self.expanded(alloc, reader, tokens)? {
            None => Ok(()),
            Some(made) => {
                self.jump = jump_of(made.as_slice());
                self.emit(Event::Line(spelled(alloc, VecDeque::from_vec(made))?))
            }
        }
    }

    /// An error directive.
    pub fn error(&mut self, alloc: Global, tokens: VecDeque<Tok>) -> Result<(), AllocError>
        ensures { IfOk result (λ _.
            world_shown self.new
            ≡ emit (ErrorEvent (spelled (map tok_shown tokens.items)) ∷ []) (world_shown self.old)) }
    {
        self.emit(Event::Error(spelled(alloc, tokens)?))
    }

    /// A warning directive.
    pub fn warning(&mut self, alloc: Global, tokens: VecDeque<Tok>) -> Result<(), AllocError>
        ensures { IfOk result (λ _.
            world_shown self.new
            ≡ emit (WarningEvent (spelled (map tok_shown tokens.items)) ∷ []) (world_shown self.old)) }
    {
        self.emit(Event::Warning(spelled(alloc, tokens)?))
    }

    /// A pragma directive.
    pub fn pragma(&mut self, alloc: Global, tokens: VecDeque<Tok>) -> Result<(), AllocError>
        ensures { IfOk result (λ _.
            world_shown self.new
            ≡ emit (PragmaEvent (spelled (map tok_shown tokens.items)) ∷ []) (world_shown self.old)) }
    {
        self.emit(Event::Pragma(spelled(alloc, tokens)?))
    }

    /// A directive of another name.
    pub fn unknown(&mut self, alloc: Global, tokens: VecDeque<Tok>) -> Result<(), AllocError>
        ensures { IfOk result (λ _.
            world_shown self.new
            ≡ emit (Malformed (spelled (map tok_shown tokens.items)) ∷ []) (world_shown self.old)) }
    {
        self.emit(Event::Malformed(spelled(alloc, tokens)?))
    }

    /// An embed directive; any operand but one header name is expanded first.
    pub fn embed<R: Spellings>(
        &mut self,
        alloc: Global,
        reader: &R,
        tokens: VecDeque<Tok>,
    ) -> Result<(), AllocError>
        ensures { IfOk result (λ _.
            world_shown self.new
            ≡ embedded (R.kinds reader.now) (map tok_shown tokens.items) (world_shown self.old)) }
    {
        if names_header(&tokens) {
            self.emit(Event::Embed(spelled(alloc, tokens)?))
        } else {
            match self.expanded(alloc, reader, tokens)? {
                None => Ok(()),
                Some(made) => self.emit(Event::Embed(spelled(alloc, VecDeque::from_vec(made))?)),
            }
        }
    }
}
