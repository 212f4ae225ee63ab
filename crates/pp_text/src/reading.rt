//! The reading of a text and of what it includes, section by section.

ghost use Rattle.std.specs.Prelude.{◌≡◌, ◌+◌, ◌-◌, ◌<◌, ◌≤◌, ℕ, ◌∷◌, map, IfOk, IsErrOf, Some, None};
ghost use Rattle.pp_model.specs.Preprocess.{included, plain, one_section, is_include};
ghost use Rattle.pp_events.specs.View.{tok_shown};
ghost use Rattle.pp_items.specs.View.{section_shown, kind_shown};
ghost use Rattle.pp_directives.specs.SettingView.{text_shown};
ghost use Rattle.pp_directives.specs.WorldView.{world_shown, event_shown, shift_shown};
ghost use Rattle.pp_text.specs.Unread.{Rules as TextRules, includes_of, whole, unwound, behind_section, begun_text};
ghost use Rattle.pp_text.specs.ReadingView.{rules_shown, unread_shown, waiting_shown, reading_shown};
ghost use Rattle.pp_text.specs.Work.{count_in, cost, work};
ghost use Rattle.pp_text.specs.Fits.{IncludesFit};
ghost use Rattle.pp_text.specs.declared.fault.EventsFault.TheVariants as EventsFault;

use crate::fault::EventsFault;
use crate::include::included;
use crate::plain::plain;
use crate::rules::Rules;
use crate::tokens::toks_of;
use pp_directives::{Conditionals, Event, Shift, World};
use pp_events::Tok;
use pp_items::{PpSection, SectionKind};
use std::alloc::{AllocError, Global};
use std::collections::VecDeque;
use std::mem;

/// What is left of a text.
#[derive(Drop)]
pub(crate) struct Unread {
    pub sections: VecDeque<PpSection>,
    /// Its presumed lines.
    pub shift: Shift,
    /// How deep its includes go.
    pub depth: u64,
}

/// A text that waits for the end of one that it includes.
#[derive(Drop)]
pub(crate) struct Waiting {
    pub text: Unread,
    /// Its open conditionals.
    pub conds: Conditionals,
}

/// Where the reading of a text and of what it includes stands.
#[derive(Drop)]
pub(crate) struct Reading {
    pub world: World,
    pub text: Unread,
    /// The texts around it, the innermost first.
    pub waiting: VecDeque<Waiting>,
}

/// Whether it is an include directive.
fn is_include(kind: SectionKind) -> bool
    ensures { result ≡ is_include (kind_shown kind) }
{
    matches!(kind, SectionKind::Include)
}

impl Reading {
    /// Begins an included text, with no pending text and no open conditional.
    fn begin_text(&mut self, alloc: Global, sections: Vec<PpSection>) -> Result<(), AllocError>
        requires { 0 < self.old.text.depth }
        ensures shown { IfOk result
            (λ _. reading_shown self.new ≡ begun_text (map section_shown sections.items) (reading_shown self.old)) }
        ensures waiting { IfOk result (λ _.
            self.new.waiting.items
            ≡ record { text = self.old.text; conds = self.old.world.conds } ∷ self.old.waiting.items) }
        ensures depth { IfOk result (λ _. self.new.text.depth ≡ self.old.text.depth - 1) }
        ensures sections { IfOk result (λ _. self.new.text.sections.items ≡ sections.items) }
    {
        let conds = mem::replace(&mut self.world.conds, Conditionals::new(alloc));
        self.world.pending = VecDeque::new(alloc);
        let inner = Unread {
            sections: VecDeque::from_vec(sections),
            shift: Shift::UNMOVED,
            depth: self.text.depth - 1,
        };
        let text = mem::replace(&mut self.text, inner);
        self.waiting.push_front(Waiting { text, conds })?;
        Ok(())
    }

    /// Goes on with the text around the included one that has ended.
    fn resume(&mut self, alloc: Global, outer: Waiting)
        ensures shown { (rules : TextRules) →
            whole rules (reading_shown self.new)
            ≡ unwound rules (waiting_shown outer ∷ map waiting_shown self.old.waiting.items)
            (world_shown self.old.world) }
        ensures text { self.new.text ≡ outer.text }
        ensures waiting { self.new.waiting ≡ self.old.waiting }
    {
        let Waiting { text, conds } = outer;
        self.text = text;
        self.world.pending = VecDeque::new(alloc);
        self.world.conds = conds;
        self.world.jump = None;
    }

    /// Reads an include directive, before the line `next`.
    #[tactic(auto, using(crate::proofs::Works::cost_some, crate::proofs::Works::cost_covers))]
    fn read_include(
        &mut self,
        rules: &Rules,
        next: u32,
        tokens: VecDeque<Tok>,
    ) -> Result<(), EventsFault>
        ensures shown { IfOk result (λ _.
            whole (rules_shown rules.now) (reading_shown self.new)
            ≡ behind_section (rules_shown rules.now) (unread_shown self.old.text) next
            (map waiting_shown self.old.waiting.items) (included (rules_shown rules.now).kinds
            (includes_of (rules_shown rules.now) self.old.text.depth) (map tok_shown tokens.items)
            (world_shown self.old.world))) }
        ensures work { IfOk result (λ _.
            (most : ℕ) →
            count_in rules.now.spellings.dialect (map text_shown rules.now.setting.now.includes.items) ≤ most →
            work most self.new < work most self.old + cost most self.old.text.depth) }
        ensures small { IncludesFit rules.now.setting.now → ¬ IsErrOf result EventsFault.TooLarge }
    {
        match included(rules, self.text.depth, &mut self.world, tokens)? {
            None => self.text.shift = self.text.shift.moved(next, self.world.jump),
            Some(sections) => self.begin_text(rules.alloc, sections)?,
        }
        Ok(())
    }

    /// Reads another section.
    #[tactic(auto, using(crate::proofs::Works::cost_some))]
    fn read_plain(
        &mut self,
        rules: &Rules,
        kind: SectionKind,
        function_like: bool,
        next: u32,
        tokens: VecDeque<Tok>,
    ) -> Result<(), EventsFault>
        ensures shown { IfOk result (λ _.
            whole (rules_shown rules.now) (reading_shown self.new)
            ≡ behind_section (rules_shown rules.now) (unread_shown self.old.text) next
            (map waiting_shown self.old.waiting.items) (plain (rules_shown rules.now).kinds
            (rules_shown rules.now).holds (kind_shown kind) function_like (map tok_shown tokens.items)
            (world_shown self.old.world))) }
        ensures work { IfOk result
            (λ _. (most : ℕ) → work most self.new < work most self.old + cost most self.old.text.depth) }
        ensures small { ¬ IsErrOf result EventsFault.TooLarge }
    {
        plain(rules, &mut self.world, kind, function_like, tokens)?;
        self.text.shift = self.text.shift.moved(next, self.world.jump);
        Ok(())
    }

    /// Reads a section, which stands before those that are left.
    #[tactic(auto, using(crate::proofs::Walks::include_section, crate::proofs::Walks::plain_section))]
    fn read_section(&mut self, rules: &Rules, section: PpSection) -> Result<(), EventsFault>
        ensures shown { IfOk result (λ _.
            whole (rules_shown rules.now) (reading_shown self.new)
            ≡ behind_section (rules_shown rules.now) (unread_shown self.old.text) section.next
            (map waiting_shown self.old.waiting.items) (one_section (rules_shown rules.now).kinds
            (rules_shown rules.now).holds (includes_of (rules_shown rules.now) self.old.text.depth)
            (shift_shown self.old.text.shift) (section_shown section) (world_shown self.old.world))) }
        ensures work { IfOk result (λ _.
            (most : ℕ) →
            count_in rules.now.spellings.dialect (map text_shown rules.now.setting.now.includes.items) ≤ most →
            work most self.new < work most self.old + cost most self.old.text.depth) }
        ensures small { IncludesFit rules.now.setting.now → ¬ IsErrOf result EventsFault.TooLarge }
    {
        let tokens = toks_of(rules.alloc, self.text.shift, section.items)?;
        self.world.jump = None;
        if is_include(section.kind) {
            self.read_include(rules, section.next, tokens)
        } else {
            self.read_plain(
                rules,
                section.kind,
                section.function_like,
                section.next,
                tokens,
            )
        }
    }

    /// Reads all that is left, and tells what came out.
    #[tactic(auto, using(crate::proofs::Walks::whole_section, crate::proofs::Walks::whole_end))]
    pub fn read_all(self, rules: &Rules) -> Result<Vec<Event>, EventsFault>
        ensures shown { IfOk result
            (λ events. map event_shown events.items ≡ (whole (rules_shown rules.now) (reading_shown self)).events) }
        ensures small { IncludesFit rules.now.setting.now → ¬ IsErrOf result EventsFault.TooLarge }
    {
        let mut reading = self;
        'sections: loop {
            if reading.world.over {
                return Ok(reading.world.events);
            }
            match reading.text.sections.pop_front() {
                Some(section) => reading.read_section(rules, section)?,
                None => {
                    reading.world.finish(rules.alloc, &rules.spellings)?;
                    match reading.waiting.pop_front() {
                        Some(outer) => reading.resume(rules.alloc, outer),
                        None => return Ok(reading.world.events),
                    }
                }
            }
        }
    }
}
