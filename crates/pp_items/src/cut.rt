//! The cut of items into sections.

ghost use Rattle.std.specs.Prelude.{◌≡◌, ◌++◌, List, [], ◌∷◌, map, IfOk, OnOk};
ghost use Rattle.c_grammar.specs.Twin.{OfText};
ghost use Rattle.pp_model.specs.Stream.{Streamed as ReadStreamed, InText, directive, ended, add_item, cut_from};
ghost use Rattle.pp_items.specs.View.{section_shown, items_shown, streamed_shown, within_shown};
ghost use Rattle.pp_items.specs.Cut.{sections_with, opened};

use crate::item::{Part, PpItem, PpSection, SectionKind, Streamed};
use crate::name::kind_named;
use c_lexer::{Dialect, ItemKind};
use std::alloc::{AllocError, Global};
use std::mem;

/// Which section is read.
#[derive(Clone, Copy, Debug)]
pub(crate) enum Within {
    /// A text.
    Text,
    /// A directive.
    Directive {
        /// It defines a function-like macro.
        function_like: bool,
    },
}

/// The directive that has these items behind its `#`, before a line of this number.
fn directive(dialect: Dialect, function_like: bool, next: u32, items: Vec<PpItem>) -> PpSection
    ensures { section_shown result ≡ directive dialect function_like next (items_shown items) }
{
    let mut items = items;
    let kind = match items.as_slice().first() {
        Some(name) => kind_named(dialect, name),
        None => SectionKind::Null,
    };
    match kind {
        SectionKind::Null | SectionKind::Unknown => {}
        _ => {
            let _ = items.remove(0);
        }
    }
    PpSection {
        kind,
        function_like,
        items,
        next,
    }
}

/// The sections so far, and the one that is read.
#[derive(Drop)]
pub(crate) struct Cutter {
    alloc: Global,
    dialect: Dialect,
    done: Vec<PpSection>,
    within: Within,
    items: Vec<PpItem>,
}

impl Cutter {
    /// Stands before the first item.
    pub fn new(alloc: Global, dialect: Dialect) -> Cutter
        ensures none { result.done.items ≡ [] }
        ensures text { within_shown result.within (items_shown result.items) ≡ InText [] }
        ensures dialect { result.dialect ≡ dialect }
    {
        Cutter {
            alloc,
            dialect,
            done: Vec::new(alloc),
            within: Within::Text,
            items: Vec::new(alloc),
        }
    }

    /// Ends the section that is read, before a line of this number, and begins another.
    fn end_section(&mut self, next: u32, within: Within) -> Result<(), AllocError>
        ensures done { OnOk result (map section_shown self.new.done.items
            ≡ map section_shown self.old.done.items
            ++ ended self.old.dialect (within_shown self.old.within (items_shown self.old.items)) next ∷ []) }
        ensures within { OnOk result (self.new.within ≡ within) }
        ensures items { OnOk result (self.new.items.items ≡ []) }
        ensures dialect { self.new.dialect ≡ self.old.dialect }
    {
        let items = mem::replace(&mut self.items, Vec::new(self.alloc));
        let section = match self.within {
            Within::Text => PpSection {
                kind: SectionKind::Text,
                function_like: false,
                items,
                next: 0,
            },
            Within::Directive { function_like } => {
                directive(self.dialect, function_like, next, items)
            }
        };
        self.done.push(section)?;
        self.within = within;
        Ok(())
    }

    /// Keeps an item, unless it is a comment.
    fn keep(&mut self, streamed: Streamed) -> Result<(), AllocError>
        ensures items { OnOk result
            (items_shown self.new.items ≡ add_item (items_shown self.old.items) (streamed_shown streamed)) }
        ensures done { self.new.done ≡ self.old.done }
        ensures within { self.new.within ≡ self.old.within }
        ensures dialect { self.new.dialect ≡ self.old.dialect }
    {
        match streamed.item.kind {
            ItemKind::BlockComment | ItemKind::LineComment => {}
            _ => self.items.push(streamed.item)?,
        }
        Ok(())
    }

    /// Ends a directive, before a line of this number. A text goes on.
    fn end_directive(&mut self, next: u32) -> Result<(), AllocError>
        ensures sections { OnOk result ((s : ReadStreamed) (rest : List ReadStreamed) → s.part ≡ OfText →
            s.begun ≡ next →
            sections_with self.old (s ∷ rest)
            ≡ map section_shown self.new.done.items
            ++ cut_from self.new.dialect (InText (add_item (items_shown self.new.items) s)) rest) }
        ensures text { OnOk result (self.new.within ≡ Within.Text) }
        ensures dialect { self.new.dialect ≡ self.old.dialect }
    {
        match self.within {
            Within::Text => Ok(()),
            Within::Directive { .. } => self.end_section(next, Within::Text),
        }
    }

    /// The macro that a directive defines has parameters.
    fn open_parameters(&mut self)
        ensures within { self.new.within ≡ opened self.old.within }
        ensures rest { self.new ≡ record self.old { within = self.new.within } }
    {
        match self.within {
            Within::Text => {}
            Within::Directive { .. } => {
                self.within = Within::Directive {
                    function_like: true,
                };
            }
        }
    }

    /// Takes the next item.
    pub fn take(&mut self, streamed: Streamed) -> Result<(), AllocError>
        ensures sections { OnOk result ((rest : List ReadStreamed) →
            sections_with self.new rest ≡ sections_with self.old (streamed_shown streamed ∷ rest)) }
        ensures dialect { self.new.dialect ≡ self.old.dialect }
    {
        match streamed.part {
            Part::BeginsDirective => self.end_section(
                streamed.begun,
                Within::Directive {
                    function_like: false,
                },
            ),
            Part::OpensParameters => {
                self.open_parameters();
                self.keep(streamed)
            }
            Part::OfDirective => self.keep(streamed),
            Part::OfText => {
                self.end_directive(streamed.begun)?;
                self.keep(streamed)
            }
        }
    }

    /// All sections, where no item is left.
    pub fn finish(self) -> Result<Vec<PpSection>, AllocError>
        ensures { IfOk result (λ v. map section_shown v.items ≡ sections_with self []) }
    {
        let mut cutter = self;
        cutter.end_section(0, Within::Text)?;
        Ok(cutter.done)
    }
}
