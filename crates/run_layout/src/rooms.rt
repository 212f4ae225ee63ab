//! Room for what lines take of memory.

use bumpalo::Bump;
use line_gaps::ViewLayout;
use std::alloc::Global;

/// A view of so many items or more has lines that share no room, so that it takes no more than its largest line needs.
const MANY_ITEMS: u32 = 8192;

/// The rooms of the lines of a view.
#[derive(Drop)]
pub(crate) struct LineRooms<'r> {
    /// The room of all lines of few items.
    view: &'r Bump,
    /// Room that is emptied before each line, where the view has many items.
    own: Option<Bump>,
}

impl<'r> LineRooms<'r> {
    /// The rooms of the lines of a view; few items share this one.
    pub(crate) fn of(layout: &ViewLayout<'_>, run: &'r Bump) -> LineRooms<'r> {
        let own = if layout.view.len() < MANY_ITEMS {
            None
        } else {
            Some(Bump::new(layout.alloc))
        };
        LineRooms { view: run, own }
    }

    /// The room of the next line.
    pub(crate) fn next(&mut self, alloc: Global) -> &Bump {
        let Some(own) = &mut self.own else {
            return self.view;
        };
        if own.reset().is_err() {
            *own = Bump::new(alloc);
        }
        own
    }
}
