//! The events of a text.

ghost use Rattle.std.specs.Prelude.{◌≡◌, ◌<◌, ◌≤◌, map, length, IfOk, IsErrOf};
ghost use Rattle.c_chars.specs.declared.TheConstants.{LIMIT};
ghost use Rattle.pp_model.specs.Setting.{Preprocess};
ghost use Rattle.pp_directives.specs.SettingView.{setting_shown};
ghost use Rattle.pp_directives.specs.WorldView.{event_shown};
ghost use Rattle.pp_text.specs.Fits.{IncludesFit};
ghost use Rattle.pp_text.specs.declared.fault.EventsFault.TheVariants as EventsFault;

use crate::fault::EventsFault;
use crate::reading::{Reading, Unread};
use crate::rules::{EditionSpellings, Rules};
use c_chars::{Dialect, LIMIT};
use pp_directives::{Event, Setting, Shift, World, table_by};
use pp_items::sections_of;
use std::alloc::Global;
use std::collections::VecDeque;

/// The events of a text under a setting: what translation phases 1 to 4 make of it (C11 5.1.1.2).
///
/// A text that doesn't lex gives [`Event::Unlexed`] alone. A text, or one that it includes, of more than
/// [`LIMIT`] bytes is a fault.
pub fn events(
    alloc: Global,
    dialect: Dialect,
    setting: &Setting,
    text: &[u8],
) -> Result<Vec<Event>, EventsFault>
    ensures events { IfOk result
        (λ r. map event_shown r.items ≡ Preprocess dialect (setting_shown setting.now) text.now) }
    ensures too_large { LIMIT < length text.now → IsErrOf result EventsFault.TooLarge }
    ensures small { length text.now ≤ LIMIT → IncludesFit setting.now → ¬ IsErrOf result EventsFault.TooLarge }
{
    if text.len() > LIMIT {
        return Err(EventsFault::TooLarge);
    }
    let spellings = EditionSpellings { dialect };
    let table = table_by(alloc, &spellings, setting.macros.as_slice())?;
    let mut world = World::starting(alloc, table, setting.turns);
    match sections_of(alloc, text, dialect)? {
        None => {
            world.emit(Event::Unlexed)?;
            Ok(world.events)
        }
        Some(sections) => {
            let reading = Reading {
                world,
                text: Unread {
                    sections: VecDeque::from_vec(sections),
                    shift: Shift::UNMOVED,
                    depth: setting.depth,
                },
                waiting: VecDeque::new(alloc),
            };
            reading.read_all(&Rules {
                alloc,
                spellings,
                setting,
            })
        }
    }
}
