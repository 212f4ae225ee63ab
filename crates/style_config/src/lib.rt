//! Configurations: what a text in the form of `.clang-format` makes of a style, and a style as such a text.
//!
//! A text is cut into lines, and the lines into documents. A document that is for another language
//! than C is passed over whole. The entries of the others change the base in their order, and the
//! style that `BasedOnStyle` names comes first, wherever it stands. The first fault ends the
//! reading. What `dump` writes of a style is read back as that style.
#![tactic(auto)]

mod document;
mod entry;
mod fault;
mod line;
mod pair;
mod reading;
mod skipped;
mod text;
mod whole;
mod writing;

ghost use Rattle.std.specs.Prelude.{◌≡◌, ◌≤◌, IfOk, length};
ghost use Rattle.style_table.specs.Range.{IsInRange};
ghost use Rattle.style_config.specs.Dump.{dump_text};
ghost use Rattle.style_table.specs.declared.style.Style.{Style};
ghost use Rattle.style_config.specs.Reading.{IsReadBack, Reads};

pub use fault::ConfigFault;
pub use skipped::{Skipped, SkippedKey};
use std::alloc::Global;
use style_table::Style;
pub use writing::dump;

/// The most bytes that a configuration may have.
pub const LIMIT: usize = 1_048_576;

/// The style that a configuration makes of a base, and the keys that were skipped.
pub fn read(alloc: Global, text: &[u8], base: Style) -> Result<(Style, Skipped), ConfigFault>
    requires fits { length text.now ≤ LIMIT }
    requires range { IsInRange base }
    ensures read { Reads text.now base result }
    ensures range { IfOk result (λ read. IsInRange read.0) }

    // What is written of a style is read back as that style, whatever the base is.
    ensures written { (style : Style) → IsInRange style → text.now ≡ dump_text style → IsReadBack style result }
{
    if let Err(error) = std::str::from_utf8(text) {
        return Err(ConfigFault::NotUtf8 {
            offset: error.valid_up_to() as u32,
        });
    }
    let lines = line::lines_of(text, alloc)?;
    let documents = document::documents_for_c(alloc, lines.as_slice())?;
    let base = whole::base_of(base, documents.as_slice());
    let mut keys = Vec::new(alloc);
    let style = whole::read_documents(alloc, documents.as_slice(), base, &mut keys)?;
    Ok((style, Skipped::new(keys)))
}
