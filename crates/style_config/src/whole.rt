// The documents of a configuration, one entry after another.
ghost use Rattle.std.specs.Prelude.{◌≡◌, [], IfOk};
ghost use Rattle.std.specs.Option.{option_map};
ghost use Rattle.style_table.specs.Range.{IsInRange};
ghost use Rattle.style_config.specs.Lines.{base_of, document_text, documents_text};
ghost use Rattle.style_config.specs.Entries.{item_text, items_of, setting_text};
ghost use Rattle.style_config.specs.Reading.{Gives, Notes, before_given, key_paths, path_of, read_documents};
ghost use Rattle.style_config.specs.Reading.{read_given, read_items};

use crate::ConfigFault;
use crate::document::base_after;
use crate::entry::{Item, Owner, Setting, begins_nested, item_of};
use crate::line::NumberedLine;
use crate::reading::{path, read_setting};
use crate::skipped::SkippedKey;
use indexmap::IndexSet;
use std::alloc::Global;
use style_table::Style;

/// The style that all these documents are based on.
pub(crate) fn base_of(style: Style, documents: &[&[NumberedLine<'_>]]) -> Style
    ensures style { result ≡ base_of style (documents_text documents.now) }
    ensures range { IsInRange style → IsInRange result }
{
    let mut style = style;
    for document in documents {
        style = base_after(style, document);
    }
    style
}

// Notes that a key stands in its document.
fn note_key(
    alloc: Global,
    setting: &Setting<'_>,
    seen: &mut IndexSet<String>,
) -> Result<(), ConfigFault>
    ensures { Notes (path_of (setting_text setting.now)) setting.now.line (key_paths seen.old) (key_paths seen.new)
        result }
{
    let name = path(alloc, setting.outer, setting.label)?;
    let (_, is_new) = seen.insert_full(name)?;
    if is_new {
        Ok(())
    } else {
        Err(ConfigFault::Repeated { line: setting.line })
    }
}

// What a line of a document makes of the style and of the keys skipped so far.
fn read_item(
    alloc: Global,
    item: Option<Item<'_>>,
    style: Style,
    seen: &mut IndexSet<String>,
    skipped: &mut Vec<SkippedKey>,
) -> Result<Style, ConfigFault>
    ensures read { Gives (read_given (key_paths seen.old) (record { style = style; skipped = skipped.old.items })
        (option_map item_text item.entry)) result skipped.new.items }
    ensures seen { IfOk result
        (λ _. key_paths seen.new ≡ before_given (key_paths seen.old) (option_map item_text item.entry)) }
    ensures range { IsInRange style → IfOk result (λ style. IsInRange style) }
{
    match item {
        None => Ok(style),
        Some(Item::Wrong(line)) => Err(ConfigFault::BadLine { line }),
        Some(Item::Given(setting)) => {
            note_key(alloc, &setting, seen)?;
            read_setting(alloc, &setting, style, skipped)
        }
    }
}

// What a document makes of the style and of the keys skipped so far.
fn read_document(
    alloc: Global,
    document: &[NumberedLine<'_>],
    style: Style,
    skipped: &mut Vec<SkippedKey>,
) -> Result<Style, ConfigFault>
    ensures read { Gives (read_items [] (record { style = style; skipped = skipped.old.items })
        (items_of (document_text document.now))) result skipped.new.items }
    ensures range { IsInRange style → IfOk result (λ style. IsInRange style) }
{
    let mut style = style;
    let mut owner = Owner::NoKey;
    let mut seen = IndexSet::new(alloc);
    let mut at = 0;
    while at < document.len() {
        let line = &document[at];
        let item = item_of(owner, line, begins_nested(&document[at + 1..]));
        style = read_item(alloc, item, style, &mut seen, skipped)?;
        owner = owner.after(&line.line);
        at += 1;
    }
    Ok(style)
}

/// What documents make of the style and of the keys skipped so far.
pub(crate) fn read_documents(
    alloc: Global,
    documents: &[&[NumberedLine<'_>]],
    style: Style,
    skipped: &mut Vec<SkippedKey>,
) -> Result<Style, ConfigFault>
    ensures read { Gives
        (read_documents (record { style = style; skipped = skipped.old.items }) (documents_text documents.now)) result
        skipped.new.items }
    ensures range { IsInRange style → IfOk result (λ style. IsInRange style) }
{
    let mut style = style;
    for document in documents {
        style = read_document(alloc, document, style, skipped)?;
    }
    Ok(style)
}
