// What the documents of a configuration make of a style.
ghost use Rattle.std.specs.Prelude.{◌≡◌, IfOk, List, is_some, string_bytes};
ghost use Rattle.style_table.specs.Range.{IsInRange};
ghost use Rattle.style_config.specs.Entries.{setting_text};
ghost use Rattle.style_config.specs.Reading.{Gives, aligned, is_base, known, meaning_of, path, read_setting, with_read};
ghost use Rattle.style_table.specs.Words.{bool_words, value_in};
ghost use Rattle.style_table.specs.Keys.{with_value};
ghost use Rattle.style_table.specs.Named.{named};
ghost use Rattle.style_config.specs.declared.skipped.SkippedKey.{SkippedKey};

use crate::ConfigFault;
use crate::entry::{Outer, Setting};
use crate::skipped::SkippedKey;
use fmt_ports::Name;
use std::alloc::{AllocError, Global};
use style_table::{AlignTrailingCommentsKind, Key, Style, ValueFault, bool_from_word};

/// What a key means.
#[derive(Clone, Copy)]
pub(crate) enum Meaning {
    /// For which language the document is.
    Language,
    /// On which style the style is based.
    BasedOnStyle,
    /// A key whose own keys stand under it.
    OuterKey(Outer),
    /// A key of the table.
    Known(Key),
    /// A key that is skipped.
    Unknown,
}

// A key of the table, or a key that is skipped.
fn known(key: Option<Key>) -> Meaning
    ensures { result ≡ known key }
{
    match key {
        Some(key) => Meaning::Known(key),
        None => Meaning::Unknown,
    }
}

// What a key means.
fn meaning_of(outer: Option<Outer>, label: &str) -> Meaning
    ensures { result ≡ meaning_of outer label.now }
{
    if let Some(outer) = outer {
        return known(Key::find(outer.name().as_bytes(), label.as_bytes()));
    }
    if label == "Language" {
        return Meaning::Language;
    }
    if label == "BasedOnStyle" {
        return Meaning::BasedOnStyle;
    }
    match Outer::find(label) {
        Some(outer) => Meaning::OuterKey(outer),
        None => known(Key::find(b"", label.as_bytes())),
    }
}

/// The name of a key, with the outer key that it stands under.
pub(crate) fn path(alloc: Global, outer: Option<Outer>, label: &str) -> Result<String, AllocError>
    ensures { IfOk result (λ name. string_bytes name ≡ path outer label.now) }
{
    let Some(outer) = outer else {
        return String::from_str(alloc, label);
    };
    let mut name = String::from_str(alloc, outer.name())?;
    name.push('.')?;
    name.push_str(label)?;
    Ok(name)
}

// Whether a text names a style.
fn names_style(value: &[u8]) -> bool
    ensures { result ≡ is_some (named value.now) }
{
    match std::str::from_utf8(value) {
        Ok(name) => Style::named(name).is_some(),
        Err(_) => false,
    }
}

// Whether `BasedOnStyle` may have this value: the name of a style, or quotes with nothing in them.
fn is_base(setting: &Setting<'_>) -> bool
    ensures { result ≡ is_base (setting_text setting.now) }
{
    names_style(setting.value) || setting.is_quoted && setting.value.is_empty()
}

// The style by the own value of the key `AlignTrailingComments`.
fn aligned(mut style: Style, setting: &Setting<'_>) -> Result<Style, ConfigFault>
    ensures read { (skipped : List SkippedKey) →
        Gives (aligned (record { style = style; skipped = skipped }) setting.now.line
        (value_in bool_words setting.now.value.now)) result skipped }
    ensures range { IsInRange style → IfOk result (λ style. IsInRange style) }
{
    let Ok(is_aligned) = bool_from_word(setting.value) else {
        return Err(ConfigFault::BadValue { line: setting.line });
    };
    style.align_trailing_comments_kind = if is_aligned {
        AlignTrailingCommentsKind::Always
    } else {
        AlignTrailingCommentsKind::Never
    };
    Ok(style)
}

// The style with the value of a key of the table.
fn with_value(style: Style, key: Key, setting: &Setting<'_>) -> Result<Style, ConfigFault>
    ensures read { (skipped : List SkippedKey) →
        Gives (with_read setting.now.line skipped (with_value style key setting.now.value.now)) result skipped }
    ensures range { IsInRange style → IfOk result (λ style. IsInRange style) }
{
    match style.with_value(key, setting.value) {
        Ok(style) => Ok(style),
        Err(ValueFault::BadValue) => Err(ConfigFault::BadValue { line: setting.line }),
        Err(ValueFault::OutOfRange) => Err(ConfigFault::OutOfRange { line: setting.line }),
    }
}

/// What a key with its value makes of the style and of the keys skipped so far.
pub(crate) fn read_setting(
    alloc: Global,
    setting: &Setting<'_>,
    style: Style,
    skipped: &mut Vec<SkippedKey>,
) -> Result<Style, ConfigFault>
    ensures read { Gives
        (read_setting (record { style = style; skipped = skipped.old.items }) (setting_text setting.now)) result
        skipped.new.items }
    ensures range { IsInRange style → IfOk result (λ style. IsInRange style) }
{
    let line = setting.line;
    let has_value = !setting.value.is_empty();
    match meaning_of(setting.outer, setting.label) {
        Meaning::Language => Ok(style),
        Meaning::BasedOnStyle => {
            if is_base(setting) {
                Ok(style)
            } else {
                Err(ConfigFault::UnknownStyle { line })
            }
        }
        Meaning::OuterKey(Outer::AlignTrailingComments) if !setting.has_lines => {
            aligned(style, setting)
        }
        Meaning::OuterKey(_) => {
            if setting.has_lines && !has_value {
                Ok(style)
            } else {
                Err(ConfigFault::BadValue { line })
            }
        }
        Meaning::Known(key) => with_value(style, key, setting),
        Meaning::Unknown => {
            let name = path(alloc, setting.outer, setting.label)?;
            let key = Name::from_text(alloc, name.as_str())?;
            skipped.push(SkippedKey { line, key })?;
            Ok(style)
        }
    }
}
