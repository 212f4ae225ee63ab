// The entries of a document: which key each of its lines sets.
ghost use Rattle.std.specs.Prelude.{◌≡◌};
ghost use Rattle.std.specs.Option.{option_map};
ghost use Rattle.style_config.specs.Texts.{pair_of};
ghost use Rattle.style_config.specs.Lines.{document_text, line_text};
ghost use Rattle.style_config.specs.Entries.{begins_nested, has_width, inner_item, is_malformed, is_nested, item_of};
ghost use Rattle.style_config.specs.Entries.{item_text, outer_name, outer_of, owner_after, owner_of};

use crate::line::{Line, NumberedLine};
use crate::pair::pair_of;

/// A key whose own keys stand under it.
#[derive(Clone, Copy)]
pub(crate) enum Outer {
    BraceWrapping,
    AlignTrailingComments,
}

/// What a line behind blanks belongs to.
#[derive(Clone, Copy)]
pub(crate) enum Owner {
    /// No key stands before it in its document.
    NoKey,
    /// A key whose lines are passed over.
    AnyKey,
    /// An outer key, whose keys stand behind so many blanks, once the first is known.
    OuterKey(Outer, Option<usize>),
}

/// A key with its value.
#[derive(Clone, Copy)]
pub(crate) struct Setting<'t> {
    pub(crate) line: u32,
    /// The outer key that it stands under.
    pub(crate) outer: Option<Outer>,
    pub(crate) label: &'t str,
    pub(crate) value: &'t [u8],
    /// Whether quotes stood around the value.
    pub(crate) is_quoted: bool,
    /// Whether lines belong to it.
    pub(crate) has_lines: bool,
}

/// What a line gives.
#[derive(Clone, Copy)]
pub(crate) enum Item<'t> {
    /// A bad line.
    Wrong(u32),
    /// A key that is set.
    Given(Setting<'t>),
}

impl Outer {
    /// How it is spelled.
    pub(crate) fn name(self) -> &'static str
        ensures { result.now ≡ outer_name self }
    {
        match self {
            Outer::BraceWrapping => "BraceWrapping",
            Outer::AlignTrailingComments => "AlignTrailingComments",
        }
    }

    /// The outer key that is spelled so.
    pub(crate) fn find(key: &str) -> Option<Outer>
        ensures { result ≡ outer_of key.now }
    {
        if key == "BraceWrapping" {
            Some(Outer::BraceWrapping)
        } else if key == "AlignTrailingComments" {
            Some(Outer::AlignTrailingComments)
        } else {
            None
        }
    }
}

impl Owner {
    // What the lines behind a key belong to.
    fn of(outer: Option<Outer>) -> Owner
        ensures { result ≡ owner_of outer }
    {
        match outer {
            Some(outer) => Owner::OuterKey(outer, None),
            None => Owner::AnyKey,
        }
    }

    /// What the lines behind a line belong to.
    pub(crate) fn after(self, line: &Line<'_>) -> Owner
        ensures { result ≡ owner_after self (line_text line.now) }
    {
        match line {
            Line::Entry(pair) => Owner::of(Outer::find(pair.key)),
            Line::Nested(width, _) => match self {
                Owner::OuterKey(outer, None) => Owner::OuterKey(outer, Some(*width)),
                Owner::OuterKey(_, Some(_)) | Owner::NoKey | Owner::AnyKey => self,
            },
            Line::Marker | Line::Malformed => self,
        }
    }
}

// Whether a line belongs to the key before it.
fn is_nested(line: &Line<'_>) -> bool
    ensures { result ≡ is_nested (line_text line.now) }
{
    match line {
        Line::Nested(_, _) => true,
        Line::Entry(_) | Line::Marker | Line::Malformed => false,
    }
}

// Whether a line has no form.
fn is_malformed(line: &Line<'_>) -> bool
    ensures { result ≡ is_malformed (line_text line.now) }
{
    match line {
        Line::Malformed => true,
        Line::Entry(_) | Line::Marker | Line::Nested(_, _) => false,
    }
}

/// Whether the first of these lines belongs to the key before it, bad lines aside.
pub(crate) fn begins_nested(lines: &[NumberedLine<'_>]) -> bool
    ensures { result ≡ begins_nested (document_text lines.now) }
{
    for line in lines {
        if !is_malformed(&line.line) {
            return is_nested(&line.line);
        }
    }
    false
}

// Whether a line stands behind as many blanks as the first one under its outer key.
fn has_width(first: Option<usize>, width: usize) -> bool
    ensures { result ≡ has_width first width }
{
    match first {
        Some(first) => width == first,
        None => true,
    }
}

// What a line under an outer key gives.
fn inner_item(number: u32, outer: Outer, text: &[u8]) -> Item<'_>
    ensures { item_text result ≡ inner_item number outer (pair_of text.now) }
{
    match pair_of(text) {
        Some(pair) => Item::Given(Setting {
            line: number,
            outer: Some(outer),
            label: pair.key,
            value: pair.value,
            is_quoted: pair.is_quoted,
            has_lines: false,
        }),
        None => Item::Wrong(number),
    }
}

/// What a line gives, if anything. `next` says whether the next line belongs to the same key.
pub(crate) fn item_of<'t>(owner: Owner, line: &NumberedLine<'t>, next: bool) -> Option<Item<'t>>
    ensures { option_map item_text result ≡ item_of owner line.now.number (line_text line.now.line) next }
{
    let number = line.number;
    match line.line {
        Line::Marker => None,
        Line::Malformed => Some(Item::Wrong(number)),
        Line::Entry(pair) => Some(Item::Given(Setting {
            line: number,
            outer: None,
            label: pair.key,
            value: pair.value,
            is_quoted: pair.is_quoted,
            has_lines: next,
        })),
        Line::Nested(width, text) => match owner {
            Owner::NoKey => Some(Item::Wrong(number)),
            Owner::AnyKey => None,
            Owner::OuterKey(outer, first) => {
                if has_width(first, width) {
                    Some(inner_item(number, outer, text))
                } else {
                    None
                }
            }
        },
    }
}
