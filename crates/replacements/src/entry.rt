//! How a plan lies in memory.

ghost use Rattle.std.specs.Prelude.{◌≡◌, ◌/◌, ◌%◌, ◌<◌, ◌*◌, ◌^◌, ℕ, List, Some, IfSome, false, not};
ghost use Rattle.replacements.specs.Inside.{IsHeld, deep_slot, in_pages, is_near, is_open, slot_in};
ghost use Rattle.replacements.specs.declared.entry.Entry.TheVariants.{Apart, DeepLine};
ghost use Rattle.replacements.specs.declared.slot.Slot.{Slot};
ghost use Rattle.replacements.specs.Written.{decision_of};
ghost use Rattle.replacements.specs.declared.gap_text.Decision.TheVariants.{Lines, Spaces};

use crate::Decision;
use crate::slot::Slot;

/// Line ends and indentation.
#[derive(Clone, Copy)]
pub(crate) struct LineGap {
    /// How many line ends.
    pub count: u32,
    /// The column up to which the indentation goes.
    pub column: u32,
    /// The level of the line that begins there.
    pub level: u32,
}

/// What a plan has for a gap: that it is open, or the decision and the column at which the item behind the gap
/// starts. It takes four bytes, which is enough for most decisions; others stand apart. A far column, a deep level and
/// a place among those that stand apart are so many [`PAGE`]s and so many behind.
#[derive(Clone, Copy)]
pub(crate) enum Entry {
    /// Nothing is decided.
    Open,
    /// The input's bytes stay.
    Old {
        /// The column of the next item.
        end: u16,
    },
    /// Blanks.
    Spaces {
        /// How many.
        count: u8,
        /// The column of the next item.
        end: u16,
    },
    /// A line end and indentation.
    Line {
        /// The level of the line that begins there.
        level: u8,
        /// The column up to which the indentation goes, and that of the next item.
        column: u16,
    },
    /// A blank line: two line ends, and indentation.
    BlankLine {
        /// The level of the line that begins there.
        level: u8,
        /// The column up to which the indentation goes, and that of the next item.
        column: u16,
    },
    /// The input's bytes stay, and the next item starts at a far column.
    FarOld {
        /// The pages of the column.
        page: u8,
        /// How many behind.
        at: u16,
    },
    /// Nothing stands in the gap, and the next item starts at a far column.
    FarNothing {
        /// The pages of the column.
        page: u8,
        /// How many behind.
        at: u16,
    },
    /// A blank, and the next item starts at a far column.
    FarBlank {
        /// The pages of the column.
        page: u8,
        /// How many behind.
        at: u16,
    },
    /// A line end and the indentation of a deep level, up to the next item.
    DeepLine {
        /// The pages of the level.
        page: u8,
        /// How many behind.
        at: u16,
    },
    /// Another decision, which stands apart.
    Apart {
        /// The pages of its place among those that do.
        page: u8,
        /// How many behind.
        at: u16,
    },
}

const _: () = prove!(size_of::<Entry>() <= 4);

/// How many numbers have the same page.
const PAGE: u32 = 65_536;

/// Line ends and indentation up to the column at which the item behind them starts.
#[inline(always)]
fn lines_slot(count: u32, level: u8, column: u16) -> (Decision, u32)
    ensures decision { result.0 ≡ Lines count column level }
    ensures end { result.1 ≡ column }
{
    let column = u32::from(column);
    let decision = Decision::Lines {
        count,
        column,
        level: u32::from(level),
    };
    (decision, column)
}

/// A number of so many pages and so many behind.
#[inline(always)]
fn in_pages(page: u8, at: u16) -> u32
    ensures is { result ≡ in_pages page at }
    ensures below { result < 2 ^ 24 }
{
    u32::from(page) * PAGE + u32::from(at)
}

/// The columns of the indentation of a level, where each level takes so many.
fn columns_of(level: u32, width: u8) -> Option<u32>
    ensures { IfSome result (λ columns. columns ≡ level * width) }
{
    level.checked_mul(u32::from(width))
}

/// A line end and the indentation of a deep level, where each level takes so many columns.
#[inline(never)]
fn deep_slot(level: u32, width: u8) -> Slot
    requires { level < 2 ^ 24 }
    ensures { result ≡ deep_slot width level }
{
    let column = level * u32::from(width);
    Slot {
        decision: Decision::Lines {
            count: 1,
            column,
            level,
        },
        end: column,
    }
}

impl Entry {
    /// The entry of a decision that stands apart at a place.
    pub(crate) fn apart(place: usize) -> Entry
        requires { place < 2 ^ 24 }
        ensures { result ≡ Apart (place / 65536) (place % 65536) }
    {
        Entry::Apart {
            page: (place / PAGE as usize) as u8,
            at: (place % PAGE as usize) as u16,
        }
    }

    /// The entry of a line that begins at a level and a column, where it has room for the level and the column is that
    /// of its indentation.
    fn deep(level: u32, column: u32, width: u8) -> Option<Entry>
        ensures room { IfSome result (λ entry. (apart : List Slot) →
            slot_in width apart entry ≡ Some (record { decision = Lines 1 column level; end = column })) }
        ensures held { IfSome result (λ entry. (apart : List Slot) → IsHeld apart entry) }
        ensures decided { IfSome result (λ entry. is_open entry ≡ false) }
    {
        if columns_of(level, width)? != column {
            return None;
        }
        Some(Entry::DeepLine {
            page: u8::try_from(level / PAGE).ok()?,
            at: (level % PAGE) as u16,
        })
    }

    /// The entry of a gap that is decided so, where it has room for a far column or a deep level. Each level takes so
    /// many columns.
    pub(crate) fn far(slot: Slot, width: u8) -> Option<Entry>
        ensures room { IfSome result (λ entry. (apart : List Slot) → slot_in width apart entry ≡ Some slot) }
        ensures held { IfSome result (λ entry. (apart : List Slot) → IsHeld apart entry) }
        ensures decided { IfSome result (λ entry. is_open entry ≡ false) }
    {
        let page = u8::try_from(slot.end / PAGE).ok()?;
        let at = (slot.end % PAGE) as u16;
        match slot.decision {
            Decision::Old => Some(Entry::FarOld { page, at }),
            Decision::Spaces(0) => Some(Entry::FarNothing { page, at }),
            Decision::Spaces(1) => Some(Entry::FarBlank { page, at }),
            Decision::Lines {
                count: 1,
                column,
                level,
            } if column == slot.end => Entry::deep(level, column, width),
            _ => None,
        }
    }

    /// The entry of so many line ends and indentation, where it has room for as many.
    #[inline(always)]
    fn of_lines(count: u32, level: u8, column: u16) -> Option<Entry>
        ensures room { IfSome result (λ entry. (width : ℕ) (apart : List Slot) →
            slot_in width apart entry ≡ Some (record { decision = Lines count column level; end = column })) }
        ensures held { IfSome result (λ entry. (apart : List Slot) → IsHeld apart entry) }
        ensures decided { IfSome result (λ entry. is_open entry ≡ false) }
    {
        match count {
            1 => Some(Entry::Line { level, column }),
            2 => Some(Entry::BlankLine { level, column }),
            _ => None,
        }
    }

    /// The entry of a gap that is decided so, where it has room for that.
    #[inline(always)]
    pub(crate) fn of(slot: Slot) -> Option<Entry>
        ensures room { IfSome result (λ entry. (width : ℕ) (apart : List Slot) →
            slot_in width apart entry ≡ Some slot) }
        ensures held { IfSome result (λ entry. (apart : List Slot) → IsHeld apart entry) }
        ensures decided { IfSome result (λ entry. is_open entry ≡ false) }
    {
        let end = u16::try_from(slot.end).ok()?;
        match slot.decision {
            Decision::Old => Some(Entry::Old { end }),
            Decision::Spaces(count) => Some(Entry::Spaces {
                count: u8::try_from(count).ok()?,
                end,
            }),
            Decision::Lines {
                count,
                column,
                level,
            } if column == slot.end => Entry::of_lines(count, u8::try_from(level).ok()?, end),
            Decision::Lines { .. } => None,
            Decision::Splice { .. } => None,
        }
    }

    /// What is decided, where a column is far, a level deep, or the decision stands apart.
    #[inline(never)]
    fn rare_slot(self, apart: &[Slot], width: u8) -> Option<Slot>
        requires { is_near self ≡ false }
        ensures { result ≡ slot_in width apart.now self }
    {
        let (decision, end) = match self {
            Entry::FarOld { page, at } => (Decision::Old, in_pages(page, at)),
            Entry::FarNothing { page, at } => (Decision::Spaces(0), in_pages(page, at)),
            Entry::FarBlank { page, at } => (Decision::Spaces(1), in_pages(page, at)),
            Entry::DeepLine { page, at } => return Some(deep_slot(in_pages(page, at), width)),
            Entry::Apart { page, at } => return apart.get(in_pages(page, at) as usize).copied(),
            _ => return None,
        };
        Some(Slot { decision, end })
    }

    /// What is decided, where each level takes so many columns and these decisions stand apart.
    #[inline(always)]
    pub(crate) fn slot(self, apart: &[Slot], width: u8) -> Option<Slot>
        ensures { result ≡ slot_in width apart.now self }
    {
        let (decision, end) = match self {
            Entry::Open => return None,
            Entry::Old { end } => (Decision::Old, u32::from(end)),
            Entry::Spaces { count, end } => (Decision::Spaces(u32::from(count)), u32::from(end)),
            Entry::Line { level, column } => lines_slot(1, level, column),
            Entry::BlankLine { level, column } => lines_slot(2, level, column),
            _ => return self.rare_slot(apart, width),
        };
        Some(Slot { decision, end })
    }

    /// How many blanks are decided, where the entry has that.
    #[inline(always)]
    pub(crate) fn blanks(self) -> Option<u32>
        ensures { (width : ℕ) (apart : List Slot) →
            IfSome result (λ count. decision_of (slot_in width apart self) ≡ Spaces count) }
    {
        match self {
            Entry::Spaces { count, .. } => Some(u32::from(count)),
            _ => None,
        }
    }

    /// The line ends and the indentation that are decided, where the entry has them.
    #[inline(always)]
    pub(crate) fn lines(self) -> Option<LineGap>
        ensures { (width : ℕ) (apart : List Slot) →
            IfSome result (λ gap. decision_of (slot_in width apart self) ≡ Lines gap.count gap.column gap.level) }
    {
        let (count, level, column) = match self {
            Entry::Line { level, column } => (1, level, column),
            Entry::BlankLine { level, column } => (2, level, column),
            _ => return None,
        };
        Some(LineGap {
            count,
            column: u32::from(column),
            level: u32::from(level),
        })
    }

    /// Whether something is decided.
    #[inline(always)]
    pub(crate) fn is_decided(self) -> bool
        ensures { result ≡ not (is_open self) }
    {
        !matches!(self, Entry::Open)
    }
}
