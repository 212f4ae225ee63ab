//! The laws of the grammar. Each stands on the contract of a function that does nothing.

ghost use Rattle.c_grammar.specs.Fitting.{KeepsItemsApart, KeepsItemsOverFitGaps, KeepsItemsOverLines};
ghost use Rattle.c_grammar.specs.Rewritten.{KeptBytesFit, RewritesGaps, WhiteReadsSo};
ghost use Rattle.c_grammar.specs.Text.{TextHasOneList};
ghost use Rattle.c_grammar.specs.Touch.{HasOneList, KeepsItems, KeepsItemsOverGaps};

/// A list of characters has one list of items, and one last gap.
pub fn has_one_list()
    ensures { HasOneList }
{}

/// A text of bytes has one list of items, and one last gap.
pub fn text_has_one_list()
    ensures { TextHasOneList }
{}

/// Where two items may touch, taking away a gap without a new-line between them leaves all items
/// as they were.
pub fn keeps_items()
    ensures { KeepsItems }
{}

/// Another gap in the place of a gap, none of them empty, both with a new-line or both without,
/// leaves all items as they were, behind an item that doesn't take its line.
pub fn keeps_items_over_gaps()
    ensures { KeepsItemsOverGaps }
{}

/// In a text, white space may come between two items with nothing between them, behind an item that
/// doesn't take its line. All items stay.
pub fn keeps_items_apart()
    ensures { KeepsItemsApart }
{}

/// In a text, another gap with or without a new-line may stand before an item, whatever the old one was,
/// behind an item that doesn't take its line, where no `#` stands there, comments aside. All items stay.
pub fn keeps_items_over_lines()
    ensures { KeepsItemsOverLines }
{}

/// Gaps that may stand for the old ones leave all items as they were, in texts and in directives, and
/// behind items that take the rest of their line.
pub fn keeps_items_over_fit_gaps()
    ensures { KeepsItemsOverFitGaps }
{}

/// Other bytes between the items of a text give a twin of it, where they read by themselves as gaps that
/// may stand for the old ones, make no splice and no `\r\n` with the item before them, are none only
/// where there were none, and where no byte order mark comes.
pub fn rewrites_gaps()
    ensures { RewritesGaps }
{}

/// The bytes between two items of a text may stay there.
pub fn kept_bytes_fit()
    ensures { KeptBytesFit }
{}

/// Blanks, tabs, line ends and splices read as they are meant.
pub fn white_reads_so()
    ensures { WhiteReadsSo }
{}
