//! The law of the cut. It stands on the contract of a function that does nothing.

ghost use Rattle.token_arena.specs.Standing.{SectionsSayHowItemsStand, EachItemStandsAsItsSectionSays};
ghost use Rattle.token_arena.specs.Standing.{OutsideIsAtNoDirective, InsideIsOnOneLine};

/// The sections say of each item how it stands to the directives where the items of the text are read:
/// outside, as the `#` that begins one, or behind that `#`. An item outside stands at no place in a
/// directive, and the gap before an item inside has no new-line.
pub fn sections_say_how_items_stand()
    ensures standings { SectionsSayHowItemsStand }
    ensures by_number { EachItemStandsAsItsSectionSays }
    ensures outside { OutsideIsAtNoDirective }
    ensures inside { InsideIsOnOneLine }
{}
