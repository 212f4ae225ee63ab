//! The law of the table. It stands on the contract of a function that does nothing.

ghost use Rattle.layout_tables.specs.KeepsApart.{KeepsApart};

/// No blank stands only where nothing stood, or where the two tokens may touch.
pub fn keeps_apart()
    ensures { KeepsApart }
{}
