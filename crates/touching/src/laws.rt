//! The law of the table. It stands on the contract of a function that does nothing.

ghost use Rattle.touching.specs.TakingAway.{TakesGapsAway};

/// Where two items of a text may touch, the text without the bytes between them is a twin of it.
pub fn takes_gaps_away()
    ensures { TakesGapsAway }
{}
