//! The laws of the gaps that no run decides. Each stands on the contract of a function that does nothing.

ghost use Rattle.early_gaps.specs.EarlyLaws.{EarlyOrLeft, EarlyPlansAreSound, EarlyPlansKeep};

/// All that is decided before the runs may stand where it is decided, in every style and for all lines that are asked
/// for.
pub fn early_plans_are_sound()
    ensures { EarlyPlansAreSound }
{}

/// The plan before the runs has the bytes of each gap that stays, and behind it the column of the input.
pub fn early_plans_keep()
    ensures { EarlyPlansKeep }
{}

/// Each gap is decided before the runs, or it is that of an item of a text, and not in the group of a literal `#if 0`:
/// some run sees such an item.
pub fn early_or_left()
    ensures { EarlyOrLeft }
{}
