//! The laws of the layout. Each stands on the contract of a function that does nothing.

ghost use Rattle.format_core.specs.Exact.{OpenTextsHaveNoLayout};
ghost use Rattle.format_core.specs.Laws.{EarlyDecisionsStay, EveryGapIsDecided, KeptGapsStay, PlannedTextsAreTwins};

/// No text has both a layout and a block comment that nothing ends: so such a text is always refused.
pub fn open_texts_have_no_layout()
    ensures { OpenTextsHaveNoLayout }
{}

/// The text of a plan is a twin of the text, in every style, whichever lines are reported.
pub fn planned_texts_are_twins()
    ensures { PlannedTextsAreTwins }
{}

/// No run changes what is decided before the runs: the gaps that stay, those of directives and the last one.
pub fn early_decisions_stay()
    ensures { EarlyDecisionsStay }
{}

/// The gaps at which formatting is off, those of lines that aren't asked for, those beside items in the group of a
/// literal `#if 0` and those of rows behind a backslash, blanks and a new-line have the bytes of the input.
pub fn kept_gaps_stay()
    ensures { KeptGapsStay }
{}

/// Each gap of a text is decided in each of its plans, before the runs or by one of them: no gap keeps its bytes for
/// want of a decision.
pub fn every_gap_is_decided()
    ensures { EveryGapIsDecided }
{}
