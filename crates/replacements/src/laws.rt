//! The laws of decisions. Each stands on the contract of a function that does nothing.

ghost use Rattle.replacements.specs.Laws.{DecisionsStay, FirstDecisionStands};

/// What is decided for a gap stays, whatever is decided later.
pub fn decisions_stay()
    ensures { DecisionsStay }
{}

/// After any decisions each gap that was open has the first that was made for it, and is open where none was.
pub fn first_decision_stands()
    ensures { FirstDecisionStands }
{}
