//! The law of views. It stands on the contract of a function that does nothing.

ghost use Rattle.branch_runs.specs.Laws.{ViewsAreOfTexts};

/// Each item that a run sees is one of a text: no run sees an item of a directive.
pub fn views_are_of_texts()
    ensures { ViewsAreOfTexts }
{}
