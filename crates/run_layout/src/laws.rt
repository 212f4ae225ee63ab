//! The laws of a run's decisions. Each stands on the contract of a function that does nothing.

ghost use Rattle.run_layout.specs.Laws.{LinesDecide, LinesKeep, LinesStaySound, OneBreakingIsAdmissible};
ghost use Rattle.run_layout.specs.ViewLaws.{ViewsDecide, ViewsKeep, ViewsStaySound};

/// Each decision that a run makes may stand: a plan that decides only what may stand is such a plan after a run too, in
/// every style, for any view of items of texts, whatever roles its tokens have and whichever lines are reported.
pub fn lines_stay_sound()
    ensures { LinesStaySound }
{}

/// What is decided before a run stays.
pub fn lines_keep()
    ensures { LinesKeep }
{}

/// Behind the lines of a run the gap of each item that it sees is decided, or waits before a trailing comment.
pub fn lines_decide()
    ensures { LinesDecide }
{}

/// Without a limit of columns a line has one admissible breaking.
pub fn one_breaking_is_admissible()
    ensures { OneBreakingIsAdmissible }
{}

/// Each decision that a run makes for its view may stand, whichever of its lines are joined: a sound plan stays sound.
pub fn views_stay_sound()
    ensures { ViewsStaySound }
{}

/// What is decided before a run that lays out a view stays.
pub fn views_keep()
    ensures { ViewsKeep }
{}

/// Behind a run that lays out a view the gap of each of its items is decided.
pub fn views_decide()
    ensures { ViewsDecide }
{}
