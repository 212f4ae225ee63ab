//! The laws of what is decided. Each stands on the contract of a function that does nothing.

ghost use Rattle.early_gaps.specs.AllStay.{AllDirectivesAreDecided, AllDirectivesStaySound};

/// What is decided for all directives of a text may stand, so the text of the plan stays a twin of the input.
pub fn all_directives_stay_sound()
    ensures { AllDirectivesStaySound }
{}

/// Behind what is decided for all directives of a text the gap before each item of a directive is decided, so no run is
/// left one.
pub fn all_directives_are_decided()
    ensures { AllDirectivesAreDecided }
{}
