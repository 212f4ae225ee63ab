//! The law of a plan's text. It stands on the contract of a function that does nothing.

ghost use Rattle.replacements.specs.Sound.{SoundPlansAreTwins};

/// Where each decision of a plan may stand for its gap, the text of the plan is a twin of the input, in
/// every style and with either line end.
pub fn sound_plans_are_twins()
    ensures { SoundPlansAreTwins }
{}
