//! The laws of the model. Each stands on the contract of a function that does nothing.

ghost use Rattle.pp_model.specs.Alike.{TwinsPreprocessAlike};
ghost use Rattle.pp_model.specs.Finding.{ItemsAreFound, KindsAreFound};

/// The kind that the model finds of a spelling is the one that the grammar says.
pub fn kinds_are_found()
    ensures { KindsAreFound }
{}

/// The items that the model finds in a text are the one list that the grammar says.
pub fn items_are_found()
    ensures { ItemsAreFound }
{}

/// Twins preprocess alike: under every setting and number of turns, with included files replaced by
/// twins or not, both give the same events in order, but for the numbers that `__LINE__` became and
/// for the white space in strings that `#` made.
pub fn twins_preprocess_alike()
    ensures { TwinsPreprocessAlike }
{}
