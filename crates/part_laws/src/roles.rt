//! The roles of a view that is cut behind declarations are those of its parts.
//!
//! [`tells_parts`] carries the law of a cut: what is told of either side by itself is told of it in the view.
//! [`roles_stay`] carries that of all that stands between the ends of declarations: such cuts are there. They stand on
//! the contracts of functions that do nothing.

ghost use Rattle.part_laws.specs.RolesCut.{TellsParts};
ghost use Rattle.part_laws.specs.Parts.{RolesStay};

/// The tokens of a view of two parts, between which it may be cut, are those of the first by itself and those of
/// the second by itself, but that the view tells whether a directive stands between the two.
pub fn tells_parts()
    ensures { TellsParts }
{}

/// The tokens of a view are those of what stands between the ends of its declarations, each by itself, one behind
/// another, but that the view tells whether a directive stands before it. Such an end is one behind which the next
/// declaration begins on a line of its own.
pub fn roles_stay()
    ensures { RolesStay }
{}
