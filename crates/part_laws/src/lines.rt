//! The lines of a view that is cut behind a declaration, and the partners of its brackets, are those of its parts.
//!
//! [`partners_stay`] and [`lines_stay`] carry the laws: what is told of the declarations before the first such place
//! by themselves, and of what follows by itself, is told of them in the view. They stand on the contracts of functions
//! that do nothing.

ghost use Rattle.part_laws.specs.LinesCut.{LinesStay, PartnersStay};

/// The partners of the brackets of a view are those of its first declarations by themselves, up to where one ends and
/// the next begins on a line of its own, and those of what follows by itself.
pub fn partners_stay()
    ensures { PartnersStay }
{}

/// The unwrapped lines of a view are those of its first declarations by themselves, up to where one ends and the next
/// begins on a line of its own, and then those of what follows by itself.
pub fn lines_stay()
    ensures { LinesStay }
{}
