//! Where the parts of a view end tells where its declarations do.
//!
//! A part of `view_parts` may end in a body too. [`declaration_ends`], [`declarations_follow`] and
//! [`declarations_stay`] carry the laws: where one ends in no body a declaration ends, and none ends elsewhere. So what
//! the laws of this crate tell of declarations holds of such parts from one end outside bodies up to the next.

ghost use Rattle.part_laws.specs.BodyParts.{DeclarationEnds, DeclarationsFollow, DeclarationsStay};

/// Where a part that begins outside brackets ends outside brackets, a declaration ends behind as many items.
pub fn declaration_ends()
    ensures { DeclarationEnds }
{}

/// Parts that follow one another, from outside brackets up to an end outside brackets, end where declarations do, but
/// for those that end in a body.
pub fn declarations_follow()
    ensures { DeclarationsFollow }
{}

/// The declarations of a view end where its parts do that end in no body.
pub fn declarations_stay()
    ensures { DeclarationsStay }
{}
