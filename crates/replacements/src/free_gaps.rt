//! Other bytes between the items of a text, where lines are broken and joined among them and gaps go.
//!
//! [`rewrites_free_gaps`] carries the law: such bytes leave all items and all directives as they were.
//! [`keeps_marks_away`] says when no byte order mark comes of them. Each stands on the contract of a function that does
//! nothing.

ghost use Rattle.replacements.specs.FreeGaps.{KeepsMarksAway, RewritesFreeGaps};

/// Other bytes between the items of a text give a twin of it: between two items such as may stand for the old
/// ones, or, in a text and before no `#`, any white space, with or without new-lines, whatever stood there, or
/// nothing where the two may touch.
pub fn rewrites_free_gaps()
    ensures { RewritesFreeGaps }
{}

/// No byte order mark comes of such bytes, where behind no first gap the first item begins with none.
pub fn keeps_marks_away()
    ensures { KeepsMarksAway }
{}
