//! What the class of a token says of the part that it stands in.

ghost use Rattle.std.specs.Prelude.{◌≡◌};
ghost use Rattle.part_walk.specs.Walk.{is_lost, is_record, is_label, is_leading};

use token_classes::TokenClass;

/// Whether no part ends behind a token that stands outside brackets: the word of a control statement or of a label.
pub(crate) fn is_lost(class: TokenClass) -> bool
    ensures { result ≡ is_lost class }
{
    class.is_control() || class.is_case() || class.is_default()
}

/// Whether a token is the word of a label of a switch.
#[inline(always)]
pub(crate) fn is_label(class: TokenClass) -> bool
    ensures { result ≡ is_label class }
{
    class.is_case() || class.is_default()
}

/// Whether a token is `struct` or `union`.
#[inline(always)]
pub(crate) fn is_record(class: TokenClass) -> bool
    ensures { result ≡ is_record class }
{
    class.is_struct() || class.is_union()
}

/// Whether a statement that begins with such a token may have a body.
pub(crate) fn is_leading(class: TokenClass) -> bool
    ensures { result ≡ is_leading class }
{
    matches!(
        class,
        TokenClass::If
            | TokenClass::For
            | TokenClass::While
            | TokenClass::Do
            | TokenClass::Switch
            | TokenClass::Struct
            | TokenClass::Union
            | TokenClass::OpenBrace
    )
}
