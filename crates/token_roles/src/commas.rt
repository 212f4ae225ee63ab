//! Lists with a last comma.

ghost use Rattle.std.specs.Prelude.{◌≡◌, ◌<◌, ◌+◌, false};
ghost use Rattle.token_classes.specs.Classes.{is_comment};
ghost use Rattle.token_roles.specs.Marks.{last_is_comma, ends_in_comma, is_split};

use crate::left::Left;
use line_tokens::Role;
use token_classes::TokenClass;

/// Whether the last token of a group, comments aside, is a comma.
fn last_is_comma(group: &[TokenClass]) -> bool
    ensures { result ≡ last_is_comma group.now }
{
    for place in (0..group.len()).rev() {
        if !group[place].is_comment() {
            return group[place].is_comma();
        }
    }
    false
}

/// Whether the group of an opener ends in a comma.
pub(crate) fn ends_in_comma(place: u32, partner: Option<u32>, after: &[TokenClass]) -> bool
    ensures { result ≡ ends_in_comma place partner after.now }
{
    match partner {
        None => false,
        Some(partner) => {
            let many = (partner as usize)
                .saturating_sub(place as usize + 1)
                .min(after.len());
            last_is_comma(&after[..many])
        }
    }
}

/// Whether the gap before a token is one of a list with a last comma.
#[inline(always)]
pub(crate) fn is_split(left: &Left, role: Role) -> bool
    ensures { result ≡ is_split left.now role }
{
    if role.is_list_close() {
        return left.splits || left.previous.class.is_comma();
    }
    left.splits && !role.is_trailing()
}
