//! Closing brackets: their roles, and what stands around what follows them.

ghost use Rattle.std.specs.Prelude.{◌≡◌, ◌<◌};
ghost use Rattle.token_roles.specs.Marks.{close_of, mark_at, closed_role, taken_back};

use crate::left::{Around, outside};
use crate::mark::Mark;
use line_tokens::Role;
use token_classes::TokenClass;

/// The close of an opener. By itself it is read from a table.
#[inline(never)]
fn close_of(role: Role) -> Role
    ensures { result ≡ close_of role }
{
    match role {
        Role::CtrlOpen => Role::CtrlClose,
        Role::CallOpen => Role::CallClose,
        Role::CastOpen => Role::CastClose,
        Role::DeclOpen => Role::DeclClose,
        Role::GroupOpen => Role::GroupClose,
        Role::IndexOpen => Role::IndexClose,
        Role::DesigOpen => Role::DesigClose,
        Role::ListOpen => Role::ListClose,
        _ => Role::BlockClose,
    }
}

/// What is told of a place, where it has been passed.
#[inline(always)]
pub(crate) fn mark_at(marks: &[Mark], place: Option<u32>) -> Option<Mark>
    ensures { result ≡ mark_at marks.now place }
{
    match place {
        None => None,
        Some(place) => marks.get(place as usize).copied(),
    }
}

/// The role of a closing bracket, which may have no partner.
#[inline(always)]
pub(crate) fn closed_role(class: TokenClass, paired: Option<Mark>) -> Role
    ensures { result ≡ closed_role class paired }
{
    match paired {
        Some(mark) => close_of(mark.seen.role),
        None => match class {
            TokenClass::CloseRound => Role::GroupClose,
            TokenClass::CloseSquare => Role::IndexClose,
            _ => Role::BlockClose,
        },
    }
}

/// Has around it what stands around what follows a closing bracket.
#[inline(always)]
pub(crate) fn take_back(around: &mut Around, first: u32, partner: Option<u32>, marks: &[Mark])
    ensures { around.new ≡ taken_back first partner (mark_at marks.now partner) around.old }
{
    if let Some(place) = partner {
        match marks.get(place as usize) {
            None => *around = outside(),
            Some(mark) => {
                if first <= place {
                    *around = mark.around;
                } else {
                    let assigned = mark.around.assigned;
                    *around = outside();
                    around.assigned = assigned;
                }
            }
        }
    }
}
