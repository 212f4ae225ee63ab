//! Tokens by their roles, and steps from one token to the next.

ghost use Rattle.style_table.specs.Range.{IsInRange};

use crate::comparing::holds;
use line_state::{State, allowed, step};
use line_tokens::{Fixed, GapFacts, ItemKind, LineTok, Role, TokenId};
use std::process::Abort;
use style_table::Style;

/// A token of this role, depth and width, behind a blank. An operator binds as `||` does.
pub fn token(role: Role, depth: u32, width: u32) -> LineTok {
    LineTok {
        id: TokenId(0),
        role,
        power: 4,
        depth,
        trailing_list: false,
        held: false,
        touch: true,
        directive: false,
        gap: GapFacts {
            lines: 0,
            empty: false,
            white: true,
            splice: false,
            began: false,
        },
        kind: ItemKind::Identifier,
        rows: 1,
        first_width: width,
        last_width: width,
    }
}

/// The state behind a token, where the gap before it may break so.
pub fn step_by(
    rt: &impl Abort,
    style: &Style,
    state: &State,
    left: &LineTok,
    right: &LineTok,
    fixed: Option<Fixed>,
    brk: bool,
) -> Option<State>
    requires { IsInRange style.now }
{
    if !allowed(style, state, left, right, fixed, brk) {
        return None;
    }
    let most = u128::from(state.index) * 18_446_744_073_709_551_615;
    holds(rt, "few tokens", state.index < 4_294_967_295);
    holds(rt, "a cost of these tokens", state.cost <= most);
    Some(step(style, state, left, right, fixed, brk).expect(rt, "a state"))
}
