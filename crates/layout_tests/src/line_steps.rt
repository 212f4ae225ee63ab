//! A worked line, token by token.

use crate::comparing::same;
use crate::fixtures::style;
use crate::token_fixtures::{step_by, token};
use line_state::{cells, start};
use line_tokens::Role;

/// A token by its role, depth and width, whether the gap before it breaks, and the column, the cost and the cells
/// behind it.
type Step = (Role, u32, u32, bool, u32, u128, u64);

/// A call that breaks behind its bracket.
const CALL: &[Step] = &[
    (Role::Word, 0, 40, true, 40, 0, 1),
    (Role::CallOpen, 0, 1, false, 41, 0, 2),
    (Role::Word, 1, 40, true, 44, 19, 2),
    (Role::Comma, 1, 1, false, 45, 19, 2),
    (Role::Word, 1, 30, false, 76, 19, 2),
    (Role::CallClose, 1, 1, false, 77, 19, 2),
    (Role::Semi, 0, 1, false, 78, 19, 1),
];

#[test]
fn walks_a_call(rt: HostRuntime) {
    let style = style(&rt, "LLVM");
    let mut state = start(rt.alloc(), &style, 0);
    let mut left = token(Role::Word, 0, 40);
    for (k, case) in CALL.iter().enumerate() {
        let (role, depth, width, brk, column, cost, count) = *case;
        let right = token(role, depth, width);
        let next = step_by(&rt, &style, &state, &left, &right, None, brk);
        same(
            &rt,
            "a gap that may break so",
            (k, next.is_some()),
            (k, true),
        );
        state = next.expect(&rt, "a state");
        let found = (k, state.column, state.cost, cells(&state));
        same(
            &rt,
            "the column, the cost, the cells",
            found,
            (k, column, cost, count),
        );
        left = right;
    }
}
