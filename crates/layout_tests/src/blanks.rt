//! Blanks between two tokens of a row, as `docs/PROFILE.md` says under "Spaces without a break".

use crate::comparing::same;
use crate::fixtures::style;
use crate::token_fixtures::token;
use layout_tables::spaces_before;
use line_tokens::Role;

/// Two tokens, whether they may touch, and the blanks between them.
const GAPS: &[(&str, Role, Role, bool, u8)] = &[
    ("if (", Role::Word, Role::CtrlOpen, true, 1),
    ("f(", Role::Word, Role::CallOpen, true, 0),
    ("(a", Role::CallOpen, Role::Word, true, 0),
    ("a,", Role::Word, Role::Comma, true, 0),
    (", b", Role::Comma, Role::Word, true, 1),
    ("int *", Role::Word, Role::Pointer, true, 1),
    ("*p", Role::Pointer, Role::Word, true, 0),
    ("a +", Role::Word, Role::Binary, true, 1),
    ("+ -", Role::Binary, Role::Unary, true, 1),
    ("-b", Role::Unary, Role::Word, true, 0),
    ("- -", Role::Unary, Role::Unary, false, 1),
    ("{}", Role::BlockOpen, Role::BlockClose, true, 0),
    (") {", Role::CtrlClose, Role::BlockOpen, true, 1),
    ("p->", Role::Word, Role::Member, true, 0),
];

#[test]
fn spaces_a_line(rt: HostRuntime) {
    let style = style(&rt, "LLVM");
    for case in GAPS {
        let (text, left, right, touch, want) = *case;
        let mut right = token(right, 0, 1);
        right.touch = touch;
        let found = spaces_before(&style, &token(left, 0, 1), &right);
        same(&rt, text, found, want);
    }
}
