//! Where rows may end and what that costs, as `docs/PROFILE.md` says under "Breaks".

use crate::comparing::same;
use crate::fixtures::style;
use crate::token_fixtures::token;
use layout_tables::{GapRule, gap_rule};
use line_tokens::Role;

/// What a break costs.
#[derive(Clone, Copy)]
enum Price {
    /// It may be, at this cost.
    Free(u64),
    /// It may not be.
    Never,
    /// It must be.
    Must,
}

/// The rule of a gap whose break has this price.
fn rule(price: Price) -> GapRule {
    let (can, must, cost) = match price {
        Price::Free(cost) => (true, false, cost),
        Price::Never => (false, false, 0),
        Price::Must => (true, true, 0),
    };
    GapRule { can, must, cost }
}

/// Two tokens, the depth of the second, and what a break between them costs.
const GAPS: &[(&str, Role, Role, u32, Price)] = &[
    ("f(|a", Role::CallOpen, Role::Word, 1, Price::Free(19)),
    ("f(g(|a", Role::CallOpen, Role::Word, 2, Price::Free(39)),
    ("f(a,|b", Role::Comma, Role::Word, 1, Price::Free(1)),
    ("f(a|,", Role::Word, Role::Comma, 1, Price::Never),
    ("{|a", Role::ListOpen, Role::Literal, 1, Price::Free(10)),
    ("x =|a", Role::Assign, Role::Word, 0, Price::Free(2)),
    ("x =|{", Role::Assign, Role::ListOpen, 0, Price::Never),
    ("a |||b", Role::Binary, Role::Word, 0, Price::Free(4)),
    ("int|f(", Role::Word, Role::DeclName, 0, Price::Free(60)),
    ("int|a", Role::Word, Role::Word, 0, Price::Never),
    ("a;|/* own */", Role::Semi, Role::Own, 0, Price::Must),
];

#[test]
fn prices_the_gaps_of_a_line(rt: HostRuntime) {
    let style = style(&rt, "LLVM");
    for case in GAPS {
        let (text, left, right, depth, price) = *case;
        let (left, right) = (token(left, 0, 1), token(right, depth, 1));
        same(&rt, text, gap_rule(&style, &left, &right), rule(price));
    }
}
