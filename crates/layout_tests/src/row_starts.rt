//! Rows of lines under the named styles, as `docs/PROFILE.md` says under "Rows of lines".

use crate::comparing::same;
use crate::fixtures::style;
use crate::token_fixtures::token;
use layout_tables::{empty_lines, start_column};
use line_tokens::{LineKind, LineTok, Role, TokenId, ULine};
use std::process::Abort;

/// A token with this number and so many new-lines before it.
fn token_behind(id: u32, role: Role, lines: u32) -> LineTok {
    let mut token = token(role, 0, 1);
    token.id = TokenId(id);
    token.gap.lines = lines;
    token.gap.began = lines > 0;
    token
}

/// A line of this kind and level.
fn line(kind: LineKind, level: u32) -> ULine {
    ULine {
        first: 0,
        last: 0,
        level,
        kind,
    }
}

/// A style, a level and its column.
const LEVELS: &[(&str, u32, u32)] = &[("LLVM", 3, 6), ("WebKit", 2, 8), ("LLVM", 0, 0)];

#[test]
fn starts_at_the_level(rt: HostRuntime) {
    for (name, level, column) in LEVELS {
        let line = line(LineKind::Simple, *level);
        let found = start_column(&style(&rt, name), &line);
        same(&rt, name, (*level, found), (*level, *column));
    }
}

/// The first token of a line, behind so many new-lines, and the empty lines that stay before it.
struct Start {
    name: &'static str,
    style: &'static str,
    before: Option<Role>,
    kind: LineKind,
    id: u32,
    role: Role,
    lines: u32,
    empty: u32,
}

/// A line within a block.
const WITHIN: Start = Start {
    name: "two",
    style: "LLVM",
    before: Some(Role::Word),
    kind: LineKind::Simple,
    id: 5,
    role: Role::Word,
    lines: 3,
    empty: 1,
};

const STARTS: &[Start] = &[
    WITHIN,
    Start {
        name: "one",
        lines: 2,
        ..WITHIN
    },
    Start {
        name: "none",
        lines: 1,
        empty: 0,
        ..WITHIN
    },
    Start {
        name: "no new-line",
        lines: 0,
        empty: 0,
        ..WITHIN
    },
    Start {
        name: "the file's start",
        before: None,
        id: 0,
        empty: 0,
        ..WITHIN
    },
    Start {
        name: "behind directives",
        before: None,
        id: 9,
        ..WITHIN
    },
    Start {
        name: "before a brace",
        kind: LineKind::Close,
        role: Role::BlockClose,
        empty: 0,
        ..WITHIN
    },
    Start {
        name: "behind a brace",
        before: Some(Role::BlockOpen),
        ..WITHIN
    },
    Start {
        name: "behind a brace, Google",
        style: "Google",
        before: Some(Role::BlockOpen),
        empty: 0,
        ..WITHIN
    },
];

/// How many empty lines stay before the first token of a line.
fn empty_lines_of(rt: &impl Abort, start: &Start) -> u32 {
    let style = style(rt, start.style);
    let line = line(start.kind, 1);
    let first = token_behind(start.id, start.role, start.lines);
    match start.before {
        Some(role) => empty_lines(&style, Some(&token(role, 0, 1)), &line, &first),
        None => empty_lines(&style, None, &line, &first),
    }
}

#[test]
fn keeps_few_empty_lines(rt: HostRuntime) {
    for start in STARTS {
        same(&rt, start.name, empty_lines_of(&rt, start), start.empty);
    }
}
