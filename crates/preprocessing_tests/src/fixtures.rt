//! Tokens, macros and texts, where there is memory enough.

use pp_events::{ItemKind, Macro, Part, PpToken, Tok};
use std::alloc::Global;
use std::collections::VecDeque;
use std::process::Abort;

/// Puts a text behind another.
pub fn push(rt: &impl Abort, out: &mut String, text: &str) {
    out.push_str(text).expect(rt, "memory");
}

/// A copy of these bytes.
pub fn copy(rt: &impl Abort, alloc: Global, bytes: &[u8]) -> Vec<u8> {
    bytes.to_vec(alloc).expect(rt, "memory")
}

/// An item of these bytes.
pub fn plain(rt: &impl Abort, alloc: Global, text: &[u8]) -> PpToken {
    PpToken::Plain {
        text: copy(rt, alloc, text),
    }
}

/// The kind of a word, of a number or of a punctuator.
fn kind_of(text: &[u8]) -> ItemKind {
    match text.first() {
        Some(b'a'..=b'z' | b'A'..=b'Z' | b'_') => ItemKind::Identifier,
        Some(b'0'..=b'9') => ItemKind::Number,
        _ => ItemKind::Punct,
    }
}

/// A token with white space before it.
pub fn token(rt: &impl Abort, alloc: Global, text: &str) -> Tok {
    Tok {
        token: plain(rt, alloc, text.as_bytes()),
        kind: kind_of(text.as_bytes()),
        hide: Vec::new(alloc),
        white: true,
        line: 1,
    }
}

/// The tokens of a text with white space between them.
pub fn tokens(rt: &impl Abort, alloc: Global, text: &str) -> VecDeque<Tok> {
    let mut out = VecDeque::new(alloc);
    for word in text.split_whitespace() {
        out.push_back(token(rt, alloc, word)).expect(rt, "memory");
    }
    out
}

/// A table with one object-like macro.
pub fn table_with(rt: &impl Abort, alloc: Global, name: &[u8], body: Vec<Part>) -> Vec<Macro> {
    let mut table = Vec::new(alloc);
    let made = Macro {
        name: copy(rt, alloc, name),
        function_like: false,
        arity: 0,
        variadic: false,
        body,
    };
    table.push(made).expect(rt, "memory");
    table
}
