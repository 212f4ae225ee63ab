//! The named styles, and the values of keys.

use crate::comparing::same;
use crate::fixtures::style;
use std::process::Abort;
use style_table::{Key, Style, Value, ValueFault};

/// A name, and the column limit, the indentation and the penalty of a return type of that style.
const NAMED: &[(&str, (u32, u32, u32))] = &[
    ("LLVM", (80, 2, 60)),
    ("Google", (80, 2, 200)),
    ("WEBKIT", (0, 4, 60)),
    ("Mozilla", (80, 2, 200)),
    ("microsoft", (120, 4, 1000)),
];

#[test]
fn knows_five_names(rt: HostRuntime) {
    let rt = &rt;
    for case in NAMED {
        let (name, want) = *case;
        let style = style(rt, name);
        let penalty = style.penalty_return_type_on_its_own_line;
        let found = (style.column_limit, style.indent_width, penalty);
        same(rt, name, found, want);
    }
    let none = Style::named("LLVM ").is_none();
    same(rt, "a name with a blank", none, true);
}

/// A number or a word of a value; of the other it has nothing.
type Parts = (Option<u32>, Option<&'static str>);

/// A key behind its outer one, a text, and the value that it is.
const VALUES: &[(&str, &str, &str, Result<Parts, ValueFault>)] = &[
    ("", "TabWidth", "16", Ok((Some(16), None))),
    ("", "TabWidth", "0", Err(ValueFault::OutOfRange)),
    ("", "TabWidth", "17", Err(ValueFault::OutOfRange)),
    ("", "TabWidth", "eight", Err(ValueFault::BadValue)),
    ("", "TabWidth", "0000000008", Err(ValueFault::BadValue)),
    ("", "UseTab", "true", Ok((None, Some("Always")))),
    ("", "UseTab", "always", Err(ValueFault::BadValue)),
    (
        "BraceWrapping",
        "AfterEnum",
        "true",
        Ok((None, Some("true"))),
    ),
];

/// The value that a text is of a key.
fn value_of(rt: &impl Abort, key: Key, text: &str) -> Result<Parts, ValueFault> {
    let style = style(rt, "LLVM").with_value(key, text.as_bytes())?;
    Ok(match style.value(key) {
        Value::Number(number) => (Some(number), None),
        Value::Word(word) => (None, Some(word)),
    })
}

#[test]
fn reads_values(rt: HostRuntime) {
    let rt = &rt;
    for case in VALUES {
        let (outer, label, text, want) = *case;
        let key = Key::find(outer.as_bytes(), label.as_bytes()).expect(rt, label);
        same(rt, text, value_of(rt, key, text), want);
    }
    let found = Key::find(b"", b"AfterEnum");
    same(rt, "a key without its outer one", found.is_none(), true);
}
