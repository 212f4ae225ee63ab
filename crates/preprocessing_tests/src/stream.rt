//! Texts and their sections, by C11 6.10.

use crate::comparing::same;
use crate::fixtures::push;
use pp_items::{Dialect, PpItem, PpSection, sections_of};
use std::alloc::Global;
use std::process::Abort;
use std::str::from_utf8;

/// An item: a blank where white space stands before it, its spelling and its line.
fn show_item(rt: &impl Abort, out: &mut String, item: &PpItem) {
    let blank = if item.white { " " } else { "" };
    let text = from_utf8(item.text.as_slice()).unwrap_or("?");
    let line = item.line;
    write!(out, "{blank}{text}@{line}").expect(rt, "memory");
}

/// A section without its items: its kind, `()` where it defines a function-like macro, and the line behind it.
fn show_head(rt: &impl Abort, out: &mut String, section: &PpSection) {
    let (kind, next) = (section.kind, section.next);
    let parameters = if section.function_like { "()" } else { "" };
    write!(out, "{kind:?}{parameters}/{next}").expect(rt, "memory");
}

/// Sections with their items.
fn shown(rt: &impl Abort, alloc: Global, sections: &Vec<PpSection>) -> String {
    let mut out = String::new(alloc);
    for section in sections {
        show_head(rt, &mut out, section);
        push(rt, &mut out, "[");
        for item in &section.items {
            show_item(rt, &mut out, item);
        }
        push(rt, &mut out, "]");
    }
    out
}

/// The text has these sections.
fn has_sections(
    rt: &impl Abort,
    alloc: Global,
    dialect: Dialect,
    name: &str,
    text: &[u8],
    expected: &str,
) {
    assert!(rt; text.len() < 1000);
    match sections_of(alloc, text, dialect).expect(rt, name) {
        Some(sections) => same(rt, name, shown(rt, alloc, &sections).as_str(), expected),
        None => same(rt, name, "no sections", expected),
    }
}

/// A text and its sections.
const SECTIONS: &[(&str, &[u8], &str)] = &[
    ("no item", b"", "Text/0[]"),
    ("a text", b"\n\nx y", "Text/0[ x@3 y@3]"),
    (
        "parameters directly behind the name, 6.10.3p10",
        b"#define F(x) x",
        "Text/0[]Define()/0[ F@1(@1x@1)@1 x@1]",
    ),
    (
        "parentheses behind white space, 6.10.3p10",
        b"#define F (x)\nF",
        "Text/0[]Define/2[ F@1 (@1x@1)@1]Text/0[ F@2]",
    ),
    (
        "parentheses behind a comment",
        b"#define F/**/(x)",
        "Text/0[]Define/0[ F@1 (@1x@1)@1]",
    ),
    (
        "parentheses behind a splice",
        b"#define F\\\n(x)",
        "Text/0[]Define()/0[ F@1(@2x@2)@2]",
    ),
    (
        "a digraph, 6.4.6p3",
        b"a\n%: undef A",
        "Text/0[a@1]Undef/0[ A@2]",
    ),
    (
        "a trigraph, 5.2.1.1",
        b"??=undef A",
        "Text/0[]Undef/0[ A@1]",
    ),
    (
        "a comment before the #",
        b"/* c */ # undef A",
        "Text/0[]Undef/0[ A@1]",
    ),
    (
        "a # further on",
        b"a # undef A",
        "Text/0[a@1 #@1 undef@1 A@1]",
    ),
    (
        "splices in a directive's name and behind it",
        b"#un\\\ndef \\\n A\nA",
        "Text/0[]Undef/4[ A@3]Text/0[ A@4]",
    ),
    (
        "a null directive, 6.10.7",
        b"#\nx",
        "Text/0[]Null/2[]Text/0[ x@2]",
    ),
    (
        "a directive with no name of 6.10p1",
        b"#warning x\n#1",
        "Text/0[]Unknown/2[warning@1 x@1]Unknown/0[1@2]",
    ),
    (
        "a line comment at the end",
        b"#undef A // a\nA // b",
        "Text/0[]Undef/2[ A@1]Text/0[ A@2]",
    ),
    (
        "a comment of several lines in a directive",
        b"#undef/*\n*/A\n\n/* c */x",
        "Text/0[]Undef/3[ A@2]Text/0[ x@4]",
    ),
    (
        "line ends of two bytes",
        b"#undef A\r\nx\r\ny",
        "Text/0[]Undef/2[ A@1]Text/0[ x@2 y@3]",
    ),
    (
        "a header name, 6.4.7",
        b"#include <a/*b.h>\n#if 0\n#endif",
        "Text/0[]Include/2[ <a/*b.h>@1]If/3[ 0@2]Endif/0[]",
    ),
    ("a comment without an end", b"#undef A /* ", "no sections"),
];

#[test]
fn cuts_texts_into_sections(rt: HostRuntime) {
    for (name, text, expected) in SECTIONS {
        has_sections(&rt, rt.alloc(), Dialect::C11, name, text, expected);
    }
}

/// A text, and its sections in C11 and in C23.
const EDITIONS: &[(&str, &[u8], &str, &str)] = &[
    (
        "a conditional of C23",
        b"#elifdef A",
        "Text/0[]Unknown/0[elifdef@1 A@1]",
        "Text/0[]Elifdef/0[ A@1]",
    ),
    (
        "a warning",
        b"#warning A",
        "Text/0[]Unknown/0[warning@1 A@1]",
        "Text/0[]Warning/0[ A@1]",
    ),
    (
        "a header name behind embed",
        b"#embed <a b>",
        "Text/0[]Unknown/0[embed@1 <@1a@1 b@1>@1]",
        "Text/0[]Embed/0[ <a b>@1]",
    ),
    (
        "a trigraph",
        b"??=undef A",
        "Text/0[]Undef/0[ A@1]",
        "Text/0[?@1?@1=@1undef@1 A@1]",
    ),
    (
        "names of both",
        b"#line 7\n#error e\n#pragma p",
        "Text/0[]LineNumber/2[ 7@1]Error/3[ e@2]Pragma/0[ p@3]",
        "Text/0[]LineNumber/2[ 7@1]Error/3[ e@2]Pragma/0[ p@3]",
    ),
];

#[test]
fn knows_the_names_of_each_edition(rt: HostRuntime) {
    for (name, text, older, newer) in EDITIONS {
        has_sections(&rt, rt.alloc(), Dialect::C11, name, text, older);
        has_sections(&rt, rt.alloc(), Dialect::C23, name, text, newer);
    }
}
