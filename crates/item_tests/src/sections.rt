//! Texts and their sections, worked out by hand from C11 6.10.

ghost use Rattle.std.specs.Prelude.{◌≡◌};
ghost use Rattle.token_arena.specs.Sections.{sections_of};

use crate::comparing::same;
use crate::fixtures::store;
use bumpalo::Bump;
use token_arena::DirectiveKind::{Define, Else, Endif, If, Include, Null, Unknown};
use token_arena::{
    Dialect, Directive, Section, TokenArena, TokenId, begins_with, is_spelled, kept_after_name,
    sections,
};

/// The directive that begins a text with its `#`.
const FIRST: Directive = Directive {
    first: 0,
    hash: TokenId(0),
    end: 0,
    kind: Null,
    function_like: false,
};

/// A text and its sections.
const SECTIONS: &[(&str, &str, &[Section])] = &[
    ("no item", " \n", &[]),
    (
        "a comment before the #",
        "/* c */ #define X (a)",
        &[Section::Dir(Directive {
            hash: TokenId(1),
            end: 7,
            kind: Define,
            ..FIRST
        })],
    ),
    (
        "parameters, 6.10.3p10",
        "#define F(x) x",
        &[Section::Dir(Directive {
            end: 7,
            kind: Define,
            function_like: true,
            ..FIRST
        })],
    ),
    (
        "parameters behind a splice",
        "#define F\\\n(x) x",
        &[Section::Dir(Directive {
            end: 7,
            kind: Define,
            function_like: true,
            ..FIRST
        })],
    ),
    (
        "no parameters behind a comment",
        "#define F/**/(x)",
        &[Section::Dir(Directive {
            end: 7,
            kind: Define,
            ..FIRST
        })],
    ),
    (
        "a digraph of #",
        "%:include <a.h>",
        &[Section::Dir(Directive {
            end: 3,
            kind: Include,
            ..FIRST
        })],
    ),
    (
        "a trigraph of #",
        "??=if 1",
        &[Section::Dir(Directive {
            end: 3,
            kind: If,
            ..FIRST
        })],
    ),
    (
        "a null directive, 6.10.7",
        "#",
        &[Section::Dir(Directive {
            end: 1,
            kind: Null,
            ..FIRST
        })],
    ),
    (
        "no name",
        "# 33 \"f\"",
        &[Section::Dir(Directive {
            end: 3,
            kind: Unknown,
            ..FIRST
        })],
    ),
    (
        "a # further on",
        "int x; #y",
        &[Section::Text { first: 0, end: 5 }],
    ),
    (
        "directives alone",
        "#if A\n#else\n#endif",
        &[
            Section::Dir(Directive {
                end: 3,
                kind: If,
                ..FIRST
            }),
            Section::Dir(Directive {
                first: 3,
                hash: TokenId(3),
                end: 5,
                kind: Else,
                ..FIRST
            }),
            Section::Dir(Directive {
                first: 5,
                hash: TokenId(5),
                end: 7,
                kind: Endif,
                ..FIRST
            }),
        ],
    ),
    (
        "texts around a directive",
        "a\n#if __has_include(<x>)\nb\nc",
        &[
            Section::Text { first: 0, end: 1 },
            Section::Dir(Directive {
                first: 1,
                hash: TokenId(1),
                end: 9,
                kind: If,
                ..FIRST
            }),
            Section::Text { first: 9, end: 11 },
        ],
    ),
];

#[test]
fn cuts_texts_into_sections(rt: HostRuntime) {
    let rt = &rt;
    let bump = Bump::new(rt.alloc());
    for case in SECTIONS {
        let (name, text, expected) = *case;
        let arena = store(rt, &bump, text.as_bytes());
        let cut = sections(&arena, &bump).expect(rt, name);
        same(rt, name, cut, expected);
    }
}

/// Whether the gaps behind the name of the directive that begins the text are kept.
fn first_is_kept(arena: &TokenArena<'_, '_>, sections: &[Section]) -> bool
    requires { sections.now ≡ sections_of arena.now }
{
    match sections {
        [Section::Dir(directive), ..] => kept_after_name(arena, directive),
        _ => false,
    }
}

/// A text, and whether the gaps behind the name of the directive that begins it are kept.
const BEHIND_NAMES: &[(&str, bool)] = &[
    ("#include <a.h>", false),
    ("#include /* c */ \"a.h\" // d", false),
    ("#include NAME", true),
    ("#include <a.h> x", true),
    ("#include", true),
    ("#pragma once", true),
    ("#error x", true),
    ("#line 3", true),
    ("# 33 \"f\"", true),
    ("#ifdef __has_include", true),
    ("#elif 1 && __ha\\\ns_embed(<x>)", true),
    ("#if __has", false),
    ("#if A /* __has_include */", false),
    ("#define __has_x 1", false),
    ("#undef  X", false),
    ("#", false),
];

/// Each case is named by its text.
#[test]
fn keeps_gaps_behind_names(rt: HostRuntime) {
    let rt = &rt;
    let bump = Bump::new(rt.alloc());
    for case in BEHIND_NAMES {
        let (text, kept) = *case;
        let arena = store(rt, &bump, text.as_bytes());
        let cut = sections(&arena, &bump).expect(rt, text);
        same(rt, text, first_is_kept(&arena, cut), kept);
    }
}

/// The bytes of an item, a word, and whether the item is spelled so.
const SPELLED: &[(&str, Dialect, &str, &str, bool)] = &[
    ("itself", Dialect::C11, "#", "#", true),
    ("a trigraph", Dialect::C11, "??=", "#", true),
    ("no trigraph in C23", Dialect::C23, "??=", "#", false),
    ("a spliced digraph", Dialect::C11, "%\\\n:", "%:", true),
    ("two splices", Dialect::C11, "i\\\r\n\\\nf", "if", true),
    (
        "a splice by a trigraph",
        Dialect::C11,
        "i??/\nf",
        "if",
        true,
    ),
    (
        "no such splice in C23",
        Dialect::C23,
        "i??/\nf",
        "if",
        false,
    ),
    ("a longer word", Dialect::C11, "ifdef", "if", false),
    ("a shorter word", Dialect::C11, "i", "if", false),
    (
        "a mark within a text",
        Dialect::C11,
        "\u{feff}x",
        "x",
        false,
    ),
    (
        "a mark that is spelled",
        Dialect::C11,
        "\u{feff}x",
        "\u{feff}x",
        true,
    ),
];

#[test]
fn reads_how_items_are_spelled(rt: HostRuntime) {
    for case in SPELLED {
        let (name, dialect, raw, word, expected) = *case;
        let spelled = is_spelled(dialect, raw.as_bytes(), word.as_bytes());
        same(&rt, name, spelled, expected);
    }
}

/// The bytes of an item, and whether its spelling begins with `__has_`.
const BEGUN: &[(&str, &str, bool)] = &[
    ("a longer word", "__ha\\\ns_x", true),
    ("itself", "__has_", true),
    ("a shorter word", "__has", false),
];

#[test]
fn reads_how_items_begin(rt: HostRuntime) {
    for case in BEGUN {
        let (name, raw, expected) = *case;
        let begins = begins_with(Dialect::C11, raw.as_bytes(), b"__has_");
        same(&rt, name, begins, expected);
    }
}
