//! Texts and their events, by the examples of C11 6.10.3 and by its rules of conditionals, includes and lines.

use crate::comparing::same;
use crate::fixtures::{copy, plain, push};
use pp_directives::{Condition, Event, IncludeText, Setting};
use pp_events::{PpToken, Spaced, spelling_of};
use pp_text::{Dialect, events};
use std::alloc::Global;
use std::process::Abort;
use std::str::from_utf8;

/// A spelling as a text.
fn spelled(token: &PpToken) -> &str {
    from_utf8(spelling_of(token)).unwrap_or("?")
}

/// A string that `#` made: its tokens, a blank where white space stands before one.
fn show_string(rt: &impl Abort, out: &mut String, parts: &Vec<Spaced>) {
    push(rt, out, "str<");
    for part in parts {
        push(rt, out, if part.white { " " } else { "" });
        push(rt, out, spelled(&part.token));
    }
    push(rt, out, ">");
}

/// A token: its spelling, `line 7` of a line's number, and `str<x>` of a string that `#` made.
fn show_token(rt: &impl Abort, out: &mut String, token: &PpToken) {
    match token {
        PpToken::Plain { .. } => push(rt, out, spelled(token)),
        PpToken::Line { number } => write!(out, "line {number}").expect(rt, "memory"),
        PpToken::Str { parts } => show_string(rt, out, &parts.items),
        PpToken::Pasted { .. } => push(rt, out, "pasted"),
    }
}

/// Tokens behind a word, in brackets.
fn show_tokens(rt: &impl Abort, out: &mut String, word: &str, tokens: &Vec<PpToken>) {
    push(rt, out, word);
    push(rt, out, "[");
    for token in tokens {
        push(rt, out, " ");
        show_token(rt, out, token);
    }
    push(rt, out, " ]");
}

/// An event: a token as it is, and every other one by a word in capital letters.
fn show_event(rt: &impl Abort, out: &mut String, event: &Event) {
    match event {
        Event::Token(token) => show_token(rt, out, token),
        Event::Pragma(tokens) => show_tokens(rt, out, "PRAGMA", tokens),
        Event::Line(tokens) => show_tokens(rt, out, "LINE", tokens),
        Event::Error(tokens) => show_tokens(rt, out, "ERROR", tokens),
        Event::Warning(tokens) => show_tokens(rt, out, "WARNING", tokens),
        Event::Embed(tokens) => show_tokens(rt, out, "EMBED", tokens),
        Event::IncludeNotFound => push(rt, out, "NOTFOUND"),
        Event::Malformed(tokens) => show_tokens(rt, out, "MALFORMED", tokens),
        Event::Unlexed => push(rt, out, "UNLEXED"),
        Event::TurnsSpent => push(rt, out, "SPENT"),
    }
}

/// Events in order, a blank behind each.
fn show_events(rt: &impl Abort, alloc: Global, found: &Vec<Event>) -> String {
    let mut out = String::new(alloc);
    for event in found {
        show_event(rt, &mut out, event);
        push(rt, &mut out, " ");
    }
    out
}

/// Items.
fn key_of(rt: &impl Abort, alloc: Global, texts: &[&[u8]]) -> Vec<PpToken> {
    let mut key = Vec::new(alloc);
    for text in texts {
        key.push(plain(rt, alloc, text)).expect(rt, "memory");
    }
    key
}

/// The conditions that hold.
const HOLDING: &[&[&[u8]]] = &[&[b"1"], &[b"2", b">", b"1"], &[b"1", b"&&", b"0"]];

/// These conditions, and no other.
fn conditions(rt: &impl Abort, alloc: Global) -> Vec<Condition> {
    let mut made = Vec::new(alloc);
    for texts in HOLDING {
        let condition = Condition {
            key: key_of(rt, alloc, texts),
            holds: true,
        };
        made.push(condition).expect(rt, "memory");
    }
    made
}

/// An include of `"a.h"` finds these bytes.
fn includes(rt: &impl Abort, alloc: Global, bytes: &[u8]) -> Vec<IncludeText> {
    let mut made = Vec::new(alloc);
    let text = IncludeText {
        key: key_of(rt, alloc, &[b"\"a.h\""]),
        bytes: copy(rt, alloc, bytes),
    };
    made.push(text).expect(rt, "memory");
    made
}

/// What a text is told in: the bytes of `a.h`, how deep includes go, and the turns.
#[derive(Clone, Copy)]
struct Within {
    header: &'static [u8],
    depth: u64,
    turns: u64,
}

/// No header is found, and so many turns are there.
fn turning(turns: u64) -> Within {
    Within {
        header: b"",
        depth: 0,
        turns,
    }
}

/// A setting of it.
fn setting(rt: &impl Abort, alloc: Global, within: Within) -> Setting {
    Setting {
        macros: Vec::new(alloc),
        includes: includes(rt, alloc, within.header),
        conditions: conditions(rt, alloc),
        depth: within.depth,
        turns: within.turns,
    }
}

/// The text has these events.
fn has_events(
    rt: &impl Abort,
    alloc: Global,
    within: Within,
    name: &str,
    text: &[u8],
    expected: &str,
) {
    let setting = setting(rt, alloc, within);
    let told = events(alloc, Dialect::C11, &setting, text).expect(rt, name);
    same(rt, name, show_events(rt, alloc, &told).as_str(), expected);
}

/// The examples of 6.10.3, and their events.
const EXAMPLES: &[(&str, &[u8], &str)] = &[
    (
        "6.10.3.3 EXAMPLE: a string of a paste",
        b"#define hash_hash # ## #\n#define mkstr(a) # a\n#define in_between(a) mkstr(a)\n\
              #define join(c, d) in_between(c hash_hash d)\nchar p[] = join(x, y);\n",
        "char p [ ] = str<x ## y> ; ",
    ),
    (
        "6.10.3.5 EXAMPLE 3: rescanning",
        b"#define x 3\n#define f(a) f(x * (a))\n#undef x\n#define x 2\n#define g f\n#define z z[0]\n\
              #define h g(~\n#define m(a) a(w)\n#define w 0,1\n#define t(a) a\n#define p() int\n\
              f(y+1) + f(f(z)) % t(t(g)(0) + t)(1);\ng(x+(3,4)-w) | h 5) & m\n(f)^m(m);\n",
        "f ( 2 * ( y + 1 ) ) + f ( 2 * ( f ( 2 * ( z [ 0 ] ) ) ) ) % f ( 2 * ( 0 ) ) + t ( 1 ) ; \
             f ( 2 * ( 2 + ( 3 , 4 ) - 0 , 1 ) ) | f ( 2 * ( ~ 5 ) ) & f ( 2 * ( 0 , 1 ) ) ^ m ( 0 , 1 ) ; ",
    ),
    (
        "6.10.3.5 EXAMPLE 3: empty arguments",
        b"#define p() int\n#define q(x) x\n#define r(x,y) x ## y\n#define str(x) # x\n\
              p() i[q()] = { q(1), r(2,3), r(4,), r(,5), r(,) };\nchar c[2][6] = { str(hello), str() };\n",
        "int i [ ] = { 1 , 23 , 4 , 5 , } ; char c [ 2 ] [ 6 ] = { str<hello> , str<> } ; ",
    ),
    (
        "6.10.3.5 EXAMPLE 4: strings and pastes",
        b"#define str(s) # s\n#define xstr(s) str(s)\n\
              #define debug(s, t) printf(\"x\" # s \"= %d, x\" # t \"= %s\", \\\n x ## s, x ## t)\n\
              #define INCFILE(n) vers ## n\n#define glue(a, b) a ## b\n#define xglue(a, b) glue(a, b)\n\
              #define HIGHLOW \"hello\"\n#define LOW LOW \", world\"\n\
              debug(1, 2);\nfputs(str(strncmp(\"abc\\0d\", \"abc\", '\\4') // this goes away\n == 0) str(: @\\n), s);\n\
              #include xstr(INCFILE(2).h)\nglue(HIGH, LOW);\nxglue(HIGH, LOW)\n",
        "printf ( \"x\" str<1> \"= %d, x\" str<2> \"= %s\" , x1 , x2 ) ; \
             fputs ( str<strncmp(\"abc\\0d\", \"abc\", '\\4') == 0> str<: @\\n> , s ) ; NOTFOUND \
             \"hello\" ; \"hello\" \", world\" ",
    ),
    (
        "6.10.3.5 EXAMPLE 5: placemarkers",
        b"#define t(x,y,z) x ## y ## z\nint j[] = { t(1,2,3), t(,4,5), t(6,,7), t(8,9,),\n\
              t(10,,), t(,11,), t(,,12), t(,,) };\n",
        "int j [ ] = { 123 , 45 , 67 , 89 , 10 , 11 , 12 , } ; ",
    ),
    (
        "6.10.3.5 EXAMPLE 6: redefinitions",
        b"#define OBJ_LIKE (1-1)\n#define OBJ_LIKE /* white space */ (1-1) /* other */\n\
              #define FUNC_LIKE(a)   ( a )\n\
              #define FUNC_LIKE( a )( /* note the white space */ \\\n a /* other stuff on this line\n */ )\n\
              OBJ_LIKE FUNC_LIKE(b)\n",
        "( 1 - 1 ) ( b ) ",
    ),
    (
        "6.10.3.5 EXAMPLE 7: variadic macros",
        b"#define debug(...) fprintf(stderr, __VA_ARGS__)\n#define showlist(...) puts(#__VA_ARGS__)\n\
              #define report(test, ...) ((test)?puts(#test):\\\n printf(__VA_ARGS__))\n\
              debug(\"Flag\");\ndebug(\"X = %d\\n\", x);\nshowlist(The first, second, and third items.);\n\
              report(x>y, \"x is %d but y is %d\", x, y);\n",
        "fprintf ( stderr , \"Flag\" ) ; fprintf ( stderr , \"X = %d\\n\" , x ) ; \
             puts ( str<The first, second, and third items.> ) ; \
             ( ( x > y ) ? puts ( str<x>y> ) : printf ( \"x is %d but y is %d\" , x , y ) ) ; ",
    ),
];

/// Texts with conditionals, and their events.
const CONDITIONALS: &[(&str, &[u8], &str)] = &[
    (
        "a condition is expanded, 6.10.1p4",
        b"#define A 2\n#if A > 1\nx\n#else\ny\n#endif\nz",
        "x z ",
    ),
    (
        "a condition that the setting doesn't have",
        b"#if A > 1\nx\n#else\ny\n#endif",
        "y ",
    ),
    (
        "defined is answered first, 6.10.1p1",
        b"#define A\n#if defined A && defined(B)\nx\n#endif",
        "x ",
    ),
    (
        "the first group that holds, 6.10.1p6",
        b"#if 0\na\n#elif 1\nb\n#elif 1\nc\n#else\nd\n#endif",
        "b ",
    ),
    (
        "a skipped group acts on nothing, 6.10.1p6",
        b"#if 0\n#define A b\n#error e\n#include <n>\n#if 1\nc\n#endif\n#else\nA\n#endif",
        "A ",
    ),
    (
        "ifdef and ifndef, 6.10.1p5",
        b"#define A\n#ifdef A\nx\n#endif\n#ifndef A\ny\n#endif",
        "x ",
    ),
    (
        "a conditional doesn't cut a call, 6.10.3p11",
        b"#define f(x) [x]\nf(\n#if 1\na\n#else\nb\n#endif\n)",
        "[ a ] ",
    ),
    (
        "conditionals that don't match, 6.10p1",
        b"#endif\n#if 1\nx",
        "MALFORMED[ ] x MALFORMED[ ] ",
    ),
];

/// The bytes of `a.h`, how deep includes go, a text and its events.
const INCLUDES: &[(&str, &[u8], u64, &[u8], &str)] = &[
    (
        "an included text that defines a macro",
        b"#define A b\nc\n",
        1,
        b"A\n#include \"a.h\"\nA",
        "A c b ",
    ),
    (
        "an operand is expanded, 6.10.2p4",
        b"c",
        1,
        b"#define A \"a.h\"\n#include A\nd",
        "c d ",
    ),
    (
        "no depth is left",
        b"c",
        0,
        b"a\n#include \"a.h\"\nd",
        "a NOTFOUND d ",
    ),
    (
        "a text that includes itself",
        b"c\n#include \"a.h\"\nd\n",
        2,
        b"#include \"a.h\"",
        "c c NOTFOUND d d ",
    ),
    ("another text", b"c", 1, b"#include <a.h>\nd", "NOTFOUND d "),
    (
        "a skipped include",
        b"c",
        1,
        b"#if 0\n#include \"a.h\"\n#endif\nd",
        "d ",
    ),
    (
        "conditionals end with their text, 6.10p1",
        b"#if 0\n",
        1,
        b"#if 1\n#include \"a.h\"\nx\n#else\ny\n#endif",
        "MALFORMED[ ] x ",
    ),
    (
        "an included text ends no conditional around it",
        b"#endif\n",
        1,
        b"#if 1\n#include \"a.h\"\n#else\nx\n#endif\ny",
        "MALFORMED[ ] y ",
    ),
    (
        "a call doesn't go past the end of a text",
        b"f",
        1,
        b"#define f(x) [x]\n#include \"a.h\"\n(1)",
        "f ( 1 ) ",
    ),
    (
        "each text has its own lines, 6.10.4",
        b"#line 50\n__LINE__\n",
        1,
        b"\n#include \"a.h\"\n__LINE__",
        "LINE[ 50 ] line 50 line 3 ",
    ),
    (
        "an included text that doesn't lex",
        b"/*",
        1,
        b"#include \"a.h\"\nx",
        "UNLEXED x ",
    ),
];

#[test]
fn reads_included_texts(rt: HostRuntime) {
    for case in INCLUDES {
        let (name, header, depth, text, expected) = *case;
        let within = Within {
            header,
            depth,
            turns: 10000,
        };
        has_events(&rt, rt.alloc(), within, name, text, expected);
    }
}

/// Texts with lines and other directives, and their events.
const LINES: &[(&str, &[u8], &str)] = &[
    ("no text", b"", ""),
    (
        "physical lines, 6.10.8.1",
        b"__LINE__\n\n__LINE__",
        "line 1 line 3 ",
    ),
    (
        "lines behind a line directive, 6.10.4p3",
        b"\n#line 40\n__LINE__\n\n__LINE__",
        "LINE[ 40 ] line 40 line 42 ",
    ),
    (
        "lines behind the greatest number, 6.10.4p3",
        b"#line 2147483647\n__LINE__\n__LINE__",
        "LINE[ 2147483647 ] line 2147483647 line 2147483648 ",
    ),
    (
        "a number that no line may have, 6.10.4p3",
        b"#line 2147483648\n__LINE__",
        "LINE[ 2147483648 ] line 2 ",
    ),
    (
        "an operand is expanded, 6.10.4p5",
        b"#define N 7\n#line N \"f\"\n__LINE__",
        "LINE[ 7 \"f\" ] line 7 ",
    ),
    (
        "directives that are left to the compiler",
        b"#pragma p q\n#error e\n#\n#name x",
        "PRAGMA[ p q ] ERROR[ e ] MALFORMED[ name x ] ",
    ),
    (
        "a directive cuts a call",
        b"#define f(x) [x]\nf\n#pragma p\n(1)",
        "f PRAGMA[ p ] ( 1 ) ",
    ),
    ("a text that doesn't lex", b"x /*", "UNLEXED "),
];

#[test]
fn tells_the_events_of_texts(rt: HostRuntime) {
    for cases in [EXAMPLES, CONDITIONALS, LINES] {
        for (name, text, expected) in cases {
            has_events(&rt, rt.alloc(), turning(10000), name, text, expected);
        }
    }
}

/// The turns, a text and its events.
const TURNS: &[(&str, u64, &[u8], &str)] = &[
    ("a turn too few", 2, b"a b c", "SPENT "),
    ("a turn for each token", 3, b"a b c", "a b c "),
    (
        "a turn for each item, those of directives and of skipped groups among them",
        29,
        b"void g(void){\n#ifdef A\nif(x){\n#else\n  if (y){\n#endif\nf( );\n}\n}\n",
        "void g ( void ) { if ( y ) { f ( ) ; } } ",
    ),
];

#[test]
fn spends_turns(rt: HostRuntime) {
    for (name, turns, text, expected) in TURNS {
        has_events(&rt, rt.alloc(), turning(*turns), name, text, expected);
    }
}

/// A text, one of other white space, and the events of both; 6.10.3p10 looks at the white space before a `(`.
const FORMATTED: &[(&str, &[u8], &[u8], &str)] = &[
    (
        "a block that each branch opens",
        b"void g(void){\n#ifdef A\nif(x){\n#else\n  if (y){\n#endif\nf( );\n}\n}\n",
        b"void g(void) {\n#ifdef A\n  if (x) {\n#else\n  if (y) {\n#endif\n    f();\n  }\n}\n",
        "void g ( void ) { if ( y ) { f ( ) ; } } ",
    ),
    (
        "a parameter list behind a splice, 6.10.3p10",
        b"#define F\\\n(x) x\nF(a)\n",
        b"#define F(x) x\nF(a)\n",
        "a ",
    ),
    (
        "a body that begins with a bracket, 6.10.3p9",
        b"#define F (x)\n#define G(x) x\nF  G( b )\nF(a) G (c)\n",
        b"#define F (x)\n#define G(x) x\nF G(b) F(a) G(c)\n",
        "( x ) b ( x ) ( a ) c ",
    ),
    (
        "conditionals in a call, X not defined",
        b"f(a,\n#ifdef X\nb ,\n#else\nc ,\n#endif\nd);\n",
        b"f(a,\n#ifdef X\n  b,\n#else\n  c,\n#endif\n  d);\n",
        "f ( a , c , d ) ; ",
    ),
    (
        "conditionals in a call, X defined",
        b"#define X\nf(a,\n#ifdef X\nb ,\n#else\nc ,\n#endif\nd);\n",
        b"#define X\nf(a,\n#ifdef X\n  b,\n#else\n  c,\n#endif\n  d);\n",
        "f ( a , b , d ) ; ",
    ),
    (
        "conditionals among a macro's arguments, X not defined",
        b"#define f(p,q,r) r q p\nf(a,\n#ifdef X\nb ,\n#else\nc ,\n#endif\nd);\n",
        b"#define f(p, q, r) r q p\nf(a,\n#ifdef X\n  b,\n#else\n  c,\n#endif\n  d);\n",
        "d c a ; ",
    ),
    (
        "conditionals among a macro's arguments, X defined",
        b"#define X\n#define f(p,q,r) r q p\nf(a,\n#ifdef X\nb ,\n#else\nc ,\n#endif\nd);\n",
        b"#define X\n#define f(p, q, r) r q p\nf(a,\n#ifdef X\n  b,\n#else\n  c,\n#endif\n  d);\n",
        "d b a ; ",
    ),
    (
        "a call that isn't closed, and one of too few arguments, 6.10.3p4",
        b"#define f(p,q) q p\nf(a) f( a,b ) f (c",
        b"#define f(p, q) q p\nf(a) f(a, b) f(c",
        "f ( a ) b a f ( c ",
    ),
    (
        "operands of ## stay as written, 6.10.3.3p2, and others are expanded",
        b"#define X 1\n#define join(a,b) a##b b\njoin( X , X )\n",
        b"#define X 1\n#define join(a, b) a##b b\njoin(X, X)\n",
        "XX 1 ",
    ),
    (
        "white space in a string, 6.10.3.2p2",
        b"#define s(x) #x\ns(  a+b  - c )\n",
        b"#define s(x) #x\ns(a+b - c)\n",
        "str<a+b - c> ",
    ),
];

#[test]
fn tells_the_same_of_a_formatted_text(rt: HostRuntime) {
    for (name, text, formatted, expected) in FORMATTED {
        has_events(&rt, rt.alloc(), turning(100), name, text, expected);
        has_events(&rt, rt.alloc(), turning(100), name, formatted, expected);
    }
}
