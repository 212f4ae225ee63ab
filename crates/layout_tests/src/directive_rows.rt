//! Directives as they are laid out.

ghost use Rattle.style_table.specs.Range.{IsInRange};

use crate::fixtures::{Output, WHOLE, is_written, items, open_plan, style};
use bumpalo::Bump;
use early_gaps::lay_all;
use item_classes::item_classes;
use std::alloc::Global;
use std::process::Abort;
use style_table::{AlignEscapedNewlines, IndentPPDirectives, Style};
use token_arena::sections;

/// What a row sets beside the LLVM style, 20 columns and backslashes that aren't aligned.
#[derive(Clone, Copy)]
enum Setting {
    /// Nothing.
    Plain,
    /// Backslashes stand behind the longest row.
    Left,
    /// Backslashes stand in the last column.
    Right,
    /// Names are indented behind the `#`.
    AfterHash,
    /// Each `#` is indented.
    BeforeHash,
    /// Bodies of macros stay.
    SkipsBodies,
    /// Two blanks stand before a line comment.
    TwoBlanks,
}

/// Directives, and what becomes of them.
struct Row {
    name: &'static str,
    setting: Setting,
    input: &'static [u8],
    output: &'static [u8],
}

const ROWS: [Row; 39] = [
    Row {
        name: "a function-like macro",
        setting: Setting::Plain,
        input: b"#define  M( a,b )  x\n",
        output: b"#define M(a, b) x\n",
    },
    Row {
        name: "an object-like macro whose body begins with a parenthesis",
        setting: Setting::Plain,
        input: b"#define F   (x)\n",
        output: b"#define F (x)\n",
    },
    Row {
        name: "a splice between a function-like macro and its parameters",
        setting: Setting::Plain,
        input: b"#define F\\\n(x)  y\n",
        output: b"#define F(x) y\n",
    },
    Row {
        name: "a splice and a blank there",
        setting: Setting::Plain,
        input: b"#define F\\\n (x)\n",
        output: b"#define F \\\n  (x)\n",
    },
    Row {
        name: "a header name directly behind its directive",
        setting: Setting::Plain,
        input: b"# include<a>\n",
        output: b"#include <a>\n",
    },
    Row {
        name: "comments between all items of a head",
        setting: Setting::Plain,
        input: b"/* c */#/**/define/* d */F/**/(x)\n",
        output: b"/* c */ #/**/define /* d */F /**/ (x)\n",
    },
    Row {
        name: "a splice before a body",
        setting: Setting::Plain,
        input: b"#define M(x)   \\\ndo  x\n",
        output: b"#define M(x) \\\n  do x\n",
    },
    Row {
        name: "a splice that is all of a gap",
        setting: Setting::Plain,
        input: b"#define M x\\\n+\\\n\\\ny\n",
        output: b"#define M x \\\n  + \\\n  y\n",
    },
    Row {
        name: "rows in braces",
        setting: Setting::Plain,
        input: b"#define  A  {  \\\n a;\\\n}\n",
        output: b"#define A { \\\n    a; \\\n  }\n",
    },
    Row {
        name: "a definition that names no macro",
        setting: Setting::Plain,
        input: b"#define  3   4\n",
        output: b"#define 3 4\n",
    },
    Row {
        name: "a line comment behind a name",
        setting: Setting::Plain,
        input: b"#endif// c\n",
        output: b"#endif // c\n",
    },
    Row {
        name: "an operand that is kept",
        setting: Setting::Plain,
        input: b"  #  pragma  a  ( b )\n",
        output: b"#pragma  a  ( b )\n",
    },
    Row {
        name: "brackets that no header name stands in",
        setting: Setting::Plain,
        input: b"#include  <>\n",
        output: b"#include  <>\n",
    },
    Row {
        name: "the same, where none is read",
        setting: Setting::Plain,
        input: b"#define M  <>\n",
        output: b"#define M < >\n",
    },
    Row {
        name: "backslashes behind the longest row",
        setting: Setting::Left,
        input: b"#define M(x)\\\n do  x;\\\n y\n",
        output: b"#define M(x) \\\n  do x;      \\\n  y\n",
    },
    Row {
        name: "backslashes in the last column",
        setting: Setting::Right,
        input: b"#define A \\\nx  \\\ny\n",
        output: b"#define A          \\\n  x                \\\n  y\n",
    },
    Row {
        name: "a row past the last column",
        setting: Setting::Right,
        input: b"#define A b123456789012345678 \\\nx\n",
        output: b"#define A b123456789012345678 \\\n  x\n",
    },
    Row {
        name: "hashes that may not touch",
        setting: Setting::Plain,
        input: b"#  #\n",
        output: b"# #\n",
    },
    Row {
        name: "a body of a statement",
        setting: Setting::Plain,
        input: b"#define  M( a,b )  do{ a; \\\nb; }while(0)\n",
        output: b"#define M(a, b) do { a; \\\n    b; } while (0)\n",
    },
    Row {
        name: "a condition",
        setting: Setting::Plain,
        input: b"#if  defined( A )&&B\n",
        output: b"#if defined(A) && B\n",
    },
    Row {
        name: "a condition without its name's blank",
        setting: Setting::Plain,
        input: b"#if!A\n",
        output: b"#if !A\n",
    },
    Row {
        name: "a condition that asks for a file",
        setting: Setting::Plain,
        input: b"#if  __has_include( <sys/x.h> )\n",
        output: b"#if  __has_include( <sys/x.h> )\n",
    },
    Row {
        name: "an include that a macro names",
        setting: Setting::Plain,
        input: b"#include  DIR/x.h\n",
        output: b"#include  DIR/x.h\n",
    },
    Row {
        name: "a comment before a body",
        setting: Setting::Plain,
        input: b"#define X /**/1\n",
        output: b"#define X /**/ 1\n",
    },
    Row {
        name: "a comment as the only body",
        setting: Setting::TwoBlanks,
        input: b"#define F// c\n",
        output: b"#define F // c\n",
    },
    Row {
        name: "a comment behind a body",
        setting: Setting::TwoBlanks,
        input: b"#define F 1// c\n",
        output: b"#define F 1  // c\n",
    },
    Row {
        name: "a cast and a sign",
        setting: Setting::Plain,
        input: b"#define F(x) ((int)  -x*2)\n",
        output: b"#define F(x) ((int)-x * 2)\n",
    },
    Row {
        name: "brackets that a body leaves open",
        setting: Setting::Plain,
        input: b"#define OPEN  f( a,(b\n",
        output: b"#define OPEN f(a, (b\n",
    },
    Row {
        name: "names that are pasted",
        setting: Setting::Plain,
        input: b"#define F(a,b) a##b\n",
        output: b"#define F(a, b) a##b\n",
    },
    Row {
        name: "names that are pasted with blanks",
        setting: Setting::Plain,
        input: b"#define F(a,b) a  ##  b\n",
        output: b"#define F(a, b) a ## b\n",
    },
    Row {
        name: "a body that stays",
        setting: Setting::SkipsBodies,
        input: b"#define  M( a )   x  +  1 \\\n  y\n",
        output: b"#define M(a)   x  +  1 \\\n  y\n",
    },
    Row {
        name: "the body of a macro without parameters that stays",
        setting: Setting::SkipsBodies,
        input: b"# define  A   (b)  c\n",
        output: b"#define A   (b)  c\n",
    },
    Row {
        name: "a condition where bodies stay",
        setting: Setting::SkipsBodies,
        input: b"#if  A&&B\n",
        output: b"#if A && B\n",
    },
    Row {
        name: "names inside conditionals",
        setting: Setting::AfterHash,
        input: b"#if A\n#ifdef B\n#define X 1\n#else\n#define Y 2\n#endif\n#endif\n#define Z 3\n",
        output: b"#if A\n#  ifdef B\n#    define X 1\n#  else\n#    define Y 2\n#  endif\n#endif\n#define Z 3\n",
    },
    Row {
        name: "directives inside conditionals",
        setting: Setting::BeforeHash,
        input: b"#if A\n#ifdef B\n#define X 1\n#else\n#define Y 2\n#endif\n#endif\n#define Z 3\n",
        output: b"#if A\n  #ifdef B\n    #define X 1\n  #else\n    #define Y 2\n  #endif\n#endif\n#define Z 3\n",
    },
    Row {
        name: "branches and ends that have no effect",
        setting: Setting::AfterHash,
        input: b"#endif\n#else\n#if A\n#elif B\n#else\n#else\n#elif C\n#endif\n#endif\n",
        output: b"#endif\n#else\n#if A\n#elif B\n#else\n#  else\n#  elif C\n#endif\n#endif\n",
    },
    Row {
        name: "a literal zero",
        setting: Setting::BeforeHash,
        input: b"#if 0\n#if B\n#endif\n#endif\n",
        output: b"#if 0\n  #if B\n  #endif\n#endif\n",
    },
    Row {
        name: "empty lines between directives",
        setting: Setting::Plain,
        input: b"#define A\n\n\n#undef  A\n",
        output: b"#define A\n\n#undef A\n",
    },
    Row {
        name: "texts between directives",
        setting: Setting::Plain,
        input: b"#if  A\na;\n#endif\nb;\n",
        output: b"#if A\na;\n#endif\nb;\n",
    },
];

/// A style with what a row sets.
fn with_setting(mut style: Style, setting: Setting) -> Style
    requires { IsInRange style }
    ensures { IsInRange result }
{
    style.column_limit = 20;
    style.align_escaped_newlines = AlignEscapedNewlines::DontAlign;
    match setting {
        Setting::Plain => style,
        Setting::Left => {
            style.align_escaped_newlines = AlignEscapedNewlines::Left;
            style
        }
        Setting::Right => {
            style.align_escaped_newlines = AlignEscapedNewlines::Right;
            style
        }
        Setting::AfterHash => {
            style.indent_pp_directives = IndentPPDirectives::AfterHash;
            style
        }
        Setting::BeforeHash => {
            style.indent_pp_directives = IndentPPDirectives::BeforeHash;
            style
        }
        Setting::SkipsBodies => {
            style.skip_macro_definition_body = true;
            style
        }
        Setting::TwoBlanks => {
            style.spaces_before_trailing_comments = 2;
            style
        }
    }
}

/// The text of a row is this with its directives laid out; what they leave open keeps its bytes.
fn is_laid(rt: &impl Abort, alloc: Global, row: &Row, bump: &Bump) {
    let style = with_setting(style(rt, "LLVM"), row.setting);
    let arena = items(rt, row.input, bump);
    let sections = sections(&arena, bump).expect(rt, "sections");
    let mut plan = open_plan(rt, &arena, bump);
    let classes = item_classes(&arena, bump).expect(rt, "classes");
    lay_all(alloc, &style, &arena, classes, sections, &mut plan).expect(rt, "a plan");
    let output = Output {
        text: row.output,
        ..WHOLE
    };
    is_written(
        rt, alloc, row.name, &style, &arena, sections, &plan, &output,
    );
}

#[test]
fn lays_out_each_row(rt: HostRuntime) {
    let bump = Bump::new(rt.alloc());
    for row in &ROWS {
        is_laid(&rt, rt.alloc(), row, &bump);
    }
}
