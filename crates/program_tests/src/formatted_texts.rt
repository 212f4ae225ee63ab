//! The rows of texts and their layout, in the LLVM style where a row names no other.

use crate::commands::{QUIET, Row};

/// Gaps, line ends and the byte order mark.
pub const GAPS: &[Row] = &[
    Row {
        name: "the empty text",
        input: b"",
        out: b"",
        ..QUIET
    },
    Row {
        name: "blanks and line ends alone",
        input: b"  \n \n",
        out: b"\n",
        ..QUIET
    },
    Row {
        name: "blanks alone",
        input: b"  \t ",
        out: b"",
        ..QUIET
    },
    Row {
        name: "first and last gaps",
        input: b" \n\t a\tb \n\n ",
        out: b"a b\n",
        ..QUIET
    },
    Row {
        name: "no last line end",
        input: b"a;  ",
        out: b"a;",
        ..QUIET
    },
    Row {
        name: "gaps of one blank, a tab, two blanks and none",
        input: b"a b\tc  d(e)f g;h i\t\n",
        out: b"a b c d(e) f g;\nh i\n",
        ..QUIET
    },
    Row {
        name: "empty lines",
        input: b"a;\n\n\n\nb;\n\n\nc;\nd;\n",
        out: b"a;\n\nb;\n\nc;\nd;\n",
        ..QUIET
    },
    Row {
        name: "splices between items",
        input: b"a \\\n b + \\\n\\\nc;\n",
        out: b"a b + c;\n",
        ..QUIET
    },
    Row {
        name: "splices behind semicolons",
        input: b"a b;\\\nc d \\\n e;\n",
        out: b"a b;\nc d e;\n",
        ..QUIET
    },
    Row {
        name: "more line ends with returns",
        input: b"int  a;\r\n/* x\ny */\r\nint b;\r\n",
        out: b"int a;\r\n/* x\ny */\r\nint b;\r\n",
        ..QUIET
    },
    Row {
        name: "as many line ends with returns",
        input: b"a;\r\nb;\n",
        out: b"a;\nb;\n",
        ..QUIET
    },
    Row {
        name: "a byte order mark",
        input: b"\xEF\xBB\xBFa  b",
        out: b"\xEF\xBB\xBFa b",
        ..QUIET
    },
    Row {
        name: "an item that would read as a mark",
        input: b"\t \xEF\xBB\xBFa",
        out: b" \xEF\xBB\xBFa",
        ..QUIET
    },
];

/// Items that stay apart, and those that take the rest of their line.
pub const ITEMS: &[Row] = &[
    Row {
        name: "blanks by roles",
        input: b"int*p,*q;\nx=(int)y*z;\n",
        out: b"int *p, *q;\nx = (int)y * z;\n",
        ..QUIET
    },
    Row {
        name: "numbers and words",
        input: b"{\n0x1e+1 .5.e-3 a1_ 1..2\n}",
        out: b"{\n  0x1e+1 .5.e-3 a1_ 1..2\n}",
        ..QUIET
    },
    Row {
        name: "comments between slashes",
        input: b"/ /**/ /x\n",
        out: b"/ /**/ / x\n",
        ..QUIET
    },
    Row {
        name: "a blank behind a comment's last backslash",
        input: b"// c \\ \nint  y;\n",
        out: b"// c \\ \nint y;\n",
        ..QUIET
    },
    Row {
        name: "a comment that ends in a backslash",
        input: b"// c\\\\\n\nx;\n",
        out: b"// c\\\\\n\nx;\n",
        ..QUIET
    },
    Row {
        name: "a comment that ends in a trigraph's backslash",
        input: b"// c??/\\\n\n  x;\n",
        out: b"// c??/\\\n\nx;\n",
        ..QUIET
    },
    Row {
        name: "a comment that ends in a return",
        input: b"// c \\\r\r\n  a;\nb;\n",
        out: b"// c \\\r\r\na;\nb;\n",
        ..QUIET
    },
    Row {
        name: "a comment over a trigraph's splice",
        input: b"int a; // x ??/\ny = 1;\nint b;\n",
        out: b"int a; // x ??/\ny = 1;\nint b;\n",
        ..QUIET
    },
    Row {
        name: "a backslash behind the last item",
        input: b"// c\\\\\n",
        out: b"// c\\\\\n",
        ..QUIET
    },
    Row {
        name: "a backslash by itself",
        input: b"a \\  \n\tb\n",
        out: b"a \\  \n\tb\n",
        ..QUIET
    },
    Row {
        name: "a backslash before a directive",
        input: b"a \\  \n\t#define X\n",
        out: b"a \\  \n\t#define X\n",
        ..QUIET
    },
];

/// Directives, and a `#` that begins none.
pub const DIRECTIVES: &[Row] = &[
    Row {
        name: "macros with and without parameters",
        input: b"#define F (x)\n#define G(x) x\n",
        out: b"#define F (x)\n#define G(x) x\n",
        ..QUIET
    },
    Row {
        name: "directives stay",
        input: b"#if  __has_include( <sys/x.h> )\n#include DIR/x.h\n#endif\n",
        out: b"#if  __has_include( <sys/x.h> )\n#include DIR/x.h\n#endif\n",
        ..QUIET
    },
    Row {
        name: "directives in braces",
        input: b"{\n#if X\na ;\n#endif\n}\n",
        out: b"{\n#if X\n  a;\n#endif\n}\n",
        ..QUIET
    },
    Row {
        name: "a directive that is indented and spliced",
        input: b"{\n\n\n  #define  X \\\n    1\nb;\n}",
        out: b"{\n\n#define X                                                                      \\\n  1\n  b;\n}",
        ..QUIET
    },
    Row {
        name: "braces of directives",
        input: b"#define B {\nx;\n#define E }\ny;\n",
        out: b"#define B {\nx;\n#define E }\ny;\n",
        ..QUIET
    },
    Row {
        name: "a comment that begins the line of a directive",
        input: b"{\n  /* c */   #  define X   1\n  /* c */  x\n}\n",
        out: b"{\n/* c */ #define X 1\n  /* c */\n  x\n}\n",
        ..QUIET
    },
    Row {
        name: "a hash that begins no directive",
        input: b"a#b\n",
        out: b"a #b\n",
        ..QUIET
    },
    Row {
        name: "comments before a hash that begins no directive",
        input: b"a/**//**/#b/**//**/c\n",
        out: b"a /**/ /**/ #b/**//**/c\n",
        ..QUIET
    },
    Row {
        name: "a comment of several rows before a hash",
        input: b"int x;  /*\n*/ #define Y\n",
        out: b"int x; /*\n*/ #define Y\n",
        ..QUIET
    },
];

/// Statements, and how they are indented.
pub const STATEMENTS: &[Row] = &[
    Row {
        name: "a function",
        input: b"int f(void){\n   return   1;\n}\n",
        out: b"int f(void) { return 1; }\n",
        ..QUIET
    },
    Row {
        name: "statements on one row",
        input: b"void f(void){if(x){g();}else h();}\n",
        out: b"void f(void) {\n  if (x) {\n    g();\n  } else\n    h();\n}\n",
        ..QUIET
    },
    Row {
        name: "labels",
        input: b"void f(int x){switch(x){case 1:a();break;default:b();}out:c();}\n",
        out: b"void f(int x) {\n  switch (x) {\n  case 1:\n    a();\n    break;\n  default:\n    b();\n  }\nout:\n  c();\n}\n",
        ..QUIET
    },
    Row {
        name: "a statement expression",
        input: b"x=( {int  y=1; y;} );\n",
        out: b"x = ({int  y=1; y;});\n",
        ..QUIET
    },
    Row {
        name: "a closing brace without partner, and a sign behind an operator",
        input: b"}\na+  +b;\n",
        out: b"}\na + +b;\n",
        ..QUIET
    },
    Row {
        name: "braces as digraphs, and one too many",
        input: b"<%\na;\n%>\n}\n{\nb;\n",
        out: b"<%\n  a;\n%>\n}\n{\n  b;\n",
        ..QUIET
    },
    Row {
        name: "braces as trigraphs, and spliced",
        input: b"??<\na;\n<\\\n%\nb;\n%\\\n>\n??>\n",
        out: b"??<\n  a;\n  <\\\n%\n    b;\n  %\\\n>\n??>\n",
        ..QUIET
    },
];

/// Short lines that become one, and those that don't.
pub const JOINED: &[Row] = &[
    Row {
        name: "a function that fills its row",
        input: b"int f(void) { return aaaaaaaaaaaaaaaaaaaaaaaaaaaaaaaaaaaaaaaaaaaaaaaaaaaaaaaa; }\n",
        out: b"int f(void) { return aaaaaaaaaaaaaaaaaaaaaaaaaaaaaaaaaaaaaaaaaaaaaaaaaaaaaaaa; }\n",
        ..QUIET
    },
    Row {
        name: "a function one column too long for a row",
        input: b"int f(void) { return aaaaaaaaaaaaaaaaaaaaaaaaaaaaaaaaaaaaaaaaaaaaaaaaaaaaaaaaa; }\n",
        out: b"int f(void) {\n  return aaaaaaaaaaaaaaaaaaaaaaaaaaaaaaaaaaaaaaaaaaaaaaaaaaaaaaaaa;\n}\n",
        ..QUIET
    },
    Row {
        name: "a function with a comment inside",
        input: b"int f(void){// c\nreturn 1;}\n",
        out: b"int f(void) { // c\n  return 1;\n}\n",
        ..QUIET
    },
    Row {
        name: "functions without statements, and one with a statement",
        files: &[(
            ".clang-format",
            b"BasedOnStyle: LLVM\nAllowShortFunctionsOnASingleLine: Empty\n",
        )],
        input: b"void f(void){}\nvoid g(void){\n}\nvoid h(void){f();}\n",
        out: b"void f(void) {}\nvoid g(void) {}\nvoid h(void) {\n  f();\n}\n",
        ..QUIET
    },
    Row {
        name: "an `if` in a function whose brace is wrapped",
        files: &[(
            ".clang-format",
            b"BasedOnStyle: LLVM\nIndentWidth: 4\nAllowShortIfStatementsOnASingleLine: true\nBreakBeforeBraces: Custom\nBraceWrapping:\n  AfterFunction: true\n",
        )],
        input: b"void f(void){if(x)g();}\n",
        out: b"void f(void)\n{\n    if (x) g();\n}\n",
        ..QUIET
    },
    Row {
        name: "loops",
        files: &[(".clang-format", b"AllowShortLoopsOnASingleLine: true\n")],
        input: b"void f(void){while(x)g();for(;;)\n\nh();}\n",
        out: b"void f(void) {\n  while (x) g();\n  for (;;) h();\n}\n",
        ..QUIET
    },
    Row {
        name: "the lines of a label",
        files: &[(
            ".clang-format",
            b"AllowShortCaseLabelsOnASingleLine: true\n",
        )],
        input: b"void f(int x){switch(x){case 1:a();break;default:b();c();d();}}\n",
        out: b"void f(int x) {\n  switch (x) {\n  case 1: a(); break;\n  default:\n    b();\n    c();\n    d();\n  }\n}\n",
        ..QUIET
    },
    Row {
        name: "an enum, and one in whose line a comment stands",
        input: b"enum e{A,B=2};\nenum f{C,// c\nD};\n",
        out: b"enum e { A, B = 2 };\nenum f {\n  C, // c\n  D\n};\n",
        ..QUIET
    },
    Row {
        name: "a body that an earlier run laid out",
        input: b"#ifdef A\na;\n#else\nint f(void)\n#endif\n{return 1;}\n",
        out: b"#ifdef A\na;\n#else\nint f(void)\n#endif\n{\n  return 1;\n}\n",
        ..QUIET
    },
    Row {
        name: "rows of the input without a limit of columns",
        files: &[(".clang-format", b"ColumnLimit: 0\n")],
        input: b"int f(void){return 1;}\nint g(void){\nreturn 1;}\n",
        out: b"int f(void) { return 1; }\nint g(void) {\n  return 1;\n}\n",
        ..QUIET
    },
];

/// Branches of `#if`, and groups that are switched off.
pub const BRANCHES: &[Row] = &[
    Row {
        name: "two heads of a statement and one body",
        input: b"void g(void){\n#ifdef A\nif(x){\n#else\n  if (y){\n#endif\nf( );\n}\n}\n",
        out: b"void g(void) {\n#ifdef A\n  if (x) {\n#else\n  if (y) {\n#endif\n    f();\n  }\n}\n",
        ..QUIET
    },
    Row {
        name: "two heads of a function and one body",
        input: b"#ifdef A\nint f(int a){\n#else\nint f(void){\n#endif\nreturn 0;}\n",
        out: b"#ifdef A\nint f(int a) {\n#else\nint f(void) {\n#endif\n  return 0;\n}\n",
        ..QUIET
    },
    Row {
        name: "branches inside a line",
        input: b"f(a,\n#ifdef X\nb ,\n#else\nc ,\n#endif\nd);\n",
        out: b"f(a,\n#ifdef X\n  b,\n#else\n  c,\n#endif\n  d);\n",
        ..QUIET
    },
    Row {
        name: "an `else` in a branch of its own",
        input: b"void f(void){if(x)g();\n#ifdef E\nelse h();\n#endif\n}\n",
        out: b"void f(void) {\n  if (x)\n    g();\n#ifdef E\n  else\n    h();\n#endif\n}\n",
        ..QUIET
    },
    Row {
        name: "statements of a body on both sides of a directive",
        input: b"int f(void){a;\n#if A\n#endif\nb;}\n",
        out: b"int f(void) {\n  a;\n#if A\n#endif\n  b;\n}\n",
        ..QUIET
    },
    Row {
        name: "empty lines at the start of a body and behind a directive in it",
        words: &["--style", "Google"],
        input: b"int f(void){\n\na;\n#if A\n\nb;\n#endif\n}\n",
        out: b"int f(void) {\n  a;\n#if A\n\n  b;\n#endif\n}\n",
        ..QUIET
    },
    Row {
        name: "a label behind a directive of a body",
        input: b"void f(void){if(a){b;}\n#if A\n// c\nout: d;\n#endif\n}\n",
        out: b"void f(void) {\n  if (a) {\n    b;\n  }\n#if A\n// c\nout:\n  d;\n#endif\n}\n",
        ..QUIET
    },
    Row {
        name: "a comment of a body behind a directive and before its end",
        input: b"void f(void){a;\n#if A\n/* b */\n#else\nc; // d\n#endif\n}\n",
        out: b"void f(void) {\n  a;\n#if A\n  /* b */\n#else\n  c; // d\n#endif\n}\n",
        ..QUIET
    },
    Row {
        name: "a dead group and one that lives",
        input: b"if(a){\n#if 0\n  b ( ;\n\n\n#else\nc();\n#endif\n}\n",
        out: b"if (a) {\n#if 0\n  b ( ;\n\n\n#else\n  c();\n#endif\n}\n",
        ..QUIET
    },
    Row {
        name: "a group that stays dead to the end",
        input: b"a;  b;\n#if 0\n  c  ;\n\n\n",
        out: b"a;\nb;\n#if 0\n  c  ;\n\n\n",
        ..QUIET
    },
    Row {
        name: "a quote that isn't closed",
        input: b"#if 0\ndon't do   this\n#endif\n",
        out: b"#if 0\ndon't do   this\n#endif\n",
        ..QUIET
    },
];

/// Texts in other styles.
pub const STYLES: &[Row] = &[
    Row {
        name: "wrapped braces",
        words: &["--style", "Microsoft"],
        input: b"void f(void){if(x){g();}else h();}\n",
        out: b"void f(void)\n{\n    if (x)\n    {\n        g();\n    }\n    else\n        h();\n}\n",
        ..QUIET
    },
    Row {
        name: "lines that end in returns",
        files: &[(".clang-format", b"LineEnding: CRLF\n")],
        input: b"{\na;\n}\n",
        out: b"{\r\n  a;\r\n}\r\n",
        ..QUIET
    },
    Row {
        name: "lines that lose their returns",
        files: &[(".clang-format", b"LineEnding: LF\n")],
        input: b"a;\r\nb;\r\n",
        out: b"a;\nb;\n",
        ..QUIET
    },
    Row {
        name: "as many returns, which are kept",
        files: &[(".clang-format", b"LineEnding: DeriveCRLF\n")],
        input: b"a;\r\nb;\n",
        out: b"a;\r\nb;\r\n",
        ..QUIET
    },
    Row {
        name: "fewer returns, which are lost",
        files: &[(".clang-format", b"LineEnding: DeriveCRLF\n")],
        input: b"a;\r\nb;\nc;\n",
        out: b"a;\nb;\nc;\n",
        ..QUIET
    },
    Row {
        name: "a last line end that is put",
        files: &[(".clang-format", b"InsertNewlineAtEOF: true\n")],
        input: b"a; ",
        out: b"a;\n",
        ..QUIET
    },
    Row {
        name: "no last line end in a text without items",
        files: &[(".clang-format", b"InsertNewlineAtEOF: true\n")],
        input: b" ",
        out: b"",
        ..QUIET
    },
    Row {
        name: "no last line end behind a backslash",
        files: &[(".clang-format", b"InsertNewlineAtEOF: true\n")],
        input: b"// c\\\\\n",
        out: b"// c\\\\\n",
        ..QUIET
    },
    Row {
        name: "tabs",
        files: &[(".clang-format", b"UseTab: Always\n")],
        input: b"{{{{{\na;\n}}}}}",
        out: b"{\n  {\n    {\n      {\n\t{\n\t  a;\n\t}\n      }\n    }\n  }\n}",
        ..QUIET
    },
];
