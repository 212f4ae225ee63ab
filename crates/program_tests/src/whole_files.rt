//! The rows of whole files: a driver's source in a style of its own, macros, and what stays.

use crate::commands::{QUIET, Row};

/// The style of the driver.
pub const DRIVER_STYLE: &[u8] = b"BasedOnStyle: LLVM
IndentWidth: 4
BreakBeforeBraces: Linux
AllowShortFunctionsOnASingleLine: None
SpaceAfterCStyleCast: true
ColumnLimit: 60
";

/// A driver's source, as somebody wrote it.
pub const DRIVER: &[u8] = b"#include<stdint.h>
#ifdef __cplusplus
extern \"C\" {
#endif
struct dev{uint32_t *regs;unsigned irq:5;};
static const struct ops dev_ops={
.start=dev_start,
.close = dev_close,
};
static int __attribute__((unused)) dev_init(struct dev *d,uint32_t flags,void (*cb)(int))
{
  int rc=0;
  if(!d||!d->regs) goto out;
  for(unsigned i=0;i<4;i++)d->regs[i]=(uint32_t)flags;
  __asm__ volatile(\"nop\"::\"r\"(flags):\"memory\");
  switch(flags&3u){
  case 1: rc=-1; break;
  default: break;
  }
out:
  return rc;
}
#ifdef __cplusplus
}
#endif
";

/// The same in its style. The head of the function costs 2: its further rows stand at column 44 and end at 59 and 60.
pub const DRIVER_LAID_OUT: &[u8] = b"#include <stdint.h>
#ifdef __cplusplus
extern \"C\" {
#endif
struct dev {
    uint32_t *regs;
    unsigned irq : 5;
};
static const struct ops dev_ops = {
    .start = dev_start,
    .close = dev_close,
};
static int __attribute__((unused)) dev_init(struct dev *d,
                                            uint32_t flags,
                                            void (*cb)(int))
{
    int rc = 0;
    if (!d || !d->regs)
        goto out;
    for (unsigned i = 0; i < 4; i++)
        d->regs[i] = (uint32_t) flags;
    __asm__ volatile(\"nop\" :: \"r\"(flags) : \"memory\");
    switch (flags & 3u) {
    case 1:
        rc = -1;
        break;
    default:
        break;
    }
out:
    return rc;
}
#ifdef __cplusplus
}
#endif
";

/// Files that are laid out whole: comments, directives and statements together.
pub const WHOLE_FILES: &[Row] = &[
    Row {
        name: "a driver's source",
        files: &[(".clang-format", DRIVER_STYLE)],
        input: DRIVER,
        out: DRIVER_LAID_OUT,
        ..QUIET
    },
    Row {
        name: "an include behind a byte order mark",
        input: b"\xef\xbb\xbf#include<a.h>\n",
        out: b"\xef\xbb\xbf#include <a.h>\n",
        ..QUIET
    },
    Row {
        name: "a splice before the parameters of a macro",
        input: b"#define F\\\n(x) x\n",
        out: b"#define F(x) x\n",
        ..QUIET
    },
    Row {
        name: "a macro of two rows",
        files: &[(".clang-format", b"AlignEscapedNewlines: DontAlign\n")],
        input: b"#define  M( a,b )  do{ a; \\\nb; }while(0)\n",
        out: b"#define M(a, b) do { a; \\\n    b; } while (0)\n",
        ..QUIET
    },
    Row {
        name: "a macro whose body begins behind a splice",
        files: &[(".clang-format", b"AlignEscapedNewlines: DontAlign\n")],
        input: b"#define M(x) \\\ndo { x; } while(0)\n",
        out: b"#define M(x) \\\n  do { x; } while (0)\n",
        ..QUIET
    },
    Row {
        name: "bodies that a style skips",
        files: &[(".clang-format", b"SkipMacroDefinitionBody: true\n")],
        input: b"#define  M( a,b )  a  +b\n",
        out: b"#define M(a, b)  a  +b\n",
        ..QUIET
    },
    Row {
        name: "directives inside conditionals, indented behind the hash",
        files: &[(".clang-format", b"IndentPPDirectives: AfterHash\n")],
        input: b"#if A\n#if B\n#define X 1\n#else\n#endif\n#endif\n",
        out: b"#if A\n#  if B\n#    define X 1\n#  else\n#  endif\n#endif\n",
        ..QUIET
    },
    Row {
        name: "a condition and a comment",
        input: b"#if  defined( A )&&B   // both\n#endif   /* A */\n",
        out: b"#if defined(A) && B // both\n#endif /* A */\n",
        ..QUIET
    },
    Row {
        name: "a line comment of two rows in a directive",
        input: b"#define  X  1   // c \\\n  d\nint  y;\n",
        out: b"#define X 1 // c \\\n  d\nint y;\n",
        ..QUIET
    },
    Row {
        name: "what is no C in directives",
        input: b"#pragma  omp   parallel\n#error  don't  do\n#include  <a.h>   // a\n#include MACRO( x )\n",
        out: b"#pragma  omp   parallel\n#error  don't  do\n#include <a.h> // a\n#include MACRO( x )\n",
        ..QUIET
    },
    Row {
        name: "formatting is switched off",
        input: b"f(a,  /* clang-format off */   b,c\n ,d );\nx=1;\n",
        out: b"f(a, /* clang-format off */   b,c\n ,d );\nx=1;\n",
        ..QUIET
    },
    Row {
        name: "formatting is switched off and on",
        input: b"a=1;\n// clang-format off\nb  =2;\n#define  X\n// clang-format on\nc=3;\n",
        out: b"a = 1;\n// clang-format off\nb  =2;\n#define  X\n// clang-format on\nc = 3;\n",
        ..QUIET
    },
    Row {
        name: "a macro with a blank behind its backslash",
        input: b"#define M(x) do { \\ \n f(x);  g(x); \\\n} while (0)\nint  y;\n",
        out: b"#define M(x) do { \\ \n f(x);  g(x); \\\n} while (0)\nint y;\n",
        ..QUIET
    },
];
