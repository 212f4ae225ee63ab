//! Worked rows of the text that `--generate` makes.

use crate::comparing::same;
use command_words::generated;
use std::str::from_utf8;

/// The first six pieces from 5.
const SIX_PIECES: &str = "static int f0(int a,int b){return a+b*5;}
#ifdef C1
int v1=42;
#else
long v1=42;
#endif
void g2(void){call(a,b,79,first_argument_of_call,second_argument_of_call,third_argument_of_call);}
#define M3(x) ((x)+116)
static int f4(int a,int b){return a+b*153;}
#ifdef C5
int v5=190;
#else
long v5=190;
#endif
";

/// The two numbers, and the text that they tell.
const TEXTS: &[(&str, u32, u32, &str)] = &[
    ("six pieces from 5", 5, 6, SIX_PIECES),
    (
        "two pieces from the largest number",
        999_999_999,
        2,
        "static int f0(int a,int b){return a+b*999;}\n#ifdef C1\nint v1=36;\n#else\nlong v1=36;\n#endif\n",
    ),
    ("no piece", 7, 0, ""),
];

#[test]
fn makes_pieces(rt: HostRuntime) {
    let rt = &rt;
    for case in TEXTS {
        let (name, seed, count, want) = *case;
        let text = generated(rt.alloc(), seed, count).expect(rt, name);
        same(rt, name, from_utf8(&text).ok(), Some(want));
    }
}
