//! The text that `--generate` makes in place of an input.
//!
//! It has pieces of four kinds in turn: a function, a variable in two branches, a call that is too long for its line,
//! and a macro. [`generated`] joins them; docs/PROFILE.md, "Words of the command", shows them.

ghost use Rattle.std.specs.Prelude.{◌≡◌, ◌++◌, ℕ, List, IfOk, OnOk, map};
ghost use Rattle.std.specs.List.{concat};
ghost use Rattle.command_words.specs.Generated.{generated, parts_of, piece, value_of};
ghost use Rattle.command_words.specs.Parts.{text_of};

use itoa::Buffer;
use std::alloc::{AllocError, Global};

/// The number in a piece.
fn value_of(seed: u32, index: u32) -> u32
    ensures { result ≡ value_of seed index }
{
    ((u64::from(seed) + 37 * u64::from(index)) % 1000) as u32
}

/// A part of a piece.
#[derive(Clone, Copy)]
enum Part {
    /// This text.
    Text(&'static str),
    /// The digits of the piece's place.
    Place,
    /// The digits of its number.
    Value,
}

/// A function.
const FUNCTION: &[Part] = &[
    Part::Text("static int f"),
    Part::Place,
    Part::Text("(int a,int b){return a+b*"),
    Part::Value,
    Part::Text(";}\n"),
];

/// A variable in two branches.
const BRANCHES: &[Part] = &[
    Part::Text("#ifdef C"),
    Part::Place,
    Part::Text("\nint v"),
    Part::Place,
    Part::Text("="),
    Part::Value,
    Part::Text(";\n#else\nlong v"),
    Part::Place,
    Part::Text("="),
    Part::Value,
    Part::Text(";\n#endif\n"),
];

/// A function with a long call.
const CALL: &[Part] = &[
    Part::Text("void g"),
    Part::Place,
    Part::Text("(void){call(a,b,"),
    Part::Value,
    Part::Text(",first_argument_of_call,second_argument_of_call,third_argument_of_call);}\n"),
];

/// A macro.
const MACRO: &[Part] = &[
    Part::Text("#define M"),
    Part::Place,
    Part::Text("(x) ((x)+"),
    Part::Value,
    Part::Text(")\n"),
];

/// The parts of a piece of a kind.
fn parts_of(kind: u32) -> &'static [Part]
    ensures { (place value : List ℕ) → map (text_of place value) result.now ≡ parts_of kind place value }
{
    match kind {
        0 => FUNCTION,
        1 => BRANCHES,
        2 => CALL,
        _ => MACRO,
    }
}

/// The text of a part, in a piece with these digits of its place and of its number.
fn text_of<'p>(part: &Part, place: &'p str, value: &'p str) -> &'p str
    ensures { result.now ≡ text_of place.entry.now value.entry.now part.now }
{
    match *part {
        Part::Text(text) => text,
        Part::Place => place,
        Part::Value => value,
    }
}

/// Adds parts to a text, in order.
fn add_parts(text: &mut Vec<u8>, parts: &[Part], place: &str, value: &str) -> Result<(), AllocError>
    ensures { OnOk result
        (text.new.items ≡ text.old.items ++ concat (map (text_of place.now value.now) parts.now)) }
{
    for part in parts {
        text.extend_from_slice(text_of(part, place, value).as_bytes())?;
    }
    Ok(())
}

/// Adds a piece.
fn add_piece(text: &mut Vec<u8>, seed: u32, index: u32) -> Result<(), AllocError>
    ensures { OnOk result (text.new.items ≡ text.old.items ++ piece seed index) }
{
    let mut place = Buffer::new();
    let mut value = Buffer::new();
    add_parts(
        text,
        parts_of(index % 4),
        place.format(index),
        value.format(value_of(seed, index)),
    )
}

/// The text of so many pieces, in which the number of the first is `seed` modulo 1000, and each further one 37 more.
///
/// It takes time and memory in proportion to the text. Its only error is want of memory.
pub fn generated(alloc: Global, seed: u32, count: u32) -> Result<Vec<u8>, AllocError>
    ensures { IfOk result (λ text. text.items ≡ generated seed count) }
{
    let mut text = Vec::new(alloc);
    for index in 0..count {
        add_piece(&mut text, seed, index)?;
    }
    Ok(text)
}
