//! What the first bytes of an item tell of the items beside it.
//!
//! An [`Edge`] is told once for an item; [`touch_of`] tells from two of them whether the items may touch, for most
//! items.

ghost use Rattle.std.specs.Prelude.{◌≡◌, ◌<◌, [], None, get_or, if◌then◌else◌};
ghost use Rattle.touching.specs.declared.edge.Edge.TheVariants.{Name};
ghost use Rattle.touching.specs.declared.edge.First.TheVariants.{Other};
ghost use Rattle.touching.specs.Edges.{is_operator, known, edge_of, touch_of};
ghost use Rattle.touching.specs.Inside.{kind_number, first_number, edge_number, first_of, edge_by, long_edge};

use Edge::{Comment, Ending, Name, Number, Operator, Point, Quiet, Text, Unknown};
use First::{Apostrophe, Digit, Letter, Mark, Other, QuietMark, Quote, Slash};
use line_tokens::ItemKind;

/// What an item is to the items beside it.
#[derive(Clone, Copy, PartialEq, Eq)]
pub enum Edge {
    /// An identifier that begins with a letter of ASCII or `_`.
    Name,
    /// A number that begins with a digit.
    Number,
    /// A punctuator that goes on with no character, and with which none goes on.
    Quiet,
    /// A punctuator that goes on with punctuators alone.
    Operator,
    /// A string or a character constant without prefix.
    Text,
    /// A comment between `/*` and `*/`.
    Comment,
    /// A comment that ends with its line.
    Ending,
    /// A `.` by itself.
    Point,
    /// Any other item, or none.
    Unknown,
}

/// What an item's first byte is.
#[derive(Clone, Copy)]
enum First {
    /// A letter of ASCII or `_`.
    Letter,
    /// A digit.
    Digit,
    /// One of `(),;[]{}`.
    QuietMark,
    /// A character of the other punctuators, but for `.`, `?` and `/`.
    Mark,
    /// `/`
    Slash,
    /// `"`
    Quote,
    /// `'`
    Apostrophe,
    /// Any other byte.
    Other,
}

/// Of each byte, what it is as the first of an item.
const FIRSTS: [First; 256] = [
    Other, Other, Other, Other, Other, Other, Other, Other, Other, Other, Other, Other, Other,
    Other, Other, Other, Other, Other, Other, Other, Other, Other, Other, Other, Other, Other,
    Other, Other, Other, Other, Other, Other, Other, Mark, Quote, Mark, Other, Mark, Mark,
    Apostrophe, QuietMark, QuietMark, Mark, Mark, QuietMark, Mark, Other, Slash, Digit, Digit,
    Digit, Digit, Digit, Digit, Digit, Digit, Digit, Digit, Mark, QuietMark, Mark, Mark, Mark,
    Other, Other, Letter, Letter, Letter, Letter, Letter, Letter, Letter, Letter, Letter, Letter,
    Letter, Letter, Letter, Letter, Letter, Letter, Letter, Letter, Letter, Letter, Letter, Letter,
    Letter, Letter, Letter, Letter, QuietMark, Other, QuietMark, Mark, Letter, Other, Letter,
    Letter, Letter, Letter, Letter, Letter, Letter, Letter, Letter, Letter, Letter, Letter, Letter,
    Letter, Letter, Letter, Letter, Letter, Letter, Letter, Letter, Letter, Letter, Letter, Letter,
    Letter, QuietMark, Mark, QuietMark, Mark, Other, Other, Other, Other, Other, Other, Other,
    Other, Other, Other, Other, Other, Other, Other, Other, Other, Other, Other, Other, Other,
    Other, Other, Other, Other, Other, Other, Other, Other, Other, Other, Other, Other, Other,
    Other, Other, Other, Other, Other, Other, Other, Other, Other, Other, Other, Other, Other,
    Other, Other, Other, Other, Other, Other, Other, Other, Other, Other, Other, Other, Other,
    Other, Other, Other, Other, Other, Other, Other, Other, Other, Other, Other, Other, Other,
    Other, Other, Other, Other, Other, Other, Other, Other, Other, Other, Other, Other, Other,
    Other, Other, Other, Other, Other, Other, Other, Other, Other, Other, Other, Other, Other,
    Other, Other, Other, Other, Other, Other, Other, Other, Other, Other, Other, Other, Other,
    Other, Other, Other, Other, Other, Other, Other, Other, Other, Other, Other, Other, Other,
    Other, Other, Other, Other, Other,
];

/// Of each kind in its order, the edges of items of one byte and those of longer ones, by the first byte. Those of
/// longer punctuators are told by their second byte too.
const EDGES: [[[Edge; 8]; 2]; 10] = [
    [
        [
            Name, Unknown, Unknown, Unknown, Unknown, Unknown, Unknown, Unknown,
        ],
        [
            Name, Unknown, Unknown, Unknown, Unknown, Unknown, Unknown, Unknown,
        ],
    ],
    [
        [
            Unknown, Number, Unknown, Unknown, Unknown, Unknown, Unknown, Unknown,
        ],
        [
            Unknown, Number, Unknown, Unknown, Unknown, Unknown, Unknown, Unknown,
        ],
    ],
    [
        [
            Unknown, Unknown, Unknown, Unknown, Unknown, Unknown, Text, Unknown,
        ],
        [
            Unknown, Unknown, Unknown, Unknown, Unknown, Unknown, Text, Unknown,
        ],
    ],
    [
        [
            Unknown, Unknown, Unknown, Unknown, Unknown, Text, Unknown, Unknown,
        ],
        [
            Unknown, Unknown, Unknown, Unknown, Unknown, Text, Unknown, Unknown,
        ],
    ],
    [
        [
            Unknown, Unknown, Quiet, Operator, Operator, Unknown, Unknown, Unknown,
        ],
        [
            Unknown, Unknown, Unknown, Unknown, Unknown, Unknown, Unknown, Unknown,
        ],
    ],
    [
        [
            Unknown, Unknown, Unknown, Unknown, Unknown, Unknown, Unknown, Unknown,
        ],
        [
            Unknown, Unknown, Unknown, Unknown, Unknown, Unknown, Unknown, Unknown,
        ],
    ],
    [
        [
            Unknown, Unknown, Unknown, Unknown, Unknown, Unknown, Unknown, Unknown,
        ],
        [
            Unknown, Unknown, Unknown, Unknown, Unknown, Unknown, Unknown, Unknown,
        ],
    ],
    [
        [
            Unknown, Unknown, Unknown, Unknown, Unknown, Unknown, Unknown, Unknown,
        ],
        [
            Unknown, Unknown, Unknown, Unknown, Unknown, Unknown, Unknown, Unknown,
        ],
    ],
    [
        [
            Unknown, Unknown, Unknown, Unknown, Comment, Unknown, Unknown, Unknown,
        ],
        [
            Unknown, Unknown, Unknown, Unknown, Comment, Unknown, Unknown, Unknown,
        ],
    ],
    [
        [
            Unknown, Unknown, Unknown, Unknown, Ending, Unknown, Unknown, Unknown,
        ],
        [
            Unknown, Unknown, Unknown, Unknown, Ending, Unknown, Unknown, Unknown,
        ],
    ],
];

/// The two items may not touch.
const APART: Option<bool> = Some(false);

/// They may.
const CLOSE: Option<bool> = Some(true);

/// Whether two items may touch, by the edge of the left one and that of the right one, where these tell it.
const TOUCHES: [[Option<bool>; 9]; 9] = [
    [APART, APART, CLOSE, CLOSE, None, CLOSE, CLOSE, CLOSE, None],
    [APART, APART, CLOSE, None, None, CLOSE, CLOSE, None, None],
    [CLOSE, CLOSE, CLOSE, CLOSE, CLOSE, CLOSE, CLOSE, CLOSE, None],
    [CLOSE, CLOSE, CLOSE, None, CLOSE, None, None, None, None],
    [CLOSE, CLOSE, CLOSE, CLOSE, CLOSE, CLOSE, CLOSE, CLOSE, None],
    [CLOSE, CLOSE, CLOSE, CLOSE, CLOSE, CLOSE, CLOSE, CLOSE, None],
    [APART, APART, APART, APART, APART, APART, APART, APART, None],
    [CLOSE, None, None, None, None, None, None, None, None],
    [None, None, None, None, None, None, None, None, None],
];

#[inline(always)]
fn told_first(firsts: &[First; 256], byte: u8) -> First
    ensures { result ≡ get_or firsts.now byte Other }
{
    firsts[byte as usize]
}

/// What a byte is as the first of an item.
#[inline(always)]
fn first_of(byte: u8) -> First
    ensures { result ≡ first_of byte }
{
    told_first(&FIRSTS, byte)
}

/// The row of a kind.
#[inline(always)]
fn kind_number(kind: ItemKind) -> usize
    ensures number { result ≡ kind_number kind }
    ensures few { result < 10 }
{
    kind as usize
}

/// The column of a first byte.
#[inline(always)]
fn first_number(first: First) -> usize
    ensures number { result ≡ first_number first }
    ensures few { result < 8 }
{
    first as usize
}

/// The place of an edge.
#[inline(always)]
fn edge_number(edge: Edge) -> usize
    ensures number { result ≡ edge_number edge }
    ensures few { result < 9 }
{
    edge as usize
}

#[inline(always)]
fn told_edge(edges: &[[[Edge; 8]; 2]; 10], kind: ItemKind, long: bool, first: First) -> Edge
    ensures { result
        ≡ get_or (get_or (get_or edges.now (kind_number kind) []) (if long then 1 else 0) []) (first_number first)
        Name }
{
    edges[kind_number(kind)][long as usize][first_number(first)]
}

/// What an item of this kind is to the items beside it, as far as its first byte tells it, and whether it is longer.
#[inline(always)]
fn edge_by(kind: ItemKind, long: bool, first: First) -> Edge
    ensures { result ≡ edge_by kind long first }
{
    told_edge(&EDGES, kind, long, first)
}

/// Whether a byte is an operator by itself.
#[inline(always)]
fn is_operator(byte: u8) -> bool
    ensures { result ≡ is_operator byte }
{
    matches!(first_of(byte), Mark | Slash)
}

/// An edge, where that is known.
#[inline(always)]
fn known(edge: Edge, is: bool) -> Edge
    ensures { result ≡ known edge is }
{
    if is { edge } else { Unknown }
}

/// What an item is to the items beside it, where its first byte doesn't tell it.
#[inline(never)]
fn long_edge(kind: ItemKind, raw: &[u8]) -> Edge
    ensures { result ≡ long_edge kind raw.now }
{
    match kind {
        ItemKind::Punct => match raw {
            [one] => known(Point, *one == b'.'),
            [one, two] => known(Operator, is_operator(*one) && is_operator(*two)),
            _ => Unknown,
        },
        _ => Unknown,
    }
}

/// What an item of this kind with these bytes is to the items beside it. The first byte tells it of most.
#[inline(always)]
pub fn edge_of(kind: ItemKind, raw: &[u8]) -> Edge
    ensures { result ≡ edge_of kind raw.now }
{
    match raw {
        [] => Unknown,
        [first, ..] => {
            let edge = edge_by(kind, raw.len() > 1, first_of(*first));
            match edge {
                Unknown => long_edge(kind, raw),
                _ => edge,
            }
        }
    }
}

#[inline(always)]
fn told_touch(touches: &[[Option<bool>; 9]; 9], left: Edge, right: Edge) -> Option<bool>
    ensures { result ≡ get_or (get_or touches.now (edge_number left) []) (edge_number right) None }
{
    touches[edge_number(left)][edge_number(right)]
}

/// Whether two items may touch, where what they are to one another tells it.
#[inline(always)]
pub fn touch_of(left: Edge, right: Edge) -> Option<bool>
    ensures { result ≡ touch_of left right }
{
    told_touch(&TOUCHES, left, right)
}
