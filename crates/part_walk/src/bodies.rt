//! Bodies whose heads are known, and places in them where parts begin.

ghost use Rattle.std.specs.Prelude.{◌≡◌, ◌<◌, ◌≤◌, reverse, IfOk};
ghost use Rattle.token_classes.specs.declared.class.TokenClass.TheVariants.{OpenBrace};
ghost use Rattle.part_walk.specs.Brackets.{place_behind};
ghost use Rattle.part_walk.specs.Places.{place_of};
ghost use Rattle.part_walk.specs.Walk.{begun_before, body_kind, head_from, heads_len, opened_head};

use crate::walk::{Around, Before, Begun, Declaration, PartToken, Walk};
use bumpalo::Bump;
use bumpalo::collections::into_bump_slice;
use line_tokens::{NoMemory, TokenId};
use token_classes::TokenClass;

/// What a body belongs to.
#[derive(Clone, Copy, PartialEq)]
pub enum BodyKind {
    /// A function.
    Function,
    /// An `if`, or the `else` of one.
    If,
    /// Another block in a function's body or in a block.
    Block,
    /// A structure or union.
    Members,
    /// A linkage specification of C++: `extern "C" {`.
    Linkage,
}

/// The items up to the `{` of a body, from the first of the declaration or statement that it belongs to. They stand in
/// a row. The body of an `else` has the head of its `if`.
#[derive(Clone, Copy, PartialEq)]
pub struct Head {
    /// The first one.
    pub first: u32,
    /// The one behind the `{`.
    pub end: u32,
    /// What the body belongs to.
    pub kind: BodyKind,
}

/// A place between two statements or members of a body. What stands there is laid out like what follows the heads of
/// the bodies that are open and the end of the statement before.
#[derive(Clone, Copy)]
pub struct BodyPlace<'k> {
    /// The heads of the bodies that are open, the outermost first.
    pub heads: &'k [Head],
    /// The `{` of the block with which the statement before ends, where it ends with one.
    pub opened: Option<u32>,
    /// The `;` or `}` with which the statement before ends.
    pub ended: u32,
    /// What is known of the declaration outside brackets.
    pub declaration: Declaration,
}

/// How many items the heads of bodies have at most that are laid out again with what stands in them.
const MOST_HEADS: u32 = 64;

/// How many items heads have.
fn heads_len(heads: &[Head]) -> u32
    requires { heads_len heads.now ≤ 64 }
    ensures { result ≡ heads_len heads.now }
{
    let mut count = 0;
    for head in heads {
        count += head.end.saturating_sub(head.first);
    }
    count
}

/// What the body belongs to that a `{` opens there, if it opens one whose items are told from those of a group.
fn body_kind(walk: &Walk, around: Around) -> Option<BodyKind>
    ensures { result ≡ body_kind walk.now around }
{
    let last = &walk.last;
    match around {
        Around::Group => None,
        Around::Outside => {
            if let Before::Body = walk.declaration.behind(TokenClass::OpenBrace) {
                return Some(BodyKind::Function);
            }
            if let Before::Linkage = walk.declaration.before {
                return Some(BodyKind::Linkage);
            }
            last.begins_members_outside(walk.declaration)
                .then_some(BodyKind::Members)
        }
        Around::Body => {
            if last.is_behind_if() {
                return Some(BodyKind::If);
            }
            if last.begins_block() && (last.is_begin() || !last.class.is_close_brace()) {
                return Some(BodyKind::Block);
            }
            last.begins_members_in_body().then_some(BodyKind::Members)
        }
    }
}

/// How the statement or declaration began in which this `{` stands.
fn begun_before(walk: &Walk, around: Around, id: TokenId) -> Begun
    ensures { result ≡ begun_before walk.now around id.0 }
{
    match around {
        Around::Body if walk.last.is_begin() => Begun::With(PartToken {
            id: id.0,
            place: walk.place,
        }),
        _ => walk.begun,
    }
}

/// The head of the body of this kind that a `{` at a place opens, where bodies whose heads have so many items are open.
fn head_from(begun: Begun, place: u32, id: TokenId, kind: BodyKind, count: u32) -> Option<Head>
    requires few { count ≤ 64 }
    requires small { id.0 < 4294967295 }
    ensures { result ≡ head_from begun place id.0 kind count }
{
    match begun {
        Begun::Unknown => None,
        Begun::Behind(head) => {
            let len = head.end.saturating_sub(head.first);
            (len <= MOST_HEADS - count).then_some(head)
        }
        Begun::With(token) => {
            let in_row = token.id <= id.0
                && u64::from(token.id) + u64::from(place)
                    == u64::from(id.0) + u64::from(token.place);
            if in_row && id.0 - token.id < MOST_HEADS - count {
                Some(Head {
                    first: token.id,
                    end: id.0 + 1,
                    kind,
                })
            } else {
                None
            }
        }
    }
}

/// The head of the body that a `{` opens, if it opens one, where these bodies are open, the outermost first.
#[inline(never)]
pub fn opened_head(walk: &Walk, around: Around, bodies: &[Head], id: TokenId) -> Option<Head>
    requires few { heads_len bodies.now ≤ 64 }
    requires small { id.0 < 4294967295 }
    ensures { result ≡ opened_head walk.now around (reverse bodies.now) id.0 OpenBrace }
{
    let kind = body_kind(walk, around)?;
    let begun = begun_before(walk, around, id);
    head_from(begun, walk.place, id, kind, heads_len(bodies))
}

/// The place of a body behind the last token, where these bodies are open, the outermost first. `begins` is where the
/// part begins: the heads of the bodies are kept for both, where they are the same. Want of memory is the only error.
pub fn place_behind<'k>(
    walk: &Walk,
    bodies: &[Head],
    begins: Option<BodyPlace<'k>>,
    keep: &'k Bump,
) -> Result<BodyPlace<'k>, NoMemory>
    ensures { IfOk result (λ place. place_of place ≡ place_behind walk.now (reverse bodies.now)) }
{
    let heads = match begins {
        Some(place) if place.heads == bodies => place.heads,
        _ => {
            let mut heads = Vec::new(keep);
            for body in bodies {
                heads.push(*body)?;
            }
            into_bump_slice(heads)
        }
    };
    Ok(BodyPlace {
        heads,
        opened: if walk.last.class.is_close_brace() {
            walk.last.block
        } else {
            None
        },
        ended: walk.last.id,
        declaration: walk.declaration,
    })
}
