//! The brackets that are open behind an item of a part.

ghost use Rattle.std.specs.Prelude.{◌≡◌, ◌<◌, ◌≤◌, ◌+◌, length, reverse, IfOk, List, OnOk, [], ◌∷◌, ◌++◌};
ghost use Rattle.token_classes.specs.declared.pairing.Opener.{Opener};
ghost use Rattle.token_classes.specs.Partners.{count_braces, StandBefore};
ghost use Rattle.part_walk.specs.Brackets.{around_of, bodies_behind, braces_of, heads_at, waiting_behind, walk_behind};
ghost use Rattle.part_walk.specs.Places.{place_in};

use crate::bodies::{BodyPlace, Head};
use crate::walk::{Around, Walk};
use bumpalo::Bump;
use line_tokens::{NoMemory, TokenId};
use token_classes::{Opener, TokenClass, waiting_step};

/// The brackets that are open behind an item of a part.
#[derive(Drop)]
pub struct OpenBrackets<'r> {
    /// The openers that wait, the innermost last.
    pub waiting: Vec<Opener, &'r Bump>,
    /// How many of them are a `{`.
    pub braces: usize,
    /// The heads of the bodies that are open, the innermost last.
    pub bodies: Vec<Head, &'r Bump>,
    /// What the next item stands in.
    pub around: Around,
}

/// What the next item stands in, where these openers wait and these bodies are open, the innermost of each last.
#[inline(always)]
fn around(waiting: &[Opener], bodies: &[Head]) -> Around
    ensures { result ≡ around_of (reverse bodies.now) (reverse waiting.now) }
{
    match waiting.len() {
        0 => Around::Outside,
        count if count == bodies.len() => Around::Body,
        _ => Around::Group,
    }
}

/// The bodies that are open where a part begins, and their `{`, which wait. None were kept before.
fn begin_bodies(
    begins: Option<BodyPlace<'_>>,
    bodies: &mut Vec<Head, &Bump>,
    waiting: &mut Vec<Opener, &Bump>,
) -> Result<(), NoMemory>
    requires bodies { bodies.old.items ≡ [] }
    requires waiting { waiting.old.items ≡ [] }
    ensures bodies { OnOk result (bodies.new.items ≡ heads_at (place_in begins.entry)) }
    ensures waiting { OnOk result (waiting.new.items ≡ braces_of (heads_at (place_in begins.entry))) }
{
    if let Some(place) = begins {
        bodies.extend_from_slice(place.heads)?;
        for _ in place.heads {
            waiting.push(Opener {
                place: 0,
                kind: TokenClass::OpenBrace,
            })?;
        }
    }
    Ok(())
}

/// Lets an opener wait. Mostly there is room, and no call is made.
#[inline(always)]
fn push_waiting(waiting: &mut Vec<Opener, &Bump>, opener: Opener) -> Result<(), NoMemory>
    ensures { OnOk result (waiting.new.items ≡ waiting.old.items ++ opener ∷ []) }
{
    if waiting.len() < waiting.capacity() {
        waiting.push_reserved(opener);
    } else {
        waiting.push(opener)?;
    }
    Ok(())
}

/// Goes on with the openers that wait behind a token at a place of a part. `braces` says how many of them are a `{`. It
/// pushes openers itself: `waiting_step` asks for no more braces than places, and a part may begin in more bodies.
#[inline(always)]
fn pass_bracket(
    waiting: &mut Vec<Opener, &Bump>,
    braces: &mut usize,
    place: u32,
    id: TokenId,
    class: TokenClass,
) -> Result<(), NoMemory>
    requires count { braces.old ≡ count_braces (reverse waiting.old.items) }
    requires small { braces.old ≤ id.0 + 1 }
    requires before { StandBefore (id.0 + 1) (reverse waiting.old.items) }
    requires low { place ≤ id.0 }
    requires room { id.0 < 4294967295 }
    ensures waiting { OnOk result (reverse waiting.new.items ≡ waiting_behind class place (reverse waiting.old.items)) }
    ensures count { OnOk result (braces.new ≡ count_braces (reverse waiting.new.items)) }
    ensures small { OnOk result (braces.new ≤ id.0 + 2) }
    ensures before { OnOk result (StandBefore (id.0 + 2) (reverse waiting.new.items)) }
{
    if class.is_opener() {
        if class.is_open_brace() {
            *braces += 1;
        }
        let opener = Opener {
            place: place + 1,
            kind: class,
        };
        push_waiting(waiting, opener)?;
    } else {
        waiting_step(waiting, braces, id.0 + 1, class)?;
    }
    Ok(())
}

/// Goes on with the bodies that are open behind a token: one that it opens, with this head, or all but the innermost,
/// where fewer openers wait behind it.
#[inline(always)]
fn pass_brace(
    walk: &mut Walk,
    bodies: &mut Vec<Head, &Bump>,
    waiting: usize,
    opened: Option<Head>,
    id: TokenId,
) -> Result<(), NoMemory>
    ensures walk { OnOk result ((openers : List Opener) → length openers ≡ waiting →
        walk.new ≡ walk_behind walk.old (reverse bodies.old.items) openers opened id.0) }
    ensures bodies { OnOk result ((openers : List Opener) → length openers ≡ waiting →
        reverse bodies.new.items ≡ bodies_behind (reverse bodies.old.items) openers opened) }
{
    if let Some(head) = opened {
        bodies.push(head)?;
        walk.enter(id);
    } else if waiting < bodies.len() {
        if let Some(head) = bodies.pop() {
            walk.leave(head, id);
        }
    }
    Ok(())
}

impl<'r> OpenBrackets<'r> {
    /// Those that are open where a part begins. Want of memory is the only error.
    pub fn start(
        begins: Option<BodyPlace<'_>>,
        room: &'r Bump,
    ) -> Result<OpenBrackets<'r>, NoMemory>
        ensures bodies { IfOk result (λ brackets. brackets.bodies.items ≡ heads_at (place_in begins.entry)) }
        ensures waiting { IfOk result
            (λ brackets. brackets.waiting.items ≡ braces_of (heads_at (place_in begins.entry))) }
        ensures braces { IfOk result (λ brackets. brackets.braces ≡ length (heads_at (place_in begins.entry))) }
        ensures around { IfOk result (λ brackets.
            brackets.around ≡ around_of (reverse brackets.bodies.items) (reverse brackets.waiting.items)) }
    {
        let mut waiting = Vec::new(room);
        let mut bodies = Vec::new(room);
        begin_bodies(begins, &mut bodies, &mut waiting)?;
        let around = around(&waiting, &bodies);
        let braces = waiting.len();
        Ok(OpenBrackets {
            waiting,
            braces,
            bodies,
            around,
        })
    }

    /// Passes a bracket at a place of a part, which opens a body with this head, or none. `walk` is behind it already,
    /// but for the body that it opens or closes. Want of memory is the only error.
    #[inline(always)]
    pub fn pass(
        &mut self,
        walk: &mut Walk,
        place: u32,
        opened: Option<Head>,
        id: TokenId,
        class: TokenClass,
    ) -> Result<(), NoMemory>
        requires count { self.old.braces ≡ count_braces (reverse self.old.waiting.items) }
        requires small { self.old.braces ≤ id.0 + 1 }
        requires before { StandBefore (id.0 + 1) (reverse self.old.waiting.items) }
        requires low { place ≤ id.0 }
        requires room { id.0 < 4294967295 }
        ensures waiting { OnOk result
            (reverse self.new.waiting.items ≡ waiting_behind class place (reverse self.old.waiting.items)) }
        ensures count { OnOk result (self.new.braces ≡ count_braces (reverse self.new.waiting.items)) }
        ensures small { OnOk result (self.new.braces ≤ id.0 + 2) }
        ensures before { OnOk result (StandBefore (id.0 + 2) (reverse self.new.waiting.items)) }
        ensures walk { OnOk result (walk.new
            ≡ walk_behind walk.old (reverse self.old.bodies.items) (reverse self.new.waiting.items) opened id.0) }
        ensures bodies { OnOk result (reverse self.new.bodies.items
            ≡ bodies_behind (reverse self.old.bodies.items) (reverse self.new.waiting.items) opened) }
        ensures around { OnOk result
            (self.new.around ≡ around_of (reverse self.new.bodies.items) (reverse self.new.waiting.items)) }
    {
        pass_bracket(&mut self.waiting, &mut self.braces, place, id, class)?;
        pass_brace(walk, &mut self.bodies, self.waiting.len(), opened, id)?;
        self.around = around(&self.waiting, &self.bodies);
        Ok(())
    }
}
