//! The frames of a line: the columns at which tokens stand inside its brackets.

ghost use Rattle.std.specs.Prelude.{◌≡◌, ◌+◌, ◌-◌, ◌<◌, ◌^◌, ◌↔◌, List, [], ◌∷◌, ◌++◌, IsTrue, IfOk, OnOk, length};
ghost use Rattle.std.specs.Prelude.{take, slice_set, slice_index_or};
ghost use Rattle.frame_store.specs.declared.frames.Frame.{Frame};
ghost use Rattle.frame_store.specs.Digest.{digest_with, frame_digest};

use line_tokens::{NoMemory, Role};
use std::alloc::Global;
use std::marker::Model;

/// What is known inside a bracket, or outside all of them: where tokens start behind a break, and
/// which breaks were taken.
#[derive(Clone, Copy, PartialEq, Eq)]
pub struct Frame {
    /// The column at which a token starts behind a break.
    pub indent: u32,
    /// The column on which the brackets inside stand.
    pub base: u32,
    /// The first free gap behind a comma: 0 before there was one, 1 where it stayed, 2 where it broke.
    pub comma: u8,
    /// The gap behind the opener: 0 where it is free and stayed, 1 where it is free and broke, 2 where it isn't free.
    pub opening: u8,
    /// The role of the frame's bracket, `Word` for the base frame.
    pub opener: Role,
}

/// A digest with one number more, of which it depends as on those before.
#[inline(always)]
pub fn digest_with(digest: u64, value: u64) -> u64
    ensures { result ≡ digest_with digest value }
{
    digest
        .wrapping_mul(6_364_136_223_846_793_005)
        .wrapping_add(value)
}

/// A digest with a frame more.
pub(crate) fn frame_digest(digest: u64, frame: &Frame) -> u64
    ensures { result ≡ frame_digest digest frame.now }
{
    let choices = 4 * u64::from(frame.comma) + u64::from(frame.opening);
    digest_with(digest_with(digest, u64::from(frame.indent)), choices)
}

/// The frames above the base frame, lowest first.
#[derive(Drop)]
pub struct Frames {
    items: Vec<Frame>,
}

impl Model for Frames {
    ghost Value = { List Frame };

    ghost view = { λ f. f.items.items };
}

impl Frames {
    /// No frames. Takes no memory.
    pub fn new(alloc: Global) -> Frames
        ensures { result ≡ [] }
    {
        Frames {
            items: Vec::new(alloc),
        }
    }

    /// How many frames there are.
    pub fn len(&self) -> usize
        ensures value { result ≡ length self.now }
        ensures small { result < 2 ^ 63 }
    {
        self.items.len()
    }

    /// Whether there are no frames.
    pub fn is_empty(&self) -> bool
        ensures { IsTrue result ↔ (self.now ≡ []) }
    {
        self.items.is_empty()
    }

    /// The topmost frame, or the base frame where there is none.
    #[inline(always)]
    pub fn topmost(&self, base: Frame) -> Frame
        ensures { result ≡ slice_index_or self.now (length self.now - 1) base }
    {
        match self.items.last() {
            Some(frame) => *frame,
            None => base,
        }
    }

    /// The topmost of the lowest frames, of which at most so many are looked at, or the base frame.
    #[inline(always)]
    pub fn topmost_of(&self, base: Frame, count: u32) -> Frame
        ensures { result ≡ slice_index_or (take count self.now) (length (take count self.now) - 1) base }
    {
        let len = self.items.len().min(count as usize);
        if len == 0 { base } else { self.items[len - 1] }
    }

    /// The frame below that one, or the base frame.
    #[inline(always)]
    pub fn below_topmost_of(&self, base: Frame, count: u32) -> Frame
        ensures { result ≡ slice_index_or (base ∷ take count self.now) (length (take count self.now) - 1) base }
    {
        let len = self.items.len().min(count as usize);
        if len < 2 { base } else { self.items[len - 2] }
    }

    /// A copy of the lowest frames, at most so many of them.
    ///
    /// # Errors
    ///
    /// `NoMemory` where memory ran out.
    pub fn lowest(&self, count: u32) -> Result<Frames, NoMemory>
        ensures { IfOk result (λ f. f ≡ take count self.now) }
    {
        let mut items = Vec::from_slice(*self.items.allocator(), self.items.as_slice())?;
        items.truncate(count as usize);
        Ok(Frames { items })
    }

    /// Takes off all but the lowest frames, of which at most so many stay.
    #[inline(always)]
    pub fn keep_lowest(&mut self, count: u32)
        ensures { self.new ≡ take count self.old }
    {
        self.items.truncate(count as usize);
    }

    /// Puts another frame in the topmost one's place; nothing where there is none.
    #[inline(always)]
    pub fn set_topmost(&mut self, frame: Frame)
        ensures { self.new ≡ slice_set self.old (length self.old - 1) frame }
    {
        let len = self.items.len();
        if len > 0 {
            self.items[len - 1] = frame;
        }
    }

    /// Puts a frame on top.
    ///
    /// # Errors
    ///
    /// `NoMemory` where memory ran out.
    #[inline(always)]
    pub fn push(&mut self, frame: Frame) -> Result<(), NoMemory>
        ensures { OnOk result (self.new ≡ self.old ++ frame ∷ []) }
    {
        self.items.push(frame)?;
        Ok(())
    }
}
