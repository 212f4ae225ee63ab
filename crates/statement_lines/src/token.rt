//! Tokens as the cut into lines sees them.

ghost use Rattle.std.specs.Prelude.{◌≡◌, ◌<◌, ◌+◌, ◌^◌, Some, length, slice_get};
ghost use Rattle.statement_lines.specs.Forms.{began_at, class_at, partner_of, touched_at};
ghost use Rattle.statement_lines.specs.Tokens.{ArePlaced, AscendFrom, class_in, is_touched, number_at, partner_told};
ghost use Rattle.statement_lines.specs.Tokens.{place_of, token_told, tokens_from};

use std::marker::Model;
use token_arena::{TokenArena, View};
use token_classes::{Partner, TokenClass};

/// A token that is no comment, as contracts see it.
#[derive(Clone, Copy, Drop)]
pub struct CodeToken {
    /// What it is spelled.
    pub class: TokenClass,
    /// It began its line in the input.
    pub began: bool,
    /// A colon directly behind it touches it.
    pub touched: bool,
    /// Its partner, counted over the tokens that are no comments.
    pub partner: Partner,
}

/// Where tokens stand in their view, and what is told of these places.
#[derive(Clone, Copy, Drop)]
pub struct Places<'v> {
    /// The items of the view's text.
    pub arena: &'v TokenArena<'v, 'v>,
    /// The view.
    pub view: &'v View<'v>,
    /// The places of its comments, in order.
    pub comments: &'v [u32],
    /// Whether a colon touches the item at a place; where nothing is told, none does.
    pub touched: &'v [bool],
}

/// The tokens of a view that are no comments. A contract sees a list of [`CodeToken`].
///
/// Classes and partners lie ready. Whether a token began its line, or a colon touches it, is asked of few, and looked
/// up by its place then.
#[derive(Drop)]
pub struct CodeTokens<'v> {
    classes: &'v [TokenClass],
    partners: &'v [Partner],
    numbers: &'v [u32],
    places: Places<'v>,
}

impl<'v> Model for CodeTokens<'v> {
    ghost use Rattle.std.specs.Prelude.{List, length};
    ghost use Rattle.statement_lines.specs.declared.token.CodeToken.{CodeToken};
    ghost use Rattle.statement_lines.specs.Tokens.{ArePlaced, token_told, tokens_from};

    ghost Value = { List CodeToken };

    ghost view = { λ t.
        tokens_from
        (token_told t.places.arena.now t.places.view.now t.places.comments.now t.places.touched.now t.partners.now
        t.numbers.now (length t.classes.now)) 0 t.classes.now };

    ghost invariant = { λ t.
        ArePlaced t.places.arena.now t.places.view.now t.places.comments.now (length t.classes.now) };
}

impl<'v> CodeTokens<'v> {
    /// The tokens that have these classes. `partners` tell the places of their partners, and `numbers` how many tokens
    /// stand before each place; none are needed where no comment stands among the tokens.
    pub fn of(
        classes: &'v [TokenClass],
        partners: &'v [Partner],
        numbers: &'v [u32],
        places: Places<'v>,
    ) -> CodeTokens<'v>
        requires { ArePlaced places.arena.now places.view.now places.comments.now (length classes.now) }
        ensures { result
            ≡ tokens_from
            (token_told places.entry.arena.now places.entry.view.now places.entry.comments.now places.entry.touched.now
            partners.now numbers.now (length classes.now)) 0 classes.now }
    {
        CodeTokens {
            classes,
            partners,
            numbers,
            places,
        }
    }

    /// How many they are.
    #[inline(always)]
    pub fn count(&self) -> usize
        ensures { result ≡ length self.now }
    {
        self.classes.len()
    }

    /// The class of the token with a number, `Nothing` behind the last.
    #[inline(always)]
    pub(crate) fn class_at(&self, number: usize) -> TokenClass
        ensures { result ≡ class_at self.now number }
    {
        class_in(self.classes, number)
    }

    /// The partner of the token with a number, if it has one.
    #[inline(always)]
    pub(crate) fn partner_at(&self, number: usize) -> Option<u32>
        ensures { result ≡ partner_of (slice_get self.now number) }
    {
        if self.classes.len() <= number {
            return None;
        }
        partner_told(self.numbers, self.classes.len(), self.partners, number)
    }

    /// Whether the token with a number began its line in the input.
    #[inline(never)]
    pub(crate) fn began_at(&self, number: usize) -> bool
        ensures { result ≡ began_at self.now number }
    {
        if self.classes.len() <= number {
            return false;
        }
        let place = place_of(self.places.comments, number);
        let id = self.places.view.at(place as u32);
        self.places.arena.get(id).gap.began
    }

    /// Whether a colon touches the token with a number.
    #[inline(never)]
    pub(crate) fn touched_at(&self, number: usize) -> bool
        ensures { result ≡ touched_at self.now number }
    {
        if self.classes.len() <= number {
            return false;
        }
        let place = place_of(self.places.comments, number);
        is_touched(self.places.touched, place)
    }
}

/// The class with a number, `Nothing` behind the last.
#[inline(always)]
fn class_in(classes: &[TokenClass], number: usize) -> TokenClass
    ensures { result ≡ class_in (slice_get classes.now number) }
{
    match classes.get(number).copied() {
        Some(class) => class,
        None => TokenClass::Nothing,
    }
}

/// Whether the item at a place is told to be touched.
fn is_touched(touched: &[bool], place: usize) -> bool
    ensures { result ≡ is_touched (slice_get touched.now place) }
{
    match touched.get(place).copied() {
        Some(touched) => touched,
        None => false,
    }
}

/// The number of the token at a place, if one stands there: by the numbers of all places, or its place of so many.
#[inline(always)]
fn number_at(numbers: &[u32], count: usize, place: u32) -> Option<u32>
    ensures { result ≡ number_at numbers.now count (Some place) }
{
    if numbers.is_empty() {
        if (place as usize) < count {
            Some(place)
        } else {
            None
        }
    } else {
        numbers.get(place as usize).copied()
    }
}

/// The number of the partner of the token with a number.
#[inline(always)]
fn partner_told(numbers: &[u32], count: usize, partners: &[Partner], number: usize) -> Option<u32>
    ensures { result ≡ partner_told numbers.now count (slice_get partners.now number) }
{
    match partners.get(number).copied() {
        Some(partner) => match partner.place() {
            Some(place) => number_at(numbers, count, place),
            None => None,
        },
        None => None,
    }
}

/// The place of the token with a number, where comments stand at these places.
fn place_of(comments: &[u32], number: usize) -> usize
    requires order { AscendFrom 0 comments.now }
    requires few { number + length comments.now < 2 ^ 40 }
    ensures { result ≡ place_of comments.now number }
{
    let mut low = 0;
    let mut high = comments.len();
    while low < high {
        let middle = low + (high - low) / 2;
        if comments[middle] as usize <= number + middle {
            low = middle + 1;
        } else {
            high = middle;
        }
    }
    number + low
}
