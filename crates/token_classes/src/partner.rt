//! The place of a bracket's partner, in four bytes.

ghost use Rattle.std.specs.Prelude.{◌≡◌, ◌<◌, Some, None};

use std::marker::Model;

/// The number that stands for no place. A view has far fewer places.
const NO_PLACE: u32 = u32::MAX;

/// Where the partner of a token stands, if it has one: an `Option<u32>` in half of its bytes.
///
/// A contract sees the `Option`.
#[derive(Clone, Copy, Debug, PartialEq, Eq)]
pub struct Partner {
    place: u32,
}

const _: () = prove!(size_of::<Partner>() <= 4);

impl Model for Partner {
    ghost use Rattle.std.specs.Prelude.{Option, ℕ};

    ghost Value = { Option ℕ };

    ghost use Rattle.token_classes.specs.Partner.{partner_in, number_of, number_back};

    ghost view = { λ a. partner_in a.place };

    ghost inverse = { λ p. record { place = number_of p } };

    ghost inverse_ok = { λ a h i. record { place = number_back a.place i } };
}

impl Partner {
    /// No partner.
    #[inline(always)]
    pub fn none() -> Self
        ensures { result ≡ None }
    {
        Partner { place: NO_PLACE }
    }

    /// The partner at a place.
    #[inline(always)]
    pub fn at(place: u32) -> Self
        requires { place < 4294967295 }
        ensures { result ≡ Some place }
    {
        Partner { place }
    }

    /// The place where it stands, if there is one.
    #[inline(always)]
    pub fn place(self) -> Option<u32>
        ensures { result ≡ self }
    {
        if self.place == NO_PLACE {
            None
        } else {
            Some(self.place)
        }
    }
}
