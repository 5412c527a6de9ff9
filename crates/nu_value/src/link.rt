//! Numbers of objects, or none.

ghost use Rattle.std.specs.Prelude.{◌≡◌, ◌<◌, ◌-◌, ◌^◌, None, Some};

use std::marker::Model;

/// The number of an object, or none, which takes no more room than a number.
#[derive(Clone, Copy)]
pub struct Link {
    // 0 for none, and else one more than the number
    place: u64,
}

impl Model for Link {
    ghost use Rattle.std.specs.Prelude.{ℕ, Option};

    ghost Value = { Option ℕ };

    ghost use Rattle.nu_value.specs.Links.{linked, place_of, place_is_exact};

    ghost view = { linked };

    ghost inverse = { place_of };

    ghost inverse_ok = { place_is_exact };
}

impl Link {
    pub fn none() -> Link
        ensures { result ≡ None }
    {
        Link { place: 0 }
    }

    /// The link to the object of this number. No heap has more than 2^63 objects.
    pub fn to(number: u64) -> Link
        requires { number < 2 ^ 64 - 1 }
        ensures { result ≡ Some number }
    {
        Link { place: number + 1 }
    }

    #[inline]
    pub fn get(self) -> Option<u64>
        ensures { result ≡ self }
    {
        if self.place == 0 {
            None
        } else {
            Some(self.place - 1)
        }
    }
}
