//! Integers of 128 bits.

ghost use Rattle.std.specs.Prelude.{◌≡◌};

use std::marker::Model;

/// An integer from -2^127 to 2^127 - 1. It lies in two halves, since an `i128` would make each value as large as two of itself.
#[derive(Clone, Copy)]
pub struct Integer {
    high: u64,
    low: u64,
}

impl Model for Integer {
    ghost use Rattle.std.specs.Prelude.{ℤ};
    ghost use Rattle.std.specs.Coded.{coded_ℤ};

    ghost Value = { ℤ };

    ghost coded = { coded_ℤ };

    ghost use Rattle.nu_value.specs.Halves.{AreHalves, integer_of, halves_of, halves_are_exact};

    ghost view = { integer_of };

    ghost invariant = { AreHalves };

    ghost inverse = { halves_of };

    ghost inverse_ok = { halves_are_exact };
}

impl Integer {
    #[inline]
    pub fn new(number: i128) -> Integer
        ensures { result ≡ number }
    {
        let bits = number.cast_unsigned();
        Integer {
            high: (bits / (1 << 64)) as u64,
            low: (bits % (1 << 64)) as u64,
        }
    }

    #[inline]
    pub fn get(self) -> i128
        ensures { result ≡ self }
    {
        (u128::from(self.high) * (1 << 64) + u128::from(self.low)).cast_signed()
    }
}
