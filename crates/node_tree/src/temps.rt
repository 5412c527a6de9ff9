//! Numbers for temporaries.

ghost use Rattle.std.specs.Prelude.{◌≡◌, ◌+◌, ◌<◌, ◌^◌, IfOk, OnOk, OnErr};

use std::alloc::{AllocError, Global};
use std::marker::Model;

/// Hands out numbers of temporaries. It is seen as the next number.
#[derive(Drop)]
pub struct Temps {
    first: u64,
    // one for each number that was drawn, so that want of memory alone limits them
    drawn: Vec<u8>,
}

impl Model for Temps {
    ghost use Rattle.std.specs.Prelude.{ℕ, ◌+◌, ◌<◌, ◌^◌, length};

    ghost Value = { ℕ };

    ghost view = { λ t. t.first + length t.drawn.items };

    ghost invariant = { λ t. t.first < 2 ^ 63 };
}

impl Temps {
    /// The numbers from this one on.
    pub fn new(alloc: Global, first: u64) -> Temps
        requires { first < 2 ^ 63 }
        ensures { result ≡ first }
    {
        Temps {
            first,
            drawn: Vec::new(alloc),
        }
    }

    /// A number that was never answered before.
    pub fn fresh(&mut self) -> Result<u64, AllocError>
        ensures number { IfOk result (λ number. number ≡ self.old) }
        ensures ok { OnOk result (self.new ≡ self.old + 1) }
        ensures err { OnErr result (self.new ≡ self.old) }
    {
        let number = self.first + self.drawn.len() as u64;
        self.drawn.push(0)?;
        Ok(number)
    }
}
