//! The traits of the outside. An object may tell the bytes that it gives or holds, as those in memory do; real files and
//! streams tell nothing. Each object counts its faults.

ghost use Rattle.std.specs.Prelude.{◌≡◌, ℕ, List, Option};
ghost use Rattle.nu_base.specs.Outside.{CountsFetch, CountsPut, CountsTake, Fetches, Puts, Takes, told_file};

use crate::ending::{Failed, FetchTrouble, Fetched, PutTrouble};

/// Files by name.
pub trait Files {
    /// The bytes under each name, where the object tells them.
    ghost told: { Self → Option (List ℕ → Option (List ℕ)) };

    /// How often a fetch has failed.
    ghost faults: { Self → ℕ };

    /// Appends to `into` the file of a name, of at most `limit` bytes.
    ///
    /// `Longer` comes exactly where the file is longer, and `Absent` exactly where there is none; neither is a fault. After
    /// these two and after an error `into` is as before. `Failed` comes only where the count of faults rose.
    fn fetch(&mut self, name: &str, limit: u64, into: &mut Vec<u8>) -> Result<Fetched, FetchTrouble>
        ensures told { told self.new ≡ told self.old }
        ensures count { CountsFetch (faults self.old) (faults self.new) result }
        ensures bytes { Fetches (told_file (told self.old) name.now) limit into.old.items into.new.items result };
}

/// An input.
pub trait Source {
    /// The bytes that are left, where the object tells them.
    ghost left: { Self → Option (List ℕ) };

    /// How often a take has failed.
    ghost faults: { Self → ℕ };

    /// Puts the next bytes at the start of `buf`, and answers how many.
    ///
    /// They are no longer left. Zero at a buffer that isn't empty is the end of the input, and comes exactly where nothing
    /// is left. `Failed` comes only where the count of faults rose; what is left is then as before.
    fn take(&mut self, buf: &mut [u8]) -> Result<usize, Failed>
        ensures count { CountsTake (faults self.old) (faults self.new) result }
        ensures bytes { Takes (left self.old) (left self.new) buf.new result };
}

/// An output.
pub trait Sink {
    /// The bytes that it holds, where the object tells them.
    ghost held: { Self → Option (List ℕ) };

    /// How often a put has failed.
    ghost faults: { Self → ℕ };

    /// Adds a piece at the end.
    ///
    /// `Failed` comes only where the count of faults rose, and a front of the piece may have been added. After `Memory`
    /// nothing was added.
    fn put(&mut self, piece: &[u8]) -> Result<(), PutTrouble>
        ensures count { CountsPut (faults self.old) (faults self.new) result }
        ensures bytes { Puts (held self.old) (held self.new) piece.now result };
}
