//! What paused generators keep.

ghost use Rattle.std.specs.Prelude.{◌≡◌, ◌<◌, [], None, OnOk, Option, Some, slice_get, slice_set, vec_len, MatchOption};
ghost use Rattle.nu_calls.specs.Surroundings.{keep_at, kept_at};
ghost use Rattle.c_meaning.specs.declared.state.Kept.{Kept as Keeping};

use c_meaning::Kept;
use nu_value::Boxed;
use std::alloc::{AllocError, Global};
use std::marker::Model;
use std::mem;

/// What each paused generator keeps, by the number of its object.
#[derive(Drop)]
pub struct Seats {
    list: Vec<Option<Boxed<Kept>>>,
}

impl Model for Seats {
    ghost use Rattle.std.specs.Prelude.{List, Option};
    ghost use Rattle.c_meaning.specs.declared.state.Kept.{Kept as Element};

    ghost Value = { List (Option Element) };

    ghost view = { λ t. t.list.items };
}

// There is a place of this number, and nothing is kept at those that are new.
#[tactic(auto, using(crate::proofs::Keeping::one_seat))]
fn reach(list: &mut Vec<Option<Boxed<Kept>>>, place: usize) -> Result<(), AllocError>
    ensures room { OnOk result (place < vec_len list.new) }
    ensures same { OnOk result ((x : Option Keeping) → keep_at list.new.items place x ≡ keep_at list.old.items place x) }
{
    while list.len() <= place {
        list.push(None)?;
    }
    Ok(())
}

// What a place holds is taken out.
fn vacate(list: &mut Vec<Option<Boxed<Kept>>>, place: usize) -> Option<Boxed<Kept>>
    requires { place < vec_len list.old }
    ensures value { slice_get list.old.items place ≡ Some result }
    ensures after { list.new.items ≡ slice_set list.old.items place None }
{
    mem::replace(&mut list[place], None)
}

impl Seats {
    pub fn new(alloc: Global) -> Seats
        ensures { result ≡ [] }
    {
        Seats {
            list: Vec::new(alloc),
        }
    }

    /// Takes out what the generator of this number keeps, if it is paused.
    #[tactic(auto, using(crate::proofs::Keeping::kept_is, crate::proofs::Keeping::kept_beyond, crate::proofs::Keeping::keep_is))]
    pub fn take(&mut self, generator: u64) -> Option<Kept>
        ensures { MatchOption result (kept_at self.old generator ≡ None) (λ k. (kept_at self.old generator ≡ Some k) × (self.new ≡ keep_at self.old generator None)) }
    {
        let place = generator as usize;
        if self.list.len() <= place {
            return None;
        }
        match vacate(&mut self.list, place) {
            Some(kept) => Some(kept.into_inner()),
            None => None,
        }
    }

    /// The generator of this number keeps this.
    #[tactic(auto, using(crate::proofs::Keeping::keep_is))]
    pub fn keep(&mut self, alloc: Global, generator: u64, kept: Kept) -> Result<(), AllocError>
        ensures { OnOk result (self.new ≡ keep_at self.old generator (Some kept)) }
    {
        let place = generator as usize;
        reach(&mut self.list, place)?;
        self.list[place] = Some(Boxed::new(alloc, kept)?);
        Ok(())
    }
}
