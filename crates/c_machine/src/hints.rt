//! Where names were found.

ghost use Rattle.std.specs.Prelude.{◌≡◌, IfSome, slice_get, slice_set};

use std::alloc::{AllocError, Global};

// How many places are kept.
const ROOM: u64 = 4096;

/// Where statements that read or set a name found it last. Statements may share a place, and one that is wrong costs time alone.
#[derive(Drop)]
pub(crate) struct Hints {
    places: Vec<usize>,
}

/// Where a statement keeps its place, by its function and its number.
#[inline]
pub(crate) fn seat(function: u32, place: u64) -> usize {
    (place.wrapping_add((function as u64).wrapping_mul(389)) % ROOM) as usize
}

impl Hints {
    pub(crate) fn new(alloc: Global) -> Result<Hints, AllocError> {
        let mut places = Vec::new(alloc);
        for _ in 0..ROOM {
            places.push(0)?;
        }
        Ok(Hints { places })
    }

    /// The place that is kept at a seat.
    #[inline]
    pub(crate) fn near(&self, seat: usize) -> usize
        ensures { IfSome (slice_get self.now.places.items seat) (λ place. result ≡ place) }
    {
        match self.places.get(seat) {
            Some(place) => *place,
            None => 0,
        }
    }

    /// Keeps a place.
    #[inline]
    pub(crate) fn keep(&mut self, seat: usize, place: usize)
        ensures { self.new.places.items ≡ slice_set self.old.places.items seat place }
    {
        if seat < self.places.len() {
            self.places[seat] = place;
        }
    }
}
