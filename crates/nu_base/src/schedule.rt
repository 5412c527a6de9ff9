//! Which calls of an object are to fail.

ghost use Rattle.std.specs.Prelude.{◌≡◌, OnOk, OnErr, IsTrue, false};
ghost use Rattle.nu_base.specs.Calls.{after_call, also_failing, next_fails, no_calls};
ghost use Rattle.nu_base.specs.Outside.{Faulted};

use crate::ending::Memory;
use std::alloc::Global;
use std::marker::Model;

/// The numbers of the calls that are to fail, counted from 1, how many calls were made and how many failed.
#[derive(Drop)]
pub(crate) struct Schedule {
    failing: Vec<u64>,
    made: u64,
    faults: u64,
}

impl Model for Schedule {
    ghost use Rattle.nu_base.specs.Calls.{Calls};

    ghost Value = { Calls };

    ghost view = { λ s. record { failing = s.failing.items; made = s.made; faults = s.faults } };
}

impl Schedule {
    pub(crate) fn new(alloc: Global) -> Schedule
        ensures { result ≡ no_calls }
    {
        Schedule {
            failing: Vec::new(alloc),
            made: 0,
            faults: 0,
        }
    }

    /// Lists a call, which then fails.
    pub(crate) fn add(&mut self, call: u64) -> Result<(), Memory>
        ensures ok { OnOk result (self.new ≡ also_failing self.old call) }
        ensures err { OnErr result (self.new ≡ self.old) }
    {
        self.failing.push(call)?;
        Ok(())
    }

    /// Counts a call, and answers whether it fails.
    pub(crate) fn call_fails(&mut self) -> bool
        ensures fails { result ≡ next_fails self.old }
        ensures counted { self.new ≡ after_call self.old }
        ensures faulted { IsTrue result → Faulted self.old.faults self.new.faults }
        ensures quiet { result ≡ false → self.new.faults ≡ self.old.faults }
    {
        self.made = self.made.saturating_add(1);
        let fails = self.failing.contains(&self.made);
        if fails {
            self.faults = self.faults.saturating_add(1);
        }
        fails
    }
}
