//! The functions that wait for the one that runs, and registers that are used again.

ghost use Rattle.std.specs.Prelude.{◌≡◌, ◌<◌, ◌^◌, ◌∷◌, [], IfOk, IsOk, MatchOption, None, OnOk, length, replicate};

use c_meaning::Activation;
use nu_value::Slots;
use std::alloc::{AllocError, Global};
use std::marker::Model;

/// The functions that wait, the one that waits for the running function first. There is room for 1,000.
#[derive(Drop)]
pub struct Stack {
    // the other way round
    waiting: Vec<Activation>,
    // registers of functions that are over; only their room is kept
    spare: Vec<Slots>,
}

impl Model for Stack {
    ghost use Rattle.std.specs.Prelude.{◌≤◌, List, reverse, vec_capacity};
    ghost use Rattle.c_meaning.specs.declared.state.Activation.{Activation as Element};

    ghost Value = { List Element };

    ghost view = { λ t. reverse t.waiting.items };

    ghost invariant = { λ t. 1000 ≤ vec_capacity t.waiting };
}

// So many registers without a value, where there were none.
#[tactic(auto, using(crate::proofs::Registers::one_more))]
fn fill(registers: &mut Slots, count: u64) -> Result<(), AllocError>
    requires { registers.old ≡ [] }
    ensures { OnOk result (registers.new ≡ replicate count None) }
{
    for made in 0..count {
        registers.push(None)?;
    }
    Ok(())
}

impl Stack {
    pub fn new(alloc: Global) -> Result<Stack, AllocError>
        ensures { IfOk result (λ t. t ≡ []) }
    {
        Ok(Stack {
            waiting: Vec::with_capacity(alloc, 1000)?,
            spare: Vec::new(alloc),
        })
    }

    /// How many functions wait.
    #[inline]
    pub fn len(&self) -> usize
        ensures number { result ≡ length self.now }
        ensures small { result < 2 ^ 63 }
    {
        self.waiting.len()
    }

    #[inline]
    pub fn push(&mut self, activation: Activation) -> Result<(), AllocError>
        ensures ok { OnOk result (self.new ≡ activation ∷ self.old) }
        ensures sure { length self.old < 1000 → IsOk result }
    {
        self.waiting.push(activation)?;
        Ok(())
    }

    #[inline]
    pub fn pop(&mut self) -> Option<Activation>
        ensures { MatchOption result ((self.old ≡ []) × (self.new ≡ [])) (λ top. self.old ≡ top ∷ self.new) }
    {
        self.waiting.pop()
    }

    pub fn clear(&mut self)
        ensures { self.new ≡ [] }
    {
        self.waiting.clear();
    }

    /// So many registers without a value.
    pub fn registers(&mut self, alloc: Global, count: u64) -> Result<Slots, AllocError>
        ensures value { IfOk result (λ registers. registers ≡ replicate count None) }
        ensures same { self.new ≡ self.old }
    {
        let mut registers = match self.spare.pop() {
            Some(registers) => registers,
            None => Slots::new(alloc),
        };
        registers.clear();
        fill(&mut registers, count)?;
        Ok(registers)
    }

    /// Registers of a function that is over.
    #[inline]
    pub fn reuse(&mut self, registers: Slots)
        ensures { self.new ≡ self.old }
    {
        let _ = self.spare.push(registers);
    }
}
