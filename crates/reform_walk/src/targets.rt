//! What is bound, and the clauses of comprehensions, whose parts are made.

ghost use Rattle.std.specs.Prelude.{◌≡◌, ◌+◌, map, OnOk, IfOk};
ghost use Rattle.code_forms.specs.declared.operand.Operand.TheVariants as operand;
ghost use Rattle.node_tree.specs.Tree.{block};
ghost use Rattle.carried_codes.specs.Places as places;
ghost use Rattle.carried_codes.specs.Statements as statements;
ghost use Rattle.reform_blocks.specs.Parts.{carrier};
ghost use Rattle.reform_functions.specs.Turning.{made_of};
ghost use Rattle.reform_targets.specs.Places.{place_of};
ghost use Rattle.walk_laws.specs.Expressions as spec;
ghost use Rattle.walk_laws.specs.States.{at, done};
ghost use Rattle.reform_walk.specs.Made.{turn_of};
ghost use Rattle.reform_walk.specs.States.{state_of};

use crate::parts::Turn;
use crate::state::Walk;
use node_tree::{Block, Operand, Temps};
use op_forms::Op;
use reform_base::Part;
use reform_functions::{Made, emit, filter, gather, push, put};
use reform_targets::{Place, assign};
use reform_turns::{for_loop, return_value};
use sqlite_items::Items;
use std::alloc::{AllocError, Global};

/// What is collected by an operation into a temporary is returned; else the block is all.
pub fn gathered(
    alloc: Global,
    line: u32,
    op: Option<Op>,
    into: u64,
    filling: Block,
) -> Result<Block, AllocError>
    ensures { IfOk result (λ b. block b ≡ spec.gathered line op into (block filling)) }
{
    match op {
        None => Ok(filling),
        Some(op) => gather(alloc, op, into, filling, line),
    }
}

impl Walk {
    /// What has no value draws its temporaries.
    fn finished(&mut self, made: Made) -> Block
        ensures is { block result ≡ (made_of made).block }
        ensures state { state_of self.new ≡ at made.next (state_of self.old) }
    {
        let Made { block, next } = made;
        self.next = next;
        block
    }

    /// The next temporary is drawn.
    pub fn drawn(&mut self) -> Result<u64, AllocError>
        ensures is { IfOk result (λ item. item ≡ self.old.next) }
        ensures state { OnOk result (state_of self.new ≡ at (self.old.next + 1) (state_of self.old)) }
    {
        let item = self.room()?;
        self.next = item + 1;
        Ok(item)
    }

    /// What is in a temporary goes to a target.
    pub fn assigned(&mut self, item: u64, place: Place) -> Result<Block, AllocError>
        ensures is { IfOk result (λ b. block b ≡ (places.assign self.old.next (operand.Temp item) (place_of place)).block) }
        ensures state { OnOk result (state_of self.new ≡ at (places.assign self.old.next (operand.Temp item) (place_of place)).next (state_of self.old)) }
    {
        let mut temps = Temps::new(self.alloc, self.room()?);
        let block = assign(self.alloc, Operand::Temp(item), place, &mut temps)?;
        self.next = temps.fresh()?;
        Ok(block)
    }

    /// The body of a lambda.
    pub fn returned(&self, value: Part) -> Result<Block, AllocError>
        ensures is { IfOk result (λ b. block b ≡ (done (statements.return_value (carrier value)) (state_of self.now)).is) }
        ensures state { OnOk result ((done (statements.return_value (carrier value)) (state_of self.now)).state ≡ state_of self.now) }
    {
        return_value(value)
    }

    pub fn pushed(&mut self, line: u32, into: Operand, x: Part) -> Result<Block, AllocError>
        ensures is { IfOk result (λ b. block b ≡ (done (statements.push line into (carrier x)) (state_of self.old)).is) }
        ensures state { OnOk result (state_of self.new ≡ (done (statements.push line into (carrier x)) (state_of self.old)).state) }
    {
        let next = self.room()?;
        let made = push(self.alloc, into, x, line, next)?;
        Ok(self.finished(made))
    }

    pub fn put(&mut self, line: u32, into: Operand, key: Part, x: Part) -> Result<Block, AllocError>
        ensures is { IfOk result (λ b. block b ≡ (done (statements.put line into (carrier key) (carrier x)) (state_of self.old)).is) }
        ensures state { OnOk result (state_of self.new ≡ (done (statements.put line into (carrier key) (carrier x)) (state_of self.old)).state) }
    {
        let next = self.room()?;
        let made = put(self.alloc, into, key, x, line, next)?;
        Ok(self.finished(made))
    }

    pub fn emitted(&mut self, line: u32, x: Part) -> Result<Block, AllocError>
        ensures is { IfOk result (λ b. block b ≡ (done (statements.emit line (carrier x)) (state_of self.old)).is) }
        ensures state { OnOk result (state_of self.new ≡ (done (statements.emit line (carrier x)) (state_of self.old)).state) }
    {
        let next = self.room()?;
        let made = emit(x, line, next)?;
        Ok(self.finished(made))
    }

    // A further clause of a comprehension around a block.
    fn turned(&mut self, line: u32, turn: Turn, body: Block) -> Result<Block, AllocError>
        ensures is { IfOk result (λ b. block b ≡ (done (spec.turned line (turn_of turn) (block body)) (state_of self.old)).is) }
        ensures state { OnOk result (state_of self.new ≡ (done (spec.turned line (turn_of turn) (block body)) (state_of self.old)).state) }
    {
        let next = self.room()?;
        let made = match turn {
            Turn::Ranges { item, bind, over } => {
                let other = Items::new(self.alloc);
                for_loop(self.alloc, over, item, bind, body, other, line, next)?
            }
            Turn::Filters { test } => filter(self.alloc, test, body, line, next)?,
        };
        Ok(self.finished(made))
    }

    /// Further clauses of a comprehension around a block, the last of them inside.
    pub fn around(
        &mut self,
        line: u32,
        element: Block,
        turns: Vec<Turn>,
    ) -> Result<Block, AllocError>
        ensures is { IfOk result (λ b. block b ≡ (spec.around line (block element) (map turn_of turns.items) (state_of self.old)).is) }
        ensures state { OnOk result (state_of self.new ≡ (spec.around line (block element) (map turn_of turns.items) (state_of self.old)).state) }
    {
        let mut left = turns;
        let mut whole = element;
        while let Some(turn) = left.pop() {
            whole = self.turned(line, turn, whole)?;
        }
        Ok(whole)
    }
}
