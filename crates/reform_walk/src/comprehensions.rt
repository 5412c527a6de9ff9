//! Comprehensions, around what stands in them.

ghost use Rattle.std.specs.Prelude.{◌≡◌, ◌+◌, IfOk, OnOk};
ghost use Rattle.node_tree.specs.Tree.{block};
ghost use Rattle.py_meaning.specs.Resolved as meaning;
ghost use Rattle.carries_base.specs.Frames.{behind};
ghost use Rattle.carried_codes.specs.Expressions as expressions;
ghost use Rattle.carried_codes.specs.Statements as statements;
ghost use Rattle.reform_blocks.specs.Parts.{carrier};
ghost use Rattle.reform_values.specs.Values.{valued_of};
ghost use Rattle.walk_laws.specs.Contexts.{cells_in, homes_in};
ghost use Rattle.walk_laws.specs.Expressions as spec;
ghost use Rattle.walk_laws.specs.States.{at};
ghost use Rattle.reform_walk.specs.Gathering.{closing, ranged_of};
ghost use Rattle.reform_walk.specs.States.{state_of};

use crate::functions::room_for;
use crate::here::Here;
use crate::shapes::handed;
use crate::state::Walk;
use crate::targets::gathered;
use node_tree::Block;
use op_forms::Op;
use reform_base::Part;
use reform_functions::{comprehension, over};
use reform_values::Valued;
use std::alloc::AllocError;

/// A comprehension whose element comes next: the walk of its scope, which begins there, where that stands, and the first temporary that no
/// name has there.
#[derive(Drop)]
pub struct Comprehension<H> {
    pub walk: Walk,
    pub here: H,
    pub first: u64,
}

/// The clauses of a comprehension: the temporary of its items, how they are bound, what they range over, the temporary that comes next
/// behind that outside, and what is done for each item.
#[derive(Drop)]
pub struct Ranged {
    pub item: u64,
    pub bind: Block,
    pub over: Part,
    pub next: u64,
    pub body: Block,
}

impl Walk {
    // What is collected into is drawn.
    fn collects(&mut self, op: Option<Op>, first: u64) -> Result<(), AllocError>
        ensures { OnOk result (state_of self.new ≡ at (spec.into_drawn op first) (state_of self.old)) }
    {
        self.next = first;
        if op.is_some() {
            self.drawn()?;
        }
        Ok(())
    }

    /// Begins the comprehension that comes next.
    pub fn comprehension_begins<H: Here>(
        &self,
        here: &H,
        op: Option<Op>,
    ) -> Result<Comprehension<H>, AllocError>
        ensures place { IfOk result (λ inner. H.context inner.here ≡ meaning.inside (H.context here.now) self.now.scope meaning.handed (H.context here.now).class) }
        ensures first { IfOk result (λ inner. inner.first ≡ behind (homes_in (H.context inner.here))) }
        ensures state { IfOk result (λ inner. state_of inner.walk ≡ at (spec.into_drawn op inner.first) (spec.begun (state_of self.now))) }
    {
        let mut walk = self.begun()?;
        let params = handed(self.alloc)?;
        let inside = here.inside(self.alloc, self.scope, &params)?;
        let first = inside.first_free()?;
        walk.collects(op, first)?;
        Ok(Comprehension {
            walk,
            here: inside,
            first,
        })
    }

    // The loop over the first iterable, whose iterator is the parameter, and what is done with what it collects.
    fn looped(
        &self,
        line: u32,
        op: Option<Op>,
        first: u64,
        item: u64,
        bind: Block,
        body: Block,
    ) -> Result<Block, AllocError>
        ensures { IfOk result (λ b. block b ≡ spec.gathered line op first (statements.over line item 0 (block bind) (block body) self.now.next)) }
    {
        let next = self.room()?;
        let whole = over(self.alloc, item, 0, bind, body, line, next)?;
        gathered(self.alloc, line, op, first, whole)
    }

    // The comprehension of the scope that comes next.
    fn comprehension_made<H: Here>(
        &self,
        here: &H,
        line: u32,
        over: Part,
        next: u64,
    ) -> Result<Valued, AllocError>
        ensures { IfOk result (λ v. valued_of v ≡ expressions.comprehension line ((H.context here.now).first + self.now.scope) (carrier over) (cells_in (H.context here.now) self.now.scope) next) }
    {
        room_for(next, 2)?;
        let code = here.code_number(self.scope)?;
        let cells = here.cells(self.alloc, self.scope)?;
        comprehension(self.alloc, code, over, cells, line, next)
    }

    /// Ends a comprehension whose clauses are made.
    pub fn comprehension_ends<H: Here>(
        &mut self,
        here: &H,
        line: u32,
        op: Option<Op>,
        inner: Comprehension<H>,
        ranged: Ranged,
    ) -> Result<Part, AllocError>
        ensures is { IfOk result (λ p. carrier p ≡ (closing (H.context here.now) (H.context inner.here) line op inner.first (state_of self.old) (ranged_of ranged) (state_of inner.walk)).is) }
        ensures state { OnOk result (state_of self.new ≡ (closing (H.context here.now) (H.context inner.here) line op inner.first (state_of self.old) (ranged_of ranged) (state_of inner.walk)).state) }
    {
        let Comprehension {
            walk,
            here: inside,
            first,
        } = inner;
        let Ranged {
            item,
            bind,
            over,
            next,
            body,
        } = ranged;
        let body = walk.looped(line, op, first, item, bind, body)?;
        let made = self.comprehension_made(here, line, over, next)?;
        let params = handed(self.alloc)?;
        self.ended(walk, &inside, params, body, made)
    }
}
