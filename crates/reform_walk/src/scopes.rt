//! Scopes inside others.

ghost use Rattle.std.specs.Prelude.{◌≡◌, IfOk, OnOk};
ghost use Rattle.node_tree.specs.Tree.{block};
ghost use Rattle.reform_blocks.specs.Parts.{carrier};
ghost use Rattle.walk_laws.specs.Expressions as spec;
ghost use Rattle.reform_walk.specs.States.{state_of};

use crate::here::Here;
use crate::state::Walk;
use node_tree::Block;
use nu_value::Shape;
use reform_base::Part;
use reform_values::Valued;
use sqlite_items::Items;
use std::alloc::AllocError;

impl Walk {
    /// The walk of the scope that comes next, and of what is evaluated outside first. Its number is `self.scope`.
    pub fn begun(&self) -> Result<Walk, AllocError>
        ensures { IfOk result (λ walk. state_of walk ≡ spec.begun (state_of self.now)) }
    {
        match self.scope.checked_add(1) {
            Some(scope) => Ok(Walk {
                alloc: self.alloc,
                next: self.next,
                scope,
                codes: Items::new(self.alloc),
            }),
            None => Err(AllocError),
        }
    }

    /// Enters the body of a scope, and answers the temporary that comes next outside.
    pub fn entered<H: Here>(&mut self, inside: &H) -> Result<u64, AllocError>
        ensures outside { IfOk result (λ next. next ≡ self.old.next) }
        ensures state { OnOk result (state_of self.new ≡ spec.entered (H.context inside.now) (state_of self.old)) }
    {
        let outside = self.next;
        self.next = inside.first_free()?;
        Ok(outside)
    }

    /// Ends a scope that was walked by itself: its code stands in front of those inside it, and what it makes outside is made.
    pub fn ended<H: Here>(
        &mut self,
        walk: Walk,
        inside: &H,
        params: Shape,
        body: Block,
        made: Valued,
    ) -> Result<Part, AllocError>
        ensures is { IfOk result (λ p. carrier p ≡ carrier made.part) }
        ensures state { OnOk result (state_of self.new ≡ spec.ended (state_of self.old) (H.context inside.now) params (block body) (state_of walk) made.next) }
    {
        let code = inside.code(self.alloc, params, body)?;
        self.codes.push(code)?;
        let Walk {
            alloc: _,
            next: _,
            scope,
            codes,
        } = walk;
        self.codes.append(codes)?;
        self.scope = scope;
        Ok(self.settled(made))
    }
}
