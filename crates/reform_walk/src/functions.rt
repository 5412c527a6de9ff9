//! Functions, around their bodies.

ghost use Rattle.std.specs.Prelude.{◌≡◌, ◌+◌, ◌<◌, ◌^◌, IfOk, OnOk};
ghost use Rattle.node_tree.specs.Tree.{block};
ghost use Rattle.carried_codes.specs.Expressions as expressions;
ghost use Rattle.walk_laws.specs.Contexts.{cells_in};
ghost use Rattle.walk_laws.specs.Expressions as spec;
ghost use Rattle.reform_blocks.specs.Parts.{carrier};
ghost use Rattle.reform_values.specs.Values.{valued_of};
ghost use Rattle.reform_walk.specs.Made.{defaults_of};
ghost use Rattle.reform_walk.specs.States.{state_of};

use crate::here::Here;
use crate::parts::Defaults;
use crate::state::Walk;
use node_tree::Block;
use nu_value::Shape;
use reform_base::Part;
use reform_functions::function;
use reform_values::Valued;
use std::alloc::AllocError;

/// A function whose body comes next: the walk of its scope, which begins there, where that stands, its parameters, their defaults, which
/// are evaluated, and the temporary that comes next outside.
#[derive(Drop)]
pub struct Function<H> {
    pub walk: Walk,
    pub here: H,
    pub params: Shape,
    pub defaults: Defaults,
    pub outside: u64,
}

/// For 2^62 temporaries memory is wanting.
pub fn room_for(next: u64, more: usize) -> Result<(), AllocError>
    ensures { OnOk result (next + 3 + more < 2 ^ 64) }
{
    if next < 1 << 62 && more < 1 << 62 {
        Ok(())
    } else {
        Err(AllocError)
    }
}

impl Walk {
    // The function of the scope that comes next.
    fn function_made<H: Here>(
        &self,
        here: &H,
        line: u32,
        defaults: Defaults,
        next: u64,
    ) -> Result<Valued, AllocError>
        ensures { IfOk result (λ v. valued_of v ≡ expressions.function line ((H.context here.now).first + self.now.scope) (defaults_of defaults).positional (defaults_of defaults).named (cells_in (H.context here.now) self.now.scope) next) }
    {
        let Defaults { positional, named } = defaults;
        room_for(next, named.len())?;
        let code = here.code_number(self.scope)?;
        let cells = here.cells(self.alloc, self.scope)?;
        function(self.alloc, code, positional, named, cells, line, next)
    }

    /// Ends a function whose body is made.
    pub fn function_ends<H: Here>(
        &mut self,
        here: &H,
        line: u32,
        function: Function<H>,
        body: Block,
    ) -> Result<Part, AllocError>
        ensures is { IfOk result (λ p. carrier p ≡ (expressions.function line ((H.context here.now).first + self.old.scope) (defaults_of function.defaults).positional (defaults_of function.defaults).named (cells_in (H.context here.now) self.old.scope) function.outside).part) }
        ensures state { OnOk result (state_of self.new ≡ spec.ended (state_of self.old) (H.context function.here) function.params (block body) (state_of function.walk) (expressions.function line ((H.context here.now).first + self.old.scope) (defaults_of function.defaults).positional (defaults_of function.defaults).named (cells_in (H.context here.now) self.old.scope) function.outside).next) }
    {
        let Function {
            walk,
            here: inside,
            params,
            defaults,
            outside,
        } = function;
        let made = self.function_made(here, line, defaults, outside)?;
        self.ended(walk, &inside, params, body, made)
    }
}
