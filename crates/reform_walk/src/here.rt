//! Where the walk is.

ghost use Rattle.std.specs.Prelude.{◌≡◌, ◌<◌, ◌^◌, ◌+◌, Some, IfOk};
ghost use Rattle.node_tree.specs.Tree.{block};
ghost use Rattle.py_meaning.specs.Resolved as meaning;
ghost use Rattle.carries_base.specs.Frames.{behind};
ghost use Rattle.walk_laws.specs.Contexts.{homes_in, seat_in, cells_in, code_in};
ghost use Rattle.walk_laws.specs.States.{seen};
ghost use Rattle.reform_names.specs.Homes.{seat_of};

use node_tree::{Block, NodeCode};
use nu_text::RcStr;
use nu_value::Shape;
use reform_names::Home;
use std::alloc::{AllocError, Global};

/// A scope in a script, with the places of its names among the temporaries of its code.
pub trait Here: Drop {
    ghost use Rattle.py_meaning.specs.Resolved.{Context};

    ghost context: { Self → Context };

    /// Where a name that stands here lives.
    fn home(&self, name: &RcStr) -> Result<Home, AllocError>
        ensures { IfOk result (λ home. seat_of home ≡ seat_in (context self.now) name.now) };

    /// A name as it counts here: mangled inside a class.
    fn word(&self, name: &RcStr) -> Result<RcStr, AllocError>
        ensures { IfOk result (λ word. word ≡ meaning.name_in (context self.now) name.now) };

    /// The temporaries of the cells that an inner scope gets.
    fn cells(&self, alloc: Global, inner: usize) -> Result<Vec<u64>, AllocError>
        ensures { IfOk result (λ cells. cells.items ≡ cells_in (context self.now) inner) };

    /// The number of the code of a scope.
    fn code_number(&self, scope: usize) -> Result<u32, AllocError>
        ensures { IfOk result (λ number. number ≡ (context self.now).first + scope) };

    /// Inside a scope with these parameters, in the same class.
    fn inside(&self, alloc: Global, scope: usize, params: &Shape) -> Result<Self, AllocError>
        ensures { IfOk result (λ inner. context inner ≡ meaning.inside (context self.now) scope params.now (context self.now).class) };

    /// Inside the block of a class with this name.
    fn inside_class(&self, alloc: Global, scope: usize, name: &RcStr) -> Result<Self, AllocError>
        ensures { IfOk result (λ inner. context inner ≡ meaning.inside (context self.now) scope meaning.handed (Some name.now)) };

    /// The first temporary that no name has.
    fn first_free(&self) -> Result<u64, AllocError>
        ensures { IfOk result (λ next. next ≡ behind (homes_in (context self.now))) };

    /// The code of this scope, whose body is made.
    fn code(&self, alloc: Global, params: Shape, body: Block) -> Result<NodeCode, AllocError>
        ensures { IfOk result (λ code. seen code ≡ code_in (context self.now) params (block body)) };
}
