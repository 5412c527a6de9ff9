//! What the rules of the grammar call for the expressions under them.

ghost use Rattle.py_grammar.specs.Parse as spec;
ghost use Rattle.py_grammar.specs.Parse.{Reads};
ghost use Rattle.py_cursor.specs.Nests.{Nests};

use crate::cursor::Cursor;
use py_ast::Expr;
use py_grammar::{Found, ParseEnd};
use sqlite_items::Boxed;
use std::alloc::Global;

/// The parser of what is nested, with which the rules are proved each by itself.
#[derive(Drop)]
pub struct Nested<F> {
    pub alloc: Global,
    /// How many tokens were left, which bounds the turns.
    pub fuel: usize,
    /// An expression of a level, no deeper than is said. Trees are on the heap while the parser goes on, so that a frame of the
    /// recursion holds no whole expression.
    pub again: F,
}

impl<
    F: Fn(Global, &mut Cursor<'_>, usize, u32, u32) -> Result<Found<Boxed<Expr>>, ParseEnd>,
> Nested<F> {
    pub fn again(
        &self,
        tokens: &mut Cursor<'_>,
        least: u32,
        depth: u32,
    ) -> Result<Found<Boxed<Expr>>, ParseEnd>
        requires { Nests self.now.fuel (F.pre self.now.again) (F.post self.now.again) }
        ensures { Reads (spec.parse self.now.fuel least depth tokens.old) result tokens.new }
    {
        (self.again)(self.alloc, tokens, self.fuel, least, depth)
    }
}
