//! The recursion of the grammar. The rules take the parser of what lies under them as a parameter, so that each is proved by
//! itself.

ghost use Rattle.std.specs.Prelude.{◌≡◌, ◌≤◌, length};
ghost use Rattle.py_grammar.specs.Parse as spec;
ghost use Rattle.py_grammar.specs.Parse.{Reads};

use py_ast::Expr;
use py_cursor::{Cursor, Nested};
use py_grammar::{Found, ParseEnd};
use sqlite_items::Boxed;
use std::alloc::Global;

/// The rules, over the parser of what is nested in them.
#[derive(Drop)]
pub struct Grammar<F> {
    pub nested: Nested<F>,
}

/// An expression of this level that is no deeper than `depth`.
pub fn parse(
    alloc: Global,
    tokens: &mut Cursor<'_>,
    fuel: usize,
    least: u32,
    depth: u32,
) -> Result<Found<Boxed<Expr>>, ParseEnd>
    ensures { Reads (spec.parse fuel least depth tokens.old) result tokens.new }
{
    if fuel == 0 {
        return Err(tokens.refuse());
    }
    Grammar {
        nested: Nested {
            alloc,
            fuel: fuel - 1,
            again: parse,
        },
    }
    .level(tokens, least, depth)
}
