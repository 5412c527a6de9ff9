//! Slices (reference, section 6.3.3).

ghost use Rattle.std.specs.Prelude.{◌≡◌, ◌≤◌, length};
ghost use Rattle.py_grammar.specs.Parse as spec;
ghost use Rattle.py_grammar.specs.Parse.{Reads};
ghost use Rattle.py_cursor.specs.Nests.{Nests};

use crate::cursor::Cursor;
use crate::nested::Nested;
use crate::nodes::maybe_opened;
use crate::role::{EXPRESSION, can_begin};
use py_ast::{Expr, Sign, Subscript};
use py_grammar::{Found, ParseEnd};
use sqlite_items::Boxed;
use std::alloc::Global;

impl<
    F: Fn(Global, &mut Cursor<'_>, usize, u32, u32) -> Result<Found<Boxed<Expr>>, ParseEnd>,
> Nested<F> {
    /// A bound of a slice, if one is written.
    #[tactic(auto, unfolding(py_grammar::specs::Parse::bound))]
    pub fn bound(
        &self,
        tokens: &mut Cursor<'_>,
        depth: u32,
    ) -> Result<Found<Option<Boxed<Expr>>>, ParseEnd>
        requires { Nests self.now.fuel (F.pre self.now.again) (F.post self.now.again) }
        ensures { Reads (spec.bound (spec.parse self.now.fuel) self.now.fuel depth tokens.old) result tokens.new }
    {
        if !can_begin(EXPRESSION, tokens.mark()) {
            return Ok(Found {
                tree: None,
                height: 0,
            });
        }
        let x = self.again(tokens, EXPRESSION, depth)?;
        Ok(Found {
            tree: Some(x.tree),
            height: x.height,
        })
    }

    /// The step of a slice, if one is written.
    #[tactic(auto, unfolding(py_grammar::specs::Parse::step))]
    pub fn step(
        &self,
        tokens: &mut Cursor<'_>,
        depth: u32,
    ) -> Result<Found<Option<Boxed<Expr>>>, ParseEnd>
        requires { Nests self.now.fuel (F.pre self.now.again) (F.post self.now.again) }
        ensures { Reads (spec.step (spec.parse self.now.fuel) self.now.fuel depth tokens.old) result tokens.new }
    {
        if !tokens.sees(Sign::Colon) {
            return Ok(Found {
                tree: None,
                height: 0,
            });
        }
        tokens.take();
        self.bound(tokens, depth)
    }

    /// A slice (reference, section 6.3.3), behind its lower bound.
    #[tactic(auto, unfolding(py_grammar::specs::Parse::slice))]
    pub fn slice(
        &self,
        tokens: &mut Cursor<'_>,
        depth: u32,
        lower: Found<Option<Boxed<Expr>>>,
    ) -> Result<Found<Boxed<Subscript<Expr>>>, ParseEnd>
        requires { Nests self.now.fuel (F.pre self.now.again) (F.post self.now.again) }
        ensures { Reads (spec.slice (spec.parse self.now.fuel) self.now.fuel depth lower tokens.old) result tokens.new }
    {
        tokens.take();
        let upper = self.bound(tokens, depth)?;
        let by = self.step(tokens, depth)?;
        let height = lower.height.max(upper.height.max(by.height));
        let lower = maybe_opened(lower.tree);
        let upper = maybe_opened(upper.tree);
        let by = maybe_opened(by.tree);
        Ok(Found {
            tree: Boxed::new(self.alloc, Subscript::Slice(lower, upper, by))?,
            height,
        })
    }
}
