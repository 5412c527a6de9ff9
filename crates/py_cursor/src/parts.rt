//! Parts of lists.

ghost use Rattle.std.specs.Prelude.{◌≡◌, ◌≤◌, length};
ghost use Rattle.py_grammar.specs.Parse as spec;
ghost use Rattle.py_grammar.specs.Parse.{Reads};
ghost use Rattle.py_cursor.specs.Nests.{Nests};

use crate::comparison::comparator;
use crate::cursor::Cursor;
use crate::nested::Nested;
use crate::role::{BITOR, EXPRESSION, plain_level, star_level};
use py_ast::{Argument, Entry, Expr, Item, Link, Param, Sign};
use py_grammar::{Found, Mark, ParseEnd, Row};
use sqlite_items::Boxed;
use std::alloc::Global;

impl<
    F: Fn(Global, &mut Cursor<'_>, usize, u32, u32) -> Result<Found<Boxed<Expr>>, ParseEnd>,
> Nested<F> {
    /// An item of a list of expressions or targets.
    #[tactic(auto, unfolding(py_grammar::specs::Parse::item))]
    pub fn item(
        &self,
        tokens: &mut Cursor<'_>,
        row: Row,
        depth: u32,
    ) -> Result<Found<Item<Boxed<Expr>>>, ParseEnd>
        requires { Nests self.now.fuel (F.pre self.now.again) (F.post self.now.again) }
        ensures { Reads (spec.item (spec.parse self.now.fuel) self.now.fuel row depth tokens.old) result tokens.new }
    {
        if tokens.sees(Sign::Star) {
            let line = tokens.take();
            let x = self.again(tokens, star_level(row), depth)?;
            return Ok(Found {
                tree: Item::Star(line, x.tree),
                height: x.height,
            });
        }
        let x = self.again(tokens, plain_level(row), depth)?;
        Ok(Found {
            tree: Item::One(x.tree),
            height: x.height,
        })
    }

    /// A keyword argument, whose name and sign come next.
    #[tactic(auto, unfolding(py_grammar::specs::Parse::keyword))]
    pub fn keyword(
        &self,
        tokens: &mut Cursor<'_>,
        depth: u32,
    ) -> Result<Found<Argument<Boxed<Expr>>>, ParseEnd>
        requires { Nests self.now.fuel (F.pre self.now.again) (F.post self.now.again) }
        ensures { Reads (spec.keyword (spec.parse self.now.fuel) self.now.fuel depth tokens.old) result tokens.new }
    {
        let line = tokens.line();
        let name = tokens.name()?;
        tokens.take();
        let x = self.again(tokens, EXPRESSION, depth)?;
        Ok(Found {
            tree: Argument::Keyword(line, name, x.tree),
            height: x.height,
        })
    }

    /// An argument (reference, section 6.3.4).
    #[tactic(auto, unfolding(py_grammar::specs::Parse::argument))]
    pub fn argument(
        &self,
        tokens: &mut Cursor<'_>,
        depth: u32,
    ) -> Result<Found<Argument<Boxed<Expr>>>, ParseEnd>
        requires { Nests self.now.fuel (F.pre self.now.again) (F.post self.now.again) }
        ensures { Reads (spec.argument (spec.parse self.now.fuel) self.now.fuel depth tokens.old) result tokens.new }
    {
        match tokens.mark() {
            Mark::Sign(Sign::Star) => {
                tokens.take();
                let x = self.again(tokens, EXPRESSION, depth)?;
                Ok(Found {
                    tree: Argument::Star(x.tree),
                    height: x.height,
                })
            }
            Mark::Sign(Sign::DoubleStar) => {
                tokens.take();
                let x = self.again(tokens, EXPRESSION, depth)?;
                Ok(Found {
                    tree: Argument::Merge(x.tree),
                    height: x.height,
                })
            }
            _ => {
                if tokens.sees_keyword() {
                    return self.keyword(tokens, depth);
                }
                let x = self.again(tokens, EXPRESSION, depth)?;
                Ok(Found {
                    tree: Argument::Plain(x.tree),
                    height: x.height,
                })
            }
        }
    }

    /// An entry of a dict display (reference, section 6.2.7).
    #[tactic(auto, unfolding(py_grammar::specs::Parse::entry, py_grammar::specs::Parse::pair))]
    pub fn entry(
        &self,
        tokens: &mut Cursor<'_>,
        depth: u32,
    ) -> Result<Found<Entry<Boxed<Expr>>>, ParseEnd>
        requires { Nests self.now.fuel (F.pre self.now.again) (F.post self.now.again) }
        ensures { Reads (spec.entry (spec.parse self.now.fuel) self.now.fuel depth tokens.old) result tokens.new }
    {
        if tokens.sees(Sign::DoubleStar) {
            tokens.take();
            let x = self.again(tokens, BITOR, depth)?;
            return Ok(Found {
                tree: Entry::Merge(x.tree),
                height: x.height,
            });
        }
        let key = self.again(tokens, EXPRESSION, depth)?;
        tokens.expect(Sign::Colon)?;
        let value = self.again(tokens, EXPRESSION, depth)?;
        Ok(Found {
            tree: Entry::Pair(key.tree, value.tree),
            height: key.height.max(value.height),
        })
    }

    /// A named parameter.
    #[tactic(auto, unfolding(py_grammar::specs::Parse::named))]
    pub fn named(&self, tokens: &mut Cursor<'_>, depth: u32) -> Result<Found<Param<Expr>>, ParseEnd>
        requires { Nests self.now.fuel (F.pre self.now.again) (F.post self.now.again) }
        ensures { Reads (spec.named (spec.parse self.now.fuel) self.now.fuel depth tokens.old) result tokens.new }
    {
        let line = tokens.line();
        let name = tokens.name()?;
        if !tokens.eat(Sign::Equal) {
            return Ok(Found {
                tree: Param::Named(line, name, None),
                height: 0,
            });
        }
        let x = self.again(tokens, EXPRESSION, depth)?;
        Ok(Found {
            tree: Param::Named(line, name, Some(x.tree.into_inner())),
            height: x.height,
        })
    }

    /// A parameter (reference, section 8.7).
    #[tactic(auto, unfolding(py_grammar::specs::Parse::param))]
    pub fn param(&self, tokens: &mut Cursor<'_>, depth: u32) -> Result<Found<Param<Expr>>, ParseEnd>
        requires { Nests self.now.fuel (F.pre self.now.again) (F.post self.now.again) }
        ensures { Reads (spec.param (spec.parse self.now.fuel) self.now.fuel depth tokens.old) result tokens.new }
    {
        match tokens.mark() {
            Mark::Name => self.named(tokens, depth),
            Mark::Sign(Sign::Slash) => {
                let line = tokens.take();
                Ok(Found {
                    tree: Param::Slash(line),
                    height: 0,
                })
            }
            Mark::Sign(Sign::Star) => {
                let line = tokens.take();
                match tokens.mark() {
                    Mark::Name => {
                        let name = tokens.name()?;
                        Ok(Found {
                            tree: Param::Star(line, Some(name)),
                            height: 0,
                        })
                    }
                    _ => Ok(Found {
                        tree: Param::Star(line, None),
                        height: 0,
                    }),
                }
            }
            Mark::Sign(Sign::DoubleStar) => {
                let line = tokens.take();
                let name = tokens.name()?;
                Ok(Found {
                    tree: Param::DoubleStar(line, name),
                    height: 0,
                })
            }
            _ => Err(tokens.refuse()),
        }
    }

    /// A comparison and the operand on its right.
    #[tactic(auto, unfolding(py_grammar::specs::Parse::link))]
    pub fn link(&self, tokens: &mut Cursor<'_>, depth: u32) -> Result<Found<Link<Expr>>, ParseEnd>
        requires { Nests self.now.fuel (F.pre self.now.again) (F.post self.now.again) }
        ensures { Reads (spec.link (spec.parse self.now.fuel) self.now.fuel depth tokens.old) result tokens.new }
    {
        let comparison = comparator(tokens)?;
        let right = self.again(tokens, BITOR, depth)?;
        Ok(Found {
            tree: Link {
                comparison,
                right: right.tree.into_inner(),
            },
            height: right.height,
        })
    }
}
