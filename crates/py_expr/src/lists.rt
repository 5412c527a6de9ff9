//! Lists with commas, and what follows one another without.

ghost use Rattle.std.specs.Prelude.{◌≡◌, ◌≤◌, length};
ghost use Rattle.py_grammar.specs.Parse as spec;
ghost use Rattle.py_grammar.specs.Parse.{Reads};
ghost use Rattle.py_cursor.specs.Nests.{Nests};
ghost use Rattle.py_grammar.specs.Grammar.{Parts};

use crate::grammar::Grammar;
use py_ast::{Argument, Clause, Clauses, Entry, Expr, Item, Link, Param, Sign, Word};
use py_cursor::{
    Cursor, DISJUNCTION, EXPRESSION, alone, begins_argument, begins_clause, begins_entry,
    begins_item, begins_param, can_begin, is_comparison, only, opened, opened_argument,
    opened_clause, opened_entry, opened_item, params_in_order, role_of, tall, with_part,
};
use py_grammar::{Found, Mark, ParseEnd, Row};
use sqlite_items::{Boxed, Items};
use std::alloc::Global;

impl<
    F: Fn(Global, &mut Cursor<'_>, usize, u32, u32) -> Result<Found<Boxed<Expr>>, ParseEnd>,
> Grammar<F> {
    pub fn items_behind(
        &self,
        tokens: &mut Cursor<'_>,
        row: Row,
        depth: u32,
        mut list: Found<Items<Item<Expr>>>,
    ) -> Result<Found<Items<Item<Expr>>>, ParseEnd>
        requires { Nests self.now.nested.fuel (F.pre self.now.nested.again) (F.post self.now.nested.again) }
        ensures { Reads (spec.tail_from (spec.parse self.now.nested.fuel) self.now.nested.fuel (Parts.items row) (spec.item (spec.parse self.now.nested.fuel) self.now.nested.fuel row) depth self.now.nested.fuel list tokens.old) result tokens.new }
    {
        for _turn in 0..self.nested.fuel {
            if !tokens.eat(Sign::Comma) {
                return Ok(list);
            }
            if !begins_item(row, tokens.mark()) {
                return Ok(list);
            }
            let part = self.nested.item(tokens, row, depth)?;
            list = with_part(list, opened_item(part))?;
        }
        Err(tokens.refuse())
    }

    pub fn arguments_tail(
        &self,
        tokens: &mut Cursor<'_>,
        depth: u32,
        mut list: Found<Items<Argument<Expr>>>,
    ) -> Result<Found<Items<Argument<Expr>>>, ParseEnd>
        requires { Nests self.now.nested.fuel (F.pre self.now.nested.again) (F.post self.now.nested.again) }
        ensures { Reads (spec.tail_from (spec.parse self.now.nested.fuel) self.now.nested.fuel Parts.arguments (spec.argument (spec.parse self.now.nested.fuel) self.now.nested.fuel) depth self.now.nested.fuel list tokens.old) result tokens.new }
    {
        for _turn in 0..self.nested.fuel {
            if !tokens.eat(Sign::Comma) {
                return Ok(list);
            }
            if !begins_argument(tokens.mark()) {
                return Ok(list);
            }
            let part = self.nested.argument(tokens, depth)?;
            list = with_part(list, opened_argument(part))?;
        }
        Err(tokens.refuse())
    }

    pub fn entries_behind(
        &self,
        tokens: &mut Cursor<'_>,
        depth: u32,
        mut list: Found<Items<Entry<Expr>>>,
    ) -> Result<Found<Items<Entry<Expr>>>, ParseEnd>
        requires { Nests self.now.nested.fuel (F.pre self.now.nested.again) (F.post self.now.nested.again) }
        ensures { Reads (spec.tail_from (spec.parse self.now.nested.fuel) self.now.nested.fuel Parts.entries (spec.entry (spec.parse self.now.nested.fuel) self.now.nested.fuel) depth self.now.nested.fuel list tokens.old) result tokens.new }
    {
        for _turn in 0..self.nested.fuel {
            if !tokens.eat(Sign::Comma) {
                return Ok(list);
            }
            if !begins_entry(tokens.mark()) {
                return Ok(list);
            }
            let part = self.nested.entry(tokens, depth)?;
            list = with_part(list, opened_entry(part))?;
        }
        Err(tokens.refuse())
    }

    pub fn params_behind(
        &self,
        tokens: &mut Cursor<'_>,
        depth: u32,
        mut list: Found<Items<Param<Expr>>>,
    ) -> Result<Found<Items<Param<Expr>>>, ParseEnd>
        requires { Nests self.now.nested.fuel (F.pre self.now.nested.again) (F.post self.now.nested.again) }
        ensures { Reads (spec.tail_from (spec.parse self.now.nested.fuel) self.now.nested.fuel Parts.params (spec.param (spec.parse self.now.nested.fuel) self.now.nested.fuel) depth self.now.nested.fuel list tokens.old) result tokens.new }
    {
        for _turn in 0..self.nested.fuel {
            if !tokens.eat(Sign::Comma) {
                return Ok(list);
            }
            if !begins_param(tokens.mark()) {
                return Ok(list);
            }
            let part = self.nested.param(tokens, depth)?;
            list = with_part(list, part)?;
        }
        Err(tokens.refuse())
    }

    pub fn indices_behind(
        &self,
        tokens: &mut Cursor<'_>,
        depth: u32,
        mut list: Found<Items<Expr>>,
    ) -> Result<Found<Items<Expr>>, ParseEnd>
        requires { Nests self.now.nested.fuel (F.pre self.now.nested.again) (F.post self.now.nested.again) }
        ensures { Reads (spec.tail_from (spec.parse self.now.nested.fuel) self.now.nested.fuel Parts.indices (spec.parse self.now.nested.fuel 1) depth self.now.nested.fuel list tokens.old) result tokens.new }
    {
        for _turn in 0..self.nested.fuel {
            if !tokens.eat(Sign::Comma) {
                return Ok(list);
            }
            if !can_begin(EXPRESSION, tokens.mark()) {
                return Ok(list);
            }
            let part = self.nested.again(tokens, EXPRESSION, depth)?;
            list = with_part(list, opened(part))?;
        }
        Err(tokens.refuse())
    }

    pub fn links(
        &self,
        tokens: &mut Cursor<'_>,
        depth: u32,
        mut list: Found<Items<Link<Expr>>>,
    ) -> Result<Found<Items<Link<Expr>>>, ParseEnd>
        requires { Nests self.now.nested.fuel (F.pre self.now.nested.again) (F.post self.now.nested.again) }
        ensures { Reads (spec.run_from (spec.parse self.now.nested.fuel) self.now.nested.fuel Parts.links (spec.link (spec.parse self.now.nested.fuel) self.now.nested.fuel) depth self.now.nested.fuel list tokens.old) result tokens.new }
    {
        for _turn in 0..self.nested.fuel {
            if !is_comparison(role_of(tokens.mark())) {
                return Ok(list);
            }
            let part = self.nested.link(tokens, depth)?;
            list = with_part(list, part)?;
        }
        Err(tokens.refuse())
    }

    pub fn clauses(
        &self,
        tokens: &mut Cursor<'_>,
        depth: u32,
        mut list: Found<Items<Clause<Expr>>>,
    ) -> Result<Found<Items<Clause<Expr>>>, ParseEnd>
        requires { Nests self.now.nested.fuel (F.pre self.now.nested.again) (F.post self.now.nested.again) }
        ensures { Reads (spec.run_from (spec.parse self.now.nested.fuel) self.now.nested.fuel Parts.clauses (spec.clause (spec.parse self.now.nested.fuel) self.now.nested.fuel) depth self.now.nested.fuel list tokens.old) result tokens.new }
    {
        for _turn in 0..self.nested.fuel {
            if !begins_clause(tokens.mark()) {
                return Ok(list);
            }
            let part = self.clause(tokens, depth)?;
            list = with_part(list, opened_clause(part))?;
        }
        Err(tokens.refuse())
    }

    /// What stands behind the first item: nothing, or the others of a tuple, which begins on the line `at`.
    #[tactic(auto, unfolding(py_grammar::specs::Parse::row_behind))]
    pub fn row_behind(
        &self,
        tokens: &mut Cursor<'_>,
        at: u32,
        row: Row,
        depth: u32,
        first: Found<Item<Boxed<Expr>>>,
    ) -> Result<Found<Boxed<Expr>>, ParseEnd>
        requires { Nests self.now.nested.fuel (F.pre self.now.nested.again) (F.post self.now.nested.again) }
        ensures { Reads (spec.row_behind (spec.parse self.now.nested.fuel) self.now.nested.fuel at row depth first tokens.old) result tokens.new }
    {
        if !tokens.sees(Sign::Comma) {
            return Ok(Found {
                tree: alone(self.nested.alloc, first.tree)?,
                height: first.height,
            });
        }
        let list = only(self.nested.alloc, opened_item(first))?;
        let items = self.items_behind(tokens, row, depth.saturating_sub(1), list)?;
        tall(
            self.nested.alloc,
            tokens,
            at,
            depth,
            items.height,
            Expr::Tuple(at, items.tree),
        )
    }

    /// A list of expressions or targets, or one by itself (reference, sections 6.15 and 7.2).
    #[tactic(auto, unfolding(py_grammar::specs::Parse::row_of))]
    pub fn row_of(
        &self,
        tokens: &mut Cursor<'_>,
        at: u32,
        row: Row,
        depth: u32,
    ) -> Result<Found<Boxed<Expr>>, ParseEnd>
        requires { Nests self.now.nested.fuel (F.pre self.now.nested.again) (F.post self.now.nested.again) }
        ensures { Reads (spec.row_of (spec.parse self.now.nested.fuel) self.now.nested.fuel at row depth tokens.old) result tokens.new }
    {
        let first = self.nested.item(tokens, row, depth)?;
        self.row_behind(tokens, at, row, depth, first)
    }

    /// Parameters in any order, or none.
    #[tactic(auto, unfolding(py_grammar::specs::Parse::some_params))]
    pub fn some_params(
        &self,
        tokens: &mut Cursor<'_>,
        depth: u32,
    ) -> Result<Found<Items<Param<Expr>>>, ParseEnd>
        requires { Nests self.now.nested.fuel (F.pre self.now.nested.again) (F.post self.now.nested.again) }
        ensures { Reads (spec.some_params (spec.parse self.now.nested.fuel) self.now.nested.fuel depth tokens.old) result tokens.new }
    {
        if !begins_param(tokens.mark()) {
            return Ok(Found {
                tree: Items::new(self.nested.alloc),
                height: 0,
            });
        }
        let first = self.nested.param(tokens, depth)?;
        let list = only(self.nested.alloc, first)?;
        self.params_behind(tokens, depth, list)
    }

    /// Parameters (reference, section 8.7), or none.
    #[tactic(auto, unfolding(py_grammar::specs::Parse::params))]
    pub fn params(
        &self,
        tokens: &mut Cursor<'_>,
        depth: u32,
    ) -> Result<Found<Items<Param<Expr>>>, ParseEnd>
        requires { Nests self.now.nested.fuel (F.pre self.now.nested.again) (F.post self.now.nested.again) }
        ensures { Reads (spec.params (spec.parse self.now.nested.fuel) self.now.nested.fuel depth tokens.old) result tokens.new }
    {
        let params = self.some_params(tokens, depth)?;
        if !params_in_order(params.tree.as_slice()) {
            return Err(tokens.refuse());
        }
        Ok(params)
    }

    /// A `for` clause, whose word comes next.
    #[tactic(auto, unfolding(py_grammar::specs::Parse::loop_clause))]
    pub fn loop_clause(
        &self,
        tokens: &mut Cursor<'_>,
        depth: u32,
    ) -> Result<Found<Clause<Boxed<Expr>>>, ParseEnd>
        requires { Nests self.now.nested.fuel (F.pre self.now.nested.again) (F.post self.now.nested.again) }
        ensures { Reads (spec.loop_clause (spec.parse self.now.nested.fuel) self.now.nested.fuel depth tokens.old) result tokens.new }
    {
        let line = tokens.take();
        let start = tokens.line();
        let target = self.row_of(tokens, start, Row::Targets, depth)?;
        tokens.expect_word(Word::In)?;
        let iterable = self.nested.again(tokens, DISJUNCTION, depth)?;
        Ok(Found {
            tree: Clause::For(line, target.tree, iterable.tree),
            height: target.height.max(iterable.height),
        })
    }

    /// A clause of a comprehension.
    #[tactic(auto, unfolding(py_grammar::specs::Parse::clause))]
    pub fn clause(
        &self,
        tokens: &mut Cursor<'_>,
        depth: u32,
    ) -> Result<Found<Clause<Boxed<Expr>>>, ParseEnd>
        requires { Nests self.now.nested.fuel (F.pre self.now.nested.again) (F.post self.now.nested.again) }
        ensures { Reads (spec.clause (spec.parse self.now.nested.fuel) self.now.nested.fuel depth tokens.old) result tokens.new }
    {
        match tokens.mark() {
            Mark::Keyword(Word::For) => self.loop_clause(tokens, depth),
            Mark::Keyword(Word::If) => {
                let line = tokens.take();
                let x = self.nested.again(tokens, DISJUNCTION, depth)?;
                Ok(Found {
                    tree: Clause::If(line, x.tree),
                    height: x.height,
                })
            }
            _ => Err(tokens.refuse()),
        }
    }

    /// The clauses of a comprehension (reference, section 6.2.4).
    #[tactic(auto, unfolding(py_grammar::specs::Parse::comprehension))]
    pub fn comprehension(
        &self,
        tokens: &mut Cursor<'_>,
        depth: u32,
    ) -> Result<Found<Boxed<Clauses<Expr>>>, ParseEnd>
        requires { Nests self.now.nested.fuel (F.pre self.now.nested.again) (F.post self.now.nested.again) }
        ensures { Reads (spec.comprehension (spec.parse self.now.nested.fuel) self.now.nested.fuel depth tokens.old) result tokens.new }
    {
        let Found { tree, height } = self.clause(tokens, depth)?;
        match tree {
            Clause::For(_, target, iterable) => {
                let none = Found {
                    tree: Items::new(self.nested.alloc),
                    height: 0,
                };
                let more = self.clauses(tokens, depth, none)?;
                let tree = Clauses {
                    target: target.into_inner(),
                    iterable: iterable.into_inner(),
                    more: more.tree,
                };
                Ok(Found {
                    tree: Boxed::new(self.nested.alloc, tree)?,
                    height: height.max(more.height),
                })
            }
            Clause::If(_, _) => Err(tokens.refuse()),
        }
    }
}
