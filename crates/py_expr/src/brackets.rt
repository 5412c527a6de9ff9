//! What stands in brackets (reference, sections 6.2.3 to 6.2.9, 6.3.2 and 6.3.4), and `yield`.

ghost use Rattle.std.specs.Prelude.{◌≡◌, ◌≤◌, length};
ghost use Rattle.py_grammar.specs.Parse as spec;
ghost use Rattle.py_grammar.specs.Parse.{Reads};
ghost use Rattle.py_grammar.specs.Levels as level;
ghost use Rattle.py_cursor.specs.Nests.{Nests};

use crate::grammar::Grammar;
use py_ast::{Argument, Entry, Expr, Item, Sign, Subscript, Word};
use py_cursor::{
    Cursor, EXPRESSION, arguments_in_order, begins_argument, begins_entry, begins_item, can_begin,
    maybe_opened, only, opened, opened_argument, opened_entry, opened_item, tall,
};
use py_grammar::{Bracket, Found, Mark, ParseEnd, Row};
use sqlite_items::{Boxed, Items};
use std::alloc::Global;

fn closing(bracket: Bracket) -> Sign
    ensures { result ≡ level.closing bracket }
{
    match bracket {
        Bracket::Round => Sign::RightParen,
        Bracket::Square => Sign::RightBracket,
        Bracket::Curly => Sign::RightBrace,
    }
}

impl<
    F: Fn(Global, &mut Cursor<'_>, usize, u32, u32) -> Result<Found<Boxed<Expr>>, ParseEnd>,
> Grammar<F> {
    /// A yield expression (reference, section 6.2.9), whose word comes next.
    #[tactic(auto, unfolding(py_grammar::specs::Parse::yields, py_grammar::specs::Parse::yielded))]
    pub fn yields(
        &self,
        tokens: &mut Cursor<'_>,
        depth: u32,
    ) -> Result<Found<Boxed<Expr>>, ParseEnd>
        requires { Nests self.now.nested.fuel (F.pre self.now.nested.again) (F.post self.now.nested.again) }
        ensures { Reads (spec.yields (spec.parse self.now.nested.fuel) self.now.nested.fuel depth tokens.old) result tokens.new }
    {
        let line = tokens.take();
        if tokens.sees_word(Word::From) {
            tokens.take();
            let x = self
                .nested
                .again(tokens, EXPRESSION, depth.saturating_sub(1))?;
            let tree = Expr::YieldFrom(line, x.tree);
            return tall(self.nested.alloc, tokens, line, depth, x.height, tree);
        }
        if !begins_item(Row::Expressions, tokens.mark()) {
            return tall(
                self.nested.alloc,
                tokens,
                line,
                depth,
                0,
                Expr::Yield(line, None),
            );
        }
        let start = tokens.line();
        let x = self.row_of(tokens, start, Row::Expressions, depth.saturating_sub(1))?;
        let tree = Expr::Yield(line, Some(x.tree));
        tall(self.nested.alloc, tokens, line, depth, x.height, tree)
    }

    /// A generator expression, behind its element.
    pub fn generator(
        &self,
        tokens: &mut Cursor<'_>,
        line: u32,
        depth: u32,
        element: Found<Item<Boxed<Expr>>>,
    ) -> Result<Found<Boxed<Expr>>, ParseEnd>
        requires { Nests self.now.nested.fuel (F.pre self.now.nested.again) (F.post self.now.nested.again) }
        ensures { Reads (spec.generator (spec.parse self.now.nested.fuel) self.now.nested.fuel line depth element.height element.tree tokens.old) result tokens.new }
    {
        let Found { tree, height } = element;
        match tree {
            Item::One(x) => {
                let clauses = self.comprehension(tokens, depth.saturating_sub(1))?;
                let height = height.max(clauses.height);
                let tree = Expr::Generator(line, x, clauses.tree);
                tall(self.nested.alloc, tokens, line, depth, height, tree)
            }
            Item::Star(_, _) => Err(tokens.refuse()),
        }
    }

    /// What stands in round brackets.
    #[tactic(auto, unfolding(py_grammar::specs::Parse::round, py_grammar::specs::Parse::round_behind))]
    pub fn round(
        &self,
        tokens: &mut Cursor<'_>,
        line: u32,
        depth: u32,
    ) -> Result<Found<Boxed<Expr>>, ParseEnd>
        requires { Nests self.now.nested.fuel (F.pre self.now.nested.again) (F.post self.now.nested.again) }
        ensures { Reads (spec.round (spec.parse self.now.nested.fuel) self.now.nested.fuel line depth tokens.old) result tokens.new }
    {
        match tokens.mark() {
            Mark::Sign(Sign::RightParen) => {
                let none = Items::new(self.nested.alloc);
                tall(
                    self.nested.alloc,
                    tokens,
                    line,
                    depth,
                    0,
                    Expr::Tuple(line, none),
                )
            }
            Mark::Keyword(Word::Yield) => self.yields(tokens, depth),
            _ => {
                let first = self.nested.item(tokens, Row::Expressions, depth)?;
                if tokens.sees_word(Word::For) {
                    return self.generator(tokens, line, depth, first);
                }
                self.row_behind(tokens, line, Row::Expressions, depth, first)
            }
        }
    }

    /// A list comprehension, behind its element.
    pub fn list_of(
        &self,
        tokens: &mut Cursor<'_>,
        line: u32,
        depth: u32,
        element: Found<Item<Boxed<Expr>>>,
    ) -> Result<Found<Boxed<Expr>>, ParseEnd>
        requires { Nests self.now.nested.fuel (F.pre self.now.nested.again) (F.post self.now.nested.again) }
        ensures { Reads (spec.list_of (spec.parse self.now.nested.fuel) self.now.nested.fuel line depth element.height element.tree tokens.old) result tokens.new }
    {
        let Found { tree, height } = element;
        match tree {
            Item::One(x) => {
                let clauses = self.comprehension(tokens, depth.saturating_sub(1))?;
                let height = height.max(clauses.height);
                let tree = Expr::ListComprehension(line, x, clauses.tree);
                tall(self.nested.alloc, tokens, line, depth, height, tree)
            }
            Item::Star(_, _) => Err(tokens.refuse()),
        }
    }

    /// What stands behind the first item of a list display.
    #[tactic(auto, unfolding(py_grammar::specs::Parse::square_behind))]
    pub fn square_behind(
        &self,
        tokens: &mut Cursor<'_>,
        line: u32,
        depth: u32,
        first: Found<Item<Boxed<Expr>>>,
    ) -> Result<Found<Boxed<Expr>>, ParseEnd>
        requires { Nests self.now.nested.fuel (F.pre self.now.nested.again) (F.post self.now.nested.again) }
        ensures { Reads (spec.square_behind (spec.parse self.now.nested.fuel) self.now.nested.fuel line depth first tokens.old) result tokens.new }
    {
        if tokens.sees_word(Word::For) {
            return self.list_of(tokens, line, depth, first);
        }
        let list = only(self.nested.alloc, opened_item(first))?;
        let items = self.items_behind(tokens, Row::Expressions, depth.saturating_sub(1), list)?;
        tall(
            self.nested.alloc,
            tokens,
            line,
            depth,
            items.height,
            Expr::List(line, items.tree),
        )
    }

    /// What stands in square brackets.
    #[tactic(auto, unfolding(py_grammar::specs::Parse::square))]
    pub fn square(
        &self,
        tokens: &mut Cursor<'_>,
        line: u32,
        depth: u32,
    ) -> Result<Found<Boxed<Expr>>, ParseEnd>
        requires { Nests self.now.nested.fuel (F.pre self.now.nested.again) (F.post self.now.nested.again) }
        ensures { Reads (spec.square (spec.parse self.now.nested.fuel) self.now.nested.fuel line depth tokens.old) result tokens.new }
    {
        if !begins_item(Row::Expressions, tokens.mark()) {
            let none = Items::new(self.nested.alloc);
            return tall(
                self.nested.alloc,
                tokens,
                line,
                depth,
                0,
                Expr::List(line, none),
            );
        }
        let first = self
            .nested
            .item(tokens, Row::Expressions, depth.saturating_sub(1))?;
        self.square_behind(tokens, line, depth, first)
    }

    /// A dict comprehension, behind its key and value.
    pub fn dict_of(
        &self,
        tokens: &mut Cursor<'_>,
        line: u32,
        depth: u32,
        element: Found<Entry<Boxed<Expr>>>,
    ) -> Result<Found<Boxed<Expr>>, ParseEnd>
        requires { Nests self.now.nested.fuel (F.pre self.now.nested.again) (F.post self.now.nested.again) }
        ensures { Reads (spec.dict_of (spec.parse self.now.nested.fuel) self.now.nested.fuel line depth element.height element.tree tokens.old) result tokens.new }
    {
        let Found { tree, height } = element;
        match tree {
            Entry::Pair(key, value) => {
                let clauses = self.comprehension(tokens, depth.saturating_sub(1))?;
                let height = height.max(clauses.height);
                let tree = Expr::DictComprehension(line, key, value, clauses.tree);
                tall(self.nested.alloc, tokens, line, depth, height, tree)
            }
            Entry::Merge(_) => Err(tokens.refuse()),
        }
    }

    /// What stands behind the first entry of a dict display.
    #[tactic(auto, unfolding(py_grammar::specs::Parse::curly_behind))]
    pub fn curly_behind(
        &self,
        tokens: &mut Cursor<'_>,
        line: u32,
        depth: u32,
        first: Found<Entry<Boxed<Expr>>>,
    ) -> Result<Found<Boxed<Expr>>, ParseEnd>
        requires { Nests self.now.nested.fuel (F.pre self.now.nested.again) (F.post self.now.nested.again) }
        ensures { Reads (spec.curly_behind (spec.parse self.now.nested.fuel) self.now.nested.fuel line depth first tokens.old) result tokens.new }
    {
        if tokens.sees_word(Word::For) {
            return self.dict_of(tokens, line, depth, first);
        }
        let list = only(self.nested.alloc, opened_entry(first))?;
        let entries = self.entries_behind(tokens, depth.saturating_sub(1), list)?;
        tall(
            self.nested.alloc,
            tokens,
            line,
            depth,
            entries.height,
            Expr::Dict(line, entries.tree),
        )
    }

    /// What stands in curly brackets.
    #[tactic(auto, unfolding(py_grammar::specs::Parse::curly))]
    pub fn curly(
        &self,
        tokens: &mut Cursor<'_>,
        line: u32,
        depth: u32,
    ) -> Result<Found<Boxed<Expr>>, ParseEnd>
        requires { Nests self.now.nested.fuel (F.pre self.now.nested.again) (F.post self.now.nested.again) }
        ensures { Reads (spec.curly (spec.parse self.now.nested.fuel) self.now.nested.fuel line depth tokens.old) result tokens.new }
    {
        if !begins_entry(tokens.mark()) {
            let none = Items::new(self.nested.alloc);
            return tall(
                self.nested.alloc,
                tokens,
                line,
                depth,
                0,
                Expr::Dict(line, none),
            );
        }
        let first = self.nested.entry(tokens, depth.saturating_sub(1))?;
        self.curly_behind(tokens, line, depth, first)
    }

    /// An opening bracket, what stands in it, and the closing one.
    #[tactic(auto, unfolding(py_grammar::specs::Parse::bracketed))]
    pub fn bracketed(
        &self,
        tokens: &mut Cursor<'_>,
        bracket: Bracket,
        depth: u32,
    ) -> Result<Found<Boxed<Expr>>, ParseEnd>
        requires { Nests self.now.nested.fuel (F.pre self.now.nested.again) (F.post self.now.nested.again) }
        ensures { Reads (spec.bracketed (spec.parse self.now.nested.fuel) self.now.nested.fuel bracket depth tokens.old) result tokens.new }
    {
        let line = tokens.take();
        let x = match bracket {
            Bracket::Round => self.round(tokens, line, depth)?,
            Bracket::Square => self.square(tokens, line, depth)?,
            Bracket::Curly => self.curly(tokens, line, depth)?,
        };
        tokens.expect(closing(bracket))?;
        Ok(x)
    }

    /// A generator expression as the only argument, behind its element.
    pub fn lone_generator(
        &self,
        tokens: &mut Cursor<'_>,
        line: u32,
        depth: u32,
        element: Found<Argument<Boxed<Expr>>>,
    ) -> Result<Found<Items<Argument<Expr>>>, ParseEnd>
        requires { Nests self.now.nested.fuel (F.pre self.now.nested.again) (F.post self.now.nested.again) }
        ensures { Reads (spec.lone_generator (spec.parse self.now.nested.fuel) self.now.nested.fuel line depth element.height element.tree tokens.old) result tokens.new }
    {
        let Found { tree, height } = element;
        match tree {
            Argument::Plain(x) => {
                let clauses = self.comprehension(tokens, depth.saturating_sub(1))?;
                let height = height.max(clauses.height);
                let tree = Expr::Generator(line, x, clauses.tree);
                let found = tall(self.nested.alloc, tokens, line, depth, height, tree)?;
                let part = Found {
                    tree: Argument::Plain(found.tree.into_inner()),
                    height: found.height,
                };
                Ok(only(self.nested.alloc, part)?)
            }
            _ => Err(tokens.refuse()),
        }
    }

    /// What stands behind the first argument.
    #[tactic(auto, unfolding(py_grammar::specs::Parse::arguments_behind))]
    pub fn arguments_behind(
        &self,
        tokens: &mut Cursor<'_>,
        line: u32,
        depth: u32,
        first: Found<Argument<Boxed<Expr>>>,
    ) -> Result<Found<Items<Argument<Expr>>>, ParseEnd>
        requires { Nests self.now.nested.fuel (F.pre self.now.nested.again) (F.post self.now.nested.again) }
        ensures { Reads (spec.arguments_behind (spec.parse self.now.nested.fuel) self.now.nested.fuel line depth first tokens.old) result tokens.new }
    {
        if tokens.sees_word(Word::For) {
            return self.lone_generator(tokens, line, depth, first);
        }
        let list = only(self.nested.alloc, opened_argument(first))?;
        let arguments = self.arguments_tail(tokens, depth, list)?;
        if !arguments_in_order(arguments.tree.as_slice()) {
            return Err(tokens.refuse());
        }
        Ok(arguments)
    }

    /// The arguments of a call (reference, section 6.3.4).
    #[tactic(auto, unfolding(py_grammar::specs::Parse::arguments))]
    pub fn arguments(
        &self,
        tokens: &mut Cursor<'_>,
        depth: u32,
    ) -> Result<Found<Items<Argument<Expr>>>, ParseEnd>
        requires { Nests self.now.nested.fuel (F.pre self.now.nested.again) (F.post self.now.nested.again) }
        ensures { Reads (spec.arguments (spec.parse self.now.nested.fuel) self.now.nested.fuel depth tokens.old) result tokens.new }
    {
        if !begins_argument(tokens.mark()) {
            return Ok(Found {
                tree: Items::new(self.nested.alloc),
                height: 0,
            });
        }
        let line = tokens.line();
        let first = self.nested.argument(tokens, depth)?;
        self.arguments_behind(tokens, line, depth, first)
    }

    /// What stands behind the first expression of a subscript.
    #[tactic(auto, unfolding(py_grammar::specs::Parse::subscripts_behind))]
    pub fn subscripts_behind(
        &self,
        tokens: &mut Cursor<'_>,
        depth: u32,
        first: Found<Boxed<Expr>>,
    ) -> Result<Found<Boxed<Subscript<Expr>>>, ParseEnd>
        requires { Nests self.now.nested.fuel (F.pre self.now.nested.again) (F.post self.now.nested.again) }
        ensures { Reads (spec.subscripts_behind (spec.parse self.now.nested.fuel) self.now.nested.fuel depth first tokens.old) result tokens.new }
    {
        if tokens.sees(Sign::Comma) {
            let list = only(self.nested.alloc, opened(first))?;
            let all = self.indices_behind(tokens, depth, list)?;
            return Ok(Found {
                tree: Boxed::new(self.nested.alloc, Subscript::Several(all.tree))?,
                height: all.height,
            });
        }
        if tokens.sees(Sign::Colon) {
            let lower = Found {
                tree: Some(first.tree),
                height: first.height,
            };
            return self.nested.slice(tokens, depth, lower);
        }
        Ok(Found {
            tree: Boxed::new(self.nested.alloc, Subscript::One(first.tree.into_inner()))?,
            height: first.height,
        })
    }

    /// What stands between the brackets of an index (reference, section 6.3.2).
    #[tactic(auto, unfolding(py_grammar::specs::Parse::subscripts))]
    pub fn subscripts(
        &self,
        tokens: &mut Cursor<'_>,
        depth: u32,
    ) -> Result<Found<Boxed<Subscript<Expr>>>, ParseEnd>
        requires { Nests self.now.nested.fuel (F.pre self.now.nested.again) (F.post self.now.nested.again) }
        ensures { Reads (spec.subscripts (spec.parse self.now.nested.fuel) self.now.nested.fuel depth tokens.old) result tokens.new }
    {
        if tokens.sees(Sign::Colon) {
            let lower = Found {
                tree: None,
                height: 0,
            };
            return self.nested.slice(tokens, depth, lower);
        }
        let first = self.nested.again(tokens, EXPRESSION, depth)?;
        self.subscripts_behind(tokens, depth, first)
    }
}
