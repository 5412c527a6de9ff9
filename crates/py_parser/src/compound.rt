//! Compound statements (reference, chapter 8), no deeper than `depth`. They take the parser of blocks as a parameter, so that each
//! is proved by itself.

ghost use Rattle.std.specs.Prelude.{◌≡◌};
ghost use Rattle.py_grammar.specs.Parse.{Reads};
ghost use Rattle.py_statements.specs.Parse as spec;
ghost use Rattle.py_parser.specs.Nests.{Nests};

use py_ast::{Branch, Expr, Handler, Sign, Stmt, Target, Word};
use py_cursor::{Cursor, maybe_opened, only, with_part};
use py_expr::{expression_to, exprs_to, params_to, targets_to};
use py_grammar::{Found, Mark, ParseEnd};
use py_simple::{as_name, base_class, decorators, made, managers, nothing};
use sqlite_items::{Boxed, Items};
use std::alloc::Global;

/// The recursion of the grammar.
#[derive(Clone, Copy)]
pub struct Blocks<F> {
    pub alloc: Global,
    /// What bounds how deep blocks stand in one another.
    pub fuel: usize,
    /// A block that is no deeper than is said.
    pub again: F,
}

impl<F: Fn(Global, &mut Cursor<'_>, usize, u32) -> Result<Found<Items<Stmt>>, ParseEnd>> Blocks<F> {
    fn again(&self, tokens: &mut Cursor<'_>, depth: u32) -> Result<Found<Items<Stmt>>, ParseEnd>
        requires { Nests self.now.fuel (F.pre self.now.again) (F.post self.now.again) }
        ensures { Reads (spec.parse self.now.fuel depth tokens.old) result tokens.new }
    {
        (self.again)(self.alloc, tokens, self.fuel, depth)
    }

    /// A test and the block that it guards, behind a word.
    #[tactic(auto, unfolding(py_statements::specs::Parse::branch))]
    fn branch(&self, tokens: &mut Cursor<'_>, depth: u32) -> Result<Found<Branch<Stmt>>, ParseEnd>
        requires { Nests self.now.fuel (F.pre self.now.again) (F.post self.now.again) }
        ensures { Reads (spec.branch (spec.parse self.now.fuel) depth tokens.old) result tokens.new }
    {
        let line = tokens.take();
        let x = expression_to(self.alloc, tokens, depth)?;
        let body = self.again(tokens, depth)?;
        Ok(Found {
            tree: Branch {
                line,
                test: x.tree.into_inner(),
                body: body.tree,
            },
            height: x.height.max(body.height),
        })
    }

    /// Further branches of `if`.
    fn elifs(
        &self,
        tokens: &mut Cursor<'_>,
        depth: u32,
        turns: usize,
        mut list: Found<Items<Branch<Stmt>>>,
    ) -> Result<Found<Items<Branch<Stmt>>>, ParseEnd>
        requires { Nests self.now.fuel (F.pre self.now.again) (F.post self.now.again) }
        ensures { Reads (spec.elifs_from (spec.parse self.now.fuel) depth turns list tokens.old) result tokens.new }
    {
        for _turn in 0..turns {
            if !tokens.sees_word(Word::Elif) {
                return Ok(list);
            }
            let x = self.branch(tokens, depth)?;
            list = with_part(list, x)?;
        }
        Err(tokens.refuse())
    }

    /// A block behind this word, or an empty one.
    #[tactic(auto, unfolding(py_statements::specs::Parse::worded))]
    fn worded(
        &self,
        tokens: &mut Cursor<'_>,
        word: Word,
        depth: u32,
    ) -> Result<Found<Items<Stmt>>, ParseEnd>
        requires { Nests self.now.fuel (F.pre self.now.again) (F.post self.now.again) }
        ensures { Reads (spec.worded (spec.parse self.now.fuel) word depth tokens.old) result tokens.new }
    {
        if !tokens.sees_word(word) {
            return Ok(nothing(self.alloc));
        }
        tokens.take();
        self.again(tokens, depth)
    }

    /// Reference, section 8.1.
    #[tactic(auto, unfolding(py_statements::specs::Parse::if_statement))]
    fn if_statement(&self, tokens: &mut Cursor<'_>, depth: u32) -> Result<Found<Stmt>, ParseEnd>
        requires { Nests self.now.fuel (F.pre self.now.again) (F.post self.now.again) }
        ensures { Reads (spec.if_statement (spec.parse self.now.fuel) depth tokens.old) result tokens.new }
    {
        let line = tokens.line();
        let first = self.branch(tokens, depth.saturating_sub(1))?;
        let list = only(self.alloc, first)?;
        let turns = tokens.rest().len() + 1;
        let all = self.elifs(tokens, depth.saturating_sub(1), turns, list)?;
        let other = self.worded(tokens, Word::Else, depth.saturating_sub(1))?;
        let height = all.height.max(other.height);
        made(
            tokens,
            line,
            depth,
            height,
            Stmt::If(line, all.tree, other.tree),
        )
    }

    /// Reference, section 8.2.
    #[tactic(auto, unfolding(py_statements::specs::Parse::while_statement, py_statements::specs::Parse::branch))]
    fn while_statement(&self, tokens: &mut Cursor<'_>, depth: u32) -> Result<Found<Stmt>, ParseEnd>
        requires { Nests self.now.fuel (F.pre self.now.again) (F.post self.now.again) }
        ensures { Reads (spec.while_statement (spec.parse self.now.fuel) depth tokens.old) result tokens.new }
    {
        let line = tokens.take();
        let x = expression_to(self.alloc, tokens, depth.saturating_sub(1))?;
        let body = self.again(tokens, depth.saturating_sub(1))?;
        let other = self.worded(tokens, Word::Else, depth.saturating_sub(1))?;
        let height = x.height.max(body.height).max(other.height);
        let tree = Stmt::While(line, x.tree.into_inner(), body.tree, other.tree);
        made(tokens, line, depth, height, tree)
    }

    /// The blocks of a `for` statement, behind its targets and what they go over. Both are on the heap, so that a frame of the
    /// recursion holds no whole expression.
    #[tactic(auto, unfolding(py_statements::specs::Parse::for_blocks))]
    fn for_blocks(
        &self,
        tokens: &mut Cursor<'_>,
        line: u32,
        depth: u32,
        target: Found<Boxed<Target>>,
        x: Found<Boxed<Expr>>,
    ) -> Result<Found<Stmt>, ParseEnd>
        requires { Nests self.now.fuel (F.pre self.now.again) (F.post self.now.again) }
        ensures { Reads (spec.for_blocks (spec.parse self.now.fuel) line depth target x tokens.old) result tokens.new }
    {
        let body = self.again(tokens, depth.saturating_sub(1))?;
        let other = self.worded(tokens, Word::Else, depth.saturating_sub(1))?;
        let height = target
            .height
            .max(x.height)
            .max(body.height.max(other.height));
        let target = target.tree.into_inner();
        let x = x.tree.into_inner();
        let tree = Stmt::For(line, target, x, body.tree, other.tree);
        made(tokens, line, depth, height, tree)
    }

    /// Reference, section 8.3.
    #[tactic(auto, unfolding(py_statements::specs::Parse::for_statement))]
    fn for_statement(&self, tokens: &mut Cursor<'_>, depth: u32) -> Result<Found<Stmt>, ParseEnd>
        requires { Nests self.now.fuel (F.pre self.now.again) (F.post self.now.again) }
        ensures { Reads (spec.for_statement (spec.parse self.now.fuel) depth tokens.old) result tokens.new }
    {
        let line = tokens.take();
        let target = targets_to(self.alloc, tokens, depth.saturating_sub(1))?;
        tokens.expect_word(Word::In)?;
        let x = exprs_to(self.alloc, tokens, depth.saturating_sub(1))?;
        self.for_blocks(tokens, line, depth, target, x)
    }

    /// An `except` clause without a class, behind its word.
    #[tactic(auto, unfolding(py_statements::specs::Parse::bare_handler))]
    fn bare_handler(
        &self,
        tokens: &mut Cursor<'_>,
        line: u32,
        depth: u32,
    ) -> Result<Found<Handler<Stmt>>, ParseEnd>
        requires { Nests self.now.fuel (F.pre self.now.again) (F.post self.now.again) }
        ensures { Reads (spec.bare_handler (spec.parse self.now.fuel) line depth tokens.old) result tokens.new }
    {
        let body = self.again(tokens, depth)?;
        Ok(Found {
            tree: Handler {
                line,
                class: None,
                name: None,
                body: body.tree,
            },
            height: body.height,
        })
    }

    /// An `except` clause with a class, behind its word.
    #[tactic(auto, unfolding(py_statements::specs::Parse::class_handler))]
    fn class_handler(
        &self,
        tokens: &mut Cursor<'_>,
        line: u32,
        depth: u32,
    ) -> Result<Found<Handler<Stmt>>, ParseEnd>
        requires { Nests self.now.fuel (F.pre self.now.again) (F.post self.now.again) }
        ensures { Reads (spec.class_handler (spec.parse self.now.fuel) line depth tokens.old) result tokens.new }
    {
        let x = expression_to(self.alloc, tokens, depth)?;
        let name = as_name(tokens)?;
        let body = self.again(tokens, depth)?;
        Ok(Found {
            tree: Handler {
                line,
                class: Some(x.tree.into_inner()),
                name,
                body: body.tree,
            },
            height: x.height.max(body.height),
        })
    }

    /// `except` clauses, of which one without a class is the last one.
    fn handlers(
        &self,
        tokens: &mut Cursor<'_>,
        depth: u32,
        turns: usize,
        mut list: Found<Items<Handler<Stmt>>>,
    ) -> Result<Found<Items<Handler<Stmt>>>, ParseEnd>
        requires { Nests self.now.fuel (F.pre self.now.again) (F.post self.now.again) }
        ensures { Reads (spec.handlers_from (spec.parse self.now.fuel) depth turns list tokens.old) result tokens.new }
    {
        for _turn in 0..turns {
            if !tokens.sees_word(Word::Except) {
                return Ok(list);
            }
            let line = tokens.take();
            if tokens.sees(Sign::Colon) {
                let x = self.bare_handler(tokens, line, depth)?;
                return Ok(with_part(list, x)?);
            }
            let x = self.class_handler(tokens, line, depth)?;
            list = with_part(list, x)?;
        }
        Err(tokens.refuse())
    }

    /// A `try` statement behind its block, where no `except` follows.
    #[tactic(auto, unfolding(py_statements::specs::Parse::finishes))]
    fn finishes(
        &self,
        tokens: &mut Cursor<'_>,
        line: u32,
        depth: u32,
        body: Found<Items<Stmt>>,
    ) -> Result<Found<Stmt>, ParseEnd>
        requires { Nests self.now.fuel (F.pre self.now.again) (F.post self.now.again) }
        ensures { Reads (spec.finishes (spec.parse self.now.fuel) line depth body tokens.old) result tokens.new }
    {
        tokens.expect_word(Word::Finally)?;
        let last = self.again(tokens, depth.saturating_sub(1))?;
        let height = body.height.max(last.height);
        let handlers = Items::new(self.alloc);
        let other = Items::new(self.alloc);
        made(
            tokens,
            line,
            depth,
            height,
            Stmt::Try(line, body.tree, handlers, other, last.tree),
        )
    }

    /// A `try` statement behind its block, where `except` follows.
    #[tactic(auto, unfolding(py_statements::specs::Parse::catches))]
    fn catches(
        &self,
        tokens: &mut Cursor<'_>,
        line: u32,
        depth: u32,
        body: Found<Items<Stmt>>,
    ) -> Result<Found<Stmt>, ParseEnd>
        requires { Nests self.now.fuel (F.pre self.now.again) (F.post self.now.again) }
        ensures { Reads (spec.catches (spec.parse self.now.fuel) line depth body tokens.old) result tokens.new }
    {
        let turns = tokens.rest().len() + 1;
        let none = nothing(self.alloc);
        let handlers = self.handlers(tokens, depth.saturating_sub(1), turns, none)?;
        let other = self.worded(tokens, Word::Else, depth.saturating_sub(1))?;
        let last = self.worded(tokens, Word::Finally, depth.saturating_sub(1))?;
        let height = body
            .height
            .max(handlers.height)
            .max(other.height.max(last.height));
        let tree = Stmt::Try(line, body.tree, handlers.tree, other.tree, last.tree);
        made(tokens, line, depth, height, tree)
    }

    /// Reference, section 8.4.
    #[tactic(auto, unfolding(py_statements::specs::Parse::try_statement))]
    fn try_statement(&self, tokens: &mut Cursor<'_>, depth: u32) -> Result<Found<Stmt>, ParseEnd>
        requires { Nests self.now.fuel (F.pre self.now.again) (F.post self.now.again) }
        ensures { Reads (spec.try_statement (spec.parse self.now.fuel) depth tokens.old) result tokens.new }
    {
        let line = tokens.take();
        let body = self.again(tokens, depth.saturating_sub(1))?;
        if tokens.sees_word(Word::Except) {
            self.catches(tokens, line, depth, body)
        } else {
            self.finishes(tokens, line, depth, body)
        }
    }

    /// Reference, section 8.5.
    #[tactic(auto, unfolding(py_statements::specs::Parse::with_statement))]
    fn with_statement(&self, tokens: &mut Cursor<'_>, depth: u32) -> Result<Found<Stmt>, ParseEnd>
        requires { Nests self.now.fuel (F.pre self.now.again) (F.post self.now.again) }
        ensures { Reads (spec.with_statement (spec.parse self.now.fuel) depth tokens.old) result tokens.new }
    {
        let line = tokens.take();
        let items = managers(self.alloc, tokens, depth.saturating_sub(1))?;
        let body = self.again(tokens, depth.saturating_sub(1))?;
        let height = items.height.max(body.height);
        made(
            tokens,
            line,
            depth,
            height,
            Stmt::With(line, items.tree, body.tree),
        )
    }

    /// A function definition (reference, section 8.7), behind its decorators.
    #[tactic(auto, unfolding(py_statements::specs::Parse::def_statement))]
    fn def_statement(
        &self,
        tokens: &mut Cursor<'_>,
        depth: u32,
        decorators: Found<Items<Expr>>,
    ) -> Result<Found<Stmt>, ParseEnd>
        requires { Nests self.now.fuel (F.pre self.now.again) (F.post self.now.again) }
        ensures { Reads (spec.def_statement (spec.parse self.now.fuel) depth decorators tokens.old) result tokens.new }
    {
        let line = tokens.take();
        let name = tokens.name()?;
        tokens.expect(Sign::LeftParen)?;
        let params = params_to(self.alloc, tokens, depth.saturating_sub(1))?;
        tokens.expect(Sign::RightParen)?;
        let body = self.again(tokens, depth.saturating_sub(1))?;
        let height = decorators.height.max(params.height.max(body.height));
        let tree = Stmt::Def(line, decorators.tree, name, params.tree, body.tree);
        made(tokens, line, depth, height, tree)
    }

    /// A class definition (reference, section 8.8), behind its decorators.
    #[tactic(auto, unfolding(py_statements::specs::Parse::class_statement))]
    fn class_statement(
        &self,
        tokens: &mut Cursor<'_>,
        depth: u32,
        decorators: Found<Items<Expr>>,
    ) -> Result<Found<Stmt>, ParseEnd>
        requires { Nests self.now.fuel (F.pre self.now.again) (F.post self.now.again) }
        ensures { Reads (spec.class_statement (spec.parse self.now.fuel) depth decorators tokens.old) result tokens.new }
    {
        let line = tokens.take();
        let name = tokens.name()?;
        let base = base_class(self.alloc, tokens, depth.saturating_sub(1))?;
        let body = self.again(tokens, depth.saturating_sub(1))?;
        let height = decorators.height.max(base.height.max(body.height));
        let base = maybe_opened(base.tree);
        let tree = Stmt::Class(line, decorators.tree, name, base, body.tree);
        made(tokens, line, depth, height, tree)
    }

    /// A definition, with its decorators.
    #[tactic(auto, unfolding(py_statements::specs::Parse::decorated))]
    fn decorated(&self, tokens: &mut Cursor<'_>, depth: u32) -> Result<Found<Stmt>, ParseEnd>
        requires { Nests self.now.fuel (F.pre self.now.again) (F.post self.now.again) }
        ensures { Reads (spec.decorated (spec.parse self.now.fuel) depth tokens.old) result tokens.new }
    {
        let list = decorators(self.alloc, tokens, depth.saturating_sub(1))?;
        match tokens.mark() {
            Mark::Keyword(Word::Def) => self.def_statement(tokens, depth, list),
            Mark::Keyword(Word::Class) => self.class_statement(tokens, depth, list),
            _ => Err(tokens.refuse()),
        }
    }

    /// A compound statement.
    #[tactic(auto, unfolding(py_statements::specs::Parse::compound))]
    pub fn compound(&self, tokens: &mut Cursor<'_>, depth: u32) -> Result<Found<Stmt>, ParseEnd>
        requires { Nests self.now.fuel (F.pre self.now.again) (F.post self.now.again) }
        ensures { Reads (spec.compound (spec.parse self.now.fuel) depth tokens.old) result tokens.new }
    {
        match tokens.mark() {
            Mark::Keyword(Word::If) => self.if_statement(tokens, depth),
            Mark::Keyword(Word::While) => self.while_statement(tokens, depth),
            Mark::Keyword(Word::For) => self.for_statement(tokens, depth),
            Mark::Keyword(Word::Try) => self.try_statement(tokens, depth),
            Mark::Keyword(Word::With) => self.with_statement(tokens, depth),
            _ => self.decorated(tokens, depth),
        }
    }
}
