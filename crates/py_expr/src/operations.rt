//! Operations by precedence climbing: a first expression, and what the tokens behind it make of it.

ghost use Rattle.std.specs.Prelude.{◌≡◌, ◌≤◌, length};
ghost use Rattle.py_grammar.specs.Parse as spec;
ghost use Rattle.py_grammar.specs.Parse.{Reads};
ghost use Rattle.py_cursor.specs.Nests.{Nests};

use crate::grammar::Grammar;
use py_ast::{Binary, Expr, Sign, Unary, Word};
use py_cursor::{
    Cursor, DISJUNCTION, EXPRESSION, NEGATION, SIGNED, combined, level_of, makes, only, role_of,
    tall,
};
use py_grammar::{Bracket, Found, Mark, ParseEnd, Role};
use sqlite_items::Boxed;
use std::alloc::Global;

impl<
    F: Fn(Global, &mut Cursor<'_>, usize, u32, u32) -> Result<Found<Boxed<Expr>>, ParseEnd>,
> Grammar<F> {
    /// A conditional expression, behind its first operand.
    #[tactic(auto, unfolding(py_grammar::specs::Parse::conditional))]
    pub fn conditional(
        &self,
        tokens: &mut Cursor<'_>,
        line: u32,
        depth: u32,
        left: Found<Boxed<Expr>>,
    ) -> Result<Found<Boxed<Expr>>, ParseEnd>
        requires { Nests self.now.nested.fuel (F.pre self.now.nested.again) (F.post self.now.nested.again) }
        ensures { Reads (spec.conditional (spec.parse self.now.nested.fuel) self.now.nested.fuel line depth left tokens.old) result tokens.new }
    {
        tokens.take();
        let test = self
            .nested
            .again(tokens, DISJUNCTION, depth.saturating_sub(1))?;
        tokens.expect_word(Word::Else)?;
        let other = self
            .nested
            .again(tokens, EXPRESSION, depth.saturating_sub(1))?;
        let height = left.height.max(test.height.max(other.height));
        let tree = Expr::Conditional(line, test.tree, left.tree, other.tree);
        tall(self.nested.alloc, tokens, line, depth, height, tree)
    }

    /// A call, behind what is called.
    #[tactic(auto, unfolding(py_grammar::specs::Parse::call))]
    pub fn call(
        &self,
        tokens: &mut Cursor<'_>,
        line: u32,
        depth: u32,
        left: Found<Boxed<Expr>>,
    ) -> Result<Found<Boxed<Expr>>, ParseEnd>
        requires { Nests self.now.nested.fuel (F.pre self.now.nested.again) (F.post self.now.nested.again) }
        ensures { Reads (spec.call (spec.parse self.now.nested.fuel) self.now.nested.fuel line depth left tokens.old) result tokens.new }
    {
        tokens.take();
        let arguments = self.arguments(tokens, depth.saturating_sub(1))?;
        tokens.expect(Sign::RightParen)?;
        let height = left.height.max(arguments.height);
        let tree = Expr::Call(line, left.tree, arguments.tree);
        tall(self.nested.alloc, tokens, line, depth, height, tree)
    }

    /// An index, behind what is indexed.
    #[tactic(auto, unfolding(py_grammar::specs::Parse::index))]
    pub fn index(
        &self,
        tokens: &mut Cursor<'_>,
        line: u32,
        depth: u32,
        left: Found<Boxed<Expr>>,
    ) -> Result<Found<Boxed<Expr>>, ParseEnd>
        requires { Nests self.now.nested.fuel (F.pre self.now.nested.again) (F.post self.now.nested.again) }
        ensures { Reads (spec.index (spec.parse self.now.nested.fuel) self.now.nested.fuel line depth left tokens.old) result tokens.new }
    {
        tokens.take();
        let inner = self.subscripts(tokens, depth.saturating_sub(1))?;
        tokens.expect(Sign::RightBracket)?;
        let height = left.height.max(inner.height);
        let tree = Expr::Index(line, left.tree, inner.tree);
        tall(self.nested.alloc, tokens, line, depth, height, tree)
    }

    /// Comparisons, behind their first operand.
    #[tactic(auto, unfolding(py_grammar::specs::Parse::compare))]
    pub fn compare(
        &self,
        tokens: &mut Cursor<'_>,
        line: u32,
        depth: u32,
        left: Found<Boxed<Expr>>,
    ) -> Result<Found<Boxed<Expr>>, ParseEnd>
        requires { Nests self.now.nested.fuel (F.pre self.now.nested.again) (F.post self.now.nested.again) }
        ensures { Reads (spec.compare (spec.parse self.now.nested.fuel) self.now.nested.fuel line depth left tokens.old) result tokens.new }
    {
        let first = self.nested.link(tokens, depth.saturating_sub(1))?;
        let list = only(self.nested.alloc, first)?;
        let links = self.links(tokens, depth.saturating_sub(1), list)?;
        let height = left.height.max(links.height);
        let tree = Expr::Compare(line, left.tree, links.tree);
        tall(self.nested.alloc, tokens, line, depth, height, tree)
    }

    /// What the next token makes of the expression before it, which begins on this line.
    #[tactic(auto, unfolding(py_grammar::specs::Parse::operation))]
    pub fn operation(
        &self,
        tokens: &mut Cursor<'_>,
        line: u32,
        depth: u32,
        left: Found<Boxed<Expr>>,
    ) -> Result<Found<Boxed<Expr>>, ParseEnd>
        requires { Nests self.now.nested.fuel (F.pre self.now.nested.again) (F.post self.now.nested.again) }
        ensures { Reads (spec.operation (spec.parse self.now.nested.fuel) self.now.nested.fuel line depth left tokens.old) result tokens.new }
    {
        match role_of(tokens.mark()) {
            Role::Infix(chain, op) => {
                tokens.take();
                let right = self
                    .nested
                    .again(tokens, level_of(chain) + 1, depth.saturating_sub(1))?;
                let height = left.height.max(right.height);
                let tree = combined(line, op, left.tree, right.tree);
                tall(self.nested.alloc, tokens, line, depth, height, tree)
            }
            Role::Power => {
                tokens.take();
                let right = self.nested.again(tokens, SIGNED, depth.saturating_sub(1))?;
                let height = left.height.max(right.height);
                let tree = Expr::Binary(line, Binary::Power, left.tree, right.tree);
                tall(self.nested.alloc, tokens, line, depth, height, tree)
            }
            Role::Compares => self.compare(tokens, line, depth, left),
            Role::Condition => self.conditional(tokens, line, depth, left),
            Role::Call => self.call(tokens, line, depth, left),
            Role::Index => self.index(tokens, line, depth, left),
            Role::Attribute => {
                tokens.take();
                let name = tokens.name()?;
                let tree = Expr::Attribute(line, left.tree, name);
                tall(self.nested.alloc, tokens, line, depth, left.height, tree)
            }
            Role::Ends | Role::Literal => Err(tokens.refuse()),
        }
    }

    /// A lambda expression (reference, section 6.14), whose word comes next.
    #[tactic(auto, unfolding(py_grammar::specs::Parse::lambda))]
    pub fn lambda(
        &self,
        tokens: &mut Cursor<'_>,
        depth: u32,
    ) -> Result<Found<Boxed<Expr>>, ParseEnd>
        requires { Nests self.now.nested.fuel (F.pre self.now.nested.again) (F.post self.now.nested.again) }
        ensures { Reads (spec.lambda (spec.parse self.now.nested.fuel) self.now.nested.fuel depth tokens.old) result tokens.new }
    {
        let line = tokens.take();
        let params = self.params(tokens, depth.saturating_sub(1))?;
        tokens.expect(Sign::Colon)?;
        let x = self
            .nested
            .again(tokens, EXPRESSION, depth.saturating_sub(1))?;
        let height = params.height.max(x.height);
        let tree = Expr::Lambda(line, params.tree, x.tree);
        tall(self.nested.alloc, tokens, line, depth, height, tree)
    }

    /// `not` and its operand.
    #[tactic(auto, unfolding(py_grammar::specs::Parse::negated))]
    pub fn negated(
        &self,
        tokens: &mut Cursor<'_>,
        depth: u32,
    ) -> Result<Found<Boxed<Expr>>, ParseEnd>
        requires { Nests self.now.nested.fuel (F.pre self.now.nested.again) (F.post self.now.nested.again) }
        ensures { Reads (spec.negated (spec.parse self.now.nested.fuel) self.now.nested.fuel depth tokens.old) result tokens.new }
    {
        let line = tokens.take();
        let x = self
            .nested
            .again(tokens, NEGATION, depth.saturating_sub(1))?;
        let tree = Expr::Not(line, x.tree);
        tall(self.nested.alloc, tokens, line, depth, x.height, tree)
    }

    /// A sign and its operand.
    #[tactic(auto, unfolding(py_grammar::specs::Parse::under))]
    pub fn under(
        &self,
        tokens: &mut Cursor<'_>,
        op: Unary,
        least: u32,
        depth: u32,
    ) -> Result<Found<Boxed<Expr>>, ParseEnd>
        requires { Nests self.now.nested.fuel (F.pre self.now.nested.again) (F.post self.now.nested.again) }
        ensures { Reads (spec.under (spec.parse self.now.nested.fuel) self.now.nested.fuel op least depth tokens.old) result tokens.new }
    {
        if least > SIGNED {
            return Err(tokens.refuse());
        }
        let line = tokens.take();
        let x = self.nested.again(tokens, SIGNED, depth.saturating_sub(1))?;
        let tree = Expr::Unary(line, op, x.tree);
        tall(self.nested.alloc, tokens, line, depth, x.height, tree)
    }

    /// An expression before any operation: an atom, or a word or sign with its operand.
    #[tactic(auto, unfolding(py_grammar::specs::Parse::prefix))]
    pub fn prefix(
        &self,
        tokens: &mut Cursor<'_>,
        least: u32,
        depth: u32,
    ) -> Result<Found<Boxed<Expr>>, ParseEnd>
        requires { Nests self.now.nested.fuel (F.pre self.now.nested.again) (F.post self.now.nested.again) }
        ensures { Reads (spec.prefix (spec.parse self.now.nested.fuel) self.now.nested.fuel least depth tokens.old) result tokens.new }
    {
        match tokens.mark() {
            Mark::Name => {
                let line = tokens.line();
                let name = tokens.name()?;
                tall(
                    self.nested.alloc,
                    tokens,
                    line,
                    depth,
                    0,
                    Expr::Name(line, name),
                )
            }
            Mark::Number => {
                let line = tokens.line();
                let number = tokens.number()?;
                tall(
                    self.nested.alloc,
                    tokens,
                    line,
                    depth,
                    0,
                    Expr::Number(line, number),
                )
            }
            Mark::Text => {
                let line = tokens.line();
                let text = tokens.texts(self.nested.alloc)?;
                tall(
                    self.nested.alloc,
                    tokens,
                    line,
                    depth,
                    0,
                    Expr::Text(line, text),
                )
            }
            Mark::Keyword(Word::None) => {
                let line = tokens.take();
                tall(self.nested.alloc, tokens, line, depth, 0, Expr::None(line))
            }
            Mark::Keyword(Word::True) => {
                let line = tokens.take();
                tall(self.nested.alloc, tokens, line, depth, 0, Expr::True(line))
            }
            Mark::Keyword(Word::False) => {
                let line = tokens.take();
                tall(self.nested.alloc, tokens, line, depth, 0, Expr::False(line))
            }
            Mark::Keyword(Word::Lambda) => {
                if least > EXPRESSION {
                    return Err(tokens.refuse());
                }
                self.lambda(tokens, depth)
            }
            Mark::Keyword(Word::Not) => {
                if least > NEGATION {
                    return Err(tokens.refuse());
                }
                self.negated(tokens, depth)
            }
            Mark::Sign(Sign::Plus) => self.under(tokens, Unary::Plus, least, depth),
            Mark::Sign(Sign::Minus) => self.under(tokens, Unary::Minus, least, depth),
            Mark::Sign(Sign::Tilde) => self.under(tokens, Unary::Invert, least, depth),
            Mark::Sign(Sign::LeftParen) => self.bracketed(tokens, Bracket::Round, depth),
            Mark::Sign(Sign::LeftBracket) => self.bracketed(tokens, Bracket::Square, depth),
            Mark::Sign(Sign::LeftBrace) => self.bracketed(tokens, Bracket::Curly, depth),
            _ => Err(tokens.refuse()),
        }
    }

    /// Goes on while the next token makes something of this level or a tighter one.
    pub fn climb(
        &self,
        tokens: &mut Cursor<'_>,
        least: u32,
        depth: u32,
        line: u32,
        mut left: Found<Boxed<Expr>>,
    ) -> Result<Found<Boxed<Expr>>, ParseEnd>
        requires { Nests self.now.nested.fuel (F.pre self.now.nested.again) (F.post self.now.nested.again) }
        ensures { Reads (spec.climb (spec.parse self.now.nested.fuel) self.now.nested.fuel least depth depth line left tokens.old) result tokens.new }
    {
        for _turn in 0..depth {
            if makes(role_of(tokens.mark())) < least {
                return Ok(left);
            }
            left = self.operation(tokens, line, depth, left)?;
        }
        if makes(role_of(tokens.mark())) < least {
            return Ok(left);
        }
        Err(ParseEnd::Grammar { line })
    }

    /// An expression of this level.
    #[tactic(auto, unfolding(py_grammar::specs::Parse::level))]
    pub fn level(
        &self,
        tokens: &mut Cursor<'_>,
        least: u32,
        depth: u32,
    ) -> Result<Found<Boxed<Expr>>, ParseEnd>
        requires { Nests self.now.nested.fuel (F.pre self.now.nested.again) (F.post self.now.nested.again) }
        ensures { Reads (spec.level (spec.parse self.now.nested.fuel) self.now.nested.fuel least depth tokens.old) result tokens.new }
    {
        let line = tokens.line();
        let first = self.prefix(tokens, least, depth)?;
        self.climb(tokens, least, depth, line, first)
    }
}
