//! Statements and blocks, no deeper than `depth`.

ghost use Rattle.std.specs.Prelude.{◌≡◌};
ghost use Rattle.py_grammar.specs.Parse.{Reads};
ghost use Rattle.py_statements.specs.Parse as spec;
ghost use Rattle.py_parser.specs.Nests.{Nests};

use crate::compound::Blocks;
use py_ast::{Sign, Stmt};
use py_cursor::{Cursor, with_part};
use py_grammar::{Found, ParseEnd};
use py_simple::{begins_compound, closes, dedent, indent, is_newline, line, newline, nothing};
use sqlite_items::Items;
use std::alloc::Global;

impl<F: Fn(Global, &mut Cursor<'_>, usize, u32) -> Result<Found<Items<Stmt>>, ParseEnd>> Blocks<F> {
    /// A statement, or the statements of a line, behind those before it.
    #[tactic(auto, unfolding(py_statements::specs::Parse::statement))]
    fn statement(
        &self,
        tokens: &mut Cursor<'_>,
        depth: u32,
        list: Found<Items<Stmt>>,
    ) -> Result<Found<Items<Stmt>>, ParseEnd>
        requires { Nests self.now.fuel (F.pre self.now.again) (F.post self.now.again) }
        ensures { Reads (spec.statement (spec.parse self.now.fuel) depth list tokens.old) result tokens.new }
    {
        if !begins_compound(tokens.mark()) {
            return line(self.alloc, tokens, depth, list);
        }
        let x = self.compound(tokens, depth)?;
        Ok(with_part(list, x)?)
    }

    /// Statements, behind those before them, up to the end of their block, or else of the script.
    pub fn statements(
        &self,
        tokens: &mut Cursor<'_>,
        depth: u32,
        inner: bool,
        turns: usize,
        mut list: Found<Items<Stmt>>,
    ) -> Result<Found<Items<Stmt>>, ParseEnd>
        requires { Nests self.now.fuel (F.pre self.now.again) (F.post self.now.again) }
        ensures { Reads (spec.statements_from (spec.parse self.now.fuel) depth inner turns list tokens.old) result tokens.new }
    {
        for _turn in 0..turns {
            if closes(inner, tokens.mark()) {
                return Ok(list);
            }
            list = self.statement(tokens, depth, list)?;
        }
        Err(tokens.refuse())
    }

    /// The statements of a block of their own lines.
    #[tactic(auto, unfolding(py_statements::specs::Parse::indented, py_statements::specs::Parse::statements))]
    fn indented(&self, tokens: &mut Cursor<'_>, depth: u32) -> Result<Found<Items<Stmt>>, ParseEnd>
        requires { Nests self.now.fuel (F.pre self.now.again) (F.post self.now.again) }
        ensures { Reads (spec.indented (spec.parse self.now.fuel) depth tokens.old) result tokens.new }
    {
        newline(tokens)?;
        indent(tokens)?;
        let none = nothing(self.alloc);
        let first = self.statement(tokens, depth, none)?;
        let turns = tokens.rest().len() + 1;
        let all = self.statements(tokens, depth, true, turns, first)?;
        dedent(tokens)?;
        Ok(all)
    }

    /// A block, with the colon before it.
    #[tactic(auto, unfolding(py_statements::specs::Parse::block))]
    pub fn block(&self, tokens: &mut Cursor<'_>, depth: u32) -> Result<Found<Items<Stmt>>, ParseEnd>
        requires { Nests self.now.fuel (F.pre self.now.again) (F.post self.now.again) }
        ensures { Reads (spec.block (spec.parse self.now.fuel) depth tokens.old) result tokens.new }
    {
        tokens.expect(Sign::Colon)?;
        if is_newline(tokens.mark()) {
            return self.indented(tokens, depth);
        }
        let none = nothing(self.alloc);
        line(self.alloc, tokens, depth, none)
    }
}
