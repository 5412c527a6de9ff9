//! Nodes of the tree, and lists of parts.

ghost use Rattle.std.specs.Prelude.{◌≡◌, []};
ghost use Rattle.py_grammar.specs.Parse as grammar;
ghost use Rattle.py_grammar.specs.Parse.{Reads};
ghost use Rattle.py_statements.specs.Parse as spec;
ghost use Rattle.py_statements.specs.Words as word;

use crate::words::{is_indent, is_newline};
use py_ast::Stmt;
use py_cursor::Cursor;
use py_grammar::{Found, Mark, ParseEnd};
use sqlite_items::Items;
use std::alloc::Global;

/// A statement over parts of this height, if it is no deeper than is allowed.
#[tactic(auto, unfolding(py_statements::specs::Parse::made))]
pub fn made(
    _tokens: &Cursor<'_>,
    line: u32,
    depth: u32,
    height: u32,
    tree: Stmt,
) -> Result<Found<Stmt>, ParseEnd>
    ensures { Reads (spec.made depth height tree _tokens.now) result _tokens.now }
{
    if height >= depth {
        return Err(ParseEnd::Grammar { line });
    }
    Ok(Found {
        tree,
        height: height + 1,
    })
}

/// Goes past the end of a line.
#[tactic(auto, unfolding(py_statements::specs::Parse::pass))]
pub fn newline(tokens: &mut Cursor<'_>) -> Result<(), ParseEnd>
    ensures { Reads (spec.pass word.is_newline tokens.old) result tokens.new }
{
    if !is_newline(tokens.mark()) {
        return Err(tokens.refuse());
    }
    tokens.take();
    Ok(())
}

/// Goes past the beginning of a block.
#[tactic(auto, unfolding(py_statements::specs::Parse::pass))]
pub fn indent(tokens: &mut Cursor<'_>) -> Result<(), ParseEnd>
    ensures { Reads (spec.pass word.is_indent tokens.old) result tokens.new }
{
    if !is_indent(tokens.mark()) {
        return Err(tokens.refuse());
    }
    tokens.take();
    Ok(())
}

/// Goes past the end of a block.
#[tactic(auto, unfolding(py_statements::specs::Parse::pass))]
pub fn dedent(tokens: &mut Cursor<'_>) -> Result<(), ParseEnd>
    ensures { Reads (spec.pass word.is_dedent tokens.old) result tokens.new }
{
    match tokens.mark() {
        Mark::Dedent => {
            tokens.take();
            Ok(())
        }
        _ => Err(tokens.refuse()),
    }
}

pub fn nothing<T: Drop>(alloc: Global) -> Found<Items<T>>
    ensures { result ≡ grammar.found [] 0 }
{
    Found {
        tree: Items::new(alloc),
        height: 0,
    }
}
