//! The parser of a whole script.

ghost use Rattle.std.specs.Prelude.{◌≡◌};
ghost use Rattle.py_grammar.specs.Parse.{Reads};
ghost use Rattle.py_statements.specs.Parse as spec;
ghost use Rattle.py_statements.specs.Script.{Answers};

use crate::compound::Blocks;
use py_ast::{Script, Stmt, Token};
use py_cursor::{Cursor, MAX_DEPTH};
use py_grammar::{Found, ParseEnd};
use py_simple::{nothing, too_deep};
use sqlite_items::Items;
use std::alloc::Global;

/// A block that is no deeper than `depth`.
fn parse_block(
    alloc: Global,
    tokens: &mut Cursor<'_>,
    fuel: usize,
    depth: u32,
) -> Result<Found<Items<Stmt>>, ParseEnd>
    ensures { Reads (spec.parse fuel depth tokens.old) result tokens.new }
{
    if fuel == 0 {
        return Err(tokens.refuse());
    }
    Blocks {
        alloc,
        fuel: fuel - 1,
        again: parse_block,
    }
    .block(tokens, depth)
}

/// The statements of a script.
#[tactic(auto, unfolding(py_statements::specs::Parse::script, py_statements::specs::Parse::statements))]
fn statements(alloc: Global, tokens: &mut Cursor<'_>) -> Result<Found<Items<Stmt>>, ParseEnd>
    ensures { Reads (spec.script tokens.old) result tokens.new }
{
    let fuel = tokens.rest().len();
    let none = nothing(alloc);
    Blocks {
        alloc,
        fuel,
        again: parse_block,
    }
    .statements(tokens, MAX_DEPTH, false, fuel + 1, none)
}

/// The one script that the tokens spell (reference, chapters 6 to 9), whose height is at most 400.
///
/// # Errors
///
/// `Depth` exactly where more than 100 brackets and indentation levels together are open at a token, with the line of the first
/// such token; `Grammar` exactly where else there is no such script; `Memory` where memory ends.
pub fn parse(alloc: Global, tokens: &[Token]) -> Result<Script, ParseEnd>
    ensures { Answers tokens.now result }
{
    if let Some(line) = too_deep(tokens) {
        return Err(ParseEnd::Depth { line });
    }
    let mut cursor = Cursor::new(tokens);
    match statements(alloc, &mut cursor) {
        Ok(found) => Ok(Script {
            statements: found.tree,
        }),
        Err(end) => Err(end),
    }
}
