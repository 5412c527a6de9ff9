//! Names that statements declare (reference, sections 7.12 and 7.13).

ghost use Rattle.std.specs.Prelude.{◌≡◌};
ghost use Rattle.py_grammar.specs.Parse.{Reads};
ghost use Rattle.py_statements.specs.Parse as spec;

use nu_text::RcStr;
use py_ast::{Declared, Sign, Word};
use py_cursor::Cursor;
use py_grammar::ParseEnd;
use sqlite_items::Items;
use std::alloc::Global;

/// Names with commas between.
pub fn names(alloc: Global, tokens: &mut Cursor<'_>) -> Result<Items<Declared>, ParseEnd>
    ensures { Reads (spec.names tokens.old) result tokens.new }
{
    let turns = tokens.len();
    let mut list = Items::new(alloc);
    for _turn in 0..turns {
        let line = tokens.line();
        let name = tokens.name()?;
        list.push(Declared { line, name })?;
        if !tokens.eat(Sign::Comma) {
            return Ok(list);
        }
    }
    Err(tokens.refuse())
}

/// `as` and a name, if they come next.
#[tactic(auto, unfolding(py_statements::specs::Parse::as_name))]
pub fn as_name(tokens: &mut Cursor<'_>) -> Result<Option<RcStr>, ParseEnd>
    ensures { Reads (spec.as_name tokens.old) result tokens.new }
{
    if !tokens.sees_word(Word::As) {
        return Ok(None);
    }
    tokens.take();
    Ok(Some(tokens.name()?))
}
