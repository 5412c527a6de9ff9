//! Comparisons.

ghost use Rattle.py_grammar.specs.Parse as spec;
ghost use Rattle.py_grammar.specs.Parse.{Reads};

use crate::cursor::Cursor;
use py_ast::{Comparison, Sign, Word};
use py_grammar::{Mark, ParseEnd};

/// The words or signs of a comparison (reference, section 6.10).
#[tactic(auto, unfolding(py_grammar::specs::Parse::comparator))]
pub fn comparator(tokens: &mut Cursor<'_>) -> Result<Comparison, ParseEnd>
    ensures { Reads (spec.comparator tokens.old) result tokens.new }
{
    match tokens.mark() {
        Mark::Sign(Sign::Less) => {
            tokens.take();
            Ok(Comparison::Less)
        }
        Mark::Sign(Sign::Greater) => {
            tokens.take();
            Ok(Comparison::Greater)
        }
        Mark::Sign(Sign::LessEqual) => {
            tokens.take();
            Ok(Comparison::LessEqual)
        }
        Mark::Sign(Sign::GreaterEqual) => {
            tokens.take();
            Ok(Comparison::GreaterEqual)
        }
        Mark::Sign(Sign::EqualEqual) => {
            tokens.take();
            Ok(Comparison::Equal)
        }
        Mark::Sign(Sign::NotEqual) => {
            tokens.take();
            Ok(Comparison::NotEqual)
        }
        Mark::Keyword(Word::In) => {
            tokens.take();
            Ok(Comparison::In)
        }
        Mark::Keyword(Word::Is) => {
            tokens.take();
            if tokens.sees_word(Word::Not) {
                tokens.take();
                Ok(Comparison::IsNot)
            } else {
                Ok(Comparison::Is)
            }
        }
        Mark::Keyword(Word::Not) => {
            tokens.take();
            tokens.expect_word(Word::In)?;
            Ok(Comparison::NotIn)
        }
        _ => Err(tokens.refuse()),
    }
}
