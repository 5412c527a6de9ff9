//! The parser of expressions (reference, chapter 6).
//!
//! The parser is linear in the tokens. It calls itself at most 400 deep for nested expressions, and once more for each bracket
//! that is open; a caller that gives it tokens of an unknown text tests first how many brackets are open at once.
#![tactic(auto)]

mod brackets;
mod grammar;
mod lists;
mod operations;
mod productions;

pub use productions::{
    expression, expression_to, exprs, exprs_to, params, params_to, row_to, target, target_to,
    targets, targets_to, yield_to,
};
pub use py_cursor::{Cursor, EXPRESSION, MAX_DEPTH, begins_item, can_begin};
pub use py_grammar::{Found, Mark, ParseEnd};
