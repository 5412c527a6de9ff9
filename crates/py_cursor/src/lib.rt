//! What the parser of expressions reads without calling itself: a cursor over tokens, the levels, comparisons, the order of
//! arguments and of parameters; and, over a parser of what is nested in them, the parts of lists, and slices.
#![tactic(auto)]

mod comparison;
mod cursor;
mod nested;
mod nodes;
mod order;
mod parts;
mod role;
mod slices;

pub use comparison::comparator;
pub use cursor::Cursor;
pub use nested::Nested;
pub use nodes::{
    alone, combined, maybe_opened, only, opened, opened_argument, opened_clause, opened_entry,
    opened_item, tall, with_part,
};
pub use order::{arguments_in_order, params_in_order};
pub use py_grammar::{Found, Mark, ParseEnd};
pub use role::{
    BITOR, DISJUNCTION, EXPRESSION, MAX_DEPTH, NEGATION, SIGNED, begins_argument, begins_clause,
    begins_entry, begins_item, begins_param, can_begin, follows_expression, follows_exprs,
    follows_params, follows_target, follows_targets, is_comparison, level_of, makes, plain_level,
    role_of, star_level,
};
