//! The rows of the table on integers, on truth, and on any two values: arithmetic, comparisons, `is` and `not`.
#![tactic(auto)]

mod access;
mod apply;
mod laws;
mod rows;

pub use apply::apply_int;
pub use laws::{division_is_floored, integers_are_ordered};
