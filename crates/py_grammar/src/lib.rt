//! The grammar of expressions (reference, chapter 6), as a relation and as a function, and the laws between them.
#![tactic(auto)]

mod found;
mod laws;
mod role;

pub use found::{Found, ParseEnd};
pub use laws::{expression_law, exprs_law, params_law, target_law, targets_law, yield_law};
pub use role::{Arrangement, Bracket, Chain, Mark, Operator, Role, Row, Stage};
