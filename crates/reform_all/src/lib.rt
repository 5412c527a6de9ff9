//! Whole scripts as primitive statements.
//!
//! `reform` goes over the tree once. It puts the functions of `reform_expr`, `reform_unpack` and `reform_loops` together, one for each
//! construct, and refuses what is not built yet.
#![tactic(auto)]

mod assignments;
mod bound;
mod choices;
mod ending;
mod expressions;
mod scripts;
mod statements;

pub use ending::ReformEnd;
pub use scripts::reform;
