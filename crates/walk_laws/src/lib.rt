//! A walk over the tree of a script that makes its primitive statements on the way, and what that comes to.
//!
//! The meaning of a script makes each construct first, and carried_codes the primitive statements of what is made (specs/Composed). A
//! walk makes the same statements in one recursion over the tree (specs/Expressions, Statements).
#![tactic(auto)]

mod laws;

pub use laws::{expressions_are_walked, scripts_are_walked, statements_are_walked};
