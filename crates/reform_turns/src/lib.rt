//! Branches, loops and returns as primitive statements, of parts that are made already (reference, sections 7.6, 8.1 to 8.3).
//!
//! Each function takes the parts of a statement and the next temporary, as those of expressions do.
#![tactic(auto)]

mod branches;
mod loops;

pub use branches::{branch, return_value};
pub use loops::{for_loop, while_loop};
