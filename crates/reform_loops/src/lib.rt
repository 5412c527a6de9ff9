//! Branches and loops as primitive statements.
//!
//! Each function takes an evaluated test and blocks, and answers a block that carries the whole statement where they carry their parts.
#![tactic(auto)]

mod branches;
mod loops;

pub use branches::branch;
pub use loops::while_loop;
