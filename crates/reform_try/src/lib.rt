//! What follows the ends of a body, as primitive statements: `try`, `finally` and `with`; and `raise` and `assert`.
//!
//! Each function takes evaluated expressions and blocks, and answers the block that carries the whole statement where they carry their
//! parts.
#![tactic(auto)]

mod clauses;
mod ends;
mod finally;
mod raises;
mod with;

pub use clauses::{Clause, try_except};
pub use finally::try_finally;
pub use raises::{assert_that, raise_again, raise_value};
pub use with::with_item;
