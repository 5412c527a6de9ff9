//! Expressions as primitive statements, of parts that are made already (reference, chapter 6).
//!
//! Each function takes the parts of an expression, from left to right, and the next temporary, and answers the primitive statements of
//! the expression, the operand with its value, and the temporary that is the next one then. The parts may write any temporaries in
//! front of that.
#![tactic(auto)]

mod calls;
mod chains;
mod choices;
mod displays;
mod made;
mod operations;
mod pauses;

pub use calls::{Passed, call};
pub use chains::{Link, chain};
pub use choices::{both, choose, decided};
pub use displays::{Entry, Item, dict, starred};
pub use made::{Valued, left_in, on_none, on_two};
pub use operations::{gathered, operate};
pub use pauses::{attempt, delegate, stopped, yield_value};
