//! Expressions as primitive statements: operations and calls on operands that are blocks already.
//!
//! Each function takes evaluated expressions, and answers one that carries the whole construct where they carry theirs. What it
//! answers has the statements of its arguments and one of its own, which writes a fresh temporary.
#![tactic(auto)]

ghost use Rattle.reform_expr.specs.Parts.{ConsecutiveRangesLieApart};

mod home;
mod leaves;
mod operations;

pub use home::Home;
pub use leaves::{constant, name};
pub use operations::{call, operate};

/// Parts whose ranges of temporaries follow one another have ranges that lie apart.
pub fn consecutive_ranges_lie_apart()
    ensures { ConsecutiveRangesLieApart }
{}
