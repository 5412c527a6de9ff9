//! Flat code: functions of numbered statements, with labels, over registers.
#![tactic(auto)]

mod function;
mod statement;

ghost use Rattle.flow_code.specs.Laws.{FlatRunsAreMonotone};

pub use code_forms::{Argument, Operand};
pub use function::{FlatFunction, FlatScript};
pub use statement::{Line, Statement};

/// A run of flat code prints no less within a larger bound, and its end stays.
pub fn flat_runs_are_monotone()
    ensures { FlatRunsAreMonotone }
{}
