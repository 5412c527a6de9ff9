//! What an operation begins, how a body ends, and what a statement has of that.

use c_meaning::Told;
use nu_run::StopKind;
use nu_value::{Items, Value};
use op_forms::After;

/// How a body ends.
#[derive(Drop)]
pub enum BodyEnd {
    Return(Value),
    /// The exception of this number leaves it.
    Raise(u64),
}

/// What a statement has of its operation.
#[derive(Drop)]
pub enum Outcome {
    Gives(Value),
    /// The exception of this number is raised.
    Raises(u64),
    Stops(StopKind),
    /// Nothing is said.
    Unsaid,
}

/// What an operation begins: nothing more, a call, a generator that hasn't begun, or one that is paused.
#[derive(Drop)]
pub enum Begun {
    Over(Outcome),
    Calls {
        function: u32,
        given: Items,
        cells: Items,
        after: After,
    },
    Starts {
        generator: u64,
        function: u32,
        given: Items,
        cells: Items,
    },
    Wakes {
        generator: u64,
        told: Told,
        closing: bool,
    },
}
