//! Where a run of a program stands.

use nu_run::Text;
use nu_value::{Items, Slots, Value};
use op_forms::After;

/// What a generator is told where it goes on.
#[derive(Drop)]
pub enum Told {
    Sent(Value),
    /// The exception of this number is raised.
    Thrown(u64),
}

/// What a function was begun for.
#[derive(Drop)]
pub enum Purpose {
    /// A module.
    Module,
    /// A call. Its value goes on as it says.
    Call(After),
    /// A generator that goes on, or is closed.
    Resume {
        generator: u64,
        told: Told,
        closing: bool,
        /// The resume number of its last pause.
        number: u64,
    },
}

/// A function that runs, or that waits at an operation for another.
#[derive(Drop)]
pub struct Activation {
    pub function: u32,
    /// The number of its statement.
    pub place: u64,
    /// Registers, of which some have no value.
    pub registers: Slots,
    /// The slots of a generator; none elsewhere.
    pub slots: Slots,
    pub arguments: Items,
    /// The free cells.
    pub cells: Items,
    /// The pending exception.
    pub pending: Option<u64>,
    pub purpose: Purpose,
}

/// What is kept of a generator that was begun and isn't over: its slots, of which some have no value, and the resume number of its
/// last pause.
#[derive(Drop)]
pub struct Kept {
    pub function: u32,
    pub arguments: Items,
    pub cells: Items,
    pub slots: Slots,
    pub number: u64,
}

/// An exception that nothing caught, the function of the module that it left, and the text of its traceback without its
/// own text, as it was then.
#[derive(Drop)]
pub struct Uncaught {
    pub exception: u64,
    pub function: u32,
    pub head: Text,
}
