//! Statements and labels.

use code_forms::{Argument, Operand};
use op_forms::Op;
use sqlite_items::Items;

/// A statement. `to` is the register that it writes, `fail` the label to which an exception leads.
#[derive(Drop)]
pub enum Statement {
    /// Unset is stored too.
    Store {
        to: u64,
        value: Operand,
    },
    Unset {
        to: u64,
    },
    /// The parameter of this number.
    Parameter {
        to: u64,
        index: u64,
    },
    /// The free cell of this number.
    Free {
        to: u64,
        index: u64,
    },
    /// An operation; where it raises, its register becomes Unset.
    Do {
        to: u64,
        line: u32,
        op: Op,
        args: Items<Argument>,
        fail: u64,
    },
    Goto {
        label: u64,
    },
    /// Goes to the label where the value is True, and on where it is False.
    Branch {
        test: Operand,
        label: u64,
    },
    /// Takes the pending exception.
    Caught {
        to: u64,
    },
    /// An exception is pending, without an entry.
    Again {
        value: Operand,
        label: u64,
    },
    Give {
        value: Operand,
    },
    /// Gives None.
    End,
    /// The pending exception leaves.
    Fail,
    /// Pauses the generator with a value; all registers are kept, and what is sent goes on.
    Yield {
        to: u64,
        line: u32,
        value: Operand,
        fail: u64,
    },
}

/// A label, or a statement. Labels have no number among the statements.
#[derive(Drop)]
pub enum Line {
    Label(u64),
    Do(Statement),
}
