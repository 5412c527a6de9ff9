//! The primitive statements.

use code_forms::{Argument, Operand};
use op_forms::{Const, Op};
use sqlite_items::Items;

/// A primitive statement. `to` is the temporary that it writes.
#[derive(Drop)]
pub enum Node {
    Constant {
        to: u64,
        value: Const,
    },
    /// Unset is copied too.
    Copy {
        to: u64,
        from: u64,
    },
    /// An operation; where it raises, its temporary becomes Unset.
    Do {
        to: u64,
        line: u32,
        op: Op,
        args: Items<Argument>,
    },
    /// The operation of calls.
    Call {
        to: u64,
        line: u32,
        function: Operand,
        args: Items<Operand>,
    },
    /// Pauses the generator with a value; what is sent goes on.
    Yield {
        to: u64,
        line: u32,
        value: Operand,
    },
    If {
        test: Operand,
        yes: Items<Node>,
        no: Items<Node>,
    },
    /// A body that ends starts the next turn.
    Loop {
        body: Items<Node>,
    },
    /// Ends so many loops, the innermost first; one at least.
    Leave {
        levels: u64,
    },
    /// Where the body raises, the exception goes to the temporary, and the handler runs.
    Catch {
        to: u64,
        body: Items<Node>,
        handler: Items<Node>,
    },
    Return {
        value: Operand,
    },
    /// Raises an exception as it stands, without an entry.
    Raise {
        value: Operand,
    },
    Unset {
        to: u64,
    },
}

/// Nodes, one after another.
pub type Block = Items<Node>;
