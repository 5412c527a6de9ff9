//! What runs of a program.

use crate::program::Statement;
use nu_text::RcStr;
use sqlite_items::Items;

/// A statement, and the numbers of the statements to which its labels lead; None for a label that doesn't stand in the function.
#[derive(Drop)]
pub struct Placed {
    pub statement: Statement,
    /// Of its label, if it has one.
    pub goal: Option<u64>,
    /// Of the labels of its cases.
    pub cases: Items<Option<u64>>,
}

/// What runs of a function: how many slots and registers it has, and its statements.
#[derive(Drop)]
pub struct Body {
    pub slots: u64,
    pub registers: u64,
    pub statements: Items<Placed>,
}

/// What runs of a program: the name of the script's file, how many functions, the first ones, are the script's, and what
/// runs of each.
#[derive(Drop)]
pub struct Code {
    pub file: RcStr,
    pub scripts: u32,
    pub bodies: Items<Body>,
}
