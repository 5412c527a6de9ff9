//! Functions and scripts of flat code.

use crate::statement::Line;
use nu_text::RcStr;
use nu_value::Header;
use sqlite_items::Items;

/// A function.
#[derive(Drop)]
pub struct FlatFunction {
    pub header: Header,
    /// Labels are numbered below this.
    pub labels: u64,
    /// How many registers are declared: those numbered below this.
    pub registers: u64,
    pub body: Items<Line>,
}

/// A script with its built-in text.
#[derive(Drop)]
pub struct FlatScript {
    /// The name of the script's file.
    pub name: RcStr,
    /// How many functions, the first ones, belong to the script.
    pub scripts: u32,
    pub functions: Items<FlatFunction>,
}
