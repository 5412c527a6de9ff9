//! Codes and scripts of nodes.

use crate::node::Block;
use nu_text::RcStr;
use nu_value::Header;
use sqlite_items::Items;

/// The code of a scope.
#[derive(Drop)]
pub struct NodeCode {
    pub header: Header,
    /// How many free cells it is handed.
    pub free: u64,
    pub body: Block,
}

/// A script with its built-in text.
#[derive(Drop)]
pub struct NodeScript {
    /// The name of the script's file.
    pub name: RcStr,
    /// How many codes, the first ones, belong to the script.
    pub scripts: u32,
    pub codes: Items<NodeCode>,
}
