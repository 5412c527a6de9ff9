//! Parts of constructs that are made.

use node_tree::Block;
use reform_base::Part;
use reform_functions::Named;
use reform_targets::Place;

/// A target in a list of them, and whether a star stands before it.
#[derive(Drop)]
pub struct Aim {
    pub starred: bool,
    pub place: Place,
}

/// A further clause of a comprehension (reference, section 6.2.4).
#[derive(Drop)]
pub enum Turn {
    /// The temporary of its items, how they are bound, and what they range over.
    Ranges { item: u64, bind: Block, over: Part },
    Filters { test: Part },
}

/// The defaults of parameters, and of those that are given by keyword alone.
#[derive(Drop)]
pub struct Defaults {
    pub positional: Vec<Part>,
    pub named: Vec<Named>,
}
