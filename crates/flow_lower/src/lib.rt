//! Flat code of node trees.
#![tactic(auto)]

mod calls;
mod lowering;
mod registers;
mod script;

ghost use Rattle.flow_lower.specs.Laws.{LoweredDoesTheSame};

pub use lowering::lower_nodes;
pub use script::lower;

/// Flat code that is that of a node tree does what the tree does.
pub fn lowered_does_the_same()
    ensures { LoweredDoesTheSame }
{}
