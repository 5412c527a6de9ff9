//! Node trees: scripts as nested blocks of twelve primitive statements.
//!
//! A node works on numbered temporaries. The first temporaries of a code are its parameters, then its free cells.
#![tactic(auto)]

mod node;
mod script;
mod temps;

ghost use Rattle.node_tree.specs.Laws.{NodeRunsAreMonotone, BlocksGoOn, BlocksAppend};

pub use code_forms::{Argument, Operand};
pub use node::{Block, Node};
pub use script::{NodeCode, NodeScript};
pub use temps::Temps;

/// A run of a node tree prints no less within a larger bound, and its end stays.
pub fn node_runs_are_monotone()
    ensures { NodeRunsAreMonotone }
{}

/// The outcome of a block from any place in it is what the block makes of the outcome of the part there.
pub fn blocks_go_on()
    ensures { BlocksGoOn }
{}

/// The block of two lists of nodes is one block after the other.
pub fn blocks_append()
    ensures { BlocksAppend }
{}
