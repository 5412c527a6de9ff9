//! Blocks of primitive statements, rewritten so that each of their returns and outward leaves leads to the nearest loop around them.
//!
//! One statement stands for one, so that a rewritten block pauses at the same places and in the same states.
//!
//! The law serves the reformulation of `finally` and `with`, whose bodies are such blocks.
#![tactic(auto)]

ghost use Rattle.node_redirect.specs.Laws.{RewrittenBlocksDoTheSame};

/// A rewritten block does what the block did.
pub fn rewritten_blocks_do_the_same()
    ensures { RewrittenBlocksDoTheSame }
{}
