//! Branches and returns.

ghost use Rattle.std.specs.Prelude.{◌≡◌, ℕ, ◌+◌, ◌<◌, ◌^◌, IfOk};
ghost use Rattle.node_tree.specs.Tree.{block};
ghost use Rattle.carried_codes.specs.Parts.{made};
ghost use Rattle.carried_codes.specs.Statements as statements;
ghost use Rattle.reform_blocks.specs.Parts.{carrier};
ghost use Rattle.reform_functions.specs.Turning.{made_of};

use node_tree::{Block, Node};
use reform_base::Part;
use reform_blocks::followed;
use reform_functions::Made;
use reform_values::decided;
use std::alloc::{AllocError, Global};

/// An `if` statement; an `elif` is one in the other block (reference, section 8.1).
///
/// # Errors
///
/// Want of memory alone.
#[tactic(auto, unfolding(carried_codes::specs::Statements::branch))]
pub fn branch(
    alloc: Global,
    test: Part,
    body: Block,
    other: Block,
    line: u32,
    next: u64,
) -> Result<Made, AllocError>
    requires { next + 1 < 2 ^ 64 }
    ensures { IfOk result (λ m. made_of m ≡ statements.branch line (carrier test) (block body) (block other) next) }
{
    let block = decided(alloc, test, body, other, line, next)?;
    Ok(Made {
        block,
        next: next + 1,
    })
}

/// A `return` statement with its value, which draws no temporary (reference, section 7.6).
///
/// # Errors
///
/// Want of memory alone.
#[tactic(auto, unfolding(carried_codes::specs::Statements::return_value))]
pub fn return_value(value: Part) -> Result<Block, AllocError>
    ensures { IfOk result (λ b. (next : ℕ) → statements.return_value (carrier value) next ≡ made (block b) next) }
{
    let Part { block, value } = value;
    followed(block, Node::Return { value })
}
