//! What the crates that reformulate constructs share: evaluated expressions, and blocks made of nodes and of blocks.
#![tactic(auto)]

ghost use Rattle.std.specs.Prelude.{◌≡◌, [], ◌∷◌, ◌++◌, IfOk};
ghost use Rattle.code_forms.specs.declared.operand.Argument.TheVariants as argument;

use node_tree::{Argument, Block, Node, Operand};
use sqlite_items::Items;
use std::alloc::{AllocError, Global};

/// An evaluated expression: a block, and the operand that holds its value once the block has run.
#[derive(Drop)]
pub struct Part {
    pub block: Block,
    pub value: Operand,
}

/// A value as the one argument of an operation. Nodes and arguments in lists are dropped by one call; where an operand by itself is held
/// over a `?`, its whole drop is written out there.
pub fn argument(alloc: Global, value: Operand) -> Result<Items<Argument>, AllocError>
    ensures { IfOk result (λ args. args ≡ argument.Value value ∷ []) }
{
    let mut args = Items::new(alloc);
    args.push(Argument::Value(value))?;
    Ok(args)
}

/// A block of one node.
pub fn one(alloc: Global, node: Node) -> Result<Block, AllocError>
    ensures { IfOk result (λ b. b ≡ node ∷ []) }
{
    let mut block = Items::new(alloc);
    block.push(node)?;
    Ok(block)
}

/// A block, and a node behind it.
pub fn ended(first: Block, node: Node) -> Result<Block, AllocError>
    ensures { IfOk result (λ b. b ≡ first ++ node ∷ []) }
{
    let mut block = first;
    block.push(node)?;
    Ok(block)
}

/// A block, and another behind it. The nodes are moved, those of the second alone.
pub fn joined(first: Block, then: Block) -> Result<Block, AllocError>
    ensures { IfOk result (λ b. b ≡ first ++ then) }
{
    if first.is_empty() {
        return Ok(then);
    }
    let mut block = first;
    block.append(then)?;
    Ok(block)
}
