//! What the functions answer, and statements that several of them make.

ghost use Rattle.std.specs.Prelude.{◌≡◌, [], ◌∷◌, IfOk};
ghost use Rattle.code_forms.specs.declared.operand.Argument.TheVariants as argument;
ghost use Rattle.code_forms.specs.declared.operand.Operand.TheVariants as operand;
ghost use Rattle.node_tree.specs.Blocks as tree;
ghost use Rattle.node_tree.specs.Tree.{form, block};
ghost use Rattle.carries_values.specs.Displays.{added_block};
ghost use Rattle.carried_codes.specs.Parts as parts;
ghost use Rattle.reform_blocks.specs.Parts.{carrier};
ghost use Rattle.reform_values.specs.Values.{valued_of};

use node_tree::{Argument, Block, Node, Operand};
use op_forms::Op;
use reform_base::Part;
use reform_blocks::followed;
use sqlite_items::Items;
use std::alloc::{AllocError, Global};

/// An expression, with the next temporary.
#[derive(Drop)]
pub struct Valued {
    pub part: Part,
    pub next: u64,
}

/// A block that leaves its value in a temporary.
pub fn left_in(whole: Block, to: u64, next: u64) -> Valued
    ensures { valued_of result ≡ parts.valued (block whole) (operand.Temp to) next }
{
    Valued {
        part: Part {
            block: whole,
            value: Operand::Temp(to),
        },
        next,
    }
}

/// An operation on nothing.
pub fn on_none(alloc: Global, to: u64, line: u32, op: Op) -> Node
    ensures { form result ≡ tree.Do to line op [] }
{
    Node::Do {
        to,
        line,
        op,
        args: Items::new(alloc),
    }
}

/// An operation on two values.
pub fn on_two(
    alloc: Global,
    to: u64,
    line: u32,
    op: Op,
    left: Operand,
    right: Operand,
) -> Result<Node, AllocError>
    ensures { IfOk result (λ n. form n ≡ tree.Do to line op (argument.Value left ∷ argument.Value right ∷ [])) }
{
    let mut args = Items::new(alloc);
    args.push(Argument::Value(left))?;
    args.push(Argument::Value(right))?;
    Ok(Node::Do { to, line, op, args })
}

/// The value of a part goes into what a temporary holds, by another temporary.
pub fn added(
    alloc: Global,
    whole: u64,
    by: u64,
    line: u32,
    op: Op,
    part: Part,
) -> Result<Block, AllocError>
    ensures { IfOk result (λ b. block b ≡ added_block line whole by op (carrier part) tree.Stop) }
{
    let Part { block, value } = part;
    let made = on_two(alloc, by, line, op, Operand::Temp(whole), value)?;
    followed(block, made)
}
