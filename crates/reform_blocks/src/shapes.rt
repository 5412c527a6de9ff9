//! Statements and blocks of them, by what they are as blocks.

ghost use Rattle.std.specs.Prelude.{◌≡◌, [], ◌∷◌, IfOk};
ghost use Rattle.op_forms.specs.declared.op.Op.TheVariants as operation_named;
ghost use Rattle.code_forms.specs.declared.operand.Argument.TheVariants as argument;
ghost use Rattle.node_tree.specs.Tree.{form, block};
ghost use Rattle.node_tree.specs.Blocks as tree;
ghost use Rattle.node_tree.specs.Blocks.{alone, puts as put_form, flag as flag_form};

use node_tree::{Argument, Block, Node, Operand};
use nu_text::RcStr;
use op_forms::{Const, Op};
use reform_base::joined;
use sqlite_items::Items;
use std::alloc::{AllocError, Global};

/// A temporary gets a truth value.
pub fn flag(to: u64, truth: bool) -> Node
    ensures { form result ≡ flag_form to truth }
{
    Node::Constant {
        to,
        value: Const::Bool(truth),
    }
}

/// A temporary gets what an operand holds.
pub fn puts(to: u64, value: Operand) -> Node
    ensures { form result ≡ put_form to value }
{
    match value {
        Operand::Temp(from) => Node::Copy { to, from },
        Operand::Const(value) => Node::Constant { to, value },
    }
}

/// A branch.
pub fn branches(test: Operand, yes: Block, no: Block) -> Node
    ensures { form result ≡ tree.If test (block yes) (block no) }
{
    Node::If { test, yes, no }
}

/// A loop.
pub fn loops(body: Block) -> Node
    ensures { form result ≡ tree.Loop (block body) }
{
    Node::Loop { body }
}

/// A body with its handler.
pub fn catches(to: u64, body: Block, handler: Block) -> Node
    ensures { form result ≡ tree.Catch to (block body) (block handler) }
{
    Node::Catch { to, body, handler }
}

/// A block of one statement.
pub fn single(alloc: Global, node: Node) -> Result<Block, AllocError>
    ensures { IfOk result (λ b. block b ≡ alone (form node)) }
{
    let mut block: Block = Items::new(alloc);
    block.push(node)?;
    Ok(block)
}

/// A block, and a statement behind it.
pub fn followed(first: Block, node: Node) -> Result<Block, AllocError>
    ensures { IfOk result (λ b. block b ≡ tree.append (block first) (alone (form node))) }
{
    let mut block = first;
    block.push(node)?;
    Ok(block)
}

/// A block, and another behind it. The nodes are moved, those of the second alone.
pub fn append(first: Block, then: Block) -> Result<Block, AllocError>
    ensures { IfOk result (λ b. block b ≡ tree.append (block first) (block then)) }
{
    let whole = joined(first, then)?;
    Ok(whole)
}

/// An operation on one value.
pub fn operation(
    alloc: Global,
    to: u64,
    line: u32,
    op: Op,
    value: Operand,
) -> Result<Node, AllocError>
    ensures { IfOk result (λ n. form n ≡ tree.Do to line op (argument.Value value ∷ [])) }
{
    let mut args = Items::new(alloc);
    args.push(Argument::Value(value))?;
    Ok(Node::Do { to, line, op, args })
}

/// An operation on a value and a name that is written out.
pub fn named_operation(
    alloc: Global,
    to: u64,
    line: u32,
    op: Op,
    value: Operand,
    name: &str,
) -> Result<Node, AllocError>
    ensures { IfOk result (λ n. form n ≡ tree.Do to line op (argument.Value value ∷ argument.Name name.now ∷ [])) }
{
    let mut args = Items::new(alloc);
    args.push(Argument::Value(value))?;
    args.push(Argument::Name(RcStr::from_str(alloc, name)?))?;
    Ok(Node::Do { to, line, op, args })
}

/// A native class or function, by a name that is written out.
pub fn native(alloc: Global, to: u64, line: u32, name: &str) -> Result<Node, AllocError>
    ensures { IfOk result (λ n. form n ≡ tree.Do to line operation_named.Native (argument.Name name.now ∷ [])) }
{
    let mut args = Items::new(alloc);
    args.push(Argument::Name(RcStr::from_str(alloc, name)?))?;
    Ok(Node::Do {
        to,
        line,
        op: Op::Native,
        args,
    })
}
