//! Operations on any number of operands.

ghost use Rattle.std.specs.Prelude.{◌≡◌, ◌+◌, ◌<◌, ◌^◌, map, IfOk};
ghost use Rattle.op_forms.specs.Signature as signature;
ghost use Rattle.node_tree.specs.Blocks as tree;
ghost use Rattle.node_tree.specs.Tree.{form, block};
ghost use Rattle.carries_base.specs.Carries.{joined};
ghost use Rattle.carried_codes.specs.Operations as spec;
ghost use Rattle.carried_codes.specs.Expressions as expressions;
ghost use Rattle.reform_blocks.specs.Parts.{carrier};
ghost use Rattle.reform_values.specs.Names.{names_at};
ghost use Rattle.reform_values.specs.Values.{valued_of};

use crate::made::{Valued, left_in};
use node_tree::{Argument, Block, Node, Operand};
use op_forms::{ArgumentKind, Const, Op};
use reform_base::Part;
use reform_blocks::{append, followed};
use sqlite_items::Items;
use std::alloc::{AllocError, Global};

// Whether the operation takes a bare name at a place.
fn takes_name(op: Op, place: usize) -> bool
    ensures { result ≡ names_at (signature.arguments op) place }
{
    match op.arguments().get(place) {
        Some(ArgumentKind::Name | ArgumentKind::BuiltinName) => true,
        _ => false,
    }
}

fn argument(named: bool, value: Operand) -> Argument
    ensures { result ≡ spec.argument_of named value }
{
    match value {
        Operand::Const(Const::Str(name)) if named => Argument::Name(name),
        other => Argument::Value(other),
    }
}

fn arguments(alloc: Global, op: Op, values: Vec<Operand>) -> Result<Items<Argument>, AllocError>
    ensures { IfOk result (λ args. args ≡ spec.given (signature.arguments op) values.items) }
{
    let mut args = Items::new(alloc);
    for value in values {
        let named = takes_name(op, args.len());
        args.push(argument(named, value))?;
    }
    Ok(args)
}

// What is called stands before its arguments.
fn called(alloc: Global, to: u64, line: u32, values: Vec<Operand>) -> Node
    ensures { form result ≡ spec.called to line values.items }
{
    let mut args = values;
    if args.is_empty() {
        return Node::Do {
            to,
            line,
            op: Op::Call,
            args: Items::new(alloc),
        };
    }
    let function = args.remove(0);
    Node::Call {
        to,
        line,
        function,
        args: Items::from_vec(args),
    }
}

fn is_call(op: Op) -> bool
    ensures { result ≡ spec.is_call op }
{
    match op {
        Op::Call => true,
        _ => false,
    }
}

// The statement of an operation.
fn does(alloc: Global, to: u64, line: u32, op: Op, values: Vec<Operand>) -> Result<Node, AllocError>
    ensures { IfOk result (λ n. form n ≡ spec.does to line op values.items) }
{
    if is_call(op) {
        return Ok(called(alloc, to, line, values));
    }
    let args = arguments(alloc, op, values)?;
    Ok(Node::Do { to, line, op, args })
}

/// The blocks of parts one after another, and their values.
pub fn gathered(alloc: Global, parts: Vec<Part>) -> Result<(Block, Vec<Operand>), AllocError>
    ensures { IfOk result (λ r. (block r.0 ≡ joined (map carrier parts.items) tree.Stop) × (r.1.items ≡ map (λ p. p.value) (map carrier parts.items))) }
{
    let mut whole = Items::new(alloc);
    let mut values = Vec::new(alloc);
    for part in parts {
        values.push(part.value)?;
        whole = append(whole, part.block)?;
    }
    Ok((whole, values))
}

/// An operation on operands, which are evaluated from left to right (reference, section 6.16). A name that the operation takes comes as
/// a text constant without a block; a call takes what is called first, and positional arguments (section 6.3.4).
///
/// # Errors
///
/// Want of memory alone.
pub fn operate(
    alloc: Global,
    op: Op,
    parts: Vec<Part>,
    line: u32,
    next: u64,
) -> Result<Valued, AllocError>
    requires { next + 1 < 2 ^ 64 }
    ensures { IfOk result (λ v. valued_of v ≡ expressions.operate line op (map carrier parts.items) next) }
{
    let (first, values) = gathered(alloc, parts)?;
    let made = does(alloc, next, line, op, values)?;
    let whole = followed(first, made)?;
    Ok(left_in(whole, next, next + 1))
}
