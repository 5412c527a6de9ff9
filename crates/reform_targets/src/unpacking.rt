//! A value is unpacked, and its items go to targets.

ghost use Rattle.std.specs.Prelude.{◌≡◌, ◌+◌, [], ◌∷◌, map, length, IfOk};
ghost use Rattle.op_forms.specs.declared.op.Op.TheVariants as op_named;
ghost use Rattle.code_forms.specs.declared.operand.Argument.TheVariants as argument;
ghost use Rattle.node_tree.specs.Tree.{form, block};
ghost use Rattle.node_tree.specs.Blocks as tree;
ghost use Rattle.carries_targets.specs.Targets.{items_block, numeral as numeral_form};
ghost use Rattle.carried_codes.specs.Places as spec;
ghost use Rattle.reform_targets.specs.Takers.{taker_of};

use node_tree::{Argument, Block, Node, Operand};
use op_forms::{Const, Op};
use reform_blocks::{append, single};
use sqlite_items::Items;
use std::alloc::{AllocError, Global};

/// An item goes to a temporary, and from there on to its target by a block.
#[derive(Drop)]
pub struct Taker {
    pub item: u64,
    pub block: Block,
}

fn numeral(number: u64) -> Argument
    ensures { result ≡ numeral_form number }
{
    Argument::Value(Operand::Const(Const::Int(number as i128)))
}

fn after(number: u64) -> Result<u64, AllocError>
    ensures { IfOk result (λ n. n ≡ number + 1) }
{
    let Some(next) = number.checked_add(1) else {
        return Err(AllocError);
    };
    Ok(next)
}

fn unpack(
    alloc: Global,
    list: u64,
    count: u64,
    value: Operand,
    line: u32,
) -> Result<Node, AllocError>
    ensures { IfOk result (λ n. form n ≡ tree.Do list line op_named.Unpack (argument.Value value ∷ numeral_form count ∷ [])) }
{
    let mut args = Items::new(alloc);
    args.push(Argument::Value(value))?;
    args.push(numeral(count))?;
    Ok(Node::Do {
        to: list,
        line,
        op: Op::Unpack,
        args,
    })
}

fn unpack_star(
    alloc: Global,
    list: u64,
    before: u64,
    behind: u64,
    value: Operand,
    line: u32,
) -> Result<Node, AllocError>
    ensures { IfOk result (λ n. form n ≡ tree.Do list line op_named.UnpackStar (argument.Value value ∷ numeral_form before ∷ numeral_form behind ∷ [])) }
{
    let mut args = Items::new(alloc);
    args.push(Argument::Value(value))?;
    args.push(numeral(before))?;
    args.push(numeral(behind))?;
    Ok(Node::Do {
        to: list,
        line,
        op: Op::UnpackStar,
        args,
    })
}

// The item of a number.
fn take(alloc: Global, list: u64, number: u64, taker: Taker, line: u32) -> Result<Block, AllocError>
    ensures { IfOk result (λ b. block b ≡ tree.Follow (tree.Do taker.item line op_named.Index (tree.of_temp list ∷ numeral_form number ∷ [])) (block taker.block)) }
{
    let Taker { item, block: then } = taker;
    let mut args = Items::new(alloc);
    args.push(Argument::Value(Operand::Temp(list)))?;
    args.push(numeral(number))?;
    let node = Node::Do {
        to: item,
        line,
        op: Op::Index,
        args,
    };
    let first = single(alloc, node)?;
    append(first, then)
}

// The items from a number on, behind a block.
fn take_all(
    alloc: Global,
    first: Block,
    list: u64,
    number: u64,
    takers: Vec<Taker>,
    line: u32,
) -> Result<Block, AllocError>
    ensures { IfOk result (λ b. block b ≡ tree.append (block first) (items_block line list number (map taker_of takers.items) tree.Stop)) }
{
    let mut whole = first;
    let mut at = number;
    for taker in takers {
        let one = take(alloc, list, at, taker, line)?;
        whole = append(whole, one)?;
        at = after(at)?;
    }
    Ok(whole)
}

/// The list of the items goes to a temporary, and each item to its target.
#[tactic(auto, unfolding(carried_codes::specs::Places::assign_each))]
pub fn unpacked(
    alloc: Global,
    list: u64,
    value: Operand,
    takers: Vec<Taker>,
    line: u32,
) -> Result<Block, AllocError>
    ensures { IfOk result (λ b. block b ≡ spec.assign_each line (length takers.items) (map taker_of takers.items) value list) }
{
    let node = unpack(alloc, list, takers.len() as u64, value, line)?;
    let first = single(alloc, node)?;
    let whole = take_all(alloc, first, list, 0, takers, line)?;
    Ok(whole)
}

/// The same with a star: one target gets a list of all items that are left.
pub fn unpacked_starred(
    alloc: Global,
    list: u64,
    value: Operand,
    before: Vec<Taker>,
    star: Taker,
    behind: Vec<Taker>,
    line: u32,
) -> Result<Block, AllocError>
    ensures { IfOk result (λ b. block b ≡ spec.assign_starred line (length before.items) (length behind.items) (map taker_of before.items) (taker_of star) (map taker_of behind.items) value list) }
{
    let number = before.len() as u64;
    let next = after(number)?;
    let node = unpack_star(alloc, list, number, behind.len() as u64, value, line)?;
    let whole = single(alloc, node)?;
    let whole = take_all(alloc, whole, list, 0, before, line)?;
    let star = take(alloc, list, number, star, line)?;
    let whole = append(whole, star)?;
    let whole = take_all(alloc, whole, list, next, behind, line)?;
    Ok(whole)
}
