//! Pauses of generators.

ghost use Rattle.std.specs.Prelude.{◌≡◌, ◌+◌, ◌<◌, ◌^◌, [], ◌∷◌, false, IfOk};
ghost use Rattle.op_forms.specs.declared.op.Op.TheVariants as op_named;
ghost use Rattle.code_forms.specs.declared.operand.Operand.TheVariants as operand;
ghost use Rattle.node_tree.specs.Blocks as tree;
ghost use Rattle.node_tree.specs.Tree.{form, block};
ghost use Rattle.carries_control.specs.Raises.{stopped_block};
ghost use Rattle.carries_control.specs.Loops as loop_blocks;
ghost use Rattle.carries_definitions.specs.Delegated as delegated;
ghost use Rattle.carries_definitions.specs.Told as told_blocks;
ghost use Rattle.carried_codes.specs.Expressions as expressions;
ghost use Rattle.reform_blocks.specs.Parts.{carrier};
ghost use Rattle.reform_values.specs.Delegating.{turn_block, never_block, turns_block};
ghost use Rattle.reform_values.specs.Values.{valued_of};

use crate::made::{Valued, left_in, on_two};
use node_tree::{Argument, Block, Node, Operand};
use op_forms::{Const, Op};
use reform_base::Part;
use reform_blocks::{
    append, branches, catches, flag, followed, loops, named_operation, native, operation, single,
};
use sqlite_items::Items;
use std::alloc::{AllocError, Global};

/// A `yield` (reference, section 6.2.9).
///
/// # Errors
///
/// Want of memory alone.
#[tactic(auto, unfolding(carried_codes::specs::Expressions::yield_value))]
pub fn yield_value(part: Part, line: u32, next: u64) -> Result<Valued, AllocError>
    requires { next + 1 < 2 ^ 64 }
    ensures { IfOk result (λ v. valued_of v ≡ expressions.yield_value line (carrier part) next) }
{
    let Part { block, value } = part;
    let whole = followed(
        block,
        Node::Yield {
            to: next,
            line,
            value,
        },
    )?;
    Ok(left_in(whole, next, next + 1))
}

/// An exception of a statement goes to a temporary, and a flag tells that there was one.
pub fn attempt(alloc: Global, to: u64, raised: u64, body: Node) -> Result<Node, AllocError>
    ensures { IfOk result (λ n. form n ≡ loop_blocks.attempt to raised (tree.alone (form body))) }
{
    let body = single(alloc, body)?;
    let told = single(alloc, flag(raised, true))?;
    Ok(catches(to, body, told))
}

/// What follows an exception that is a StopIteration; any other is raised again.
pub fn stopped(
    alloc: Global,
    exception: u64,
    over: Block,
    line: u32,
    next: u64,
) -> Result<Block, AllocError>
    requires { next + 1 < 2 ^ 64 }
    ensures { IfOk result (λ b. block b ≡ stopped_block line exception next (block over)) }
{
    let class = native(alloc, next, line, "StopIteration")?;
    let asked = on_two(
        alloc,
        next + 1,
        line,
        Op::Match,
        Operand::Temp(exception),
        Operand::Temp(next),
    )?;
    let again = single(
        alloc,
        Node::Raise {
            value: Operand::Temp(exception),
        },
    )?;
    let whole = single(alloc, class)?;
    let whole = followed(whole, asked)?;
    followed(whole, branches(Operand::Temp(next + 1), over, again))
}

// What an operation on the inner iterator gives is carried to the next turn; a StopIteration that it raises ends the loop.
fn resumed(
    alloc: Global,
    op: Op,
    args: Items<Argument>,
    line: u32,
    next: u64,
) -> Result<Block, AllocError>
    requires { next + 13 < 2 ^ 64 }
    ensures { IfOk result (λ b. block b ≡ told_blocks.resumed_block line next op args) }
{
    let tried = attempt(
        alloc,
        next + 3,
        next + 2,
        Node::Do {
            to: next + 1,
            line,
            op,
            args,
        },
    )?;
    let over = single(
        alloc,
        Node::Copy {
            to: next + 1,
            from: next + 3,
        },
    )?;
    let over = followed(over, Node::Leave { levels: 1 })?;
    let over = stopped(alloc, next + 3, over, line, next + 5)?;
    let whole = single(alloc, flag(next + 2, false))?;
    let whole = followed(whole, tried)?;
    followed(
        whole,
        branches(Operand::Temp(next + 2), over, Items::new(alloc)),
    )
}

// Whether a value is None decides.
fn told(
    alloc: Global,
    value: u64,
    to: u64,
    yes: Block,
    no: Block,
    line: u32,
) -> Result<Block, AllocError>
    ensures { IfOk result (λ b. block b ≡ told_blocks.told_block line value to (block yes) (block no)) }
{
    let asked = on_two(
        alloc,
        to,
        line,
        Op::Is,
        Operand::Temp(value),
        Operand::Const(Const::None),
    )?;
    let whole = single(alloc, asked)?;
    followed(whole, branches(Operand::Temp(to), yes, no))
}

// What temporaries hold, as arguments.
fn of_temp(alloc: Global, at: u64) -> Result<Items<Argument>, AllocError>
    ensures { IfOk result (λ args. args ≡ tree.of_temp at ∷ []) }
{
    let mut args = Items::new(alloc);
    args.push(Argument::Value(Operand::Temp(at)))?;
    Ok(args)
}

fn of_temps(alloc: Global, first: u64, second: u64) -> Result<Items<Argument>, AllocError>
    ensures { IfOk result (λ args. args ≡ tree.of_temp first ∷ tree.of_temp second ∷ []) }
{
    let mut args = of_temp(alloc, first)?;
    args.push(Argument::Value(Operand::Temp(second)))?;
    Ok(args)
}

// None that is sent asks for the next value, and any other value goes to `send`.
fn sent(alloc: Global, line: u32, next: u64) -> Result<Block, AllocError>
    requires { next + 13 < 2 ^ 64 }
    ensures { IfOk result (λ b. block b ≡ told_blocks.sent_block line next) }
{
    let asked = resumed(alloc, Op::Next, of_temp(alloc, next)?, line, next)?;
    let method = named_operation(alloc, next + 9, line, Op::Attr, Operand::Temp(next), "send")?;
    let handed = resumed(
        alloc,
        Op::Call,
        of_temps(alloc, next + 9, next + 4)?,
        line,
        next,
    )?;
    let handed = append(single(alloc, method)?, handed)?;
    told(alloc, next + 4, next + 8, asked, handed, line)
}

// The exception that is thrown is raised here.
fn again(alloc: Global, next: u64) -> Result<Block, AllocError>
    requires { next + 13 < 2 ^ 64 }
    ensures { IfOk result (λ b. block b ≡ told_blocks.again_block next) }
{
    single(
        alloc,
        Node::Raise {
            value: Operand::Temp(next + 3),
        },
    )
}

// A GeneratorExit closes the inner iterator, if that has a `close`.
fn closed(alloc: Global, line: u32, next: u64) -> Result<Block, AllocError>
    requires { next + 13 < 2 ^ 64 }
    ensures { IfOk result (λ b. block b ≡ told_blocks.closed_block line next) }
{
    let method = named_operation(
        alloc,
        next + 10,
        line,
        Op::Find,
        Operand::Temp(next),
        "close",
    )?;
    let closes = operation(alloc, next + 12, line, Op::Call, Operand::Temp(next + 10))?;
    let none = again(alloc, next)?;
    let some = append(single(alloc, closes)?, again(alloc, next)?)?;
    let rest = told(alloc, next + 10, next + 11, none, some, line)?;
    append(single(alloc, method)?, rest)
}

// Any other exception goes to `throw`, if the inner iterator has that.
fn threw(alloc: Global, line: u32, next: u64) -> Result<Block, AllocError>
    requires { next + 13 < 2 ^ 64 }
    ensures { IfOk result (λ b. block b ≡ told_blocks.threw_block line next) }
{
    let method = named_operation(
        alloc,
        next + 10,
        line,
        Op::Find,
        Operand::Temp(next),
        "throw",
    )?;
    let none = again(alloc, next)?;
    let some = resumed(
        alloc,
        Op::Call,
        of_temps(alloc, next + 10, next + 3)?,
        line,
        next,
    )?;
    let rest = told(alloc, next + 10, next + 11, none, some, line)?;
    append(single(alloc, method)?, rest)
}

// What follows an exception that is thrown at the pause.
fn thrown(alloc: Global, line: u32, next: u64) -> Result<Block, AllocError>
    requires { next + 13 < 2 ^ 64 }
    ensures { IfOk result (λ b. block b ≡ told_blocks.thrown_block line next) }
{
    let class = native(alloc, next + 8, line, "GeneratorExit")?;
    let asked = on_two(
        alloc,
        next + 9,
        line,
        Op::Match,
        Operand::Temp(next + 3),
        Operand::Temp(next + 8),
    )?;
    let closed = closed(alloc, line, next)?;
    let threw = threw(alloc, line, next)?;
    let whole = single(alloc, class)?;
    let whole = followed(whole, asked)?;
    followed(whole, branches(Operand::Temp(next + 9), closed, threw))
}

// A turn: what is carried is yielded, and then one of two blocks follows what is sent, or thrown.
#[tactic(auto, unfolding(crate::specs::Delegating::turn_block))]
fn turn(alloc: Global, line: u32, next: u64) -> Result<Block, AllocError>
    requires { next + 13 < 2 ^ 64 }
    ensures { IfOk result (λ b. block b ≡ turn_block line next) }
{
    let sent = sent(alloc, line, next)?;
    let thrown = thrown(alloc, line, next)?;
    let tried = attempt(
        alloc,
        next + 3,
        next + 2,
        Node::Yield {
            to: next + 4,
            line,
            value: Operand::Temp(next + 1),
        },
    )?;
    let whole = single(alloc, flag(next + 2, false))?;
    let whole = followed(whole, tried)?;
    followed(whole, branches(Operand::Temp(next + 2), thrown, sent))
}

// The value of a StopIteration.
fn outcome(alloc: Global, exception: u64, line: u32, to: u64) -> Result<Node, AllocError>
    ensures { IfOk result (λ n. tree.alone (form n) ≡ delegated.result_block line exception to) }
{
    named_operation(alloc, to, line, Op::Attr, Operand::Temp(exception), "value")
}

// There is no first value.
#[tactic(auto, unfolding(crate::specs::Delegating::never_block))]
fn never(alloc: Global, line: u32, next: u64) -> Result<Block, AllocError>
    requires { next + 13 < 2 ^ 64 }
    ensures { IfOk result (λ b. block b ≡ never_block line next) }
{
    let value = outcome(alloc, next + 3, line, next + 7)?;
    let value = single(alloc, value)?;
    let whole = stopped(alloc, next + 3, value, line, next + 5)?;
    Ok(whole)
}

// The turns, and the value behind them.
#[tactic(auto, unfolding(crate::specs::Delegating::turns_block))]
fn turns(alloc: Global, line: u32, next: u64) -> Result<Block, AllocError>
    requires { next + 13 < 2 ^ 64 }
    ensures { IfOk result (λ b. block b ≡ turns_block line next) }
{
    let value = outcome(alloc, next + 1, line, next + 7)?;
    let turn = turn(alloc, line, next)?;
    let whole = single(alloc, loops(turn))?;
    let whole = followed(whole, value)?;
    Ok(whole)
}

// The first value of the iterator.
fn first_value(alloc: Global, line: u32, next: u64) -> Result<Node, AllocError>
    requires { next + 13 < 2 ^ 64 }
    ensures { IfOk result (λ n. form n ≡ loop_blocks.attempt (next + 3) (next + 2) (tree.alone (tree.Do (next + 1) line op_named.Next (tree.of_temp next ∷ [])))) }
{
    let asked = operation(alloc, next + 1, line, Op::Next, Operand::Temp(next))?;
    let tried = attempt(alloc, next + 3, next + 2, asked)?;
    Ok(tried)
}

// The first value of the iterator is asked for, and then the turns begin, or there is none.
fn delegating(alloc: Global, line: u32, next: u64) -> Result<Block, AllocError>
    requires { next + 13 < 2 ^ 64 }
    ensures { IfOk result (λ b. block b ≡ tree.Follow (tree.flag (next + 2) false) (tree.Follow (loop_blocks.attempt (next + 3) (next + 2) (tree.alone (tree.Do (next + 1) line op_named.Next (tree.of_temp next ∷ [])))) (tree.alone (tree.If (operand.Temp (next + 2)) (never_block line next) (turns_block line next))))) }
{
    let tried = first_value(alloc, line, next)?;
    let none = never(alloc, line, next)?;
    let some = turns(alloc, line, next)?;
    let whole = single(alloc, flag(next + 2, false))?;
    let whole = followed(whole, tried)?;
    let whole = followed(whole, branches(Operand::Temp(next + 2), none, some))?;
    Ok(whole)
}

/// A `yield from` (reference, section 6.2.9).
///
/// # Errors
///
/// Want of memory alone.
pub fn delegate(alloc: Global, part: Part, line: u32, next: u64) -> Result<Valued, AllocError>
    requires { next + 13 < 2 ^ 64 }
    ensures { IfOk result (λ v. valued_of v ≡ expressions.delegate line (carrier part) next) }
{
    let Part { block, value } = part;
    let iterator = operation(alloc, next, line, Op::Iter, value)?;
    let first = followed(block, iterator)?;
    let rest = delegating(alloc, line, next)?;
    let whole = append(first, rest)?;
    Ok(left_in(whole, next + 7, next + 13))
}
