//! What comprehensions do inside.

ghost use Rattle.std.specs.Prelude.{◌≡◌, ◌+◌, ◌<◌, ◌^◌, [], ◌∷◌, false, IfOk};
ghost use Rattle.op_forms.specs.declared.constant.Const.TheVariants as constant;
ghost use Rattle.code_forms.specs.declared.operand.Operand.TheVariants as operand;
ghost use Rattle.node_tree.specs.Tree.{block};
ghost use Rattle.node_tree.specs.Blocks.{alone};
ghost use Rattle.node_tree.specs.Blocks as tree;
ghost use Rattle.carries_control.specs.Loops.{for_turn_block};
ghost use Rattle.carried_codes.specs.Statements as statements;
ghost use Rattle.reform_blocks.specs.Parts.{carrier};
ghost use Rattle.reform_functions.specs.Turning.{made_of};

use node_tree::{Argument, Block, Node, Operand};
use op_forms::Op;
use reform_base::Part;
use reform_blocks::{append, branches, flag, followed, loops, operation, single};
use reform_values::{attempt, decided, on_none, on_two, stopped};
use sqlite_items::Items;
use std::alloc::{AllocError, Global};

/// What has no value, with the next temporary.
#[derive(Drop)]
pub struct Made {
    pub block: Block,
    pub next: u64,
}

/// An item goes into the list that is collected (reference, section 6.2.4).
///
/// # Errors
///
/// Want of memory alone.
#[tactic(auto, unfolding(carried_codes::specs::Statements::push))]
pub fn push(
    alloc: Global,
    into: Operand,
    item: Part,
    line: u32,
    next: u64,
) -> Result<Made, AllocError>
    requires { next + 1 < 2 ^ 64 }
    ensures { IfOk result (λ m. made_of m ≡ statements.push line into (carrier item) next) }
{
    let Part { block, value } = item;
    let made = on_two(alloc, next, line, Op::Push, into, value)?;
    let block = followed(block, made)?;
    Ok(Made {
        block,
        next: next + 1,
    })
}

/// An entry goes into the dict that is collected.
///
/// # Errors
///
/// Want of memory alone.
#[tactic(auto, unfolding(carried_codes::specs::Statements::put))]
pub fn put(
    alloc: Global,
    into: Operand,
    key: Part,
    value: Part,
    line: u32,
    next: u64,
) -> Result<Made, AllocError>
    requires { next + 1 < 2 ^ 64 }
    ensures { IfOk result (λ m. made_of m ≡ statements.put line into (carrier key) (carrier value) next) }
{
    let mut args = Items::new(alloc);
    args.push(Argument::Value(into))?;
    args.push(Argument::Value(key.value))?;
    args.push(Argument::Value(value.value))?;
    let made = Node::Do {
        to: next,
        line,
        op: Op::Put,
        args,
    };
    let behind = followed(value.block, made)?;
    let block = append(key.block, behind)?;
    Ok(Made {
        block,
        next: next + 1,
    })
}

/// A value of a generator expression is yielded.
///
/// # Errors
///
/// Want of memory alone.
#[tactic(auto, unfolding(carried_codes::specs::Statements::emit))]
pub fn emit(value: Part, line: u32, next: u64) -> Result<Made, AllocError>
    requires { next + 1 < 2 ^ 64 }
    ensures { IfOk result (λ m. made_of m ≡ statements.emit line (carrier value) next) }
{
    let Part { block, value } = value;
    let block = followed(
        block,
        Node::Yield {
            to: next,
            line,
            value,
        },
    )?;
    Ok(Made {
        block,
        next: next + 1,
    })
}

/// An `if` of a comprehension, around a block.
///
/// # Errors
///
/// Want of memory alone.
#[tactic(auto, unfolding(carried_codes::specs::Statements::filter))]
pub fn filter(
    alloc: Global,
    test: Part,
    body: Block,
    line: u32,
    next: u64,
) -> Result<Made, AllocError>
    requires { next + 1 < 2 ^ 64 }
    ensures { IfOk result (λ m. made_of m ≡ statements.filter line (carrier test) (block body) next) }
{
    let block = decided(alloc, test, body, Items::new(alloc), line, next)?;
    Ok(Made {
        block,
        next: next + 1,
    })
}

/// A turn of a loop over the iterator in the first of five temporaries: its next value goes to the temporary `item`, is bound by a block,
/// and the body runs, which `continue` leaves; or there is none, which the second temporary tells (reference, section 8.3).
///
/// # Errors
///
/// Want of memory alone.
pub fn turn(
    alloc: Global,
    item: u64,
    bind: Block,
    body: Block,
    line: u32,
    next: u64,
) -> Result<Block, AllocError>
    requires { next + 5 < 2 ^ 64 }
    ensures { IfOk result (λ b. block b ≡ for_turn_block line next item (block bind) (block body)) }
{
    let asked = operation(alloc, item, line, Op::Next, Operand::Temp(next))?;
    let tried = attempt(alloc, next + 2, next + 1, asked)?;
    let over = single(alloc, Node::Leave { levels: 1 })?;
    let over = stopped(alloc, next + 2, over, line, next + 3)?;
    let inside = append(bind, body)?;
    let inside = followed(inside, Node::Leave { levels: 1 })?;
    let inside = single(alloc, loops(inside))?;
    let whole = single(alloc, tried)?;
    followed(whole, branches(Operand::Temp(next + 1), over, inside))
}

/// A loop of such turns, before which the temporary `over` is false; where it is true behind the loop, another block runs.
///
/// # Errors
///
/// Want of memory alone.
pub fn begun(alloc: Global, turn: Block, over: u64, other: Block) -> Result<Block, AllocError>
    ensures { IfOk result (λ b. block b ≡ tree.Follow (tree.Constant over (constant.Bool false)) (tree.Follow (tree.Loop (block turn)) (alone (tree.If (operand.Temp over) (block other) tree.Stop)))) }
{
    let whole = single(alloc, flag(over, false))?;
    let whole = followed(whole, loops(turn))?;
    followed(
        whole,
        branches(Operand::Temp(over), other, Items::new(alloc)),
    )
}

/// The loop over the iterator in a temporary, each of whose values goes to the temporary `item`, and from there on by a block.
///
/// # Errors
///
/// Want of memory alone.
#[tactic(auto, unfolding(carried_codes::specs::Statements::over))]
pub fn over(
    alloc: Global,
    item: u64,
    from: u64,
    bind: Block,
    body: Block,
    line: u32,
    next: u64,
) -> Result<Block, AllocError>
    requires { next + 5 < 2 ^ 64 }
    ensures { IfOk result (λ b. block b ≡ statements.over line item from (block bind) (block body) next) }
{
    let turn = turn(alloc, item, bind, body, line, next)?;
    let whole = begun(alloc, turn, next + 1, Items::new(alloc))?;
    let first = single(alloc, Node::Copy { to: next, from })?;
    append(first, whole)
}

/// What an operation makes is filled by a block, and returned.
///
/// # Errors
///
/// Want of memory alone.
#[tactic(auto, unfolding(carried_codes::specs::Statements::gather))]
pub fn gather(
    alloc: Global,
    op: Op,
    into: u64,
    filling: Block,
    line: u32,
) -> Result<Block, AllocError>
    ensures { IfOk result (λ b. block b ≡ statements.gather line into op (block filling)) }
{
    let filled = followed(
        filling,
        Node::Return {
            value: Operand::Temp(into),
        },
    )?;
    let whole = single(alloc, on_none(alloc, into, line, op))?;
    append(whole, filled)
}
