//! Loops. A body stands in a loop of its own, which `continue` leaves alone, and `break` with the one around it.

ghost use Rattle.std.specs.Prelude.{◌≡◌, ◌+◌, ◌<◌, ◌^◌, IfOk};
ghost use Rattle.node_tree.specs.Tree.{block};
ghost use Rattle.carries_base.specs.Laws.{turn_block};
ghost use Rattle.carried_codes.specs.Statements as statements;
ghost use Rattle.reform_blocks.specs.Parts.{carrier};
ghost use Rattle.reform_functions.specs.Turning.{made_of};

use node_tree::{Block, Node};
use op_forms::Op;
use reform_base::Part;
use reform_blocks::{append, flag, followed, loops, operation, single};
use reform_functions::{Made, begun, turn};
use reform_values::decided;
use std::alloc::{AllocError, Global};

// A turn of a `while`: where the test fails, that is told, and the loop is left.
fn tested_turn(
    alloc: Global,
    test: Part,
    body: Block,
    line: u32,
    over: u64,
    truth: u64,
) -> Result<Block, AllocError>
    ensures { IfOk result (λ b. block b ≡ turn_block line over truth (block test.block) test.value (block body)) }
{
    let inside = followed(body, Node::Leave { levels: 1 })?;
    let yes = single(alloc, loops(inside))?;
    let no = single(alloc, flag(over, true))?;
    let no = followed(no, Node::Leave { levels: 1 })?;
    decided(alloc, test, yes, no, line, truth)
}

/// A `while` statement with its `else` (reference, section 8.2).
///
/// # Errors
///
/// Want of memory alone.
#[tactic(auto, unfolding(carried_codes::specs::Statements::while_loop))]
pub fn while_loop(
    alloc: Global,
    test: Part,
    body: Block,
    other: Block,
    line: u32,
    next: u64,
) -> Result<Made, AllocError>
    requires { next + 2 < 2 ^ 64 }
    ensures { IfOk result (λ m. made_of m ≡ statements.while_loop line (carrier test) (block body) (block other) next) }
{
    let turn = tested_turn(alloc, test, body, line, next, next + 1)?;
    let block = begun(alloc, turn, next, other)?;
    Ok(Made {
        block,
        next: next + 1 + 1,
    })
}

/// A `for` statement with its `else`: each value of the iterator goes to the temporary `item`, and from there on by a block (reference,
/// section 8.3).
///
/// # Errors
///
/// Want of memory alone.
#[tactic(auto, unfolding(carried_codes::specs::Statements::for_loop))]
pub fn for_loop(
    alloc: Global,
    values: Part,
    item: u64,
    bind: Block,
    body: Block,
    other: Block,
    line: u32,
    next: u64,
) -> Result<Made, AllocError>
    requires { next + 5 < 2 ^ 64 }
    ensures { IfOk result (λ m. made_of m ≡ statements.for_loop line (carrier values) item (block bind) (block body) (block other) next) }
{
    let Part {
        block: first,
        value,
    } = values;
    let iterator = operation(alloc, next, line, Op::Iter, value)?;
    let turn = turn(alloc, item, bind, body, line, next)?;
    let looped = begun(alloc, turn, next + 1, other)?;
    let behind = single(alloc, iterator)?;
    let behind = append(behind, looped)?;
    let block = append(first, behind)?;
    Ok(Made {
        block,
        next: next + 5,
    })
}
