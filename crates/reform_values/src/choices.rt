//! Expressions whose parts aren't all evaluated.

ghost use Rattle.std.specs.Prelude.{◌≡◌, ◌+◌, ◌<◌, ◌^◌, IfOk};
ghost use Rattle.node_tree.specs.Tree.{block};
ghost use Rattle.carries_base.specs.Laws.{if_block};
ghost use Rattle.carries_values.specs.Parts as moves;
ghost use Rattle.carries_values.specs.Choices.{junction_block};
ghost use Rattle.carried_codes.specs.Expressions as expressions;
ghost use Rattle.reform_blocks.specs.Parts.{carrier};
ghost use Rattle.reform_values.specs.Values.{valued_of};

use crate::made::{Valued, left_in};
use node_tree::{Block, Operand};
use op_forms::Op;
use reform_base::Part;
use reform_blocks::{append, branches, followed, operation, puts, single};
use std::alloc::{AllocError, Global};

// A part, and its value goes to a temporary.
fn into(to: u64, part: Part) -> Result<Block, AllocError>
    ensures { IfOk result (λ b. block b ≡ moves.into to (carrier part)) }
{
    let Part { block, value } = part;
    followed(block, puts(to, value))
}

/// One of two blocks follows a test, whose truth goes to a temporary.
///
/// # Errors
///
/// Want of memory alone.
pub fn decided(
    alloc: Global,
    test: Part,
    yes: Block,
    no: Block,
    line: u32,
    truth: u64,
) -> Result<Block, AllocError>
    ensures { IfOk result (λ b. block b ≡ if_block line truth (block test.block) test.value (block yes) (block no)) }
{
    let Part {
        block: first,
        value,
    } = test;
    let asked = operation(alloc, truth, line, Op::Truth, value)?;
    let behind = single(alloc, asked)?;
    let behind = followed(behind, branches(Operand::Temp(truth), yes, no))?;
    append(first, behind)
}

// Where `any`, the first value is the whole where it is true, else where it is false.
fn junction(
    alloc: Global,
    any: bool,
    left: Part,
    right: Part,
    line: u32,
    next: u64,
) -> Result<Block, AllocError>
    requires { next + 2 < 2 ^ 64 }
    ensures { IfOk result (λ b. block b ≡ junction_block line next any (carrier left) (carrier right)) }
{
    let kept = single(alloc, puts(next + 1, left.value.share()?))?;
    let other = into(next + 1, right)?;
    if any {
        decided(alloc, left, kept, other, line, next)
    } else {
        decided(alloc, left, other, kept, line, next)
    }
}

/// `or` where `any` is true, else `and` (reference, section 6.11).
///
/// # Errors
///
/// Want of memory alone.
#[tactic(auto, unfolding(carried_codes::specs::Expressions::both))]
pub fn both(
    alloc: Global,
    any: bool,
    left: Part,
    right: Part,
    line: u32,
    next: u64,
) -> Result<Valued, AllocError>
    requires { next + 2 < 2 ^ 64 }
    ensures { IfOk result (λ v. valued_of v ≡ expressions.both line any (carrier left) (carrier right) next) }
{
    let whole = junction(alloc, any, left, right, line, next)?;
    Ok(left_in(whole, next + 1, next + 2))
}

/// A conditional expression (reference, section 6.12).
///
/// # Errors
///
/// Want of memory alone.
#[tactic(auto, unfolding(carried_codes::specs::Expressions::choose))]
pub fn choose(
    alloc: Global,
    test: Part,
    yes: Part,
    no: Part,
    line: u32,
    next: u64,
) -> Result<Valued, AllocError>
    requires { next + 2 < 2 ^ 64 }
    ensures { IfOk result (λ v. valued_of v ≡ expressions.choose line (carrier test) (carrier yes) (carrier no) next) }
{
    let yes = into(next + 1, yes)?;
    let no = into(next + 1, no)?;
    let whole = decided(alloc, test, yes, no, line, next)?;
    Ok(left_in(whole, next + 1, next + 2))
}
