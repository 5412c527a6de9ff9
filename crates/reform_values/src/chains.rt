//! Chains of comparisons.

ghost use Rattle.std.specs.Prelude.{◌≡◌, ◌+◌, ◌<◌, ◌^◌, [], ◌∷◌, ◌++◌, map, IfOk};
ghost use Rattle.node_tree.specs.Blocks as tree;
ghost use Rattle.node_tree.specs.Tree.{block};
ghost use Rattle.carries_values.specs.Choices.{compared_block, further_block};
ghost use Rattle.carried_codes.specs.Expressions as expressions;
ghost use Rattle.reform_blocks.specs.Parts.{carrier};
ghost use Rattle.reform_values.specs.Linking as linking;
ghost use Rattle.reform_values.specs.Values.{valued_of};

use crate::made::{Valued, left_in, on_two};
use node_tree::{Block, Operand};
use op_forms::Op;
use reform_base::Part;
use reform_blocks::{append, branches, followed, operation, single};
use sqlite_items::Items;
use std::alloc::{AllocError, Global};

/// A comparison with the part on its right; `negated` is true for `not in`.
#[derive(Drop)]
pub struct Link {
    pub op: Op,
    pub negated: bool,
    pub right: Part,
}

// What two operands hold is compared; where that is negated, by the next temporary.
fn compared(
    alloc: Global,
    op: Op,
    negated: bool,
    left: Operand,
    right: Operand,
    line: u32,
    next: u64,
) -> Result<Block, AllocError>
    requires { next + 2 < 2 ^ 64 }
    ensures { IfOk result (λ b. block b ≡ compared_block line next op negated left right) }
{
    if !negated {
        let asked = on_two(alloc, next, line, op, left, right)?;
        return single(alloc, asked);
    }
    let asked = on_two(alloc, next + 1, line, op, left, right)?;
    let turned = operation(alloc, next, line, Op::Not, Operand::Temp(next + 1))?;
    let whole = single(alloc, asked)?;
    followed(whole, turned)
}

// A comparison behind the part on its right, and the value of that.
fn step(
    alloc: Global,
    left: Operand,
    link: Link,
    line: u32,
    next: u64,
) -> Result<(Block, Operand), AllocError>
    requires { next + 2 < 2 ^ 64 }
    ensures { IfOk result (λ r. (block r.0 ≡ linking.step_block line next left (linking.linked_of link)) × (r.1 ≡ link.right.value)) }
{
    let Link { op, negated, right } = link;
    let Part {
        block: first,
        value,
    } = right;
    let kept = value.share()?;
    let tested = compared(alloc, op, negated, left, value, line, next)?;
    let whole = append(first, tested)?;
    Ok((whole, kept))
}

fn steps(
    alloc: Global,
    first: Operand,
    links: Vec<Link>,
    line: u32,
    next: u64,
) -> Result<Vec<Block>, AllocError>
    requires { next + 2 < 2 ^ 64 }
    ensures { IfOk result (λ bs. map block bs.items ≡ linking.step_blocks line next first (map linking.linked_of links.items)) }
{
    let mut left = first;
    let mut blocks = Vec::new(alloc);
    for link in links {
        let (block, right) = step(alloc, left, link, line, next)?;
        blocks.push(block)?;
        left = right;
    }
    Ok(blocks)
}

// A comparison, and what follows it where it is true.
fn further(
    alloc: Global,
    step: Block,
    rest: Block,
    line: u32,
    next: u64,
) -> Result<Block, AllocError>
    requires { next + 2 < 2 ^ 64 }
    ensures { IfOk result (λ b. block b ≡ tree.append (block step) (further_block line next (block rest))) }
{
    let asked = operation(alloc, next + 1, line, Op::Truth, Operand::Temp(next))?;
    let behind = single(alloc, asked)?;
    let behind = followed(
        behind,
        branches(Operand::Temp(next + 1), rest, Items::new(alloc)),
    )?;
    append(step, behind)
}

// Each of these where those before it are true, and the last.
fn nested_before(
    alloc: Global,
    blocks: Vec<Block>,
    last: Block,
    line: u32,
    next: u64,
) -> Result<Block, AllocError>
    requires { next + 2 < 2 ^ 64 }
    ensures { IfOk result (λ b. block b ≡ linking.nested line next (map block (blocks.items ++ last ∷ []))) }
{
    let mut left = blocks;
    let mut rest = last;
    while let Some(step) = left.pop() {
        rest = further(alloc, step, rest, line, next)?;
    }
    Ok(rest)
}

fn nested(alloc: Global, blocks: Vec<Block>, line: u32, next: u64) -> Result<Block, AllocError>
    requires { next + 2 < 2 ^ 64 }
    ensures { IfOk result (λ b. block b ≡ linking.nested line next (map block blocks.items)) }
{
    let mut left = blocks;
    match left.pop() {
        None => Ok(Items::new(alloc)),
        Some(last) => nested_before(alloc, left, last, line, next),
    }
}

/// A chain of comparisons (reference, section 6.10). Each part is evaluated once, and only where the comparisons before it are true.
///
/// # Errors
///
/// Want of memory alone.
pub fn chain(
    alloc: Global,
    first: Part,
    links: Vec<Link>,
    line: u32,
    next: u64,
) -> Result<Valued, AllocError>
    requires { next + 2 < 2 ^ 64 }
    ensures { IfOk result (λ v. valued_of v ≡ expressions.chain line (carrier first) (map linking.linked_of links.items) next) }
{
    let Part {
        block: first,
        value,
    } = first;
    let blocks = steps(alloc, value, links, line, next)?;
    let rest = nested(alloc, blocks, line, next)?;
    let whole = append(first, rest)?;
    Ok(left_in(whole, next, next + 2))
}
