//! Decorators, and what is defined by its name.

ghost use Rattle.std.specs.Prelude.{◌≡◌, ◌+◌, ◌<◌, ◌^◌, map, length, IfOk};
ghost use Rattle.node_tree.specs.Blocks as tree;
ghost use Rattle.node_tree.specs.Tree.{block};
ghost use Rattle.carries_base.specs.Carries.{joined};
ghost use Rattle.carried_codes.specs.Parts as parts;
ghost use Rattle.carried_codes.specs.Expressions as expressions;
ghost use Rattle.carried_codes.specs.Nodes as nodes;
ghost use Rattle.reform_blocks.specs.Parts.{carrier};
ghost use Rattle.reform_names.specs.Homes.{seat_of};
ghost use Rattle.reform_values.specs.Values.{valued_of};
ghost use Rattle.reform_functions.specs.Marks.{decorator_of, bare, mark_of, decorated_by as by_one, decorated_by_all};
ghost use Rattle.reform_functions.specs.Turning.{made_of};

use crate::turns::Made;
use node_tree::{Block, Operand};
use op_forms::Op;
use reform_base::Part;
use reform_blocks::{append, followed};
use reform_names::{Home, store};
use reform_values::{Valued, left_in, on_two};
use sqlite_items::Items;
use std::alloc::{AllocError, Global};

/// A decorator, with the line of its expression.
#[derive(Drop)]
pub struct Decorator {
    pub line: u32,
    pub part: Part,
}

/// One that is evaluated already.
#[derive(Drop)]
pub struct Mark {
    pub line: u32,
    pub value: Operand,
}

/// The blocks of decorators one after another, and their values.
pub fn marked(alloc: Global, decorators: Vec<Decorator>) -> Result<(Block, Vec<Mark>), AllocError>
    ensures { IfOk result (λ r. (block r.0 ≡ joined (map (λ d. d.part) (map decorator_of decorators.items)) tree.Stop) × (map mark_of r.1.items ≡ map bare (map decorator_of decorators.items))) }
{
    let mut whole = Items::new(alloc);
    let mut marks = Vec::new(alloc);
    for decorator in decorators {
        let Decorator { line, part } = decorator;
        let Part { block, value } = part;
        marks.push(Mark { line, value })?;
        whole = append(whole, block)?;
    }
    Ok((whole, marks))
}

/// What a block leaves in an operand is decorated, by the last decorator first.
pub fn decorated(
    alloc: Global,
    marks: Vec<Mark>,
    part: Part,
    next: u64,
) -> Result<Valued, AllocError>
    ensures { IfOk result (λ v. valued_of v ≡ decorated_by_all (parts.valued (block part.block) part.value next) (map mark_of marks.items)) }
{
    let mut left = marks;
    let mut done = Valued { part, next };
    while let Some(mark) = left.pop() {
        done = decorated_by(alloc, mark, done)?;
    }
    Ok(done)
}

fn decorated_by(alloc: Global, mark: Mark, done: Valued) -> Result<Valued, AllocError>
    ensures { IfOk result (λ v. valued_of v ≡ by_one (valued_of done) (mark_of mark)) }
{
    let Valued { part, next } = done;
    let Part { block, value } = part;
    let Some(behind) = next.checked_add(1) else {
        return Err(AllocError);
    };
    let called = on_two(alloc, next, mark.line, Op::Call, mark.value, value)?;
    let whole = followed(block, called)?;
    Ok(left_in(whole, next, behind))
}

/// The decorators are evaluated, then what they decorate, which they are called with, the last of them first (reference, section 8.7).
///
/// # Errors
///
/// Want of memory alone.
pub fn decorate(
    alloc: Global,
    decorators: Vec<Decorator>,
    part: Part,
    next: u64,
) -> Result<Valued, AllocError>
    requires { next + length decorators.items < 2 ^ 64 }
    ensures { IfOk result (λ v. valued_of v ≡ expressions.decorate (map decorator_of decorators.items) (carrier part) next) }
{
    let Part { block, value } = part;
    let (first, marks) = marked(alloc, decorators)?;
    let block = append(first, block)?;
    let whole = decorated(alloc, marks, Part { block, value }, next)?;
    Ok(whole)
}

/// What is defined goes to its name.
///
/// # Errors
///
/// Want of memory alone.
#[tactic(auto, unfolding(carried_codes::specs::Places::assign_name))]
pub fn defined(alloc: Global, home: Home, defined: Valued, line: u32) -> Result<Made, AllocError>
    requires { defined.next + 1 < 2 ^ 64 }
    ensures { IfOk result (λ m. made_of m ≡ nodes.defined line (seat_of home) (valued_of defined)) }
{
    let Valued { part, next } = defined;
    let Part { block, value } = part;
    let stored = store(alloc, next, line, home, value)?;
    let whole = followed(block, stored)?;
    Ok(Made {
        block: whole,
        next: next + 1,
    })
}
