//! Comprehensions, where they stand.

ghost use Rattle.std.specs.Prelude.{◌≡◌, ◌+◌, ◌<◌, ◌^◌, IfOk};
ghost use Rattle.carried_codes.specs.Expressions as expressions;
ghost use Rattle.reform_blocks.specs.Parts.{carrier};
ghost use Rattle.reform_values.specs.Values.{valued_of};

use crate::functions::bare_function;
use node_tree::Operand;
use op_forms::Op;
use reform_base::Part;
use reform_blocks::{append, followed, operation, single};
use reform_values::{Valued, left_in, on_two};
use std::alloc::{AllocError, Global};

/// A comprehension or generator expression: the function of its code is called with the iterator of its first iterable (reference,
/// section 6.2.4).
///
/// # Errors
///
/// Want of memory alone.
#[tactic(auto, unfolding(carried_codes::specs::Expressions::comprehension))]
pub fn comprehension(
    alloc: Global,
    code: u32,
    over: Part,
    cells: Vec<u64>,
    line: u32,
    next: u64,
) -> Result<Valued, AllocError>
    requires { next + 5 < 2 ^ 64 }
    ensures { IfOk result (λ v. valued_of v ≡ expressions.comprehension line code (carrier over) cells.items next) }
{
    let Part {
        block: first,
        value,
    } = over;
    let iterator = operation(alloc, next, line, Op::Iter, value)?;
    let made = bare_function(alloc, code, cells, line, next + 1)?;
    let called = on_two(
        alloc,
        next + 4,
        line,
        Op::Call,
        Operand::Temp(next + 1 + 2),
        Operand::Temp(next),
    )?;
    let behind = single(alloc, iterator)?;
    let made = followed(made, called)?;
    let behind = append(behind, made)?;
    let whole = append(first, behind)?;
    Ok(left_in(whole, next + 4, next + 5))
}
