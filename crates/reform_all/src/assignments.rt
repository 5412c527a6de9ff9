//! Assignments.

ghost use Rattle.std.specs.Prelude.{◌≡◌, ℕ, List};
ghost use Rattle.py_meaning.specs.Resolved as meaning;
ghost use Rattle.reform_all.specs.Assignments.{Assigned, Augmented, Placed, AllPlaced, AllStored};
ghost use Rattle.reform_all.specs.Names.{Holds};

use crate::bound::Bound;
use crate::ending::ReformEnd;
use crate::expressions::expression;
use node_tree::{Block, Operand, Temps};
use op_forms::Op;
use py_ast::{Binary, Expr};
use reform_base::{Part, joined};
use reform_expr::Home;
use reform_unpack::{Place, assign, augment};
use sqlite_items::Items;
use std::alloc::Global;

/// The operation of an augmented assignment (reference, section 7.2.1).
fn augmented_op(operator: Binary) -> Op
    ensures { result ≡ meaning.augmented_op operator }
{
    match operator {
        Binary::BitOr => Op::Or,
        Binary::BitXor => Op::Xor,
        Binary::BitAnd => Op::And,
        Binary::LeftShift => Op::LShift,
        Binary::RightShift => Op::RShift,
        Binary::Add => Op::IAdd,
        Binary::Subtract => Op::Sub,
        Binary::Multiply => Op::IMul,
        Binary::FloorDivide => Op::FloorDiv,
        Binary::Remainder => Op::Mod,
        Binary::Power => Op::Pow,
    }
}

/// The name that a target is.
fn place(target: &Expr) -> Result<Place, ReformEnd>
    ensures { Placed target.now result }
{
    match target {
        Expr::Name(line, name) => Ok(Place::Name(Home::Module(name.share()?), *line)),
        other => Err(ReformEnd::Unbuilt { line: other.line() }),
    }
}

/// Refuses the first target in these that is no name.
fn check(targets: &[Expr]) -> Result<(), ReformEnd>
    ensures { AllPlaced targets.now result }
{
    for target in targets {
        place(target)?;
    }
    Ok(())
}

/// The value of an operand to each of these targets, from left to right.
fn stored(
    alloc: Global,
    value: &Operand,
    targets: &[Expr],
    temps: &mut Temps,
) -> Result<Block, ReformEnd>
    ensures { AllStored targets.now value.now temps.old temps.new result }
{
    let mut block = Items::new(alloc);
    for target in targets {
        let place = place(target)?;
        let next = assign(alloc, value.share()?, place, temps)?;
        block = joined(block, next)?;
    }
    Ok(block)
}

/// An assignment: the right side, and its value to each target from left to right (reference, section 7.2).
pub fn assigned(
    alloc: Global,
    targets: &[Expr],
    x: &Expr,
    bound: &Bound<'_>,
    temps: &mut Temps,
) -> Result<Block, ReformEnd>
    ensures { (names : List (List ℕ)) → Holds bound.now names → Assigned names targets.now x.now temps.old temps.new result }
{
    check(targets)?;
    let Part { block, value } = expression(alloc, x, bound, temps)?;
    let stores = stored(alloc, &value, targets, temps)?;
    let whole = joined(block, stores)?;
    Ok(whole)
}

/// An augmented assignment: the right side is evaluated behind the target's old value (reference, section 7.2.1).
pub fn augmented(
    alloc: Global,
    line: u32,
    to: &Expr,
    operator: Binary,
    x: &Expr,
    bound: &Bound<'_>,
    temps: &mut Temps,
) -> Result<Block, ReformEnd>
    ensures { (names : List (List ℕ)) → Holds bound.now names → Augmented names line to.now operator x.now temps.old temps.new result }
{
    let place = place(to)?;
    let right = expression(alloc, x, bound, temps)?;
    let block = augment(alloc, augmented_op(operator), place, right, line, temps)?;
    Ok(block)
}
