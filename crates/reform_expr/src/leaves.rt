//! Expressions without operands.

ghost use Rattle.std.specs.Prelude.{◌≡◌, ℕ, ◌+◌, ◌≤◌, [], OnOk, IfOk};
ghost use Rattle.op_forms.specs.Constants.{value_of};
ghost use Rattle.node_tree.specs.Blocks as tree;
ghost use Rattle.node_tree.specs.Contents.{total};
ghost use Rattle.code_forms.specs.declared.operand.Operand.TheVariants as operand;
ghost use Rattle.node_tree.specs.Tree.{form, block};
ghost use Rattle.py_meaning.specs.Syntax as syntax;
ghost use Rattle.carries_base.specs.Frames.{Homes, behind};
ghost use Rattle.carries_base.specs.Carries.{CarriesExpression};
ghost use Rattle.reform_expr.specs.Homes.{home_of, reads};

use crate::home::Home;
use node_tree::{Argument, Node, Operand, Temps};
use op_forms::{Const, Op};
use reform_base::{Part, one};
use sqlite_items::Items;
use std::alloc::{AllocError, Global};

/// A constant, which needs no statement (reference, section 6.2.2).
pub fn constant(alloc: Global, value: Const) -> Part
    ensures carries { (h : Homes) (low : ℕ) → behind h ≤ low → CarriesExpression h low low (syntax.Constant (value_of value)) (block result.block) result.value }
    ensures value { result.value ≡ operand.Const value }
    ensures block { result.block ≡ [] }
{
    Part {
        block: Items::new(alloc),
        value: Operand::Const(value),
    }
}

fn read(alloc: Global, home: Home, to: u64, line: u32) -> Result<Node, AllocError>
    ensures { IfOk result (λ n. form n ≡ reads to line home) }
{
    let Home::Module(name) = home;
    let mut args = Items::new(alloc);
    args.push(Argument::Name(name))?;
    Ok(Node::Do {
        to,
        line,
        op: Op::Global,
        args,
    })
}

/// A name that is read (reference, section 6.2.1).
///
/// # Errors
///
/// Want of memory alone.
pub fn name(alloc: Global, home: Home, line: u32, temps: &mut Temps) -> Result<Part, AllocError>
    ensures carries { IfOk result (λ p. (h : Homes) (low : ℕ) → behind h ≤ low → low ≤ temps.old → CarriesExpression h low temps.new (syntax.Name line (home_of home)) (block p.block) p.value) }
    ensures contents { IfOk result (λ p. (count : tree.Form → ℕ) → total count (block p.block) ≡ count (reads temps.old line home)) }
    ensures value { IfOk result (λ p. p.value ≡ operand.Temp temps.old) }
    ensures drawn { OnOk result (temps.new ≡ temps.old + 1) }
{
    let to = temps.fresh()?;
    let block = one(alloc, read(alloc, home, to, line)?)?;
    Ok(Part {
        block,
        value: Operand::Temp(to),
    })
}
