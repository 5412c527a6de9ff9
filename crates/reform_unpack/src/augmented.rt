//! A target is read, changed by an operation, and stored.

ghost use Rattle.std.specs.Prelude.{◌≡◌, ℕ, ◌+◌, ◌≤◌, [], ◌∷◌, Option, OnOk, IfOk};
ghost use Rattle.node_tree.specs.Blocks as tree;
ghost use Rattle.node_tree.specs.Contents.{total};
ghost use Rattle.code_forms.specs.declared.operand.Argument.TheVariants as argument;
ghost use Rattle.code_forms.specs.declared.operand.Operand.TheVariants as operand;
ghost use Rattle.node_tree.specs.Tree.{block};
ghost use Rattle.py_meaning.specs.Syntax as syntax;
ghost use Rattle.carries_base.specs.Frames.{Homes, behind};
ghost use Rattle.carries_base.specs.Carries.{CarriesExpression, CarriesStatement};
ghost use Rattle.reform_unpack.specs.Places.{value_of, target_of, reads, stores};

use crate::assigned::assign;
use crate::place::Place;
use node_tree::{Block, Node, Operand, Temps};
use op_forms::Op;
use reform_base::{Part, argument, ended, joined};
use reform_expr::name;
use std::alloc::{AllocError, Global};

/// The value of a target.
fn target(alloc: Global, place: &Place, temps: &mut Temps) -> Result<Part, AllocError>
    ensures carries { IfOk result (λ p. (h : Homes) (low : ℕ) → behind h ≤ low → low ≤ temps.old → CarriesExpression h low temps.new (value_of place.now) (block p.block) p.value) }
    ensures contents { IfOk result (λ p. (count : tree.Form → ℕ) → total count (block p.block) ≡ count (reads temps.old place.now)) }
    ensures value { IfOk result (λ p. p.value ≡ operand.Temp temps.old) }
    ensures drawn { OnOk result (temps.new ≡ temps.old + 1) }
{
    let part = name(alloc, place.home().share()?, place.line(), temps)?;
    Ok(part)
}

/// An augmented assignment: the target is read, the right side evaluated, the operation done and its value stored (reference,
/// section 7.2.1).
///
/// The right side may write any temporaries that are drawn already.
///
/// # Errors
///
/// Want of memory alone.
pub fn augment(
    alloc: Global,
    op: Op,
    place: Place,
    right: Part,
    line: u32,
    temps: &mut Temps,
) -> Result<Block, AllocError>
    ensures carries { IfOk result (λ b. (h : Homes) (low mid : ℕ) (caught : Option ℕ) (x : syntax.Expression) → mid ≤ temps.old → CarriesExpression h low mid x (block right.block) right.value → CarriesStatement h low temps.new caught (syntax.Augment line op (target_of place) x) (block b)) }
    ensures contents { IfOk result (λ b. (count : tree.Form → ℕ) → total count (block b) ≡ count (reads temps.old place) + total count (block right.block) + count (tree.Do (temps.old + 1) line op (argument.Value (operand.Temp temps.old) ∷ argument.Value right.value ∷ [])) + count (stores (temps.old + 2) (operand.Temp (temps.old + 1)) place)) }
    ensures drawn { OnOk result (temps.new ≡ temps.old + 3) }
{
    let Part {
        block: then,
        value: second,
    } = right;
    let last = argument(alloc, second)?;
    let read = target(alloc, &place, temps)?;
    let Part {
        block: first,
        value,
    } = read;
    let mut args = argument(alloc, value)?;
    args.append(last)?;
    let to = temps.fresh()?;
    let operands = joined(first, then)?;
    let asked = ended(operands, Node::Do { to, line, op, args })?;
    let stored = assign(alloc, Operand::Temp(to), place, temps)?;
    let block = joined(asked, stored)?;
    Ok(block)
}
