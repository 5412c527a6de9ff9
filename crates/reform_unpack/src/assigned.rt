//! A value goes to a target.

ghost use Rattle.std.specs.Prelude.{◌≡◌, ℕ, ◌+◌, ◌≤◌, OnOk, IfOk};
ghost use Rattle.node_tree.specs.Blocks as tree;
ghost use Rattle.node_tree.specs.Contents.{total};
ghost use Rattle.node_tree.specs.Tree.{form, block};
ghost use Rattle.carries_base.specs.Frames.{Homes, behind};
ghost use Rattle.carries_base.specs.Carries.{CarriesTarget};
ghost use Rattle.reform_unpack.specs.Places.{target_of, stores};

use crate::place::Place;
use node_tree::{Argument, Block, Node, Operand, Temps};
use op_forms::Op;
use reform_base::one;
use reform_expr::Home;
use sqlite_items::Items;
use std::alloc::{AllocError, Global};

fn store(alloc: Global, value: Operand, place: Place, to: u64) -> Result<Node, AllocError>
    ensures { IfOk result (λ n. form n ≡ stores to value place) }
{
    let Place::Name(home, line) = place;
    let Home::Module(name) = home;
    let mut args = Items::new(alloc);
    args.push(Argument::Name(name))?;
    args.push(Argument::Value(value))?;
    Ok(Node::Do {
        to,
        line,
        op: Op::SetGlobal,
        args,
    })
}

/// An assignment of a value to a target (reference, section 7.2).
///
/// # Errors
///
/// Want of memory alone.
pub fn assign(
    alloc: Global,
    value: Operand,
    place: Place,
    temps: &mut Temps,
) -> Result<Block, AllocError>
    ensures carries { IfOk result (λ b. (h : Homes) (low : ℕ) → behind h ≤ low → low ≤ temps.old → CarriesTarget h low temps.new value (target_of place) (block b)) }
    ensures contents { IfOk result (λ b. (count : tree.Form → ℕ) → total count (block b) ≡ count (stores temps.old value place)) }
    ensures drawn { OnOk result (temps.new ≡ temps.old + 1) }
{
    let to = temps.fresh()?;
    let block = one(alloc, store(alloc, value, place, to)?)?;
    Ok(block)
}
