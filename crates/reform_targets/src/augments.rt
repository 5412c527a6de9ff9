//! Augmented assignments.

ghost use Rattle.std.specs.Prelude.{◌≡◌, ◌+◌, ◌<◌, ◌^◌, [], ◌∷◌, IfOk, OnOk};
ghost use Rattle.op_forms.specs.declared.op.Op.TheVariants as op_named;
ghost use Rattle.code_forms.specs.declared.operand.Argument.TheVariants as argument;
ghost use Rattle.node_tree.specs.Tree.{form, block};
ghost use Rattle.node_tree.specs.Blocks as tree;
ghost use Rattle.carries_targets.specs.Augments.{operated_block};
ghost use Rattle.carried_codes.specs.Places as spec;
ghost use Rattle.reform_blocks.specs.Parts.{carrier};
ghost use Rattle.reform_names.specs.Homes.{seat_of};
ghost use Rattle.reform_targets.specs.Places.{place_of};

use crate::place::Place;
use crate::stores::{set_attribute, set_index};
use node_tree::{Argument, Block, Node, Operand, Temps};
use nu_text::RcStr;
use op_forms::Op;
use reform_base::Part;
use reform_blocks::{append, single};
use reform_names::{Home, read, store};
use sqlite_items::Items;
use std::alloc::{AllocError, Global};

fn three(temps: &mut Temps) -> Result<u64, AllocError>
    ensures first { IfOk result (λ first. first ≡ temps.old) }
    ensures room { OnOk result (temps.old + 2 < 2 ^ 64) }
    ensures drawn { OnOk result (temps.new ≡ temps.old + 3) }
{
    let first = temps.fresh()?;
    let _ = temps.fresh()?;
    let _last = temps.fresh()?;
    Ok(first)
}

// The right side, the operation on the old value and on it, and what follows.
fn operated(
    alloc: Global,
    op: Op,
    right: Part,
    last: Block,
    line: u32,
    next: u64,
) -> Result<Block, AllocError>
    requires { next + 2 < 2 ^ 64 }
    ensures { IfOk result (λ b. block b ≡ operated_block line next op (block right.block) right.value (block last)) }
{
    let Part {
        block: first,
        value,
    } = right;
    let mut args = Items::new(alloc);
    args.push(Argument::Value(Operand::Temp(next)))?;
    args.push(Argument::Value(value))?;
    let node = Node::Do {
        to: next + 1,
        line,
        op,
        args,
    };
    let behind = single(alloc, node)?;
    let behind = append(behind, last)?;
    let whole = append(first, behind)?;
    Ok(whole)
}

fn attribute(
    alloc: Global,
    to: u64,
    line: u32,
    whose: Operand,
    name: RcStr,
) -> Result<Node, AllocError>
    ensures { IfOk result (λ n. form n ≡ tree.Do to line op_named.Attr (argument.Value whose ∷ argument.Name name ∷ [])) }
{
    let mut args = Items::new(alloc);
    args.push(Argument::Value(whose))?;
    args.push(Argument::Name(name))?;
    Ok(Node::Do {
        to,
        line,
        op: Op::Attr,
        args,
    })
}

fn index(alloc: Global, to: u64, line: u32, whose: Operand, at: Operand) -> Result<Node, AllocError>
    ensures { IfOk result (λ n. form n ≡ tree.Do to line op_named.Index (argument.Value whose ∷ argument.Value at ∷ [])) }
{
    let mut args = Items::new(alloc);
    args.push(Argument::Value(whose))?;
    args.push(Argument::Value(at))?;
    Ok(Node::Do {
        to,
        line,
        op: Op::Index,
        args,
    })
}

#[tactic(auto, unfolding(carried_codes::specs::Places::augment_name))]
fn augment_name(
    alloc: Global,
    op: Op,
    home: Home,
    right: Part,
    line: u32,
    at: u32,
    temps: &mut Temps,
) -> Result<Block, AllocError>
    ensures is { IfOk result (λ b. block b ≡ (spec.augment_name line op at (seat_of home) (carrier right) temps.old).block) }
    ensures next { OnOk result (temps.new ≡ (spec.augment_name line op at (seat_of home) (carrier right) temps.old).next) }
{
    let next = three(temps)?;
    let shared = home.share()?;
    let old = single(alloc, read(alloc, next, at, shared)?)?;
    let last = store(alloc, next + 2, at, home, Operand::Temp(next + 1))?;
    let last = single(alloc, last)?;
    let behind = operated(alloc, op, right, last, line, next)?;
    let whole = append(old, behind)?;
    Ok(whole)
}

#[tactic(auto, unfolding(carried_codes::specs::Places::augment_attribute))]
fn augment_attribute(
    alloc: Global,
    op: Op,
    part: Part,
    name: RcStr,
    right: Part,
    line: u32,
    at: u32,
    temps: &mut Temps,
) -> Result<Block, AllocError>
    ensures is { IfOk result (λ b. block b ≡ (spec.augment_attribute line op at (carrier part) name (carrier right) temps.old).block) }
    ensures next { OnOk result (temps.new ≡ (spec.augment_attribute line op at (carrier part) name (carrier right) temps.old).next) }
{
    let next = three(temps)?;
    let Part {
        block: first,
        value: whose,
    } = part;
    let old = attribute(alloc, next, at, whose.share()?, name.share()?)?;
    let old = single(alloc, old)?;
    let last = set_attribute(alloc, next + 2, at, whose, name, Operand::Temp(next + 1))?;
    let last = single(alloc, last)?;
    let behind = operated(alloc, op, right, last, line, next)?;
    let behind = append(old, behind)?;
    let whole = append(first, behind)?;
    Ok(whole)
}

#[tactic(auto, unfolding(carried_codes::specs::Places::augment_index))]
fn augment_index(
    alloc: Global,
    op: Op,
    part: Part,
    by: Part,
    right: Part,
    line: u32,
    at: u32,
    temps: &mut Temps,
) -> Result<Block, AllocError>
    ensures is { IfOk result (λ b. block b ≡ (spec.augment_index line op at (carrier part) (carrier by) (carrier right) temps.old).block) }
    ensures next { OnOk result (temps.new ≡ (spec.augment_index line op at (carrier part) (carrier by) (carrier right) temps.old).next) }
{
    let next = three(temps)?;
    let Part {
        block: first,
        value: whose,
    } = part;
    let Part {
        block: then,
        value: by,
    } = by;
    let old = index(alloc, next, at, whose.share()?, by.share()?)?;
    let old = single(alloc, old)?;
    let last = set_index(alloc, next + 2, at, whose, by, Operand::Temp(next + 1))?;
    let last = single(alloc, last)?;
    let behind = operated(alloc, op, right, last, line, next)?;
    let behind = append(old, behind)?;
    let behind = append(then, behind)?;
    let whole = append(first, behind)?;
    Ok(whole)
}

/// An augmented assignment: the parts of the target are evaluated once, and its old value is read before the right side is evaluated
/// (reference, section 7.2.1). Where the target is no name, attribute or index, nothing is done.
///
/// # Errors
///
/// Want of memory alone.
pub fn augment(
    alloc: Global,
    op: Op,
    place: Place,
    right: Part,
    line: u32,
    temps: &mut Temps,
) -> Result<Block, AllocError>
    ensures is { IfOk result (λ b. block b ≡ (spec.augment temps.old line op (place_of place) (carrier right)).block) }
    ensures next { OnOk result (temps.new ≡ (spec.augment temps.old line op (place_of place) (carrier right)).next) }
{
    match place {
        Place::Name { line: at, home } => {
            let whole = augment_name(alloc, op, home, right, line, at, temps)?;
            Ok(whole)
        }
        Place::Attribute {
            line: at,
            part,
            name,
        } => {
            let whole = augment_attribute(alloc, op, part, name, right, line, at, temps)?;
            Ok(whole)
        }
        Place::Index {
            line: at,
            part,
            at: by,
        } => {
            let whole = augment_index(alloc, op, part, by, right, line, at, temps)?;
            Ok(whole)
        }
        _ => Ok(Items::new(alloc)),
    }
}
