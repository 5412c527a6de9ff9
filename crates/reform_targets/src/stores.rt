//! A value goes to one target.

ghost use Rattle.std.specs.Prelude.{◌≡◌, [], ◌∷◌, IfOk, OnOk};
ghost use Rattle.op_forms.specs.declared.op.Op.TheVariants as op_named;
ghost use Rattle.code_forms.specs.declared.operand.Argument.TheVariants as argument;
ghost use Rattle.node_tree.specs.Tree.{form, block};
ghost use Rattle.node_tree.specs.Blocks as tree;
ghost use Rattle.carried_codes.specs.Places as spec;
ghost use Rattle.reform_blocks.specs.Parts.{carrier};
ghost use Rattle.reform_names.specs.Homes.{seat_of};

use node_tree::{Argument, Block, Node, Operand, Temps};
use nu_text::RcStr;
use op_forms::Op;
use reform_base::Part;
use reform_blocks::{append, followed, single};
use reform_names::{Home, store};
use sqlite_items::Items;
use std::alloc::{AllocError, Global};

/// The attribute of what an operand holds is set.
pub fn set_attribute(
    alloc: Global,
    to: u64,
    line: u32,
    whose: Operand,
    name: RcStr,
    value: Operand,
) -> Result<Node, AllocError>
    ensures { IfOk result (λ n. form n ≡ tree.Do to line op_named.SetAttr (argument.Value whose ∷ argument.Name name ∷ argument.Value value ∷ [])) }
{
    let mut args = Items::new(alloc);
    args.push(Argument::Value(whose))?;
    args.push(Argument::Name(name))?;
    args.push(Argument::Value(value))?;
    Ok(Node::Do {
        to,
        line,
        op: Op::SetAttr,
        args,
    })
}

/// What an index leads to is set.
pub fn set_index(
    alloc: Global,
    to: u64,
    line: u32,
    whose: Operand,
    at: Operand,
    value: Operand,
) -> Result<Node, AllocError>
    ensures { IfOk result (λ n. form n ≡ tree.Do to line op_named.SetIndex (argument.Value whose ∷ argument.Value at ∷ argument.Value value ∷ [])) }
{
    let mut args = Items::new(alloc);
    args.push(Argument::Value(whose))?;
    args.push(Argument::Value(at))?;
    args.push(Argument::Value(value))?;
    Ok(Node::Do {
        to,
        line,
        op: Op::SetIndex,
        args,
    })
}

/// A value goes to a name.
#[tactic(auto, unfolding(carried_codes::specs::Places::assign_name))]
pub fn to_name(
    alloc: Global,
    value: Operand,
    home: Home,
    line: u32,
    temps: &mut Temps,
) -> Result<Block, AllocError>
    ensures is { IfOk result (λ b. block b ≡ (spec.assign_name line (seat_of home) value temps.old).block) }
    ensures next { OnOk result (temps.new ≡ (spec.assign_name line (seat_of home) value temps.old).next) }
{
    let to = temps.fresh()?;
    let node = store(alloc, to, line, home, value)?;
    let whole = single(alloc, node)?;
    Ok(whole)
}

/// And to an attribute of a part.
#[tactic(auto, unfolding(carried_codes::specs::Places::assign_attribute))]
pub fn to_attribute(
    alloc: Global,
    value: Operand,
    part: Part,
    name: RcStr,
    line: u32,
    temps: &mut Temps,
) -> Result<Block, AllocError>
    ensures is { IfOk result (λ b. block b ≡ (spec.assign_attribute line (carrier part) name value temps.old).block) }
    ensures next { OnOk result (temps.new ≡ (spec.assign_attribute line (carrier part) name value temps.old).next) }
{
    let to = temps.fresh()?;
    let Part {
        block: first,
        value: whose,
    } = part;
    let node = set_attribute(alloc, to, line, whose, name, value)?;
    let whole = followed(first, node)?;
    Ok(whole)
}

/// And to what an index of a part leads to.
#[tactic(auto, unfolding(carried_codes::specs::Places::assign_index))]
pub fn to_index(
    alloc: Global,
    value: Operand,
    part: Part,
    at: Part,
    line: u32,
    temps: &mut Temps,
) -> Result<Block, AllocError>
    ensures is { IfOk result (λ b. block b ≡ (spec.assign_index line (carrier part) (carrier at) value temps.old).block) }
    ensures next { OnOk result (temps.new ≡ (spec.assign_index line (carrier part) (carrier at) value temps.old).next) }
{
    let to = temps.fresh()?;
    let Part {
        block: first,
        value: whose,
    } = part;
    let Part {
        block: then,
        value: by,
    } = at;
    let node = set_index(alloc, to, line, whose, by, value)?;
    let behind = followed(then, node)?;
    let whole = append(first, behind)?;
    Ok(whole)
}
