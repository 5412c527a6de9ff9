//! The statements that read, bind and unbind names.

ghost use Rattle.std.specs.Prelude.{◌≡◌, [], ◌∷◌, IfOk};
ghost use Rattle.code_forms.specs.declared.operand.Argument.TheVariants as argument;
ghost use Rattle.node_tree.specs.Blocks.{of_temp};
ghost use Rattle.node_tree.specs.Blocks as tree;
ghost use Rattle.node_tree.specs.Tree.{form, block};
ghost use Rattle.carried_codes.specs.Seats as seats;
ghost use Rattle.reform_names.specs.Homes.{seat_of};

use crate::home::Home;
use node_tree::{Argument, Block, Node, Operand};
use nu_text::RcStr;
use op_forms::Op;
use reform_blocks::{followed, puts, single};
use sqlite_items::Items;
use std::alloc::{AllocError, Global};

// An operation on a name.
fn by_name(alloc: Global, to: u64, line: u32, op: Op, name: RcStr) -> Result<Node, AllocError>
    ensures { IfOk result (λ n. form n ≡ tree.Do to line op (argument.Name name ∷ [])) }
{
    let mut args = Items::new(alloc);
    args.push(Argument::Name(name))?;
    Ok(Node::Do { to, line, op, args })
}

// On a name that a temporary holds, or whose cell or names it holds.
fn by_place(
    alloc: Global,
    to: u64,
    line: u32,
    op: Op,
    at: u64,
    name: RcStr,
) -> Result<Node, AllocError>
    ensures { IfOk result (λ n. form n ≡ tree.Do to line op (of_temp at ∷ argument.Name name ∷ [])) }
{
    let mut args = Items::new(alloc);
    args.push(Argument::Value(Operand::Temp(at)))?;
    args.push(Argument::Name(name))?;
    Ok(Node::Do { to, line, op, args })
}

/// A name is read, to the temporary `to` (reference, section 6.2.1).
pub fn read(alloc: Global, to: u64, line: u32, home: Home) -> Result<Node, AllocError>
    ensures { IfOk result (λ n. form n ≡ seats.reads to line (seat_of home)) }
{
    match home {
        Home::Local(at, name) => by_place(alloc, to, line, Op::Local, at, name),
        Home::Own(at, name) => by_place(alloc, to, line, Op::CellGet, at, name),
        Home::Free(at, name) => by_place(alloc, to, line, Op::FreeGet, at, name),
        Home::Module(name) => by_name(alloc, to, line, Op::Global, name),
        Home::Space(at, name) => by_place(alloc, to, line, Op::SpaceGet, at, name),
    }
}

// What an operand holds goes into a cell.
fn fill(alloc: Global, to: u64, line: u32, at: u64, value: Operand) -> Result<Node, AllocError>
    ensures { IfOk result (λ n. form n ≡ seats.stores to line (seats.Own at []) value) }
{
    let mut args = Items::new(alloc);
    args.push(Argument::Value(Operand::Temp(at)))?;
    args.push(Argument::Value(value))?;
    Ok(Node::Do {
        to,
        line,
        op: Op::CellSet,
        args,
    })
}

// And to a name of the module.
fn set_global(
    alloc: Global,
    to: u64,
    line: u32,
    name: RcStr,
    value: Operand,
) -> Result<Node, AllocError>
    ensures { IfOk result (λ n. form n ≡ seats.stores to line (seats.Module name) value) }
{
    let mut args = Items::new(alloc);
    args.push(Argument::Name(name))?;
    args.push(Argument::Value(value))?;
    Ok(Node::Do {
        to,
        line,
        op: Op::SetGlobal,
        args,
    })
}

// And to a name of a class.
fn set_space(
    alloc: Global,
    to: u64,
    line: u32,
    at: u64,
    name: RcStr,
    value: Operand,
) -> Result<Node, AllocError>
    ensures { IfOk result (λ n. form n ≡ seats.stores to line (seats.Space at name) value) }
{
    let mut args = Items::new(alloc);
    args.push(Argument::Value(Operand::Temp(at)))?;
    args.push(Argument::Name(name))?;
    args.push(Argument::Value(value))?;
    Ok(Node::Do {
        to,
        line,
        op: Op::SpaceSet,
        args,
    })
}

/// A name is bound to what an operand holds (reference, section 4.2.1).
pub fn store(
    alloc: Global,
    to: u64,
    line: u32,
    home: Home,
    value: Operand,
) -> Result<Node, AllocError>
    ensures { IfOk result (λ n. form n ≡ seats.stores to line (seat_of home) value) }
{
    match home {
        Home::Local(at, _) => Ok(puts(at, value)),
        Home::Own(at, _) => fill(alloc, to, line, at, value),
        Home::Free(at, _) => fill(alloc, to, line, at, value),
        Home::Module(name) => set_global(alloc, to, line, name, value),
        Home::Space(at, name) => set_space(alloc, to, line, at, name, value),
    }
}

// A local variable is read before it is unbound.
fn unbind_local(
    alloc: Global,
    to: u64,
    line: u32,
    at: u64,
    name: RcStr,
) -> Result<Block, AllocError>
    ensures { IfOk result (λ b. block b ≡ seats.unbinds to line (seats.Local at name)) }
{
    let reads = by_place(alloc, to, line, Op::Local, at, name)?;
    let block = single(alloc, reads)?;
    let block = followed(block, Node::Unset { to: at })?;
    Ok(block)
}

// A block of one operation on a name and its place.
fn one_by_place(
    alloc: Global,
    to: u64,
    line: u32,
    op: Op,
    at: u64,
    name: RcStr,
) -> Result<Block, AllocError>
    ensures { IfOk result (λ b. block b ≡ tree.alone (tree.Do to line op (of_temp at ∷ argument.Name name ∷ []))) }
{
    let node = by_place(alloc, to, line, op, at, name)?;
    let block = single(alloc, node)?;
    Ok(block)
}

/// A name is unbound (reference, section 7.5).
pub fn unbind(alloc: Global, to: u64, line: u32, home: Home) -> Result<Block, AllocError>
    ensures { IfOk result (λ b. block b ≡ seats.unbinds to line (seat_of home)) }
{
    match home {
        Home::Local(at, name) => unbind_local(alloc, to, line, at, name),
        Home::Own(at, name) => one_by_place(alloc, to, line, Op::CellDel, at, name),
        Home::Free(at, name) => one_by_place(alloc, to, line, Op::FreeDel, at, name),
        Home::Module(name) => {
            let node = by_name(alloc, to, line, Op::DelGlobal, name)?;
            let block = single(alloc, node)?;
            Ok(block)
        }
        Home::Space(at, name) => one_by_place(alloc, to, line, Op::SpaceDel, at, name),
    }
}
