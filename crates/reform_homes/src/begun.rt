//! What stands before the body of a code: its cells are made, and its local variables are Unset.

ghost use Rattle.std.specs.Prelude.{◌≡◌, ◌+◌, ◌-◌, ◌<◌, ◌^◌, [], ◌∷◌, map, length, IfOk};
ghost use Rattle.op_forms.specs.declared.op.Op.TheVariants as op;
ghost use Rattle.node_tree.specs.Blocks.{of_temp};
ghost use Rattle.node_tree.specs.Blocks as tree;
ghost use Rattle.node_tree.specs.Tree.{form, block};
ghost use Rattle.py_meaning.specs.Scopes.{own_names, parameter_of};
ghost use Rattle.carries_base.specs.Frames.{behind};
ghost use Rattle.carries_names.specs.Begun.{begun_block};
ghost use Rattle.walk_laws.specs.Contexts.{homes_in};
ghost use Rattle.reform_homes.specs.Unset as spec;

use crate::names::Names;
use crate::place::Place;
use node_tree::{Argument, Block, Node, Operand};
use nu_text::RcStr;
use op_forms::Op;
use reform_blocks::{append, followed, single};
use sqlite_items::Items;
use std::alloc::{AllocError, Global};

// The temporaries from this one on, and before that one, are Unset.
fn unset(alloc: Global, first: u64, end: u64) -> Result<Block, AllocError>
    ensures { IfOk result (λ b. block b ≡ spec.unset_from first (end - first)) }
{
    let mut nodes: Block = Items::new(alloc);
    for to in first..end {
        nodes = followed(nodes, Node::Unset { to })?;
    }
    Ok(nodes)
}

fn make_cell(alloc: Global, to: u64, line: u32) -> Node
    ensures { form result ≡ tree.Do to line op.Cell [] }
{
    Node::Do {
        to,
        line,
        op: Op::Cell,
        args: Items::new(alloc),
    }
}

fn fill_cell(alloc: Global, to: u64, line: u32, cell: u64, param: u64) -> Result<Node, AllocError>
    ensures { IfOk result (λ n. form n ≡ tree.Do to line op.CellSet (of_temp cell ∷ of_temp param ∷ [])) }
{
    let mut args = Items::new(alloc);
    args.push(Argument::Value(Operand::Temp(cell)))?;
    args.push(Argument::Value(Operand::Temp(param)))?;
    Ok(Node::Do {
        to,
        line,
        op: Op::CellSet,
        args,
    })
}

// A cell is made, and gets the parameter that its name is. The temporary `spare` is no name's.
fn cell(
    alloc: Global,
    params: &Names,
    line: u32,
    spare: u64,
    to: u64,
    name: &RcStr,
) -> Result<Block, AllocError>
    ensures { IfOk result (λ b. block b ≡ spec.cell_made line spare to (parameter_of params.now name.now)) }
{
    let nodes = single(alloc, make_cell(alloc, to, line))?;
    match params.find(name) {
        Some(param) => {
            let node = fill_cell(alloc, spare, line, to, param as u64)?;
            let filled = followed(nodes, node)?;
            Ok(filled)
        }
        None => Ok(nodes),
    }
}

fn with_cells(
    alloc: Global,
    nodes: Block,
    params: &Names,
    line: u32,
    spare: u64,
    first: u64,
    own: &[RcStr],
) -> Result<Block, AllocError>
    requires { first + length own.now < 2 ^ 64 }
    ensures { IfOk result (λ b. block b ≡ tree.append (block nodes) (spec.cells_from line spare first (map (parameter_of params.now) own.now))) }
{
    let mut made = nodes;
    for (number, name) in own.iter().enumerate() {
        let cell = cell(alloc, params, line, spare, first + number as u64, name)?;
        made = append(made, cell)?;
    }
    Ok(made)
}

impl<'a> Place<'a> {
    /// The body of this scope's code, with what stands before it.
    pub fn begun(&self, alloc: Global, line: u32, body: Block) -> Result<Block, AllocError>
        ensures { IfOk result (λ b. block b ≡ begun_block (homes_in self.now) line (behind (homes_in self.now)) ((homes_in self.now).locals - (homes_in self.now).params) (map (parameter_of self.now.parameters) (own_names self.now.scopes self.now.this)) (block body)) }
    {
        let first = (self.params.len() + self.free.len()) as u64;
        let behind = first + self.own.len() as u64;
        let end = self.end();
        let nodes = unset(alloc, behind, end)?;
        let own = self.own.as_slice();
        let nodes = with_cells(alloc, nodes, &self.params, line, end, first, own)?;
        let whole = append(nodes, body)?;
        Ok(whole)
    }
}
