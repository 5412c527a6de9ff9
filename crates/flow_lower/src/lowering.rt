//! The lines of nodes.

ghost use Rattle.std.specs.Prelude.{◌≡◌, ℕ, ◌+◌, [], ◌∷◌, ◌++◌, List, IfOk, OnOk, vec_len};
ghost use Rattle.node_tree.specs.Tree.{form, block};
ghost use Rattle.flow_code.specs.declared.statement.Line.{Line as Flat};
ghost use Rattle.flow_code.specs.declared.statement.Line.TheVariants as flat_line;
ghost use Rattle.flow_lower.specs.Lower.{form_labels, labels as label_count, exit_of, form_lines, block_lines};

use crate::calls::call_arguments;
use code_forms::{Operand, share_arguments, share_constant};
use flow_code::{Line, Statement};
use node_tree::Node;
use op_forms::Op;
use std::alloc::{AllocError, Global};

/// Appends the lines of nodes. An exception leads to the label `fail`; `exits` are the labels behind the loops around.
#[cycle(lowering)]
pub fn lower_nodes(
    alloc: Global,
    out: &mut Vec<Line>,
    labels: &mut Vec<u8>,
    nodes: &[Node],
    fail: u64,
    exits: &mut Vec<u64>,
) -> Result<(), AllocError>
    ensures lines { OnOk result ((tail : List Flat) → out.new.items ++ tail ≡ out.old.items ++ block_lines (block nodes.now) (vec_len labels.old) fail exits.old.items tail) }
    ensures drawn { OnOk result (vec_len labels.new ≡ vec_len labels.old + label_count (block nodes.now)) }
    ensures exits { OnOk result (exits.new.items ≡ exits.old.items) }
{
    for node in nodes {
        lower_node(alloc, out, labels, node, fail, exits)?;
    }
    Ok(())
}

/// Appends the lines of a node.
#[cycle(lowering)]
fn lower_node(
    alloc: Global,
    out: &mut Vec<Line>,
    labels: &mut Vec<u8>,
    node: &Node,
    fail: u64,
    exits: &mut Vec<u64>,
) -> Result<(), AllocError>
    ensures lines { OnOk result ((mid : List Flat) → out.new.items ++ mid ≡ out.old.items ++ form_lines (form node.now) (vec_len labels.old) fail exits.old.items mid) }
    ensures drawn { OnOk result (vec_len labels.new ≡ vec_len labels.old + form_labels (form node.now)) }
    ensures exits { OnOk result (exits.new.items ≡ exits.old.items) }
{
    match node {
        Node::Constant { to, value } => {
            let constant = share_constant(value)?;
            put(
                out,
                Statement::Store {
                    to: *to,
                    value: Operand::Const(constant),
                },
            )
        }
        Node::Copy { to, from } => put(
            out,
            Statement::Store {
                to: *to,
                value: Operand::Temp(*from),
            },
        ),
        Node::Do { to, line, op, args } => {
            let args = share_arguments(alloc, args.as_slice())?;
            put(
                out,
                Statement::Do {
                    to: *to,
                    line: *line,
                    op: *op,
                    args,
                    fail,
                },
            )
        }
        Node::Call {
            to,
            line,
            function,
            args,
        } => {
            let args = call_arguments(alloc, function, args.as_slice())?;
            put(
                out,
                Statement::Do {
                    to: *to,
                    line: *line,
                    op: Op::Call,
                    args,
                    fail,
                },
            )
        }
        Node::Yield { to, line, value } => {
            let value = value.share()?;
            put(
                out,
                Statement::Yield {
                    to: *to,
                    line: *line,
                    value,
                    fail,
                },
            )
        }
        Node::If { test, yes, no } => {
            let first = fresh(labels)?;
            let end = fresh(labels)?;
            let test = test.share()?;
            put(out, Statement::Branch { test, label: first })?;
            lower_nodes(alloc, out, labels, no.as_slice(), fail, exits)?;
            put(out, Statement::Goto { label: end })?;
            mark(out, first)?;
            lower_nodes(alloc, out, labels, yes.as_slice(), fail, exits)?;
            mark(out, end)?;
            Ok(())
        }
        Node::Loop { body } => {
            let head = fresh(labels)?;
            let end = fresh(labels)?;
            mark(out, head)?;
            exits.insert(0, end)?;
            lower_nodes(alloc, out, labels, body.as_slice(), fail, exits)?;
            exits.remove(0);
            put(out, Statement::Goto { label: head })?;
            mark(out, end)?;
            Ok(())
        }
        Node::Leave { levels } => put(
            out,
            Statement::Goto {
                label: exit_label(exits.as_slice(), *levels),
            },
        ),
        Node::Catch { to, body, handler } => {
            let caught = fresh(labels)?;
            let end = fresh(labels)?;
            lower_nodes(alloc, out, labels, body.as_slice(), caught, exits)?;
            put(out, Statement::Goto { label: end })?;
            mark(out, caught)?;
            put(out, Statement::Caught { to: *to })?;
            lower_nodes(alloc, out, labels, handler.as_slice(), fail, exits)?;
            mark(out, end)?;
            Ok(())
        }
        Node::Return { value } => {
            let value = value.share()?;
            put(out, Statement::Give { value })
        }
        Node::Raise { value } => {
            let value = value.share()?;
            put(out, Statement::Again { value, label: fail })
        }
        Node::Unset { to } => put(out, Statement::Unset { to: *to }),
    }
}

/// The label behind the loop that so many levels leave, or 0 where there are not so many loops.
fn exit_label(exits: &[u64], levels: u64) -> u64
    ensures { result ≡ exit_of exits.now levels }
{
    if levels == 0 {
        return 0;
    }
    let at = (levels - 1) as usize;
    if at < exits.len() { exits[at] } else { 0 }
}

/// The next label.
pub fn fresh(labels: &mut Vec<u8>) -> Result<u64, AllocError>
    ensures number { IfOk result (λ label. label ≡ vec_len labels.old) }
    ensures drawn { OnOk result (vec_len labels.new ≡ vec_len labels.old + 1) }
{
    let label = labels.len() as u64;
    labels.push(0)?;
    Ok(label)
}

/// Appends a statement.
pub fn put(out: &mut Vec<Line>, statement: Statement) -> Result<(), AllocError>
    ensures { OnOk result (out.new.items ≡ out.old.items ++ flat_line.Do statement ∷ []) }
{
    out.push(Line::Do(statement))?;
    Ok(())
}

/// Appends a label.
pub fn mark(out: &mut Vec<Line>, label: u64) -> Result<(), AllocError>
    ensures { OnOk result (out.new.items ≡ out.old.items ++ flat_line.Label label ∷ []) }
{
    out.push(Line::Label(label))?;
    Ok(())
}
