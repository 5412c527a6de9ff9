//! Statements.

ghost use Rattle.std.specs.Prelude.{ℕ, List};
ghost use Rattle.reform_all.specs.Names.{Holds};
ghost use Rattle.reform_all.specs.Statements.{Stated, AllStated, Chosen};

use crate::assignments::{assigned, augmented};
use crate::bound::Bound;
use crate::choices::{Choice, chained};
use crate::ending::ReformEnd;
use crate::expressions::expression;
use node_tree::{Block, Node, Temps};
use py_ast::{Branch, Stmt};
use reform_base::{joined, one};
use reform_loops::while_loop;
use sqlite_items::Items;
use std::alloc::Global;

/// A statement (reference, chapters 7 and 8), or the line of the first thing in it that is not built.
#[cycle(walk)]
fn statement(
    alloc: Global,
    s: &Stmt,
    bound: &Bound<'_>,
    temps: &mut Temps,
) -> Result<Block, ReformEnd>
    ensures { (names : List (List ℕ)) → Holds bound.now names → Stated names s.now temps.old temps.new result }
{
    match s {
        Stmt::Expr(_, x) => {
            let part = expression(alloc, x, bound, temps)?;
            Ok(part.block)
        }
        Stmt::Assign(_, targets, x) => assigned(alloc, targets.as_slice(), x, bound, temps),
        Stmt::Augment(line, to, operator, x) => {
            augmented(alloc, *line, to, *operator, x, bound, temps)
        }
        Stmt::Pass(_) => Ok(Items::new(alloc)),
        Stmt::Break(_) => Ok(one(alloc, Node::Leave { levels: 2 })?),
        Stmt::Continue(_) => Ok(one(alloc, Node::Leave { levels: 1 })?),
        Stmt::If(line, branches, other) => {
            if branches.is_empty() {
                return Err(ReformEnd::Unbuilt { line: *line });
            }
            let choices = choices(alloc, branches.as_slice(), bound, temps)?;
            let other = statements(alloc, other.as_slice(), bound, temps)?;
            let block = chained(alloc, choices, other, temps)?;
            Ok(block)
        }
        Stmt::While(line, test, body, other) => {
            let test = expression(alloc, test, bound, temps)?;
            let body = statements(alloc, body.as_slice(), bound, temps)?;
            let other = statements(alloc, other.as_slice(), bound, temps)?;
            let block = while_loop(alloc, test, body, other, *line, temps)?;
            Ok(block)
        }
        Stmt::Return(line, _)
        | Stmt::Raise(line, _)
        | Stmt::Del(line, _)
        | Stmt::Assert(line, _, _)
        | Stmt::Global(line, _)
        | Stmt::Nonlocal(line, _)
        | Stmt::For(line, _, _, _, _)
        | Stmt::Try(line, _, _, _, _)
        | Stmt::With(line, _, _)
        | Stmt::Def(line, _, _, _, _)
        | Stmt::Class(line, _, _, _, _) => Err(ReformEnd::Unbuilt { line: *line }),
    }
}

/// Branches, their tests evaluated (reference, section 8.1).
#[cycle(walk)]
fn choices(
    alloc: Global,
    branches: &[Branch<Stmt>],
    bound: &Bound<'_>,
    temps: &mut Temps,
) -> Result<Items<Choice>, ReformEnd>
    ensures { (names : List (List ℕ)) → Holds bound.now names → Chosen names branches.now temps.old temps.new result }
{
    let mut choices = Items::new(alloc);
    for branch in branches {
        let test = expression(alloc, &branch.test, bound, temps)?;
        let mut body = Items::new(alloc);
        for s in branch.body.as_slice() {
            let next = statement(alloc, s, bound, temps)?;
            body = joined(body, next)?;
        }
        choices.push(Choice {
            test,
            body,
            line: branch.line,
        })?;
    }
    Ok(choices)
}

/// Statements, one after another.
#[cycle(walk)]
pub fn statements(
    alloc: Global,
    ss: &[Stmt],
    bound: &Bound<'_>,
    temps: &mut Temps,
) -> Result<Block, ReformEnd>
    ensures { (names : List (List ℕ)) → Holds bound.now names → AllStated names ss.now temps.old temps.new result }
{
    let mut block = Items::new(alloc);
    for s in ss {
        let next = statement(alloc, s, bound, temps)?;
        block = joined(block, next)?;
    }
    Ok(block)
}
