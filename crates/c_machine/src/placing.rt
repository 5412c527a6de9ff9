//! Where the labels of a function lead.

ghost use Rattle.std.specs.Prelude.{◌≡◌, IfOk, OnOk, ℕ, None, Some, if◌then◌else◌, map, nat_eq};
ghost use Rattle.std.specs.BTreeMap.{get};
ghost use Rattle.std.specs.Option.{option_or};
ghost use Rattle.std.specs.Ordering.{nat_cmp};
ghost use Rattle.c_meaning.specs.Code as spec;
ghost use Rattle.c_machine.specs.Starting.{placed_by};

use c_meaning::{Line, Placed, Statement, Stored};
use sqlite_items::Items;
use std::alloc::{AllocError, Global};
use std::collections::BTreeMap;

// The statement behind each label, by number.
type Marks = BTreeMap<u64, u64>;

// Marks a label, if it isn't marked yet.
fn mark(marks: &mut Marks, label: u64, number: u64) -> Result<(), AllocError>
    ensures { OnOk result ((q : ℕ) → get nat_cmp marks.new q ≡ option_or (get nat_cmp marks.old q) (if nat_eq label q then Some number else None)) }
{
    if !marks.contains_key(&label) {
        marks.insert(label, number)?;
    }
    Ok(())
}

fn marks_of(alloc: Global, lines: &[Line]) -> Result<Marks, AllocError>
    ensures { IfOk result (λ marks. (q : ℕ) → get nat_cmp marks q ≡ spec.goal_in 0 lines.now q) }
{
    let mut marks = BTreeMap::new(alloc);
    let mut number = 0;
    for line in lines {
        match line {
            Line::Do(_) => number += 1,
            Line::Label(label) => mark(&mut marks, *label, number)?,
        }
    }
    Ok(marks)
}

// The statement to which a label leads.
fn goal_of(marks: &Marks, label: u64) -> Option<u64>
    ensures { result ≡ get nat_cmp marks.now label }
{
    marks.get(&label).copied()
}

fn label_of(statement: &Statement) -> Option<u64>
    ensures { result ≡ spec.label_of statement.now }
{
    match statement {
        Statement::Store { what, .. } => match what {
            Stored::Sent { fail, .. } | Stored::Operation { fail, .. } => Some(*fail),
            _ => None,
        },
        Statement::Goto(label) => Some(*label),
        Statement::Branch { label, .. } | Statement::Again { label, .. } => Some(*label),
        _ => None,
    }
}

fn cases_of(
    alloc: Global,
    marks: &Marks,
    statement: &Statement,
) -> Result<Items<Option<u64>>, AllocError>
    ensures { IfOk result (λ cases. cases ≡ map (get nat_cmp marks.now) (spec.cases_of statement.now)) }
{
    match statement {
        Statement::Switch(labels) => goals_of(alloc, marks, labels.as_slice()),
        _ => Ok(Items::new(alloc)),
    }
}

fn goals_of(alloc: Global, marks: &Marks, labels: &[u64]) -> Result<Items<Option<u64>>, AllocError>
    ensures { IfOk result (λ goals. goals ≡ map (get nat_cmp marks.now) labels.now) }
{
    let mut goals = Vec::new(alloc);
    for label in labels {
        goals.push(goal_of(marks, *label))?;
    }
    Ok(Items::from_vec(goals))
}

fn placed(alloc: Global, marks: &Marks, statement: Statement) -> Result<Placed, AllocError>
    ensures { IfOk result (λ p. p ≡ placed_by (get nat_cmp marks.now) statement) }
{
    let goal = match label_of(&statement) {
        Some(label) => goal_of(marks, label),
        None => None,
    };
    let cases = match cases_of(alloc, marks, &statement) {
        Ok(cases) => cases,
        Err(error) => {
            drop(statement);
            return Err(error);
        }
    };
    Ok(Placed {
        statement,
        goal,
        cases,
    })
}

// The statements of lines, without the labels.
fn placed_all(
    alloc: Global,
    marks: &Marks,
    mut lines: Items<Line>,
) -> Result<Items<Placed>, AllocError>
    ensures { IfOk result (λ statements. statements ≡ map (placed_by (get nat_cmp marks.now)) (spec.statements_of lines)) }
{
    let mut backwards = Vec::new(alloc);
    while let Some(line) = lines.pop() {
        if let Line::Do(statement) = line {
            backwards.push(placed(alloc, marks, statement)?)?;
        }
    }
    backwards.reverse();
    Ok(Items::from_vec(backwards))
}

/// What runs of lines.
pub(crate) fn statements_of(alloc: Global, lines: Items<Line>) -> Result<Items<Placed>, AllocError>
    ensures { IfOk result (λ statements. statements ≡ map (spec.placed lines) (spec.statements_of lines)) }
{
    let marks = marks_of(alloc, lines.as_slice())?;
    placed_all(alloc, &marks, lines)
}
