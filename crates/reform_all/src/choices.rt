//! The branches of an `if` statement, as a chain.

ghost use Rattle.std.specs.Prelude.{◌≤◌, IfOk, OnOk};
ghost use Rattle.reform_all.specs.Choices.{Chained};
ghost use Rattle.reform_all.specs.Quiet.{Quiet, AllQuiet};

use node_tree::{Block, Temps};
use reform_base::Part;
use reform_loops::branch;
use sqlite_items::Items;
use std::alloc::{AllocError, Global};

/// A branch: its evaluated test, what it guards, and its line.
#[derive(Drop)]
pub struct Choice {
    pub test: Part,
    pub body: Block,
    pub line: u32,
}

/// Branches with their `else`: each further one is an `if` in the `else` of the one before (reference, section 8.1).
///
/// The parts may write any temporaries that are drawn already.
pub fn chained(
    alloc: Global,
    choices: Items<Choice>,
    other: Block,
    temps: &mut Temps,
) -> Result<Block, AllocError>
    ensures carries { IfOk result (Chained choices temps.old temps.new other) }
    ensures quiet { IfOk result (λ b. AllQuiet choices → Quiet other → Quiet b) }
    ensures drawn { OnOk result (temps.old ≤ temps.new) }
{
    let mut left = choices;
    let mut block = other;
    while let Some(choice) = left.pop() {
        let Choice { test, body, line } = choice;
        block = branch(alloc, test, body, block, line, temps)?;
    }
    Ok(block)
}
