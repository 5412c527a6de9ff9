//! How a generator pauses and begins: saves, loads and labels.

ghost use Rattle.std.specs.Prelude.{◌≡◌, ℕ, ◌+◌, ◌<◌, ◌^◌, List, [], ◌∷◌, ◌++◌, IfOk, OnOk};
ghost use Rattle.flow_code.specs.Contents.{yields};
ghost use Rattle.c_meaning.specs.declared.program.Line.{Line as CLine};
ghost use Rattle.c_meaning.specs.declared.program.Line.TheVariants as c_line;
ghost use Rattle.c_meaning.specs.declared.program.Statement.TheVariants as statement;
ghost use Rattle.generator_cut.specs.Cut.{saves, loads, clears, behind, counted};

use c_meaning::{Line, Statement, Stored};
use code_forms::Operand;
use sqlite_items::Items;
use std::alloc::{AllocError, Global};

/// One statement more.
pub(crate) fn put(out: &mut Vec<Line>, done: Statement) -> Result<(), AllocError>
    ensures { OnOk result (out.new.items ≡ out.old.items ++ c_line.Do done ∷ []) }
{
    out.push(Line::Do(done))?;
    Ok(())
}

/// One label more.
pub(crate) fn mark(out: &mut Vec<Line>, label: u64) -> Result<(), AllocError>
    ensures { OnOk result (out.new.items ≡ out.old.items ++ c_line.Label label ∷ []) }
{
    out.push(Line::Label(label))?;
    Ok(())
}

// Registers are saved in slots of their order.
fn put_saves(out: &mut Vec<Line>, saved: &[u64]) -> Result<(), AllocError>
    ensures { OnOk result ((tail : List CLine) → out.new.items ++ tail ≡ out.old.items ++ saves 0 saved.now tail) }
{
    for index in 0..saved.len() {
        let slot = index as u64;
        put(
            out,
            Statement::Save {
                slot,
                value: Operand::Temp(saved[index]),
            },
        )?;
    }
    Ok(())
}

// And loaded from them.
fn put_loads(out: &mut Vec<Line>, saved: &[u64]) -> Result<(), AllocError>
    ensures { OnOk result ((tail : List CLine) → out.new.items ++ tail ≡ out.old.items ++ loads 0 saved.now tail) }
{
    for index in 0..saved.len() {
        let slot = index as u64;
        put(
            out,
            Statement::Store {
                to: saved[index],
                what: Stored::Load(slot),
            },
        )?;
    }
    Ok(())
}

// They get Unset.
fn put_clears(out: &mut Vec<Line>, cleared: &[u64]) -> Result<(), AllocError>
    ensures { OnOk result ((tail : List CLine) → out.new.items ++ tail ≡ out.old.items ++ clears cleared.now tail) }
{
    for register in cleared {
        put(
            out,
            Statement::Store {
                to: *register,
                what: Stored::Unset,
            },
        )?;
    }
    Ok(())
}

/// A pause: the saves, the pause, its label, the loads, and what was sent.
pub(crate) fn put_pause(
    out: &mut Vec<Line>,
    label: u64,
    number: u64,
    saved: &[u64],
    value: Operand,
) -> Result<(), AllocError>
    ensures { OnOk result ((tail : List CLine) → out.new.items ++ tail ≡ out.old.items ++ saves 0 saved.now (c_line.Do (statement.Pause number value) ∷ c_line.Label label ∷ loads 0 saved.now tail)) }
{
    put_saves(out, saved)?;
    put(out, Statement::Pause { number, value })?;
    mark(out, label)?;
    put_loads(out, saved)
}

/// How many pauses stand before what stands behind a statement.
pub(crate) fn after(pauses: u64, statement: &flow_code::Statement) -> u64
    requires { pauses + 1 < 2 ^ 64 }
    ensures { result ≡ behind pauses statement.now }
{
    match statement {
        flow_code::Statement::Yield { .. } => pauses + 1,
        _ => pauses,
    }
}

/// So many numbers from this one on.
pub(crate) fn numbers(alloc: Global, count: u64, first: u64) -> Result<Vec<u64>, AllocError>
    requires { first + count < 2 ^ 64 }
    ensures { IfOk result (λ list. list.items ≡ counted count first) }
{
    let mut list = Vec::new(alloc);
    for index in 0..count {
        list.push(first + index)?;
    }
    Ok(list)
}

// How many pauses stand in a body.
fn pauses_in(body: &[flow_code::Line]) -> u64
    requires { yields body.now + 1 < 2 ^ 64 }
    ensures { result ≡ yields body.now }
{
    let mut pauses = 0;
    for one in body {
        if let flow_code::Line::Do(statement) = one {
            pauses = after(pauses, statement);
        }
    }
    pauses
}

/// How a generator's function begins: the switch, and all registers are cleared.
pub(crate) fn put_beginning(
    alloc: Global,
    out: &mut Vec<Line>,
    labels: u64,
    saved: &[u64],
    body: &[flow_code::Line],
) -> Result<(), AllocError>
    requires { labels + yields body.now + 1 < 2 ^ 64 }
    ensures { OnOk result ((tail : List CLine) → out.new.items ++ tail ≡ out.old.items ++ c_line.Do (statement.Switch (labels ∷ counted (yields body.now) (labels + 1))) ∷ c_line.Label labels ∷ clears saved.now tail) }
{
    let cases = numbers(alloc, pauses_in(body) + 1, labels)?;
    put(out, Statement::Switch(Items::from_vec(cases)))?;
    mark(out, labels)?;
    put_clears(out, saved)
}
