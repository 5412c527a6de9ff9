//! The flat code of a script.

ghost use Rattle.std.specs.Prelude.{◌≡◌, ◌+◌, [], ◌∷◌, ◌++◌, ℕ, List, IfOk, OnOk, length};
ghost use Rattle.node_tree.specs.Tree.{block};
ghost use Rattle.flow_code.specs.declared.statement.Line.{Line as Flat};
ghost use Rattle.flow_code.specs.declared.statement.Statement.TheVariants as flat;
ghost use Rattle.std.specs.List.{AllByRecursion};
ghost use Rattle.flow_code.specs.Labels.{LabelsThere};
ghost use Rattle.flow_code.specs.WellFormed.{WellFormed, HasRoom};
ghost use Rattle.flow_lower.specs.Correct.{Lowers, LowersCode, DoesTheSame};
ghost use Rattle.flow_lower.specs.Kept.{KeepsEach};
ghost use Rattle.flow_lower.specs.Lower.{copies, fail_lines};

use crate::lowering::{fresh, lower_nodes, mark, put};
use crate::registers::count_registers;
use code_forms::share_header;
use flow_code::{FlatFunction, FlatScript, Line, Statement};
use node_tree::{Node, NodeCode, NodeScript};
use sqlite_items::Items;
use std::alloc::{AllocError, Global};

/// The flat code of a script, which does what the script does.
///
/// In each function no label stands twice, each label to which a statement leads stands, and each register is declared. Its
/// operations, with their names, and its constants are those of the code.
pub fn lower(alloc: Global, script: &NodeScript) -> Result<FlatScript, AllocError>
    ensures lowers { IfOk result (λ flat. Lowers script.now flat) }
    ensures same { IfOk result (λ flat. DoesTheSame script.now flat) }
    ensures well_formed { IfOk result (λ flat. AllByRecursion WellFormed flat.functions) }
    ensures there { IfOk result (λ flat. AllByRecursion (λ f. LabelsThere f.body) flat.functions) }
    ensures room { IfOk result (λ flat. AllByRecursion HasRoom flat.functions) }
    ensures keeps { IfOk result (λ flat. KeepsEach script.now.codes flat.functions) }
{
    let mut functions = Vec::new(alloc);
    for code in script.codes.as_slice() {
        functions.push(lower_code(alloc, code)?)?;
    }
    Ok(FlatScript {
        name: script.name.share()?,
        scripts: script.scripts,
        functions: Items::from_vec(functions),
    })
}

/// The function of a code.
fn lower_code(alloc: Global, code: &NodeCode) -> Result<FlatFunction, AllocError>
    ensures lowers { IfOk result (λ f. LowersCode code.now f) }
    ensures room { IfOk result (λ f. HasRoom f) }
{
    let mut out = Vec::new(alloc);
    put_parameters(&mut out, code.header.params.len() as u64)?;
    put_free(&mut out, code.free)?;
    let mut labels = Vec::new(alloc);
    let mut exits = Vec::new(alloc);
    let fail = fresh(&mut labels)?;
    let nodes = code.body.as_slice();
    lower_nodes(alloc, &mut out, &mut labels, nodes, fail, &mut exits)?;
    put(&mut out, Statement::End)?;
    put_fail(&mut out, fail, nodes)?;
    let registers = count_registers(&out)?;
    Ok(FlatFunction {
        header: share_header(alloc, &code.header)?,
        labels: labels.len() as u64,
        registers,
        body: Items::from_vec(out),
    })
}

/// The parameters go to the first registers.
fn put_parameters(out: &mut Vec<Line>, count: u64) -> Result<(), AllocError>
    requires { out.old.items ≡ [] }
    ensures lines { OnOk result ((tail : List Flat) → out.new.items ++ tail ≡ copies flat.Parameter count 0 0 tail) }
    ensures many { OnOk result (length out.new.items ≡ count) }
{
    for index in 0..count {
        put(out, Statement::Parameter { to: index, index })?;
    }
    Ok(())
}

/// The free cells go to the registers behind those that are written so far.
fn put_free(out: &mut Vec<Line>, count: u64) -> Result<(), AllocError>
    ensures { OnOk result ((tail : List Flat) → out.new.items ++ tail ≡ out.old.items ++ copies flat.Free count (length out.old.items) 0 tail) }
{
    for index in 0..count {
        let to = out.len() as u64;
        put(out, Statement::Free { to, index })?;
    }
    Ok(())
}

/// The lines behind the end of a function with these nodes: where there are some, an exception can leave it.
fn put_fail(out: &mut Vec<Line>, fail: u64, nodes: &[Node]) -> Result<(), AllocError>
    requires { fail ≡ 0 }
    ensures { OnOk result (out.new.items ≡ out.old.items ++ fail_lines (block nodes.now)) }
{
    if nodes.is_empty() {
        return Ok(());
    }
    mark(out, fail)?;
    put(out, Statement::Fail)?;
    Ok(())
}
