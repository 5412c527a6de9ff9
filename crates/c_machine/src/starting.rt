//! How a machine starts: the code that it runs, and the world of operations.

ghost use Rattle.std.specs.Prelude.{◌≡◌, IfOk, map, reverse};
ghost use Rattle.op_rules.specs.TableRules.{table_rules};
ghost use Rattle.c_meaning.specs.Code as spec;
ghost use Rattle.c_meaning.specs.Run as runs;
ghost use Rattle.c_stack.specs.Standing.{Outside, state_of, follows};

use crate::placing::statements_of;
use crate::report::begin_module;
use c_meaning::{Body, CEnd, CProgram, Code, Function};
use c_stack::Execution;
use nu_value::{Codes, Header};
use sqlite_items::Items;
use std::alloc::{AllocError, Global};

/// The code of a program, and the headers of its functions.
pub(crate) fn code_of(alloc: Global, program: CProgram) -> Result<(Code, Codes), AllocError>
    ensures { IfOk result (λ both. (both.0 ≡ spec.code_of program) × (both.1 ≡ map runs.header_of program.functions)) }
{
    let CProgram {
        name,
        scripts,
        functions,
        ..
    } = program;
    let (bodies, headers) = parts_of(alloc, functions)?;
    let code = Code {
        file: name,
        scripts,
        bodies,
    };
    Ok((code, codes_of(alloc, headers)?))
}

// What runs of functions, and their headers from the last to the first.
fn parts_of(
    alloc: Global,
    mut functions: Items<Function>,
) -> Result<(Items<Body>, Vec<Header>), AllocError>
    ensures { IfOk result (λ both. (both.0 ≡ map spec.body_of functions) × (reverse both.1.items ≡ map runs.header_of functions)) }
{
    let mut backwards = Vec::new(alloc);
    let mut headers = Vec::new(alloc);
    while let Some(function) = functions.pop() {
        let Function {
            header,
            slots,
            registers,
            body,
        } = function;
        headers.push(header)?;
        backwards.push(Body {
            slots,
            registers,
            statements: statements_of(alloc, body)?,
        })?;
    }
    backwards.reverse();
    Ok((Items::from_vec(backwards), headers))
}

fn codes_of(alloc: Global, mut backwards: Vec<Header>) -> Result<Codes, AllocError>
    ensures { IfOk result (λ codes. codes ≡ reverse backwards.items) }
{
    let mut codes = Codes::new(alloc);
    while let Some(header) = backwards.pop() {
        codes.push(header)?;
    }
    Ok(codes)
}

/// The module of the built-in text begins, or that of the script where there is none.
pub(crate) fn begin_first(
    run: &mut Execution,
    alloc: Global,
    code: &Code,
) -> Result<Option<CEnd>, AllocError>
    ensures { IfOk result (λ end. (w : Outside) → runs.begins_first table_rules code.now (state_of run.old w) ≡ follows end run.new w) }
{
    let number = if (code.scripts as usize) < code.bodies.len() {
        code.scripts
    } else {
        0
    };
    begin_module(run, alloc, code, number)
}
