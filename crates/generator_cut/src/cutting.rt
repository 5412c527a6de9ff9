//! The C program of flat code.

ghost use Rattle.std.specs.Prelude.{◌≡◌, ◌≤◌, IfOk, length, map};
ghost use Rattle.std.specs.List.{AllByRecursion};
ghost use Rattle.flow_code.specs.Run.{header as flat_header};
ghost use Rattle.flow_code.specs.WellFormed.{WellFormed, HasRoom};
ghost use Rattle.c_meaning.specs.Written.{IsProgram};
ghost use Rattle.generator_cut.specs.Cut.{all_saved, function_of, program_of};
ghost use Rattle.generator_cut.specs.Correct.{DoesTheSame, HasHeads, KeepsEach};
ghost use Rattle.generator_cut.specs.Fits.{FunctionFits, ScriptFits};
ghost use Rattle.generator_cut.specs.Writable.{IsCounted, IsHeading, refused};

use crate::pauses::{numbers, put_beginning};
use crate::statements::put_lines;
use c_meaning::{CProgram, Function};
use code_forms::{share_header, share_text};
use flow_code::{FlatFunction, FlatScript};
use sqlite_items::Items;
use std::alloc::{AllocError, Global};

// A function.
fn function(alloc: Global, function: &FlatFunction) -> Result<Function, AllocError>
    requires { HasRoom function.now }
    ensures is { IfOk result (λ f. f ≡ function_of (all_saved function.now) function.now) }
    ensures fits { IfOk result (λ f. FunctionFits function.now) }
{
    let (labels, registers) = (function.labels, function.registers);
    let saved = numbers(alloc, registers, 0)?;
    let body = function.body.as_slice();
    let mut out = Vec::new(alloc);
    if function.header.generator {
        put_beginning(alloc, &mut out, labels, &saved, body)?;
    }
    put_lines(alloc, &mut out, labels + 1, &saved, body)?;
    Ok(Function {
        header: share_header(alloc, &function.header)?,
        slots: if function.header.generator {
            registers
        } else {
            0
        },
        registers,
        body: Items::from_vec(out),
    })
}

// All functions.
fn functions(alloc: Global, functions: &[FlatFunction]) -> Result<Items<Function>, AllocError>
    requires { AllByRecursion HasRoom functions.now }
    ensures is { IfOk result (λ made. made ≡ map (λ f. function_of (all_saved f) f) functions.now) }
    ensures fits { IfOk result (λ made. AllByRecursion FunctionFits functions.now) }
{
    let mut made = Items::new(alloc);
    for one in functions {
        made.push(function(alloc, one)?)?;
    }
    Ok(made)
}

// The program of a script.
fn program(alloc: Global, script: &FlatScript) -> Result<CProgram, AllocError>
    requires within { script.now.scripts ≤ length script.now.functions }
    requires few { length script.now.functions ≤ 65535 }
    requires room { AllByRecursion HasRoom script.now.functions }
    ensures is { IfOk result (λ program. program ≡ program_of all_saved script.now) }
    ensures fits { IfOk result (λ program. ScriptFits script.now) }
{
    let functions = functions(alloc, script.functions.as_slice())?;
    let builtins = script.functions.len() as u32 - script.scripts;
    Ok(CProgram {
        name: share_text(&script.name)?,
        scripts: script.scripts,
        builtins,
        functions,
    })
}

/// The program of a script, which does what the script's flat code does: where a generator pauses, it keeps all registers.
///
/// It has a text. Its functions have the names, parameters, kinds and first lines of the flat code's, their operations with their
/// names, their constants and as many pauses as yield statements.
pub fn cut(alloc: Global, script: &FlatScript) -> Result<CProgram, AllocError>
    requires counted { IsCounted script.now }
    requires headings { AllByRecursion IsHeading (map flat_header script.now.functions) }
    requires taken { AllByRecursion (λ f. refused f.body ≡ 0) script.now.functions }
    requires well_formed { AllByRecursion WellFormed script.now.functions }
    requires room { AllByRecursion HasRoom script.now.functions }
    ensures is { IfOk result (λ program. program ≡ program_of all_saved script.now) }
    ensures same { IfOk result (λ program. DoesTheSame script.now program) }
    ensures program { IfOk result (λ program. IsProgram program) }
    ensures heads { IfOk result (λ program. HasHeads script.now program) }
    ensures keeps { IfOk result (λ program. KeepsEach script.now.functions program.functions) }
{
    let program = program(alloc, script)?;
    Ok(program)
}
