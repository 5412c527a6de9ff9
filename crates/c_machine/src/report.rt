//! Modules: how they begin and end, and the text of an exception that leaves one.

ghost use Rattle.std.specs.Prelude.{◌≡◌, ◌++◌, ◌∷◌, [], IfOk, IsOk, slice_get, false, true};
ghost use Rattle.op_rules.specs.TableRules.{table_rules};
ghost use Rattle.nu_calls.specs.Scripts.{report_function};
ghost use Rattle.nu_calls.specs.Traceback as traceback;
ghost use Rattle.c_meaning.specs.declared.code.Code as code;
ghost use Rattle.c_meaning.specs.declared.state.Purpose.TheVariants as purpose_of;
ghost use Rattle.c_meaning.specs.Step as meaning;
ghost use Rattle.c_ends.specs.Outcomes.{begun_of, end_of, is_return, result_of};
ghost use Rattle.c_stack.specs.Standing.{Outside, state_of, follows};
ghost use Rattle.c_machine.specs.Effects.{function_in, is_function, is_module, left_alone};

use crate::traceback::head_text;
use c_ends::{Begun, BodyEnd, Outcome, begun, call_ended};
use c_meaning::{CEnd, Code, Purpose, Uncaught};
use c_stack::Execution;
use nu_run::Text;
use nu_value::{Items, Object, Slots, Value};
use op_forms::{After, World};
use runtime_table::bind;
use std::alloc::{AllocError, Global};
use std::mem;

// The text of a traceback with the exception's own text.
fn with_text(alloc: Global, head: &Text, text: &str) -> Result<Text, AllocError>
    ensures { IfOk result (λ t. t ≡ head.now ++ traceback.tail_text text.now) }
{
    let mut all = Vec::from_slice(alloc, head.as_slice())?;
    if !text.is_empty() {
        all.extend_from_slice(b": ")?;
        all.extend_from_slice(text.as_bytes())?;
    }
    all.extend_from_slice(b"\n")?;
    Ok(Text::from_vec(all))
}

// How the run ends, where the function that gives an exception's text has ended so.
fn reported(alloc: Global, uncaught: &Uncaught, outcome: Outcome) -> Result<CEnd, AllocError>
    ensures { IfOk result (λ e. (code : code.Code) → e ≡ meaning.reported table_rules code uncaught.now (result_of outcome)) }
{
    match outcome {
        Outcome::Gives(Value::Str(text)) => Ok(CEnd::Uncaught {
            text: with_text(alloc, &uncaught.head, text.as_str())?,
        }),
        Outcome::Gives(_) | Outcome::Raises(_) => Ok(CEnd::Uncaught {
            text: with_text(alloc, &uncaught.head, "")?,
        }),
        Outcome::Stops(kind) => Ok(CEnd::Stopped(kind)),
        Outcome::Unsaid => Ok(CEnd::Undefined {
            function: uncaught.function,
            statement: 0,
        }),
    }
}

// The number of the built-in function for the text of an exception, if there is one.
fn report_number(world: &World) -> Option<u64>
    ensures { result ≡ function_in world.now.heap (report_function world.now) }
{
    let Some(Object::Space(names)) = world.heap.get(world.builtins) else {
        return None;
    };
    let Some(Value::Obj(number)) = names.get("_nu_report") else {
        return None;
    };
    match world.heap.get(*number) {
        Some(Object::Function { .. }) => Some(*number),
        _ => None,
    }
}

/// The module of this number begins.
pub(crate) fn begin_module(
    run: &mut Execution,
    alloc: Global,
    code: &Code,
    number: u32,
) -> Result<Option<CEnd>, AllocError>
    ensures { IfOk result (λ end. (w : Outside) → meaning.module_begins table_rules code.now (state_of run.old w) number ≡ follows end run.new w) }
{
    let Some(body) = code.bodies.get(number as usize) else {
        return Ok(run.undefined());
    };
    let (given, cells, slots) = (Items::new(alloc), Items::new(alloc), Slots::new(alloc));
    let activation = run.fresh(alloc, body, number, given, cells, slots, Purpose::Module)?;
    run.run_alone(code, activation);
    Ok(None)
}

/// The running function, a module's, ends: the script follows that of the built-in text.
#[inline(never)]
pub(crate) fn end_module(
    run: &mut Execution,
    alloc: Global,
    code: &Code,
    end: BodyEnd,
) -> Result<Option<CEnd>, AllocError>
    ensures sure { run.old.running.function ≡ 0 → is_return end ≡ true → IsOk result }
    ensures ends { IfOk result (λ e. (w : Outside) → meaning.module_ended table_rules code.now (state_of run.old w) (end_of end) ≡ follows e run.new w) }
{
    match end {
        BodyEnd::Return(_) => {
            if run.running.function == 0 {
                Ok(Some(CEnd::Done))
            } else {
                begin_module(run, alloc, code, 0)
            }
        }
        BodyEnd::Raise(exception) => leave_module(run, alloc, code, exception),
    }
}

// An exception leaves the module: its entries are fixed, and its own text is asked for.
fn leave_module(
    run: &mut Execution,
    alloc: Global,
    code: &Code,
    exception: u64,
) -> Result<Option<CEnd>, AllocError>
    ensures { IfOk result (λ e. (w : Outside) → meaning.leaves table_rules code.now (state_of run.old w) (meaning.uncaught table_rules code.now (state_of run.old w) exception) ≡ follows e run.new w) }
{
    let head = head_text(alloc, code.file.as_str(), &run.world.heap, exception)?;
    let uncaught = Uncaught {
        exception,
        function: run.running.function,
        head,
    };
    match report_number(&run.world) {
        Some(report) => ask_report(run, alloc, code, uncaught, report),
        None => {
            let end = reported(alloc, &uncaught, Outcome::Gives(Value::None))?;
            Ok(Some(end))
        }
    }
}

// The built-in function for the text of an exception is asked.
fn ask_report(
    run: &mut Execution,
    alloc: Global,
    code: &Code,
    uncaught: Uncaught,
    report: u64,
) -> Result<Option<CEnd>, AllocError>
    requires { is_function (slice_get run.old.world.heap report) ≡ true }
    ensures { IfOk result (λ e. (w : Outside) → meaning.asks_function table_rules code.now (left_alone (state_of run.old w) uncaught) uncaught report (slice_get run.old.world.heap report) ≡ follows e run.new w) }
{
    let mut args = Items::new(alloc);
    args.push(Value::Obj(uncaught.exception))?;
    let end = bind(alloc, &mut run.world, report, args.as_slice(), After::Plain)?;
    let begun = begun(alloc, code.scripts, &mut run.world, false, end)?;
    begin_report(run, alloc, code, uncaught, begun)
}

// What the question for the text of an exception begins.
fn begin_report(
    run: &mut Execution,
    alloc: Global,
    code: &Code,
    uncaught: Uncaught,
    begun: Begun,
) -> Result<Option<CEnd>, AllocError>
    ensures { IfOk result (λ e. (w : Outside) → meaning.report_begins table_rules code.now (left_alone (state_of run.old w) uncaught) uncaught (begun_of begun) ≡ follows e run.new w) }
{
    match begun {
        Begun::Over(outcome) => {
            let end = reported(alloc, &uncaught, outcome)?;
            Ok(Some(end))
        }
        Begun::Calls {
            function,
            given,
            cells,
            after,
        } => begin_alone(run, alloc, code, uncaught, function, given, cells, after),
        Begun::Starts { .. } | Begun::Wakes { .. } => Ok(run.undefined()),
    }
}

// The function for the text of an exception begins, with no other below it.
fn begin_alone(
    run: &mut Execution,
    alloc: Global,
    code: &Code,
    uncaught: Uncaught,
    function: u32,
    given: Items,
    cells: Items,
    after: After,
) -> Result<Option<CEnd>, AllocError>
    ensures { IfOk result (λ e. (w : Outside) → meaning.enters table_rules code.now (left_alone (state_of run.old w) uncaught) function given cells (purpose_of.Call after) [] ≡ follows e run.new w) }
{
    let Some(body) = code.bodies.get(function as usize) else {
        return Ok(run.undefined());
    };
    let slots = Slots::new(alloc);
    let purpose = Purpose::Call(after);
    let activation = run.fresh(alloc, body, function, given, cells, slots, purpose)?;
    run.uncaught = Some(uncaught);
    run.run_alone(code, activation);
    Ok(None)
}

/// The function for the text of an exception ends.
pub(crate) fn end_report(
    run: &mut Execution,
    alloc: Global,
    code: &Code,
    end: BodyEnd,
) -> Result<Option<CEnd>, AllocError>
    requires alone { run.old.below ≡ [] }
    requires other { is_module run.old.running.purpose ≡ false }
    ensures { IfOk result (λ e. (w : Outside) → meaning.body_ended table_rules code.now (state_of run.old w) (end_of end) ≡ follows e run.new w) }
{
    let Purpose::Call(after) = mem::replace(&mut run.running.purpose, Purpose::Module) else {
        return Ok(run.undefined());
    };
    let Some(uncaught) = mem::replace(&mut run.uncaught, None) else {
        return Ok(run.undefined());
    };
    run.look_up_for(code, uncaught.function);
    let outcome = call_ended(alloc, &mut run.world, after, end)?;
    let end = reported(alloc, &uncaught, outcome)?;
    Ok(Some(end))
}
