//! Generators begin, go on and pause.

ghost use Rattle.std.specs.Prelude.{◌≡◌, ◌+◌, ◌<◌, ◌^◌, IfOk, IsOk, OnOk, None, Some, slice_get, true};
ghost use Rattle.op_rules.specs.TableRules.{table_rules};
ghost use Rattle.nu_calls.specs.Surroundings.{keep_at, kept_at};
ghost use Rattle.c_meaning.specs.Step as meaning;
ghost use Rattle.c_stack.specs.Frames.{site};
ghost use Rattle.c_stack.specs.Light.{is_sent_plain};
ghost use Rattle.c_stack.specs.Standing.{Outside, state_of, follows};
ghost use Rattle.c_machine.specs.Effects.{kept_by, resumer_of};

use crate::raises::{go_on, raise};
use c_ends::generator_paused;
use c_meaning::{Activation, CEnd, Code, Kept, Operand, Purpose, Told};
use c_stack::{Execution, Site, held};
use nu_value::{Items, Value};
use std::alloc::{AllocError, Global};

/// A generator begins: no slot has a value.
pub(crate) fn begin_generator(
    run: &mut Execution,
    alloc: Global,
    code: &Code,
    generator: u64,
    function: u32,
    given: Items,
    cells: Items,
) -> Result<Option<CEnd>, AllocError>
    ensures { IfOk result (λ end. (w : Outside) → meaning.begins_generator table_rules code.now (state_of run.old w) generator function given cells (slice_get code.now.bodies function) ≡ follows end run.new w) }
{
    let Some(body) = code.bodies.get(function as usize) else {
        return Ok(run.undefined());
    };
    let slots = run.below.registers(alloc, body.slots)?;
    let purpose = Purpose::Resume {
        generator,
        told: Told::Sent(Value::None),
        closing: false,
        number: 0,
    };
    run.begin_body(alloc, code, function, given, cells, slots, purpose)
}

/// A paused generator goes on: its function begins again.
pub(crate) fn wake(
    run: &mut Execution,
    alloc: Global,
    code: &Code,
    generator: u64,
    told: Told,
    closing: bool,
) -> Result<Option<CEnd>, AllocError>
    ensures { IfOk result (λ end. (w : Outside) → meaning.wakes table_rules code.now (state_of run.old w) generator told closing (kept_at run.old.kept generator) ≡ follows end run.new w) }
{
    let Some(kept) = run.kept.take(generator) else {
        return Ok(run.undefined());
    };
    let Kept {
        function,
        arguments,
        cells,
        slots,
        number,
    } = kept;
    let purpose = Purpose::Resume {
        generator,
        told,
        closing,
        number,
    };
    run.begin_body(alloc, code, function, arguments, cells, slots, purpose)
}

// What the running function was told where it was resumed, and whether it is being closed.
fn resumer(run: &Execution) -> Option<(u64, bool)>
    ensures { result ≡ resumer_of run.now.running.purpose }
{
    match &run.running.purpose {
        Purpose::Resume {
            generator,
            closing,
            ..
        } => Some((*generator, *closing)),
        _ => None,
    }
}

/// The running generator pauses with what an operand holds.
#[inline(never)]
#[tactic(auto, using(crate::proofs::Frames::pauses_none))]
pub(crate) fn pause(
    run: &mut Execution,
    alloc: Global,
    code: &Code,
    number: u64,
    value: &Operand,
) -> Result<Option<CEnd>, AllocError>
    ensures sure { resumer_of run.old.running.purpose ≡ None → IsOk result }
    ensures pauses { IfOk result (λ end. (w : Outside) → meaning.pauses table_rules code.now (state_of run.old w) number (meaning.used (meaning.operand_value run.old.running.registers value.now)) run.old.running.purpose run.old.below ≡ follows end run.new w) }
{
    let Some((generator, closing)) = resumer(run) else {
        return Ok(run.undefined());
    };
    match held(&run.running.registers, value)? {
        None | Some(Value::Unset) => Ok(run.undefined()),
        Some(value) => pause_with(run, alloc, code, number, generator, closing, value),
    }
}

// The running generator pauses with a value.
fn pause_with(
    run: &mut Execution,
    alloc: Global,
    code: &Code,
    number: u64,
    generator: u64,
    closing: bool,
    value: Value,
) -> Result<Option<CEnd>, AllocError>
    requires { resumer_of run.old.running.purpose ≡ Some (generator, closing) }
    ensures { IfOk result (λ end. (w : Outside) → meaning.pauses table_rules code.now (state_of run.old w) number (Some value) run.old.running.purpose run.old.below ≡ follows end run.new w) }
{
    let Some(paused) = run.go_back(code) else {
        return Ok(run.undefined());
    };
    put_aside(run, alloc, generator, number, paused)?;
    let outcome = generator_paused(alloc, &mut run.world, generator, closing, value)?;
    go_on(run, code, outcome)
}

// A generator that pauses is kept.
fn put_aside(
    run: &mut Execution,
    alloc: Global,
    generator: u64,
    number: u64,
    paused: Activation,
) -> Result<(), AllocError>
    ensures { OnOk result (run.new ≡ record run.old { kept = keep_at run.old.kept generator (Some (kept_by paused number)) }) }
{
    let Activation {
        function,
        registers,
        slots,
        arguments,
        cells,
        ..
    } = paused;
    run.below.reuse(registers);
    let kept = Kept {
        function,
        arguments,
        cells,
        slots,
        number,
    };
    run.kept.keep(alloc, generator, kept)
}

/// What was sent is the statement's value, and what was thrown is raised there.
#[inline(never)]
pub(crate) fn receive(
    run: &mut Execution,
    code: &Code,
    at: Site,
) -> Result<Option<CEnd>, AllocError>
    requires small { run.old.running.place + 1 < 2 ^ 64 }
    ensures sure { is_sent_plain run.old.running.purpose ≡ true → IsOk result }
    ensures receives { IfOk result (λ end. (w : Outside) → meaning.receives table_rules code.now (state_of run.old w) (site at) run.old.running.purpose ≡ follows end run.new w) }
{
    match &run.running.purpose {
        Purpose::Resume {
            told: Told::Sent(value),
            ..
        } => {
            let value = value.copy()?;
            Ok(run.store(at.to, Some(value)))
        }
        Purpose::Resume {
            told: Told::Thrown(exception),
            ..
        } => {
            let exception = *exception;
            raise(run, code, at, exception)
        }
        _ => Ok(run.undefined()),
    }
}
