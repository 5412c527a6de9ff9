//! Calls: how what an operation begins begins, and how a function ends for the one that waits.

ghost use Rattle.std.specs.Prelude.{◌≡◌, ◌+◌, ◌<◌, ◌^◌, IfOk, IsOk, false, true};
ghost use Rattle.op_rules.specs.TableRules.{table_rules};
ghost use Rattle.c_meaning.specs.Step as meaning;
ghost use Rattle.c_ends.specs.Outcomes.{EndsAs, begun_of, end_of, is_raising, is_return, result_of};
ghost use Rattle.c_stack.specs.Frames.{site};
ghost use Rattle.c_stack.specs.Standing.{Outside, state_of, follows};
ghost use Rattle.c_stack.specs.Values.{takes_text};
ghost use Rattle.c_machine.specs.Effects.{ending_by, is_module, is_plain_call};
ghost use Rattle.c_machine.specs.Light.{is_light_return};

use crate::generators::{begin_generator, wake};
use crate::raises::{go_on, settle};
use crate::report::{end_module, end_report};
use c_ends::{Begun, BodyEnd, Outcome, call_ended, generator_ended};
use c_meaning::{Activation, CEnd, Code, Operand, Purpose};
use c_stack::{Execution, Site, held};
use nu_value::{Slots, Value};
use op_forms::World;
use std::alloc::{AllocError, Global};

/// What an operation begins begins, at the running function's statement.
#[inline(never)]
#[tactic(auto, using(crate::proofs::Frames::over_settles))]
pub(crate) fn begin(
    run: &mut Execution,
    alloc: Global,
    code: &Code,
    at: Site,
    begun: Begun,
) -> Result<Option<CEnd>, AllocError>
    requires small { run.old.running.place + 1 < 2 ^ 64 }
    ensures { IfOk result (λ end. (w : Outside) → meaning.begins table_rules code.now (state_of run.old w) (site at) (begun_of begun) ≡ follows end run.new w) }
{
    match begun {
        Begun::Over(outcome) => settle(run, code, at, outcome),
        Begun::Calls {
            function,
            given,
            cells,
            after,
        } => {
            let slots = Slots::new(alloc);
            let purpose = Purpose::Call(after);
            run.begin_body(alloc, code, function, given, cells, slots, purpose)
        }
        Begun::Starts {
            generator,
            function,
            given,
            cells,
        } => begin_generator(run, alloc, code, generator, function, given, cells),
        Begun::Wakes {
            generator,
            told,
            closing,
        } => wake(run, alloc, code, generator, told, closing),
    }
}

// What the code that began a body has of how it ended.
fn body_outcome(
    alloc: Global,
    world: &mut World,
    purpose: Purpose,
    end: BodyEnd,
) -> Result<Outcome, AllocError>
    ensures sure { is_plain_call purpose ≡ true → is_return end ≡ true → IsOk result }
    ensures plain { IfOk result (λ o. is_plain_call purpose ≡ true → is_return end ≡ true → is_raising o ≡ false) }
    ensures ends { IfOk result (λ o. EndsAs (λ a. ending_by purpose a (end_of end)) world.old world.new o) }
{
    match purpose {
        Purpose::Call(after) => call_ended(alloc, world, after, end),
        Purpose::Resume {
            generator,
            closing,
            ..
        } => generator_ended(alloc, world, generator, closing, end),
        Purpose::Module => Ok(Outcome::Unsaid),
    }
}

fn is_module(purpose: &Purpose) -> bool
    ensures { result ≡ is_module purpose.now }
{
    match purpose {
        Purpose::Module => true,
        _ => false,
    }
}

/// The running function ends.
#[inline(never)]
pub(crate) fn end_body(
    run: &mut Execution,
    alloc: Global,
    code: &Code,
    end: BodyEnd,
) -> Result<Option<CEnd>, AllocError>
    ensures sure { is_light_return run.old ≡ true → is_return end ≡ true → IsOk result }
    ensures ends { IfOk result (λ e. (w : Outside) → meaning.body_ended table_rules code.now (state_of run.old w) (end_of end) ≡ follows e run.new w) }
{
    if is_module(&run.running.purpose) {
        return end_module(run, alloc, code, end);
    }
    let Some(ended) = run.go_back(code) else {
        return end_report(run, alloc, code, end);
    };
    let Activation {
        registers,
        purpose,
        ..
    } = ended;
    run.below.reuse(registers);
    let outcome = body_outcome(alloc, &mut run.world, purpose, end)?;
    go_on(run, code, outcome)
}

/// The running function returns what an operand holds.
#[inline(never)]
pub(crate) fn give(
    run: &mut Execution,
    alloc: Global,
    code: &Code,
    value: &Operand,
) -> Result<Option<CEnd>, AllocError>
    ensures sure { is_light_return run.old ≡ true → takes_text (meaning.operand_value run.old.running.registers value.now) ≡ false → IsOk result }
    ensures gives { IfOk result (λ end. (w : Outside) → meaning.returns table_rules code.now (state_of run.old w) (meaning.used (meaning.operand_value run.old.running.registers value.now)) ≡ follows end run.new w) }
{
    match held(&run.running.registers, value)? {
        None | Some(Value::Unset) => Ok(run.undefined()),
        Some(value) => end_body(run, alloc, code, BodyEnd::Return(value)),
    }
}

/// The pending exception leaves the running function.
#[inline(never)]
pub(crate) fn fail(
    run: &mut Execution,
    alloc: Global,
    code: &Code,
) -> Result<Option<CEnd>, AllocError>
    ensures { IfOk result (λ end. (w : Outside) → meaning.fails table_rules code.now (state_of run.old w) run.old.running.pending ≡ follows end run.new w) }
{
    match run.running.pending {
        Some(exception) => end_body(run, alloc, code, BodyEnd::Raise(exception)),
        None => Ok(run.undefined()),
    }
}
