//! Exceptions are raised, and a statement has what it waited for.

ghost use Rattle.std.specs.Prelude.{◌≡◌, ◌+◌, ◌<◌, ◌^◌, IfOk, IsOk, false};
ghost use Rattle.op_rules.specs.TableRules.{table_rules};
ghost use Rattle.c_meaning.specs.Step as meaning;
ghost use Rattle.c_ends.specs.Outcomes.{is_raising, result_of};
ghost use Rattle.c_stack.specs.Frames.{site};
ghost use Rattle.c_stack.specs.Standing.{Outside, state_of, follows};

use c_ends::{Outcome, enlist};
use c_meaning::{CEnd, Code};
use c_stack::{Execution, Site};
use nu_value::Value;
use std::alloc::AllocError;

/// An exception is raised at the running function's statement.
#[inline(never)]
#[tactic(auto, using(crate::proofs::Pending::raised_at))]
pub(crate) fn raise(
    run: &mut Execution,
    code: &Code,
    at: Site,
    exception: u64,
) -> Result<Option<CEnd>, AllocError>
    ensures { IfOk result (λ end. (w : Outside) → meaning.raised table_rules code.now (state_of run.old w) (site at) exception ≡ follows end run.new w) }
{
    let function = run.running.function;
    enlist(code.scripts, &mut run.world, function, at.line, exception)?;
    run.put(at.to, Value::Unset);
    run.running.pending = Some(exception);
    Ok(run.jump(at.goal))
}

/// The running function's statement has what it waited for.
pub(crate) fn settle(
    run: &mut Execution,
    code: &Code,
    at: Site,
    outcome: Outcome,
) -> Result<Option<CEnd>, AllocError>
    requires small { run.old.running.place + 1 < 2 ^ 64 }
    ensures sure { is_raising outcome ≡ false → IsOk result }
    ensures settles { IfOk result (λ end. (w : Outside) → meaning.settles table_rules code.now (state_of run.old w) (site at) (result_of outcome) ≡ follows end run.new w) }
{
    match outcome {
        Outcome::Gives(value) => Ok(run.store(at.to, Some(value))),
        Outcome::Raises(exception) => raise(run, code, at, exception),
        Outcome::Stops(kind) => Ok(Some(CEnd::Stopped(kind))),
        Outcome::Unsaid => Ok(run.undefined()),
    }
}

/// The running function, which waited, has what it waited for.
pub(crate) fn go_on(
    run: &mut Execution,
    code: &Code,
    outcome: Outcome,
) -> Result<Option<CEnd>, AllocError>
    ensures sure { is_raising outcome ≡ false → IsOk result }
    ensures settles { IfOk result (λ end. (w : Outside) → meaning.settles_at table_rules code.now (state_of run.old w) (meaning.site_in (meaning.placed_at code.now run.old.running)) (result_of outcome) ≡ follows end run.new w) }
{
    match run.site(code) {
        Some(at) => settle(run, code, at, outcome),
        None => Ok(run.undefined()),
    }
}
