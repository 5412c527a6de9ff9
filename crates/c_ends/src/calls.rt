//! Calls: what an operation's end begins, and what becomes of a called body's end.

ghost use Rattle.std.specs.Prelude.{◌≡◌, IfOk, IsOk, slice_get, false, true};
ghost use Rattle.op_rules.specs.TableRules.{table_rules};
ghost use Rattle.nu_calls.specs.Ends as ends;
ghost use Rattle.c_ends.specs.Outcomes.{BeginsAs, EndsAs, end_of, function_parts, is_plain, is_quiet, is_raising, is_return};

use crate::generators::resumed;
use crate::outcome::{Begun, BodyEnd, Outcome};
use crate::raises::{at_once, raises};
use nu_run::StopKind;
use nu_value::{Heap, Items, Object, Value};
use op_forms::{After, OpEnd, World};
use runtime_table::finish;
use std::alloc::{AllocError, Global};

/// The same values in a list of their own.
pub(crate) fn copied(alloc: Global, values: &[Value]) -> Result<Items, AllocError>
    ensures { IfOk result (λ items. items ≡ values.now) }
{
    let mut items = Items::new(alloc);
    for value in values {
        items.push(value.copy()?)?;
    }
    Ok(items)
}

// The code of a function and its cells, if it is one.
fn function_parts(
    alloc: Global,
    heap: &Heap,
    number: u64,
) -> Result<Option<(u32, Items)>, AllocError>
    ensures { IfOk result (λ parts. parts ≡ function_parts (slice_get heap.now number)) }
{
    match heap.get(number) {
        Some(Object::Function { code, cells, .. }) => {
            let cells = copied(alloc, cells.as_slice())?;
            Ok(Some((*code, cells)))
        }
        _ => Ok(None),
    }
}

// A function is asked that is bound already.
#[tactic(auto, using(crate::proofs::Resumes::begins_full, crate::proofs::Resumes::begins_room))]
fn asked(
    alloc: Global,
    world: &mut World,
    full: bool,
    function: u64,
    given: Items,
    after: After,
) -> Result<Begun, AllocError>
    ensures { IfOk result (λ b. BeginsAs (λ a. ends.asked a (slice_get a.world.heap function) given after) full world.old world.new b) }
{
    let Some((function, cells)) = function_parts(alloc, &world.heap, function)? else {
        return Ok(Begun::Over(Outcome::Unsaid));
    };
    if full {
        return Ok(Begun::Over(Outcome::Stops(StopKind::Depth)));
    }
    Ok(Begun::Calls {
        function,
        given,
        cells,
        after,
    })
}

/// What the code that called a body has of how it ended.
pub fn call_ended(
    alloc: Global,
    world: &mut World,
    after: After,
    end: BodyEnd,
) -> Result<Outcome, AllocError>
    ensures sure { is_plain after ≡ true → is_return end ≡ true → IsOk result }
    ensures plain { IfOk result (λ o. is_plain after ≡ true → is_return end ≡ true → is_raising o ≡ false) }
    ensures ends { IfOk result (λ o. EndsAs (λ a. ends.call_ended table_rules after a (end_of end)) world.old world.new o) }
{
    match end {
        BodyEnd::Return(value) => match after {
            After::Plain => Ok(Outcome::Gives(value)),
            after => {
                let end = finish(alloc, world, after, value)?;
                at_once(alloc, world, end)
            }
        },
        BodyEnd::Raise(exception) => Ok(Outcome::Raises(exception)),
    }
}

/// What an operation's end begins, where it neither prints nor reads a line.
pub fn begun(
    alloc: Global,
    scripts: u32,
    world: &mut World,
    full: bool,
    end: OpEnd,
) -> Result<Begun, AllocError>
    requires quiet { is_quiet end ≡ true }
    ensures { IfOk result (λ b. BeginsAs (λ a. ends.begun scripts a end) full world.old world.new b) }
{
    match end {
        OpEnd::Give(value) => Ok(Begun::Over(Outcome::Gives(value))),
        OpEnd::Raise(class, args) => Ok(Begun::Over(raises(alloc, world, class, args)?)),
        OpEnd::Ask(function, given, _, after) => asked(alloc, world, full, function, given, after),
        OpEnd::Resume(generator, how) => resumed(alloc, scripts, world, full, generator, how),
        OpEnd::Stop(kind) => Ok(Begun::Over(Outcome::Stops(kind))),
        OpEnd::Put(_) | OpEnd::Line => unreachable!(),
    }
}
