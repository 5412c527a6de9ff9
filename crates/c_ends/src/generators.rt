//! Generators: how they are resumed, pause and end.

ghost use Rattle.std.specs.Prelude.{◌≡◌, ℕ, List, ◌∷◌, [], IfOk, codes, IfSome, length, slice_get, slice_set, ◌+◌, ◌<◌, false, true};
ghost use Rattle.nu_value.specs.Classes.{base_of, is_among, outward};
ghost use Rattle.nu_calls.specs.Exceptions as exceptions;
ghost use Rattle.nu_calls.specs.Ends as ends;
ghost use Rattle.nu_value.specs.declared.value.Value as value;
ghost use Rattle.nu_value.specs.declared.value.Value.TheVariants as value_of;
ghost use Rattle.op_forms.specs.declared.end.How.TheVariants as how_of;
ghost use Rattle.c_ends.specs.declared.outcome.Begun.TheVariants as begun_of;
ghost use Rattle.c_ends.specs.Outcomes.{BeginsAs, EndsAs, end_of, generator_parts, in_state, is_none, state_in};

use crate::calls::copied;
use crate::outcome::{Begun, BodyEnd, Outcome};
use crate::raises::{enlist, exception_made, raises_bare, raises_text, raises_with};
use c_meaning::Told;
use nu_run::StopKind;
use nu_value::{GenState, Heap, Items, Object, Value};
use op_forms::{How, World};
use std::alloc::{AllocError, Global};

const GENERATOR_EXIT: u64 = 21;

const RUNTIME_ERROR: u64 = 32;

const STOP_ITERATION: u64 = 34;

const TYPE_ERROR: u64 = 35;

const VALUE_ERROR: u64 = 36;

// How far a generator is, if it is one.
fn state_in(heap: &Heap, generator: u64) -> Option<GenState>
    ensures { result ≡ state_in (slice_get heap.now generator) }
{
    match heap.get(generator) {
        Some(Object::Generator { state, .. }) => Some(*state),
        _ => None,
    }
}

// The code of a generator, its arguments and its cells, if it is one.
fn generator_parts(
    alloc: Global,
    heap: &Heap,
    generator: u64,
) -> Result<Option<(u32, Items, Items)>, AllocError>
    ensures { IfOk result (λ parts. parts ≡ generator_parts (slice_get heap.now generator)) }
{
    match heap.get(generator) {
        Some(
            Object::Generator {
                code,
                arguments,
                cells,
                ..
            },
        ) => {
            let arguments = copied(alloc, arguments.as_slice())?;
            let cells = copied(alloc, cells.as_slice())?;
            Ok(Some((*code, arguments, cells)))
        }
        _ => Ok(None),
    }
}

fn set_state_to(object: &mut Object, new: GenState)
    ensures { object.new ≡ in_state new object.old }
{
    if let Object::Generator { state, .. } = object {
        *state = new;
    }
}

fn write_state(heap: &mut Heap, generator: u64, state: GenState)
    requires { generator < length heap.old }
    ensures { IfSome (slice_get heap.old generator) (λ o. heap.new ≡ slice_set heap.old generator (in_state state o)) }
{
    let Some(object) = heap.get_mut(generator) else {
        unreachable!();
    };
    set_state_to(object, state);
}

// A generator's state is another.
fn set_state(heap: &mut Heap, generator: u64, state: GenState)
    ensures { heap.new ≡ ends.state_set heap.old generator state (slice_get heap.old generator) }
{
    if let Some(Object::Generator { .. }) = heap.get(generator) {
        write_state(heap, generator, state);
    }
}

// Whether an exception's class is one of a number, or stands under it.
#[tactic(auto, using(crate::proofs::Resumes::under_all))]
fn is_kind(heap: &Heap, exception: u64, class: u64) -> bool
    ensures { result ≡ exceptions.is_kind heap.now exception class }
{
    let Some(Object::Exception { class: own, .. }) = heap.get(exception) else {
        return false;
    };
    is_under(heap, heap.len() + 1, Some(*own), class)
}

// Whether a class stands among those from another outward, so many at most.
#[tactic(auto, using(crate::proofs::Resumes::under_step, crate::proofs::Resumes::under_none, crate::proofs::Resumes::under_over))]
fn is_under(heap: &Heap, room: u64, from: Option<u64>, class: u64) -> bool
    ensures { result ≡ is_among (outward room heap.now from) class }
{
    let mut at = from;
    for step in 0..room {
        let Some(number) = at else {
            return false;
        };
        if number == class {
            return true;
        }
        at = base_of(heap, number);
    }
    false
}

fn base_of(heap: &Heap, class: u64) -> Option<u64>
    ensures { result ≡ base_of (slice_get heap.now class) }
{
    match heap.get(class) {
        Some(Object::Class { base, .. }) => *base,
        _ => None,
    }
}

// A StopIteration with the value that a generator returned.
fn returned(alloc: Global, world: &mut World, value: Value) -> Result<Outcome, AllocError>
    ensures { IfOk result (λ o. EndsAs (λ a. ends.returned a value) world.old world.new o) }
{
    if is_none(&value) {
        raises_bare(alloc, world, STOP_ITERATION)
    } else {
        raises_with(alloc, world, STOP_ITERATION, value)
    }
}

fn is_none(value: &Value) -> bool
    ensures { result ≡ is_none value.now }
{
    match value {
        Value::None => true,
        _ => false,
    }
}

// An exception leaves a generator's body.
fn left_body(
    alloc: Global,
    world: &mut World,
    closing: bool,
    exception: u64,
) -> Result<Outcome, AllocError>
    ensures { IfOk result (λ o. EndsAs (λ a. ends.left_body a closing exception) world.old world.new o) }
{
    if is_kind(&world.heap, exception, STOP_ITERATION) {
        return raises_text(
            alloc,
            world,
            RUNTIME_ERROR,
            "generator raised StopIteration",
        );
    }
    if closing && is_kind(&world.heap, exception, GENERATOR_EXIT) {
        Ok(Outcome::Gives(Value::None))
    } else {
        Ok(Outcome::Raises(exception))
    }
}

/// What the code that resumed a generator has of how its body ended.
pub fn generator_ended(
    alloc: Global,
    world: &mut World,
    generator: u64,
    closing: bool,
    end: BodyEnd,
) -> Result<Outcome, AllocError>
    ensures { IfOk result (λ o. EndsAs (λ a. ends.generator_ended a generator closing (end_of end)) world.old world.new o) }
{
    set_state(&mut world.heap, generator, GenState::Over);
    match end {
        BodyEnd::Return(value) => {
            if closing {
                Ok(Outcome::Gives(Value::None))
            } else {
                returned(alloc, world, value)
            }
        }
        BodyEnd::Raise(exception) => left_body(alloc, world, closing, exception),
    }
}

/// What the code that resumed a generator has of a value with which it paused.
pub fn generator_paused(
    alloc: Global,
    world: &mut World,
    generator: u64,
    closing: bool,
    value: Value,
) -> Result<Outcome, AllocError>
    ensures { IfOk result (λ o. EndsAs (λ a. ends.generator_paused a generator closing value) world.old world.new o) }
{
    set_state(&mut world.heap, generator, GenState::Paused);
    if closing {
        drop(value);
        raises_text(
            alloc,
            world,
            RUNTIME_ERROR,
            "generator ignored GeneratorExit",
        )
    } else {
        Ok(Outcome::Gives(value))
    }
}

// The line of a function.
fn first_line(world: &World, function: u32) -> u32
    ensures { result ≡ ends.first_line (slice_get world.now.codes function) }
{
    match world.codes.get(function) {
        Some(header) => header.line,
        None => 0,
    }
}

// An exception is thrown into a generator that hasn't begun: it leaves its body on its first line.
fn thrown_fresh(
    alloc: Global,
    scripts: u32,
    world: &mut World,
    generator: u64,
    function: u32,
    exception: u64,
) -> Result<Outcome, AllocError>
    ensures { IfOk result (λ o. EndsAs (λ a. ends.thrown_fresh scripts a generator function exception) world.old world.new o) }
{
    let line = first_line(world, function);
    enlist(scripts, world, function, line, exception)?;
    generator_ended(alloc, world, generator, false, BodyEnd::Raise(exception))
}

// What the code that resumes a generator that is over has of that.
fn over_resumed(alloc: Global, world: &mut World, how: &How) -> Result<Outcome, AllocError>
    ensures { IfOk result (λ o. EndsAs (λ a. ends.over_resumed a how.now) world.old world.new o) }
{
    match how {
        How::Send(_) => raises_bare(alloc, world, STOP_ITERATION),
        How::Throw(exception) => Ok(Outcome::Raises(*exception)),
        How::Close => Ok(Outcome::Gives(Value::None)),
    }
}

// A generator that hasn't begun is resumed with None.
#[tactic(auto, using(crate::proofs::Resumes::begins_full, crate::proofs::Resumes::begins_room))]
fn start(
    world: &mut World,
    full: bool,
    generator: u64,
    function: u32,
    given: Items,
    cells: Items,
) -> Begun
    ensures { (scripts : ℕ) → BeginsAs (λ a. ends.fresh_resumed scripts a generator function given cells (how_of.Send value_of.None)) full world.old world.new result }
{
    if full {
        return Begun::Over(Outcome::Stops(StopKind::Depth));
    }
    set_state(&mut world.heap, generator, GenState::Running);
    Begun::Starts {
        generator,
        function,
        given,
        cells,
    }
}

// An exception is thrown into a generator that hasn't begun, unless 1,000 frames are live.
#[tactic(auto, using(crate::proofs::Resumes::begins_full, crate::proofs::Resumes::begins_room))]
fn throw_fresh(
    alloc: Global,
    scripts: u32,
    world: &mut World,
    full: bool,
    generator: u64,
    function: u32,
    exception: u64,
) -> Result<Outcome, AllocError>
    ensures { IfOk result (λ o. (given cells : List value.Value) → BeginsAs (λ a. ends.fresh_resumed scripts a generator function given cells (how_of.Throw exception)) full world.old world.new (begun_of.Over o)) }
{
    if full {
        Ok(Outcome::Stops(StopKind::Depth))
    } else {
        thrown_fresh(alloc, scripts, world, generator, function, exception)
    }
}

// A generator that hasn't begun is sent a value.
fn send_fresh(
    alloc: Global,
    world: &mut World,
    full: bool,
    generator: u64,
    parts: (u32, Items, Items),
    value: Value,
) -> Result<Begun, AllocError>
    ensures { IfOk result (λ b. (scripts : ℕ) → BeginsAs (λ a. ends.fresh_resumed scripts a generator parts.0 parts.1 parts.2 (how_of.Send value)) full world.old world.new b) }
{
    let none = is_none(&value);
    drop(value);
    let (function, given, cells) = parts;
    if none {
        return Ok(start(world, full, generator, function, given, cells));
    }
    drop(given);
    drop(cells);
    Ok(Begun::Over(raises_text(
        alloc,
        world,
        TYPE_ERROR,
        "can't send non-None value to a just-started generator",
    )?))
}

// A generator that hasn't begun is resumed.
fn resume_fresh(
    alloc: Global,
    scripts: u32,
    world: &mut World,
    full: bool,
    generator: u64,
    parts: (u32, Items, Items),
    how: How,
) -> Result<Begun, AllocError>
    ensures { IfOk result (λ b. BeginsAs (λ a. ends.fresh_resumed scripts a generator parts.0 parts.1 parts.2 how) full world.old world.new b) }
{
    match how {
        How::Send(value) => send_fresh(alloc, world, full, generator, parts, value),
        How::Throw(exception) => {
            let function = parts.0;
            drop(parts);
            let outcome = throw_fresh(alloc, scripts, world, full, generator, function, exception)?;
            Ok(Begun::Over(outcome))
        }
        How::Close => {
            drop(parts);
            set_state(&mut world.heap, generator, GenState::Over);
            Ok(Begun::Over(Outcome::Gives(Value::None)))
        }
    }
}

// A paused generator goes on, or is closed, where fewer than 1,000 frames are live.
fn wakes(alloc: Global, world: &mut World, generator: u64, how: How) -> Result<Begun, AllocError>
    ensures { IfOk result (λ b. BeginsAs (λ a. ends.paused_resumed a generator how) false world.old world.new b) }
{
    let (told, closing) = match how {
        How::Send(value) => (Told::Sent(value), false),
        How::Throw(exception) => (Told::Thrown(exception), false),
        How::Close => (
            Told::Thrown(exception_made(
                alloc,
                &mut world.heap,
                GENERATOR_EXIT,
                Items::new(alloc),
            )?),
            true,
        ),
    };
    set_state(&mut world.heap, generator, GenState::Running);
    Ok(Begun::Wakes {
        generator,
        told,
        closing,
    })
}

// A paused generator is resumed.
#[tactic(auto, using(crate::proofs::Resumes::paused_full))]
fn resume_paused(
    alloc: Global,
    world: &mut World,
    full: bool,
    generator: u64,
    how: How,
) -> Result<Begun, AllocError>
    ensures { IfOk result (λ b. BeginsAs (λ a. ends.paused_resumed a generator how) full world.old world.new b) }
{
    if full {
        Ok(Begun::Over(Outcome::Stops(StopKind::Depth)))
    } else {
        wakes(alloc, world, generator, how)
    }
}

// A running generator is resumed.
fn resume_running(alloc: Global, world: &mut World) -> Result<Outcome, AllocError>
    ensures { IfOk result (λ o. EndsAs (λ a. ends.raises_text a ends.value_error (codes "generator already executing")) world.old world.new o) }
{
    raises_text(alloc, world, VALUE_ERROR, "generator already executing")
}

/// A generator is resumed.
pub(crate) fn resumed(
    alloc: Global,
    scripts: u32,
    world: &mut World,
    full: bool,
    generator: u64,
    how: How,
) -> Result<Begun, AllocError>
    ensures { IfOk result (λ b. BeginsAs (λ a. ends.resumed scripts a generator (slice_get a.world.heap generator) how) full world.old world.new b) }
{
    match state_in(&world.heap, generator) {
        Some(GenState::Running) => {
            drop(how);
            Ok(Begun::Over(resume_running(alloc, world)?))
        }
        Some(GenState::Fresh) => match generator_parts(alloc, &world.heap, generator)? {
            Some(parts) => resume_fresh(alloc, scripts, world, full, generator, parts, how),
            None => Ok(Begun::Over(Outcome::Unsaid)),
        },
        Some(GenState::Paused) => resume_paused(alloc, world, full, generator, how),
        Some(GenState::Over) => {
            let outcome = over_resumed(alloc, world, &how);
            drop(how);
            Ok(Begun::Over(outcome?))
        }
        None => {
            drop(how);
            Ok(Begun::Over(Outcome::Unsaid))
        }
    }
}
