//! Exceptions: how they are made, and their entries.

ghost use Rattle.std.specs.Prelude.{◌≡◌, ◌<◌, ◌∷◌, [], IfOk, IfSome, OnOk, List, ℕ, length, slice_get, slice_set};
ghost use Rattle.nu_calls.specs.Exceptions as exceptions;
ghost use Rattle.nu_calls.specs.Ends as ends;
ghost use Rattle.c_ends.specs.Outcomes.{EndsAs, entry_in, in_world};

use crate::outcome::Outcome;
use nu_text::RcStr;
use nu_value::{Entry, Heap, Items, Object, Value};
use op_forms::{OpEnd, World};
use std::alloc::{AllocError, Global};

/// A new exception of a class, or the exception itself.
pub(crate) fn exception_made(
    alloc: Global,
    heap: &mut Heap,
    class: u64,
    args: Items,
) -> Result<u64, AllocError>
    ensures number { IfOk result (λ n. n ≡ (exceptions.exception_made class args heap.old).exception) }
    ensures heap { OnOk result (heap.new ≡ (exceptions.exception_made class args heap.old).heap) }
{
    match heap.get(class) {
        Some(Object::Class { .. }) => {
            let exception = Object::exception(alloc, class, args)?;
            heap.make(exception)
        }
        _ => Ok(class),
    }
}

fn add_entry_to(object: &mut Object, entry: Entry) -> Result<(), AllocError>
    ensures { OnOk result (object.new ≡ entry_in entry object.old) }
{
    if let Object::Exception { entries, .. } = object {
        entries.add(entry)?;
    }
    Ok(())
}

fn write_entry(heap: &mut Heap, number: u64, entry: Entry) -> Result<(), AllocError>
    requires { number < length heap.old }
    ensures { OnOk result (IfSome (slice_get heap.old number) (λ o. heap.new ≡ slice_set heap.old number (entry_in entry o))) }
{
    let Some(object) = heap.get_mut(number) else {
        unreachable!();
    };
    add_entry_to(object, entry)
}

// An entry in front of those that an exception has.
fn add_entry(heap: &mut Heap, number: u64, entry: Entry) -> Result<(), AllocError>
    ensures { OnOk result (heap.new ≡ exceptions.put_back heap.old number (exceptions.entered entry (slice_get heap.old number))) }
{
    match heap.get(number) {
        Some(Object::Exception { .. }) => write_entry(heap, number, entry),
        _ => Ok(()),
    }
}

/// An entry of a function's scope in front of those that an exception has; functions of the built-in text put none.
pub fn enlist(
    scripts: u32,
    world: &mut World,
    function: u32,
    line: u32,
    exception: u64,
) -> Result<(), AllocError>
    ensures { OnOk result ((input : List ℕ) (frames : ℕ) → ends.at_line scripts (in_world world.old input frames) function line exception ≡ in_world world.new input frames) }
{
    if scripts <= function {
        return Ok(());
    }
    let Some(header) = world.codes.get(function) else {
        return Ok(());
    };
    let entry = Entry {
        line,
        scope: header.scope.share()?,
    };
    add_entry(&mut world.heap, exception, entry)
}

/// A new exception of a class is raised, or the exception itself.
pub(crate) fn raises(
    alloc: Global,
    world: &mut World,
    class: u64,
    args: Items,
) -> Result<Outcome, AllocError>
    ensures { IfOk result (λ o. EndsAs (λ a. ends.raises a class args) world.old world.new o) }
{
    let exception = exception_made(alloc, &mut world.heap, class, args)?;
    Ok(Outcome::Raises(exception))
}

/// A new exception of a class without arguments is raised, or the exception itself.
pub(crate) fn raises_bare(
    alloc: Global,
    world: &mut World,
    class: u64,
) -> Result<Outcome, AllocError>
    ensures { IfOk result (λ o. EndsAs (λ a. ends.raises a class []) world.old world.new o) }
{
    raises(alloc, world, class, Items::new(alloc))
}

// A list of one value.
fn one(alloc: Global, value: Value) -> Result<Items, AllocError>
    ensures { IfOk result (λ items. items ≡ value ∷ []) }
{
    let mut items = Items::new(alloc);
    items.push(value)?;
    Ok(items)
}

/// A new exception of a class with one argument is raised, or the exception itself.
pub(crate) fn raises_with(
    alloc: Global,
    world: &mut World,
    class: u64,
    value: Value,
) -> Result<Outcome, AllocError>
    ensures { IfOk result (λ o. EndsAs (λ a. ends.raises a class (value ∷ [])) world.old world.new o) }
{
    let args = one(alloc, value)?;
    raises(alloc, world, class, args)
}

/// A new exception of a class with a text is raised.
pub(crate) fn raises_text(
    alloc: Global,
    world: &mut World,
    class: u64,
    text: &str,
) -> Result<Outcome, AllocError>
    ensures { IfOk result (λ o. EndsAs (λ a. ends.raises_text a class text.now) world.old world.new o) }
{
    let text = RcStr::from_str(alloc, text)?;
    raises_with(alloc, world, class, Value::Str(text))
}

/// What an operation's end comes to at once.
pub(crate) fn at_once(alloc: Global, world: &mut World, end: OpEnd) -> Result<Outcome, AllocError>
    ensures { IfOk result (λ o. EndsAs (λ a. ends.at_once a end) world.old world.new o) }
{
    match end {
        OpEnd::Give(value) => Ok(Outcome::Gives(value)),
        OpEnd::Raise(class, args) => raises(alloc, world, class, args),
        OpEnd::Stop(kind) => Ok(Outcome::Stops(kind)),
        OpEnd::Ask(..) | OpEnd::Resume(..) | OpEnd::Put(_) | OpEnd::Line => Ok(Outcome::Unsaid),
    }
}
