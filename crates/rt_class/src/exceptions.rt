//! Exceptions that are made, raised and matched (reference, sections 7.8 and 8.4).

ghost use Rattle.std.specs.Prelude.{◌≡◌, IfOk, slice_get};
ghost use Rattle.std.specs.List.{list_all, list_any};
ghost use Rattle.op_forms.specs.Doing.{Did, makes};
ghost use Rattle.op_rules.specs.Exceptions as spec;
ghost use Rattle.op_rules.specs.Subclasses as subclasses;
ghost use Rattle.rt_class.specs.Outcomes.{doing_of};

use crate::lookups::{class_of, found_in, is_exception_class, is_under, is_under_value};
use crate::outcome::{Outcome, carry_out};
use crate::specials::{asking, one_item};
use nu_run::StopKind;
use nu_value::{Heap, Items, Object, Value, object_of};
use op_forms::{After, OpEnd};
use op_rules::{Init, raised};
use std::alloc::{AllocError, Global};

const BASE_EXCEPTION: u64 = 19;

const TYPE_ERROR: u64 = 35;

fn bare(alloc: Global, class: u64) -> Result<Object, AllocError>
    ensures { IfOk result (λ o. o ≡ spec.bare class) }
{
    Object::exception(alloc, class, Items::new(alloc))
}

// An exception class whose `__init__` is this function is called without arguments.
fn exception_asking(
    alloc: Global,
    heap: &mut Heap,
    class: u64,
    function: u64,
) -> Result<OpEnd, AllocError>
    ensures { IfOk result (λ e. Did (spec.exception_asking heap.old class function) heap.old heap.new e) }
{
    let number = heap.len();
    let items = one_item(alloc, &Value::Obj(number))?;
    let object = bare(alloc, class)?;
    heap.make(object)?;
    Ok(asking(alloc, function, items, After::Made(Value::Obj(number))))
}

fn exception_plain(alloc: Global, heap: &mut Heap, class: u64) -> Result<OpEnd, AllocError>
    ensures { IfOk result (λ e. Did (makes heap.old (spec.bare class)) heap.old heap.new e) }
{
    let object = bare(alloc, class)?;
    carry_out(heap, Outcome::Makes(object))
}

fn is_plain_init(name: &str, receiver: &Value) -> bool
    ensures { result ≡ spec.is_plain_init name.now receiver.now }
{
    match receiver {
        Value::Unset => name == "__init__",
        _ => false,
    }
}

// What the `__init__` of a class is.
fn init_of(heap: &Heap, class: u64) -> Init
    ensures { result ≡ spec.init_in heap.now class }
{
    match found_in(heap, class, "__init__") {
        None => Init::Plain,
        Some(Value::Obj(number)) => match heap.get(*number) {
            Some(Object::Function { .. }) => Init::Function(*number),
            Some(Object::Builtin { name, receiver }) if is_plain_init(name.as_str(), receiver) => {
                Init::Plain
            }
            _ => Init::Other,
        },
        Some(_) => Init::Other,
    }
}

// An exception class is called without arguments.
fn exception_of(alloc: Global, heap: &mut Heap, class: u64) -> Result<OpEnd, AllocError>
    ensures { IfOk result (λ e. Did (spec.exception_of heap.old class) heap.old heap.new e) }
{
    match init_of(heap, class) {
        Init::Plain => exception_plain(alloc, heap, class),
        Init::Function(function) => exception_asking(alloc, heap, class, function),
        Init::Other => Ok(OpEnd::Stop(StopKind::Unbuilt)),
    }
}

fn no_exception(alloc: Global) -> Result<OpEnd, AllocError>
    ensures { IfOk result (λ e. e ≡ spec.no_exception) }
{
    raised(
        alloc,
        TYPE_ERROR,
        "exceptions must derive from BaseException",
    )
}

fn exc_on(alloc: Global, heap: &mut Heap, number: u64) -> Result<OpEnd, AllocError>
    ensures { IfOk result (λ e. Did (spec.exc_on heap.old number (slice_get heap.old number)) heap.old heap.new e) }
{
    match heap.get(number) {
        Some(Object::Exception { .. }) => Ok(OpEnd::Give(Value::Obj(number))),
        Some(Object::Class { .. }) => {
            if is_under(heap, number, BASE_EXCEPTION) {
                exception_of(alloc, heap, number)
            } else {
                no_exception(alloc)
            }
        }
        _ => no_exception(alloc),
    }
}

/// The exception that `raise` raises for a value.
pub fn exc_row(alloc: Global, heap: &mut Heap, value: &Value) -> Result<OpEnd, AllocError>
    ensures { IfOk result (λ e. Did (spec.exc_row heap.old value.now) heap.old heap.new e) }
{
    match value {
        Value::Obj(number) => exc_on(alloc, heap, *number),
        _ => no_exception(alloc),
    }
}

/// Raises an exception.
pub fn raise_row(alloc: Global, heap: &Heap, value: &Value) -> OpEnd
    ensures { result ≡ spec.raise_row heap.now value.now }
{
    match value {
        Value::Obj(number) => match heap.get(*number) {
            Some(Object::Exception { .. }) => OpEnd::Raise(*number, Items::new(alloc)),
            _ => OpEnd::Stop(StopKind::Unbuilt),
        },
        _ => OpEnd::Stop(StopKind::Unbuilt),
    }
}

fn are_exception_classes(heap: &Heap, values: &[Value]) -> bool
    ensures { result ≡ list_all (subclasses.is_exception_class heap.now) values.now }
{
    for value in values {
        if !is_exception_class(heap, value) {
            return false;
        }
    }
    true
}

fn is_under_any(heap: &Heap, own: u64, values: &[Value]) -> bool
    ensures { result ≡ list_any (subclasses.is_under_value heap.now own) values.now }
{
    for value in values {
        if is_under_value(heap, own, value) {
            return true;
        }
    }
    false
}

fn matches(alloc: Global, heap: &Heap, own: u64, classes: &[Value]) -> Result<OpEnd, AllocError>
    ensures { IfOk result (λ e. e ≡ spec.matches heap.now own classes.now) }
{
    if are_exception_classes(heap, classes) {
        Ok(OpEnd::Give(Value::Bool(is_under_any(heap, own, classes))))
    } else {
        raised(
            alloc,
            TYPE_ERROR,
            "catching classes that do not inherit from BaseException is not allowed",
        )
    }
}

/// Whether an `except` clause with a class or a tuple of classes catches an exception.
pub fn match_row(
    alloc: Global,
    heap: &Heap,
    exception: &Value,
    classes: &Value,
) -> Result<OpEnd, AllocError>
    ensures { IfOk result (λ e. e ≡ spec.match_row heap.now exception.now classes.now) }
{
    let own = class_of(heap, exception);
    match object_of(heap, classes) {
        Some(Object::Tuple(items)) => matches(alloc, heap, own, items.as_slice()),
        _ => matches(alloc, heap, own, std::slice::from_ref(classes)),
    }
}

/// The traceback that `__exit__` is given.
pub fn trace(heap: &Heap, value: &Value) -> Outcome
    ensures { doing_of heap.now result ≡ spec.trace_row heap.now value.now }
{
    match value {
        Value::Obj(number) => match heap.get(*number) {
            Some(Object::Exception { .. }) => Outcome::Makes(Object::Trace(*number)),
            _ => Outcome::Ends(OpEnd::Stop(StopKind::Unbuilt)),
        },
        _ => Outcome::Ends(OpEnd::Stop(StopKind::Unbuilt)),
    }
}
