//! New instances and exceptions (reference, section 6.3.4).

ghost use Rattle.std.specs.Prelude.{◌≡◌, ◌∷◌, IfOk, slice_get};
ghost use Rattle.op_forms.specs.Doing.{Did, makes};
ghost use Rattle.op_rules.specs.Construction as spec;
ghost use Rattle.op_rules.specs.Kinds as kinds;

use crate::classes::method_in;
use crate::collecting::copied;
use crate::objects::unbuilt;
use nu_value::{Heap, Items, Names, Object, Value};
use op_forms::{After, OpEnd};
use op_rules::{Method, class_name, kind_name, raised};
use rt_class::is_under;
use std::alloc::{AllocError, Global};

const BASE_EXCEPTION: u64 = 19;

const ATTRIBUTE_ERROR: u64 = 25;

const NAME_ERROR: u64 = 30;

const TYPE_ERROR: u64 = 35;

/// Whether a class is `BaseException` or stands under it.
pub fn is_exception_class(heap: &Heap, class: u64) -> bool
    ensures { result ≡ spec.is_exception_class heap.now class }
{
    is_under(heap, class, BASE_EXCEPTION)
}

fn made_of(alloc: Global, heap: &Heap, class: u64, args: Items) -> Result<Object, AllocError>
    ensures { IfOk result (λ o. o ≡ spec.made_of heap.now class args) }
{
    if is_exception_class(heap, class) {
        Object::exception(alloc, class, args)
    } else {
        Ok(Object::Instance {
            class,
            fields: Names::new(alloc),
        })
    }
}

fn takes_none(alloc: Global, heap: &Heap, class: u64) -> Result<OpEnd, AllocError>
    ensures { IfOk result (λ e. e ≡ spec.takes_none heap.now class) }
{
    let mut text = String::from_str(alloc, class_name(heap, class))?;
    text.push_str("() takes no arguments")?;
    raised(alloc, TYPE_ERROR, text.as_str())
}

/// A new object, which is given.
pub fn make(heap: &mut Heap, object: Object) -> Result<OpEnd, AllocError>
    ensures { IfOk result (λ e. Did (makes heap.old object) heap.old heap.new e) }
{
    Ok(OpEnd::Give(Value::Obj(heap.make(object)?)))
}

fn make_of(alloc: Global, heap: &mut Heap, class: u64, args: Items) -> Result<OpEnd, AllocError>
    ensures { IfOk result (λ e. Did (makes heap.old (spec.made_of heap.old class args)) heap.old heap.new e) }
{
    let object = made_of(alloc, heap, class, args)?;
    make(heap, object)
}

fn takes_keywords(heap: &Heap, class: u64) -> bool
    ensures { result ≡ spec.takes_keywords heap.now class }
{
    is_under(heap, class, NAME_ERROR) || is_under(heap, class, ATTRIBUTE_ERROR)
}

fn exception_made(
    alloc: Global,
    heap: &mut Heap,
    class: u64,
    args: Items,
    names: &Names,
) -> Result<OpEnd, AllocError>
    ensures { IfOk result (λ e. Did (spec.exception_made heap.old class args names.now) heap.old heap.new e) }
{
    if names.as_slice().is_empty() {
        make_of(alloc, heap, class, args)
    } else if takes_keywords(heap, class) {
        unbuilt()
    } else {
        takes_none(alloc, heap, class)
    }
}

fn instance_made(
    alloc: Global,
    heap: &mut Heap,
    class: u64,
    args: Items,
    names: &Names,
) -> Result<OpEnd, AllocError>
    ensures { IfOk result (λ e. Did (spec.instance_made heap.old class args names.now) heap.old heap.new e) }
{
    if args.as_slice().is_empty() && names.as_slice().is_empty() {
        make_of(alloc, heap, class, args)
    } else {
        takes_none(alloc, heap, class)
    }
}

fn plainly_made(
    alloc: Global,
    heap: &mut Heap,
    class: u64,
    args: Items,
    names: &Names,
) -> Result<OpEnd, AllocError>
    ensures { IfOk result (λ e. Did (spec.plainly_made heap.old class args names.now) heap.old heap.new e) }
{
    if is_exception_class(heap, class) {
        exception_made(alloc, heap, class, args, names)
    } else {
        instance_made(alloc, heap, class, args, names)
    }
}

fn natively_made(
    alloc: Global,
    heap: &mut Heap,
    class: u64,
    args: Items,
    names: &Names,
) -> Result<OpEnd, AllocError>
    ensures { IfOk result (λ e. Did (spec.natively_made heap.old class args names.now) heap.old heap.new e) }
{
    if names.as_slice().is_empty() && is_exception_class(heap, class) {
        make_of(alloc, heap, class, args)
    } else {
        unbuilt()
    }
}

// A list of its own of a value and those behind it.
fn with_first(alloc: Global, first: Value, values: &[Value]) -> Result<Items, AllocError>
    ensures { IfOk result (λ items. items ≡ first ∷ values.now) }
{
    let mut items = copied(alloc, values)?;
    items.insert(0, first)?;
    Ok(items)
}

fn made_by_function(
    alloc: Global,
    heap: &mut Heap,
    function: u64,
    class: u64,
    args: Items,
    names: Names,
) -> Result<OpEnd, AllocError>
    ensures { IfOk result (λ e. Did (spec.made_by_function heap.old function class args names) heap.old heap.new e) }
{
    let number = heap.len();
    let given = with_first(alloc, Value::Obj(number), args.as_slice())?;
    let object = made_of(alloc, heap, class, args)?;
    heap.make(object)?;
    Ok(OpEnd::Ask(function, given, names, After::Made(Value::Obj(number))))
}

/// A class that a script made, or one of exceptions, is called: something new, and its `__init__` is asked.
pub fn construct(
    alloc: Global,
    heap: &mut Heap,
    class: u64,
    args: Items,
    names: Names,
) -> Result<OpEnd, AllocError>
    ensures { IfOk result (λ e. Did (spec.construct heap.old class args names) heap.old heap.new e) }
{
    match method_in(heap, class, "__init__") {
        Method::Absent => plainly_made(alloc, heap, class, args, &names),
        Method::Function(function) => made_by_function(alloc, heap, function, class, args, names),
        Method::Native => natively_made(alloc, heap, class, args, &names),
        Method::Other => unbuilt(),
    }
}

/// The error of a value that can't be called.
pub fn not_callable(alloc: Global, heap: &Heap, value: &Value) -> Result<OpEnd, AllocError>
    ensures { IfOk result (λ e. e ≡ spec.not_callable heap.now value.now) }
{
    let mut text = String::from_str(alloc, "'")?;
    text.push_str(kind_name(heap, value))?;
    text.push_str("' object is not callable")?;
    raised(alloc, TYPE_ERROR, text.as_str())
}
