//! Calls of values, and functions that are made (reference, sections 6.3.4 and 8.7).

ghost use Rattle.std.specs.Prelude.{◌≡◌, ◌∷◌, IfOk, slice_get};
ghost use Rattle.op_forms.specs.Doing.{Did};
ghost use Rattle.op_rules.specs.Calls as spec;

use crate::classes::method_in;
use crate::construction::{construct, is_exception_class, not_callable};
use crate::native_classes::native_class;
use crate::natives::native_called;
use crate::objects::unbuilt;
use nu_value::{Heap, Items, Names, Object, Value};
use op_forms::{After, OpEnd};
use op_rules::Method;
use std::alloc::{AllocError, Global};

fn asks_function(function: u64, args: Items, names: Names) -> OpEnd
    ensures { result ≡ spec.asks_function function args names }
{
    OpEnd::Ask(function, args, names, After::Plain)
}

fn call_class(
    alloc: Global,
    heap: &mut Heap,
    class: u64,
    native: bool,
    args: Items,
    names: Names,
) -> Result<OpEnd, AllocError>
    ensures { IfOk result (λ e. Did (spec.call_class heap.old class native args names) heap.old heap.new e) }
{
    if native && !is_exception_class(heap, class) {
        native_class(alloc, heap, class, args, names)
    } else {
        construct(alloc, heap, class, args, names)
    }
}

fn call_method(
    receiver: Value,
    function: u64,
    args: Items,
    names: Names,
) -> Result<OpEnd, AllocError>
    ensures { IfOk result (λ e. e ≡ spec.asks_function function (receiver ∷ args) names) }
{
    let mut args = args;
    args.insert(0, receiver)?;
    Ok(asks_function(function, args, names))
}

fn call_by(
    alloc: Global,
    heap: &Heap,
    method: Method,
    number: u64,
    args: Items,
    names: Names,
) -> Result<OpEnd, AllocError>
    ensures { IfOk result (λ e. e ≡ spec.call_by heap.now method number args names) }
{
    match method {
        Method::Absent => not_callable(alloc, heap, &Value::Obj(number)),
        Method::Function(function) => call_method(Value::Obj(number), function, args, names),
        Method::Native | Method::Other => unbuilt(),
    }
}

fn call_builtin(
    alloc: Global,
    heap: &Heap,
    name: &str,
    receiver: &Value,
    args: &[Value],
    names: &Names,
) -> Result<OpEnd, AllocError>
    ensures { IfOk result (λ e. e ≡ spec.call_builtin heap.now name.now receiver.now args.now names.now) }
{
    match receiver {
        Value::Unset => native_called(alloc, heap, name, args, names),
        _ => unbuilt(),
    }
}

fn call_object(
    alloc: Global,
    heap: &mut Heap,
    number: u64,
    args: Items,
    names: Names,
) -> Result<OpEnd, AllocError>
    ensures { IfOk result (λ e. Did (spec.call_object heap.old number args names (slice_get heap.old number)) heap.old heap.new e) }
{
    match heap.get(number) {
        Some(Object::Function { .. }) => Ok(asks_function(number, args, names)),
        Some(Object::Method { receiver, function }) => call_method(
            receiver.copy()?,
            *function,
            args,
            names,
        ),
        Some(Object::Class { native, .. }) => {
            let native = *native;
            call_class(alloc, heap, number, native, args, names)
        }
        Some(Object::Instance { class, .. }) => {
            let method = method_in(heap, *class, "__call__");
            call_by(alloc, heap, method, number, args, names)
        }
        Some(Object::Builtin { name, receiver }) => call_builtin(
            alloc,
            heap,
            name.as_str(),
            receiver,
            args.as_slice(),
            &names,
        ),
        _ => not_callable(alloc, heap, &Value::Obj(number)),
    }
}

/// Calls a value with arguments and keywords. A function is asked, and isn't bound yet.
pub fn call_value(
    alloc: Global,
    heap: &mut Heap,
    function: &Value,
    args: Items,
    names: Names,
) -> Result<OpEnd, AllocError>
    ensures { IfOk result (λ e. Did (spec.call_value heap.old function.now args names) heap.old heap.new e) }
{
    match function {
        Value::Obj(number) => call_object(alloc, heap, *number, args, names),
        _ => not_callable(alloc, heap, function),
    }
}
