//! What does the work of a call.

ghost use Rattle.std.specs.Prelude.{◌≡◌, option_copied};
ghost use Rattle.nu_value.specs.Same.{object_of};
ghost use Rattle.op_rules.specs.Routes as spec;

use crate::table::value_family;
use nu_value::{Heap, Object, Value, object_of};
use op_forms::Op;
use op_rules::{Family, Route};

/// Whether a value is a dict without keys.
pub fn is_empty_dict(heap: &Heap, dict: &Value) -> bool
    ensures { result ≡ spec.is_empty_dict (object_of heap.now dict.now) }
{
    match object_of(heap, dict) {
        Some(Object::Dict(pairs)) => pairs.len() == 0,
        _ => false,
    }
}

fn by_operation(op: Op, plain: bool, args: &[Value]) -> Route
    ensures { result ≡ spec.by_operation op plain args.now }
{
    match args {
        [_] if plain => Route::Operation(op),
        _ => Route::Itself,
    }
}

fn attribute_route(plain: bool, args: &[Value]) -> Route
    ensures { result ≡ spec.attribute_route plain args.now }
{
    match args {
        [_, Value::Str(_)] if plain => Route::Operation(Op::Attr),
        _ => Route::Itself,
    }
}

fn length_in(family: Family) -> Route
    ensures { result ≡ spec.length_in family }
{
    match family {
        Family::Integers => Route::Itself,
        _ => Route::BuiltIn(family),
    }
}

fn length_route(heap: &Heap, plain: bool, args: &[Value]) -> Route
    ensures { result ≡ spec.length_route heap.now plain args.now }
{
    match args {
        [value] if plain => length_in(value_family(heap, value)),
        _ => Route::Itself,
    }
}

fn is_text_native(name: &str) -> bool
    ensures { result ≡ spec.is_text_native name.now }
{
    name == "ord" || name == "chr" || name == "_nu_quote" || name == "_nu_text"
}

fn is_class_native(name: &str) -> bool
    ensures { result ≡ spec.is_class_native name.now }
{
    name == "isinstance"
        || name == "issubclass"
        || name == "callable"
        || name == "setattr"
        || name == "_nu_kind"
        || name == "_nu_special"
        || name == "_nu_args"
}

fn family_route(name: &str) -> Route
    ensures { result ≡ spec.family_route name.now }
{
    if is_text_native(name) {
        Route::BuiltIn(Family::Texts)
    } else if is_class_native(name) {
        Route::BuiltIn(Family::Classes)
    } else if name == "_nu_order" {
        Route::BuiltIn(Family::Sequences)
    } else {
        Route::Itself
    }
}

fn native_route(heap: &Heap, name: &str, plain: bool, args: &[Value]) -> Route
    ensures { result ≡ spec.native_route heap.now name.now plain args.now }
{
    if name == "len" {
        length_route(heap, plain, args)
    } else if name == "_nu_next" {
        by_operation(Op::Next, plain, args)
    } else if name == "_nu_iter" {
        by_operation(Op::Iter, plain, args)
    } else if name == "_nu_getattr" {
        attribute_route(plain, args)
    } else if name == "_nu_exc" {
        by_operation(Op::Exc, plain, args)
    } else {
        family_route(name)
    }
}

fn method_route(object: Option<&Object>) -> Route
    ensures { result ≡ spec.method_route (option_copied object.entry) }
{
    match object {
        Some(Object::List(_) | Object::Tuple(_)) => Route::BuiltIn(Family::Sequences),
        Some(Object::Dict(_)) => Route::BuiltIn(Family::Dicts),
        Some(Object::Generator { .. }) => Route::BuiltIn(Family::Classes),
        _ => Route::Itself,
    }
}

fn builtin_route(heap: &Heap, name: &str, receiver: &Value, plain: bool, args: &[Value]) -> Route
    ensures { result ≡ spec.builtin_route heap.now name.now receiver.now plain args.now }
{
    match receiver {
        Value::Unset => native_route(heap, name, plain, args),
        Value::Str(_) => Route::BuiltIn(Family::Texts),
        _ => method_route(object_of(heap, receiver)),
    }
}

fn class_route(class: u64, plain: bool, args: &[Value]) -> Route
    ensures { result ≡ spec.class_route class plain args.now }
{
    if class == 2 {
        by_operation(Op::Truth, plain, args)
    } else if class == 3 {
        Route::BuiltIn(Family::Texts)
    } else if class == 11 {
        Route::BuiltIn(Family::Classes)
    } else {
        Route::Itself
    }
}

/// What does the work of a call of a value.
pub fn value_route(heap: &Heap, function: &Value, plain: bool, args: &[Value]) -> Route
    ensures { result ≡ spec.value_route heap.now function.now plain args.now }
{
    let Value::Obj(number) = function else {
        return Route::Itself;
    };
    match heap.get(*number) {
        Some(Object::Builtin { name, receiver }) => builtin_route(
            heap,
            name.as_str(),
            receiver,
            plain,
            args,
        ),
        Some(Object::Class { native: true, .. }) => class_route(*number, plain, args),
        _ => Route::Itself,
    }
}
