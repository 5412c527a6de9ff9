//! Calls of natives on classes, instances and exceptions, and of the methods of generators.

ghost use Rattle.std.specs.Prelude.{◌≡◌, IfOk, slice_get};
ghost use Rattle.nu_value.specs.Same.{object_of};
ghost use Rattle.op_forms.specs.Answers as answers;
ghost use Rattle.op_forms.specs.Doing.{Did};
ghost use Rattle.op_rules.specs.ClassCalls as spec;
ghost use Rattle.op_rules.specs.Classes as rows;
ghost use Rattle.op_rules.specs.IntRows.{of_one, of_two};
ghost use Rattle.op_rules.specs.Specials as specials;
ghost use Rattle.op_rules.specs.Subclasses as subclasses;
ghost use Rattle.rt_class.specs.Outcomes.{doing_of};

use crate::attributes::tuple_of;
use crate::changes::setattr_row;
use crate::items::special_length;
use crate::lookups::{class_of, found_in, is_under_value, kind_of};
use crate::outcome::{Outcome, carry_out};
use crate::specials::{any_special, two_items};
use nu_run::StopKind;
use nu_text::RcStr;
use nu_value::{Heap, Names, Object, Value, object_of};
use op_forms::{After, How, OpEnd};
use op_rules::{Special, ask, raised};
use std::alloc::{AllocError, Global};

const TYPE_ERROR: u64 = 35;

fn unbuilt() -> OpEnd
    ensures { result ≡ answers.unbuilt }
{
    OpEnd::Stop(StopKind::Unbuilt)
}

fn no_classes(alloc: Global) -> Result<OpEnd, AllocError>
    ensures { IfOk result (λ e. e ≡ subclasses.no_classes) }
{
    raised(
        alloc,
        TYPE_ERROR,
        "arg 2 must be a class or tuple of classes",
    )
}

// Classes that are tried in order.
fn any_of(alloc: Global, heap: &Heap, own: u64, values: &[Value]) -> Result<OpEnd, AllocError>
    ensures { IfOk result (λ e. e ≡ subclasses.any_of heap.now own values.now) }
{
    for value in values {
        match object_of(heap, value) {
            Some(Object::Class { .. }) => {
                if is_under_value(heap, own, value) {
                    return Ok(OpEnd::Give(Value::Bool(true)));
                }
            }
            Some(Object::Tuple(_)) => return Ok(OpEnd::Stop(StopKind::Unbuilt)),
            _ => return no_classes(alloc),
        }
    }
    Ok(OpEnd::Give(Value::Bool(false)))
}

/// Whether a class stands under another, or under one of a tuple.
fn class_test(alloc: Global, heap: &Heap, own: u64, classes: &Value) -> Result<OpEnd, AllocError>
    ensures { IfOk result (λ e. e ≡ subclasses.class_test heap.now own classes.now) }
{
    match object_of(heap, classes) {
        Some(Object::Tuple(items)) => any_of(alloc, heap, own, items.as_slice()),
        Some(Object::Class { .. }) => {
            Ok(OpEnd::Give(Value::Bool(is_under_value(heap, own, classes))))
        }
        _ => no_classes(alloc),
    }
}

fn isinstance(alloc: Global, heap: &Heap, args: &[Value]) -> Result<OpEnd, AllocError>
    ensures { IfOk result (λ e. e ≡ of_two (spec.isinstance_row heap.now) args.now) }
{
    match args {
        [value, classes] => class_test(alloc, heap, class_of(heap, value), classes),
        _ => Ok(unbuilt()),
    }
}

fn issubclass_on(
    alloc: Global,
    heap: &Heap,
    class: &Value,
    classes: &Value,
) -> Result<OpEnd, AllocError>
    ensures { IfOk result (λ e. e ≡ spec.issubclass_row heap.now class.now classes.now) }
{
    if let Value::Obj(number) = class {
        if let Some(Object::Class { .. }) = heap.get(*number) {
            return class_test(alloc, heap, *number, classes);
        }
    }
    raised(alloc, TYPE_ERROR, "bad argument for issubclass")
}

fn issubclass(alloc: Global, heap: &Heap, args: &[Value]) -> Result<OpEnd, AllocError>
    ensures { IfOk result (λ e. e ≡ of_two (spec.issubclass_row heap.now) args.now) }
{
    match args {
        [class, classes] => issubclass_on(alloc, heap, class, classes),
        _ => Ok(unbuilt()),
    }
}

fn is_callable(heap: &Heap, value: &Value) -> bool
    ensures { result ≡ spec.is_callable heap.now (object_of heap.now value.now) }
{
    match object_of(heap, value) {
        Some(Object::Instance { class, .. }) => found_in(heap, *class, "__call__").is_some(),
        Some(
            Object::Function { .. }
            | Object::Method { .. }
            | Object::Class { .. }
            | Object::Builtin { .. },
        ) => true,
        _ => false,
    }
}

fn callable(heap: &Heap, args: &[Value]) -> OpEnd
    ensures { result ≡ of_one (spec.callable_row heap.now) args.now }
{
    match args {
        [value] => OpEnd::Give(Value::Bool(is_callable(heap, value))),
        _ => unbuilt(),
    }
}

fn type_of(heap: &Heap, args: &[Value]) -> OpEnd
    ensures { result ≡ of_one (spec.type_row heap.now) args.now }
{
    match args {
        [value] => OpEnd::Give(Value::Obj(class_of(heap, value))),
        _ => unbuilt(),
    }
}

fn length(alloc: Global, heap: &Heap, args: &[Value]) -> Result<OpEnd, AllocError>
    ensures { IfOk result (λ e. e ≡ of_one (specials.special_length heap.now) args.now) }
{
    match args {
        [value] => special_length(alloc, heap, value),
        _ => Ok(unbuilt()),
    }
}

fn kind(alloc: Global, heap: &Heap, args: &[Value]) -> Result<OpEnd, AllocError>
    ensures { IfOk result (λ e. e ≡ of_one (spec.kind_row heap.now) args.now) }
{
    match args {
        [value] => Ok(OpEnd::Give(Value::Str(RcStr::from_str(alloc, kind_of(heap, value))?))),
        _ => Ok(unbuilt()),
    }
}

// Natives that say what a value is.
fn asking_call(alloc: Global, heap: &Heap, name: &str, args: &[Value]) -> Result<OpEnd, AllocError>
    ensures { IfOk result (λ e. e ≡ spec.asking_call heap.now name.now args.now) }
{
    if name == "isinstance" {
        isinstance(alloc, heap, args)
    } else if name == "issubclass" {
        issubclass(alloc, heap, args)
    } else if name == "callable" {
        Ok(callable(heap, args))
    } else if name == "type" {
        Ok(type_of(heap, args))
    } else if name == "len" {
        length(alloc, heap, args)
    } else if name == "_nu_kind" {
        kind(alloc, heap, args)
    } else {
        Ok(unbuilt())
    }
}

fn setattr_call(
    alloc: Global,
    heap: &mut Heap,
    object: &Value,
    name: &Value,
    value: &Value,
) -> Result<OpEnd, AllocError>
    ensures { IfOk result (λ e. Did (spec.setattr_call heap.old object.now name.now value.now) heap.old heap.new e) }
{
    match name {
        Value::Str(name) => setattr_row(heap, object, name, value),
        _ => raised(alloc, TYPE_ERROR, "bad argument for setattr"),
    }
}

fn setattr(alloc: Global, heap: &mut Heap, args: &[Value]) -> Result<OpEnd, AllocError>
    ensures { IfOk result (λ e. Did (spec.with_three (spec.setattr_call heap.old) args.now) heap.old heap.new e) }
{
    match args {
        [object, name, value] => setattr_call(alloc, heap, object, name, value),
        _ => Ok(unbuilt()),
    }
}

fn init_or_none(heap: &Heap, value: &Value, name: &RcStr) -> Result<Outcome, AllocError>
    ensures { IfOk result (λ o. doing_of heap.now o ≡ spec.init_or_none heap.now value.now (object_of heap.now value.now) name.now) }
{
    match object_of(heap, value) {
        Some(Object::Exception { .. }) => {
            if name.as_str() == "__init__" {
                return Ok(Outcome::Makes(Object::Builtin {
                    name: name.share()?,
                    receiver: value.copy()?,
                }));
            }
            Ok(Outcome::Ends(OpEnd::Give(Value::None)))
        }
        _ => Ok(Outcome::Ends(OpEnd::Give(Value::None))),
    }
}

fn special_method(heap: &Heap, value: &Value, name: &RcStr) -> Result<Outcome, AllocError>
    ensures { IfOk result (λ o. doing_of heap.now o ≡ spec.special_method heap.now value.now name.now) }
{
    match any_special(heap, value, name.as_str()) {
        Special::Absent => init_or_none(heap, value, name),
        Special::Function(function) => Ok(Outcome::Makes(Object::Method {
            receiver: value.copy()?,
            function,
        })),
        Special::Other => Ok(Outcome::Ends(unbuilt())),
    }
}

fn special(heap: &Heap, args: &[Value]) -> Result<Outcome, AllocError>
    ensures { IfOk result (λ o. doing_of heap.now o ≡ spec.with_two (spec.special_call heap.now) args.now) }
{
    match args {
        [value, name] => match name {
            Value::Str(name) => special_method(heap, value, name),
            _ => Ok(Outcome::Ends(unbuilt())),
        },
        _ => Ok(Outcome::Ends(unbuilt())),
    }
}

fn args_of(alloc: Global, heap: &Heap, value: &Value) -> Result<Outcome, AllocError>
    ensures { IfOk result (λ o. doing_of heap.now o ≡ spec.args_on heap.now (object_of heap.now value.now)) }
{
    match object_of(heap, value) {
        Some(Object::Exception { args, .. }) => tuple_of(alloc, heap, args.as_slice()),
        _ => Ok(Outcome::Ends(unbuilt())),
    }
}

fn args_call(alloc: Global, heap: &Heap, args: &[Value]) -> Result<Outcome, AllocError>
    ensures { IfOk result (λ o. doing_of heap.now o ≡ spec.with_one (λ e. spec.args_on heap.now (object_of heap.now e)) args.now) }
{
    match args {
        [value] => args_of(alloc, heap, value),
        _ => Ok(Outcome::Ends(unbuilt())),
    }
}

fn native_call(
    alloc: Global,
    heap: &mut Heap,
    name: &str,
    args: &[Value],
) -> Result<OpEnd, AllocError>
    ensures { IfOk result (λ e. Did (spec.native_call heap.old name.now args.now) heap.old heap.new e) }
{
    if name == "setattr" {
        setattr(alloc, heap, args)
    } else if name == "_nu_special" {
        let outcome = special(heap, args)?;
        carry_out(heap, outcome)
    } else if name == "_nu_args" {
        let outcome = args_call(alloc, heap, args)?;
        carry_out(heap, outcome)
    } else {
        asking_call(alloc, heap, name, args)
    }
}

fn send(number: u64, args: &[Value]) -> Result<OpEnd, AllocError>
    ensures { IfOk result (λ e. e ≡ of_one (spec.send_call number) args.now) }
{
    match args {
        [value] => Ok(OpEnd::Resume(number, How::Send(value.copy()?))),
        _ => Ok(unbuilt()),
    }
}

fn throw(alloc: Global, heap: &Heap, number: u64, args: &[Value]) -> Result<OpEnd, AllocError>
    ensures { IfOk result (λ e. e ≡ of_one (spec.throw_call heap.now number) args.now) }
{
    match args {
        [value] => {
            let items = two_items(alloc, &Value::Obj(number), value)?;
            Ok(ask(heap, "_nu_throw", items, Names::new(alloc), After::Plain))
        }
        _ => Ok(unbuilt()),
    }
}

fn close(number: u64, args: &[Value]) -> OpEnd
    ensures { result ≡ spec.close_call number args.now }
{
    match args {
        [] => OpEnd::Resume(number, How::Close),
        _ => unbuilt(),
    }
}

fn generator_call(
    alloc: Global,
    heap: &Heap,
    number: u64,
    name: &str,
    args: &[Value],
) -> Result<OpEnd, AllocError>
    ensures { IfOk result (λ e. e ≡ spec.generator_call heap.now number name.now args.now) }
{
    if name == "send" {
        send(number, args)
    } else if name == "close" {
        Ok(close(number, args))
    } else if name == "throw" {
        throw(alloc, heap, number, args)
    } else {
        Ok(unbuilt())
    }
}

fn method_on(
    alloc: Global,
    heap: &Heap,
    number: u64,
    name: &str,
    args: &[Value],
) -> Result<OpEnd, AllocError>
    ensures { IfOk result (λ e. e ≡ spec.method_on heap.now number (slice_get heap.now number) name.now args.now) }
{
    match heap.get(number) {
        Some(Object::Generator { .. }) => generator_call(alloc, heap, number, name, args),
        _ => Ok(unbuilt()),
    }
}

fn method_call(
    alloc: Global,
    heap: &mut Heap,
    name: &str,
    receiver: &Value,
    args: &[Value],
) -> Result<OpEnd, AllocError>
    ensures { IfOk result (λ e. Did (spec.method_call heap.old name.now receiver.now args.now) heap.old heap.new e) }
{
    match receiver {
        Value::Unset => native_call(alloc, heap, name, args),
        Value::Obj(number) => method_on(alloc, heap, *number, name, args),
        _ => Ok(unbuilt()),
    }
}

// No keyword is taken.
fn plain_call(
    alloc: Global,
    heap: &mut Heap,
    name: &str,
    receiver: &Value,
    args: &[Value],
    names: &[(RcStr, Value)],
) -> Result<OpEnd, AllocError>
    ensures { IfOk result (λ e. Did (rows.class_call heap.old name.now receiver.now args.now names.now) heap.old heap.new e) }
{
    match names {
        [] => method_call(alloc, heap, name, receiver, args),
        _ => Ok(unbuilt()),
    }
}

/// Calls the built-in of this name, with its receiver or none: a native on classes, instances or exceptions, or a method of a
/// generator (library reference, "Built-in Functions"; reference, section 6.2.9.1).
pub fn call_class(
    alloc: Global,
    heap: &mut Heap,
    name: &str,
    receiver: &Value,
    args: &[Value],
    names: &Names,
) -> Result<OpEnd, AllocError>
    ensures { IfOk result (λ e. Did (rows.class_call heap.old name.now receiver.now args.now names.now) heap.old heap.new e) }
{
    plain_call(alloc, heap, name, receiver, args, names.as_slice())
}
