//! Attributes that are looked up.

ghost use Rattle.std.specs.Prelude.{◌≡◌, IfOk, Some, slice_get};
ghost use Rattle.nu_text.specs.Names.{is_among};
ghost use Rattle.nu_value.specs.declared.value.Value.TheVariants as value_of;
ghost use Rattle.nu_value.specs.Classes as classes;
ghost use Rattle.nu_value.specs.Same.{object_of};
ghost use Rattle.op_forms.specs.Doing.{ends, makes};
ghost use Rattle.nu_value.specs.declared.object.Object.TheVariants as object;
ghost use Rattle.op_rules.specs.Attributes as spec;
ghost use Rattle.rt_class.specs.Outcomes.{doing_of};

use crate::lookups::{class_of, found_in, is_under};
use crate::outcome::Outcome;
use crate::specials::{any_special, kind_error};
use nu_run::StopKind;
use nu_text::RcStr;
use nu_value::{Codes, Heap, Items, Object, Value, object_of};
use op_forms::OpEnd;
use op_rules::{
    Special, is_dict_method, is_generator_method, is_list_method, is_text_method, is_tuple_method,
    is_unwritten, kind_name, raised,
};
use std::alloc::{AllocError, Global};

const ATTRIBUTE_ERROR: u64 = 25;

const BASE_EXCEPTION: u64 = 19;

const STOP_ITERATION: u64 = 34;

/// The error of a value without the attribute.
pub fn no_attribute(
    alloc: Global,
    heap: &Heap,
    value: &Value,
    name: &str,
) -> Result<OpEnd, AllocError>
    ensures { IfOk result (λ e. e ≡ spec.no_attribute heap.now value.now name.now) }
{
    let mut text = String::from_str(alloc, "'")?;
    text.push_str(kind_name(heap, value))?;
    text.push_str("' object has no attribute '")?;
    text.push_str(name)?;
    text.push_str("'")?;
    raised(alloc, ATTRIBUTE_ERROR, text.as_str())
}

fn absent(
    alloc: Global,
    find: bool,
    heap: &Heap,
    number: u64,
    name: &str,
) -> Result<OpEnd, AllocError>
    ensures { IfOk result (λ e. e ≡ spec.absent find heap.now (value_of.Obj number) name.now) }
{
    if find {
        Ok(OpEnd::Give(Value::None))
    } else {
        no_attribute(alloc, heap, &Value::Obj(number), name)
    }
}

fn unknown(find: bool) -> OpEnd
    ensures { result ≡ spec.unknown find }
{
    if find {
        OpEnd::Give(Value::None)
    } else {
        OpEnd::Stop(StopKind::Unbuilt)
    }
}

fn is_open(heap: &Heap, value: &Value) -> bool
    ensures { result ≡ spec.is_open (object_of heap.now value.now) }
{
    match object_of(heap, value) {
        Some(Object::Instance { .. } | Object::Exception { .. }) => true,
        Some(Object::Class { native, .. }) => !*native,
        _ => false,
    }
}

fn unwritten(find: bool, heap: &Heap, value: &Value) -> OpEnd
    ensures { result ≡ spec.unwritten find (object_of heap.now value.now) }
{
    if find && !is_open(heap, value) {
        OpEnd::Give(Value::None)
    } else {
        OpEnd::Stop(StopKind::Unbuilt)
    }
}

// The same values in a list of their own.
fn copied(alloc: Global, values: &[Value]) -> Result<Items, AllocError>
    ensures { IfOk result (λ items. items ≡ values.now) }
{
    let mut items = Items::new(alloc);
    for value in values {
        items.push(value.copy()?)?;
    }
    Ok(items)
}

/// A new tuple of these values.
pub fn tuple_of(alloc: Global, _heap: &Heap, values: &[Value]) -> Result<Outcome, AllocError>
    ensures { IfOk result (λ o. doing_of _heap.now o ≡ makes _heap.now (object.Tuple values.now)) }
{
    Ok(Outcome::Makes(Object::Tuple(copied(alloc, values)?)))
}

fn first_or_none(values: &[Value]) -> Result<Value, AllocError>
    ensures { IfOk result (λ v. v ≡ spec.first_or_none values.now) }
{
    match values {
        [] => Ok(Value::None),
        [value, ..] => value.copy(),
    }
}

// What was found on the class of an object.
fn method_or(heap: &Heap, number: u64, found: &Value) -> Result<Outcome, AllocError>
    ensures { IfOk result (λ o. doing_of heap.now o ≡ spec.method_or heap.now (value_of.Obj number) found.now (object_of heap.now found.now)) }
{
    match found {
        Value::Obj(function) => match heap.get(*function) {
            Some(Object::Function { .. }) => {
                let receiver = Value::Obj(number);
                Ok(Outcome::Makes(Object::Method {
                    receiver,
                    function: *function,
                }))
            }
            _ => Ok(Outcome::Ends(OpEnd::Give(Value::Obj(*function)))),
        },
        _ => Ok(Outcome::Ends(OpEnd::Give(found.copy()?))),
    }
}

// Where an instance has no such field.
fn instance_attribute(
    alloc: Global,
    find: bool,
    heap: &Heap,
    number: u64,
    class: u64,
    name: &str,
) -> Result<Outcome, AllocError>
    ensures { IfOk result (λ o. doing_of heap.now o ≡ spec.bound_or heap.now (value_of.Obj number) (classes.found_in heap.now class name.now) (ends (spec.absent find heap.now (value_of.Obj number) name.now))) }
{
    match found_in(heap, class, name) {
        Some(found) => method_or(heap, number, found),
        None => Ok(Outcome::Ends(absent(alloc, find, heap, number, name)?)),
    }
}

// Where an exception has no such field, and its class no such name.
fn exception_own(
    alloc: Global,
    find: bool,
    heap: &Heap,
    number: u64,
    class: u64,
    args: &[Value],
    name: &RcStr,
) -> Result<Outcome, AllocError>
    ensures { IfOk result (λ o. doing_of heap.now o ≡ spec.exception_attribute find heap.now number name.now class args.now) }
{
    if name.as_str() == "args" {
        return tuple_of(alloc, heap, args);
    }
    if name.as_str() == "value" && is_under(heap, class, STOP_ITERATION) {
        return Ok(Outcome::Ends(OpEnd::Give(first_or_none(args)?)));
    }
    if name.as_str() == "__init__" {
        return Ok(Outcome::Makes(Object::Builtin {
            name: name.share()?,
            receiver: Value::Obj(number),
        }));
    }
    Ok(Outcome::Ends(absent(alloc, find, heap, number, name.as_str())?))
}

// Where an exception has no such field.
fn exception_attribute(
    alloc: Global,
    find: bool,
    heap: &Heap,
    number: u64,
    class: u64,
    args: &[Value],
    name: &RcStr,
) -> Result<Outcome, AllocError>
    ensures { IfOk result (λ o. doing_of heap.now o ≡ spec.bound_or heap.now (value_of.Obj number) (classes.found_in heap.now class name.now) (spec.exception_attribute find heap.now number name.now class args.now)) }
{
    match found_in(heap, class, name.as_str()) {
        Some(found) => method_or(heap, number, found),
        None => exception_own(alloc, find, heap, number, class, args, name),
    }
}

// Where neither a class nor one outward has the name.
fn class_own(
    alloc: Global,
    find: bool,
    heap: &Heap,
    number: u64,
    native: bool,
    name: &RcStr,
) -> Result<Outcome, AllocError>
    ensures { IfOk result (λ o. doing_of heap.now o ≡ spec.class_attribute find heap.now number name.now native) }
{
    if name.as_str() == "__init__" && is_under(heap, number, BASE_EXCEPTION) {
        return Ok(Outcome::Makes(Object::Builtin {
            name: name.share()?,
            receiver: Value::Unset,
        }));
    }
    if native {
        return Ok(Outcome::Ends(unknown(find)));
    }
    Ok(Outcome::Ends(absent(alloc, find, heap, number, name.as_str())?))
}

fn class_attribute(
    alloc: Global,
    find: bool,
    heap: &Heap,
    number: u64,
    native: bool,
    name: &RcStr,
) -> Result<Outcome, AllocError>
    ensures { IfOk result (λ o. doing_of heap.now o ≡ spec.gives_or (classes.found_in heap.now number name.now) (spec.class_attribute find heap.now number name.now native)) }
{
    match found_in(heap, number, name.as_str()) {
        Some(found) => Ok(Outcome::Ends(OpEnd::Give(found.copy()?))),
        None => class_own(alloc, find, heap, number, native, name),
    }
}

fn scope_of(codes: &Codes, code: u32) -> Result<OpEnd, AllocError>
    ensures { IfOk result (λ e. e ≡ spec.scope_of (slice_get codes.now code)) }
{
    match codes.get(code) {
        Some(header) => Ok(OpEnd::Give(Value::Str(header.scope.share()?))),
        None => Ok(OpEnd::Stop(StopKind::Unbuilt)),
    }
}

fn has_method(heap: &Heap, number: u64, name: &str) -> bool
    ensures { result ≡ spec.has_method (slice_get heap.now number) name.now }
{
    match heap.get(number) {
        Some(Object::List(_)) => is_list_method(name),
        Some(Object::Tuple(_)) => is_tuple_method(name),
        Some(Object::Dict(_)) => is_dict_method(name),
        Some(Object::Generator { .. }) => is_generator_method(name),
        _ => false,
    }
}

// What an object without fields has.
fn plain_attribute(
    find: bool,
    heap: &Heap,
    number: u64,
    name: &RcStr,
) -> Result<Outcome, AllocError>
    ensures { IfOk result (λ o. doing_of heap.now o ≡ spec.plain_attribute find heap.now number name.now (slice_get heap.now number)) }
{
    if has_method(heap, number, name.as_str()) {
        return Ok(Outcome::Makes(Object::Builtin {
            name: name.share()?,
            receiver: Value::Obj(number),
        }));
    }
    Ok(Outcome::Ends(unknown(find)))
}

fn object_attribute(
    alloc: Global,
    find: bool,
    codes: &Codes,
    heap: &Heap,
    number: u64,
    name: &RcStr,
) -> Result<Outcome, AllocError>
    ensures { IfOk result (λ o. doing_of heap.now o ≡ spec.object_attribute find codes.now heap.now number name.now (slice_get heap.now number)) }
{
    match heap.get(number) {
        Some(Object::Instance { class, fields }) => match fields.get(name.as_str()) {
            Some(value) => Ok(Outcome::Ends(OpEnd::Give(value.copy()?))),
            None => instance_attribute(alloc, find, heap, number, *class, name.as_str()),
        },
        Some(
            Object::Exception {
                class,
                args,
                fields,
                ..
            },
        ) => match fields.get(name.as_str()) {
            Some(value) => Ok(Outcome::Ends(OpEnd::Give(value.copy()?))),
            None => exception_attribute(alloc, find, heap, number, *class, args.as_slice(), name),
        },
        Some(
            Object::Class {
                name: own,
                native,
                ..
            },
        ) => {
            if name.as_str() == "__name__" {
                return Ok(Outcome::Ends(OpEnd::Give(Value::Str(own.share()?))));
            }
            class_attribute(alloc, find, heap, number, *native, name)
        }
        Some(Object::Function { code, .. }) => {
            if name.as_str() == "__name__" {
                return Ok(Outcome::Ends(scope_of(codes, *code)?));
            }
            Ok(Outcome::Ends(unknown(find)))
        }
        _ => plain_attribute(find, heap, number, name),
    }
}

// What a text has.
fn text_attribute(
    find: bool,
    _heap: &Heap,
    value: &Value,
    name: &RcStr,
) -> Result<Outcome, AllocError>
    ensures { IfOk result (λ o. doing_of _heap.now o ≡ spec.text_attribute find _heap.now value.now name.now) }
{
    if is_text_method(name.as_str()) {
        return Ok(Outcome::Makes(Object::Builtin {
            name: name.share()?,
            receiver: value.copy()?,
        }));
    }
    Ok(Outcome::Ends(unknown(find)))
}

fn value_attribute(
    alloc: Global,
    find: bool,
    codes: &Codes,
    heap: &Heap,
    value: &Value,
    name: &RcStr,
) -> Result<Outcome, AllocError>
    ensures { IfOk result (λ o. doing_of heap.now o ≡ spec.value_attribute find codes.now heap.now value.now name.now) }
{
    match value {
        Value::Obj(number) => object_attribute(alloc, find, codes, heap, *number, name),
        Value::Str(_) => text_attribute(find, heap, value, name),
        _ => Ok(Outcome::Ends(unknown(find))),
    }
}

/// The attribute of a value, or what comes where it has none.
pub fn attribute(
    alloc: Global,
    find: bool,
    codes: &Codes,
    heap: &Heap,
    value: &Value,
    name: &RcStr,
) -> Result<Outcome, AllocError>
    ensures { IfOk result (λ o. doing_of heap.now o ≡ spec.attribute find codes.now heap.now value.now name.now) }
{
    if is_unwritten(name.as_str()) {
        return Ok(Outcome::Ends(unwritten(find, heap, value)));
    }
    if name.as_str() == "__class__" {
        return Ok(Outcome::Ends(OpEnd::Give(Value::Obj(class_of(heap, value)))));
    }
    value_attribute(alloc, find, codes, heap, value, name)
}

/// What `with` calls: a special method as a method of the value.
pub fn manager(alloc: Global, heap: &Heap, value: &Value, name: &str) -> Result<Outcome, AllocError>
    ensures { IfOk result (λ o. doing_of heap.now o ≡ spec.manager_row heap.now value.now name.now) }
{
    match any_special(heap, value, name) {
        Special::Absent => Ok(Outcome::Ends(kind_error(
            alloc,
            "'",
            heap,
            value,
            "' object does not support the context manager protocol",
        )?)),
        Special::Function(function) => Ok(Outcome::Makes(Object::Method {
            receiver: value.copy()?,
            function,
        })),
        Special::Other => Ok(Outcome::Ends(OpEnd::Stop(StopKind::Unbuilt))),
    }
}
