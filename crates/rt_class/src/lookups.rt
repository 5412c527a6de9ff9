//! Classes from one outward, and the class of a value.

ghost use Rattle.std.specs.Prelude.{◌≡◌, length, option_copied, slice_get, Some};
ghost use Rattle.nu_value.specs.Classes as classes;
ghost use Rattle.nu_value.specs.Names.{value_at};
ghost use Rattle.nu_value.specs.Same.{object_of};
ghost use Rattle.op_rules.specs.ClassCalls as calls;
ghost use Rattle.op_rules.specs.Subclasses as spec;

use nu_value::{Heap, Object, Value};

const BASE_EXCEPTION: u64 = 19;

fn own_value<'a>(heap: &'a Heap, class: u64, name: &str) -> Option<&'a Value>
    ensures { option_copied result ≡ value_at (classes.own_of (slice_get heap.now class)) name.now }
{
    match heap.get(class) {
        Some(Object::Class { own, .. }) => own.get(name),
        _ => None,
    }
}

fn base_of(heap: &Heap, class: u64) -> Option<u64>
    ensures { result ≡ classes.base_of (slice_get heap.now class) }
{
    match heap.get(class) {
        Some(Object::Class { base, .. }) => *base,
        _ => None,
    }
}

// What a name is on the first class from one outward that has it.
#[tactic(auto, using(crate::proofs::Chains::named_step, crate::proofs::Chains::named_end, crate::proofs::Chains::named_past))]
fn found_from<'a>(heap: &'a Heap, class: Option<u64>, name: &str) -> Option<&'a Value>
    ensures { option_copied result ≡ classes.first_named heap.now (classes.outward (length heap.now) heap.now class) name.now }
{
    let mut room = heap.len();
    let mut next = class;
    while 0 < room {
        room -= 1;
        let number = next?;
        if let Some(value) = own_value(heap, number, name) {
            return Some(value);
        }
        next = base_of(heap, number);
    }
    None
}

/// What a name is on a class: on itself, or on the nearest class outward that has it (reference, section 3.3.2).
pub fn found_in<'a>(heap: &'a Heap, class: u64, name: &str) -> Option<&'a Value>
    ensures { option_copied result ≡ classes.found_in heap.now class name.now }
{
    match own_value(heap, class, name) {
        Some(value) => Some(value),
        None => found_from(heap, base_of(heap, class), name),
    }
}

// Whether a class is among those from one outward.
#[tactic(auto, using(crate::proofs::Chains::among_here, crate::proofs::Chains::among_next, crate::proofs::Chains::among_end, crate::proofs::Chains::among_past))]
fn is_outward(heap: &Heap, from: Option<u64>, class: u64) -> bool
    ensures { result ≡ classes.is_among (classes.outward (length heap.now) heap.now from) class }
{
    let mut room = heap.len();
    let mut next = from;
    while 0 < room {
        room -= 1;
        let Some(number) = next else {
            return false;
        };
        if number == class {
            return true;
        }
        next = base_of(heap, number);
    }
    false
}

/// Whether a class is another one, or stands under it.
pub fn is_under(heap: &Heap, own: u64, class: u64) -> bool
    ensures { result ≡ classes.is_under heap.now (Some own) class }
{
    own == class || is_outward(heap, base_of(heap, own), class)
}

/// Whether a class is the one that a value is, or stands under it.
pub fn is_under_value(heap: &Heap, own: u64, value: &Value) -> bool
    ensures { result ≡ spec.is_under_value heap.now own value.now }
{
    match value {
        Value::Obj(number) => is_under(heap, own, *number),
        _ => false,
    }
}

/// Whether a value is a class under `BaseException`.
pub fn is_exception_class(heap: &Heap, value: &Value) -> bool
    ensures { result ≡ spec.is_exception_class heap.now value.now }
{
    match value {
        Value::Obj(number) => match heap.get(*number) {
            Some(Object::Class { .. }) => is_under(heap, *number, BASE_EXCEPTION),
            _ => false,
        },
        _ => false,
    }
}

/// The number of the class of a value (reference, section 3.1).
pub fn class_of(heap: &Heap, value: &Value) -> u64
    ensures { result ≡ spec.class_of heap.now value.now }
{
    match value {
        Value::Unset => 0,
        Value::None => 1,
        Value::Bool(_) => 2,
        Value::Int(_) => 3,
        Value::Str(_) => 4,
        Value::Obj(number) => match heap.get(*number) {
            None => 0,
            Some(Object::Tuple(_)) => 5,
            Some(Object::List(_)) => 6,
            Some(Object::Dict(_)) => 7,
            Some(Object::Range { .. }) => 8,
            Some(Object::Function { .. }) => 9,
            Some(Object::Method { .. }) => 10,
            Some(Object::Class { .. }) => 11,
            Some(Object::Instance { class, .. }) => *class,
            Some(Object::Generator { .. }) => 12,
            Some(Object::Iterator { .. }) => 13,
            Some(Object::View { .. }) => 14,
            Some(Object::Builtin { .. }) => 15,
            Some(Object::Trace(_)) => 16,
            Some(Object::Cell(_)) => 17,
            Some(Object::Space(_)) => 18,
            Some(Object::Exception { class, .. }) => *class,
        },
    }
}

/// The kind of a value in one word.
pub fn kind_of(heap: &Heap, value: &Value) -> &'static str
    ensures { result.now ≡ calls.kind_of heap.now value.now }
{
    match value {
        Value::Unset | Value::None => "none",
        Value::Bool(_) => "bool",
        Value::Int(_) => "int",
        Value::Str(_) => "str",
        Value::Obj(number) => match heap.get(*number) {
            None => "none",
            Some(Object::Tuple(_)) => "tuple",
            Some(Object::List(_)) => "list",
            Some(Object::Dict(_)) => "dict",
            Some(Object::Range { .. }) => "range",
            Some(Object::Function { .. }) => "function",
            Some(Object::Method { .. }) => "method",
            Some(Object::Class { .. }) => "class",
            Some(Object::Instance { .. }) => "instance",
            Some(Object::Generator { .. }) => "generator",
            Some(Object::Iterator { .. }) => "iterator",
            Some(Object::View { .. }) => "view",
            Some(Object::Cell(_)) => "cell",
            Some(Object::Space(_)) => "space",
            Some(Object::Exception { .. }) => "exception",
            Some(Object::Builtin { .. }) => "builtin",
            Some(Object::Trace(_)) => "trace",
        },
    }
}
