//! The kinds of values by name, and the exceptions that operations raise.

ghost use Rattle.std.specs.Prelude.{◌≡◌, ◌++◌, IfOk, codes, slice_get};
ghost use Rattle.op_rules.specs.Access as access;
ghost use Rattle.op_rules.specs.Kinds as spec;

use nu_text::RcStr;
use nu_value::{Heap, Items, Object, Value};
use op_forms::OpEnd;
use std::alloc::{AllocError, Global};

/// The name of a value's kind: that of its class.
pub fn kind_name<'a>(heap: &'a Heap, value: &Value) -> &'a str
    ensures { result.now ≡ spec.kind_name heap.now value.now }
{
    match value {
        Value::Unset => "object",
        Value::None => "NoneType",
        Value::Bool(_) => "bool",
        Value::Int(_) => "int",
        Value::Str(_) => "str",
        Value::Obj(number) => match heap.get(*number) {
            None => "object",
            Some(Object::Tuple(_)) => "tuple",
            Some(Object::List(_)) => "list",
            Some(Object::Dict(_)) => "dict",
            Some(Object::Range { .. }) => "range",
            Some(Object::Function { .. }) => "function",
            Some(Object::Method { .. }) => "method",
            Some(Object::Class { .. }) => "type",
            Some(Object::Instance { class, .. }) => class_name(heap, *class),
            Some(Object::Generator { .. }) => "generator",
            Some(Object::Iterator { .. }) => "iterator",
            Some(Object::View { .. }) => "view",
            Some(Object::Cell(_)) => "cell",
            Some(Object::Space(_)) => "space",
            Some(Object::Exception { class, .. }) => class_name(heap, *class),
            Some(Object::Builtin { .. }) => "builtin",
            Some(Object::Trace(_)) => "traceback",
        },
    }
}

/// The name of a class.
pub fn class_name(heap: &Heap, class: u64) -> &str
    ensures { result.now ≡ spec.class_name (slice_get heap.now class) }
{
    match heap.get(class) {
        Some(Object::Class { name, .. }) => name.as_str(),
        _ => "object",
    }
}

/// An exception of the class of this number, with a text.
pub fn raised(alloc: Global, class: u64, text: &str) -> Result<OpEnd, AllocError>
    ensures { IfOk result (λ e. e ≡ spec.raised class text.now) }
{
    let mut items = Items::new(alloc);
    items.push(Value::Str(RcStr::from_str(alloc, text)?))?;
    Ok(OpEnd::Raise(class, items))
}

/// The error of two operands that have no result with this sign.
pub fn no_operands(
    alloc: Global,
    sign: &str,
    heap: &Heap,
    a: &Value,
    b: &Value,
) -> Result<OpEnd, AllocError>
    ensures { IfOk result (λ e. e ≡ spec.no_operands sign.now heap.now a.now b.now) }
{
    let mut text = String::from_str(alloc, "unsupported operand type(s) for ")?;
    text.push_str(sign)?;
    text.push_str(": '")?;
    text.push_str(kind_name(heap, a))?;
    text.push_str("' and '")?;
    text.push_str(kind_name(heap, b))?;
    text.push_str("'")?;
    raised(alloc, 35, text.as_str())
}

/// The error of an operand that has no result with this sign.
pub fn no_operand(alloc: Global, sign: &str, heap: &Heap, a: &Value) -> Result<OpEnd, AllocError>
    ensures { IfOk result (λ e. e ≡ spec.no_operand sign.now heap.now a.now) }
{
    let mut text = String::from_str(alloc, "bad operand type for unary ")?;
    text.push_str(sign)?;
    text.push_str(": '")?;
    text.push_str(kind_name(heap, a))?;
    text.push_str("'")?;
    raised(alloc, 35, text.as_str())
}

/// The error of two operands that have no order.
pub fn no_order(
    alloc: Global,
    sign: &str,
    heap: &Heap,
    a: &Value,
    b: &Value,
) -> Result<OpEnd, AllocError>
    ensures { IfOk result (λ e. e ≡ spec.no_order sign.now heap.now a.now b.now) }
{
    let mut text = String::from_str(alloc, "'")?;
    text.push_str(sign)?;
    text.push_str("' not supported between instances of '")?;
    text.push_str(kind_name(heap, a))?;
    text.push_str("' and '")?;
    text.push_str(kind_name(heap, b))?;
    text.push_str("'")?;
    raised(alloc, 35, text.as_str())
}

// The error of a value: its kind behind a quote, and what is said of it.
fn kind_error(alloc: Global, heap: &Heap, value: &Value, behind: &str) -> Result<OpEnd, AllocError>
    ensures { IfOk result (λ e. e ≡ spec.type_error (codes "'" ++ spec.kind_name heap.now value.now ++ behind.now)) }
{
    let mut text = String::from_str(alloc, "'")?;
    text.push_str(kind_name(heap, value))?;
    text.push_str(behind)?;
    raised(alloc, 35, text.as_str())
}

/// The error of a value without items.
pub fn not_subscriptable(alloc: Global, heap: &Heap, value: &Value) -> Result<OpEnd, AllocError>
    ensures { IfOk result (λ e. e ≡ access.not_subscriptable heap.now value.now) }
{
    kind_error(alloc, heap, value, "' object is not subscriptable")
}

/// The error of a value whose items don't change.
pub fn no_item_changes(alloc: Global, heap: &Heap, value: &Value) -> Result<OpEnd, AllocError>
    ensures { IfOk result (λ e. e ≡ access.no_item_changes heap.now value.now) }
{
    kind_error(alloc, heap, value, "' object does not support item changes")
}

/// The error of a value that is no iterator.
pub fn no_iterator(alloc: Global, heap: &Heap, value: &Value) -> Result<OpEnd, AllocError>
    ensures { IfOk result (λ e. e ≡ access.no_iterator heap.now value.now) }
{
    kind_error(alloc, heap, value, "' object is not an iterator")
}
