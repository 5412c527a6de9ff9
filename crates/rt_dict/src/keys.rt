//! The keys of values, and the errors of those that have none.

ghost use Rattle.std.specs.Prelude.{◌≡◌, ◌++◌, IfOk, length, option_copied};
ghost use Rattle.nu_value.specs.Same.{object_of};
ghost use Rattle.op_forms.specs.Fits as fits;
ghost use Rattle.op_rules.specs.Keys as spec;
ghost use Rattle.op_rules.specs.Kinds as kinds;

use nu_run::StopKind;
use nu_value::{Heap, Items, Key, KeyEnd, Object, Value, key_of};
use op_forms::OpEnd;
use op_rules::{kind_name, raised};
use std::alloc::{AllocError, Global};

const KEY_ERROR: u64 = 29;

pub const TYPE_ERROR: u64 = 35;

/// An exception with a text that has a word in its middle.
pub fn raised_of(
    alloc: Global,
    class: u64,
    front: &str,
    middle: &str,
    back: &str,
) -> Result<OpEnd, AllocError>
    ensures { IfOk result (λ e. e ≡ kinds.raised class (front.now ++ middle.now ++ back.now)) }
{
    let mut text = String::from_str(alloc, front)?;
    text.push_str(middle)?;
    text.push_str(back)?;
    raised(alloc, class, text.as_str())
}

/// The number of the first list or dict in a value, in which tuples may be looked into so deep.
#[cycle(unhashable)]
fn unhashable_at(room: u32, heap: &Heap, value: &Value) -> Option<u64>
    ensures { result ≡ spec.unhashable_at room heap.now value.now }
{
    let Value::Obj(number) = value else {
        return None;
    };
    match heap.get(*number) {
        Some(Object::List(_) | Object::Dict(_)) => Some(*number),
        Some(Object::Tuple(items)) => unhashable_in(room, heap, items),
        _ => None,
    }
}

#[cycle(unhashable)]
fn unhashable_in(room: u32, heap: &Heap, items: &Items) -> Option<u64>
    ensures { result ≡ spec.unhashable_in room heap.now items.now }
{
    if room == 0 {
        None
    } else {
        first_unhashable(room - 1, heap, items)
    }
}

#[cycle(unhashable)]
fn first_unhashable(room: u32, heap: &Heap, items: &Items) -> Option<u64>
    ensures { result ≡ spec.first_unhashable (spec.unhashable_at room heap.now) items.now }
{
    for place in 0..items.len() {
        let Some(item) = items.get(place) else {
            return None;
        };
        match unhashable_at(room, heap, item) {
            None => {}
            Some(number) => return Some(number),
        }
    }
    None
}

fn kind_of_found<'a>(heap: &'a Heap, found: Option<u64>) -> &'a str
    ensures { result.now ≡ spec.kind_of_found heap.now found }
{
    match found {
        Some(number) => kind_name(heap, &Value::Obj(number)),
        None => "object",
    }
}

fn unhashable_error(alloc: Global, heap: &Heap, value: &Value) -> Result<OpEnd, AllocError>
    ensures { IfOk result (λ e. e ≡ spec.unhashable_error heap.now value.now) }
{
    let found = unhashable_at(1000, heap, value);
    let kind = kind_of_found(heap, found);
    raised_of(alloc, TYPE_ERROR, "unhashable type: '", kind, "'")
}

fn is_in(heap: &Heap, value: &Value) -> bool
    ensures { result ≡ fits.is_in (length heap.now) value.now }
{
    match value {
        Value::Unset => false,
        Value::Obj(number) => *number < heap.len(),
        _ => true,
    }
}

/// The key of a value, or how an operation ends that needs it.
pub fn key_or_end(
    alloc: Global,
    heap: &Heap,
    value: &Value,
) -> Result<Result<Key, OpEnd>, AllocError>
    ensures { IfOk result (λ r. r ≡ spec.key_or_end heap.now value.now) }
{
    if !is_in(heap, value) {
        return Ok(Err(OpEnd::Stop(StopKind::Unbuilt)));
    }
    match key_of(alloc, heap, value) {
        Ok(key) => Ok(Ok(key)),
        Err(KeyEnd::Unhashable) => Ok(Err(unhashable_error(alloc, heap, value)?)),
        Err(KeyEnd::Unbuilt) => Ok(Err(OpEnd::Stop(StopKind::Unbuilt))),
        Err(KeyEnd::Depth) => Ok(Err(OpEnd::Stop(StopKind::Depth))),
        Err(KeyEnd::Memory) => Err(AllocError),
    }
}

/// The error of a key that isn't there.
pub fn key_error(alloc: Global, key: &Value) -> Result<OpEnd, AllocError>
    ensures { IfOk result (λ e. e ≡ spec.key_error key.now) }
{
    let mut args = Items::new(alloc);
    args.push(key.copy()?)?;
    Ok(OpEnd::Raise(KEY_ERROR, args))
}
