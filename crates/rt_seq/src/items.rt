//! Items of lists, tuples and ranges (reference, section 6.3.2).

ghost use Rattle.std.specs.Prelude.{◌≡◌, ◌<◌, ◌+ℤ◌, ◌-ℤ◌, pos, IfOk, IfSome, FitsSigned, [], ◌∷◌, length, option_copied, slice_get};
ghost use Rattle.std.specs.Int.{w128};
ghost use Rattle.nu_value.specs.Ranges.{range_count};
ghost use Rattle.op_forms.specs.Doing.{Did};
ghost use Rattle.op_rules.specs.Items as spec;

use crate::edits::{Edit, edit_at};
use crate::errors::{no_index, no_len, out_of_range};
use crate::lists::{SIZE_LIMIT, copied, make};
use nu_run::StopKind;
use nu_value::{Heap, Integer, Items, Object, Value, object_of, range_len};
use op_forms::OpEnd;
use op_rules::{no_item_changes, not_subscriptable};
use std::alloc::{AllocError, Global};

/// A display of a tuple.
pub fn tuple_row(alloc: Global, heap: &mut Heap, items: &[Value]) -> Result<OpEnd, AllocError>
    ensures { IfOk result (λ e. Did (spec.tuple_row heap.old items.now) heap.old heap.new e) }
{
    if SIZE_LIMIT < items.len() as u128 {
        return Ok(OpEnd::Stop(StopKind::Size));
    }
    let items = copied(alloc, items)?;
    make(heap, Object::Tuple(items))
}

/// A display of a list.
pub fn list_row(alloc: Global, heap: &mut Heap, items: &[Value]) -> Result<OpEnd, AllocError>
    ensures { IfOk result (λ e. Did (spec.list_row heap.old items.now) heap.old heap.new e) }
{
    if SIZE_LIMIT < items.len() as u128 {
        return Ok(OpEnd::Stop(StopKind::Size));
    }
    let items = copied(alloc, items)?;
    make(heap, Object::List(items))
}

/// A value at the end of the list of this number.
pub fn push_on(heap: &mut Heap, list: u64, value: &Value) -> Result<OpEnd, AllocError>
    ensures { IfOk result (λ e. Did (spec.push_on list value.now (slice_get heap.old list)) heap.old heap.new e) }
{
    let Some(Object::List(items)) = heap.get(list) else {
        return Ok(OpEnd::Stop(StopKind::Unbuilt));
    };
    if SIZE_LIMIT <= items.len() as u128 {
        return Ok(OpEnd::Stop(StopKind::Size));
    }
    edit_at(heap, list, Edit::Push(value.copy()?))?;
    Ok(OpEnd::Give(Value::None))
}

/// `push l v`.
pub fn push_row(heap: &mut Heap, list: &Value, value: &Value) -> Result<OpEnd, AllocError>
    ensures { IfOk result (λ e. Did (spec.push_row heap.old list.now value.now) heap.old heap.new e) }
{
    match list {
        Value::Obj(number) => push_on(heap, *number, value),
        _ => Ok(OpEnd::Stop(StopKind::Unbuilt)),
    }
}

/// The place that an index means among so many: a negative one counts from the end.
pub fn place_in(count: usize, index: i128) -> Option<usize>
    ensures { result ≡ spec.place_in count index }
{
    let count = count as i128;
    let place = if index < 0 { count + index } else { index };
    if 0 <= place && place < count {
        Some(place as usize)
    } else {
        None
    }
}

/// The item that an index means.
pub fn item_at<'a>(items: &'a Items, index: i128) -> Option<&'a Value>
    ensures { option_copied result ≡ spec.item_at items.now (spec.place_in (length items.now) index) }
{
    items.get(place_in(items.len(), index)?)
}

fn item_of(
    alloc: Global,
    kind: &str,
    items: &Items,
    index: Option<i128>,
) -> Result<OpEnd, AllocError>
    ensures { IfOk result (λ e. e ≡ spec.item_of kind.now items.now index) }
{
    let Some(index) = index else {
        return no_index(alloc, kind);
    };
    match item_at(items, index) {
        Some(value) => Ok(OpEnd::Give(value.copy()?)),
        None => out_of_range(alloc, kind),
    }
}

fn above(start: i128, offset: u128) -> i128
    requires { FitsSigned w128 (start +ℤ pos offset) }
    ensures { result ≡ start +ℤ pos offset }
{
    start.checked_add_unsigned(offset).unwrap()
}

fn under(start: i128, offset: u128) -> i128
    requires { FitsSigned w128 (start -ℤ pos offset) }
    ensures { result ≡ start -ℤ pos offset }
{
    start.checked_sub_unsigned(offset).unwrap()
}

/// The number at a place of a range.
pub fn number_at(start: i128, stop: i128, step: i128, place: u128) -> i128
    requires { place < range_count start stop step }
    ensures { result ≡ spec.number_at start step place }
{
    let offset = place * step.unsigned_abs();
    if 0 < step {
        above(start, offset)
    } else {
        under(start, offset)
    }
}

/// The place of a number that an index means in a range.
fn range_place(count: u128, index: i128) -> Option<u128>
    ensures place { result ≡ spec.place_in count index }
    ensures within { IfSome result (λ place. place < count) }
{
    let distance = index.unsigned_abs();
    if 0 <= index {
        if distance < count {
            Some(distance)
        } else {
            None
        }
    } else if distance <= count {
        Some(count - distance)
    } else {
        None
    }
}

fn range_item(
    alloc: Global,
    start: i128,
    stop: i128,
    step: i128,
    index: Option<i128>,
) -> Result<OpEnd, AllocError>
    ensures { IfOk result (λ e. e ≡ spec.range_item start stop step index) }
{
    let Some(index) = index else {
        return no_index(alloc, "range");
    };
    match range_place(range_len(start, stop, step), index) {
        Some(place) => {
            let number = number_at(start, stop, step, place);
            Ok(OpEnd::Give(Value::Int(Integer::new(number))))
        }
        None => out_of_range(alloc, "range"),
    }
}

/// `x[i]`.
pub fn index_row(
    alloc: Global,
    heap: &Heap,
    value: &Value,
    index: &Value,
) -> Result<OpEnd, AllocError>
    ensures { IfOk result (λ e. e ≡ spec.index_row heap.now value.now index.now) }
{
    match object_of(heap, value) {
        Some(Object::List(items)) => item_of(alloc, "list", items, index.number()),
        Some(Object::Tuple(items)) => item_of(alloc, "tuple", items, index.number()),
        Some(Object::Range { start, stop, step }) => range_item(
            alloc,
            start.get(),
            stop.get(),
            step.get(),
            index.number(),
        ),
        _ => not_subscriptable(alloc, heap, value),
    }
}

fn setindex_on(
    alloc: Global,
    heap: &mut Heap,
    list: u64,
    index: &Value,
    value: &Value,
) -> Result<OpEnd, AllocError>
    ensures { IfOk result (λ e. Did (spec.setindex_on heap.old list index.now value.now (slice_get heap.old list)) heap.old heap.new e) }
{
    let Some(Object::List(items)) = heap.get(list) else {
        return no_item_changes(alloc, heap, &Value::Obj(list));
    };
    let Some(index) = index.number() else {
        return no_index(alloc, "list");
    };
    let Some(place) = place_in(items.len(), index) else {
        return out_of_range(alloc, "list");
    };
    edit_at(heap, list, Edit::Set(place, value.copy()?))?;
    Ok(OpEnd::Give(Value::None))
}

/// `x[i] = v`.
pub fn setindex_row(
    alloc: Global,
    heap: &mut Heap,
    list: &Value,
    index: &Value,
    value: &Value,
) -> Result<OpEnd, AllocError>
    ensures { IfOk result (λ e. Did (spec.setindex_row heap.old list.now index.now value.now) heap.old heap.new e) }
{
    match list {
        Value::Obj(number) => setindex_on(alloc, heap, *number, index, value),
        _ => no_item_changes(alloc, heap, list),
    }
}

fn delindex_on(
    alloc: Global,
    heap: &mut Heap,
    list: u64,
    index: &Value,
) -> Result<OpEnd, AllocError>
    ensures { IfOk result (λ e. Did (spec.delindex_on heap.old list index.now (slice_get heap.old list)) heap.old heap.new e) }
{
    let Some(Object::List(items)) = heap.get(list) else {
        return no_item_changes(alloc, heap, &Value::Obj(list));
    };
    let Some(index) = index.number() else {
        return no_index(alloc, "list");
    };
    let Some(place) = place_in(items.len(), index) else {
        return out_of_range(alloc, "list");
    };
    edit_at(heap, list, Edit::Remove(place))?;
    Ok(OpEnd::Give(Value::None))
}

/// `del x[i]`.
pub fn delindex_row(
    alloc: Global,
    heap: &mut Heap,
    list: &Value,
    index: &Value,
) -> Result<OpEnd, AllocError>
    ensures { IfOk result (λ e. Did (spec.delindex_row heap.old list.now index.now) heap.old heap.new e) }
{
    match list {
        Value::Obj(number) => delindex_on(alloc, heap, *number, index),
        _ => no_item_changes(alloc, heap, list),
    }
}

fn give_len(len: usize) -> OpEnd
    ensures { result ≡ spec.give_count len }
{
    OpEnd::Give(Value::Int(Integer::new(len as i128)))
}

fn range_len_end(start: i128, stop: i128, step: i128) -> OpEnd
    ensures { result ≡ spec.count_end (range_count start stop step) }
{
    match i128::try_from(range_len(start, stop, step)) {
        Ok(number) => OpEnd::Give(Value::Int(Integer::new(number))),
        Err(_) => OpEnd::Stop(StopKind::Int),
    }
}

/// `len(x)`.
pub fn len_row(alloc: Global, heap: &Heap, value: &Value) -> Result<OpEnd, AllocError>
    ensures { IfOk result (λ e. e ≡ spec.len_row heap.now value.now) }
{
    match object_of(heap, value) {
        Some(Object::List(items) | Object::Tuple(items)) => Ok(give_len(items.len())),
        Some(Object::Range { start, stop, step }) => Ok(range_len_end(
            start.get(),
            stop.get(),
            step.get(),
        )),
        _ => no_len(alloc, heap, value),
    }
}
