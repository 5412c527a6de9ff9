//! Slices (reference, section 6.3.3).

ghost use Rattle.std.specs.Prelude.{◌≡◌, ◌++◌, IfOk, OnOk, pos, length, option_copied, option_map};
ghost use Rattle.nu_value.specs.Same.{number_of};
ghost use Rattle.op_forms.specs.Doing.{Did};
ghost use Rattle.op_rules.specs.Slices as spec;

use crate::errors::{TYPE_ERROR, VALUE_ERROR};
use crate::lists::make;
use nu_run::StopKind;
use nu_value::{Heap, Items, Object, Value, object_of, range_len};
use op_forms::OpEnd;
use op_rules::{not_subscriptable, raised};
use std::alloc::{AllocError, Global};

fn is_bound(value: &Value) -> bool
    ensures { result ≡ spec.is_bound value.now }
{
    match value {
        Value::None | Value::Bool(_) | Value::Int(_) => true,
        _ => false,
    }
}

fn from_end(count: usize, bound: i128) -> i128
    ensures { result ≡ spec.from_end count bound }
{
    if bound < 0 {
        bound + count as i128
    } else {
        bound
    }
}

fn cut(low: i128, high: i128, bound: i128) -> i128
    ensures { result ≡ spec.cut low high bound }
{
    if bound < low {
        low
    } else if high < bound {
        high
    } else {
        bound
    }
}

fn bound(count: usize, missing: i128, low: i128, high: i128, given: Option<i128>) -> i128
    ensures { result ≡ spec.bound count missing low high given }
{
    match given {
        None => missing,
        Some(given) => cut(low, high, from_end(count, given)),
    }
}

fn first_place(count: usize, step: i128, start: Option<i128>) -> i128
    ensures { result ≡ spec.first_place count step start }
{
    let len = count as i128;
    if 0 < step {
        bound(count, 0, 0, len, start)
    } else {
        bound(count, len - 1, -1, len - 1, start)
    }
}

fn end_place(count: usize, step: i128, stop: Option<i128>) -> i128
    ensures { result ≡ spec.end_place count step stop }
{
    let len = count as i128;
    if 0 < step {
        bound(count, len, 0, len, stop)
    } else {
        bound(count, -1, -1, len - 1, stop)
    }
}

/// The item at a place, if there is one.
pub fn item_from(items: &[Value], place: i128) -> Option<&Value>
    ensures { option_copied result ≡ spec.item_from items.now place }
{
    if 0 <= place && place < items.len() as i128 {
        items.get(place as usize)
    } else {
        None
    }
}

fn push_from(all: &mut Items, items: &[Value], place: i128) -> Result<(), AllocError>
    ensures { OnOk result (all.new ≡ all.old ++ spec.item_list items.now place) }
{
    if let Some(value) = item_from(items, place) {
        all.push(value.copy()?)?;
    }
    Ok(())
}

// So many items, from a place on in steps. Behind the last integer there is none.
#[tactic(auto, using(crate::proofs::Picking::picked_on, crate::proofs::Picking::picked_end))]
fn picked(
    alloc: Global,
    items: &[Value],
    first: i128,
    step: i128,
    count: u128,
) -> Result<Items, AllocError>
    ensures { IfOk result (λ all. all ≡ spec.picked items.now first step count) }
{
    let mut all = Items::new(alloc);
    let mut place = first;
    let mut left = count;
    while 0 < left {
        push_from(&mut all, items, place)?;
        left -= 1;
        match place.checked_add(step) {
            Some(next) => place = next,
            None => return Ok(all),
        }
    }
    Ok(all)
}

fn sliced(
    alloc: Global,
    items: &[Value],
    start: Option<i128>,
    stop: Option<i128>,
    step: i128,
) -> Result<Items, AllocError>
    ensures { IfOk result (λ all. all ≡ spec.sliced items.now start stop step) }
{
    let first = first_place(items.len(), step, start);
    let end = end_place(items.len(), step, stop);
    picked(alloc, items, first, step, range_len(first, end, step))
}

// How far a slice goes at a time.
fn step_of(step: &Value) -> i128
    ensures { result ≡ spec.step_of (number_of step.now) }
{
    match step.number() {
        None => 1,
        Some(number) => number,
    }
}

// Why bounds are none, if they aren't.
fn refused(
    alloc: Global,
    start: &Value,
    stop: &Value,
    step: &Value,
) -> Result<Option<OpEnd>, AllocError>
    ensures { IfOk result (λ e. e ≡ spec.refused start.now stop.now step.now) }
{
    if !(is_bound(start) && is_bound(stop) && is_bound(step)) {
        let end = raised(alloc, TYPE_ERROR, "slice indices must be integers or None")?;
        return Ok(Some(end));
    }
    if step_of(step) == 0 {
        let end = raised(alloc, VALUE_ERROR, "slice step cannot be zero")?;
        return Ok(Some(end));
    }
    Ok(None)
}

// The items of a slice whose bounds aren't refused.
fn items_between(
    alloc: Global,
    items: &[Value],
    start: &Value,
    stop: &Value,
    step: &Value,
) -> Result<Items, AllocError>
    ensures { IfOk result (λ all. all ≡ spec.sliced items.now (number_of start.now) (number_of stop.now) (spec.step_of (number_of step.now))) }
{
    sliced(alloc, items, start.number(), stop.number(), step_of(step))
}

/// `x[start:stop:step]`.
pub fn slice_row(
    alloc: Global,
    heap: &mut Heap,
    value: &Value,
    start: &Value,
    stop: &Value,
    step: &Value,
) -> Result<OpEnd, AllocError>
    ensures { IfOk result (λ e. Did (spec.slice_row heap.old value.now start.now stop.now step.now) heap.old heap.new e) }
{
    let refused = refused(alloc, start, stop, step)?;
    match object_of(heap, value) {
        Some(Object::List(items)) => match refused {
            Some(end) => Ok(end),
            None => {
                let items = items_between(alloc, items.as_slice(), start, stop, step)?;
                make(heap, Object::List(items))
            }
        },
        Some(Object::Tuple(items)) => match refused {
            Some(end) => Ok(end),
            None => {
                let items = items_between(alloc, items.as_slice(), start, stop, step)?;
                make(heap, Object::Tuple(items))
            }
        },
        Some(Object::Range { .. }) => Ok(OpEnd::Stop(StopKind::Unbuilt)),
        _ => not_subscriptable(alloc, heap, value),
    }
}
