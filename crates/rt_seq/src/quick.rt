//! What operations give at once, where no memory is wanted.

ghost use Rattle.std.specs.Prelude.{◌≡◌, IfSome, [], ◌∷◌, None, Some, false, true, option_copied, slice_get};
ghost use Rattle.nu_value.specs.Ranges.{range_count};
ghost use Rattle.nu_value.specs.declared.value.Value.TheVariants as values;
ghost use Rattle.nu_value.specs.Same.{object_of};
ghost use Rattle.op_forms.specs.declared.op.Op.TheVariants as op;
ghost use Rattle.op_forms.specs.Doing.{given};
ghost use Rattle.op_rules.specs.Iteration as spec;
ghost use Rattle.op_rules.specs.Table.{row};
ghost use Rattle.rt_seq.specs.Edits.{list_place};
ghost use Rattle.rt_seq.specs.Steps.{item_over};

use crate::edits::set_at;
use crate::items::{item_at, place_in};
use crate::slices::item_from;
use crate::steps::{Found, move_at, number_within};
use nu_value::{Heap, Object, Value, object_of};
use op_forms::{Op, World};
use op_rules::{Computed, compute};

/// The item of a list or a tuple, where it's there.
#[inline]
pub fn quick_index(world: &World, value: &Value, index: &Value) -> Option<Value>
    ensures { IfSome result (λ v. row op.Index world.now (value.now ∷ index.now ∷ []) ≡ given world.now.heap v) }
{
    let Value::Int(index) = index else {
        return None;
    };
    let items = match object_of(&world.heap, value) {
        Some(Object::List(items) | Object::Tuple(items)) => items,
        _ => return None,
    };
    item_at(items, index.get())?.copy().ok()
}

// The number at a place of a range.
#[tactic(auto, using(crate::proofs::Stepping::one_back))]
fn number_of(start: i128, stop: i128, step: i128, place: i128) -> Option<Value>
    ensures { IfSome result (λ v. spec.number_within (range_count start stop step) start step place ≡ Some v) }
{
    match number_within(start, stop, step, place) {
        Found::One(value) => Some(value),
        _ => None,
    }
}

// The item at a place of a list, a tuple or a range.
fn item_of(heap: &Heap, over: &Value, place: i128) -> Option<Value>
    ensures { IfSome result (λ v. item_over (object_of heap.now over.now) place ≡ Some v) }
{
    match object_of(heap, over) {
        Some(Object::List(items) | Object::Tuple(items)) => item_from(items.as_slice(), place)?
            .copy()
            .ok(),
        Some(Object::Range { start, stop, step }) => number_of(
            start.get(),
            stop.get(),
            step.get(),
            place,
        ),
        _ => None,
    }
}

/// The next item of an iterator over a list, a tuple or a range, where it's there.
pub fn quick_next(world: &mut World, iterator: &Value) -> Option<Value>
    ensures goes { IfSome result (λ v. row op.Next world.old (iterator.now ∷ []) ≡ given world.new.heap v) }
    ensures rest { IfSome result (λ v. world.new ≡ record world.old { heap = world.new.heap }) }
    ensures same { result ≡ None → world.new ≡ world.old }
{
    let Value::Obj(number) = iterator else {
        return None;
    };
    let Some(
        Object::Iterator {
            over,
            place,
            size,
            over_now: false,
        },
    ) = world.heap.get(*number)
    else {
        return None;
    };
    let (place, size) = (place.get(), *size);
    let value = item_of(&world.heap, over, place)?;
    let Computed::Int(to) = compute(Op::Add, place, 1) else {
        return None;
    };
    move_at(&mut world.heap, *number, to, size);
    Some(value)
}

// The place that an index means in a list.
#[inline]
fn list_place(heap: &Heap, list: u64, index: i128) -> Option<usize>
    ensures { result ≡ list_place (slice_get heap.now list) index }
{
    match heap.get(list) {
        Some(Object::List(items)) => place_in(items.len(), index),
        _ => None,
    }
}

/// Puts a value where an item of a list is. Where the answer is false, nothing has changed.
#[tactic(auto, using(crate::proofs::Setting::set_row))]
pub fn quick_set_index(world: &mut World, list: &Value, index: &Value, value: &Value) -> bool
    ensures set { result ≡ true → row op.SetIndex world.old (list.now ∷ index.now ∷ value.now ∷ []) ≡ given world.new.heap values.None }
    ensures rest { world.new ≡ record world.old { heap = world.new.heap } }
    ensures same { result ≡ false → world.new ≡ world.old }
{
    let Value::Obj(number) = list else {
        return false;
    };
    let Value::Int(index) = index else {
        return false;
    };
    let Some(place) = list_place(&world.heap, *number, index.get()) else {
        return false;
    };
    let Ok(copy) = value.copy() else {
        return false;
    };
    set_at(&mut world.heap, *number, place, copy);
    true
}
