//! Iterators and their steps (library reference, "Iterator Types").

ghost use Rattle.std.specs.Prelude.{◌≡◌, IfOk, Some, [], ◌∷◌, pos, option_copied, slice_get};
ghost use Rattle.nu_value.specs.Ranges.{range_count};
ghost use Rattle.nu_value.specs.declared.object.Object.TheVariants as objects;
ghost use Rattle.nu_value.specs.declared.value.Value.TheVariants as values;
ghost use Rattle.op_rules.specs.Numbers as numbers;
ghost use Rattle.op_forms.specs.Doing.{Move, Finish, Did, changed_by, set_in};
ghost use Rattle.op_rules.specs.Iteration as spec;
ghost use Rattle.op_rules.specs.TextItems as texts;
ghost use Rattle.rt_seq.specs.declared.steps.Found.TheVariants as variants;
ghost use Rattle.rt_seq.specs.Steps as spec_steps;

use crate::errors::{RUNTIME_ERROR, STOP_ITERATION};
use crate::items::number_at;
use crate::lists::make;
use crate::slices::item_from;
use nu_run::StopKind;
use nu_text::RcStr;
use nu_value::{Heap, Integer, Items, Object, Pairs, Value, ViewKind, range_len};
use op_forms::{Op, OpEnd};
use op_rules::{Computed, compute, no_iterator, raised};
use rt_text::text_item;
use std::alloc::{AllocError, Global};

fn iterates(alloc: Global, heap: &mut Heap, over: u64) -> Result<OpEnd, AllocError>
    ensures { IfOk result (λ e. Did (spec.iterates heap.old (values.Obj over)) heap.old heap.new e) }
{
    let iterator = Object::iterator(alloc, Value::Obj(over), 0)?;
    make(heap, iterator)
}

/// `iter(x)`.
pub fn iter_row(alloc: Global, heap: &mut Heap, over: &Value) -> Result<OpEnd, AllocError>
    ensures { IfOk result (λ e. Did (spec.iter_row heap.old over.now) heap.old heap.new e) }
{
    let Value::Obj(number) = over else {
        return Ok(OpEnd::Stop(StopKind::Unbuilt));
    };
    match heap.get(*number) {
        Some(Object::List(_) | Object::Tuple(_) | Object::Range { .. }) => iterates(
            alloc, heap, *number,
        ),
        Some(Object::Iterator { .. }) => Ok(OpEnd::Give(Value::Obj(*number))),
        _ => Ok(OpEnd::Stop(StopKind::Unbuilt)),
    }
}

/// What an iterator finds at its place.
#[derive(Drop)]
pub enum Found {
    Nothing,
    One(Value),
    /// A key and its value.
    Two(Value, Value),
    /// A dict that is longer or shorter than it was.
    Changed,
    Unbuilt,
}

fn one_of(value: Option<&Value>) -> Result<Found, AllocError>
    ensures { IfOk result (λ f. f ≡ spec_steps.one_of (option_copied value.entry)) }
{
    match value {
        None => Ok(Found::Nothing),
        Some(value) => Ok(Found::One(value.copy()?)),
    }
}

fn two_of(key: &Value, value: &Value) -> Result<Found, AllocError>
    ensures { IfOk result (λ f. f ≡ variants.Two key.now value.now) }
{
    Ok(Found::Two(key.copy()?, value.copy()?))
}

// The number at a place that is not negative.
#[tactic(auto, using(crate::proofs::Stepping::number_there))]
fn number_from(start: i128, stop: i128, step: i128, place: u128) -> Found
    ensures { result ≡ spec_steps.one_of (spec.number_within (range_count start stop step) start step (pos place)) }
{
    if place < range_len(start, stop, step) {
        let number = number_at(start, stop, step, place);
        Found::One(Value::Int(Integer::new(number)))
    } else {
        Found::Nothing
    }
}

/// The number at a place of a range.
pub fn number_within(start: i128, stop: i128, step: i128, place: i128) -> Found
    ensures { result ≡ spec_steps.one_of (spec.number_within (range_count start stop step) start step place) }
{
    if place < 0 {
        Found::Nothing
    } else {
        number_from(start, stop, step, place as u128)
    }
}

fn shown_at(kind: ViewKind, pairs: &Pairs, place: usize) -> Result<Found, AllocError>
    ensures { IfOk result (λ f. f ≡ spec_steps.shown_at kind (slice_get pairs.now place)) }
{
    let Some((_, key, value)) = pairs.at(place) else {
        return Ok(Found::Nothing);
    };
    match kind {
        ViewKind::Keys => one_of(Some(key)),
        ViewKind::Values => one_of(Some(value)),
        ViewKind::Both => two_of(key, value),
    }
}

fn shown_by(kind: ViewKind, pairs: &Pairs, place: i128) -> Result<Found, AllocError>
    ensures { IfOk result (λ f. f ≡ spec_steps.shown_by kind pairs.now place) }
{
    if 0 <= place && place < pairs.len() as i128 {
        shown_at(kind, pairs, place as usize)
    } else {
        Ok(Found::Nothing)
    }
}

fn shown_in(kind: ViewKind, pairs: &Pairs, place: i128, size: u64) -> Result<Found, AllocError>
    ensures { IfOk result (λ f. f ≡ spec_steps.shown_in kind pairs.now place size) }
{
    if pairs.len() as u64 == size {
        shown_by(kind, pairs, place)
    } else {
        Ok(Found::Changed)
    }
}

fn viewed(
    heap: &Heap,
    kind: ViewKind,
    dict: u64,
    place: i128,
    size: u64,
) -> Result<Found, AllocError>
    ensures { IfOk result (λ f. f ≡ spec_steps.viewed kind (slice_get heap.now dict) place size) }
{
    match heap.get(dict) {
        Some(Object::Dict(pairs)) => shown_in(kind, pairs, place, size),
        _ => Ok(Found::Unbuilt),
    }
}

fn found_in(heap: &Heap, over: u64, place: i128, size: u64) -> Result<Found, AllocError>
    ensures { IfOk result (λ f. f ≡ spec_steps.found_in heap.now (slice_get heap.now over) place size) }
{
    match heap.get(over) {
        Some(Object::List(items) | Object::Tuple(items)) => one_of(item_from(
            items.as_slice(),
            place,
        )),
        Some(Object::Range { start, stop, step }) => Ok(number_within(
            start.get(),
            stop.get(),
            step.get(),
            place,
        )),
        Some(Object::Dict(pairs)) => shown_in(ViewKind::Keys, pairs, place, size),
        Some(Object::View { dict, kind }) => viewed(heap, *kind, *dict, place, size),
        _ => Ok(Found::Unbuilt),
    }
}

#[tactic(auto, using(crate::proofs::TextEnds::no_item))]
fn text_found(alloc: Global, text: &RcStr, place: i128) -> Result<Found, AllocError>
    ensures { IfOk result (λ f. f ≡ spec_steps.one_of (texts.text_item text.now place)) }
{
    if place < 0 || text.as_str().len() as i128 <= place {
        return Ok(Found::Nothing);
    }
    match text_item(alloc, text, place as usize)? {
        None => Ok(Found::Nothing),
        Some(character) => Ok(Found::One(character)),
    }
}

fn found_over(
    alloc: Global,
    heap: &Heap,
    over: &Value,
    place: i128,
    size: u64,
) -> Result<Found, AllocError>
    ensures { IfOk result (λ f. f ≡ spec_steps.found_over heap.now over.now place size) }
{
    match over {
        Value::Str(text) => text_found(alloc, text, place),
        Value::Obj(number) => found_in(heap, *number, place, size),
        _ => Ok(Found::Unbuilt),
    }
}

fn move_in(object: &mut Object, to: i128, long: u64)
    ensures { object.new ≡ changed_by (Move to long) object.old }
{
    if let Object::Iterator { place, size, .. } = object {
        *place = Integer::new(to);
        *size = long;
    }
}

/// An iterator has another place.
pub fn move_at(heap: &mut Heap, iterator: u64, to: i128, long: u64)
    ensures { heap.new ≡ set_in heap.old (Some (iterator, Move to long)) }
{
    if let Some(object) = heap.get_mut(iterator) {
        move_in(object, to, long);
    }
}

fn finish_in(object: &mut Object)
    ensures { object.new ≡ changed_by Finish object.old }
{
    if let Object::Iterator { over_now, .. } = object {
        *over_now = true;
    }
}

fn finish_at(heap: &mut Heap, iterator: u64)
    ensures { heap.new ≡ set_in heap.old (Some (iterator, Finish)) }
{
    if let Some(object) = heap.get_mut(iterator) {
        finish_in(object);
    }
}

fn stop_iteration(alloc: Global) -> OpEnd
    ensures { result ≡ spec.stop_iteration }
{
    OpEnd::Raise(STOP_ITERATION, Items::new(alloc))
}

fn advance(heap: &mut Heap, iterator: u64, place: i128, size: u64, value: Value) -> OpEnd
    ensures { Did (spec.advanced iterator size value (numbers.sum place (pos 1))) heap.old heap.new result }
{
    match compute(Op::Add, place, 1) {
        Computed::Int(to) => {
            move_at(heap, iterator, to, size);
            OpEnd::Give(value)
        }
        _ => OpEnd::Stop(StopKind::Int),
    }
}

fn pair_of(alloc: Global, key: Value, value: Value) -> Result<Object, AllocError>
    ensures { IfOk result (λ o. o ≡ objects.Tuple (key ∷ value ∷ [])) }
{
    let mut items = Items::new(alloc);
    items.push(key)?;
    items.push(value)?;
    Ok(Object::Tuple(items))
}

#[tactic(auto, using(crate::proofs::Moved::moved_length))]
fn advance_pair(
    heap: &mut Heap,
    iterator: u64,
    place: i128,
    size: u64,
    pair: Object,
) -> Result<OpEnd, AllocError>
    ensures { IfOk result (λ e. Did (spec.advanced_making heap.old iterator size pair (numbers.sum place (pos 1))) heap.old heap.new e) }
{
    match compute(Op::Add, place, 1) {
        Computed::Int(to) => {
            move_at(heap, iterator, to, size);
            make(heap, pair)
        }
        _ => Ok(OpEnd::Stop(StopKind::Int)),
    }
}

// What the iterator of this number does with what it found.
fn step(
    alloc: Global,
    heap: &mut Heap,
    iterator: u64,
    place: i128,
    size: u64,
    found: Found,
) -> Result<OpEnd, AllocError>
    ensures { IfOk result (λ e. Did (spec_steps.steps heap.old iterator place size found) heap.old heap.new e) }
{
    match found {
        Found::Nothing => {
            finish_at(heap, iterator);
            Ok(stop_iteration(alloc))
        }
        Found::One(value) => Ok(advance(heap, iterator, place, size, value)),
        Found::Two(key, value) => {
            let pair = pair_of(alloc, key, value)?;
            advance_pair(heap, iterator, place, size, pair)
        }
        Found::Changed => raised(
            alloc,
            RUNTIME_ERROR,
            "dictionary changed size during iteration",
        ),
        Found::Unbuilt => Ok(OpEnd::Stop(StopKind::Unbuilt)),
    }
}

#[tactic(auto, using(crate::proofs::Stepping::next_is))]
fn next_on(alloc: Global, heap: &mut Heap, iterator: u64) -> Result<OpEnd, AllocError>
    ensures { IfOk result (λ e. Did (spec.next_on heap.old iterator (slice_get heap.old iterator)) heap.old heap.new e) }
{
    match heap.get(iterator) {
        Some(Object::Iterator { over_now: true, .. }) => Ok(stop_iteration(alloc)),
        Some(
            Object::Iterator {
                over,
                place,
                size,
                ..
            },
        ) => {
            let (place, size) = (place.get(), *size);
            let found = found_over(alloc, heap, over, place, size)?;
            step(alloc, heap, iterator, place, size, found)
        }
        _ => no_iterator(alloc, heap, &Value::Obj(iterator)),
    }
}

/// `next(x)`.
pub fn next_row(alloc: Global, heap: &mut Heap, iterator: &Value) -> Result<OpEnd, AllocError>
    ensures { IfOk result (λ e. Did (spec.next_row heap.old iterator.now) heap.old heap.new e) }
{
    match iterator {
        Value::Obj(number) => next_on(alloc, heap, *number),
        _ => no_iterator(alloc, heap, iterator),
    }
}
