//! Lists that are changed where they stand.

ghost use Rattle.std.specs.Prelude.{◌≡◌, OnOk, slice_get};
ghost use Rattle.op_forms.specs.Doing.{Fill, changed_by};
ghost use Rattle.rt_seq.specs.declared.edits.Edit.TheVariants as edits;
ghost use Rattle.rt_seq.specs.Edits as spec;

use nu_value::{Heap, Items, Object, Value};
use std::alloc::AllocError;

/// What a list's items become.
#[derive(Drop)]
pub enum Edit {
    /// One more at the end.
    Push(Value),
    /// Another one at a place.
    Set(usize, Value),
    /// One more in front of a place.
    Insert(usize, Value),
    /// None at a place.
    Remove(usize),
    Reverse,
    /// Others.
    Fill(Items),
}

#[tactic(auto, using(crate::proofs::Past::nothing_set))]
fn set(items: &mut Items, place: usize, value: Value)
    ensures { items.new ≡ spec.edited (edits.Set place value) items.old }
{
    if place < items.len() {
        items.set(place, value);
    }
}

#[tactic(auto, using(crate::proofs::Past::insert_behind))]
fn insert(items: &mut Items, place: usize, value: Value) -> Result<(), AllocError>
    ensures { OnOk result (items.new ≡ spec.edited (edits.Insert place value) items.old) }
{
    if place < items.len() {
        items.insert(place, value)
    } else {
        items.push(value)
    }
}

#[tactic(auto, using(crate::proofs::Past::nothing_removed))]
fn remove(items: &mut Items, place: usize)
    ensures { items.new ≡ spec.edited (edits.Remove place) items.old }
{
    if place < items.len() {
        let _ = items.remove(place);
    }
}

fn edit_items(items: &mut Items, edit: Edit) -> Result<(), AllocError>
    ensures { OnOk result (items.new ≡ spec.edited edit items.old) }
{
    match edit {
        Edit::Push(value) => items.push(value)?,
        Edit::Set(place, value) => set(items, place, value),
        Edit::Insert(place, value) => insert(items, place, value)?,
        Edit::Remove(place) => remove(items, place),
        Edit::Reverse => items.reverse(),
        Edit::Fill(others) => *items = others,
    }
    Ok(())
}

fn edit_in(object: &mut Object, edit: Edit) -> Result<(), AllocError>
    ensures { OnOk result (object.new ≡ changed_by (Fill (spec.edited edit (spec.items_of object.old))) object.old) }
{
    match object {
        Object::List(items) => edit_items(items, edit),
        _ => Ok(()),
    }
}

/// Changes the list of this number.
pub fn edit_at(heap: &mut Heap, list: u64, edit: Edit) -> Result<(), AllocError>
    ensures { OnOk result (heap.new ≡ spec.edited_at heap.old list edit (slice_get heap.old list)) }
{
    match heap.get_mut(list) {
        Some(object) => edit_in(object, edit),
        None => Ok(()),
    }
}

fn set_in(object: &mut Object, place: usize, value: Value)
    ensures { object.new ≡ changed_by (Fill (spec.edited (edits.Set place value) (spec.items_of object.old))) object.old }
{
    if let Object::List(items) = object {
        set(items, place, value);
    }
}

/// Puts a value at a place of the list of this number.
pub fn set_at(heap: &mut Heap, list: u64, place: usize, value: Value)
    ensures { heap.new ≡ spec.edited_at heap.old list (edits.Set place value) (slice_get heap.old list) }
{
    if let Some(object) = heap.get_mut(list) {
        set_in(object, place, value);
    }
}
