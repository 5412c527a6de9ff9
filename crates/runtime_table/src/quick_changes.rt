//! Operations that change an object, on values that lie elsewhere, where that takes no memory.

ghost use Rattle.std.specs.Prelude.{◌≡◌, ◌∷◌, [], IfSome, None, false, true, slice_get};
ghost use Rattle.nu_value.specs.declared.value.Value.TheVariants as value;
ghost use Rattle.op_forms.specs.declared.op.Op.TheVariants as op;
ghost use Rattle.op_forms.specs.Doing.{Hold, changed_by, given, put_at};
ghost use Rattle.op_forms.specs.Fits.{is_cell};
ghost use Rattle.op_rules.specs.Table.{row};
ghost use Rattle.runtime_table.specs.Quick as spec;

use crate::arguments::is_in;
use nu_value::{Heap, Object, Value};
use op_forms::World;

/// The next item of an iterator over a list, a tuple or a range, where it's there. Where nothing is answered, nothing has changed.
#[inline]
#[tactic(auto, using(crate::proofs::AtOnce::next_leads))]
pub fn quick_next(world: &mut World, iterator: &Value) -> Option<Value>
    ensures goes { IfSome result (λ v. spec.Leads op.Next world.old (iterator.now ∷ []) v world.new) }
    ensures same { result ≡ None → world.new ≡ world.old }
{
    if is_in(world.heap.len(), iterator) {
        rt_seq::quick_next(world, iterator)
    } else {
        None
    }
}

// An item of a list or a dict is set.
#[inline]
fn set_item(world: &mut World, a: &Value, index: &Value, item: &Value) -> bool
    ensures set { result ≡ true → row op.SetIndex world.old (a.now ∷ index.now ∷ item.now ∷ []) ≡ given world.new.heap value.None }
    ensures rest { world.new ≡ record world.old { heap = world.new.heap } }
    ensures same { result ≡ false → world.new ≡ world.old }
{
    if rt_seq::quick_set_index(world, a, index, item) {
        true
    } else {
        rt_dict::quick_set_index(world, a, index, item)
    }
}

/// Puts a value where an item of a list is, or maps an integer or a text of a dict to it. Where the answer is false, nothing has
/// changed.
#[inline]
#[tactic(auto, using(crate::proofs::AtOnce::set_index_leads))]
pub fn quick_set_index(world: &mut World, a: &Value, index: &Value, item: &Value) -> bool
    ensures set { result ≡ true → spec.Leads op.SetIndex world.old (a.now ∷ index.now ∷ item.now ∷ []) value.None world.new }
    ensures same { result ≡ false → world.new ≡ world.old }
{
    let count = world.heap.len();
    if is_in(count, a) && is_in(count, index) && is_in(count, item) {
        set_item(world, a, index, item)
    } else {
        false
    }
}

fn hold(object: &mut Object, a: Value)
    ensures { object.new ≡ changed_by (Hold a) object.old }
{
    if let Object::Cell(content) = object {
        *content = a;
    }
}

fn hold_in(heap: &mut Heap, cell: u64, a: Value)
    ensures { heap.new ≡ put_at heap.old cell (Hold a) (slice_get heap.old cell) }
{
    if let Some(object) = heap.get_mut(cell) {
        hold(object, a);
    }
}

#[inline]
fn is_cell(heap: &Heap, number: u64) -> bool
    ensures { result ≡ is_cell (slice_get heap.now number) }
{
    match heap.get(number) {
        Some(Object::Cell(_)) => true,
        _ => false,
    }
}

/// A cell gets a value. Where the answer is false, nothing has changed.
#[inline]
#[tactic(auto, using(crate::proofs::AtOnce::cell_leads))]
pub fn quick_set_cell(world: &mut World, cell: &Value, a: &Value) -> bool
    ensures set { result ≡ true → spec.Leads op.CellSet world.old (cell.now ∷ a.now ∷ []) value.None world.new }
    ensures same { result ≡ false → world.new ≡ world.old }
{
    let Value::Obj(number) = cell else {
        return false;
    };
    if !is_cell(&world.heap, *number) {
        return false;
    }
    if !is_in(world.heap.len(), a) {
        return false;
    }
    let Ok(copy) = a.copy() else {
        return false;
    };
    hold_in(&mut world.heap, *number, copy);
    true
}
