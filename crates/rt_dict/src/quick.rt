//! What operations on dicts do at once, where they want no memory.

ghost use Rattle.std.specs.Prelude.{◌≡◌, IfSome, List, Ok, [], ◌∷◌, false, true, slice_get};
ghost use Rattle.nu_value.specs.declared.value.Value.TheVariants as values;
ghost use Rattle.nu_value.specs.declared.object.Object.{Object as AnyObject};
ghost use Rattle.op_forms.specs.declared.op.Op.TheVariants as op;
ghost use Rattle.op_forms.specs.Doing.{given};
ghost use Rattle.op_forms.specs.Fits.{is_dict};
ghost use Rattle.op_rules.specs.Keys as keys;
ghost use Rattle.op_rules.specs.Table.{row};

use crate::changes::put_into;
use nu_value::{Atom, Heap, Key, Object, Value, object_of};
use op_forms::World;

// The key of an integer or a text.
fn quick_key(value: &Value) -> Option<Key>
    ensures { IfSome result (λ k. (h : List AnyObject) → keys.key_or_end h value.now ≡ Ok k) }
{
    match value {
        Value::Int(number) => Some(Key::one(Atom::Int(number.get()))),
        Value::Str(text) => Some(Key::one(Atom::Str(text.share().ok()?))),
        _ => None,
    }
}

/// What an integer or a text maps to in a dict, where it's there.
#[inline]
pub fn quick_index(world: &World, value: &Value, index: &Value) -> Option<Value>
    ensures { IfSome result (λ v. row op.Index world.now (value.now ∷ index.now ∷ []) ≡ given world.now.heap v) }
{
    let Some(Object::Dict(pairs)) = object_of(&world.heap, value) else {
        return None;
    };
    let key = quick_key(index)?;
    pairs.value_of(&key)?.copy().ok()
}

#[inline]
fn is_dict(heap: &Heap, number: u64) -> bool
    ensures { result ≡ is_dict (slice_get heap.now number) }
{
    match heap.get(number) {
        Some(Object::Dict(_)) => true,
        _ => false,
    }
}

/// Maps an integer or a text of a dict to a value. Where the answer is false, nothing has changed.
#[tactic(auto, using(crate::proofs::Putting::put_row))]
pub fn quick_set_index(world: &mut World, dict: &Value, index: &Value, value: &Value) -> bool
    ensures set { result ≡ true → row op.SetIndex world.old (dict.now ∷ index.now ∷ value.now ∷ []) ≡ given world.new.heap values.None }
    ensures rest { world.new ≡ record world.old { heap = world.new.heap } }
    ensures same { result ≡ false → world.new ≡ world.old }
{
    let Value::Obj(number) = dict else {
        return false;
    };
    if !is_dict(&world.heap, *number) {
        return false;
    }
    let Some(key) = quick_key(index) else {
        return false;
    };
    let Ok(given) = index.copy() else {
        return false;
    };
    let Ok(copy) = value.copy() else {
        return false;
    };
    put_into(&mut world.heap, *number, key, given, copy).is_ok()
}
