//! What operations give at once.

ghost use Rattle.std.specs.Prelude.{◌≡◌, IfSome, [], ◌∷◌, false, slice_get};
ghost use Rattle.nu_value.specs.declared.value.Value.TheVariants as value_of;
ghost use Rattle.op_forms.specs.declared.op.Op.TheVariants as op;
ghost use Rattle.op_forms.specs.Doing.{given, gives};
ghost use Rattle.op_rules.specs.Table.{row};
ghost use Rattle.op_rules.specs.Attributes.{object_attribute};

use crate::lookups::found_in;
use nu_value::{Codes, Heap, Object, Value};
use op_forms::World;
use op_rules::is_unwritten;

// What an instance has under a name as a field, or else its class, where that is no function.
fn quick_value<'a>(_codes: &Codes, heap: &'a Heap, number: u64, name: &str) -> Option<&'a Value>
    ensures { IfSome result (λ v. object_attribute false _codes.now heap.now number name.now (slice_get heap.now number) ≡ gives v.now) }
{
    let Some(Object::Instance { class, fields }) = heap.get(number) else {
        return None;
    };
    if let Some(value) = fields.get(name) {
        return Some(value);
    }
    let value = found_in(heap, *class, name)?;
    match value {
        Value::Obj(_) => None,
        _ => Some(value),
    }
}

/// The attribute of an instance, where it's a field, or else a plain value of its class, and wants no memory.
#[inline]
pub fn quick_attr(world: &World, value: &Value, name: &str) -> Option<Value>
    ensures { IfSome result (λ v. row op.Attr world.now (value.now ∷ value_of.Str name.now ∷ []) ≡ given world.now.heap v) }
{
    let Value::Obj(number) = value else {
        return None;
    };
    if is_unwritten(name) || name == "__class__" {
        return None;
    }
    quick_value(&world.codes, &world.heap, *number, name)?
        .copy()
        .ok()
}
