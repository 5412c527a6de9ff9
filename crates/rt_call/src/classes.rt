//! Methods that a class has for a call (reference, section 3.3.6).

ghost use Rattle.std.specs.Prelude.{◌≡◌, Some, slice_get};
ghost use Rattle.nu_value.specs.declared.value.Value.TheVariants as value;
ghost use Rattle.op_rules.specs.Construction as spec;

use nu_value::{Heap, Object, Value};
use op_rules::Method;
use rt_class::found_in;

fn method_at(heap: &Heap, number: u64) -> Method
    ensures { result ≡ spec.method_as (Some (value.Obj number)) (slice_get heap.now number) }
{
    match heap.get(number) {
        Some(Object::Function { .. }) => Method::Function(number),
        Some(
            Object::Builtin {
                name,
                receiver: Value::Unset,
            },
        ) => {
            if name.as_str() == "__init__" {
                Method::Native
            } else {
                Method::Other
            }
        }
        _ => Method::Other,
    }
}

/// What a class has under the name of a method, itself or the nearest class outward.
pub fn method_in(heap: &Heap, class: u64, name: &str) -> Method
    ensures { result ≡ spec.method_in heap.now class name.now }
{
    match found_in(heap, class, name) {
        None => Method::Absent,
        Some(Value::Obj(number)) => method_at(heap, *number),
        Some(_) => Method::Other,
    }
}
