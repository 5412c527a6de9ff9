//! Values among items.

ghost use Rattle.std.specs.Prelude.{◌≡◌};
ghost use Rattle.op_rules.specs.SequenceMethods as methods;
ghost use Rattle.op_rules.specs.SequenceOperators as spec;

use nu_run::StopKind;
use nu_value::{Heap, Integer, Sameness, Value, same_value};
use op_forms::OpEnd;

/// The first place whose item is equal to a value, or the stop that comes before.
pub fn place_of_value(
    heap: &Heap,
    value: &Value,
    items: &[Value],
) -> Result<Option<usize>, StopKind>
    ensures { result ≡ spec.place_of_value heap.now value.now items.now }
{
    for (place, item) in items.iter().enumerate() {
        match same_value(heap, item, value) {
            Sameness::Equal => return Ok(Some(place)),
            Sameness::Different => {}
            Sameness::Depth => return Err(StopKind::Depth),
            Sameness::Unbuilt => return Err(StopKind::Unbuilt),
        }
    }
    Ok(None)
}

/// How many items are equal to a value, or the stop that comes before.
pub fn count_of_value(heap: &Heap, value: &Value, items: &[Value]) -> OpEnd
    ensures { result ≡ methods.count_from heap.now value.now items.now 0 }
{
    let mut count: usize = 0;
    for item in items {
        match same_value(heap, item, value) {
            Sameness::Equal => count += 1,
            Sameness::Different => {}
            Sameness::Depth => return OpEnd::Stop(StopKind::Depth),
            Sameness::Unbuilt => return OpEnd::Stop(StopKind::Unbuilt),
        }
    }
    OpEnd::Give(Value::Int(Integer::new(count as i128)))
}
