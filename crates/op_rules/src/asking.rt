//! Functions of the built-in text that an operation asks by their names.

ghost use Rattle.std.specs.Prelude.{◌≡◌, IfOk};
ghost use Rattle.op_rules.specs.Access as access;
ghost use Rattle.op_rules.specs.Asking as spec;

use nu_run::StopKind;
use nu_value::{Heap, Items, Names, Object, Value};
use op_forms::{After, OpEnd};
use std::alloc::{AllocError, Global};

// A run's first object behind the native classes holds the built-in names.
const BUILT_INS: u64 = 37;

/// The number of the function that has this built-in name, if there is one.
pub fn built_in(heap: &Heap, name: &str) -> Option<u64>
    ensures { result ≡ spec.built_in heap.now name.now }
{
    let Some(Object::Space(names)) = heap.get(BUILT_INS) else {
        return None;
    };
    let Some(Value::Obj(number)) = names.get(name) else {
        return None;
    };
    match heap.get(*number) {
        Some(Object::Function { .. }) => Some(*number),
        _ => None,
    }
}

/// The built-in function of this name is asked, and its value goes through `after`; where there is none, it is the stop Unbuilt.
pub fn ask(heap: &Heap, name: &str, args: Items, names: Names, after: After) -> OpEnd
    ensures { result ≡ spec.asks heap.now name.now args names after }
{
    match built_in(heap, name) {
        None => OpEnd::Stop(StopKind::Unbuilt),
        Some(function) => OpEnd::Ask(function, args, names, after),
    }
}

/// The iterator of a value, by its methods.
pub fn asks_iterator(alloc: Global, heap: &Heap, value: &Value) -> Result<OpEnd, AllocError>
    ensures { IfOk result (λ e. e ≡ access.asks_iterator heap.now value.now) }
{
    let mut args = Items::new(alloc);
    args.push(value.copy()?)?;
    Ok(ask(heap, "_nu_iterof", args, Names::new(alloc), After::Plain))
}

/// Whether a value is among another's items, by that one's methods.
pub fn asks_in(
    alloc: Global,
    heap: &Heap,
    value: &Value,
    container: &Value,
) -> Result<OpEnd, AllocError>
    ensures { IfOk result (λ e. e ≡ access.asks_in heap.now value.now container.now) }
{
    let mut args = Items::new(alloc);
    args.push(value.copy()?)?;
    args.push(container.copy()?)?;
    Ok(ask(heap, "_nu_in", args, Names::new(alloc), After::Truth))
}
