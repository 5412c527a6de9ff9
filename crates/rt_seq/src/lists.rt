//! Lists of values, made of others.

ghost use Rattle.std.specs.Prelude.{◌≡◌, ◌++◌, ◌*◌, IfOk, OnOk, option_copied};
ghost use Rattle.nu_value.specs.Same.{object_of};
ghost use Rattle.op_forms.specs.Doing.{Did, makes};
ghost use Rattle.op_rules.specs.SequenceOperators as operators;

use nu_value::{Heap, Items, Object, Value};
use op_forms::OpEnd;
use std::alloc::{AllocError, Global};

/// The most items of a list or tuple.
pub const SIZE_LIMIT: u128 = 16_777_216;

/// Puts values at the end of a list.
pub fn push_all(items: &mut Items, values: &[Value]) -> Result<(), AllocError>
    ensures { OnOk result (items.new ≡ items.old ++ values.now) }
{
    for value in values {
        items.push(value.copy()?)?;
    }
    Ok(())
}

/// The same values in a list of their own.
pub fn copied(alloc: Global, values: &[Value]) -> Result<Items, AllocError>
    ensures { IfOk result (λ items. items ≡ values.now) }
{
    let mut items = Items::new(alloc);
    push_all(&mut items, values)?;
    Ok(items)
}

/// The values of two lists, one behind the other.
pub fn joined(alloc: Global, front: &[Value], back: &[Value]) -> Result<Items, AllocError>
    ensures { IfOk result (λ items. items ≡ front.now ++ back.now) }
{
    let mut items = copied(alloc, front)?;
    push_all(&mut items, back)?;
    Ok(items)
}

/// The values of a list, so many times.
pub fn repeated(alloc: Global, values: &[Value], count: u128) -> Result<Items, AllocError>
    ensures { IfOk result (λ items. items ≡ operators.repeats count values.now) }
{
    let mut items = Items::new(alloc);
    let mut left = count;
    while 0 < left {
        push_all(&mut items, values)?;
        left -= 1;
    }
    Ok(items)
}

/// A new object is given.
pub fn make(heap: &mut Heap, object: Object) -> Result<OpEnd, AllocError>
    ensures { IfOk result (λ e. Did (makes heap.old object) heap.old heap.new e) }
{
    let number = heap.make(object)?;
    Ok(OpEnd::Give(Value::Obj(number)))
}
