//! Special methods (reference, section 3.3).

ghost use Rattle.std.specs.Prelude.{◌≡◌, ◌++◌, IfOk, [], ◌∷◌};
ghost use Rattle.nu_value.specs.Same.{object_of};
ghost use Rattle.op_forms.specs.declared.end.OpEnd.TheVariants as opend;
ghost use Rattle.op_rules.specs.Kinds as kinds;
ghost use Rattle.op_rules.specs.Specials as spec;

use crate::lookups::found_in;
use nu_value::{Heap, Items, Names, Object, Value, object_of};
use op_forms::{After, OpEnd};
use op_rules::{Special, kind_name, raised};
use std::alloc::{AllocError, Global};

const TYPE_ERROR: u64 = 35;

/// What a class has under the name of a special method.
pub fn special_in(heap: &Heap, class: u64, name: &str) -> Special
    ensures { result ≡ spec.special_in heap.now class name.now }
{
    match found_in(heap, class, name) {
        None => Special::Absent,
        Some(Value::Obj(number)) => match heap.get(*number) {
            Some(Object::Function { .. }) => Special::Function(*number),
            _ => Special::Other,
        },
        Some(_) => Special::Other,
    }
}

/// The special method of an instance.
pub fn instance_special(heap: &Heap, value: &Value, name: &str) -> Special
    ensures { result ≡ spec.instance_special heap.now (object_of heap.now value.now) name.now }
{
    match object_of(heap, value) {
        Some(Object::Instance { class, .. }) => special_in(heap, *class, name),
        _ => Special::Absent,
    }
}

/// The special method of an instance or an exception.
pub fn any_special(heap: &Heap, value: &Value, name: &str) -> Special
    ensures { result ≡ spec.any_special heap.now (object_of heap.now value.now) name.now }
{
    match object_of(heap, value) {
        Some(Object::Instance { class, .. }) => special_in(heap, *class, name),
        Some(Object::Exception { class, .. }) => special_in(heap, *class, name),
        _ => Special::Absent,
    }
}

/// A list of one.
pub fn one_item(alloc: Global, a: &Value) -> Result<Items, AllocError>
    ensures { IfOk result (λ items. items ≡ a.now ∷ []) }
{
    let mut items = Items::new(alloc);
    items.push(a.copy()?)?;
    Ok(items)
}

/// A list of two.
pub fn two_items(alloc: Global, a: &Value, b: &Value) -> Result<Items, AllocError>
    ensures { IfOk result (λ items. items ≡ a.now ∷ b.now ∷ []) }
{
    let mut items = one_item(alloc, a)?;
    items.push(b.copy()?)?;
    Ok(items)
}

/// A list of three.
pub fn three_items(alloc: Global, a: &Value, b: &Value, c: &Value) -> Result<Items, AllocError>
    ensures { IfOk result (λ items. items ≡ a.now ∷ b.now ∷ c.now ∷ []) }
{
    let mut items = two_items(alloc, a, b)?;
    items.push(c.copy()?)?;
    Ok(items)
}

/// A function is asked with positional arguments.
pub fn asking(alloc: Global, function: u64, items: Items, after: After) -> OpEnd
    ensures { result ≡ opend.Ask function items [] after }
{
    OpEnd::Ask(function, items, Names::new(alloc), after)
}

/// The TypeError whose text has the name of a value's kind in its middle.
pub fn kind_error(
    alloc: Global,
    front: &str,
    heap: &Heap,
    value: &Value,
    back: &str,
) -> Result<OpEnd, AllocError>
    ensures { IfOk result (λ e. e ≡ kinds.type_error (front.now ++ kinds.kind_name heap.now value.now ++ back.now)) }
{
    let mut text = String::from_str(alloc, front)?;
    text.push_str(kind_name(heap, value))?;
    text.push_str(back)?;
    raised(alloc, TYPE_ERROR, text.as_str())
}
