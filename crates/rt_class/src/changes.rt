//! Attributes that are set and deleted.

ghost use Rattle.std.specs.Prelude.{◌≡◌, IfOk, option_copied, slice_get};
ghost use Rattle.nu_value.specs.Names.{value_at};
ghost use Rattle.op_forms.specs.Doing.{Did};
ghost use Rattle.op_rules.specs.Attributes as spec;

use crate::attributes::no_attribute;
use crate::lookups::is_under;
use nu_run::StopKind;
use nu_text::RcStr;
use nu_value::{Heap, Object, Value};
use op_forms::OpEnd;
use op_rules::{bind_in, is_unwritten, unbind_in};
use std::alloc::{AllocError, Global};

const STOP_ITERATION: u64 = 34;

fn is_native(heap: &Heap, class: u64) -> bool
    ensures { result ≡ spec.is_native (slice_get heap.now class) }
{
    match heap.get(class) {
        Some(Object::Class { native, .. }) => *native,
        _ => true,
    }
}

fn is_fixed(heap: &Heap, class: u64, name: &str) -> bool
    ensures { result ≡ spec.is_fixed heap.now class name.now }
{
    name == "args" || (name == "value" && is_under(heap, class, STOP_ITERATION))
}

// Whether a name of an object can be set and deleted.
fn may_change(heap: &Heap, number: u64, name: &str) -> bool
    ensures { result ≡ spec.may_change heap.now name.now (slice_get heap.now number) }
{
    match heap.get(number) {
        Some(Object::Instance { .. }) => true,
        Some(Object::Exception { class, .. }) => !is_native(heap, *class)
            && !is_fixed(heap, *class, name),
        Some(Object::Class { native, .. }) => !*native && name != "__name__",
        _ => false,
    }
}

fn may_name(name: &str) -> bool
    ensures { result ≡ spec.may_name name.now }
{
    !is_unwritten(name) && name != "__class__"
}

fn set_on(heap: &mut Heap, number: u64, name: &RcStr, value: &Value) -> Result<OpEnd, AllocError>
    ensures { IfOk result (λ e. Did (spec.set_on heap.old number name.now value.now) heap.old heap.new e) }
{
    if !(may_name(name.as_str()) && may_change(heap, number, name.as_str())) {
        return Ok(OpEnd::Stop(StopKind::Unbuilt));
    }
    bind_in(heap, number, name.share()?, value.copy()?)?;
    Ok(OpEnd::Give(Value::None))
}

/// `x.n = v`.
pub fn setattr_row(
    heap: &mut Heap,
    object: &Value,
    name: &RcStr,
    value: &Value,
) -> Result<OpEnd, AllocError>
    ensures { IfOk result (λ e. Did (spec.setattr_row heap.old object.now name.now value.now) heap.old heap.new e) }
{
    match object {
        Value::Obj(number) => set_on(heap, *number, name, value),
        _ => Ok(OpEnd::Stop(StopKind::Unbuilt)),
    }
}

fn own_value<'a>(heap: &'a Heap, number: u64, name: &str) -> Option<&'a Value>
    ensures { option_copied result ≡ value_at (spec.own_names (slice_get heap.now number)) name.now }
{
    match heap.get(number) {
        Some(Object::Instance { fields, .. }) => fields.get(name),
        Some(Object::Exception { fields, .. }) => fields.get(name),
        Some(Object::Class { own, .. }) => own.get(name),
        _ => None,
    }
}

fn remove_name(alloc: Global, heap: &mut Heap, number: u64, name: &str) -> Result<OpEnd, AllocError>
    ensures { IfOk result (λ e. Did (spec.remove_name heap.old number name.now (value_at (spec.own_names (slice_get heap.old number)) name.now)) heap.old heap.new e) }
{
    if own_value(heap, number, name).is_none() {
        return no_attribute(alloc, heap, &Value::Obj(number), name);
    }
    unbind_in(heap, number, name);
    Ok(OpEnd::Give(Value::None))
}

fn delete_on(alloc: Global, heap: &mut Heap, number: u64, name: &str) -> Result<OpEnd, AllocError>
    ensures { IfOk result (λ e. Did (spec.delete_on heap.old number name.now) heap.old heap.new e) }
{
    if !(may_name(name) && may_change(heap, number, name)) {
        return Ok(OpEnd::Stop(StopKind::Unbuilt));
    }
    remove_name(alloc, heap, number, name)
}

/// `del x.n`.
pub fn delattr_row(
    alloc: Global,
    heap: &mut Heap,
    object: &Value,
    name: &str,
) -> Result<OpEnd, AllocError>
    ensures { IfOk result (λ e. Did (spec.delattr_row heap.old object.now name.now) heap.old heap.new e) }
{
    match object {
        Value::Obj(number) => delete_on(alloc, heap, *number, name),
        _ => Ok(OpEnd::Stop(StopKind::Unbuilt)),
    }
}
