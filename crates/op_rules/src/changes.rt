//! Names of spaces, instances, exceptions and classes of a script get values, and go.

ghost use Rattle.std.specs.Prelude.{◌≡◌, OnOk, slice_get};
ghost use Rattle.op_forms.specs.Doing.{Bind, Unbind, changed_by, put_at};

use nu_text::RcStr;
use nu_value::{Heap, Object, Value};
use std::alloc::AllocError;

fn bind(object: &mut Object, name: RcStr, value: Value) -> Result<(), AllocError>
    ensures { OnOk result (object.new ≡ changed_by (Bind name value) object.old) }
{
    match object {
        Object::Space(names) => names.set(name, value),
        Object::Instance { fields, .. } => fields.set(name, value),
        Object::Exception { fields, .. } => fields.set(name, value),
        Object::Class {
            own,
            native: false,
            ..
        } => own.set(name, value),
        _ => Ok(()),
    }
}

/// A name of the object of this number gets a value, where the object has names that change.
pub fn bind_in(heap: &mut Heap, space: u64, name: RcStr, value: Value) -> Result<(), AllocError>
    ensures { OnOk result (heap.new ≡ put_at heap.old space (Bind name value) (slice_get heap.old space)) }
{
    match heap.get_mut(space) {
        Some(object) => bind(object, name, value),
        None => Ok(()),
    }
}

fn unbind(object: &mut Object, name: &str)
    ensures { object.new ≡ changed_by (Unbind name.now) object.old }
{
    match object {
        Object::Space(names) => {
            let _ = names.remove(name);
        }
        Object::Instance { fields, .. } => {
            let _ = fields.remove(name);
        }
        Object::Exception { fields, .. } => {
            let _ = fields.remove(name);
        }
        Object::Class {
            own,
            native: false,
            ..
        } => {
            let _ = own.remove(name);
        }
        _ => {}
    }
}

/// A name of the object of this number goes.
pub fn unbind_in(heap: &mut Heap, space: u64, name: &str)
    ensures { heap.new ≡ put_at heap.old space (Unbind name.now) (slice_get heap.old space) }
{
    if let Some(object) = heap.get_mut(space) {
        unbind(object, name);
    }
}
