//! Operations on names and cells (reference, section 4.2).

ghost use Rattle.std.specs.Prelude.{◌≡◌, ◌++◌, IfOk, OnOk, slice_get, option_copied};
ghost use Rattle.nu_value.specs.Names.{value_at};
ghost use Rattle.nu_value.specs.Same.{object_of};
ghost use Rattle.op_rules.specs.Kinds as kinds;
ghost use Rattle.op_forms.specs.Doing.{Hold, changed_by, put_at, Did, DidIn};
ghost use Rattle.op_forms.specs.Answers as answers;
ghost use Rattle.op_rules.specs.NameRows as spec;

use nu_run::StopKind;
use nu_text::RcStr;
use nu_value::{Heap, Names, Object, Value};
use op_forms::{OpEnd, World};
use op_rules::{bind_in, raised, unbind_in};
use std::alloc::{AllocError, Global};

pub const NAME_ERROR: u64 = 30;

pub const UNBOUND_LOCAL_ERROR: u64 = 31;

// An exception with a text that has a name in its middle.
fn raised_of(
    alloc: Global,
    class: u64,
    front: &str,
    name: &str,
    back: &str,
) -> Result<OpEnd, AllocError>
    ensures { IfOk result (λ e. e ≡ kinds.raised class (front.now ++ name.now ++ back.now)) }
{
    let mut text = String::from_str(alloc, front)?;
    text.push_str(name)?;
    text.push_str(back)?;
    raised(alloc, class, text.as_str())
}

fn not_defined(alloc: Global, name: &str) -> Result<OpEnd, AllocError>
    ensures { IfOk result (λ e. e ≡ spec.not_defined name.now) }
{
    raised_of(alloc, NAME_ERROR, "name '", name, "' is not defined")
}

fn no_local(alloc: Global, name: &str) -> Result<OpEnd, AllocError>
    ensures { IfOk result (λ e. e ≡ spec.no_local name.now) }
{
    raised_of(
        alloc,
        UNBOUND_LOCAL_ERROR,
        "cannot access local variable '",
        name,
        "' where it is not associated with a value",
    )
}

fn no_free(alloc: Global, name: &str) -> Result<OpEnd, AllocError>
    ensures { IfOk result (λ e. e ≡ spec.no_free name.now) }
{
    raised_of(
        alloc,
        NAME_ERROR,
        "cannot access free variable '",
        name,
        "' where it is not associated with a value in enclosing scope",
    )
}

fn in_space<'a>(heap: &'a Heap, space: u64, name: &str) -> Option<&'a Value>
    ensures { option_copied result ≡ value_at (answers.names_of (slice_get heap.now space)) name.now }
{
    match heap.get(space) {
        Some(Object::Space(names)) => names.get(name),
        _ => None,
    }
}

/// The value of a name in the module, or else among the built-in names.
pub fn global_row(alloc: Global, world: &World, name: &str) -> Result<OpEnd, AllocError>
    ensures { IfOk result (λ e. e ≡ spec.global_row world.now name.now) }
{
    if let Some(value) = in_space(&world.heap, world.module, name) {
        return Ok(OpEnd::Give(value.copy()?));
    }
    match in_space(&world.heap, world.builtins, name) {
        Some(value) => Ok(OpEnd::Give(value.copy()?)),
        None => not_defined(alloc, name),
    }
}

/// Gives a name of the module its value.
pub fn setglobal_row(world: &mut World, name: &RcStr, value: &Value) -> Result<OpEnd, AllocError>
    ensures { IfOk result (λ e. DidIn (spec.setglobal_row world.old name.now value.now) world.old world.new e) }
{
    let module = world.module;
    bind_in(&mut world.heap, module, name.share()?, value.copy()?)?;
    Ok(OpEnd::Give(Value::None))
}

// Takes a name out of a space.
fn without(alloc: Global, heap: &mut Heap, space: u64, name: &str) -> Result<OpEnd, AllocError>
    ensures { IfOk result (λ e. Did (spec.without_at space name.now (value_at (answers.names_of (slice_get heap.old space)) name.now)) heap.old heap.new e) }
{
    if in_space(heap, space, name).is_none() {
        return not_defined(alloc, name);
    }
    unbind_in(heap, space, name);
    Ok(OpEnd::Give(Value::None))
}

/// Takes a name out of the module.
pub fn delglobal_row(alloc: Global, world: &mut World, name: &str) -> Result<OpEnd, AllocError>
    ensures { IfOk result (λ e. DidIn (spec.delglobal_row world.old name.now) world.old world.new e) }
{
    let module = world.module;
    without(alloc, &mut world.heap, module, name)
}

/// The value of a local variable, if it has one.
pub fn local_row(alloc: Global, value: &Value, name: &str) -> Result<OpEnd, AllocError>
    ensures { IfOk result (λ e. e ≡ spec.local_row value.now name.now) }
{
    match value {
        Value::Unset => no_local(alloc, name),
        _ => Ok(OpEnd::Give(value.copy()?)),
    }
}

/// A new cell.
pub fn cell_row(heap: &mut Heap) -> Result<OpEnd, AllocError>
    ensures { IfOk result (λ e. Did (spec.cell_row heap.old) heap.old heap.new e) }
{
    let number = heap.make(Object::Cell(Value::Unset))?;
    Ok(OpEnd::Give(Value::Obj(number)))
}

// What a cell holds.
fn held_by(heap: &Heap, cell: &Value) -> Result<Value, AllocError>
    ensures { IfOk result (λ v. v ≡ spec.content_of heap.now cell.now) }
{
    match cell {
        Value::Obj(number) => match heap.get(*number) {
            Some(Object::Cell(value)) => value.copy(),
            _ => Ok(Value::Unset),
        },
        _ => Ok(Value::Unset),
    }
}

fn hold(object: &mut Object, value: Value)
    ensures { object.new ≡ changed_by (Hold value) object.old }
{
    if let Object::Cell(held) = object {
        *held = value;
    }
}

fn hold_in(heap: &mut Heap, cell: u64, value: Value)
    ensures { heap.new ≡ put_at heap.old cell (Hold value) (slice_get heap.old cell) }
{
    if let Some(object) = heap.get_mut(cell) {
        hold(object, value);
    }
}

// Fills a cell.
fn fill(heap: &mut Heap, cell: &Value, value: Value) -> OpEnd
    ensures { Did (spec.cellset_row cell.now value) heap.old heap.new result }
{
    match cell {
        Value::Obj(number) => {
            hold_in(heap, *number, value);
            OpEnd::Give(Value::None)
        }
        _ => OpEnd::Stop(StopKind::Unbuilt),
    }
}

/// Fills a cell.
pub fn cellset_row(heap: &mut Heap, cell: &Value, value: &Value) -> Result<OpEnd, AllocError>
    ensures { IfOk result (λ e. Did (spec.cellset_row cell.now value.now) heap.old heap.new e) }
{
    let value = value.copy()?;
    Ok(fill(heap, cell, value))
}

/// What a cell of the running function holds.
pub fn cellget_row(
    alloc: Global,
    heap: &Heap,
    cell: &Value,
    name: &str,
) -> Result<OpEnd, AllocError>
    ensures { IfOk result (λ e. e ≡ spec.cellget_row heap.now cell.now name.now) }
{
    match held_by(heap, cell)? {
        Value::Unset => no_local(alloc, name),
        value => Ok(OpEnd::Give(value)),
    }
}

/// Empties a cell of the running function.
pub fn celldel_row(
    alloc: Global,
    heap: &mut Heap,
    cell: &Value,
    name: &str,
) -> Result<OpEnd, AllocError>
    ensures { IfOk result (λ e. Did (spec.celldel_row heap.old cell.now name.now) heap.old heap.new e) }
{
    match held_by(heap, cell)? {
        Value::Unset => no_local(alloc, name),
        _ => Ok(fill(heap, cell, Value::Unset)),
    }
}

/// What a cell of a function outside holds.
pub fn freeget_row(
    alloc: Global,
    heap: &Heap,
    cell: &Value,
    name: &str,
) -> Result<OpEnd, AllocError>
    ensures { IfOk result (λ e. e ≡ spec.freeget_row heap.now cell.now name.now) }
{
    match held_by(heap, cell)? {
        Value::Unset => no_free(alloc, name),
        value => Ok(OpEnd::Give(value)),
    }
}

/// Empties a cell of a function outside.
pub fn freedel_row(
    alloc: Global,
    heap: &mut Heap,
    cell: &Value,
    name: &str,
) -> Result<OpEnd, AllocError>
    ensures { IfOk result (λ e. Did (spec.freedel_row heap.old cell.now name.now) heap.old heap.new e) }
{
    match held_by(heap, cell)? {
        Value::Unset => no_free(alloc, name),
        _ => Ok(fill(heap, cell, Value::Unset)),
    }
}

/// The names of a class while its block runs (reference, section 7.8).
pub fn space_row(alloc: Global, heap: &mut Heap) -> Result<OpEnd, AllocError>
    ensures { IfOk result (λ e. Did (spec.space_row heap.old) heap.old heap.new e) }
{
    let number = heap.make(Object::Space(Names::new(alloc)))?;
    Ok(OpEnd::Give(Value::Obj(number)))
}

fn in_space_of<'a>(heap: &'a Heap, space: &Value, name: &str) -> Option<&'a Value>
    ensures { option_copied result ≡ value_at (answers.names_of (object_of heap.now space.now)) name.now }
{
    match space {
        Value::Obj(number) => in_space(heap, *number, name),
        _ => None,
    }
}

/// The value of a name in a space, or else in the module or among the built-in names.
pub fn spaceget_row(
    alloc: Global,
    world: &World,
    space: &Value,
    name: &str,
) -> Result<OpEnd, AllocError>
    ensures { IfOk result (λ e. e ≡ spec.spaceget_row world.now space.now name.now) }
{
    match in_space_of(&world.heap, space, name) {
        Some(value) => Ok(OpEnd::Give(value.copy()?)),
        None => global_row(alloc, world, name),
    }
}

/// Gives a name of a space its value.
pub fn spaceset_row(
    heap: &mut Heap,
    space: &Value,
    name: &RcStr,
    value: &Value,
) -> Result<OpEnd, AllocError>
    ensures { IfOk result (λ e. Did (spec.spaceset_row space.now name.now value.now) heap.old heap.new e) }
{
    let Value::Obj(number) = space else {
        return Ok(OpEnd::Stop(StopKind::Unbuilt));
    };
    bind_in(heap, *number, name.share()?, value.copy()?)?;
    Ok(OpEnd::Give(Value::None))
}

/// Takes a name out of a space.
pub fn spacedel_row(
    alloc: Global,
    heap: &mut Heap,
    space: &Value,
    name: &str,
) -> Result<OpEnd, AllocError>
    ensures { IfOk result (λ e. Did (spec.spacedel_row heap.old space.now name.now) heap.old heap.new e) }
{
    match space {
        Value::Obj(number) => without(alloc, heap, *number, name),
        _ => Ok(OpEnd::Stop(StopKind::Unbuilt)),
    }
}

/// The value of a built-in name, whatever the module binds.
pub fn native_row(world: &World, name: &str) -> Result<OpEnd, AllocError>
    ensures { IfOk result (λ e. e ≡ spec.native_row world.now name.now) }
{
    match in_space(&world.heap, world.builtins, name) {
        Some(value) => Ok(OpEnd::Give(value.copy()?)),
        None => Ok(OpEnd::Stop(StopKind::Unbuilt)),
    }
}
