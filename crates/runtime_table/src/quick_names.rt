//! Names of the module by where they were found before, without memory.

ghost use Rattle.std.specs.Prelude.{◌≡◌, ◌<◌, ◌∷◌, [], IfSome, None, length, slice_get, option_copied, option_map};
ghost use Rattle.std.specs.Option.{option_or};
ghost use Rattle.nu_value.specs.declared.value.Value.TheVariants as value;
ghost use Rattle.nu_value.specs.Names.{place_of, value_at, with_name};
ghost use Rattle.nu_value.specs.Same.{object_of};
ghost use Rattle.op_forms.specs.declared.op.Op.TheVariants as op;
ghost use Rattle.op_forms.specs.Answers.{names_of};
ghost use Rattle.op_forms.specs.Doing.{Bind, changed_by, put_at};
ghost use Rattle.op_rules.specs.Attributes.{may_name};
ghost use Rattle.runtime_table.specs.Quick as spec;

use crate::arguments::is_in;
use nu_text::is_built_in_name;
use nu_value::{Heap, Names, Object, Value, object_of};
use op_forms::World;
use op_rules::is_unwritten;

// A name that is there: its place, which is found at once where it is the guess, and its value.
#[inline]
fn named<'a>(names: &'a Names, name: &str, near: usize) -> Option<(usize, &'a Value)>
    ensures { option_map (λ p. p.1.now) result ≡ value_at names.now name.now }
{
    let place = names.find_near(near, name);
    match names.at(place) {
        Some((_, value)) => Some((place, value)),
        None => None,
    }
}

#[inline]
fn in_space<'a>(heap: &'a Heap, space: u64, name: &str, near: usize) -> Option<(usize, &'a Value)>
    ensures { option_map (λ p. p.1.now) result ≡ value_at (names_of (slice_get heap.now space)) name.now }
{
    match heap.get(space) {
        Some(Object::Space(names)) => named(names, name, near),
        _ => None,
    }
}

#[inline]
fn looked_up<'a>(world: &'a World, name: &str, near: usize) -> Option<(usize, &'a Value)>
    ensures { option_map (λ p. p.1.now) result ≡ option_or (value_at (names_of (slice_get world.now.heap world.now.module)) name.now) (value_at (names_of (slice_get world.now.heap world.now.builtins)) name.now) }
{
    match in_space(&world.heap, world.module, name, near) {
        Some(found) => Some(found),
        None => in_space(&world.heap, world.builtins, name, near),
    }
}

/// The value of a name of the module or of a built-in name, and the place where it stands among the names there. It is found at
/// once where that is the guess.
#[inline]
#[tactic(auto, using(crate::proofs::AtOnce::global_quick))]
pub fn quick_global<'a>(world: &'a World, name: &str, near: usize) -> Option<(usize, &'a Value)>
    ensures { IfSome result (λ p. spec.IsQuick op.Global world.now (value.Str name.now ∷ []) p.1.now) }
{
    looked_up(world, name, near)
}

/// The value of a built-in name, and the place where it stands among them. It is found at once where that is the guess.
#[inline]
#[tactic(auto, using(crate::proofs::AtOnce::native_quick))]
pub fn quick_native<'a>(world: &'a World, name: &str, near: usize) -> Option<(usize, &'a Value)>
    ensures { IfSome result (λ p. spec.IsQuick op.Native world.now (value.Str name.now ∷ []) p.1.now) }
{
    if is_built_in_name(name) {
        in_space(&world.heap, world.builtins, name, near)
    } else {
        None
    }
}

// A name that is there gets a value.
#[inline]
#[tactic(auto, using(crate::proofs::AtOnce::value_set))]
fn set_near(names: &mut Names, name: &str, near: usize, a: Value) -> Option<usize>
    ensures set { IfSome result (λ _. names.new ≡ with_name names.old name.now a) }
    ensures same { result ≡ None → names.new ≡ names.old }
{
    let place = names.find_near(near, name);
    if place < names.len() {
        names.set_at(place, a);
        Some(place)
    } else {
        None
    }
}

#[inline]
fn rebind(object: &mut Object, name: &str, near: usize, a: Value) -> Option<usize>
    ensures set { IfSome result (λ _. object.new ≡ changed_by (Bind name.now a) object.old) }
    ensures same { result ≡ None → object.new ≡ object.old }
{
    match object {
        Object::Space(names) => set_near(names, name, near, a),
        Object::Instance { fields, .. } => set_near(fields, name, near, a),
        _ => None,
    }
}

#[inline]
#[tactic(auto, using(crate::proofs::AtOnce::set_same))]
fn rebind_in(heap: &mut Heap, space: u64, name: &str, near: usize, a: Value) -> Option<usize>
    ensures set { IfSome result (λ _. heap.new ≡ put_at heap.old space (Bind name.now a) (slice_get heap.old space)) }
    ensures same { result ≡ None → heap.new ≡ heap.old }
{
    match heap.get_mut(space) {
        Some(object) => rebind(object, name, near, a),
        None => None,
    }
}

/// A name of the module that is there gets a value; the place where it stands is answered, and found at once where it is the
/// guess. Where nothing is answered, nothing has changed.
#[inline]
#[tactic(auto, using(crate::proofs::AtOnce::set_leads))]
pub fn quick_set_global(world: &mut World, name: &str, a: &Value, near: usize) -> Option<usize>
    ensures set { IfSome result (λ _. spec.Leads op.SetGlobal world.old (value.Str name.now ∷ a.now ∷ []) value.None world.new) }
    ensures same { result ≡ None → world.new ≡ world.old }
{
    if !is_in(world.heap.len(), a) {
        return None;
    }
    let Ok(copy) = a.copy() else {
        return None;
    };
    let module = world.module;
    rebind_in(&mut world.heap, module, name, near, copy)
}

fn is_instance(heap: &Heap, number: u64) -> bool
    ensures { result ≡ spec.is_instance (slice_get heap.now number) }
{
    match heap.get(number) {
        Some(Object::Instance { .. }) => true,
        _ => false,
    }
}

fn may_name(name: &str) -> bool
    ensures { result ≡ may_name name.now }
{
    !is_unwritten(name) && name != "__class__"
}

#[inline]
#[tactic(auto, using(crate::proofs::AtOnce::set_attr_leads))]
fn set_field(world: &mut World, number: u64, name: &str, a: &Value, near: usize) -> Option<usize>
    ensures set { IfSome result (λ _. spec.Leads op.SetAttr world.old (value.Obj number ∷ value.Str name.now ∷ a.now ∷ []) value.None world.new) }
    ensures same { result ≡ None → world.new ≡ world.old }
{
    if !is_instance(&world.heap, number) {
        return None;
    }
    if !may_name(name) {
        return None;
    }
    if !is_in(world.heap.len(), a) {
        return None;
    }
    let Ok(copy) = a.copy() else {
        return None;
    };
    rebind_in(&mut world.heap, number, name, near, copy)
}

/// A field of an instance that is there gets a value; the place where it stands is answered, and found at once where it is the
/// guess. Where nothing is answered, nothing has changed.
#[inline]
pub fn quick_set_attr(
    world: &mut World,
    of: &Value,
    name: &str,
    a: &Value,
    near: usize,
) -> Option<usize>
    ensures set { IfSome result (λ _. spec.Leads op.SetAttr world.old (of.now ∷ value.Str name.now ∷ a.now ∷ []) value.None world.new) }
    ensures same { result ≡ None → world.new ≡ world.old }
{
    match of {
        Value::Obj(number) => set_field(world, *number, name, a, near),
        _ => None,
    }
}

/// The value of a local variable that has one.
#[inline]
#[tactic(auto, using(crate::proofs::AtOnce::local_quick))]
pub fn quick_local(world: &World, a: &Value, _name: &str) -> Option<Value>
    ensures { IfSome result (λ v. spec.IsQuick op.Local world.now (a.now ∷ value.Str _name.now ∷ []) v) }
{
    if !is_in(world.heap.len(), a) {
        return None;
    }
    match a.copy() {
        Ok(copy) => Some(copy),
        Err(_) => None,
    }
}

#[inline]
fn held<'a>(heap: &'a Heap, cell: &Value) -> Option<&'a Value>
    ensures { option_copied result ≡ spec.held_value (object_of heap.now cell.now) }
{
    match object_of(heap, cell) {
        Some(Object::Cell(content)) if content.is_set() => Some(content),
        _ => None,
    }
}

/// What a cell of the function, or of one outside, holds, if it holds something.
#[inline]
#[tactic(auto, using(crate::proofs::AtOnce::cell_quick, crate::proofs::AtOnce::free_quick))]
pub fn quick_cell<'a>(world: &'a World, cell: &Value, _name: &str) -> Option<&'a Value>
    ensures own { IfSome result (λ v. spec.IsQuick op.CellGet world.now (cell.now ∷ value.Str _name.now ∷ []) v.now) }
    ensures free { IfSome result (λ v. spec.IsQuick op.FreeGet world.now (cell.now ∷ value.Str _name.now ∷ []) v.now) }
{
    held(&world.heap, cell)
}

/// The attribute of an instance, where it's a field, or else a plain value of its class.
#[inline]
#[tactic(auto, using(crate::proofs::AtOnce::attr_quick))]
pub fn quick_attr(world: &World, a: &Value, name: &str) -> Option<Value>
    ensures { IfSome result (λ v. spec.IsQuick op.Attr world.now (a.now ∷ value.Str name.now ∷ []) v) }
{
    if is_in(world.heap.len(), a) {
        rt_class::quick_attr(world, a, name)
    } else {
        None
    }
}
