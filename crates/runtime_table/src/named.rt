//! The table's way to the rows on names, cells and spaces.

ghost use Rattle.std.specs.Prelude.{◌≡◌, IfOk, [], ◌∷◌};
ghost use Rattle.op_forms.specs.declared.op.Op.TheVariants as op;
ghost use Rattle.op_forms.specs.Doing.{DidIn};
ghost use Rattle.op_rules.specs.NameRows.{names, spaces};

use crate::names::{
    cell_row, celldel_row, cellget_row, cellset_row, delglobal_row, freedel_row, freeget_row,
    global_row, local_row, native_row, setglobal_row, space_row, spacedel_row, spaceget_row,
    spaceset_row,
};
use crate::table::unbuilt;
use nu_value::Value;
use op_forms::{Op, OpEnd, World};
use std::alloc::{AllocError, Global};

fn global(alloc: Global, world: &mut World, name: &Value) -> Result<OpEnd, AllocError>
    ensures { IfOk result (λ e. DidIn (names op.Global world.old (name.now ∷ [])) world.old world.new e) }
{
    match name {
        Value::Str(name) => global_row(alloc, world, name.as_str()),
        _ => unbuilt(),
    }
}

fn setglobal(world: &mut World, name: &Value, value: &Value) -> Result<OpEnd, AllocError>
    ensures { IfOk result (λ e. DidIn (names op.SetGlobal world.old (name.now ∷ value.now ∷ [])) world.old world.new e) }
{
    match name {
        Value::Str(name) => setglobal_row(world, name, value),
        _ => unbuilt(),
    }
}

fn delglobal(alloc: Global, world: &mut World, name: &Value) -> Result<OpEnd, AllocError>
    ensures { IfOk result (λ e. DidIn (names op.DelGlobal world.old (name.now ∷ [])) world.old world.new e) }
{
    match name {
        Value::Str(name) => delglobal_row(alloc, world, name.as_str()),
        _ => unbuilt(),
    }
}

fn local(
    alloc: Global,
    _world: &mut World,
    value: &Value,
    name: &Value,
) -> Result<OpEnd, AllocError>
    ensures { IfOk result (λ e. DidIn (names op.Local _world.old (value.now ∷ name.now ∷ [])) _world.old _world.new e) }
{
    match name {
        Value::Str(name) => local_row(alloc, value, name.as_str()),
        _ => unbuilt(),
    }
}

fn cellset(world: &mut World, cell: &Value, value: &Value) -> Result<OpEnd, AllocError>
    ensures { IfOk result (λ e. DidIn (names op.CellSet world.old (cell.now ∷ value.now ∷ [])) world.old world.new e) }
{
    cellset_row(&mut world.heap, cell, value)
}

fn cellget(
    alloc: Global,
    world: &mut World,
    cell: &Value,
    name: &Value,
) -> Result<OpEnd, AllocError>
    ensures { IfOk result (λ e. DidIn (names op.CellGet world.old (cell.now ∷ name.now ∷ [])) world.old world.new e) }
{
    match name {
        Value::Str(name) => cellget_row(alloc, &world.heap, cell, name.as_str()),
        _ => unbuilt(),
    }
}

fn celldel(
    alloc: Global,
    world: &mut World,
    cell: &Value,
    name: &Value,
) -> Result<OpEnd, AllocError>
    ensures { IfOk result (λ e. DidIn (names op.CellDel world.old (cell.now ∷ name.now ∷ [])) world.old world.new e) }
{
    match name {
        Value::Str(name) => celldel_row(alloc, &mut world.heap, cell, name.as_str()),
        _ => unbuilt(),
    }
}

fn freeget(
    alloc: Global,
    world: &mut World,
    cell: &Value,
    name: &Value,
) -> Result<OpEnd, AllocError>
    ensures { IfOk result (λ e. DidIn (names op.FreeGet world.old (cell.now ∷ name.now ∷ [])) world.old world.new e) }
{
    match name {
        Value::Str(name) => freeget_row(alloc, &world.heap, cell, name.as_str()),
        _ => unbuilt(),
    }
}

fn freedel(
    alloc: Global,
    world: &mut World,
    cell: &Value,
    name: &Value,
) -> Result<OpEnd, AllocError>
    ensures { IfOk result (λ e. DidIn (names op.FreeDel world.old (cell.now ∷ name.now ∷ [])) world.old world.new e) }
{
    match name {
        Value::Str(name) => freedel_row(alloc, &mut world.heap, cell, name.as_str()),
        _ => unbuilt(),
    }
}

fn spaceget(
    alloc: Global,
    world: &mut World,
    space: &Value,
    name: &Value,
) -> Result<OpEnd, AllocError>
    ensures { IfOk result (λ e. DidIn (spaces op.SpaceGet world.old (space.now ∷ name.now ∷ [])) world.old world.new e) }
{
    match name {
        Value::Str(name) => spaceget_row(alloc, world, space, name.as_str()),
        _ => unbuilt(),
    }
}

fn spaceset(
    world: &mut World,
    space: &Value,
    name: &Value,
    value: &Value,
) -> Result<OpEnd, AllocError>
    ensures { IfOk result (λ e. DidIn (spaces op.SpaceSet world.old (space.now ∷ name.now ∷ value.now ∷ [])) world.old world.new e) }
{
    match name {
        Value::Str(name) => spaceset_row(&mut world.heap, space, name, value),
        _ => unbuilt(),
    }
}

fn spacedel(
    alloc: Global,
    world: &mut World,
    space: &Value,
    name: &Value,
) -> Result<OpEnd, AllocError>
    ensures { IfOk result (λ e. DidIn (spaces op.SpaceDel world.old (space.now ∷ name.now ∷ [])) world.old world.new e) }
{
    match name {
        Value::Str(name) => spacedel_row(alloc, &mut world.heap, space, name.as_str()),
        _ => unbuilt(),
    }
}

fn native(world: &mut World, name: &Value) -> Result<OpEnd, AllocError>
    ensures { IfOk result (λ e. DidIn (spaces op.Native world.old (name.now ∷ [])) world.old world.new e) }
{
    match name {
        Value::Str(name) => native_row(world, name.as_str()),
        _ => unbuilt(),
    }
}

/// The rows on names and cells.
pub fn names_row(
    alloc: Global,
    op: Op,
    world: &mut World,
    args: &[Value],
) -> Result<OpEnd, AllocError>
    ensures { IfOk result (λ e. DidIn (names op world.old args.now) world.old world.new e) }
{
    match (op, args) {
        (Op::Global, [name]) => global(alloc, world, name),
        (Op::SetGlobal, [name, value]) => setglobal(world, name, value),
        (Op::DelGlobal, [name]) => delglobal(alloc, world, name),
        (Op::Local, [value, name]) => local(alloc, world, value, name),
        (Op::Cell, []) => cell_row(&mut world.heap),
        (Op::CellSet, [cell, value]) => cellset(world, cell, value),
        (Op::CellGet, [cell, name]) => cellget(alloc, world, cell, name),
        (Op::CellDel, [cell, name]) => celldel(alloc, world, cell, name),
        (Op::FreeGet, [cell, name]) => freeget(alloc, world, cell, name),
        (Op::FreeDel, [cell, name]) => freedel(alloc, world, cell, name),
        _ => unbuilt(),
    }
}

/// The rows on the names of classes while their blocks run, and on built-in names.
pub fn spaces_row(
    alloc: Global,
    op: Op,
    world: &mut World,
    args: &[Value],
) -> Result<OpEnd, AllocError>
    ensures { IfOk result (λ e. DidIn (spaces op world.old args.now) world.old world.new e) }
{
    match (op, args) {
        (Op::Space, []) => space_row(alloc, &mut world.heap),
        (Op::SpaceGet, [space, name]) => spaceget(alloc, world, space, name),
        (Op::SpaceSet, [space, name, value]) => spaceset(world, space, name, value),
        (Op::SpaceDel, [space, name]) => spacedel(alloc, world, space, name),
        (Op::Native, [name]) => native(world, name),
        _ => unbuilt(),
    }
}
