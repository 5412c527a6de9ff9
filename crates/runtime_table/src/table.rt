//! What an operation does to a world.

ghost use Rattle.std.specs.Prelude.{◌≡◌, IfOk, OnOk, true, Ok};
ghost use Rattle.nu_run.specs.declared.StopKind.TheVariants as stop;
ghost use Rattle.op_forms.specs.declared.end.OpEnd.TheVariants as opend;
ghost use Rattle.op_forms.specs.Answers.{after};
ghost use Rattle.op_forms.specs.Doing.{DidIn, ends};
ghost use Rattle.op_forms.specs.Fits.{fits};
ghost use Rattle.op_forms.specs.Sound.{Sound, EndIn};
ghost use Rattle.op_rules.specs.Access.{other_row};
ghost use Rattle.op_rules.specs.Classes as classes;
ghost use Rattle.op_rules.specs.Families as families;
ghost use Rattle.op_rules.specs.Table as spec;

use crate::asking::bound;
use crate::calling::{call, callx};
use crate::named::{names_row, spaces_row};
use nu_run::StopKind;
use nu_value::{Heap, Object, Value};
use op_forms::{Op, OpEnd, World};
use op_rules::{Family, rows_keep_sound};
use rt_call::apply_call;
use rt_class::{apply_attribute, apply_class};
use rt_dict::apply_dict;
use rt_int::apply_int;
use rt_seq::apply_seq;
use rt_text::apply_text;
use std::alloc::{AllocError, Global};

pub fn value_family(heap: &Heap, value: &Value) -> Family
    ensures { result ≡ families.value_family heap.now value.now }
{
    let number = match value {
        Value::Str(_) => return Family::Texts,
        Value::Obj(number) => *number,
        _ => return Family::Integers,
    };
    match heap.get(number) {
        Some(Object::Instance { .. } | Object::Class { .. } | Object::Exception { .. }) =>
            Family::Classes,
        Some(Object::Dict(_) | Object::View { .. }) => Family::Dicts,
        Some(Object::Tuple(_) | Object::List(_) | Object::Range { .. } | Object::Iterator { .. }) =>
            Family::Sequences,
        _ => Family::Integers,
    }
}

fn first_family(one: Family, other: Family) -> Family
    ensures { result ≡ families.first_family one other }
{
    match (one, other) {
        (Family::Classes, _) | (_, Family::Classes) => Family::Classes,
        (Family::Dicts, _) | (_, Family::Dicts) => Family::Dicts,
        (Family::Sequences, _) | (_, Family::Sequences) => Family::Sequences,
        (Family::Texts, _) | (_, Family::Texts) => Family::Texts,
        (Family::Integers, Family::Integers) => Family::Integers,
    }
}

fn family_of(heap: &Heap, args: &[Value]) -> Family
    ensures { result ≡ families.family_of heap.now args.now }
{
    match args {
        [] => Family::Integers,
        [value, values @ ..] => first_family(value_family(heap, value), family_of(heap, values)),
    }
}

// The family of the first operand.
fn family_at_first(heap: &Heap, args: &[Value]) -> Family
    ensures { result ≡ families.family_at_first heap.now args.now }
{
    match args {
        [] => Family::Integers,
        [value, ..] => value_family(heap, value),
    }
}

// The family of the second operand.
fn family_at_second(heap: &Heap, args: &[Value]) -> Family
    ensures { result ≡ families.family_at_second heap.now args.now }
{
    match args {
        [] => Family::Integers,
        [_, values @ ..] => family_at_first(heap, values),
    }
}

// The rows of attributes, classes and exceptions.
fn classing(alloc: Global, op: Op, world: &mut World, args: &[Value]) -> Result<OpEnd, AllocError>
    ensures { IfOk result (λ e. DidIn (classes.attribute_row op world.old.codes world.old.heap args.now) world.old world.new e) }
{
    apply_attribute(alloc, op, &mut world.heap, &world.codes, args)
}

// The row of a family.
fn family_row(
    alloc: Global,
    family: Family,
    op: Op,
    world: &mut World,
    args: &[Value],
) -> Result<OpEnd, AllocError>
    ensures { IfOk result (λ e. DidIn (spec.family_row family op world.old.heap args.now) world.old world.new e) }
{
    match family {
        Family::Classes => apply_class(alloc, op, &mut world.heap, &world.codes, args),
        Family::Dicts => apply_dict(alloc, op, &mut world.heap, &world.codes, args),
        Family::Sequences => apply_seq(alloc, op, &mut world.heap, &world.codes, args),
        Family::Texts => apply_text(alloc, op, &mut world.heap, &world.codes, args),
        Family::Integers => apply_int(alloc, op, &mut world.heap, &world.codes, args),
    }
}

// An operation that goes by the kinds of all its operands.
fn by_family(alloc: Global, op: Op, world: &mut World, args: &[Value]) -> Result<OpEnd, AllocError>
    ensures { IfOk result (λ e. DidIn (spec.by_family op world.old.heap args.now) world.old world.new e) }
{
    let family = family_of(&world.heap, args);
    family_row(alloc, family, op, world, args)
}

/// What the operation does to arguments that fit it: how it ends, and the world after it. A sound world stays sound, and the end
/// names only objects of it.
pub fn apply(alloc: Global, op: Op, world: &mut World, args: &[Value]) -> Result<OpEnd, AllocError>
    requires fit { fits op world.old args.now ≡ true }
    ensures end { IfOk result (λ e. e ≡ (spec.row op world.old args.now).end) }
    ensures world { OnOk result (world.new ≡ after world.old (spec.row op world.old args.now)) }
    ensures sound { Sound world.old → OnOk result (Sound world.new) }
    ensures names { Sound world.old → IfOk result (λ e. EndIn world.new.heap e) }
{
    rows_keep_sound();
    table_row(alloc, op, world, args)
}

// The row of the table.
fn table_row(alloc: Global, op: Op, world: &mut World, args: &[Value]) -> Result<OpEnd, AllocError>
    ensures end { IfOk result (λ e. e ≡ (spec.row op world.old args.now).end) }
    ensures world { OnOk result (world.new ≡ after world.old (spec.row op world.old args.now)) }
{
    let end = done(alloc, op, world, args)?;
    bound(alloc, world, end)
}

/// What isn't there yet.
pub fn unbuilt() -> Result<OpEnd, AllocError>
    ensures { result ≡ Ok (opend.Stop stop.Unbuilt) }
{
    Ok(OpEnd::Stop(StopKind::Unbuilt))
}

fn comparing(alloc: Global, op: Op, world: &mut World, args: &[Value]) -> Result<OpEnd, AllocError>
    ensures { IfOk result (λ e. DidIn (ends (other_row op world.old.heap args.now)) world.old world.new e) }
{
    apply_int(alloc, op, &mut world.heap, &world.codes, args)
}

// Whether a value is true.
fn testing(alloc: Global, op: Op, world: &mut World, args: &[Value]) -> Result<OpEnd, AllocError>
    ensures { IfOk result (λ e. DidIn (spec.truth_of (families.family_at_first world.old.heap args.now) op world.old.heap args.now) world.old world.new e) }
{
    match family_at_first(&world.heap, args) {
        Family::Classes => family_row(alloc, Family::Classes, op, world, args),
        _ => comparing(alloc, op, world, args),
    }
}

// An operation that goes by the kind of its first operand.
fn accessing(alloc: Global, op: Op, world: &mut World, args: &[Value]) -> Result<OpEnd, AllocError>
    ensures { IfOk result (λ e. DidIn (spec.family_row (families.family_at_first world.old.heap args.now) op world.old.heap args.now) world.old world.new e) }
{
    let family = family_at_first(&world.heap, args);
    family_row(alloc, family, op, world, args)
}

// An operation that goes by the kind of its second operand.
fn containing(alloc: Global, op: Op, world: &mut World, args: &[Value]) -> Result<OpEnd, AllocError>
    ensures { IfOk result (λ e. DidIn (spec.family_row (families.family_at_second world.old.heap args.now) op world.old.heap args.now) world.old world.new e) }
{
    let family = family_at_second(&world.heap, args);
    family_row(alloc, family, op, world, args)
}

/// What an operation does that calls nothing.
pub fn row_of(alloc: Global, op: Op, world: &mut World, args: &[Value]) -> Result<OpEnd, AllocError>
    ensures { IfOk result (λ e. DidIn (spec.row_of (spec.group op) op world.old args.now) world.old world.new e) }
{
    match op {
        Op::Global
        | Op::SetGlobal
        | Op::DelGlobal
        | Op::Local
        | Op::Cell
        | Op::CellSet
        | Op::CellGet
        | Op::CellDel
        | Op::FreeGet
        | Op::FreeDel => names_row(alloc, op, world, args),
        Op::Space | Op::SpaceGet | Op::SpaceSet | Op::SpaceDel | Op::Native => spaces_row(
            alloc, op, world, args,
        ),
        Op::Tuple | Op::List | Op::Push | Op::Extend | Op::Unpack | Op::UnpackStar => family_row(
            alloc,
            Family::Sequences,
            op,
            world,
            args,
        ),
        Op::Dict | Op::Put | Op::Merge | Op::KeyPut | Op::KeyMerge => family_row(
            alloc,
            Family::Dicts,
            op,
            world,
            args,
        ),
        Op::Class
        | Op::Attr
        | Op::SetAttr
        | Op::DelAttr
        | Op::Find
        | Op::Manager
        | Op::Exc
        | Op::Raise
        | Op::Match
        | Op::ClassOf
        | Op::Trace => classing(alloc, op, world, args),
        Op::Eq | Op::Ne | Op::Is | Op::IsNot | Op::Not => comparing(alloc, op, world, args),
        Op::Truth => testing(alloc, op, world, args),
        Op::Index | Op::SetIndex | Op::DelIndex | Op::Slice | Op::Iter | Op::Next => accessing(
            alloc, op, world, args,
        ),
        Op::In => containing(alloc, op, world, args),
        Op::Func | Op::Call | Op::CallX => unbuilt(),
        Op::Add
        | Op::Sub
        | Op::Mul
        | Op::FloorDiv
        | Op::Mod
        | Op::Pow
        | Op::LShift
        | Op::RShift
        | Op::And
        | Op::Or
        | Op::Xor
        | Op::Neg
        | Op::Pos
        | Op::Inv
        | Op::IAdd
        | Op::IMul
        | Op::Lt
        | Op::Le
        | Op::Gt
        | Op::Ge => by_family(alloc, op, world, args),
    }
}

// What the operation does before a function that it asks is bound.
fn done(alloc: Global, op: Op, world: &mut World, args: &[Value]) -> Result<OpEnd, AllocError>
    ensures { IfOk result (λ e. DidIn (spec.doing op world.old args.now) world.old world.new e) }
{
    match op {
        Op::Func => apply_call(alloc, Op::Func, &mut world.heap, &world.codes, args),
        Op::Call => call(alloc, world, args),
        Op::CallX => callx(alloc, world, args),
        _ => row_of(alloc, op, world, args),
    }
}
