//! Operations that are done at once: arguments are read where they lie, and nothing takes memory.

ghost use Rattle.std.specs.Prelude.{◌≡◌, ◌∷◌, [], IfSome, None, Some, option_copied};
ghost use Rattle.nu_value.specs.declared.value.Value.TheVariants as value;
ghost use Rattle.op_forms.specs.declared.op.Op.TheVariants as op;
ghost use Rattle.code_forms.specs.declared.operand.Argument.TheVariants as argument;
ghost use Rattle.runtime_table.specs.Quick.{IsQuick};
ghost use Rattle.c_meaning.specs.Step as meaning;
ghost use Rattle.c_machine.specs.Quick.{Gives, LeadsTo, constant_of};

use crate::hints::Hints;
use c_meaning::{Argument, Operand};
use nu_value::{Integer, Slots, Value};
use op_forms::{Const, Op, World};
use runtime_table::{
    quick_attr, quick_cell, quick_global, quick_local, quick_native, quick_next, quick_one,
    quick_set_attr, quick_set_cell, quick_set_global, quick_set_index, quick_two,
};

// What an operand holds if it is a constant; Unset for a register.
#[inline]
fn constant(operand: &Operand) -> Option<Value>
    ensures { IfSome result (λ v. v ≡ constant_of operand.now) }
{
    match operand {
        Operand::Temp(_) => Some(Value::Unset),
        Operand::Const(Const::None) => Some(Value::None),
        Operand::Const(Const::Bool(truth)) => Some(Value::Bool(*truth)),
        Operand::Const(Const::Int(number)) => Some(Value::Int(Integer::new(*number))),
        Operand::Const(Const::Str(text)) => match text.share() {
            Ok(text) => Some(Value::Str(text)),
            Err(_) => None,
        },
    }
}

// What an operand holds, if it has a value, given what it holds if it is a constant.
#[inline]
fn lent<'a>(registers: &'a Slots, operand: &Operand, constant: &'a Value) -> Option<&'a Value>
    requires { constant.now ≡ constant_of operand.now }
    ensures { option_copied result ≡ meaning.operand_value registers.now operand.now }
{
    match operand {
        Operand::Temp(register) => match registers.get(*register as usize) {
            Some(Some(value)) => Some(value),
            _ => None,
        },
        Operand::Const(_) => Some(constant),
    }
}

// What a register holds, if it has a value; None for a constant.
#[inline]
fn register<'a>(registers: &'a Slots, operand: &Operand) -> Option<&'a Value>
    ensures { IfSome result (λ v. meaning.operand_value registers.now operand.now ≡ Some v.now) }
{
    match operand {
        Operand::Temp(register) => match registers.get(*register as usize) {
            Some(Some(value)) => Some(value),
            _ => None,
        },
        Operand::Const(_) => None,
    }
}

// An operation on one value.
#[inline(never)]
fn on_one(world: &World, registers: &Slots, op: Op, a: &Operand) -> Option<Value>
    ensures { IfSome result (λ v. Gives op world.now (meaning.values registers.now (argument.Value a.now ∷ [])) v) }
{
    let a = register(registers, a)?;
    quick_one(world, op, a)
}

// An operation on two values.
#[inline(never)]
fn on_two(world: &World, registers: &Slots, op: Op, a: &Operand, b: &Operand) -> Option<Value>
    ensures { IfSome result (λ v. Gives op world.now (meaning.values registers.now (argument.Value a.now ∷ argument.Value b.now ∷ [])) v) }
{
    let first = constant(a)?;
    let second = constant(b)?;
    let x = lent(registers, a, &first)?;
    let y = lent(registers, b, &second)?;
    quick_two(world, op, x, y)
}

// What a cell holds, for either kind of cell.
#[inline]
fn content(world: &World, cell: &Value, name: &str) -> Option<Value>
    ensures own { IfSome result (λ v. IsQuick op.CellGet world.now (cell.now ∷ value.Str name.now ∷ []) v) }
    ensures free { IfSome result (λ v. IsQuick op.FreeGet world.now (cell.now ∷ value.Str name.now ∷ []) v) }
{
    match quick_cell(world, cell, name)?.copy() {
        Ok(copy) => Some(copy),
        Err(_) => None,
    }
}

// A variable of a function, or an attribute.
#[inline(never)]
fn of_name(world: &World, registers: &Slots, op: Op, a: &Operand, name: &str) -> Option<Value>
    ensures { IfSome result (λ v. Gives op world.now (meaning.values registers.now (argument.Value a.now ∷ argument.Name name.now ∷ [])) v) }
{
    let a = register(registers, a)?;
    match op {
        Op::Local => quick_local(world, a, name),
        Op::CellGet | Op::FreeGet => content(world, a, name),
        Op::Attr => quick_attr(world, a, name),
        _ => None,
    }
}

// A name of the module or a built-in one, and its place.
#[inline]
fn found<'a>(world: &'a World, op: Op, name: &str, near: usize) -> Option<(usize, &'a Value)>
    ensures { IfSome result (λ p. IsQuick op world.now (value.Str name.now ∷ []) p.1.now) }
{
    match op {
        Op::Global => quick_global(world, name, near),
        Op::Native => quick_native(world, name, near),
        _ => None,
    }
}

// The value of such a name.
#[inline(never)]
fn by_name(world: &World, op: Op, name: &str, seat: usize, hints: &mut Hints) -> Option<Value>
    ensures { IfSome result (λ v. IsQuick op world.now (value.Str name.now ∷ []) v) }
{
    let near = hints.near(seat);
    let (place, value) = found(world, op, name, near)?;
    if place != near {
        hints.keep(seat, place);
    }
    match value.copy() {
        Ok(copy) => Some(copy),
        Err(_) => None,
    }
}

// An operation that changes nothing.
#[inline]
fn given(
    world: &World,
    registers: &Slots,
    op: Op,
    arguments: &[Argument],
    seat: usize,
    hints: &mut Hints,
) -> Option<Value>
    ensures { IfSome result (λ v. Gives op world.now (meaning.values registers.now arguments.now) v) }
{
    match arguments {
        [Argument::Value(a), Argument::Value(b)] => on_two(world, registers, op, a, b),
        [Argument::Value(a), Argument::Name(name)] => of_name(
            world,
            registers,
            op,
            a,
            name.as_str(),
        ),
        [Argument::Value(a)] => on_one(world, registers, op, a),
        [Argument::Name(name)] => by_name(world, op, name.as_str(), seat, hints),
        _ => None,
    }
}

// The next item of an iterator.
#[inline(never)]
fn next(world: &mut World, registers: &Slots, arguments: &[Argument]) -> Option<Value>
    ensures goes { IfSome result (λ v. LeadsTo op.Next world.old (meaning.values registers.now arguments.now) v world.new) }
    ensures same { result ≡ None → world.new ≡ world.old }
{
    let [Argument::Value(a)] = arguments else {
        return None;
    };
    let a = register(registers, a)?;
    quick_next(world, a)
}

// An item of a list or a dict is set.
#[inline(never)]
fn set_index(world: &mut World, registers: &Slots, arguments: &[Argument]) -> Option<Value>
    ensures goes { IfSome result (λ v. LeadsTo op.SetIndex world.old (meaning.values registers.now arguments.now) v world.new) }
    ensures same { result ≡ None → world.new ≡ world.old }
{
    let [
        Argument::Value(a),
        Argument::Value(index),
        Argument::Value(item),
    ] = arguments
    else {
        return None;
    };
    let a = register(registers, a)?;
    let second = constant(index)?;
    let third = constant(item)?;
    let index = lent(registers, index, &second)?;
    let item = lent(registers, item, &third)?;
    if quick_set_index(world, a, index, item) {
        Some(Value::None)
    } else {
        None
    }
}

// A cell gets a value.
#[inline(never)]
fn set_cell(world: &mut World, registers: &Slots, arguments: &[Argument]) -> Option<Value>
    ensures goes { IfSome result (λ v. LeadsTo op.CellSet world.old (meaning.values registers.now arguments.now) v world.new) }
    ensures same { result ≡ None → world.new ≡ world.old }
{
    let [Argument::Value(cell), Argument::Value(a)] = arguments else {
        return None;
    };
    let cell = register(registers, cell)?;
    let second = constant(a)?;
    let a = lent(registers, a, &second)?;
    if quick_set_cell(world, cell, a) {
        Some(Value::None)
    } else {
        None
    }
}

// A name of the module that is there gets a value.
#[inline(never)]
fn set_global(
    world: &mut World,
    registers: &Slots,
    arguments: &[Argument],
    seat: usize,
    hints: &mut Hints,
) -> Option<Value>
    ensures goes { IfSome result (λ v. LeadsTo op.SetGlobal world.old (meaning.values registers.now arguments.now) v world.new) }
    ensures same { result ≡ None → world.new ≡ world.old }
{
    let [Argument::Name(name), Argument::Value(a)] = arguments else {
        return None;
    };
    let second = constant(a)?;
    let a = lent(registers, a, &second)?;
    let place = quick_set_global(world, name.as_str(), a, hints.near(seat))?;
    hints.keep(seat, place);
    Some(Value::None)
}

// A field of an instance that is there gets a value.
#[inline(never)]
fn set_attr(
    world: &mut World,
    registers: &Slots,
    arguments: &[Argument],
    seat: usize,
    hints: &mut Hints,
) -> Option<Value>
    ensures goes { IfSome result (λ v. LeadsTo op.SetAttr world.old (meaning.values registers.now arguments.now) v world.new) }
    ensures same { result ≡ None → world.new ≡ world.old }
{
    let [
        Argument::Value(of),
        Argument::Name(name),
        Argument::Value(a),
    ] = arguments
    else {
        return None;
    };
    let of = register(registers, of)?;
    let third = constant(a)?;
    let a = lent(registers, a, &third)?;
    let place = quick_set_attr(world, of, name.as_str(), a, hints.near(seat))?;
    hints.keep(seat, place);
    Some(Value::None)
}

/// What an operation gives, where it is done at once; the seat is where its statement keeps a place. Where nothing is answered,
/// nothing is done.
#[inline]
pub(crate) fn at_once(
    world: &mut World,
    registers: &Slots,
    op: Op,
    arguments: &[Argument],
    seat: usize,
    hints: &mut Hints,
) -> Option<Value>
    ensures goes { IfSome result (λ v. LeadsTo op world.old (meaning.values registers.now arguments.now) v world.new) }
    ensures same { result ≡ None → world.new ≡ world.old }
{
    match op {
        Op::Next => next(world, registers, arguments),
        Op::SetIndex => set_index(world, registers, arguments),
        Op::CellSet => set_cell(world, registers, arguments),
        Op::SetGlobal => set_global(world, registers, arguments, seat, hints),
        Op::SetAttr => set_attr(world, registers, arguments, seat, hints),
        _ => given(world, registers, op, arguments, seat, hints),
    }
}
