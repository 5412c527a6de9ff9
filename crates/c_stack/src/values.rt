//! What statements read.

ghost use Rattle.std.specs.Prelude.{◌≡◌, Some, IfOk, IsOk, slice_get, false};
ghost use Rattle.nu_value.specs.View.{is_text};
ghost use Rattle.op_forms.specs.Constants.{value_of};
ghost use Rattle.c_meaning.specs.Step as meaning;
ghost use Rattle.c_stack.specs.Values.{bool_of, takes_text};

use c_meaning::Operand;
use nu_value::{Integer, Items, Slots, Value};
use op_forms::Const;
use std::alloc::AllocError;

/// What an operand holds, if it has a value.
#[inline]
pub fn held(registers: &Slots, operand: &Operand) -> Result<Option<Value>, AllocError>
    ensures same { IfOk result (λ v. v ≡ meaning.operand_value registers.now operand.now) }
    ensures sure { takes_text (meaning.operand_value registers.now operand.now) ≡ false → IsOk result }
{
    match operand {
        Operand::Temp(register) => match registers.get(*register as usize) {
            Some(Some(value)) => Ok(Some(value.copy()?)),
            _ => Ok(None),
        },
        Operand::Const(constant) => Ok(Some(constant_value(constant)?)),
    }
}

// The value of a constant.
#[inline]
fn constant_value(constant: &Const) -> Result<Value, AllocError>
    ensures same { IfOk result (λ v. v ≡ value_of constant.now) }
    ensures sure { is_text (value_of constant.now) ≡ false → IsOk result }
{
    match constant {
        Const::None => Ok(Value::None),
        Const::Bool(truth) => Ok(Value::Bool(*truth)),
        Const::Int(number) => Ok(Value::Int(Integer::new(*number))),
        Const::Str(text) => Ok(Value::Str(text.share()?)),
    }
}

// The bool that an operand holds, if it is one.
#[inline]
pub(crate) fn truth(registers: &Slots, operand: &Operand) -> Option<bool>
    ensures { result ≡ bool_of (meaning.operand_value registers.now operand.now) }
{
    match operand {
        Operand::Temp(register) => match registers.get(*register as usize) {
            Some(Some(Value::Bool(truth))) => Some(*truth),
            _ => None,
        },
        Operand::Const(constant) => constant_truth(constant),
    }
}

// The bool that a constant is, if it is one.
#[inline]
fn constant_truth(constant: &Const) -> Option<bool>
    ensures { result ≡ bool_of (Some (value_of constant.now)) }
{
    match constant {
        Const::Bool(truth) => Some(*truth),
        _ => None,
    }
}

// A copy of the value at a place, if there is one.
pub(crate) fn value_at(values: &Items, place: u64) -> Result<Option<Value>, AllocError>
    ensures same { IfOk result (λ v. v ≡ slice_get values.now place) }
    ensures sure { takes_text (slice_get values.now place) ≡ false → IsOk result }
{
    match values.get(place as usize) {
        Some(value) => Ok(Some(value.copy()?)),
        None => Ok(None),
    }
}
