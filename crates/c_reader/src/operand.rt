//! Operands, and the statements' parts that are made of them.

ghost use Rattle.std.specs.Prelude.{◌≡◌, ◌++◌, ℕ, ℤ, Bool, List, IfOk, IfSome, IfNone, true, codes};
ghost use Rattle.nu_text.specs.Decimals.{ends_decimal};
ghost use Rattle.op_forms.specs.declared.constant.Const.{Const as Constant};
ghost use Rattle.op_forms.specs.declared.constant.Const.TheVariants as const;
ghost use Rattle.code_forms.specs.declared.operand.Operand.{Operand};
ghost use Rattle.code_forms.specs.declared.operand.Operand.TheVariants as operand;
ghost use Rattle.c_reader.specs.Statements.{OperandStands, ValuedStands, JumpStands, KeptStands};

use crate::number::{NUMBERS, after, bare_number, field, integer, number};
use crate::spelling::string;
use c_meaning::Operand;
use nu_text::RcStr;
use op_forms::Const;
use std::alloc::{AllocError, Global};

// The number of a declared register.
fn register(text: &[u8], registers: u64) -> Option<(u64, &[u8])>
    ensures some { IfSome result
        (λ found. OperandStands registers text.now (operand.Temp found.0) found.1.now) }
    ensures none { IfNone result ((n : ℕ) (rest : List ℕ)
        → OperandStands registers text.now (operand.Temp n) rest → ⊥) }
{
    let rest = after(text, b"r")?;
    bare_number(rest, u128::from(registers))
}

// The truth value of a constant.
fn truth(text: &[u8], registers: u64) -> Option<(bool, &[u8])>
    ensures some { IfSome result
        (λ found. OperandStands registers text.now (operand.Const (const.Bool found.0)) found.1.now) }
    ensures none { IfNone result ((b : Bool) (rest : List ℕ)
        → OperandStands registers text.now (operand.Const (const.Bool b)) rest → ⊥) }
{
    let _registers = registers;
    if let Some(rest) = after(text, b"nu_true") {
        return Some((true, rest));
    }
    let rest = after(text, b"nu_false")?;
    Some((false, rest))
}

// The number of an integer constant.
fn int(text: &[u8], registers: u64) -> Option<(i128, &[u8])>
    ensures some { IfSome result
        (λ found. OperandStands registers text.now (operand.Const (const.Int found.0)) found.1.now) }
    ensures none { IfNone result ((z : ℤ) (rest : List ℕ)
        → OperandStands registers text.now (operand.Const (const.Int z)) rest → ⊥) }
{
    let _registers = registers;
    let rest = after(text, b"nu_int(\"")?;
    integer(rest, b"\")")
}

// The text of a text constant.
fn text_constant(
    alloc: Global,
    text: &[u8],
    registers: u64,
) -> Result<Option<(RcStr, &[u8])>, AllocError>
    ensures some { IfOk result (λ read. IfSome read
        (λ found. OperandStands registers text.now (operand.Const (const.Str found.0)) found.1.now)) }
    ensures none { IfOk result (λ read. IfNone read ((bytes rest : List ℕ)
        → OperandStands registers text.now (operand.Const (const.Str bytes)) rest → ⊥)) }
{
    let _registers = registers;
    let Some(rest) = after(text, b"nu_str(") else {
        return Ok(None);
    };
    let Some((bytes, rest)) = string(alloc, rest)? else {
        return Ok(None);
    };
    let Some(rest) = after(rest, b")") else {
        return Ok(None);
    };
    Ok(Some((bytes, rest)))
}

// The constant at the front of the text, and what follows.
fn constant(
    alloc: Global,
    text: &[u8],
    registers: u64,
) -> Result<Option<(Const, &[u8])>, AllocError>
    ensures some { IfOk result (λ read. IfSome read
        (λ found. OperandStands registers text.now (operand.Const found.0) found.1.now)) }
    ensures none { IfOk result (λ read. IfNone read ((c : Constant) (rest : List ℕ)
        → OperandStands registers text.now (operand.Const c) rest → ⊥)) }
{
    if let Some(rest) = after(text, b"nu_none") {
        return Ok(Some((Const::None, rest)));
    }
    if let Some((truth, rest)) = truth(text, registers) {
        return Ok(Some((Const::Bool(truth), rest)));
    }
    if let Some((z, rest)) = int(text, registers) {
        return Ok(Some((Const::Int(z), rest)));
    }
    if let Some((bytes, rest)) = text_constant(alloc, text, registers)? {
        return Ok(Some((Const::Str(bytes), rest)));
    }
    Ok(None)
}

/// The operand at the front of the text, and what follows.
pub(crate) fn operand(
    alloc: Global,
    text: &[u8],
    registers: u64,
) -> Result<Option<(Operand, &[u8])>, AllocError>
    ensures some { IfOk result
        (λ read. IfSome read (λ found. OperandStands registers text.now found.0 found.1.now)) }
    ensures none { IfOk result (λ read. IfNone read ((a : Operand) (rest : List ℕ)
        → OperandStands registers text.now a rest → ⊥)) }
{
    if let Some((n, rest)) = register(text, registers) {
        return Ok(Some((Operand::Temp(n), rest)));
    }
    if let Some((constant, rest)) = constant(alloc, text, registers)? {
        return Ok(Some((Operand::Const(constant), rest)));
    }
    Ok(None)
}

/// The operand that stands between two pieces at the front of the text, and what follows.
pub(crate) fn valued<'a>(
    alloc: Global,
    text: &'a [u8],
    registers: u64,
    opening: &[u8],
    closing: &[u8],
) -> Result<Option<(Operand, &'a [u8])>, AllocError>
    requires { ends_decimal closing.now ≡ true }
    ensures some { IfOk result (λ read. IfSome read
        (λ found. ValuedStands registers opening.now closing.now text.now found.0 found.1.now)) }
    ensures none { IfOk result (λ read. IfNone read ((a : Operand) (rest : List ℕ)
        → ValuedStands registers opening.now closing.now text.now a rest → ⊥)) }
{
    let Some(behind) = after(text, opening) else {
        return Ok(None);
    };
    let Some((value, behind)) = operand(alloc, behind, registers)? else {
        return Ok(None);
    };
    let Some(rest) = after(behind, closing) else {
        return Ok(None);
    };
    Ok(Some((value, rest)))
}

/// The operand that stands between two pieces at the front of the text, the label to which the statement jumps, and what
/// follows.
pub(crate) fn jump<'a>(
    alloc: Global,
    text: &'a [u8],
    registers: u64,
    opening: &[u8],
    closing: &[u8],
) -> Result<Option<(Operand, u64, &'a [u8])>, AllocError>
    requires { ends_decimal closing.now ≡ true }
    ensures some { IfOk result (λ read. IfSome read (λ found. JumpStands
        registers opening.now closing.now text.now found.0 found.1 found.2.now)) }
    ensures none { IfOk result
        (λ read. IfNone read ((a : Operand) (label : ℕ) (rest : List ℕ)
        → JumpStands registers opening.now closing.now text.now a label rest → ⊥)) }
{
    let Some((value, behind)) = valued(alloc, text, registers, opening, closing)? else {
        return Ok(None);
    };
    let Some((label, rest)) = number(behind, NUMBERS, b";\n") else {
        return Ok(None);
    };
    Ok(Some((value, label, rest)))
}

/// The number and the operand behind an opening piece at the front of the text, and what follows.
pub(crate) fn kept<'a>(
    alloc: Global,
    text: &'a [u8],
    registers: u64,
    opening: &[u8],
) -> Result<Option<(u64, Operand, &'a [u8])>, AllocError>
    ensures some { IfOk result (λ read. IfSome read
        (λ found. KeptStands registers opening.now text.now found.0 found.1 found.2.now)) }
    ensures none { IfOk result (λ read. IfNone read ((n : ℕ) (a : Operand) (rest : List ℕ)
        → KeptStands registers opening.now text.now n a rest → ⊥)) }
{
    let Some((n, behind)) = field(text, opening, NUMBERS, b", ") else {
        return Ok(None);
    };
    let Some((value, rest)) = valued(alloc, behind, registers, b"", b");\n")? else {
        return Ok(None);
    };
    Ok(Some((n, value, rest)))
}
