//! Operands and arguments.

ghost use Rattle.std.specs.Prelude.{◌≡◌, ◌++◌, ℕ, ℤ, Bool, List, IfOk, IfSome, IfNone, false, codes};
ghost use Rattle.nu_text.specs.Decimals.{starts_digit};
ghost use Rattle.op_forms.specs.declared.constant.Const.{Const as Constant};
ghost use Rattle.op_forms.specs.declared.constant.Const.TheVariants as const;
ghost use Rattle.code_forms.specs.declared.operand.Operand.{Operand};
ghost use Rattle.code_forms.specs.declared.operand.Operand.TheVariants as operand;
ghost use Rattle.code_forms.specs.declared.operand.Argument.{Argument};
ghost use Rattle.node_reader.specs.Lines.{WordStands, SizeStands, WholeStands, EndedStringStands, ConstantStands, OperandStands, ArgumentStands, OperandsStand, ArgumentsStand};

use c_reader::number::{NUMBERS, after, bare_number, begins_with_digit};
use c_reader::spelling::string;
use node_tree::{Argument, Operand};
use nu_text::{RcStr, leading_decimal};
use op_forms::Const;
use sqlite_items::Items;
use std::alloc::{AllocError, Global};

// What follows the word, where the text begins with it and no digit follows.
fn after_word<'a>(text: &'a [u8], word: &[u8]) -> Option<&'a [u8]>
    ensures some { IfSome result (λ rest. WordStands word.now text.now rest.now) }
    ensures none { IfNone result ((rest : List ℕ) → WordStands word.now text.now rest → ⊥) }
{
    let rest = after(text, word)?;
    if begins_with_digit(rest) {
        return None;
    }
    Some(rest)
}

const FIRST_TOO_LARGE: u128 = 1 << 127;

// The size of a number below the limit, and what follows.
fn size(text: &[u8], limit: u128) -> Option<(u128, &[u8])>
    ensures some { IfSome result (λ found. SizeStands limit text.now found.0 found.1.now) }
    ensures none { IfNone result ((n : ℕ) (rest : List ℕ)
        → SizeStands limit text.now n rest → ⊥) }
{
    let (size, rest) = leading_decimal(text)?;
    if size < limit {
        Some((size, rest))
    } else {
        None
    }
}

// The number from -2^127 to 2^127 - 1 that begins the text, and what follows.
fn whole(text: &[u8]) -> Option<(i128, &[u8])>
    ensures some { IfSome result (λ found. WholeStands text.now found.0 found.1.now) }
    ensures none { IfNone result ((z : ℤ) (rest : List ℕ) → WholeStands text.now z rest → ⊥) }
{
    match after(text, b"-") {
        Some(digits) => {
            let (size, rest) = size(digits, FIRST_TOO_LARGE + 1)?;
            // There is no -0.
            let less = size.checked_sub(1)?;
            Some((-1 - less as i128, rest))
        }
        None => {
            let (size, rest) = size(text, FIRST_TOO_LARGE)?;
            Some((size as i128, rest))
        }
    }
}

// The truth value of a constant.
fn truth(text: &[u8]) -> Option<(bool, &[u8])>
    ensures some { IfSome result
        (λ found. ConstantStands text.now (const.Bool found.0) found.1.now) }
    ensures none { IfNone result ((b : Bool) (rest : List ℕ)
        → ConstantStands text.now (const.Bool b) rest → ⊥) }
{
    if let Some(rest) = after_word(text, b"true") {
        return Some((true, rest));
    }
    let rest = after_word(text, b"false")?;
    Some((false, rest))
}

// The number of an integer constant.
fn int(text: &[u8]) -> Option<(i128, &[u8])>
    ensures some { IfSome result
        (λ found. ConstantStands text.now (const.Int found.0) found.1.now) }
    ensures none { IfNone result ((z : ℤ) (rest : List ℕ)
        → ConstantStands text.now (const.Int z) rest → ⊥) }
{
    let behind = after(text, b"int ")?;
    whole(behind)
}

// The text that a string spells, behind which no digit follows.
fn ended_string(alloc: Global, text: &[u8]) -> Result<Option<(RcStr, &[u8])>, AllocError>
    ensures some { IfOk result (λ read. IfSome read
        (λ found. EndedStringStands text.now found.0 found.1.now)) }
    ensures none { IfOk result (λ read. IfNone read ((bytes rest : List ℕ)
        → EndedStringStands text.now bytes rest → ⊥)) }
{
    let Some((bytes, rest)) = string(alloc, text)? else {
        return Ok(None);
    };
    if begins_with_digit(rest) {
        return Ok(None);
    }
    Ok(Some((bytes, rest)))
}

// The text of a text constant.
fn text_constant(alloc: Global, text: &[u8]) -> Result<Option<(RcStr, &[u8])>, AllocError>
    ensures some { IfOk result (λ read. IfSome read
        (λ found. ConstantStands text.now (const.Str found.0) found.1.now)) }
    ensures none { IfOk result (λ read. IfNone read ((bytes rest : List ℕ)
        → ConstantStands text.now (const.Str bytes) rest → ⊥)) }
{
    let Some(behind) = after(text, b"str ") else {
        return Ok(None);
    };
    ended_string(alloc, behind)
}

/// The constant at the front of the text, and what follows.
pub(crate) fn constant(alloc: Global, text: &[u8]) -> Result<Option<(Const, &[u8])>, AllocError>
    ensures some { IfOk result
        (λ read. IfSome read (λ found. ConstantStands text.now found.0 found.1.now)) }
    ensures none { IfOk result (λ read. IfNone read ((c : Constant) (rest : List ℕ)
        → ConstantStands text.now c rest → ⊥)) }
{
    if let Some(rest) = after_word(text, b"none") {
        return Ok(Some((Const::None, rest)));
    }
    if let Some((truth, rest)) = truth(text) {
        return Ok(Some((Const::Bool(truth), rest)));
    }
    if let Some((z, rest)) = int(text) {
        return Ok(Some((Const::Int(z), rest)));
    }
    if let Some((bytes, rest)) = text_constant(alloc, text)? {
        return Ok(Some((Const::Str(bytes), rest)));
    }
    Ok(None)
}

// The number of a temporary.
fn temp(text: &[u8]) -> Option<(u64, &[u8])>
    ensures some { IfSome result
        (λ found. OperandStands text.now (operand.Temp found.0) found.1.now) }
    ensures none { IfNone result ((n : ℕ) (rest : List ℕ)
        → OperandStands text.now (operand.Temp n) rest → ⊥) }
{
    let behind = after(text, b"t")?;
    bare_number(behind, NUMBERS)
}

/// The operand at the front of the text, and what follows.
pub(crate) fn operand(alloc: Global, text: &[u8]) -> Result<Option<(Operand, &[u8])>, AllocError>
    ensures some { IfOk result
        (λ read. IfSome read (λ found. OperandStands text.now found.0 found.1.now)) }
    ensures none { IfOk result (λ read. IfNone read ((a : Operand) (rest : List ℕ)
        → OperandStands text.now a rest → ⊥)) }
{
    if let Some((n, rest)) = temp(text) {
        return Ok(Some((Operand::Temp(n), rest)));
    }
    if let Some((constant, rest)) = constant(alloc, text)? {
        return Ok(Some((Operand::Const(constant), rest)));
    }
    Ok(None)
}

// The argument at the front of the text behind its space, and what follows.
fn argument(alloc: Global, text: &[u8]) -> Result<Option<(Argument, &[u8])>, AllocError>
    ensures some { IfOk result (λ read. IfSome read
        (λ found. ArgumentStands (codes " " ++ text.now) found.0 found.1.now)) }
    ensures none { IfOk result (λ read. IfNone read ((a : Argument) (rest : List ℕ)
        → ArgumentStands (codes " " ++ text.now) a rest → ⊥)) }
{
    if let Some((name, rest)) = ended_string(alloc, text)? {
        return Ok(Some((Argument::Name(name), rest)));
    }
    if let Some((value, rest)) = operand(alloc, text)? {
        return Ok(Some((Argument::Value(value), rest)));
    }
    Ok(None)
}

/// All operands at the front of the text, each behind its space, and what follows.
pub(crate) fn operands(
    alloc: Global,
    text: &[u8],
) -> Result<Option<(Items<Operand>, &[u8])>, AllocError>
    requires { starts_digit text.now ≡ false }
    ensures some { IfOk result
        (λ read. IfSome read (λ found. OperandsStand text.now found.0 found.1.now)) }
    ensures none { IfOk result (λ read. IfNone read ((given : List Operand) (rest : List ℕ)
        → OperandsStand text.now given rest → ⊥)) }
{
    let mut given = Items::new(alloc);
    let mut rest = text;
    while let Some(behind) = after(rest, b" ") {
        let Some((one, behind)) = operand(alloc, behind)? else {
            return Ok(None);
        };
        given.push(one)?;
        rest = behind;
    }
    Ok(Some((given, rest)))
}

/// All arguments at the front of the text, each behind its space, and what follows.
pub(crate) fn arguments(
    alloc: Global,
    text: &[u8],
) -> Result<Option<(Items<Argument>, &[u8])>, AllocError>
    requires { starts_digit text.now ≡ false }
    ensures some { IfOk result
        (λ read. IfSome read (λ found. ArgumentsStand text.now found.0 found.1.now)) }
    ensures none { IfOk result (λ read. IfNone read ((given : List Argument) (rest : List ℕ)
        → ArgumentsStand text.now given rest → ⊥)) }
{
    let mut given = Items::new(alloc);
    let mut rest = text;
    while let Some(behind) = after(rest, b" ") {
        let Some((one, behind)) = argument(alloc, behind)? else {
            return Ok(None);
        };
        given.push(one)?;
        rest = behind;
    }
    Ok(Some((given, rest)))
}
