//! Operations.

ghost use Rattle.std.specs.Prelude.{◌≡◌, ◌++◌, ℕ, List, IfOk, IfSome, IfNone};
ghost use Rattle.std.specs.List.{AllByRecursion};
ghost use Rattle.op_forms.specs.declared.op.Op.{Op};
ghost use Rattle.code_forms.specs.declared.operand.Argument.{Argument};
ghost use Rattle.c_meaning.specs.declared.program.Stored.TheVariants as stored;
ghost use Rattle.c_reader.specs.Statements.{NameStands, HeadStands, StoredStands};

use crate::argument::{arguments, takes_all};
use crate::number::{LINES, NUMBERS, after, bare_number, field};
use c_meaning::Stored;
use op_forms::{OPS, Op};
use std::alloc::{AllocError, Global};

// What follows the name of this operation and its frame.
fn behind_name(text: &[u8], op: Op) -> Option<&[u8]>
    ensures some { IfSome result (λ rest. NameStands text.now op rest.now) }
    ensures none { IfNone result ((rest : List ℕ) → NameStands text.now op rest → ⊥) }
{
    let behind = after(text, op.name().as_bytes())?;
    after(behind, b"(fr, ")
}

// The operation of the table of which the name stands at the front of the text, and what follows.
fn name_among<'a>(table: &[Op], text: &'a [u8]) -> Option<(Op, &'a [u8])>
    ensures some { IfSome result (λ found. NameStands text.now found.0 found.1.now) }
    ensures none { IfNone result
        (AllByRecursion (λ o. (rest : List ℕ) → NameStands text.now o rest → ⊥) table.now) }
{
    for op in table {
        if let Some(rest) = behind_name(text, *op) {
            return Some((*op, rest));
        }
    }
    None
}

// The operation of which the name stands at the front of the text, and what follows.
fn name(text: &[u8]) -> Option<(Op, &[u8])>
    ensures some { IfSome result (λ found. NameStands text.now found.0 found.1.now) }
    ensures none { IfNone result ((o : Op) (rest : List ℕ) → NameStands text.now o rest → ⊥) }
{
    name_among(&OPS, text)
}

// The operation and its line, and what follows.
fn head(text: &[u8]) -> Option<(Op, u32, &[u8])>
    ensures some { IfSome result (λ found. HeadStands text.now found.0 found.1 found.2.now) }
    ensures none { IfNone result ((o : Op) (at : ℕ) (rest : List ℕ)
        → HeadStands text.now o at rest → ⊥) }
{
    let behind = after(text, b"nu_")?;
    let (op, behind) = name(behind)?;
    let (line, rest) = bare_number(behind, LINES)?;
    Some((op, line as u32, rest))
}

/// The operation at the front of the text, and what follows.
pub(crate) fn operation(
    alloc: Global,
    text: &[u8],
    registers: u64,
) -> Result<Option<(Stored, &[u8])>, AllocError>
    ensures some { IfOk result
        (λ read. IfSome read (λ found. StoredStands registers text.now found.0 found.1.now)) }
    ensures none { IfOk result (λ read. IfNone read
        ((o : Op) (at : ℕ) (given : List Argument) (fail : ℕ) (rest : List ℕ)
        → StoredStands registers text.now (stored.Operation o at given fail) rest → ⊥)) }
{
    let Some((op, line, behind)) = head(text) else {
        return Ok(None);
    };
    let Some((arguments, behind)) = arguments(alloc, behind, registers)? else {
        return Ok(None);
    };
    let Some((fail, rest)) = field(behind, b"); if (nu_bad(fr)) goto L", NUMBERS, b";\n") else {
        return Ok(None);
    };
    if !takes_all(op, arguments.as_slice()) {
        return Ok(None);
    }
    Ok(Some((
        Stored::Operation {
            op,
            line,
            arguments,
            fail,
        },
        rest,
    )))
}
