//! What statements store in registers.

ghost use Rattle.std.specs.Prelude.{ℕ, List, IfOk, IfSome, IfNone};
ghost use Rattle.c_meaning.specs.declared.program.Stored.{Stored};
ghost use Rattle.c_meaning.specs.declared.program.Stored.TheVariants as stored;
ghost use Rattle.c_reader.specs.Statements.{StoredStands};

use crate::number::{LINES, NUMBERS, after, field, number};
use crate::operand::valued;
use crate::operation::operation;
use c_meaning::Stored;
use std::alloc::{AllocError, Global};

// The line and the label of a `nu_sent`, and what follows.
fn sent(text: &[u8], registers: u64) -> Option<(u32, u64, &[u8])>
    ensures some { IfSome result (λ found.
        StoredStands registers text.now (stored.Sent found.0 found.1) found.2.now) }
    ensures none { IfNone result ((at fail : ℕ) (rest : List ℕ)
        → StoredStands registers text.now (stored.Sent at fail) rest → ⊥) }
{
    let _registers = registers;
    let (line, rest) = field(text, b"nu_sent(fr, ", LINES, b"); if (nu_bad(fr)) goto L")?;
    let (fail, rest) = number(rest, NUMBERS, b";\n")?;
    Some((line as u32, fail, rest))
}

/// What is stored, at the front of the text behind the register, to the end of the line; and what follows.
pub(crate) fn stored(
    alloc: Global,
    text: &[u8],
    registers: u64,
) -> Result<Option<(Stored, &[u8])>, AllocError>
    ensures some { IfOk result
        (λ read. IfSome read (λ found. StoredStands registers text.now found.0 found.1.now)) }
    ensures none { IfOk result (λ read. IfNone read ((s : Stored) (rest : List ℕ)
        → StoredStands registers text.now s rest → ⊥)) }
{
    if let Some((value, rest)) = valued(alloc, text, registers, b"", b";\n")? {
        return Ok(Some((Stored::Value(value), rest)));
    }
    if let Some(found) = operation(alloc, text, registers)? {
        return Ok(Some(found));
    }
    if let Some(rest) = after(text, b"nu_unset;\n") {
        return Ok(Some((Stored::Unset, rest)));
    }
    if let Some((n, rest)) = field(text, b"nu_arg(fr, ", NUMBERS, b");\n") {
        return Ok(Some((Stored::Parameter(n), rest)));
    }
    if let Some((n, rest)) = field(text, b"nu_free(fr, ", NUMBERS, b");\n") {
        return Ok(Some((Stored::Free(n), rest)));
    }
    if let Some((slot, rest)) = field(text, b"nu_load(fr, ", NUMBERS, b");\n") {
        return Ok(Some((Stored::Load(slot), rest)));
    }
    if let Some(rest) = after(text, b"nu_caught(fr);\n") {
        return Ok(Some((Stored::Caught, rest)));
    }
    if let Some((line, fail, rest)) = sent(text, registers) {
        return Ok(Some((Stored::Sent { line, fail }, rest)));
    }
    Ok(None)
}
