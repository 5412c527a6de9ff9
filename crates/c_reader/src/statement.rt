//! Statements and lines.

ghost use Rattle.std.specs.Prelude.{◌++◌, ℕ, List, IfOk, IfSome, IfNone, codes};
ghost use Rattle.c_meaning.specs.declared.program.Stored.{Stored};
ghost use Rattle.c_meaning.specs.declared.program.Statement.{Statement};
ghost use Rattle.c_meaning.specs.declared.program.Statement.TheVariants as statement;
ghost use Rattle.c_meaning.specs.declared.program.Line.{Line};
ghost use Rattle.c_reader.specs.Statements.{CaseStands, CasesStand, StatementStands, LineStands};

use crate::number::{NUMBERS, after, after_number, field, number};
use crate::operand::{jump, kept, valued};
use crate::stored::stored;
use c_meaning::{Line, Statement, Stored};
use sqlite_items::Items;
use std::alloc::{AllocError, Global};

// The register and what is stored in it.
fn store(
    alloc: Global,
    text: &[u8],
    registers: u64,
) -> Result<Option<(u64, Stored, &[u8])>, AllocError>
    ensures some { IfOk result (λ read. IfSome read (λ found.
        StatementStands registers text.now (statement.Store found.0 found.1) found.2.now)) }
    ensures none { IfOk result (λ read. IfNone read ((to : ℕ) (what : Stored) (rest : List ℕ)
        → StatementStands registers text.now (statement.Store to what) rest → ⊥)) }
{
    let Some((to, behind)) = field(text, b"  r", u128::from(registers), b" = ") else {
        return Ok(None);
    };
    let Some((what, rest)) = stored(alloc, behind, registers)? else {
        return Ok(None);
    };
    Ok(Some((to, what, rest)))
}

// The label of the case of this number behind the word `case`, and what follows.
fn case_label(text: &[u8], number_of_case: u64) -> Option<(u64, &[u8])>
    ensures some { IfSome result (λ found.
        CaseStands number_of_case (codes " case " ++ text.now) found.0 found.1.now) }
    ensures none { IfNone result ((label : ℕ) (rest : List ℕ)
        → CaseStands number_of_case (codes " case " ++ text.now) label rest → ⊥) }
{
    let behind = after_number(text, number_of_case, b": goto L")?;
    number(behind, NUMBERS, b";")
}

// The labels of all cases, and what follows.
fn cases(alloc: Global, text: &[u8]) -> Result<Option<(Items<u64>, &[u8])>, AllocError>
    ensures some { IfOk result
        (λ read. IfSome read (λ found. CasesStand text.now found.0 found.1.now)) }
    ensures none { IfOk result (λ read. IfNone read ((labels rest : List ℕ)
        → CasesStand text.now labels rest → ⊥)) }
{
    let mut labels = Items::new(alloc);
    let mut rest = text;
    while let Some(behind) = after(rest, b" case ") {
        let Some((label, behind)) = case_label(behind, labels.len() as u64) else {
            return Ok(None);
        };
        labels.push(label)?;
        rest = behind;
    }
    Ok(Some((labels, rest)))
}

// The labels to which a switch jumps, at least one.
fn switch(
    alloc: Global,
    text: &[u8],
    registers: u64,
) -> Result<Option<(Items<u64>, &[u8])>, AllocError>
    ensures some { IfOk result (λ read. IfSome read
        (λ found. StatementStands registers text.now (statement.Switch found.0) found.1.now)) }
    ensures none { IfOk result (λ read. IfNone read ((labels rest : List ℕ)
        → StatementStands registers text.now (statement.Switch labels) rest → ⊥)) }
{
    let _registers = registers;
    let Some(behind) = after(text, b"  switch (nu_resume(fr)) {") else {
        return Ok(None);
    };
    let Some((labels, behind)) = cases(alloc, behind)? else {
        return Ok(None);
    };
    let Some(rest) = after(behind, b" }\n") else {
        return Ok(None);
    };
    if labels.len() == 0 {
        return Ok(None);
    }
    Ok(Some((labels, rest)))
}

// The statement at the front of the text, and what follows.
fn statement(
    alloc: Global,
    text: &[u8],
    registers: u64,
) -> Result<Option<(Statement, &[u8])>, AllocError>
    ensures some { IfOk result
        (λ read. IfSome read (λ found. StatementStands registers text.now found.0 found.1.now)) }
    ensures none { IfOk result (λ read. IfNone read ((s : Statement) (rest : List ℕ)
        → StatementStands registers text.now s rest → ⊥)) }
{
    if let Some((to, what, rest)) = store(alloc, text, registers)? {
        return Ok(Some((Statement::Store { to, what }, rest)));
    }
    if let Some((label, rest)) = field(text, b"  goto L", NUMBERS, b";\n") {
        return Ok(Some((Statement::Goto(label), rest)));
    }
    if let Some((test, label, rest)) = jump(
        alloc,
        text,
        registers,
        b"  if (nu_is(",
        b")) goto L",
    )? {
        return Ok(Some((Statement::Branch { test, label }, rest)));
    }
    if let Some((exception, label, rest)) = jump(
        alloc,
        text,
        registers,
        b"  nu_again(fr, ",
        b"); goto L",
    )? {
        return Ok(Some((Statement::Again { exception, label }, rest)));
    }
    if let Some((value, rest)) = valued(
        alloc,
        text,
        registers,
        b"  return nu_give(fr, ",
        b");\n",
    )? {
        return Ok(Some((Statement::Give(value), rest)));
    }
    if let Some(rest) = after(text, b"  return nu_end(fr);\n") {
        return Ok(Some((Statement::End, rest)));
    }
    if let Some(rest) = after(text, b"  return nu_fail(fr);\n") {
        return Ok(Some((Statement::Fail, rest)));
    }
    if let Some((labels, rest)) = switch(alloc, text, registers)? {
        return Ok(Some((Statement::Switch(labels), rest)));
    }
    if let Some((slot, value, rest)) = kept(alloc, text, registers, b"  nu_save(fr, ")? {
        return Ok(Some((Statement::Save { slot, value }, rest)));
    }
    if let Some((number, value, rest)) = kept(alloc, text, registers, b"  return nu_pause(fr, ")? {
        return Ok(Some((Statement::Pause { number, value }, rest)));
    }
    Ok(None)
}

/// The line of a body at the front of the text, and what follows.
pub(crate) fn line(
    alloc: Global,
    text: &[u8],
    registers: u64,
) -> Result<Option<(Line, &[u8])>, AllocError>
    ensures some { IfOk result
        (λ read. IfSome read (λ found. LineStands registers text.now found.0 found.1.now)) }
    ensures none { IfOk result (λ read. IfNone read ((l : Line) (rest : List ℕ)
        → LineStands registers text.now l rest → ⊥)) }
{
    if let Some((label, rest)) = field(text, b"L", NUMBERS, b":;\n") {
        return Ok(Some((Line::Label(label), rest)));
    }
    if let Some((statement, rest)) = statement(alloc, text, registers)? {
        return Ok(Some((Line::Do(statement), rest)));
    }
    Ok(None)
}
