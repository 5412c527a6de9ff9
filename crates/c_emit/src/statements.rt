//! Statements and lines.

ghost use Rattle.std.specs.Prelude.{◌≡◌, ℕ, List, [], ◌∷◌, ◌++◌, OnOk, codes, decimal, string_bytes};
ghost use Rattle.std.specs.List.{flat_map};
ghost use Rattle.nu_text.specs.Pieces.{joined};
ghost use Rattle.op_forms.specs.Names.{op_name};
ghost use Rattle.op_forms.specs.declared.constant.Const.TheVariants as const;
ghost use Rattle.code_forms.specs.declared.operand.Operand.TheVariants as operand;
ghost use Rattle.c_meaning.specs.declared.program.Statement.TheVariants as statement;
ghost use Rattle.c_meaning.specs.declared.program.Stored.TheVariants as stored;
ghost use Rattle.c_meaning.specs.Text.{numbered, operand_text, argument_text, fail_piece, stored_text, case_text, cases_text, statement_text, line_text};

use crate::pieces::{push_form, push_string};
use c_meaning::{Argument, Line, Operand, Statement, Stored};
use op_forms::{Const, Op};
use std::alloc::AllocError;

fn push_operand(text: &mut String, operand: &Operand) -> Result<(), AllocError>
    ensures { OnOk result (string_bytes text.new ≡ string_bytes text.old ++ operand_text operand.now) }
{
    match operand {
        Operand::Temp(register) => write!(text, "r{register}"),
        Operand::Const(constant) => push_constant(text, constant),
    }
}

fn push_constant(text: &mut String, constant: &Const) -> Result<(), AllocError>
    ensures { OnOk result (string_bytes text.new ≡ string_bytes text.old ++ operand_text (operand.Const constant.now)) }
{
    match constant {
        Const::None => push_form(text, "nu_none"),
        Const::Bool(true) => push_form(text, "nu_true"),
        Const::Bool(false) => push_form(text, "nu_false"),
        Const::Int(number) => write!(text, "nu_int(\"{number}\")"),
        Const::Str(bytes) => push_text_constant(text, bytes.as_str().as_bytes()),
    }
}

fn push_text_constant(text: &mut String, bytes: &[u8]) -> Result<(), AllocError>
    ensures { OnOk result (string_bytes text.new ≡ string_bytes text.old ++ operand_text (operand.Const (const.Str bytes.now))) }
{
    text.push_str("nu_str(")?;
    push_string(text, bytes)?;
    text.push_str(")")
}

// An argument, behind a comma.
fn push_argument(text: &mut String, argument: &Argument) -> Result<(), AllocError>
    ensures { OnOk result (string_bytes text.new ≡ string_bytes text.old ++ argument_text argument.now) }
{
    text.push_str(", ")?;
    match argument {
        Argument::Value(operand) => push_operand(text, operand),
        Argument::Name(name) => push_string(text, name.as_str().as_bytes()),
    }
}

fn push_arguments(text: &mut String, arguments: &[Argument]) -> Result<(), AllocError>
    ensures { OnOk result (string_bytes text.new ≡ string_bytes text.old ++ flat_map argument_text arguments.now) }
{
    for argument in arguments {
        push_argument(text, argument)?;
    }
    Ok(())
}

// An operation as far as its line.
fn push_head(text: &mut String, op: Op, line: u32) -> Result<(), AllocError>
    ensures { OnOk result (string_bytes text.new ≡ string_bytes text.old ++ joined (codes "nu_" ∷ op_name op ∷ codes "(fr, " ∷ decimal line ∷ [])) }
{
    let name = op.name();
    write!(text, "nu_{name}(fr, {line}")
}

// Where an operation goes that raises.
fn push_fail(text: &mut String, fail: u64) -> Result<(), AllocError>
    ensures { OnOk result (string_bytes text.new ≡ string_bytes text.old ++ joined (fail_piece ∷ decimal fail ∷ codes ";\n" ∷ [])) }
{
    write!(text, "); if (nu_bad(fr)) goto L{fail};\n")
}

fn push_operation(
    text: &mut String,
    op: Op,
    line: u32,
    arguments: &[Argument],
    fail: u64,
) -> Result<(), AllocError>
    ensures { OnOk result (string_bytes text.new ≡ string_bytes text.old ++ stored_text (stored.Operation op line arguments.now fail)) }
{
    push_head(text, op, line)?;
    push_arguments(text, arguments)?;
    push_fail(text, fail)
}

// What is stored in a register, to the end of the line.
fn push_stored(text: &mut String, what: &Stored) -> Result<(), AllocError>
    ensures { OnOk result (string_bytes text.new ≡ string_bytes text.old ++ stored_text what.now) }
{
    match what {
        Stored::Value(value) => {
            push_operand(text, value)?;
            push_form(text, ";\n")
        }
        Stored::Unset => push_form(text, "nu_unset;\n"),
        Stored::Parameter(n) => write!(text, "nu_arg(fr, {n});\n"),
        Stored::Free(n) => write!(text, "nu_free(fr, {n});\n"),
        Stored::Load(slot) => write!(text, "nu_load(fr, {slot});\n"),
        Stored::Caught => push_form(text, "nu_caught(fr);\n"),
        Stored::Sent { line, fail } => {
            write!(text, "nu_sent(fr, {line}); if (nu_bad(fr)) goto L{fail};\n")
        }
        Stored::Operation {
            op,
            line,
            arguments,
            fail,
        } => push_operation(text, *op, *line, arguments.as_slice(), *fail),
    }
}

// The case of this number.
fn push_case(text: &mut String, number: usize, label: u64) -> Result<(), AllocError>
    ensures { OnOk result (string_bytes text.new ≡ string_bytes text.old ++ case_text number label) }
{
    write!(text, " case {number}: goto L{label};")
}

#[tactic(auto, using(crate::proofs::Pushes::sequences))]
fn push_cases(text: &mut String, labels: &[u64]) -> Result<(), AllocError>
    ensures { OnOk result (string_bytes text.new ≡ string_bytes text.old ++ cases_text labels.now) }
{
    for (number, label) in labels.iter().enumerate() {
        push_case(text, number, *label)?;
    }
    Ok(())
}

fn push_store(text: &mut String, to: u64, what: &Stored) -> Result<(), AllocError>
    ensures { OnOk result (string_bytes text.new ≡ string_bytes text.old ++ statement_text (statement.Store to what.now)) }
{
    write!(text, "  r{to} = ")?;
    push_stored(text, what)
}

// An operand between two pieces.
fn push_valued(
    text: &mut String,
    opening: &str,
    value: &Operand,
    closing: &str,
) -> Result<(), AllocError>
    ensures { OnOk result (string_bytes text.new ≡ string_bytes text.old ++ joined (opening.now ∷ operand_text value.now ∷ closing.now ∷ [])) }
{
    text.push_str(opening)?;
    push_operand(text, value)?;
    text.push_str(closing)
}

// An operand between two pieces, and a label.
fn push_jump(
    text: &mut String,
    opening: &str,
    value: &Operand,
    closing: &str,
    label: u64,
) -> Result<(), AllocError>
    ensures { OnOk result (string_bytes text.new ≡ string_bytes text.old ++ joined (opening.now ∷ operand_text value.now ∷ closing.now ∷ decimal label ∷ codes ";\n" ∷ [])) }
{
    push_valued(text, opening, value, closing)?;
    write!(text, "{label};\n")
}

// A number and an operand behind an opening piece.
fn push_kept(
    text: &mut String,
    opening: &str,
    number: u64,
    value: &Operand,
) -> Result<(), AllocError>
    ensures { OnOk result (string_bytes text.new ≡ string_bytes text.old ++ joined (opening.now ∷ decimal number ∷ codes ", " ∷ operand_text value.now ∷ codes ");\n" ∷ [])) }
{
    write!(text, "{opening}{number}")?;
    push_valued(text, ", ", value, ");\n")
}

fn push_switch(text: &mut String, labels: &[u64]) -> Result<(), AllocError>
    ensures { OnOk result (string_bytes text.new ≡ string_bytes text.old ++ statement_text (statement.Switch labels.now)) }
{
    push_form(text, "  switch (nu_resume(fr)) {")?;
    push_cases(text, labels)?;
    push_form(text, " }\n")
}

fn push_statement(text: &mut String, statement: &Statement) -> Result<(), AllocError>
    ensures { OnOk result (string_bytes text.new ≡ string_bytes text.old ++ statement_text statement.now) }
{
    match statement {
        Statement::Store { to, what } => push_store(text, *to, what),
        Statement::Goto(label) => write!(text, "  goto L{label};\n"),
        Statement::Branch { test, label } => {
            push_jump(text, "  if (nu_is(", test, ")) goto L", *label)
        }
        Statement::Again { exception, label } => {
            push_jump(text, "  nu_again(fr, ", exception, "); goto L", *label)
        }
        Statement::Give(value) => push_valued(text, "  return nu_give(fr, ", value, ");\n"),
        Statement::End => push_form(text, "  return nu_end(fr);\n"),
        Statement::Fail => push_form(text, "  return nu_fail(fr);\n"),
        Statement::Switch(labels) => push_switch(text, labels.as_slice()),
        Statement::Save { slot, value } => push_kept(text, "  nu_save(fr, ", *slot, value),
        Statement::Pause { number, value } => {
            push_kept(text, "  return nu_pause(fr, ", *number, value)
        }
    }
}

/// A line of a body.
pub(crate) fn push_line(text: &mut String, line: &Line) -> Result<(), AllocError>
    ensures { OnOk result (string_bytes text.new ≡ string_bytes text.old ++ line_text line.now) }
{
    match line {
        Line::Do(statement) => push_statement(text, statement),
        Line::Label(label) => write!(text, "L{label}:;\n"),
    }
}
