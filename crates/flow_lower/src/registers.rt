//! How many registers lines need.

ghost use Rattle.std.specs.Prelude.{◌≡◌, ◌++◌, suc, max, IfOk};
ghost use Rattle.flow_code.specs.Registers.{operand_reads, argument_reads, arguments_read, reads, writes, line_registers, registers, above};

use flow_code::{Argument, Line, Operand, Statement};
use std::alloc::AllocError;

/// One more than the greatest register that stands in lines. Memory is wanting where that is 2^64: no list has so many.
pub fn count_registers(lines: &[Line]) -> Result<u64, AllocError>
    ensures { IfOk result (λ count. count ≡ above (registers lines.now)) }
{
    let mut count = 0;
    for line in lines {
        count = greater_of(count, line_count(line)?);
    }
    Ok(count)
}

fn line_count(line: &Line) -> Result<u64, AllocError>
    ensures { IfOk result (λ count. count ≡ above (line_registers line.now)) }
{
    match line {
        Line::Label(_) => Ok(0),
        Line::Do(statement) => statement_count(statement),
    }
}

fn statement_count(statement: &Statement) -> Result<u64, AllocError>
    ensures { IfOk result (λ count. count ≡ above (writes statement.now ++ reads statement.now)) }
{
    match statement {
        Statement::Store { to, value } => Ok(greater_of(
            register_count(*to)?,
            operand_count(value)?,
        )),
        Statement::Unset { to } => register_count(*to),
        Statement::Parameter { to, index: _ } => register_count(*to),
        Statement::Free { to, index: _ } => register_count(*to),
        Statement::Do {
            to,
            line: _,
            op: _,
            args,
            fail: _,
        } => Ok(greater_of(register_count(*to)?, arguments_count(args.as_slice())?)),
        Statement::Goto { label: _ } => Ok(0),
        Statement::Branch { test, label: _ } => operand_count(test),
        Statement::Caught { to } => register_count(*to),
        Statement::Again { value, label: _ } => operand_count(value),
        Statement::Give { value } => operand_count(value),
        Statement::End => Ok(0),
        Statement::Fail => Ok(0),
        Statement::Yield {
            to,
            line: _,
            value,
            fail: _,
        } => Ok(greater_of(register_count(*to)?, operand_count(value)?)),
    }
}

fn arguments_count(arguments: &[Argument]) -> Result<u64, AllocError>
    ensures { IfOk result (λ count. count ≡ above (arguments_read arguments.now)) }
{
    let mut count = 0;
    for argument in arguments {
        count = greater_of(count, argument_count(argument)?);
    }
    Ok(count)
}

fn argument_count(argument: &Argument) -> Result<u64, AllocError>
    ensures { IfOk result (λ count. count ≡ above (argument_reads argument.now)) }
{
    match argument {
        Argument::Value(operand) => operand_count(operand),
        Argument::Name(_) => Ok(0),
    }
}

fn operand_count(operand: &Operand) -> Result<u64, AllocError>
    ensures { IfOk result (λ count. count ≡ above (operand_reads operand.now)) }
{
    match operand {
        Operand::Temp(number) => register_count(*number),
        Operand::Const(_) => Ok(0),
    }
}

fn register_count(number: u64) -> Result<u64, AllocError>
    ensures { IfOk result (λ count. count ≡ suc number) }
{
    match number.checked_add(1) {
        Some(count) => Ok(count),
        None => Err(AllocError),
    }
}

fn greater_of(one: u64, other: u64) -> u64
    ensures { result ≡ max one other }
{
    if one < other { other } else { one }
}
