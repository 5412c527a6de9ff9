//! The statements of a body.

ghost use Rattle.std.specs.Prelude.{◌≡◌, ℕ, ◌+◌, ◌<◌, ◌^◌, List, ◌∷◌, ◌++◌, IfOk, OnOk};
ghost use Rattle.std.specs.List.{AllByRecursion};
ghost use Rattle.flow_code.specs.declared.statement.Line.{Line as FlatLine};
ghost use Rattle.flow_code.specs.Contents.{yields};
ghost use Rattle.c_meaning.specs.declared.program.Line.{Line as CLine};
ghost use Rattle.generator_cut.specs.Cut.{becomes, behind_line, lines as cut_lines};
ghost use Rattle.generator_cut.specs.Fits.{StatementFits, LineFits};

use crate::pauses::{after, mark, put, put_pause};
use c_meaning::{Line, Statement, Stored};
use code_forms::share_arguments;
use std::alloc::{AllocError, Global};

// A statement, where so many pauses stand before it.
fn put_statement(
    alloc: Global,
    out: &mut Vec<Line>,
    base: u64,
    pauses: u64,
    saved: &[u64],
    statement: &flow_code::Statement,
) -> Result<(), AllocError>
    requires room { base + pauses < 2 ^ 64 }
    requires few { pauses + 1 < 2 ^ 64 }
    ensures lines { OnOk result ((tail : List CLine) → out.new.items ++ tail ≡ out.old.items ++ becomes base saved.now pauses statement.now tail) }
    ensures fits { OnOk result (StatementFits statement.now) }
{
    match statement {
        flow_code::Statement::Store { to, value } => {
            let what = Stored::Value(value.share()?);
            put(out, Statement::Store { to: *to, what })
        }
        flow_code::Statement::Unset { to } => put(
            out,
            Statement::Store {
                to: *to,
                what: Stored::Unset,
            },
        ),
        flow_code::Statement::Parameter { to, index } => put(
            out,
            Statement::Store {
                to: *to,
                what: Stored::Parameter(*index),
            },
        ),
        flow_code::Statement::Free { to, index } => put(
            out,
            Statement::Store {
                to: *to,
                what: Stored::Free(*index),
            },
        ),
        flow_code::Statement::Do {
            to,
            line,
            op,
            args,
            fail,
        } => {
            let arguments = share_arguments(alloc, args.as_slice())?;
            put(
                out,
                Statement::Store {
                    to: *to,
                    what: Stored::Operation {
                        op: *op,
                        line: *line,
                        arguments,
                        fail: *fail,
                    },
                },
            )
        }
        flow_code::Statement::Goto { label } => put(out, Statement::Goto(*label)),
        flow_code::Statement::Branch { test, label } => {
            let test = test.share()?;
            put(
                out,
                Statement::Branch {
                    test,
                    label: *label,
                },
            )
        }
        flow_code::Statement::Caught { to } => put(
            out,
            Statement::Store {
                to: *to,
                what: Stored::Caught,
            },
        ),
        flow_code::Statement::Again { value, label } => {
            let exception = value.share()?;
            put(
                out,
                Statement::Again {
                    exception,
                    label: *label,
                },
            )
        }
        flow_code::Statement::Give { value } => {
            let value = value.share()?;
            put(out, Statement::Give(value))
        }
        flow_code::Statement::End => put(out, Statement::End),
        flow_code::Statement::Fail => put(out, Statement::Fail),
        flow_code::Statement::Yield {
            to,
            line,
            value,
            fail,
        } => {
            let value = value.share()?;
            put_pause(out, base + pauses, pauses + 1, saved, value)?;
            put(
                out,
                Statement::Store {
                    to: *to,
                    what: Stored::Sent {
                        line: *line,
                        fail: *fail,
                    },
                },
            )
        }
    }
}

// A line; the number of pauses then.
fn put_line(
    alloc: Global,
    out: &mut Vec<Line>,
    base: u64,
    pauses: u64,
    saved: &[u64],
    line: &flow_code::Line,
) -> Result<u64, AllocError>
    requires room { base + pauses < 2 ^ 64 }
    requires few { pauses + 1 < 2 ^ 64 }
    ensures lines { IfOk result (λ more. (left : List FlatLine) → out.new.items ++ cut_lines base (λ x left. saved.now) more left ≡ out.old.items ++ cut_lines base (λ x left. saved.now) pauses (line.now ∷ left)) }
    ensures fits { IfOk result (λ more. LineFits line.now) }
    ensures pauses { IfOk result (λ more. more ≡ behind_line pauses line.now) }
{
    match line {
        flow_code::Line::Label(label) => {
            mark(out, *label)?;
            Ok(pauses)
        }
        flow_code::Line::Do(statement) => {
            put_statement(alloc, out, base, pauses, saved, statement)?;
            Ok(after(pauses, statement))
        }
    }
}

/// The lines of a body.
pub(crate) fn put_lines(
    alloc: Global,
    out: &mut Vec<Line>,
    base: u64,
    saved: &[u64],
    body: &[flow_code::Line],
) -> Result<(), AllocError>
    requires room { base + yields body.now < 2 ^ 64 }
    requires few { yields body.now + 1 < 2 ^ 64 }
    ensures lines { OnOk result (out.new.items ≡ out.old.items ++ cut_lines base (λ x left. saved.now) 0 body.now) }
    ensures fits { OnOk result (AllByRecursion LineFits body.now) }
{
    let mut pauses = 0;
    for one in body {
        pauses = put_line(alloc, out, base, pauses, saved, one)?;
    }
    Ok(())
}
