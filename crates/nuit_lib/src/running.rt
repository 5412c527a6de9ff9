//! `run FILE` and `run FILE STEPS`: from the bytes of a C text to its run.

ghost use Rattle.std.specs.Prelude.{◌≡◌, ◌≤◌, List, ℕ, false, length, true};
ghost use Rattle.c_meaning.specs.declared.program.CProgram.{CProgram};
ghost use Rattle.c_meaning.specs.Written.{IsText};
ghost use Rattle.c_machine.specs.Machines.{IsFresh};
ghost use Rattle.nuit_lib.specs.Replies.{message_at, not_c_text, status_at, stop_name, stop_text, undefined_text};
ghost use Rattle.nuit_lib.specs.Ends.{RunEnds, RunTakes, Said, TakesFront, is_before_run, stream};

use crate::saying::{READ_FAULT, put, say};
use crate::status::Status;
use c_machine::{Machine, Stepped, Trouble, start};
use c_meaning::CEnd;
use c_reader::{ReadEnd, read};
use nu_base::{Sink, Source};
use nu_run::StopKind;
use std::alloc::Global;

const STEPS: &str = "nuit: steps\n";

// Runs a C text.
pub(crate) fn run<I: Source, O: Sink, E: Sink>(
    alloc: Global,
    text: &[u8],
    steps: u64,
    input: &mut I,
    out: &mut O,
    err: &mut E,
) -> Status
    requires { length text.now ≤ 1073741824 }
    ensures writes { RunEnds text.now steps
        (stream (I.left input.old) (I.left input.new) (I.faults input.old) (I.faults input.new))
        (stream (O.held out.old) (O.held out.new) (O.faults out.old) (O.faults out.new))
        (stream (E.held err.old) (E.held err.new) (E.faults err.old) (E.faults err.new)) result }
    ensures input { TakesFront (I.left input.old) (I.left input.new) }
    ensures early_input { is_before_run result ≡ true → input.new ≡ input.old }
    ensures few { RunTakes text.now steps input.old input.new (I.left input.old) (I.left input.new) }
    ensures counts { I.faults input.old ≤ I.faults input.new }
{
    let program = match read(alloc, text) {
        Ok(program) => program,
        Err(ReadEnd::NotC { line }) => return say_not_c(alloc, err, line),
        Err(ReadEnd::Memory) => return Status::Memory,
    };
    let Ok(mut machine) = start(alloc, program) else {
        return Status::Memory;
    };
    let status = finish(alloc, &mut machine, steps, input, out, err);
    drop(machine);
    status
}

// Runs a machine that has taken no step, and says how its run ends. What the machine holds is dropped by its owner alone.
fn finish<I: Source, O: Sink, E: Sink>(
    alloc: Global,
    machine: &mut Machine,
    steps: u64,
    input: &mut I,
    out: &mut O,
    err: &mut E,
) -> Status
    ensures writes { (bytes : List ℕ) (p : CProgram) → length bytes ≤ 1073741824 → IsText bytes p → IsFresh machine.old p → RunEnds bytes steps
        (stream (I.left input.old) (I.left input.new) (I.faults input.old) (I.faults input.new))
        (stream (O.held out.old) (O.held out.new) (O.faults out.old) (O.faults out.new))
        (stream (E.held err.old) (E.held err.new) (E.faults err.old) (E.faults err.new)) result }
    ensures input { machine.old.failed ≡ false → TakesFront (I.left input.old) (I.left input.new) }
    ensures late { is_before_run result ≡ false }
    ensures few { (bytes : List ℕ) (p : CProgram) → IsText bytes p → IsFresh machine.old p → RunTakes bytes steps input.old input.new (I.left input.old) (I.left input.new) }
    ensures counts { I.faults input.old ≤ I.faults input.new }
{
    match machine.run(steps, input, out) {
        Ok(Stepped::More) => say(err, STEPS, Status::Steps),
        Ok(Stepped::Ended) => match machine.end() {
            Some(end) => say_end(alloc, err, end),
            None => Status::Memory,
        },
        Err(Trouble::WriteFault) => Status::WriteFault,
        Err(Trouble::ReadFault) => say(err, READ_FAULT, Status::ReadFault),
        Err(Trouble::Memory) => Status::Memory,
        Err(Trouble::Failed) => Status::Memory,
    }
}

// Says that no program stands for the bytes.
fn say_not_c<E: Sink>(alloc: Global, err: &mut E, line: u32) -> Status
    ensures { Said (stream (E.held err.old) (E.held err.new) (E.faults err.old) (E.faults err.new)) (not_c_text line) Status.NotC result }
{
    let Ok(message) = format!(in alloc; "nuit: not C, line {line}\n") else {
        return Status::Memory;
    };
    say(err, message.as_str(), Status::NotC)
}

// Says how a run ended.
fn say_end<E: Sink>(alloc: Global, err: &mut E, end: &CEnd) -> Status
    ensures { Said (stream (E.held err.old) (E.held err.new) (E.faults err.old) (E.faults err.new)) (message_at end.now) (status_at end.now) result }
{
    match end {
        CEnd::Done => Status::Done,
        CEnd::Uncaught { text } => put(err, text.as_slice(), Status::Uncaught),
        CEnd::Stopped(kind) => say_stop(alloc, err, *kind),
        CEnd::Undefined {
            function,
            statement,
        } => say_undefined(alloc, err, *function, *statement),
    }
}

// Says that a run stopped.
fn say_stop<E: Sink>(alloc: Global, err: &mut E, kind: StopKind) -> Status
    ensures { Said (stream (E.held err.old) (E.held err.new) (E.faults err.old) (E.faults err.new)) (stop_text kind) Status.Stopped result }
{
    let name = name_of(kind);
    let Ok(message) = format!(in alloc; "nuit: stop: {name}\n") else {
        return Status::Memory;
    };
    say(err, message.as_str(), Status::Stopped)
}

fn name_of(kind: StopKind) -> &'static str
    ensures { result.now ≡ stop_name kind }
{
    match kind {
        StopKind::Int => "Int",
        StopKind::Float => "Float",
        StopKind::Unbuilt => "Unbuilt",
        StopKind::Depth => "Depth",
        StopKind::Size => "Size",
        StopKind::Line => "Line",
    }
}

// Says where a run met a statement of which nothing is said.
fn say_undefined<E: Sink>(alloc: Global, err: &mut E, function: u32, statement: u64) -> Status
    ensures { Said (stream (E.held err.old) (E.held err.new) (E.faults err.old) (E.faults err.new)) (undefined_text function statement) Status.Undefined result }
{
    let Ok(message) = format!(in alloc;
        "nuit: undefined: function {function}, statement {statement}\n"
    ) else {
        return Status::Memory;
    };
    say(err, message.as_str(), Status::Undefined)
}
