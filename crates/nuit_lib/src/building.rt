//! `build FILE`: from the bytes of a script to the output.

ghost use Rattle.std.specs.Prelude.{◌≤◌, length};
ghost use Rattle.nuit_lib.specs.Replies.{BuildReply, refused_text};
ghost use Rattle.nuit_lib.specs.Ends.{Nothing, Said, Writes, stream};

use crate::compiling::compile;
use crate::reading::{ReadEnd, read};
use crate::refusal::Kind;
use crate::saying::say;
use crate::status::Status;
use nu_base::{PutTrouble, Sink};
use reform_all::ReformEnd;
use std::alloc::Global;

// Builds a script of this name.
pub(crate) fn build<O: Sink, E: Sink>(
    alloc: Global,
    name: &str,
    text: &[u8],
    out: &mut O,
    err: &mut E,
) -> Status
    requires { length text.now ≤ 262144 }
    ensures { Writes (BuildReply name.now text.now) Nothing
        (stream (O.held out.old) (O.held out.new) (O.faults out.old) (O.faults out.new))
        (stream (E.held err.old) (E.held err.new) (E.faults err.old) (E.faults err.new)) result }
{
    let script = match read(alloc, text) {
        Ok(script) => script,
        Err(ReadEnd::Refused { kind, line }) => return refuse(alloc, err, kind, line),
        Err(ReadEnd::Memory) => return Status::Memory,
    };
    let c_text = match compile(alloc, name, &script) {
        Ok(c_text) => c_text,
        Err(ReformEnd::Unbuilt { line }) => return refuse(alloc, err, Kind::Unbuilt, line),
        Err(ReformEnd::Memory) => return Status::Memory,
    };
    match out.put(&c_text) {
        Ok(()) => Status::Done,
        Err(PutTrouble::Failed) => Status::WriteFault,
        Err(PutTrouble::Memory) => Status::Memory,
    }
}

// Says that a script is refused.
fn refuse<E: Sink>(alloc: Global, err: &mut E, kind: Kind, line: u32) -> Status
    ensures { Said (stream (E.held err.old) (E.held err.new) (E.faults err.old) (E.faults err.new)) (refused_text kind line) Status.Refused result }
{
    let kind = kind.name();
    let Ok(message) = format!(in alloc; "nuit: refused: {kind}, line {line}\n") else {
        return Status::Memory;
    };
    say(err, message.as_str(), Status::Refused)
}
