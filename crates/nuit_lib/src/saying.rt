//! Messages on the error output.

ghost use Rattle.nuit_lib.specs.Ends.{Said, stream};

use crate::status::Status;
use nu_base::{PutTrouble, Sink};

pub(crate) const READ_FAULT: &str = "nuit: read fault\n";

// Writes a message, and answers the status, or why the message was not written.
pub(crate) fn say<E: Sink>(err: &mut E, message: &str, status: Status) -> Status
    ensures { Said (stream (E.held err.old) (E.held err.new) (E.faults err.old) (E.faults err.new)) message.now status result }
{
    put(err, message.as_bytes(), status)
}

pub(crate) fn put<E: Sink>(err: &mut E, message: &[u8], status: Status) -> Status
    ensures { Said (stream (E.held err.old) (E.held err.new) (E.faults err.old) (E.faults err.new)) message.now status result }
{
    match err.put(message) {
        Ok(()) => status,
        Err(PutTrouble::Failed) => Status::WriteFault,
        Err(PutTrouble::Memory) => Status::Memory,
    }
}
