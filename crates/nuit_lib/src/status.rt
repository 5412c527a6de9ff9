//! How a call ends.

ghost use Rattle.std.specs.Prelude.{◌≡◌};
ghost use Rattle.nuit_lib.specs.Codes.{code_of};

/// How a call ends.
#[derive(Clone, Copy, Debug, PartialEq, Eq)]
pub enum Status {
    /// The work is done, or the run ended normally.
    Done,
    /// The run ended with an exception.
    Uncaught,
    /// The words ask for nothing that there is.
    Usage,
    /// The script lies outside the profile.
    Refused,
    /// No program stands for the bytes.
    NotC,
    /// The run ended with a named stop.
    Stopped,
    /// The run has no end within the steps.
    Steps,
    /// A file or the input can't be read.
    ReadFault,
    /// An output can't be written.
    WriteFault,
    /// Memory is wanting.
    Memory,
    /// The file is longer than the command's limit.
    TooLarge,
    /// The C text says nothing of a statement that the run reached.
    Undefined,
    /// There is no such file.
    Missing,
}

impl Status {
    /// The status that the program ends with.
    pub fn code(self) -> u8
        ensures { result ≡ code_of self }
    {
        self as u8
    }
}
