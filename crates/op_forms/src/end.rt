//! How an operation ends.

use nu_run::StopKind;
use nu_text::RcStr;
use nu_value::{Items, Names, Value};

/// How an operation ends.
#[derive(Drop)]
pub enum OpEnd {
    Give(Value),
    /// A new exception of this class with these arguments; or, where the number is that of an exception, that one.
    Raise(u64, Items),
    /// Asks the function of this number with positional and keyword arguments; its value goes on as the last part says.
    Ask(u64, Items, Names, After),
    /// Resumes the generator of this number.
    Resume(u64, How),
    /// Prints a text and gives None.
    Put(RcStr),
    /// Gives the next line of the input, or None at its end.
    Line,
    Stop(StopKind),
}

/// What becomes of the value of an asked function.
#[derive(Drop)]
pub enum After {
    /// It is the operation's value.
    Plain,
    /// It has to be a bool.
    Truth,
    /// It has to be a length; the operation gives whether that isn't 0.
    Some,
    /// It has to be a length.
    Length,
    /// It has to be None, and the operation gives this value; or any value, where this one is None.
    Made(Value),
    /// It has to be a list of texts, which are joined with this one between them.
    Join(RcStr),
    /// It has to be a list, of which a tuple is made.
    Tuple,
    /// It is the text of this uncaught exception.
    Report(u64),
}

/// How a generator is resumed.
#[derive(Drop)]
pub enum How {
    Send(Value),
    /// The exception of this number is raised where it paused.
    Throw(u64),
    Close,
}
