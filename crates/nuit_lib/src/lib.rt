//! The compiler: a script of the Python profile becomes C text.
//!
//! `nuit` is the call that the program makes. specs/ tells its story in this order: `Words` (what the words ask for),
//! `Scripts` (which bytes are a script that is built), `Refusals` (why others are not), `Compiled` (what is written for a script),
//! `Replies` (what a call owes), `Ends` (how a call ends). `Reading` says what the way to a script answers on the way.
#![tactic(auto)]

mod building;
mod call;
mod compiling;
mod laws;
mod reading;
mod refusal;
mod running;
mod saying;
mod status;
mod words;

pub use call::nuit;
pub use laws::one_kind;
pub use status::Status;
