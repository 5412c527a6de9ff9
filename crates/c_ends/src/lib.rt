//! What the end of an operation begins, and what the code that began a body has of how it ended, over the world of operations.
//!
//! Functions are asked (`calls`), `generators` are resumed, pause and end, and exceptions are made and get their entries
//! (`raises`). The definitions are those of nu_calls; specs/Outcomes says how the types here show them.
#![tactic(auto)]

mod calls;
mod generators;
mod outcome;
mod raises;

pub use calls::{begun, call_ended};
pub use generators::{generator_ended, generator_paused};
pub use outcome::{Begun, BodyEnd, Outcome};
pub use raises::enlist;
