//! Where a run of a program stands, and what its plain statements do to it.
//!
//! An `Execution` is the function that runs, those that wait for it in a `stack`, what paused generators keep (`kept`), and the world
//! of operations. Functions begin, wait and go on (`frames`); stores, jumps, saves and loads change the one that runs
//! (`execution`). The definitions stand in specs/: `Standing` (the state that contracts see), `Frames`, `Values` and `Light`.
#![tactic(auto)]

mod execution;
mod frames;
mod kept;
mod stack;
mod values;

pub use execution::Execution;
pub use frames::Site;
pub use kept::Seats;
pub use stack::Stack;
pub use values::held;
