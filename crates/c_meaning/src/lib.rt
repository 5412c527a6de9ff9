//! What the written C text is and does: its programs, how they are spelled, and how they run, statement by statement.
//!
//! The definitions stand in specs/: `Text` (the spelling), `Written` (which programs have a text), `Code` (what runs of a
//! program), `State` (where a run stands), `Step` (what each statement does), `Run` (starts and runs).
#![tactic(auto)]

mod code;
mod program;
mod state;

ghost use Rattle.c_meaning.specs.Laws.{RunsAreMonotone};

pub use code::{Body, Code, Placed};
pub use code_forms::{Argument, Operand};
pub use nu_run::End as CEnd;
pub use program::{CProgram, Function, Line, Statement, Stored};
pub use state::{Activation, Kept, Purpose, Told, Uncaught};

/// A larger bound prints no less, and an end stays.
pub fn runs_are_monotone()
    ensures { RunsAreMonotone }
{}
