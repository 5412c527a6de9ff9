//! Operations, calls and resumes as rows, and the runs of scripts.
//!
//! A language is given by the rows of its codes' bodies and by how a frame begins; what an operation's end does, how a
//! call or a generator is begun and left, and what a script's run is, are the same for all.
#![tactic(auto)]

ghost use Rattle.nu_calls.specs.Laws.{ProgramRunsAreMonotone};

/// In every language a run of a program prints no less within a larger bound, and its end stays.
pub fn program_runs_are_monotone<F, I>()
    ensures { ProgramRunsAreMonotone F I }
{}
