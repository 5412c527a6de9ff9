//! The C program of flat code, with its pauses as resume numbers and slots.
#![tactic(auto)]

mod cutting;
mod pauses;
mod statements;

ghost use Rattle.generator_cut.specs.Correct.{ProgramsDoTheSame};

pub use cutting::cut;

/// The program of flat code does what the flat code does.
pub fn programs_do_the_same()
    ensures { ProgramsDoTheSame }
{}
