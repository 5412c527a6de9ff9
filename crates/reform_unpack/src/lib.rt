//! Assignments as primitive statements: to names of the module.
//!
//! Each function answers a block that carries its construct where the parts carry theirs. It has the statements of its parts and
//! some of its own, which write fresh temporaries.
#![tactic(auto)]

ghost use Rattle.reform_unpack.specs.Laws.{CarriesAssignments};

mod assigned;
mod augmented;
mod place;

pub use assigned::assign;
pub use augmented::augment;
pub use place::Place;

/// An assignment is carried where its right side is, and behind it its targets, one after another (reference, section 7.2).
pub fn assignments_are_carried()
    ensures { CarriesAssignments }
{}
