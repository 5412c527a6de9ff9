//! When blocks of primitive statements carry names at every home, codes that have cells and local variables, and functions.
//!
//! The laws serve the reformulation of scripts: where the blocks that it builds are these, their runs are those of the script.
#![tactic(auto)]

ghost use Rattle.carries_names.specs.Laws.{CarriesCodes, CarriesFunctions, CarriesNames};

/// Names are read, bound and unbound at every home.
pub fn names_are_carried()
    ensures { CarriesNames }
{}

/// A code is carried where its body is, behind its cells and its local variables.
pub fn codes_are_carried()
    ensures { CarriesCodes }
{}

/// A function is carried where its defaults are.
pub fn functions_are_carried()
    ensures { CarriesFunctions }
{}
