//! When blocks of primitive statements carry `for`, `raise`, `assert`, `try`, `finally` and `with`.
//!
//! The laws serve the reformulation of scripts: where the blocks that it builds are these, their runs are those of the script.
#![tactic(auto)]

ghost use Rattle.carries_control.specs.Laws.{CarriesFinishes, CarriesFor, CarriesRaises, CarriesTries};

/// Exceptions are raised, and assertions tested, where the parts are carried.
pub fn raises_are_carried()
    ensures { CarriesRaises }
{}

/// A `for` is carried where its parts are.
pub fn for_is_carried()
    ensures { CarriesFor }
{}

/// A `try` is carried where its body and its clauses are.
pub fn tries_are_carried()
    ensures { CarriesTries }
{}

/// What runs after every end of a body is carried where its parts are.
pub fn finishes_are_carried()
    ensures { CarriesFinishes }
{}
