//! When blocks of primitive statements carry definitions of functions and classes, comprehensions, and `yield from`.
//!
//! The laws serve the reformulation of scripts: where the blocks that it builds are these, their runs are those of the script.
#![tactic(auto)]

ghost use Rattle.carries_definitions.specs.Laws.{CarriesComprehensions, CarriesDefinitions, CarriesDelegation};

/// `def` and `class` are carried where their decorators, what they define, and the name's binding are.
pub fn definitions_are_carried()
    ensures { CarriesDefinitions }
{}

/// A comprehension is carried where its first iterable is, and the body of its code where its clauses are.
pub fn comprehensions_are_carried()
    ensures { CarriesComprehensions }
{}

/// `yield from` is carried where what follows each value sent, and each exception thrown, is.
pub fn delegation_is_carried()
    ensures { CarriesDelegation }
{}
