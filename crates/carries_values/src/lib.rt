//! When blocks of primitive statements carry expressions whose parts aren't all evaluated, and those that collect their parts.
//!
//! The laws serve the reformulation of scripts: where the blocks that it builds are these, their runs are those of the script.
#![tactic(auto)]

ghost use Rattle.carries_values.specs.Laws.{CarriesChoices, CarriesDisplays, CarriesCalls};

/// `and`, `or`, conditional expressions and chains of comparisons are carried where their parts are.
pub fn choices_are_carried()
    ensures { CarriesChoices }
{}

/// Displays with stars, and dict displays, are carried where their parts are.
pub fn displays_are_carried()
    ensures { CarriesDisplays }
{}

/// Calls with stars and keywords are carried where their parts are.
pub fn calls_are_carried()
    ensures { CarriesCalls }
{}
