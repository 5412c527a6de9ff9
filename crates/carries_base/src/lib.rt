//! When blocks of primitive statements carry the constructs of a script.
//!
//! A block carries a construct where, from corresponding states and from corresponding places, the two print the same and end
//! correspondingly, in both directions (specs/Carries). What blocks are made of is proved to carry by combinator (proofs/).
//!
//! The laws serve the reformulation of scripts: where the blocks that it builds are these, their runs are those of the script.
#![tactic(auto)]

ghost use Rattle.carries_base.specs.Laws.{CarriedScriptsAreTheSame, CarriesPlainCodes, CarriesSmall, CarriesStatements};

/// A script whose codes are carried has the run of the nodes, over every input.
pub fn carried_scripts_are_the_same()
    ensures { CarriedScriptsAreTheSame }
{}

/// Small constructs are carried where their parts are.
pub fn small_constructs_are_carried()
    ensures { CarriesSmall }
{}

/// Statements one after another, branches and loops are carried where their parts are.
pub fn statements_are_carried()
    ensures { CarriesStatements }
{}

/// A code without cells is carried where its block is.
pub fn plain_codes_are_carried()
    ensures { CarriesPlainCodes }
{}
