//! What Python scripts mean (reference, chapters 4 and 6 to 8; PEP 380 and PEP 479).
//!
//! A resolved script is read as codes, one for each scope (specs/Resolved), whose expressions and statements are written
//! in a syntax of their own (specs/Syntax): names by where they live, operators by their operations. What each construct
//! does is a row (specs/Expressions, Statements, Bodies), and a run of the script is a run of these rows.
#![tactic(auto)]

ghost use Rattle.py_meaning.specs.Laws.{ConstructsGoOn, RunsAreMonotone};

/// A run of a script prints no less within a larger bound, and its end stays.
pub fn runs_are_monotone()
    ensures { RunsAreMonotone }
{}

/// The outcome of a construct from any place in it is what the construct makes of the outcome of the part there.
pub fn constructs_go_on()
    ensures { ConstructsGoOn }
{}
