//! The codes of an accepted script are lawful: no run of them ends Undefined.
//!
//! The survey of a script and its codes go over the same tree in the same order, so each scope has its code; each name has its place in
//! the frame of its scope and each cell in the scope around it, by the homes of names; and what the static rules keep is what lawful
//! constructs ask for.
#![tactic(auto)]

ghost use Rattle.py_accepted.specs.Laws.{AcceptedScriptsAreLawful, AcceptedScriptsNeverEndUndefined};

use py_safe::runs_never_end_undefined;
use py_scopes::scopes_nest;

/// The codes of each script that keeps the static rules are lawful.
pub fn accepted_scripts_are_lawful()
    ensures { AcceptedScriptsAreLawful }
{
    scopes_nest();
}

/// No run of a script that keeps the static rules ends Undefined.
pub fn accepted_scripts_never_end_undefined()
    ensures { AcceptedScriptsNeverEndUndefined }
{
    runs_never_end_undefined();
    accepted_scripts_are_lawful();
}
